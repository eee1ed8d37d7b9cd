//! Texts of plain values: what is written, and what is read.

use crate::base::rows::read;
use crate::expect::{expect_equal, expect_text, written};
use crate::samples::{IDENTIFIER, expect_rows};
use rtr_base::action::Action;
use rtr_base::addr::{MaxLenError, MaxLenPrefix, Prefix, PrefixError};
use rtr_base::afi::Afi;
use rtr_base::asn::Asn;
use rtr_base::error_code::ErrorCode;
use rtr_base::keys::KeyIdentifier;
use rtr_base::parse::{ParseAsnError, ParseKeyIdentifierError};
use rtr_base::state::Serial;
use std::alloc::Global;
use std::error::Error;
use std::process::Abort;

const WRITTEN_AS_NUMBERS: &str = "\
0 -> AS0
65551 -> AS65551
4294967295 -> AS4294967295
";

fn as_number(alloc: Global, number: &str) -> Option<String> {
    written(alloc, &Asn::from_u32(number.parse().ok()?))
}

const READ_AS_NUMBERS: &str = "\
'AS0' -> AS0
'AS65551' -> AS65551
'AS4294967295' -> AS4294967295
'as65551' -> AS65551
'65551' -> AS65551
'AS+65551' -> AS65551
'AS065551' -> AS65551
'' -> ParseAsnError
'AS' -> ParseAsnError
'AS ' -> ParseAsnError
'aS1' -> ParseAsnError
'ASN1' -> ParseAsnError
'AS-1' -> ParseAsnError
'ASAS1' -> ParseAsnError
'AS1 ' -> ParseAsnError
' AS1' -> ParseAsnError
'AS4294967296' -> ParseAsnError
'1.1' -> ParseAsnError
";

fn read_as_number(alloc: Global, text: &str) -> Option<String> {
    read::<Asn>(alloc, text)
}

#[test]
fn as_numbers(rt: HostRuntime) {
    expect_rows(&rt, rt.alloc(), WRITTEN_AS_NUMBERS, as_number);
    expect_rows(&rt, rt.alloc(), READ_AS_NUMBERS, read_as_number);
}

const SERIALS: &str = "\
'4294967295' -> 4294967295
'12' -> 12
'7' -> 7
'+5' -> 5
'007' -> 7
'4294967296' -> ParseIntError { kind: PosOverflow }
'' -> ParseIntError { kind: Empty }
'+' -> ParseIntError { kind: InvalidDigit }
'-1' -> ParseIntError { kind: InvalidDigit }
'++1' -> ParseIntError { kind: InvalidDigit }
' 1' -> ParseIntError { kind: InvalidDigit }
'1 ' -> ParseIntError { kind: InvalidDigit }
'0x1' -> ParseIntError { kind: InvalidDigit }
";

fn read_serial(alloc: Global, text: &str) -> Option<String> {
    read::<Serial>(alloc, text)
}

const CODES: &str = "\
0 -> 0 (Corrupt Data)
1 -> 1 (Internal Error)
2 -> 2 (No Data Available)
3 -> 3 (Invalid Request)
4 -> 4 (Unsupported Protocol Version)
5 -> 5 (Unsupported PDU Type)
6 -> 6 (Withdrawal of Unknown Record)
7 -> 7 (Duplicate Announcement Received)
8 -> 8 (Unexpected Protocol Version)
9 -> 9 (ASPA Provider List Error)
10 -> 10 (Transport Error)
11 -> 11 (Ordering Error)
12 -> 12
65535 -> 65535
";

fn code(alloc: Global, number: &str) -> Option<String> {
    written(alloc, &ErrorCode(number.parse().ok()?))
}

#[test]
fn serials_and_codes(rt: HostRuntime) {
    expect_rows(&rt, rt.alloc(), SERIALS, read_serial);
    expect_rows(&rt, rt.alloc(), CODES, code);
}

const PREFIXES: &str = "\
192.0.2.0/23 -> 192.0.2.0/23
192.0.2.0/+023 -> 192.0.2.0/23
0.0.0.0/0 -> 0.0.0.0/0
255.255.255.255/32 -> 255.255.255.255/32
10.0.0.0/8 -> 10.0.0.0/8
::/0 -> ::/0
2001:db8::/32 -> 2001:db8::/32
2001:DB8::/32 -> 2001:db8::/32
2001:0db8:0:0:0:0:0:0/32 -> 2001:db8::/32
2001:db8::1/128 -> 2001:db8::1/128
2001:db8:0:1::/64 -> 2001:db8:0:1::/64
2001:db8:0:1:1:1:1:1/128 -> 2001:db8:0:1:1:1:1:1/128
2001:0:0:1::/64 -> 2001:0:0:1::/64
2001:0:0:1:0:0:0:1/128 -> 2001:0:0:1::1/128
1:0:0:2:0:0:0:3/128 -> 1:0:0:2::3/128
fe80::/10 -> fe80::/10
::ffff:192.0.2.0/120 -> ::ffff:192.0.2.0/120
0:0:0:0:0:ffff:c000:0200/120 -> ::ffff:192.0.2.0/120
";

/// The text of the prefix that a text is parsed to, if it is parsed to the same prefix again.
fn rewritten(alloc: Global, text: &str) -> Option<String> {
    let prefix: Prefix = text.parse().ok()?;
    let shown = written(alloc, &prefix)?;
    let again: Prefix = shown.as_str().parse().ok()?;
    (again == prefix).then_some(shown)
}

const NO_PREFIXES: &str = "\
'' -> MissingLen
'192.0.2.0' -> MissingLen
'192.0.2.0-23' -> MissingLen
'/23' -> Addr(AddrParseError(Ip))
'192.0.2/23' -> Addr(AddrParseError(Ip))
'192.0.2.256/24' -> Addr(AddrParseError(Ip))
'192.000.2.0/24' -> Addr(AddrParseError(Ip))
'[2001:db8::]/32' -> Addr(AddrParseError(Ip))
'x/y' -> Addr(AddrParseError(Ip))
'192.0.2.0/' -> Len(ParseIntError { kind: Empty })
'192.0.2.0/x' -> Len(ParseIntError { kind: InvalidDigit })
'192.0.2.0/256' -> Len(ParseIntError { kind: PosOverflow })
'192.0.2.0/23/24' -> Len(ParseIntError { kind: InvalidDigit })
'192.0.2.0/23 ' -> Len(ParseIntError { kind: InvalidDigit })
'192.0.2.0/-1' -> Len(ParseIntError { kind: InvalidDigit })
'192.0.2.0/33' -> Prefix(LenOverflow)
'2001:db8::/129' -> Prefix(LenOverflow)
'192.0.2.1/23' -> Prefix(NonZeroHost)
'2001:db8::1/127' -> Prefix(NonZeroHost)
";

fn read_prefix(alloc: Global, text: &str) -> Option<String> {
    read::<Prefix>(alloc, text)
}

#[test]
fn prefixes(rt: HostRuntime) {
    expect_rows(&rt, rt.alloc(), PREFIXES, rewritten);
    expect_rows(&rt, rt.alloc(), NO_PREFIXES, read_prefix);
}

const MAX_LENS: &str = "\
'192.0.2.0/23-26' -> 192.0.2.0/23-26
'192.0.2.0/23-23' -> 192.0.2.0/23-23
'192.0.2.0/23' -> 192.0.2.0/23
'2001:db8::/32-128' -> 2001:db8::/32-128
'0.0.0.0/0-0' -> 0.0.0.0/0-0
'192.0.2.0' -> Prefix(MissingLen)
'192.0.2.1/23-26' -> Prefix(Prefix(NonZeroHost))
'-26' -> Prefix(MissingLen)
'192.0.2.0/23-' -> MaxLen(ParseIntError { kind: Empty })
'192.0.2.0/23-x' -> MaxLen(ParseIntError { kind: InvalidDigit })
'192.0.2.0/23-24-25' -> MaxLen(ParseIntError { kind: InvalidDigit })
'192.0.2.0/23-256' -> MaxLen(ParseIntError { kind: PosOverflow })
'192.0.2.0/23-33' -> Value(Overflow)
'192.0.2.0/23-22' -> Value(Underflow)
";

fn read_max_len(alloc: Global, text: &str) -> Option<String> {
    read::<MaxLenPrefix>(alloc, text)
}

#[test]
fn prefixes_with_max_len(rt: HostRuntime) {
    let given: MaxLenPrefix = "192.0.2.0/23-23".parse().expect(&rt, "a prefix");
    expect_equal(&rt, given.max_len(), Some(23));
    let alone: MaxLenPrefix = "192.0.2.0/23".parse().expect(&rt, "a prefix");
    expect_equal(&rt, alone.max_len(), None);
    expect_rows(&rt, rt.alloc(), MAX_LENS, read_max_len);
}

const REFUSALS: &str = "\
192.0.2.0 -> missing prefix length
x/24 -> invalid IP address syntax
192.0.2.0/x -> invalid prefix length: invalid digit found in string
192.0.2.0/33 -> prefix length too large
192.0.2.1/24 -> non-zero host portion
192.0.2.0/24-x -> invalid max-length: invalid digit found in string
192.0.2.0/24-33 -> max-length too large
";

fn refusal(alloc: Global, text: &str) -> Option<String> {
    written(alloc, &text.parse::<MaxLenPrefix>().err()?)
}

#[test]
fn texts_of_refusals(rt: HostRuntime) {
    expect_rows(&rt, rt.alloc(), REFUSALS, refusal);
}

/// Asserts the text of an error.
fn expect_error<E: Error + Drop>(rt: &impl Abort, alloc: Global, error: E, want: &str) {
    expect_text(rt, alloc, error, want);
}

#[test]
fn texts_of_errors(rt: HostRuntime) {
    let alloc = rt.alloc();
    expect_error(&rt, alloc, ParseAsnError, "invalid AS number");
    let length = "a key identifier has 40 hex digits";
    expect_error(&rt, alloc, ParseKeyIdentifierError::Length, length);
    let digit = "invalid hex digit in a key identifier";
    expect_error(&rt, alloc, ParseKeyIdentifierError::Digit, digit);
    expect_error(
        &rt,
        alloc,
        PrefixError::LenOverflow,
        "prefix length too large",
    );
    expect_error(
        &rt,
        alloc,
        PrefixError::NonZeroHost,
        "non-zero host portion",
    );
    expect_error(&rt, alloc, MaxLenError::Overflow, "max-length too large");
    let underflow = "max-length smaller than prefix length";
    expect_error(&rt, alloc, MaxLenError::Underflow, underflow);
}

#[test]
fn actions_and_families(rt: HostRuntime) {
    let alloc = rt.alloc();
    expect_text(&rt, alloc, Action::Announce, "announce");
    expect_text(&rt, alloc, Action::Withdraw, "withdraw");
    expect_text(&rt, alloc, Afi::ipv4(), "ipv4");
    expect_text(&rt, alloc, Afi::ipv6(), "ipv6");
    expect_text(&rt, alloc, Afi::from_u8(2), "ipv4");
}

const KEYS: &str = "\
'5af000000000000000000000000000000000000f' -> 5af000000000000000000000000000000000000f
'5AF000000000000000000000000000000000000F' -> 5af000000000000000000000000000000000000f
'' -> Length
'5af000000000000000000000000000000000000' -> Length
'5af000000000000000000000000000000000000f0' -> Length
'5af000000000000000000000000000000000000g' -> Digit
'0x5af0000000000000000000000000000000000f' -> Digit
";

fn read_key(alloc: Global, text: &str) -> Option<String> {
    read::<KeyIdentifier>(alloc, text)
}

#[test]
fn key_identifiers(rt: HostRuntime) {
    let key = KeyIdentifier::from(IDENTIFIER);
    let text = "0102030405060708090a0b0c0d0e0f1011121314";
    expect_text(&rt, rt.alloc(), key, text);
    expect_equal(&rt, text.parse(), Ok(key));
    expect_rows(&rt, rt.alloc(), KEYS, read_key);
}

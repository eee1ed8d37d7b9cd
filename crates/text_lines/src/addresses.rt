//! Addresses in lines.

ghost use Rattle.std.specs.Prelude.{◌≡◌, ◌≤◌, ◌<◌, ◌+◌, ◌∷◌, ◌++◌, [], bytes_eq, codes, length};
ghost use Rattle.std.specs.Prelude.{take};
ghost use Rattle.std.specs.List.{flat_map};
ghost use Rattle.std.specs.Net.Addr.{octets_of};
ghost use Rattle.std.specs.Net.Text as Text;
ghost use Rattle.rtr_base.specs.Addresses.{v4, v6};
ghost use Rattle.rtr_base.specs.PlainTexts.{address_text};
ghost use Rattle.text_lines.specs.Laying.{Lays};

use crate::laying;
use crate::pieces::digit_of;
use std::net::{Ipv4Addr, Ipv6Addr};

/// Writes the IPv4 address of this number: four numbers with dots between them.
#[tactic(auto, using(crate::proofs::AddressTexts::shown_ipv4))]
pub fn ipv4(output: &mut [u8], at: usize, bits: u32) -> usize
    ensures { Lays (address_text v4 bits) at output.old result output.new }
{
    dotted(output, at, Ipv4Addr::from_bits(bits).octets())
}

/// Writes four numbers with dots between them.
fn dotted(output: &mut [u8], at: usize, octets: [u8; 4]) -> usize
    ensures { Lays (Text.ipv4_text octets) at output.old result output.new }
{
    let at = laying::number(output, at, octets[0] as u64);
    let at = laying::labelled(output, at, ".", octets[1] as u64);
    let at = laying::labelled(output, at, ".", octets[2] as u64);
    laying::labelled(output, at, ".", octets[3] as u64)
}

/// Writes the IPv6 address of this number as in RFC 5952.
#[tactic(auto, using(crate::proofs::AddressTexts::shown_ipv6))]
pub fn ipv6(output: &mut [u8], at: usize, bits: u128) -> usize
    ensures { Lays (address_text v6 bits) at output.old result output.new }
{
    let address = Ipv6Addr::from_bits(bits);
    shown(output, at, &address.segments())
}

/// Writes the IPv6 address of these eight segments.
fn shown(output: &mut [u8], at: usize, segments: &[u16]) -> usize
    requires { length segments.now ≡ 8 }
    ensures { Lays (Text.ipv6_text segments.now) at output.old result output.new }
{
    if !is_mapped(segments) {
        return compressed(output, at, segments);
    }
    let at = laying::text(output, at, "::ffff:");
    dotted(output, at, octets(segments[6], segments[7]))
}

/// Whether an IPv6 address of these segments holds an IPv4 address (RFC 5952 section 5).
fn is_mapped(segments: &[u16]) -> bool
    requires { length segments.now ≡ 8 }
    ensures { result ≡ bytes_eq (take 6 segments.now) (0 ∷ 0 ∷ 0 ∷ 0 ∷ 0 ∷ 0xffff ∷ []) }
{
    segments[..6] == [0, 0, 0, 0, 0, 0xffff]
}

/// The bytes of two segments.
fn octets(high: u16, low: u16) -> [u8; 4]
    ensures { result ≡ octets_of (high ∷ low ∷ []) }
{
    [
        (high / 256) as u8,
        (high % 256) as u8,
        (low / 256) as u8,
        (low % 256) as u8,
    ]
}

/// Writes segments, with `::` for the longest run of two zeros or more.
fn compressed(output: &mut [u8], at: usize, segments: &[u16]) -> usize
    ensures { Lays (Text.hex_groups_text segments.now) at output.old result output.new }
{
    let (start, size) = longest_zero_run(segments);
    if size < 2 {
        return groups(output, at, segments);
    }
    let at = groups(output, at, &segments[..start]);
    let at = laying::text(output, at, "::");
    groups(output, at, &segments[start + size..])
}

/// The index of the longest run of zeros, the first of equal ones, and its number of zeros.
fn longest_zero_run(segments: &[u16]) -> (usize, usize)
    ensures value { result ≡ Text.longest_zero_run segments.now }
    ensures within { result.0 + result.1 ≤ length segments.now }
{
    let mut start = segments.len();
    let mut longest = 0;
    let mut run = 0;
    for i in (0..segments.len()).rev() {
        run = if segments[i] == 0 { run + 1 } else { 0 };
        if run >= longest {
            start = i;
            longest = run;
        }
    }
    (start, longest)
}

/// Writes segments with colons between them.
fn groups(output: &mut [u8], at: usize, segments: &[u16]) -> usize
    ensures { Lays (Text.groups_text segments.now) at output.old result output.new }
{
    let Some((first, rest)) = segments.split_first() else {
        return at;
    };
    let at = segment(output, at, *first);
    more(output, at, rest)
}

/// Writes segments with a colon before each.
fn more(output: &mut [u8], at: usize, segments: &[u16]) -> usize
    ensures { Lays (flat_map (λ t. codes ":" ++ Text.hex t) segments.now) at
        output.old result output.new }
{
    let mut end = at;
    let mut left = segments;
    'each: while let Some((segment_left, rest)) = left.split_first() {
        end = laying::text(output, end, ":");
        end = segment(output, end, *segment_left);
        left = rest;
    }
    end
}

/// Writes a segment in hex, without leading zeros.
fn segment(output: &mut [u8], at: usize, segment: u16) -> usize
    ensures { Lays (Text.hex segment) at output.old result output.new }
{
    let digits = [
        digit_of(segment / 0x1000),
        digit_of(segment / 0x100 % 16),
        digit_of(segment / 0x10 % 16),
        digit_of(segment % 16),
    ];
    laying::bytes(output, at, &digits[leading_zeros(segment)..])
}

/// How many of the four digits are leading zeros, not counting the last digit.
fn leading_zeros(segment: u16) -> usize
    ensures value { result ≡ Text.leading_zero_digits segment }
    ensures within { result < 4 }
{
    match segment {
        0x1000.. => 0,
        0x100.. => 1,
        0x10.. => 2,
        _ => 3,
    }
}

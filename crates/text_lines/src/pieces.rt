//! Pieces of lines: bytes in hex, in base64 and with escapes, and lists of autonomous systems.

ghost use Rattle.std.specs.Prelude.{◌≡◌, ◌<◌, ◌≤◌, ◌∷◌, [], length};
ghost use Rattle.std.specs.Char.{digit_char};
ghost use Rattle.std.specs.Char.Escape.{escape_ascii};
ghost use Rattle.std.specs.List.{flat_map};
ghost use Rattle.base64.specs.Engines.{url_safe_no_pad};
ghost use Rattle.base64.specs.GeneralPurpose.{encode_of};
ghost use Rattle.hex.specs.Hex.{encode_lower};
ghost use Rattle.rtr_payload.specs.PayloadTexts.{each_text};
ghost use Rattle.rtr_payload.specs.Providers.{words_of};
ghost use Rattle.text_lines.specs.Laying.{Lays};

use crate::laying;
use base64::engine::general_purpose::URL_SAFE_NO_PAD;
use rtr_units::numbers::u32_at;

/// The digits of hex.
const DIGITS: &[u8; 16] = b"0123456789abcdef";

/// The number of bytes that are encoded in base64 at once: a multiple of three.
const CHUNK: usize = 768;

/// The number of symbols of a chunk.
const SYMBOLS: usize = 1024;

/// Writes bytes in hex.
pub(crate) fn hex(output: &mut [u8], at: usize, bytes: &[u8]) -> usize
    ensures { Lays (encode_lower bytes.now) at output.old result output.new }
{
    let mut end = at;
    let mut left = bytes;
    'each: while let Some((byte, rest)) = left.split_first() {
        end = laying::bytes(output, end, &hex_of(*byte));
        left = rest;
    }
    end
}

/// The two digits of a byte in hex.
#[inline(always)]
pub(crate) fn hex_of(byte: u8) -> [u8; 2]
    ensures { result ≡ encode_lower (byte ∷ []) }
{
    [DIGITS[(byte / 16) as usize], DIGITS[(byte % 16) as usize]]
}

/// Writes bytes in base64, without padding and in the alphabet that is safe in URLs (RFC 4648
/// section 5).
pub(crate) fn base64(output: &mut [u8], at: usize, bytes: &[u8]) -> usize
    ensures { Lays (encode_of url_safe_no_pad bytes.now) at output.old result output.new }
{
    let mut end = at;
    let mut left = bytes;
    'each: while left.len() > CHUNK {
        let (chunk, rest) = left.split_at(CHUNK);
        end = base64_chunk(output, end, chunk);
        left = rest;
    }
    base64_chunk(output, end, left)
}

fn base64_chunk(output: &mut [u8], at: usize, chunk: &[u8]) -> usize
    requires { length chunk.now ≤ 768 }
    ensures { Lays (encode_of url_safe_no_pad chunk.now) at output.old result output.new }
{
    let mut symbols = [0; SYMBOLS];
    let Ok(size) = URL_SAFE_NO_PAD.encode_slice(chunk, &mut symbols) else {
        unreachable!()
    };
    laying::bytes(output, at, &symbols[..size])
}

/// Writes bytes, with an escape such as `\n` or `\x1b` for each that isn't printable ASCII.
pub(crate) fn escaped(output: &mut [u8], at: usize, bytes: &[u8]) -> usize
    ensures { Lays (flat_map escape_ascii bytes.now) at output.old result output.new }
{
    let mut end = at;
    let mut left = bytes;
    'each: while let Some((byte, rest)) = left.split_first() {
        end = escape(output, end, *byte);
        left = rest;
    }
    end
}

fn escape(output: &mut [u8], at: usize, byte: u8) -> usize
    ensures { Lays (escape_ascii byte) at output.old result output.new }
{
    match byte {
        b'\t' => laying::bytes(output, at, b"\\t"),
        b'\r' => laying::bytes(output, at, b"\\r"),
        b'\n' => laying::bytes(output, at, b"\\n"),
        b'\'' => laying::bytes(output, at, b"\\'"),
        b'"' => laying::bytes(output, at, b"\\\""),
        b'\\' => laying::bytes(output, at, b"\\\\"),
        b' '..=b'~' => laying::bytes(output, at, &[byte]),
        _ => laying::bytes(
            output,
            at,
            &[
                b'\\',
                b'x',
                digit_of(byte as u16 / 16),
                digit_of(byte as u16 % 16),
            ],
        ),
    }
}

/// The digit of a number below 16 in hex.
pub(crate) fn digit_of(number: u16) -> u8
    requires { number < 16 }
    ensures { result ≡ digit_char number }
{
    if number < 10 {
        b'0' + number as u8
    } else {
        b'a' + (number - 10) as u8
    }
}

/// Writes each provider, of four bytes, after a space.
pub(crate) fn providers(output: &mut [u8], at: usize, providers: &[u8]) -> usize
    ensures { Lays (each_text (words_of providers.now)) at output.old result output.new }
{
    let mut end = at;
    let mut left = providers;
    'each: while left.len() >= 4 {
        let (provider, rest) = left.split_at(4);
        end = laying::labelled(output, end, " AS", u32_at(provider, 0) as u64);
        left = rest;
    }
    end
}

//! Strings of JSON (RFC 8259 section 7), with escapes also for the control characters that JSON
//! allows unescaped.

ghost use Rattle.std.specs.Prelude.{◌≡◌, ◌≤◌, ◌∷◌, ◌/◌, ◌%◌, [], IsTrue, length, slice_index};
ghost use Rattle.std.specs.Char.{digit_char};
ghost use Rattle.json.specs.Print.{escape, escape_byte, escape_letter};
ghost use Rattle.text_lines.specs.ControlEscapes.{escaped, is_control_pair, unicode_escape};
ghost use Rattle.text_lines.specs.Laying.{Lays};
ghost use Rattle.text_lines.specs.PrivateStrings.{LaysFront, string_form};

use crate::{laying, pieces};

/// The control character of ASCII that JSON allows unescaped.
const DELETE: u8 = 0x7f;

/// The first byte of the characters U+0080 to U+00BF.
const LEAD: u8 = 0xc2;

/// The second byte of the first and the last control character above ASCII, and their numbers.
const FIRST_CONTROL: u8 = 0x80;

const LAST_CONTROL: u8 = 0x9f;

/// Writes the text as the content of a string, without quotes.
pub(crate) fn string(output: &mut [u8], at: usize, text: &[u8]) -> usize
    ensures { Lays (escaped (escape text.now)) at output.old result output.new }
{
    let mut end = at;
    let mut left = text;
    'each: while let Some((first, others)) = left.split_first() {
        let (next, rest) = front(output, end, *first, others);
        end = next;
        left = rest;
    }
    end
}

/// Writes the first character, or a byte of it, and returns the rest.
fn front<'a>(output: &mut [u8], at: usize, first: u8, others: &'a [u8]) -> (usize, &'a [u8])
    ensures laid { LaysFront (escaped (escape (first ∷ others.now)))
        (escaped (escape result.1.now)) at output.old result.0 output.new }
    ensures shorter { length result.1.now ≤ length others.now }
{
    if is_control(first, others) {
        let (second, rest) = others.split_at(1);
        return (unicode(output, at, second[0]), rest);
    }
    (character(output, at, first), others)
}

/// Whether this byte and the next encode one of U+0080 to U+009F.
fn is_control(lead: u8, others: &[u8]) -> bool
    ensures pair { result ≡ is_control_pair lead (slice_index others.now 0) }
    ensures there { IsTrue result → 1 ≤ length others.now }
{
    match others.first() {
        Some(byte) => lead == LEAD && *byte >= FIRST_CONTROL && *byte <= LAST_CONTROL,
        None => false,
    }
}

/// Writes the escape of the character with this number.
fn unicode(output: &mut [u8], at: usize, number: u8) -> usize
    ensures { Lays (unicode_escape number) at output.old result output.new }
{
    let at = laying::text(output, at, "\\u00");
    laying::bytes(output, at, &pieces::hex_of(number))
}

/// Writes a byte that is a character of its own, or part of a character that isn't escaped.
fn character(output: &mut [u8], at: usize, byte: u8) -> usize
    ensures { Lays (string_form byte) at output.old result output.new }
{
    if byte == DELETE {
        return unicode(output, at, DELETE);
    }
    kept(output, at, byte)
}

/// Writes a byte as RFC 8259 requires.
#[tactic(auto, unfolding(json::specs::Print::escape_byte))]
fn kept(output: &mut [u8], at: usize, byte: u8) -> usize
    ensures { Lays (escape_byte byte) at output.old result output.new }
{
    let letter = letter_of(byte);
    if letter > 0 {
        return laying::bytes(output, at, &[b'\\', letter]);
    }
    if byte < b' ' {
        return control(output, at, byte);
    }
    laying::bytes(output, at, &[byte])
}

/// The letter of the byte's short escape, or 0 if it has none.
fn letter_of(byte: u8) -> u8
    ensures { result ≡ escape_letter byte }
{
    match byte {
        b'"' | b'\\' => byte,
        b'\x08' => b'b',
        b'\x0c' => b'f',
        b'\n' => b'n',
        b'\r' => b'r',
        b'\t' => b't',
        _ => 0,
    }
}

/// Writes the escape of a control character that has no short one.
fn control(output: &mut [u8], at: usize, byte: u8) -> usize
    ensures { Lays (92 ∷ 117 ∷ 48 ∷ 48 ∷ digit_char (byte / 16) ∷ digit_char (byte % 16) ∷ []) at
        output.old result output.new }
{
    let (high, low) = (
        pieces::digit_of(byte as u16 / 16),
        pieces::digit_of(byte as u16 % 16),
    );
    laying::bytes(output, at, &[b'\\', b'u', b'0', b'0', high, low])
}

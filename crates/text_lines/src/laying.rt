//! Writing texts into a slice.

ghost use Rattle.std.specs.Prelude.{◌≡◌, ◌≤◌, ◌<◌, ◌+◌, ◌++◌, length, codes, decimal};
ghost use Rattle.rtr_base.specs.PlainTexts.{asn_text};
ghost use Rattle.text_lines.specs.Laying.{Lays};

use itoa::Buffer;

/// Writes bytes to the output from offset `at` on, as many as fit, and returns the offset of their
/// end.
#[inline(always)]
pub fn bytes(output: &mut [u8], at: usize, bytes: &[u8]) -> usize
    ensures { Lays bytes.now at output.old result output.new }
{
    if at <= output.len() && bytes.len() <= output.len() - at {
        output[at..at + bytes.len()].copy_from_slice(bytes);
        return at + bytes.len();
    }
    cut(output, at, bytes)
}

/// Writes bytes that reach the end of the output.
#[inline(never)]
fn cut(output: &mut [u8], at: usize, bytes: &[u8]) -> usize
    requires { length output.old ≤ at + length bytes.now }
    ensures { Lays bytes.now at output.old result output.new }
{
    let end = at.saturating_add(bytes.len());
    if at >= output.len() {
        return end;
    }
    let room = output.len() - at;
    output[at..at + room].copy_from_slice(&bytes[..room]);
    end
}

/// Writes a text.
#[inline(always)]
pub fn text(output: &mut [u8], at: usize, text: &str) -> usize
    ensures { Lays text.now at output.old result output.new }
{
    bytes(output, at, text.as_bytes())
}

/// Writes a number. Most have at most three digits, which are written at once.
pub fn number(output: &mut [u8], at: usize, number: u64) -> usize
    ensures { Lays (decimal number) at output.old result output.new }
{
    match number {
        0..10 => bytes(output, at, &[digit(number)]),
        10..100 => bytes(output, at, &[digit(number / 10), digit(number % 10)]),
        100..1000 => bytes(
            output,
            at,
            &[
                digit(number / 100),
                digit(number / 10 % 10),
                digit(number % 10),
            ],
        ),
        _ => long_number(output, at, number),
    }
}

/// The digit of a number below 10.
#[inline(always)]
fn digit(number: u64) -> u8
    requires { number < 10 }
    ensures { result ≡ 48 + number }
{
    b'0' + number as u8
}

/// Writes a number of any size.
fn long_number(output: &mut [u8], at: usize, number: u64) -> usize
    ensures { Lays (decimal number) at output.old result output.new }
{
    text(output, at, Buffer::new().format(number))
}

/// Writes a label and a number after it.
#[inline(always)]
pub fn labelled(output: &mut [u8], at: usize, label: &str, value: u64) -> usize
    ensures { Lays (label.now ++ decimal value) at output.old result output.new }
{
    let at = text(output, at, label);
    number(output, at, value)
}

/// Writes the number of an autonomous system.
pub(crate) fn asn(output: &mut [u8], at: usize, number: u32) -> usize
    ensures { Lays (asn_text number) at output.old result output.new }
{
    labelled(output, at, "AS", number as u64)
}

/// Writes a session after a label, and a serial number.
pub(crate) fn state(output: &mut [u8], at: usize, label: &str, session: u16, serial: u32) -> usize
    ensures { Lays (label.now ++ decimal session ++ codes " serial " ++ decimal serial) at
        output.old result output.new }
{
    let at = labelled(output, at, label, session as u64);
    labelled(output, at, " serial ", serial as u64)
}

/// Writes the number of an autonomous system after a space.
pub(crate) fn spaced(output: &mut [u8], at: usize, number: u32) -> usize
    ensures { Lays (codes " " ++ asn_text number) at output.old result output.new }
{
    let at = text(output, at, " ");
    asn(output, at, number)
}

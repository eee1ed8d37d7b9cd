//! Texts of units, as `text_lines` writes them into slices.

ghost use Rattle.std.specs.Prelude.{ℕ, List, ◌++◌, decimal};
ghost use Rattle.rtr_base.specs.PlainTexts.{address_text, prefix_text};
ghost use Rattle.text_lines.specs.JsonLines.{unit_json};
ghost use Rattle.text_lines.specs.Laying.{Lays};
ghost use Rattle.text_lines.specs.ListedUnits.{fields_listed, payload_listed};
ghost use Rattle.text_lines.specs.PayloadLines.{payload_json};
ghost use Rattle.text_lines.specs.TextLines.{payload_said, unit_text};

use rtr_base::addr::Prefix;
use text_lines::{Listed, ListedPayload, addresses, laying};

/// A text that can be written into a slice.
pub(crate) trait Laid {
    /// The text.
    ghost text: { Self → List ℕ };

    /// Writes the text to the output from offset `at` on, as much of it as fits, and returns the
    /// offset of its end.
    fn lay(&self, output: &mut [u8], at: usize) -> usize
        ensures { Lays (text self.now) at output.old result output.new };
}

/// Bytes as they are.
#[derive(Clone, Copy)]
pub(crate) struct Bytes<'a> {
    pub bytes: &'a [u8],
}

impl<'a> Laid for Bytes<'a> {
    ghost text = { λ t. t.bytes.now };

    fn lay(&self, output: &mut [u8], at: usize) -> usize {
        laying::bytes(output, at, self.bytes)
    }
}

/// A label and a number after it.
#[derive(Clone, Copy)]
pub(crate) struct Labelled<'a> {
    pub label: &'a str,
    pub number: u64,
}

impl<'a> Laid for Labelled<'a> {
    ghost text = { λ t. t.label.now ++ decimal t.number };

    fn lay(&self, output: &mut [u8], at: usize) -> usize {
        laying::labelled(output, at, self.label, self.number)
    }
}

/// A prefix, as 192.0.2.0/23.
#[derive(Clone, Copy)]
pub(crate) struct PrefixText {
    pub prefix: Prefix,
}

impl Laid for PrefixText {
    ghost text = { λ t. prefix_text t.prefix };

    fn lay(&self, output: &mut [u8], at: usize) -> usize {
        let end = lay_address(output, at, self.prefix);
        laying::labelled(output, end, "/", u64::from(self.prefix.len()))
    }
}

/// Writes the address of a prefix.
fn lay_address(output: &mut [u8], at: usize, prefix: Prefix) -> usize
    ensures { Lays (address_text prefix.family prefix.address) at output.old result output.new }
{
    if prefix.is_v4() {
        addresses::ipv4(output, at, prefix.bits() as u32)
    } else {
        addresses::ipv6(output, at, prefix.bits())
    }
}

/// The line for people of a unit at this offset.
#[derive(Clone, Copy)]
pub(crate) struct UnitText<'a> {
    pub offset: u64,
    pub unit: Listed<'a>,
}

impl<'a> Laid for UnitText<'a> {
    ghost text = { λ t. unit_text t.offset (fields_listed t.unit) };

    fn lay(&self, output: &mut [u8], at: usize) -> usize {
        text_lines::describe(output, at, self.offset, &self.unit)
    }
}

/// The JSON object of a unit at this offset.
#[derive(Clone, Copy)]
pub(crate) struct UnitJson<'a> {
    pub offset: u64,
    pub unit: Listed<'a>,
}

impl<'a> Laid for UnitJson<'a> {
    ghost text = { λ t. unit_json t.offset (fields_listed t.unit) };

    fn lay(&self, output: &mut [u8], at: usize) -> usize {
        text_lines::describe_json(output, at, self.offset, &self.unit)
    }
}

/// The payload that a unit announces or withdraws, in words.
#[derive(Clone, Copy)]
pub(crate) struct PayloadText<'a> {
    pub unit: ListedPayload<'a>,
}

impl<'a> Laid for PayloadText<'a> {
    ghost text = { λ t. payload_said (payload_listed t.unit) };

    fn lay(&self, output: &mut [u8], at: usize) -> usize {
        text_lines::describe_payload(output, at, &self.unit)
    }
}

/// The payload that a unit announces or withdraws, as a JSON object.
#[derive(Clone, Copy)]
pub(crate) struct PayloadJson<'a> {
    pub unit: ListedPayload<'a>,
}

impl<'a> Laid for PayloadJson<'a> {
    ghost text = { λ t. payload_json (payload_listed t.unit) };

    fn lay(&self, output: &mut [u8], at: usize) -> usize {
        text_lines::describe_payload_json(output, at, &self.unit)
    }
}

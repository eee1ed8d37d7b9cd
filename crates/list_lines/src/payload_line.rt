//! The payload that a unit announces or withdraws, as a line of its own in the words of the unit's
//! line.

ghost use Rattle.std.specs.Prelude.{◌≡◌, ◌++◌, OnOk};
ghost use Rattle.rtr_payload.specs.UnitBytes.{unit_fields};
ghost use Rattle.text_lines.specs.PayloadLines.{payload_json};
ghost use Rattle.text_lines.specs.TextLines.{payload_said};

use crate::laid::{PayloadJson, PayloadText};
use crate::line::Line;
use crate::listed::listed_payload;
use rtr_payload::pdu::Payload;
use std::alloc::AllocError;

/// Adds the payload that the unit announces or withdraws: a space, its kind and its parts.
pub fn describe_payload(line: &mut Line, unit: &Payload) -> Result<(), AllocError>
    ensures { OnOk result (line.new ≡ line.old ++ payload_said (unit_fields unit.now)) }
{
    line.lay(&PayloadText {
        unit: listed_payload(unit),
    })
}

/// Adds the JSON object of the payload that the unit announces or withdraws.
pub fn describe_payload_json(line: &mut Line, unit: &Payload) -> Result<(), AllocError>
    ensures { OnOk result (line.new ≡ line.old ++ payload_json (unit_fields unit.now)) }
{
    line.lay(&PayloadJson {
        unit: listed_payload(unit),
    })
}

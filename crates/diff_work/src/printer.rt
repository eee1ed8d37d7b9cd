//! Printing changes.

ghost use Rattle.std.specs.Prelude.{◌≡◌, ◌++◌, IfOk, OnOk, codes};
ghost use Rattle.rtr_base.specs.Actions.{flags_of};
ghost use Rattle.rtr_payload.specs.Meanings.{payload_of};
ghost use Rattle.rtr_payload.specs.UnitBytes.{unit_fields};
ghost use Rattle.rtr_payload.specs.UnitFields.{written_fields};
ghost use Rattle.text_lines.specs.PayloadLines.{payload_json};
ghost use Rattle.text_lines.specs.TextLines.{payload_said, sign_of};
ghost use Rattle.data_memory.specs.Data.{Change};
ghost use Rattle.diff_work.specs.Differences.{change_piece};
ghost use Rattle.diff_work.specs.PrivateChanges.{change_by};
ghost use Rattle.diff_work.specs.Printing.{Puts};
ghost use Rattle.diff_work.specs.declared.words.Form.TheVariants.{Text, Json, Units};

use crate::words::Form;
use list_lines::{Line, describe_payload, describe_payload_json};
use rtr_base::action::Action;
use rtr_payload::payload::Payload;
use rtr_payload::pdu;
use rtr_units::fault::Fault;
use rtr_units::piece::put;
use rtr_units::source::Sink;
use std::alloc::{AllocError, Global};

/// The version of the units whose text is printed. The text doesn't contain it.
const WORDS_VERSION: u8 = 0;

/// Prints changes, in memory that is reused for each.
#[derive(Drop)]
pub struct Printer {
    alloc: Global,
    form: Form,
    /// The version of the units that are written.
    version: u8,
    line: Line,
}

impl Printer {
    /// A printer of changes in this form, and with this version of units.
    pub fn new(alloc: Global, form: Form, version: u8) -> Printer
        ensures form { result.form ≡ form }
        ensures version { result.version ≡ version }
    {
        Printer {
            alloc,
            form,
            version,
            line: Line::new(alloc),
        }
    }

    /// Prints the change that announces or withdraws the payload; of a withdrawn ASPA only its
    /// customer. Faults: `Memory` and `Writer`.
    pub fn print<W: Sink>(
        &mut self,
        action: Action,
        payload: Payload,
        output: &mut W,
    ) -> Result<(), Fault>
        ensures piece { Puts result (W.state output.old) (W.state output.new)
            (change_piece self.old.form self.old.version (change_by action (payload_of payload))) }
        ensures form { self.new.form ≡ self.old.form }
        ensures version { self.new.version ≡ self.old.version }
    {
        let payload = match named(self.alloc, action, payload) {
            Ok(payload) => payload,
            Err(_) => return Err(Fault::Memory),
        };
        match self.form {
            Form::Text => self.print_text(action, payload, output),
            Form::Json => self.print_json(action, payload, output),
            Form::Units => self.print_unit(action, payload, output),
        }
    }

    fn print_text<W: Sink>(
        &mut self,
        action: Action,
        payload: Payload,
        output: &mut W,
    ) -> Result<(), Fault>
        ensures piece { Puts result (W.state output.old) (W.state output.new)
            (change_piece Text self.old.version
            (record { action = action; payload = payload_of payload })) }
        ensures form { self.new.form ≡ self.old.form }
        ensures version { self.new.version ≡ self.old.version }
    {
        let unit = pdu::Payload::from_payload(WORDS_VERSION, action.into_flags(), payload);
        self.line.clear();
        match text_line(&mut self.line, action, &unit) {
            Ok(()) => put(output, self.line.as_bytes()),
            Err(_) => Err(Fault::Memory),
        }
    }

    fn print_json<W: Sink>(
        &mut self,
        action: Action,
        payload: Payload,
        output: &mut W,
    ) -> Result<(), Fault>
        ensures piece { Puts result (W.state output.old) (W.state output.new)
            (change_piece Json self.old.version
            (record { action = action; payload = payload_of payload })) }
        ensures form { self.new.form ≡ self.old.form }
        ensures version { self.new.version ≡ self.old.version }
    {
        let unit = pdu::Payload::from_payload(WORDS_VERSION, action.into_flags(), payload);
        self.line.clear();
        match json_line(&mut self.line, &unit) {
            Ok(()) => put(output, self.line.as_bytes()),
            Err(_) => Err(Fault::Memory),
        }
    }

    /// Writes the unit of the change, if the version has such units.
    fn print_unit<W: Sink>(
        &mut self,
        action: Action,
        payload: Payload,
        output: &mut W,
    ) -> Result<(), Fault>
        ensures piece { Puts result (W.state output.old) (W.state output.new)
            (change_piece Units self.old.version
            (record { action = action; payload = payload_of payload })) }
        ensures form { self.new.form ≡ self.old.form }
        ensures version { self.new.version ≡ self.old.version }
    {
        let flags = action.into_flags();
        match pdu::Payload::new_if_supported(self.version, flags, &payload.as_ref()) {
            Ok(Some(unit)) => unit.write(output),
            Ok(None) => Ok(()),
            Err(_) => Err(Fault::Memory),
        }
    }
}

/// The payload as the change contains it: of a withdrawn ASPA only the customer.
fn named(alloc: Global, action: Action, payload: Payload) -> Result<Payload, AllocError>
    ensures { IfOk result (λ p. record { action = action; payload = payload_of p } ≡
        change_by action (payload_of payload)) }
{
    match action {
        Action::Announce => Ok(payload),
        Action::Withdraw => match payload {
            Payload::Origin(origin) => Ok(Payload::Origin(origin)),
            Payload::RouterKey(key) => Ok(Payload::RouterKey(key)),
            Payload::Aspa(aspa) => Ok(Payload::Aspa(aspa.withdraw(alloc)?)),
        },
    }
}

/// The sign of the change.
fn sign(action: Action) -> &'static str
    ensures { result.now ≡ sign_of action }
{
    match action {
        Action::Announce => "+",
        Action::Withdraw => "-",
    }
}

/// Adds the line of the unit's change.
fn text_line(line: &mut Line, action: Action, unit: &pdu::Payload) -> Result<(), AllocError>
    ensures { OnOk result (line.new ≡ line.old ++ (sign_of action
        ++ payload_said (unit_fields unit.now) ++ codes "\n")) }
{
    line.text(sign(action))?;
    describe_payload(line, unit)?;
    line.text("\n")
}

/// Adds the line of JSON of the unit's change.
fn json_line(line: &mut Line, unit: &pdu::Payload) -> Result<(), AllocError>
    ensures { OnOk result (line.new ≡ line.old ++ (payload_json (unit_fields unit.now)
        ++ codes "\n")) }
{
    describe_payload_json(line, unit)?;
    line.text("\n")
}

//! The fault of a refused unit, in the machine's terms.

ghost use Rattle.std.specs.Prelude.{◌≡◌, ◌<◌, [], length};
ghost use Rattle.std.specs.Option.{option_map};
ghost use Rattle.rtr_units.specs.Codes.{code_of};
ghost use Rattle.rtr_units.specs.Header.{type_field};
ghost use Rattle.unit_views.specs.OwedCodes.{owed, read_fault};
ghost use Rattle.session_bytes.specs.Reading.{fault_of};

use rtr_base::error_code::ErrorCode;
use rtr_units::unit::Unit;
use session_router::head::Fault;
use unit_any::Report;
use unit_views::fault::ViewFault;

/// Returns the fault of the refused unit at the front of the input, in the machine's terms.
pub(crate) fn fault_of(input: &[u8], fault: &ViewFault) -> Fault
    requires some { 0 < length input.now }
    ensures { result ≡ fault_of input.now fault.now }
{
    Fault {
        version: input[0],
        code: owed(input, fault),
    }
}

/// The code of the report that is owed about a refused unit (RFC 8210 sections 5.11 and 12).
fn owed(input: &[u8], fault: &ViewFault) -> Option<ErrorCode>
    ensures { option_map (λ c. c.0) result ≡
        owed (type_field input.now) (code_of (read_fault [] fault.now)) }
{
    if input.len() >= 2 && input[1] == Report::PDU {
        return None;
    }
    fault.code()
}

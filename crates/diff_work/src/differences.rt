//! Printing the changes from old data to new.

ghost use Rattle.std.specs.Prelude.{◌≡◌};
ghost use Rattle.data_memory.specs.Changes.{changes};
ghost use Rattle.data_memory.specs.Data.{IsData};
ghost use Rattle.diff_work.specs.PrivateChanges.{PrintsChanges, changes_by};

use crate::beside::Beside;
use crate::part::Part;
use crate::printer::Printer;
use data_memory::Data;
use rtr_base::action::Action;
use rtr_units::fault::Fault;
use rtr_units::source::Sink;

/// Prints the changes from old data to new, and reports whether there is one.
pub fn print_changes<W: Sink>(
    printer: &mut Printer,
    old: &Data,
    new: &Data,
    output: &mut W,
) -> Result<bool, Fault>
    ensures changes { PrintsChanges printer.old
        (changes old.now new.now)
        result (W.state output.old) (W.state output.new) }
    ensures form { printer.new.form ≡ printer.old.form }
    ensures version { printer.new.version ≡ printer.old.version }
{
    let announced = print_made(printer, Action::Announce, new, old, output)?;
    let withdrawn = print_made(printer, Action::Withdraw, old, new, output)?;
    Ok(announced | withdrawn)
}

/// Prints either the announcements of payloads that the other data lack, or the withdrawals of
/// payloads whose names the other data lack, and reports whether there is one.
fn print_made<W: Sink>(
    printer: &mut Printer,
    action: Action,
    members: &Data,
    other: &Data,
    output: &mut W,
) -> Result<bool, Fault>
    ensures changes { PrintsChanges printer.old
        (changes_by action other.now members.now)
        result (W.state output.old) (W.state output.new) }
    ensures form { printer.new.form ≡ printer.old.form }
    ensures version { printer.new.version ≡ printer.old.version }
{
    let (origins, keys, aspas) = members.parts();
    let (other_origins, other_keys, other_aspas) = other.parts();
    let of_origins = print_part(printer, action, origins, other_origins, output)?;
    let of_keys = print_part(printer, action, keys, other_keys, output)?;
    let of_aspas = print_part(printer, action, aspas, other_aspas, output)?;
    Ok(of_origins | of_keys | of_aspas)
}

/// Prints those of these changes that one part of data makes, in one pass over it and the same part
/// of the other data, and reports whether there is one.
fn print_part<P: Part, W: Sink>(
    printer: &mut Printer,
    action: Action,
    members: P,
    others: P,
    output: &mut W,
) -> Result<bool, Fault>
    requires members { IsData (P.left members) }
    requires others { IsData (P.left others) }
    ensures changes { PrintsChanges printer.old
        (changes_by action (P.left others) (P.left members))
        result (W.state output.old) (W.state output.new) }
    ensures form { printer.new.form ≡ printer.old.form }
    ensures version { printer.new.version ≡ printer.old.version }
{
    let mut any = false;
    let mut beside = Beside::new(members, others);
    'changes: loop {
        let Some(lent) = beside.next_changed(action) else {
            return Ok(any);
        };
        match P::payload(lent) {
            Ok(payload) => printer.print(action, payload, output)?,
            Err(_) => return Err(Fault::Memory),
        }
        any = true;
    }
}

//! Data, its changes, and what leads from one to another.

use crate::answer::Answer;
use crate::row::{Row, Way};
use crate::views::tell_end;
use data_memory::{ApplyCause, ChangeError, Data};
use rtr_wire::payload;
use rtr_wire::payload::Action;
use rtr_wire::pdu::{Counted, Fault, Payload, SliceSource};
use test_library::support::{Pieces, Recorder};

/// More units than any row has.
const LIMIT: u64 = 4294967295;

/// Makes the call of a row if it is one of these.
pub fn answer(row: &Row<'_>, way: Way) -> Option<Answer> {
    match row.call {
        "data" => Some(changed(row)),
        "apply" => Some(applied(row, way)),
        "write_all" => Some(written(row, way)),
        "write_delta" => Some(delta(row, way)),
        _ => None,
    }
}

/// The action and the payload of the next unit, if it is a payload unit that means one.
fn next(row: &Row<'_>, source: &mut SliceSource<'_>) -> Option<(Action, payload::Payload)> {
    let unit = Payload::read(row.alloc, source).ok()?.ok()??;
    unit.into_payload(row.alloc).ok()
}

/// The actions and payloads of the units that these bytes begin with.
fn changes_of(row: &Row<'_>, bytes: &[u8]) -> Vec<(Action, payload::Payload)> {
    let mut changes = Vec::new(row.alloc);
    let mut source = SliceSource::new(bytes);
    for _most in 0..bytes.len() {
        let Some(change) = next(row, &mut source) else {
            return changes;
        };
        if changes.push(change).is_err() {
            return changes;
        }
    }
    changes
}

/// `Data::announce` or `Data::withdraw`.
fn change(data: &mut Data, action: Action, payload: payload::Payload) -> Result<(), ChangeError> {
    match action {
        Action::Announce => data.announce(payload),
        Action::Withdraw => data.withdraw(&payload.as_ref()),
    }
}

/// The name of what came of a change.
fn name(outcome: Result<(), ChangeError>) -> &'static str {
    match outcome {
        Ok(()) => "Ok",
        Err(error) => error_name(error),
    }
}

/// The name of why a change wasn't made.
fn error_name(error: ChangeError) -> &'static str {
    match error {
        ChangeError::Duplicate => "Duplicate",
        ChangeError::Unknown => "Unknown",
        ChangeError::KeyTooLong => "KeyTooLong",
        ChangeError::NoProviders => "NoProviders",
        ChangeError::Memory => "Memory",
    }
}

/// What the announcements and withdrawals of these bytes make of nothing.
pub fn data_of(row: &Row<'_>, bytes: &[u8]) -> Data {
    let mut data = Data::new(row.alloc);
    for (action, payload) in changes_of(row, bytes) {
        let _ = change(&mut data, action, payload);
    }
    data
}

/// A writer with room for the units of both sides, so that it allocates nothing later; if there is
/// memory.
fn writer(row: &Row<'_>, size: usize) -> Recorder {
    let room = row.left.len().saturating_add(row.right.len());
    let mut writer = Recorder::with_room(row.alloc, size, room);
    writer.set_troubles(row.place("breaks"), row.place("stops"));
    writer
}

/// The units as changes, one after the other, of data without payloads: what came of each, how many
/// payloads there are then, and the units that announce them.
fn changed(row: &Row<'_>) -> Answer {
    let changes = changes_of(row, &row.left);
    let mut outcomes = Vec::new(row.alloc);
    let _ = outcomes.reserve(changes.len());
    let mut data = Data::new(row.alloc);
    row.ready();
    for (action, payload) in changes {
        let _ = outcomes.push(name(change(&mut data, action, payload)));
    }
    let mut seen = row.answer();
    for outcome in outcomes {
        seen.word(outcome);
    }
    seen.word(data.len());
    let mut writer = Counted::new(writer(row, usize::MAX));
    let answer = data.write_all(2, &mut writer);
    tell(&mut seen, &answer, &writer.into_inner());
    seen
}

/// `Data::apply` of the sequence on the right side to what the units of the left side make of
/// nothing: the end of data, or how many units came before the one at fault and what that is; how
/// many bytes were taken; and the units that announce what there is then.
fn applied(row: &Row<'_>, way: Way) -> Answer {
    let limit = row.number("limit", LIMIT);
    let mut data = data_of(row, &row.left);
    let mut reader = Counted::new(Pieces::failing(&row.right, way.sizes, row.place("fails")));
    let mut writer = Counted::new(writer(row, usize::MAX));
    row.ready();
    let answer = data.apply(row.alloc, &mut reader, limit);
    let mut seen = row.answer();
    match &answer {
        Ok(end) => tell_end(&mut seen, end),
        Err(error) => {
            seen.word(error.units);
            tell_cause(&mut seen, &error.cause);
        }
    }
    seen.word(reader.into_inner().taken());
    let written = data.write_all(2, &mut writer);
    tell(&mut seen, &written, &writer.into_inner());
    seen
}

/// Appends why a sequence wasn't applied.
fn tell_cause(seen: &mut Answer, cause: &ApplyCause) {
    match cause {
        ApplyCause::Read(fault) => seen.fault(fault),
        ApplyCause::Change(error) => seen.word(error_name(*error)),
    }
}

/// Appends `Ok` or the fault, and what was written.
fn tell(seen: &mut Answer, answer: &Result<(), Fault>, writer: &Recorder) {
    seen.outcome(answer);
    seen.word(":");
    seen.bytes(writer.held());
}

/// `Data::write_all` of what the units make of nothing, for the version.
fn written(row: &Row<'_>, way: Way) -> Answer {
    let data = data_of(row, &row.left);
    let mut writer = Counted::new(writer(row, way.size));
    row.ready();
    let answer = data.write_all(row.byte("version", 2), &mut writer);
    let mut seen = row.answer();
    tell(&mut seen, &answer, &writer.into_inner());
    seen
}

/// `Data::write_delta` from what the units of the left side make of nothing to what those of the
/// right side make, for the version.
fn delta(row: &Row<'_>, way: Way) -> Answer {
    let (old, new) = (data_of(row, &row.left), data_of(row, &row.right));
    let mut writer = Counted::new(writer(row, way.size));
    row.ready();
    let answer = old.write_delta(&new, row.byte("version", 2), &mut writer);
    let mut seen = row.answer();
    tell(&mut seen, &answer, &writer.into_inner());
    seen
}

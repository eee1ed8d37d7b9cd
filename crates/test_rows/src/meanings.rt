//! The meanings of payload units, and the units of meanings.

use crate::answer::Answer;
use crate::payloads::{read, tell_unit};
use crate::row::Row;
use rtr_wire::payload::{self, Action, RouteOrigin};
use rtr_wire::pdu::{Fault, Payload};
use std::alloc::AllocError;

/// Makes the call of a row if it is one of these.
pub fn answer(row: &Row<'_>) -> Option<Answer> {
    match row.call {
        "to_payload" => Some(to_payload(row)),
        "into_payload" => Some(into_payload(row)),
        "payload_clone" => Some(clone(row)),
        "part_clone" => Some(clone_part(row)),
        "withdraw" => Some(withdraw(row)),
        "new" => Some(new(row)),
        "from_payload" => Some(from_payload(row)),
        "new_if_supported" => Some(new_if_supported(row)),
        _ => None,
    }
}

/// Appends an origin: address, prefix length, max length, ASN.
pub fn tell_origin(seen: &mut Answer, origin: &RouteOrigin) {
    let prefix = origin.prefix;
    seen.word(format_args!("{}/{}", prefix.addr(), prefix.prefix_len()));
    match prefix.max_len() {
        Some(max_len) => seen.word(max_len),
        None => seen.word("none"),
    }
    seen.word(origin.asn.into_u32())
}

/// Appends a payload.
fn tell_payload(seen: &mut Answer, payload: &payload::Payload) {
    match payload {
        payload::Payload::Origin(origin) => {
            seen.word("Origin");
            tell_origin(seen, origin)
        }
        payload::Payload::RouterKey(key) => {
            seen.word(format_args!("RouterKey {}", key.asn.into_u32()));
            seen.bytes(key.key_identifier.as_slice());
            seen.word("info");
            seen.bytes(key.key_info.as_slice())
        }
        payload::Payload::Aspa(aspa) => {
            seen.word(format_args!("Aspa {}", aspa.customer.into_u32()));
            seen.bytes(aspa.providers.as_slice())
        }
    }
}

/// Appends a meaning: action and payload, or the fault with the report.
fn tell_meaning(seen: &mut Answer, answer: &Result<(Action, payload::Payload), Fault>) {
    match answer {
        Ok((action, payload)) => {
            seen.word(if action.is_announce() {
                "announce"
            } else {
                "withdraw"
            });
            tell_payload(seen, payload)
        }
        Err(fault) => {
            seen.fault(fault);
            if let Fault::Refused(report) = fault {
                seen.bytes(report.as_ref());
            }
        }
    }
}

/// `pdu::Payload::to_payload`, and the unit as it is then.
fn to_payload(row: &Row<'_>) -> Answer {
    let Some(unit) = read(row) else {
        return row.no_unit();
    };
    row.ready();
    let answer = unit.to_payload(row.alloc);
    let mut seen = row.answer();
    tell_meaning(&mut seen, &answer);
    seen.word("of");
    tell_unit(&mut seen, row, &unit);
    seen
}

/// `pdu::Payload::into_payload`.
fn into_payload(row: &Row<'_>) -> Answer {
    let Some(unit) = read(row) else {
        return row.no_unit();
    };
    row.ready();
    let answer = unit.into_payload(row.alloc);
    let mut seen = row.answer();
    tell_meaning(&mut seen, &answer);
    seen
}

/// What the row's unit means.
fn meaning(row: &Row<'_>) -> Option<payload::Payload> {
    let (_, payload) = read(row)?.into_payload(row.alloc).ok()?;
    Some(payload)
}

/// Appends a clone of the row's meaning, and that meaning as it is then.
fn told_clone(
    row: &Row<'_>,
    payload: &payload::Payload,
    copy: &Result<payload::Payload, AllocError>,
) -> Answer {
    let mut seen = row.answer();
    match copy {
        Ok(copy) => {
            if *copy != *payload {
                seen.word("another");
            }
            tell_payload(&mut seen, copy);
        }
        Err(_) => seen.word("Memory"),
    }
    seen.word("of");
    tell_payload(&mut seen, payload);
    seen
}

/// `payload::Payload::clone` of the row's meaning.
fn clone(row: &Row<'_>) -> Answer {
    let Some(payload) = meaning(row) else {
        return row.no_unit();
    };
    row.ready();
    let copy = payload.clone();
    told_clone(row, &payload, &copy)
}

/// `payload::RouterKey::clone` or `payload::Aspa::clone` of the row's meaning.
fn clone_part(row: &Row<'_>) -> Answer {
    let Some(payload) = meaning(row) else {
        return row.no_unit();
    };
    row.ready();
    let copy = match &payload {
        payload::Payload::Origin(_) => return row.no_unit(),
        payload::Payload::RouterKey(key) => key.clone().map(payload::Payload::RouterKey),
        payload::Payload::Aspa(aspa) => aspa.clone().map(payload::Payload::Aspa),
    };
    told_clone(row, &payload, &copy)
}

/// `payload::Aspa::withdraw` of the row's meaning, and that meaning as it is then.
fn withdraw(row: &Row<'_>) -> Answer {
    let Some(payload) = meaning(row) else {
        return row.no_unit();
    };
    let Some(aspa) = payload.as_aspa() else {
        return row.no_unit();
    };
    row.ready();
    let withdrawn = aspa.withdraw(row.alloc);
    let mut seen = row.answer();
    match withdrawn {
        Ok(withdrawn) => {
            seen.word(format_args!("Aspa {}", withdrawn.key().into_u32()));
            seen.bytes(withdrawn.providers.as_slice());
        }
        Err(_) => seen.word("Memory"),
    }
    seen.word("of");
    tell_payload(&mut seen, &payload);
    seen
}

/// Appends a unit that was made, or that there was no memory for it.
fn tell_made(seen: &mut Answer, row: &Row<'_>, made: &Result<Payload, AllocError>) {
    match made {
        Ok(unit) => tell_unit(seen, row, unit),
        Err(_) => seen.word("Memory"),
    }
}

/// `pdu::Payload::new` of the row's meaning in a version with flags, and that meaning then.
fn new(row: &Row<'_>) -> Answer {
    let Some(payload) = meaning(row) else {
        return row.no_unit();
    };
    let (version, flags) = (row.byte("version", 1), row.byte("flags", 1));
    row.ready();
    let made = Payload::new(version, flags, &payload.as_ref());
    let mut seen = row.answer();
    tell_made(&mut seen, row, &made);
    seen.word("of");
    tell_payload(&mut seen, &payload);
    seen
}

/// `pdu::Payload::from_payload` of the row's meaning.
fn from_payload(row: &Row<'_>) -> Answer {
    let Some(payload) = meaning(row) else {
        return row.no_unit();
    };
    let (version, flags) = (row.byte("version", 1), row.byte("flags", 1));
    row.ready();
    let made = Payload::from_payload(version, flags, payload);
    let mut seen = row.answer();
    tell_unit(&mut seen, row, &made);
    seen
}

/// `pdu::Payload::new_if_supported` of the row's meaning, and that meaning as it is then.
fn new_if_supported(row: &Row<'_>) -> Answer {
    let Some(payload) = meaning(row) else {
        return row.no_unit();
    };
    let (version, flags) = (row.byte("version", 1), row.byte("flags", 1));
    row.ready();
    let made = Payload::new_if_supported(version, flags, &payload.as_ref());
    let mut seen = row.answer();
    match &made {
        Ok(Some(unit)) => tell_unit(&mut seen, row, unit),
        Ok(None) => seen.word("none"),
        Err(_) => seen.word("Memory"),
    }
    seen.word("of");
    tell_payload(&mut seen, &payload);
    seen
}

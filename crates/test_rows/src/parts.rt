//! Pieces, error reports, key info and providers.

use crate::answer::Answer;
use crate::fixed::{header, tell_taken};
use crate::row::{Row, Way};
use rtr_wire::base::Asn;
use rtr_wire::pdu::{
    Counted, Error, KeyInfoVecError, ProviderAsns, ProviderIterError, RouterKeyInfo, fill, put,
};

/// Makes the call of a row if it is one of these.
pub fn answer(row: &Row<'_>, way: Way) -> Option<Answer> {
    match row.call {
        "fill" => Some(filled(row, way)),
        "put" => Some(written(row, way)),
        "Error::skip_payload" => Some(skipped(row, way)),
        "Error::new" => Some(report(row)),
        "Error::clone" => Some(clone_report(row)),
        "Error::write" => Some(write_report(row, way)),
        "Error::empty" => Some(empty_report(row)),
        "RouterKeyInfo::from_vec" => Some(key_info(row)),
        "RouterKeyInfo::to_text" => Some(key_text(row)),
        "RouterKeyInfo::clone" => Some(clone_key_info(row)),
        "ProviderAsns::try_from_iter" => Some(providers(row)),
        "ProviderAsns::clone" => Some(clone_providers(row)),
        "ProviderAsns::empty" => Some(no_providers(row)),
        _ => None,
    }
}

/// `fill` of a piece of `size` zero bytes: `Ok` with the piece or the fault, how many bytes were
/// taken, and the number of calls.
fn filled(row: &Row<'_>, way: Way) -> Answer {
    let mut piece = [0u8; 16];
    let (piece, _) = piece.split_at_mut(row.place("size").min(16));
    let mut reader = Counted::new(row.reader(way));
    let answer = fill(&mut reader, piece);
    let mut seen = row.answer();
    match answer {
        Ok(()) => {
            seen.word("Ok");
            seen.bytes(piece);
        }
        Err(fault) => seen.fault(&fault),
    }
    let reader = reader.into_inner();
    tell_taken(&mut seen, &reader);
    seen.word(format_args!("calls {}", reader.calls()));
    seen
}

/// `put` of the row's bytes: `Ok` or the fault, what was written, and the number of calls.
fn written(row: &Row<'_>, way: Way) -> Answer {
    let mut writer = Counted::new(row.writer(way));
    let answer = put(&mut writer, &row.left);
    let mut seen = row.answer();
    seen.outcome(&answer);
    let writer = writer.into_inner();
    seen.bytes(writer.held());
    seen.word(format_args!("calls {}", writer.calls()));
    seen
}

/// `Error::skip_payload` after the header that the row says.
fn skipped(row: &Row<'_>, way: Way) -> Answer {
    let mut reader = Counted::new(row.reader(way));
    let answer = Error::skip_payload(header(row), &mut reader);
    let mut seen = row.answer();
    seen.outcome(&answer);
    tell_taken(&mut seen, &reader.into_inner());
    seen
}

/// The most bytes that a part of a row's report has.
const MOST_BYTES: usize = 1000000;

/// The report of a row about the left bytes, with the right ones as its text, or none if there was
/// no memory for it.
fn made(row: &Row<'_>) -> Option<Error> {
    let (version, code) = (row.byte("version", 1), row.short("code"));
    if row.left.len() > MOST_BYTES || row.right.len() > MOST_BYTES {
        return None;
    }
    Error::new(row.alloc, version, code, &row.left, &row.right).ok()
}

/// `Error::new`.
fn report(row: &Row<'_>) -> Answer {
    row.ready();
    let report = made(row);
    let mut seen = row.answer();
    match &report {
        Some(report) => seen.bytes(report.as_ref()),
        None => seen.word("Memory"),
    }
    seen
}

/// Appends a report's clone, and the report as it is then.
fn told_clone(row: &Row<'_>, report: &Error) -> Answer {
    row.ready();
    let copy = report.clone();
    let mut seen = row.answer();
    match &copy {
        Ok(copy) => {
            if copy != report {
                seen.word("another");
            }
            seen.bytes(copy.as_ref());
        }
        Err(_) => seen.word("Memory"),
    }
    seen.word("of");
    seen.bytes(report.as_ref());
    seen
}

/// `Error::clone` of the report of the row, which is made without failing allocations.
fn clone_report(row: &Row<'_>) -> Answer {
    match made(row) {
        Some(report) => told_clone(row, &report),
        None => row.no_unit(),
    }
}

/// `Error::empty`, and its clone.
fn empty_report(row: &Row<'_>) -> Answer {
    let report = Error::empty(row.alloc);
    told_clone(row, &report)
}

/// `Error::write` of the report of the row, of none with `empty`: what was written, and whether the
/// writer was called.
fn write_report(row: &Row<'_>, way: Way) -> Answer {
    let report = match row.setting("empty") {
        Some(_) => Some(Error::empty(row.alloc)),
        None => made(row),
    };
    let mut writer = Counted::new(row.writer(way));
    let mut seen = row.answer();
    match report {
        Some(report) => seen.outcome(&report.write(&mut writer)),
        None => seen.word("Memory"),
    }
    let writer = writer.into_inner();
    seen.bytes(writer.held());
    if writer.calls() == 0 {
        seen.word("uncalled");
    }
    seen
}

/// `RouterKeyInfo::from_vec` of the row's bytes: the length and the bytes.
fn key_info(row: &Row<'_>) -> Answer {
    let Ok(bytes) = Vec::from_slice(row.alloc, &row.left) else {
        return row.no_unit();
    };
    row.ready();
    let info = RouterKeyInfo::from_vec(row.alloc, bytes);
    let mut seen = row.answer();
    match &info {
        Ok(info) => {
            seen.word(info.len());
            seen.bytes(info.as_slice());
        }
        Err(KeyInfoVecError::Memory) => seen.word("Memory"),
        Err(KeyInfoVecError::Size(_)) => seen.word("Size"),
    }
    seen
}

/// The key info of the row's bytes.
fn info(row: &Row<'_>) -> Option<RouterKeyInfo> {
    let bytes = Vec::from_slice(row.alloc, &row.left).ok()?;
    RouterKeyInfo::from_vec(row.alloc, bytes).ok()
}

/// `RouterKeyInfo::to_text`, and the key info as it is then.
fn key_text(row: &Row<'_>) -> Answer {
    let Some(info) = info(row) else {
        return row.no_unit();
    };
    row.ready();
    let text = info.to_text(row.alloc);
    let mut seen = row.answer();
    match &text {
        Ok(text) => {
            seen.word(format_args!("\"{}\"", text.as_str()));
            seen.word(format_args!("shown \"{info}\""));
        }
        Err(_) => seen.word("Memory"),
    }
    seen.word("of");
    seen.bytes(info.as_slice());
    seen
}

/// `RouterKeyInfo::clone`, and the key info as it is then.
fn clone_key_info(row: &Row<'_>) -> Answer {
    let Some(info) = info(row) else {
        return row.no_unit();
    };
    row.ready();
    let copy = info.clone();
    let mut seen = row.answer();
    match &copy {
        Ok(copy) => seen.bytes(copy.as_slice()),
        Err(_) => seen.word("Memory"),
    }
    seen.word("of");
    seen.bytes(info.as_slice());
    seen
}

/// Appends providers: their number, length and bytes, and each that the iterator gives.
fn tell_providers(seen: &mut Answer, providers: &ProviderAsns) {
    seen.word(format_args!("{} {}", providers.asn_count(), providers.len()));
    seen.bytes(providers.as_slice());
    if providers.is_empty() {
        seen.word("empty");
    }
    let mut each = providers.iter();
    for _ in 0..3 {
        match each.next() {
            Some(asn) => seen.word(asn.into_u32()),
            None => seen.word("end"),
        }
    }
}

/// `ProviderAsns::try_from_iter` of `count` ASNs from 65549 on.
fn providers(row: &Row<'_>) -> Answer {
    let count = row.long("count");
    row.ready();
    let asns = (0..count).map(|i| Asn::from_u32(65549_u32.saturating_add(i)));
    let made = ProviderAsns::try_from_iter(row.alloc, asns);
    let mut seen = row.answer();
    match &made {
        Ok(providers) => {
            seen.word(format_args!("{} {}", providers.asn_count(), providers.len()));
            if count < 10 {
                tell_providers(&mut seen, providers);
            }
        }
        Err(ProviderIterError::Memory) => seen.word("Memory"),
        Err(ProviderIterError::Count(_)) => seen.word("Count"),
    }
    seen
}

/// `ProviderAsns::clone` of `count` providers, and these as they are then.
fn clone_providers(row: &Row<'_>) -> Answer {
    let asns = (0..row.long("count")).map(|i| Asn::from_u32(65549_u32.saturating_add(i)));
    let Ok(providers) = ProviderAsns::try_from_iter(row.alloc, asns) else {
        return row.no_unit();
    };
    row.ready();
    let copy = providers.clone();
    let mut seen = row.answer();
    match &copy {
        Ok(copy) => tell_providers(&mut seen, copy),
        Err(_) => seen.word("Memory"),
    }
    seen.word("of");
    tell_providers(&mut seen, &providers);
    seen
}

/// `ProviderAsns::empty`.
fn no_providers(row: &Row<'_>) -> Answer {
    row.ready();
    let made = ProviderAsns::empty(row.alloc);
    let mut seen = row.answer();
    match &made {
        Ok(providers) => tell_providers(&mut seen, providers),
        Err(_) => seen.word("Memory"),
    }
    seen
}

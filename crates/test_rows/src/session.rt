//! Units of any type and error reports.

use crate::answer::Answer;
use crate::fixed::{header, tell_taken, told_put};
use crate::row::{Row, Way};
use crate::views::tell_view;
use rtr_wire::pdu::{
    Counted, ErrorCode, Fault, Header, Payload, SliceSource, Unit, UnitView, owed_code,
};
use test_library::support::Recorder;
use unit_any::length::unit_length;
use unit_any::{AnyUnit, Report, ReportView, SessionView};

/// Makes the call of a row if it is one of these.
pub fn answer(row: &Row<'_>, way: Way) -> Option<Answer> {
    match row.call {
        "AnyUnit::read" => Some(read_any(row, way)),
        "AnyUnit::read_payload" => Some(read_any_after(row, way)),
        "AnyUnit::write" => Some(write_any(row, way)),
        "unit_length" => Some(length(row)),
        "SessionView::first" => Some(first(row)),
        "owed_code" => Some(owed(row)),
        "Report::read" => Some(read_report(row, way)),
        "Report::read_payload" => Some(read_report_after(row, way)),
        "Report::write" => Some(write_report(row, way)),
        _ => None,
    }
}

/// The name of the unit's kind.
fn kind(unit: &AnyUnit) -> &'static str {
    match unit {
        AnyUnit::SerialNotify(_) => "SerialNotify",
        AnyUnit::SerialQuery(_) => "SerialQuery",
        AnyUnit::ResetQuery(_) => "ResetQuery",
        AnyUnit::CacheResponse(_) => "CacheResponse",
        AnyUnit::Payload(Payload::V4(_)) => "V4",
        AnyUnit::Payload(Payload::V6(_)) => "V6",
        AnyUnit::Payload(Payload::RouterKey(_)) => "RouterKey",
        AnyUnit::Payload(Payload::Aspa(_)) => "Aspa",
        AnyUnit::EndOfData(_) => "EndOfData",
        AnyUnit::CacheReset(_) => "CacheReset",
        AnyUnit::Error(_) => "Error",
    }
}

/// Appends a unit of any type: its kind, version, size and bytes.
fn tell_any(seen: &mut Answer, row: &Row<'_>, unit: &AnyUnit) {
    seen.unit(kind(unit), unit.version(), unit.size());
    let mut writer = Counted::new(Recorder::new(row.alloc, usize::MAX));
    let outcome = unit.write(&mut writer);
    seen.written(&outcome, &writer.into_inner());
}

/// Appends an error report: its version, code, size and bytes, or the fault.
fn tell_report(seen: &mut Answer, answer: &Result<Report, Fault>) {
    match answer {
        Ok(report) => {
            seen.word(report.version());
            seen.word(report.code().0);
            seen.word(report.size());
            seen.bytes(report.as_ref());
        }
        Err(fault) => seen.fault(fault),
    }
}

/// `AnyUnit::read`, if there is a unit, and how many bytes were taken.
fn read_any(row: &Row<'_>, way: Way) -> Answer {
    let mut reader = Counted::new(row.reader(way));
    row.ready();
    let answer = AnyUnit::read(row.alloc, &mut reader);
    let mut seen = row.answer();
    match &answer {
        Ok(Some(unit)) => tell_any(&mut seen, row, unit),
        Ok(None) => seen.word("None"),
        Err(fault) => seen.fault(fault),
    }
    tell_taken(&mut seen, &reader.into_inner());
    seen
}

/// `AnyUnit::read_payload` after the header that the row says, and how many bytes were taken.
fn read_any_after(row: &Row<'_>, way: Way) -> Answer {
    let header = header(row);
    let mut reader = Counted::new(row.reader(way));
    row.ready();
    let answer = AnyUnit::read_payload(row.alloc, header, &mut reader);
    let mut seen = row.answer();
    match &answer {
        Ok(unit) => tell_any(&mut seen, row, unit),
        Err(fault) => seen.fault(fault),
    }
    tell_taken(&mut seen, &reader.into_inner());
    seen
}

/// `Report::read`, and how many bytes were taken.
fn read_report(row: &Row<'_>, way: Way) -> Answer {
    let mut reader = Counted::new(row.reader(way));
    row.ready();
    let answer = Report::read(row.alloc, &mut reader);
    let mut seen = row.answer();
    tell_report(&mut seen, &answer);
    tell_taken(&mut seen, &reader.into_inner());
    seen
}

/// `Report::read_payload` after the header that the row says, and how many bytes were taken.
fn read_report_after(row: &Row<'_>, way: Way) -> Answer {
    let header = header(row);
    let mut reader = Counted::new(row.reader(way));
    row.ready();
    let answer = Report::read_payload(row.alloc, header, &mut reader);
    let mut seen = row.answer();
    tell_report(&mut seen, &answer);
    tell_taken(&mut seen, &reader.into_inner());
    seen
}

/// `AnyUnit::write`: `Ok` or the fault, and what was written.
fn write_any(row: &Row<'_>, way: Way) -> Answer {
    let Ok(Some(unit)) = AnyUnit::read(row.alloc, &mut SliceSource::new(&row.left)) else {
        return row.no_unit();
    };
    let mut writer = Counted::new(row.writer(way));
    row.ready();
    let answer = unit.write(&mut writer);
    told_put(row, &answer, &writer.into_inner())
}

/// `Report::write`: `Ok` or the fault, and what was written.
fn write_report(row: &Row<'_>, way: Way) -> Answer {
    let Ok(report) = Report::read(row.alloc, &mut SliceSource::new(&row.left)) else {
        return row.no_unit();
    };
    let mut writer = Counted::new(row.writer(way));
    row.ready();
    let answer = report.write(&mut writer);
    told_put(row, &answer, &writer.into_inner())
}

/// `unit_length`: none, or the length, or the fault of the header.
fn length(row: &Row<'_>) -> Answer {
    row.ready();
    let answer = unit_length(&row.left);
    let mut seen = row.answer();
    match &answer {
        Ok(Some(size)) => seen.word(size),
        Ok(None) => seen.word("None"),
        Err(fault) => seen.view_fault(fault),
    }
    seen
}

/// `SessionView::first`: the kind and what the view shows, and the unit's length; or the fault, and
/// the size beside it.
fn first(row: &Row<'_>) -> Answer {
    row.ready();
    let answer = SessionView::first(&row.left);
    let mut seen = row.answer();
    match &answer {
        Ok((view, size)) => {
            tell_session_view(&mut seen, view);
            seen.word("size");
            seen.word(size);
        }
        Err(fault) => {
            seen.view_fault(&fault.fault);
            if let Some(size) = fault.size {
                seen.word("size");
                seen.word(size);
            }
        }
    }
    seen
}

/// Appends a unit: its kind, and its fields. The session of a reset query and a cache reset, which
/// means nothing, is the field as it came.
fn tell_session_view(seen: &mut Answer, view: &SessionView<'_>) {
    match view {
        SessionView::SerialNotify(unit) => {
            seen.unit("SerialNotify", unit.version(), unit.session());
            seen.word(unit.serial());
        }
        SessionView::SerialQuery(unit) => {
            seen.unit("SerialQuery", unit.version(), unit.session());
            seen.word(unit.serial());
        }
        SessionView::ResetQuery(unit) => {
            seen.unit("ResetQuery", unit.version(), unit.session());
        }
        SessionView::CacheResponse(unit) => {
            seen.unit("CacheResponse", unit.version(), unit.session());
        }
        SessionView::Data(view) => tell_view(seen, view),
        SessionView::CacheReset(unit) => {
            seen.unit("CacheReset", unit.version(), unit.session());
        }
        SessionView::Error(view) => tell_report_view(seen, view),
    }
}

/// Appends an error report: its version, code and size, the unit that it is about and its text, or
/// that its lengths don't fit.
fn tell_report_view(seen: &mut Answer, view: &ReportView<'_>) {
    seen.unit("Error", view.version(), view.code().0);
    seen.word(view.size());
    match (view.pdu(), view.text()) {
        (Some(pdu), Some(text)) => {
            seen.word("about");
            seen.bytes(pdu);
            seen.word("text");
            seen.bytes(text);
        }
        (None, None) => seen.word("lengths"),
        _ => seen.word("one part"),
    }
}

/// `owed_code` of what refuses the row's bytes: of each fault its code, and what is owed. The
/// faults are those of `AnyUnit::read`, `SessionView::first` and `UnitView::first`.
fn owed(row: &Row<'_>) -> Answer {
    let Ok(header) = Header::read(&mut SliceSource::new(&row.left)) else {
        return row.no_unit();
    };
    let mut seen = row.answer();
    if let Err(fault) = AnyUnit::read(row.alloc, &mut SliceSource::new(&row.left)) {
        seen.word("read");
        tell_codes(&mut seen, fault.code(), owed_code(header, &fault));
    }
    if let Err(fault) = SessionView::first(&row.left) {
        seen.word("view");
        tell_codes(&mut seen, fault.fault.code(), fault.fault.owed_code(header));
    }
    if let Err(fault) = UnitView::first(&row.left) {
        seen.word("unit");
        tell_codes(&mut seen, fault.code(), fault.owed_code(header));
    }
    seen
}

/// Appends the code of a fault, and what is owed.
fn tell_codes(seen: &mut Answer, code: Option<ErrorCode>, owed: Option<ErrorCode>) {
    for code in [code, owed] {
        match code {
            Some(code) => seen.word(code.0),
            None => seen.word("none"),
        }
    }
}

//! Views of units in a slice.

use crate::answer::Answer;
use crate::meanings::tell_origin;
use crate::row::{Row, Way};
use rtr_wire::pdu::{AspaView, Counted, EndOfData, OriginView, RouterKeyView, UnitView};

/// Makes the call of a row if it is one of these.
pub fn answer(row: &Row<'_>, way: Way) -> Option<Answer> {
    match row.call {
        "first" => Some(first(row)),
        "form" => Some(form(row, way)),
        _ => None,
    }
}

/// `UnitView::first`: what the view shows, and the unit's length.
fn first(row: &Row<'_>) -> Answer {
    row.ready();
    let answer = UnitView::first(&row.left);
    let mut seen = row.answer();
    match answer {
        Ok((view, size)) => {
            tell_view(&mut seen, &view);
            if row.left.first() != Some(&view.version()) {
                seen.word("of another version");
            }
            seen.word("size");
            seen.word(size);
        }
        Err(fault) => seen.view_fault(&fault),
    }
    seen
}

/// Appends what a view shows.
pub fn tell_view(seen: &mut Answer, view: &UnitView<'_>) {
    match view {
        UnitView::Origin(view) => tell_origin_view(seen, view),
        UnitView::RouterKey(view) => tell_key_view(seen, view),
        UnitView::Aspa(view) => tell_aspa_view(seen, view),
        UnitView::End(end) => tell_end(seen, end),
    }
}

/// Appends a prefix: version, flags, origin.
fn tell_origin_view(seen: &mut Answer, view: &OriginView) {
    seen.unit("Origin", view.version(), view.flags());
    tell_origin(seen, &view.origin())
}

/// Appends a router key: version, flags, ASN, identifier, key info.
fn tell_key_view(seen: &mut Answer, view: &RouterKeyView<'_>) {
    seen.unit("RouterKey", view.version(), view.flags());
    seen.word(view.asn().into_u32());
    seen.bytes(view.key_identifier().as_slice());
    seen.word("info");
    seen.bytes(view.key_info())
}

/// Appends an ASPA unit: version, flags, customer, providers.
fn tell_aspa_view(seen: &mut Answer, view: &AspaView<'_>) {
    seen.unit("Aspa", view.version(), view.flags());
    seen.word(view.customer().into_u32());
    seen.bytes(view.providers())
}

/// Appends an end of data: version, session, serial number, and its timings or none.
pub fn tell_end(seen: &mut Answer, end: &EndOfData) {
    seen.unit("End", end.version(), end.session());
    seen.word(end.serial());
    if end.state().session() != end.session() || end.state().serial() != end.serial() {
        seen.word("another state");
    }
    match end.timing() {
        Some(timing) => {
            seen.word(timing.refresh);
            seen.word(timing.retry);
            seen.word(timing.expire);
        }
        None => seen.word("untimed"),
    }
}

/// `UnitView::write_form` of the first view.
fn form(row: &Row<'_>, way: Way) -> Answer {
    let Ok((view, _)) = UnitView::first(&row.left) else {
        return row.no_unit();
    };
    let mut writer = Counted::new(row.writer(way));
    row.ready();
    let answer = view.write_form(&mut writer);
    let mut seen = row.answer();
    match answer {
        Ok(()) => seen.word("Ok"),
        Err(fault) => seen.view_fault(&fault),
    }
    seen.bytes(writer.into_inner().held());
    seen
}

//! The fields of a unit that the machine looks at.

ghost use Rattle.std.specs.Prelude.{◌≡◌};
ghost use Rattle.rtr_units.specs.AnyEnd.{end_meaning};
ghost use Rattle.session_bytes.specs.Heads.{bare_head, end_head};
ghost use Rattle.session_bytes.specs.PrivateHeads.{data_head, shown_head};

use rtr_base::error_code::ErrorCode;
use rtr_units::end::EndOfData;
use rtr_units::unit::Unit;
use session_router::head::{Head, Kind};
use unit_any::SessionView;
use unit_views::view::UnitView;

/// The head of a unit with this view and size.
#[inline(always)]
pub(crate) fn head_of(view: &SessionView<'_>, size: u32) -> Head
    ensures { result ≡ shown_head view.now size }
{
    match view {
        SessionView::Data(view) => data_head(view, size),
        SessionView::SerialNotify(unit) => Head {
            session: unit.session(),
            serial: unit.serial().0,
            ..bare(Kind::SerialNotify, unit.version(), size)
        },
        SessionView::SerialQuery(unit) => Head {
            session: unit.session(),
            serial: unit.serial().0,
            ..bare(Kind::SerialQuery, unit.version(), size)
        },
        SessionView::ResetQuery(unit) => bare(Kind::ResetQuery, unit.version(), size),
        SessionView::CacheResponse(unit) => Head {
            session: unit.session(),
            ..bare(Kind::CacheResponse, unit.version(), size)
        },
        SessionView::CacheReset(unit) => bare(Kind::CacheReset, unit.version(), size),
        SessionView::Error(report) => Head {
            code: report.code(),
            ..bare(Kind::ErrorReport, report.version(), size)
        },
    }
}

/// The head of a payload unit or an end of data.
#[inline(always)]
fn data_head(view: &UnitView<'_>, size: u32) -> Head
    ensures { result ≡ data_head view.now size }
{
    match view {
        UnitView::Origin(view) => bare(Kind::Prefix, view.version(), size),
        UnitView::RouterKey(view) => bare(Kind::RouterKey, view.version(), size),
        UnitView::Aspa(view) => bare(Kind::Aspa, view.version(), size),
        UnitView::End(end) => end_head(end, size),
    }
}

/// The head of an end of data.
fn end_head(end: &EndOfData, size: u32) -> Head
    ensures { result ≡ end_head (end_meaning end.now) size }
{
    let head = Head {
        session: end.session(),
        serial: end.serial().0,
        ..bare(Kind::EndOfData, end.version(), size)
    };
    match end.timing() {
        Some(timing) => Head {
            refresh: timing.refresh,
            retry: timing.retry,
            expire: timing.expire,
            ..head
        },
        None => head,
    }
}

/// A head with the fields that all units have.
#[inline(always)]
fn bare(kind: Kind, version: u8, size: u32) -> Head
    ensures { result ≡ bare_head kind version size }
{
    Head {
        kind,
        version,
        session: 0,
        serial: 0,
        code: ErrorCode(0),
        refresh: 0,
        retry: 0,
        expire: 0,
        size,
    }
}

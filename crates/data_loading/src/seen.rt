//! Units of a recording, by their effect.

ghost use Rattle.std.specs.Prelude.{◌≤◌, ◌<◌, IfOk, IfErr, List, Option, ℕ, length, take};
ghost use Rattle.unit_views.specs.Views.{IsViewOf};
ghost use Rattle.unit_any.specs.SessionViews.{ShowsUnit, IsSessionFault};
ghost use Rattle.data_loading.specs.PrivateLoading.{Sees};

use rtr_units::end::EndOfData;
use rtr_units::unit::Unit;
use unit_any::SessionView;
use unit_views::fault::ViewFault;
use unit_views::view::UnitView;

/// The effect of a unit of a recording.
#[derive(Clone, Copy)]
pub(crate) enum Seen {
    /// A payload unit of this version.
    Payload(u8),
    /// An end of data.
    End(EndOfData),
    /// A cache response of this session.
    Response(u16),
    /// A cache reset.
    Reset,
    /// An error report.
    Report,
    /// A reset query, which requests all data.
    AsksAll,
    /// A serial query, which requests changes.
    AsksChanges,
    /// A serial notify, which is ignored.
    Notifies,
}

/// Returns the effect of the unit at the front of the input, and its length. The faults are those
/// of `SessionView::first`.
#[inline(always)]
pub(crate) fn first_seen(input: &[u8]) -> Result<(Seen, usize), ViewFault>
    ensures unit { IfOk result (λ p. Sees p.0 (take p.1 input.now)) }
    ensures more { IfOk result (λ p. 0 < p.1) }
    ensures within { IfOk result (λ p. p.1 ≤ length input.now) }
    ensures fault { IfErr result (λ e. (size : Option ℕ) × IsSessionFault input.now e size) }
{
    match SessionView::first(input) {
        Ok((view, size)) => Ok((see(&view), size)),
        Err(fault) => Err(fault.fault),
    }
}

/// The effect of the unit.
#[inline(always)]
fn see(view: &SessionView<'_>) -> Seen
    ensures { (b : List ℕ) → ShowsUnit view.now b → Sees result b }
{
    match view {
        SessionView::Data(view) => see_data(view),
        SessionView::CacheResponse(unit) => Seen::Response(unit.session()),
        SessionView::CacheReset(_) => Seen::Reset,
        SessionView::Error(_) => Seen::Report,
        SessionView::ResetQuery(_) => Seen::AsksAll,
        SessionView::SerialQuery(_) => Seen::AsksChanges,
        SessionView::SerialNotify(_) => Seen::Notifies,
    }
}

/// The effect of a payload unit or an end of data.
#[inline(always)]
fn see_data(view: &UnitView<'_>) -> Seen
    ensures { (b : List ℕ) → IsViewOf view.now b → Sees result b }
{
    match view {
        UnitView::Origin(view) => Seen::Payload(view.version()),
        UnitView::RouterKey(view) => Seen::Payload(view.version()),
        UnitView::Aspa(view) => Seen::Payload(view.version()),
        UnitView::End(end) => Seen::End(*end),
    }
}

//! Whether a slice holds data.

ghost use Rattle.std.specs.Prelude.{◌≡◌, ◌<◌, ◌≤◌, ◌↔◌, IsTrue, IfOk, IfErr, IfSome};
ghost use Rattle.std.specs.Prelude.{List, length};
ghost use Rattle.rtr_base.specs.declared.action.Action.TheVariants.{Announce};
ghost use Rattle.rtr_payload.specs.Payloads.{Payload};
ghost use Rattle.rtr_units.specs.AnyEnd.{end_bytes, end_meaning};
ghost use Rattle.rtr_units.specs.End.{IsEnd};
ghost use Rattle.data_slices.specs.Canonical.{HoldsData};
ghost use Rattle.data_slices.specs.Flaws.{IsFlawOfData};
ghost use Rattle.data_slices.specs.Items.{meant};
ghost use Rattle.data_slices.specs.PrivateChanges.{InVersion, IsNext, RunsAfter, RunsOn};
ghost use Rattle.data_slices.specs.PrivateChanges.{RunsTo, last_version};
ghost use Rattle.data_slices.specs.declared.item.PayloadView.{PayloadView};

use crate::fault::{Flaw, Reason};
use crate::item::{Item, PayloadView, PrefixKind, next, next_prefix};
use rtr_units::end::EndOfData;
use unit_views::origin::OriginView;

/// Returns the end of the data at the front of the input, or why there are no data. Nothing is
/// allocated, and what follows the end of data is ignored.
///
/// Data are in canonical form: units that announce payloads in their order (origins, IPv4 before
/// IPv6, then router keys, then ASPAs), each once and at most one ASPA of each customer, all of one
/// version, and an end of data of that version.
///
/// A flaw is the first in the input: the bytes before its offset are units with which data may
/// begin. `Refused` has the fault of bytes that aren't a unit or an end of data (`Short` if the
/// input ends before its end of data), and `NotCanonical` is for a unit, or the end of data, that
/// may not follow: a unit that withdraws, or isn't above the last one, or is of another version.
/// The offset is that of the unit, in bytes from the front of the input.
pub fn check_data(input: &[u8]) -> Result<EndOfData, Flaw>
    ensures data { IfOk result
        (λ end. (d : List Payload) × HoldsData input.now d (end_meaning end)) }
    ensures end { IfOk result (λ end. IsEnd (end_bytes end) (end_meaning end)) }
    ensures flaw { IfErr result (λ flaw. IsFlawOfData input.now flaw) }
{
    let mut rest = input;
    let mut last = None;
    'items: loop {
        let offset = input.len() - rest.len();
        let (item, left) = match next(rest) {
            Ok(first) => first,
            Err(fault) => {
                let reason = Reason::Refused(fault);
                return Err(Flaw { offset, reason });
            }
        };
        match item {
            Item::Unit(view) => {
                if !goes_on(&last, &view) {
                    return Err(not_canonical(offset));
                }
                let (above, after) = pass_prefixes(&view, left);
                last = Some(above);
                rest = after;
            }
            Item::End(end) => {
                if !ends_after(&last, &end) {
                    return Err(not_canonical(offset));
                }
                return Ok(end);
            }
        }
    }
}

/// The flaw of a unit or an end of data that may not follow.
fn not_canonical(offset: usize) -> Flaw
    ensures offset { result.offset ≡ offset }
    ensures reason { result.reason ≡ Reason.NotCanonical }
{
    Flaw {
        offset,
        reason: Reason::NotCanonical,
    }
}

/// Whether the unit may follow the last unit in data.
#[inline(always)]
fn goes_on(last: &Option<PayloadView<'_>>, view: &PayloadView<'_>) -> bool
    ensures { IsTrue result ↔ RunsOn Announce (last_version last.now) last.now (meant view.now) }
{
    match last {
        None => view.action().is_announce(),
        Some(last) => is_after(last, view),
    }
}

/// Whether the unit may follow this one in data.
#[inline(always)]
fn is_after(last: &PayloadView<'_>, view: &PayloadView<'_>) -> bool
    ensures { IsTrue result ↔ RunsAfter last.now view.now }
{
    view.action().is_announce()
        && last.version() == view.version()
        && last.compare_names(view).is_lt()
}

/// Skips prefix units as long as they follow one another as in data, and returns the last one and
/// what follows it. If the unit isn't a prefix unit, returns that unit. Most units are prefixes,
/// and IPv4 comes first.
#[inline(never)]
fn pass_prefixes<'a>(view: &PayloadView<'a>, left: &'a [u8]) -> (PayloadView<'a>, &'a [u8])
    ensures passed { (views : List PayloadView) ×
        RunsTo views view.now left.now result.0 result.1.now }
    ensures shorter { length result.1.now ≤ length left.now }
{
    match view {
        PayloadView::Origin(origin) => {
            let (v4, after) = pass_following(origin, left, PrefixKind::Ipv4);
            let (v6, rest) = pass_following(&v4, after, PrefixKind::Ipv6);
            (PayloadView::Origin(v6), rest)
        }
        PayloadView::RouterKey(key) => (PayloadView::RouterKey(*key), left),
        PayloadView::Aspa(aspa) => (PayloadView::Aspa(*aspa), left),
    }
}

/// Skips prefix units of this kind as long as they follow one another as in data, and returns the
/// last one and what follows it.
#[inline(always)]
fn pass_following<'a>(view: &OriginView, left: &'a [u8], kind: PrefixKind) -> (OriginView, &'a [u8])
    ensures passed { (views : List PayloadView) × RunsTo views (PayloadView.Origin view.now)
        left.now (PayloadView.Origin result.0) result.1.now }
    ensures shorter { length result.1.now ≤ length left.now }
{
    let (mut last, mut rest) = (*view, left);
    'units: loop {
        match next_after(&last, rest, kind) {
            Some((view, left)) => {
                last = view;
                rest = left;
            }
            None => return (last, rest),
        }
    }
}

/// The prefix unit of this kind at the front of the input, and what follows it, if it may follow
/// this one in data.
#[inline(always)]
fn next_after<'a>(
    last: &OriginView,
    input: &'a [u8],
    kind: PrefixKind,
) -> Option<(OriginView, &'a [u8])>
    ensures next { IfSome result (λ p. IsNext (PayloadView.Origin p.0) p.1.now input.now) }
    ensures after { IfSome result
        (λ p. RunsAfter (PayloadView.Origin last.now) (PayloadView.Origin p.0)) }
    ensures shorter { IfSome result (λ p. length p.1.now < length input.now) }
{
    match next_prefix(input, kind) {
        Some((view, left)) => {
            if !is_after(&PayloadView::Origin(*last), &view) {
                return None;
            }
            match view {
                PayloadView::Origin(origin) => Some((origin, left)),
                PayloadView::RouterKey(_) => None,
                PayloadView::Aspa(_) => None,
            }
        }
        None => None,
    }
}

/// Whether the end of data has the version of the last unit.
#[inline(always)]
fn ends_after(last: &Option<PayloadView<'_>>, end: &EndOfData) -> bool
    ensures { IsTrue result ↔ InVersion (last_version last.now) (end_meaning end.now).version }
{
    match last {
        None => true,
        Some(last) => last.version() == end.version(),
    }
}

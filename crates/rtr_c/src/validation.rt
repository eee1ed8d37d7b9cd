//! Whether a route is valid, by the origins of data that were checked.

ghost use Rattle.std.specs.Prelude.{◌≡◌, true};
ghost use Rattle.std.specs.Option.{option_map};
ghost use Rattle.rtr_c.specs.Lookups.{is_sealed};
ghost use Rattle.rtr_c.specs.Routes.{ShowsCovering, ShowsNone, ShowsOne, TellsCovering};
ghost use Rattle.rtr_c.specs.Routes.{TellsValidity, mismatch_number, route_prefix, validity_number};

use crate::lookup::RtrLookup;
use data_validation::{CoveringVrp, Mismatch, Route, Tables, Validity, first_covering, validate};
use rtr_units::numbers::{u32_at, u128_at};
use rtr_wire::base::{Asn, Prefix};

/// The family or the prefix length of a route is invalid.
pub(crate) const NO_ROUTE: u8 = 3;
/// The data weren't checked.
pub(crate) const UNCHECKED: u8 = 4;

/// No VRP covers the route.
const COVERS_NONE: u8 = 0;
/// A VRP covers the route.
const COVERS_ONE: u8 = 1;
/// The family or the prefix length of a route is invalid.
const COVERS_NO_ROUTE: u8 = 2;
/// The data weren't checked.
const COVERS_UNCHECKED: u8 = 3;

/// A route.
#[repr(C)]
#[derive(Clone, Copy)]
pub struct RtrRoute {
    /// The origin AS; 0 if there is no single one, as with an AS_SET at the end of the path: then
    /// no VRP matches.
    pub asn: u32,
    /// The address family, 4 or 6.
    pub family: u8,
    /// The length of the prefix.
    pub prefix_length: u8,
    /// The address, in network byte order, for IPv4 the first 4 bytes; the bits after the prefix
    /// length are ignored.
    pub address: [u8; 16],
}

// The fields stand one after the other, and two bytes are left at the end.
const _: () = prove!(size_of::<RtrRoute>() == 24);

/// A VRP that covers a route.
#[repr(C)]
#[derive(Clone, Copy)]
pub struct RtrCovering {
    /// The index of the payload in the data, from 0.
    pub place: usize,
    /// The AS of the VRP.
    pub asn: u32,
    /// The length of its prefix.
    pub prefix_length: u8,
    /// Its max length.
    pub max_length: u8,
    /// Why it doesn't match the route, an rtr_mismatch.
    pub mismatch: u8,
}

// The fields stand one after the other, and a byte is left at the end.
const _: () = prove!(size_of::<RtrCovering>() == 16);

/// As `data_validation::validate`: 0 not found, 1 valid, 2 invalid; 3 if the family or the prefix
/// length is invalid; 4 if the lookup wasn't made from these data.
#[unsafe(no_mangle)]
pub extern "C" fn rtr_validate_nonnull(data: &[u8], lookup: &RtrLookup, route: &RtrRoute) -> u8
    ensures { TellsValidity (is_sealed «data».now lookup.now) (route_prefix route.now) «data».now
        lookup.now.tables route.now.asn result }
{
    if !lookup.is_of(data) {
        return UNCHECKED;
    }
    checked_validity(data, &lookup.tables, route)
}

/// The validity by data that were checked.
#[inline(always)]
fn checked_validity(data: &[u8], tables: &Tables, route: &RtrRoute) -> u8
    ensures { TellsValidity true (route_prefix route.now) «data».now tables.now route.now.asn
        result }
{
    match route_of(route) {
        Some(route) => validity_number(validate(data, tables, &route)),
        None => NO_ROUTE,
    }
}

/// As `data_validation::first_covering`: 0 none, 1 one; 2 if the family or the prefix length is
/// invalid; 3 if the lookup wasn't made from these data. Unless there is one, all of `covering` is
/// 0.
#[unsafe(no_mangle)]
pub extern "C" fn rtr_covering_nonnull(
    data: &[u8],
    lookup: &RtrLookup,
    route: &RtrRoute,
    from: usize,
    covering: &mut RtrCovering,
) -> u8
    ensures { TellsCovering (is_sealed «data».now lookup.now) (route_prefix route.now) «data».now
        lookup.now.tables route.now.asn from covering.new result }
{
    if !lookup.is_of(data) {
        return show_none(COVERS_UNCHECKED, covering);
    }
    checked_covering(data, &lookup.tables, route, from, covering)
}

/// The first covering VRP of data that were checked.
#[inline(always)]
fn checked_covering(
    data: &[u8],
    tables: &Tables,
    route: &RtrRoute,
    from: usize,
    covering: &mut RtrCovering,
) -> u8
    ensures { TellsCovering true (route_prefix route.now) «data».now tables.now route.now.asn from
        covering.new result }
{
    let Some(route) = route_of(route) else {
        return show_none(COVERS_NO_ROUTE, covering);
    };
    match first_covering(data, tables, route.prefix, from) {
        Some(found) => show_one(shown(&found, &route), covering),
        None => show_none(COVERS_NONE, covering),
    }
}

/// Writes the VRP that is shown.
#[inline(always)]
fn show_one(shown: RtrCovering, covering: &mut RtrCovering) -> u8
    ensures { ShowsOne shown covering.new result }
{
    *covering = shown;
    COVERS_ONE
}

/// Writes 0 to all of it, and returns this code.
#[inline(always)]
fn show_none(code: u8, covering: &mut RtrCovering) -> u8
    ensures { ShowsNone code covering.new result }
{
    *covering = RtrCovering {
        place: 0,
        asn: 0,
        prefix_length: 0,
        max_length: 0,
        mismatch: 0,
    };
    code
}

/// The route, unless its family or its prefix length is invalid.
#[inline(always)]
pub(crate) fn route_of(route: &RtrRoute) -> Option<Route>
    ensures { result ≡ option_map (λ p. record { prefix = p; asn = route.now.asn })
        (route_prefix route.now) }
{
    let prefix = match route.family {
        4 => Prefix::from_v4_bits(u32_at(&route.address, 0), route.prefix_length),
        6 => Prefix::from_v6_bits(u128_at(&route.address, 0), route.prefix_length),
        _ => return None,
    };
    let asn = Asn::from_u32(route.asn);
    match prefix {
        Ok(prefix) => Some(Route { prefix, asn }),
        Err(_) => None,
    }
}

/// The number of a validity.
#[inline(always)]
pub(crate) fn validity_number(validity: Validity) -> u8
    ensures { result ≡ validity_number validity }
{
    match validity {
        Validity::NotFound => 0,
        Validity::Valid => 1,
        Validity::Invalid => 2,
    }
}

/// The number of a reason, or 0 without one.
#[inline(always)]
fn mismatch_number(mismatch: Option<Mismatch>) -> u8
    ensures { result ≡ mismatch_number mismatch }
{
    match mismatch {
        Some(Mismatch::AsZero) => 1,
        Some(Mismatch::OtherAs) => 2,
        Some(Mismatch::TooLong) => 3,
        None => 0,
    }
}

/// The fields that are shown of a VRP that covers a route.
#[inline(always)]
fn shown(found: &CoveringVrp, route: &Route) -> RtrCovering
    ensures { ShowsCovering found.now route.now.prefix route.now.asn result }
{
    let origin = found.origin;
    RtrCovering {
        place: found.place,
        asn: origin.asn.into_u32(),
        prefix_length: origin.prefix.prefix_len(),
        max_length: origin.prefix.resolved_max_len(),
        mismatch: mismatch_number(found.mismatch(route)),
    }
}

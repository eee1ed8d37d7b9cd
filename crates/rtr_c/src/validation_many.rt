//! Whether many routes are valid, in one call.

ghost use Rattle.std.specs.Prelude.{◌≡◌, Bool};
ghost use Rattle.rtr_c.specs.Lookups.{is_sealed};
ghost use Rattle.rtr_c.specs.ManyValidated.{TellsMany};
ghost use Rattle.rtr_c.specs.Routes.{TellsValidity, route_prefix};

use crate::lookup::RtrLookup;
use crate::validation::{NO_ROUTE, RtrRoute, UNCHECKED, route_of, validity_number};
use data_validation::Pass;

/// As `rtr_validate_nonnull` for each route, in one pass of `data_validation::Pass`. Returns how
/// many were validated: all routes, or as many as fit into the output.
#[unsafe(no_mangle)]
pub extern "C" fn rtr_validate_many_nonnull(
    data: &[u8],
    lookup: &RtrLookup,
    routes: &[RtrRoute],
    validities: &mut [u8],
) -> usize
    ensures { TellsMany (is_sealed «data».now lookup.now) «data».now lookup.now.tables routes.now
        validities.old validities.new result }
{
    let is_checked = lookup.is_of(data);
    let mut pass = Pass::new(data, &lookup.tables);
    let count = routes.len().min(validities.len());
    for index in 0..count {
        validities[index] = passed_validity(is_checked, &mut pass, &routes[index]);
    }
    count
}

/// The validity of the next route, if the data were checked.
#[inline(always)]
fn passed_validity(is_checked: bool, pass: &mut Pass, route: &RtrRoute) -> u8
    ensures bytes { pass.new.bytes.now ≡ pass.old.bytes.now }
    ensures tables { pass.new.tables.now ≡ pass.old.tables.now }
    ensures says { TellsValidity is_checked (route_prefix route.now) pass.old.bytes.now
        pass.old.tables.now route.now.asn result }
{
    if !is_checked {
        return UNCHECKED;
    }
    match route_of(route) {
        Some(route) => validity_number(pass.validity(&route)),
        None => NO_ROUTE,
    }
}

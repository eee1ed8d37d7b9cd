//! Whether a route is valid, by data in a slice and by a set.

use crate::answer::Answer;
use crate::data::data_of;
use crate::row::Row;
use data_validation::{
    CoveringVrp, Mismatch, Route, Tables, ValidateRoutes, Validity, covering, validate,
    validate_by_walk,
};
use rtr_wire::base::{Asn, Prefix};

/// Makes the call of a row if it is one of these.
pub fn answer(row: &Row<'_>) -> Option<Answer> {
    match row.call {
        "validate" => Some(validated(row)),
        _ => None,
    }
}

/// The route whose address are the bytes on the right side, four or sixteen, with the settings
/// `length` and `asn`.
fn route(row: &Row<'_>) -> Option<Route> {
    let length = row.byte("length", 255);
    let prefix = match row.right.len() {
        4 => {
            let bytes = row.right.first_chunk::<4>()?;
            Prefix::from_v4_bits(u32::from_be_bytes(*bytes), length).ok()?
        }
        _ => {
            let bytes = row.right.first_chunk::<16>()?;
            Prefix::from_v6_bits(u128::from_be_bytes(*bytes), length).ok()?
        }
    };
    let asn = Asn::from_u32(row.long("asn"));
    Some(Route { prefix, asn })
}

/// `validate` of a route by the data on the left side; what `validate_by_walk` and a set of the
/// same payloads answer, where it is another; and each VRP that covers the route: its place, the
/// length of its prefix, its max length and its AS, and why it doesn't match.
fn validated(row: &Row<'_>) -> Answer {
    let Some(route) = route(row) else {
        return row.no_unit();
    };
    let set = data_of(row, &row.left);
    row.ready();
    let tables = Tables::of(&row.left);
    let validity = validate(&row.left, &tables, &route);
    let walked = validate_by_walk(&row.left, &tables, &route);
    let of_set = set.validate(&route);
    let mut seen = row.answer();
    seen.word(name(validity));
    if walked != validity {
        seen.word(format_args!("walk {}", name(walked)));
    }
    if of_set != validity {
        seen.word(format_args!("set {}", name(of_set)));
    }
    tell_covering(&mut seen, &row.left, &tables, &route);
    seen
}

/// Appends the VRPs that cover the route.
fn tell_covering<'a>(seen: &mut Answer, data: &'a [u8], tables: &'a Tables, route: &Route) {
    let mut rest = covering(data, tables, route.prefix);
    for _most in 0..data.len() {
        let Some(found) = rest.next() else {
            return;
        };
        tell_vrp(seen, &found, route);
    }
}

/// Appends a VRP that covers the route, and why it doesn't match.
fn tell_vrp(seen: &mut Answer, found: &CoveringVrp, route: &Route) {
    let (place, origin) = (found.place, found.origin);
    let (length, max_length) = (origin.prefix.prefix_len(), origin.prefix.resolved_max_len());
    let asn = origin.asn.into_u32();
    seen.word(format_args!(": {place} {length}-{max_length} AS{asn}"));
    seen.word(reason(found.mismatch(route)));
}

/// The name of an answer.
fn name(validity: Validity) -> &'static str {
    match validity {
        Validity::NotFound => "NotFound",
        Validity::Valid => "Valid",
        Validity::Invalid => "Invalid",
    }
}

/// The name of a reason, or that there is none.
fn reason(mismatch: Option<Mismatch>) -> &'static str {
    match mismatch {
        Some(Mismatch::AsZero) => "AsZero",
        Some(Mismatch::OtherAs) => "OtherAs",
        Some(Mismatch::TooLong) => "TooLong",
        None => "matches",
    }
}

//! The calls that rows name.

use crate::answer::Answer;
use crate::row::{Row, Way};
use crate::{
    data, deltas, fixed, into, meanings, parts, payloads, placing, routes, sequences, session,
    variable, views,
};

/// Makes the call of a row in one way, and returns its result, if there is such a call. All modules
/// are asked, and those that don't have it do nothing.
pub fn call(row: &Row<'_>, way: Way) -> Option<Answer> {
    sequences::answer(row, way)
        .or(into::answer(row))
        .or(views::answer(row, way))
        .or(payloads::answer(row, way))
        .or(meanings::answer(row))
        .or(data::answer(row, way))
        .or(deltas::answer(row))
        .or(routes::answer(row))
        .or(variable::answer(row, way))
        .or(session::answer(row, way))
        .or(placing::answer(row))
        .or(parts::answer(row, way))
        .or(fixed::answer(row, way))
}

//! The lists by which routes are validated.

use crate::vrps::Vrps;

/// The list by which routes are validated, and the list that will replace it, if two are compared.
#[derive(Clone, Copy)]
pub struct Lists<'a> {
    /// The list in use.
    pub used: &'a Vrps,
    /// The list that it is compared with.
    pub other: Option<&'a Vrps>,
}

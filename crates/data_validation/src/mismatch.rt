//! Why a VRP doesn't match a route.

/// Why a VRP that covers a route doesn't match it (RFC 6811 section 2): the first reason that
/// holds.
#[derive(Clone, Copy, Debug, PartialEq, Eq)]
pub enum Mismatch {
    /// The VRP is of AS 0, which means that no route is valid (RFC 6483 section 4).
    AsZero,
    /// The route isn't from the AS of the VRP.
    OtherAs,
    /// The route's prefix is longer than the VRP's max length.
    TooLong,
}

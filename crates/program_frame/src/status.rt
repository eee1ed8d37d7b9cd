//! The statuses that programs share.

/// The status if the program succeeded.
pub const WELL: u8 = 0;

/// The status if the input is refused.
pub const REFUSED: u8 = 1;

/// The status for wrong arguments.
pub const USAGE: u8 = 2;

/// The status if opening, reading, writing or memory failed.
pub const FAILED: u8 = 3;

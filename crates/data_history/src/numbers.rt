//! `Stores` as plain numbers, for a caller that stores them between calls.

ghost use Rattle.std.specs.Prelude.{◌≡◌};
ghost use Rattle.data_history.specs.Stores.{are_of_stores};

/// The numbers of a `Stores`: `Stores::numbers` returns them, and `Stores::of_numbers` restores the
/// `Stores` from them.
#[derive(Clone, Copy, Debug, PartialEq, Eq)]
pub struct Numbers {
    /// The length of the store that is served, if there is one.
    pub served: Option<usize>,
    /// The length of the store that is pending, if there is one.
    pub taken: Option<usize>,
    /// Whether the served store is in the second buffer.
    pub second: bool,
    /// The session of this start, if the cache doesn't save.
    pub unsaved: Option<u16>,
}

impl Numbers {
    /// Reports whether these are numbers of a `Stores`: only a served store is in the second
    /// buffer, and none is pending if the cache doesn't save.
    pub fn are_of_stores(&self) -> bool
        ensures { result ≡ are_of_stores self.now }
    {
        (!self.second || self.served.is_some())
            && (!self.unsaved.is_some() || !self.taken.is_some())
    }
}

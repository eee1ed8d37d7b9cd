//! Whether a record is announced or withdrawn.

ghost use Rattle.std.specs.Prelude.{◌≡◌, ◌↔◌, IsTrue};

/// Whether a record is announced or withdrawn.
#[derive(Clone, Copy, Debug, PartialEq, Eq, PartialOrd, Ord, Hash)]
pub enum Action {
    /// The record is added to the data set.
    Announce,
    /// The record is taken out of the data set.
    Withdraw,
}

impl Action {
    ghost use Rattle.rtr_base.specs.Actions.{act, flags_of};

    /// Whether this is `Announce`.
    #[inline(always)]
    pub fn is_announce(self) -> bool
        ensures { IsTrue result ↔ (self ≡ Action.Announce) }
    {
        matches!(self, Action::Announce)
    }

    /// Whether this is `Withdraw`.
    #[inline(always)]
    pub fn is_withdraw(self) -> bool
        ensures { IsTrue result ↔ (self ≡ Action.Withdraw) }
    {
        matches!(self, Action::Withdraw)
    }

    /// The action that the flags of a unit mean: only their lowest bit counts.
    #[inline(always)]
    pub fn from_flags(flags: u8) -> Self
        ensures { result ≡ act flags }
    {
        if flags % 2 == 1 {
            Action::Announce
        } else {
            Action::Withdraw
        }
    }

    /// The flags of the action: 1 or 0.
    #[inline(always)]
    pub fn into_flags(self) -> u8
        ensures flags { result ≡ flags_of self }
        ensures read_back { act result ≡ self }
    {
        match self {
            Action::Announce => 1,
            Action::Withdraw => 0,
        }
    }
}

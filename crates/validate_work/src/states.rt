//! How many routes have each validity.

ghost use Rattle.std.specs.Prelude.{◌≡◌, OnOk, ◌++◌};
ghost use Rattle.validate_work.specs.RouteStates.{no_states, no_turns, states_text, with_state};
ghost use Rattle.validate_work.specs.RouteStates.{with_turn};

use data_validation::Validity;
use list_lines::Line;
use std::alloc::AllocError;

/// The number of routes of each validity (RFC 6811 section 2). Each saturates at 2^64 - 1.
#[derive(Clone, Copy, Debug, PartialEq, Eq)]
pub struct States {
    /// Routes that a VRP matches.
    pub valid: u64,
    /// Routes that VRPs cover, but none matches.
    pub invalid: u64,
    /// Routes that no VRP covers.
    pub not_found: u64,
}

impl States {
    /// All counts zero.
    pub fn new() -> States
        ensures { result ≡ no_states }
    {
        States {
            valid: 0,
            invalid: 0,
            not_found: 0,
        }
    }

    /// The counts with one more route of this validity.
    pub fn with(self, state: Validity) -> States
        ensures { result ≡ with_state state self }
    {
        match state {
            Validity::Valid => States {
                valid: self.valid.saturating_add(1),
                ..self
            },
            Validity::Invalid => States {
                invalid: self.invalid.saturating_add(1),
                ..self
            },
            Validity::NotFound => States {
                not_found: self.not_found.saturating_add(1),
                ..self
            },
        }
    }
}

/// How many routes change from each validity by the list in use to each by another list.
#[derive(Clone, Copy, Debug, PartialEq, Eq)]
pub struct Turns {
    /// The validity by the other list of routes that are valid by the list in use.
    pub valid: States,
    /// The same for routes that are invalid.
    pub invalid: States,
    /// The same for routes that are not found.
    pub not_found: States,
}

impl Turns {
    /// All counts zero.
    pub fn new() -> Turns
        ensures { result ≡ no_turns }
    {
        Turns {
            valid: States::new(),
            invalid: States::new(),
            not_found: States::new(),
        }
    }

    /// The counts with one more route of this validity, which has the other validity by the other
    /// list.
    pub fn with(self, state: Validity, next: Validity) -> Turns
        ensures { result ≡ with_turn state next self }
    {
        match state {
            Validity::Valid => Turns {
                valid: self.valid.with(next),
                ..self
            },
            Validity::Invalid => Turns {
                invalid: self.invalid.with(next),
                ..self
            },
            Validity::NotFound => Turns {
                not_found: self.not_found.with(next),
                ..self
            },
        }
    }
}

/// Adds each number after its label, and an end.
pub(crate) fn add_states(
    line: &mut Line,
    valid: &str,
    invalid: &str,
    not_found: &str,
    end: &str,
    states: &States,
) -> Result<(), AllocError>
    ensures { OnOk result (line.new ≡ line.old
        ++ states_text valid.now invalid.now not_found.now end.now states.now) }
{
    line.labelled(valid, states.valid)?;
    line.labelled(invalid, states.invalid)?;
    line.labelled(not_found, states.not_found)?;
    line.text(end)
}

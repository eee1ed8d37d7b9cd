//! The state of a client.

ghost use Rattle.std.specs.Prelude.{◌≡◌, ◌≤◌, ◌-◌, ◌==◌, List, ℕ, take, drop, length, min, None};
ghost use Rattle.std.specs.Prelude.{true};
ghost use Rattle.session_client.specs.Makings.{Octets};
ghost use Rattle.session_client.specs.Holding.{Fits, IsClient, client_again, new_client};
ghost use Rattle.session_client.specs.Holding.{shown_after};
ghost use Rattle.session_client.specs.Holding.{whole_answer};
ghost use Rattle.session_client.specs.Turning.{IsInStep};

use session_router::event::Action;
use session_router::router::{Phase, Router};
use session_router::settings::Settings;

/// The contents of the front of the input.
#[derive(Clone, Copy)]
pub enum Holding {
    /// Nothing that is kept.
    Nothing,
    /// Payload units of an incomplete response.
    Units,
    /// All payload units of a response and its end of data. The number is the length of the end of
    /// data in bytes; true if their changes apply to the data, false if they apply to no data.
    Answer(usize, bool),
}

/// A router's end of a session. Its buffers belong to the caller, who passes them to each call:
///
/// - input: payload units of the answer, and after them bytes that the machine hasn't read yet
/// - two data buffers: one has the data, and the next answer is written to the other
/// - index: used to sort the payload units of an answer
/// - output: the bytes to be sent
#[derive(Clone, Copy)]
pub struct Client {
    pub router: Router,
    pub holding: Holding,
    /// The length of the payload units at the front of the input.
    pub kept: usize,
    /// The offset in the input at which the next bytes are read.
    pub filled: usize,
    /// The length of the data, if there are data.
    pub shown: Option<usize>,
    /// The number of bytes of the output that are still to be sent.
    pub unsent: usize,
    /// Whether the data are in the second data buffer.
    pub second: bool,
    /// Whether a connection was opened, or was closed by the peer, and the machine wasn't told of
    /// it yet.
    pub opened: bool,
    pub closed: bool,
}

impl Client {
    /// A client without data, which connects at its first call.
    pub fn new(settings: Settings) -> Client
        ensures serves { (input buffer : Octets)
            → IsClient (record settings { highest = min settings.highest 2 }) result input buffer }
        ensures fits { (input : Octets) → Fits result input }
        ensures step { IsInStep result }
        ensures is { result ≡ new_client settings }
    {
        Client {
            router: Router::new(settings),
            holding: Holding::Nothing,
            kept: 0,
            filled: 0,
            shown: None,
            unsent: 0,
            second: false,
            opened: false,
            closed: false,
        }
    }

    /// A client without data that continues with a cache that was asked before: its waits keep
    /// growing.
    pub fn again(&self) -> Client
        ensures serves { (input buffer : Octets)
            → IsClient (record self.now.router.settings {
              highest = min self.now.router.settings.highest 2;
            }) result input buffer }
        ensures fits { (input : Octets) → Fits result input }
        ensures step { IsInStep result }
        ensures is { result ≡ client_again self.now }
    {
        Client {
            router: self.router.again(),
            holding: Holding::Nothing,
            kept: 0,
            filled: 0,
            shown: None,
            unsent: 0,
            second: false,
            opened: false,
            closed: false,
        }
    }

    /// Whether the client's offsets fit this input.
    pub fn fits(&self, input: &[u8]) -> bool
        ensures yes { result ≡ true → Fits self.now input.now }
        ensures no { Fits self.now input.now → result ≡ true }
    {
        let due = match self.holding {
            Holding::Answer(size, _) => size,
            _ => 0,
        };
        due <= self.filled && self.kept <= self.filled - due && self.filled <= input.len()
    }

    /// Whether the contents of the input agree with the machine's phase.
    pub fn is_in_step(&self) -> bool
        ensures yes { result ≡ true → IsInStep self.now }
        ensures no { IsInStep self.now → result ≡ true }
    {
        match self.router.phase {
            Phase::Reading => matches!(self.holding, Holding::Units),
            Phase::Applying => matches!(self.holding, Holding::Answer(_, _)),
            _ => matches!(self.holding, Holding::Nothing),
        }
    }

    /// The payload units of an answer that the next call of `next` applies: their length at the
    /// front of the input, and whether they are changes to the data. If `next` then returns `Data`,
    /// these units are what changed, or else all payloads.
    pub fn answer(&self) -> Option<(usize, bool)>
        ensures { result ≡ whole_answer self.now }
    {
        match self.holding {
            Holding::Answer(_, since) => Some((self.kept, since)),
            _ => None,
        }
    }
}

/// The length of the data after this action.
pub(crate) fn shown_after(action: &Action, shown: Option<usize>) -> Option<usize>
    ensures { result ≡ shown_after action.now shown }
{
    match action {
        Action::Drop => None,
        Action::End(ending) => if ending.drop { None } else { shown },
        _ => shown,
    }
}

/// Removes the bytes from one offset to another.
pub(crate) fn take_out(input: &mut [u8], from: usize, to: usize, filled: usize)
    requires order { from ≤ to }
    requires some { to ≤ filled }
    requires within { filled ≤ length input.old }
    ensures front { take from input.new ≡ take from input.old }
    ensures rest { take (filled - to) (drop from input.new) ≡ drop to (take filled input.old) }
{
    input.copy_within(to..filled, from);
}

/// The bytes from one offset to another.
pub(crate) fn part(input: &[u8], from: usize, to: usize) -> &[u8]
    requires order { from ≤ to }
    requires within { to ≤ length input.now }
    ensures { result.now ≡ drop from (take to input.now) }
{
    let (front, _) = input.split_at(to);
    let (_, rest) = front.split_at(from);
    rest
}

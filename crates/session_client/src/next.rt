//! The caller's next action.

ghost use Rattle.std.specs.Prelude.{◌≡◌, ◌<◌, ◌≤◌, ◌+◌, ◌^◌, ℕ, List, length, drop, take, true};
ghost use Rattle.std.specs.Prelude.{Option, Some, false, min, ◌-◌, ◌≢◌};
ghost use Rattle.session_client.specs.Next.{IsDataRoom, IsIndexRoom, IsInputRoom, IsOutputRoom};
ghost use Rattle.session_client.specs.Next.{IsRoom};
ghost use Rattle.session_client.specs.Next.{IsTodoOf, IsWait, NamesRoom, RestsNow, Turns};
ghost use Rattle.session_client.specs.Holding.{Fits, IsHearing, SaysItself, IsClient, data_in};
ghost use Rattle.session_client.specs.Holding.{room_at};
ghost use Rattle.session_client.specs.Holding.{untold};
ghost use Rattle.session_client.specs.Makings.{Octets, ShowsMade};
ghost use Rattle.session_client.specs.Calls.{closed_after, closed_then, is_data, lost_after};
ghost use Rattle.session_client.specs.Calls.{opened_after, opened_then, said_after, second_after};
ghost use Rattle.session_client.specs.Counting.{CountsKept};
ghost use Rattle.session_client.specs.Over.{IfNamed, IsOfNone, IsOverNone, none_of, over_of};
ghost use Rattle.session_client.specs.Said.{given_up, with_room};
ghost use Rattle.session_client.specs.Tells.{TakesCall, TellsCall};
ghost use Rattle.session_client.specs.Turning.{HasAnswer, IsInStep, IsTurn, turns_left};
ghost use Rattle.session_client.specs.Words.{IsInTurn, IsOfAsking, IsOfChanges, IsOfClosed};
ghost use Rattle.session_client.specs.Words.{IsOfEvent, IsOfNext, IsOfOpened, IsOfRest, IsUntold};
ghost use Rattle.session_client.specs.declared.client.Client.{Client};
ghost use Rattle.session_bytes.specs.Reading.{Awaits};
ghost use Rattle.session_router.specs.Heeding.{IsTalking};
ghost use Rattle.session_router.specs.Pace.{wakes_at};
ghost use Rattle.session_router.specs.Step.{IsStep};
ghost use Rattle.session_router.specs.declared.event.Action.{Action};
ghost use Rattle.session_router.specs.declared.event.Action.TheVariants as actions;
ghost use Rattle.session_router.specs.declared.event.Event.TheVariants as events;
ghost use Rattle.session_router.specs.declared.settings.Settings.{Settings};

use crate::applying::Applied;
use crate::client::{Client, Holding, take_out};
use crate::hearing::Heard;
use crate::saying::MOST_SENT;
use session_bytes::Refusal;
use session_router::event::{Action, Ending, Event};
use session_router::router::Phase;

/// The caller's next action.
#[derive(Drop)]
pub enum Todo {
    /// Call again at once.
    Go,
    /// Send the unsent bytes of the output, and read into the input; call again when bytes came,
    /// the peer closed the connection, or the time of `wakes` is reached.
    Wait,
    /// Open a connection. The deadline is `wakes`.
    Connect,
    /// Send the unsent bytes of the output, and close the connection, which ends for this cause. If
    /// a unit or a change is refused, this is why; the unit begins at this offset of the input.
    Close {
        ending: Ending,
        refusal: Option<Refusal>,
        offset: usize,
    },
    /// There are new data, in the other data buffer than before.
    Data,
    /// There are no data any more.
    Dropped,
    /// The cache has no data yet, as it states in the report that begins at this offset of the
    /// input.
    NoData {
        offset: usize,
    },
    /// Enlarge the input, the data buffer without the data, or the index to this length, and call
    /// again; or call `give_up`. Nothing has changed.
    InputRoom(usize),
    DataRoom(usize),
    IndexRoom(usize),
    /// Send unsent bytes, or enlarge the output to this length, and call again; or call `give_up`.
    /// Nothing has changed.
    OutputRoom(usize),
}

/// The length of the longest unit.
const UNIT: usize = 65_535;

impl Client {
    /// Returns the caller's next action; `now` is the time in milliseconds. The machine takes at
    /// most one action.
    pub fn next(
        &mut self,
        now: u64,
        input: &mut [u8],
        first: &mut [u8],
        second: &mut [u8],
        index: &mut [usize],
        output: &mut [u8],
    ) -> Todo
        requires time { now < 2 ^ 63 }
        requires fits { Fits self.old input.old }
        requires step { IsInStep self.old }
        requires room { self.old.unsent ≤ length output.old }
        ensures serves { (s : Settings)
            → IsClient s self.old input.old (data_in self.old.second first.old second.old)
            → IsClient s self.new input.new (data_in self.new.second first.new second.new) }
        ensures fits { Fits self.new input.new }
        ensures step { IsInStep self.new }
        ensures opened { self.new.opened ≡
            opened_after now self.old (length output.old) result }
        ensures closed { self.new.closed ≡
            closed_after now self.old input.old (length output.old) result }
        ensures second { self.new.second ≡ second_after result self.old.second }
        ensures held { data_in self.old.second first.new second.new
            ≡ data_in self.old.second first.old second.old }
        ensures turns { Turns result now self.old.router self.new.router self.old.unsent
            self.new.unsent output.old output.new }
        ensures told { TellsCall (IsOfNext now self.old input.old
            (data_in self.old.second first.old second.old) (length output.old) (length index.old)
            (data_in self.old.second second.old first.old)
            (data_in self.old.second second.new first.new)) result now self.old input.old
            (data_in self.old.second first.old second.old) self.new input.new
            (data_in self.new.second first.new second.new) output.old output.new }
        ensures room { self.new.unsent ≤ length output.new }
        ensures full { NamesRoom result self.new input.new output.new }
        ensures first { length output.old < self.old.unsent + 65535 → IsOutputRoom result }
        ensures names { IfNamed result (over_of now self.old input.old
            (data_in self.old.second first.old second.old) self.new output.old output.new)
            (none_of now self.old input.old self.new input.new) }
        ensures ends { IsTurn result
            → turns_left self.new input.new < turns_left self.old input.old }
        ensures still { IsRoom result → (self.new ≡ self.old) × (input.new ≡ input.old) }
        ensures index { CountsKept self.old input.old → self.old.router.units ≤ length index.old
            → IsIndexRoom result → ⊥ }
        ensures enough { room_at self.old.holding self.old.shown self.old.kept
            ≤ length (data_in self.old.second second.old first.old) → IsDataRoom result → ⊥ }
        ensures short { HasAnswer self.old.holding → self.old.unsent + 65535 ≤ length output.old
            → length (data_in self.old.second second.old first.old)
            < min (room_at self.old.holding self.old.shown self.old.kept) (2 ^ 64 - 1)
            → IsDataRoom result }
        ensures rests { IsWait result → RestsNow now self.old input.old }
        ensures acts { HasAnswer self.old.holding → self.old.unsent + 65535 ≤ length output.old
            → IsWait result → ⊥ }
        ensures input { HasAnswer self.old.holding → IsInputRoom result → ⊥ }
        ensures only { IsIndexRoom result → HasAnswer self.old.holding }
        ensures over_none { IsHearing self.old.holding → IsUntold now self.old
            → IsOverNone result }
        ensures spare { IsHearing self.old.holding
            → data_in self.old.second second.new first.new
            ≡ data_in self.old.second second.old first.old }
        ensures whole { is_data result ≡ true → ShowsMade self.old.holding self.old.kept
            self.old.shown input.old (data_in self.old.second first.old second.old)
            (length index.old) (data_in self.old.second second.old first.old)
            (data_in self.old.second second.new first.new) self.new.shown }
    {
        if !self.has_room(output) {
            return Todo::OutputRoom(self.unsent.saturating_add(MOST_SENT));
        }
        match self.holding {
            Holding::Answer(_, _) => {}
            _ => return self.go_on(now, input, output),
        }
        // The data go from one buffer to the other.
        if self.second {
            let (todo, turned) = self.settle(now, input, second, first, index, output);
            self.second = !turned;
            todo
        } else {
            let (todo, turned) = self.settle(now, input, first, second, index, output);
            self.second = turned;
            todo
        }
    }

    /// Whether the bytes that any action sends fit into the output.
    fn has_room(&self, output: &[u8]) -> bool
        requires { self.now.unsent ≤ length output.now }
        ensures yes { result ≡ true → self.now.unsent + 65535 ≤ length output.now }
        ensures no { result ≡ false → length output.now < self.now.unsent + 65535 }
    {
        output.len() - self.unsent >= MOST_SENT
    }

    /// Applies the changes of a whole answer, and takes the result as the data if that succeeds.
    fn settle(
        &mut self,
        now: u64,
        input: &mut [u8],
        held: &[u8],
        made: &mut [u8],
        index: &mut [usize],
        output: &mut [u8],
    ) -> (Todo, bool)
        requires time { now < 2 ^ 63 }
        requires fits { Fits self.old input.old }
        requires step { IsInStep self.old }
        requires whole { HasAnswer self.old.holding }
        requires room { self.old.unsent + 65535 ≤ length output.old }
        ensures serves { (s : Settings) → IsClient s self.old input.old held.now
            → IsClient s self.new input.new (data_in result.1 held.now made.new) }
        ensures fits { Fits self.new input.new }
        ensures step { IsInStep self.new }
        ensures turned { result.1 ≡ is_data result.0 }
        ensures opened { self.new.opened ≡ said_after result.0 self.old.opened }
        ensures closed { self.new.closed ≡ said_after result.0 self.old.closed }
        ensures turns { Turns result.0 now self.old.router self.new.router self.old.unsent
            self.new.unsent output.old output.new }
        ensures told { TellsCall (IsOfChanges self.old.holding self.old.kept self.old.shown
            input.old held.now (length index.old) made.old made.new) result.0 now
            self.old input.old held.now self.new input.new
            (data_in result.1 held.now made.new) output.old output.new }
        ensures whole { is_data result.0 ≡ true → ShowsMade self.old.holding self.old.kept
            self.old.shown input.old held.now (length index.old) made.old made.new
            self.new.shown }
        ensures room { self.new.unsent ≤ length output.new }
        ensures full { NamesRoom result.0 self.new input.new output.new }
        ensures names { IfNamed result.0 (over_of now self.old input.old held.now
            self.new output.old output.new)
            (none_of now self.old input.old self.new input.new) }
        ensures ends { IsTurn result.0
            → turns_left self.new input.new < turns_left self.old input.old }
        ensures still { IsRoom result.0 → (self.new ≡ self.old) × (input.new ≡ input.old)
            × (result.1 ≡ false) }
        ensures index { CountsKept self.old input.old → self.old.router.units ≤ length index.old
            → IsIndexRoom result.0 → ⊥ }
        ensures enough { room_at self.old.holding self.old.shown self.old.kept ≤ length made.old
            → IsDataRoom result.0 → ⊥ }
        ensures short { length made.old
            < min (room_at self.old.holding self.old.shown self.old.kept) (2 ^ 64 - 1)
            → IsDataRoom result.0 }
        ensures acts { IsWait result.0 → ⊥ }
        ensures input { IsInputRoom result.0 → ⊥ }
    {
        match self.apply(now, input, held, made, index, output) {
            Applied::Nothing => (Todo::Go, false),
            Applied::Shown(_) => (Todo::Data, true),
            Applied::Data(size) => (Todo::DataRoom(size), false),
            Applied::Index(size) => (Todo::IndexRoom(size), false),
            Applied::Acted {
                action,
                refusal,
                offset,
            } => (self.todo(&action, refusal, offset), false),
        }
    }

    /// Handles passed time, a connection that was opened or closed, or bytes that came.
    fn go_on(&mut self, now: u64, input: &mut [u8], output: &mut [u8]) -> Todo
        requires time { now < 2 ^ 63 }
        requires fits { Fits self.old input.old }
        requires step { IsInStep self.old }
        requires hears { IsHearing self.old.holding }
        requires room { self.old.unsent + 65535 ≤ length output.old }
        ensures serves { (s : Settings) (buffer : Octets)
            → IsClient s self.old input.old buffer → IsClient s self.new input.new buffer }
        ensures fits { Fits self.new input.new }
        ensures step { IsInStep self.new }
        ensures second { self.new.second ≡ self.old.second }
        ensures plain { is_data result ≡ false }
        ensures opened { self.new.opened ≡ opened_then now self.old result }
        ensures closed { self.new.closed ≡ closed_then now self.old input.old result }
        ensures turns { Turns result now self.old.router self.new.router self.old.unsent
            self.new.unsent output.old output.new }
        ensures told { (held : Octets)
            → TellsCall (IsInTurn now self.old input.old) result now
            self.old input.old held self.new input.new held output.old output.new }
        ensures room { self.new.unsent ≤ length output.new }
        ensures full { NamesRoom result self.new input.new output.new }
        ensures names { (held : Octets) → IfNamed result
            (over_of now self.old input.old held self.new output.old output.new)
            (none_of now self.old input.old self.new input.new) }
        ensures ends { IsTurn result
            → turns_left self.new input.new < turns_left self.old input.old }
        ensures still { IsRoom result → (self.new ≡ self.old) × (input.new ≡ input.old) }
        ensures enough { IsDataRoom result → ⊥ }
        ensures index { IsIndexRoom result → ⊥ }
        ensures rests { IsWait result → RestsNow now self.old input.old }
        ensures over_none { IsUntold now self.old → IsOverNone result }
    {
        if now >= self.router.wakes() {
            return self.tells(now, Event::Tick, input, output);
        }
        if self.opened {
            self.opened = false;
            return self.connected(now, input, output);
        }
        if self.is_connected() {
            self.listen(now, input, output)
        } else {
            self.starve(now, input, output)
        }
    }

    /// Whether there is a connection.
    fn is_connected(&self) -> bool
        ensures yes { result ≡ true → IsTalking self.now.router }
        ensures no { result ≡ false → IsTalking self.now.router → ⊥ }
    {
        !matches!(self.router.phase, Phase::Offline | Phase::Connecting)
    }

    /// Tells the machine that a connection was opened.
    fn connected(&mut self, now: u64, input: &mut [u8], output: &mut [u8]) -> Todo
        requires time { now < 2 ^ 63 }
        requires fits { Fits self.old input.old }
        requires step { IsInStep self.old }
        requires room { self.old.unsent + 65535 ≤ length output.old }
        ensures serves { (s : Settings) (buffer : Octets)
            → IsClient s self.old input.old buffer → IsClient s self.new input.new buffer }
        ensures fits { Fits self.new input.new }
        ensures step { IsInStep self.new }
        ensures second { self.new.second ≡ self.old.second }
        ensures plain { is_data result ≡ false }
        ensures opened { self.new.opened ≡ said_after result self.old.opened }
        ensures closed { self.new.closed ≡ said_after result self.old.closed }
        ensures turns { Turns result now self.old.router self.new.router self.old.unsent
            self.new.unsent output.old output.new }
        ensures told { (held : Octets)
            → TellsCall (IsOfOpened self.old.router.phase) result now
            self.old input.old held self.new input.new held output.old output.new }
        ensures room { self.new.unsent ≤ length output.new }
        ensures full { NamesRoom result self.new input.new output.new }
        ensures names { (held : Octets) → IfNamed result
            (over_of now self.old input.old held self.new output.old output.new)
            (none_of now self.old input.old self.new input.new) }
        ensures turns_most { IsTurn result
            → turns_left self.new input.new ≤ turns_left self.old input.old }
        ensures rooms { IsRoom result → ⊥ }
        ensures enough { IsDataRoom result → ⊥ }
        ensures acts { IsWait result → ⊥ }
        ensures over_none { IsOverNone result }
    {
        match self.router.phase {
            Phase::Connecting => self.tells(now, Event::Connected, input, output),
            _ => Todo::Go,
        }
    }

    /// Handles bytes that may have come.
    fn listen(&mut self, now: u64, input: &mut [u8], output: &mut [u8]) -> Todo
        requires time { now < 2 ^ 63 }
        requires fits { Fits self.old input.old }
        requires step { IsInStep self.old }
        requires hears { IsHearing self.old.holding }
        requires talks { IsTalking self.old.router }
        requires room { self.old.unsent + 65535 ≤ length output.old }
        ensures serves { (s : Settings) (buffer : Octets)
            → IsClient s self.old input.old buffer → IsClient s self.new input.new buffer }
        ensures fits { Fits self.new input.new }
        ensures step { IsInStep self.new }
        ensures second { self.new.second ≡ self.old.second }
        ensures plain { is_data result ≡ false }
        ensures opened { self.new.opened ≡ said_after result self.old.opened }
        ensures closed { self.new.closed ≡
            lost_after (untold self.old input.old) result self.old.closed }
        ensures turns { Turns result now self.old.router self.new.router self.old.unsent
            self.new.unsent output.old output.new }
        ensures told { (held : Octets)
            → TellsCall (IsOfRest self.old.router (untold self.old input.old) self.old.closed)
            result now self.old input.old held self.new input.new held output.old output.new }
        ensures room { self.new.unsent ≤ length output.new }
        ensures full { NamesRoom result self.new input.new output.new }
        ensures names { (held : Octets) → IfNamed result
            (over_of now self.old input.old held self.new output.old output.new)
            (none_of now self.old input.old self.new input.new) }
        ensures ends { IsTurn result
            → turns_left self.new input.new < turns_left self.old input.old }
        ensures still { IsRoom result → (self.new ≡ self.old) × (input.new ≡ input.old) }
        ensures enough { IsDataRoom result → ⊥ }
        ensures index { IsIndexRoom result → ⊥ }
        ensures rests { IsWait result → (self.old.closed ≡ false)
            × Awaits self.old.router (untold self.old input.old) false self.old.router
            × (self.old.filled < length input.old) }
    {
        match self.hear(now, self.closed, input, output) {
            Heard::Kept => Todo::Go,
            Heard::Acted {
                action,
                refusal,
                offset,
            } => self.todo(&action, refusal, offset),
            Heard::Awaits => self.starve(now, input, output),
        }
    }

    /// Handles an input without a whole unit.
    fn starve(&mut self, now: u64, input: &mut [u8], output: &mut [u8]) -> Todo
        requires time { now < 2 ^ 63 }
        requires fits { Fits self.old input.old }
        requires step { IsInStep self.old }
        requires room { self.old.unsent + 65535 ≤ length output.old }
        ensures serves { (s : Settings) (buffer : Octets)
            → IsClient s self.old input.old buffer → IsClient s self.new input.new buffer }
        ensures fits { Fits self.new input.new }
        ensures step { IsInStep self.new }
        ensures second { self.new.second ≡ self.old.second }
        ensures plain { is_data result ≡ false }
        ensures opened { self.new.opened ≡ said_after result self.old.opened }
        ensures closed { self.new.closed ≡ false }
        ensures turns { Turns result now self.old.router self.new.router self.old.unsent
            self.new.unsent output.old output.new }
        ensures told { (held : Octets)
            → TellsCall (IsOfClosed self.old.closed) result now
            self.old input.old held self.new input.new held output.old output.new }
        ensures room { self.new.unsent ≤ length output.new }
        ensures full { NamesRoom result self.new input.new output.new }
        ensures names { (held : Octets) → IfNamed result
            (over_of now self.old input.old held self.new output.old output.new)
            (none_of now self.old input.old self.new input.new) }
        ensures ends { IsTurn result
            → turns_left self.new input.new < turns_left self.old input.old }
        ensures still { IsRoom result → (self.new ≡ self.old) × (input.new ≡ input.old) }
        ensures enough { IsDataRoom result → ⊥ }
        ensures index { IsIndexRoom result → ⊥ }
        ensures rests { IsWait result → (self.old.closed ≡ false)
            × (self.old.filled < length input.old) }
        ensures over_none { IsOverNone result }
    {
        if self.closed {
            self.closed = false;
            return self.tells(now, Event::Lost, input, output);
        }
        if self.filled == input.len() {
            return Todo::InputRoom(input.len().saturating_add(UNIT));
        }
        Todo::Wait
    }

    /// Tells the machine of this event, which isn't a unit.
    fn tells(&mut self, now: u64, event: Event, input: &mut [u8], output: &mut [u8]) -> Todo
        requires time { now < 2 ^ 63 }
        requires fits { Fits self.old input.old }
        requires step { IsInStep self.old }
        requires room { self.old.unsent + 65535 ≤ length output.old }
        requires none { IsOfNone event }
        requires says { SaysItself self.old.router event }
        ensures serves { (s : Settings) (buffer : Octets)
            → IsClient s self.old input.old buffer → IsClient s self.new input.new buffer }
        ensures fits { Fits self.new input.new }
        ensures step { IsInStep self.new }
        ensures second { self.new.second ≡ self.old.second }
        ensures plain { is_data result ≡ false }
        ensures opened { self.new.opened ≡ said_after result self.old.opened }
        ensures closed { self.new.closed ≡ said_after result self.old.closed }
        ensures turns { Turns result now self.old.router self.new.router self.old.unsent
            self.new.unsent output.old output.new }
        ensures told { (held : Octets)
            → TellsCall (IsOfEvent event) result now
            self.old input.old held self.new input.new held output.old output.new }
        ensures room { self.new.unsent ≤ length output.new }
        ensures full { NamesRoom result self.new input.new output.new }
        ensures names { (held : Octets) → IfNamed result
            (over_of now self.old input.old held self.new output.old output.new)
            (none_of now self.old input.old self.new input.new) }
        ensures turns_most { IsTurn result
            → turns_left self.new input.new ≤ turns_left self.old input.old }
        ensures ticks { event ≡ events.Tick → IsHearing self.old.holding
            → wakes_at self.old.router ≤ now → IsTurn result
            → turns_left self.new input.new < turns_left self.old input.old }
        ensures rooms { IsRoom result → ⊥ }
        ensures enough { IsDataRoom result → ⊥ }
        ensures tells { (a : Action) × IsTodoOf (Some a) result
            × IsStep self.old.router now event a self.new.router }
        ensures acts { IsWait result → ⊥ }
        ensures over_none { IsOverNone result }
    {
        let action = self.happens(now, event, input, output);
        self.todo(&action, None, 0)
    }

    /// The caller's next action for this action of the machine.
    fn todo(&mut self, action: &Action, refusal: Option<Refusal>, offset: usize) -> Todo
        ensures todo { IsTodoOf (Some action.now) result }
        ensures takes { (a : Option Action) (now : ℕ) (k : Client)
            (input held input' held' : Octets)
            → (x : TakesCall a now k input held self.old input' held')
            → (y : TakesCall a now k input held self.new input' held') × (y.word ≡ x.word) }
        ensures full { (k : Client) (input output : Octets) → NamesRoom result k input output }
        ensures names { IfNamed result
            (λ x r o. (action.now ≡ actions.End x) × (r ≡ refusal) × (o ≡ offset))
            (λ o. (action.now ≡ actions.NoData) × (o ≡ offset)) }
        ensures turn { IsTurn result → action.now ≢ actions.Connect }
        ensures turns { (input : Octets) → turns_left self.new input ≤ turns_left self.old input }
        ensures step { IsInStep self.old → IsInStep self.new }
        ensures rooms { IsRoom result → ⊥ }
        ensures input { IsInputRoom result → ⊥ }
        ensures enough { IsDataRoom result → ⊥ }
        ensures serves { (s : Settings) (input buffer : Octets)
            → IsClient s self.old input buffer → IsClient s self.new input buffer }
        ensures fits { (input : Octets) → Fits self.old input → Fits self.new input }
        ensures second { self.new.second ≡ self.old.second }
        ensures opened { self.new.opened ≡ said_after result self.old.opened }
        ensures closed { self.new.closed ≡ said_after result self.old.closed }
        ensures unsent { self.new.unsent ≡ self.old.unsent }
        ensures router { self.new.router ≡ self.old.router }
        ensures acts { IsWait result → ⊥ }
    {
        match action {
            Action::Connect => {
                self.opened = false;
                self.closed = false;
                Todo::Connect
            }
            Action::End(ending) => Todo::Close {
                ending: *ending,
                refusal,
                offset,
            },
            Action::Show => Todo::Data,
            Action::Drop => Todo::Dropped,
            Action::NoData => Todo::NoData { offset },
            _ => Todo::Go,
        }
    }

    /// Requests the present data: the machine asks for them as soon as it may. If the output is too
    /// short, nothing has changed.
    pub fn ask_now(&mut self, now: u64, input: &mut [u8], output: &mut [u8]) -> Todo
        requires time { now < 2 ^ 63 }
        requires fits { Fits self.old input.old }
        requires step { IsInStep self.old }
        requires room { self.old.unsent ≤ length output.old }
        ensures serves { (s : Settings) (buffer : Octets)
            → IsClient s self.old input.old buffer → IsClient s self.new input.new buffer }
        ensures fits { Fits self.new input.new }
        ensures step { IsInStep self.new }
        ensures second { self.new.second ≡ self.old.second }
        ensures opened { self.new.opened ≡ said_after result self.old.opened }
        ensures closed { self.new.closed ≡ said_after result self.old.closed }
        ensures turns { Turns result now self.old.router self.new.router self.old.unsent
            self.new.unsent output.old output.new }
        ensures told { (held : Octets)
            → TellsCall (IsOfAsking self.old (length output.old)) result now
            self.old input.old held self.new input.new held output.old output.new }
        ensures room { self.new.unsent ≤ length output.new }
        ensures full { NamesRoom result self.new input.new output.new }
        ensures first { length output.old < self.old.unsent + 65535 → IsOutputRoom result }
        ensures names { (held : Octets) → IfNamed result
            (over_of now self.old input.old held self.new output.old output.new)
            (none_of now self.old input.old self.new input.new) }
        ensures still { IsRoom result → (self.new ≡ self.old) × (input.new ≡ input.old) }
        ensures asks { self.old.unsent + 65535 ≤ length output.old → (a : Action)
            × IsTodoOf (Some a) result × IsStep self.old.router now events.Asked a self.new.router }
        ensures over_none { IsOverNone result }
    {
        if !self.has_room(output) {
            return Todo::OutputRoom(self.unsent.saturating_add(MOST_SENT));
        }
        self.tells(now, Event::Asked, input, output)
    }

    /// Ends the connection, if there is one, because the caller doesn't enlarge a buffer. The data
    /// stay. If the output is too short for a report, its unsent bytes are dropped.
    pub fn give_up(&mut self, now: u64, input: &mut [u8], output: &mut [u8]) -> Todo
        requires time { now < 2 ^ 63 }
        requires fits { Fits self.old input.old }
        requires step { IsInStep self.old }
        requires output { 65535 ≤ length output.old }
        ensures serves { (s : Settings) (buffer : Octets)
            → IsClient s self.old input.old buffer → IsClient s self.new input.new buffer }
        ensures fits { Fits self.new input.new }
        ensures step { IsInStep self.new }
        ensures second { self.new.second ≡ self.old.second }
        ensures opened { self.new.opened ≡ said_after result self.old.opened }
        ensures closed { self.new.closed ≡ said_after result self.old.closed }
        ensures turns { Turns result now self.old.router self.new.router
            (with_room self.old.unsent (length output.old)) self.new.unsent output.old output.new }
        ensures told { (held : Octets) → TellsCall (IsOfEvent (given_up self.old.router.phase))
            result now
            (record self.old { unsent = with_room self.old.unsent (length output.old) })
            input.old held self.new input.new held output.old output.new }
        ensures room { self.new.unsent ≤ length output.new }
        ensures names { (held : Octets) → IfNamed result (over_of now
            (record self.old { unsent = with_room self.old.unsent (length output.old) })
            input.old held self.new output.old output.new)
            (none_of now self.old input.old self.new input.new) }
        ensures gives { (a : Action) × IsTodoOf (Some a) result
            × IsStep self.old.router now (given_up self.old.router.phase) a self.new.router }
        ensures over_none { IsOverNone result }
    {
        self.make_room(output.len());
        match self.router.phase {
            Phase::Reading => self.tells(now, Event::NotApplied(None), input, output),
            Phase::Applying => self.tells(now, Event::NotApplied(None), input, output),
            _ => self.tells(now, Event::Lost, input, output),
        }
    }

    /// Drops the unsent bytes, if a report doesn't fit after them into an output of this length.
    fn make_room(&mut self, room: usize)
        requires { 65535 ≤ room }
        ensures room { self.new.unsent + 65535 ≤ room }
        ensures unsent { self.new ≡ record self.old { unsent = with_room self.old.unsent room } }
    {
        if room - MOST_SENT < self.unsent {
            self.unsent = 0;
        }
    }

    /// Records that a connection was opened.
    pub fn opened(&mut self)
        ensures { self.new ≡ record self.old { opened = true } }
    {
        self.opened = true;
    }

    /// Records that no connection could be opened, or that the peer closed it. The bytes that were
    /// read before are still handled.
    pub fn closed(&mut self)
        ensures { self.new ≡ record self.old { closed = true } }
    {
        self.closed = true;
    }

    /// Records that `size` bytes were read into the input, at the offset `filled`.
    pub fn received(&mut self, size: usize, input: &[u8])
        requires fits { Fits self.old input.now }
        requires within { self.old.filled + size ≤ length input.now }
        ensures fits { Fits self.new input.now }
        ensures filled { self.new ≡ record self.old { filled = self.old.filled + size } }
        ensures serves { (s : Settings) (before buffer : Octets)
            → take self.old.filled before ≡ take self.old.filled input.now
            → IsClient s self.old before buffer → IsClient s self.new input.now buffer }
    {
        self.filled += size;
    }

    /// Records that `size` bytes of the output were sent, and moves the rest to its front.
    pub fn sent(&mut self, size: usize, output: &mut [u8])
        requires within { size ≤ self.old.unsent }
        requires room { self.old.unsent ≤ length output.old }
        ensures left { take self.new.unsent output.new ≡
            drop size (take self.old.unsent output.old) }
        ensures unsent { self.new ≡ record self.old { unsent = self.old.unsent - size } }
        ensures serves { (s : Settings) (input buffer : Octets)
            → IsClient s self.old input buffer → IsClient s self.new input buffer }
        ensures fits { (input : Octets) → Fits self.old input → Fits self.new input }
        ensures room { self.new.unsent ≤ length output.new }
    {
        take_out(output, 0, size, self.unsent);
        self.unsent -= size;
    }
}

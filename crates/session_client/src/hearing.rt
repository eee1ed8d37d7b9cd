//! Reading the input, and passing each unit to the machine.

ghost use Rattle.std.specs.Prelude.{◌≡◌, ◌≢◌, ◌<◌, ◌≤◌, ◌+◌, ◌-◌, ◌^◌, ℕ, length, take, drop, List};
ghost use Rattle.std.specs.Prelude.{Some, None, []};
ghost use Rattle.session_client.specs.Makings.{Octets};
ghost use Rattle.session_client.specs.Holding.{Fits, IsHearing, RunsBeside, SaysItself, Stands};
ghost use Rattle.session_client.specs.Holding.{due_after, due_size};
ghost use Rattle.session_client.specs.Holding.{HearsAll, IsAwaits, LeavesInput, SameCalls};
ghost use Rattle.session_client.specs.Holding.{shown_after};
ghost use Rattle.session_client.specs.Holding.{untold};
ghost use Rattle.session_client.specs.Counting.{CountsKept, IsKeptCount};
ghost use Rattle.session_client.specs.Over.{IfHeard, none_of, over_of};
ghost use Rattle.session_client.specs.Said.{Did, PutsBehind, did_at, report_bytes};
ghost use Rattle.session_client.specs.Tells.{HostHas, TakesCall, front_at, front_left};
ghost use Rattle.session_client.specs.Turning.{HasAnswer, IsInStep, follows, holding_after};
ghost use Rattle.session_client.specs.Turning.{turns_left};
ghost use Rattle.session_client.specs.Words.{IsOfInput};
ghost use Rattle.session_client.specs.declared.client.Holding.TheVariants as holdings;
ghost use Rattle.session_bytes.specs.Reading.{Acts, Awaits, EndsConnection, Hears};
ghost use Rattle.session_router.specs.Heeding.{IsTalking};
ghost use Rattle.session_router.specs.Histories.{Caller, Host, host_after};
ghost use Rattle.session_router.specs.Step.{IsStep};
ghost use Rattle.session_router.specs.declared.event.Action.TheVariants as actions;
ghost use Rattle.session_router.specs.declared.event.Ending.{Ending};
ghost use Rattle.session_router.specs.declared.event.Event.{Event};
ghost use Rattle.session_router.specs.declared.event.Event.TheVariants as events;
ghost use Rattle.session_router.specs.declared.router.Router.{Router};

use crate::client::{Client, Holding, part, shown_after, take_out};
use crate::saying::put;
use session_bytes::laws::what_is_told_is_heard;
use session_bytes::{Refusal, Told, tell};
use session_router::event::{Action, Event};

/// The result for an input.
#[derive(Drop)]
pub enum Heard {
    /// No whole unit has come.
    Awaits,
    /// Payload units were kept.
    Kept,
    /// The machine took this action. If a unit is refused, this is why. The unit began at this
    /// offset of the input, where it still is if the connection ends.
    Acted {
        action: Action,
        refusal: Option<Refusal>,
        offset: usize,
    },
}

impl Client {
    /// Tells the machine of the bytes that it wasn't told of yet. If the peer has closed, a unit
    /// that isn't whole is refused.
    pub(crate) fn hear(
        &mut self,
        now: u64,
        closed: bool,
        input: &mut [u8],
        output: &mut [u8],
    ) -> Heard
        requires time { now < 2 ^ 63 }
        requires fits { Fits self.old input.old }
        requires room { self.old.unsent + 65535 ≤ length output.old }
        requires hears { IsHearing self.old.holding }
        requires step { IsInStep self.old }
        ensures stands { (c : Caller Octets Octets) (buffer : Octets)
            → Stands c self.old input.old buffer → Stands c self.new input.new buffer }
        ensures counts { CountsKept self.old input.old → CountsKept self.new input.new }
        ensures same { SameCalls self.old self.new }
        ensures step { IsInStep self.new }
        ensures names { (held : Octets) → IfHeard result
            (over_of now self.old input.old held self.new output.old output.new)
            (none_of now self.old input.old self.new input.new) }
        ensures turns { IsTalking self.old.router → (IsAwaits result → ⊥)
            → turns_left self.new input.new < turns_left self.old input.old }
        ensures did { Did (did_at result) now self.old.router self.new.router self.old.unsent
            self.new.unsent output.old output.new }
        ensures room { self.new.unsent ≤ length output.new }
        ensures hears { HearsAll self.old.router now closed (untold self.old input.old)
            (untold self.new input.new) self.new.router }
        ensures takes { (held : Octets)
            → (x : TakesCall (did_at result) now self.old input.old held self.new input.new held)
            × ((IsAwaits result → ⊥) → IsOfInput closed x.word) }
        ensures awaits { IsAwaits result
            → Awaits self.old.router (untold self.old input.old) closed self.old.router }
        ensures some { (IsAwaits result → ⊥) → 0 < length (untold self.old input.old) }
        ensures rests { IsAwaits result → (self.new ≡ self.old) × (input.new ≡ input.old) }
        ensures fits { Fits self.new input.new }
    {
        match self.told(now, closed, input) {
            Told::Awaits => Heard::Awaits,
            Told::Kept(size) => {
                what_is_told_is_heard();
                self.kept += size;
                Heard::Kept
            }
            Told::Acted { start, end, action } => {
                let version = self.router.version;
                let offset = self.kept + start;
                let about = part(input, offset, self.filled);
                put(version, &action, None, about, &mut self.unsent, output);
                self.act(start, end, &action, input);
                Heard::Acted {
                    action,
                    refusal: None,
                    offset,
                }
            }
            Told::Refused { fault, action } => {
                let version = self.router.version;
                let refusal = Refusal::of(&fault);
                let offset = self.kept;
                let about = part(input, offset, self.filled);
                put(version, &action, refusal, about, &mut self.unsent, output);
                self.follow(&action, input);
                Heard::Acted {
                    action,
                    refusal,
                    offset,
                }
            }
        }
    }

    /// Tells the machine of this event, which isn't a unit.
    pub(crate) fn happens(
        &mut self,
        now: u64,
        event: Event,
        input: &mut [u8],
        output: &mut [u8],
    ) -> Action
        requires time { now < 2 ^ 63 }
        requires fits { Fits self.old input.old }
        requires room { self.old.unsent + 65535 ≤ length output.old }
        requires says { SaysItself self.old.router event }
        requires step { IsInStep self.old }
        ensures stands { (c : Caller Octets Octets) (buffer : Octets)
            → Stands c self.old input.old buffer → Stands c self.new input.new buffer }
        ensures counts { CountsKept self.old input.old → CountsKept self.new input.new }
        ensures same { SameCalls self.old self.new }
        ensures steps { IsStep self.old.router now event result self.new.router }
        ensures left { LeavesInput result 0 (untold self.old input.old)
            (untold self.new input.new) }
        ensures front { self.new.kept + due_size self.new.holding ≡
            front_left result (self.old.kept + due_size self.old.holding) }
        ensures shown { self.new.shown ≡ shown_after result self.old.shown }
        ensures has { (c : Caller Octets Octets) (h : Host Octets Octets) (buffer : Octets)
            → HostHas c h self.old.holding self.old.kept self.old.shown input.old buffer
            → HostHas c (host_after c h [] result) self.new.holding self.new.kept self.new.shown
            input.new buffer }
        ensures step { IsInStep self.new }
        ensures ends { (x : Ending) → result ≡ actions.End x
            → PutsBehind (report_bytes self.new.router.version x.report x None [])
            self.old.unsent self.new.unsent output.old output.new }
        ensures turns { result ≢ actions.Connect
            → turns_left self.new input.new ≤ turns_left self.old input.old }
        ensures given_up { HasAnswer self.old.holding → EndsConnection result
            → turns_left self.new input.new < turns_left self.old input.old }
        ensures acts { event ≡ events.Tick → result ≢ actions.Wait → result ≢ actions.Connect
            → turns_left self.new input.new < turns_left self.old input.old }
        ensures did { Did (Some result) now self.old.router self.new.router self.old.unsent
            self.new.unsent output.old output.new }
        ensures room { self.new.unsent ≤ length output.new }
        ensures fits { Fits self.new input.new }
    {
        let action = self.router.step(now, event);
        let version = self.router.version;
        put(version, &action, None, &[], &mut self.unsent, output);
        self.follow(&action, input);
        action
    }

    fn told(&mut self, now: u64, closed: bool, input: &[u8]) -> Told
        requires time { now < 2 ^ 63 }
        requires fits { Fits self.old input.now }
        ensures hears { Hears self.old.router now
            (drop self.old.kept (take self.old.filled input.now)) closed result self.new.router }
        ensures same { self.new ≡ record self.old { router = self.new.router } }
    {
        let rest = part(input, self.kept, self.filled);
        tell(&mut self.router, now, rest, closed)
    }

    /// Carries out in the input what the machine did at the unit between these offsets of the
    /// unread bytes. Before it come units that the machine keeps.
    fn act(&mut self, start: usize, end: usize, action: &Action, input: &mut [u8])
        requires order { start < end }
        requires within { self.old.kept + end ≤ self.old.filled }
        requires fits { Fits self.old input.old }
        requires hears { IsHearing self.old.holding }
        ensures stands { (c : Caller Octets Octets) (buffer : Octets) (now : ℕ) (before : Router)
            → RunsBeside c before self.old.holding self.old.kept self.old.shown input.old buffer
            → Acts before now (drop self.old.kept (take self.old.filled input.old)) start end
            action.now self.old.router
            → Stands c self.new input.new buffer }
        ensures counts { (now : ℕ) (before : Router)
            → Acts before now (drop self.old.kept (take self.old.filled input.old)) start end
            action.now self.old.router
            → IsKeptCount self.old.holding before self.old.kept input.old
            → CountsKept self.new input.new }
        ensures has { (c : Caller Octets Octets) (h : Host Octets Octets) (buffer : Octets)
            (now : ℕ) (before : Router)
            → Acts before now (drop self.old.kept (take self.old.filled input.old)) start end
            action.now self.old.router
            → HostHas c h self.old.holding self.old.kept self.old.shown input.old buffer
            → HostHas c (host_after c h
            (drop start (take end (drop self.old.kept (take self.old.filled input.old))))
            action.now) self.new.holding self.new.kept self.new.shown input.new buffer }
        ensures left { LeavesInput action.now end (untold self.old input.old)
            (untold self.new input.new) }
        ensures holding { self.new.holding ≡
            holding_after action.now self.old.holding (end - start) }
        ensures front { self.new.kept + due_size self.new.holding ≡
            front_at action.now (self.old.kept + start) (self.old.kept + end) }
        ensures shown { self.new.shown ≡ shown_after action.now self.old.shown }
        ensures stays { action.now ≡ actions.NoData → input.new ≡ input.old }
        ensures same { SameCalls self.old self.new }
        ensures router { self.new.router ≡ self.old.router }
        ensures unsent { self.new.unsent ≡ self.old.unsent }
        ensures fits { Fits self.new input.new }
    {
        what_is_told_is_heard();
        match action {
            Action::Wait => self.pass(start, end, input),
            Action::Begin => self.begin(end, input),
            Action::Apply(since) => self.complete(start, end, *since),
            Action::NoData => self.set_aside(end),
            _ => self.forget(self.kept + end, action, input),
        }
    }

    /// Removes a unit from the input.
    fn pass(&mut self, start: usize, end: usize, input: &mut [u8])
        requires order { start < end }
        requires within { self.old.kept + end ≤ self.old.filled }
        requires fits { Fits self.old input.old }
        requires hears { IsHearing self.old.holding }
        ensures same { take (self.old.kept + start) input.new ≡
            take (self.old.kept + start) input.old }
        ensures client { self.new ≡ record self.old {
          kept = self.old.kept + start;
          filled = self.new.filled;
        } }
        ensures left { untold self.new input.new ≡ drop end (untold self.old input.old) }
        ensures fits { Fits self.new input.new }
    {
        let from = self.kept + start;
        take_out(input, from, self.kept + end, self.filled);
        self.filled -= end - start;
        self.kept = from;
    }

    /// Begins a response after this offset of the unread bytes.
    fn begin(&mut self, end: usize, input: &mut [u8])
        requires within { self.old.kept + end ≤ self.old.filled }
        requires fits { Fits self.old input.old }
        ensures client { self.new ≡ record self.old {
          holding = holdings.Units;
          kept = 0;
          filled = self.new.filled;
        } }
        ensures left { untold self.new input.new ≡
            drop (self.old.kept + end) (take self.old.filled input.old) }
        ensures fits { Fits self.new input.new }
    {
        take_out(input, 0, self.kept + end, self.filled);
        self.filled -= self.kept + end;
        self.kept = 0;
        self.holding = Holding::Units;
    }

    /// Takes the end of data between these offsets of the unread bytes.
    fn complete(&mut self, start: usize, end: usize, since: bool)
        requires order { start < end }
        requires within { self.old.kept + end ≤ self.old.filled }
        ensures due { self.new.kept + due_size self.new.holding ≡ self.old.kept + end }
        ensures client { self.new ≡ record self.old {
          holding = due_after self.old.holding (end - start) since;
          kept = self.new.kept;
        } }
        ensures kept { self.old.holding ≡ holdings.Units → self.new.kept ≡ self.old.kept + start }
    {
        match self.holding {
            Holding::Units => {
                self.holding = Holding::Answer(end - start, since);
                self.kept += start;
            }
            _ => self.set_aside(end),
        }
    }

    /// Drops the unread bytes before this offset. The bytes stay where they are.
    fn set_aside(&mut self, end: usize)
        requires within { self.old.kept + end ≤ self.old.filled }
        ensures { self.new ≡ record self.old {
          holding = holdings.Nothing;
          kept = self.old.kept + end;
        } }
    {
        self.holding = Holding::Nothing;
        self.kept += end;
    }

    /// Drops the input up to the offset `to`; all of it if a connection ends or will be opened.
    pub(crate) fn forget(&mut self, to: usize, action: &Action, input: &mut [u8])
        requires within { to ≤ self.old.filled }
        requires fits { Fits self.old input.old }
        ensures client { self.new ≡ record self.old {
          holding = holdings.Nothing;
          kept = 0;
          filled = self.new.filled;
          shown = shown_after action.now self.old.shown;
        } }
        ensures left { LeavesInput action.now to (take self.old.filled input.old)
            (untold self.new input.new) }
        ensures fits { Fits self.new input.new }
    {
        let to = match action {
            Action::End(_) | Action::Connect => self.filled,
            _ => to,
        };
        take_out(input, 0, to, self.filled);
        self.filled -= to;
        self.kept = 0;
        self.holding = Holding::Nothing;
        self.shown = shown_after(action, self.shown);
    }

    /// Carries out in the input what the machine did at an event that isn't a unit.
    pub(crate) fn follow(&mut self, action: &Action, input: &mut [u8])
        requires fits { Fits self.old input.old }
        ensures stands { (c : Caller Octets Octets) (buffer : Octets) (now : ℕ) (before : Router)
            (e : Event) → SaysItself before e
            → RunsBeside c before self.old.holding self.old.kept self.old.shown input.old buffer
            → IsStep before now e action.now self.old.router
            → Stands c self.new input.new buffer }
        ensures counts { (now : ℕ) (before : Router) (e : Event)
            → IsStep before now e action.now self.old.router
            → IsKeptCount self.old.holding before self.old.kept input.old
            → CountsKept self.new input.new }
        ensures has { (c : Caller Octets Octets) (h : Host Octets Octets) (buffer : Octets)
            (now : ℕ) (before : Router) (e : Event) → SaysItself before e
            → IsStep before now e action.now self.old.router
            → HostHas c h self.old.holding self.old.kept self.old.shown input.old buffer
            → HostHas c (host_after c h [] action.now) self.new.holding self.new.kept self.new.shown
            input.new buffer }
        ensures left { IsHearing self.old.holding → LeavesInput action.now 0
            (untold self.old input.old) (untold self.new input.new) }
        ensures holding { self.new.holding ≡ follows action.now self.old.holding }
        ensures front { self.new.kept + due_size self.new.holding ≡
            front_left action.now (self.old.kept + due_size self.old.holding) }
        ensures shown { self.new.shown ≡ shown_after action.now self.old.shown }
        ensures ends { EndsConnection action.now → untold self.new input.new ≡ [] }
        ensures waits { action.now ≡ actions.Wait →
            (self.new ≡ self.old) × (input.new ≡ input.old) }
        ensures same { SameCalls self.old self.new }
        ensures router { self.new.router ≡ self.old.router }
        ensures unsent { self.new.unsent ≡ self.old.unsent }
        ensures fits { Fits self.new input.new }
    {
        match action {
            Action::Wait => {}
            _ => self.forget(self.kept, action, input),
        }
    }
}

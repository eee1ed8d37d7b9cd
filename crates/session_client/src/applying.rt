//! Applying the changes of a whole answer.

ghost use Rattle.std.specs.Prelude.{◌≡◌, ◌≢◌, ◌<◌, ◌≤◌, ◌+◌, ◌-◌, ◌^◌, ℕ, Bool, length, take, drop};
ghost use Rattle.std.specs.Prelude.{List, Option, Some, None, Err, IfOk, min};
ghost use Rattle.session_client.specs.Holding.{Fits, SameCalls, IsClient, Stands, base_room};
ghost use Rattle.session_client.specs.Holding.{AsksRoom, ShowsByThis, ShowsNew, WantsData};
ghost use Rattle.session_client.specs.Holding.{WantsIndex, WantsRoom};
ghost use Rattle.session_client.specs.Holding.{data_after, due_size, room_at, room_for};
ghost use Rattle.session_client.specs.Makings.{Octets, MadeAnswer, MakesThis, ShowsMade, WasMade};
ghost use Rattle.session_client.specs.Makings.{onto};
ghost use Rattle.session_client.specs.Counting.{CountsKept};
ghost use Rattle.session_client.specs.Over.{IfApplied, IsRefusedOver, none_of, over_of};
ghost use Rattle.session_client.specs.Said.{Did, did_of};
ghost use Rattle.session_client.specs.Tells.{HostHas, TakesCall};
ghost use Rattle.session_client.specs.Turning.{HasAnswer, IsInStep, turns_left};
ghost use Rattle.session_client.specs.Words.{IsOfChanges, IsOfEvent};
ghost use Rattle.session_client.specs.declared.client.Holding.TheVariants as holdings;
ghost use Rattle.session_router.specs.Histories.{Caller, Host};
ghost use Rattle.session_bytes.specs.Sent.{refusal_code};
ghost use Rattle.session_router.specs.declared.event.Event.TheVariants as events;
ghost use Rattle.session_router.specs.declared.settings.Settings.{Settings};
ghost use Rattle.data_slices.specs.InOrder.{AppliesInOrder};
ghost use Rattle.data_slices.specs.declared.in_order_fault.InOrderFault.TheVariants.{NoRoom};

use crate::client::{Client, Holding, part};
use crate::saying::put;
use data_slices::in_order_laws::changes_as_they_came;
use data_slices::{InOrderFault, apply_in_order};
use session_bytes::Refusal;
use session_router::event::{Action, Event};

/// The result of applying a whole answer.
#[derive(Drop)]
pub enum Applied {
    /// No whole answer has come.
    Nothing,
    /// The result of the changes is now the data, of this length, in the other buffer.
    Shown(usize),
    /// The other buffer is shorter than this length, the greatest that the result can have. Nothing
    /// has changed, and nothing was sorted.
    Data(usize),
    /// The index is shorter than this, one element for each unit. Nothing has changed, and nothing
    /// was sorted.
    Index(usize),
    /// The changes are refused, or came too late, and the machine took this action. If one of the
    /// changes is refused, this is why, with the offset of its unit in the input.
    Acted {
        action: Action,
        refusal: Option<Refusal>,
        offset: usize,
    },
}

impl Client {
    /// Applies all changes of a whole answer, or none. The data are in one buffer, and the result
    /// is written to the other.
    pub(crate) fn apply(
        &mut self,
        now: u64,
        input: &mut [u8],
        held: &[u8],
        made: &mut [u8],
        index: &mut [usize],
        output: &mut [u8],
    ) -> Applied
        requires time { now < 2 ^ 63 }
        requires fits { Fits self.old input.old }
        requires step { IsInStep self.old }
        requires whole { HasAnswer self.old.holding }
        requires room { self.old.unsent + 65535 ≤ length output.old }
        ensures serves { (s : Settings) → IsClient s self.old input.old held.now
            → IsClient s self.new input.new (data_after result held.now made.new) }
        ensures fits { Fits self.new input.new }
        ensures step { IsInStep self.new }
        ensures same { SameCalls self.old self.new }
        ensures shows { ShowsByThis result }
        ensures did { Did (did_of result) now self.old.router self.new.router self.old.unsent
            self.new.unsent output.old output.new }
        ensures takes { (x : TakesCall (did_of result) now self.old input.old held.now self.new
            input.new (data_after result held.now made.new)) × IsOfChanges self.old.holding
            self.old.kept self.old.shown input.old held.now (length index.old) made.old made.new
            x.word }
        ensures whole { ShowsNew result → ShowsMade self.old.holding self.old.kept self.old.shown
            input.old held.now (length index.old) made.old made.new self.new.shown }
        ensures room { self.new.unsent ≤ length output.new }
        ensures names { IfApplied result
            (over_of now self.old input.old held.now self.new output.old output.new)
            (none_of now self.old input.old self.new input.new) }
        ensures ends { (WantsRoom result → ⊥)
            → turns_left self.new input.new < turns_left self.old input.old }
        ensures still { WantsRoom result → (self.new ≡ self.old) × (input.new ≡ input.old)
            × (output.new ≡ output.old) }
        ensures asks { AsksRoom result (room_at self.old.holding self.old.shown self.old.kept)
            self.old.router.units }
        ensures index { CountsKept self.old input.old → self.old.router.units ≤ length index.old
            → WantsIndex result → ⊥ }
        ensures enough { room_at self.old.holding self.old.shown self.old.kept ≤ length made.old
            → WantsData result → ⊥ }
        ensures short { length made.old
            < min (room_at self.old.holding self.old.shown self.old.kept) (2 ^ 64 - 1)
            → WantsData result }
    {
        match self.holding {
            Holding::Answer(size, since) => {
                self.make_all(now, size, since, input, held, made, index, output)
            }
            _ => Applied::Nothing,
        }
    }

    fn make_all(
        &mut self,
        now: u64,
        size: usize,
        since: bool,
        input: &mut [u8],
        held: &[u8],
        made: &mut [u8],
        index: &mut [usize],
        output: &mut [u8],
    ) -> Applied
        requires time { now < 2 ^ 63 }
        requires fits { Fits self.old input.old }
        requires step { IsInStep self.old }
        requires room { self.old.unsent + 65535 ≤ length output.old }
        requires due { self.old.holding ≡ holdings.Answer size since }
        requires within { self.old.kept + size ≤ self.old.filled }
        ensures serves { (s : Settings) → IsClient s self.old input.old held.now
            → IsClient s self.new input.new (data_after result held.now made.new) }
        ensures fits { Fits self.new input.new }
        ensures step { IsInStep self.new }
        ensures same { SameCalls self.old self.new }
        ensures shows { ShowsByThis result }
        ensures did { Did (did_of result) now self.old.router self.new.router self.old.unsent
            self.new.unsent output.old output.new }
        ensures takes { (x : TakesCall (did_of result) now self.old input.old held.now self.new
            input.new (data_after result held.now made.new))
            × IsOfChanges (holdings.Answer size since) self.old.kept self.old.shown input.old
            held.now (length index.old) made.old made.new x.word }
        ensures whole { ShowsNew result → ShowsMade self.old.holding self.old.kept self.old.shown
            input.old held.now (length index.old) made.old made.new self.new.shown }
        ensures room { self.new.unsent ≤ length output.new }
        ensures names { IfApplied result
            (over_of now self.old input.old held.now self.new output.old output.new)
            (none_of now self.old input.old self.new input.new) }
        ensures ends { (WantsRoom result → ⊥)
            → turns_left self.new input.new < turns_left self.old input.old }
        ensures still { WantsRoom result → (self.new ≡ self.old) × (input.new ≡ input.old)
            × (output.new ≡ output.old) }
        ensures asks { AsksRoom result (room_for since self.old.shown size self.old.kept)
            self.old.router.units }
        ensures index { CountsKept self.old input.old → self.old.router.units ≤ length index.old
            → WantsIndex result → ⊥ }
        ensures enough { room_for since self.old.shown size self.old.kept ≤ length made.old
            → WantsData result → ⊥ }
        ensures short { length made.old
            < min (room_for since self.old.shown size self.old.kept) (2 ^ 64 - 1)
            → WantsData result }
    {
        // Without this the units would be sorted, in vain.
        let room = self.data_room(size, since);
        if made.len() < room {
            return Applied::Data(room);
        }
        match self.make(size, since, input, held, made, index) {
            Ok(count) => self.adopt(now, size, count, input, output),
            Err(InOrderFault::NoRoom) => Applied::Data(room),
            Err(InOrderFault::NoIndex) => Applied::Index(self.router.units as usize),
            Err(InOrderFault::Duplicate { offset }) => {
                self.refuse(now, Refusal::Duplicate, offset, input, output)
            }
            Err(InOrderFault::Unknown { offset }) => {
                self.refuse(now, Refusal::Unknown, offset, input, output)
            }
            Err(
                InOrderFault::Data(_)
                | InOrderFault::Changes(_)
                | InOrderFault::UnitVersion(_)
                | InOrderFault::Session(_),
            ) => self.cannot_make(now, input, output),
        }
    }

    /// The greatest length that the result of an answer can have.
    fn data_room(&self, size: usize, since: bool) -> usize
        requires { self.now.kept + size ≤ self.now.filled }
        ensures { result ≡ min (room_for since self.now.shown size self.now.kept) (2 ^ 64 - 1) }
    {
        base_room(since, self.shown, size).saturating_add(self.kept + size)
    }

    /// Records that the changes of an answer were applied.
    fn adopt(
        &mut self,
        now: u64,
        size: usize,
        count: usize,
        input: &mut [u8],
        output: &mut [u8],
    ) -> Applied
        requires time { now < 2 ^ 63 }
        requires fits { Fits self.old input.old }
        requires step { IsInStep self.old }
        requires whole { HasAnswer self.old.holding }
        requires due { due_size self.old.holding ≡ size }
        requires room { self.old.unsent + 65535 ≤ length output.old }
        requires within { self.old.kept + size ≤ self.old.filled }
        ensures stands { (c : Caller Octets Octets) (held made : Octets)
            → (x : Stands c self.old input.old held) → x.host.made ≡ Some (take count made)
            → Stands c self.new input.new (data_after result held made) }
        ensures fits { Fits self.new input.new }
        ensures step { IsInStep self.new }
        ensures counts { CountsKept self.new input.new }
        ensures same { SameCalls self.old self.new }
        ensures shows { ShowsByThis result }
        ensures did { Did (did_of result) now self.old.router self.new.router self.old.unsent
            self.new.unsent output.old output.new }
        ensures takes { (held made : Octets) (m : MadeAnswer) → WasMade m
            → ((c : Caller Octets Octets) (h : Host Octets Octets) → MakesThis c m
            → HostHas c h self.old.holding self.old.kept self.old.shown input.old held
            → h.made ≡ Some (take count made))
            → (x : TakesCall (did_of result) now self.old input.old held self.new input.new
            (data_after result held made)) × IsOfEvent events.Applied x.word }
        ensures size { ShowsNew result → self.new.shown ≡ Some count }
        ensures room { self.new.unsent ≤ length output.new }
        ensures names { (held : Octets) → IfApplied result
            (over_of now self.old input.old held self.new output.old output.new)
            (none_of now self.old input.old self.new input.new) }
        ensures ends { turns_left self.new input.new < turns_left self.old input.old }
        ensures enough { WantsRoom result → ⊥ }
    {
        let action = self.router.step(now, Event::Applied);
        let to = self.kept + size;
        self.forget(to, &action, input);
        match action {
            Action::Show => {
                self.shown = Some(count);
                Applied::Shown(count)
            }
            _ => {
                let version = self.router.version;
                put(version, &action, None, &[], &mut self.unsent, output);
                Applied::Acted {
                    action,
                    refusal: None,
                    offset: 0,
                }
            }
        }
    }

    /// Refuses a change for this reason, whose unit begins at this offset of the input.
    fn refuse(
        &mut self,
        now: u64,
        refusal: Refusal,
        offset: usize,
        input: &mut [u8],
        output: &mut [u8],
    ) -> Applied
        requires time { now < 2 ^ 63 }
        requires fits { Fits self.old input.old }
        requires step { IsInStep self.old }
        requires whole { HasAnswer self.old.holding }
        requires room { self.old.unsent + 65535 ≤ length output.old }
        ensures stands { (c : Caller Octets Octets) (held made : Octets)
            → Stands c self.old input.old held
            → Stands c self.new input.new (data_after result held made) }
        ensures fits { Fits self.new input.new }
        ensures step { IsInStep self.new }
        ensures counts { CountsKept self.old input.old → CountsKept self.new input.new }
        ensures same { SameCalls self.old self.new }
        ensures shows { ShowsByThis result }
        ensures did { Did (did_of result) now self.old.router self.new.router self.old.unsent
            self.new.unsent output.old output.new }
        ensures takes { (held made : Octets) → (x : TakesCall (did_of result) now self.old input.old
            held self.new input.new (data_after result held made))
            × IsOfEvent (events.NotApplied (Some (record { 0 = refusal_code refusal }))) x.word }
        ensures room { self.new.unsent ≤ length output.new }
        ensures names { (held : Octets) (since : Bool) (size places : ℕ)
            → self.old.holding ≡ holdings.Answer size since
            → IsRefusedOver refusal offset
            (onto since self.old.shown held (take size (drop self.old.kept input.old)))
            (take (self.old.kept + size) input.old) places
            → IfApplied result (over_of now self.old input.old held self.new output.old output.new)
            (none_of now self.old input.old self.new input.new) }
        ensures ends { turns_left self.new input.new < turns_left self.old input.old }
        ensures enough { WantsRoom result → ⊥ }
        ensures acts { ShowsNew result → ⊥ }
    {
        let action = self
            .router
            .step(now, Event::NotApplied(Some(refusal.code())));
        let version = self.router.version;
        let about = part(input, offset.min(self.filled), self.filled);
        let refusal = Some(refusal);
        put(version, &action, refusal, about, &mut self.unsent, output);
        self.follow(&action, input);
        Applied::Acted {
            action,
            refusal,
            offset,
        }
    }

    /// Ends the connection: the changes can't be applied, and none of them is at fault.
    fn cannot_make(&mut self, now: u64, input: &mut [u8], output: &mut [u8]) -> Applied
        requires time { now < 2 ^ 63 }
        requires fits { Fits self.old input.old }
        requires step { IsInStep self.old }
        requires whole { HasAnswer self.old.holding }
        requires room { self.old.unsent + 65535 ≤ length output.old }
        ensures stands { (c : Caller Octets Octets) (held made : Octets)
            → Stands c self.old input.old held
            → Stands c self.new input.new (data_after result held made) }
        ensures fits { Fits self.new input.new }
        ensures step { IsInStep self.new }
        ensures counts { CountsKept self.old input.old → CountsKept self.new input.new }
        ensures same { SameCalls self.old self.new }
        ensures shows { ShowsByThis result }
        ensures did { Did (did_of result) now self.old.router self.new.router self.old.unsent
            self.new.unsent output.old output.new }
        ensures takes { (held made : Octets) → (x : TakesCall (did_of result) now self.old input.old
            held self.new input.new (data_after result held made))
            × IsOfEvent (events.NotApplied None) x.word }
        ensures room { self.new.unsent ≤ length output.new }
        ensures names { (held : Octets) → IfApplied result
            (over_of now self.old input.old held self.new output.old output.new)
            (none_of now self.old input.old self.new input.new) }
        ensures ends { turns_left self.new input.new < turns_left self.old input.old }
        ensures enough { WantsRoom result → ⊥ }
        ensures acts { ShowsNew result → ⊥ }
    {
        let action = self.happens(now, Event::NotApplied(None), input, output);
        Applied::Acted {
            action,
            refusal: None,
            offset: 0,
        }
    }

    /// Writes the result of the changes to the other buffer.
    fn make(
        &self,
        size: usize,
        since: bool,
        input: &[u8],
        held: &[u8],
        made: &mut [u8],
        index: &mut [usize],
    ) -> Result<usize, InOrderFault>
        requires within { self.now.kept + size ≤ length input.now }
        ensures enough { room_for since self.now.shown size self.now.kept ≤ length made.old
            → result ≢ Err NoRoom }
        ensures applies { AppliesInOrder result
            (onto since self.now.shown held.now (take size (drop self.now.kept input.now)))
            (take (self.now.kept + size) input.now) (length index.old) made.old made.new }
        ensures made { IfOk result (λ n. WasMade (record {
          base = onto since self.now.shown held.now (take size (drop self.now.kept input.now));
          answer = take (self.now.kept + size) input.now;
          new = take n made.new;
        })) }
    {
        changes_as_they_came();
        let (answer, _) = input.split_at(self.kept + size);
        let (_, end) = answer.split_at(self.kept);
        apply_in_order(base(since, self.shown, held, end), answer, index, made)
    }
}

/// The greatest length of what the changes are applied to.
fn base_room(since: bool, shown: Option<usize>, size: usize) -> usize
    ensures { result ≡ base_room since shown size }
{
    match shown {
        Some(count) => if since { count } else { size },
        None => size,
    }
}

/// What the changes are applied to: the data, or no data, which is just the end of data.
fn base<'a>(since: bool, shown: Option<usize>, held: &'a [u8], end: &'a [u8]) -> &'a [u8]
    ensures { result.now ≡ onto since shown held.now end.now }
{
    match shown {
        Some(count) => {
            if !since {
                return end;
            }
            if count > held.len() {
                return held;
            }
            let (data, _) = held.split_at(count);
            data
        }
        None => end,
    }
}

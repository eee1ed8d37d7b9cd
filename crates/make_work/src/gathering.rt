//! Gathering the payloads of items as data: each once, in their order.

ghost use Rattle.std.specs.Prelude.{◌≡◌, ◌∷◌, [], ◌^◌, ◌+◌, ◌-◌, MatchResult, length, min, nat_eq};
ghost use Rattle.std.specs.Prelude.{None, if◌then◌else◌};
ghost use Rattle.rtr_base.specs.Bytes.{IsBytes};
ghost use Rattle.rtr_payload.specs.Meanings.{origin_of, payload_of};
ghost use Rattle.data_memory.specs.Contents.{AreFit};
ghost use Rattle.data_memory.specs.Deltas.{data_for};
ghost use Rattle.data_memory.specs.Sequences.{HasBytes, IsInRange};
ghost use Rattle.make_work.specs.Gathering.{is_lacking, lacked};
ghost use Rattle.make_work.specs.PrivateAdding.{AddsPayload, is_memory};
ghost use Rattle.make_work.specs.PrivateTaking.{EndsGathering, GathersOne};
ghost use Rattle.data_slurm.specs.Entries.{assertions_of};
ghost use Rattle.data_slurm.specs.Filters.{removes};
ghost use Rattle.make_work.specs.Taking.{AddsAsserted, EndsTaking, HasTaken, IsFor, KeepsItems};
ghost use Rattle.make_work.specs.Taking.{TakesItems, entries_asked};

use crate::expiring::{Expired, Times};
use crate::item::{Expiry, Item, Place, Reason, Refusal};
use data_memory::{ChangeError, Data};
use data_slurm::{Entry, Slurm};
use rtr_payload::payload::laws::in_range;
use rtr_payload::payload::{Payload, RouteOrigin};
use std::alloc::Global;

/// The payloads of items.
#[derive(Drop)]
pub struct Gathered {
    /// The payloads, each once.
    pub payloads: Data,
    /// The number of payloads left out because the version lacks them.
    pub left_out: usize,
}

/// The items that stay at the requested time.
#[derive(Drop)]
pub struct Left<'a> {
    /// How many of them have expired, and when the next one does, if a time is given.
    pub expired: Option<Expired>,
    /// The payloads of the other items, or the first refused item.
    pub gathered: Result<Gathered, Refusal<'a>>,
}

/// A gathering of items, one after the other. It keeps their payloads, each once, but not the
/// items.
#[derive(Drop)]
pub struct Gathering<'a> {
    /// The version of the protocol.
    version: u8,
    /// Whether payloads that the version lacks are left out.
    leaves_out: bool,
    /// The state of checking expiry.
    times: Times<'a>,
    /// The payloads of the items that stay.
    payloads: Data,
    /// The first of these items that is refused.
    refused: Option<Refusal<'a>>,
    /// The filters and assertions of SLURM files.
    slurm: Option<&'a Slurm>,
}

impl<'a> Gathering<'a> {
    /// Gathers items for this version. If a time is given, items that have expired at it are left
    /// out.
    pub fn new(alloc: Global, version: u8, leaves_out: bool, asked: Option<u64>) -> Gathering<'a>
        ensures settings { IsFor version leaves_out asked result }
        ensures none { HasTaken [] result }
        ensures unfiltered { result.slurm ≡ None }
    {
        Gathering {
            version,
            leaves_out,
            times: Times::new(asked),
            payloads: Data::new(alloc),
            refused: None,
            slurm: None,
        }
    }

    /// Gathers items as `new` does, except those whose payloads the filters of these SLURM files
    /// remove. `take_assertions` adds the payloads that the files assert.
    pub fn with_slurm(
        alloc: Global,
        version: u8,
        leaves_out: bool,
        asked: Option<u64>,
        slurm: &'a Slurm,
    ) -> Gathering<'a>
        ensures settings { IsFor version leaves_out asked result }
        ensures none { HasTaken [] result }
        ensures filtered { entries_asked result.slurm ≡ slurm.now.entries.items }
    {
        Gathering {
            version,
            leaves_out,
            times: Times::new(asked),
            payloads: Data::new(alloc),
            refused: None,
            slurm: if_any(slurm),
        }
    }

    /// Takes one more item, unless a filter removes it. `finish` returns whether one was refused.
    /// Fails only with `Memory`.
    #[inline(always)]
    pub fn take(&mut self, item: Item<'a>) -> Result<(), Reason>
        ensures { MatchResult result (λ _. TakesItems (item.entry ∷ []) self.old self.new)
            (λ r. r ≡ Reason.Memory) }
    {
        if removes(self.slurm, &item.payload) {
            return Ok(());
        }
        self.keep(item)
    }

    /// Takes the payloads that the SLURM files assert; filters don't apply to them, and they never
    /// expire. Fails only with `Memory`.
    pub fn take_assertions(&mut self) -> Result<(), Reason>
        ensures { MatchResult result
            (λ _. AddsAsserted (assertions_of (entries_asked self.old.slurm)) self.old self.new)
            (λ r. r ≡ Reason.Memory) }
    {
        match self.slurm {
            Some(slurm) => take_entries(self, slurm.entries.as_slice()),
            None => Ok(()),
        }
    }

    /// Takes the payload that an entry asserts, if it is an assertion.
    fn take_entry(&mut self, entry: &Entry) -> Result<(), Reason>
        ensures { MatchResult result
            (λ _. AddsAsserted (assertions_of (entry.now ∷ [])) self.old self.new)
            (λ r. r ≡ Reason.Memory) }
    {
        match entry {
            Entry::Assertion(payload) => self.take_asserted(payload),
            _ => Ok(()),
        }
    }

    fn take_asserted(&mut self, payload: &Payload) -> Result<(), Reason>
        ensures { MatchResult result (λ _. AddsAsserted (payload.now ∷ []) self.old self.new)
            (λ r. r ≡ Reason.Memory) }
    {
        match payload.clone() {
            Ok(payload) => self.keep(Item {
                place: Place::Array("SLURM assertions"),
                payload,
                expiry: Expiry::Never,
            }),
            Err(_) => Err(Reason::Memory),
        }
    }

    /// Takes one more item, without applying filters.
    #[inline(always)]
    fn keep(&mut self, item: Item<'a>) -> Result<(), Reason>
        ensures { MatchResult result (λ _. KeepsItems (item.entry ∷ []) self.old self.new)
            (λ r. r ≡ Reason.Memory) }
    {
        match self.times.look(&item) {
            Ok(true) => self.gather(item),
            Ok(false) => Ok(()),
            Err(reason) => Err(reason),
        }
    }

    /// Gathers the payload of an item that stays, unless one was refused before.
    fn gather(&mut self, item: Item<'a>) -> Result<(), Reason>
        ensures { MatchResult result (λ _. GathersOne item.entry self.old self.new)
            (λ r. r ≡ Reason.Memory) }
    {
        if self.refused.is_some() {
            return Ok(());
        }
        let place = item.place;
        if let Err(reason) = add(
            self.version,
            self.leaves_out,
            &mut self.payloads,
            item.payload,
        ) {
            if is_memory(&reason) {
                return Err(Reason::Memory);
            }
            self.refused = Some(Refusal { place, reason });
        }
        Ok(())
    }

    /// Returns the items that stay. The first item whose expiry has no meaning is refused, with
    /// `Time` or `Twice`, if a time is given.
    ///
    /// A repeated payload is ignored. A payload that the version lacks is refused, unless such
    /// payloads are left out, and then counted. The first refused item decides, with the reason
    /// `Version`, `OtherProviders`, or `Change` with `KeyTooLong` or `NoProviders`, whether the
    /// version has it or not.
    pub fn finish(self) -> Result<Left<'a>, Refusal<'a>>
        ensures { EndsTaking self.entry result }
    {
        match self.times.answer() {
            Ok(expired) => Ok(Left {
                expired,
                gathered: all_gathered(self.version, self.payloads, self.refused),
            }),
            Err(refusal) => Err(refusal),
        }
    }
}

/// The SLURM files, or none if they have no entries, so that no item is compared with them.
fn if_any(slurm: &Slurm) -> Option<&Slurm>
    ensures { entries_asked result ≡ slurm.now.entries.items }
{
    if slurm.entries.is_empty() {
        return None;
    }
    Some(slurm)
}

/// Reports whether a filter of the SLURM files removes the payload.
fn removes(slurm: Option<&Slurm>, payload: &Payload) -> bool
    ensures { result ≡ removes (entries_asked slurm.entry) (payload_of payload.now) }
{
    match slurm {
        Some(slurm) => slurm.removes(payload),
        None => false,
    }
}

/// Takes the payloads that the entries assert.
fn take_entries(gathering: &mut Gathering<'_>, entries: &[Entry]) -> Result<(), Reason>
    ensures { MatchResult result
        (λ _. AddsAsserted (assertions_of entries.now) gathering.old gathering.new)
        (λ r. r ≡ Reason.Memory) }
{
    for entry in entries {
        match gathering.take_entry(entry) {
            Ok(()) => {}
            Err(reason) => return Err(reason),
        }
    }
    Ok(())
}

/// The payloads that were gathered for this version, unless an item was refused.
fn all_gathered<'a>(
    version: u8,
    payloads: Data,
    refused: Option<Refusal<'a>>,
) -> Result<Gathered, Refusal<'a>>
    ensures { EndsGathering version payloads refused.entry result }
{
    match refused {
        Some(refusal) => Err(refusal),
        None => {
            let left_out = count_lacking(version, &payloads);
            Ok(Gathered { payloads, left_out })
        }
    }
}

/// The number of payloads that the version lacks; it saturates at 2^64 - 1.
fn count_lacking(version: u8, payloads: &Data) -> usize
    ensures count { result ≡ min (length (lacked version payloads.now)) (2 ^ 64 - 1) }
    ensures fit { AreFit payloads.now }
{
    let (_, keys, aspas) = payloads.parts();
    let keys = if_counted(version < 1, keys.len());
    keys.saturating_add(if_counted(version < 2, aspas.len()))
}

/// Whether the version has none of the payloads.
pub fn has_none(version: u8, payloads: &Data) -> bool
    ensures { result ≡ nat_eq (length (data_for version payloads.now)) 0 }
{
    let (origins, keys, aspas) = payloads.parts();
    are_zero(
        origins.len(),
        if_counted(version >= 1, keys.len()),
        if_counted(version >= 2, aspas.len()),
    )
}

/// The count if `counts`, otherwise 0.
fn if_counted(counts: bool, count: usize) -> usize
    ensures { result ≡ (if counts then count else 0) }
{
    if counts { count } else { 0 }
}

fn are_zero(first: usize, second: usize, third: usize) -> bool
    ensures { result ≡ nat_eq (first + (second + third)) 0 }
{
    first == 0 && second == 0 && third == 0
}

/// Whether the version has no such payload.
fn lacks(version: u8, payload: &Payload) -> bool
    ensures { result ≡ is_lacking version (payload_of payload.now) }
{
    match payload {
        Payload::Origin(_) => false,
        Payload::RouterKey(_) => version < 1,
        Payload::Aspa(_) => version < 2,
    }
}

/// Adds a payload, unless it is present.
fn add(version: u8, leaves_out: bool, payloads: &mut Data, payload: Payload) -> Result<(), Reason>
    ensures adds { AddsPayload version leaves_out (payload_of payload) result
        payloads.old payloads.new }
    ensures range { IsInRange (payload_of payload) }
{
    in_range(&payload.as_ref());
    has_bytes(&payload);
    if !leaves_out && lacks(version, &payload) {
        return Err(Reason::Version(version));
    }
    if let Payload::Origin(origin) = &payload {
        return add_origin(version, leaves_out, *origin, payloads);
    }
    if payloads.contains(&payload.as_ref()) {
        return Ok(());
    }
    if payloads.contains_name(&payload.as_ref()) {
        return Err(Reason::OtherProviders);
    }
    match payloads.announce(payload) {
        Ok(()) => Ok(()),
        Err(ChangeError::Memory) => Err(Reason::Memory),
        Err(error) => Err(Reason::Change(error)),
    }
}

/// Whether memory ran out.
fn is_memory(reason: &Reason) -> bool
    ensures { result ≡ is_memory reason.now }
{
    match reason {
        Reason::Memory => true,
        _ => false,
    }
}

/// Adds an origin, unless it is present. No other payload has its name, so one search suffices.
fn add_origin(
    _version: u8,
    _leaves_out: bool,
    origin: RouteOrigin,
    payloads: &mut Data,
) -> Result<(), Reason>
    ensures { AddsPayload _version _leaves_out (origin_of origin) result payloads.old payloads.new }
{
    match payloads.announce(Payload::Origin(origin)) {
        Ok(()) => Ok(()),
        Err(ChangeError::Duplicate) => Ok(()),
        Err(_) => Err(Reason::Memory),
    }
}

/// The bytes of a payload are bytes. It has no effect.
fn has_bytes(payload: &Payload)
    ensures { HasBytes (payload_of payload.now) }
{
    match payload {
        Payload::Origin(_) | Payload::Aspa(_) => {}
        Payload::RouterKey(key) => {
            are_bytes(key.key_identifier.as_slice());
            are_bytes(key.key_info.as_slice());
        }
    }
}

fn are_bytes(bytes: &[u8]) -> &[u8]
    ensures same { result.now ≡ bytes.now }
    ensures range { IsBytes result.now }
{
    bytes
}

//! Checks units against the protocol's rules, one after the other.

ghost use Rattle.std.specs.Prelude.{◌≡◌, ◌++◌, ◌&&◌, List, [], IfOk, OnOk, Some, None, true, false};
ghost use Rattle.std.specs.Prelude.{MatchResult};
ghost use Rattle.std.specs.Option.{option_map};
ghost use Rattle.rtr_base.specs.declared.action.Action.TheVariants.{Announce};
ghost use Rattle.rtr_payload.specs.KeyUnits.{key_at};
ghost use Rattle.rtr_payload.specs.AspaUnits.{aspa_at};
ghost use Rattle.rtr_payload.specs.Meanings.{origin_of, payload_of, payload_of_ref};
ghost use Rattle.rtr_payload.specs.Payloads.{aspa as aspa_meant, key as key_meant};
ghost use Rattle.rtr_payload.specs.UnitBytes.{unit_bytes, unit_fields};
ghost use Rattle.rtr_payload.specs.UnitFields.{HasFields};
ghost use Rattle.unit_any.specs.AnyFields.{AnyFields, HasAnyFields, payload as payload_fields};
ghost use Rattle.unit_any.specs.AnyUnits.{any_bytes, any_fields};
ghost use Rattle.data_memory.specs.Contents.{IsFit};
ghost use Rattle.data_memory.specs.Data.{has_name, takes_place};
ghost use Rattle.text_findings.specs.CheckedUnits.{found_in, found_list};
ghost use Rattle.text_findings.specs.Rules.{end_findings};
ghost use Rattle.text_findings.specs.SequenceSoFar.{is_announce};
ghost use Rattle.list_lines.specs.PrivateFollowing.{Finds, HasSeen, KeepsNames, Names};
ghost use Rattle.list_lines.specs.PrivateFollowing.{payload_in};

use crate::listed::listed;
use data_memory::{ChangeError, Data};
use rtr_base::action::Action;
use rtr_base::addr::MaxLenPrefix;
use rtr_base::asn::Asn;
use rtr_payload::payload::{self, PayloadRef};
use rtr_payload::pdu::prefix_rule::{PrefixRule, ipv4_prefix, ipv6_prefix};
use rtr_payload::pdu::{Aspa, Payload, RouterKey};
use std::alloc::{AllocError, Global};
use text_findings::{Finding, SequenceState};
use unit_any::AnyUnit;

/// The state of the sequence that is read.
///
/// A sequence extends from a cache response, or from the beginning of the input, to an end of data
/// (RFC 8210 section 8).
#[derive(Drop)]
pub struct Checker {
    alloc: Global,
    /// The state without the payloads.
    state: SequenceState,
    /// The payloads that are announced in the sequence and not withdrawn after that.
    announced: Data,
}

impl Checker {
    /// A checker that has seen no unit.
    pub fn new(alloc: Global) -> Checker
        ensures { HasSeen result [] }
    {
        Checker {
            alloc,
            state: SequenceState::new(),
            announced: Data::new(alloc),
        }
    }

    /// Replaces the former findings by those of the next unit, as
    /// `text_findings::SequenceState::check`.
    ///
    /// If memory runs out the checker may have processed a part of the unit.
    pub fn check(&mut self, unit: &AnyUnit, found: &mut Vec<Finding>) -> Result<(), AllocError>
        // As of each unit that is read: `Data` holds nothing else.
        requires { HasAnyFields (any_bytes unit.now) (any_fields unit.now) }
        ensures { OnOk result (Finds self.old (any_fields unit.now) self.new found.new.items) }
    {
        found.clear();
        let was_there = self.keep(unit)?;
        let listed = listed(unit);
        let broken = self.state.check(&listed, was_there);
        self.state = self.state.after(&listed);
        put_each(&broken.slots, found)
    }

    /// Replaces the former findings by the finding of an input that ends here.
    pub fn finish(&self, found: &mut Vec<Finding>) -> Result<(), AllocError>
        ensures { OnOk result ((history : List AnyFields) → HasSeen self.now history →
            found.new.items ≡ end_findings history) }
    {
        found.clear();
        put(self.state.missing(), found)
    }

    /// Keeps the payload that the unit announces, and drops the one that it withdraws, or all if a
    /// sequence begins with it. Reports whether the payload that it names was present.
    fn keep(&mut self, unit: &AnyUnit) -> Result<bool, AllocError>
        requires { HasAnyFields (any_bytes unit.now) (any_fields unit.now) }
        ensures state { self.new.state ≡ self.old.state }
        ensures keeps { IfOk result (λ there.
            KeepsNames self.old.announced (any_fields unit.now) there self.new.announced) }
    {
        match unit {
            AnyUnit::CacheResponse(_) | AnyUnit::EndOfData(_) => {
                self.announced = Data::new(self.alloc);
                Ok(false)
            }
            AnyUnit::Payload(unit) => self.keep_payload(unit),
            AnyUnit::SerialNotify(_)
            | AnyUnit::SerialQuery(_)
            | AnyUnit::ResetQuery(_)
            | AnyUnit::CacheReset(_)
            | AnyUnit::Error(_) => Ok(false),
        }
    }

    fn keep_payload(&mut self, unit: &Payload) -> Result<bool, AllocError>
        requires { HasFields (unit_bytes unit.now) (unit_fields unit.now) }
        ensures state { self.new.state ≡ self.old.state }
        ensures keeps { IfOk result (λ there. KeepsNames self.old.announced
            (payload_fields (unit_fields unit.now)) there self.new.announced) }
    {
        match named(unit)? {
            Some(payload) => self.count(unit.action(), payload),
            None => Ok(false),
        }
    }

    /// Keeps a payload that is announced, and drops one that is withdrawn. Reports whether a
    /// payload of its name was present.
    fn count(&mut self, action: Action, payload: payload::Payload) -> Result<bool, AllocError>
        requires { action ≡ Announce → IsFit (payload_of payload) }
        ensures state { self.new.state ≡ self.old.state }
        ensures there { IfOk result (λ there.
            there ≡ has_name self.old.announced (payload_of payload)) }
        ensures announced { OnOk result (Names self.old.announced self.new.announced
            (payload_of payload) (is_announce action)) }
    {
        match action {
            Action::Announce => announce(&mut self.announced, payload),
            Action::Withdraw => Ok(withdraw(&mut self.announced, &payload.as_ref())),
        }
    }
}

/// Adds the finding, if there is one.
fn put(finding: Option<Finding>, found: &mut Vec<Finding>) -> Result<(), AllocError>
    ensures { OnOk result (found.new.items ≡ found.old.items ++ found_in finding) }
{
    match finding {
        Some(finding) => {
            found.push(finding)?;
            Ok(())
        }
        None => Ok(()),
    }
}

/// Adds the findings.
fn put_each(slots: &[Option<Finding>], found: &mut Vec<Finding>) -> Result<(), AllocError>
    ensures { OnOk result (found.new.items ≡ found.old.items ++ found_list slots.now) }
{
    let mut left = slots;
    'each: while let Some((slot, rest)) = left.split_first() {
        put(*slot, found)?;
        left = rest;
    }
    Ok(())
}

/// The payload that the unit is about, if it names one.
fn named(unit: &Payload) -> Result<Option<payload::Payload>, AllocError>
    ensures { IfOk result (λ o. option_map payload_of o ≡ payload_in (unit_fields unit.now)) }
{
    match unit {
        Payload::V4(unit) => {
            let made = ipv4_prefix(unit.prefix_bits(), unit.prefix_len(), unit.max_len());
            Ok(origin(made, unit.asn()))
        }
        Payload::V6(unit) => {
            let made = ipv6_prefix(unit.prefix_bits(), unit.prefix_len(), unit.max_len());
            Ok(origin(made, unit.asn()))
        }
        Payload::RouterKey(key) => Ok(Some(router_key(key)?)),
        Payload::Aspa(aspa) => Ok(Some(aspa_of(aspa)?)),
    }
}

/// The origin of the prefix, if the lengths of its unit are valid.
fn origin(made: Result<MaxLenPrefix, PrefixRule>, asn: Asn) -> Option<payload::Payload>
    ensures { MatchResult made
        (λ p. option_map payload_of result ≡ Some (origin_of (record { prefix = p; asn = asn })))
        (λ _. result ≡ None) }
{
    match made {
        Ok(prefix) => Some(payload::Payload::origin(prefix, asn)),
        Err(_) => None,
    }
}

fn router_key(unit: &RouterKey) -> Result<payload::Payload, AllocError>
    ensures { IfOk result (λ p. payload_of p ≡ key_meant (key_at unit.now).key) }
{
    let info = unit.key_info().clone()?;
    Ok(payload::Payload::router_key(unit.key_identifier().into(), unit.asn(), info))
}

fn aspa_of(unit: &Aspa) -> Result<payload::Payload, AllocError>
    ensures { IfOk result (λ p. payload_of p ≡ aspa_meant (aspa_at unit.now).aspa) }
{
    Ok(payload::Payload::aspa(unit.customer(), unit.providers().clone()?))
}

/// Announces a payload that a reader accepts, and reports whether one of its name was present: for
/// an ASPA, one of its customer.
fn announce(announced: &mut Data, payload: payload::Payload) -> Result<bool, AllocError>
    requires { IsFit (payload_of payload) }
    ensures there { IfOk result (λ b. b ≡ has_name announced.old (payload_of payload)) }
    ensures names { OnOk result (Names announced.old announced.new (payload_of payload) true) }
{
    let is_replaced = will_replace(announced, &payload.as_ref());
    match announced.announce(payload) {
        Ok(()) => Ok(is_replaced),
        Err(ChangeError::Duplicate) => Ok(true),
        Err(ChangeError::Memory) => Err(AllocError),
        Err(ChangeError::Unknown | ChangeError::KeyTooLong | ChangeError::NoProviders) => {
            unreachable!()
        }
    }
}

#[tactic(auto, unfolding(data_memory::specs::Data::takes_place))]
/// Reports whether the payload replaces another one, as only an ASPA does.
fn will_replace(announced: &Data, payload: &PayloadRef<'_>) -> bool
    ensures { result ≡ (takes_place (payload_of_ref payload.now) &&
        has_name announced.now (payload_of_ref payload.now)) }
{
    match payload {
        PayloadRef::Origin(_) | PayloadRef::RouterKey(_) => false,
        PayloadRef::Aspa(_) => announced.contains_name(payload),
    }
}

/// Withdraws a payload, if one of its name is present, and reports whether one was.
fn withdraw(announced: &mut Data, payload: &PayloadRef<'_>) -> bool
    ensures there { result ≡ has_name announced.old (payload_of_ref payload.now) }
    ensures names { Names announced.old announced.new (payload_of_ref payload.now) false }
{
    // Called for its clause: the payloads are in order.
    let _parts = announced.parts();
    let was_there = announced.contains_name(payload);
    match announced.withdraw(payload) {
        Ok(()) => {}
        // It was not announced, which breaks no rule that is looked for.
        Err(_) => {}
    }
    was_there
}

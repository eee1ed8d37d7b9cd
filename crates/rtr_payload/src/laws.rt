//! Laws of payload units.

ghost use Rattle.std.specs.Prelude.{◌≡◌, ◌++◌, ◌↔◌, ◌<◌, ◌^◌, ◌⊎◌, ℕ, List, None, IsSome};
ghost use Rattle.rtr_base.specs.Bytes.{IsBytes, words};
ghost use Rattle.rtr_payload.specs.FaultSteps.{BeginsShape, frame_fault, rule_of};
ghost use Rattle.rtr_payload.specs.FirstFault.{BeginsUnit, BeginsEnd, first_fault};
ghost use Rattle.std.specs.Cmp.{IsTotalOrder};
ghost use Rattle.std.specs.List.{AllByRecursion};
ghost use Rattle.std.specs.declared.cmp.Ordering.TheVariants.{Equal};
ghost use Rattle.rtr_payload.specs.Orders.{list_cmp, payload_cmp};
ghost use Rattle.rtr_payload.specs.Payloads.{Payload, IsPayload, Meaning};
ghost use Rattle.rtr_base.specs.Actions.{act};
ghost use Rattle.rtr_base.specs.declared.action.Action.{Action};
ghost use Rattle.rtr_units.specs.StopCauses.{Cause, no_memory};
ghost use Rattle.rtr_units.specs.Header.{version_field};
ghost use Rattle.rtr_units.specs.Reading.{AsksAfter};
ghost use Rattle.rtr_payload.specs.FirstFault.{MayAskMemory};
ghost use Rattle.rtr_payload.specs.UnitKinds.{payload_unit};
ghost use Rattle.rtr_payload.specs.UnitBytes.{IsWritten, unit_bytes, flags_in, MeansPayload};
ghost use Rattle.rtr_payload.specs.UnitBytes.{HasNoPayload, IsPrefixUnit};
ghost use Rattle.rtr_payload.specs.Meanings.{payload_of};
ghost use Rattle.rtr_payload.specs.declared.payload.Payload.{Payload as Value};
ghost use Rattle.rtr_payload.specs.declared.pdu.payload.Payload.{Payload as Unit};
ghost use Rattle.rtr_payload.specs.UnitFields.{Fields, fields_like, LengthsAgree, HasMeaning};
ghost use Rattle.rtr_payload.specs.UnitFields.{unit_list, meaning, written_fields, stripped};
ghost use Rattle.rtr_payload.specs.Units.{IsUnit, form, form_of};

use crate::pdu::{Aspa, ProviderAsns, RouterKey};
use rtr_units::header::MAX_SIZE;

/// The types of the units, and the limits on their sizes: the bytes of a unit that is read, and the
/// providers of an ASPA. `pdu::RouterKey::max_key_info_size` returns the limit of key info. Returns
/// the types of router keys and of ASPA units.
pub fn types_and_limits() -> (u8, u8)
    ensures router_key { result.0 ≡ 9 }
    ensures aspa { result.1 ≡ 11 }
    ensures providers { ProviderAsns.MAX_COUNT ≡ 16380 }
    ensures size { MAX_SIZE ≡ 65535 }
{
    (RouterKey::PDU, Aspa::PDU)
}

/// Returns the size in bytes of the fixed part of a router key (RFC 8210 section 5.10) and of an
/// ASPA unit (as in the Rust crate `rpki`).
pub fn fixed_sizes() -> (usize, usize)
    ensures router_key { result.0 ≡ 32 }
    ensures aspa { result.1 ≡ 12 }
{
    (RouterKey::FIXED, Aspa::FIXED)
}

/// With the same version and the same flags, two payloads have the same form if and only if they
/// are equal.
pub fn payload_forms()
    ensures exact { (v f : ℕ) (p q : Payload) → IsPayload p → IsPayload q →
        (form v f p ≡ form v f q) ↔ (p ≡ q) }
    ensures places { (v f : ℕ) (p : Payload) → IsPayload p →
        fields_like (written_fields v f p) (form v f p) ≡ written_fields v f p }
    ensures fields { (v f : ℕ) (p : Payload) → IsPayload p →
        meaning (written_fields v f p) ≡
        record { version = v; action = act f; payload = stripped (act f) p } }
{}

/// `pdu::Payload::new` makes a unit with the given flags, and `to_payload` returns the version, the
/// action of the flags and the payload, without the providers of an ASPA with even flags. None of
/// these units is refused, and only a key or an ASPA needs memory.
pub fn made_and_read()
    ensures flags { (v f : ℕ) (p : Payload) (u : Unit) → IsWritten v f p u → flags_in u ≡ f }
    ensures means { (v f : ℕ) (p : Payload) (u : Unit) (a : Action) (q : Value) →
        IsPayload p → IsWritten v f p u → MeansPayload u a q →
        (version_field (unit_bytes u) ≡ v) × (a ≡ act f) × (payload_of q ≡ stripped (act f) p) }
    ensures kept { (v f : ℕ) (p : Payload) (u : Unit) (c : Cause) →
        IsPayload p → IsWritten v f p u → HasNoPayload u c →
        (c ≡ no_memory) × (IsPrefixUnit u → ⊥) }
{}

/// A unit of one kind is the same as a unit given by its fields, and a form is the list of the
/// written fields.
pub fn units_by_fields()
    ensures units { (b : List ℕ) (m : Meaning) → IsUnit b m ↔ HasMeaning b m }
    ensures forms { (v f : ℕ) (p : Payload) → form v f p ≡ unit_list (written_fields v f p) }
{}

/// No unit is a proper prefix of another, and one list has one meaning.
pub fn unit_self_delimiting()
    ensures units { (a b r s : List ℕ) (m n : Meaning) → IsUnit a m → IsUnit b n → a ++ r ≡ b ++ s →
        (a ≡ b) × (m ≡ n) × (r ≡ s) }
    ensures forms { (m n : Meaning) (r s : List ℕ) → IsPayload m.payload → IsPayload n.payload →
        form_of m ++ r ≡ form_of n ++ s → (m ≡ n) × (r ≡ s) }
{}

/// For each list of bytes exactly one of three holds: it begins with a unit, it begins with an end
/// of data, or a step names a fault.
pub fn exactly_one()
    ensures one { (r : List ℕ) → IsBytes r → BeginsUnit r ⊎ (BeginsEnd r ⊎ IsSome (first_fault r)) }
    ensures frame { (r : List ℕ) → IsBytes r → frame_fault r ≡ None → BeginsShape r ⊎ BeginsEnd r }
    ensures unit { (r : List ℕ) → BeginsUnit r → first_fault r ≡ None }
    ensures end { (r : List ℕ) → BeginsEnd r → first_fault r ≡ None }
    ensures apart { (r : List ℕ) → BeginsUnit r → BeginsEnd r → ⊥ }
{}

/// Where reading a payload unit may ask for memory, by what was read.
pub fn memory_places()
    ensures { (h : List ℕ) → AsksAfter payload_unit h ↔ MayAskMemory h }
{}

/// The computed check of the lengths of a prefix agrees with the stated rule, and names the part of
/// it that is broken.
pub fn prefix_lengths()
    ensures { (u : Fields) → (rule_of u ≡ None) ↔ LengthsAgree u }
{}

/// The order of payloads is total, and payloads that compare as equal are the same payload.
pub fn payload_order()
    ensures total { IsTotalOrder payload_cmp }
    ensures exact { (p q : Payload) → (payload_cmp p q ≡ Equal) ↔ (p ≡ q) }
{}

/// Comparing the bytes of providers orders them as their lists of numbers: the first different
/// number decides, and a proper prefix is less.
pub fn provider_order()
    ensures { (ps qs : List ℕ) → AllByRecursion (λ p. p < 2 ^ 32) ps →
        AllByRecursion (λ q. q < 2 ^ 32) qs →
        list_cmp (words ps) (words qs) ≡ list_cmp ps qs }
{}

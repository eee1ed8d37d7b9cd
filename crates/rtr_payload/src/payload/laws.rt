//! Laws of the values of this module: when they are equal, and the ranges of their parts.

ghost use Rattle.std.specs.Prelude.{◌≡◌, ◌↔◌, IsTrue};
ghost use Rattle.rtr_payload.specs.Payloads.{IsPayload};
ghost use Rattle.rtr_payload.specs.Meanings.{aspa_of, key_of, origin_of, payload_of};
ghost use Rattle.rtr_payload.specs.Meanings.{payload_of_ref};
ghost use Rattle.rtr_payload.specs.declared.payload.Aspa.{Aspa};
ghost use Rattle.rtr_payload.specs.declared.payload.Payload.{Payload};
ghost use Rattle.rtr_payload.specs.declared.payload.PayloadRef.{PayloadRef};
ghost use Rattle.rtr_payload.specs.declared.payload.RouteOrigin.{RouteOrigin};
ghost use Rattle.rtr_payload.specs.declared.payload.RouterKey.{RouterKey};

use super::{Aspa, Payload, PayloadRef, RouteOrigin, RouterKey};

#[tactic(auto, using(crate::proofs::Orders::payload_decides))]
/// Values are equal if and only if they mean the same payload.
pub fn equal_values()
    ensures origins { (a b : RouteOrigin) → IsTrue (⟦<RouteOrigin as PartialEq>⟧.eq a b) ↔
        (origin_of a ≡ origin_of b) }
    ensures keys { (a b : RouterKey) → IsTrue (⟦<RouterKey as PartialEq>⟧.eq a b) ↔
        (key_of a ≡ key_of b) }
    ensures aspas { (a b : Aspa) → IsTrue (⟦<Aspa as PartialEq>⟧.eq a b) ↔ (aspa_of a ≡ aspa_of b) }
    ensures payloads { (a b : Payload) → IsTrue (⟦<Payload as PartialEq>⟧.eq a b) ↔
        (payload_of a ≡ payload_of b) }
    ensures lent { (a b : PayloadRef) → IsTrue (⟦<PayloadRef<'static> as PartialEq>⟧.eq a b) ↔
        (payload_of_ref a ≡ payload_of_ref b) }
{}

/// The parts of a payload are in the ranges that the type of each part ensures.
pub fn in_range(payload: &PayloadRef<'_>)
    ensures { IsPayload (payload_of_ref payload.now) }
{
    match payload {
        PayloadRef::Origin(origin) => {
            origin.prefix.prefix();
            origin.asn.into_u32();
        }
        PayloadRef::RouterKey(key) => {
            <[u8; 20]>::from(key.key_identifier);
            key.asn.into_u32();
            key.key_info.len();
        }
        PayloadRef::Aspa(aspa) => {
            aspa.customer.into_u32();
            aspa.providers.asn_count();
        }
    }
}

//! The payloads of a recording, as items that are gathered.

ghost use Rattle.std.specs.Prelude.{◌≡◌, ◌∷◌, [], MatchResult, map};
ghost use Rattle.rtr_payload.specs.Meanings.{key_of, origin_of, payload_of};
ghost use Rattle.data_memory.specs.Contents.{entry_of};
ghost use Rattle.validate_work.specs.PrivateFiles.{TakesPayloads};

use data_memory::{Data, KeptOrigin};
use make_work::{Expiry, Gathering, Item, Place, Reason};
use rtr_base::asn::Asn;
use rtr_payload::payload::{Payload, RouterKey};
use rtr_payload::pdu::ProviderAsns;
use std::collections::{btree_map, btree_set};

/// Takes all payloads, none of which expires. Fails only with `Memory`.
pub(crate) fn take_payloads(payloads: &Data, gathering: &mut Gathering<'_>) -> Result<(), Reason>
    ensures { MatchResult result (λ _. TakesPayloads payloads.now gathering.old gathering.new)
        (λ why. why ≡ Reason.Memory) }
{
    let (origins, keys, aspas) = payloads.parts();
    match take_origins(origins, gathering) {
        Ok(()) => {}
        Err(reason) => return Err(reason),
    }
    match take_keys(keys, gathering) {
        Ok(()) => {}
        Err(reason) => return Err(reason),
    }
    take_aspas(aspas, gathering)
}

fn take_origins(
    origins: btree_set::Iter<'_, KeptOrigin>,
    gathering: &mut Gathering<'_>,
) -> Result<(), Reason>
    ensures { MatchResult result
        (λ _. TakesPayloads (map origin_of origins.entry) gathering.old gathering.new)
        (λ why. why ≡ Reason.Memory) }
{
    for origin in origins {
        match take_payload(Payload::Origin(origin.get()), gathering) {
            Ok(()) => {}
            Err(reason) => return Err(reason),
        }
    }
    Ok(())
}

fn take_keys(
    keys: btree_set::Iter<'_, RouterKey>,
    gathering: &mut Gathering<'_>,
) -> Result<(), Reason>
    ensures { MatchResult result
        (λ _. TakesPayloads (map key_of keys.entry) gathering.old gathering.new)
        (λ why. why ≡ Reason.Memory) }
{
    for key in keys {
        match take_key(key, gathering) {
            Ok(()) => {}
            Err(reason) => return Err(reason),
        }
    }
    Ok(())
}

fn take_key(key: &RouterKey, gathering: &mut Gathering<'_>) -> Result<(), Reason>
    ensures { MatchResult result
        (λ _. TakesPayloads (key_of key.now ∷ []) gathering.old gathering.new)
        (λ why. why ≡ Reason.Memory) }
{
    match key.clone() {
        Ok(key) => take_payload(Payload::RouterKey(key), gathering),
        Err(_) => Err(Reason::Memory),
    }
}

fn take_aspas(
    aspas: btree_map::Iter<'_, Asn, ProviderAsns>,
    gathering: &mut Gathering<'_>,
) -> Result<(), Reason>
    ensures { MatchResult result
        (λ _. TakesPayloads (map entry_of aspas.entry) gathering.old gathering.new)
        (λ why. why ≡ Reason.Memory) }
{
    for (customer, providers) in aspas {
        match take_aspa(*customer, providers, gathering) {
            Ok(()) => {}
            Err(reason) => return Err(reason),
        }
    }
    Ok(())
}

fn take_aspa(
    customer: Asn,
    providers: &ProviderAsns,
    gathering: &mut Gathering<'_>,
) -> Result<(), Reason>
    ensures { MatchResult result
        (λ _. TakesPayloads (entry_of (customer, providers.now) ∷ [])
        gathering.old gathering.new)
        (λ why. why ≡ Reason.Memory) }
{
    match providers.clone() {
        Ok(providers) => take_payload(Payload::aspa(customer, providers), gathering),
        Err(_) => Err(Reason::Memory),
    }
}

fn take_payload(payload: Payload, gathering: &mut Gathering<'_>) -> Result<(), Reason>
    ensures { MatchResult result
        (λ _. TakesPayloads (payload_of payload ∷ []) gathering.old gathering.new)
        (λ why. why ≡ Reason.Memory) }
{
    gathering.take(Item {
        place: Place::Input,
        payload,
        expiry: Expiry::Never,
    })
}

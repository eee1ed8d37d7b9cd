//! The payloads of data are in the ranges that the types of their parts ensure.

ghost use Rattle.std.specs.Prelude.{◌≡◌, map};
ghost use Rattle.std.specs.List.{AllByRecursion};
ghost use Rattle.rtr_base.specs.Bytes.{IsBytes};
ghost use Rattle.rtr_payload.specs.Meanings.{key_of, origin_of};
ghost use Rattle.data_memory.specs.Contents.{entry_of};
ghost use Rattle.data_memory.specs.Data.{IsData};
ghost use Rattle.data_memory.specs.Sequences.{IsInRange, IsSendable};

use data_memory::{Data, KeptOrigin};
use rtr_base::asn::Asn;
use rtr_payload::payload::{RouteOrigin, RouterKey};
use rtr_payload::pdu::ProviderAsns;
use std::collections::{btree_map, btree_set};

/// Each payload is one that a unit can announce, and they are in order. It has no effect.
pub(crate) fn are_sendable(payloads: &Data)
    ensures sendable { AllByRecursion IsSendable payloads.now }
    ensures ordered { IsData payloads.now }
{
    let (origins, keys, aspas) = payloads.parts();
    origins_in_range(origins);
    keys_in_range(keys);
    aspas_in_range(aspas);
}

fn origins_in_range(origins: btree_set::Iter<'_, KeptOrigin>)
    ensures { AllByRecursion IsInRange (map origin_of origins.entry) }
{
    for origin in origins {
        origin_in_range(&origin.get());
    }
}

fn keys_in_range(keys: btree_set::Iter<'_, RouterKey>)
    ensures { AllByRecursion IsInRange (map key_of keys.entry) }
{
    for key in keys {
        key_in_range(key);
    }
}

fn aspas_in_range(aspas: btree_map::Iter<'_, Asn, ProviderAsns>)
    ensures { AllByRecursion IsInRange (map entry_of aspas.entry) }
{
    for (customer, providers) in aspas {
        aspa_in_range(*customer, providers);
    }
}

fn origin_in_range(origin: &RouteOrigin)
    ensures { IsInRange (origin_of origin.now) }
{
    origin.prefix.prefix();
    origin.asn.into_u32();
}

fn key_in_range(key: &RouterKey)
    ensures { IsInRange (key_of key.now) }
{
    <[u8; 20]>::from(key.key_identifier);
    key.asn.into_u32();
    key.key_info.len();
    are_bytes(key.key_identifier.as_slice());
    are_bytes(key.key_info.as_slice());
}

fn aspa_in_range(customer: Asn, providers: &ProviderAsns)
    ensures { IsInRange (entry_of (customer, providers.now)) }
{
    customer.into_u32();
    providers.asn_count();
}

fn are_bytes(bytes: &[u8]) -> &[u8]
    ensures same { result.now ≡ bytes.now }
    ensures range { IsBytes result.now }
{
    bytes
}

//! Writes units for the payloads of one part of data that other data lack.

ghost use Rattle.std.specs.Prelude.{◌≡◌, ◌+◌, ◌*◌, ◌∷◌, ◌++◌, [], map, filter};
ghost use Rattle.std.specs.BTreeSet.{difference};
ghost use Rattle.std.specs.Ordering.{on};
ghost use Rattle.rtr_base.specs.Actions.{flags_of};
ghost use Rattle.rtr_base.specs.Bytes.{be};
ghost use Rattle.rtr_base.specs.declared.action.Action.TheVariants.{Announce, Withdraw};
ghost use Rattle.rtr_units.specs.Calls.{WritesTo};
ghost use Rattle.rtr_payload.specs.Meanings.{key_of, origin_of};
ghost use Rattle.rtr_payload.specs.Orders.{payload_cmp};
ghost use Rattle.rtr_payload.specs.Units.{form};
ghost use Rattle.data_memory.specs.Contents.{entry_of};
ghost use Rattle.data_memory.specs.Data.{has, name_of};
ghost use Rattle.data_memory.specs.Deltas.{data_for};
ghost use Rattle.data_memory.specs.PrivateForms.{entries, lacks_customer, lacks_entry};
ghost use Rattle.data_memory.specs.PrivateForms.{payload_forms};

use crate::kept_origin::KeptOrigin;
use rtr_base::action::Action;
use rtr_base::asn::Asn;
use rtr_payload::payload::{Payload, RouteOrigin, RouterKey};
use rtr_payload::pdu;
use rtr_payload::pdu::{ProviderAsns, put_parts};
use rtr_units::fault::Fault;
use rtr_units::piece::put;
use rtr_units::source::Sink;
use std::collections::{BTreeMap, BTreeSet};

/// Writes the unit that announces or withdraws the origin.
fn write_origin<W: Sink>(
    version: u8,
    action: Action,
    origin: RouteOrigin,
    writer: &mut W,
) -> Result<(), Fault>
    ensures { WritesTo W.Sink result writer.old writer.new
        (form version (flags_of action) (origin_of origin)) }
{
    let origin = Payload::Origin(origin);
    let unit = pdu::Payload::from_payload(version, action.into_flags(), origin);
    unit.write(writer)
}

/// The part before the key info of the unit that announces or withdraws the key.
fn key_front(version: u8, action: Action, key: &RouterKey) -> [u8; 32]
    ensures { result ++ key.now.key_info ≡ form version (flags_of action) (key_of key.now) }
{
    let size = (32 + key.key_info.len()) as u32;
    let mut front = [0; 32];
    front[..4].copy_from_slice(&[version, pdu::RouterKey::PDU, action.into_flags(), 0]);
    front[4..8].copy_from_slice(&size.to_be_bytes());
    front[28..].copy_from_slice(&key.asn.into_u32().to_be_bytes());
    front[8..28].copy_from_slice(key.key_identifier.as_slice());
    front
}

/// Writes the unit that announces or withdraws the key.
fn write_key<W: Sink>(
    version: u8,
    action: Action,
    key: &RouterKey,
    writer: &mut W,
) -> Result<(), Fault>
    ensures { WritesTo W.Sink result writer.old writer.new
        (form version (flags_of action) (key_of key.now)) }
{
    let front = key_front(version, action, key);
    put_parts(writer, &front, key.key_info.as_slice())
}

/// The part before the providers of the unit that announces or withdraws an ASPA with `count`
/// providers.
fn aspa_front(version: u8, action: Action, customer: Asn, count: u16) -> [u8; 12]
    ensures { result ≡ version ∷ 11 ∷ flags_of action ∷ 0 ∷ be (12 + 4 * count) 4 ++
        be customer 4 }
{
    let size = 12 + 4 * u32::from(count);
    let mut front = [0; 12];
    front[..4].copy_from_slice(&[version, pdu::Aspa::PDU, action.into_flags(), 0]);
    front[4..8].copy_from_slice(&size.to_be_bytes());
    front[8..].copy_from_slice(&customer.into_u32().to_be_bytes());
    front
}

/// Writes the unit that announces the ASPA.
fn announce_aspa<W: Sink>(
    version: u8,
    customer: Asn,
    providers: &ProviderAsns,
    writer: &mut W,
) -> Result<(), Fault>
    ensures { WritesTo W.Sink result writer.old writer.new
        (form version (flags_of Announce) (entry_of (customer, providers.now))) }
{
    let front = aspa_front(version, Action::Announce, customer, providers.asn_count());
    put_parts(writer, &front, providers.as_slice())
}

/// Writes the unit that withdraws the ASPA of the customer.
fn withdraw_aspa<W: Sink>(version: u8, customer: Asn, writer: &mut W) -> Result<(), Fault>
    ensures { WritesTo W.Sink result writer.old writer.new
        (form version (flags_of Withdraw) (entry_of (customer, []))) }
{
    let front = aspa_front(version, Action::Withdraw, customer, 0);
    put(writer, &front)
}

/// Writes units for the origins of the first set that the second lacks.
pub(crate) fn write_origins<W: Sink>(
    version: u8,
    action: Action,
    these: &BTreeSet<KeptOrigin>,
    those: &BTreeSet<KeptOrigin>,
    writer: &mut W,
) -> Result<(), Fault>
    ensures { WritesTo W.Sink result writer.old writer.new
        (payload_forms version action
        (map origin_of (difference (on origin_of payload_cmp) these.now those.now))) }
{
    for origin in these.difference(those) {
        write_origin(version, action, origin.get(), writer)?;
    }
    Ok(())
}

/// Writes units for the keys of the first set that the second lacks, if the version has keys.
pub(crate) fn write_keys<W: Sink>(
    version: u8,
    action: Action,
    these: &BTreeSet<RouterKey>,
    those: &BTreeSet<RouterKey>,
    writer: &mut W,
) -> Result<(), Fault>
    ensures { WritesTo W.Sink result writer.old writer.new
        (payload_forms version action (data_for version
        (map key_of (difference (on key_of payload_cmp) these.now those.now)))) }
{
    if version < 1 {
        return Ok(());
    }
    for key in these.difference(those) {
        write_key(version, action, key, writer)?;
    }
    Ok(())
}

/// Whether the map has exactly these providers for the customer.
pub(crate) fn is_there(
    aspas: &BTreeMap<Asn, ProviderAsns>,
    customer: Asn,
    providers: &ProviderAsns,
) -> bool
    ensures { result ≡ has (entries aspas.now) (entry_of (customer, providers.now)) }
{
    // Called for its clause: the map's keys are sorted.
    let _count = aspas.len();
    match aspas.get(&customer) {
        Some(there) => *providers == *there,
        None => false,
    }
}

/// Announces the ASPAs of new data that old data lacks, if the version has ASPAs.
pub(crate) fn write_announced<W: Sink>(
    version: u8,
    old: &BTreeMap<Asn, ProviderAsns>,
    new: &BTreeMap<Asn, ProviderAsns>,
    writer: &mut W,
) -> Result<(), Fault>
    ensures { WritesTo W.Sink result writer.old writer.new
        (payload_forms version Announce (data_for version
        (map entry_of (filter (lacks_entry old.now) new.now.entries)))) }
{
    if version < 2 {
        return Ok(());
    }
    for (customer, providers) in new.iter() {
        if is_there(old, *customer, providers) {
            continue;
        }
        announce_aspa(version, *customer, providers, writer)?;
    }
    Ok(())
}

/// Withdraws the ASPAs of old data whose customers new data lacks, if the version has ASPAs.
pub(crate) fn write_withdrawn<W: Sink>(
    version: u8,
    old: &BTreeMap<Asn, ProviderAsns>,
    new: &BTreeMap<Asn, ProviderAsns>,
    writer: &mut W,
) -> Result<(), Fault>
    ensures { WritesTo W.Sink result writer.old writer.new
        (payload_forms version Withdraw (map name_of (data_for version
        (map entry_of (filter (lacks_customer new.now) old.now.entries))))) }
{
    if version < 2 {
        return Ok(());
    }
    for (customer, _providers) in old.iter() {
        if new.contains_key(customer) {
            continue;
        }
        withdraw_aspa(version, *customer, writer)?;
    }
    Ok(())
}

/// Announces these origins.
pub(crate) fn write_all_origins<W: Sink>(
    version: u8,
    origins: &BTreeSet<KeptOrigin>,
    writer: &mut W,
) -> Result<(), Fault>
    ensures { WritesTo W.Sink result writer.old writer.new
        (payload_forms version Announce (map origin_of origins.now.keys)) }
{
    for origin in origins.iter() {
        write_origin(version, Action::Announce, origin.get(), writer)?;
    }
    Ok(())
}

/// Announces these keys, if the version has keys.
pub(crate) fn write_all_keys<W: Sink>(
    version: u8,
    keys: &BTreeSet<RouterKey>,
    writer: &mut W,
) -> Result<(), Fault>
    ensures { WritesTo W.Sink result writer.old writer.new
        (payload_forms version Announce (data_for version (map key_of keys.now.keys))) }
{
    if version < 1 {
        return Ok(());
    }
    for key in keys.iter() {
        write_key(version, Action::Announce, key, writer)?;
    }
    Ok(())
}

/// Announces these ASPAs, if the version has ASPAs.
pub(crate) fn write_all_aspas<W: Sink>(
    version: u8,
    aspas: &BTreeMap<Asn, ProviderAsns>,
    writer: &mut W,
) -> Result<(), Fault>
    ensures { WritesTo W.Sink result writer.old writer.new
        (payload_forms version Announce (data_for version (entries aspas.now))) }
{
    if version < 2 {
        return Ok(());
    }
    for (customer, providers) in aspas.iter() {
        announce_aspa(version, *customer, providers, writer)?;
    }
    Ok(())
}

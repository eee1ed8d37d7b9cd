//! All payloads in JSON.

ghost use Rattle.std.specs.Prelude.{◌≡◌, ◌++◌, OnOk, codes, decimal, drop, flat_map};
ghost use Rattle.data_memory.specs.Contents.{entry_of};
ghost use Rattle.rtr_payload.specs.Meanings.{key_of, origin_of};
ghost use Rattle.list_tables.specs.PrivateObjects.{comma_unless};
ghost use Rattle.list_tables.specs.Tables.{json_text, object_text};

use crate::pieces::add_prefix;
use base64::engine::general_purpose::STANDARD;
use data_memory::{Data, KeptOrigin};
use hex::encode;
use list_lines::Line;
use rtr_base::asn::Asn;
use rtr_payload::payload::{RouteOrigin, RouterKey};
use rtr_payload::pdu::ProviderAsns;
use std::alloc::{AllocError, Global};
use std::collections::{btree_map, btree_set};

/// Adds the object of all payloads: an array of origins, one of router keys and one of ASPAs, each
/// item on a line.
pub fn add_json(alloc: Global, line: &mut Line, payloads: &Data) -> Result<(), AllocError>
    ensures { OnOk result (line.new ≡ line.old ++ json_text payloads.now) }
{
    let (origins, keys, aspas) = payloads.parts();
    line.text("{\"roas\":[")?;
    add_origins(line, origins)?;
    line.text("\n],\n\"bgpsec_keys\":[")?;
    add_keys(alloc, line, keys)?;
    line.text("\n],\n\"aspas\":[")?;
    add_aspas(line, aspas)?;
    line.text("\n]}\n")
}

/// The text before an item of an array.
fn comma(first: bool) -> &'static str
    ensures { result.now ≡ comma_unless first }
{
    if first { "" } else { "," }
}

/// The text before an item that has a line of its own.
fn before_item(first: bool) -> &'static str
    ensures { result.now ≡ comma_unless first ++ codes "\n" }
{
    if first { "\n" } else { ",\n" }
}

/// Adds the items of the origins.
fn add_origins(line: &mut Line, origins: btree_set::Iter<'_, KeptOrigin>) -> Result<(), AllocError>
    ensures { OnOk result (line.new ≡ line.old
        ++ drop 1 (flat_map (λ o. codes ",\n" ++ object_text (origin_of o)) origins.entry)) }
{
    let mut first = true;
    for origin in origins {
        line.text(before_item(first))?;
        add_origin(line, origin.get())?;
        first = false;
    }
    Ok(())
}

fn add_origin(line: &mut Line, origin: RouteOrigin) -> Result<(), AllocError>
    ensures { OnOk result (line.new ≡ line.old ++ object_text (origin_of origin)) }
{
    let prefix = origin.prefix;
    let max_len = prefix.resolved_max_len();
    add_prefix(
        line,
        "{\"prefix\":\"",
        prefix.prefix(),
        "\",\"maxLength\":",
        max_len,
    )?;
    line.labelled(",\"asn\":", u64::from(origin.asn.into_u32()))?;
    line.text("}")
}

/// Adds the items of the router keys.
fn add_keys(
    alloc: Global,
    line: &mut Line,
    keys: btree_set::Iter<'_, RouterKey>,
) -> Result<(), AllocError>
    ensures { OnOk result (line.new ≡ line.old
        ++ drop 1 (flat_map (λ k. codes ",\n" ++ object_text (key_of k)) keys.entry)) }
{
    let mut first = true;
    for key in keys {
        line.text(before_item(first))?;
        add_key(alloc, line, key)?;
        first = false;
    }
    Ok(())
}

fn add_key(alloc: Global, line: &mut Line, key: &RouterKey) -> Result<(), AllocError>
    ensures { OnOk result (line.new ≡ line.old ++ object_text (key_of key.now)) }
{
    line.labelled("{\"asn\":", u64::from(key.asn.into_u32()))?;
    line.text(",\"ski\":\"")?;
    line.text(encode(alloc, key.key_identifier.as_slice())?.as_str())?;
    line.text("\",\"pubkey\":\"")?;
    line.text(STANDARD.encode(alloc, key.key_info.as_slice())?.as_str())?;
    line.text("\"}")
}

/// Adds the items of the ASPAs.
fn add_aspas(
    line: &mut Line,
    aspas: btree_map::Iter<'_, Asn, ProviderAsns>,
) -> Result<(), AllocError>
    ensures { OnOk result (line.new ≡ line.old
        ++ drop 1 (flat_map (λ e. codes ",\n" ++ object_text (entry_of e)) aspas.entry)) }
{
    let mut first = true;
    for (customer, providers) in aspas {
        line.text(before_item(first))?;
        add_aspa(line, *customer, providers)?;
        first = false;
    }
    Ok(())
}

fn add_aspa(line: &mut Line, customer: Asn, providers: &ProviderAsns) -> Result<(), AllocError>
    ensures { OnOk result (line.new ≡ line.old
        ++ object_text (entry_of (customer, providers.now))) }
{
    line.labelled("{\"customer_asid\":", u64::from(customer.into_u32()))?;
    line.text(",\"providers\":[")?;
    add_providers(line, providers)?;
    line.text("]}")
}

/// Adds the providers.
fn add_providers(line: &mut Line, providers: &ProviderAsns) -> Result<(), AllocError>
    ensures { OnOk result (line.new ≡ line.old
        ++ drop 1 (flat_map (λ n. codes "," ++ decimal n) providers.now)) }
{
    let mut first = true;
    for provider in providers.iter() {
        line.labelled(comma(first), u64::from(provider.into_u32()))?;
        first = false;
    }
    Ok(())
}

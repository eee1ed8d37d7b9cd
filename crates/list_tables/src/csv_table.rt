//! Origins as comma-separated values.

ghost use Rattle.std.specs.Prelude.{◌≡◌, ◌++◌, OnOk, filter, flat_map, length};
ghost use Rattle.rtr_payload.specs.Meanings.{origin_of};
ghost use Rattle.list_tables.specs.Tables.{csv_row, csv_text, is_aspa, is_key};

use crate::pieces::add_prefix;
use data_memory::{Data, KeptOrigin};
use list_lines::Line;
use rtr_payload::payload::RouteOrigin;
use std::alloc::AllocError;
use std::collections::btree_set;

/// The first row, with the names of the columns.
const HEADER: &str = "ASN,IP Prefix,Max Length\n";

/// Adds the table of the origins: a row with the names of the columns, and then one for each
/// origin.
pub fn add_csv(line: &mut Line, payloads: &Data) -> Result<(), AllocError>
    ensures { OnOk result (line.new ≡ line.old ++ csv_text payloads.now) }
{
    let (origins, _keys, _aspas) = payloads.parts();
    line.text(HEADER)?;
    add_rows(line, origins)
}

/// Adds the rows of the origins.
fn add_rows(line: &mut Line, origins: btree_set::Iter<'_, KeptOrigin>) -> Result<(), AllocError>
    ensures { OnOk result (line.new ≡ line.old
        ++ flat_map (λ o. csv_row (origin_of o)) origins.entry) }
{
    for origin in origins {
        add_row(line, origin.get())?;
    }
    Ok(())
}

/// Adds the row of an origin.
fn add_row(line: &mut Line, origin: RouteOrigin) -> Result<(), AllocError>
    ensures { OnOk result (line.new ≡ line.old ++ csv_row (origin_of origin)) }
{
    let prefix = origin.prefix;
    line.labelled("AS", u64::from(origin.asn.into_u32()))?;
    add_prefix(line, ",", prefix.prefix(), ",", prefix.resolved_max_len())?;
    line.text("\n")
}

/// The numbers of payloads without a row.
#[derive(Clone, Copy)]
pub struct LeftOut {
    /// Router keys.
    pub router_keys: usize,
    /// ASPAs.
    pub aspas: usize,
}

/// The numbers of payloads that the table of origins leaves out.
pub fn left_out(payloads: &Data) -> LeftOut
    ensures router_keys { result.router_keys ≡ length (filter is_key payloads.now) }
    ensures aspas { result.aspas ≡ length (filter is_aspa payloads.now) }
{
    let (_origins, keys, aspas) = payloads.parts();
    LeftOut {
        router_keys: keys.len(),
        aspas: aspas.len(),
    }
}

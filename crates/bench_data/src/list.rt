//! A list of VRPs as CSV.

use csv::{ReaderBuilder, StringRecord};
use data_memory::{ChangeError, Data};
use rtr_base::addr::{MaxLenPrefix, Prefix};
use rtr_base::asn::Asn;
use rtr_payload::payload::Payload;
use std::alloc::Global;

/// How far the list is read.
#[derive(Clone, Copy)]
pub enum Depth {
    Rows,
    Origins,
    Data,
}

/// The origin of a row.
fn origin(row: &StringRecord) -> Option<Payload> {
    let asn = row.get(0)?.parse::<Asn>().ok()?;
    let prefix = row.get(1)?.parse::<Prefix>().ok()?;
    let max_length = row.get(2)?.parse::<u8>().ok()?;
    let prefix = MaxLenPrefix::new(prefix, Some(max_length)).ok()?;
    Some(Payload::origin(prefix, asn))
}

/// Reads the row as far as this; reports whether that was possible.
fn take(depth: Depth, row: &StringRecord, data: &mut Data) -> bool {
    match depth {
        Depth::Rows => true,
        Depth::Origins => origin(row).is_some(),
        Depth::Data => match origin(row) {
            Some(origin) => matches!(data.announce(origin), Ok(()) | Err(ChangeError::Duplicate)),
            None => false,
        },
    }
}

/// Reads the rows after the first, which names the columns. Returns how many there are, or for
/// data how many origins.
pub fn read(alloc: Global, depth: Depth, text: &[u8]) -> Option<u64> {
    let mut reader = ReaderBuilder::new()
        .has_headers(false)
        .flexible(true)
        .from_reader(alloc, text);
    let mut row = StringRecord::new(alloc);
    let mut data = Data::new(alloc);
    for count in 0..u64::MAX {
        match reader.read_record(&mut row) {
            Ok(true) if count == 0 || take(depth, &row, &mut data) => {}
            Ok(false) => {
                return match depth {
                    Depth::Data => Some(data.len() as u64),
                    _ => Some(count.saturating_sub(1)),
                };
            }
            _ => return None,
        }
    }
    None
}

//! The VRPs by which routes are validated.

ghost use Rattle.std.specs.Prelude.{◌≡◌, ◌≤◌, ◌<◌, ◌+◌, ◌^◌, ◌++◌, IfOk, IfSome, length, nat_eq};
ghost use Rattle.rtr_units.specs.AnyEnd.{end_bytes};
ghost use Rattle.rtr_units.specs.End.{IsEndMeaning, end_list};
ghost use Rattle.rtr_units.specs.Stream.{PutsForm};
ghost use Rattle.data_memory.specs.Deltas.{all_for, change_forms, data_for};
ghost use Rattle.data_slices.specs.Canonical.{HoldsData};
ghost use Rattle.data_validation.specs.Covering.{IsFirstCovering};
ghost use Rattle.data_validation.specs.Validity.{IsValidity};
ghost use Rattle.validate_work.specs.PrivateVrps.{kept_end};

use crate::ranges::are_sendable;
use data_memory::Data;
use data_validation::{CoveringVrp, Route, Tables, Validity, first_covering, validate};
use make_work::has_none;
use rtr_base::addr::Prefix;
use rtr_base::state::{Serial, State};
use rtr_base::timing::Timing;
use rtr_units::end::EndOfData;
use rtr_units::fault::Fault;
use rtr_units::header::LAST_VERSION;
use rtr_units::source::{Counted, Sink};
use std::alloc::{AllocError, Global};
use std::marker::Model;

/// The version of the units in which the payloads are kept, which has payloads of all kinds.
const KEPT_VERSION: u8 = LAST_VERSION;

/// The version that has only origins.
const VRPS_ALONE: u8 = 0;

/// Payloads, whose origins are the VRPs by which routes are validated. They are also kept in
/// canonical form, so that an answer takes a few binary searches.
#[derive(Drop)]
pub struct Vrps {
    payloads: Data,
    /// The units that announce the payloads, and an end of data.
    bytes: Vec<u8>,
    tables: Tables,
}

impl Model for Vrps {
    ghost use Rattle.std.specs.Prelude.{List};
    ghost use Rattle.rtr_payload.specs.Payloads.{Payload};
    ghost use Rattle.data_slices.specs.Canonical.{HoldsData};
    ghost use Rattle.data_validation.specs.Tables.{AreTables};
    ghost use Rattle.validate_work.specs.PrivateVrps.{kept_end};

    ghost Value = { List Payload };

    ghost view = { λ v. v.payloads };

    ghost invariant = { λ v.
        HoldsData v.bytes.items v.payloads kept_end × AreTables v.bytes.items v.tables };
}

impl Vrps {
    /// The VRPs of these payloads. This takes additional memory of the length of their units.
    pub fn new(alloc: Global, payloads: Data) -> Result<Vrps, AllocError>
        ensures { IfOk result (λ vrps. vrps ≡ payloads) }
    {
        let bytes = match canonical(alloc, &payloads) {
            Ok(bytes) => bytes,
            Err(error) => return Err(error),
        };
        let tables = Tables::of(&bytes);
        Ok(Vrps {
            payloads,
            bytes,
            tables,
        })
    }

    /// Whether there are none, so that no route is covered.
    pub fn has_none(&self) -> bool
        ensures { result ≡ nat_eq (length (data_for 0 self.now)) 0 }
    {
        has_none(VRPS_ALONE, &self.payloads)
    }

    /// The validity of a route (RFC 6811 section 2).
    pub fn validity(&self, route: &Route) -> Validity
        ensures { IsValidity self.now route.now.prefix route.now.asn result }
    {
        validate(&self.bytes, &self.tables, route)
    }

    /// The first VRP that covers a prefix among the payloads from this index on.
    pub fn first_covering(&self, prefix: Prefix, from: usize) -> Option<CoveringVrp>
        ensures first { IsFirstCovering self.now prefix from result }
        ensures within { IfSome result (λ c. c.place + 1 < 2 ^ 64) }
    {
        first_covering(&self.bytes, &self.tables, prefix, from)
    }
}

/// The payloads in canonical form.
fn canonical(alloc: Global, payloads: &Data) -> Result<Vec<u8>, AllocError>
    ensures { IfOk result (λ bytes. HoldsData bytes.items payloads.now kept_end) }
{
    are_sendable(payloads);
    data_memory::laws::deltas_are_accepted();
    let mut output = Counted::new(Vec::new(alloc));
    match write_data(payloads, &mut output) {
        Ok(()) => Ok(output.into_inner()),
        Err(_) => Err(AllocError),
    }
}

/// Writes the units that announce the payloads, and an end of data.
fn write_data<W: Sink>(payloads: &Data, output: &mut W) -> Result<(), Fault>
    ensures { PutsForm result (W.state output.old) (W.state output.new)
        (change_forms 2 (all_for 2 payloads.now) ++ end_list kept_end) }
{
    payloads.write_all(KEPT_VERSION, output)?;
    end_of_kept().write(output)
}

/// The end of data that is kept.
fn end_of_kept() -> EndOfData
    ensures { end_bytes result ≡ end_list kept_end }
{
    EndOfData::new(
        KEPT_VERSION,
        State::from_parts(0, Serial(0)),
        Timing::default(),
    )
}

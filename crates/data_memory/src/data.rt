//! A set of payloads.

ghost use Rattle.std.specs.Prelude.{◌≡◌, ◌<◌, ◌≤◌, [], Bool, Err, IfErr, false, length, min};
ghost use Rattle.std.specs.Prelude.{nat_eq};
ghost use Rattle.rtr_base.specs.declared.action.Action.TheVariants.{Announce, Withdraw};
ghost use Rattle.rtr_units.specs.Calls.{WritesTo};
ghost use Rattle.rtr_units.specs.StopCauses.{HoldsWriteError, by_cause, unit_version, wrong};
ghost use Rattle.rtr_units.specs.Stream.{PutsForm};
ghost use Rattle.rtr_payload.specs.Meanings.{payload_of, payload_of_ref};
ghost use Rattle.data_memory.specs.Data.{IsData, changed, has, has_name};
ghost use Rattle.data_memory.specs.Contents.{AreFit, IsFit, Leaves, Makes, announcing, joined};
ghost use Rattle.data_memory.specs.Contents.{unfit};
ghost use Rattle.data_memory.specs.Changes.{announcements, withdrawals};
ghost use Rattle.data_memory.specs.Deltas.{all_for, change_forms, changes_for, data_for};

mod applying;
mod copying;
mod ranges;

use crate::change_error::ChangeError;
use crate::kept_origin::KeptOrigin;
use crate::writing::{
    write_all_aspas, write_all_keys, write_all_origins, write_announced, write_keys, write_origins,
    write_withdrawn,
};
use rtr_base::action::Action;
use rtr_base::asn::Asn;
use rtr_payload::payload::{Aspa, Payload, PayloadRef, RouterKey};
use rtr_payload::pdu::ProviderAsns;
use rtr_units::fault::Fault;
use rtr_units::header::LAST_VERSION;
use rtr_units::source::Sink;
use std::alloc::Global;
use std::collections::{BTreeMap, BTreeSet, btree_map, btree_set};
use std::marker::Model;

/// The greatest number of bytes of key info in a unit, whose length is at most 65535.
const MOST_KEY_INFO: usize = 65503;

/// A set of payloads, with at most one ASPA for each customer.
#[derive(Drop)]
pub struct Data {
    origins: BTreeSet<KeptOrigin>,
    router_keys: BTreeSet<RouterKey>,
    aspas: BTreeMap<Asn, ProviderAsns>,
}

impl Model for Data {
    ghost use Rattle.std.specs.Prelude.{List};
    ghost use Rattle.rtr_payload.specs.Payloads.{Payload};

    ghost Value = { List Payload };

    ghost use Rattle.data_memory.specs.Contents.{payloads};

    ghost view = { payloads };

    ghost use Rattle.data_memory.specs.Contents.{AreFit};

    ghost invariant = { λ d. AreFit (payloads d) };
}

impl Data {
    /// The empty set.
    pub fn new(alloc: Global) -> Self
        ensures { result ≡ [] }
    {
        Data {
            origins: BTreeSet::new(alloc),
            router_keys: BTreeSet::new(alloc),
            aspas: BTreeMap::new(alloc),
        }
    }

    /// The number of payloads, or the greatest `usize` if there are more.
    pub fn len(&self) -> usize
        ensures { result ≡ min (length self.now) usize.MAX }
    {
        self.origins
            .len()
            .saturating_add(self.router_keys.len())
            .saturating_add(self.aspas.len())
    }

    /// Whether there are no payloads.
    pub fn is_empty(&self) -> bool
        ensures { result ≡ nat_eq (length self.now) 0 }
    {
        self.len() == 0
    }

    /// The origins, the router keys and the ASPAs: together they are the payloads in their order.
    pub fn parts(
        &self,
    ) -> (
        btree_set::Iter<'_, KeptOrigin>,
        btree_set::Iter<'_, RouterKey>,
        btree_map::Iter<'_, Asn, ProviderAsns>,
    )
        ensures payloads { self.now ≡ joined result.0 result.1 result.2 }
        ensures ordered { IsData self.now }
        ensures fit { AreFit self.now }
    {
        (
            self.origins.iter(),
            self.router_keys.iter(),
            self.aspas.iter(),
        )
    }

    /// Reports whether the payload is present; an ASPA, whether it is present with exactly these
    /// providers.
    pub fn contains(&self, payload: &PayloadRef<'_>) -> bool
        ensures { result ≡ has self.now (payload_of_ref payload.now) }
    {
        match payload {
            PayloadRef::Origin(origin) => self.origins.contains(&KeptOrigin::from(*origin)),
            PayloadRef::RouterKey(key) => self.router_keys.contains(*key),
            PayloadRef::Aspa(aspa) => {
                // Called for its clause: the map's keys are sorted.
                let _count = self.aspas.len();
                match self.aspas.get(&aspa.customer) {
                    Some(providers) => aspa.providers == *providers,
                    None => false,
                }
            }
        }
    }

    /// Reports whether a payload of this name is present: for an ASPA, any ASPA of the same
    /// customer.
    pub fn contains_name(&self, payload: &PayloadRef<'_>) -> bool
        ensures { result ≡ has_name self.now (payload_of_ref payload.now) }
    {
        match payload {
            PayloadRef::Origin(origin) => self.origins.contains(&KeptOrigin::from(*origin)),
            PayloadRef::RouterKey(key) => self.router_keys.contains(*key),
            PayloadRef::Aspa(aspa) => self.aspas.contains_key(&aspa.customer),
        }
    }

    /// Announces a payload. An ASPA replaces the ASPA of its customer.
    ///
    /// `KeyTooLong` or `NoProviders` for a payload that no reader accepts, `Duplicate` for another
    /// payload that is present, or `Memory`. At an error the data are unchanged.
    pub fn announce(&mut self, payload: Payload) -> Result<(), ChangeError>
        ensures { Leaves result (announcing (payload_of payload) self.old) self.old self.new }
    {
        if let Some(error) = refusal(&payload) {
            return Err(error);
        }
        self.insert(payload)
    }

    /// Announces a payload that a reader accepts.
    fn insert(&mut self, payload: Payload) -> Result<(), ChangeError>
        requires { IsFit (payload_of payload) }
        ensures { Leaves result (changed Announce (payload_of payload) self.old) self.old self.new }
    {
        match payload {
            Payload::Origin(origin) => match self.origins.insert(KeptOrigin::from(origin)) {
                Ok(true) => Ok(()),
                Ok(false) => Err(ChangeError::Duplicate),
                Err(_) => Err(ChangeError::Memory),
            },
            Payload::RouterKey(key) => match self.router_keys.insert(key) {
                Ok(true) => Ok(()),
                Ok(false) => Err(ChangeError::Duplicate),
                Err(_) => Err(ChangeError::Memory),
            },
            Payload::Aspa(aspa) => {
                let Aspa {
                    customer,
                    providers,
                } = aspa;
                match self.aspas.insert(customer, providers) {
                    Ok(_) => Ok(()),
                    Err(_) => Err(ChangeError::Memory),
                }
            }
        }
    }

    /// Withdraws a payload. For an ASPA only the customer counts.
    ///
    /// `Unknown` if it is absent; then the data are unchanged. Nothing is allocated.
    pub fn withdraw(&mut self, payload: &PayloadRef<'_>) -> Result<(), ChangeError>
        ensures { Makes result (changed Withdraw (payload_of_ref payload.now) self.old)
            self.old self.new }
    {
        match payload {
            PayloadRef::Origin(origin) => {
                if self.origins.remove(&KeptOrigin::from(*origin)) {
                    Ok(())
                } else {
                    Err(ChangeError::Unknown)
                }
            }
            PayloadRef::RouterKey(key) => {
                if self.router_keys.remove(*key) {
                    Ok(())
                } else {
                    Err(ChangeError::Unknown)
                }
            }
            PayloadRef::Aspa(aspa) => match self.aspas.remove(&aspa.customer) {
                Some(_) => Ok(()),
                None => Err(ChangeError::Unknown),
            },
        }
    }

    /// Writes the payloads of an answer to a reset query (RFC 8210 section 8.1): the units of this
    /// version that announce the payloads, in their order. The caller writes the cache response
    /// before them and the end of data after them. Version 0 has only origins, version 1 router
    /// keys too, and version 2 ASPAs too.
    ///
    /// A unit has 20 or 32 bytes for an origin, 32 and its key info for a router key, 12 and four
    /// for each provider for an ASPA. `UnitVersion` comes first for a version above 2, with nothing
    /// written; `Writer` is the only other fault: nothing is allocated.
    pub fn write_all<W: Sink>(&self, version: u8, writer: &mut W) -> Result<(), Fault>
        ensures known { version ≤ 2 → PutsForm result (W.state writer.old) (W.state writer.new)
            (change_forms version (all_for version self.now)) }
        ensures unknown { 2 < version → (by_cause result ≡ Err (wrong (unit_version version))) ×
            (writer.new ≡ writer.old) }
        ensures error { IfErr result (HoldsWriteError (W.fails writer.new) (W.stalls writer.new)) }
    {
        if version > LAST_VERSION {
            return Err(Fault::UnitVersion(version));
        }
        write_all_origins(version, &self.origins, writer)?;
        write_all_keys(version, &self.router_keys, writer)?;
        write_all_aspas(version, &self.aspas, writer)
    }

    /// Writes the payloads of an answer to a serial query (RFC 8210 section 8.2): the units that
    /// lead a router of this version from this data, the old, to new data, as far as the version
    /// has them, as in `write_all`. The caller writes the cache response before them and the end of
    /// data after them. First come all announcements and then the withdrawals, each in the order of
    /// payloads. An ASPA that replaces another is announced, and a withdrawn one is written without
    /// providers.
    ///
    /// `UnitVersion` comes first for a version above 2, with nothing written; else `Writer` is the
    /// only fault: nothing is allocated.
    pub fn write_delta<W: Sink>(&self, new: &Data, version: u8, writer: &mut W) -> Result<(), Fault>
        ensures known { version ≤ 2 → PutsForm result (W.state writer.old) (W.state writer.new)
            (change_forms version (changes_for version self.now new.now)) }
        ensures unknown { 2 < version → (by_cause result ≡ Err (wrong (unit_version version))) ×
            (writer.new ≡ writer.old) }
        ensures error { IfErr result (HoldsWriteError (W.fails writer.new) (W.stalls writer.new)) }
    {
        if version > LAST_VERSION {
            return Err(Fault::UnitVersion(version));
        }
        self.write_announcements(new, version, writer)?;
        self.write_withdrawals(new, version, writer)
    }

    /// Writes the announcements of a delta.
    fn write_announcements<W: Sink>(
        &self,
        new: &Data,
        version: u8,
        writer: &mut W,
    ) -> Result<(), Fault>
        ensures { WritesTo W.Sink result writer.old writer.new
            (change_forms version
            (announcements (data_for version self.now) (data_for version new.now))) }
    {
        let action = Action::Announce;
        write_origins(version, action, &new.origins, &self.origins, writer)?;
        write_keys(version, action, &new.router_keys, &self.router_keys, writer)?;
        write_announced(version, &self.aspas, &new.aspas, writer)
    }

    /// Writes the withdrawals of a delta.
    fn write_withdrawals<W: Sink>(
        &self,
        new: &Data,
        version: u8,
        writer: &mut W,
    ) -> Result<(), Fault>
        ensures { WritesTo W.Sink result writer.old writer.new
            (change_forms version
            (withdrawals (data_for version self.now) (data_for version new.now))) }
    {
        let action = Action::Withdraw;
        write_origins(version, action, &self.origins, &new.origins, writer)?;
        write_keys(version, action, &self.router_keys, &new.router_keys, writer)?;
        write_withdrawn(version, &self.aspas, &new.aspas, writer)
    }
}

/// Why no reader accepts an announcement of the payload; none if readers accept it.
fn refusal(payload: &Payload) -> Option<ChangeError>
    ensures { result ≡ unfit (payload_of payload.now) }
{
    match payload {
        Payload::Origin(_) => None,
        Payload::RouterKey(key) => {
            if key.key_info.len() > MOST_KEY_INFO {
                Some(ChangeError::KeyTooLong)
            } else {
                None
            }
        }
        Payload::Aspa(aspa) => {
            if aspa.providers.is_empty() {
                Some(ChangeError::NoProviders)
            } else {
                None
            }
        }
    }
}

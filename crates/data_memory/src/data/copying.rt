//! Copies of data.

ghost use Rattle.std.specs.Prelude.{◌≡◌, Ok, IfOk, map};
ghost use Rattle.rtr_payload.specs.Meanings.{key_of, origin_of};
ghost use Rattle.data_memory.specs.Changes.{after_all};
ghost use Rattle.data_memory.specs.Contents.{entry_of};
ghost use Rattle.data_memory.specs.Data.{announcement};

use super::Data;
use crate::kept_origin::KeptOrigin;
use rtr_base::asn::Asn;
use rtr_payload::payload::{Payload, RouterKey};
use rtr_payload::pdu::ProviderAsns;
use std::alloc::{AllocError, Global};
use std::collections::{BTreeMap, BTreeSet};

impl Data {
    /// A copy of the payloads, in memory of its own. The bytes of keys and of providers are shared.
    pub fn clone(&self, alloc: Global) -> Result<Self, AllocError>
        ensures { IfOk result (λ copy. copy ≡ self.now) }
    {
        // Called for its clause: the payloads are in order.
        let _parts = self.parts();
        let mut copy = Data::new(alloc);
        copy.add_origins(&self.origins)?;
        copy.add_keys(&self.router_keys)?;
        copy.add_aspas(&self.aspas)?;
        Ok(copy)
    }

    /// Announces these origins.
    fn add_origins(&mut self, origins: &BTreeSet<KeptOrigin>) -> Result<(), AllocError>
        ensures { IfOk result (λ _.
            after_all (map announcement (map origin_of origins.now.keys)) (Ok self.old) ≡
            Ok self.new) }
    {
        for origin in origins.iter() {
            let Ok(()) = self.announce(Payload::Origin(origin.get())) else {
                return Err(AllocError);
            };
        }
        Ok(())
    }

    /// Announces copies of these keys.
    fn add_keys(&mut self, keys: &BTreeSet<RouterKey>) -> Result<(), AllocError>
        ensures { IfOk result (λ _.
            after_all (map announcement (map key_of keys.now.keys)) (Ok self.old) ≡ Ok self.new) }
    {
        for key in keys.iter() {
            let copy = RouterKey::clone(key)?;
            let Ok(()) = self.announce(Payload::RouterKey(copy)) else {
                return Err(AllocError);
            };
        }
        Ok(())
    }

    /// Announces copies of these ASPAs.
    fn add_aspas(&mut self, aspas: &BTreeMap<Asn, ProviderAsns>) -> Result<(), AllocError>
        ensures { IfOk result (λ _.
            after_all (map announcement (map entry_of aspas.now.entries)) (Ok self.old) ≡
            Ok self.new) }
    {
        for (customer, providers) in aspas.iter() {
            let copy = ProviderAsns::clone(providers)?;
            let Ok(()) = self.announce(Payload::aspa(*customer, copy)) else {
                return Err(AllocError);
            };
        }
        Ok(())
    }
}

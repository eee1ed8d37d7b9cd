//! Origin validation over a set of payloads.

ghost use Rattle.std.specs.Prelude.{◌≡◌, ℕ, List};
ghost use Rattle.rtr_payload.specs.Payloads.{Payload};
ghost use Rattle.rtr_payload.specs.declared.payload.RouterKey.{RouterKey};
ghost use Rattle.data_memory.specs.Contents.{joined};
ghost use Rattle.data_validation.specs.Covering.{vrp};
ghost use Rattle.data_validation.specs.PrivateTable.{OneSays};
ghost use Rattle.data_validation.specs.Validity.{IsValidity};

use crate::table::{one_says, unmatched};
use crate::validation::Route;
use crate::validity::Validity;
use crate::vrp::Vrp;
use data_memory::{Data, KeptOrigin};
use rtr_payload::payload::RouteOrigin;
use std::collections::btree_set;

/// Origin validation by the payloads of a set.
pub trait ValidateRoutes {
    /// The payloads.
    ghost payloads: { Self → List Payload };

    /// Returns the validity of a route (RFC 6811 section 2) by the origins of the set. It reads all
    /// origins: for many routes, write the payloads in canonical form once, and call `validate`.
    fn validate(&self, route: &Route) -> Validity
        ensures { IsValidity (payloads self.now) route.now.prefix route.now.asn result };
}

impl ValidateRoutes for Data {
    ghost payloads = { λ d. d };

    fn validate(&self, route: &Route) -> Validity {
        let (origins, _keys, _aspas) = self.parts();
        look_through(origins, route)
    }
}

/// The validity of a route by these origins and the validity so far, found by reading all of them.
fn look_through(origins: btree_set::Iter<'_, KeptOrigin>, route: &Route) -> Validity
    ensures { (keys : List RouterKey) → (aspas : List (ℕ × List ℕ)) →
        IsValidity (joined origins.entry keys aspas) route.now.prefix route.now.asn result }
{
    let mut covered = false;
    'origins: for origin in origins {
        match origin_says(&origin.get(), route) {
            Validity::Valid => return Validity::Valid,
            Validity::Invalid => covered = true,
            Validity::NotFound => {}
        }
    }
    unmatched(covered)
}

/// The validity of a route by one origin.
fn origin_says(origin: &RouteOrigin, route: &Route) -> Validity
    ensures { OneSays result (vrp origin.now) route.now.prefix route.now.asn }
{
    let prefix = origin.prefix.prefix();
    let is_v4 = prefix.is_v4();
    if is_v4 != route.prefix.is_v4() {
        return Validity::NotFound;
    }
    let vrp = Vrp {
        address: prefix.bits(),
        len: prefix.len(),
        max_len: origin.prefix.resolved_max_len(),
        asn: origin.asn.into_u32(),
    };
    let (address, len) = (route.prefix.bits(), route.prefix.len());
    one_says(is_v4, vrp, address, len, route.asn.into_u32())
}

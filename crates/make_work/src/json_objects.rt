//! Payloads that are objects in JSON, by the names of their members.

ghost use Rattle.std.specs.Prelude.{◌≡◌, ◌∷◌, ◌<◌, [], MatchResult, codes, length};
ghost use Rattle.json.specs.Value.{members_view, value_view};
ghost use Rattle.make_work.specs.JsonPayloads.{Has, IsPayloadObject, MayHave, object_expiry};
ghost use Rattle.make_work.specs.JsonPayloads.{values_of};
ghost use Rattle.make_work.specs.JsonRefusals.{OrMemory, RefusesAny, RefusesAsn, RefusesAspa};
ghost use Rattle.make_work.specs.JsonRefusals.{RefusesMaxLength, RefusesOrigin, RefusesPart};
ghost use Rattle.make_work.specs.JsonRefusals.{RefusesPayloadObject, RefusesPrefixValue};
ghost use Rattle.make_work.specs.JsonRefusals.{RefusesRouterKey};
ghost use Rattle.make_work.specs.JsonValues.{IsAsnValue, IsMaxLengthValue, IsPrefixValue};
ghost use Rattle.make_work.specs.JsonValues.{members_list};
ghost use Rattle.make_work.specs.PrivateJson.{IsOnly, LacksPart, IsTwice};

use crate::item::{Expiry, Place, Reason, Refusal};
use crate::json_names::{Kind, Part};
use crate::json_values::{
    asn_of, expiry_of, key_identifier_of, key_info_of, max_length_of, prefix_of, providers_of,
};
use json::Value;
use rtr_base::addr::{MaxLenPrefix, Prefix};
use rtr_base::asn::Asn;
use rtr_payload::payload::Payload;
use std::alloc::Global;

/// A value, and its name.
#[derive(Clone, Copy)]
struct Member<'v, 'a> {
    name: &'a str,
    value: &'v Value<'a>,
}

/// An item of an array.
#[derive(Clone, Copy)]
pub struct Spot<'a> {
    /// The name of its array.
    pub array: &'a str,
    /// Its index in the array.
    pub index: u64,
}

impl<'a> Spot<'a> {
    /// The place of the item as a whole.
    pub fn place(self) -> Place<'a>
        ensures { result ≡ Place.Item self.entry.array self.entry.index }
    {
        Place::Item(self.array, self.index)
    }

    /// The payload of this kind in an object with these members. The first part that is missing or
    /// wrong decides:
    /// - of an origin the prefix, the max length, the ASN, and the rule between the two lengths;
    /// - of a router key the ASN, the identifier, and the key;
    /// - of an ASPA the customer, and the providers.
    pub fn payload(
        self,
        alloc: Global,
        kind: Kind,
        members: &[(&'a str, Value<'a>)],
    ) -> Result<Payload, Refusal<'a>>
        ensures { MatchResult result
            (IsPayloadObject kind (members_list (members_view members.now)))
            (λ r. OrMemory (RefusesPayloadObject kind (members_list (members_view members.now)))
            r.reason) }
    {
        match kind {
            Kind::Origins => self.origin(members),
            Kind::RouterKeys => self.router_key(alloc, members),
            Kind::Aspas => self.aspa(alloc, members),
        }
    }

    /// The expiry of an item with these members.
    pub fn expiry(self, members: &[(&'a str, Value<'a>)]) -> Expiry
        ensures { result ≡ object_expiry (members_list (members_view members.now)) }
    {
        match self.part(Part::Expires, members) {
            Ok(Some(member)) => expiry_of(member.value),
            Ok(None) => Expiry::Never,
            Err(_) => Expiry::Twice,
        }
    }

    fn origin(self, members: &[(&'a str, Value<'a>)]) -> Result<Payload, Refusal<'a>>
        ensures { MatchResult result
            (IsPayloadObject Kind.Origins (members_list (members_view members.now)))
            (λ r. RefusesOrigin (members_list (members_view members.now)) r.reason) }
    {
        let prefix = self.prefix(members)?;
        let max_length = self.max_length(members)?;
        let asn = self.asn(Part::Asn, members)?;
        match MaxLenPrefix::new(prefix, max_length) {
            Ok(prefix) => Ok(Payload::origin(prefix, asn)),
            Err(error) => {
                let name = Part::MaxLength.usual_name();
                Err(self.refusal_of(name, Reason::MaxLengthRule(error)))
            }
        }
    }

    fn router_key(
        self,
        alloc: Global,
        members: &[(&'a str, Value<'a>)],
    ) -> Result<Payload, Refusal<'a>>
        ensures { MatchResult result
            (IsPayloadObject Kind.RouterKeys (members_list (members_view members.now)))
            (λ r. OrMemory (RefusesRouterKey (members_list (members_view members.now)))
            r.reason) }
    {
        let asn = self.asn(Part::Asn, members)?;
        let member = self.needed(Part::KeyIdentifier, members)?;
        let key_identifier = match key_identifier_of(alloc, member.value) {
            Ok(key_identifier) => key_identifier,
            Err(reason) => return Err(self.refusal_of(member.name, reason)),
        };
        let member = self.needed(Part::KeyInfo, members)?;
        match key_info_of(alloc, member.value) {
            Ok(key_info) => Ok(Payload::router_key(key_identifier, asn, key_info)),
            Err(reason) => Err(self.refusal_of(member.name, reason)),
        }
    }

    fn aspa(self, alloc: Global, members: &[(&'a str, Value<'a>)]) -> Result<Payload, Refusal<'a>>
        ensures { MatchResult result
            (IsPayloadObject Kind.Aspas (members_list (members_view members.now)))
            (λ r. OrMemory (RefusesAspa (members_list (members_view members.now))) r.reason) }
    {
        let customer = self.asn(Part::Customer, members)?;
        let member = self.needed(Part::Providers, members)?;
        match providers_of(alloc, member.value) {
            Ok(providers) => Ok(Payload::aspa(customer, providers)),
            Err(reason) => Err(self.refusal_of(member.name, reason)),
        }
    }

    /// The prefix.
    fn prefix(self, members: &[(&'a str, Value<'a>)]) -> Result<Prefix, Refusal<'a>>
        ensures { MatchResult result
            (Has Part.Prefix IsPrefixValue (members_list (members_view members.now)))
            (λ r. RefusesPart Part.Prefix RefusesPrefixValue
            (members_list (members_view members.now)) r.reason) }
    {
        let member = self.needed(Part::Prefix, members)?;
        match prefix_of(member.value) {
            Ok(prefix) => Ok(prefix),
            Err(reason) => Err(self.refusal_of(member.name, reason)),
        }
    }

    /// The max length, if there is one.
    fn max_length(self, members: &[(&'a str, Value<'a>)]) -> Result<Option<u8>, Refusal<'a>>
        ensures { MatchResult result
            (MayHave Part.MaxLength IsMaxLengthValue (members_list (members_view members.now)))
            (λ r. RefusesAny Part.MaxLength RefusesMaxLength
            (members_list (members_view members.now)) r.reason) }
    {
        let Some(member) = self.part(Part::MaxLength, members)? else {
            return Ok(None);
        };
        match max_length_of(member.value) {
            Ok(length) => Ok(Some(length)),
            Err(reason) => Err(self.refusal_of(member.name, reason)),
        }
    }

    /// The ASN of this part.
    fn asn(self, part: Part, members: &[(&'a str, Value<'a>)]) -> Result<Asn, Refusal<'a>>
        ensures { MatchResult result
            (Has part IsAsnValue (members_list (members_view members.now)))
            (λ r. RefusesPart part RefusesAsn (members_list (members_view members.now)) r.reason) }
    {
        let member = self.needed(part, members)?;
        match asn_of(member.value) {
            Ok(asn) => Ok(asn),
            Err(reason) => Err(self.refusal_of(member.name, reason)),
        }
    }

    /// The member of this part. `Missing` if there is none.
    fn needed<'v>(
        self,
        part: Part,
        members: &'v [(&'a str, Value<'a>)],
    ) -> Result<Member<'v, 'a>, Refusal<'a>>
        ensures { MatchResult result
            (λ m. values_of part (members_list (members_view members.now))
            ≡ value_view m.value.now ∷ [])
            (λ r. LacksPart part (members_list (members_view members.now)) r.reason) }
    {
        match self.part(part, members)? {
            Some(member) => Ok(member),
            None => Err(self.refusal_of(part.usual_name(), Reason::Missing)),
        }
    }

    /// The member of this part, if there is one. `Twice` if there are more.
    fn part<'v>(
        self,
        part: Part,
        members: &'v [(&'a str, Value<'a>)],
    ) -> Result<Option<Member<'v, 'a>>, Refusal<'a>>
        ensures { MatchResult result (IsOnly part (members_list (members_view members.now)))
            (λ r. IsTwice part (members_list (members_view members.now)) r.reason) }
    {
        let mut found: Option<Member<'v, 'a>> = None;
        for member in members {
            if part.is_named(member.0) {
                match found {
                    Some(_) => return Err(self.refusal_of(member.0, Reason::Twice)),
                    None => {
                        found = Some(Member {
                            name: member.0,
                            value: &member.1,
                        });
                    }
                }
            }
        }
        Ok(found)
    }

    /// The refusal of the member of this name.
    fn refusal_of(self, name: &'a str, reason: Reason) -> Refusal<'a>
        ensures { result.reason ≡ reason }
    {
        Refusal {
            place: Place::Member(self.array, self.index, name),
            reason,
        }
    }
}

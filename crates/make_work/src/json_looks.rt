//! Whether the value of an unknown name looks like payloads.

ghost use Rattle.std.specs.Prelude.{◌≡◌, ◌&&◌, ◌||◌, ◌⊎◌, ℕ, true, Decides};
ghost use Rattle.std.specs.List.{AllByRecursion};
ghost use Rattle.json.specs.Value.{items_view, members_view, value_view};
ghost use Rattle.rtr_base.specs.Numerals.{IsSerialText};
ghost use Rattle.make_work.specs.JsonPayloads.{HasPayloads, IsLikeCustomer, IsLikeCustomers};
ghost use Rattle.make_work.specs.JsonPayloads.{IsLikeTuple, SomeItemHas, SomeMemberHas};
ghost use Rattle.make_work.specs.JsonPayloads.{holds_part, is_like_payload};
ghost use Rattle.make_work.specs.JsonValues.{IsAsnArray, IsLikeAsn, IsLikeAsnText, IsLikePrefix};
ghost use Rattle.make_work.specs.JsonValues.{IsLikePrefixText, SomeIs};
ghost use Rattle.make_work.specs.JsonValues.{items_list, members_list};

use crate::json_names::Part;
use crate::json_values::asn_of_number;
use json::Value;
use rtr_base::addr::Prefix;
use rtr_base::asn::Asn;

/// Whether a value is, or contains at any depth, what looks like payloads that would be lost:
/// - an object with an ASN and a prefix, with an ASN and a key or its identifier, or with a
///   customer and providers;
/// - an array with the text of a prefix and an ASN among its items;
/// - an object whose names are all ASNs, and whose values are all arrays of ASNs.
#[cycle(looks)]
pub fn has_payloads(value: &Value<'_>) -> bool
    ensures { Decides result (HasPayloads (value_view value.now)) }
{
    match value {
        Value::Array(list) => array_has_payloads(list),
        Value::Object(members) => object_has_payloads(members),
        _ => false,
    }
}

/// The same for an array with these items.
#[cycle(looks)]
fn array_has_payloads(list: &[Value<'_>]) -> bool
    ensures { Decides result (IsLikeTuple (items_list (items_view list.now))
        ⊎ SomeItemHas (items_view list.now)) }
{
    is_like_tuple(list) || some_have_payloads(list)
}

/// The same for an object with these members.
#[cycle(looks)]
fn object_has_payloads(members: &[(&str, Value<'_>)]) -> bool
    ensures { Decides result
        ((is_like_payload (members_list (members_view members.now)) ≡ true)
        ⊎ (IsLikeCustomers (members_list (members_view members.now))
        ⊎ SomeMemberHas (members_view members.now))) }
{
    is_like_payload(members) || is_like_customers(members) || members_have_payloads(members)
}

#[cycle(looks)]
fn some_have_payloads(list: &[Value<'_>]) -> bool
    ensures { Decides result (SomeItemHas (items_view list.now)) }
{
    for item in list {
        if has_payloads(item) {
            return true;
        }
    }
    false
}

#[cycle(looks)]
fn members_have_payloads(members: &[(&str, Value<'_>)]) -> bool
    ensures { Decides result (SomeMemberHas (members_view members.now)) }
{
    for member in members {
        if has_payloads(&member.1) {
            return true;
        }
    }
    false
}

/// Whether an array has the parts of an origin: the text of a prefix, and an ASN beside it.
fn is_like_tuple(list: &[Value<'_>]) -> bool
    ensures { Decides result (IsLikeTuple (items_list (items_view list.now))) }
{
    has_prefix(list) && has_asn(list)
}

/// Whether an item is the text of a prefix.
fn has_prefix(list: &[Value<'_>]) -> bool
    ensures { Decides result (SomeIs IsLikePrefix (items_list (items_view list.now))) }
{
    for item in list {
        if is_prefix(item) {
            return true;
        }
    }
    false
}

fn is_prefix(item: &Value<'_>) -> bool
    ensures { Decides result (IsLikePrefix (value_view item.now)) }
{
    match item {
        Value::String(text) => is_prefix_text(*text),
        _ => false,
    }
}

fn is_prefix_text(text: &str) -> bool
    ensures { Decides result (IsLikePrefixText text.now) }
{
    text.parse::<Prefix>().is_ok()
}

/// Whether an item is an ASN.
fn has_asn(list: &[Value<'_>]) -> bool
    ensures { Decides result (SomeIs IsLikeAsn (items_list (items_view list.now))) }
{
    for item in list {
        if is_asn(item) {
            return true;
        }
    }
    false
}

fn is_asn(item: &Value<'_>) -> bool
    ensures { Decides result (IsLikeAsn (value_view item.now)) }
{
    match item {
        Value::Number(text) => is_asn_number(*text),
        Value::String(text) => is_asn_text(*text),
        _ => false,
    }
}

fn is_asn_number(text: &str) -> bool
    ensures { Decides result ((n : ℕ) × IsSerialText text.now n) }
{
    asn_of_number(text).is_ok()
}

/// Whether an object lists ASPAs by their customers, and isn't empty.
fn is_like_customers(members: &[(&str, Value<'_>)]) -> bool
    ensures { Decides result (IsLikeCustomers (members_list (members_view members.now))) }
{
    !members.is_empty() && are_like_customers(members)
}

fn are_like_customers(members: &[(&str, Value<'_>)]) -> bool
    ensures { Decides result
        (AllByRecursion IsLikeCustomer (members_list (members_view members.now))) }
{
    for member in members {
        if !is_like_customer(member.0, &member.1) {
            return false;
        }
    }
    true
}

/// Whether the name is an ASN, and the value an array of ASNs.
fn is_like_customer(name: &str, value: &Value<'_>) -> bool
    ensures { Decides result (IsLikeCustomer (name.now, value_view value.now)) }
{
    is_asn_text(name) && is_asn_array(value)
}

fn is_asn_text(text: &str) -> bool
    ensures { Decides result (IsLikeAsnText text.now) }
{
    text.parse::<Asn>().is_ok()
}

fn is_asn_array(value: &Value<'_>) -> bool
    ensures { Decides result (IsAsnArray (value_view value.now)) }
{
    match value {
        Value::Array(list) => are_asns(list),
        _ => false,
    }
}

fn are_asns(list: &[Value<'_>]) -> bool
    ensures { Decides result (AllByRecursion IsLikeAsn (items_list (items_view list.now))) }
{
    for item in list {
        if !is_asn(item) {
            return false;
        }
    }
    true
}

/// Whether an object has the parts of a payload: an ASN and a prefix, an ASN and a key or its
/// identifier, or a customer and providers.
fn is_like_payload(members: &[(&str, Value<'_>)]) -> bool
    ensures { result ≡ is_like_payload (members_list (members_view members.now)) }
{
    let is_origin = has_part(members, Part::Asn) && has_part(members, Part::Prefix);
    is_origin || is_like_key(members) || is_like_aspa(members)
}

fn is_like_key(members: &[(&str, Value<'_>)]) -> bool
    ensures { result ≡ (holds_part (members_list (members_view members.now)) Part.Asn
        && (holds_part (members_list (members_view members.now)) Part.KeyIdentifier
        || holds_part (members_list (members_view members.now)) Part.KeyInfo)) }
{
    has_part(members, Part::Asn)
        && (has_part(members, Part::KeyIdentifier) || has_part(members, Part::KeyInfo))
}

fn is_like_aspa(members: &[(&str, Value<'_>)]) -> bool
    ensures { result ≡ (holds_part (members_list (members_view members.now)) Part.Customer
        && holds_part (members_list (members_view members.now)) Part.Providers) }
{
    has_part(members, Part::Customer) && has_part(members, Part::Providers)
}

/// Whether a member is this part.
fn has_part(members: &[(&str, Value<'_>)], part: Part) -> bool
    ensures { result ≡ holds_part (members_list (members_view members.now)) part }
{
    for member in members {
        if part.is_named(member.0) {
            return true;
        }
    }
    false
}

//! Payloads in JSON, as validators print them.

ghost use Rattle.std.specs.Prelude.{◌≡◌, ◌≢◌, ◌∷◌, IfSome, MatchResult, Some, false, true};
ghost use Rattle.std.specs.Bool.{MatchBool};
ghost use Rattle.std.specs.List.{list_any};
ghost use Rattle.json.specs.Json.{document, value};
ghost use Rattle.json.specs.Reads.{token_of};
ghost use Rattle.json.specs.Token.{begin_object};
ghost use Rattle.json.specs.Value.{items_view, members_view, value_view};
ghost use Rattle.make_work.specs.JsonNames.{holding_named};
ghost use Rattle.make_work.specs.JsonPayloads.{AreAuthorizations, AreCustomerAspas};
ghost use Rattle.make_work.specs.JsonPayloads.{AreFamilyPayloads, AreItemPayloads, ArePayloadsIn};
ghost use Rattle.make_work.specs.JsonPayloads.{ArePayloadsOfEach, AreTopPayloads, HasItemsOf};
ghost use Rattle.make_work.specs.JsonPayloads.{HasPayloads, IsCustomerAspa, IsDatedCustomer};
ghost use Rattle.make_work.specs.JsonPayloads.{IsDatedItem, IsItemPayload, IsJsonOf};
ghost use Rattle.make_work.specs.JsonPayloads.{holds_payloads};
ghost use Rattle.make_work.specs.JsonPayloads.{is_array, item_expiry};
ghost use Rattle.make_work.specs.JsonRefusals.{HasFamilyPayloads, HasTopPayloads, IsNoDocument};
ghost use Rattle.make_work.specs.JsonRefusals.{IsSomeCustomer, IsSomeItem, OrMemory};
ghost use Rattle.make_work.specs.JsonRefusals.{RefusesArrayItem, RefusesAuthorizations};
ghost use Rattle.make_work.specs.JsonRefusals.{RefusesCustomer, RefusesFamily, RefusesFirst};
ghost use Rattle.make_work.specs.JsonRefusals.{RefusesJson, RefusesPayloads, RefusesTop};
ghost use Rattle.make_work.specs.JsonRefusals.{RefusesUnknown, RefusesValue};
ghost use Rattle.make_work.specs.JsonValues.{items_list, members_list};
ghost use Rattle.make_work.specs.MakeWords.{ignored_by_words, is_one_of};
ghost use Rattle.make_work.specs.PrivateJson.{AddsOne, AddsPayloads};
ghost use Rattle.make_work.specs.PrivateReading.{AreItems, AreMembers, IfItems, IfMembers, IfValue};
ghost use Rattle.make_work.specs.PrivateReading.{IfSoleValue, IsNoObject, IsSoleValue, IsValue};
ghost use Rattle.make_work.specs.PrivateReading.{TellsFound, is_begin_array, is_begin_object};
ghost use Rattle.make_work.specs.PrivateReading.{is_null};
ghost use Rattle.make_work.specs.Taking.{TakesSome};

use crate::gathering::Gathering;
use crate::item::{Expiry, Item, Place, Reason, Refusal};
use crate::json_looks::has_payloads;
use crate::json_names::{Holding, Kind, family_named, holding_named};
use crate::json_objects::Spot;
use crate::json_values::{asn_of_text, providers_of};
use crate::quotes::without_mark;
use crate::words::is_ignored;
use json::{Error, MAX_DEPTH, Reader, Scratch, Token, Value, is_valid};
use rtr_payload::payload::Payload;
use std::alloc::Global;

/// Takes the payloads of an object in JSON, under the names that validators give them, without
/// regard to case, `_` and `-`:
/// - origins under `roas`, each with `prefix`, `maxLength`, if it has one, and `asn`;
/// - router keys under `bgpsec_keys` and `router-keys`, each with `asn`, `ski`, and `pubkey`,
///   `routerPublicKey` or `spki`;
/// - ASPAs under `aspas` and `aspa`, or under `ipv4` and `ipv6` in `provider_authorizations`, each
///   with `customer_asid` or `customer`, and `providers`; or the providers of each under its
///   customer. Providers are sorted, and each is taken once.
///
/// An ASN is a number, or a text with or without `AS` before it. `metadata` is ignored, and so are
/// the values of names given by `--ignore`. The values of other names are ignored unless they are,
/// or contain at any depth, what looks like payloads (`has_payloads`).
///
/// The first fault decides. `scratch` keeps the texts with escapes. A byte order mark at the start
/// is ignored.
pub fn read_json<'a>(
    alloc: Global,
    text: &'a [u8],
    words: &[String],
    scratch: &'a mut Scratch,
    gathering: &mut Gathering<'a>,
) -> Result<(), Refusal<'a>>
    ensures { MatchResult result
        (λ _. TakesSome (IsJsonOf (ignored_by_words words.now) text.now)
        gathering.old gathering.new)
        (λ r. OrMemory (RefusesJson (ignored_by_words words.now) text.now) r.reason) }
{
    let rest = without_mark(text);
    let Ok(rest) = std::str::from_utf8(rest) else {
        return Err(refusal(Place::Input, Reason::NotText));
    };
    let Ok(mut reader) = Reader::new(rest, scratch) else {
        return Err(refusal(Place::Input, Reason::Memory));
    };
    match read_document(alloc, words, &mut reader, gathering) {
        Ok(()) => Ok(()),
        Err(found) => Err(told(alloc, text.len(), rest, found)),
    }
}

/// The refusal of a text that ends an input of this length, if `found` was found in it before all
/// of it was read. That the text isn't JSON comes first.
fn told<'a>(alloc: Global, length: usize, text: &str, found: Refusal<'a>) -> Refusal<'a>
    ensures { TellsFound (document text.now) found.entry.reason result.reason }
{
    let mut scratch = Scratch::new(alloc);
    match is_valid(text, &mut scratch) {
        Ok(true) => found,
        Ok(false) => not_json(alloc, length, text),
        Err(_) => refusal(Place::Input, Reason::Memory),
    }
}

fn refusal(place: Place<'_>, reason: Reason) -> Refusal<'_>
    ensures { result.reason ≡ reason }
{
    Refusal { place, reason }
}

/// The refusal of a text that ends an input of this length, and isn't JSON or nests too deep.
fn not_json<'a>(alloc: Global, length: usize, text: &str) -> Refusal<'a>
    ensures { OrMemory IsNoDocument result.reason }
{
    let before = length.saturating_sub(text.len());
    let mut scratch = Scratch::new(alloc);
    let Ok(mut reader) = Reader::new(text, &mut scratch) else {
        return refusal(Place::Input, Reason::Memory);
    };
    if reader.skip_value(MAX_DEPTH).is_ok() {
        let _extra = reader.next();
    }
    let reason = match is_too_deep(alloc, text) {
        Some(true) => Reason::TooDeep,
        Some(false) if ends_early(text.as_bytes(), reader.offset()) => Reason::EndsEarly,
        Some(false) => Reason::NotJson,
        None => Reason::Memory,
    };
    let offset = before.saturating_add(reader.offset());
    refusal(Place::Offset(offset as u64), reason)
}

/// Whether a text that isn't JSON from this offset on may be cut off: nothing is left there, or a
/// string or a word that doesn't end.
fn ends_early(text: &[u8], offset: usize) -> bool {
    match text.get(offset..) {
        Some([]) => offset > 0,
        Some([b'"', rest @ ..]) => !has_quote(rest),
        Some(rest) => {
            is_start(rest, b"true") || is_start(rest, b"false") || is_start(rest, b"null")
        }
        None => false,
    }
}

/// Whether the text contains a quote.
fn has_quote(text: &[u8]) -> bool {
    for byte in text {
        if *byte == b'"' {
            return true;
        }
    }
    false
}

/// Whether the word begins with this text.
fn is_start(text: &[u8], word: &[u8]) -> bool {
    word.starts_with(text)
}

/// Whether arrays and objects nest deeper than allowed, if there is memory to find out.
fn is_too_deep(alloc: Global, text: &str) -> Option<bool> {
    let mut scratch = Scratch::new(alloc);
    let Ok(mut reader) = Reader::new(text, &mut scratch) else {
        return None;
    };
    let mut open: usize = 0;
    while let Some(token) = reader.next() {
        match token {
            Token::BeginArray | Token::BeginObject => {
                if open == MAX_DEPTH {
                    return Some(true);
                }
                open += 1;
            }
            Token::EndArray | Token::EndObject => open = open.saturating_sub(1),
            _ => {}
        }
    }
    Some(false)
}

/// Takes the items of the object that the document must be. What follows a refusal isn't read.
fn read_document<'a>(
    alloc: Global,
    words: &[String],
    reader: &mut Reader<'a>,
    gathering: &mut Gathering<'a>,
) -> Result<(), Refusal<'a>>
    ensures { MatchResult result
        (λ _. IsSoleValue reader.old (λ j.
        TakesSome (HasItemsOf (ignored_by_words words.now) j) gathering.old gathering.new))
        (λ r. IfSoleValue reader.old (λ j. OrMemory (RefusesValue (ignored_by_words words.now) j)
        r.reason)) }
{
    if !begins_object(reader) {
        return Err(refusal(Place::Input, Reason::NotObject));
    }
    let has_array = match read_members(alloc, words, reader, gathering) {
        Ok(has_array) => has_array,
        Err(refusal) => return Err(refusal),
    };
    match reader.next() {
        Some(_) => Err(refusal(Place::Input, Reason::NotJson)),
        None => check_found(has_array),
    }
}

/// Refuses a document without an array of payloads.
fn check_found<'a>(has_array: bool) -> Result<(), Refusal<'a>>
    ensures { MatchResult result (λ _. has_array ≡ true)
        (λ r. (has_array ≡ false) × (r.reason ≡ Reason.NoArray)) }
{
    if has_array {
        Ok(())
    } else {
        Err(refusal(Place::Input, Reason::NoArray))
    }
}

/// Whether an object begins.
fn begins_object(reader: &mut Reader<'_>) -> bool
    ensures { MatchBool result (reader.old ≡ begin_object ∷ reader.new)
        (IfSoleValue reader.old IsNoObject) }
{
    match reader.next() {
        Some(token) => is_begin_object(token),
        None => false,
    }
}

fn is_begin_object(token: Token<'_>) -> bool
    ensures { result ≡ is_begin_object (token_of token.entry) }
{
    match token {
        Token::BeginObject => true,
        _ => false,
    }
}

/// Reads the members of the top object to its end. Reports whether the name of one is known for
/// payloads.
fn read_members<'a>(
    alloc: Global,
    words: &[String],
    reader: &mut Reader<'a>,
    gathering: &mut Gathering<'a>,
) -> Result<bool, Refusal<'a>>
    ensures { MatchResult result
        (λ has. AreMembers reader.old reader.new (λ ms.
        AddsPayloads (ArePayloadsOfEach (AreTopPayloads (ignored_by_words words.now)) ms)
        gathering.old gathering.new
        × (has ≡ list_any (λ m. is_array (ignored_by_words words.now) m.0) ms)))
        (λ r. IfMembers reader.old (λ ms.
        OrMemory (RefusesFirst (HasTopPayloads (ignored_by_words words.now))
        (RefusesTop (ignored_by_words words.now)) ms) r.reason)) }
{
    let mut has_array = false;
    loop {
        let name = match reader.next_key() {
            Ok(Some(name)) => name,
            Ok(None) => return Ok(has_array),
            Err(_) => return Err(refusal(Place::Input, Reason::NotJson)),
        };
        match read_member(alloc, words, name, reader, gathering) {
            Ok(()) => {}
            Err(refusal) => return Err(refusal),
        }
        has_array |= is_array(words, name);
    }
}

/// Adds the payloads of the next value, that of a member of the top object, unless its name is
/// ignored.
fn read_member<'a>(
    alloc: Global,
    words: &[String],
    name: &'a str,
    reader: &mut Reader<'a>,
    gathering: &mut Gathering<'a>,
) -> Result<(), Refusal<'a>>
    ensures { MatchResult result
        (λ _. IsValue 127 reader.old reader.new (λ j.
        AddsPayloads (AreTopPayloads (ignored_by_words words.now) name.now j)
        gathering.old gathering.new))
        (λ r. IfValue 127 reader.old (λ j.
        OrMemory (RefusesTop (ignored_by_words words.now) (name.now, j)) r.reason)) }
{
    match listed_kind(words, name) {
        Some(kind) => read_payloads(alloc, name, kind, reader, gathering),
        None => {
            let value = read_value(alloc, reader, MAX_DEPTH - 1)?;
            add_member(alloc, words, name, &value, gathering)
        }
    }
}

/// The kind of the payloads that a member of this name lists, if it does. ASPAs may be listed under
/// the names of their customers instead.
fn listed_kind(words: &[String], name: &str) -> Option<Kind>
    ensures { IfSome result (λ kind. (kind ≢ Kind.Aspas)
        × (is_one_of (ignored_by_words words.now) name.now ≡ false)
        × (holding_named name.now ≡ Some (Holding.Payloads kind))) }
{
    if is_ignored(words, name) {
        return None;
    }
    match holding_named(name) {
        Some(Holding::Payloads(Kind::Origins)) => Some(Kind::Origins),
        Some(Holding::Payloads(Kind::RouterKeys)) => Some(Kind::RouterKeys),
        _ => None,
    }
}

/// Adds the payloads of the next value, which is an array, or `null`, as stayrtr writes it for no
/// payloads.
fn read_payloads<'a>(
    alloc: Global,
    array: &'a str,
    kind: Kind,
    reader: &mut Reader<'a>,
    gathering: &mut Gathering<'a>,
) -> Result<(), Refusal<'a>>
    requires { kind ≢ Kind.Aspas }
    ensures { MatchResult result
        (λ _. IsValue 127 reader.old reader.new (λ j.
        AddsPayloads (ArePayloadsIn kind j) gathering.old gathering.new))
        (λ r. IfValue 127 reader.old (λ j. OrMemory (RefusesPayloads kind j) r.reason)) }
{
    let token = match reader.next() {
        Some(token) => token,
        None => return Err(refusal(Place::Input, Reason::NotJson)),
    };
    if is_begin_array(token) {
        return read_list(alloc, array, kind, reader, gathering);
    }
    if is_null(token) {
        return Ok(());
    }
    Err(refusal(Place::Array(array), Reason::NotArray))
}

fn is_begin_array(token: Token<'_>) -> bool
    ensures { result ≡ is_begin_array (token_of token.entry) }
{
    match token {
        Token::BeginArray => true,
        _ => false,
    }
}

fn is_null(token: Token<'_>) -> bool
    ensures { result ≡ is_null (token_of token.entry) }
{
    match token {
        Token::Null => true,
        _ => false,
    }
}

/// Adds the payloads of the items of an array to its end. Each item is dropped before the next is
/// read.
fn read_list<'a>(
    alloc: Global,
    array: &'a str,
    kind: Kind,
    reader: &mut Reader<'a>,
    gathering: &mut Gathering<'a>,
) -> Result<(), Refusal<'a>>
    ensures { MatchResult result
        (λ _. AreItems reader.old reader.new (λ js.
        AddsPayloads (AreItemPayloads kind js) gathering.old gathering.new))
        (λ r. IfItems reader.old (λ js.
        OrMemory (RefusesFirst (IsSomeItem kind) (RefusesArrayItem kind) js) r.reason)) }
{
    let mut spot = Spot { array, index: 0 };
    while !reader.take_end_array() {
        match read_item(alloc, spot, kind, reader, gathering) {
            Ok(()) => {}
            Err(refusal) => return Err(refusal),
        }
        spot.index = spot.index.saturating_add(1);
    }
    Ok(())
}

/// Adds the payload of the next item of an array.
fn read_item<'a>(
    alloc: Global,
    spot: Spot<'a>,
    kind: Kind,
    reader: &mut Reader<'a>,
    gathering: &mut Gathering<'a>,
) -> Result<(), Refusal<'a>>
    ensures { MatchResult result
        (λ _. IsValue 126 reader.old reader.new (λ j.
        AddsOne (IsDatedItem kind j) gathering.old gathering.new))
        (λ r. IfValue 126 reader.old (λ j. OrMemory (RefusesArrayItem kind j) r.reason)) }
{
    let item = read_value(alloc, reader, MAX_DEPTH - 2)?;
    add_item(alloc, spot, kind, &item, gathering)
}

/// The next value. Arrays and objects may nest to this depth.
fn read_value<'a>(
    alloc: Global,
    reader: &mut Reader<'a>,
    depth: usize,
) -> Result<Value<'a>, Refusal<'a>>
    ensures { MatchResult result
        (λ v. value depth reader.old ≡ Some (value_view v, reader.new))
        (λ r. IfValue depth reader.old (λ _. r.reason ≡ Reason.Memory)) }
{
    match Value::read(alloc, reader, depth) {
        Ok(value) => Ok(value),
        Err(Error::OutOfMemory) => Err(refusal(Place::Input, Reason::Memory)),
        Err(_) => Err(refusal(Place::Input, Reason::NotJson)),
    }
}

/// Whether a member of this name has payloads.
fn is_array(words: &[String], name: &str) -> bool
    ensures { result ≡ is_array (ignored_by_words words.now) name.now }
{
    !is_ignored(words, name) && holds_payloads(holding_named(name))
}

fn holds_payloads(holding: Option<Holding>) -> bool
    ensures { result ≡ holds_payloads holding }
{
    match holding {
        Some(Holding::Payloads(_) | Holding::Authorizations) => true,
        _ => false,
    }
}

/// Adds the payloads of a member of the top object, unless its name is ignored.
fn add_member<'a>(
    alloc: Global,
    words: &[String],
    name: &'a str,
    value: &Value<'a>,
    gathering: &mut Gathering<'a>,
) -> Result<(), Refusal<'a>>
    ensures { MatchResult result
        (λ _. AddsPayloads
        (AreTopPayloads (ignored_by_words words.now) name.now (value_view value.now))
        gathering.old gathering.new)
        (λ r. OrMemory (RefusesTop (ignored_by_words words.now)
        (name.now, value_view value.now)) r.reason) }
{
    if is_ignored(words, name) {
        return Ok(());
    }
    match holding_named(name) {
        Some(Holding::Payloads(kind)) => add_payloads(alloc, name, kind, value, gathering),
        Some(Holding::Authorizations) => add_authorizations(alloc, name, value, gathering),
        Some(Holding::Metadata) => Ok(()),
        None => check_unknown(Place::Unknown(name), value),
    }
}

/// Refuses what looks like payloads at this place.
fn check_unknown<'a>(place: Place<'a>, value: &Value<'_>) -> Result<(), Refusal<'a>>
    ensures { MatchResult result (λ _. ¬ HasPayloads (value_view value.now))
        (λ r. RefusesUnknown (value_view value.now) r.reason) }
{
    if has_payloads(value) {
        return Err(refusal(place, Reason::UnknownName));
    }
    Ok(())
}

/// Adds the ASPAs that are listed for each address family.
fn add_authorizations<'a>(
    alloc: Global,
    array: &'a str,
    value: &Value<'a>,
    gathering: &mut Gathering<'a>,
) -> Result<(), Refusal<'a>>
    ensures { MatchResult result
        (λ _. AddsPayloads (AreAuthorizations (value_view value.now))
        gathering.old gathering.new)
        (λ r. OrMemory (RefusesAuthorizations (value_view value.now)) r.reason) }
{
    match value {
        Value::Object(members) => add_families(alloc, array, members, gathering),
        _ => Err(refusal(Place::Array(array), Reason::NotObject)),
    }
}

fn add_families<'a>(
    alloc: Global,
    array: &'a str,
    members: &[(&'a str, Value<'a>)],
    gathering: &mut Gathering<'a>,
) -> Result<(), Refusal<'a>>
    ensures { MatchResult result
        (λ _. AddsPayloads
        (ArePayloadsOfEach AreFamilyPayloads (members_list (members_view members.now)))
        gathering.old gathering.new)
        (λ r. OrMemory (RefusesFirst HasFamilyPayloads RefusesFamily
        (members_list (members_view members.now))) r.reason) }
{
    for member in members {
        match add_family(alloc, array, member.0, &member.1, gathering) {
            Ok(()) => {}
            Err(refusal) => return Err(refusal),
        }
    }
    Ok(())
}

/// Adds the ASPAs under the name of a family.
fn add_family<'a>(
    alloc: Global,
    array: &'a str,
    name: &'a str,
    value: &Value<'a>,
    gathering: &mut Gathering<'a>,
) -> Result<(), Refusal<'a>>
    ensures { MatchResult result
        (λ _. AddsPayloads (AreFamilyPayloads name.now (value_view value.now))
        gathering.old gathering.new)
        (λ r. OrMemory (RefusesFamily (name.now, value_view value.now)) r.reason) }
{
    match family_named(name) {
        Some(family) => add_payloads(alloc, family, Kind::Aspas, value, gathering),
        None => check_unknown(Place::Entry(array, name), value),
    }
}

/// Adds the payloads of an array, for which stayrtr writes `null` if there are none, or ASPAs by
/// their customers, as FORT writes them.
fn add_payloads<'a>(
    alloc: Global,
    array: &'a str,
    kind: Kind,
    value: &Value<'a>,
    gathering: &mut Gathering<'a>,
) -> Result<(), Refusal<'a>>
    ensures { MatchResult result
        (λ _. AddsPayloads (ArePayloadsIn kind (value_view value.now))
        gathering.old gathering.new)
        (λ r. OrMemory (RefusesPayloads kind (value_view value.now)) r.reason) }
{
    match (kind, value) {
        (_, Value::Null) => Ok(()),
        (_, Value::Array(list)) => add_list(alloc, array, kind, list, gathering),
        (Kind::Aspas, Value::Object(members)) => add_customers(alloc, array, members, gathering),
        _ => Err(refusal(Place::Array(array), Reason::NotArray)),
    }
}

/// Adds the payloads of the items of a list.
fn add_list<'a>(
    alloc: Global,
    array: &'a str,
    kind: Kind,
    list: &[Value<'a>],
    gathering: &mut Gathering<'a>,
) -> Result<(), Refusal<'a>>
    ensures { MatchResult result
        (λ _. AddsPayloads (AreItemPayloads kind (items_list (items_view list.now)))
        gathering.old gathering.new)
        (λ r. OrMemory (RefusesFirst (IsSomeItem kind) (RefusesArrayItem kind)
        (items_list (items_view list.now))) r.reason) }
{
    let mut spot = Spot { array, index: 0 };
    for item in list {
        match add_item(alloc, spot, kind, item, gathering) {
            Ok(()) => {}
            Err(refusal) => return Err(refusal),
        }
        spot.index = spot.index.saturating_add(1);
    }
    Ok(())
}

/// Adds the payload of an item of an array.
fn add_item<'a>(
    alloc: Global,
    spot: Spot<'a>,
    kind: Kind,
    item: &Value<'a>,
    gathering: &mut Gathering<'a>,
) -> Result<(), Refusal<'a>>
    ensures { MatchResult result
        (λ _. AddsOne (IsDatedItem kind (value_view item.now)) gathering.old gathering.new)
        (λ r. OrMemory (RefusesArrayItem kind (value_view item.now)) r.reason) }
{
    match payload_of(alloc, spot, kind, item) {
        Ok(payload) => take(gathering, spot.place(), payload, expiry_of(spot, item)),
        Err(refusal) => Err(refusal),
    }
}

/// The expiry of an item of an array.
fn expiry_of<'a>(spot: Spot<'a>, item: &Value<'a>) -> Expiry
    ensures { result ≡ item_expiry (value_view item.now) }
{
    match item {
        Value::Object(members) => spot.expiry(members),
        _ => Expiry::Never,
    }
}

/// The payload of an item of an array.
fn payload_of<'a>(
    alloc: Global,
    spot: Spot<'a>,
    kind: Kind,
    item: &Value<'a>,
) -> Result<Payload, Refusal<'a>>
    ensures { MatchResult result (IsItemPayload kind (value_view item.now))
        (λ r. OrMemory (RefusesArrayItem kind (value_view item.now)) r.reason) }
{
    match item {
        Value::Object(members) => spot.payload(alloc, kind, members),
        _ => Err(refusal(spot.place(), Reason::NotObject)),
    }
}

fn take<'a>(
    gathering: &mut Gathering<'a>,
    place: Place<'a>,
    payload: Payload,
    expiry: Expiry,
) -> Result<(), Refusal<'a>>
    ensures { MatchResult result
        (λ _. AddsOne (λ p. p ≡ (payload, expiry)) gathering.old gathering.new)
        (λ r. r.reason ≡ Reason.Memory) }
{
    let item = Item {
        place,
        payload,
        expiry,
    };
    match gathering.take(item) {
        Ok(()) => Ok(()),
        Err(reason) => Err(refusal(Place::Input, reason)),
    }
}

/// Adds the ASPAs of an object whose names are customers, and whose values are their providers.
fn add_customers<'a>(
    alloc: Global,
    array: &'a str,
    members: &[(&'a str, Value<'a>)],
    gathering: &mut Gathering<'a>,
) -> Result<(), Refusal<'a>>
    ensures { MatchResult result
        (λ _. AddsPayloads (AreCustomerAspas (members_list (members_view members.now)))
        gathering.old gathering.new)
        (λ r. OrMemory (RefusesFirst IsSomeCustomer RefusesCustomer
        (members_list (members_view members.now))) r.reason) }
{
    for member in members {
        match add_customer(alloc, array, member.0, &member.1, gathering) {
            Ok(()) => {}
            Err(refusal) => return Err(refusal),
        }
    }
    Ok(())
}

/// Adds the ASPA of the customer in the name.
fn add_customer<'a>(
    alloc: Global,
    array: &'a str,
    name: &'a str,
    value: &Value<'a>,
    gathering: &mut Gathering<'a>,
) -> Result<(), Refusal<'a>>
    ensures { MatchResult result
        (λ _. AddsOne (IsDatedCustomer name.now (value_view value.now))
        gathering.old gathering.new)
        (λ r. OrMemory (RefusesCustomer (name.now, value_view value.now)) r.reason) }
{
    let place = Place::Entry(array, name);
    match aspa_of(alloc, name, value) {
        Ok(payload) => take(gathering, place, payload, Expiry::Never),
        Err(reason) => Err(refusal(place, reason)),
    }
}

/// The ASPA of the customer in the name, with the providers in the value.
fn aspa_of(alloc: Global, name: &str, value: &Value<'_>) -> Result<Payload, Reason>
    ensures { MatchResult result (IsCustomerAspa name.now (value_view value.now))
        (OrMemory (RefusesCustomer (name.now, value_view value.now))) }
{
    let customer = asn_of_text(name)?;
    let providers = providers_of(alloc, value)?;
    Ok(Payload::aspa(customer, providers))
}

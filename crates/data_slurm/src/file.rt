//! A SLURM file, which is JSON.

ghost use Rattle.std.specs.Prelude.{◌≡◌, ◌++◌, ◌⊎◌, true, false, MatchResult, codes};
ghost use Rattle.std.specs.Bool.{MatchBool};
ghost use Rattle.json.specs.Find.{get};
ghost use Rattle.json.specs.Value.{items_view, members_view, value_view};
ghost use Rattle.data_slurm.specs.PrivateEntries.{AddsEntries};
ghost use Rattle.data_slurm.specs.SlurmFiles.{AreArrays, AreEntries, ArrayValueWrong, ArrayWrong};
ghost use Rattle.data_slurm.specs.SlurmFiles.{ArraysWrong, EntryWrong, FormWrong, IsArrayValue};
ghost use Rattle.data_slurm.specs.SlurmFiles.{GroupWrong, IsArrayOf, IsEntry, IsForm, IsGroupOf};
ghost use Rattle.data_slurm.specs.SlurmFiles.{IsSlurm, IsSlurmText, IsVersionOne};
ghost use Rattle.data_slurm.specs.SlurmFiles.{SlurmTextWrong, SlurmWrong, SomeEntryWrong};
ghost use Rattle.data_slurm.specs.SlurmFiles.{some_unknown};
ghost use Rattle.data_slurm.specs.SlurmNames.{array_name, group_name};

use crate::entry::Entry;
use crate::items::{entry_of, has_fine_comment};
use crate::names::{Form, Group, Kind};
use crate::reason::{SlurmPlace, SlurmReason, SlurmRefusal};
use crate::slurm::Slurm;
use json::{Error, Scratch, Value};
use std::alloc::Global;

/// Reads a SLURM file (RFC 8416 section 3). The first of these faults is returned: memory runs out,
/// the file isn't UTF-8, isn't JSON, or has a name twice in an object; then the first fault in the
/// order in which RFC 8416 lists members. `scratch` keeps the texts with escapes.
pub fn read_slurm<'a>(
    alloc: Global,
    text: &'a [u8],
    scratch: &'a mut Scratch,
) -> Result<Slurm, SlurmRefusal<'a>>
    ensures { MatchResult result (λ s. IsSlurmText text.now s.entries.items)
        (λ r. SlurmTextWrong text.now r.reason) }
{
    let Ok(text) = std::str::from_utf8(text) else {
        return Err(refusal(SlurmPlace::File, SlurmReason::NotText));
    };
    match Value::parse_strict(alloc, text, scratch) {
        Ok(value) => slurm_of(alloc, &value),
        Err(Error::Invalid) => Err(refusal(SlurmPlace::File, SlurmReason::NotJson)),
        Err(Error::DuplicateKey) => Err(refusal(SlurmPlace::File, SlurmReason::Twice)),
        Err(_) => Err(refusal(SlurmPlace::File, SlurmReason::Memory)),
    }
}

fn refusal(place: SlurmPlace<'_>, reason: SlurmReason) -> SlurmRefusal<'_>
    ensures { result.reason ≡ reason }
{
    SlurmRefusal { place, reason }
}

/// The entries in the value of a file.
fn slurm_of<'a>(alloc: Global, value: &Value<'a>) -> Result<Slurm, SlurmRefusal<'a>>
    ensures { MatchResult result (λ s. IsSlurm (value_view value.now) s.entries.items)
        (λ r. SlurmWrong (value_view value.now) r.reason) }
{
    if let Err(refusal) = check_form(Form::File, value) {
        return Err(refusal);
    }
    if !has_version_one(value) {
        return Err(refusal(SlurmPlace::Member("slurmVersion"), SlurmReason::Version));
    }
    let mut slurm = Slurm::new(alloc);
    if let Err(refusal) = add_group(alloc, Group::Filters, value, &mut slurm.entries) {
        return Err(refusal);
    }
    match add_group(alloc, Group::Assertions, value, &mut slurm.entries) {
        Ok(()) => Ok(slurm),
        Err(refusal) => Err(refusal),
    }
}

/// Reports whether `slurmVersion` is 1.
fn has_version_one(value: &Value<'_>) -> bool
    ensures { MatchBool result (IsVersionOne (get (codes "slurmVersion") (value_view value.now)))
        (¬ IsVersionOne (get (codes "slurmVersion") (value_view value.now))) }
{
    match value.get("slurmVersion") {
        Some(version) => version.as_number() == Some("1"),
        None => false,
    }
}

/// Refuses a value that isn't an object of this form, at its first unknown member.
fn check_form<'a>(form: Form, value: &Value<'a>) -> Result<(), SlurmRefusal<'a>>
    ensures { MatchResult result (λ _. IsForm form (value_view value.now))
        (λ r. FormWrong form (value_view value.now) r.reason) }
{
    match value {
        Value::Object(members) => check_members(form, members.as_slice()),
        _ => Err(refusal(SlurmPlace::File, SlurmReason::NotObject)),
    }
}

fn check_members<'a>(form: Form, members: &[(&'a str, Value<'a>)]) -> Result<(), SlurmRefusal<'a>>
    ensures { MatchResult result
        (λ _. some_unknown form (members_view members.now) ≡ false)
        (λ r. (r.reason ≡ SlurmReason.UnknownMember)
        × (some_unknown form (members_view members.now) ≡ true)) }
{
    for member in members {
        if !form.may_have(member.0) {
            return Err(refusal(SlurmPlace::Member(member.0), SlurmReason::UnknownMember));
        }
    }
    Ok(())
}

/// Adds the entries of the two arrays of a group.
fn add_group<'a>(
    alloc: Global,
    group: Group,
    file: &Value<'a>,
    entries: &mut Vec<Entry>,
) -> Result<(), SlurmRefusal<'a>>
    ensures { MatchResult result
        (λ _. AddsEntries (IsGroupOf group (get (group_name group) (value_view file.now)))
        entries.old.items entries.new.items)
        (λ r. GroupWrong group (get (group_name group) (value_view file.now)) r.reason) }
{
    let name = group.name();
    let Some(value) = file.get(name) else {
        return Err(refusal(SlurmPlace::Member(name), SlurmReason::Missing));
    };
    match check_form(Form::Group(group), value) {
        Ok(()) => add_arrays(alloc, group, value, entries),
        Err(refused) => Err(refusal(within(refused.place, name), refused.reason)),
    }
}

/// The place of the value with this name in a value at a place.
fn within<'a>(place: SlurmPlace<'a>, name: &'a str) -> SlurmPlace<'a> {
    match place {
        SlurmPlace::File => SlurmPlace::Member(name),
        other => other,
    }
}

/// Adds the entries of the two arrays in the value of a group.
fn add_arrays<'a>(
    alloc: Global,
    group: Group,
    value: &Value<'a>,
    entries: &mut Vec<Entry>,
) -> Result<(), SlurmRefusal<'a>>
    ensures { MatchResult result
        (λ _. AddsEntries (AreArrays group (value_view value.now))
        entries.old.items entries.new.items)
        (λ r. ArraysWrong group (value_view value.now) r.reason) }
{
    match add_array(alloc, group.first(), value, entries) {
        Ok(()) => add_array(alloc, group.second(), value, entries),
        Err(refusal) => Err(refusal),
    }
}

/// Adds the entries of one array.
fn add_array<'a>(
    alloc: Global,
    kind: Kind,
    value: &Value<'a>,
    entries: &mut Vec<Entry>,
) -> Result<(), SlurmRefusal<'a>>
    ensures { MatchResult result
        (λ _. AddsEntries (IsArrayOf kind (get (array_name kind) (value_view value.now)))
        entries.old.items entries.new.items)
        (λ r. ArrayWrong kind (get (array_name kind) (value_view value.now)) r.reason) }
{
    let name = kind.array();
    match value.get(name) {
        Some(found) => add_found(alloc, kind, found, entries),
        None => Err(refusal(SlurmPlace::Member(name), SlurmReason::Missing)),
    }
}

/// Adds the entries of an array.
fn add_found<'a>(
    alloc: Global,
    kind: Kind,
    value: &Value<'a>,
    entries: &mut Vec<Entry>,
) -> Result<(), SlurmRefusal<'a>>
    ensures { MatchResult result
        (λ _. AddsEntries (IsArrayValue kind (value_view value.now))
        entries.old.items entries.new.items)
        (λ r. ArrayValueWrong kind (value_view value.now) r.reason) }
{
    match value {
        Value::Array(list) => add_items(alloc, kind, list.as_slice(), entries),
        _ => Err(refusal(SlurmPlace::Member(kind.array()), SlurmReason::NotArray)),
    }
}

/// Adds the entry of each item.
fn add_items<'a>(
    alloc: Global,
    kind: Kind,
    list: &[Value<'a>],
    entries: &mut Vec<Entry>,
) -> Result<(), SlurmRefusal<'a>>
    ensures { MatchResult result
        (λ _. AddsEntries (AreEntries kind (items_view list.now))
        entries.old.items entries.new.items)
        (λ r. SomeEntryWrong kind (items_view list.now) r.reason) }
{
    let mut index: u64 = 0;
    for item in list {
        match entry_at(alloc, kind, index, item) {
            Ok(entry) => match entries.push(entry) {
                Ok(()) => {}
                Err(_) => return Err(refusal(SlurmPlace::File, SlurmReason::Memory)),
            },
            Err(refusal) => return Err(refusal),
        }
        index = index.saturating_add(1);
    }
    Ok(())
}

/// The entry of the item at this index.
fn entry_at<'a>(
    alloc: Global,
    kind: Kind,
    index: u64,
    item: &Value<'a>,
) -> Result<Entry, SlurmRefusal<'a>>
    ensures { MatchResult result (IsEntry kind (value_view item.now))
        (λ r. EntryWrong kind (value_view item.now) r.reason) }
{
    let place = SlurmPlace::Item(kind, index);
    if let Err(refused) = check_form(Form::Item(kind), item) {
        return Err(refusal(item_place(kind, index, refused.place), refused.reason));
    }
    if !has_fine_comment(item) {
        return Err(refusal(place, SlurmReason::Comment));
    }
    match entry_of(alloc, kind, item) {
        Ok(entry) => Ok(entry),
        Err(reason) => Err(refusal(place, reason)),
    }
}

/// The place of the item, or of a member of it.
fn item_place<'a>(kind: Kind, index: u64, place: SlurmPlace<'a>) -> SlurmPlace<'a> {
    match place {
        SlurmPlace::Member(name) => SlurmPlace::ItemMember(kind, index, name),
        _ => SlurmPlace::Item(kind, index),
    }
}

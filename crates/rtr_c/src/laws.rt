//! Laws of the calls: what follows from their contracts.

ghost use Rattle.std.specs.Prelude.{◌≡◌, ◌≢◌, ◌<◌, ◌≤◌, ◌^◌, ◌+◌, ◌++◌, ℕ, Bool, List, take};
ghost use Rattle.std.specs.Prelude.{drop, length, Option, Some, Result, Ok, false};
ghost use Rattle.rtr_base.specs.Addresses.{PrefixParts};
ghost use Rattle.rtr_base.specs.Bytes.{IsBytes};
ghost use Rattle.rtr_units.specs.Codes.{code_of};
ghost use Rattle.rtr_units.specs.End.{EndMeaning};
ghost use Rattle.rtr_units.specs.Header.{type_field};
ghost use Rattle.rtr_payload.specs.Payloads.{Payload};
ghost use Rattle.unit_views.specs.OwedCodes.{owed, read_fault};
ghost use Rattle.unit_views.specs.declared.fault.ViewFault.{ViewFault};
ghost use Rattle.data_memory.specs.ChangeCodes.{change_code};
ghost use Rattle.data_memory.specs.declared.change_error.ChangeError.TheVariants as refusals;
ghost use Rattle.data_slices.specs.Canonical.{HoldsData};
ghost use Rattle.data_validation.specs.Covering.{IsFirstCovering};
ghost use Rattle.data_validation.specs.Validity.{IsValidity};
ghost use Rattle.data_validation.specs.declared.finding.CoveringVrp.{CoveringVrp};
ghost use Rattle.data_validation.specs.declared.validity.Validity.{Validity};
ghost use Rattle.unit_any.specs.AnyFields.{AnyFields, HasAnyFields};
ghost use Rattle.unit_any.specs.SessionForms.{session_form};
ghost use Rattle.text_findings.specs.PayloadNames.{unit_name};
ghost use Rattle.rtr_wire.specs.Comparison.{ComparesMeanings};
ghost use Rattle.rtr_wire.specs.Sequences.{Output, everything};
ghost use Rattle.rtr_wire.specs.declared.compare_slices.ComparisonFault.{ComparisonFault};
ghost use Rattle.rtr_c.specs.Answers.{CallNormalises, IsWanted, fault_status, joined_answer};
ghost use Rattle.rtr_c.specs.Answers.{rtr_duplicate, rtr_no_room, rtr_ok, rtr_short, rtr_unknown};
ghost use Rattle.rtr_c.specs.Checks.{LooksAt, is_bare_aspa, numbered_finding, told_line};
ghost use Rattle.rtr_c.specs.Compared.{TellsComparison, comparison_told, rtr_left, rtr_right};
ghost use Rattle.rtr_c.specs.Compared.{WantsMore, stop_compared};
ghost use Rattle.rtr_c.specs.Kept.{IsShownAgain};
ghost use Rattle.rtr_c.specs.Lookups.{IsLookup, is_sealed, unsealed};
ghost use Rattle.rtr_c.specs.Numbers.{code_owed, status_code};
ghost use Rattle.rtr_c.specs.PrivateRanges.{IsRanged};
ghost use Rattle.rtr_c.specs.Routes.{ShowsFound, TellsCovering, TellsValidity, validity_number};
ghost use Rattle.rtr_c.specs.WrittenUnits.{said};
ghost use Rattle.rtr_c.specs.ShownUnits.{CallShows, IsWrittenAgain, ShowsFirst};
ghost use Rattle.rtr_c.specs.declared.answer.RtrAnswer.{RtrAnswer};
ghost use Rattle.rtr_c.specs.declared.check.RtrFinding.{RtrFinding};
ghost use Rattle.rtr_c.specs.declared.compare.RtrComparison.{RtrComparison};
ghost use Rattle.rtr_c.specs.declared.lookup.RtrLookup.{RtrLookup};
ghost use Rattle.rtr_c.specs.declared.unit.RtrUnit.{RtrUnit};
ghost use Rattle.rtr_c.specs.declared.validation.RtrCovering.{RtrCovering};

use crate::unit::RtrUnit;

/// If a call that normalises stops, and a second call with its own limit continues over the rest of
/// the input and of the output, both together are one call.
pub fn two_calls_are_one()
    ensures { (what : Output) (first limit : ℕ) (input before mid after : List ℕ)
        (a b : RtrAnswer) (code other : ℕ) →
        CallNormalises what first input before mid a code → code ≢ 0 →
        CallNormalises what limit (drop a.taken input) (drop a.written mid) after b other →
        CallNormalises what (a.units + limit) input before (take a.written mid ++ after)
        (joined_answer a b) other }
{
    rtr_wire::laws::resumed();
}

/// A unit that is shown is written as its form: a payload unit as that of its meaning, a reset
/// query and a cache reset with 0 in the session field, and any other unit as its bytes. So is a
/// report whose inner lengths fit.
pub fn shown_and_written()
    ensures { (input b rest : List ℕ) (f : AnyFields) (u : RtrUnit) →
        input ≡ b ++ rest → HasAnyFields b f → IsWrittenAgain b f → CallShows b f u →
        said u input ≡ Ok (session_form f) }
{}

/// A unit that is written is one unit of at most 65535 bytes, with the given fields of its kind
/// (RFC 8210 sections 5.2 to 5.11): exactly these are shown of it, whatever follows it, and its key
/// info, its providers, or the unit and the text of a report are the given bytes.
///
/// Not kept are fields that its kind doesn't have, the bits of an address after the prefix length,
/// the providers of a withdrawn ASPA, the timings of an end of data in version 0, and the offsets
/// of the key info, the providers and the parts of a report, which are now those in the unit
/// itself.
pub fn written_and_shown(unit: &RtrUnit, input: &[u8])
    ensures { (b : List ℕ) → said unit.now input.now ≡ Ok b → IsShownAgain unit.now input.now b }
{
    ranged(unit);
    are_bytes(input);
}

/// The numbers of a unit are those of their types.
fn ranged(unit: &RtrUnit)
    ensures { IsRanged unit.now }
{
    let _version = unit.version;
    let _session = unit.session;
    let _code = unit.code;
    let _serial = unit.serial;
    let _refresh = unit.refresh;
    let _retry = unit.retry;
    let _expire = unit.expire;
    systems(unit);
    are_bytes(&unit.address);
    are_bytes(&unit.key_identifier);
}

/// The numbers of autonomous systems are those of their type.
fn systems(unit: &RtrUnit)
    ensures asn { unit.now.asn < 2 ^ 32 }
    ensures customer { unit.now.customer < 2 ^ 32 }
{
    let _asn = unit.asn;
    let _customer = unit.customer;
}

/// Bytes are below 256.
fn are_bytes(bytes: &[u8])
    ensures { IsBytes bytes.now }
{}

/// If `rtr_same_meaning` refuses the left input, its result is that of `rtr_normalise_slice` on
/// that input, and otherwise on the right one, with the same limit and an output that is long
/// enough: the status, the detail, the offset, and how many bytes are wanted.
pub fn faults_of_two()
    ensures left { (limit : ℕ) (r : Result Bool ComparisonFault)
        (left right before after : List ℕ) (c : RtrComparison) (a : RtrAnswer) (status code : ℕ) →
        ComparesMeanings limit r left right →
        TellsComparison (comparison_told r left right) c status →
        CallNormalises everything limit left before after a code →
        code ≢ rtr_ok → code ≢ rtr_no_room →
        (status ≡ code) × (c ≡ stop_compared rtr_left a) }
    ensures right { (limit : ℕ) (r : Result Bool ComparisonFault)
        (left right before after room filled : List ℕ) (c : RtrComparison) (a b : RtrAnswer)
        (status code : ℕ) → ComparesMeanings limit r left right →
        TellsComparison (comparison_told r left right) c status →
        CallNormalises everything limit left before after a rtr_ok →
        CallNormalises everything limit right room filled b code → code ≢ rtr_no_room →
        (status ≡ code) × (code ≢ rtr_ok → c ≡ stop_compared rtr_right b) }
{}

/// If an input is too short, the number of bytes wanted from where the call stopped is that of a
/// header, or a possible length of a unit, and more than there are.
pub fn bounded_wants()
    ensures next { (r : Result (List ℕ × AnyFields) ViewFault) (input : List ℕ) (u : RtrUnit)
        (code : ℕ) → ShowsFirst r input u code → code ≡ rtr_short → IsWanted input u.wanted }
    ensures sequence { (what : Output) (limit : ℕ) (input before after : List ℕ) (a : RtrAnswer)
        (code : ℕ) → CallNormalises what limit input before after a code → code ≡ rtr_short →
        IsWanted (drop a.taken input) a.wanted }
    ensures comparison { (limit : ℕ) (r : Result Bool ComparisonFault) (left right : List ℕ)
        (c : RtrComparison) (code : ℕ) → ComparesMeanings limit r left right →
        TellsComparison (comparison_told r left right) c code → code ≡ rtr_short →
        WantsMore left right c }
{}

/// The error code of a status is that of each fault with this status, as `ViewFault::code` returns
/// it, with the owed code as that of `ViewFault::owed_code`, and as `ChangeError::code` returns it.
pub fn codes_of_faults()
    ensures code { (e : ViewFault) (report : List ℕ) →
        status_code (fault_status e) ≡ code_of (read_fault report e) }
    ensures owed { (e : ViewFault) (report input : List ℕ) →
        code_owed (fault_status e) input ≡
        owed (type_field input) (code_of (read_fault report e)) }
    ensures duplicate { status_code rtr_duplicate ≡ change_code refusals.Duplicate }
    ensures unknown { status_code rtr_unknown ≡ change_code refusals.Unknown }
{}

/// An ASPA that is announced without providers is never checked for rules and names: its header is
/// refused.
pub fn looked_at_are_units()
    ensures { (input unit : List ℕ) → LooksAt input (Ok unit) → is_bare_aspa unit ≡ false }
{}

/// No name of a payload is longer than `RTR_NAME_ROOM`, and no line of a finding longer than
/// `RTR_FINDING_ROOM`.
pub fn bounded_texts()
    ensures name { (unit : List ℕ) (f : AnyFields) → HasAnyFields unit f →
        length (unit_name f) ≤ 65528 }
    ensures finding { (offset : ℕ) (f : RtrFinding) → offset < 2 ^ 64 → f.value < 2 ^ 16 →
        f.begun < 2 ^ 16 → length (told_line offset (numbered_finding f)) ≤ 128 }
{}

/// With data that `rtr_check_data_nonnull` accepted, and the lookup that it made,
/// `rtr_validate_nonnull` and `rtr_covering_nonnull` return the result of origin validation by
/// these data. A lookup for refused bytes has length 0.
pub fn checked_data()
    ensures validity { (input : List ℕ) (l : RtrLookup) (d : List Payload) (e : EndMeaning)
        (p : PrefixParts) (asn code : ℕ) → IsLookup input l → HoldsData input d e →
        TellsValidity (is_sealed input l) (Some p) input l.tables asn code →
        (v : Validity) × (code ≡ validity_number v) × IsValidity d p asn v }
    ensures covering { (input : List ℕ) (l : RtrLookup) (d : List Payload) (e : EndMeaning)
        (p : PrefixParts) (asn from : ℕ) (shown : RtrCovering) (code : ℕ) →
        IsLookup input l → HoldsData input d e →
        TellsCovering (is_sealed input l) (Some p) input l.tables asn from shown code →
        (found : Option CoveringVrp) × ShowsFound found p asn shown code
        × IsFirstCovering d p from found }
    ensures refused { (input : List ℕ) (l : RtrLookup) → is_sealed input (unsealed l) ≡ false }
{}

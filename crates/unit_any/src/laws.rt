//! Laws of units of any type and of error reports.

ghost use Rattle.std.specs.Prelude.{◌≡◌, ◌++◌, ◌≤◌, ◌<◌, ◌^◌, ℕ, List, Option, Some, None, Ok};
ghost use Rattle.std.specs.Prelude.{IsTrue, length};
ghost use Rattle.rtr_base.specs.Bytes.{IsBytes};
ghost use Rattle.rtr_units.specs.Header.{version_field, type_field, session_field};
ghost use Rattle.rtr_units.specs.Reading.{IsWhole};
ghost use Rattle.unit_any.specs.AnyFields.{AnyFields, HasAnyFields};
ghost use Rattle.rtr_payload.specs.FirstFault.{first_fault, is_payload_or_end};
ghost use Rattle.unit_views.specs.Views.{IsViewOf};
ghost use Rattle.unit_views.specs.declared.view.UnitView.{UnitView};
ghost use Rattle.unit_any.specs.AnyUnits.{any_bytes, any_fields};
ghost use Rattle.unit_any.specs.SessionForms.{session_form, shown_form};
ghost use Rattle.unit_any.specs.SessionViews.{ShowsUnit, ShowsFields, session_fault};
ghost use Rattle.unit_any.specs.declared.any_unit.AnyUnit.{AnyUnit};
ghost use Rattle.unit_any.specs.declared.session_view.SessionView.{SessionView};
ghost use Rattle.unit_any.specs.declared.session_view.SessionView.TheVariants.{Data, Error};
ghost use Rattle.unit_any.specs.Lengths.{SaysLength, IsBounded};
ghost use Rattle.unit_any.specs.SessionKinds.{session_unit};
ghost use Rattle.unit_any.specs.HeldReports.{held_unit, held_text, held_report};
ghost use Rattle.unit_any.specs.Replies.{owed_report};
ghost use Rattle.unit_any.specs.Reports.{IsReport, HasParts};
ghost use Rattle.unit_any.specs.declared.report_view.ReportView.{ReportView};

use crate::report::{MIN_SIZE, Report};
use rtr_units::header::MAX_SIZE;

/// The type of an error report, and the limits on the bytes of one that is read.
pub fn type_and_limits()
    ensures kind { Report.PDU ≡ 10 }
    ensures least { MIN_SIZE ≡ 16 }
    ensures most { MAX_SIZE ≡ 65535 }
{}

/// The units are exactly the lists of bytes whose header is valid and states their length.
pub fn units_by_their_headers()
    ensures whole { (b : List ℕ) (f : AnyFields) → HasAnyFields b f → IsWhole session_unit b }
    ensures unit { (b : List ℕ) → IsWhole session_unit b → (f : AnyFields) × HasAnyFields b f }
{}

/// No unit is a proper prefix of another.
pub fn any_self_delimiting()
    ensures { (a b r s : List ℕ) (f g : AnyFields) → HasAnyFields a f → HasAnyFields b g →
        a ++ r ≡ b ++ s → (a ≡ b) × (r ≡ s) }
{}

/// An error report is about one unit and has one text, if its lengths fit.
pub fn one_unit_and_text()
    ensures { (u p t q s : List ℕ) → IsReport u → HasParts u p t → HasParts u q s →
        (p ≡ q) × (t ≡ s) }
{}

/// The length that is returned for a unit is a length of units of its version and type.
pub fn bounded_lengths()
    ensures { (b : List ℕ) (n : ℕ) → SaysLength b (Ok (Some n)) →
        IsBounded (version_field b) (type_field b) n }
{}

/// The view of a unit and the unit read from the same bytes have the same fields.
pub fn session_views_and_units()
    ensures { (v : SessionView) (u : AnyUnit) → ShowsUnit v (any_bytes u) →
        HasAnyFields (any_bytes u) (any_fields u) → ShowsFields v (any_fields u) }
{}

/// For payload units and ends of data `SessionView` shows what `UnitView` does, with the same
/// faults.
pub fn same_as_unit_views()
    ensures view { (v : SessionView) (b : List ℕ) → IsTrue (is_payload_or_end (type_field b)) →
        ShowsUnit v b → (w : UnitView) × (v ≡ Data w) × IsViewOf w b }
    ensures fault { (r : List ℕ) → IsTrue (is_payload_or_end (type_field r)) →
        session_fault r ≡ first_fault r }
{}

/// The form of a view is that of the unit's fields.
pub fn forms_of_session_views()
    ensures { (v : SessionView) (b : List ℕ) (f : AnyFields) → ShowsUnit v b → HasAnyFields b f →
        shown_form v ≡ session_form f }
{}

/// The form of a view is a unit of at most 65535 bytes, without a fault, whatever follows it. Its
/// own form is the same.
pub fn session_forms()
    ensures unit { (v : SessionView) (b : List ℕ) → ShowsUnit v b →
        (f : AnyFields) × HasAnyFields (shown_form v) f }
    ensures most { (v : SessionView) (b : List ℕ) → ShowsUnit v b →
        length (shown_form v) ≤ 65535 }
    ensures shown { (v : SessionView) (b r : List ℕ) → ShowsUnit v b →
        session_fault (shown_form v ++ r) ≡ None }
    ensures again { (v w : SessionView) (b : List ℕ) → ShowsUnit v b → ShowsUnit w (shown_form v) →
        shown_form w ≡ shown_form v }
{}

/// `place_report` writes an error report of at most 65535 bytes, with its version and code, and
/// with as much of the unit and of the text as it holds. It has no fault, whatever follows it, and
/// its view is that of a report.
pub fn placed_reports()
    ensures most { (v c : ℕ) (p t : List ℕ) → length (held_report v c p t) ≤ 65535 }
    ensures report { (v c : ℕ) (p t : List ℕ) → v < 2 ^ 8 → IsBytes p → IsBytes t →
        IsReport (held_report v c p t) }
    ensures version { (v c : ℕ) (p t : List ℕ) → version_field (held_report v c p t) ≡ v }
    ensures code { (v c : ℕ) (p t : List ℕ) → c < 2 ^ 16 →
        session_field (held_report v c p t) ≡ c }
    ensures parts { (v c : ℕ) (p t : List ℕ) → c < 2 ^ 16 →
        HasParts (held_report v c p t) (held_unit p) (held_text p t) }
    ensures shown { (v c : ℕ) (p t r : List ℕ) → v < 2 ^ 8 → IsBytes p → IsBytes t →
        session_fault (held_report v c p t ++ r) ≡ None }
    ensures view { (v c : ℕ) (p t : List ℕ) (w : SessionView) → ShowsUnit w (held_report v c p t) →
        (x : ReportView) × (w ≡ Error x) × (x.unit.now ≡ held_report v c p t) }
{}

/// No report is owed for an error report, so none for a report that was owed itself.
pub fn no_report_about_a_report()
    ensures unit { (v : ℕ) (code : Option ℕ) (p t : List ℕ) → type_field p ≡ 10 →
        owed_report v code p t ≡ None }
    ensures reply { (v w : ℕ) (c d : Option ℕ) (p t r m s : List ℕ) →
        owed_report v c p t ≡ Some r → owed_report w d (r ++ m) s ≡ None }
{}

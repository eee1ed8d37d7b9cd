//! Laws of the calls on slices.

ghost use Rattle.std.specs.Prelude.{◌≡◌, ◌≢◌, ◌+◌, ◌++◌, ℕ, Bool, List};
ghost use Rattle.std.specs.Prelude.{take, drop, Some, Result, Err};
ghost use Rattle.rtr_units.specs.declared.fault.Fault.{Fault};
ghost use Rattle.rtr_units.specs.StopCauses.{ReaderState, WriterState};
ghost use Rattle.unit_views.specs.declared.fault.ViewFault.{ViewFault};
ghost use Rattle.rtr_units.specs.StopCauses.{by_cause, no_memory};
ghost use Rattle.rtr_wire.specs.Comparison.{Compares, ComparesMeanings, ComparesSlices};
ghost use Rattle.rtr_wire.specs.Comparison.{by_place, by_view_cause};
ghost use Rattle.rtr_wire.specs.Promise.{SlicePromises};
ghost use Rattle.rtr_wire.specs.Run.{BlamesNobody, Normalises};
ghost use Rattle.rtr_wire.specs.Into.{NormalisesInto};
ghost use Rattle.rtr_wire.specs.Sequences.{Output, everything};
ghost use Rattle.rtr_wire.specs.SliceRun.{NormalisesSlice, slice_answer};
ghost use Rattle.rtr_wire.specs.declared.compare_slices.ComparisonFault.{ComparisonFault};
ghost use Rattle.rtr_wire.specs.declared.into.IntoFault.{IntoFault};
ghost use Rattle.rtr_wire.specs.declared.into.Progress.{Progress};

/// `normalise` over a reader of some bytes and `normalise_slice` over the same bytes, with the same
/// limit, return the same number or faults of the same cause, and read, leave and write the same
/// bytes, unless the reader, the writer or memory failed.
pub fn same_answer()
    ensures { (limit : ℕ) (input : List ℕ)
        (first : Result ℕ Fault) (second : Result (ℕ × ℕ) ViewFault)
        (old new : ReaderState) (before after before' after' : WriterState)
        (p : Normalises everything limit first old new before after)
        (q : NormalisesSlice limit second input before' after') →
        old.left ≡ Some input →
        BlamesNobody (by_cause first) → BlamesNobody (slice_answer q.last second) →
        (by_cause first ≡ slice_answer q.last second) × (p.taken ≡ q.taken)
        × (new.left ≡ Some q.left) × (p.written ≡ q.written) }
{}

/// `same_meaning` and `same_meaning_slice` over the same inputs, with the same limit, return the
/// same, or faults of the same cause, unless memory ran out.
pub fn same_comparison()
    ensures { (limit : ℕ) (first : Result Bool Fault) (second : Result Bool ViewFault)
        (left right : List ℕ) →
        Compares limit first left right → (q : ComparesSlices limit second left right) →
        by_cause first ≢ Err no_memory → by_cause first ≡ by_view_cause q.last second }
{}

/// Two calls of `compare_meanings` over the same inputs, with the same limit, return the same, or
/// faults of the same cause, side and offset.
pub fn one_comparison()
    ensures { (limit : ℕ) (first second : Result Bool ComparisonFault) (left right : List ℕ)
        (p : ComparesMeanings limit first left right)
        (q : ComparesMeanings limit second left right) →
        by_place p.last first ≡ by_place q.last second }
{}

/// What follows from the contract of `normalise_slice`, by the result.
pub fn slice_promises()
    ensures { (limit : ℕ) (r : Result (ℕ × ℕ) ViewFault) (input : List ℕ)
        (old new : WriterState) (p : NormalisesSlice limit r input old new) →
        SlicePromises limit r input old new p }
{}

/// If a call of `normalise_into` or `normalise_for_into` stops, and a second call with its own
/// limit continues over the rest of the input and of the output, both together are one run.
pub fn resumed()
    ensures { (what : Output) (first limit : ℕ) (fault : IntoFault) (r : Result Unit IntoFault)
        (input before mid after : List ℕ) (p q : Progress) →
        NormalisesInto what first (Err fault) input before mid p →
        NormalisesInto what limit r (drop p.taken input) (drop p.written mid) after q →
        NormalisesInto what (p.units + limit) r input before (take p.written mid ++ after) (record {
          units = p.units + q.units;
          forms = p.forms + q.forms;
          taken = p.taken + q.taken;
          written = p.written + q.written;
        }) }
{}

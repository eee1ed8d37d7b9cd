//! Laws of the output and the status of the program.

ghost use Rattle.std.specs.Prelude.{◌≡◌, ◌≢◌, ◌++◌, ◌<◌, ℕ, List, ⊤, codes};
ghost use Rattle.rtr_units.specs.StopCauses.{ReaderState, WriterState};
ghost use Rattle.rtr_payload.specs.Payloads.{Payload};
ghost use Rattle.rtr_payload.specs.UnitFields.{Fields};
ghost use Rattle.text_lines.specs.PayloadLines.{payload_json};
ghost use Rattle.text_lines.specs.TextLines.{change_said, meant_fields};
ghost use Rattle.data_memory.specs.Deltas.{change_forms, changes_for};
ghost use Rattle.diff_work.specs.DiffStatus.{HoldDifferent, HoldSame, RunsDiff};
ghost use Rattle.diff_work.specs.Differences.{unit_change, change_piece, differences};
ghost use Rattle.diff_work.specs.declared.words.Form.{Form};
ghost use Rattle.diff_work.specs.declared.words.Form.TheVariants.{Json, Text, Units};

/// The units that are printed are those of `Data::write_delta`, for the version of the second end
/// of data, and then that end.
pub fn units_are_deltas()
    ensures { (v : ℕ) (old new : List Payload) (end : List ℕ) →
        differences Units v old new end ≡ change_forms v (changes_for v old new) ++ end }
{}

/// The printed line and object of a unit's change are those of `text_lines::describe_change` and
/// `describe_change_json`.
pub fn lines_are_those_of_units()
    ensures text { (v : ℕ) (f : Fields) →
        change_piece Text v (unit_change f) ≡ change_said f ++ codes "\n" }
    ensures json { (v : ℕ) (f : Fields) →
        change_piece Json v (unit_change f) ≡ payload_json (meant_fields f) ++ codes "\n" }
{}

/// What follows from the contract of `run`, whatever it reports on standard error: with status 0
/// both inputs hold data without a difference, with status 1 they hold different data and all
/// changes were printed, and any other status is 3.
pub fn statuses()
    ensures same { (form : Form) (old old_left new new_left : ReaderState)
        (before after : WriterState) →
        RunsDiff form ⊤ 0 old old_left new new_left before after →
        HoldSame form old old_left new new_left before after }
    ensures different { (form : Form) (old old_left new new_left : ReaderState)
        (before after : WriterState) →
        RunsDiff form ⊤ 1 old old_left new new_left before after →
        HoldDifferent form old old_left new new_left before after }
    ensures trouble { (form : Form) (status : ℕ) (old old_left new new_left : ReaderState)
        (before after : WriterState) →
        RunsDiff form ⊤ status old old_left new new_left before after →
        1 < status → status ≡ 3 }
{}

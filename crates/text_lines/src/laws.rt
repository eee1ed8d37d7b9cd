//! Laws of lines.

ghost use Rattle.std.specs.Prelude.{◌≡◌, ◌-◌, ◌^◌, ◌≤◌, ◌++◌, ℕ, List, drop, length};
ghost use Rattle.unit_any.specs.AnyFields.{AnyFields, HasAnyFields};
ghost use Rattle.text_lines.specs.Laying.{Lays};
ghost use Rattle.text_lines.specs.ListedUnits.{fields_at};

/// The fields of a unit are those at their offsets.
pub fn fields_at_their_places()
    ensures { (b : List ℕ) (f : AnyFields) → HasAnyFields b f → fields_at b ≡ f }
{}

/// A text that was written to the front of a slice ends at its length. If the slice is at least
/// that long, it begins with the text, and what follows is unchanged.
pub fn texts_where_there_is_room()
    ensures length { (text before after : List ℕ) (end : ℕ) → Lays text 0 before end after →
        length text ≤ 2 ^ 64 - 1 → end ≡ length text }
    ensures whole { (text before after : List ℕ) (end : ℕ) → Lays text 0 before end after →
        length before ≤ 2 ^ 64 - 1 → length text ≤ length before →
        after ≡ text ++ drop (length text) before }
    ensures size { (text before after : List ℕ) (end : ℕ) → Lays text 0 before end after →
        length before ≤ 2 ^ 64 - 1 → length after ≡ length before }
{}

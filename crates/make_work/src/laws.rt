//! Laws of reading.

ghost use Rattle.std.specs.Prelude.{ℕ, List};
ghost use Rattle.make_work.specs.JsonPayloads.{IsJsonOf};
ghost use Rattle.make_work.specs.JsonRefusals.{RefusesJson};
ghost use Rattle.make_work.specs.declared.item.Item.{Item};
ghost use Rattle.make_work.specs.declared.item.Reason.{Reason};

/// A JSON document that has items isn't refused, and a refused one has none: the contract of
/// `read_json` allows exactly one of both for each text, unless memory runs out.
pub fn refused_json_has_no_items()
    ensures { (ignored : List (List ℕ)) (text : List ℕ) (items : List Item) (why : Reason) →
        IsJsonOf ignored text items → RefusesJson ignored text why → ⊥ }
{}

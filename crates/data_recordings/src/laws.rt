//! Laws of what a recording leaves.

ghost use Rattle.std.specs.Prelude.{◌≡◌, Ok, Result, List};
ghost use Rattle.unit_any.specs.AnyFields.{AnyFields};
ghost use Rattle.data_recordings.specs.Recordings.{HasNoEnd, SoMuch, held_after};
ghost use Rattle.data_recordings.specs.declared.stop.Refusal.{Refusal};

/// Without an end of data no units change the kept payloads, whatever queries, cache responses and
/// payload units they are (RFC 8210 section 5.8). So an answer that is cut off, even one with all
/// data, leaves the payloads that were present before it.
pub fn data_stay_until_an_end_of_data()
    ensures { (units : List AnyFields) (m n : SoMuch) → HasNoEnd units →
        held_after units (Ok m) ≡ Ok n → n.kept ≡ m.kept }
{}

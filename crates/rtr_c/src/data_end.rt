//! Where data in canonical form end.

ghost use Rattle.std.specs.Prelude.{◌≡◌, ◌↔◌, List, [], drop, map, take};
ghost use Rattle.rtr_units.specs.End.{EndMeaning, IsEndMeaning, end_list};
ghost use Rattle.rtr_payload.specs.Payloads.{Payload};
ghost use Rattle.data_memory.specs.Data.{announcement};
ghost use Rattle.data_memory.specs.Deltas.{change_forms};
ghost use Rattle.data_slices.specs.Apply.{data_form};
ghost use Rattle.rtr_c.specs.DataEnds.{end_offset};

/// The number of bytes of an end of data in version 0.
const SHORTEST_END: usize = 12;

/// The number of bytes of an end of data in later versions.
const LONGEST_END: usize = 24;

/// Returns the offset of the end of data in data in canonical form: 0 if there are no payloads. For
/// any other bytes it returns an offset within them.
#[unsafe(no_mangle)]
pub extern "C" fn rtr_end_offset_nonnull(data: &[u8]) -> usize
    ensures is { result ≡ end_offset «data».now }
    ensures payloads { (d : List Payload) (e : EndMeaning) → IsEndMeaning e →
        «data».now ≡ data_form d e →
        take result «data».now ≡ change_forms e.version (map announcement d) }
    ensures end { (d : List Payload) (e : EndMeaning) → IsEndMeaning e →
        «data».now ≡ data_form d e → drop result «data».now ≡ end_list e }
    ensures none { (d : List Payload) (e : EndMeaning) → IsEndMeaning e →
        «data».now ≡ data_form d e → result ≡ 0 ↔ d ≡ [] }
{
    end_offset(data)
}

/// The same, for callers with a slice.
fn end_offset(data: &[u8]) -> usize
    ensures { result ≡ end_offset «data».now }
{
    if data.is_empty() {
        return 0;
    }
    let size = if data[0] == 0 {
        SHORTEST_END
    } else {
        LONGEST_END
    };
    data.len().saturating_sub(size)
}

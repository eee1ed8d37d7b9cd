//! Lookup tables for routes, made from data that were checked.

ghost use Rattle.std.specs.Prelude.{◌≡◌, Option};
ghost use Rattle.data_slices.specs.declared.fault.Flaw.{Flaw};
ghost use Rattle.rtr_c.specs.Lookups.{ChecksData, IsLookup, is_sealed};

use crate::data_answer::{FIRST, RtrDataAnswer};
use data_slices::check_data;
use data_validation::Tables;

/// Tables of data that were checked. A lookup that no check filled isn't sealed.
#[repr(C)]
#[derive(Clone, Copy)]
pub struct RtrLookup {
    /// The length of the data in bytes, or 0.
    pub length: usize,
    /// The greatest number minus this length.
    pub seal: usize,
    /// The tables of the data.
    pub tables: Tables,
}

// The fields stand one after the other.
const _: () = prove!(size_of::<RtrLookup>() == 2344);

impl RtrLookup {
    /// The lookup of data.
    fn of(data: &[u8]) -> Self
        ensures { IsLookup «data».now result }
    {
        RtrLookup {
            length: data.len(),
            seal: usize::MAX - data.len(),
            tables: Tables::of(data),
        }
    }

    /// Whether it was made from data of this length.
    #[inline(always)]
    pub(crate) fn is_of(&self, data: &[u8]) -> bool
        ensures { result ≡ is_sealed «data».now self.now }
    {
        self.length == data.len() && self.seal == usize::MAX - data.len()
    }
}

/// As `data_slices::check_data`: if the input begins with data, the lookup is made from these;
/// otherwise its length is 0.
#[unsafe(no_mangle)]
pub extern "C" fn rtr_check_data_nonnull(
    data: &[u8],
    lookup: &mut RtrLookup,
    answer: &mut RtrDataAnswer,
) -> u8
    ensures { (r : Option Flaw) × ChecksData r «data».now lookup.old lookup.new answer.new result }
{
    match check_data(data) {
        Ok(_end) => {
            *lookup = RtrLookup::of(data);
            *answer = RtrDataAnswer::wrote(0);
            answer.status
        }
        Err(flaw) => {
            lookup.length = 0;
            lookup.seal = 0;
            *answer = RtrDataAnswer::of_flaw(FIRST, &flaw);
            answer.status
        }
    }
}

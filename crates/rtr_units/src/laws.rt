//! Laws of units of a fixed size, and the constants of this crate.

ghost use Rattle.std.specs.Prelude.{◌≡◌, ◌++◌, ◌∷◌, [], ℕ, List};
ghost use Rattle.rtr_units.specs.End.{IsEnd, IsEndMeaning, EndMeaning, end_list};

use crate::end::{EndOfData, EndOfDataV0, EndOfDataV1};
use crate::error::Error;
use crate::header::LAST_VERSION;
use crate::prefixes::{Ipv4Prefix, Ipv6Prefix};
use crate::queries::{CacheReset, CacheResponse, ResetQuery, SerialNotify, SerialQuery};
use crate::unit::Unit;

/// The type of each unit, and its size in bytes if it is fixed (RFC 8210 sections 5.2 to 5.9 and
/// 5.11, RFC 6810 section 5.8); the last known version of the protocol.
pub fn types_and_sizes()
    ensures serial_notify { (⟦<SerialNotify as Unit>⟧.PDU ≡ 0) ×
        (⟦<SerialNotify as Unit>⟧.LENGTH ≡ 12) }
    ensures serial_query { (⟦<SerialQuery as Unit>⟧.PDU ≡ 1) ×
        (⟦<SerialQuery as Unit>⟧.LENGTH ≡ 12) }
    ensures reset_query { (⟦<ResetQuery as Unit>⟧.PDU ≡ 2) × (⟦<ResetQuery as Unit>⟧.LENGTH ≡ 8) }
    ensures cache_response { (⟦<CacheResponse as Unit>⟧.PDU ≡ 3) ×
        (⟦<CacheResponse as Unit>⟧.LENGTH ≡ 8) }
    ensures ipv4_prefix { (⟦<Ipv4Prefix as Unit>⟧.PDU ≡ 4) × (⟦<Ipv4Prefix as Unit>⟧.LENGTH ≡ 20) }
    ensures ipv6_prefix { (⟦<Ipv6Prefix as Unit>⟧.PDU ≡ 6) × (⟦<Ipv6Prefix as Unit>⟧.LENGTH ≡ 32) }
    ensures end_of_data { EndOfData.PDU ≡ 7 }
    ensures end_of_data_v0 { (⟦<EndOfDataV0 as Unit>⟧.PDU ≡ 7) ×
        (⟦<EndOfDataV0 as Unit>⟧.LENGTH ≡ 12) }
    ensures end_of_data_v1 { (⟦<EndOfDataV1 as Unit>⟧.PDU ≡ 7) ×
        (⟦<EndOfDataV1 as Unit>⟧.LENGTH ≡ 24) }
    ensures cache_reset { (⟦<CacheReset as Unit>⟧.PDU ≡ 8) × (⟦<CacheReset as Unit>⟧.LENGTH ≡ 8) }
    ensures error_report { Error.PDU ≡ 10 }
    ensures last_version { LAST_VERSION ≡ 2 }
{}

/// The constants with the types of the units of a fixed size, in the order above.
pub fn fixed_types() -> [u8; 9]
    ensures { result ≡ 0 ∷ 1 ∷ 2 ∷ 3 ∷ 4 ∷ 6 ∷ 7 ∷ 7 ∷ 8 ∷ [] }
{
    [
        SerialNotify::PDU,
        SerialQuery::PDU,
        ResetQuery::PDU,
        CacheResponse::PDU,
        Ipv4Prefix::PDU,
        Ipv6Prefix::PDU,
        EndOfDataV0::PDU,
        EndOfDataV1::PDU,
        CacheReset::PDU,
    ]
}

/// The constants of any unit of a fixed size are the ones that contracts name.
pub fn type_and_size<U: Unit>() -> (u8, usize)
    ensures kind { result.0 ≡ U.PDU }
    ensures size { result.1 ≡ U.LENGTH }
{
    (U::PDU, U::LENGTH)
}

/// No end of data is a proper prefix of another, and equal lists mean the same.
pub fn end_self_delimiting()
    ensures { (a b r s : List ℕ) (d e : EndMeaning) → IsEnd a d → IsEnd b e → a ++ r ≡ b ++ s →
        (a ≡ b) × (d ≡ e) × (r ≡ s) }
{}

/// Each end of data has exactly one list of bytes.
pub fn end_form()
    ensures { (e : EndMeaning) → IsEndMeaning e → IsEnd (end_list e) e }
{}

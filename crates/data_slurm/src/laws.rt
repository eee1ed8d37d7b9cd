//! Laws of SLURM files.

ghost use Rattle.rtr_base.specs.Addresses.{IsPrefix, PrefixParts};
ghost use Rattle.data_slurm.specs.SharedAddresses.{SharesIfCovered};

/// Two prefixes share an address if and only if one of them is equal to the other or covers it, so
/// that `Entry::overlaps` agrees with RFC 8416 section 4.2.
pub fn prefixes_share_an_address_if_one_covers_the_other()
    ensures { (p q : PrefixParts) → IsPrefix p → IsPrefix q → SharesIfCovered p q }
{}

//! Prefixes that cover others.

ghost use Rattle.std.specs.Prelude.{◌≡◌, ◌≤◌};
ghost use Rattle.rtr_base.specs.Addresses.{cleared, width};
ghost use Rattle.data_slurm.specs.Filters.{covers_prefix, is_same_family};

use rtr_base::addr::Prefix;

/// Reports whether the second prefix is equal to the first or covered by it.
pub(crate) fn covers(filter: Prefix, prefix: Prefix) -> bool
    ensures { result ≡ covers_prefix filter prefix }
{
    is_same_family(filter, prefix)
        && filter.len() <= prefix.len()
        && first_bits(prefix, filter.len()) == filter.bits()
}

fn is_same_family(prefix: Prefix, other: Prefix) -> bool
    ensures { result ≡ is_same_family prefix.family other.family }
{
    prefix.is_v4() == other.is_v4()
}

/// The address of the prefix with all bits after the first `len` cleared.
fn first_bits(prefix: Prefix, len: u8) -> u128
    requires { len ≤ width prefix.family }
    ensures { result ≡ cleared (width prefix.family) len prefix.address }
{
    let shorter = if prefix.is_v4() {
        Prefix::from_v4_bits(prefix.bits() as u32, len)
    } else {
        Prefix::from_v6_bits(prefix.bits(), len)
    };
    match shorter {
        Ok(shorter) => shorter.bits(),
        Err(_) => unreachable!(),
    }
}

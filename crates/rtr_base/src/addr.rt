//! Prefixes of IP addresses.

ghost use Rattle.std.specs.Prelude.{◌≡◌, ◌≤◌, ◌<◌, ◌↔◌, Option, IfOk, IfErr, IsErrOf, IsOk};
ghost use Rattle.std.specs.Prelude.{◌+◌, ◌-◌, ◌*◌, ◌%◌, ◌^◌};
ghost use Rattle.std.specs.Prelude.{IfSome, None};
ghost use Rattle.std.specs.Prelude.{IsSomeAnd, refl};
ghost use Rattle.std.proofs.Common.{rules};
ghost use Rattle.std.specs.Cmp.Rules.{comparing};
ghost use Rattle.std.specs.Ordering.{eq_by_cmp, as_partial_cmp};
ghost use Rattle.std.specs.Net.Addr.{ipv4_bits, ipv6_bits};
ghost use Rattle.rtr_base.specs.Addresses.{v4, v6, width, cleared, v4_test, IsPrefix};
ghost use Rattle.rtr_base.specs.Addresses.{IsMaxLenPrefix, IsAddressOf, ip_number, resolved_len};
ghost use Rattle.rtr_base.specs.Addresses.{prefix_of_address, prefix_cmp, BreaksPrefix};

use std::cmp::Ordering;
use std::error::Error;
use std::fmt;
use std::marker::Model;
use std::net::{IpAddr, Ipv4Addr, Ipv6Addr};

/// A prefix of IP addresses. Its host bits are zero.
#[derive(Clone, Copy, Debug, Hash)]
pub struct Prefix {
    is_v4: bool,
    len: u8,
    bits: u128,
}

impl Model for Prefix {
    ghost use Rattle.std.specs.Prelude.{◌≡◌, Bool, true, false, refl};
    ghost use Rattle.std.proofs.Common.{ap};
    ghost use Rattle.rtr_base.specs.Addresses.{PrefixParts, family_of, v4_test};
    ghost use Rattle.rtr_base.specs.Addresses.{IsPrefix};

    ghost Value = { PrefixParts };

    ghost view = { λ a. record { family = family_of a.is_v4; address = a.bits; len = a.len } };

    ghost invariant = { λ a.
        IsPrefix (record { family = family_of a.is_v4; address = a.bits; len = a.len }) };

    ghost inverse = { λ p. record { is_v4 = v4_test p.family; bits = p.address; len = p.len } };

    ghost inverse_ok = { λ a h. ap (λ (b : Bool). record a { is_v4 = b })
        (elim (a.is_v4) as (λ b. v4_test (family_of b) ≡ b) [ true ↦ refl | false ↦ refl ]) };
}

/// Why a prefix can't be made.
#[derive(Clone, Copy, Debug, PartialEq, Eq)]
pub enum PrefixError {
    /// The length is over 32 for IPv4 or over 128 for IPv6.
    LenOverflow,
    /// The address has a bit set after the first `len` bits.
    NonZeroHost,
}

impl fmt::Display for PrefixError {
    ghost use Rattle.std.specs.Prelude.{Some};
    ghost use Rattle.rtr_base.specs.Texts.{prefix_error_text};

    ghost output = { λ e. Some (prefix_error_text e) };

    fn fmt<W: fmt::Write>(&self, f: &mut fmt::Formatter<W>) -> fmt::Result {
        f.write_str(match self {
            PrefixError::LenOverflow => "prefix length too large",
            PrefixError::NonZeroHost => "non-zero host portion",
        })
    }
}

impl Error for PrefixError {}

impl Prefix {
    /// The prefix of this address and length. Host bits have to be zero.
    pub fn new(addr: IpAddr, len: u8) -> Result<Self, PrefixError>
        ensures ok { IfOk result (λ p. p ≡ prefix_of_address addr len) }
        ensures valid { IfOk result IsPrefix }
        ensures broken { IfErr result (BreaksPrefix (prefix_of_address addr len)) }
    {
        match addr {
            IpAddr::V4(addr) => Prefix::new_v4(addr, len),
            IpAddr::V6(addr) => Prefix::new_v6(addr, len),
        }
    }

    /// The IPv4 prefix of this address and length.
    pub fn new_v4(addr: Ipv4Addr, len: u8) -> Result<Self, PrefixError>
        ensures ok { IfOk result (λ p. p ≡
            record { family = v4; address = ipv4_bits addr; len = len }) }
        ensures valid { IfOk result IsPrefix }
        ensures len_overflow { IsErrOf result PrefixError.LenOverflow ↔ (32 < len) }
        ensures non_zero_host { IsErrOf result PrefixError.NonZeroHost ↔
            ((len ≤ 32) × ¬ (cleared 32 len (ipv4_bits addr) ≡ ipv4_bits addr)) }
    {
        let prefix = Prefix::new_v4_relaxed(addr, len)?;
        if prefix.bits != addr.to_bits() as u128 {
            return Err(PrefixError::NonZeroHost);
        }
        Ok(prefix)
    }

    /// The IPv4 prefix of this length that contains the address. Host bits are cleared.
    #[inline(always)]
    pub fn new_v4_relaxed(addr: Ipv4Addr, len: u8) -> Result<Self, PrefixError>
        ensures ok { IfOk result (λ p. p ≡
            record { family = v4; address = cleared 32 len (ipv4_bits addr); len = len }) }
        ensures valid { IfOk result IsPrefix }
        ensures exact { IsOk result ↔ (len ≤ 32) }
        ensures err { IfErr result (λ e. e ≡ PrefixError.LenOverflow) }
    {
        Prefix::from_v4_bits(addr.to_bits(), len)
    }

    /// As `new_v4_relaxed`, with the address as a number.
    #[inline(always)]
    pub fn from_v4_bits(bits: u32, len: u8) -> Result<Self, PrefixError>
        ensures ok { IfOk result (λ p. p ≡
            record { family = v4; address = cleared 32 len bits; len = len }) }
        ensures valid { IfOk result IsPrefix }
        ensures exact { IsOk result ↔ (len ≤ 32) }
        ensures err { IfErr result (λ e. e ≡ PrefixError.LenOverflow) }
    {
        if len > 32 {
            return Err(PrefixError::LenOverflow);
        }
        Ok(Prefix {
            is_v4: true,
            len,
            bits: cleared_v4(bits, len) as u128,
        })
    }

    /// The IPv6 prefix of this address and length.
    pub fn new_v6(addr: Ipv6Addr, len: u8) -> Result<Self, PrefixError>
        ensures ok { IfOk result (λ p. p ≡
            record { family = v6; address = ipv6_bits addr; len = len }) }
        ensures valid { IfOk result IsPrefix }
        ensures len_overflow { IsErrOf result PrefixError.LenOverflow ↔ (128 < len) }
        ensures non_zero_host { IsErrOf result PrefixError.NonZeroHost ↔
            ((len ≤ 128) × ¬ (cleared 128 len (ipv6_bits addr) ≡ ipv6_bits addr)) }
    {
        let prefix = Prefix::new_v6_relaxed(addr, len)?;
        if prefix.bits != addr.to_bits() {
            return Err(PrefixError::NonZeroHost);
        }
        Ok(prefix)
    }

    /// The IPv6 prefix of this length that contains the address. Host bits are cleared.
    #[inline(always)]
    pub fn new_v6_relaxed(addr: Ipv6Addr, len: u8) -> Result<Self, PrefixError>
        ensures ok { IfOk result (λ p. p ≡
            record { family = v6; address = cleared 128 len (ipv6_bits addr); len = len }) }
        ensures valid { IfOk result IsPrefix }
        ensures exact { IsOk result ↔ (len ≤ 128) }
        ensures err { IfErr result (λ e. e ≡ PrefixError.LenOverflow) }
    {
        Prefix::from_v6_bits(addr.to_bits(), len)
    }

    /// As `new_v6_relaxed`, with the address as a number.
    #[inline(always)]
    pub fn from_v6_bits(bits: u128, len: u8) -> Result<Self, PrefixError>
        ensures ok { IfOk result (λ p. p ≡
            record { family = v6; address = cleared 128 len bits; len = len }) }
        ensures valid { IfOk result IsPrefix }
        ensures exact { IsOk result ↔ (len ≤ 128) }
        ensures err { IfErr result (λ e. e ≡ PrefixError.LenOverflow) }
    {
        if len > 128 {
            return Err(PrefixError::LenOverflow);
        }
        Ok(Prefix {
            is_v4: false,
            len,
            bits: cleared_v6(bits, len),
        })
    }

    /// Whether this is a prefix of IPv4 addresses.
    #[inline(always)]
    pub fn is_v4(self) -> bool
        ensures family { result ≡ v4_test self.family }
        ensures valid { IsPrefix self }
    {
        self.is_v4
    }

    /// The address, whose host bits are zero.
    #[inline(always)]
    pub fn addr(self) -> IpAddr
        ensures octets { IsAddressOf self result }
        ensures number { ip_number result ≡ self.address }
        ensures valid { IsPrefix self }
    {
        if self.is_v4 {
            IpAddr::V4(Ipv4Addr::from_bits(self.bits as u32))
        } else {
            IpAddr::V6(Ipv6Addr::from_bits(self.bits))
        }
    }

    /// The address as a number. Its host bits are zero; that of an IPv4 prefix is below 2^32.
    #[inline(always)]
    pub fn bits(self) -> u128
        ensures number { result ≡ self.address }
        ensures valid { IsPrefix self }
    {
        self.bits
    }

    /// The length of the prefix in bits.
    #[inline(always)]
    pub fn len(self) -> u8
        ensures len { result ≡ self.len }
        ensures valid { IsPrefix self }
    {
        self.len
    }
}

impl PartialEq for Prefix {
    ghost eq = { eq_by_cmp prefix_cmp };

    ghost laws = { Prim.search (comparing, rules) };

    fn eq(&self, other: &Prefix) -> bool {
        self.cmp(other).is_eq()
    }
}

impl Eq for Prefix {
    ghost laws = { Prim.search (comparing, rules) };
}

impl PartialOrd for Prefix {
    ghost partial_cmp = { as_partial_cmp prefix_cmp };

    ghost laws = { Prim.search (comparing, rules) };

    fn partial_cmp(&self, other: &Prefix) -> Option<Ordering> {
        Some(self.cmp(other))
    }
}

/// Ordered by family, IPv4 first, then by the address as a number, then by the length.
impl Ord for Prefix {
    ghost cmp = { prefix_cmp };

    ghost total = { Prim.search (comparing, rules) };

    ghost matches_partial_cmp = { λ _ _. refl };

    ghost matches_eq = { λ _ _. refl };

    fn cmp(&self, other: &Prefix) -> Ordering {
        // In most pairs the address decides: what comes after it isn't looked at then.
        if self.is_v4 != other.is_v4 {
            return other.is_v4.cmp(&self.is_v4);
        }
        if self.bits != other.bits {
            return self.bits.cmp(&other.bits);
        }
        self.len.cmp(&other.len)
    }
}

/// A prefix of IP addresses with an optional max length, the longest prefix length that it allows.
#[derive(Clone, Copy, Debug)]
pub struct MaxLenPrefix {
    prefix: Prefix,
    max_len: Option<u8>,
}

impl Model for MaxLenPrefix {
    ghost use Rattle.rtr_base.specs.Addresses.{MaxLenParts, IsMaxLenPrefix};

    ghost Value = { MaxLenParts };

    ghost view = { λ a. record { prefix = a.prefix; max_len = a.max_len } };

    ghost invariant = { λ a. IsMaxLenPrefix (record { prefix = a.prefix; max_len = a.max_len }) };

    ghost inverse = { λ p. record { prefix = p.prefix; max_len = p.max_len } };
}

/// Why a max length is out of range for a prefix.
#[derive(Clone, Copy, Debug, PartialEq, Eq)]
pub enum MaxLenError {
    /// The max length is over 32 for IPv4 or over 128 for IPv6.
    Overflow,
    /// The max length is less than the prefix length.
    Underflow,
}

impl fmt::Display for MaxLenError {
    ghost use Rattle.std.specs.Prelude.{Some};
    ghost use Rattle.rtr_base.specs.Texts.{max_len_error_text};

    ghost output = { λ e. Some (max_len_error_text e) };

    fn fmt<W: fmt::Write>(&self, f: &mut fmt::Formatter<W>) -> fmt::Result {
        f.write_str(match self {
            MaxLenError::Overflow => "max-length too large",
            MaxLenError::Underflow => "max-length smaller than prefix length",
        })
    }
}

impl Error for MaxLenError {}

impl From<Prefix> for MaxLenPrefix {
    ghost from_gives = { λ prefix p. (p ≡ record { prefix = prefix; max_len = None })
        × IsMaxLenPrefix p };

    /// The prefix alone, without a max length.
    fn from(prefix: Prefix) -> Self {
        MaxLenPrefix {
            prefix,
            max_len: None,
        }
    }
}

impl MaxLenPrefix {
    /// The prefix with this max length.
    #[inline(always)]
    pub fn new(prefix: Prefix, max_len: Option<u8>) -> Result<Self, MaxLenError>
        ensures ok { IfOk result (λ p. p ≡ record { prefix = prefix; max_len = max_len }) }
        ensures valid { IfOk result IsMaxLenPrefix }
        ensures exact { IsOk result ↔
            IfSome max_len (λ x. (prefix.len ≤ x) × (x ≤ width prefix.family)) }
        ensures overflow { IsErrOf result MaxLenError.Overflow ↔
            IsSomeAnd max_len (λ x. width prefix.family < x) }
        ensures underflow { IsErrOf result MaxLenError.Underflow ↔
            IsSomeAnd max_len (λ x. x < prefix.len) }
    {
        if let Some(max_len) = max_len {
            let width = if prefix.is_v4() { 32 } else { 128 };
            if max_len > width {
                return Err(MaxLenError::Overflow);
            }
            if max_len < prefix.len() {
                return Err(MaxLenError::Underflow);
            }
        }
        Ok(MaxLenPrefix { prefix, max_len })
    }

    /// The prefix.
    #[inline(always)]
    pub fn prefix(self) -> Prefix
        ensures prefix { result ≡ self.prefix }
        ensures valid { IsMaxLenPrefix self }
    {
        self.prefix
    }

    /// The address of the prefix.
    #[inline(always)]
    pub fn addr(self) -> IpAddr
        ensures octets { IsAddressOf self.prefix result }
        ensures number { ip_number result ≡ self.prefix.address }
        ensures valid { IsMaxLenPrefix self }
    {
        self.prefix.addr()
    }

    /// The length of the prefix.
    #[inline(always)]
    pub fn prefix_len(self) -> u8
        ensures len { result ≡ self.prefix.len }
        ensures valid { IsMaxLenPrefix self }
    {
        self.prefix.len()
    }

    /// The max length, if one was given.
    #[inline(always)]
    pub fn max_len(self) -> Option<u8>
        ensures max_len { result ≡ self.max_len }
        ensures valid { IsMaxLenPrefix self }
    {
        self.max_len
    }

    /// The longest prefix length that is allowed: the max length or, if none was given, the prefix
    /// length.
    #[inline(always)]
    pub fn resolved_max_len(self) -> u8
        ensures max_len { result ≡ resolved_len self }
        ensures valid { IsMaxLenPrefix self }
    {
        self.max_len.unwrap_or(self.prefix.len())
    }
}

#[inline(always)]
fn cleared_v4(bits: u32, len: u8) -> u32
    requires { len ≤ 32 }
    ensures { result ≡ cleared 32 len bits }
{
    // In 64 bits the step fits, and none of the lengths needs a way of its own.
    let step = 1u64 << (32 - len);
    (u64::from(bits) - u64::from(bits) % step) as u32
}

#[inline(always)]
fn cleared_v6(bits: u128, len: u8) -> u128
    requires { len ≤ 128 }
    ensures { result ≡ cleared 128 len bits }
{
    let (high, low) = ((bits >> 64) as u64, (bits % (1 << 64)) as u64);
    joined(cleared_first(high, len), cleared_last(low, len))
}

/// The address of these halves.
#[inline(always)]
fn joined(high: u64, low: u64) -> u128
    ensures { result ≡ high * 2 ^ 64 + low }
{
    u128::from(high) * (1 << 64) + u128::from(low)
}

/// The first half of an address with all bits after the first `len` of the whole cleared. In both
/// halves the length selects between values that are already computed: a branch would often be
/// mispredicted where lengths come in no order.
#[inline(always)]
fn cleared_first(high: u64, len: u8) -> u64
    requires { len ≤ 128 }
    ensures short { len ≤ 64 → result ≡ cleared 64 len high }
    ensures long { 64 < len → result ≡ high }
{
    let part = without_last(high, bits_after(len));
    if len > 64 {
        high
    } else if len == 0 {
        0
    } else {
        part
    }
}

/// The second half of an address with all bits after the first `len` of the whole cleared.
#[inline(always)]
fn cleared_last(low: u64, len: u8) -> u64
    requires { len ≤ 128 }
    ensures short { len ≤ 64 → result ≡ 0 }
    ensures long { 64 < len → result ≡ cleared 128 len low }
{
    let part = without_last(low, bits_after(len));
    if len > 64 { part } else { 0 }
}

/// How many bits of the half in which the first `len` bits of an address end come after these.
#[inline(always)]
fn bits_after(len: u8) -> u8
    requires { len ≤ 128 }
    ensures range { result < 64 }
    ensures short { 0 < len → len ≤ 64 → result ≡ 64 - len }
    ensures long { 64 < len → result ≡ 128 - len }
{
    (128 - len) % 64
}

/// Half of an address with its last bits cleared.
#[inline(always)]
fn without_last(half: u64, bits: u8) -> u64
    requires { bits < 64 }
    ensures { result ≡ half - half % 2 ^ bits }
{
    half - half % (1 << bits)
}

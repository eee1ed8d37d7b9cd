//! The rule on the lengths of a prefix unit (RFC 8210 sections 5.1, 5.6 and 5.7).

ghost use Rattle.std.specs.Prelude.{◌≡◌, ◌≤◌, Some, None, IfOk, IfErr};
ghost use Rattle.rtr_base.specs.Addresses.{v4, v6, width, cleared};
ghost use Rattle.rtr_payload.specs.FirstFault.{broken_rule, text_of};

use rtr_base::addr::{MaxLenError, MaxLenPrefix, Prefix};

/// The part of the rule on a prefix length and a max length that is broken.
#[derive(Clone, Copy, Debug, PartialEq, Eq)]
pub enum PrefixRule {
    /// The prefix length is over 32 for IPv4 or over 128 for IPv6.
    LenOverflow,
    /// The max length is over 32 for IPv4 or over 128 for IPv6.
    MaxOverflow,
    /// The max length is below the prefix length.
    MaxUnderflow,
}

impl PrefixRule {
    /// The text of a report on the broken rule.
    pub fn text(self) -> &'static [u8]
        ensures { result.now ≡ text_of self }
    {
        match self {
            PrefixRule::LenOverflow => b"prefix length too large",
            PrefixRule::MaxOverflow => b"max-length too large",
            PrefixRule::MaxUnderflow => b"max-length smaller than prefix length",
        }
    }
}

/// The IPv4 prefix and the max length in a unit, with the host bits cleared.
#[inline(always)]
#[tactic(auto, unfolding(crate::specs::FirstFault::broken_rule))]
pub fn ipv4_prefix(bits: u32, len: u8, max_len: u8) -> Result<MaxLenPrefix, PrefixRule>
    ensures ok { IfOk result (λ p. p ≡
        record {
          prefix = record { family = v4; address = cleared 32 len bits; len = len };
          max_len = Some max_len;
        }) }
    ensures kept { IfOk result (λ _. broken_rule 32 len max_len ≡ None) }
    ensures broken { IfErr result (λ r. broken_rule 32 len max_len ≡ Some r) }
{
    match Prefix::from_v4_bits(bits, len) {
        Ok(prefix) => with_max_len(prefix, max_len),
        Err(_) => Err(PrefixRule::LenOverflow),
    }
}

/// The IPv6 prefix and the max length in a unit, with the host bits cleared.
#[inline(always)]
#[tactic(auto, unfolding(crate::specs::FirstFault::broken_rule))]
pub fn ipv6_prefix(bits: u128, len: u8, max_len: u8) -> Result<MaxLenPrefix, PrefixRule>
    ensures ok { IfOk result (λ p. p ≡
        record {
          prefix = record { family = v6; address = cleared 128 len bits; len = len };
          max_len = Some max_len;
        }) }
    ensures kept { IfOk result (λ _. broken_rule 128 len max_len ≡ None) }
    ensures broken { IfErr result (λ r. broken_rule 128 len max_len ≡ Some r) }
{
    match Prefix::from_v6_bits(bits, len) {
        Ok(prefix) => with_max_len(prefix, max_len),
        Err(_) => Err(PrefixRule::LenOverflow),
    }
}

/// The prefix with a max length.
#[inline(always)]
#[tactic(auto, unfolding(crate::specs::FirstFault::broken_rule))]
fn with_max_len(prefix: Prefix, max_len: u8) -> Result<MaxLenPrefix, PrefixRule>
    requires { prefix.len ≤ width prefix.family }
    ensures ok { IfOk result (λ p. p ≡ record { prefix = prefix; max_len = Some max_len }) }
    ensures kept { IfOk result (λ _. broken_rule (width prefix.family) prefix.len max_len ≡ None) }
    ensures broken { IfErr result
        (λ r. broken_rule (width prefix.family) prefix.len max_len ≡ Some r) }
{
    match MaxLenPrefix::new(prefix, Some(max_len)) {
        Ok(prefix) => Ok(prefix),
        Err(MaxLenError::Overflow) => Err(PrefixRule::MaxOverflow),
        Err(MaxLenError::Underflow) => Err(PrefixRule::MaxUnderflow),
    }
}

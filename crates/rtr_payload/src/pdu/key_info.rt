//! The key info of a router key (RFC 8210 section 5.10).

ghost use Rattle.std.specs.Prelude.{◌≡◌, ◌≤◌, ◌<◌, ◌↔◌, Some, length, refl, nat_eq, string_bytes};
ghost use Rattle.std.specs.Prelude.{IfOk, IsOk, IsErr, IsErrAnd, IsOkUnless};
ghost use Rattle.std.proofs.Common.{rules};
ghost use Rattle.std.specs.Cmp.{partial_equiv_from_equiv};
ghost use Rattle.std.specs.Cmp.Lexicographic.{nat_list_cmp_total, nat_list_eq_equiv, pointwise};
ghost use Rattle.std.specs.Cmp.Lexicographic.{slice_cmp, texts_po, texts_ties};
ghost use Rattle.std.specs.Cmp.Rules.{hashing};
ghost use Rattle.std.specs.Hash as fed;
ghost use Rattle.std.specs.Ordering.{nat_cmp};
ghost use Rattle.base64.specs.Engines.{url_safe_no_pad};
ghost use Rattle.base64.specs.GeneralPurpose.{encode_of};

use base64::display::Base64Display;
use base64::engine::general_purpose::URL_SAFE_NO_PAD;
use bytes::Bytes;
use std::alloc::{AllocError, Global};
use std::cmp::Ordering;
use std::fmt;
use std::hash::{Hash, Hasher};
use std::marker::Model;

/// The greatest size of key info in bytes: that of a router key whose length field has its greatest
/// value.
pub(crate) const MAX_LEN: usize = 4294967263;

/// The key info of a router key: at most 4294967263 bytes.
///
/// It is the DER encoding of a public key, which isn't parsed. It prints as base64 without padding,
/// in the alphabet that is safe in URLs.
#[derive(Drop)]
pub struct RouterKeyInfo(Bytes);

impl Model for RouterKeyInfo {
    ghost use Rattle.std.specs.Prelude.{◌≤◌, ℕ, List, length};

    ghost Value = { List ℕ };

    ghost view = { λ a. a.0 };

    ghost use Rattle.rtr_payload.specs.declared.pdu.key_info.TheConstants.{MAX_LEN as MOST};

    ghost invariant = { λ a. length a.0 ≤ MOST };
}

/// Key info is longer than 4294967263 bytes.
#[derive(Clone, Copy, Debug, PartialEq, Eq, thiserror::Error)]
#[error("router key size overflow")]
pub struct KeyInfoError;

/// Why a vector can't become key info.
#[derive(Clone, Copy, Debug, PartialEq, Eq, thiserror::Error)]
pub enum KeyInfoVecError {
    /// The vector is longer than 4294967263 bytes.
    #[error("router key size overflow")]
    Size(KeyInfoError),
    /// An allocation failed.
    #[error("out of memory")]
    Memory,
}

impl RouterKeyInfo {
    ghost use Rattle.rtr_payload.specs.KeyErrors.{IsSize};

    /// The key info with these bytes, or an error if there are more than 4294967263.
    pub fn new(bytes: Bytes) -> Result<Self, KeyInfoError>
        ensures ok { IfOk result (λ k. k ≡ bytes) }
        ensures exact { IsOk result ↔ (length bytes ≤ MAX_LEN) }
    {
        if bytes.len() > MAX_LEN {
            return Err(KeyInfoError);
        }
        Ok(RouterKeyInfo::within_limit(bytes))
    }

    /// The key info with these bytes, which are within the limit.
    #[inline(always)]
    pub(crate) fn within_limit(bytes: Bytes) -> Self
        requires { length bytes ≤ MAX_LEN }
        ensures { result ≡ bytes }
    {
        RouterKeyInfo(bytes)
    }

    /// The key info with the bytes of the vector, which aren't copied. The only errors are `Size`,
    /// if there are more than 4294967263 bytes, and `Memory`.
    pub fn from_vec(_alloc: Global, bytes: Vec<u8>) -> Result<Self, KeyInfoVecError>
        ensures ok { IfOk result (λ k. k ≡ bytes.items) }
        ensures size { MAX_LEN < length bytes.items → IsErrAnd result IsSize }
        ensures memory { length bytes.items ≤ MAX_LEN → IsOkUnless result KeyInfoVecError.Memory }
    {
        if bytes.len() > MAX_LEN {
            return Err(KeyInfoVecError::Size(KeyInfoError));
        }
        match Bytes::from_vec(bytes) {
            Ok(bytes) => Ok(RouterKeyInfo(bytes)),
            Err(_) => Err(KeyInfoVecError::Memory),
        }
    }

    /// The bytes.
    #[inline(always)]
    pub fn as_slice(&self) -> &[u8]
        ensures bytes { result.now ≡ self.now }
        ensures fits { length self.now ≤ MAX_LEN }
    {
        self.0.as_slice()
    }

    /// The number of bytes.
    #[inline(always)]
    pub fn len(&self) -> usize
        ensures value { result ≡ length self.now }
        ensures fits { result ≤ MAX_LEN }
    {
        self.0.len()
    }

    /// The bytes, by value.
    pub fn into_bytes(self) -> Bytes
        ensures bytes { result ≡ self }
        ensures fits { length self ≤ MAX_LEN }
    {
        self.0
    }

    /// Another handle to the same key info. It shares the bytes, so nothing is allocated; it
    /// returns `AllocError` if the count of handles is at its maximum.
    pub fn clone(&self) -> Result<Self, AllocError>
        ensures { IfOk result (λ k. k ≡ self.now) }
    {
        let bytes = self.0.clone()?;
        Ok(RouterKeyInfo(bytes))
    }

    /// Returns the base64 text, without padding and in the alphabet that is safe in URLs (RFC 4648
    /// section 5).
    pub fn to_text(&self, alloc: Global) -> Result<String, AllocError>
        ensures { IfOk result (λ text. string_bytes text ≡ encode_of url_safe_no_pad self.now) }
    {
        URL_SAFE_NO_PAD.encode(alloc, self.0.as_slice())
    }
}

impl fmt::Display for RouterKeyInfo {
    ghost output = { λ k. Some (encode_of url_safe_no_pad k) };

    fn fmt<W: fmt::Write>(&self, f: &mut fmt::Formatter<W>) -> fmt::Result {
        Base64Display::new(self.0.as_slice(), &URL_SAFE_NO_PAD).fmt(f)
    }
}

impl fmt::Debug for RouterKeyInfo {
    fn fmt<W: fmt::Write>(&self, f: &mut fmt::Formatter<W>) -> fmt::Result {
        write!(f, "RouterKeyInfo({self})")
    }
}

impl PartialEq for RouterKeyInfo {
    ghost eq = { pointwise nat_eq };

    ghost laws = { partial_equiv_from_equiv nat_list_eq_equiv };

    fn eq(&self, other: &Self) -> bool {
        self.0 == other.0
    }
}

impl Eq for RouterKeyInfo {
    ghost laws = { nat_list_eq_equiv };
}

impl PartialOrd for RouterKeyInfo {
    ghost partial_cmp = { λ x y. Some (slice_cmp nat_cmp x y) };

    ghost laws = { texts_po };

    fn partial_cmp(&self, other: &Self) -> Option<Ordering> {
        Some(self.cmp(other))
    }
}

impl Ord for RouterKeyInfo {
    ghost cmp = { slice_cmp nat_cmp };

    ghost total = { nat_list_cmp_total };

    ghost matches_partial_cmp = { λ x y. refl };

    ghost matches_eq = { texts_ties };

    fn cmp(&self, other: &Self) -> Ordering {
        self.0.cmp(&other.0)
    }
}

impl Hash for RouterKeyInfo {
    ghost hash_input = { fed.slice fed.u8 };

    ghost respects_eq = { Prim.search (hashing, rules) };

    fn hash<H: Hasher>(&self, state: &mut H) {
        self.0.hash(state);
    }
}

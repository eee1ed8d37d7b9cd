//! Identifiers of keys.

ghost use Rattle.std.specs.Prelude.{◌≡◌, List, ℕ, length};

use std::marker::Model;

/// The identifier of a router's key: the 20 bytes of its subject key identifier (RFC 8210 section
/// 5.10).
#[derive(Clone, Copy, Debug, PartialEq, Eq, PartialOrd, Ord, Hash)]
pub struct KeyIdentifier([u8; 20]);

impl Model for KeyIdentifier {
    ghost Value = { List ℕ };

    ghost view = { λ a. a.0 };

    ghost inverse = { λ bytes. record { 0 = bytes } };
}

impl KeyIdentifier {
    /// The 20 bytes.
    #[inline(always)]
    pub fn into_bytes(self) -> [u8; 20]
        ensures bytes { result ≡ self }
        ensures size { length result ≡ 20 }
    {
        self.0
    }

    /// The 20 bytes, borrowed.
    #[inline(always)]
    pub fn as_slice(&self) -> &[u8]
        ensures bytes { result.now ≡ self.now }
        ensures size { length result.now ≡ 20 }
    {
        &self.0
    }
}

impl From<[u8; 20]> for KeyIdentifier {
    ghost from_gives = { λ bytes key. key ≡ bytes };

    #[inline(always)]
    fn from(bytes: [u8; 20]) -> Self {
        KeyIdentifier(bytes)
    }
}

impl From<KeyIdentifier> for [u8; 20] {
    ghost from_gives = { λ key bytes. (bytes ≡ key) × (length bytes ≡ 20) };

    #[inline(always)]
    fn from(key: KeyIdentifier) -> Self {
        key.0
    }
}

//! Copying bytes that were read into the caller's buffer.

ghost use Rattle.std.specs.Prelude.{◌≡◌, ◌≤◌, length};

use crate::header::HEADER_SIZE;

/// The bytes that follow the header of an IPv4 prefix.
const IPV4_REST: usize = 12;

/// The bytes that follow the header of an IPv6 prefix.
const IPV6_REST: usize = 24;

/// Copies all bytes. A header, and what follows it in a prefix, are copied in words, and all else
/// at once.
///
/// A prefix unit has a word of four bytes after its header, and then an address and an ASN. Copied
/// so, the address is stored with the width in which it is loaded later. Otherwise its load would
/// wait for two stores, which takes half of the time of an IPv6 prefix, or the compiler would keep
/// its bytes in memory.
#[inline(always)]
pub(crate) fn copy(piece: &mut [u8], bytes: &[u8])
    requires { length piece.old ≡ length bytes.now }
    ensures { piece.new ≡ bytes.now }
{
    match bytes.len() {
        HEADER_SIZE => copy_word::<8>(piece, bytes),
        IPV4_REST => {
            let (word, rest) = piece.split_at_mut(4);
            let (word_bytes, rest_bytes) = bytes.split_at(4);
            copy_word::<4>(word, word_bytes);
            copy_word::<8>(rest, rest_bytes);
        }
        IPV6_REST => copy_ipv6_rest(piece, bytes),
        _ => piece.copy_from_slice(bytes),
    }
}

/// Copies what follows the header of an IPv6 prefix: a word, each half of the address, and the ASN.
#[inline(always)]
fn copy_ipv6_rest(piece: &mut [u8], bytes: &[u8])
    requires piece { length piece.old ≡ 24 }
    requires bytes { length bytes.now ≡ 24 }
    ensures { piece.new ≡ bytes.now }
{
    let (front, back) = piece.split_at_mut(12);
    let (front_bytes, back_bytes) = bytes.split_at(12);
    let (word, high) = front.split_at_mut(4);
    let (word_bytes, high_bytes) = front_bytes.split_at(4);
    let (low, asn) = back.split_at_mut(8);
    let (low_bytes, asn_bytes) = back_bytes.split_at(8);
    copy_word::<4>(word, word_bytes);
    copy_word::<8>(high, high_bytes);
    copy_word::<8>(low, low_bytes);
    copy_word::<4>(asn, asn_bytes);
}

/// Copies `SIZE` bytes in one move.
#[inline(always)]
fn copy_word<const SIZE: usize>(piece: &mut [u8], bytes: &[u8])
    requires piece { length piece.old ≡ SIZE }
    requires bytes { length bytes.now ≡ SIZE }
    ensures { piece.new ≡ bytes.now }
{
    if let (Some(word), Some(given)) = (piece.as_mut_array::<SIZE>(), bytes.as_array::<SIZE>()) {
        *word = *given;
    }
}

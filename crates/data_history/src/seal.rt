//! The head of a saved file: its format, and the length and the checksum of what follows.

ghost use Rattle.std.specs.Prelude.{◌≡◌, ◌++◌, IfSome, IsSome, List, ℕ};
ghost use Rattle.data_history.specs.Seal.{fnv, old_head, seal};

/// The FNV-1a hash of no bytes.
const BASIS: u64 = 14_695_981_039_346_656_037;

/// The factor of the FNV-1a hash.
const PRIME: u64 = 1_099_511_628_211;

/// The length of the head of a file, and of a file of the earlier format.
const HEAD: usize = 24;

const OLD_HEAD: usize = 16;

/// Returns the head of a file with these bytes after it.
#[tactic(auto, unfolding(crate::specs::Seal::seal))]
pub fn seal_head(saved: &[u8]) -> [u8; 24]
    ensures { result ≡ seal saved.now }
{
    let mut head = [0; HEAD];
    head[..8].copy_from_slice(b"rtrkept2");
    head[8..16].copy_from_slice(&(saved.len() as u64).to_be_bytes());
    head[16..].copy_from_slice(&checksum(saved).to_be_bytes());
    head
}

/// Returns what follows the head of a file, if the head matches it.
pub fn open_saved(file: &[u8]) -> Option<&[u8]>
    ensures opens { IfSome result (λ s. file.now ≡ seal s.now ++ s.now) }
    ensures finds { (s : List ℕ) → file.now ≡ seal s ++ s → IsSome result }
{
    if file.len() < HEAD {
        return None;
    }
    let (head, saved) = file.split_at(HEAD);
    if head == &seal_head(saved)[..] {
        return Some(saved);
    }
    None
}

/// Returns the history in a file of the format `rtrkept1`, if its head matches it.
pub fn open_old(file: &[u8]) -> Option<&[u8]>
    ensures opens { IfSome result (λ s. file.now ≡ old_head s.now ++ s.now) }
    ensures finds { (s : List ℕ) → file.now ≡ old_head s ++ s → IsSome result }
{
    if file.len() < OLD_HEAD {
        return None;
    }
    let (head, saved) = file.split_at(OLD_HEAD);
    if head == &head_before(saved)[..] {
        return Some(saved);
    }
    None
}

/// The head of a file of the format `rtrkept1`.
#[tactic(auto, unfolding(crate::specs::Seal::old_head))]
fn head_before(saved: &[u8]) -> [u8; 16]
    ensures { result ≡ old_head saved.now }
{
    let mut head = [0; OLD_HEAD];
    head[..8].copy_from_slice(b"rtrkept1");
    head[8..].copy_from_slice(&checksum(saved).to_be_bytes());
    head
}

/// The FNV-1a hash of bytes, in 64 bits.
fn checksum(bytes: &[u8]) -> u64
    ensures { result ≡ fnv bytes.now }
{
    let mut hash = BASIS;
    'bytes: for byte in bytes {
        hash = (hash ^ *byte as u64).wrapping_mul(PRIME);
    }
    hash
}

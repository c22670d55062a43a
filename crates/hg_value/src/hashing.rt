//! The hash of a key.
ghost use Rattle.std.specs.Prelude.{◌≡◌};
ghost use Rattle.hg_value.specs.Hashing.{hash_of};

const FIRST: u64 = 14695981039346656037;

const PRIME: u64 = 1099511628211;

/// The hash of a key: FNV-1a with 64 bits.
#[tactic(auto, unfolding(crate::specs::Hashing::hash_of))]
pub fn hash(key: &[u8]) -> u64
    ensures { result ≡ hash_of key.now }
{
    let mut h = FIRST;
    for byte in key {
        h = (h ^ *byte as u64).wrapping_mul(PRIME);
    }
    h
}

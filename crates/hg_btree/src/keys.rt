//! Keys are compared by words: eight bytes as one number, the first byte the highest. For bytes that a key
//! has not, zeros are read. Where the first words of two keys differ, the keys stand as these do.
ghost use Rattle.std.specs.Prelude.{◌≡◌, ◌+◌, ◌-◌, ◌≤◌, length, take, drop};
ghost use Rattle.std.specs.Ordering.{nat_cmp};
ghost use Rattle.std.specs.Cmp.Lexicographic.{slice_cmp};
ghost use Rattle.hg_btree.specs.Keys.{word_of};

use std::cmp::Ordering;

/// The word from `at` on.
fn word_at(bytes: &[u8], at: usize) -> u64
    requires { at + 8 ≤ length bytes.now }
    ensures { result ≡ word_of (drop at bytes.now) }
{
    u64::from_be_bytes([
        bytes[at],
        bytes[at + 1],
        bytes[at + 2],
        bytes[at + 3],
        bytes[at + 4],
        bytes[at + 5],
        bytes[at + 6],
        bytes[at + 7],
    ])
}

/// The first word of a key.
pub fn first_word(key: &[u8]) -> u64
    ensures { result ≡ word_of key.now }
{
    let many = key.len().min(8);
    let mut first = [0; 8];
    first[..many].copy_from_slice(&key[..many]);
    u64::from_be_bytes(first)
}

/// The first word of a key that stands among other bytes. One of fewer than eight bytes is read with those
/// before it, which are then shifted out.
pub fn first_word_in(bytes: &[u8], from: usize, to: usize) -> u64
    requires behind { 8 ≤ from }
    requires order { from ≤ to }
    requires inside { to ≤ length bytes.now }
    ensures { result ≡ word_of (take (to - from) (drop from bytes.now)) }
{
    let size = to - from;
    if size >= 8 {
        return word_at(bytes, from);
    }
    if size == 0 {
        return 0;
    }
    word_at(bytes, to - 8) << (64 - 8 * size)
}

/// Compares two keys with the same first word. Further words may begin among the bytes that are known to
/// be alike, so that each has eight bytes.
pub fn compare_rest(own: &[u8], key: &[u8]) -> Ordering
    requires { word_of own.now ≡ word_of key.now }
    ensures { result ≡ slice_cmp nat_cmp own.now key.now }
{
    let both = own.len().min(key.len());
    let mut alike = 8;
    while alike < both {
        let next = (alike + 8).min(both);
        let x = word_at(own, next - 8);
        let y = word_at(key, next - 8);
        if x != y {
            return x.cmp(&y);
        }
        alike = next;
    }
    own.len().cmp(&key.len())
}

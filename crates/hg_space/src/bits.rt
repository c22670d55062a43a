//! Bits of a slice of words, numbered through all words: bit i is in word i / 64.
ghost use Rattle.std.specs.Prelude.{◌≡◌, ◌+◌, ◌*◌, ◌/◌, ◌^◌, ◌<◌, ◌≤◌, true, false, not, max, length, IfOk, slice_index, vec_capacity};
ghost use Rattle.hg_space.specs.Bits.{is_set, has_bits, Puts, IsFirstSet, HasNoBits, SameWords};

use std::alloc::{AllocError, Global};

/// Whether a bit is set.
pub fn is_set(words: &[u64], bit: usize) -> bool
    requires { bit / 64 < length words.now }
    ensures { result ≡ is_set words.now bit }
{
    (words[bit / 64] >> (bit % 64)) & 1 == 1
}

/// Sets a bit. The answer is whether its word had one before.
pub fn set(words: &mut [u64], bit: usize) -> bool
    requires { bit / 64 < length words.old }
    ensures changed { Puts words.old bit true words.new }
    ensures had { result ≡ has_bits words.old (bit / 64) }
{
    let word = words[bit / 64];
    words[bit / 64] = word | (1 << (bit % 64));
    word != 0
}

/// Clears a bit. The answer is whether its word has one still.
pub fn clear(words: &mut [u64], bit: usize) -> bool
    requires { bit / 64 < length words.old }
    ensures changed { Puts words.old bit false words.new }
    ensures has { result ≡ has_bits words.new (bit / 64) }
    ensures had { result ≡ true → has_bits words.old (bit / 64) ≡ true }
{
    let word = words[bit / 64] & !(1 << (bit % 64));
    words[bit / 64] = word;
    word != 0
}

/// The first bit of a word that is set.
pub fn first_in(words: &[u64], word: usize) -> usize
    requires inside { word < length words.now }
    requires few { length words.now < 2 ^ 40 }
    requires not_zero { has_bits words.now word ≡ true }
    ensures first { IsFirstSet words.now (64 * word) result }
    ensures in_word { result < 64 * word + 64 }
{
    64 * word + words[word].trailing_zeros() as usize
}

/// So many words without a bit, and room for `room` words in all.
pub fn no_bits(alloc: Global, words: usize, room: usize) -> Result<Vec<u64>, AllocError>
    requires { words ≤ room }
    ensures len { IfOk result (λ made. length made.items ≡ words) }
    ensures none { IfOk result (λ made. HasNoBits made.items) }
    ensures room { IfOk result (λ made. vec_capacity made ≡ room) }
{
    let mut made = Vec::with_capacity(alloc, room)?;
    for _word in 0..words {
        made.push_reserved(0);
    }
    Ok(made)
}

/// Sees to it that the bit has a word, which is there or would be the next one.
pub fn widen(words: &mut Vec<u64>, bit: usize)
    requires near { bit / 64 ≤ length words.old.items }
    requires room { bit / 64 < vec_capacity words.old }
    ensures len { length words.new.items ≡ max (length words.old.items) (bit / 64 + 1) }
    ensures same { SameWords words.old.items words.new.items }
    ensures capacity { vec_capacity words.new ≡ vec_capacity words.old }
{
    if bit / 64 == words.len() {
        words.push_reserved(0);
    }
}

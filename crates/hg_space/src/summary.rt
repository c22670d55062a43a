//! Bits in levels, with a way from the top down to the first bit that is set in the lowest level.
ghost use Rattle.std.specs.Prelude.{◌≡◌, ◌/◌, ◌^◌, ◌<◌, true, false, length};
ghost use Rattle.hg_space.specs.Bits.{has_bits, IsFirstSet};
ghost use Rattle.hg_space.specs.Summary.{level_start, IsSummary, PutsUp};

use crate::bits::{clear, first_in, set};

/// Sets a bit, and those above it that say so.
pub fn set_up(words: &mut [u64], bit: usize)
    requires { bit / 64 < length words.old }
    ensures { PutsUp words.old bit true words.new }
{
    let had_bits = set(words, bit);
    if !had_bits && bit >= 64 {
        set_up(words, bit / 64 - 1);
    }
}

/// Clears a bit, and those above it that say so.
pub fn clear_up(words: &mut [u64], bit: usize)
    requires { bit / 64 < length words.old }
    ensures { PutsUp words.old bit false words.new }
{
    let has_bits = clear(words, bit);
    if !has_bits && bit >= 64 {
        clear_up(words, bit / 64 - 1);
    }
}

/// The first bit of the lowest level that is set.
pub fn first_below(words: &[u64], depth: u32) -> usize
    requires few { length words.now < 2 ^ 40 }
    requires summary { IsSummary words.now (level_start depth) }
    requires not_zero { has_bits words.now 0 ≡ true }
    ensures { IsFirstSet words.now (level_start depth) result }
{
    let mut bit = first_in(words, 0);
    for _level in 0..depth {
        bit = first_in(words, bit + 1);
    }
    bit
}

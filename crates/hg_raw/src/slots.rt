// Parts of one raw block, all of the same size and counted from a base. Only this file and `shell`
// have functions with a pointer, and none of these has a loop.
ghost use Rattle.std.specs.Prelude.{◌≡◌, ◌*◌, ◌^◌, ◌<◌, ◌++◌, ℕ, List, [], ◌∷◌, length, true, IsTrue};
ghost use Rattle.std.specs.Borrow.{sem};
ghost use Rattle.hg_raw.specs.Frames.{Frame, bytes_of, numbers, is_in, without, minus, with_bytes, apart};
ghost use Rattle.hg_raw.specs.Links.{Sized, word};
ghost use Rattle.hg_raw.specs.Memory.{slots_own, slots_lent, room_own};

use std::marker::Model;
use std::slice::{from_raw_parts, from_raw_parts_mut};

pub(crate) const PAGE: usize = 4096;

pub(crate) struct Slots {
    pub(crate) base: *mut u8,
    pub(crate) size: usize,
    pub(crate) ghost held: { List Frame },
}

impl Model for Slots {
    ghost also_owns = { λ s. slots_own s.base s.size s.held };

    ghost also_shares = { λ s _ κ. slots_lent s.base s.size s.held κ };
}

impl Slots {
    ghost use Rattle.hg_raw.specs.Lending.{LendsPart};

    pub(crate) fn get(&self, n: usize) -> &[u8]
        requires there { length (bytes_of self.now.held n) ≡ self.now.size }
        requires some { 0 < self.now.size }
        requires small { self.now.size < 2 ^ 63 }
        requires near { n * self.now.size < 2 ^ 63 }
        ensures value { result.now ≡ bytes_of self.now.held n }
        ensures len { length result.now ≡ self.now.size }
    {
        let size = self.size;
        unsafe { from_raw_parts(self.base.add(n * size), size) }
    }

    pub(crate) fn get_mut(&mut self, n: usize) -> &mut [u8]
        requires there { length (bytes_of self.old.held n) ≡ self.old.size }
        requires some { 0 < self.old.size }
        requires small { self.old.size < 2 ^ 63 }
        requires near { n * self.old.size < 2 ^ 63 }
        ensures* lends { sem 𝓛 (LendsPart self.entry n result) }
        ensures value { result.now ≡ bytes_of self.old.held n }
        ensures len { length result.now ≡ self.old.size }
    {
        let size = self.size;
        unsafe { from_raw_parts_mut(self.base.add(n * size), size) }
    }

    /// Takes part `n` out.
    pub(crate) fn cut(&mut self, n: usize) -> Slots
        requires { IsTrue (is_in n (numbers self.old.held)) }
        ensures part { result ≡ record { base = self.old.base; size = self.old.size; held = (n, bytes_of self.old.held n) ∷ [] } }
        ensures others { self.new ≡ record { base = self.old.base; size = self.old.size; held = without self.old.held n } }
    {
        Slots {
            base: self.base,
            size: self.size,
        }
    }

    /// Puts the other's parts behind its own. Two owners never have the same part.
    pub(crate) fn append(&mut self, other: Slots)
        requires base { other.base ≡ self.old.base }
        requires size { other.size ≡ self.old.size }
        requires some { 0 < self.old.size }
        requires sized { Sized self.old.size self.old.held }
        requires other_sized { Sized self.old.size other.held }
        ensures all { self.new ≡ record { base = self.old.base; size = self.old.size; held = self.old.held ++ other.held } }
        ensures apart { apart (numbers self.old.held) (numbers other.held) ≡ true }
    {
        let Slots { base: _, size: _ } = other;
    }
}

/// Parts of 4,096 bytes that nothing was written to yet: they are memory that no one may read.
pub(crate) struct Blanks {
    pub(crate) base: *mut u8,
    pub(crate) ghost left: { List ℕ },
}

impl Model for Blanks {
    ghost also_owns = { λ b. room_own b.base b.left };
}

impl Blanks {
    /// Takes part `n` out, and writes its first bytes.
    pub(crate) fn begin(&mut self, n: usize, page: [u8; PAGE]) -> Slots
        requires there { IsTrue (is_in n self.old.left) }
        requires near { n * 4096 < 2 ^ 63 }
        ensures part { result ≡ record { base = self.old.base; size = 4096; held = (n, page) ∷ [] } }
        ensures others { self.new ≡ record { base = self.old.base; left = minus self.old.left n } }
    {
        unsafe {
            self.base.add(n * PAGE).cast::<[u8; PAGE]>().write(page);
        }
        Slots {
            base: self.base,
            size: PAGE,
        }
    }
}

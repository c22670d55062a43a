//! The map, as callers see it.
ghost use Rattle.std.specs.Prelude.{◌≡◌, ◌↔◌, ◌<◌, true, IsNone, IfOk, IfSome, IfNone};
ghost use Rattle.hg_space.specs.Bits.{has_bits};
ghost use Rattle.hg_space.specs.PageMap.{unused_pages, used_count, IsFull, IsLowestFree, IsSound, with_page, without_page, with_next};
ghost use Rattle.hg_space.specs.Shown.{reached, pages_of};

use crate::bits::{clear, is_set, no_bits, set, widen};
use crate::levels::{Levels, levels_for};
use crate::summary::{clear_up, first_below, set_up};
use hg_base::NoMemory;
use std::alloc::Global;
use std::marker::Model;

/// Which pages of a file are used, and their successors. Contracts see `pages_of` it, a `PageMap`.
/// Memory for 4.3 bytes a page is taken when it is made, and written only up to the highest page that
/// was ever taken.
#[derive(Drop)]
pub struct Space {
    limit: u32,
    used: u32,
    levels: Levels,
    /// The bits of the pages that were given back, below bits that say which words have some.
    free: Vec<u64>,
    /// The bits of the pages that have a successor, if they are used.
    linked: Vec<u64>,
    /// The successors of the pages that were ever taken: the lowest free page is taken, so these are
    /// the first ones.
    links: Vec<u32>,
}

impl Model for Space {
    ghost use Rattle.std.specs.Prelude.{vec_capacity};
    ghost use Rattle.hg_space.specs.Shown.{Kept, IsKept, HasRoom};

    ghost Value = { Kept };

    ghost view = { λ s. record { limit = s.limit; free = s.free.items; first = s.levels.first; linked = s.linked.items; links = s.links.items } };

    ghost invariant = { λ s. IsKept (record { limit = s.limit; free = s.free.items; first = s.levels.first; linked = s.linked.items; links = s.links.items }) s.levels.above s.used × HasRoom s.limit s.levels.first (vec_capacity s.free) (vec_capacity s.linked) (vec_capacity s.links) };
}

impl Space {
    /// The map of pages 0 to `pages` - 1, none of them used. Memory is taken here alone, and the only
    /// error is want of it.
    pub fn new(alloc: Global, pages: u32) -> Result<Space, NoMemory>
        ensures made { IfOk result (λ space. pages_of space ≡ unused_pages pages) }
        ensures sound { IfOk result (λ space. IsSound (pages_of space)) }
    {
        let count = pages as usize;
        let levels = levels_for(count);
        let words = levels.first / 64 + 1;
        let Ok(free) = no_bits(alloc, words, (levels.first + count) / 64 + 1) else {
            return Err(NoMemory);
        };
        let Ok(linked) = no_bits(alloc, 1, count / 64 + 1) else {
            return Err(NoMemory);
        };
        let Ok(links) = Vec::with_capacity(alloc, count) else {
            return Err(NoMemory);
        };
        Ok(Space {
            limit: pages,
            used: 0,
            levels,
            free,
            linked,
            links,
        })
    }

    /// Takes the lowest page that is not used. It is used from then on and has no successor. None
    /// where all are used. Its time does not grow with the number of used pages.
    pub fn take(&mut self) -> Option<u32>
        ensures lowest { IfSome result (λ no. IsLowestFree (pages_of self.old) no) }
        ensures taken { IfSome result (λ no. pages_of self.new ≡ with_page (pages_of self.old) no) }
        ensures full { IsNone result ↔ IsFull (pages_of self.old) }
        ensures unchanged { IfNone result (pages_of self.new ≡ pages_of self.old) }
        ensures sound { IsSound (pages_of self.new) }
    {
        if self.free[0] != 0 {
            return Some(self.take_free());
        }
        if self.links.len() == self.limit as usize {
            return None;
        }
        self.grow();
        Some(self.take_free())
    }

    /// Takes the lowest page that has a bit of a free one; there is one.
    fn take_free(&mut self) -> u32
        requires some { has_bits self.old.free 0 ≡ true }
        ensures lowest { IsLowestFree (pages_of self.old) result }
        ensures taken { pages_of self.new ≡ with_page (pages_of self.old) result }
        ensures sound { IsSound (pages_of self.new) }
    {
        let bit = first_below(&self.free, self.levels.above);
        let lowest = bit - self.levels.first;
        clear_up(&mut self.free, bit);
        let _ = clear(&mut self.linked, lowest);
        self.used += 1;
        lowest as u32
    }

    /// Gives the lowest page that was never taken the bit of a free one.
    fn grow(&mut self)
        requires room { reached self.old < self.old.limit }
        ensures same { pages_of self.new ≡ pages_of self.old }
        ensures some { has_bits self.new.free 0 ≡ true }
    {
        let page = self.links.len();
        self.links.push_reserved(0);
        widen(&mut self.free, self.levels.first + page + 1);
        widen(&mut self.linked, page + 1);
        set_up(&mut self.free, self.levels.first + page);
    }

    /// Gives a page back, which has to be used: it is not used any more, and has no successor.
    pub fn release(&mut self, no: u32)
        requires used { (pages_of self.old).used no ≡ true }
        ensures released { pages_of self.new ≡ without_page (pages_of self.old) no }
        ensures sound { IsSound (pages_of self.new) }
    {
        set_up(&mut self.free, self.levels.first + no as usize);
        self.used -= 1;
    }

    /// How many pages there are, used or not.
    pub fn limit(&self) -> u32
        ensures { result ≡ (pages_of self.now).limit }
    {
        self.limit
    }

    /// How many pages are used.
    pub fn used(&self) -> u32
        ensures count { result ≡ used_count (pages_of self.now) }
        ensures sound { IsSound (pages_of self.now) }
    {
        self.used
    }

    /// Whether the page is used; false for each number that no page has.
    pub fn is_used(&self, no: u32) -> bool
        ensures answer { result ≡ (pages_of self.now).used no }
        ensures sound { IsSound (pages_of self.now) }
    {
        let page = no as usize;
        page < self.links.len() && !is_set(&self.free, self.levels.first + page)
    }

    /// The number of a page's successor. The page has to be used. None where it has no successor.
    pub fn next(&self, no: u32) -> Option<u32>
        requires used { (pages_of self.now).used no ≡ true }
        ensures { result ≡ (pages_of self.now).next no }
    {
        let page = no as usize;
        if is_set(&self.linked, page) {
            Some(self.links[page])
        } else {
            None
        }
    }

    /// Sets or takes away a page's successor. The page has to be used.
    pub fn set_next(&mut self, no: u32, to: Option<u32>)
        requires used { (pages_of self.old).used no ≡ true }
        ensures changed { pages_of self.new ≡ with_next (pages_of self.old) no to }
        ensures sound { IsSound (pages_of self.new) }
    {
        let page = no as usize;
        let Some(successor) = to else {
            let _ = clear(&mut self.linked, page);
            return;
        };
        let _ = set(&mut self.linked, page);
        self.links[page] = successor;
    }
}

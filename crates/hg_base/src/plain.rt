//! A plain space of pages and heaps in memory, for tests of what stands on them.
//!
//! ```text
//!   slots     | page | heap's | page | heap's | ..      by key: main pages at even places, temporary at odd
//!
//!   heaps     number 0:  pages 3, 7     the objects of each page, in order; roots
//!                        locked: page i stands in frame (first + i) mod 65,536
//!                        each lock moves `first` on, so that every address changes
//! ```
//!
//! An address is frame * 4,096 + offset, as in every space; it is found by a walk over the pages of its heap and
//! the objects on one. A page keeps its payloads in one list of bytes that is reserved when the page is made, so
//! that what is placed later takes no memory; contracts see the list of its objects.

use crate::plain_parts::PlainParts;
use crate::{File, PageFault, PageId, Pages, Request};
use std::alloc::Global;
use std::marker::Model;

/// Pages of both files and heaps in memory. A growth that is refused counts as a fault of the temporary
/// file's device. It tells its bytes and what its heaps hold. The pages of a heap stand in other frames
/// each time that it is locked.
#[derive(Drop)]
pub struct PlainSpace {
    pub(crate) parts: PlainParts,
}

impl Model for PlainSpace {
    ghost use Rattle.hg_base.specs.declared.plain_parts.PlainParts.{PlainParts};

    ghost Value = { PlainParts };

    ghost use Rattle.hg_base.specs.PlainSpaces.{IsWhole};

    ghost view = { λ s. s.parts };

    ghost invariant = { λ s. IsWhole s.parts };
}

/// The right to a page's bytes in a plain space.
pub struct PlainPin {
    page: PageId,
}

impl PlainSpace {
    ghost use Rattle.std.specs.Prelude.{◌≡◌};
    ghost use Rattle.hg_base.specs.Space.{NoPins};
    ghost use Rattle.hg_base.specs.Plain.{plain_start};
    ghost use Rattle.hg_base.specs.PlainTables.{with_cap};

    /// A space in which no page is taken. It takes memory as pages are made.
    pub fn new(alloc: Global) -> PlainSpace
        ensures start { ⟦<PlainSpace as Pages>⟧.state result ≡ plain_start }
        ensures no_pins { NoPins (⟦<PlainSpace as Pages>⟧.state result) }
    {
        PlainSpace {
            parts: PlainParts::new(alloc),
        }
    }

    /// Sets a request's cap, and its peak to the pages that its heaps have.
    pub fn set_cap(&mut self, r: Request, pages: u32)
        ensures { ⟦<PlainSpace as Pages>⟧.state self.new ≡ with_cap (⟦<PlainSpace as Pages>⟧.state self.old) r pages }
    {
        self.parts.set_cap(r, pages);
    }
}

impl Pages for PlainSpace {
    ghost use Rattle.std.specs.Prelude.{◌≡◌, ◌<◌, true, false, IsOk, IfOk, OnOk};
    ghost use Rattle.hg_base.specs.Space.{key, IsPinned};
    ghost use Rattle.hg_base.specs.Causes.{HasCause, fault_of};
    ghost use Rattle.hg_base.specs.PlainSpaces.{state_of};
    ghost use Rattle.hg_base.specs.PlainLaws.{after_write_of, writes_of};

    type Pin = PlainPin;

    ghost state = { state_of };

    ghost pin_page = { λ pin. pin.page };

    ghost after_write = { after_write_of };

    fn pin(&mut self, page: PageId) -> Result<PlainPin, PageFault>
        requires taken { (state_of self.old).taken (key page) ≡ true }
        requires not_pinned { (state_of self.old).pinned (key page) ≡ false }
        requires no_heap { (state_of self.old).of_heap (key page) ≡ false }
        requires few { (state_of self.old).pins < 8 }

        // A page in memory needs no device and no growth.
        ensures sure { IsOk result }
        ensures names { IfOk result (λ pin. pin.page ≡ page) }
        ensures ok { OnOk result (IsPinned (state_of self.old) (state_of self.new) (key page)) }
        ensures cause { HasCause (state_of self.old) (state_of self.new) (fault_of result) }
    {
        self.parts.pin(page);
        Ok(PlainPin { page })
    }

    fn fresh(&mut self, file: File) -> Result<PlainPin, PageFault> {
        match self.parts.fresh(file) {
            Ok(page) => Ok(PlainPin { page }),
            Err(fault) => Err(fault),
        }
    }

    fn page_of(&self, pin: &PlainPin) -> PageId {
        pin.page
    }

    fn bytes(&self, pin: &PlainPin) -> &[u8] {
        self.parts.bytes(pin.page)
    }

    fn bytes_mut(&mut self, pin: &PlainPin) -> &mut [u8] {
        self.parts.bytes_mut(pin.page)
    }

    fn unpin(&mut self, pin: PlainPin) {
        let PlainPin { page } = pin;
        self.parts.unpin(page);
    }

    fn release(&mut self, page: PageId) {
        self.parts.release(page);
    }

    fn next(&self, page: PageId) -> Option<u32> {
        self.parts.next(page)
    }

    fn set_next(&mut self, page: PageId, next: Option<u32>) {
        self.parts.set_next(page, next);
    }

    fn main_faults(&self) -> u64 {
        0
    }

    fn temp_faults(&self) -> u64 {
        self.parts.temp_faults
    }

    fn taken(&self, file: File) -> u32 {
        self.parts.count_taken(file)
    }

    fn can_pin(&self, page: PageId) -> bool {
        self.parts.can_pin(page)
    }

    fn fulls(&self, file: File) -> u64 {
        match file {
            File::Main => self.parts.main_full,
            File::Temp => self.parts.temp_full,
        }
    }

    ghost writes = { writes_of };
}

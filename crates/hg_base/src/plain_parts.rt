//! What a plain space is made of: a slot for each page, and the heaps by their numbers.

ghost use Rattle.std.specs.Prelude.{◌≡◌};
ghost use Rattle.hg_base.specs.Space.{key};
ghost use Rattle.hg_base.specs.Plain.{page_limit};

use crate::plain_bytes::PlainBytes;
use crate::plain_heap::PlainHeap;
use crate::{File, PageFault, PageId};
use std::alloc::{AllocError, Global};

const MAIN_PAGES: u32 = 65_536;

const TEMP_PAGES: u32 = 1_048_576;

/// What stands at a page's key.
#[derive(Drop)]
pub(crate) struct Slot {
    pub(crate) page: PlainBytes,
    pub(crate) pinned: bool,
    pub(crate) next: Option<u32>,
    /// The heap that the page is of.
    pub(crate) heap: Option<u32>,
}

impl Slot {
    ghost use Rattle.std.specs.Prelude.{◌≡◌};
    ghost use Rattle.hg_base.specs.Plain.{empty_slot, taken_slot, plain_slot};

    /// A slot in which no page is taken.
    pub(crate) fn empty(alloc: Global) -> Slot
        ensures { result ≡ empty_slot }
    {
        Slot {
            page: PlainBytes::none(alloc),
            pinned: false,
            next: None,
            heap: None,
        }
    }

    /// Whether a page is taken there.
    fn is_taken(&self) -> bool
        ensures { result ≡ taken_slot self.now }
    {
        match self.heap {
            Some(_) => true,
            None => self.page.len() == 4096,
        }
    }

    /// Whether a page of no heap is taken there.
    fn is_plain(&self) -> bool
        ensures { result ≡ plain_slot self.now }
    {
        match self.heap {
            Some(_) => false,
            None => self.page.len() == 4096,
        }
    }
}

/// Where a page stands among the slots.
pub(crate) fn place_of(page: PageId) -> usize
    ensures { result ≡ key page }
{
    match page.file {
        File::Main => 2 * page.no as usize,
        File::Temp => 2 * page.no as usize + 1,
    }
}

/// How many pages a file may have.
fn pages_of(file: File) -> u32
    ensures { result ≡ page_limit file }
{
    match file {
        File::Main => MAIN_PAGES,
        File::Temp => TEMP_PAGES,
    }
}

/// The parts of a plain space.
#[derive(Drop)]
pub(crate) struct PlainParts {
    pub(crate) alloc: Global,
    /// By key: main pages at even places, temporary ones at odd places.
    pub(crate) slots: Vec<Slot>,
    pub(crate) pins: u32,
    pub(crate) temp_faults: u64,
    pub(crate) main_full: u64,
    pub(crate) temp_full: u64,
    /// By number.
    pub(crate) heaps: Vec<Option<PlainHeap>>,
    /// By request.
    pub(crate) caps: [u32; 16],
    pub(crate) peaks: [u32; 16],
}

impl PlainParts {
    ghost use Rattle.std.specs.Prelude.{◌≡◌, ◌+◌, ◌<◌, ◌↔◌, true, false, IsTrue, Some, None, length, IfOk, IfErr, IsErrOf, OnOk, OnErr, IfSome, IfNone, vec_len};
    ghost use Rattle.std.specs.Borrow.{sem};
    ghost use Rattle.hg_base.specs.Lending.{LendsBytes};
    ghost use Rattle.hg_base.specs.Space.{key, key_in, IsFree, IsFull, IsSame, NoPins, IsPinned, IsMade, with_new, with_next, without_page, without_pin, taken_in};
    ghost use Rattle.hg_base.specs.Causes.{FreshFault, HasCause, fault_of, full_fault};
    ghost use Rattle.hg_base.specs.declared.pages.PageFault.TheVariants.{TempFault};
    ghost use Rattle.hg_base.specs.Plain.{plain_start, page_limit, is_key};
    ghost use Rattle.hg_base.specs.PlainSpaces.{state_of, IsWhole};
    ghost use Rattle.hg_base.specs.PlainLaws.{after_write_of};
    ghost use Rattle.hg_base.specs.contracts.plain_parts.PlainParts.{the_row};

    /// No page is taken, and there is no heap.
    pub(crate) fn new(alloc: Global) -> PlainParts
        ensures start { state_of result ≡ plain_start }
        ensures whole { IsWhole result }
    {
        PlainParts {
            alloc,
            slots: Vec::new(alloc),
            pins: 0,
            temp_faults: 0,
            main_full: 0,
            temp_full: 0,
            heaps: Vec::new(alloc),
            caps: [65_536; 16],
            peaks: [0; 16],
        }
    }

    /// Whether a page is taken.
    fn is_taken(&self, page: PageId) -> bool
        requires { page.no < page_limit page.file }
        ensures { result ≡ (state_of self.now).taken (key page) }
    {
        let at = place_of(page);
        at < self.slots.len() && self.slots[at].is_taken()
    }

    /// Whether a page may be pinned.
    pub(crate) fn can_pin(&self, page: PageId) -> bool
        ensures { IsTrue result ↔ IsFree (state_of self.now) page }
    {
        if page.no >= pages_of(page.file) {
            return false;
        }
        let at = place_of(page);
        if at >= self.slots.len() {
            return false;
        }
        let slot = &self.slots[at];
        slot.is_plain() && !slot.pinned
    }

    /// The lowest page of the file that is not taken.
    pub(crate) fn unused(&self, file: File) -> Option<u32>
        ensures some { IfSome result (λ n. (n < page_limit file) × ((state_of self.now).taken (key_in file n) ≡ false)) }
        ensures none { IfNone result (IsFull (state_of self.now) file) }
    {
        for no in 0..pages_of(file) {
            if !self.is_taken(PageId { file, no }) {
                return Some(no);
            }
        }
        None
    }

    /// How many pages of the file are taken.
    pub(crate) fn count_taken(&self, file: File) -> u32
        ensures { result ≡ taken_in (state_of self.now) file }
    {
        let mut count: u32 = 0;
        for no in 0..pages_of(file) {
            let page = PageId { file, no };
            if place_of(page) >= self.slots.len() {
                return count;
            }
            if self.is_taken(page) {
                count += 1;
            }
        }
        count
    }

    /// Counts that the file was full, and says so.
    pub(crate) fn count_full(&mut self, file: File) -> PageFault
        requires { IsFull (state_of self.old) file }
        ensures fault { result ≡ full_fault file }
        ensures cause { HasCause (state_of self.old) (state_of self.new) (Some result) }
        ensures full { FreshFault file (state_of self.old) result }
        ensures same { IsSame (state_of self.old) (state_of self.new) }
        ensures whole { IsWhole self.old → IsWhole self.new }
    {
        match file {
            File::Main => {
                self.main_full = self.main_full.saturating_add(1);
                PageFault::MainFull
            }
            File::Temp => {
                self.temp_full = self.temp_full.saturating_add(1);
                PageFault::TempFull
            }
        }
    }

    /// Makes one more empty slot.
    fn add_slot(&mut self) -> Result<(), AllocError>
        ensures longer { OnOk result (vec_len self.new.slots ≡ vec_len self.old.slots + 1) }
        ensures same { state_of self.new ≡ state_of self.old }
        ensures whole { IsWhole self.old → IsWhole self.new }
    {
        let slot = Slot::empty(self.alloc);
        self.slots.push(slot)?;
        Ok(())
    }

    /// Makes empty slots until one stands at `at`.
    pub(crate) fn grow(&mut self, at: usize) -> Result<(), AllocError>
        ensures long { OnOk result (at < vec_len self.new.slots) }
        ensures same { state_of self.new ≡ state_of self.old }
        ensures whole { IsWhole self.old → IsWhole self.new }
    {
        while self.slots.len() <= at {
            self.add_slot()?;
        }
        Ok(())
    }

    /// Puts a page of zeros, pinned, at a place where none is taken.
    fn make(&mut self, at: usize) -> Result<(), AllocError>
        requires key { is_key at ≡ true }
        requires free { (state_of self.old).taken at ≡ false }
        requires few { self.old.pins < 8 }
        ensures ok { OnOk result (state_of self.new ≡ with_new (state_of self.old) at) }
        ensures err { OnErr result (state_of self.new ≡ state_of self.old) }
        ensures whole { IsWhole self.old → IsWhole self.new }
    {
        self.grow(at)?;
        let page = PlainBytes::zeros(self.alloc)?;
        let slot = &mut self.slots[at];
        *slot = Slot {
            page,
            pinned: true,
            next: None,
            heap: None,
        };
        self.pins += 1;
        Ok(())
    }

    /// Counts that memory was refused.
    pub(crate) fn count_refused(&mut self) -> PageFault
        ensures fault { result ≡ TempFault }
        ensures cause { HasCause (state_of self.old) (state_of self.new) (Some result) }
        ensures same { IsSame (state_of self.old) (state_of self.new) }
        ensures whole { IsWhole self.old → IsWhole self.new }
    {
        self.temp_faults = self.temp_faults.saturating_add(1);
        PageFault::TempFault
    }

    /// Takes a page that was not taken: zeros, pinned.
    pub(crate) fn fresh(&mut self, file: File) -> Result<PageId, PageFault>
        requires few { (state_of self.old).pins < 8 }
        ensures ok { IfOk result (λ page. IsMade file (state_of self.old) (state_of self.new) page) }
        ensures err { OnErr result (IsSame (state_of self.old) (state_of self.new)) }
        ensures fault { IfErr result (FreshFault file (state_of self.old)) }
        ensures cause { HasCause (state_of self.old) (state_of self.new) (fault_of result) }
        ensures full { IsFull (state_of self.old) file → IsErrOf result (full_fault file) }
        ensures whole { IsWhole self.old → IsWhole self.new }
    {
        let Some(no) = self.unused(file) else {
            return Err(self.count_full(file));
        };
        let page = PageId { file, no };
        match self.make(place_of(page)) {
            Ok(()) => Ok(page),
            Err(_) => Err(self.count_refused()),
        }
    }

    /// Pins a page.
    pub(crate) fn pin(&mut self, page: PageId)
        requires taken { (state_of self.old).taken (key page) ≡ true }
        requires no_heap { (state_of self.old).of_heap (key page) ≡ false }
        requires few { (state_of self.old).pins < 8 }
        ensures pinned { IsPinned (state_of self.old) (state_of self.new) (key page) }
        ensures cause { HasCause (state_of self.old) (state_of self.new) None }
        ensures whole { IsWhole self.old → IsWhole self.new }
    {
        let slot = &mut self.slots[place_of(page)];
        slot.pinned = true;
        self.pins += 1;
    }

    /// The bytes of a pinned page.
    pub(crate) fn bytes(&self, page: PageId) -> &[u8]
        requires { (state_of self.now).pinned (key page) ≡ true }
        ensures value { (state_of self.now).bytes (key page) ≡ Some result.now }
        ensures len { length result.now ≡ 4096 }
    {
        self.slots[place_of(page)].page.bytes()
    }

    /// The bytes of a pinned page, to be written.
    pub(crate) fn bytes_mut(&mut self, page: PageId) -> &mut [u8]
        requires { (state_of self.old).pinned (key page) ≡ true }
        ensures* lends { sem 𝓛 (LendsBytes the_row self.entry result (after_write_of self.old (key page))) }
        ensures value { (state_of self.old).bytes (key page) ≡ Some result.now }
        ensures len { length result.now ≡ 4096 }
    {
        let slot = &mut self.slots[place_of(page)];
        slot.page.bytes_mut()
    }

    /// Gives a pin back.
    pub(crate) fn unpin(&mut self, page: PageId)
        requires { (state_of self.old).pinned (key page) ≡ true }
        ensures state { state_of self.new ≡ without_pin (state_of self.old) (key page) }
        ensures whole { IsWhole self.old → IsWhole self.new }
    {
        let slot = &mut self.slots[place_of(page)];
        slot.pinned = false;
        self.pins = self.pins.saturating_sub(1);
    }

    /// Gives a page back, so that it is not taken any more.
    pub(crate) fn release(&mut self, page: PageId)
        requires taken { (state_of self.old).taken (key page) ≡ true }
        requires not_pinned { (state_of self.old).pinned (key page) ≡ false }
        requires no_heap { (state_of self.old).of_heap (key page) ≡ false }
        ensures state { state_of self.new ≡ without_page (state_of self.old) (key page) }
        ensures whole { IsWhole self.old → IsWhole self.new }
    {
        self.slots[place_of(page)] = Slot::empty(self.alloc);
    }

    /// The number of a page's successor. The pages of heaps have none.
    pub(crate) fn next(&self, page: PageId) -> Option<u32>
        requires { (state_of self.now).taken (key page) ≡ true }
        ensures { result ≡ (state_of self.now).next (key page) }
    {
        let slot = &self.slots[place_of(page)];
        if slot.is_plain() {
            return slot.next;
        }
        None
    }

    /// Sets or takes away a page's successor.
    pub(crate) fn set_next(&mut self, page: PageId, next: Option<u32>)
        requires taken { (state_of self.old).taken (key page) ≡ true }
        requires no_heap { (state_of self.old).of_heap (key page) ≡ false }
        ensures state { state_of self.new ≡ with_next (state_of self.old) (key page) next }
        ensures whole { IsWhole self.old → IsWhole self.new }
    {
        let slot = &mut self.slots[place_of(page)];
        slot.next = next;
    }
}

//! The heaps of a plain space: how they are made, grow, move and go.

ghost use Rattle.std.specs.Prelude.{◌≡◌, ◌<◌, ◌≤◌, [], ◌∷◌, length, IfOk, option_map};
ghost use Rattle.hg_base.specs.HeapContent.{no_objects};
ghost use Rattle.hg_base.specs.HeapStates.{pages_for};
ghost use Rattle.hg_base.specs.Plain.{heap_of};
ghost use Rattle.hg_base.specs.PlainHeapFacts.{pages_of_heap};
ghost use Rattle.hg_base.specs.PlainObjects.{objects_in};
ghost use Rattle.hg_base.specs.declared.plain_heap.PlainStanding.TheVariants.{Locked};

use crate::plain_bytes::PlainBytes;
use crate::plain_heap::{PlainHeap, PlainStanding};
use crate::plain_objects::HeapObjects;
use crate::plain_page::HeapPage;
use crate::plain_parts::{PlainParts, Slot, place_of};
use crate::{Addr, File, HeapNo, NoRoom, PageId, Request};
use std::alloc::{AllocError, Global};
use std::mem::replace;

/// A heap of one page with no object, locked.
fn new_heap(alloc: Global, at: usize, request: Request) -> Result<PlainHeap, AllocError>
    ensures standing { IfOk result (λ x. x.standing ≡ Locked) }
    ensures request { IfOk result (λ x. x.request ≡ request) }
    ensures pages { IfOk result (λ x. x.pages.items ≡ at ∷ []) }
    ensures objects { IfOk result (λ x. objects_in x.objects ≡ no_objects) }
{
    let mut pages = Vec::new(alloc);
    pages.push(at)?;
    let mut layout = Vec::new(alloc);
    layout.push(HeapPage::new(alloc)?)?;
    Ok(PlainHeap {
        request,
        standing: PlainStanding::Locked,
        pages,
        objects: HeapObjects {
            first: (at % 65_536) as u32,
            layout,
            roots: [None; 4],
        },
    })
}

/// How many pages a heap has for a request.
fn count_for(heap: &Option<PlainHeap>, r: Request) -> u32
    requires { length (pages_of_heap heap.now) ≤ 65528 }
    ensures count { result ≡ pages_for r (option_map heap_of heap.now) }
    ensures few { result ≤ 65528 }
{
    match heap {
        Some(heap) => {
            if heap.request.0 == r.0 {
                heap.pages.len() as u32
            } else {
                0
            }
        }
        None => 0,
    }
}

impl PlainParts {
    ghost use Rattle.std.specs.Prelude.{◌≡◌, ◌+◌, ◌<◌, ◌≤◌, ◌↔◌, true, false, Some, None, [], length, option_map, slice_set, IsOk, IfOk, IfSome, IfNone, IsSome, OnOk, OnErr, vec_len};
    ghost use Rattle.std.specs.Borrow.{sem};
    ghost use Rattle.std.specs.List.{AllByRecursion};
    ghost use Rattle.hg_base.specs.Content.{locked, object_size, row_object, directory};
    ghost use Rattle.hg_base.specs.HeapContent.{no_links};
    ghost use Rattle.hg_base.specs.Lending.{LendsBytes};
    ghost use Rattle.hg_base.specs.Plain.{empty_slot};
    ghost use Rattle.hg_base.specs.PlainObjects.{objects_in, frames_in, IsSound};
    ghost use Rattle.hg_base.specs.PlainLoans.{after_payload_of};
    ghost use Rattle.hg_base.specs.contracts.plain_parts.PlainParts.{the_row};
    ghost use Rattle.hg_base.specs.Space.{at, key_in};
    ghost use Rattle.hg_base.specs.HeapFacts.{AreHeaps};
    ghost use Rattle.hg_base.specs.declared.File.TheVariants.{Temp};
    ghost use Rattle.hg_base.specs.HeapStates.{heap_count, pages_held, frames_locked, pages_in, with_heap, with_heap_page, with_peak, after_unlock, after_drop, after_row, after_directory, after_word, after_root, without_heap_page, without_heap_pages, standing_of, room_in, next_in, words_in, payload_in, HasWord, CanDrain, Drains, MakesHeap, AddsHeapPage, IsLocked, CanLock, Locks};
    ghost use Rattle.hg_base.specs.PlainHeapFacts.{IsSameHeap, GotPage, Drained};
    ghost use Rattle.hg_base.specs.PlainTables.{PutsHeap, with_cap, IsClearable, cleared, IsNotLocked};
    ghost use Rattle.hg_base.specs.declared.plain_heap.PlainHeap.{PlainHeap};
    ghost use Rattle.hg_base.specs.Plain.{heap_at, heap_of, is_key};
    ghost use Rattle.hg_base.specs.PlainSpaces.{state_of, owners_of, IsWhole};

    /// The lowest number of no heap.
    fn free_number(&self) -> usize
        requires few { heap_count (state_of self.now) < 512 }
        requires short { length self.now.heaps.items ≤ 512 }
        ensures none { heap_at self.now.heaps.items result ≡ None }
        ensures few { result < 512 }
        ensures next { result ≤ vec_len self.now.heaps }
    {
        for number in 0..self.heaps.len() {
            match &self.heaps[number] {
                Some(_) => {}
                None => return number,
            }
        }
        self.heaps.len()
    }

    /// How many pages the heaps of a request have.
    fn held(&self, r: Request) -> u32
        requires { IsWhole self.now }
        ensures count { result ≡ pages_held (state_of self.now) r }
        ensures few { result < 67108864 }
        ensures request { r < 16 }
    {
        let _number = &r.0;
        let mut count: u32 = 0;
        for number in 0..self.heaps.len() {
            count += count_for(&self.heaps[number], r);
        }
        count
    }

    /// There is a place for a heap of this number.
    fn grow_heaps(&mut self, number: usize) -> Result<(), AllocError>
        requires { number ≤ vec_len self.old.heaps }
        ensures long { OnOk result (number < vec_len self.new.heaps) }
        ensures few { number < 512 → length self.old.heaps.items ≤ 512 → length self.new.heaps.items ≤ 512 }
        ensures same { heap_at self.new.heaps.items ≡ heap_at self.old.heaps.items }
        ensures state { state_of self.new ≡ state_of self.old }
        ensures owners { owners_of self.new ≡ owners_of self.old }
        ensures slots { self.new.slots ≡ self.old.slots }
    {
        if number == self.heaps.len() {
            self.heaps.push(None)?;
        }
        Ok(())
    }

    /// Makes a page that is not taken one of a heap.
    fn own(&mut self, page: usize, h: u32)
        requires there { page < vec_len self.old.slots }
        requires key { is_key page ≡ true }
        requires free { (state_of self.old).taken page ≡ false }
        ensures state { state_of self.new ≡ with_heap_page (state_of self.old) page }
        ensures owners { owners_of self.new ≡ at (owners_of self.old) page (Some h) }
        ensures heaps { self.new.heaps ≡ self.old.heaps }
    {
        self.slots[page] = Slot {
            page: PlainBytes::none(self.alloc),
            pinned: false,
            next: None,
            heap: Some(h),
        };
    }

    /// Puts a heap, or none, at a number.
    fn put_heap(&mut self, number: usize, heap: Option<PlainHeap>)
        requires { number < vec_len self.old.heaps }
        ensures state { state_of self.new ≡ with_heap (state_of self.old) number (option_map heap_of heap) }
        ensures owners { owners_of self.new ≡ owners_of self.old }
        ensures heaps { heap_at self.new.heaps.items ≡ at (heap_at self.old.heaps.items) number heap }
        ensures count { length self.new.heaps.items ≡ length self.old.heaps.items }
    {
        self.heaps[number] = heap;
    }

    /// Raises a request's peak to at least so many pages.
    fn raise_peak(&mut self, r: Request, pages: u32)
        ensures state { state_of self.new ≡ with_peak (state_of self.old) r pages }
        ensures owners { owners_of self.new ≡ owners_of self.old }
        ensures heaps { self.new.heaps ≡ self.old.heaps }
    {
        let at = r.0 as usize;
        self.peaks[at] = self.peaks[at].max(pages);
    }

    /// Makes a heap whose page is the one of that number of the temporary file.
    pub(crate) fn make_heap(&mut self, no: u32, request: Request) -> Result<HeapNo, AllocError>
        requires whole { IsWhole self.old }
        requires few { heap_count (state_of self.old) < 512 }
        requires page { no < 1048576 }
        requires free { (state_of self.old).taken (key_in Temp no) ≡ false }
        ensures ok { IfOk result (λ h. MakesHeap (state_of self.old) (state_of self.new) h.0 request) }
        ensures err { OnErr result (state_of self.new ≡ state_of self.old) }
        ensures counts { (state_of self.new).counts ≡ (state_of self.old).counts }
        ensures whole { IsWhole self.new }
    {
        let page = place_of(PageId {
            file: File::Temp,
            no,
        });
        self.grow(page)?;
        let heap = new_heap(self.alloc, page, request)?;
        let number = self.free_number();
        let held = self.held(request);
        self.grow_heaps(number)?;
        self.own(page, number as u32);
        self.put_heap(number, Some(heap));
        self.raise_peak(request, held + 1);
        Ok(HeapNo(number as u32))
    }

    /// Puts a page with no object behind the others of a heap.
    fn push_page(&mut self, h: HeapNo, at: usize, page: HeapPage) -> Result<(), AllocError>
        requires there { IsSome (heap_at self.old.heaps.items h.0) }
        requires empty { page ≡ [] }
        ensures ok { OnOk result (PutsHeap (λ x y. GotPage x y at) self.old self.new h.0) }
        ensures err { OnErr result (PutsHeap IsSameHeap self.old self.new h.0) }
    {
        match &mut self.heaps[h.0 as usize] {
            Some(heap) => heap.add_page(at, page),
            None => unreachable!(),
        }
    }

    /// The request that a heap works for.
    pub(crate) fn request_of(&self, h: HeapNo) -> Request
        requires { IsSome (heap_at self.now.heaps.items h.0) }
        ensures { option_map (λ (x : PlainHeap). x.request) (heap_at self.now.heaps.items h.0) ≡ Some result }
    {
        match &self.heaps[h.0 as usize] {
            Some(heap) => heap.request,
            None => unreachable!(),
        }
    }

    /// Gives a heap that is locked the page of that number of the temporary file.
    pub(crate) fn add_heap_page(&mut self, h: HeapNo, no: u32) -> Result<(), AllocError>
        requires whole { IsWhole self.old }
        requires locked { IsLocked (state_of self.old) h.0 }
        requires room { frames_locked (state_of self.old) + 8 < 65536 }
        requires page { no < 1048576 }
        requires free { (state_of self.old).taken (key_in Temp no) ≡ false }
        ensures ok { OnOk result (AddsHeapPage (state_of self.old) (state_of self.new) h.0) }
        ensures err { OnErr result (state_of self.new ≡ state_of self.old) }
        ensures counts { (state_of self.new).counts ≡ (state_of self.old).counts }
        ensures whole { IsWhole self.new }
    {
        let at = place_of(PageId {
            file: File::Temp,
            no,
        });
        self.grow(at)?;
        let page = HeapPage::new(self.alloc)?;
        let request = self.request_of(h);
        let held = self.held(request);
        self.push_page(h, at, page)?;
        self.own(at, h.0);
        self.raise_peak(request, held + 1);
        Ok(())
    }

    /// Locks a heap.
    pub(crate) fn lock(&mut self, h: HeapNo)
        requires whole { IsWhole self.old }
        requires can { CanLock (state_of self.old) h.0 }
        ensures ok { Locks (state_of self.old) (state_of self.new) h.0 }
        ensures counts { (state_of self.new).counts ≡ (state_of self.old).counts }
        ensures whole { IsWhole self.new }
    {
        match &mut self.heaps[h.0 as usize] {
            Some(heap) => heap.lock(),
            None => unreachable!(),
        }
    }

    /// Unlocks a heap.
    pub(crate) fn unlock(&mut self, h: HeapNo)
        requires whole { IsWhole self.old }
        requires locked { IsLocked (state_of self.old) h.0 }
        ensures state { state_of self.new ≡ after_unlock (state_of self.old) h.0 }
        ensures whole { IsWhole self.new }
    {
        match &mut self.heaps[h.0 as usize] {
            Some(heap) => heap.standing = PlainStanding::Unlocked,
            None => unreachable!(),
        }
    }

    /// How many pages a heap has.
    pub(crate) fn heap_pages(&self, h: HeapNo) -> u32
        requires whole { IsWhole self.now }
        requires there { IsSome ((state_of self.now).heaps.heap h.0) }
        ensures count { result ≡ length (pages_in ((state_of self.now).heaps.heap h.0)) }
        ensures few { result ≤ 65528 }
    {
        match &self.heaps[h.0 as usize] {
            Some(heap) => heap.pages.len() as u32,
            None => unreachable!(),
        }
    }

    /// Sets a request's cap, and its peak to the pages that its heaps have.
    pub(crate) fn set_cap(&mut self, r: Request, pages: u32)
        requires { IsWhole self.old }
        ensures state { state_of self.new ≡ with_cap (state_of self.old) r pages }
        ensures whole { IsWhole self.new }
    {
        let held = self.held(r);
        self.caps[r.0 as usize] = pages;
        self.peaks[r.0 as usize] = held;
    }

    /// The most pages that a request's heaps had.
    pub(crate) fn peak(&self, r: Request) -> u32
        requires { IsWhole self.now }
        ensures count { result ≡ (state_of self.now).heaps.peak r }
        ensures heaps { AreHeaps (state_of self.now) }
    {
        self.peaks[r.0 as usize]
    }

    /// Empties the slot of a page of a heap.
    fn clear_slot(&mut self, page: usize)
        requires { IsClearable self.old.slots.items page }
        ensures state { state_of self.new ≡ without_heap_page (state_of self.old) page }
        ensures owners { owners_of self.new ≡ at (owners_of self.old) page None }
        ensures heaps { self.new.heaps ≡ self.old.heaps }
        ensures slots { self.new.slots.items ≡ slice_set self.old.slots.items page empty_slot }
    {
        self.slots[page] = Slot::empty(self.alloc);
    }

    /// Empties the slots of all pages of a heap.
    fn clear_slots(&mut self, pages: &[usize])
        requires { AllByRecursion (IsClearable self.old.slots.items) pages.now }
        ensures state { state_of self.new ≡ without_heap_pages (state_of self.old) pages.now }
        ensures owners { owners_of self.new ≡ cleared (owners_of self.old) pages.now }
        ensures heaps { self.new.heaps ≡ self.old.heaps }
    {
        for i in 0..pages.len() {
            self.clear_slot(pages[i]);
        }
    }

    /// Takes the first page of a heap off it, whose rows stand in `out` then.
    fn take_page(&mut self, h: HeapNo, out: &mut [u8]) -> usize
        requires whole { IsWhole self.old }
        requires can { CanDrain ((state_of self.old).heaps.heap h.0) }
        requires long { length out.old ≡ 4096 }
        ensures { PutsHeap (λ x y. Drained x y result out.new) self.old self.new h.0 }
    {
        match &mut self.heaps[h.0 as usize] {
            Some(heap) => heap.drain(out),
            None => unreachable!(),
        }
    }

    /// Releases the first page of a heap, whose rows stand in `out` then.
    pub(crate) fn drain(&mut self, h: HeapNo, out: &mut [u8])
        requires whole { IsWhole self.old }
        requires can { CanDrain ((state_of self.old).heaps.heap h.0) }
        requires long { length out.old ≡ 4096 }
        ensures ok { Drains (state_of self.old) (state_of self.new) h.0 out.new }
        ensures counts { (state_of self.new).counts ≡ (state_of self.old).counts }
        ensures whole { IsWhole self.new }
    {
        let page = self.take_page(h, out);
        self.clear_slot(page);
    }

    /// Takes a heap away from its number.
    fn take_heap(&mut self, h: HeapNo) -> PlainHeap
        requires { IsSome (heap_at self.old.heaps.items h.0) }
        ensures was { heap_at self.old.heaps.items h.0 ≡ Some result }
        ensures state { state_of self.new ≡ with_heap (state_of self.old) h.0 None }
        ensures owners { owners_of self.new ≡ owners_of self.old }
        ensures slots { self.new.slots ≡ self.old.slots }
        ensures heaps { heap_at self.new.heaps.items ≡ at (heap_at self.old.heaps.items) h.0 None }
        ensures count { length self.new.heaps.items ≡ length self.old.heaps.items }
    {
        match replace(&mut self.heaps[h.0 as usize], None) {
            Some(heap) => heap,
            None => unreachable!(),
        }
    }

    /// Releases all pages of a heap, which is one no more.
    pub(crate) fn drop_heap(&mut self, h: HeapNo)
        requires whole { IsWhole self.old }
        requires there { IsSome ((state_of self.old).heaps.heap h.0) }
        ensures state { state_of self.new ≡ after_drop (state_of self.old) h.0 }
        ensures whole { IsWhole self.new }
    {
        let heap = self.take_heap(h);
        self.clear_slots(heap.pages.as_slice());
    }

    /// The objects of a heap that is locked.
    pub(crate) fn locked(&self, h: HeapNo) -> Option<&HeapObjects>
        requires { IsWhole self.now }
        ensures some { IfSome result (λ o. standing_of (state_of self.now) h.0 ≡ Some (locked (objects_in o.now) (frames_in o.now))) }
        ensures sound { IfSome result (λ o. IsSound o.now) }
        ensures none { IfNone result (IsNotLocked (standing_of (state_of self.now) h.0)) }
    {
        let number = h.0 as usize;
        if number >= self.heaps.len() {
            return None;
        }
        match &self.heaps[number] {
            Some(heap) => match heap.standing {
                PlainStanding::Locked => Some(&heap.objects),
                PlainStanding::Unlocked => None,
                PlainStanding::Draining => None,
            },
            None => None,
        }
    }

    /// Places a row in a heap.
    pub(crate) fn place(&mut self, h: HeapNo, payload: &[u8], link: Addr) -> Result<Addr, NoRoom>
        requires whole { IsWhole self.old }
        requires locked { IsLocked (state_of self.old) h.0 }
        requires short { length payload.now ≤ 3920 }
        requires some { 0 < length payload.now }
        ensures room { IsOk result ↔ IfSome (room_in (state_of self.old) h.0) (λ free. object_size
            (row_object payload.now None) ≤ free) }
        ensures address { IfOk result (λ a. next_in (state_of self.old) h.0 ≡ Some a.word) }
        ensures ok { OnOk result (state_of self.new ≡ after_row (state_of self.old) h.0 payload.now link.word) }
        ensures err { OnErr result (state_of self.new ≡ state_of self.old) }
        ensures whole { IsWhole self.new }
    {
        match &mut self.heaps[h.0 as usize] {
            Some(heap) => heap.objects.place(payload, link),
            None => unreachable!(),
        }
    }

    /// Places a directory in a heap.
    pub(crate) fn place_words(&mut self, h: HeapNo, n: u16) -> Result<Addr, NoRoom>
        requires whole { IsWhole self.old }
        requires locked { IsLocked (state_of self.old) h.0 }
        ensures room { IsOk result ↔ IfSome (room_in (state_of self.old) h.0) (λ free. object_size
            (directory (no_links n)) ≤ free) }
        ensures address { IfOk result (λ a. next_in (state_of self.old) h.0 ≡ Some a.word) }
        ensures ok { OnOk result (state_of self.new ≡ after_directory (state_of self.old) h.0 n) }
        ensures err { OnErr result (state_of self.new ≡ state_of self.old) }
        ensures whole { IsWhole self.new }
    {
        match &mut self.heaps[h.0 as usize] {
            Some(heap) => heap.objects.place_words(n),
            None => unreachable!(),
        }
    }

    /// Sets an address of a directory.
    pub(crate) fn set_word(&mut self, h: HeapNo, dir: Addr, k: u16, to: Addr)
        requires whole { IsWhole self.old }
        requires inside { HasWord (words_in (state_of self.old) h.0 dir.word) k }
        ensures state { state_of self.new ≡ after_word (state_of self.old) h.0 dir.word k to.word }
        ensures whole { IsWhole self.new }
    {
        match &mut self.heaps[h.0 as usize] {
            Some(heap) => heap.objects.set_word(dir, k, to),
            None => unreachable!(),
        }
    }

    /// Sets a root.
    pub(crate) fn set_root(&mut self, h: HeapNo, k: u8, to: Addr)
        requires whole { IsWhole self.old }
        requires locked { IsLocked (state_of self.old) h.0 }
        requires four { k < 4 }
        ensures state { state_of self.new ≡ after_root (state_of self.old) h.0 k to.word }
        ensures whole { IsWhole self.new }
    {
        match &mut self.heaps[h.0 as usize] {
            Some(heap) => heap.objects.set_root(k, to),
            None => unreachable!(),
        }
    }

    /// The payload of a row, to be written.
    pub(crate) fn payload_mut(&mut self, h: HeapNo, a: Addr) -> &mut [u8]
        requires whole { IsWhole self.old }
        requires row { IsSome (payload_in (state_of self.old) h.0 a.word) }
        ensures* lends { sem 𝓛 (LendsBytes the_row self.entry result (after_payload_of self.old h.0 a.word)) }
        ensures value { payload_in (state_of self.old) h.0 a.word ≡ Some result.now }
    {
        match &mut self.heaps[h.0 as usize] {
            Some(heap) => heap.objects.payload_mut(a),
            None => unreachable!(),
        }
    }
}

//! A pool is a space of pages.
ghost use Rattle.std.specs.Prelude.{◌≡◌, ◌<◌, ◌-◌, ◌^◌, true, false, None, Some, IfOk, IfErr, OnOk, OnErr, IsOk, IsErrOf};
ghost use Rattle.hg_base.specs.Space.{key, IsPinned, IsMade, IsSame, IsFull, without_pin, without_page, with_next};
ghost use Rattle.hg_base.specs.Causes.{HasCause, PinFault, FreshFault, fault_of, full_fault};
ghost use Rattle.hg_clock.specs.Clock.{score_of};
ghost use Rattle.hg_pool.specs.Clocking.{ComesIn, used, back, forgotten};
ghost use Rattle.hg_pool.specs.Shown.{
  state_of,
  in_frame,
  frame_of,
  page_in,
  counts_of_pool,
  clock_of,
  current_of,
  SameStockOf,
  main_device,
  temp_device,
  CalledNone,
  SameFrames,
  SameFramesBut,
  KeepsFrames,
  owed,
  OwesSame,
  Asked,
  StaysIn,
  IsRefused,
};
ghost use Rattle.hg_pool.specs.Work.{IsLowest, IsUnused, CallsNone, evicted};
ghost use Rattle.hg_pool.specs.Lending.{KeepsOut};

use crate::Pool;
use hg_base::{File, PageFault, PageId, Pages};
use hg_io::PageDevice;

/// The right to the bytes of a page of a pool. It must be spent by `unpin`.
pub struct PoolPin {
    pub(crate) page: PageId,
}

impl<M: PageDevice, T: PageDevice> Pages for Pool<M, T> {
    ghost use Rattle.hg_pool.specs.Shown.{state_of};
    ghost use Rattle.hg_pool.specs.Loans.{after_write_of, writes_of};

    type Pin = PoolPin;

    ghost state = { state_of M.PageDevice T.PageDevice };

    ghost pin_page = { λ pin. pin.page };

    ghost after_write = { after_write_of };

    /// A page that is in no frame is read, once, into the frame that the clock gives. A page whose bytes are newer than those on its device leaves that frame
    /// only after a write that succeeded; where the read fails then, it has left it all the same. After a
    /// fault each page is as it was. Pages in other frames stay there, so that a pin of them succeeds and
    /// calls no device.
    fn pin(&mut self, page: PageId) -> Result<PoolPin, PageFault>
        requires taken { (state_of M.PageDevice T.PageDevice self.old).taken (key page) ≡ true }
        requires not_pinned { (state_of M.PageDevice T.PageDevice self.old).pinned (key page) ≡ false }
        requires no_heap { (state_of M.PageDevice T.PageDevice self.old).of_heap (key page) ≡ false }
        requires few { (state_of M.PageDevice T.PageDevice self.old).pins < 8 }
        ensures names { IfOk result (λ pin. pin.page ≡ page) }
        ensures ok { OnOk result (IsPinned (state_of M.PageDevice T.PageDevice self.old)
            (state_of M.PageDevice T.PageDevice self.new) (key page)) }
        ensures err { OnErr result (IsSame (state_of M.PageDevice T.PageDevice self.old)
            (state_of M.PageDevice T.PageDevice self.new)) }
        ensures cause { HasCause (state_of M.PageDevice T.PageDevice self.old)
            (state_of M.PageDevice T.PageDevice self.new) (fault_of result) }
        ensures fault { IfErr result PinFault }
        ensures in_frame { OnOk result (in_frame self.new page ≡ true) }
        ensures asked { OnOk result (in_frame self.old page ≡ false
            → Asked M.PageDevice T.PageDevice self.old self.new (owed self.old (frame_of self.new page)) (Some page.file)) }
        ensures refused { IfErr result (IsRefused M.PageDevice T.PageDevice self.old self.new page) }
        ensures used { OnOk result (in_frame self.old page ≡ true → clock_of self.new ≡ used (clock_of self.old) (frame_of self.old page)) }
        ensures comes { OnOk result (in_frame self.old page ≡ false
            → ComesIn (current_of self.old) (clock_of self.old) (clock_of self.new) (frame_of self.new page)) }
        ensures score { OnOk result (score_of (clock_of self.new) (frame_of self.new page) ≡ 7) }
        ensures stock { SameStockOf self.old self.new }
        ensures calls_none { in_frame self.old page ≡ true → CalledNone self.old self.new }
        ensures stays_ok { in_frame self.old page ≡ true → IsOk result }
        ensures keeps_frames { OnOk result (KeepsFrames self.old self.new page (frame_of self.new page)) }
        ensures same_frames { in_frame self.old page ≡ true → SameFrames self.old self.new }
        ensures owing { in_frame self.old page ≡ true → OwesSame self.old self.new }
        ensures clean { OnOk result (in_frame self.old page ≡ false → owed self.new (frame_of self.new page) ≡ None) }
        ensures keeps_out { KeepsOut M.PageDevice T.PageDevice self.old self.new }
        ensures keeps_counts { in_frame self.old page ≡ true → counts_of_pool self.new ≡ counts_of_pool self.old }
        ensures evicts { OnOk result (in_frame self.old page ≡ false → (counts_of_pool self.new).evictions
            ≡ evicted (page_in self.old (frame_of self.new page)) (counts_of_pool self.old).evictions) }
        ensures uncounted { counts_of_pool self.new ≡ counts_of_pool self.old → (counts_of_pool self.old).reads < 2 ^ 64 - 1
            → (counts_of_pool self.old).writes < 2 ^ 64 - 1 → CalledNone self.old self.new }
    {
        self.parts.pin(page)?;
        Ok(PoolPin { page })
    }

    /// It is the lowest page of its file that is not taken, and comes into the frame that `pin` would
    /// bring a page into. Pages in other frames stay there. Where the file is full no device is called.
    fn fresh(&mut self, file: File) -> Result<PoolPin, PageFault>
        requires few { (state_of M.PageDevice T.PageDevice self.old).pins < 8 }
        ensures ok { IfOk result (λ pin. IsMade file (state_of M.PageDevice T.PageDevice self.old)
            (state_of M.PageDevice T.PageDevice self.new) pin.page) }
        ensures err { OnErr result (IsSame (state_of M.PageDevice T.PageDevice self.old)
            (state_of M.PageDevice T.PageDevice self.new)) }
        ensures cause { HasCause (state_of M.PageDevice T.PageDevice self.old)
            (state_of M.PageDevice T.PageDevice self.new) (fault_of result) }
        ensures fault { IfErr result (FreshFault file (state_of M.PageDevice T.PageDevice self.old)) }
        ensures full { IsFull (state_of M.PageDevice T.PageDevice self.old) file → IsErrOf result (full_fault file) }
        ensures lowest { IfOk result (λ pin. IsLowest (state_of M.PageDevice T.PageDevice self.old) pin.page) }
        ensures in_frame { IfOk result (λ pin. in_frame self.new pin.page ≡ true) }
        ensures asked { IfOk result (λ pin. Asked M.PageDevice T.PageDevice self.old self.new (owed self.old (frame_of self.new pin.page)) None) }
        ensures refused { IfErr result (λ fault. (IsFull (state_of M.PageDevice T.PageDevice self.old) file → ⊥)
            → StaysIn M.PageDevice T.PageDevice self.old self.new fault) }
        ensures full_work { IsFull (state_of M.PageDevice T.PageDevice self.old) file → counts_of_pool self.new ≡ counts_of_pool self.old }
        ensures full_clock { IsFull (state_of M.PageDevice T.PageDevice self.old) file → clock_of self.new ≡ clock_of self.old }
        ensures comes { IfOk result (λ pin. ComesIn (current_of self.old) (clock_of self.old) (clock_of self.new) (frame_of self.new pin.page)) }
        ensures score { IfOk result (λ pin. score_of (clock_of self.new) (frame_of self.new pin.page) ≡ 7) }
        ensures stock { SameStockOf self.old self.new }
        ensures unused { IsUnused (state_of M.PageDevice T.PageDevice self.old) → CallsNone (main_device self.old) (main_device self.new)
            (temp_device self.old) (temp_device self.new) result (full_fault file) }
        ensures full_calls_none { IsFull (state_of M.PageDevice T.PageDevice self.old) file → CalledNone self.old self.new }
        ensures keeps_frames { IfOk result (λ pin. KeepsFrames self.old self.new pin.page (frame_of self.new pin.page)) }
        ensures err_frames { OnErr result (SameFrames self.old self.new) }
        ensures keeps_out { KeepsOut M.PageDevice T.PageDevice self.old self.new }
        ensures err_owing { OnErr result (OwesSame self.old self.new) }
        ensures evicts { IfOk result (λ pin. (counts_of_pool self.new).evictions
            ≡ evicted (page_in self.old (frame_of self.new pin.page)) (counts_of_pool self.old).evictions) }
        ensures none_evicted { OnErr result ((counts_of_pool self.new).evictions ≡ (counts_of_pool self.old).evictions) }
        ensures uncounted { counts_of_pool self.new ≡ counts_of_pool self.old → (counts_of_pool self.old).reads < 2 ^ 64 - 1
            → (counts_of_pool self.old).writes < 2 ^ 64 - 1 → CalledNone self.old self.new }
    {
        let page = self.parts.fresh(file)?;
        Ok(PoolPin { page })
    }

    fn page_of(&self, pin: &PoolPin) -> PageId {
        pin.page
    }

    fn bytes(&self, pin: &PoolPin) -> &[u8] {
        self.parts.bytes(pin.page)
    }

    fn bytes_mut(&mut self, pin: &PoolPin) -> &mut [u8] {
        let at = self.parts.store.places.at(pin.page);
        self.parts.store.frames.bytes_mut(at)
    }

    fn unpin(&mut self, pin: PoolPin)
        requires { (state_of M.PageDevice T.PageDevice self.old).pinned (key pin.page) ≡ true }
        ensures after { state_of M.PageDevice T.PageDevice self.new ≡ without_pin (state_of M.PageDevice T.PageDevice self.old) (key pin.page) }
        ensures clock { clock_of self.new ≡ back (clock_of self.old) (frame_of self.old pin.page) }
        ensures stock { SameStockOf self.old self.new }
        ensures frames { SameFrames self.old self.new }
        ensures owing { OwesSame self.old self.new }
        ensures counts { counts_of_pool self.new ≡ counts_of_pool self.old }
        ensures calls_none { CalledNone self.old self.new }
    {
        let PoolPin { page } = pin;
        self.parts.unpin(page);
    }

    fn release(&mut self, page: PageId)
        requires taken { (state_of M.PageDevice T.PageDevice self.old).taken (key page) ≡ true }
        requires not_pinned { (state_of M.PageDevice T.PageDevice self.old).pinned (key page) ≡ false }
        requires no_heap { (state_of M.PageDevice T.PageDevice self.old).of_heap (key page) ≡ false }
        ensures after { state_of M.PageDevice T.PageDevice self.new ≡ without_page (state_of M.PageDevice T.PageDevice self.old) (key page) }
        ensures forgets { in_frame self.old page ≡ true → clock_of self.new ≡ forgotten (clock_of self.old) (frame_of self.old page) }
        ensures keeps_clock { in_frame self.old page ≡ false → clock_of self.new ≡ clock_of self.old }
        ensures stock { SameStockOf self.old self.new }
        ensures frames { SameFramesBut self.old self.new page }
        ensures counts { counts_of_pool self.new ≡ counts_of_pool self.old }
        ensures calls_none { CalledNone self.old self.new }
    {
        self.parts.release(page);
    }

    fn next(&self, page: PageId) -> Option<u32> {
        self.parts.store.maps.next(page)
    }

    fn set_next(&mut self, page: PageId, next: Option<u32>)
        requires taken { (state_of M.PageDevice T.PageDevice self.old).taken (key page) ≡ true }
        requires no_heap { (state_of M.PageDevice T.PageDevice self.old).of_heap (key page) ≡ false }
        ensures after { state_of M.PageDevice T.PageDevice self.new ≡ with_next (state_of M.PageDevice T.PageDevice self.old) (key page) next }
        ensures clock { clock_of self.new ≡ clock_of self.old }
        ensures stock { SameStockOf self.old self.new }
        ensures frames { SameFrames self.old self.new }
        ensures owing { OwesSame self.old self.new }
        ensures counts { counts_of_pool self.new ≡ counts_of_pool self.old }
        ensures calls_none { CalledNone self.old self.new }
    {
        self.parts.set_next(page, next);
    }

    fn main_faults(&self) -> u64 {
        self.parts.store.answers.main
    }

    fn temp_faults(&self) -> u64 {
        self.parts.store.answers.temp
    }

    fn taken(&self, file: File) -> u32 {
        self.parts.store.maps.used(file)
    }

    fn can_pin(&self, page: PageId) -> bool {
        self.parts.store.can_pin(page)
    }

    fn fulls(&self, file: File) -> u64 {
        match file {
            File::Main => self.parts.store.answers.main_full,
            File::Temp => self.parts.store.answers.temp_full,
        }
    }

    ghost writes = { writes_of
        (record { pages = M.pages; told = M.told; page = M.page; reads = M.reads; writes = M.writes; faults = M.faults })
        (record { pages = T.pages; told = T.told; page = T.page; reads = T.reads; writes = T.writes; faults = T.faults }) };
}

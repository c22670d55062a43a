//! What the calls of a pool do to its parts.

use crate::parts::Parts;
use hg_base::{File, PageFault, PageId};
use hg_io::PageDevice;

impl<M: PageDevice, T: PageDevice> Parts<M, T> {
    ghost use Rattle.std.specs.Prelude.{◌≡◌, ◌<◌, ◌-◌, ◌^◌, true, false, None, Some, OnOk, OnErr, IfOk, IfErr, IsOk, IsErrOf, length};
    ghost use Rattle.hg_base.specs.Space.{key, IsPinned, IsMade, IsSame, IsFull, without_pin, without_page, with_next};
    ghost use Rattle.hg_base.specs.Causes.{HasCause, PinFault, FreshFault, fault_of, full_fault};
    ghost use Rattle.hg_pool.specs.Picture.{frame_at, place_at, taken_at, is_pinned};
    ghost use Rattle.hg_clock.specs.Clock.{score_of};
    ghost use Rattle.hg_pool.specs.Clocking.{ComesIn, used, back, forgotten};
    ghost use Rattle.hg_pool.specs.Shown.{state_of, IsWhole, in_frame, frame_of, page_in, clock_of, current_of, SameStockOf, SameFrames, SameFramesBut, KeepsFrames, owed, OwesSame, Asked, StaysIn, IsRefused};
    ghost use Rattle.hg_pool.specs.Work.{IsLowest, IsUnused, CallsNone, evicted};
    ghost use Rattle.hg_pool.specs.Lending.{KeepsOut};

    pub(crate) fn pin(&mut self, page: PageId) -> Result<(), PageFault>
        requires whole { IsWhole M.PageDevice T.PageDevice self.old }
        requires taken { (state_of M.PageDevice T.PageDevice self.old).taken (key page) ≡ true }
        requires not_pinned { (state_of M.PageDevice T.PageDevice self.old).pinned (key page) ≡ false }
        requires no_heap { (state_of M.PageDevice T.PageDevice self.old).of_heap (key page) ≡ false }
        requires few { self.old.store.pins < 8 }
        ensures whole { IsWhole M.PageDevice T.PageDevice self.new }
        ensures ok { OnOk result (IsPinned (state_of M.PageDevice T.PageDevice self.old) (state_of M.PageDevice T.PageDevice self.new) (key page)) }
        ensures err { OnErr result (IsSame (state_of M.PageDevice T.PageDevice self.old) (state_of M.PageDevice T.PageDevice self.new)) }
        ensures cause { HasCause (state_of M.PageDevice T.PageDevice self.old)
            (state_of M.PageDevice T.PageDevice self.new) (fault_of result) }
        ensures fault { IfErr result PinFault }
        ensures in_frame { OnOk result (in_frame self.new page ≡ true) }
        ensures asked { OnOk result (in_frame self.old page ≡ false
            → Asked M.PageDevice T.PageDevice self.old self.new (owed self.old (frame_of self.new page)) (Some page.file)) }
        ensures refused { IfErr result (IsRefused M.PageDevice T.PageDevice self.old self.new page) }
        ensures used { OnOk result (in_frame self.old page ≡ true → clock_of self.new ≡ used (clock_of self.old) (frame_of self.old page)) }
        ensures comes { OnOk result (in_frame self.old page ≡ false
            → ComesIn (current_of self.old) (clock_of self.old) (clock_of self.new) (frame_of self.new page)) }
        ensures score { OnOk result (score_of (clock_of self.new) (frame_of self.new page) ≡ 7) }
        ensures stock { SameStockOf self.old self.new }
        ensures no_call { in_frame self.old page ≡ true → self.new.devices ≡ self.old.devices }
        ensures stays_ok { in_frame self.old page ≡ true → IsOk result }
        ensures keeps_frames { OnOk result (KeepsFrames self.old self.new page (frame_of self.new page)) }
        ensures same_frames { in_frame self.old page ≡ true → SameFrames self.old self.new }
        ensures owing { in_frame self.old page ≡ true → OwesSame self.old self.new }
        ensures clean { OnOk result (in_frame self.old page ≡ false → owed self.new (frame_of self.new page) ≡ None) }
        ensures keeps_out { KeepsOut M.PageDevice T.PageDevice self.old self.new }
        ensures keeps_counts { in_frame self.old page ≡ true → self.new.store.counts ≡ self.old.store.counts }
        ensures evicts { OnOk result (in_frame self.old page ≡ false → self.new.store.counts.evictions
            ≡ evicted (page_in self.old (frame_of self.new page)) self.old.store.counts.evictions) }
        ensures uncounted { self.new.store.counts ≡ self.old.store.counts → self.old.store.counts.reads < 2 ^ 64 - 1
            → self.old.store.counts.writes < 2 ^ 64 - 1 → self.new.devices ≡ self.old.devices }
    {
        let at = self.bring(page)?;
        self.store.hold(at);
        Ok(())
    }

    /// The page that is new.
    pub(crate) fn fresh(&mut self, file: File) -> Result<PageId, PageFault>
        requires whole { IsWhole M.PageDevice T.PageDevice self.old }
        requires few { self.old.store.pins < 8 }
        ensures whole { IsWhole M.PageDevice T.PageDevice self.new }
        ensures ok { IfOk result (IsMade file (state_of M.PageDevice T.PageDevice self.old) (state_of M.PageDevice T.PageDevice self.new)) }
        ensures err { OnErr result (IsSame (state_of M.PageDevice T.PageDevice self.old) (state_of M.PageDevice T.PageDevice self.new)) }
        ensures cause { HasCause (state_of M.PageDevice T.PageDevice self.old)
            (state_of M.PageDevice T.PageDevice self.new) (fault_of result) }
        ensures fault { IfErr result (FreshFault file (state_of M.PageDevice T.PageDevice self.old)) }
        ensures full { IsFull (state_of M.PageDevice T.PageDevice self.old) file → IsErrOf result (full_fault file) }
        ensures lowest { IfOk result (IsLowest (state_of M.PageDevice T.PageDevice self.old)) }
        ensures in_frame { IfOk result (λ page. in_frame self.new page ≡ true) }
        ensures asked { IfOk result (λ page. Asked M.PageDevice T.PageDevice self.old self.new (owed self.old (frame_of self.new page)) None) }
        ensures refused { IfErr result (λ fault. (IsFull (state_of M.PageDevice T.PageDevice self.old) file → ⊥)
            → StaysIn M.PageDevice T.PageDevice self.old self.new fault) }
        ensures full_work { IsFull (state_of M.PageDevice T.PageDevice self.old) file → self.new.store.counts ≡ self.old.store.counts }
        ensures full_clock { IsFull (state_of M.PageDevice T.PageDevice self.old) file → clock_of self.new ≡ clock_of self.old }
        ensures comes { IfOk result (λ page. ComesIn (current_of self.old) (clock_of self.old) (clock_of self.new) (frame_of self.new page)) }
        ensures score { IfOk result (λ page. score_of (clock_of self.new) (frame_of self.new page) ≡ 7) }
        ensures stock { SameStockOf self.old self.new }
        ensures unused { IsUnused (state_of M.PageDevice T.PageDevice self.old) → CallsNone self.old.devices.main self.new.devices.main
            self.old.devices.temp self.new.devices.temp result (full_fault file) }
        ensures full_calls_none { IsFull (state_of M.PageDevice T.PageDevice self.old) file → self.new.devices ≡ self.old.devices }
        ensures keeps_frames { IfOk result (λ page. KeepsFrames self.old self.new page (frame_of self.new page)) }
        ensures err_frames { OnErr result (SameFrames self.old self.new) }
        ensures keeps_out { KeepsOut M.PageDevice T.PageDevice self.old self.new }
        ensures err_owing { OnErr result (OwesSame self.old self.new) }
        ensures evicts { IfOk result (λ page. self.new.store.counts.evictions
            ≡ evicted (page_in self.old (frame_of self.new page)) self.old.store.counts.evictions) }
        ensures none_evicted { OnErr result (self.new.store.counts.evictions ≡ self.old.store.counts.evictions) }
        ensures uncounted { self.new.store.counts ≡ self.old.store.counts → self.old.store.counts.reads < 2 ^ 64 - 1
            → self.old.store.counts.writes < 2 ^ 64 - 1 → self.new.devices ≡ self.old.devices }
    {
        if self.store.is_full(file) {
            return Err(self.full(file));
        }
        let at = self.room()?;
        match self.store.maps.take(file) {
            None => unreachable!(),
            Some(no) => {
                let page = PageId { file, no };
                self.store.places.reach(page);
                self.store.set_new(at, page);
                Ok(page)
            }
        }
    }

    /// Counts that the file was full, and says so.
    fn full(&mut self, file: File) -> PageFault
        requires whole { IsWhole M.PageDevice T.PageDevice self.old }
        requires full { IsFull (state_of M.PageDevice T.PageDevice self.old) file }
        ensures whole { IsWhole M.PageDevice T.PageDevice self.new }
        ensures answer { result ≡ full_fault file }
        ensures same { IsSame (state_of M.PageDevice T.PageDevice self.old) (state_of M.PageDevice T.PageDevice self.new) }
        ensures cause { HasCause (state_of M.PageDevice T.PageDevice self.old) (state_of M.PageDevice T.PageDevice self.new) (Some result) }
        ensures fault { FreshFault file (state_of M.PageDevice T.PageDevice self.old) result }
        ensures counts { self.new.store.counts ≡ self.old.store.counts }
        ensures clock { clock_of self.new ≡ clock_of self.old }
        ensures stock { SameStockOf self.old self.new }
        ensures no_call { self.new.devices ≡ self.old.devices }
        ensures frames { SameFrames self.old self.new }
        ensures owing { OwesSame self.old self.new }
    {
        match file {
            File::Main => {
                self.store.answers.count(PageFault::MainFull);
                PageFault::MainFull
            }
            File::Temp => {
                self.store.answers.count(PageFault::TempFull);
                PageFault::TempFull
            }
        }
    }

    /// The bytes of a page that a pin holds.
    pub(crate) fn bytes(&self, page: PageId) -> &[u8]
        requires whole { IsWhole M.PageDevice T.PageDevice self.now }
        requires pinned { (state_of M.PageDevice T.PageDevice self.now).pinned (key page) ≡ true }
        ensures value { (state_of M.PageDevice T.PageDevice self.now).bytes (key page) ≡ Some result.now }
        ensures len { length result.now ≡ 4096 }
    {
        self.store.bytes(page)
    }

    pub(crate) fn unpin(&mut self, page: PageId)
        requires whole { IsWhole M.PageDevice T.PageDevice self.old }
        requires pinned { (state_of M.PageDevice T.PageDevice self.old).pinned (key page) ≡ true }
        ensures whole { IsWhole M.PageDevice T.PageDevice self.new }
        ensures after { state_of M.PageDevice T.PageDevice self.new ≡ without_pin (state_of M.PageDevice T.PageDevice self.old) (key page) }
        ensures clock { clock_of self.new ≡ back (clock_of self.old) (frame_of self.old page) }
        ensures stock { SameStockOf self.old self.new }
        ensures frames { SameFrames self.old self.new }
        ensures owing { OwesSame self.old self.new }
        ensures counts { self.new.store.counts ≡ self.old.store.counts }
        ensures no_call { self.new.devices ≡ self.old.devices }
    {
        let at = self.store.places.at(page);
        self.store.let_go(at);
    }

    pub(crate) fn release(&mut self, page: PageId)
        requires whole { IsWhole M.PageDevice T.PageDevice self.old }
        requires taken { (state_of M.PageDevice T.PageDevice self.old).taken (key page) ≡ true }
        requires not_pinned { (state_of M.PageDevice T.PageDevice self.old).pinned (key page) ≡ false }
        requires no_heap { (state_of M.PageDevice T.PageDevice self.old).of_heap (key page) ≡ false }
        ensures whole { IsWhole M.PageDevice T.PageDevice self.new }
        ensures after { state_of M.PageDevice T.PageDevice self.new ≡ without_page (state_of M.PageDevice T.PageDevice self.old) (key page) }
        ensures forgets { in_frame self.old page ≡ true → clock_of self.new ≡ forgotten (clock_of self.old) (frame_of self.old page) }
        ensures keeps_clock { in_frame self.old page ≡ false → clock_of self.new ≡ clock_of self.old }
        ensures stock { SameStockOf self.old self.new }
        ensures frames { SameFramesBut self.old self.new page }
        ensures counts { self.new.store.counts ≡ self.old.store.counts }
        ensures no_call { self.new.devices ≡ self.old.devices }
    {
        match self.store.find(page) {
            Some(at) => {
                self.store.forget(at);
                self.store.maps.release(page);
            }
            None => self.store.maps.release(page),
        }
    }

    pub(crate) fn set_next(&mut self, page: PageId, next: Option<u32>)
        requires whole { IsWhole M.PageDevice T.PageDevice self.old }
        requires taken { (state_of M.PageDevice T.PageDevice self.old).taken (key page) ≡ true }
        ensures whole { IsWhole M.PageDevice T.PageDevice self.new }
        ensures after { state_of M.PageDevice T.PageDevice self.new ≡ with_next (state_of M.PageDevice T.PageDevice self.old) (key page) next }
        ensures clock { clock_of self.new ≡ clock_of self.old }
        ensures stock { SameStockOf self.old self.new }
        ensures frames { SameFrames self.old self.new }
        ensures owing { OwesSame self.old self.new }
        ensures counts { self.new.store.counts ≡ self.old.store.counts }
        ensures no_call { self.new.devices ≡ self.old.devices }
    {
        self.store.maps.set_next(page, next);
    }
}

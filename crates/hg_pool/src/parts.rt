//! A pool's devices and its store, and how pages come into frames and leave them.

use crate::devices::Devices;
use crate::store::Store;
use hg_base::{PageFault, PageId};
use hg_io::PageDevice;

/// The devices of a pool, and what it keeps of them.
pub(crate) struct Parts<M, T> {
    pub(crate) devices: Devices<M, T>,
    pub(crate) store: Store,
}

impl<M: PageDevice, T: PageDevice> Parts<M, T> {
    ghost use Rattle.std.specs.Prelude.{◌≡◌, ◌≢◌, ℕ, ◌<◌, ◌-◌, ◌^◌, true, false, Ok, None, Some, OnOk, OnErr, IfOk, IfErr, IsOk, length};
    ghost use Rattle.hg_base.specs.Space.{key};
    ghost use Rattle.hg_clock.specs.Clock.{Takes};
    ghost use Rattle.hg_pool.specs.Clocking.{is_busy};
    ghost use Rattle.hg_pool.specs.Picture.{frame_at, place_at, taken_at};
    ghost use Rattle.hg_pool.specs.Keeping.{is_inside, IsFoundAt};
    ghost use Rattle.hg_pool.specs.Shown.{IsWhole, page_in, clock_of, current_of, owed, OwesSame, Asked, SameFrames, KeepsFramesAll, KeepsFrames, StaysIn, IsRefused};
    ghost use Rattle.hg_pool.specs.Passing.{PassesParts, Clears, IsClean, IsRoom, AreEmpty, HasRoom};
    ghost use Rattle.hg_pool.specs.Work.{IsFaultOf, evicted};

    /// Writes the frame's page to its device.
    fn write_back(&mut self, at: usize, page: PageId) -> Result<(), PageFault>
        requires whole { IsWhole M.PageDevice T.PageDevice self.old }
        requires there { at < length self.old.store.frames.items }
        requires page { (frame_at self.old.store.frames.items at).page ≡ Some page }
        requires dirty { (frame_at self.old.store.frames.items at).dirty ≡ true }
        requires free { is_busy (frame_at self.old.store.frames.items at) ≡ false }
        ensures passes { PassesParts M.PageDevice T.PageDevice self.old self.new result }
        ensures clears { Clears self.old.store self.new.store }
        ensures clean { OnOk result ((frame_at self.new.store.frames.items at).dirty ≡ false) }
        ensures busy { is_busy (frame_at self.new.store.frames.items at) ≡ is_busy (frame_at self.old.store.frames.items at) }
        ensures clock { self.new.store.clock ≡ self.old.store.clock }
        ensures asked { Asked M.PageDevice T.PageDevice self.old self.new (Some page.file) None }
        ensures fails { IfErr result (IsFaultOf (Some page.file)) }
        ensures evictions { self.new.store.counts.evictions ≡ self.old.store.counts.evictions }
        ensures page { page_in self.new at ≡ page_in self.old at }
        ensures frames { SameFrames self.old self.new }
        ensures others { (g : ℕ) → g ≢ at → frame_at self.new.store.frames.items g ≡ frame_at self.old.store.frames.items g }
        ensures failed { OnErr result (frame_at self.new.store.frames.items at ≡ frame_at self.old.store.frames.items at) }
        ensures err_owing { OnErr result (OwesSame self.old self.new) }
    {
        self.store.count_write();
        match self.devices.save(page, &mut self.store.frames, at) {
            Err(failed) => {
                self.store.answers.count(failed);
                Err(failed)
            }
            Ok(()) => {
                self.store.set_clean(at);
                Ok(())
            }
        }
    }

    /// Writes the frame's page to its device, if its bytes are newer.
    pub(crate) fn clean(&mut self, at: usize) -> Result<(), PageFault>
        requires whole { IsWhole M.PageDevice T.PageDevice self.old }
        requires there { at < length self.old.store.frames.items }
        requires free { is_busy (frame_at self.old.store.frames.items at) ≡ false }
        ensures passes { PassesParts M.PageDevice T.PageDevice self.old self.new result }
        ensures clears { Clears self.old.store self.new.store }
        ensures clean { OnOk result (IsClean (frame_at self.new.store.frames.items at)) }
        ensures busy { is_busy (frame_at self.new.store.frames.items at) ≡ is_busy (frame_at self.old.store.frames.items at) }
        ensures clock { self.new.store.clock ≡ self.old.store.clock }
        ensures no_call { (frame_at self.old.store.frames.items at).page ≡ None → self.new.devices ≡ self.old.devices }
        ensures no_fault { OnErr result ((frame_at self.old.store.frames.items at).page ≡ None → ⊥) }
        ensures asked { Asked M.PageDevice T.PageDevice self.old self.new (owed self.old at) None }
        ensures fails { IfErr result (IsFaultOf (owed self.old at)) }
        ensures evictions { self.new.store.counts.evictions ≡ self.old.store.counts.evictions }
        ensures page { page_in self.new at ≡ page_in self.old at }
        ensures frames { SameFrames self.old self.new }
        ensures others { (g : ℕ) → g ≢ at → frame_at self.new.store.frames.items g ≡ frame_at self.old.store.frames.items g }
        ensures failed { OnErr result (frame_at self.new.store.frames.items at ≡ frame_at self.old.store.frames.items at) }
        ensures err_owing { OnErr result (OwesSame self.old self.new) }
        ensures uncounted { self.new.store.counts.writes ≡ self.old.store.counts.writes → self.old.store.counts.writes < 2 ^ 64 - 1
            → self.new.devices ≡ self.old.devices }
    {
        match self.store.unwritten(at) {
            Some(page) => self.write_back(at, page),
            None => Ok(()),
        }
    }

    /// Makes a frame empty whose page is on its device as it is.
    fn empty(&mut self, at: usize)
        requires whole { IsWhole M.PageDevice T.PageDevice self.old }
        requires there { at < length self.old.store.frames.items }
        requires clean { IsClean (frame_at self.old.store.frames.items at) }
        requires free { is_busy (frame_at self.old.store.frames.items at) ≡ false }
        ensures passes { PassesParts M.PageDevice T.PageDevice self.old self.new (Ok (tt {0})) }
        ensures clears { Clears self.old.store self.new.store }
        ensures room { IsRoom self.new.store at }
        ensures clock { self.new.store.clock ≡ self.old.store.clock }
        ensures no_call { self.new.devices ≡ self.old.devices }
        ensures asked { Asked M.PageDevice T.PageDevice self.old self.new None None }
        ensures empty { page_in self.new at ≡ None }
        ensures keeps { KeepsFramesAll self.old self.new at }
        ensures evicts { self.new.store.counts.evictions ≡ evicted (page_in self.old at) self.old.store.counts.evictions }
    {
        if self.store.frames.mark(at).page.is_none() {
            return;
        }
        self.store.set_empty(at);
        self.store.count_eviction();
    }

    /// An empty frame, which is not out: the one that the clock gives.
    pub(crate) fn room(&mut self) -> Result<usize, PageFault>
        requires whole { IsWhole M.PageDevice T.PageDevice self.old }
        requires room { HasRoom self.old.store }
        ensures passes { PassesParts M.PageDevice T.PageDevice self.old self.new result }
        ensures clears { Clears self.old.store self.new.store }
        ensures room { IfOk result (λ f. IsRoom self.new.store f) }
        ensures takes { IfOk result (λ f. Takes (current_of self.old) (clock_of self.old) f (clock_of self.new)) }
        ensures no_call { AreEmpty self.old.store → self.new.devices ≡ self.old.devices }
        ensures no_fault { OnErr result (AreEmpty self.old.store → ⊥) }
        ensures asked { IfOk result (λ f. Asked M.PageDevice T.PageDevice self.old self.new (owed self.old f) None) }
        ensures keeps { IfOk result (λ f. KeepsFramesAll self.old self.new f) }
        ensures evicts { IfOk result (λ f. self.new.store.counts.evictions ≡ evicted (page_in self.old f) self.old.store.counts.evictions) }
        ensures refused { IfErr result (StaysIn M.PageDevice T.PageDevice self.old self.new) }
        ensures uncounted { self.new.store.counts.writes ≡ self.old.store.counts.writes → self.old.store.counts.writes < 2 ^ 64 - 1
            → self.new.devices ≡ self.old.devices }
    {
        let at = self.store.victim();
        self.clean(at)?;
        self.empty(at);
        Ok(at)
    }

    /// Reads the page into an empty frame.
    fn load(&mut self, at: usize, page: PageId) -> Result<(), PageFault>
        requires whole { IsWhole M.PageDevice T.PageDevice self.old }
        requires room { IsRoom self.old.store at }
        requires taken { taken_at self.old.store.maps (key page) ≡ true }
        requires out { is_inside self.old.store (key page) ≡ false }
        ensures passes { PassesParts M.PageDevice T.PageDevice self.old self.new result }
        ensures found { OnOk result (IsFoundAt self.new.store page at) }
        ensures pins { self.new.store.pins ≡ self.old.store.pins }
        ensures clock { self.new.store.clock ≡ self.old.store.clock }
        ensures asked { Asked M.PageDevice T.PageDevice self.old self.new None (Some page.file) }
        ensures fails { IfErr result (IsFaultOf (Some page.file)) }
        ensures evictions { self.new.store.counts.evictions ≡ self.old.store.counts.evictions }
        ensures page { OnErr result (page_in self.new at ≡ None) }
        ensures fills { OnOk result (KeepsFrames self.old self.new page at) }
        ensures clean { OnOk result (owed self.new at ≡ None) }
        ensures err_frames { OnErr result (SameFrames self.old self.new) }
        ensures err_owing { OnErr result (OwesSame self.old self.new) }
    {
        self.store.count_read();
        match self.devices.fill(page, &mut self.store.frames, at) {
            Err(fault) => {
                self.store.answers.count(fault);
                Err(fault)
            }
            Ok(()) => {
                self.store.frames.set_page(at, Some(page));
                self.store.frames.set_dirty(at, false);
                self.store.places.set(page, at);
                Ok(())
            }
        }
    }

    /// The frame of the page, which is brought into one if it is in none.
    pub(crate) fn bring(&mut self, page: PageId) -> Result<usize, PageFault>
        requires whole { IsWhole M.PageDevice T.PageDevice self.old }
        requires room { HasRoom self.old.store }
        requires taken { taken_at self.old.store.maps (key page) ≡ true }
        ensures passes { PassesParts M.PageDevice T.PageDevice self.old self.new result }
        ensures found { IfOk result (λ f. IsFoundAt self.new.store page f) }
        ensures pins { self.new.store.pins ≡ self.old.store.pins }
        ensures stays { IfOk result (λ f. is_inside self.old.store (key page) ≡ true → f ≡ place_at self.old.store.places (key page)) }
        ensures keeps_clock { is_inside self.old.store (key page) ≡ true → clock_of self.new ≡ clock_of self.old }
        ensures takes { IfOk result (λ f. is_inside self.old.store (key page) ≡ false
            → Takes (current_of self.old) (clock_of self.old) f (clock_of self.new)) }
        ensures asked { IfOk result (λ f. is_inside self.old.store (key page) ≡ false
            → Asked M.PageDevice T.PageDevice self.old self.new (owed self.old f) (Some page.file)) }
        ensures refused { IfErr result (IsRefused M.PageDevice T.PageDevice self.old self.new page) }
        ensures no_call { is_inside self.old.store (key page) ≡ true → self.new.devices ≡ self.old.devices }
        ensures stays_ok { is_inside self.old.store (key page) ≡ true → IsOk result }
        ensures keeps_frames { IfOk result (λ f. KeepsFrames self.old self.new page f) }
        ensures keeps_counts { is_inside self.old.store (key page) ≡ true → self.new.store.counts ≡ self.old.store.counts }
        ensures same_frames { is_inside self.old.store (key page) ≡ true → SameFrames self.old self.new }
        ensures owing { is_inside self.old.store (key page) ≡ true → OwesSame self.old self.new }
        ensures clean { IfOk result (λ f. is_inside self.old.store (key page) ≡ false → owed self.new f ≡ None) }
        ensures evicts { IfOk result (λ f. is_inside self.old.store (key page) ≡ false
            → self.new.store.counts.evictions ≡ evicted (page_in self.old f) self.old.store.counts.evictions) }
        ensures uncounted { self.new.store.counts ≡ self.old.store.counts → self.old.store.counts.reads < 2 ^ 64 - 1
            → self.old.store.counts.writes < 2 ^ 64 - 1 → self.new.devices ≡ self.old.devices }
    {
        if let Some(at) = self.store.find(page) {
            return Ok(at);
        }
        let at = self.room()?;
        self.load(at, page)?;
        Ok(at)
    }
}

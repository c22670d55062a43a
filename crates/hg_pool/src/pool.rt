//! The pool, how it is opened and closed, and what it tells of itself.
ghost use Rattle.std.specs.Prelude.{◌≡◌, IfOk, IfErr};
ghost use Rattle.hg_pool.specs.Opening.{IsPossible, new_space, no_counts};

use crate::devices::Devices;
use crate::opening::new_store;
use crate::parts::Parts;
use crate::{Config, PoolCounts};
use hg_base::{FrameNo, PageFault, PageId, Pages};
use hg_clock::Clock;
use hg_io::PageDevice;
use hg_raw::Chain;
use std::alloc::Global;
use std::marker::Model;

/// A pool of frames over a device for the main file and one for the temporary file. Its calls take
/// no memory. It must be spent by `close`.
pub struct Pool<M: PageDevice, T: PageDevice> {
    pub(crate) parts: Parts<M, T>,
}

impl<M: PageDevice, T: PageDevice> Model for Pool<M, T> {
    ghost use Rattle.hg_pool.specs.declared.parts.Parts.{Parts};

    ghost Value = { Parts M T };

    ghost use Rattle.hg_pool.specs.Shown.{IsWhole};

    ghost view = { λ p. p.parts };

    ghost invariant = { λ p. IsWhole M.PageDevice T.PageDevice p.parts };
}

impl<M: PageDevice, T: PageDevice> Pool<M, T> {
    ghost use Rattle.std.specs.Prelude.{◌≡◌, ◌≢◌, ℕ, ◌≤◌, ◌<◌, ◌+◌, ◌-◌, ◌^◌, true, false, None, Some, IfOk, IfErr, IfSome, IfNone, IsOk, OnOk, OnErr, MatchResult};
    ghost use Rattle.hg_base.specs.Space.{NoPins, IsSame, key, with_next};
    ghost use Rattle.hg_clock.specs.Clock.{score_of};
    ghost use Rattle.hg_pool.specs.Clocking.{ComesIn, used, back};
    ghost use Rattle.hg_pool.specs.Work.{evicted};
    ghost use Rattle.hg_pool.specs.Lending.{put_back, IsHandedOut, lent_of, IsChainOf, bytes_in, IsAsOnDevice, OneMoreOut, OneLessOut, KeepsOut};
    ghost use Rattle.hg_base.specs.Causes.{HasCause, PinFault, fault_of};
    ghost use Rattle.hg_pool.specs.Resizing.{NoneOut, with_current, Writes, KeepsBelow, StaysWhole};
    ghost use Rattle.hg_pool.specs.Disks.{disk_of};
    ghost use Rattle.hg_pool.specs.Opening.{IsPossible, new_space, no_counts, first_clock};
    ghost use Rattle.hg_pool.specs.Shown.{state_of, main_device, temp_device, current_of, counts_of_pool, clock_of, max_of, in_frame, frame_of, page_in, owed, OwesSame, Asked, IsRefused, SameFrames, KeepsFrames, NoneIn, SameStockOf, CalledNone};

    /// Reserves the frames and the page maps, and opens a pool in which no page is taken. The only error
    /// is want of memory; the devices are then handed back. No device is called.
    pub fn new(alloc: Global, config: &Config, main: M, temp: T) -> Result<Pool<M, T>, (M, T)>
        requires { IsPossible config.now (M.pages main) (T.pages temp) }
        ensures start { IfOk result (λ pool. state_of M.PageDevice T.PageDevice pool
            ≡ new_space config.now (record { main = disk_of M.PageDevice main; temp = disk_of T.PageDevice temp })) }
        ensures no_pins { IfOk result (λ pool. NoPins (state_of M.PageDevice T.PageDevice pool)) }
        ensures counts { IfOk result (λ pool. counts_of_pool pool ≡ no_counts) }
        ensures clock { IfOk result (λ pool. clock_of pool ≡ first_clock config.now.max) }
        ensures max { IfOk result (λ pool. max_of pool ≡ config.now.max) }
        ensures none_in { IfOk result (λ pool. NoneIn pool) }
        ensures none_lent { IfOk result (λ pool. lent_of pool ≡ 0) }
        ensures main { IfOk result (λ pool. main_device pool ≡ main) }
        ensures temp { IfOk result (λ pool. temp_device pool ≡ temp) }
        ensures handed_back { IfErr result (λ devices. devices ≡ record { 0 = main; 1 = temp }) }
    {
        match new_store(alloc, config) {
            Err(_) => Err((main, temp)),
            Ok(store) => Ok(Pool {
                parts: Parts {
                    devices: Devices { main, temp },
                    store,
                },
            }),
        }
    }

    /// How many frames are in use.
    pub fn current(&self) -> u32
        ensures count { result ≡ current_of self.now }
        ensures at_least { 16 ≤ result }
        ensures reserved { result ≤ max_of self.now }
        ensures most { max_of self.now ≤ 65536 }
    {
        self.parts.store.frames.count() as u32
    }

    /// How many frames are reserved.
    pub fn max(&self) -> u32
        ensures count { result ≡ max_of self.now }
        ensures most { result ≤ 65536 }
    {
        self.parts.store.frames.max()
    }

    /// The clock over all frames that are reserved.
    pub fn clock(&self) -> &Clock
        ensures { result.now ≡ clock_of self.now }
    {
        &self.parts.store.clock
    }

    /// The frame that the page is in.
    pub fn frame_of(&self, page: PageId) -> Option<FrameNo>
        ensures some { IfSome result (λ frame. (in_frame self.now page ≡ true) × (frame.0 ≡ frame_of self.now page)) }
        ensures none { IfNone result (in_frame self.now page ≡ false) }
        ensures reserved { IfSome result (λ frame. frame.0 < max_of self.now) }
        ensures most { max_of self.now ≤ 65536 }
    {
        match self.parts.store.find(page) {
            Some(at) => Some(FrameNo(at as u32)),
            None => None,
        }
    }

    /// What the pool did so far.
    pub fn counts(&self) -> PoolCounts
        ensures { result ≡ counts_of_pool self.now }
    {
        self.parts.store.counts
    }

    /// Takes frames out of use or into use, so that there are `n` of them. The pages of the frames that go
    /// are written first, where their bytes are newer than those on their devices; a frame that comes in
    /// has no page. After a fault as many frames are in use as before, and each page is where it was.
    pub fn resize(&mut self, n: u32) -> Result<(), PageFault>
        requires none_out { NoneOut (state_of M.PageDevice T.PageDevice self.old) }
        requires at_least { 16 ≤ n }
        requires reserved { n ≤ max_of self.old }
        ensures ok { OnOk result (state_of M.PageDevice T.PageDevice self.new ≡ with_current (state_of M.PageDevice T.PageDevice self.old) n) }
        ensures err { OnErr result (IsSame (state_of M.PageDevice T.PageDevice self.old) (state_of M.PageDevice T.PageDevice self.new)) }
        ensures cause { HasCause (state_of M.PageDevice T.PageDevice self.old) (state_of M.PageDevice T.PageDevice self.new) (fault_of result) }
        ensures fault { IfErr result PinFault }
        ensures size { MatchResult result (λ _. current_of self.new ≡ n) (λ _. current_of self.new ≡ current_of self.old) }
        ensures written { OnOk result (Writes M.PageDevice T.PageDevice self.old self.new n (current_of self.old)) }
        ensures keeps { OnOk result (KeepsBelow self.old self.new n) }
        ensures refused { IfErr result (StaysWhole M.PageDevice T.PageDevice self.old self.new n) }
        ensures larger_ok { current_of self.old ≤ n → IsOk result }
        ensures larger_calls_none { current_of self.old ≤ n → CalledNone self.old self.new }
        ensures clock { clock_of self.new ≡ clock_of self.old }
        ensures stock { SameStockOf self.old self.new }
        ensures none_evicted { (counts_of_pool self.new).evictions ≡ (counts_of_pool self.old).evictions }
    {
        self.parts.resize(n as usize)
    }

    /// Hands a page out with its frame, which it is brought into as `pin` does it. Until `put_page` the
    /// page is no page of the pool's own: it may not be pinned, released or taken once more.
    pub fn take_page(&mut self, page: PageId) -> Result<Chain, PageFault>
        requires taken { (state_of M.PageDevice T.PageDevice self.old).taken (key page) ≡ true }
        requires not_pinned { (state_of M.PageDevice T.PageDevice self.old).pinned (key page) ≡ false }
        requires not_out { (state_of M.PageDevice T.PageDevice self.old).of_heap (key page) ≡ false }
        requires few { lent_of self.old + 8 < current_of self.old }
        ensures ok { IfOk result (λ chain. IsHandedOut (state_of M.PageDevice T.PageDevice self.old)
            (state_of M.PageDevice T.PageDevice self.new) (key page) (bytes_in self.new page chain)) }
        ensures chain { IfOk result (λ chain. IsChainOf self.new page chain) }
        ensures as_on_device { IfOk result (λ chain. IsAsOnDevice M.PageDevice T.PageDevice self.new page (bytes_in self.new page chain)) }
        ensures err { OnErr result (IsSame (state_of M.PageDevice T.PageDevice self.old) (state_of M.PageDevice T.PageDevice self.new)) }
        ensures cause { HasCause (state_of M.PageDevice T.PageDevice self.old)
            (state_of M.PageDevice T.PageDevice self.new) (fault_of result) }
        ensures fault { IfErr result PinFault }
        ensures in_frame { OnOk result (in_frame self.new page ≡ true) }
        ensures asked { OnOk result (in_frame self.old page ≡ false
            → Asked M.PageDevice T.PageDevice self.old self.new (owed self.old (frame_of self.new page)) (Some page.file)) }
        ensures refused { IfErr result (IsRefused M.PageDevice T.PageDevice self.old self.new page) }
        ensures used { OnOk result (in_frame self.old page ≡ true → clock_of self.new ≡ used (clock_of self.old) (frame_of self.old page)) }
        ensures comes { OnOk result (in_frame self.old page ≡ false
            → ComesIn (current_of self.old) (clock_of self.old) (clock_of self.new) (frame_of self.new page)) }
        ensures score { OnOk result (score_of (clock_of self.new) (frame_of self.new page) ≡ 7) }
        ensures stock { OnOk result (OneMoreOut self.old self.new) }
        ensures err_stock { OnErr result (SameStockOf self.old self.new) }
        ensures calls_none { in_frame self.old page ≡ true → CalledNone self.old self.new }
        ensures stays_ok { in_frame self.old page ≡ true → IsOk result }
        ensures keeps_frames { OnOk result (KeepsFrames self.old self.new page (frame_of self.new page)) }
        ensures same_frames { in_frame self.old page ≡ true → SameFrames self.old self.new }
        ensures owing { in_frame self.old page ≡ true → OwesSame self.old self.new }
        ensures clean { OnOk result (in_frame self.old page ≡ false → owed self.new (frame_of self.new page) ≡ None) }
        ensures keeps_out { KeepsOut M.PageDevice T.PageDevice self.old self.new }
        ensures keeps_counts { in_frame self.old page ≡ true → counts_of_pool self.new ≡ counts_of_pool self.old }
        ensures evicts { OnOk result (in_frame self.old page ≡ false → (counts_of_pool self.new).evictions
            ≡ evicted (page_in self.old (frame_of self.new page)) (counts_of_pool self.old).evictions) }
        ensures uncounted { counts_of_pool self.new ≡ counts_of_pool self.old → (counts_of_pool self.old).reads < 2 ^ 64 - 1
            → (counts_of_pool self.old).writes < 2 ^ 64 - 1 → CalledNone self.old self.new }
    {
        self.parts.take_page(page)
    }

    /// Takes a page that was handed out back, with the bytes that its frame has by now. A page that is not
    /// said to be dirty is still dirty if it was; one that is not dirty must have the bytes that it had.
    pub fn put_page(&mut self, page: PageId, chain: Chain, dirty: bool)
        requires out { (state_of M.PageDevice T.PageDevice self.old).of_heap (key page) ≡ true }
        requires chain { IsChainOf self.old page chain }
        requires unchanged { dirty ≡ false → IsAsOnDevice M.PageDevice T.PageDevice self.old page (bytes_in self.old page chain) }
        ensures after { state_of M.PageDevice T.PageDevice self.new
            ≡ put_back (state_of M.PageDevice T.PageDevice self.old) (key page) (bytes_in self.old page chain) }
        ensures owing { dirty ≡ false → owed self.new (frame_of self.old page) ≡ owed self.old (frame_of self.old page) }
        ensures owing_dirty { dirty ≡ true → owed self.new (frame_of self.old page) ≡ Some page.file }
        ensures owing_others { (g : ℕ) → g ≢ frame_of self.old page → owed self.new g ≡ owed self.old g }
        ensures clock { clock_of self.new ≡ back (clock_of self.old) (frame_of self.old page) }
        ensures stock { OneLessOut self.old self.new }
        ensures frames { SameFrames self.old self.new }
        ensures counts { counts_of_pool self.new ≡ counts_of_pool self.old }
        ensures calls_none { CalledNone self.old self.new }
    {
        self.parts.put_page(page, chain, dirty);
    }

    /// Sets or takes away the successor of a page that is handed out, in its frame or out of it.
    pub fn link_out(&mut self, page: PageId, next: Option<u32>)
        requires taken { (state_of M.PageDevice T.PageDevice self.old).taken (key page) ≡ true }
        requires out { (state_of M.PageDevice T.PageDevice self.old).of_heap (key page) ≡ true }
        ensures after { state_of M.PageDevice T.PageDevice self.new ≡ with_next (state_of M.PageDevice T.PageDevice self.old) (key page) next }
        ensures clock { clock_of self.new ≡ clock_of self.old }
        ensures stock { SameStockOf self.old self.new }
        ensures frames { SameFrames self.old self.new }
        ensures owing { OwesSame self.old self.new }
        ensures counts { counts_of_pool self.new ≡ counts_of_pool self.old }
        ensures calls_none { CalledNone self.old self.new }
    {
        self.parts.set_next(page, next);
    }

    /// Gives the devices back as they are, and all memory. No device is called: what was not written is lost.
    pub fn close(self) -> (M, T)
        requires { NoneOut (state_of M.PageDevice T.PageDevice self) }
        ensures main { result.0 ≡ main_device self }
        ensures temp { result.1 ≡ temp_device self }
    {
        let Pool { parts } = self;
        let Parts { devices, store } = parts;
        store.close();
        let Devices { main, temp } = devices;
        (main, temp)
    }
}

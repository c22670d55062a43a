//! What a pool keeps in memory.
ghost use Rattle.std.specs.Prelude.{◌≡◌, ℕ, ◌+◌, ◌-◌, ◌<◌, ◌≤◌, ◌↔◌, true, false, None, Some, IsTrue, IfSome, IfNone, length, [], ◌∷◌};
ghost use Rattle.hg_clock.specs.Clock.{Takes, IsSound, frame_count};
ghost use Rattle.hg_base.specs.Space.{key};
ghost use Rattle.hg_pool.specs.Clocking.{is_busy, used, back, forgotten};
ghost use Rattle.hg_pool.specs.Picture.{frame_at, place_at, places_in, taken_at, is_pinned, is_lent};
ghost use Rattle.hg_pool.specs.Sound.{IsShaped};
ghost use Rattle.hg_pool.specs.Keeping.{with_place, with_frame, IsFoundAt, IsFullIn, is_inside, new_frame, lent_frame, put_frame, IsJust};
ghost use Rattle.hg_raw.specs.Frames.{bytes_of};
ghost use Rattle.hg_pool.specs.Passing.{IsClean, HasRoom};
ghost use Rattle.hg_base.specs.Count.{raised};

use crate::PoolCounts;
use crate::frames::Frames;
use crate::maps::Maps;
use crate::places::Places;
use hg_base::{File, FrameNo, PageFault, PageId};
use hg_clock::Clock;
use hg_raw::Chain;

/// How often a call was answered by a fault of each device, and by each file being full.
#[derive(Drop)]
pub(crate) struct Answers {
    pub(crate) main: u64,
    pub(crate) temp: u64,
    pub(crate) main_full: u64,
    pub(crate) temp_full: u64,
}

impl Answers {
    ghost use Rattle.std.specs.Prelude.{◌≡◌};
    ghost use Rattle.hg_pool.specs.Keeping.{counted};
    ghost use Rattle.hg_pool.specs.Passing.{LaterAnswers};

    /// Counts an answer.
    pub(crate) fn count(&mut self, fault: PageFault)
        ensures counted { self.new ≡ counted self.old fault }
        ensures later { LaterAnswers self.old self.new }
    {
        match fault {
            PageFault::MainFault => self.main = self.main.saturating_add(1),
            PageFault::TempFault => self.temp = self.temp.saturating_add(1),
            PageFault::MainFull => self.main_full = self.main_full.saturating_add(1),
            PageFault::TempFull => self.temp_full = self.temp_full.saturating_add(1),
            PageFault::Damaged { .. } => {}
        }
    }
}

/// Everything that a pool has beside its devices.
pub(crate) struct Store {
    /// The frames in use.
    pub(crate) frames: Frames,
    /// The clock over all frames.
    pub(crate) clock: Clock,
    pub(crate) places: Places,
    pub(crate) maps: Maps,
    /// How many pins are out.
    pub(crate) pins: u32,
    /// How many frames are handed out.
    pub(crate) lent: u32,
    pub(crate) answers: Answers,
    pub(crate) counts: PoolCounts,
}

impl Store {
    /// The frame that the page is in.
    pub(crate) fn find(&self, page: PageId) -> Option<usize>
        ensures found { IfSome result (λ f. IsFoundAt self.now page f) }
        ensures none { IfNone result (is_inside self.now (key page) ≡ false) }
    {
        let at = self.places.at(page);
        if at < self.frames.count() && self.frames.mark(at).page == Some(page) {
            Some(at)
        } else {
            None
        }
    }

    /// Whether a pin holds the page.
    fn is_pinned(&self, page: PageId) -> bool
        ensures { result ≡ is_pinned (frame_at self.now.frames.items) (place_at self.now.places) (key page) }
    {
        match self.find(page) {
            Some(at) => self.frames.mark(at).pinned,
            None => false,
        }
    }

    /// Whether the page is handed out.
    fn is_lent(&self, page: PageId) -> bool
        ensures { result ≡ is_lent (frame_at self.now.frames.items) (place_at self.now.places) (key page) }
    {
        match self.find(page) {
            Some(at) => self.frames.mark(at).lent,
            None => false,
        }
    }

    /// Whether the page may be pinned.
    pub(crate) fn can_pin(&self, page: PageId) -> bool
        requires { IsShaped self.now }
        ensures { IsTrue result ↔ ((taken_at self.now.maps (key page) ≡ true)
            × (is_pinned (frame_at self.now.frames.items) (place_at self.now.places) (key page) ≡ false)
            × (is_lent (frame_at self.now.frames.items) (place_at self.now.places) (key page) ≡ false)) }
    {
        self.maps.is_taken(page) && !self.is_pinned(page) && !self.is_lent(page)
    }

    /// Whether all pages of the file are taken.
    pub(crate) fn is_full(&self, file: File) -> bool
        requires { IsShaped self.now }
        ensures { IsTrue result ↔ IsFullIn self.now.maps file }
    {
        self.maps.used(file) == self.maps.limit(file)
    }

    /// The bytes of a page that a pin holds.
    pub(crate) fn bytes(&self, page: PageId) -> &[u8]
        requires there { place_at self.now.places (key page) < length self.now.frames.items }
        requires pinned { (frame_at self.now.frames.items (place_at self.now.places (key page))).pinned ≡ true }
        ensures value { result.now ≡ (frame_at self.now.frames.items (place_at self.now.places (key page))).bytes }
        ensures whole { length result.now ≡ 4096 }
    {
        self.frames.bytes(self.places.at(page))
    }

    /// The frame that the clock gives. Its hand then stands behind it.
    pub(crate) fn victim(&mut self) -> usize
        requires shaped { IsShaped self.old }
        requires room { HasRoom self.old }
        ensures takes { Takes (length self.old.frames.items) self.old.clock result self.new.clock }
        ensures sound { IsSound self.new.clock }
        ensures rest { self.new ≡ record self.old { clock = self.new.clock } }
    {
        match self.clock.victim(self.frames.count() as u32) {
            Some(frame) => frame.0 as usize,
            None => unreachable!(),
        }
    }

    /// The frame's page, if its bytes are newer than those on its device.
    pub(crate) fn unwritten(&self, at: usize) -> Option<PageId>
        requires { at < length self.now.frames.items }
        ensures page { IfSome result (λ p. (frame_at self.now.frames.items at).page ≡ Some p) }
        ensures dirty { IfSome result (λ _. (frame_at self.now.frames.items at).dirty ≡ true) }
        ensures clean { IfNone result (IsClean (frame_at self.now.frames.items at)) }
    {
        let mark = self.frames.mark(at);
        if mark.dirty { mark.page } else { None }
    }

    /// Counts a read of a device.
    pub(crate) fn count_read(&mut self)
        ensures { self.new ≡ record self.old { counts = record self.old.counts { reads = raised self.old.counts.reads 1 } } }
    {
        self.counts.reads = self.counts.reads.saturating_add(1);
    }

    /// Counts a write to a device.
    pub(crate) fn count_write(&mut self)
        ensures { self.new ≡ record self.old { counts = record self.old.counts { writes = raised self.old.counts.writes 1 } } }
    {
        self.counts.writes = self.counts.writes.saturating_add(1);
    }

    /// Counts a page that left its frame.
    pub(crate) fn count_eviction(&mut self)
        ensures { self.new ≡ record self.old { counts = record self.old.counts { evictions = raised self.old.counts.evictions 1 } } }
    {
        self.counts.evictions = self.counts.evictions.saturating_add(1);
    }

    /// Notes that the frame's bytes are those on its device.
    pub(crate) fn set_clean(&mut self, at: usize)
        requires { at < length self.old.frames.items }
        ensures { self.new ≡ with_frame self.old at (record (frame_at self.old.frames.items at) { dirty = false }) }
    {
        self.frames.set_dirty(at, false);
    }

    /// Makes the frame one of no page.
    pub(crate) fn set_empty(&mut self, at: usize)
        requires { at < length self.old.frames.items }
        ensures { self.new ≡ with_frame self.old at (record (frame_at self.old.frames.items at) { page = None }) }
    {
        self.frames.set_page(at, None);
    }

    /// Makes the frame one of no page, which the hand takes when it comes to it.
    pub(crate) fn forget(&mut self, at: usize)
        requires there { at < length self.old.frames.items }
        requires most { length self.old.frames.items ≤ 65536 }
        requires clock { at < frame_count self.old.clock }
        ensures { self.new ≡ record (with_frame self.old at (record (frame_at self.old.frames.items at) { page = None }))
            { clock = forgotten self.old.clock at } }
    {
        self.frames.set_page(at, None);
        self.clock.clear(FrameNo(at as u32));
    }

    /// Tells the clock that the frame was used and is out.
    fn use_frame(&mut self, at: usize)
        requires most { at < 65536 }
        requires clock { at < frame_count self.old.clock }
        ensures { self.new ≡ record self.old { clock = used self.old.clock at } }
    {
        let frame = FrameNo(at as u32);
        self.clock.touch(frame);
        self.clock.set_out(frame, true);
    }

    /// Makes the frame a new page, with zeros, and pins it.
    pub(crate) fn set_new(&mut self, at: usize, page: PageId)
        requires there { at < length self.old.frames.items }
        requires free { is_busy (frame_at self.old.frames.items at) ≡ false }
        requires most { length self.old.frames.items ≤ 65536 }
        requires clock { at < frame_count self.old.clock }
        requires in_range { page.no < places_in self.old.places page.file }
        requires few { self.old.pins < 8 }
        ensures { self.new ≡ record (with_frame self.old at (new_frame page))
            { places = with_place self.old.places page at; pins = self.old.pins + 1; clock = used self.old.clock at } }
    {
        self.frames.renew(at, page);
        self.places.set(page, at);
        self.pins += 1;
        self.use_frame(at);
    }

    /// Pins the frame.
    pub(crate) fn hold(&mut self, at: usize)
        requires there { at < length self.old.frames.items }
        requires free { is_busy (frame_at self.old.frames.items at) ≡ false }
        requires most { length self.old.frames.items ≤ 65536 }
        requires clock { at < frame_count self.old.clock }
        requires few { self.old.pins < 8 }
        ensures { self.new ≡ record (with_frame self.old at (record (frame_at self.old.frames.items at) { pinned = true }))
            { pins = self.old.pins + 1; clock = used self.old.clock at } }
    {
        self.frames.hold(at);
        self.pins += 1;
        self.use_frame(at);
    }

    /// Gives a pin of the frame back.
    pub(crate) fn let_go(&mut self, at: usize)
        requires there { at < length self.old.frames.items }
        requires pinned { (frame_at self.old.frames.items at).pinned ≡ true }
        requires most { length self.old.frames.items ≤ 65536 }
        requires clock { at < frame_count self.old.clock }
        ensures { self.new ≡ record (with_frame self.old at (record (frame_at self.old.frames.items at) { pinned = false }))
            { pins = self.old.pins - 1; clock = back self.old.clock at } }
    {
        self.frames.let_go(at);
        self.pins = self.pins.saturating_sub(1);
        self.clock.set_out(FrameNo(at as u32), false);
    }

    /// Hands the frame out, with its bytes.
    pub(crate) fn lend(&mut self, at: usize) -> Chain
        requires there { at < length self.old.frames.items }
        requires free { is_busy (frame_at self.old.frames.items at) ≡ false }
        requires most { length self.old.frames.items ≤ 65536 }
        requires clock { at < frame_count self.old.clock }
        requires few { self.old.lent < 65536 }
        ensures chain { result ≡ record { region = self.old.frames.region; frames = (at, (frame_at self.old.frames.items at).bytes) ∷ [] } }
        ensures after { self.new ≡ record (with_frame self.old at (lent_frame (frame_at self.old.frames.items at)))
            { lent = self.old.lent + 1; clock = used self.old.clock at } }
    {
        let chain = self.frames.lend(at);
        self.lent += 1;
        self.use_frame(at);
        chain
    }

    /// Takes a frame that was handed out home, with the bytes that it has by now.
    pub(crate) fn take_home(&mut self, at: usize, chain: Chain, dirty: bool)
        requires there { at < length self.old.frames.items }
        requires lent { (frame_at self.old.frames.items at).lent ≡ true }
        requires region { chain.region ≡ self.old.frames.region }
        requires just { IsJust chain at }
        requires most { length self.old.frames.items ≤ 65536 }
        requires clock { at < frame_count self.old.clock }
        ensures whole { length (bytes_of chain.frames at) ≡ 4096 }
        ensures after { self.new ≡ record (with_frame self.old at (put_frame (frame_at self.old.frames.items at) (bytes_of chain.frames at) dirty))
            { lent = self.old.lent - 1; clock = back self.old.clock at } }
    {
        let was = self.frames.mark(at).dirty;
        self.frames.put(at, chain);
        self.frames.set_dirty(at, dirty | was);
        self.lent = self.lent.saturating_sub(1);
        self.clock.set_out(FrameNo(at as u32), false);
    }

    /// Gives the memory back. No frame is out.
    pub(crate) fn close(self)
        requires { (f : ℕ) → is_busy (frame_at self.frames.items f) ≡ false }
    {
        let Store {
            frames,
            clock,
            places,
            maps,
            pins: _,
            lent: _,
            answers,
            counts: _,
        } = self;
        drop(clock);
        drop(places);
        drop(maps);
        drop(answers);
        frames.close();
    }
}

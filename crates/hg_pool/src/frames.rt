//! The frames of a pool, and the memory that their bytes stand in.
//!
//! ```text
//!   marks    | 0: page, dirty | 1: page, dirty, pinned | 2: - | 3: page, lent | .. |   current of them
//!   memory   |   4,096 bytes  |      4,096 bytes       | ..                        |   max frames
//!   at home      0, 2, ..
//!   out      1 -> ..           the one chain of all pinned frames, which `bytes_mut` lends from
//!   handed   3                 a chain of its own, which its taker has
//! ```
//!
//! A frame of the memory is at home, in the chain of the pinned frames, or in a chain that was handed
//! out. Its mark says in which of them, and which page stands in it.
ghost use Rattle.std.specs.Prelude.{◌≡◌, ◌≤◌, ◌-◌, ◌++◌, IfOk, length, replicate, vec_capacity};
ghost use Rattle.hg_pool.specs.Seen.{no_mark};

use hg_base::{FrameNo, NoMemory, PageId};
use hg_raw::{Chain, Region};
use std::alloc::{AllocError, Global};
use std::marker::Model;

/// What is noted of a frame in use: the page that stands in it, whether its bytes are newer than those
/// on its device, and whether a pin holds it or it was handed out.
#[derive(Clone, Copy)]
pub(crate) struct Mark {
    pub(crate) page: Option<PageId>,
    pub(crate) dirty: bool,
    pub(crate) pinned: bool,
    pub(crate) lent: bool,
}

const NO_MARK: Mark = Mark {
    page: None,
    dirty: false,
    pinned: false,
    lent: false,
};

/// The marks of so many frames of no page, with room for `max` of them.
fn empty_marks(alloc: Global, max: u32, count: u32) -> Result<Vec<Mark>, AllocError>
    requires { count ≤ max }
    ensures made { IfOk result (λ marks. marks.items ≡ replicate count no_mark) }
    ensures room { IfOk result (λ marks. max ≤ vec_capacity marks) }
{
    let mut marks = Vec::with_capacity(alloc, max as usize)?;
    for _turn in 0..count {
        marks.push_reserved(NO_MARK);
    }
    Ok(marks)
}

/// Adds marks of frames of no page, up to `count` of them.
fn widen(marks: &mut Vec<Mark>, count: usize)
    requires wider { length marks.old.items ≤ count }
    requires room { count ≤ vec_capacity marks.old }
    ensures more { marks.new.items ≡ marks.old.items ++ replicate (count - length marks.old.items) no_mark }
    ensures capacity { vec_capacity marks.new ≡ vec_capacity marks.old }
{
    for _turn in 0..count - marks.len() {
        marks.push_reserved(NO_MARK);
    }
}

/// The frames in use, and the memory of all. It is spent by `close`.
pub(crate) struct Frames {
    region: Region,
    /// The frames that pins hold.
    out: Chain,
    /// One for each frame in use, with room for one of each frame of the region.
    marks: Vec<Mark>,
}

impl Model for Frames {
    ghost use Rattle.hg_pool.specs.Seen.{FramesSeen, frames_seen, IsFrames};

    ghost Value = { FramesSeen };

    ghost view = { frames_seen };

    ghost invariant = { IsFrames };
}

impl Frames {
    ghost use Rattle.std.specs.Prelude.{◌≡◌, ◌<◌, ◌≤◌, ℕ, IfOk, length, false, true, [], ◌∷◌, Some};
    ghost use Rattle.std.specs.Borrow.{sem};
    ghost use Rattle.hg_base.specs.Lending.{LendsBytes};
    ghost use Rattle.hg_raw.specs.Frames.{bytes_of};
    ghost use Rattle.hg_pool.specs.Clocking.{is_busy};
    ghost use Rattle.hg_pool.specs.Picture.{frame_at};
    ghost use Rattle.hg_pool.specs.Keeping.{set_item, write_item, new_frame, AreEmpty, IsJust, Resizes};
    ghost use Rattle.hg_pool.specs.contracts.frames.Frames.{the_row};

    /// So many frames of no page. The only error is want of memory.
    pub(crate) fn new(alloc: Global, max: u32, count: u32) -> Result<Frames, NoMemory>
        requires some { 0 < max }
        requires inside { count ≤ max }
        ensures made { IfOk result (λ frames. AreEmpty frames.items count) }
        ensures max { IfOk result (λ frames. frames.max ≡ max) }
    {
        let Ok(marks) = empty_marks(alloc, max, count) else {
            return Err(NoMemory);
        };
        let mut region = Region::new(alloc, max)?;
        let mut out = region.take(FrameNo(0));
        let one = out.split(FrameNo(0));
        region.give_back(one);
        Ok(Frames { region, out, marks })
    }

    /// Gives the memory back. No frame is out.
    pub(crate) fn close(self)
        requires { (f : ℕ) → is_busy (frame_at self.items f) ≡ false }
    {
        let Frames {
            mut region,
            out,
            marks,
        } = self;
        drop(marks);
        region.give_back(out);
        region.free();
    }

    /// How many frames are in use.
    pub(crate) fn count(&self) -> usize
        ensures { result ≡ length self.now.items }
    {
        self.marks.len()
    }

    /// How many frames are reserved.
    pub(crate) fn max(&self) -> u32
        ensures { result ≡ self.now.max }
    {
        self.region.frames()
    }

    /// What is noted of a frame. One that is not in use has no page.
    pub(crate) fn mark(&self, at: usize) -> Mark
        ensures page { result.page ≡ (frame_at self.now.items at).page }
        ensures dirty { result.dirty ≡ (frame_at self.now.items at).dirty }
        ensures pinned { result.pinned ≡ (frame_at self.now.items at).pinned }
        ensures lent { result.lent ≡ (frame_at self.now.items at).lent }
    {
        if at < self.marks.len() {
            self.marks[at]
        } else {
            NO_MARK
        }
    }

    /// Notes which page stands in the frame.
    pub(crate) fn set_page(&mut self, at: usize, page: Option<PageId>)
        requires { at < length self.old.items }
        ensures { self.new ≡ set_item self.old at (record (frame_at self.old.items at) { page = page }) }
    {
        let mark = &mut self.marks[at];
        mark.page = page;
    }

    /// Notes whether the frame's bytes are newer than those on its page's device.
    pub(crate) fn set_dirty(&mut self, at: usize, dirty: bool)
        requires { at < length self.old.items }
        ensures { self.new ≡ set_item self.old at (record (frame_at self.old.items at) { dirty = dirty }) }
    {
        let mark = &mut self.marks[at];
        mark.dirty = dirty;
    }

    /// Puts the frame into the chain of pinned ones.
    pub(crate) fn hold(&mut self, at: usize)
        requires there { at < length self.old.items }
        requires free { is_busy (frame_at self.old.items at) ≡ false }
        ensures { self.new ≡ set_item self.old at (record (frame_at self.old.items at) { pinned = true }) }
    {
        let one = self.region.take(FrameNo(at as u32));
        self.out.join(one);
        let mark = &mut self.marks[at];
        mark.pinned = true;
    }

    /// Takes a pinned frame home.
    pub(crate) fn let_go(&mut self, at: usize)
        requires there { at < length self.old.items }
        requires pinned { (frame_at self.old.items at).pinned ≡ true }
        ensures { self.new ≡ set_item self.old at (record (frame_at self.old.items at) { pinned = false }) }
    {
        let one = self.out.split(FrameNo(at as u32));
        self.region.give_back(one);
        let mark = &mut self.marks[at];
        mark.pinned = false;
    }

    /// Hands the frame out, with its bytes.
    pub(crate) fn lend(&mut self, at: usize) -> Chain
        requires there { at < length self.old.items }
        requires free { is_busy (frame_at self.old.items at) ≡ false }
        ensures chain { result ≡ record { region = self.old.region; frames = (at, (frame_at self.old.items at).bytes) ∷ [] } }
        ensures whole { length (frame_at self.old.items at).bytes ≡ 4096 }
        ensures after { self.new ≡ set_item self.old at (record (frame_at self.old.items at) { bytes = []; lent = true }) }
    {
        let one = self.region.take(FrameNo(at as u32));
        let mark = &mut self.marks[at];
        mark.lent = true;
        one
    }

    /// Takes a frame that was handed out home, with the bytes that it has by now.
    pub(crate) fn put(&mut self, at: usize, chain: Chain)
        requires there { at < length self.old.items }
        requires lent { (frame_at self.old.items at).lent ≡ true }
        requires region { chain.region ≡ self.old.region }
        requires just { IsJust chain at }
        ensures whole { length (bytes_of chain.frames at) ≡ 4096 }
        ensures after { self.new ≡ set_item self.old at (record (frame_at self.old.items at) { bytes = bytes_of chain.frames at; lent = false }) }
    {
        self.region.give_back(chain);
        let mark = &mut self.marks[at];
        mark.lent = false;
    }

    /// The bytes of a pinned frame.
    pub(crate) fn bytes(&self, at: usize) -> &[u8]
        requires there { at < length self.now.items }
        requires pinned { (frame_at self.now.items at).pinned ≡ true }
        ensures value { result.now ≡ (frame_at self.now.items at).bytes }
        ensures whole { length result.now ≡ 4096 }
    {
        self.out.page(FrameNo(at as u32))
    }

    /// The bytes of a pinned frame, to be written: they are then newer than those on its page's device.
    pub(crate) fn bytes_mut(&mut self, at: usize) -> &mut [u8]
        requires there { at < length self.old.items }
        requires pinned { (frame_at self.old.items at).pinned ≡ true }
        ensures* lends { sem 𝓛 (LendsBytes the_row self.entry result (write_item self.old at)) }
        ensures value { result.now ≡ (frame_at self.old.items at).bytes }
        ensures whole { length result.now ≡ 4096 }
    {
        let mark = &mut self.marks[at];
        mark.dirty = true;
        self.out.page_mut(FrameNo(at as u32))
    }

    /// Pins the frame for a new page of zeros.
    pub(crate) fn renew(&mut self, at: usize, page: PageId)
        requires there { at < length self.old.items }
        requires free { is_busy (frame_at self.old.items at) ≡ false }
        ensures { self.new ≡ set_item self.old at (new_frame page) }
    {
        self.hold(at);
        self.bytes_mut(at).fill(0);
        self.set_page(at, Some(page));
    }

    /// Takes frames of no page into use, up to `count` of them.
    pub(crate) fn grow(&mut self, count: usize)
        requires wider { length self.old.items ≤ count }
        requires room { count ≤ self.old.max }
        ensures { Resizes self.old self.new count }
    {
        widen(&mut self.marks, count);
    }

    /// Takes the frames from `count` on out of use. None of them is out.
    pub(crate) fn shrink(&mut self, count: usize)
        requires smaller { count ≤ length self.old.items }
        requires free { (f : ℕ) → count ≤ f → is_busy (frame_at self.old.items f) ≡ false }
        ensures { Resizes self.old self.new count }
    {
        self.marks.truncate(count);
    }
}

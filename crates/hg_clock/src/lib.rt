//! The clock that chooses the frame whose page has to go when another page wants a frame. Each frame
//! has a score from 0 to 7; the hand goes round the frames, passes those that are out, lowers a
//! positive score by 1 and passes, and takes the first frame with score 0. It stands on the base
//! crate alone. The layer above uses the contract of `Clock::victim`.
#![tactic(auto)]

mod sweep;
#[cfg(test)]
mod tests;

ghost use Rattle.std.specs.Prelude.{◌≡◌, ◌<◌, ◌≤◌, ◌↔◌, false, replicate, slice_set, IfOk, IfSome, IfNone, IsNone, MatchOption};
ghost use Rattle.hg_clock.specs.Clock.{frame_count, AllOut, IsSound, Takes};
ghost use Rattle.hg_clock.specs.Looks.{LooksEndIn, LooksNeverEnd};

use hg_base::{FrameNo, NoMemory};
use std::alloc::Global;
use std::marker::Model;
use sweep::{first_frame, first_used_up, pass};

/// The score of a frame that was just used.
const FULL_SCORE: u8 = 7;

/// The scores of all frames, which of them are out, and the hand.
#[derive(Drop)]
pub struct Clock {
    scores: Vec<u8>,
    out: Vec<bool>,
    hand: u32,
}

impl Model for Clock {
    ghost use Rattle.hg_clock.specs.Clock.{ClockState, IsSound};

    ghost Value = { ClockState };

    ghost view = { λ c. record { scores = c.scores.items; out = c.out.items; hand = c.hand } };

    ghost invariant = { λ c. IsSound (record { scores = c.scores.items; out = c.out.items; hand = c.hand }) };
}

impl Clock {
    /// A clock of so many frames, numbered from 0. Memory is taken here alone, and the only error is
    /// want of it.
    pub fn new(alloc: Global, frames: u32) -> Result<Clock, NoMemory>
        ensures made { IfOk result (λ clock. clock ≡ record { scores = replicate frames 0; out = replicate frames false; hand = 0 }) }
        ensures sound { IfOk result IsSound }
    {
        let count = frames as usize;
        let Ok(scores) = Vec::from_elem(alloc, 0u8, count) else {
            return Err(NoMemory);
        };
        let Ok(out) = Vec::from_elem(alloc, false, count) else {
            return Err(NoMemory);
        };
        Ok(Clock {
            scores,
            out,
            hand: 0,
        })
    }

    /// The frame was used: its score is 7.
    pub fn touch(&mut self, f: FrameNo)
        requires { f.0 < frame_count self.old }
        ensures changed { self.new ≡ record self.old { scores = slice_set self.old.scores f.0 7 } }
        ensures sound { IsSound self.new }
    {
        self.scores[f.0 as usize] = FULL_SCORE;
    }

    /// The frame's page is gone: its score is 0, so that the hand takes it when it comes.
    pub fn clear(&mut self, f: FrameNo)
        requires { f.0 < frame_count self.old }
        ensures changed { self.new ≡ record self.old { scores = slice_set self.old.scores f.0 0 } }
        ensures sound { IsSound self.new }
    {
        self.scores[f.0 as usize] = 0;
    }

    /// Whether the frame is out; the hand takes no frame that is.
    pub fn set_out(&mut self, f: FrameNo, out: bool)
        requires { f.0 < frame_count self.old }
        ensures changed { self.new ≡ record self.old { out = slice_set self.old.out f.0 out } }
        ensures sound { IsSound self.new }
    {
        self.out[f.0 as usize] = out;
    }

    /// The frame whose page has to go, of those below `current` that are not out. Each is passed as
    /// often as its score says, and taken is the first whose score is used up. None where all are
    /// out.
    ///
    /// Cost: the rounds of the hand are not gone one by one. Each frame below `current` is read once
    /// at most to find the frame, and written twice at most to lower the scores; where all are out,
    /// each is read once and none written. Where some eligible frame has score 0, only the frames up
    /// to the first of these in the order of the hand are read and written.
    pub fn victim(&mut self, current: u32) -> Option<FrameNo>
        requires { current ≤ frame_count self.old }
        ensures none { IsNone result ↔ AllOut current self.old }
        ensures unchanged { IfNone result (self.new ≡ self.old) }
        ensures sound { IsSound self.new }
        ensures taken { IfSome result (λ f. Takes current self.old f.0 self.new) }

        // The same, look by look of the hand.
        ensures looks { MatchOption result (LooksNeverEnd current self.old) (λ f. LooksEndIn current self.old f.0 self.new) }
    {
        let count = current as usize;
        let first = first_frame(self.hand as usize, count);
        let victim = first_used_up(&self.scores, &self.out, first, count)?;
        pass(&mut self.scores, &self.out, first, count, victim);
        let frame = victim as u32;
        self.hand = frame + 1;
        Some(FrameNo(frame))
    }
}

//! Where the frames of a heap's pages go.
ghost use Rattle.std.specs.Prelude.{◌≡◌, ◌<◌, ◌==◌, [], true, false, None, Some, Option, IfOk, MatchOption, if◌then◌else◌, ℕ, drop};
ghost use Rattle.hg_reloc.specs.Moves.{entry, leads_to, moved_word, AreMoves};

use crate::PAGE;
use hg_base::{Addr, FrameNo, NoMemory};
use std::alloc::Global;
use std::marker::Model;

/// A page that stood in the frame `old` stands in the frame `new` now.
#[derive(Clone, Copy, PartialEq, Eq, Debug)]
pub struct Move {
    pub old: FrameNo,
    pub new: FrameNo,
}

/// Which frames the pages of a heap left and which they came to: a list of moves, reserved as a whole.
/// No frame has two entries, and no two entries lead to one frame.
#[derive(Drop)]
pub struct MoveMap {
    max: u32,
    moves: Vec<Move>,
}

impl Model for MoveMap {
    ghost use Rattle.std.specs.Prelude.{◌≤◌, vec_capacity};
    ghost use Rattle.hg_reloc.specs.Moves.{Moves, AreMoves};

    ghost Value = { Moves };

    ghost view = { λ m. record { max = m.max; entries = m.moves.items } };

    ghost invariant = { λ m. AreMoves (record { max = m.max; entries = m.moves.items }) × (m.max ≤ vec_capacity m.moves) };
}

impl MoveMap {
    /// A map without entries for frames below `max`. Memory is taken here alone, and the only error is
    /// want of it.
    pub fn new(alloc: Global, max: u32) -> Result<MoveMap, NoMemory>
        ensures { IfOk result (λ m. m ≡ record { max = max; entries = [] }) }
    {
        match Vec::with_capacity(alloc, max as usize) {
            Ok(moves) => Ok(MoveMap { max, moves }),
            Err(_) => Err(NoMemory),
        }
    }

    /// The number below which all its frames are.
    pub fn max(&self) -> u32
        ensures { result ≡ self.now.max }
    {
        self.max
    }

    /// The page that stood in the frame `old` stands in the frame `new` from now on.
    #[tactic(auto, using(crate::proofs::Entries::more))]
    pub fn set(&mut self, old: FrameNo, new: FrameNo)
        requires old_below { old.0 < self.old.max }
        requires new_below { new.0 < self.old.max }
        requires no_entry { entry self.old.entries old.0 ≡ None }
        requires none_leads { leads_to self.old.entries new.0 ≡ false }
        ensures entry { (f : ℕ) → entry self.new.entries f
            ≡ (if old.0 == f then Some new.0 else entry self.old.entries f) }
        ensures leads { (f : ℕ) → leads_to self.new.entries f
            ≡ (if new.0 == f then true else leads_to self.old.entries f) }
        ensures max { self.new.max ≡ self.old.max }
        ensures sound { AreMoves self.new }
    {
        self.moves.push_reserved(Move { old, new });
    }

    /// The frame that the entry of a frame leads to. None exactly where it has no entry.
    pub fn get(&self, old: FrameNo) -> Option<FrameNo>
        ensures { MatchOption result (entry self.now.entries old.0 ≡ None)
            (λ f. entry self.now.entries old.0 ≡ Some f.0) }
    {
        for m in self.moves.iter() {
            if m.old.0 == old.0 {
                return Some(m.new);
            }
        }
        None
    }

    /// What becomes of an address: nil stays, and every other one has the frame of the entry of its frame,
    /// or its own where there is none, and its offset.
    #[tactic(auto, using(crate::proofs::Entries::moving))]
    pub fn moved(&self, a: Addr) -> Addr
        ensures { result.word ≡ moved_word self.now a.word }
    {
        if a.is_nil() || a.word / PAGE as u64 >= self.max as u64 {
            return a;
        }
        match self.get(a.frame()) {
            Some(f) => Addr::of(f, a.offset()),
            None => a,
        }
    }

    /// Takes all entries out.
    pub fn clear(&mut self)
        ensures { self.new ≡ record self.old { entries = [] } }
    {
        self.moves.clear();
    }
}

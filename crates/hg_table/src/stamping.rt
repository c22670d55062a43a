//! Stamps.
use hg_base::{NoMemory, Stamp};
use std::alloc::Global;
use std::marker::Model;

/// How many stamps there are.
const MOST_STAMPS: usize = 1_048_576;

/// The stamps 1, 2 and so on that were drawn, and which of them were committed. Contracts see one
/// mark for each stamp that was drawn.
#[derive(Drop)]
pub struct Stamps {
    marks: Vec<bool>,
}

impl Model for Stamps {
    ghost use Rattle.std.specs.Prelude.{List, Bool, ◌≤◌, ◌^◌, length, vec_capacity};

    ghost Value = { List Bool };

    ghost view = { λ s. s.marks.items };

    ghost invariant = { λ s. (length s.marks.items ≤ 2 ^ 20) × (2 ^ 20 ≤ vec_capacity s.marks) };
}

impl Stamps {
    ghost use Rattle.std.specs.Prelude.{◌≡◌, ◌↔◌, ◌≤◌, ◌^◌, [], IfOk, IfSome, IfNone, IsNone};
    ghost use Rattle.hg_table.specs.Marks.{last, committed, IsDrawn, Draws, Commits};

    /// Stamps of which none was drawn. All the memory that they will take is taken here.
    pub fn new(alloc: Global) -> Result<Stamps, NoMemory>
        ensures { IfOk result (λ s. s ≡ []) }
    {
        match Vec::with_capacity(alloc, MOST_STAMPS) {
            Ok(marks) => Ok(Stamps { marks }),
            Err(_) => Err(NoMemory),
        }
    }

    /// The next stamp. None after 1,048,576 of them.
    pub fn draw(&mut self) -> Option<Stamp>
        ensures some { IfSome result (λ s. Draws self.old self.new s.0) }
        ensures none { IsNone result ↔ (last self.old ≡ 2 ^ 20) }
        ensures unchanged { IfNone result (self.new ≡ self.old) }
    {
        let drawn = self.marks.len();
        if drawn >= MOST_STAMPS {
            return None;
        }
        self.marks.push_reserved(false);
        Some(Stamp(drawn as u32 + 1))
    }

    /// Commits a stamp. It may be committed again.
    pub fn commit(&mut self, s: Stamp)
        requires { IsDrawn self.old s.0 }
        ensures { Commits self.old self.new s.0 }
    {
        self.marks[s.0 as usize - 1] = true;
    }

    /// Whether a stamp was committed. Any stamp may be asked for.
    pub fn is_committed(&self, s: Stamp) -> bool
        ensures { result ≡ committed self.now s.0 }
    {
        let place = s.0 as usize;
        place > 0 && place <= self.marks.len() && self.marks[place - 1]
    }

    /// The last stamp that was drawn; 0 before the first.
    pub fn last(&self) -> Stamp
        ensures value { result.0 ≡ last self.now }
        ensures few { last self.now ≤ 2 ^ 20 }
    {
        Stamp(self.marks.len() as u32)
    }
}

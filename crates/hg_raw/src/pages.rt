// The pages of the frames that are at home.
ghost use Rattle.std.specs.Prelude.{◌≡◌, ◌*◌, ◌^◌, ◌<◌, ◌++◌, ℕ, [], ◌∷◌, length, IsTrue};
ghost use Rattle.hg_raw.specs.Frames.{bytes_of, numbers, is_in, without};
ghost use Rattle.hg_raw.specs.Links.{Sized};

use crate::slots::{Blanks, PAGE, Slots};
use std::marker::Model;

/// The pages that are at home. A page that was never taken has no bytes yet: it is seen as zeros, and
/// these are written when it is cut out for the first time.
pub(crate) struct Pages {
    pub(crate) written: Slots,
    pub(crate) blanks: Blanks,
    // For each frame whether its page is blank.
    pub(crate) blank: Vec<bool>,
}

impl Model for Pages {
    ghost use Rattle.hg_raw.specs.PageParts.{PagesSeen, pages_seen, IsPages};

    ghost Value = { PagesSeen };

    ghost view = { pages_seen };

    ghost invariant = { IsPages };
}

impl Pages {
    /// Takes page `n` out.
    pub(crate) fn cut(&mut self, n: usize) -> Slots
        requires there { IsTrue (is_in n (numbers self.old.held)) }
        requires inside { n < self.old.frames }
        requires few { self.old.frames < 2 ^ 32 }
        ensures part { result ≡ record { base = self.old.base; size = 4096; held = (n, bytes_of self.old.held n) ∷ [] } }
        ensures others { self.new ≡ record { base = self.old.base; frames = self.old.frames; held = without self.old.held n } }
    {
        if self.blank[n] {
            self.blank[n] = false;
            return self.blanks.begin(n, [0; PAGE]);
        }
        self.written.cut(n)
    }

    /// Puts the pages of frames behind its own.
    pub(crate) fn append(&mut self, other: Slots)
        requires base { other.base ≡ self.old.base }
        requires size { other.size ≡ 4096 }
        requires sized { Sized 4096 other.held }
        ensures { self.new ≡ record { base = self.old.base; frames = self.old.frames; held = self.old.held ++ other.held } }
    {
        self.written.append(other);
    }
}

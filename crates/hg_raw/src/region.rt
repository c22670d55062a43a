// The frames that are at home.
ghost use Rattle.std.specs.Prelude.{◌≡◌, ℕ, ◌||◌, IfOk, IsTrue, false, [], ◌∷◌, length};
ghost use Rattle.hg_raw.specs.Frames.{Frame, Has, numbers, is_in, bytes_of, is_home, home_bytes, taken, given_back, fresh_home, AllHome};

use crate::chain::{Chain, NIL, clear_word};
use crate::pages::Pages;
use crate::shell::{Shell, WORD, open};
use crate::slots::{PAGE, Slots};
use hg_base::{FrameNo, NoMemory};
use std::alloc::Global;
use std::marker::Model;

/// One raw block with `frames` frames of 4,096 bytes, and those that are at home. It is spent by
/// `free`.
pub struct Region {
    words: Slots,
    pages: Pages,
    frames: u32,
    home: Vec<bool>,
    shell: Shell,
}

impl Model for Region {
    ghost use Rattle.hg_raw.specs.Frames.{RegionSeen};

    ghost Value = { RegionSeen };

    ghost use Rattle.hg_raw.specs.RegionParts.{region_seen, IsRegion};

    ghost view = { region_seen };

    ghost invariant = { IsRegion };
}

impl Region {
    /// Reserves a region of `frames` frames: all at home, with zero bytes. A page's are written when
    /// its frame is taken for the first time.
    pub fn new(alloc: Global, frames: u32) -> Result<Region, NoMemory>
        ensures frames { IfOk result (λ r. r.region.frames ≡ frames) }
        ensures home { IfOk result (λ r. r.home ≡ fresh_home frames) }
    {
        let count = frames as usize;
        let Ok(home) = Vec::from_elem(alloc, true, count) else {
            return Err(NoMemory);
        };
        let Ok(blank) = Vec::from_elem(alloc, true, count) else {
            return Err(NoMemory);
        };
        let Ok(mut block) = Vec::with_capacity(alloc, (WORD + PAGE) * count + 1) else {
            return Err(NoMemory);
        };
        if block.resize(WORD * count, 0).is_err() {
            return Err(NoMemory);
        }
        let base = block.as_mut_ptr();
        let (words, (written, (blanks, shell))) = open(block, base, count);
        Ok(Region {
            words,
            pages: Pages {
                written,
                blanks,
                blank,
            },
            frames,
            home,
            shell,
        })
    }

    /// Takes frame `f`, with the bytes that it has.
    pub fn take(&mut self, f: FrameNo) -> Chain
        requires { IsTrue (is_home self.old f.0) }
        ensures chain { result ≡ record { region = self.old.region; frames = (f.0, home_bytes self.old f.0) ∷ [] } }
        ensures len { length (home_bytes self.old f.0) ≡ 4096 }
        ensures out { self.new ≡ taken self.old f.0 }
        ensures has { Has result f.0 × (bytes_of result.frames f.0 ≡ home_bytes self.old f.0) }
    {
        self.home[f.0 as usize] = false;
        let mut words = self.words.cut(f.0 as usize);
        clear_word(&mut words, f.0);
        let pages = self.pages.cut(f.0 as usize);
        Chain {
            words,
            pages,
            frames: self.frames,
            first: f.0,
            last: f.0,
        }
    }

    /// Takes the frames of `c` home, with their bytes. None of them was at home: a frame has one
    /// owner.
    pub fn give_back(&mut self, c: Chain)
        requires { c.region ≡ self.old.region }
        ensures home { self.new ≡ given_back self.old c.frames }
        ensures were_out { (n : ℕ) → Has c n → is_home self.old n ≡ false }
        ensures are_home { (n : ℕ) → is_home self.new n ≡ (is_home self.old n || is_in n (numbers c.frames)) }
        ensures bytes { (n : ℕ) → Has c n → home_bytes self.new n ≡ bytes_of c.frames n }
        ensures sized { (n : ℕ) → Has c n → length (bytes_of c.frames n) ≡ 4096 }
    {
        c.mark(&mut self.home);
        let Chain {
            words,
            pages,
            frames: _,
            first: _,
            last: _,
        } = c;
        self.words.append(words);
        self.pages.append(pages);
    }

    /// Whether frame `f` is at home.
    pub fn is_home(&self, f: FrameNo) -> bool
        ensures home { result ≡ is_home self.now f.0 }
        ensures frames { length self.now.home ≡ self.now.region.frames }
    {
        f.0 < self.frames && self.home[f.0 as usize]
    }

    /// How many frames it has, at home or not.
    pub fn frames(&self) -> u32
        ensures { result ≡ self.now.region.frames }
    {
        self.frames
    }

    /// Frees the block. All frames are at home.
    pub fn free(self)
        requires { AllHome self }
    {
        let Region {
            words,
            pages,
            frames: _,
            home: _,
            shell,
        } = self;
        let Pages {
            written,
            blanks,
            blank: _,
        } = pages;
        drop(shell.close(words, written, blanks));
    }
}

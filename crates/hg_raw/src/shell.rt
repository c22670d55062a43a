// The block of a region, as a vector whose bytes are given out.
ghost use Rattle.std.specs.Prelude.{◌≡◌, ℕ, ◌*◌, ◌^◌, ◌<◌, ◌≤◌, ◌||◌, [], replicate, true};
ghost use denote.RawPtr.{◌+ₚ◌};
ghost use denote.Sharing.{nothing};
ghost use Rattle.std_alloc.specs.Vec.{vec_ptr, vec_capacity};
ghost use Rattle.hg_raw.specs.Frames.{numbers, is_in};
ghost use Rattle.hg_raw.specs.Links.{Sized, zeros, down};
ghost use Rattle.hg_raw.specs.Shells.{ShellSeen, shell_own};

use crate::slots::{Blanks, PAGE, Slots};
use std::marker::{Move, Owns};

pub(crate) const WORD: usize = 8;

// What is left of the vector meanwhile: its words, its spare room and the right to free it. Its bytes
// are not owned, so it is no `Vec` to anyone.
pub(crate) struct Shell {
    block: Vec<u8>,
}

impl Owns for Shell {
    ghost Value = { ShellSeen };

    ghost shr_at = { λ _ _. nothing };
}

impl Move for Shell {
    ghost own_val = { shell_own };
}

/// Cuts a block into the words of its frames and their pages. Nothing was written to a page, so that
/// none of them has bytes.
pub(crate) fn open(
    block: Vec<u8>,
    base: *mut u8,
    frames: usize,
) -> (Slots, (Slots, (Blanks, Shell)))
    requires base { base ≡ vec_ptr block }
    requires some { 0 < vec_capacity block }
    requires few { frames < 2 ^ 32 }
    requires words { block.items ≡ replicate (8 * frames) 0 }
    requires room { 4104 * frames ≤ vec_capacity block }
    ensures words { result.0 ≡ record { base = base; size = 8; held = zeros 8 frames } }
    ensures pages { result.1.0 ≡ record { base = base +ₚ (8 * frames); size = 4096; held = [] } }
    ensures blanks { result.1.1.0 ≡ record { base = base +ₚ (8 * frames); left = down frames } }
    ensures shell { result.1.1.1 ≡ record { base = base; frames = frames } }
{
    let pages = unsafe { base.add(WORD * frames) };
    (
        Slots { base, size: WORD },
        (
            Slots {
                base: pages,
                size: PAGE,
            },
            (Blanks { base: pages }, Shell { block }),
        ),
    )
}

impl Shell {
    /// The block again, once all its words and pages are there.
    pub(crate) fn close(self, words: Slots, pages: Slots, blanks: Blanks) -> Vec<u8>
        requires words_base { words.base ≡ self.base }
        requires words_size { words.size ≡ 8 }
        requires words_sized { Sized 8 words.held }
        requires pages_base { pages.base ≡ self.base +ₚ (8 * self.frames) }
        requires pages_size { pages.size ≡ 4096 }
        requires pages_sized { Sized 4096 pages.held }
        requires blanks_base { blanks.base ≡ self.base +ₚ (8 * self.frames) }
        requires all_words { (n : ℕ) → n < self.frames → is_in n (numbers words.held) ≡ true }
        requires all_pages { (n : ℕ) → n < self.frames → (is_in n blanks.left || is_in n (numbers pages.held)) ≡ true }
    {
        let Slots { base: _, size: _ } = words;
        let Slots { base: _, size: _ } = pages;
        let Blanks { base: _ } = blanks;
        let Shell { block } = self;
        block
    }
}

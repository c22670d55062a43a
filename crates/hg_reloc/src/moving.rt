//! Rewriting the addresses of a page.
ghost use Rattle.std.specs.Prelude.{◌≡◌, ◌+◌, ◌*◌, ◌≤◌, ◌<◌, ◌++◌, ◌^◌, length, take, drop};
ghost use Rattle.hg_reloc.specs.Blocks.{IsMade, IsMoved, BeginsObject, MovesObject, moved_words};
ghost use Rattle.hg_reloc.specs.Standing.{MovesPages};
ghost use Rattle.hg_reloc.specs.StandingLaws.{IsRewritten, IsRelocated};

use crate::object::{END, KIND, size_for, word_count};
use crate::{FIRST, FRAME, MoveMap, ROOT_COUNT, ROOTS};
use hg_base::{Addr, FrameNo, get_u16, get_u64, put_u32, put_u64};

/// Moves the words that stand from `at` on.
fn move_words(page: &mut [u8], at: usize, count: usize, map: &MoveMap)
    requires small { at + 8 * count < 2 ^ 32 }
    requires inside { at + 8 * count ≤ length page.old }
    ensures moved { page.new ≡ take at page.old ++ moved_words map.now count (drop at page.old) }
    ensures same_length { length page.new ≡ length page.old }
{
    for k in 0..count {
        let place = at + 8 * k;
        let address = Addr {
            word: get_u64(page, place),
        };
        put_u64(page, place, map.moved(address).word);
    }
}

/// Moves the addresses of the object that begins at `at`, and gives how many bytes it has.
#[tactic(auto, using(crate::proofs::Rewriting::moving_objects))]
fn move_object(page: &mut [u8], at: usize, map: &MoveMap) -> usize
    requires whole { length page.old ≡ 4096 }
    requires begins { BeginsObject page.old at }
    ensures moved { MovesObject map.now page.old page.new at result }
    ensures same_length { length page.new ≡ length page.old }
{
    let length = get_u16(page, at) as usize;
    let count = word_count(page[at + KIND], length);
    move_words(page, at + 8, count, map);
    size_for(length)
}

/// Moves each address of a page that [`verify`] takes, the four roots and those of its objects, once;
/// every other byte stays, the frame that the page names too. A page of a heap is then one under the
/// addresses that its objects have after the move.
///
/// [`verify`]: crate::verify
pub fn rewrite(page: &mut [u8], map: &MoveMap)
    requires { IsMade page.old }
    ensures moved { IsMoved map.now page.old page.new }
    ensures stands { MovesPages map.now page.old page.new }
{
    let end = get_u16(page, END) as usize;
    move_words(page, ROOTS, ROOT_COUNT, map);
    let mut at = FIRST;
    while at < end {
        at += move_object(page, at, map);
    }
}

/// Rewrites a page that stands in another frame now, and writes the number of this frame into it. Once
/// each page of a heap is so moved, under a map that leads the frame of each page to its new one, the
/// heap stands in the new frames, also where its pages land in one another's old ones.
pub fn move_page(page: &mut [u8], map: &MoveMap, frame: FrameNo)
    requires { IsMade page.old }
    ensures stands { IsRewritten map.now frame.0 page.old page.new }
    ensures addresses { IsRelocated map.now frame.0 page.old page.new }
{
    rewrite(page, map);
    put_u32(page, FRAME, frame.0);
}

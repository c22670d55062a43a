//! Where the frames of a heap lead, and the rewriting of its pages.
ghost use Rattle.std.specs.Prelude.{◌≡◌, ◌<◌, ◌==◌, not, false, true, IfOk, IfErr, OnOk};
ghost use Rattle.std.specs.List.{AllByRecursion};
ghost use Rattle.hg_raw.specs.Frames.{numbers, distinct};
ghost use Rattle.hg_reloc.specs.Blocks.{frame};
ghost use Rattle.hg_reloc.specs.Moves.{leads_to};
ghost use Rattle.hg_reloc.specs.StandingLaws.{AreRewritten, AreRelocated};
ghost use Rattle.hg_pool.specs.Shown.{state_of, max_of};
ghost use Rattle.hg_heap.specs.Resting.{pages_from};
ghost use Rattle.hg_heap.specs.Handing.{AreOut, contents};
ghost use Rattle.hg_heap.specs.Relocating.{AreMapped, FindsIn, IsDamageOf, NothingStands, ReadsPage, all_stay};

use crate::handing::{frame_of, page_behind, temp_page};
use hg_base::{Check, FrameNo, PageFault, get_u32};
use hg_io::PageDevice;
use hg_pool::Pool;
use hg_raw::Chain;
use hg_reloc::{MoveMap, move_page, verify};

/// Where the frame stands in which a page last stood.
const FRAME: usize = 4;

/// Looks whether bytes are a heap's page that no other page of the heap stood beside, and notes that the
/// frame in which it stood leads to the one in which it stands. Gives whether these differ.
pub(crate) fn read_page(
    page: &[u8],
    now_in: FrameNo,
    no: u32,
    map: &mut MoveMap,
) -> Result<bool, PageFault>
    requires below { now_in.0 < map.old.max }
    requires none_leads { leads_to map.old.entries now_in.0 ≡ false }
    ensures max { map.new.max ≡ map.old.max }
    ensures ok { OnOk result (ReadsPage map.old map.new page.now now_in.0) }
    ensures moved { IfOk result (λ moved. moved ≡ not (frame page.now == now_in.0)) }
    ensures err { IfErr result (FindsIn map.old page.now no) }
{
    let max = map.max();
    match verify(page, max) {
        Err(check) => {
            return Err(PageFault::Damaged {
                page: temp_page(no),
                check,
            });
        }
        Ok(()) => {}
    }
    let stood_in = FrameNo(get_u32(page, FRAME));
    match map.get(stood_in) {
        Some(_) => {
            return Err(PageFault::Damaged {
                page: temp_page(no),
                check: Check::Frame,
            });
        }
        None => {}
    }
    map.set(stood_in, now_in);
    Ok(stood_in.0 != now_in.0)
}

/// Makes the map of a heap's frames: the one in which each page stood leads to the one in which it stands.
/// Gives whether some page has moved.
pub(crate) fn read_moves<M: PageDevice, T: PageDevice>(
    pool: &Pool<M, T>,
    first: u32,
    count: u32,
    chain: &Chain,
    map: &mut MoveMap,
) -> Result<bool, PageFault>
    requires out { AreOut M.PageDevice T.PageDevice pool.now (pages_from (state_of M.PageDevice T.PageDevice pool.now).next first count) chain.now.frames }
    requires apart { distinct (numbers chain.now.frames) ≡ true }
    requires max { map.old.max ≡ max_of pool.now }
    ensures max { map.new.max ≡ map.old.max }
    ensures mapped { OnOk result (AreMapped map.new chain.now.frames) }
    ensures moved { IfOk result (λ moved. moved ≡ not (all_stay chain.now.frames)) }
    ensures below { OnOk result (AllByRecursion (λ f. f < max_of pool.now) (numbers chain.now.frames)) }
    ensures small { OnOk result (AllByRecursion (λ f. f < 65536) (numbers chain.now.frames)) }
    ensures err { IfErr result (IsDamageOf (pages_from (state_of M.PageDevice T.PageDevice pool.now).next first count)) }
    ensures wrong { IfErr result (λ _. NothingStands map.old.max (contents chain.now.frames)) }
{
    map.clear();
    let mut no = first;
    let mut moved = false;
    for _turn in 0..count {
        let now_in = frame_of(pool, no);
        match read_page(chain.page(now_in), now_in, no, map) {
            Ok(has_moved) => moved |= has_moved,
            Err(fault) => return Err(fault),
        }
        no = page_behind(pool, no);
    }
    Ok(moved)
}

/// Rewrites the pages of a heap under the map of its frames.
pub(crate) fn move_pages<M: PageDevice, T: PageDevice>(
    pool: &Pool<M, T>,
    first: u32,
    count: u32,
    chain: &mut Chain,
    map: &MoveMap,
)
    requires out { AreOut M.PageDevice T.PageDevice pool.now (pages_from (state_of M.PageDevice T.PageDevice pool.now).next first count) chain.old.frames }
    requires apart { distinct (numbers chain.old.frames) ≡ true }
    requires mapped { AreMapped map.now chain.old.frames }
    ensures region { chain.new.region ≡ chain.old.region }
    ensures same { numbers chain.new.frames ≡ numbers chain.old.frames }
    ensures rewritten { AreRewritten map.now (numbers chain.old.frames) (contents chain.old.frames) (contents chain.new.frames) }
    ensures relocated { AreRelocated map.now (numbers chain.old.frames) (contents chain.old.frames) (contents chain.new.frames) }
{
    let mut no = first;
    for _turn in 0..count {
        let now_in = frame_of(pool, no);
        move_page(chain.page_mut(now_in), map, now_in);
        no = page_behind(pool, no);
    }
}

//! Whether bytes are a heap's page.
ghost use Rattle.std.specs.Prelude.{◌≡◌, ℕ, ◌+◌, ◌*◌, ◌%◌, ◌<◌, ◌≤◌, ◌^◌, ◌↔◌, false, IsTrue, IsOk, List, Ok, Err, length, drop, replicate, slice_index};
ghost use Rattle.std.specs.List.{AllByRecursion};
ghost use Rattle.hg_reloc.specs.Blocks as block;
ghost use Rattle.hg_reloc.specs.Standing.{TakesPages};
ghost use Rattle.hg_reloc.specs.Checks.{Marks, HasHead, AreMarked, Walked, LookedAt, MayLead, LinksChecked, LinkedOrOdd, Verified, IsRight, TellsWrong};

use crate::object::{DIRECTORY, END, HEAD, KIND, LINK, ROW, has_length, size_for};
use crate::{FIRST, FRAME, PAGE, ROOT_COUNT, ROOTS};
use hg_base::{Check, get_u16, get_u32, get_u64};

/// The first byte of a heap's page.
const PAGE_KIND: u8 = 0x48;

/// The grid on which objects stand, and how many places it has on a page.
const GRID: usize = 16;

const PLACES: usize = PAGE / GRID;

/// Whether the page is whole, and its end is in range and on the grid.
#[tactic(auto, using(crate::proofs::Checking::reading))]
fn has_head(page: &[u8]) -> bool
    ensures { IsTrue result ↔ HasHead page.now }
{
    if page.len() != PAGE {
        return false;
    }
    let end = get_u16(page, END) as usize;
    FIRST <= end && end <= PAGE && end % GRID == 0
}

/// Looks at the head of an object that should begin at `at`, and gives where it ends.
#[tactic(auto, using(crate::proofs::Checking::reading))]
fn look_at(page: &[u8], at: usize) -> Result<usize, Check>
    requires head { HasHead page.now }
    requires before { at < block.end page.now }
    requires grid { at % 16 ≡ 0 }
    ensures { LookedAt page.now at result }
{
    let kind = page[at + KIND];
    if kind != ROW && kind != DIRECTORY {
        return Err(Check::Kind);
    }
    let payload = get_u16(page, at) as usize;
    let behind = at + size_for(payload);
    if !has_length(kind, payload) || behind > get_u16(page, END) as usize {
        return Err(Check::Size);
    }
    Ok(behind)
}

/// Walks over the objects of a page and marks where each begins.
#[tactic(auto, using(crate::proofs::Checking::walking))]
fn mark_objects(page: &[u8], begins: &mut [bool; PLACES]) -> Result<(), Check>
    requires kind { slice_index page.now 0 ≡ 72 }
    requires head { HasHead page.now }
    requires none { begins.old ≡ replicate 256 false }
    ensures { Walked page.now begins.new result }
{
    let end = get_u16(page, END) as usize;
    let mut at = FIRST;
    while at < end {
        match look_at(page, at) {
            Ok(behind) => {
                begins[at / GRID] = true;
                at = behind;
            }
            Err(check) => return Err(check),
        }
    }
    Ok(())
}

#[tactic(auto, using(crate::proofs::Linking::marking))]
/// Whether an address fits: its frame is below `max`, an object can begin at its offset, and where it is
/// of the page's own frame, one does, before `limit`. Nil fits.
fn may_lead(word: u64, own: u32, max: u32, begins: &[bool; PLACES], limit: usize) -> bool
    ensures { (places : List ℕ) → Marks begins.now places → IsTrue result ↔ MayLead own max places limit word }
{
    if word == 0 {
        return true;
    }
    let offset = (word % PAGE as u64) as usize;
    if word / PAGE as u64 >= max as u64 || offset < FIRST || offset % GRID != 0 {
        return false;
    }
    word / PAGE as u64 != own as u64 || (begins[offset / GRID] && offset < limit)
}

/// Whether each of the words from `at` on fits.
fn words_may_lead(
    page: &[u8],
    at: usize,
    count: usize,
    own: u32,
    max: u32,
    begins: &[bool; PLACES],
) -> bool
    requires small { at + 8 * count < 2 ^ 32 }
    requires inside { at + 8 * count ≤ length page.now }
    ensures { (places : List ℕ) → Marks begins.now places → IsTrue result ↔ AllByRecursion (MayLead own max places 4096) (block.words count (drop at page.now)) }
{
    for k in 0..count {
        if !may_lead(get_u64(page, at + 8 * k), own, max, begins, PAGE) {
            return false;
        }
    }
    true
}

/// Whether the addresses of the object that begins at `at` fit.
#[tactic(auto, using(crate::proofs::Linking::linking))]
fn links_fit(page: &[u8], at: usize, own: u32, max: u32, begins: &[bool; PLACES]) -> bool
    requires whole { length page.now ≡ 4096 }
    requires begins { block.BeginsObject page.now at }
    ensures { LinksChecked page.now at own max begins.now result }
{
    let link = get_u64(page, at + LINK);
    if page[at + KIND] == ROW {
        return may_lead(link, own, max, begins, at);
    }
    if link != 0 {
        return false;
    }
    let count = get_u16(page, at) as usize / 8;
    words_may_lead(page, at + HEAD, count, own, max, begins)
}

/// Whether all addresses of the page fit.
fn are_linked(page: &[u8], own: u32, max: u32, begins: &[bool; PLACES]) -> bool
    requires own { own ≡ block.frame page.now }
    requires below { own < max }
    requires marked { AreMarked page.now begins.now }
    ensures { LinkedOrOdd page.now max result }
{
    if !words_may_lead(page, ROOTS, ROOT_COUNT, own, max, begins) {
        return false;
    }
    let end = get_u16(page, END) as usize;
    let mut at = FIRST;
    while at < end {
        if !links_fit(page, at, own, max, begins) {
            return false;
        }
        at += size_for(get_u16(page, at) as usize);
    }
    true
}

/// The checks of a page, in their order.
#[tactic(auto, using(crate::proofs::Checking::reading))]
fn check_page(page: &[u8], max: u32) -> Result<(), Check>
    ensures { Verified page.now max result }
{
    if page.is_empty() || page[0] != PAGE_KIND {
        return Err(Check::Kind);
    }
    if !has_head(page) {
        return Err(Check::Size);
    }
    let mut begins = [false; PLACES];
    mark_objects(page, &mut begins)?;
    let own = get_u32(page, FRAME);
    if own >= max {
        return Err(Check::Frame);
    }
    if !are_linked(page, own, max, &begins) {
        return Err(Check::Link);
    }
    Ok(())
}

/// Whether bytes, which may be any, are a heap's page of a pool of `max` frames, in a walk over the page
/// and one over its addresses. The checks come in this order. Kind: byte 0 is another one, or an object's
/// kind. Size: there are not 4,096 bytes, the end of the objects is out of range, or an object's length
/// is; of an object's kind and length the first wrong place decides. Frame: the frame that the page names
/// is not below `max`. Link: a root, a link or a word of a directory is neither nil nor may lead to an
/// object. Of an address of another page of the heap that is its form alone, a frame below `max` and an
/// offset where an object can begin; whether one does, a reader of all the heap's pages has to see. Of an
/// address of this very page it is all: an object begins there, and before the row that leads to it.
#[tactic(auto, using(crate::proofs::Accepting::accepting))]
pub fn verify(page: &[u8], max: u32) -> Result<(), Check>
    ensures right { IsOk result ↔ IsRight page.now max }
    ensures wrong { TellsWrong page.now max result }
    ensures stands { TakesPages max page.now result }
{
    check_page(page, max)
}

//! Pages of a heap that the pool hands out, and that are put back.
ghost use Rattle.std.specs.Prelude.{◌≡◌, ◌+◌, ◌<◌, ◌≤◌, ◌∷◌, [], true, IfOk, IfErr, OnErr};
ghost use Rattle.hg_base.specs.Causes.{HasCause, PinFault, fault_of};
ghost use Rattle.hg_base.specs.Lines.{AreApart};
ghost use Rattle.hg_base.specs.Space.{IsSame};
ghost use Rattle.hg_pool.specs.Lending.{IsChainOf, KeepsOut, bytes_in, lent_of, region_of};
ghost use Rattle.hg_pool.specs.Shown.{state_of, in_frame, frame_of, current_of, max_of, SameStockOf};
ghost use Rattle.hg_heap.specs.Resting.{IsAtRest, Rests, page_behind, pages_from, temp_key, temp_page};
ghost use Rattle.hg_heap.specs.Handing.{AreOut, HandsOut, PutsBack, TakesPage, contents};

use hg_base::{File, FrameNo, PageFault, PageId, Pages};
use hg_io::PageDevice;
use hg_pool::Pool;
use hg_raw::Chain;

/// A page of the temporary file.
pub(crate) fn temp_page(no: u32) -> PageId
    ensures { result ≡ temp_page no }
{
    PageId {
        file: File::Temp,
        no,
    }
}

/// The page behind one, and the page itself where it has no successor.
pub(crate) fn page_behind<M: PageDevice, T: PageDevice>(pool: &Pool<M, T>, no: u32) -> u32
    requires { (state_of M.PageDevice T.PageDevice pool.now).taken (temp_key no) ≡ true }
    ensures { result ≡ page_behind (state_of M.PageDevice T.PageDevice pool.now).next no }
{
    let page = PageId {
        file: File::Temp,
        no,
    };
    match pool.next(page) {
        Some(next) => next,
        None => no,
    }
}

/// The frame that a page is in.
pub(crate) fn frame_of<M: PageDevice, T: PageDevice>(pool: &Pool<M, T>, no: u32) -> FrameNo
    requires { in_frame pool.now (temp_page no) ≡ true }
    ensures value { result.0 ≡ frame_of pool.now (temp_page no) }
    ensures below { result.0 < max_of pool.now }
    ensures most { max_of pool.now ≤ 65536 }
{
    let page = PageId {
        file: File::Temp,
        no,
    };
    match pool.frame_of(page) {
        Some(frame) => frame,
        None => unreachable!(),
    }
}

/// Has a page handed out.
fn take<M: PageDevice, T: PageDevice>(pool: &mut Pool<M, T>, no: u32) -> Result<Chain, PageFault>
    requires rest { IsAtRest (state_of M.PageDevice T.PageDevice pool.old) no }
    requires few { lent_of pool.old + 8 < current_of pool.old }
    ensures ok { IfOk result (TakesPage M.PageDevice T.PageDevice pool.old pool.new no) }
    ensures err { OnErr result (IsSame (state_of M.PageDevice T.PageDevice pool.old) (state_of M.PageDevice T.PageDevice pool.new)) }
    ensures cause { HasCause (state_of M.PageDevice T.PageDevice pool.old) (state_of M.PageDevice T.PageDevice pool.new) (fault_of result) }
    ensures fault { IfErr result PinFault }
    ensures keeps { KeepsOut M.PageDevice T.PageDevice pool.old pool.new }
    ensures stock { OnErr result (SameStockOf pool.old pool.new) }
{
    let page = PageId {
        file: File::Temp,
        no,
    };
    pool.take_page(page)
}

/// Puts a page back, with the bytes that its frame has by now.
fn put<M: PageDevice, T: PageDevice>(pool: &mut Pool<M, T>, no: u32, chain: Chain)
    requires out { (state_of M.PageDevice T.PageDevice pool.old).of_heap (temp_key no) ≡ true }
    requires chain { IsChainOf pool.old (temp_page no) chain }
    ensures { PutsBack M.PageDevice T.PageDevice pool.old pool.new (no ∷ []) (bytes_in pool.old (temp_page no) chain ∷ []) }
{
    let page = PageId {
        file: File::Temp,
        no,
    };
    pool.put_page(page, chain, true);
}

/// Puts so many pages back, from `first` on, with the bytes that the chain has.
pub(crate) fn put_pages<M: PageDevice, T: PageDevice>(
    pool: &mut Pool<M, T>,
    first: u32,
    count: u32,
    mut chain: Chain,
)
    requires some { 0 < count }
    requires region { chain.region ≡ region_of pool.old }
    requires apart { AreApart (pages_from (state_of M.PageDevice T.PageDevice pool.old).next first count) }
    requires out { AreOut M.PageDevice T.PageDevice pool.old (pages_from (state_of M.PageDevice T.PageDevice pool.old).next first count) chain.frames }
    ensures { PutsBack M.PageDevice T.PageDevice pool.old pool.new
        (pages_from (state_of M.PageDevice T.PageDevice pool.old).next first count) (contents chain.frames) }
{
    let mut no = first;
    for _turn in 1..count {
        let one = chain.split(frame_of(pool, no));
        put(pool, no, one);
        no = page_behind(pool, no);
    }
    put(pool, no, chain);
}

/// Has so many pages handed out, from `first` on, in one chain. Refused, all of them are put back.
pub(crate) fn take_pages<M: PageDevice, T: PageDevice>(
    pool: &mut Pool<M, T>,
    first: u32,
    count: u32,
) -> Result<Chain, PageFault>
    requires some { 0 < count }
    requires rests { Rests (state_of M.PageDevice T.PageDevice pool.old) (pages_from (state_of M.PageDevice T.PageDevice pool.old).next first count) }
    requires room { lent_of pool.old + count + 8 ≤ current_of pool.old }
    ensures ok { IfOk result (HandsOut M.PageDevice T.PageDevice pool.old pool.new
        (pages_from (state_of M.PageDevice T.PageDevice pool.old).next first count)) }
    ensures err { OnErr result (IsSame (state_of M.PageDevice T.PageDevice pool.old) (state_of M.PageDevice T.PageDevice pool.new)) }
    ensures cause { HasCause (state_of M.PageDevice T.PageDevice pool.old) (state_of M.PageDevice T.PageDevice pool.new) (fault_of result) }
    ensures fault { IfErr result PinFault }
{
    let mut chain = take(pool, first)?;
    let mut no = first;
    for taken in 1..count {
        no = page_behind(pool, no);
        match take(pool, no) {
            Ok(one) => chain.join(one),
            Err(fault) => {
                put_pages(pool, first, taken, chain);
                return Err(fault);
            }
        }
    }
    Ok(chain)
}

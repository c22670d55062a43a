//! The pages of a run, read and written in place.
ghost use Rattle.std.specs.Prelude.{◌≡◌, ℕ, ◌+◌, ◌≤◌, ◌<◌, ◌^◌, true, List, length, IsOk, IfOk, Ok, IfErr, OnErr, None, slice_index, []};
ghost use Rattle.hg_run.specs.Format.{number, IsClean, IsRunPage, IsPageAt, IsWrong, IsWrongAt};
ghost use Rattle.hg_run.specs.Steps.{PutsIn, TakesNext};

use arrayvec::ArrayVec;
use hg_base::{Check, get_u16, put_u16};

/// The first byte of a page.
const KIND: u8 = 0x52;

/// Where the offset of the first free byte stands, and the records.
const FREE: usize = 2;

pub const HEAD: usize = 16;

const PAGE: usize = 4096;

/// The bytes of a record before its own.
const LENGTH: usize = 2;

/// The most bytes that a record has.
pub const MOST: usize = 4000;

/// A record that was read: it ends before the offset `after`, and is the last one of its page or not.
#[derive(Clone, Copy)]
pub struct Found {
    pub after: u16,
    pub is_last: bool,
}

/// The number that the two bytes from `at` on spell.
#[tactic(auto, unfolding(crate::specs::Format::number))]
fn number_at(page: &[u8], at: usize) -> usize
    requires { at + 2 ≤ length page.now }
    ensures value { result ≡ number page.now at }
    ensures small { result < 2 ^ 16 }
{
    get_u16(page, at) as usize
}

/// Makes a page with no record, whatever the bytes were.
pub fn start(page: &mut [u8])
    requires { length page.old ≡ 4096 }
    ensures page { IsRunPage page.new [] }
    ensures clean { IsClean page.new }
{
    page.fill(0);
    page[0] = KIND;
    put_u16(page, FREE, HEAD as u16);
}

/// The offset of the first free byte, of a page whose bytes may be any.
fn end_of(page: &[u8]) -> Result<usize, Check>
    requires { length page.now ≡ 4096 }
    ensures end { IfOk result (λ end. (end ≡ number page.now 2) × (16 ≤ end) × (end ≤ 4096)) }
    ensures kind { IfOk result (λ _. slice_index page.now 0 ≡ 82) }
    ensures wrong { IfErr result (IsWrong page.now) }
{
    if page[0] != KIND {
        return Err(Check::Kind);
    }
    let end = number_at(page, FREE);
    if end < HEAD || end > PAGE {
        return Err(Check::Size);
    }
    Ok(end)
}

/// Puts a record behind those of a page whose bytes may be any. False where it does not fit; the page
/// then stays.
pub fn put_in(page: &mut [u8], bytes: &[u8]) -> Result<bool, Check>
    requires whole { length page.old ≡ 4096 }
    requires some { 1 ≤ length bytes.now }
    requires few { length bytes.now ≤ 4000 }
    ensures put { IfOk result (PutsIn page.old page.new bytes.now) }
    ensures wrong { IfErr result (IsWrong page.old) }
    ensures err { OnErr result (page.new ≡ page.old) }
{
    let end = end_of(page)?;
    let after = end + LENGTH + bytes.len();
    if after > PAGE {
        return Ok(false);
    }
    put_u16(page, end, bytes.len() as u16);
    page[end + LENGTH..after].copy_from_slice(bytes);
    put_u16(page, FREE, after as u16);
    Ok(true)
}

/// Where the record that begins at `at` ends, of a page whose bytes may be any.
fn record_end(page: &[u8], at: usize, end: usize) -> Result<usize, Check>
    requires whole { length page.now ≡ 4096 }
    requires ends { end ≤ 4096 }
    requires free { end ≡ number page.now 2 }
    requires kind { slice_index page.now 0 ≡ 82 }
    requires more { at < end }
    ensures after { IfOk result (λ after. after ≡ at + 2 + number page.now at) }
    ensures inside { IfOk result (λ after. after ≤ end) }
    ensures some { IfOk result (λ after. 1 ≤ number page.now at) }
    ensures few { IfOk result (λ after. number page.now at ≤ 4000) }
    ensures wrong { IfErr result (IsWrongAt page.now at) }
{
    if at + LENGTH > end {
        return Err(Check::Size);
    }
    let size = number_at(page, at);
    let after = at + LENGTH + size;
    if size == 0 || size > MOST || after > end {
        return Err(Check::Size);
    }
    Ok(after)
}

/// Reads the record that begins at `at` of a page whose bytes may be any. None where the records end
/// there; `out` then stays.
pub fn take_at(page: &[u8], at: usize, out: &mut ArrayVec<u8, 4000>) -> Result<Option<Found>, Check>
    requires { length page.now ≡ 4096 }
    ensures next { IfOk result (λ found. (done todo : List (List ℕ)) → IsPageAt page.now at done todo
        → TakesNext done todo found out.new.items) }
    ensures none { result ≡ Ok None → out.new ≡ out.old }
    ensures wrong { IfErr result (IsWrongAt page.now at) }
    ensures err { OnErr result (out.new ≡ out.old) }
{
    let end = end_of(page)?;
    if at == end {
        return Ok(None);
    }
    if at > end {
        return Err(Check::Size);
    }
    let after = record_end(page, at, end)?;
    out.clear();
    match out.try_extend_from_slice(&page[at + LENGTH..after]) {
        Ok(()) => {}
        Err(_) => unreachable!(),
    }
    Ok(Some(Found {
        after: after as u16,
        is_last: after == end,
    }))
}

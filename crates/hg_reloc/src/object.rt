//! Objects of a page, read where they stand.
ghost use Rattle.std.specs.Prelude.{◌≡◌, ℕ, ◌+◌, ◌*◌, ◌/◌, ◌<◌, ◌≤◌, ◌^◌, ◌==◌, ◌↔◌, IsTrue, if◌then◌else◌, MatchOption, length, drop, slice_index};
ghost use Rattle.hg_reloc.specs.Blocks as block;
ghost use Rattle.hg_reloc.specs.Found.{IsThere, Finds, IsNext, FindsAmong, GoesOn, FindsObject, LeadsOn};

use crate::{FIRST, PAGE};
use hg_base::{Addr, get_u16, get_u64};

/// Where the end of the objects stands in a page, and the kind, the link and the payload in an object.
pub const END: usize = 2;

pub const KIND: usize = 2;

pub const LINK: usize = 8;

pub const HEAD: usize = 16;

/// The kinds of objects.
pub const ROW: u8 = 1;

pub const DIRECTORY: u8 = 2;

/// The most bytes of a row's payload.
const MAX_PAYLOAD: usize = 3920;

/// An object of a page: its kind, 1 a row and 2 a directory; where its payload begins and how many bytes
/// it has; and its link.
#[derive(Clone, Copy, PartialEq, Eq, Debug)]
pub struct Object {
    pub kind: u8,
    pub payload_at: u16,
    pub len: u16,
    pub link: Addr,
}

/// The bytes that an object takes whose payload has so many.
pub fn size_for(payload: usize) -> usize
    requires { payload < 2 ^ 16 }
    ensures { result ≡ block.size_for payload }
{
    HEAD + 16 * ((payload + 15) / 16)
}

/// How many addresses an object of this kind and payload has: its link, and a directory's words.
pub fn word_count(kind: u8, payload: usize) -> usize
    ensures value { result ≡ (if kind == 2 then 1 + payload / 8 else 1) }
    ensures few { result ≤ 1 + payload / 8 }
{
    if kind == DIRECTORY {
        1 + payload / 8
    } else {
        1
    }
}

/// Whether an object of this kind may have a payload of so many bytes.
pub fn has_length(kind: u8, payload: usize) -> bool
    ensures { IsTrue result ↔ block.HasLength kind payload }
{
    match kind {
        ROW => 0 < payload && payload <= MAX_PAYLOAD,
        DIRECTORY => payload % 8 == 0,
        _ => false,
    }
}

/// Where the object that begins at `offset` ends, if its bytes have the form of one.
#[tactic(auto, using(crate::proofs::Finding::finding))]
fn end_of(page: &[u8], offset: u16) -> Option<usize>
    ensures { MatchOption result (¬ (IsThere page.now offset))
        (λ behind. IsThere page.now offset × (behind ≡ offset + block.size_for (block.number (drop offset page.now))) × (behind ≤ 4096)) }
{
    let at = offset as usize;
    if page.len() != PAGE || at < FIRST || at % 16 != 0 {
        return None;
    }
    let end = get_u16(page, END) as usize;
    if end > PAGE || at + HEAD > end {
        return None;
    }
    let payload = get_u16(page, at) as usize;
    let behind = at + size_for(payload);
    if behind > end || !has_length(page[at + KIND], payload) {
        return None;
    }
    Some(behind)
}

/// The object that begins at `offset`, if one does.
#[tactic(auto, using(crate::proofs::Finding::telling))]
fn find_object(page: &[u8], offset: u16) -> Option<Object>
    ensures found { MatchOption result (¬ (IsThere page.now offset)) (Finds page.now offset) }
    ensures among { FindsAmong page.now offset result }
{
    match end_of(page, offset) {
        Some(_) => {
            let at = offset as usize;
            Some(Object {
                kind: page[at + KIND],
                payload_at: offset + HEAD as u16,
                len: get_u16(page, at),
                link: Addr {
                    word: get_u64(page, at + LINK),
                },
            })
        }
        None => None,
    }
}

/// Where the object behind the one at `offset` begins, if there are both.
#[tactic(auto, using(crate::proofs::Finding::telling))]
fn find_next(page: &[u8], offset: u16) -> Option<u16>
    ensures found { MatchOption result ((next : ℕ) → ¬ (IsNext page.now offset next)) (IsNext page.now offset) }
    ensures among { GoesOn page.now offset result }
{
    match end_of(page, offset) {
        Some(behind) => {
            let next = behind as u16;
            match end_of(page, next) {
                Some(_) => Some(next),
                None => None,
            }
        }
        None => None,
    }
}

/// The object that begins at `offset` of a page whose bytes may be any, in constant time: bytes on the
/// grid, behind the roots and before the page's end, that have the form of an object. None exactly where
/// none is there. The first object of a page begins at 64.
pub fn object_at(page: &[u8], offset: u16) -> Option<Object>
    ensures found { MatchOption result (¬ (IsThere page.now offset)) (Finds page.now offset) }
    ensures among { FindsAmong page.now offset result }
    ensures heap { FindsObject page.now offset result }
{
    find_object(page, offset)
}

/// The place of the object behind the one that begins at `offset`, in constant time. None exactly where
/// none is there, or none at `offset`.
pub fn next_object(page: &[u8], offset: u16) -> Option<u16>
    ensures found { MatchOption result ((next : ℕ) → ¬ (IsNext page.now offset next)) (IsNext page.now offset) }
    ensures among { GoesOn page.now offset result }
    ensures heap { LeadsOn page.now offset result }
{
    find_next(page, offset)
}

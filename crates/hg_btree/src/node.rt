//! The pages of an ordered tree, read and written in place.
ghost use Rattle.std.specs.Prelude.{◌≡◌, ℕ, ◌+◌, ◌-◌, ◌*◌, ◌≤◌, ◌<◌, ◌^◌, Bool, true, false, List, length, take, drop, Some, None, IsOk, IfOk, Ok, IfErr, OnErr, slice_index, ◌⊎◌};
ghost use Rattle.std.specs.Ordering.{is_gt};
ghost use Rattle.hg_btree.specs.Entries.{Entry, order};
ghost use Rattle.hg_btree.specs.Keys.{word_of};
ghost use Rattle.hg_btree.specs.Nodes.{number, page_number, place_at, width, IsNode, Reads, Passed, IsSpot, IsWay, IsFirst, kind_of, crowded_page};

use crate::keys::{compare_rest, first_word, first_word_in};
use arrayvec::ArrayVec;
use hg_base::{Check, get_u16, get_u32, get_u64};
use std::cmp::Ordering;

/// Where the number of entries, the offset of the first free byte, and the entries stand.
pub const COUNT: usize = 2;

pub const FREE: usize = 4;

pub const HEAD: usize = 16;

pub const PAGE: usize = 4096;

/// The first byte of a leaf, and of an inner page.
pub const LEAF: u8 = 0x4c;

pub const INNER: u8 = 0x4e;

/// The bytes of an entry before its key: the key's length and the place.
pub const BEFORE_KEY: usize = 10;

/// The bytes of the longest entry: one of an inner page with a key of 512 bytes.
pub const LONGEST: usize = 526;

/// Where an entry stands on a page, or would stand: it begins at the byte `at`. `after` is where it ends
/// if it is there, and else `at` again.
#[derive(Clone, Copy)]
pub struct Spot {
    pub at: usize,
    pub after: usize,
    pub there: bool,
}

/// The number that the two bytes from `at` on spell.
#[tactic(auto, unfolding(crate::specs::Nodes::number))]
pub fn number_at(page: &[u8], at: usize) -> usize
    requires { at + 2 ≤ length page.now }
    ensures value { result ≡ number page.now at }
    ensures small { result < 2 ^ 16 }
{
    get_u16(page, at) as usize
}

/// The number of a page that the four bytes from `at` on spell.
#[tactic(auto, unfolding(crate::specs::Nodes::page_number))]
pub fn page_number_at(page: &[u8], at: usize) -> u32
    requires { at + 4 ≤ length page.now }
    ensures { result ≡ page_number page.now at }
{
    get_u32(page, at)
}

/// The place that the eight bytes from `at` on spell.
#[tactic(auto, unfolding(crate::specs::Nodes::place_at))]
pub fn place_of(page: &[u8], at: usize) -> u64
    requires { at + 8 ≤ length page.now }
    ensures { result ≡ place_at page.now at }
{
    get_u64(page, at)
}

/// Whether fewer bytes are free on a page than the longest entry takes.
pub fn is_crowded(page: &[u8]) -> bool
    requires { length page.now ≡ 4096 }
    ensures { result ≡ crowded_page page.now }
{
    number_at(page, FREE) + LONGEST > PAGE
}

/// How many bytes a child takes in an entry.
pub fn tail(inner: bool) -> usize
    ensures { result ≡ width inner }
{
    if inner { 4 } else { 0 }
}

/// Compares two entries.
pub fn compare(key: &[u8], place: u64, other: &[u8], at: u64) -> Ordering
    ensures { result ≡ order key.now place other.now at }
{
    match key.cmp(other) {
        Ordering::Less => Ordering::Less,
        Ordering::Equal => place.cmp(&at),
        Ordering::Greater => Ordering::Greater,
    }
}

/// The offset of the first free byte, of a page whose bytes may be any.
pub fn end_of(page: &[u8]) -> Result<usize, Check>
    requires { length page.now ≡ 4096 }
    ensures sound { (inner : Bool) (level link : ℕ) (es : List Entry) → IsNode inner page.now level link es → IsOk result }
    ensures end { IfOk result (λ end. (end ≡ number page.now 4) × (16 ≤ end) × (end ≤ 4096)) }
    ensures wrong { IfErr result (λ c. c ≡ Check.Size) }
{
    let end = number_at(page, FREE);
    if end < HEAD || end > PAGE {
        return Err(Check::Size);
    }
    Ok(end)
}

/// Where the entry that begins at `at` ends, of a page whose bytes may be any.
pub fn entry_end(page: &[u8], inner: bool, at: usize, end: usize) -> Result<usize, Check>
    requires whole { length page.now ≡ 4096 }
    requires begins { at < end }
    requires ends { end ≤ 4096 }
    ensures sound { (e : Entry) → Reads inner page.now at e → end ≡ number page.now 4 → IsOk result }
    ensures after { IfOk result (λ after. after ≡ at + 10 + number page.now at + width inner) }
    ensures inside { IfOk result (λ after. after ≤ end) }
    ensures short { IfOk result (λ after. number page.now at ≤ 512) }
    ensures wrong { IfErr result (λ c. c ≡ Check.Size) }
{
    if at + BEFORE_KEY > end {
        return Err(Check::Size);
    }
    let size = number_at(page, at);
    let after = at + BEFORE_KEY + size + tail(inner);
    if size > 512 || after > end {
        return Err(Check::Size);
    }
    Ok(after)
}

/// How the entry that begins at `at` and whose key ends at `key_end` compares. `first` is the first word
/// of the other key: mostly that decides.
fn compare_at(
    page: &[u8],
    at: usize,
    key_end: usize,
    first: u64,
    key: &[u8],
    place: u64,
) -> Ordering
    requires from { at + 10 ≤ key_end }
    requires to { key_end ≤ length page.now }
    requires first { first ≡ word_of key.now }
    ensures { result ≡ order (take (key_end - (at + 10)) (drop (at + 10) page.now)) (place_at page.now (at + 2)) key.now place }
{
    let own = first_word_in(page, at + BEFORE_KEY, key_end);
    if own < first {
        return Ordering::Less;
    }
    if own > first {
        return Ordering::Greater;
    }
    match compare_rest(&page[at + BEFORE_KEY..key_end], key) {
        Ordering::Less => Ordering::Less,
        Ordering::Equal => place_of(page, at + 2).cmp(&place),
        Ordering::Greater => Ordering::Greater,
    }
}

/// Where an entry stands on a page whose bytes may be any.
pub fn find(page: &[u8], inner: bool, key: &[u8], place: u64) -> Result<Spot, Check>
    requires { length page.now ≡ 4096 }
    ensures sound { (level link : ℕ) (es : List Entry) → IsNode inner page.now level link es → IsOk result }
    ensures spot { IfOk result (λ s. (level link : ℕ) (es : List Entry) → IsNode inner page.now level link es
        → IsSpot inner es (record { key = key.now; place = place; child = 0 }) s.at s.after s.there) }
    ensures inside { IfOk result (λ s. (16 ≤ s.at) × (s.at ≤ s.after) × (s.after ≤ number page.now 4) × (number page.now 4 ≤ 4096)) }
    ensures wrong { IfErr result (λ c. c ≡ Check.Size) }
{
    let end = end_of(page)?;
    let first = first_word(key);
    let mut at = HEAD;
    while at + BEFORE_KEY <= end {
        let key_end = at + BEFORE_KEY + number_at(page, at);
        let after = key_end + tail(inner);
        if after > end {
            return Err(Check::Size);
        }
        match compare_at(page, at, key_end, first, key, place) {
            Ordering::Less => at = after,
            Ordering::Equal => {
                return Ok(Spot {
                    at,
                    after,
                    there: true,
                });
            }
            Ordering::Greater => {
                return Ok(Spot {
                    at,
                    after: at,
                    there: false,
                });
            }
        }
    }
    if at < end {
        return Err(Check::Size);
    }
    Ok(Spot {
        at,
        after: at,
        there: false,
    })
}

/// Where the way to an entry leads on from an inner page: to the page `child`, whose own entry ends
/// before `at`.
#[derive(Clone, Copy)]
pub struct Onward {
    pub at: usize,
    pub child: u32,
}

/// Whether the entry that begins at `at` and whose key ends at `key_end` is behind another.
fn is_behind(page: &[u8], at: usize, key_end: usize, first: u64, key: &[u8], place: u64) -> bool
    requires from { at + 10 ≤ key_end }
    requires to { key_end ≤ length page.now }
    requires first { first ≡ word_of key.now }
    ensures { result ≡ is_gt (order (take (key_end - (at + 10)) (drop (at + 10) page.now)) (place_at page.now (at + 2)) key.now place) }
{
    match compare_at(page, at, key_end, first, key, place) {
        Ordering::Less => false,
        Ordering::Equal => false,
        Ordering::Greater => true,
    }
}

/// Where the way to an entry leads on from an inner page whose bytes may be any.
pub fn way(page: &[u8], key: &[u8], place: u64) -> Result<Onward, Check>
    requires { length page.now ≡ 4096 }
    ensures sound { (level link : ℕ) (es : List Entry) → IsNode true page.now level link es → IsOk result }
    ensures leads { IfOk result (λ w. (level link : ℕ) (es : List Entry) → IsNode true page.now level link es
        → IsWay link es (record { key = key.now; place = place; child = 0 }) w.at w.child) }
    ensures inside { IfOk result (λ w. (16 ≤ w.at) × (w.at ≤ number page.now 4) × (number page.now 4 ≤ 4096)) }
    ensures wrong { IfErr result (λ c. c ≡ Check.Size) }
{
    let end = end_of(page)?;
    let first = first_word(key);
    let mut at = HEAD;
    while at + BEFORE_KEY <= end {
        let key_end = at + BEFORE_KEY + number_at(page, at);
        let after = key_end + 4;
        if after > end {
            return Err(Check::Size);
        }
        if is_behind(page, at, key_end, first, key, place) {
            return Ok(Onward {
                at,
                child: page_number_at(page, at - 4),
            });
        }
        at = after;
    }
    if at < end {
        return Err(Check::Size);
    }
    Ok(Onward {
        at,
        child: page_number_at(page, at - 4),
    })
}

/// The level of a page whose bytes may be any: 0 of a leaf.
pub fn level_of(page: &[u8]) -> Result<u8, Check>
    requires { length page.now ≡ 4096 }
    ensures leaf { (level link : ℕ) (es : List Entry) → IsNode false page.now level link es → level ≡ 0 → IsOk result }
    ensures inner { (level link : ℕ) (es : List Entry) → IsNode true page.now level link es → 0 < level → IsOk result }
    ensures level { IfOk result (λ level. level ≡ slice_index page.now 1) }
    ensures kind { IfOk result (λ level. (level ≡ 0 → slice_index page.now 0 ≡ 76) × (0 < level → slice_index page.now 0 ≡ 78)) }
    ensures wrong { IfErr result (λ c. (c ≡ Check.Kind) ⊎ (c ≡ Check.Level)) }
{
    let level = page[1];
    if page[0] != LEAF && page[0] != INNER {
        return Err(Check::Kind);
    }
    if (page[0] == LEAF) != (level == 0) {
        return Err(Check::Level);
    }
    Ok(level)
}

/// The first entry of a leaf that is not before the one given: its place; its key is put into `out`.
/// None where there is none; `out` then stays. The bytes of the page may be any.
pub fn first_from(
    page: &[u8],
    key: &[u8],
    place: u64,
    out: &mut ArrayVec<u8, 512>,
) -> Result<Option<u64>, Check>
    requires { length page.now ≡ 4096 }
    ensures sound { (level link : ℕ) (es : List Entry) → IsNode false page.now level link es → IsOk result }
    ensures first { IfOk result (λ found. (level link : ℕ) (es : List Entry) → IsNode false page.now level link es
        → IsFirst es (record { key = key.now; place = place; child = 0 }) found out.new.items) }
    ensures none { result ≡ Ok None → out.new ≡ out.old }
    ensures err { OnErr result (out.new ≡ out.old) }
    ensures wrong { IfErr result (λ c. c ≡ Check.Size) }
{
    let spot = find(page, false, key, place)?;
    let end = number_at(page, FREE);
    if spot.at >= end {
        return Ok(None);
    }
    let after = entry_end(page, false, spot.at, end)?;
    out.clear();
    match out.try_extend_from_slice(&page[spot.at + BEFORE_KEY..after]) {
        Ok(()) => {}
        Err(_) => unreachable!(),
    }
    Ok(Some(place_of(page, spot.at + 2)))
}

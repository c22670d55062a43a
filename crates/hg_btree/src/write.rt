//! Changes of the pages of an ordered tree, in place.
ghost use Rattle.std.specs.Prelude.{◌≡◌, ℕ, ◌+◌, ◌-◌, ◌≤◌, ◌<◌, ◌^◌, Bool, true, false, List, [], ◌∷◌, ◌++◌, length, take, drop, replicate, slice_index};
ghost use borrow.Rule.Slice.PartMut.{put_mid};
ghost use Rattle.hg_btree.specs.Entries.{Entry};
ghost use Rattle.hg_btree.specs.Nodes.{number, width, child_bytes, kind_of, link_at, spelled, spelling, IsNode};
ghost use Rattle.hg_btree.specs.Writing.{SetsHead};

use crate::node::{BEFORE_KEY, COUNT, FREE, INNER, LEAF, number_at, tail};
use hg_base::{put_u16, put_u32, put_u64};

/// Sets the number of entries and the offset of the first free byte.
#[tactic(auto, using(crate::proofs::Writing::sets_head))]
pub fn set_head(page: &mut [u8], count: u16, free: u16)
    requires { length page.old ≡ 4096 }
    ensures { SetsHead page.old page.new count free }
{
    put_u16(page, COUNT, count);
    put_u16(page, FREE, free);
}

/// Writes the child of an entry, if the page is an inner one.
#[tactic(auto, using(crate::proofs::Writing::put_none))]
fn write_child(bytes: &mut [u8], at: usize, inner: bool, child: u32)
    requires { at + width inner ≤ length bytes.old }
    ensures { bytes.new ≡ put_mid at (width inner) bytes.old (child_bytes inner child) }
{
    if inner {
        put_u32(bytes, at, child);
    }
}

/// Writes an entry over as many bytes as it has.
pub fn write_entry(bytes: &mut [u8], inner: bool, key: &[u8], place: u64, child: u32)
    requires exact { length bytes.old ≡ 10 + length key.now + width inner }
    requires short { length key.now ≤ 512 }
    ensures { bytes.new ≡ spelled inner (record { key = key.now; place = place; child = child }) }
{
    put_u16(bytes, 0, key.len() as u16);
    put_u64(bytes, 2, place);
    let key_end = BEFORE_KEY + key.len();
    bytes[BEFORE_KEY..key_end].copy_from_slice(key);
    write_child(bytes, key_end, inner, child);
}

/// Makes all bytes zero.
pub fn clear(bytes: &mut [u8])
    ensures { bytes.new ≡ replicate (length bytes.old) 0 }
{
    bytes.fill(0);
}

/// Puts an entry into a page before the one that begins at `at`, or behind all.
pub fn insert(page: &mut [u8], at: usize, inner: bool, key: &[u8], place: u64, child: u32)
    requires whole { length page.old ≡ 4096 }
    requires short { length key.now ≤ 512 }
    requires from { 16 ≤ at }
    requires to { at ≤ number page.old 4 }
    requires room { number page.old 4 + 10 + length key.now + width inner ≤ 4096 }
    ensures { (level link : ℕ) (done todo : List Entry) → IsNode inner page.old level link (done ++ todo)
        → at ≡ 16 + length (spelling inner done) → place < 2 ^ 64 → child < 2 ^ 32
        → IsNode inner page.new level link (done ++ record { key = key.now; place = place; child = child } ∷ todo) }
{
    let end = number_at(page, FREE);
    let count = number_at(page, COUNT);
    let size = BEFORE_KEY + key.len() + tail(inner);
    page.copy_within(at..end, at + size);
    write_entry(&mut page[at..at + size], inner, key, place, child);
    set_head(page, (count as u16).saturating_add(1), (end + size) as u16);
}

/// Takes away the entry that begins at `at` and ends before `after`.
pub fn remove(page: &mut [u8], at: usize, after: usize)
    requires whole { length page.old ≡ 4096 }
    requires from { 16 ≤ at }
    requires order { at ≤ after }
    requires to { after ≤ number page.old 4 }
    requires inside { number page.old 4 ≤ 4096 }
    ensures { (inner : Bool) (level link : ℕ) (done : List Entry) (x : Entry) (todo : List Entry)
        → IsNode inner page.old level link (done ++ x ∷ todo)
        → at ≡ 16 + length (spelling inner done) → after ≡ at + length (spelled inner x)
        → IsNode inner page.new level link (done ++ todo) }
{
    let end = number_at(page, FREE);
    let count = number_at(page, COUNT);
    page.copy_within(after..end, at);
    let free = end - (after - at);
    clear(&mut page[free..end]);
    set_head(page, (count as u16).saturating_sub(1), free as u16);
}

/// The first byte of a page of this kind.
fn kind_byte(inner: bool) -> u8
    ensures { result ≡ kind_of inner }
{
    if inner { INNER } else { LEAF }
}

/// Where a page of this kind has its link.
pub fn link_place(inner: bool) -> usize
    ensures { result ≡ link_at inner }
{
    if inner { 12 } else { 8 }
}

/// Makes a page with no entries, whatever the bytes were.
pub fn start(page: &mut [u8], inner: bool, level: u8, link: u32)
    requires { length page.old ≡ 4096 }
    ensures { IsNode inner page.new level link [] }
{
    clear(page);
    page[0] = kind_byte(inner);
    page[1] = level;
    put_u32(page, link_place(inner), link);
    set_head(page, 0, 16);
}

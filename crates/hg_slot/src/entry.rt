//! The numbers of a page: those of its head, and the entries of its slots.
ghost use Rattle.std.specs.Prelude.{◌≡◌, ℕ, ◌+◌, ◌*◌, ◌≤◌, ◌<◌, ◌^◌, length, slice_index};
ghost use Rattle.hg_slot.specs.Slotted.{number, offset, size};
ghost use Rattle.hg_slot.specs.Writing.{WritesNumber, WritesSlot, WritesBytes, WritesZeros};

use hg_base::{get_u16, put_u16};

/// Where the number of slots, the place below which no record begins, and the slots stand.
pub const COUNT: usize = 2;

pub const LOWEST: usize = 4;

pub const HEAD: usize = 16;

/// The first byte of a slotted page, the bytes of a page, and how many slots it may have.
pub const KIND: u8 = 0x53;

pub const PAGE: usize = 4096;

pub const MAX_SLOTS: usize = 128;

/// The number that the two bytes from `at` on spell.
#[tactic(auto, unfolding(crate::specs::Slotted::number))]
pub fn number_at(page: &[u8], at: usize) -> usize
    requires { at + 2 ≤ length page.now }
    ensures value { result ≡ number page.now at }
    ensures small { result < 2 ^ 16 }
{
    get_u16(page, at) as usize
}

/// Writes a number into the two bytes from `at` on.
#[tactic(auto, using(crate::proofs::Numbers::writes_number))]
pub fn set_number(page: &mut [u8], at: usize, value: u16)
    requires { at + 2 ≤ length page.old }
    ensures { WritesNumber page.old page.new at value }
{
    put_u16(page, at, value);
}

/// What a slot says of its record: where it begins, and how many bytes it has.
#[derive(Clone, Copy)]
pub struct Entry {
    pub offset: usize,
    pub size: usize,
}

/// The entry of a slot.
pub fn entry_at(page: &[u8], slot: usize) -> Entry
    requires { 20 + 4 * slot ≤ length page.now }
    ensures offset { result.offset ≡ offset page.now slot }
    ensures size { result.size ≡ size page.now slot }
    ensures small { (result.offset < 2 ^ 16) × (result.size < 2 ^ 16) }
{
    let at = HEAD + 4 * slot;
    Entry {
        offset: number_at(page, at),
        size: number_at(page, at + 2),
    }
}

/// Where a record lies on its page: it begins at the byte `offset`, counted from 0, and has `size`
/// bytes, all of them in the page.
#[derive(Clone, Copy, Debug, PartialEq, Eq)]
pub struct Bounds {
    pub offset: u16,
    pub size: u16,
}

/// Writes the entry of a slot.
#[tactic(auto, using(crate::proofs::Numbers::writes_slot))]
pub fn set_entry(page: &mut [u8], slot: usize, offset: u16, size: u16)
    requires { 20 + 4 * slot ≤ length page.old }
    ensures { WritesSlot page.old page.new slot offset size }
{
    set_number(page, HEAD + 4 * slot, offset);
    set_number(page, HEAD + 4 * slot + 2, size);
}

/// Writes bytes from `at` on.
#[tactic(auto, using(crate::proofs::Numbers::writes_bytes))]
pub fn set_bytes(page: &mut [u8], at: usize, bytes: &[u8])
    requires { at + length bytes.now ≤ length page.old }
    ensures { WritesBytes page.old page.new at bytes.now }
{
    page[at..at + bytes.len()].copy_from_slice(bytes);
}

/// Makes all bytes zero.
pub fn clear(bytes: &mut [u8])
    ensures { (k : ℕ) → slice_index bytes.new k ≡ 0 }
{
    for byte in bytes.iter_mut() {
        *byte = 0;
    }
}

/// Makes the bytes of a part zero.
#[tactic(auto, using(crate::proofs::Numbers::writes_zeros))]
pub fn set_zeros(page: &mut [u8], at: usize, size: usize)
    requires { at + size ≤ length page.old }
    ensures { WritesZeros page.old page.new at size }
{
    clear(&mut page[at..at + size]);
}

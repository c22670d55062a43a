//! Room on a page: the page is closed up where its free bytes lie between its records.
ghost use Rattle.std.specs.Prelude.{◌≡◌, ℕ, ◌+◌, ◌*◌, ◌≤◌, ◌<◌, ◌↔◌, max, length, IsTrue};
ghost use Rattle.hg_slot.specs.Slotted.{slots, lowest, lengths, used, Fits, IsSlotted};
ghost use Rattle.hg_slot.specs.Changing.{Rebuilds, ClosesUp, MakesRoom, IsFirstEmpty, slots_end};

use crate::change::{add_slot, place, start};
use crate::entry::{COUNT, HEAD, LOWEST, MAX_SLOTS, PAGE, number_at};
use crate::find::{find, total_length};

/// Adds a slot to a page that is built, with what the slot of this number shows on the other page.
#[tactic(auto, using(crate::proofs::Closing::rebuilding, crate::proofs::Copying::copying))]
fn copy_slot(from: &[u8], built: &mut [u8], slot: usize)
    requires slotted { IsSlotted from.now }
    requires is_slot { slot < slots from.now }
    requires so_far { Rebuilds from.now built.old slot }
    requires room { used from.now ≤ 4096 }
    ensures { Rebuilds from.now built.new (slot + 1) }
{
    match find(from, slot) {
        Some(entry) => {
            let record = &from[entry.offset..entry.offset + entry.size];
            place(built, slot, record, &[]);
        }
        None => add_slot(built),
    }
}

/// Moves the records together at the end of the page, so that all free bytes stand before them.
/// Bytes that have no meaning become 0. The page is built anew in a local of 4,096 bytes.
#[tactic(auto, using(crate::proofs::Closing::rebuilding))]
fn close_up(page: &mut [u8])
    requires slotted { IsSlotted page.old }
    requires room { used page.old ≤ 4096 }
    ensures { ClosesUp page.old page.new }
{
    let mut built = [0; PAGE];
    start(&mut built);
    let count = number_at(page, COUNT);
    for slot in 0..count {
        copy_slot(page, &mut built, slot);
    }
    page.copy_from_slice(&built);
}

/// Sees to it that the first `need` bytes of the page are before the records.
#[tactic(auto, using(crate::proofs::Closing::making_room))]
pub fn make_room(page: &mut [u8], need: usize)
    requires slotted { IsSlotted page.old }
    requires head { 16 + 4 * slots page.old ≤ need }
    requires room { need + lengths page.old (slots page.old) ≤ 4096 }
    ensures { MakesRoom page.old page.new need }
{
    if need > number_at(page, LOWEST) {
        close_up(page);
    }
}

/// How many bytes the head and the slots take once there is a slot of this number.
pub fn head_with(page: &[u8], slot: usize) -> usize
    requires slotted { IsSlotted page.now }
    requires small { slot ≤ 128 }
    ensures { result ≡ slots_end page.now slot }
{
    HEAD + 4 * number_at(page, COUNT).max(slot + 1)
}

/// Whether a record of so many bytes fits; the slot is the first that is empty.
#[tactic(auto, using(crate::proofs::Closing::fitting))]
pub fn fits(page: &[u8], slot: usize, bytes: usize) -> bool
    requires slotted { IsSlotted page.now }
    requires first { IsFirstEmpty page.now slot }
    ensures { IsTrue result ↔ Fits page.now bytes }
{
    let head = head_with(page, slot);
    head <= HEAD + 4 * MAX_SLOTS && bytes <= PAGE && head + total_length(page) + bytes <= PAGE
}

//! What the slots of a page show.
ghost use Rattle.std.specs.Prelude.{◌≡◌, ℕ, ◌+◌, ◌*◌, ◌≤◌, ◌<◌, None, MatchOption, length};
ghost use Rattle.hg_slot.specs.Slotted.{slots, record_at, lengths, IsSlotted, IsRecord, IsPlace, IsLowestRecord};
ghost use Rattle.hg_slot.specs.Changing.{IsFirstEmpty};

use crate::entry::{COUNT, Entry, PAGE, entry_at, number_at};

/// The entry of the record that the page shows at a slot.
#[tactic(auto, using(crate::proofs::Finding::found))]
pub fn find(page: &[u8], slot: usize) -> Option<Entry>
    requires { IsSlotted page.now }
    ensures { MatchOption result (record_at page.now slot ≡ None)
        (λ e. IsRecord page.now slot e.offset e.size) }
{
    if slot >= number_at(page, COUNT) {
        return None;
    }
    let entry = entry_at(page, slot);
    if entry.offset == 0 {
        return None;
    }
    Some(entry)
}

/// The page again, and where the record of a slot begins and ends there; it begins at 0 where there is
/// none.
#[tactic(auto, using(crate::proofs::Finding::placed))]
pub fn located(page: &mut [u8], slot: u16) -> (&mut [u8], usize, usize)
    requires { IsSlotted page.old }
    ensures same { result.0.ghost_name ≡ page.entry.ghost_name }
    ensures kept { result.0.now ≡ page.old }
    ensures place { IsPlace page.old slot result.1 result.2 }
{
    let entry = find(page, slot as usize);
    match entry {
        Some(entry) => (page, entry.offset, entry.offset + entry.size),
        None => (page, 0, 0),
    }
}

/// The first slot that is empty, or the number of slots where none is.
#[tactic(auto, using(crate::proofs::Finding::found))]
pub fn first_empty(page: &[u8]) -> usize
    requires { IsSlotted page.now }
    ensures { IsFirstEmpty page.now result }
{
    let count = number_at(page, COUNT);
    for slot in 0..count {
        let entry = entry_at(page, slot);
        if entry.offset == 0 {
            return slot;
        }
    }
    count
}

/// How many bytes the records have together.
#[tactic(auto, using(crate::proofs::Finding::found))]
pub fn total_length(page: &[u8]) -> usize
    requires { IsSlotted page.now }
    ensures total { result ≡ lengths page.now (slots page.now) }
    ensures small { result ≤ 128 * 65536 }
{
    let mut total = 0;
    let count = number_at(page, COUNT);
    for slot in 0..count {
        let entry = entry_at(page, slot);
        total += entry.size;
    }
    total
}

/// The lowest byte of the records, or the end of the page where there is none.
#[tactic(auto, using(crate::proofs::Lowest::lowering))]
pub fn lowest_record(page: &[u8]) -> usize
    requires { IsSlotted page.now }
    ensures lowest { IsLowestRecord page.now (slots page.now) result }
    ensures inside { result ≤ 4096 }
{
    let mut lowest = PAGE;
    let count = number_at(page, COUNT);
    for slot in 0..count {
        let entry = entry_at(page, slot);
        if entry.offset != 0 {
            lowest = lowest.min(entry.offset);
        }
    }
    lowest
}

//! Reading a page that may be damaged.
ghost use Rattle.std.specs.Prelude.{◌≡◌, ◌+◌, ◌*◌, ◌≤◌, ◌<◌, ◌↔◌, IsTrue, length};
ghost use Rattle.std.specs.Bool.{OnTrue};
ghost use Rattle.hg_slot.specs.Slotted.{slots, IsPlaced, AreRight, HasRightHead};
ghost use Rattle.hg_slot.specs.Writing.{MarksBytes};

use crate::entry::{COUNT, HEAD, LOWEST, MAX_SLOTS, PAGE, entry_at, number_at};

/// Whether the number of slots, and the place below which no record begins, are in their ranges.
pub fn has_right_head(page: &[u8]) -> bool
    requires { length page.now ≡ 4096 }
    ensures { IsTrue result ↔ HasRightHead page.now }
{
    let count = number_at(page, COUNT);
    let lowest = number_at(page, LOWEST);
    count <= MAX_SLOTS && HEAD + 4 * count <= lowest && lowest <= PAGE
}

/// Whether a slot is empty or its record lies among the records.
fn is_placed(page: &[u8], slot: usize) -> bool
    requires whole { length page.now ≡ 4096 }
    requires is_slot { slot < 128 }
    ensures { IsTrue result ↔ IsPlaced page.now slot }
{
    let entry = entry_at(page, slot);
    let is_empty = entry.offset == 0 && entry.size == 0;
    let lowest = number_at(page, LOWEST);
    is_empty || (lowest <= entry.offset && entry.offset + entry.size <= PAGE)
}

/// Whether all records lie among the records and stand in the order of their slots from the end of the
/// page down, so that no two share a byte.
fn are_falling(page: &[u8]) -> bool
    requires whole { length page.now ≡ 4096 }
    requires few { slots page.now ≤ 128 }
    ensures { OnTrue result (AreRight page.now (slots page.now)) }
{
    let count = number_at(page, COUNT);
    let mut below = PAGE;
    for slot in 0..count {
        let entry = entry_at(page, slot);
        if !is_placed(page, slot) || entry.offset + entry.size > below {
            return false;
        }
        if entry.size > 0 {
            below = entry.offset;
        }
    }
    true
}

/// Marks bytes, one mark for each. False where one of them was marked before.
fn mark(marks: &mut [bool], from: usize, size: usize) -> bool
    requires inside { from + size ≤ length marks.old }
    ensures { MarksBytes marks.old marks.new from size result }
{
    for at in from..from + size {
        if marks[at] {
            return false;
        }
        marks[at] = true;
    }
    true
}

/// Whether all slots are right, by one mark for each byte of the page.
fn are_apart(page: &[u8]) -> bool
    requires whole { length page.now ≡ 4096 }
    requires few { slots page.now ≤ 128 }
    ensures { IsTrue result ↔ AreRight page.now (slots page.now) }
{
    let mut marks = [false; PAGE];
    let count = number_at(page, COUNT);
    for slot in 0..count {
        if !is_placed(page, slot) {
            return false;
        }
        let entry = entry_at(page, slot);
        if !mark(&mut marks, entry.offset, entry.size) {
            return false;
        }
    }
    true
}

/// Whether all slots are right.
pub fn are_right(page: &[u8]) -> bool
    requires whole { length page.now ≡ 4096 }
    requires few { slots page.now ≤ 128 }
    ensures { IsTrue result ↔ AreRight page.now (slots page.now) }
{
    are_falling(page) || are_apart(page)
}

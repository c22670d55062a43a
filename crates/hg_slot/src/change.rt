//! The steps of a change of a slotted page. Each leaves a slotted page.
ghost use Rattle.std.specs.Prelude.{◌≡◌, ◌≢◌, ℕ, ◌+◌, ◌++◌, ◌*◌, ◌≤◌, ◌<◌, None, length};
ghost use Rattle.hg_slot.specs.Slotted.{slots, lowest, record_at, HasExactLowest, IsSlotted, IsUsable};
ghost use Rattle.hg_slot.specs.Changing.{Starts, Lands, Empties, Erases, AddsSlot, slots_end};

use crate::entry::{
    COUNT, KIND, LOWEST, clear, number_at, set_bytes, set_entry, set_number, set_zeros,
};
use crate::find::{find, lowest_record};

/// Makes an empty page of any bytes.
pub fn start(page: &mut [u8])
    requires { length page.old ≡ 4096 }
    ensures { Starts page.new }
{
    clear(page);
    page[0] = KIND;
    set_number(page, COUNT, 0);
    set_number(page, LOWEST, 4096);
}

/// Puts a record, which is given in two parts, right below the place that the head names, for a slot
/// of this number, which is added where it is the one behind all. The slots may say anything.
pub fn place(page: &mut [u8], slot: usize, front: &[u8], rest: &[u8])
    requires usable { IsUsable page.old }
    requires near { slot ≤ slots page.old }
    requires few { slot < 128 }
    requires room { slots_end page.old slot + (length front.now + length rest.now) ≤ lowest page.old }
    ensures { Lands page.old page.new slot (front.now ++ rest.now) }
{
    let size = front.len() + rest.len();
    let at = number_at(page, LOWEST) - size;
    let count = number_at(page, COUNT).max(slot + 1);
    set_bytes(page, at, front);
    set_bytes(page, at + front.len(), rest);
    set_entry(page, slot, at as u16, size as u16);
    set_number(page, COUNT, count as u16);
    set_number(page, LOWEST, at as u16);
}

/// Empties a slot that shows a record, and makes the record's bytes zero.
fn erase(page: &mut [u8], slot: usize)
    requires slotted { IsSlotted page.old }
    requires full { record_at page.old slot ≢ None }
    ensures { Erases page.old page.new slot }
{
    if let Some(entry) = find(page, slot) {
        set_zeros(page, entry.offset, entry.size);
        set_entry(page, slot, 0, 0);
    }
}

/// Takes a record away: its slot is empty then, and the head names the lowest byte of the others.
pub fn empty(page: &mut [u8], slot: usize)
    requires slotted { IsSlotted page.old }
    requires full { record_at page.old slot ≢ None }
    ensures { Empties page.old page.new slot }
{
    erase(page, slot);
    let lowest = lowest_record(page);
    set_number(page, LOWEST, lowest as u16);
}

/// Adds an empty slot behind the others.
pub fn add_slot(page: &mut [u8])
    requires slotted { IsSlotted page.old }
    requires few { slots page.old < 128 }
    requires room { 20 + 4 * slots page.old ≤ lowest page.old }
    ensures { AddsSlot page.old page.new }
{
    let count = number_at(page, COUNT);
    set_entry(page, count, 0, 0);
    set_number(page, COUNT, count as u16 + 1);
}

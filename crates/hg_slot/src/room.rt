//! Where a record goes: into a new slot right before the records where there is a gap for both, and else
//! where an empty slot or the closed up page has the room.
ghost use Rattle.std.specs.Prelude.{◌≡◌, ℕ, ◌+◌, ◌++◌, ◌≤◌, ◌↔◌, IsTrue, MatchOption, length};
ghost use Rattle.hg_slot.specs.Slotted.{slots, HasGap, IsSlotted, IsUsable};
ghost use Rattle.hg_slot.specs.Changing.{IsPut, IsFullFor};

use crate::change::place;
use crate::close::{fits, head_with, make_room};
use crate::entry::{COUNT, HEAD, LOWEST, MAX_SLOTS, PAGE, number_at};
use crate::find::first_empty;

/// Whether a record of so many bytes fits with a new slot between the slots and the records.
pub fn has_gap(page: &[u8], bytes: usize) -> bool
    requires { IsUsable page.now }
    ensures { IsTrue result ↔ HasGap page.now bytes }
{
    let count = number_at(page, COUNT);
    count < MAX_SLOTS && bytes <= PAGE && HEAD + 4 * (count + 1) + bytes <= number_at(page, LOWEST)
}

/// Puts a record with a new slot into the gap between the slots and the records.
#[tactic(auto, using(crate::proofs::Placing::putting))]
pub fn append(page: &mut [u8], front: &[u8], rest: &[u8]) -> u16
    requires usable { IsUsable page.old }
    requires gap { HasGap page.old (length front.now + length rest.now) }
    ensures { IsPut page.old page.new result (front.now ++ rest.now) }
{
    let slot = number_at(page, COUNT);
    place(page, slot, front, rest);
    slot as u16
}

/// Puts a record into the first empty slot, or into a new one where none is, of a page that has no gap
/// for it; the page is closed up where the bytes before the records do not suffice.
#[tactic(auto, using(crate::proofs::Placing::putting))]
pub fn put_elsewhere(page: &mut [u8], front: &[u8], rest: &[u8]) -> Option<u16>
    requires slotted { IsSlotted page.old }
    requires no_gap { HasGap page.old (length front.now + length rest.now) → ⊥ }
    ensures { MatchOption result
        (IsFullFor page.old page.new (length front.now + length rest.now))
        (λ slot. IsPut page.old page.new slot (front.now ++ rest.now)) }
{
    let slot = first_empty(page);
    let size = front.len() + rest.len();
    if !fits(page, slot, size) {
        return None;
    }
    make_room(page, head_with(page, slot) + size);
    place(page, slot, front, rest);
    Some(slot as u16)
}

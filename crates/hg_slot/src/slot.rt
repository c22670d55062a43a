//! The calls on a slotted page. A page is 4,096 bytes; a slot is named by its number from 0. A page
//! that [`verify`] takes is a slotted page, and each call leaves it one.
ghost use Rattle.std.specs.Prelude.{◌≡◌, ◌≢◌, ℕ, ◌+◌, ◌++◌, ◌≤◌, ◌↔◌, true, List, Some, None, Ok, Err, MatchOption, IfSome, IfOk, IfErr, OnErr, IsOk, length, take, drop, slice_index};
ghost use Rattle.std.specs.Result.{result_err};
ghost use Rattle.std.specs.Borrow.{sem, LendsIf, Array, u8};
ghost use Rattle.hg_slot.specs.Slotted.{slots, lowest, record_at, offset, IsSlotted, IsClean, IsRecord, Fits};
ghost use Rattle.hg_slot.specs.Changing.{Empties, IsPut, IsFullFor, Overwrites, Replaces, HasPart, WritesPart, with_record, IsWrong, Verified, HeadChecked, InsertChecked, fault_at};

use crate::change::{empty, start};
use crate::entry::{Bounds, COUNT, Entry, KIND, MAX_SLOTS, PAGE, entry_at, number_at, set_bytes};
use crate::find::{find, located};
use crate::room::{append, has_gap, put_elsewhere};
use crate::verify::{are_right, has_right_head};
use hg_base::{Check, NoRoom};

/// Makes a slotted page with no slots, whatever the bytes were. One record of up to 4,076 bytes
/// fits there.
#[tactic(auto, using(crate::proofs::Closing::none_fits))]
pub fn init(page: &mut [u8])
    requires { length page.old ≡ 4096 }
    ensures slotted { IsSlotted page.new }
    ensures none { slots page.new ≡ 0 }
    ensures lowest { lowest page.new ≡ 4096 }
    ensures clean { IsClean page.new }
    ensures room { (n : ℕ) → n ≤ 4076 → Fits page.new n }
{
    start(page);
}

/// How many slots the page has, empty ones among them. Slots are never taken away.
pub fn count(page: &[u8]) -> u16
    requires { IsSlotted page.now }
    ensures { result ≡ slots page.now }
{
    number_at(page, COUNT) as u16
}

/// The record of a slot, where it stands. None where the slot is empty or there is no such slot.
pub fn get(page: &[u8], slot: u16) -> Option<&[u8]>
    requires { IsSlotted page.now }
    ensures { MatchOption result (record_at page.now slot ≡ None)
        (λ r. record_at page.now slot ≡ Some r.now) }
{
    match find(page, slot as usize) {
        Some(entry) => Some(&page[entry.offset..entry.offset + entry.size]),
        None => None,
    }
}

/// Where the record of a slot of a page whose bytes may be any lies, by the first byte, the number of
/// slots and this slot's entry alone.
#[tactic(auto, using(crate::proofs::Peeking::peeking))]
fn locate(page: &[u8], slot: u16) -> Result<Option<Entry>, Check>
    requires { length page.now ≡ 4096 }
    ensures slotted { IsSlotted page.now → IsOk result }
    ensures found { IfOk result (λ o. MatchOption o (record_at page.now slot ≡ None)
        (λ e. IsRecord page.now slot e.offset e.size)) }
    ensures wrong { IfErr result (IsWrong page.now) }
    ensures kind { slice_index page.now 0 ≢ 83 → result ≡ Err Check.Kind }
    ensures fault { result_err result ≡ fault_at page.now slot }
{
    if page[0] != KIND {
        return Err(Check::Kind);
    }
    let slot = slot as usize;
    let count = number_at(page, COUNT);
    if count > MAX_SLOTS {
        return Err(Check::Size);
    }
    if slot >= count {
        return Ok(None);
    }
    let entry = entry_at(page, slot);
    if entry.offset == 0 {
        return Ok(None);
    }
    if entry.offset + entry.size > PAGE {
        return Err(Check::Size);
    }
    Ok(Some(entry))
}

/// The record of a slot of a page whose bytes may be any, in constant time: it looks at the first
/// byte, the number of slots and this slot's entry alone. On a slotted page it answers what [`get`]
/// does. Of any page it answers Kind exactly where byte 0 is another one, and else Size exactly where
/// there are more than 128 slots or the slot's record would end behind the page; in all other cases it
/// shows what the entry names, damaged or not, or None where the slot is empty or there is no such slot.
pub fn peek(page: &[u8], slot: u16) -> Result<Option<&[u8]>, Check>
    requires { length page.now ≡ 4096 }
    ensures slotted { IsSlotted page.now → IsOk result }
    ensures shown { IfOk result (λ o. MatchOption o (record_at page.now slot ≡ None)
        (λ r. record_at page.now slot ≡ Some r.now)) }
    ensures wrong { IfErr result (IsWrong page.now) }
    ensures kind { slice_index page.now 0 ≢ 83 → result ≡ Err Check.Kind }
    ensures fault { result_err result ≡ fault_at page.now slot }
{
    match locate(page, slot)? {
        Some(entry) => Ok(Some(&page[entry.offset..entry.offset + entry.size])),
        None => Ok(None),
    }
}

/// The number of slots of a page whose bytes may be any, in constant time. It answers Kind exactly
/// where byte 0 is another one, and else Size exactly where the head is wrong: more than 128 slots, or
/// a lowest byte of the records among the slots or behind the page.
pub fn check_head(page: &[u8]) -> Result<u16, Check>
    requires { length page.now ≡ 4096 }
    ensures { HeadChecked page.now result }
{
    if page[0] != KIND {
        return Err(Check::Kind);
    }
    if !has_right_head(page) {
        return Err(Check::Size);
    }
    Ok(number_at(page, COUNT) as u16)
}

/// Where the record of a slot lies on the page. None where [`get`] gives none.
pub fn bounds(page: &[u8], slot: u16) -> Option<Bounds>
    requires { IsSlotted page.now }
    ensures { MatchOption result (record_at page.now slot ≡ None)
        (λ b. IsRecord page.now slot b.offset b.size) }
{
    match find(page, slot as usize) {
        Some(entry) => Some(Bounds {
            offset: entry.offset as u16,
            size: entry.size as u16,
        }),
        None => None,
    }
}

/// Puts a record into a new slot where it fits with it between the slots and the records, in constant
/// time; and else into the first empty slot, or into a new one where none is empty. It gives the slot's
/// number. A record may have no bytes. The page is closed up where that is needed, and only there.
/// NoRoom comes exactly where the record does not fit into the free bytes, or where no slot is empty and
/// there are 128 already or the record does not fit beside the 4 bytes of a new one. The page then stays
/// as it was.
pub fn insert(page: &mut [u8], bytes: &[u8]) -> Result<u16, NoRoom>
    requires { IsSlotted page.old }
    ensures slotted { IsSlotted page.new }
    ensures put { IfOk result (λ slot. IsPut page.old page.new slot bytes.now) }
    ensures unchanged { OnErr result (page.new ≡ page.old) }
    ensures room { IsOk result ↔ Fits page.old (length bytes.now) }
{
    match insert_parts(page, bytes, &[]) {
        Ok(Some(slot)) => Ok(slot),
        Ok(None) => Err(NoRoom),
        Err(_) => unreachable!(),
    }
}

/// Puts a record, given as two parts one behind the other, into a page whose bytes may be any, as
/// [`insert`] does. None where it does not fit. Where there is a gap for it, kind and head alone are
/// looked at; where there is none, the page is looked at whole, as [`verify`] does. It answers Kind
/// exactly where byte 0 is another one, and else Size exactly where the head is wrong, or there is no gap
/// and the page is no slotted page; the page then stays as it was.
pub fn insert_parts(page: &mut [u8], front: &[u8], rest: &[u8]) -> Result<Option<u16>, Check>
    requires { length page.old ≡ 4096 }
    ensures checked { InsertChecked page.old (length front.now + length rest.now) result }
    ensures put { IfOk result (λ o. MatchOption o
        (IsFullFor page.old page.new (length front.now + length rest.now))
        (λ slot. IsPut page.old page.new slot (front.now ++ rest.now))) }
    ensures unchanged { OnErr result (page.new ≡ page.old) }
{
    match check_head(page) {
        Ok(_) => {}
        Err(check) => return Err(check),
    }
    if has_gap(page, front.len() + rest.len()) {
        return Ok(Some(append(page, front, rest)));
    }
    match verify(page) {
        Ok(()) => Ok(put_elsewhere(page, front, rest)),
        Err(check) => Err(check),
    }
}

/// Reads bytes that may be any, and any number of them. It answers Ok exactly for a slotted page; else
/// Kind exactly where byte 0 is another one or there is no byte, and Size in all other cases.
#[tactic(auto, using(crate::proofs::Verifying::verifying))]
pub fn verify(page: &[u8]) -> Result<(), Check>
    ensures { Verified page.now result }
{
    if page.is_empty() || page[0] != KIND {
        return Err(Check::Kind);
    }
    if page.len() != PAGE || !has_right_head(page) || !are_right(page) {
        return Err(Check::Size);
    }
    Ok(())
}

/// Writes bytes over a part of a record, from the record's byte `at` on. The slot has to show a record,
/// and the part has to lie inside it.
pub fn put(page: &mut [u8], slot: u16, at: u16, bytes: &[u8])
    requires slotted { IsSlotted page.old }
    requires inside { MatchOption (record_at page.old slot) ⊥ (λ r. at + length bytes.now ≤ length r) }
    ensures written { Overwrites page.old page.new slot at bytes.now }
    ensures only { WritesPart page.old page.new slot at bytes.now }
{
    if let Some(entry) = find(page, slot as usize) {
        set_bytes(page, entry.offset + at as usize, bytes);
    }
}

/// Writes bytes over a part of a record of a page whose bytes may be any, from the record's byte `at`
/// on, in constant time; it answers damage as [`peek`] does. True exactly where the slot shows a record
/// that has the part; where it is false, the page stays as it was.
pub fn overwrite(page: &mut [u8], slot: u16, at: u16, bytes: &[u8]) -> Result<bool, Check>
    requires { length page.old ≡ 4096 }
    ensures fault { result_err result ≡ fault_at page.old slot }
    ensures wrong { IfErr result (IsWrong page.old) }
    ensures shown { IfOk result (λ written. HasPart page.old slot at (length bytes.now) written) }
    ensures written { result ≡ Ok true → IsSlotted page.old
        → Overwrites page.old page.new slot at bytes.now }
    ensures only { result ≡ Ok true → WritesPart page.old page.new slot at bytes.now }
    ensures unchanged { (result ≡ Ok true → ⊥) → page.new ≡ page.old }
{
    match locate(page, slot)? {
        Some(entry) => {
            if at as usize + bytes.len() > entry.size {
                return Ok(false);
            }
            set_bytes(page, entry.offset + at as usize, bytes);
            Ok(true)
        }
        None => Ok(false),
    }
}

/// The record of a slot, lent to be written. None where [`get`] gives none. The page ends with the
/// bytes that are left there in the record's place. A caller's proof that the checker makes by itself
/// does not read that clause yet, and knows only that the page keeps its length: where a caller's
/// contract speaks of the page, it writes by [`put`].
pub fn get_mut(page: &mut [u8], slot: u16) -> Option<&mut [u8]>
    requires { IsSlotted page.old }
    ensures* lends { sem 𝓛 (LendsIf (Array u8 0) (Array u8 0) page.entry result (with_record page.old slot) page.old) }
    ensures value { MatchOption result (record_at page.old slot ≡ None)
        (λ r. record_at page.old slot ≡ Some r.now) }
    ensures written { IfSome result (λ r. (w : List ℕ) → length w ≡ length r.now → Replaces page.old (with_record page.old slot w) slot w) }
{
    let (page, from, to) = located(page, slot);
    if from == 0 {
        return None;
    }
    Some(&mut page[from..to])
}

/// Takes a record away. The slot has to show one; it is empty then, and stays. No other record is moved.
pub fn remove(page: &mut [u8], slot: u16)
    requires slotted { IsSlotted page.old }
    requires full { record_at page.old slot ≢ None }
    ensures { Empties page.old page.new slot }
{
    empty(page, slot as usize);
}

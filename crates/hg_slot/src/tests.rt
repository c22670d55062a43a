//! Tables of pages: damaged ones, a page that is filled to the last byte, one that is closed up.
ghost use Rattle.std.specs.Prelude.{◌≡◌, ℕ, ◌+◌, ◌≤◌, IfOk, length};
ghost use Rattle.hg_slot.specs.Slotted.{slots, IsSlotted};

use crate::{Bounds, slot};
use hg_base::{Check, NoRoom};
use std::test::Fail;

/// A page that begins with these bytes and has zeros behind them.
fn page_of(front: &[u8]) -> [u8; 4096] {
    let mut page = [0; 4096];
    if front.len() <= 4096 {
        page[..front.len()].copy_from_slice(front);
    }
    page
}

/// What is wrong with such a page, or None.
fn wrong(front: &[u8]) -> Option<Check> {
    slot::verify(&page_of(front)).err()
}

/// How many bytes a reader of one slot finds there, in the same words as the record's length; None
/// where there is no record.
fn peeked(front: &[u8], slot: u16) -> Result<Option<usize>, Check> {
    let page = page_of(front);
    let record = slot::peek(&page, slot)?;
    Ok(record.map(|bytes| bytes.len()))
}

#[test]
fn damaged_pages(rt: HostRuntime) -> Result<(), Fail> {
    // no slots, and the place below which no record begins is 4,096
    assert_eq!(rt; wrong(&[0x53, 0, 0, 0, 0, 0x10]), None);
    // another kind of page, and a page of zeros
    assert_eq!(rt; wrong(&[0x4C, 0, 0, 0, 0, 0x10]), Some(Check::Kind));
    assert_eq!(rt; wrong(&[]), Some(Check::Kind));
    // 129 slots, that end at 532 = 0x0214
    assert_eq!(rt; wrong(&[0x53, 0, 129, 0, 0x14, 2]), Some(Check::Size));
    // 128 slots, that end at 528 = 0x0210
    assert_eq!(rt; wrong(&[0x53, 0, 128, 0, 0x10, 2]), None);
    // that place among the slots, and behind the page
    assert_eq!(rt; wrong(&[0x53, 0, 128, 0, 0x0F, 2]), Some(Check::Size));
    assert_eq!(rt; wrong(&[0x53, 0, 0, 0, 1, 0x10]), Some(Check::Size));
    // one record of 8 bytes at 4088 = 0x0FF8, the same with 9 bytes, and one below that place
    let one = [
        0x53, 0, 1, 0, 0xF8, 0x0F, 0, 0, 0, 0, 0, 0, 0, 0, 0, 0, 0xF8, 0x0F, 8, 0,
    ];
    assert_eq!(rt; wrong(&one), None);
    let long = [
        0x53, 0, 1, 0, 0xF8, 0x0F, 0, 0, 0, 0, 0, 0, 0, 0, 0, 0, 0xF8, 0x0F, 9, 0,
    ];
    assert_eq!(rt; wrong(&long), Some(Check::Size));
    let deep = [
        0x53, 0, 1, 0, 0xF8, 0x0F, 0, 0, 0, 0, 0, 0, 0, 0, 0, 0, 0xF7, 0x0F, 8, 0,
    ];
    assert_eq!(rt; wrong(&deep), Some(Check::Size));
    // a length in an empty slot
    let half = [
        0x53, 0, 1, 0, 0xF8, 0x0F, 0, 0, 0, 0, 0, 0, 0, 0, 0, 0, 0, 0, 8, 0,
    ];
    assert_eq!(rt; wrong(&half), Some(Check::Size));
    // two records side by side, the second one before the first, and two that share the byte 4088
    let two = [
        0x53, 0, 2, 0, 0xF0, 0x0F, 0, 0, 0, 0, 0, 0, 0, 0, 0, 0, 0xF8, 0x0F, 8, 0, 0xF0, 0x0F, 8, 0,
    ];
    assert_eq!(rt; wrong(&two), None);
    let turned = [
        0x53, 0, 2, 0, 0xF0, 0x0F, 0, 0, 0, 0, 0, 0, 0, 0, 0, 0, 0xF0, 0x0F, 8, 0, 0xF8, 0x0F, 8, 0,
    ];
    assert_eq!(rt; wrong(&turned), None);
    let shared = [
        0x53, 0, 2, 0, 0xF0, 0x0F, 0, 0, 0, 0, 0, 0, 0, 0, 0, 0, 0xF0, 0x0F, 9, 0, 0xF8, 0x0F, 8, 0,
    ];
    assert_eq!(rt; wrong(&shared), Some(Check::Size));
    // bytes that are no whole page
    assert_eq!(rt; slot::verify(&one), Err(Check::Size));
    Ok(())
}

#[test]
fn damaged_slots(rt: HostRuntime) -> Result<(), Fail> {
    // another kind of page, a page of zeros, and 129 slots
    assert_eq!(rt; peeked(&[0x4C, 0, 0, 0, 0, 0x10], 0), Err(Check::Kind));
    assert_eq!(rt; peeked(&[], 7), Err(Check::Kind));
    assert_eq!(rt; peeked(&[0x53, 0, 129, 0, 0x14, 2], 0), Err(Check::Size));
    // no slot, an empty one, and one behind the slots
    assert_eq!(rt; peeked(&[0x53, 0, 0, 0, 0, 0x10], 0), Ok(None));
    assert_eq!(rt; peeked(&[0x53, 0, 128, 0, 0x10, 2], 127), Ok(None));
    assert_eq!(rt; peeked(&[0x53, 0, 128, 0, 0x10, 2], 128), Ok(None));
    // a record of 8 bytes at 4088 = 0x0FF8, an empty slot, and a record of 9 bytes at 4088: only the
    // last slot is wrong
    let three = [
        0x53, 0, 3, 0, 0xF8, 0x0F, 0, 0, 0, 0, 0, 0, 0, 0, 0, 0, 0xF8, 0x0F, 8, 0, 0, 0, 0, 0,
        0xF8, 0x0F, 9, 0,
    ];
    assert_eq!(rt; peeked(&three, 0), Ok(Some(8)));
    assert_eq!(rt; peeked(&three, 1), Ok(None));
    assert_eq!(rt; peeked(&three, 2), Err(Check::Size));
    assert_eq!(rt; wrong(&three), Some(Check::Size));
    Ok(())
}

/// What an insertion of so many zeros, the first two apart from the rest, answers for a page that may be
/// damaged.
fn put_into(front: &[u8], bytes: usize) -> Result<Option<u16>, Check> {
    let mut page = page_of(front);
    let zeros = [0; 4096];
    slot::insert_parts(&mut page, &[0, 0], &zeros[..bytes.max(2).min(4096) - 2])
}

#[test]
fn insertions_into_damaged_pages(rt: HostRuntime) -> Result<(), Fail> {
    // another kind of page, and a page of zeros
    assert_eq!(rt; put_into(&[0x4C, 0, 0, 0, 0, 0x10], 10), Err(Check::Kind));
    assert_eq!(rt; put_into(&[], 4000), Err(Check::Kind));
    // 129 slots; the lowest byte of the records among 128 slots; and behind the page
    assert_eq!(rt; put_into(&[0x53, 0, 129, 0, 0x14, 2], 10), Err(Check::Size));
    assert_eq!(rt; put_into(&[0x53, 0, 128, 0, 0x0F, 2], 10), Err(Check::Size));
    assert_eq!(rt; put_into(&[0x53, 0, 0, 0, 1, 0x10], 10), Err(Check::Size));
    // no slots: 4,076 bytes beside 16 of head and 4 of a slot, and no more
    assert_eq!(rt; put_into(&[0x53, 0, 0, 0, 0, 0x10], 4076), Ok(Some(0)));
    assert_eq!(rt; put_into(&[0x53, 0, 0, 0, 0, 0x10], 4077), Ok(None));
    // a record of 8 bytes at 4088: 4,088 less 16 of head and 8 of two slots are 4,064
    let one = [
        0x53, 0, 1, 0, 0xF8, 0x0F, 0, 0, 0, 0, 0, 0, 0, 0, 0, 0, 0xF8, 0x0F, 8, 0,
    ];
    assert_eq!(rt; put_into(&one, 4064), Ok(Some(1)));
    assert_eq!(rt; put_into(&one, 4065), Ok(None));
    // the same with 9 bytes, which end behind the page: it is not looked at where there is a gap
    let long = [
        0x53, 0, 1, 0, 0xF8, 0x0F, 0, 0, 0, 0, 0, 0, 0, 0, 0, 0, 0xF8, 0x0F, 9, 0,
    ];
    assert_eq!(rt; put_into(&long, 4064), Ok(Some(1)));
    assert_eq!(rt; put_into(&long, 4065), Err(Check::Size));
    Ok(())
}

/// Whether four bytes are written from the record's byte 1 on, of a slot of a page that may be damaged.
fn written(front: &[u8], slot: u16) -> Result<bool, Check> {
    let mut page = page_of(front);
    slot::overwrite(&mut page, slot, 1, &[1, 2, 3, 4])
}

#[test]
fn damaged_pages_are_written_over(rt: HostRuntime) -> Result<(), Fail> {
    assert_eq!(rt; written(&[], 0), Err(Check::Kind));
    assert_eq!(rt; written(&[0x53, 0, 129, 0, 0x14, 2], 0), Err(Check::Size));
    assert_eq!(rt; written(&[0x53, 0, 128, 0, 0x10, 2], 128), Ok(false));
    // records of 5 and of 4 bytes at 4088, and one of 9 bytes there
    let three = [
        0x53, 0, 3, 0, 0xF8, 0x0F, 0, 0, 0, 0, 0, 0, 0, 0, 0, 0, 0xF8, 0x0F, 5, 0, 0xF8, 0x0F, 4,
        0, 0xF8, 0x0F, 9, 0,
    ];
    assert_eq!(rt; written(&three, 0), Ok(true));
    assert_eq!(rt; written(&three, 1), Ok(false));
    assert_eq!(rt; written(&three, 2), Err(Check::Size));
    // the number of slots alone, and what is wrong with the head
    assert_eq!(rt; slot::check_head(&page_of(&three)), Ok(3));
    assert_eq!(rt;
        slot::check_head(&page_of(&[0x53, 0, 1, 0, 19, 0])),
        Err(Check::Size)
    );
    assert_eq!(rt; slot::check_head(&page_of(&[0x52])), Err(Check::Kind));
    Ok(())
}

/// An empty page.
fn new_page() -> [u8; 4096]
    ensures slotted { IsSlotted result }
    ensures none { slots result ≡ 0 }
{
    let mut page = [0; 4096];
    slot::init(&mut page);
    page
}

/// Whether the slot of this number holds so many bytes, all of them this one.
fn holds(page: &[u8], slot: u16, length: usize, byte: u8) -> bool
    requires { IsSlotted page.now }
{
    match slot::get(page, slot) {
        Some(record) => record.len() == length && record.iter().all(|b| *b == byte),
        None => false,
    }
}

/// Takes a record away where one is there.
fn take(page: &mut [u8], slot: u16)
    requires { IsSlotted page.old }
    ensures { IsSlotted page.new }
{
    if slot::get(page, slot).is_some() {
        slot::remove(page, slot);
    }
}

#[test]
fn a_page_is_filled(rt: HostRuntime) -> Result<(), Fail> {
    let mut page = new_page();
    // 16 bytes of head; 3 records of 1,000 with their slots are 3,012; 4 + 1,064 are left
    for byte in 0..3 {
        assert_eq!(rt; slot::insert(&mut page, &[byte; 1000]), Ok(byte as u16));
    }
    assert_eq!(rt; slot::insert(&mut page, &[3; 1065]), Err(NoRoom));
    assert_eq!(rt; slot::insert(&mut page, &[3; 1064]), Ok(3));
    assert_eq!(rt; slot::insert(&mut page, &[]), Err(NoRoom));
    assert_eq!(rt; slot::count(&page), 4);
    // a slot in the middle: its 1,000 bytes and no more, with no new slot
    take(&mut page, 1);
    assert_eq!(rt; slot::count(&page), 4);
    assert_eq!(rt; slot::get(&page, 1).is_none(), true);
    assert_eq!(rt; slot::insert(&mut page, &[7; 1001]), Err(NoRoom));
    assert_eq!(rt; slot::insert(&mut page, &[7; 1000]), Ok(1));
    // two records go, and one of all their bytes comes: the page is closed up
    take(&mut page, 0);
    take(&mut page, 2);
    assert_eq!(rt; slot::insert(&mut page, &[9; 2000]), Ok(0));
    assert!(rt; holds(&page, 0, 2000, 9));
    assert!(rt; holds(&page, 1, 1000, 7));
    assert!(rt; holds(&page, 3, 1064, 3));
    assert_eq!(rt; slot::bounds(&page, 2), None);
    // the empty slot takes a record of no bytes
    assert_eq!(rt; slot::insert(&mut page, &[]), Ok(2));
    assert!(rt; holds(&page, 2, 0, 0));
    assert_eq!(rt; slot::verify(&page), Ok(()));
    Ok(())
}

/// The number that the head's bytes 4..6 spell.
fn lowest(page: &[u8; 4096]) -> usize {
    page[4] as usize + 256 * page[5] as usize
}

#[test]
fn a_removal_names_the_lowest_byte(rt: HostRuntime) -> Result<(), Fail> {
    let mut page = new_page();
    // records of 3, 4 and 5 bytes from the end, 4,096: at 4093, 4089 and 4084
    assert_eq!(rt; slot::insert(&mut page, &[1; 3]), Ok(0));
    assert_eq!(rt; slot::insert(&mut page, &[2; 4]), Ok(1));
    assert_eq!(rt; slot::insert(&mut page, &[3; 5]), Ok(2));
    assert_eq!(rt; lowest(&page), 4084);
    take(&mut page, 1);
    assert_eq!(rt; lowest(&page), 4084);
    take(&mut page, 2);
    assert_eq!(rt; lowest(&page), 4093);
    take(&mut page, 0);
    assert_eq!(rt; lowest(&page), 4096);
    // there is room for a new slot, though three are empty
    assert_eq!(rt; slot::insert(&mut page, &[4; 2]), Ok(3));
    assert_eq!(rt; lowest(&page), 4094);
    Ok(())
}

/// Whether the slot of this number holds these bytes.
fn shows(page: &[u8], slot: u16, bytes: &[u8]) -> bool
    requires { IsSlotted page.now }
{
    match slot::get(page, slot) {
        Some(record) => record == bytes,
        None => false,
    }
}

/// Writes over a part of a record where one is there that has it.
fn overwrite(page: &mut [u8], slot: u16, at: u16, bytes: &[u8])
    requires { IsSlotted page.old }
    ensures { IsSlotted page.new }
{
    if let Some(record) = slot::get(page, slot) {
        if bytes.len() <= record.len() && at as usize <= record.len() - bytes.len() {
            slot::put(page, slot, at, bytes);
        }
    }
}

#[test]
fn a_part_of_a_record_is_written(rt: HostRuntime) -> Result<(), Fail> {
    let mut page = new_page();
    assert_eq!(rt; slot::insert(&mut page, &[1, 2, 3]), Ok(0));
    assert_eq!(rt; slot::insert(&mut page, &[4, 5, 6, 7]), Ok(1));
    // the records stand below one another from the end, 4,096: 3 bytes at 4093, and 4 at 4089
    let first = Bounds {
        offset: 4093,
        size: 3,
    };
    let second = Bounds {
        offset: 4089,
        size: 4,
    };
    assert_eq!(rt; slot::bounds(&page, 0), Some(first));
    assert_eq!(rt; slot::bounds(&page, 1), Some(second));
    assert_eq!(rt; slot::bounds(&page, 2), None);
    overwrite(&mut page, 1, 1, &[8, 9]);
    assert!(rt; shows(&page, 1, &[4, 8, 9, 7]));
    assert!(rt; shows(&page, 0, &[1, 2, 3]));
    assert_eq!(rt; slot::bounds(&page, 1), Some(second));
    Ok(())
}

/// A page with the records 1 2 3 and 4 5, and whether it has a record at this slot; a 9 was written
/// over that record's first byte.
fn marked(slot: u16) -> (bool, [u8; 4096]) {
    let mut page = new_page();
    let _ = slot::insert(&mut page, &[1, 2, 3]);
    let _ = slot::insert(&mut page, &[4, 5]);
    let found = match slot::get_mut(&mut page, slot) {
        Some(record) => {
            if let Some(first) = record.first_mut() {
                *first = 9;
            }
            true
        }
        None => false,
    };
    (found, page)
}

/// The first byte of a record and how many it has.
fn front(page: &[u8; 4096], slot: u16) -> Option<(u8, usize)> {
    let record = slot::peek(page, slot).ok()??;
    let first = record.first()?;
    Some((*first, record.len()))
}

#[test]
fn a_record_is_written_in_place(rt: HostRuntime) -> Result<(), Fail> {
    let (found, page) = marked(1);
    assert_eq!(rt; found, true);
    assert_eq!(rt; front(&page, 0), Some((1, 3)));
    assert_eq!(rt; front(&page, 1), Some((9, 2)));
    assert_eq!(rt; slot::verify(&page), Ok(()));
    // there is no third record
    let (found, page) = marked(2);
    assert_eq!(rt; found, false);
    assert_eq!(rt; front(&page, 0), Some((1, 3)));
    assert_eq!(rt; front(&page, 1), Some((4, 2)));
    Ok(())
}

//! Pages worked out by hand: one that moves, pages that change their frames, and damaged ones.
ghost use Rattle.std.specs.Prelude.{◌≡◌, ◌≤◌, length};

use crate::{MoveMap, move_page, next_object, object_at, rewrite, verify};
use hg_base::{Addr, Check, FrameNo, get_u32, get_u64, put_u16, put_u32, put_u64};
use std::test::Fail;

/// Writes the head of an object.
fn put_head(page: &mut [u8; 4096], at: usize, kind: u8, payload: u16)
    requires { at ≤ 4000 }
{
    put_u16(page, at, payload);
    page[at + 2] = kind;
}

/// A page that last stood in frame 3, with rows of 5 bytes at 64, 96 and 128, all of them with nil links,
/// and at 160 a directory of two addresses: nil, and the row at 128 (3 * 4096 + 128 = 12416), which the
/// second root names too. It ends at 192.
fn page_in_3() -> [u8; 4096] {
    let mut page = [0; 4096];
    page[0] = 0x48;
    put_u16(&mut page, 2, 192);
    put_u32(&mut page, 4, 3);
    put_u64(&mut page, 24, 12416);
    put_head(&mut page, 64, 1, 5);
    put_head(&mut page, 96, 1, 5);
    put_head(&mut page, 128, 1, 5);
    page[80] = 0xFF;
    page[144] = 0x30;
    put_head(&mut page, 160, 2, 16);
    put_u64(&mut page, 184, 12416);
    page
}

/// Moves the addresses of a page of a pool of 16 frames, if it is one.
#[tactic(auto, using(crate::specs::Checks::right_made))]
fn moved(page: &mut [u8], map: &MoveMap) -> Option<Check>
    ensures { length page.new ≡ length page.old }
{
    match verify(page, 16) {
        Ok(()) => {
            rewrite(page, map);
            None
        }
        Err(check) => Some(check),
    }
}

#[test]
fn a_page_moves(rt: HostRuntime) -> Result<(), Fail> {
    let mut map = MoveMap::new(rt.alloc(), 16).ok().ok_or("memory")?;
    map.set(FrameNo(3), FrameNo(7));
    let old = page_in_3();
    let mut page = page_in_3();
    assert_eq!(rt; moved(&mut page, &map), None);
    // 7 * 4096 + 128 = 28800; every other byte is as before
    assert_eq!(rt; get_u64(&page, 176), 0);
    assert_eq!(rt; get_u64(&page, 184), 28800);
    assert_eq!(rt; get_u64(&page, 16), 0);
    assert_eq!(rt; get_u64(&page, 24), 28800);
    put_u64(&mut page, 24, 12416);
    put_u64(&mut page, 184, 12416);
    assert!(rt; page == old);
    Ok(())
}

/// Moves a page of a pool of 16 frames into a frame, if it is one.
#[tactic(auto, using(crate::specs::Checks::right_made))]
fn settled(page: &mut [u8], map: &MoveMap, frame: FrameNo) -> bool
    ensures { length page.new ≡ length page.old }
{
    match verify(page, 16) {
        Ok(()) => {
            move_page(page, map, frame);
            true
        }
        Err(_) => false,
    }
}

#[test]
fn a_page_names_its_frame(rt: HostRuntime) -> Result<(), Fail> {
    let mut map = MoveMap::new(rt.alloc(), 16).ok().ok_or("memory")?;
    map.set(FrameNo(3), FrameNo(7));
    let mut page = page_in_3();
    assert!(rt; settled(&mut page, &map, FrameNo(7)));
    assert_eq!(rt; get_u32(&page, 4), 7);
    assert_eq!(rt; get_u64(&page, 184), 28800);
    assert_eq!(rt; verify(&page, 16), Ok(()));
    Ok(())
}

#[test]
fn frames_that_change_places(rt: HostRuntime) -> Result<(), Fail> {
    let mut map = MoveMap::new(rt.alloc(), 16).ok().ok_or("memory")?;
    map.set(FrameNo(3), FrameNo(5));
    map.set(FrameNo(5), FrameNo(3));
    assert_eq!(rt; map.get(FrameNo(3)), Some(FrameNo(5)));
    assert_eq!(rt; map.get(FrameNo(5)), Some(FrameNo(3)));
    assert_eq!(rt; map.get(FrameNo(4)), None);
    // 5 * 4096 + 128 = 20608
    let mut page = page_in_3();
    put_u64(&mut page, 176, 20608);
    assert_eq!(rt; moved(&mut page, &map), None);
    assert_eq!(rt; get_u64(&page, 176), 12416);
    assert_eq!(rt; get_u64(&page, 184), 20608);
    // an address of a frame without an entry
    assert_eq!(rt; map.moved(Addr { word: 16512 }).word, 16512);
    map.clear();
    assert_eq!(rt; map.get(FrameNo(3)), None);
    Ok(())
}

#[test]
fn damaged_pages(rt: HostRuntime) -> Result<(), Fail> {
    assert_eq!(rt; verify(&page_in_3(), 16), Ok(()));
    assert_eq!(rt; verify(&[0; 4096], 16), Err(Check::Kind));
    assert_eq!(rt; verify(&[], 16), Err(Check::Kind));
    assert_eq!(rt; verify(&[0x48, 0, 64, 0], 16), Err(Check::Size));
    // the first free byte at 66, and behind the page
    let mut page = page_in_3();
    put_u16(&mut page, 2, 66);
    assert_eq!(rt; verify(&page, 16), Err(Check::Size));
    put_u16(&mut page, 2, 4112);
    assert_eq!(rt; verify(&page, 16), Err(Check::Size));
    // it cuts the directory off
    put_u16(&mut page, 2, 176);
    assert_eq!(rt; verify(&page, 16), Err(Check::Size));
    // an object of kind 3, a row of no byte, a directory of a word and a half
    page = page_in_3();
    put_head(&mut page, 96, 3, 5);
    assert_eq!(rt; verify(&page, 16), Err(Check::Kind));
    put_head(&mut page, 96, 1, 0);
    assert_eq!(rt; verify(&page, 16), Err(Check::Size));
    put_head(&mut page, 96, 2, 12);
    assert_eq!(rt; verify(&page, 16), Err(Check::Size));
    // it names frame 16 of 16
    page = page_in_3();
    put_u32(&mut page, 4, 16);
    assert_eq!(rt; verify(&page, 16), Err(Check::Frame));
    Ok(())
}

#[test]
fn damaged_links(rt: HostRuntime) -> Result<(), Fail> {
    // the link of the row at 96 (12384): to the row before it, to itself, to the one behind it
    let mut page = page_in_3();
    put_u64(&mut page, 104, 12352);
    assert_eq!(rt; verify(&page, 16), Ok(()));
    put_u64(&mut page, 104, 12384);
    assert_eq!(rt; verify(&page, 16), Err(Check::Link));
    put_u64(&mut page, 104, 12416);
    assert_eq!(rt; verify(&page, 16), Err(Check::Link));
    // to frame 16, and to another page: at 128, off the grid, among the roots
    put_u64(&mut page, 104, 65664);
    assert_eq!(rt; verify(&page, 16), Err(Check::Link));
    put_u64(&mut page, 104, 20608);
    assert_eq!(rt; verify(&page, 16), Ok(()));
    put_u64(&mut page, 104, 20609);
    assert_eq!(rt; verify(&page, 16), Err(Check::Link));
    put_u64(&mut page, 104, 20496);
    assert_eq!(rt; verify(&page, 16), Err(Check::Link));
    // a word of the directory into a payload (12368 is 3 * 4096 + 80), and to the directory itself
    page = page_in_3();
    put_u64(&mut page, 176, 12368);
    assert_eq!(rt; verify(&page, 16), Err(Check::Link));
    put_u64(&mut page, 176, 12448);
    assert_eq!(rt; verify(&page, 16), Ok(()));
    // a link of a directory, and a root into a payload
    put_u64(&mut page, 168, 12352);
    assert_eq!(rt; verify(&page, 16), Err(Check::Link));
    page = page_in_3();
    put_u64(&mut page, 40, 12368);
    assert_eq!(rt; verify(&page, 16), Err(Check::Link));
    Ok(())
}

#[test]
fn objects_one_behind_the_other(rt: HostRuntime) -> Result<(), Fail> {
    let page = page_in_3();
    let row = object_at(&page, 128).ok_or("no row at 128")?;
    assert_eq!(rt;
        (row.kind, row.payload_at, row.len, row.link.word),
        (1, 144, 5, 0)
    );
    let directory = object_at(&page, 160).ok_or("no directory at 160")?;
    assert_eq!(rt;
        (directory.kind, directory.payload_at, directory.len),
        (2, 176, 16)
    );
    assert_eq!(rt; object_at(&page, 192), None);
    assert_eq!(rt; object_at(&page, 48), None);
    assert_eq!(rt; object_at(&page, 72), None);
    assert_eq!(rt; next_object(&page, 64), Some(96));
    assert_eq!(rt; next_object(&page, 128), Some(160));
    assert_eq!(rt; next_object(&page, 160), None);
    assert_eq!(rt; next_object(&page, 192), None);
    Ok(())
}

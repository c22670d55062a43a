//! Two pages of a heap that come into one another's frames.
ghost use Rattle.std.specs.Prelude.{◌≡◌, ◌≤◌, length};

use crate::moving::read_page;
use hg_base::{Check, FrameNo, PageFault, get_u32, get_u64, put_u16, put_u32, put_u64};
use hg_reloc::{MoveMap, move_page};
use std::test::Fail;

/// A heap's page: it names this frame, and its rows, of 40 bytes each, lead to these words.
fn write_page(page: &mut [u8], named: u32, links: &[u64])
    requires whole { length page.old ≡ 4096 }
    requires few { length links.now ≤ 8 }
{
    page[0] = 0x48;
    put_u16(page, 2, 64 + 64 * links.len() as u16);
    put_u32(page, 4, named);
    for k in 0..links.len() {
        let at = 64 + 64 * k;
        put_u16(page, at, 40);
        page[at + 2] = 1;
        put_u64(page, at + 8, links[k]);
    }
}

#[test]
fn pages_change_places(rt: HostRuntime) -> Result<(), Fail> {
    let alloc = rt.alloc();
    let mut first = [0u8; 4096];
    let mut second = [0u8; 4096];
    write_page(&mut first, 3, &[0, 12352]);
    write_page(&mut second, 5, &[12416, 20544, 20608]);
    let Ok(mut map) = MoveMap::new(alloc, 16) else {
        assert!(rt; false, "want of memory");
        return Ok(());
    };
    // the first page stands in frame 5 now, and the second one in frame 3
    let Ok(moved) = read_page(&first, FrameNo(5), 1, &mut map) else {
        assert!(rt; false, "damaged");
        return Ok(());
    };
    let Ok(moved_too) = read_page(&second, FrameNo(3), 0, &mut map) else {
        assert!(rt; false, "damaged");
        return Ok(());
    };
    assert_eq!(rt; (moved, moved_too), (true, true));
    move_page(&mut first, &map, FrameNo(5));
    move_page(&mut second, &map, FrameNo(3));
    assert_eq!(rt;
        (
            get_u32(&first, 4),
            get_u64(&first, 72),
            get_u64(&first, 136)
        ),
        (5, 0, 20544)
    );
    let words = (
        get_u64(&second, 72),
        get_u64(&second, 136),
        get_u64(&second, 200),
    );
    assert_eq!(rt; (get_u32(&second, 4), words), (3, (20608, 12352, 12416)));
    Ok(())
}

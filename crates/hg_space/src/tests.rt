//! Rows worked out by hand.
use super::Space;
use std::process::Abort;
use std::test::Fail;

/// Releases a page that has to be in use.
fn release(rt: &impl Abort, space: &mut Space, no: u32) {
    if space.is_used(no) {
        space.release(no);
    } else {
        panic!(rt; "page {no} is not used");
    }
}

/// Sets the successor of a page that has to be in use, and reads it again.
fn set_next(rt: &impl Abort, space: &mut Space, no: u32, to: Option<u32>) -> Option<u32> {
    if space.is_used(no) {
        space.set_next(no, to);
        next(rt, space, no)
    } else {
        panic!(rt; "page {no} is not used");
    }
}

/// The successor of a page that has to be in use.
fn next(rt: &impl Abort, space: &Space, no: u32) -> Option<u32> {
    if space.is_used(no) {
        space.next(no)
    } else {
        panic!(rt; "page {no} is not used");
    }
}

#[test]
fn the_lowest_free_page_is_taken(rt: HostRuntime) -> Result<(), Fail> {
    let mut space = Space::new(rt.alloc(), 3).ok().ok_or("memory")?;
    assert_eq!(rt; space.used(), 0);
    assert_eq!(rt; space.take(), Some(0));
    assert_eq!(rt; space.take(), Some(1));
    assert_eq!(rt; space.take(), Some(2));
    assert_eq!(rt; space.take(), None);
    assert_eq!(rt; space.used(), 3);
    release(&rt, &mut space, 2);
    release(&rt, &mut space, 0);
    assert_eq!(rt; space.used(), 1);
    for (no, used) in [
        (0, false),
        (1, true),
        (2, false),
        (3, false),
        (u32::MAX, false),
    ] {
        assert_eq!(rt; space.is_used(no), used);
    }
    assert_eq!(rt; space.take(), Some(0));
    assert_eq!(rt; space.take(), Some(2));
    assert_eq!(rt; space.take(), None);
    Ok(())
}

#[test]
fn successors(rt: HostRuntime) -> Result<(), Fail> {
    let mut space = Space::new(rt.alloc(), 2).ok().ok_or("memory")?;
    assert_eq!(rt; space.take(), Some(0));
    assert_eq!(rt; space.take(), Some(1));
    assert_eq!(rt; next(&rt, &space, 1), None);
    for to in [Some(1), Some(0), Some(u32::MAX), None, Some(7)] {
        assert_eq!(rt; set_next(&rt, &mut space, 1, to), to);
        assert_eq!(rt; next(&rt, &space, 0), None);
    }
    release(&rt, &mut space, 1);
    assert_eq!(rt; space.take(), Some(1));
    assert_eq!(rt; next(&rt, &space, 1), None);
    Ok(())
}

#[test]
fn no_pages(rt: HostRuntime) -> Result<(), Fail> {
    let mut space = Space::new(rt.alloc(), 0).ok().ok_or("memory")?;
    assert_eq!(rt; space.take(), None);
    assert_eq!(rt; space.is_used(0), false);
    Ok(())
}

#[test]
fn all_pages_of_the_main_file(rt: HostRuntime) -> Result<(), Fail> {
    let mut space = Space::new(rt.alloc(), 65_536).ok().ok_or("memory")?;
    for no in 0..65_536 {
        assert_eq!(rt; space.take(), Some(no));
    }
    assert_eq!(rt; space.take(), None);
    assert_eq!(rt; space.used(), 65_536);
    for no in [65_535, 63, 4_096, 64] {
        release(&rt, &mut space, no);
    }
    for no in [63, 64, 4_096, 65_535] {
        assert_eq!(rt; space.take(), Some(no));
    }
    assert_eq!(rt; space.take(), None);
    Ok(())
}

#[test]
fn pages_of_the_temporary_file(rt: HostRuntime) -> Result<(), Fail> {
    let mut space = Space::new(rt.alloc(), 1_048_576).ok().ok_or("memory")?;
    for no in 0..300 {
        assert_eq!(rt; space.take(), Some(no));
    }
    release(&rt, &mut space, 128);
    assert_eq!(rt; space.take(), Some(128));
    assert_eq!(rt; space.take(), Some(300));
    assert_eq!(rt; space.used(), 301);
    Ok(())
}

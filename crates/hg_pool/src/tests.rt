//! Pages that come into the frames of a pool and leave them, and devices that fail.
ghost use Rattle.std.specs.Prelude.{◌≡◌, ◌≤◌, true, false, IfSome, IfOk, OnOk};
ghost use Rattle.hg_base.specs.Space.{NoPins, key};
ghost use Rattle.hg_pool.specs.Shown.{max_of};
ghost use Rattle.hg_pool.specs.Resizing.{NoneOut};
ghost use Rattle.hg_pool.specs.Lending.{lent_of};

use crate::{Config, Pool, PoolCounts};
use hg_base::{File, PageFault, PageId, Pages};
use hg_io::MemDevice;
use std::alloc::Global;
use std::test::Fail;

/// A pool of 16 frames over 64 pages a file, in which these calls of the main device fail.
fn open(
    alloc: Global,
    fail_reads: Vec<u64>,
    fail_writes: Vec<u64>,
) -> Option<Pool<MemDevice, MemDevice>>
    ensures none_out { IfSome result (λ pool. NoneOut (⟦<Pool<MemDevice, MemDevice> as Pages>⟧.state pool)) }
    ensures max { IfSome result (λ pool. max_of pool ≡ 32) }
    ensures none_lent { IfSome result (λ pool. lent_of pool ≡ 0) }
{
    let config = Config {
        max: 32,
        pool: 16,
        mpl: 1,
        main_pages: 64,
        temp_pages: 64,
    };
    let main = MemDevice::new(alloc, fail_reads, fail_writes);
    let temp = MemDevice::new(alloc, Vec::new(alloc), Vec::new(alloc));
    match Pool::new(alloc, &config, main, temp) {
        Ok(pool) => Some(pool),
        Err(_) => None,
    }
}

fn main_page(no: u32) -> PageId {
    PageId {
        file: File::Main,
        no,
    }
}

/// A new page, whose first byte is its number plus 1.
fn make(space: &mut Pool<MemDevice, MemDevice>, file: File) -> Result<u32, PageFault>
    requires none_out { NoneOut (⟦<Pool<MemDevice, MemDevice> as Pages>⟧.state space.old) }
    ensures none_out { NoneOut (⟦<Pool<MemDevice, MemDevice> as Pages>⟧.state space.new) }
    ensures max { max_of space.new ≡ max_of space.old }
    ensures lent { lent_of space.new ≡ lent_of space.old }
{
    let pin = space.fresh(file)?;
    let no = space.page_of(&pin).no;
    let bytes = space.bytes_mut(&pin);
    bytes[0] = (no % 255) as u8 + 1;
    space.unpin(pin);
    Ok(no)
}

/// So many new pages.
fn make_all(space: &mut Pool<MemDevice, MemDevice>, file: File, count: u32) -> Result<(), PageFault>
    requires none_out { NoneOut (⟦<Pool<MemDevice, MemDevice> as Pages>⟧.state space.old) }
    ensures none_out { NoneOut (⟦<Pool<MemDevice, MemDevice> as Pages>⟧.state space.new) }
    ensures max { max_of space.new ≡ max_of space.old }
    ensures lent { lent_of space.new ≡ lent_of space.old }
{
    for _turn in 0..count {
        make(space, file)?;
    }
    Ok(())
}

/// The first byte of a page; 0 where it may not be pinned.
fn first_byte(space: &mut Pool<MemDevice, MemDevice>, file: File, no: u32) -> Result<u8, PageFault>
    requires none_out { NoneOut (⟦<Pool<MemDevice, MemDevice> as Pages>⟧.state space.old) }
    ensures none_out { NoneOut (⟦<Pool<MemDevice, MemDevice> as Pages>⟧.state space.new) }
    ensures max { max_of space.new ≡ max_of space.old }
    ensures lent { lent_of space.new ≡ lent_of space.old }
{
    let page = PageId { file, no };
    if !space.can_pin(page) {
        return Ok(0);
    }
    let pin = space.pin(page)?;
    let first = space.bytes(&pin)[0];
    space.unpin(pin);
    Ok(first)
}

/// Gives a page back, if it may be given back.
fn give_back(space: &mut Pool<MemDevice, MemDevice>, file: File, no: u32) -> bool
    requires none_out { NoneOut (⟦<Pool<MemDevice, MemDevice> as Pages>⟧.state space.old) }
    ensures none_out { NoneOut (⟦<Pool<MemDevice, MemDevice> as Pages>⟧.state space.new) }
    ensures max { max_of space.new ≡ max_of space.old }
    ensures lent { lent_of space.new ≡ lent_of space.old }
{
    let page = PageId { file, no };
    if !space.can_pin(page) {
        return false;
    }
    space.release(page);
    true
}

/// The first byte of a page, which is taken for it and put back.
fn taken_byte(space: &mut Pool<MemDevice, MemDevice>, file: File, no: u32) -> Result<u8, PageFault>
    requires none_out { NoneOut (⟦<Pool<MemDevice, MemDevice> as Pages>⟧.state space.old) }
    requires none_lent { lent_of space.old ≡ 0 }
    ensures none_out { NoneOut (⟦<Pool<MemDevice, MemDevice> as Pages>⟧.state space.new) }
    ensures max { max_of space.new ≡ max_of space.old }
    ensures lent { lent_of space.new ≡ lent_of space.old }
{
    let page = PageId { file, no };
    if !space.can_pin(page) || space.current() < 16 {
        return Ok(0);
    }
    let chain = space.take_page(page)?;
    let first = match space.frame_of(page) {
        Some(frame) => chain.page(frame)[0],
        None => 0,
    };
    space.put_page(page, chain, false);
    Ok(first)
}

/// Another number of frames.
fn resize(space: &mut Pool<MemDevice, MemDevice>, n: u32) -> Result<(), PageFault>
    requires none_out { NoneOut (⟦<Pool<MemDevice, MemDevice> as Pages>⟧.state space.old) }
    requires at_least { 16 ≤ n }
    requires reserved { n ≤ max_of space.old }
    ensures none_out { NoneOut (⟦<Pool<MemDevice, MemDevice> as Pages>⟧.state space.new) }
    ensures max { max_of space.new ≡ max_of space.old }
    ensures lent { lent_of space.new ≡ lent_of space.old }
{
    match space.resize(n) {
        Ok(()) => Ok(()),
        Err(fault) => Err(fault),
    }
}

#[test]
fn pages_come_and_go(rt: HostRuntime) -> Result<(), Fail> {
    let alloc = rt.alloc();
    let Some(mut pool) = open(alloc, Vec::new(alloc), Vec::new(alloc)) else {
        assert!(rt; false, "want of memory");
        return Ok(());
    };
    // page 16 takes the frame of page 0, and so on to page 19: four writes
    let made = make_all(&mut pool, File::Main, 20);
    // then pages 4 to 7 leave their frames for pages 0 to 3: four writes and four reads
    let bytes = (
        first_byte(&mut pool, File::Main, 0),
        first_byte(&mut pool, File::Main, 1),
        first_byte(&mut pool, File::Main, 2),
        first_byte(&mut pool, File::Main, 3),
    );
    // these two are in frames
    let again = (
        first_byte(&mut pool, File::Main, 0),
        first_byte(&mut pool, File::Main, 19),
    );
    let seen = (pool.current(), pool.taken(File::Main), pool.main_faults());
    let max = pool.max();
    // page 19 came into the frame of page 3, and page 4 left its own
    let frames = (
        pool.frame_of(main_page(19)).map(|frame| frame.0),
        pool.frame_of(main_page(4)).map(|frame| frame.0),
    );
    let _ = pool.clock();
    let counts = pool.counts();
    let (main, temp) = pool.close();
    assert_eq!(rt; (frames, max), ((Some(3), None), 32));
    assert_eq!(rt; (made, bytes), (Ok(()), (Ok(1), Ok(2), Ok(3), Ok(4))));
    assert_eq!(rt; (again, seen), ((Ok(1), Ok(20)), (16, 20, 0)));
    let wanted = PoolCounts {
        reads: 4,
        writes: 8,
        evictions: 8,
    };
    assert_eq!(rt; counts, wanted);
    assert_eq!(rt; (main.reads(), temp.reads()), (4, 0));
    Ok(())
}

#[test]
fn faults_lose_nothing(rt: HostRuntime) -> Result<(), Fail> {
    let alloc = rt.alloc();
    let reads = Vec::from_slice(alloc, &[1])?;
    let writes = Vec::from_slice(alloc, &[1])?;
    let Some(mut pool) = open(alloc, reads, writes) else {
        assert!(rt; false, "want of memory");
        return Ok(());
    };
    // the first write is that of page 0, which stays in its frame; then page 1 leaves its own
    let made = (
        make_all(&mut pool, File::Main, 17),
        make(&mut pool, File::Main),
    );
    // the first read is that of page 1, for which page 2 left its frame, and then page 3
    let bytes = (
        first_byte(&mut pool, File::Main, 1),
        first_byte(&mut pool, File::Main, 1),
        first_byte(&mut pool, File::Main, 0),
    );
    let faults = (pool.main_faults(), pool.temp_faults());
    let counts = pool.counts();
    let (_main, _temp) = pool.close();
    assert_eq!(rt; made, (Err(PageFault::MainFault), Ok(16)));
    assert_eq!(rt; bytes, (Err(PageFault::MainFault), Ok(2), Ok(1)));
    let wanted = PoolCounts {
        reads: 2,
        writes: 4,
        evictions: 3,
    };
    assert_eq!(rt; (faults, counts), ((2, 0), wanted));
    Ok(())
}

#[test]
fn a_full_file(rt: HostRuntime) -> Result<(), Fail> {
    let alloc = rt.alloc();
    let Some(mut pool) = open(alloc, Vec::new(alloc), Vec::new(alloc)) else {
        assert!(rt; false, "want of memory");
        return Ok(());
    };
    let made = (
        make_all(&mut pool, File::Temp, 64),
        make(&mut pool, File::Temp),
    );
    let given = (
        give_back(&mut pool, File::Temp, 5),
        give_back(&mut pool, File::Temp, 5),
    );
    let lowest = (make(&mut pool, File::Temp), make(&mut pool, File::Main));
    let fulls = (pool.fulls(File::Main), pool.fulls(File::Temp));
    let (_main, _temp) = pool.close();
    assert_eq!(rt; made, (Ok(()), Err(PageFault::TempFull)));
    assert_eq!(rt; (given, lowest), ((true, false), (Ok(5), Ok(0))));
    assert_eq!(rt; fulls, (0, 1));
    Ok(())
}

#[test]
fn frames_come_and_go(rt: HostRuntime) -> Result<(), Fail> {
    let alloc = rt.alloc();
    let writes = Vec::from_slice(alloc, &[3])?;
    let Some(mut pool) = open(alloc, Vec::new(alloc), writes) else {
        assert!(rt; false, "want of memory");
        return Ok(());
    };
    // no page leaves a frame: the eight new frames are used by none
    let made = (
        make_all(&mut pool, File::Main, 16),
        resize(&mut pool, 24),
        make_all(&mut pool, File::Main, 8),
    );
    // pages 16 and 17 are written, page 18 is not, and all stay
    let refused = (resize(&mut pool, 16), pool.current(), pool.counts().writes);
    let stay = (
        pool.frame_of(main_page(16)).map(|frame| frame.0),
        pool.frame_of(main_page(23)).map(|frame| frame.0),
    );
    // then the six that are left are written
    let smaller = (resize(&mut pool, 16), pool.current(), pool.counts().writes);
    let gone = (
        pool.frame_of(main_page(15)).map(|frame| frame.0),
        pool.frame_of(main_page(16)).map(|frame| frame.0),
    );
    // none is lost
    let bytes = (
        first_byte(&mut pool, File::Main, 16),
        first_byte(&mut pool, File::Main, 18),
        first_byte(&mut pool, File::Main, 15),
    );
    let faults = (pool.main_faults(), pool.temp_faults());
    let (_main, _temp) = pool.close();
    assert_eq!(rt; made, (Ok(()), Ok(()), Ok(())));
    assert_eq!(rt; refused, (Err(PageFault::MainFault), 24, 3));
    assert_eq!(rt; stay, (Some(16), Some(23)));
    assert_eq!(rt; smaller, (Ok(()), 16, 9));
    assert_eq!(rt; gone, (Some(15), None));
    assert_eq!(rt; (bytes, faults), ((Ok(17), Ok(19), Ok(16)), (1, 0)));
    Ok(())
}

#[test]
fn pages_are_handed_out(rt: HostRuntime) -> Result<(), Fail> {
    let alloc = rt.alloc();
    let Some(mut pool) = open(alloc, Vec::new(alloc), Vec::new(alloc)) else {
        assert!(rt; false, "want of memory");
        return Ok(());
    };
    // page 16 takes the frame of page 0
    let made = make_all(&mut pool, File::Main, 17);
    // page 0 takes that of page 1: a write and a read; then both pages are in frames
    let bytes = (
        taken_byte(&mut pool, File::Main, 0),
        taken_byte(&mut pool, File::Main, 0),
        taken_byte(&mut pool, File::Main, 16),
    );
    let frames = (
        pool.frame_of(main_page(0)).map(|frame| frame.0),
        pool.frame_of(main_page(1)).map(|frame| frame.0),
    );
    let counts = pool.counts();
    let (_main, _temp) = pool.close();
    assert_eq!(rt; (made, bytes), (Ok(()), (Ok(1), Ok(1), Ok(17))));
    assert_eq!(rt; frames, (Some(1), None));
    let wanted = PoolCounts {
        reads: 1,
        writes: 2,
        evictions: 2,
    };
    assert_eq!(rt; counts, wanted);
    Ok(())
}

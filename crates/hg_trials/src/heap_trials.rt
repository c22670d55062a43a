//! A heap of 5,000 rows in a list, with directories of all of them, over a plain space. It is unlocked and
//! locked again behind every block of rows, so that its pages stand in other frames each time; it is read
//! back along both ways, and drained at the end.
//!
//! ```text
//! root 0 --> row 4,999 --> row 4,998 --> .. --> row 0
//! root 1 --> directory of 10 --> directories of 500 rows each
//! root 2 --> the directory that is filled
//! ```
ghost use Rattle.std.specs.Prelude.{◌≡◌, ℕ, ◌<◌, true, List, length, IsTrue, IsSome, OnOk};
ghost use Rattle.hg_base.specs.HeapStates.{IsLocked, object_in, pages_in};
ghost use Rattle.hg_trials.specs.OneHeap.{IsOne, IsWork, KeepsWork, IsUnlocked, IsResting, IsEmpty};

use hg_base::{
    Addr, HeapNo, Heaps, Ledger, NoRoom, PageFault, Pages, PlainSpace, Request, get_u32,
};
use hg_reloc::{next_object, object_at, verify};
use std::test::Fail;

/// How many rows there are, how many of them a directory has, and how many directories there are.
const ROWS: u32 = 5_000;

const BLOCK: u16 = 500;

const BLOCKS: u16 = 10;

/// Whether an object stands at an address.
fn is_object<H: Heaps>(heaps: &H, h: HeapNo, a: Addr) -> bool
    ensures { IsTrue result → IsSome (object_in (H.state heaps.now) h.0 a.word) }
{
    match heaps.peek(h, a) {
        Some(_) => true,
        None => match heaps.words(h, a) {
            Some(_) => true,
            None => false,
        },
    }
}

/// The row that a row leads to.
fn next_row<H: Heaps>(heaps: &H, h: HeapNo, row: Addr) -> Addr {
    match heaps.peek(h, row) {
        Some(_) => heaps.follow(h, row),
        None => Addr::nil(),
    }
}

/// The number that a row has.
fn number_of<H: Heaps>(heaps: &H, h: HeapNo, row: Addr) -> Option<u32> {
    match heaps.peek(h, row) {
        Some(bytes) => {
            if bytes.len() == 4 {
                Some(get_u32(bytes, 0))
            } else {
                None
            }
        }
        None => None,
    }
}

/// An address of a directory.
fn word_of<H: Heaps>(heaps: &H, h: HeapNo, dir: Addr, k: u16) -> Addr {
    match heaps.words(h, dir) {
        Some(count) => {
            if k < count {
                heaps.word(h, dir, k)
            } else {
                Addr::nil()
            }
        }
        None => Addr::nil(),
    }
}

/// Sets an address of a directory to an object.
fn set_word<H: Heaps>(heaps: &mut H, h: HeapNo, dir: Addr, k: u16, to: Addr)
    ensures { KeepsWork (H.state heaps.old) (H.state heaps.new) h.0 }
{
    let count = match heaps.words(h, dir) {
        Some(count) => count,
        None => return,
    };
    if k < count && is_object(heaps, h, to) {
        heaps.set_word(h, dir, k, to);
    }
}

/// A row in front of the list, if the last page has room.
fn place_row<H: Heaps>(heaps: &mut H, h: HeapNo, number: u32) -> Result<(), NoRoom>
    requires { IsLocked (H.state heaps.old) h.0 }
    ensures { KeepsWork (H.state heaps.old) (H.state heaps.new) h.0 }
{
    let first = heaps.root(h, 0);
    let row = heaps.place(h, &number.to_le_bytes(), first)?;
    heaps.set_root(h, 0, row);
    Ok(())
}

/// A directory at a root, if the last page has room.
fn place_directory<H: Heaps>(heaps: &mut H, h: HeapNo, root: u8, count: u16) -> Result<(), NoRoom>
    requires locked { IsLocked (H.state heaps.old) h.0 }
    requires four { root < 4 }
    ensures { KeepsWork (H.state heaps.old) (H.state heaps.new) h.0 }
{
    let dir = heaps.place_words(h, count)?;
    if is_object(heaps, h, dir) {
        heaps.set_root(h, root, dir);
    }
    Ok(())
}

/// A page more for the heap.
fn grow<H: Heaps>(heaps: &mut H, h: HeapNo, ledger: &mut Ledger) -> Result<(), PageFault>
    requires { IsWork (H.state heaps.old) h.0 ledger.old.held }
    ensures { IsWork (H.state heaps.new) h.0 ledger.new.held }
{
    if heaps.pages(h) >= 1_000 {
        return Err(PageFault::TempFull);
    }
    let grant = ledger.grant(Request(0));
    match heaps.add_page(h, grant) {
        Ok(()) => Ok(()),
        Err((fault, grant)) => {
            ledger.returned(grant);
            Err(fault)
        }
    }
}

/// A row in front of the list.
fn push_row<H: Heaps>(
    heaps: &mut H,
    h: HeapNo,
    ledger: &mut Ledger,
    number: u32,
) -> Result<(), PageFault>
    requires { IsWork (H.state heaps.old) h.0 ledger.old.held }
    ensures { IsWork (H.state heaps.new) h.0 ledger.new.held }
{
    match place_row(heaps, h, number) {
        Ok(()) => return Ok(()),
        Err(NoRoom) => {}
    }
    grow(heaps, h, ledger)?;
    match place_row(heaps, h, number) {
        Ok(()) => Ok(()),
        Err(NoRoom) => Err(PageFault::TempFull),
    }
}

/// A directory at a root.
fn push_directory<H: Heaps>(
    heaps: &mut H,
    h: HeapNo,
    ledger: &mut Ledger,
    root: u8,
    count: u16,
) -> Result<(), PageFault>
    requires work { IsWork (H.state heaps.old) h.0 ledger.old.held }
    requires four { root < 4 }
    ensures { IsWork (H.state heaps.new) h.0 ledger.new.held }
{
    match place_directory(heaps, h, root, count) {
        Ok(()) => return Ok(()),
        Err(NoRoom) => {}
    }
    grow(heaps, h, ledger)?;
    match place_directory(heaps, h, root, count) {
        Ok(()) => Ok(()),
        Err(NoRoom) => Err(PageFault::TempFull),
    }
}

/// The first rows of the list into the directory at root 2, which becomes one of those at root 1.
fn fill_block<H: Heaps>(heaps: &mut H, h: HeapNo, k: u16)
    requires { IsLocked (H.state heaps.old) h.0 }
    ensures { KeepsWork (H.state heaps.old) (H.state heaps.new) h.0 }
{
    let dir = heaps.root(h, 2);
    let top = heaps.root(h, 1);
    let mut row = heaps.root(h, 0);
    for i in 0..BLOCK {
        set_word(heaps, h, dir, i, row);
        row = next_row(heaps, h, row);
    }
    set_word(heaps, h, top, k, dir);
}

/// The pages of the heap go to other frames.
fn move_pages<H: Heaps>(heaps: &mut H, h: HeapNo, ledger: &Ledger) -> Result<(), PageFault>
    requires { IsWork (H.state heaps.old) h.0 ledger.now.held }
    ensures { OnOk result (IsWork (H.state heaps.new) h.0 ledger.now.held) }
{
    if heaps.pages(h) >= 1_000 {
        return Err(PageFault::TempFull);
    }
    heaps.unlock(h);
    heaps.lock(h)
}

/// A block of rows, and a directory of them.
fn push_block<H: Heaps>(
    heaps: &mut H,
    h: HeapNo,
    ledger: &mut Ledger,
    k: u16,
) -> Result<(), PageFault>
    requires { IsWork (H.state heaps.old) h.0 ledger.old.held }
    ensures { OnOk result (IsWork (H.state heaps.new) h.0 ledger.new.held) }
{
    for i in 0..BLOCK {
        push_row(heaps, h, ledger, k as u32 * BLOCK as u32 + i as u32)?;
    }
    push_directory(heaps, h, ledger, 2, BLOCK)?;
    fill_block(heaps, h, k);
    move_pages(heaps, h, ledger)
}

/// All rows and all directories.
fn build<H: Heaps>(heaps: &mut H, h: HeapNo, ledger: &mut Ledger) -> Result<(), PageFault>
    requires { IsWork (H.state heaps.old) h.0 ledger.old.held }
    ensures { OnOk result (IsWork (H.state heaps.new) h.0 ledger.new.held) }
{
    push_directory(heaps, h, ledger, 1, BLOCKS)?;
    for k in 0..BLOCKS {
        push_block(heaps, h, ledger, k)?;
    }
    Ok(())
}

/// Whether the list has all rows, the last one first.
fn lists_all<H: Heaps>(heaps: &H, h: HeapNo) -> bool
    requires { IsLocked (H.state heaps.now) h.0 }
{
    let mut row = heaps.root(h, 0);
    for number in (0..ROWS).rev() {
        if number_of(heaps, h, row) != Some(number) {
            return false;
        }
        row = next_row(heaps, h, row);
    }
    row.is_nil()
}

/// Whether the directories have all rows.
fn names_all<H: Heaps>(heaps: &H, h: HeapNo) -> bool
    requires { IsLocked (H.state heaps.now) h.0 }
{
    let top = heaps.root(h, 1);
    for k in 0..BLOCKS {
        let dir = word_of(heaps, h, top, k);
        for i in 0..BLOCK {
            let row = word_of(heaps, h, dir, BLOCK - 1 - i);
            let number = k as u32 * BLOCK as u32 + i as u32;
            if number_of(heaps, h, row) != Some(number) {
                return false;
            }
        }
    }
    true
}

/// How many rows a heap's page has, if it is one.
fn rows_on(page: &[u8]) -> u32 {
    if verify(page, 65_536).is_err() {
        return 0;
    }
    let mut at = 64;
    let mut count: u32 = 0;
    for _turn in 0..252 {
        match object_at(page, at) {
            Some(object) => {
                if object.kind == 1 {
                    count = count.saturating_add(1);
                }
            }
            None => return count,
        }
        match next_object(page, at) {
            Some(next) => at = next,
            None => return count,
        }
    }
    count
}

/// Gives one page of the heap back, and tells how many rows it has.
fn drain_one<H: Heaps>(heaps: &mut H, h: HeapNo, ledger: &mut Ledger) -> Result<u32, PageFault>
    requires rests { IsResting (H.state heaps.old) h.0 ledger.old.held }
    requires some { 0 < length (pages_in ((H.state heaps.old).heaps.heap h.0)) }
    ensures { OnOk result (IsResting (H.state heaps.new) h.0 ledger.new.held) }
{
    let mut page: [u8; 4096] = [0; 4096];
    let grant = heaps.drain(h, &mut page)?;
    ledger.returned(grant);
    Ok(rows_on(&page))
}

/// Gives all pages of the heap back, and tells how many rows they have.
fn drain_all<H: Heaps>(heaps: &mut H, h: HeapNo, ledger: &mut Ledger) -> Result<u32, PageFault>
    requires { IsResting (H.state heaps.old) h.0 ledger.old.held }
    ensures { OnOk result (IsResting (H.state heaps.new) h.0 ledger.new.held) }
{
    let mut count: u32 = 0;
    for _turn in 0..1_000 {
        if heaps.pages(h) == 0 {
            return Ok(count);
        }
        count = count.saturating_add(drain_one(heaps, h, ledger)?);
    }
    Ok(count)
}

/// What the trial saw: whether both ways had all rows, the pages of the heap and the most that it had, and
/// how many rows were drained.
#[derive(Clone, Copy, PartialEq, Eq, Debug)]
struct Seen {
    listed: bool,
    named: bool,
    pages: u32,
    peak: u32,
    drained: u32,
}

/// The whole trial.
fn run_trial<H: Heaps>(heaps: &mut H, ledger: &mut Ledger) -> Result<Seen, PageFault>
    requires { IsEmpty (H.state heaps.old) ledger.old.held }
{
    let grant = ledger.grant(Request(0));
    let h = match heaps.make(grant) {
        Ok(h) => h,
        Err((fault, grant)) => {
            ledger.returned(grant);
            return Err(fault);
        }
    };
    build(heaps, h, ledger)?;
    let listed = lists_all(heaps, h);
    let named = names_all(heaps, h);
    let pages = heaps.pages(h);
    let peak = heaps.peak(Request(0));
    heaps.unlock(h);
    let drained = drain_all(heaps, h, ledger)?;
    let grant = heaps.drop_heap(h);
    ledger.returned(grant);
    Ok(Seen {
        listed,
        named,
        pages,
        peak,
        drained,
    })
}

#[test]
fn five_thousand_rows_in_a_heap(rt: HostRuntime) -> Result<(), Fail> {
    let mut space = PlainSpace::new(rt.alloc());
    let mut ledger = Ledger::new();
    let seen = run_trial(&mut space, &mut ledger)?;
    // 11 directories, and 126 rows of 32 bytes on each page beside them
    let whole = Seen {
        listed: true,
        named: true,
        pages: seen.pages,
        peak: seen.pages,
        drained: 5_000,
    };
    assert_eq!(rt; seen, whole);
    assert!(rt; seen.pages >= 50 && seen.pages <= 60);
    assert_eq!(rt;
        (ledger.held(Request(0)), space.taken(hg_base::File::Temp)),
        (0, 0)
    );
    Ok(())
}

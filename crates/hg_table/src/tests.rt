//! Tables over a plain space, of many rows and of one that dies, stamps, and damaged pages under the
//! readers.
ghost use Rattle.std.specs.Prelude.{◌≡◌, true, Some, OnOk, IfOk, IfSome};
ghost use Rattle.hg_table.specs.Calls.{HasVersion};
ghost use Rattle.hg_table.specs.Kept.{IsReady, IsReadyAt};
ghost use Rattle.hg_base.specs.Space.{NoPins};

use crate::kill::kill_in;
use crate::reading::{read_in, version_in};
use crate::seeking::next_seen;
use crate::walk::next_slot;
use crate::{Stamps, TableCalls};
use hg_base::{Check, File, PageFault, Pages, Place, PlainSpace, Stamp, Table};
use hg_model::{Chars, Value};
use hg_value::Row;
use std::test::Fail;

/// How many bytes a row has at the most and at the least.
const LONGEST: usize = 1000;

const SHORTEST: usize = 4;

/// A text of so many letters, at most 255.
fn letters(count: usize) -> Value {
    let bytes = [b'a'; 255];
    let end = count.min(255);
    match str::from_utf8(&bytes[..end]) {
        Ok(text) => Chars::parse(text).map_or(Value::Null, Value::Text),
        Err(_) => Value::Null,
    }
}

/// A row of four texts or NULLs that has so many bytes, from 4 to 1,000.
fn sized_row(bytes: usize) -> Row {
    let mut row = Row::new();
    let mut left = bytes;
    for others in [3usize, 2, 1, 0] {
        let value = if left >= others + 2 {
            letters(left - others - 2)
        } else {
            Value::Null
        };
        let before = row.bytes().len();
        let _ = row.push(&value);
        left = left.saturating_sub(row.bytes().len().saturating_sub(before));
    }
    row
}

/// How many bytes the row of this number has.
fn size_of_row(number: u32) -> usize {
    SHORTEST + number as usize % (LONGEST - SHORTEST + 1)
}

/// Puts a row of four values into a table. None where the row is none that may be put there.
fn add<S: Pages>(
    table: &mut Table,
    space: &mut S,
    row: &Row,
    born: Stamp,
) -> Result<Option<Place>, PageFault>
    requires { IsReady (S.state space.old) table.old 4 }
    ensures ready { OnOk result (IsReady (S.state space.new) table.new 4) }
    ensures there { IfOk result (λ o. IfSome o (λ p. (S.state space.new).told ≡ true
        → HasVersion (S.state space.new) table.new 4 p)) }
{
    if row.bytes().len() > LONGEST || row.len() != 4 {
        return Ok(None);
    }
    let place = table.insert(space, row, born)?;
    Ok(Some(place))
}

/// Puts so many rows into a table.
fn fill<S: Pages>(
    table: &mut Table,
    space: &mut S,
    count: u32,
    born: Stamp,
) -> Result<u32, PageFault>
    requires { IsReady (S.state space.old) table.old 4 }
    ensures { OnOk result (IsReady (S.state space.new) table.new 4) }
{
    let mut put: u32 = 0;
    for number in 0..count {
        let row = sized_row(size_of_row(number));
        if add(table, space, &row, born)?.is_some() {
            put = put.saturating_add(1);
        }
    }
    Ok(put)
}

/// The next row behind a place, where the snapshot sees it, and whether it is the row of this number.
fn step<S: Pages>(
    table: &Table,
    space: &mut S,
    at: Option<Place>,
    number: u32,
    snapshot: Stamp,
    stamps: &Stamps,
    out: &mut Row,
) -> Result<Option<(Place, bool)>, PageFault>
    requires { IsReadyAt (S.state space.old) table.now 4 at }
    ensures { IfOk result (λ o. IfSome o (λ p. IsReadyAt (S.state space.new) table.now 4
        (Some p.0))) }
{
    let Some(place) = table.after(space, at)? else {
        return Ok(None);
    };
    let seen = table.read(space, place, 4, snapshot, stamps, out)?;
    let right = seen && out.bytes() == sized_row(size_of_row(number)).bytes();
    Ok(Some((place, right)))
}

/// How many rows of a table are those that were put there, in order.
fn count_rows<S: Pages>(
    table: &Table,
    space: &mut S,
    most: u32,
    snapshot: Stamp,
    stamps: &Stamps,
) -> Result<u32, PageFault>
    requires { IsReady (S.state space.old) table.now 4 }
{
    let mut out = Row::new();
    let mut at = None;
    let mut right: u32 = 0;
    for number in 0..most {
        let Some((place, is_right)) = step(table, space, at, number, snapshot, stamps, &mut out)?
        else {
            return Ok(right);
        };
        if is_right {
            right = right.saturating_add(1);
        }
        at = Some(place);
    }
    Ok(right)
}

/// How many rows of a table a snapshot sees, at most so many.
fn count_seen<S: Pages>(
    table: &Table,
    space: &mut S,
    most: u32,
    snapshot: Stamp,
    stamps: &Stamps,
) -> Result<u32, PageFault>
    requires { IsReady (S.state space.old) table.now 4 }
{
    let mut out = Row::new();
    let mut at = None;
    let mut seen: u32 = 0;
    for _turn in 0..most {
        let Some(place) = table.next_visible(space, at, 4, snapshot, stamps, &mut out)? else {
            return Ok(seen);
        };
        seen = seen.saturating_add(1);
        at = Some(place);
    }
    Ok(seen)
}

/// A table of no page.
fn no_table<S: Pages>(space: &S) -> Table
    requires { NoPins (S.state space.now) }
    ensures { IsReady (S.state space.now) result 4 }
{
    Table {
        first: None,
        last: None,
    }
}

/// The rows that were put, those that a snapshot sees, and the pages taken.
fn round<S: Pages>(
    space: &mut S,
    count: u32,
    stamps: &Stamps,
    born: Stamp,
) -> Result<(u32, u32, u32), PageFault>
    requires { NoPins (S.state space.old) }
{
    let mut table = no_table(space);
    let put = fill(&mut table, space, count, born)?;
    let seen = count_rows(&table, space, 20_000, born, stamps)?;
    Ok((put, seen, space.taken(File::Main)))
}

/// Commits a stamp that was drawn.
fn commit(stamps: &mut Stamps, stamp: Stamp) {
    if 0 < stamp.0 && stamp.0 <= stamps.last().0 {
        stamps.commit(stamp);
    }
}

/// How many rows a snapshot sees of those that are born under these stamps, one after the other.
fn seen_of<S: Pages>(
    space: &mut S,
    borns: &[u32],
    snapshot: Stamp,
    stamps: &Stamps,
) -> Result<u32, PageFault>
    requires { NoPins (S.state space.old) }
{
    let mut table = no_table(space);
    for born in borns {
        let _ = add(&mut table, space, &sized_row(LONGEST), Stamp(*born))?;
    }
    count_seen(&table, space, 100, snapshot, stamps)
}

#[test]
fn rows_that_are_seen(rt: HostRuntime) -> Result<(), Fail> {
    let mut stamps = Stamps::new(rt.alloc())?;
    for _turn in 0..4u8 {
        let _ = stamps.draw();
    }
    // 1 and 3 are committed, 2 and 4 are not; a page has four of these rows
    commit(&mut stamps, Stamp(1));
    commit(&mut stamps, Stamp(3));
    let borns = [2, 1, 2, 2, 2, 4, 4, 2, 2, 1, 3, 2, 4, 2, 2, 2, 2, 3, 1, 2];
    for (snapshot, want) in [(0, 0), (1, 3), (2, 3), (3, 5), (4, 5)] {
        let mut space = PlainSpace::new(rt.alloc());
        assert_eq!(rt;
            seen_of(&mut space, &borns, Stamp(snapshot), &stamps)?,
            want,
            "{snapshot}"
        );
    }
    Ok(())
}

#[test]
fn many_rows(rt: HostRuntime) -> Result<(), Fail> {
    let mut space = PlainSpace::new(rt.alloc());
    let mut stamps = Stamps::new(rt.alloc())?;
    let born = stamps.draw().ok_or("no stamp")?;
    commit(&mut stamps, born);
    // row i has 4 + i % 997 bytes, its record 8 more and its slot 4: 5,127,000 bytes in all, which are
    // at least 1,257 pages of 4,080; rows that go to the last page alone leave a part of each page
    assert_eq!(rt;
        round(&mut space, 10_000, &stamps, born)?,
        (10_000, 10_000, 1_361)
    );
    Ok(())
}

#[test]
fn stamps_in_order(rt: HostRuntime) -> Result<(), Fail> {
    let mut stamps = Stamps::new(rt.alloc())?;
    assert_eq!(rt; stamps.last(), Stamp(0));
    let first = stamps.draw().ok_or("no stamp")?;
    let second = stamps.draw().ok_or("no stamp")?;
    assert_eq!(rt;
        (first, second, stamps.last()),
        (Stamp(1), Stamp(2), Stamp(2))
    );
    commit(&mut stamps, second);
    assert!(rt; !stamps.is_committed(Stamp(0)) && !stamps.is_committed(first));
    assert!(rt; stamps.is_committed(second) && !stamps.is_committed(Stamp(3)));
    let mut drawn: u32 = 2;
    for _turn in 0..1_048_580u32 {
        if stamps.draw().is_some() {
            drawn = drawn.saturating_add(1);
        }
    }
    assert_eq!(rt; (drawn, stamps.last()), (1_048_576, Stamp(1_048_576)));
    Ok(())
}

/// A page with these bytes at its front and these at its end, and zeros between them.
fn page_of(front: &[u8], end: &[u8]) -> [u8; 4096] {
    let mut page = [0; 4096];
    if front.len() <= 4096 {
        page[..front.len()].copy_from_slice(front);
    }
    if end.len() <= 4096 {
        let from = 4096 - end.len();
        page[from..].copy_from_slice(end);
    }
    page
}

/// What a page answers that is searched for a version that a snapshot sees, one that is looked at from
/// its first slot on, a read and a version of its first slot, and a death there.
fn answers(page: &[u8; 4096], stamps: &Stamps) -> [Option<Check>; 5] {
    let mut out = Row::new();
    let mut copy = *page;
    [
        next_seen(page, 0, 1, Stamp(1), stamps, &mut out).err(),
        next_slot(page, 0).err(),
        read_in(page, 0, 1, Stamp(1), stamps, &mut out).err(),
        version_in(page, 0, 1, &mut out).err(),
        kill_in(&mut copy, 0, Stamp(1)).err(),
    ]
}

#[test]
fn damaged_pages(rt: HostRuntime) -> Result<(), Fail> {
    let mut stamps = Stamps::new(rt.alloc())?;
    let born = stamps.draw().ok_or("no stamp")?;
    commit(&mut stamps, born);
    let kind = Some(Check::Kind);
    let size = Some(Check::Size);
    let row = Some(Check::RowBytes);
    // a page of zeros
    let page = page_of(&[], &[]);
    assert_eq!(rt; answers(&page, &stamps), [kind, kind, kind, kind, kind]);
    // 129 slots, that end at 532 = 0x0214
    let page = page_of(&[0x53, 0, 129, 0, 0x14, 2], &[]);
    assert_eq!(rt; answers(&page, &stamps), [size, size, size, size, size]);
    // records of 9 bytes at 4080 = 0x0FF0 and of 8 at 4088, which share a byte: none of these calls looks
    // at both; the first one is born under 0, so that no snapshot sees it, and has no row
    let front = [
        0x53, 0, 2, 0, 0xF0, 0x0F, 0, 0, 0, 0, 0, 0, 0, 0, 0, 0, 0xF0, 0x0F, 9, 0, 0xF8, 0x0F, 8, 0,
    ];
    let page = page_of(&front, &[7; 8]);
    assert_eq!(rt; answers(&page, &stamps), [None, None, None, row, None]);
    // one record of 9 bytes at 4087 = 0x0FF7: born under 1, not dead, and a byte that begins no value
    let front = [
        0x53, 0, 1, 0, 0xF7, 0x0F, 0, 0, 0, 0, 0, 0, 0, 0, 0, 0, 0xF7, 0x0F, 9, 0,
    ];
    let page = page_of(&front, &[1, 0, 0, 0, 0, 0, 0, 0, 9]);
    assert_eq!(rt; answers(&page, &stamps), [row, None, row, row, None]);
    // the same with a row of one NULL
    let page = page_of(&front, &[1, 0, 0, 0, 0, 0, 0, 0, 0]);
    assert_eq!(rt; answers(&page, &stamps), [None, None, None, None, None]);
    // one record of 5 bytes at 4091 = 0x0FFB, too short for two stamps
    let front = [
        0x53, 0, 1, 0, 0xFB, 0x0F, 0, 0, 0, 0, 0, 0, 0, 0, 0, 0, 0xFB, 0x0F, 5, 0,
    ];
    let page = page_of(&front, &[1, 0, 0, 0, 0]);
    assert_eq!(rt; answers(&page, &stamps), [row, None, row, row, row]);
    // no record: nothing to see, and no version
    let page = page_of(&[0x53, 0, 0, 0, 0, 0x10], &[]);
    assert_eq!(rt; answers(&page, &stamps), [None, None, None, row, row]);
    Ok(())
}

/// What a snapshot sees of bytes of stamps before a row of one NULL.
fn sees(born: u8, died: u8, snapshot: u32, stamps: &Stamps) -> Option<bool> {
    let front = [
        0x53, 0, 1, 0, 0xF7, 0x0F, 0, 0, 0, 0, 0, 0, 0, 0, 0, 0, 0xF7, 0x0F, 9, 0,
    ];
    let page = page_of(&front, &[born, 0, 0, 0, died, 0, 0, 0, 0]);
    let mut out = Row::new();
    read_in(&page, 0, 1, Stamp(snapshot), stamps, &mut out).ok()
}

#[test]
fn snapshots(rt: HostRuntime) -> Result<(), Fail> {
    let mut stamps = Stamps::new(rt.alloc())?;
    for _turn in 0..4u8 {
        let _ = stamps.draw();
    }
    // 1 and 3 are committed, 2 and 4 are not
    commit(&mut stamps, Stamp(1));
    commit(&mut stamps, Stamp(3));
    let yes = Some(true);
    let no = Some(false);
    for (born, died, snapshot, want) in [
        (1, 0, 1, yes),
        (1, 0, 0, no),
        (2, 0, 4, no),
        (3, 0, 2, no),
        (3, 0, 3, yes),
        (1, 3, 2, yes),
        (1, 3, 3, no),
        (1, 2, 4, yes),
        (0, 0, 4, no),
    ] {
        assert_eq!(rt;
            sees(born, died, snapshot, &stamps),
            want,
            "{born} {died} {snapshot}"
        );
    }
    Ok(())
}

/// Whether a snapshot sees the row at a place.
fn is_seen_at<S: Pages>(
    table: &Table,
    space: &mut S,
    place: Place,
    snapshot: Stamp,
    stamps: &Stamps,
) -> Result<bool, PageFault>
    requires out { NoPins (S.state space.old) }
    requires there { (S.state space.old).told ≡ true → HasVersion (S.state space.old) table.now 4 place }
    ensures out { OnOk result (NoPins (S.state space.new)) }
    ensures there { OnOk result ((S.state space.new).told ≡ true
        → HasVersion (S.state space.new) table.now 4 place) }
{
    let mut out = Row::new();
    table.read(space, place, 4, snapshot, stamps, &mut out)
}

/// Kills the row at a place under a stamp. Under 0, which is none, nothing is done.
fn die<S: Pages>(
    table: &mut Table,
    space: &mut S,
    place: Place,
    died: Stamp,
) -> Result<(), PageFault>
    requires out { NoPins (S.state space.old) }
    requires there { (S.state space.old).told ≡ true → HasVersion (S.state space.old) table.old 4 place }
    ensures out { OnOk result (NoPins (S.state space.new)) }
    ensures there { OnOk result ((S.state space.new).told ≡ true
        → HasVersion (S.state space.new) table.new 4 place) }
{
    if died.0 == 0 {
        return Ok(());
    }
    table.kill(space, place, died)
}

/// Whether a snapshot sees a row that was born under 1: before it dies, once it died under a stamp,
/// and once that stamp is committed.
fn life<S: Pages>(
    space: &mut S,
    died: Stamp,
    snapshot: Stamp,
    stamps: &mut Stamps,
) -> Result<Option<[bool; 3]>, PageFault>
    requires { NoPins (S.state space.old) }
{
    let mut table = no_table(space);
    let Some(place) = add(&mut table, space, &sized_row(SHORTEST), Stamp(1))? else {
        return Ok(None);
    };
    let before = is_seen_at(&table, space, place, snapshot, stamps)?;
    die(&mut table, space, place, died)?;
    let dead = is_seen_at(&table, space, place, snapshot, stamps)?;
    commit(stamps, died);
    let committed = is_seen_at(&table, space, place, snapshot, stamps)?;
    Ok(Some([before, dead, committed]))
}

#[test]
fn deaths(rt: HostRuntime) -> Result<(), Fail> {
    // each of these snapshots sees the row, also once it died; where the stamp of its death is committed,
    // those before that stamp see it still, and those from it on see it no more
    for (died, snapshot, want) in [
        (2, 1, [true, true, true]),
        (2, 2, [true, true, false]),
        (2, 4, [true, true, false]),
        (3, 2, [true, true, true]),
        (3, 3, [true, true, false]),
    ] {
        let mut space = PlainSpace::new(rt.alloc());
        let mut stamps = Stamps::new(rt.alloc())?;
        for _turn in 0..4u8 {
            let _ = stamps.draw();
        }
        commit(&mut stamps, Stamp(1));
        assert_eq!(rt;
            life(&mut space, Stamp(died), Stamp(snapshot), &mut stamps)?,
            Some(want),
            "{died} {snapshot}"
        );
    }
    Ok(())
}

/// The row 258, 'ab', NULL, NULL.
fn small_row() -> Row {
    let mut row = Row::new();
    let _ = row.push(&Value::Int(258));
    let _ = row.push(&Chars::parse("ab").map_or(Value::Null, Value::Text));
    let _ = row.push(&Value::Null);
    let _ = row.push(&Value::Null);
    row
}

/// The stamps of the version at a place, and whether its row has these bytes.
fn version_at<S: Pages>(
    table: &Table,
    space: &mut S,
    place: Place,
    bytes: &[u8],
) -> Result<(Stamp, Option<Stamp>, bool), PageFault>
    requires out { NoPins (S.state space.old) }
    requires there { (S.state space.old).told ≡ true → HasVersion (S.state space.old) table.now 4 place }
    ensures out { OnOk result (NoPins (S.state space.new)) }
    ensures there { OnOk result ((S.state space.new).told ≡ true
        → HasVersion (S.state space.new) table.now 4 place) }
{
    let mut out = Row::new();
    let (born, died) = table.version(space, place, 4, &mut out)?;
    Ok((born, died, out.bytes() == bytes))
}

/// The version of a row that was born under 7 and has these bytes: before it dies, once it died under
/// 300, and once it died under 2 over that.
fn two_deaths<S: Pages>(
    space: &mut S,
    bytes: &[u8],
) -> Result<Option<[(Stamp, Option<Stamp>, bool); 3]>, PageFault>
    requires { NoPins (S.state space.old) }
{
    let mut table = no_table(space);
    let Some(place) = add(&mut table, space, &small_row(), Stamp(7))? else {
        return Ok(None);
    };
    let alive = version_at(&table, space, place, bytes)?;
    die(&mut table, space, place, Stamp(300))?;
    let dead = version_at(&table, space, place, bytes)?;
    die(&mut table, space, place, Stamp(2))?;
    let again = version_at(&table, space, place, bytes)?;
    Ok(Some([alive, dead, again]))
}

#[test]
fn a_death_over_a_death(rt: HostRuntime) -> Result<(), Fail> {
    let mut space = PlainSpace::new(rt.alloc());
    // 258 is 2 and once 256; a is 97 and b is 98
    let bytes = [1, 2, 1, 0, 0, 2, 2, 97, 98, 0, 0];
    assert_eq!(rt;
        two_deaths(&mut space, &bytes)?,
        Some([
            (Stamp(7), None, true),
            (Stamp(7), Some(Stamp(300)), true),
            (Stamp(7), Some(Stamp(2)), true)
        ])
    );
    Ok(())
}

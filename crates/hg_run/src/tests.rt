//! Runs over a plain space: pages counted by hand, a position read to its end, all pages given back.
ghost use Rattle.std.specs.Prelude.{◌≤◌, ◌^◌, length};
ghost use Rattle.hg_base.specs.Space.{NoPins};
ghost use Rattle.hg_run.specs.Calls.{HasWay};
ghost use Rattle.hg_run.specs.Kept.{IsReady};

use crate::{Run, RunPos};
use arrayvec::ArrayVec;
use hg_base::{File, PageFault, Pages, PlainSpace};
use std::test::Fail;

/// So many records of one length.
#[derive(Clone, Copy)]
struct Many {
    times: u32,
    length: usize,
}

/// What was found of a run: the pages that it took, its records as it counts them, how many were read
/// back as they were put, the bytes of those, whether the end is told again, and the pages that it
/// leaves behind.
#[derive(Clone, Copy, PartialEq, Eq, Debug)]
struct Totals {
    pages: u32,
    records: u64,
    right: u64,
    bytes: usize,
    ends: bool,
    left: u32,
}

/// The first and the last byte of the record of this number.
fn mark(number: u64) -> u8 {
    (number % 251) as u8 + 1
}

/// Puts a record behind the others.
fn put<S: Pages>(run: &mut Run, space: &mut S, bytes: &[u8]) -> Result<(), PageFault>
    requires ready { IsReady (S.state space.old) run.old }
    requires some { 1 ≤ length bytes.now }
    requires few { length bytes.now ≤ 4000 }
    ensures { IsReady (S.state space.new) run.new }
{
    run.append(space, bytes)
}

/// Puts so many records of one length behind the others.
fn fill<S: Pages>(run: &mut Run, space: &mut S, many: Many) -> Result<(), PageFault>
    requires { IsReady (S.state space.old) run.old }
    ensures { IsReady (S.state space.new) run.new }
{
    let mut bytes = [0u8; 4000];
    if many.length == 0 || many.length > 4000 {
        return Ok(());
    }
    for _turn in 0..many.times {
        bytes[0] = mark(run.records);
        bytes[many.length - 1] = mark(run.records);
        put(run, space, &bytes[..many.length])?;
    }
    Ok(())
}

/// Reads the record behind a position.
fn take<S: Pages>(
    run: &Run,
    space: &mut S,
    at: &mut RunPos,
    out: &mut ArrayVec<u8, 4000>,
) -> Result<bool, PageFault>
    requires no_pins { NoPins (S.state space.old) }
    requires way { HasWay (S.state space.old) run.now at.old }
    ensures no_pins { NoPins (S.state space.new) }
    ensures way { HasWay (S.state space.new) run.now at.new }
    ensures ready { IsReady (S.state space.old) run.now → IsReady (S.state space.new) run.now }
{
    run.read(space, at, out)
}

/// Whether a record is the one of this number.
fn is_right(bytes: &[u8], number: u64) -> bool {
    bytes.first() == Some(&mark(number)) && bytes.last() == Some(&mark(number))
}

/// Reads a run to its end, and once more.
fn read_all<S: Pages>(run: &Run, space: &mut S) -> Result<Totals, PageFault>
    requires { IsReady (S.state space.old) run.now }
    ensures { IsReady (S.state space.new) run.now }
{
    let mut totals = Totals {
        pages: space.taken(File::Temp),
        records: run.records,
        right: 0,
        bytes: 0,
        ends: false,
        left: 0,
    };
    let mut at = RunPos::start();
    let mut out = ArrayVec::new();
    for number in 0..10_000u64 {
        if !take(run, space, &mut at, &mut out)? {
            totals.ends = !take(run, space, &mut at, &mut out)?;
            return Ok(totals);
        }
        totals.bytes = totals.bytes.saturating_add(out.len());
        if is_right(out.as_slice(), number) {
            totals.right = totals.right.saturating_add(1);
        }
    }
    Ok(totals)
}

/// Writes a run, reads it to its end and gives its pages back.
fn round<S: Pages>(space: &mut S, first: Many, second: Many) -> Result<Totals, PageFault>
    requires no_pins { NoPins (S.state space.old) }
    requires numbers { (S.state space.old).limit File.Temp ≤ 2 ^ 32 }
{
    let mut run = Run::new();
    fill(&mut run, space, first)?;
    fill(&mut run, space, second)?;
    let totals = read_all(&run, space)?;
    run.destroy(space);
    Ok(Totals {
        left: space.taken(File::Temp),
        ..totals
    })
}

/// What is to be found of a run of these records on so many pages.
fn whole(pages: u32, first: Many, second: Many) -> Totals {
    let records = first.times as u64 + second.times as u64;
    let bytes = (first.times as usize)
        .saturating_mul(first.length)
        .saturating_add((second.times as usize).saturating_mul(second.length));
    Totals {
        pages,
        records,
        right: records,
        bytes,
        ends: true,
        left: 0,
    }
}

fn of(times: u32, length: usize) -> Many {
    Many { times, length }
}

#[test]
fn pages_by_hand(rt: HostRuntime) -> Result<(), Fail> {
    // a page has 4,080 bytes behind its head, and a record takes 2 more than its own
    for (first, second, pages) in [
        (of(0, 1), of(0, 1), 0),
        (of(1, 1), of(0, 1), 1),
        (of(1_360, 1), of(0, 1), 1),
        (of(1_361, 1), of(0, 1), 2),
        (of(1, 4_000), of(1, 76), 1),
        (of(1, 4_000), of(1, 77), 2),
        (of(7, 4_000), of(0, 1), 7),
        (of(2, 2_038), of(1, 1), 2),
        (of(3, 2_039), of(2, 2_037), 4),
        (of(40, 100), of(1, 1), 2),
        (of(5, 4_000), of(27, 1), 6),
    ] {
        let mut space = PlainSpace::new(rt.alloc());
        assert_eq!(rt;
            round(&mut space, first, second)?,
            whole(pages, first, second)
        );
    }
    Ok(())
}

//! Thirty INSERTs, UPDATEs and DELETEs over 301 rows in a pool of 16 frames, of which one call of a device
//! fails: each read and each write of either device, from 1 to 200 behind those that make the table. All lines
//! are as without the fault, but for the one statement that met it: a change answers the device's error and did
//! not happen, and a SELECT gives some of its rows, each once, and then that error and `closed *`. And files that
//! are too small for an UPDATE: nothing of it happened, and the next statements are answered.

use crate::changes::{Change, Changed, FIRST, add_changes, table_of, text_of};
use crate::counted::Counted;
use crate::engine_run::{Files, run_over};
use crate::standing::Lines;
use hg_io::{MemDevice, MemSource};
use std::alloc::{AllocError, Global};
use std::process::Abort;
use std::test::Fail;

const MAIN_FAULT: &[u8] = b"error 17 main device fault";

const TEMP_FAULT: &[u8] = b"error 18 temp device fault";

const MAIN_FULL: &[u8] = b"error 19 main full";

const TEMP_FULL: &[u8] = b"error 20 temp full";

/// How many pages the table has at first.
const PAGES: u32 = 43;

/// A device, and a kind of its calls.
#[derive(Clone, Copy, PartialEq, Eq, Debug)]
enum Call {
    MainRead,
    MainWrite,
    TempRead,
    TempWrite,
}

/// What a script gave: its replies, and how often each kind of call came.
#[derive(Drop)]
struct Given {
    replies: Vec<u8>,
    main: (u64, u64),
    temp: (u64, u64),
}

impl Given {
    fn calls(&self, kind: Call) -> u64 {
        match kind {
            Call::MainRead => self.main.0,
            Call::MainWrite => self.main.1,
            Call::TempRead => self.temp.0,
            Call::TempWrite => self.temp.1,
        }
    }
}

/// A device in memory of which the call of this number fails, if it is one of these.
fn device(
    alloc: Global,
    failing: Option<(Call, u64)>,
    read: Call,
    write: Call,
) -> Result<Counted<MemDevice>, AllocError> {
    let mut reads = Vec::new(alloc);
    let mut writes = Vec::new(alloc);
    if let Some((kind, number)) = failing {
        if kind == read {
            reads.push(number)?;
        }
        if kind == write {
            writes.push(number)?;
        }
    }
    Ok(Counted {
        device: MemDevice::new(alloc, reads, writes),
        reads: 0,
        writes: 0,
    })
}

/// Runs a script over two devices, of which one call may fail.
fn run(
    alloc: Global,
    script: &[u8],
    failing: Option<(Call, u64)>,
    files: &Files,
) -> Result<Given, AllocError> {
    let main = device(alloc, failing, Call::MainRead, Call::MainWrite)?;
    let temp = device(alloc, failing, Call::TempRead, Call::TempWrite)?;
    let source = MemSource::new(Vec::from_slice(alloc, script)?, Vec::new(alloc));
    let ran = run_over(alloc, source, main, temp, files)?;
    Ok(Given {
        replies: Vec::from_slice(alloc, ran.sink.bytes())?,
        main: (ran.reads, ran.writes),
        temp: (ran.temp_reads, ran.temp_writes),
    })
}

const LARGE: Files = Files {
    main_pages: 1024,
    temp_pages: 64,
};

/// Compares the lines of all statements with what has to stand: how many met the fault. None where a line is
/// wrong.
fn faults_in(
    alloc: Global,
    changes: &[Change],
    replies: &[u8],
    fault: &'static [u8],
) -> Result<Option<u32>, AllocError> {
    let mut lines = Lines::new(replies);
    let mut standing = Changed::new(alloc, fault);
    for change in changes {
        if !standing.takes(alloc, &mut lines, *change)? {
            return Ok(None);
        }
    }
    if !lines.is_empty() {
        return Ok(None);
    }
    Ok(Some(standing.faults))
}

/// 200 calls of a kind fail, each in a run of its own, and each is met by one statement.
fn calls_fail(
    rt: &impl Abort,
    alloc: Global,
    kind: Call,
    fault: &'static [u8],
) -> Result<(), AllocError> {
    let mut changes = table_of(alloc, PAGES)?;
    let front = text_of(alloc, changes.as_slice())?;
    let before = run(alloc, front.as_slice(), None, &LARGE)?.calls(kind);
    add_changes(&mut changes)?;
    changes.push(Change::Select)?;
    let whole = text_of(alloc, changes.as_slice())?;
    let given = run(alloc, whole.as_slice(), None, &LARGE)?;
    let faults = faults_in(alloc, changes.as_slice(), given.replies.as_slice(), fault)?;
    assert_eq!(rt; faults, Some(0));
    let there = given.calls(kind).wrapping_sub(before);
    assert!(rt; there >= 200, "there are {there} calls");
    for turn in 1..201u64 {
        let failing = Some((kind, before.wrapping_add(turn)));
        let given = run(alloc, whole.as_slice(), failing, &LARGE)?;
        let faults = faults_in(alloc, changes.as_slice(), given.replies.as_slice(), fault)?;
        assert_eq!(rt; faults, Some(1), "at {turn}");
    }
    Ok(())
}

#[test]
fn reads_of_the_main_device_fail(rt: HostRuntime) -> Result<(), Fail> {
    calls_fail(&rt, rt.alloc(), Call::MainRead, MAIN_FAULT)?;
    Ok(())
}

#[test]
fn writes_of_the_main_device_fail(rt: HostRuntime) -> Result<(), Fail> {
    calls_fail(&rt, rt.alloc(), Call::MainWrite, MAIN_FAULT)?;
    Ok(())
}

#[test]
fn reads_of_the_temporary_device_fail(rt: HostRuntime) -> Result<(), Fail> {
    calls_fail(&rt, rt.alloc(), Call::TempRead, TEMP_FAULT)?;
    Ok(())
}

#[test]
fn writes_of_the_temporary_device_fail(rt: HostRuntime) -> Result<(), Fail> {
    calls_fail(&rt, rt.alloc(), Call::TempWrite, TEMP_FAULT)?;
    Ok(())
}

/// An UPDATE of all rows of a table of so many pages meets a full file once, and so does a second one; what is
/// smaller is done.
fn file_is_full(
    rt: &impl Abort,
    alloc: Global,
    pages: u32,
    files: &Files,
    fault: &'static [u8],
) -> Result<(), AllocError> {
    let all = Change::Update {
        from: FIRST,
        to: 20_000,
    };
    let mut changes = table_of(alloc, pages)?;
    changes.push(all)?;
    changes.push(Change::Select)?;
    changes.push(Change::Delete {
        from: FIRST,
        to: FIRST.wrapping_add(7),
    })?;
    changes.push(all)?;
    changes.push(Change::Select)?;
    let script = text_of(alloc, changes.as_slice())?;
    let given = run(alloc, script.as_slice(), None, files)?;
    let faults = faults_in(alloc, changes.as_slice(), given.replies.as_slice(), fault)?;
    assert_eq!(rt; faults, Some(2));
    Ok(())
}

/// 80 pages of new rows do not fit a temporary file of 64 pages.
#[test]
fn temporary_file_is_full(rt: HostRuntime) -> Result<(), Fail> {
    let files = Files {
        main_pages: 1024,
        temp_pages: 64,
    };
    file_is_full(&rt, rt.alloc(), 80, &files, TEMP_FULL)?;
    Ok(())
}

/// A table of 43 pages and its new rows do not fit a main file of 64 pages.
#[test]
fn main_file_is_full(rt: HostRuntime) -> Result<(), Fail> {
    let files = Files {
        main_pages: 64,
        temp_pages: 64,
    };
    file_is_full(&rt, rt.alloc(), PAGES, &files, MAIN_FULL)?;
    Ok(())
}

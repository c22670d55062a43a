//! A script of 200 INSERTs, SELECTs and POOLs over devices of which one call fails. All its lines are as
//! without the fault, but for the one statement that met it: an INSERT or a POOL answers
//! `error 17 main device fault` in place of its line, and a SELECT gives some of its rows, each once, and
//! then that line and `closed *`. The rows of an INSERT that failed stand in no later answer, those of
//! every other one stand in each, once, and the number of frames in use is that of the last `pool n`.
//!
//! The temporary file is not called by any of these statements: its calls fail all at once.

use crate::counted::Counted;
use crate::engine_run::{FRAMES, Files, Ran, run_over};
use crate::script::{Statement, add_pages, statements, text_of};
use crate::standing::{Lines, Standing};
use hg_io::{MemDevice, MemSource};
use hg_serve::Status;
use std::alloc::{AllocError, Global};
use std::process::Abort;
use std::test::Fail;

/// The calls that fail: reads and writes of the main device, and both of the temporary one.
#[derive(Clone, Copy)]
struct Failing<'a> {
    reads: &'a [u64],
    writes: &'a [u64],
    temp: &'a [u64],
}

/// Runs a script.
fn run(alloc: Global, script: &[u8], failing: &Failing) -> Result<Ran, AllocError> {
    let reads = Vec::from_slice(alloc, failing.reads)?;
    let writes = Vec::from_slice(alloc, failing.writes)?;
    let main = Counted {
        device: MemDevice::new(alloc, reads, writes),
        reads: 0,
        writes: 0,
    };
    let reads = Vec::from_slice(alloc, failing.temp)?;
    let writes = Vec::from_slice(alloc, failing.temp)?;
    let temp = Counted {
        device: MemDevice::new(alloc, reads, writes),
        reads: 0,
        writes: 0,
    };
    let source = MemSource::new(Vec::from_slice(alloc, script)?, Vec::new(alloc));
    let files = Files {
        main_pages: 256,
        temp_pages: 64,
    };
    run_over(alloc, source, main, temp, &files)
}

/// The statements, and the text of two scripts: of all but the last one, and of all. The last one makes
/// the pool smaller, where each frame has a page that owes a write: so the writes that one script asks for
/// and the other does not are as many as the frames that go out of use.
#[derive(Drop)]
struct Trial {
    statements: Vec<Statement>,
    front: Vec<u8>,
    whole: Vec<u8>,
}

impl Trial {
    fn new(alloc: Global) -> Result<Trial, AllocError> {
        let mut statements = statements(alloc)?;
        add_pages(&mut statements)?;
        let front = text_of(alloc, statements.as_slice())?;
        statements.push(Statement::Pool(FRAMES))?;
        let whole = text_of(alloc, statements.as_slice())?;
        Ok(Trial {
            statements,
            front,
            whole,
        })
    }

    /// Compares the lines of all statements with what has to stand: how many met a fault, and the frames
    /// that were in use before the last one. None where a line is wrong.
    fn compare(&self, alloc: Global, replies: &[u8]) -> Result<Option<(u32, u32)>, AllocError> {
        let mut lines = Lines::new(replies);
        let mut standing = Standing::new(alloc, FRAMES);
        let mut frames = FRAMES;
        for statement in &self.statements {
            frames = standing.frames;
            if !standing.takes(&mut lines, *statement)? {
                return Ok(None);
            }
        }
        if !lines.is_empty() {
            return Ok(None);
        }
        Ok(Some((standing.faults, frames)))
    }

    /// Runs the script over devices of which these calls fail: how many statements met a fault.
    fn run(&self, rt: &impl Abort, alloc: Global, failing: &Failing) -> Result<u32, AllocError> {
        let front = run(alloc, self.front.as_slice(), failing)?;
        let whole = run(alloc, self.whole.as_slice(), failing)?;
        let Some((faults, frames)) = self.compare(alloc, whole.sink.bytes())? else {
            assert!(rt; false, "a line is wrong");
            return Ok(0);
        };
        assert!(rt; whole.sink.bytes().starts_with(front.sink.bytes()));
        let status = if faults == 0 {
            Status::Clean
        } else {
            Status::Errors
        };
        assert_eq!(rt; whole.status, status);
        if front.status == whole.status {
            let written = whole.writes.wrapping_sub(front.writes);
            assert_eq!(rt; written, u64::from(frames.wrapping_sub(FRAMES)));
        }
        Ok(faults)
    }
}

/// So many reads fail, each in a run of its own, from the first number on with this step between the
/// numbers. Each is met by one statement.
fn reads_fail(
    rt: &impl Abort,
    alloc: Global,
    first: u64,
    step: u64,
    turns: u64,
) -> Result<(), AllocError> {
    let trial = Trial::new(alloc)?;
    for turn in 0..turns {
        let call = turn.wrapping_mul(step).wrapping_add(first);
        let failing = Failing {
            reads: &[call],
            writes: &[],
            temp: &[],
        };
        assert_eq!(rt; trial.run(rt, alloc, &failing)?, 1, "at {call}");
    }
    Ok(())
}

/// As `reads_fail`, for the writes from one number to before another.
fn writes_fail(rt: &impl Abort, alloc: Global, first: u64, behind: u64) -> Result<(), AllocError> {
    let trial = Trial::new(alloc)?;
    for call in first..behind {
        let failing = Failing {
            reads: &[],
            writes: &[call],
            temp: &[],
        };
        assert_eq!(rt; trial.run(rt, alloc, &failing)?, 1, "at {call}");
    }
    Ok(())
}

/// Without a fault the script asks for more than 900 reads and 200 writes of the main device.
#[test]
fn no_call_fails(rt: HostRuntime) -> Result<(), Fail> {
    let alloc = rt.alloc();
    let trial = Trial::new(alloc)?;
    let failing = Failing {
        reads: &[],
        writes: &[],
        temp: &[],
    };
    let ran = run(alloc, trial.front.as_slice(), &failing)?;
    assert!(rt; ran.reads > 900 && ran.writes > 200);
    assert_eq!(rt; trial.run(&rt, alloc, &failing)?, 0);
    Ok(())
}

#[test]
fn each_call_of_the_temporary_device_fails(rt: HostRuntime) -> Result<(), Fail> {
    let alloc = rt.alloc();
    let trial = Trial::new(alloc)?;
    let mut calls = Vec::new(alloc);
    for call in 1..201u64 {
        calls.push(call)?;
    }
    let failing = Failing {
        reads: &[],
        writes: &[],
        temp: calls.as_slice(),
    };
    assert_eq!(rt; trial.run(&rt, alloc, &failing)?, 0);
    Ok(())
}

#[test]
fn reads_1_to_100_fail(rt: HostRuntime) -> Result<(), Fail> {
    reads_fail(&rt, rt.alloc(), 1, 1, 100)?;
    Ok(())
}

#[test]
fn reads_101_to_200_fail(rt: HostRuntime) -> Result<(), Fail> {
    reads_fail(&rt, rt.alloc(), 101, 1, 100)?;
    Ok(())
}

#[test]
fn later_reads_fail(rt: HostRuntime) -> Result<(), Fail> {
    reads_fail(&rt, rt.alloc(), 201, 13, 54)?;
    Ok(())
}

#[test]
fn writes_1_to_100_fail(rt: HostRuntime) -> Result<(), Fail> {
    writes_fail(&rt, rt.alloc(), 1, 101)?;
    Ok(())
}

#[test]
fn writes_101_to_200_fail(rt: HostRuntime) -> Result<(), Fail> {
    writes_fail(&rt, rt.alloc(), 101, 201)?;
    Ok(())
}

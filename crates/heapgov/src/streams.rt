//! Standard input as a source and standard output as a sink. They tell no bytes.
ghost use Rattle.std.specs.Prelude.{◌≡◌, ◌≤◌, ◌<◌, None, IfSome, length};
ghost use Rattle.hg_base.specs.Count.{Ends};

use hg_io::{Failed, Sink, Source};
use std::io::{ErrorKind, Read, Write};

/// How often a call that was interrupted is made again.
const TRIES: u32 = 1000;

/// Reads once, again where the call was interrupted.
fn read_from<R: Read>(reader: &mut R, buf: &mut [u8]) -> Option<usize>
    ensures { IfSome result (λ n. n ≤ length buf.old) }
{
    for _ in 0..TRIES {
        match reader.read(buf) {
            Ok(count) => return Some(count),
            Err(error) => {
                if error.kind() != ErrorKind::Interrupted {
                    return None;
                }
            }
        }
    }
    None
}

/// Writes once, again where the call was interrupted. A write that takes nothing failed.
fn write_to<W: Write>(writer: &mut W, bytes: &[u8]) -> Option<usize>
    ensures { IfSome result (λ n. (n ≤ length bytes.now) × (0 < n)) }
{
    for _ in 0..TRIES {
        match writer.write(bytes) {
            Ok(0) => return None,
            Ok(count) => return Some(count),
            Err(error) => {
                if error.kind() != ErrorKind::Interrupted {
                    return None;
                }
            }
        }
    }
    None
}

/// A reader as a source.
#[derive(Drop)]
pub struct StdSource<R: Read + Drop> {
    reader: R,
    given: u64,
    faults: u64,
    ghost given_ends: { Ends given },
    ghost faults_end: { Ends faults },
}

impl<R: Read + Drop> StdSource<R> {
    pub fn new(reader: R) -> StdSource<R>
        ensures given { result.given ≡ 0 }
        ensures faults { result.faults ≡ 0 }
    {
        StdSource {
            reader,
            given: 0,
            faults: 0,
        }
    }
}

impl<R: Read + Drop> Source for StdSource<R> {
    ghost left = { λ _. None };

    ghost given = { λ s. s.given };

    ghost faults = { λ s. s.faults };

    ghost given_ends = { λ s. s.given_ends };

    ghost faults_end = { λ s. s.faults_end };

    fn read(&mut self, buf: &mut [u8]) -> Result<usize, Failed> {
        match read_from(&mut self.reader, buf) {
            Some(count) => {
                self.given = self.given.saturating_add(count as u64);
                Ok(count)
            }
            None => {
                self.faults = self.faults.saturating_add(1);
                Err(Failed)
            }
        }
    }
}

/// A writer as a sink.
#[derive(Drop)]
pub struct StdSink<W: Write + Drop> {
    writer: W,
    faults: u64,
    ghost faults_end: { Ends faults },
}

impl<W: Write + Drop> StdSink<W> {
    pub fn new(writer: W) -> StdSink<W>
        ensures { result.faults ≡ 0 }
    {
        StdSink { writer, faults: 0 }
    }
}

impl<W: Write + Drop> Sink for StdSink<W> {
    ghost written = { λ _. None };

    ghost faults = { λ s. s.faults };

    ghost faults_end = { λ s. s.faults_end };

    fn write(&mut self, bytes: &[u8]) -> Result<usize, Failed> {
        if bytes.is_empty() {
            return Ok(0);
        }
        match write_to(&mut self.writer, bytes) {
            Some(count) => Ok(count),
            None => {
                self.faults = self.faults.saturating_add(1);
                Err(Failed)
            }
        }
    }
}

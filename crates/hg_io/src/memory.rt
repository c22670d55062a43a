//! A source and a sink in memory, which tell their bytes and fail at the calls that they are told to
//! fail at. Calls are numbered from 1.
ghost use Rattle.std.specs.Prelude.{◌≡◌, ◌≤◌, ◌↔◌, Some, [], take, drop, min, IfOk, IsErr, OnErr, Contains, length};
ghost use Rattle.hg_base.specs.Count.{raised, Ends};
ghost use Rattle.hg_io.specs.Count.{CountsFaults};
ghost use Rattle.hg_io.specs.Bytes.{Reads, Writes};

use crate::stream::{Failed, Sink, Source, count_fault};
use std::alloc::Global;

/// A source of given bytes. A call fails exactly where its number is in the list.
#[derive(Drop)]
pub struct MemSource {
    bytes: Vec<u8>,
    at: usize,
    fail: Vec<u64>,
    calls: u64,
    faults: u64,
    given: u64,
    ghost in_range: { at ≤ length bytes.items },
    ghost faults_end: { Ends faults },
    ghost given_ends: { Ends given },
}

impl MemSource {
    /// A source that has given nothing, over `bytes`; `fail` has the numbers of the calls that fail.
    pub fn new(bytes: Vec<u8>, fail: Vec<u64>) -> MemSource
        ensures left { result.bytes ≡ bytes }
        ensures start { result.at ≡ 0 }
        ensures fail { result.fail ≡ fail }
        ensures calls { result.calls ≡ 0 }
        ensures faults { result.faults ≡ 0 }
        ensures given { result.given ≡ 0 }
    {
        MemSource {
            bytes,
            at: 0,
            fail,
            calls: 0,
            faults: 0,
            given: 0,
        }
    }
}

impl Source for MemSource {
    ghost left = { λ s. Some (drop s.at s.bytes.items) };

    ghost given = { λ s. s.given };

    ghost faults = { λ s. s.faults };

    ghost given_ends = { λ s. s.given_ends };

    ghost faults_end = { λ s. s.faults_end };

    fn read(&mut self, buf: &mut [u8]) -> Result<usize, Failed>
        ensures bound { IfOk result (λ n. n ≤ length buf.old) }
        ensures bytes { Reads (Some (drop self.old.at self.old.bytes.items)) (Some (drop self.new.at self.new.bytes.items)) result buf.new }
        ensures given { IfOk result (λ n. self.new.given ≡ raised self.old.given n) }
        ensures given_stays { OnErr result (self.new.given ≡ self.old.given) }
        ensures cause { CountsFaults self.old.faults self.new.faults result }

        // Each call has the next number, and fails exactly where its number is in the list.
        ensures counted { self.new.calls ≡ raised self.old.calls 1 }
        ensures same_list { self.new.fail ≡ self.old.fail }
        ensures fails_as_listed { IsErr result ↔ Contains self.old.fail.items (raised self.old.calls 1) }

        // It gives as much as there is, or as the buffer takes.
        ensures most { IfOk result (λ n. n ≡ min (length buf.old) (length (drop self.old.at self.old.bytes.items))) }
    {
        self.calls = self.calls.saturating_add(1);
        if self.fail.contains(&self.calls) {
            return Err(count_fault(&mut self.faults));
        }
        let (_, rest) = self.bytes.as_slice().split_at(self.at);
        let taken = copy_front(rest, buf);
        self.at += taken;
        self.given = self.given.saturating_add(taken as u64);
        Ok(taken)
    }
}

/// Copies the front of `from` over the front of `to`, as much as both have, and answers how much.
fn copy_front(from: &[u8], to: &mut [u8]) -> usize
    ensures count { result ≡ min (length from.now) (length to.old) }
    ensures copied { take result to.new ≡ take result from.now }
{
    let count = from.len().min(to.len());
    let (piece, _) = from.split_at(count);
    to[..count].copy_from_slice(piece);
    count
}

/// A sink that keeps what it takes. A call whose number is in the list fails, and any other only
/// where memory for its bytes was refused.
#[derive(Drop)]
pub struct MemSink {
    bytes: Vec<u8>,
    fail: Vec<u64>,
    calls: u64,
    faults: u64,
    ghost faults_end: { Ends faults },
}

impl MemSink {
    /// An empty sink; `fail` has the numbers of the calls that fail.
    pub fn new(alloc: Global, fail: Vec<u64>) -> MemSink
        ensures written { result.bytes.items ≡ [] }
        ensures fail { result.fail ≡ fail }
        ensures calls { result.calls ≡ 0 }
        ensures faults { result.faults ≡ 0 }
    {
        MemSink {
            bytes: Vec::new(alloc),
            fail,
            calls: 0,
            faults: 0,
        }
    }

    /// What was written so far.
    pub fn bytes(&self) -> &[u8]
        ensures { result.now ≡ self.now.bytes.items }
    {
        self.bytes.as_slice()
    }
}

impl Sink for MemSink {
    ghost written = { λ s. Some s.bytes.items };

    ghost faults = { λ s. s.faults };

    ghost faults_end = { λ s. s.faults_end };

    fn write(&mut self, bytes: &[u8]) -> Result<usize, Failed>
        ensures bound { IfOk result (λ n. n ≤ length bytes.now) }
        ensures bytes { Writes (Some self.old.bytes.items) (Some self.new.bytes.items) result bytes.now }
        ensures cause { CountsFaults self.old.faults self.new.faults result }

        // Each call has the next number, and fails where its number is in the list.
        ensures counted { self.new.calls ≡ raised self.old.calls 1 }
        ensures same_list { self.new.fail ≡ self.old.fail }
        ensures fails_as_listed { Contains self.old.fail.items (raised self.old.calls 1) → IsErr result }

        // It takes the whole piece.
        ensures whole { IfOk result (λ n. n ≡ length bytes.now) }
    {
        self.calls = self.calls.saturating_add(1);
        let listed = self.fail.contains(&self.calls);
        if listed || self.bytes.extend_from_slice(bytes).is_err() {
            return Err(count_fault(&mut self.faults));
        }
        Ok(bytes.len())
    }
}

//! A device of pages, and one in memory.
ghost use Rattle.std.specs.Prelude.{◌≡◌, ◌<◌, ◌≤◌, ◌↔◌, ℕ, List, Bool, true, OnOk, IsErr, Contains, length};
ghost use Rattle.hg_base.specs.Count.{raised, Ends};
ghost use Rattle.hg_io.specs.Count.{CountsFaults};
ghost use Rattle.hg_io.specs.Device.{SamePages, SameButOne, GivesPage, page_at, zeros};

use crate::page::{Page, put_zeros};
use crate::stream::{Failed, count_fault};
use std::alloc::Global;
use std::collections::BTreeMap;

/// How many pages the devices in memory and over a file have.
pub const PAGE_LIMIT: u32 = 1_048_576;

/// Pages of 4,096 bytes, numbered from 0.
pub trait PageDevice {
    /// The number of its pages, which never changes.
    ghost pages: { Self → ℕ };

    /// Whether it tells what stands in its pages, which never changes.
    ghost told: { Self → Bool };

    /// What stands in a page. A page that was never written is zeros.
    ghost page: { Self → ℕ → List ℕ };

    /// How many reads it was asked for so far, failed ones too.
    ghost reads: { Self → ℕ };

    /// How many writes it was asked for so far, failed ones too.
    ghost writes: { Self → ℕ };

    /// How many of its calls failed so far.
    ghost faults: { Self → ℕ };

    /// The number of its pages.
    fn limit(&self) -> u32
        ensures { result ≡ pages self.now };

    /// Puts the page's bytes into `buf`. A read that failed leaves any bytes in `buf`.
    fn read(&mut self, no: u32, buf: &mut [u8]) -> Result<(), Failed>
        requires in_range { no < pages self.old }
        requires whole_page { length buf.old ≡ 4096 }
        ensures gives { OnOk result (GivesPage (told self.old) (page self.old) no buf.new) }
        ensures keeps { SamePages (told self.old) (page self.old) (page self.new) }
        ensures counted { reads self.new ≡ raised (reads self.old) 1 }
        ensures same_writes { writes self.new ≡ writes self.old }
        ensures same_limit { pages self.new ≡ pages self.old }
        ensures same_told { told self.new ≡ told self.old }
        ensures cause { CountsFaults (faults self.old) (faults self.new) result };

    /// Puts `bytes` into the page. A write that failed leaves any bytes in that page.
    fn write(&mut self, no: u32, bytes: &[u8]) -> Result<(), Failed>
        requires in_range { no < pages self.old }
        requires whole_page { length bytes.now ≡ 4096 }
        ensures puts { OnOk result (GivesPage (told self.old) (page self.new) no bytes.now) }
        ensures keeps { SameButOne (told self.old) (page self.old) (page self.new) no }
        ensures counted { writes self.new ≡ raised (writes self.old) 1 }
        ensures same_reads { reads self.new ≡ reads self.old }
        ensures same_limit { pages self.new ≡ pages self.old }
        ensures same_told { told self.new ≡ told self.old }
        ensures cause { CountsFaults (faults self.old) (faults self.new) result };

    /// The counts end at 2^64 - 1.
    ghost reads_end: { (d : Self) → Ends (reads d) };

    ghost writes_end: { (d : Self) → Ends (writes d) };

    ghost faults_end: { (d : Self) → Ends (faults d) };
}

/// A device in memory, which tells its pages. A listed call fails, and any other only where memory
/// for a page was refused. Reads and writes are numbered from 1, each by themselves.
#[derive(Drop)]
pub struct MemDevice {
    alloc: Global,
    pages: BTreeMap<u32, Page>,
    fail_reads: Vec<u64>,
    fail_writes: Vec<u64>,
    reads: u64,
    writes: u64,
    faults: u64,
    ghost reads_end: { Ends reads },
    ghost writes_end: { Ends writes },
    ghost faults_end: { Ends faults },
}

impl MemDevice {
    /// A device of zeros; the lists have the numbers of the reads and of the writes that fail.
    pub fn new(alloc: Global, fail_reads: Vec<u64>, fail_writes: Vec<u64>) -> MemDevice
        ensures zeros { (q : ℕ) → page_at result.pages q ≡ zeros }
        ensures fail_reads { result.fail_reads ≡ fail_reads }
        ensures fail_writes { result.fail_writes ≡ fail_writes }
        ensures reads { result.reads ≡ 0 }
        ensures writes { result.writes ≡ 0 }
        ensures faults { result.faults ≡ 0 }
    {
        MemDevice {
            alloc,
            pages: BTreeMap::new(alloc),
            fail_reads,
            fail_writes,
            reads: 0,
            writes: 0,
            faults: 0,
        }
    }

    /// How many reads came so far, failed ones too.
    pub fn reads(&self) -> u64
        ensures { result ≡ self.now.reads }
    {
        self.reads
    }
}

impl PageDevice for MemDevice {
    ghost pages = { λ _. 1048576 };

    ghost told = { λ _. true };

    ghost page = { λ d. page_at d.pages };

    ghost reads = { λ d. d.reads };

    ghost writes = { λ d. d.writes };

    ghost faults = { λ d. d.faults };

    ghost reads_end = { λ d. d.reads_end };

    ghost writes_end = { λ d. d.writes_end };

    ghost faults_end = { λ d. d.faults_end };

    fn limit(&self) -> u32 {
        PAGE_LIMIT
    }

    fn read(&mut self, no: u32, buf: &mut [u8]) -> Result<(), Failed>
        requires in_range { no < 1048576 }
        requires whole_page { length buf.old ≡ 4096 }
        ensures gives { OnOk result (GivesPage true (page_at self.old.pages) no buf.new) }
        ensures keeps { SamePages true (page_at self.old.pages) (page_at self.new.pages) }
        ensures cause { CountsFaults self.old.faults self.new.faults result }

        // Each read has the next number, and fails exactly where its number is in the list of reads.
        ensures counted { self.new.reads ≡ raised self.old.reads 1 }
        ensures same_writes { self.new.writes ≡ self.old.writes }
        ensures same_fail_reads { self.new.fail_reads ≡ self.old.fail_reads }
        ensures same_fail_writes { self.new.fail_writes ≡ self.old.fail_writes }
        ensures fails_as_listed { IsErr result ↔ Contains self.old.fail_reads.items (raised self.old.reads 1) }
    {
        self.reads = self.reads.saturating_add(1);
        if self.fail_reads.contains(&self.reads) {
            return Err(count_fault(&mut self.faults));
        }
        match self.pages.get(&no) {
            Some(page) => buf.copy_from_slice(page.bytes()),
            None => put_zeros(buf),
        }
        Ok(())
    }

    fn write(&mut self, no: u32, bytes: &[u8]) -> Result<(), Failed>
        requires in_range { no < 1048576 }
        requires whole_page { length bytes.now ≡ 4096 }
        ensures puts { OnOk result (GivesPage true (page_at self.new.pages) no bytes.now) }
        ensures keeps { SameButOne true (page_at self.old.pages) (page_at self.new.pages) no }
        ensures cause { CountsFaults self.old.faults self.new.faults result }

        // Each write has the next number, and fails where its number is in the list of writes.
        ensures counted { self.new.writes ≡ raised self.old.writes 1 }
        ensures same_reads { self.new.reads ≡ self.old.reads }
        ensures same_fail_reads { self.new.fail_reads ≡ self.old.fail_reads }
        ensures same_fail_writes { self.new.fail_writes ≡ self.old.fail_writes }
        ensures fails_as_listed { Contains self.old.fail_writes.items (raised self.old.writes 1) → IsErr result }
    {
        self.writes = self.writes.saturating_add(1);
        if self.fail_writes.contains(&self.writes) {
            return Err(count_fault(&mut self.faults));
        }
        let Ok(page) = Page::of(self.alloc, bytes) else {
            return Err(count_fault(&mut self.faults));
        };
        match self.pages.insert(no, page) {
            Ok(_) => Ok(()),
            Err(_) => Err(count_fault(&mut self.faults)),
        }
    }
}

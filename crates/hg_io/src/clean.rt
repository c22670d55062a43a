//! A device of pages in memory that never fails.
ghost use Rattle.std.specs.Prelude.{◌≡◌, ◌<◌, ◌^◌, true, IfOk, IsOk, length, replicate};
ghost use Rattle.hg_base.specs.Count.{raised, Ends, none_ends};
ghost use Rattle.hg_io.specs.Device.{SameButOne, page_of, zeros};

use crate::device::PageDevice;
use crate::page::Page;
use crate::stream::Failed;
use hg_base::NoMemory;
use std::alloc::{AllocError, Global};

/// A device in memory that tells its pages and never fails: all its memory is taken when it is made.
#[derive(Drop)]
pub struct CleanDevice {
    pages: Vec<Page>,
    reads: u64,
    writes: u64,
    ghost few: { length pages.items < 2 ^ 32 },
    ghost reads_end: { Ends reads },
    ghost writes_end: { Ends writes },
}

impl CleanDevice {
    /// A device of so many pages of zeros.
    pub fn new(alloc: Global, pages: u32) -> Result<CleanDevice, NoMemory>
        ensures zeros { IfOk result (λ device. device.pages.items ≡ replicate pages zeros) }
        ensures reads { IfOk result (λ device. device.reads ≡ 0) }
        ensures writes { IfOk result (λ device. device.writes ≡ 0) }
    {
        match pages_of_zeros(alloc, pages) {
            Ok(pages) => Ok(CleanDevice {
                pages,
                reads: 0,
                writes: 0,
            }),
            Err(_) => Err(NoMemory),
        }
    }
}

fn pages_of_zeros(alloc: Global, count: u32) -> Result<Vec<Page>, AllocError>
    ensures { IfOk result (λ pages. pages.items ≡ replicate count zeros) }
{
    let mut pages = Vec::with_capacity(alloc, count as usize)?;
    for _page in 0..count {
        pages.push(Page::of_zeros(alloc)?)?;
    }
    Ok(pages)
}

impl PageDevice for CleanDevice {
    ghost pages = { λ d. length d.pages.items };

    ghost told = { λ _. true };

    ghost page = { λ d. page_of d.pages.items };

    ghost reads = { λ d. d.reads };

    ghost writes = { λ d. d.writes };

    ghost faults = { λ _. 0 };

    ghost reads_end = { λ d. d.reads_end };

    ghost writes_end = { λ d. d.writes_end };

    ghost faults_end = { λ _. none_ends };

    fn limit(&self) -> u32 {
        self.pages.len() as u32
    }

    fn read(&mut self, no: u32, buf: &mut [u8]) -> Result<(), Failed>
        requires in_range { no < length self.old.pages.items }
        requires whole_page { length buf.old ≡ 4096 }
        ensures sure { IsOk result }
        ensures gives { buf.new ≡ page_of self.old.pages.items no }
        ensures keeps { self.new.pages.items ≡ self.old.pages.items }
        ensures counted { self.new.reads ≡ raised self.old.reads 1 }
        ensures same_writes { self.new.writes ≡ self.old.writes }
    {
        self.reads = self.reads.saturating_add(1);
        let page = &self.pages[no as usize];
        buf.copy_from_slice(page.bytes());
        Ok(())
    }

    fn write(&mut self, no: u32, bytes: &[u8]) -> Result<(), Failed>
        requires in_range { no < length self.old.pages.items }
        requires whole_page { length bytes.now ≡ 4096 }
        ensures sure { IsOk result }
        ensures puts { page_of self.new.pages.items no ≡ bytes.now }
        ensures keeps { SameButOne true (page_of self.old.pages.items) (page_of self.new.pages.items) no }
        ensures counted { self.new.writes ≡ raised self.old.writes 1 }
        ensures same_reads { self.new.reads ≡ self.old.reads }
        ensures same_limit { length self.new.pages.items ≡ length self.old.pages.items }
    {
        self.writes = self.writes.saturating_add(1);
        let page = &mut self.pages[no as usize];
        page.put(bytes);
        Ok(())
    }
}

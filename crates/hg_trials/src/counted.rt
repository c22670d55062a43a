//! A device that counts its reads and writes beside what it tells itself.

use hg_io::{Failed, PageDevice};

/// A device, with counts of its calls, failed ones too.
#[derive(Drop)]
pub struct Counted<D> {
    pub device: D,
    pub reads: u64,
    pub writes: u64,
}

impl<D: PageDevice> PageDevice for Counted<D> {
    ghost pages = { λ d. D.pages d.device };

    ghost told = { λ d. D.told d.device };

    ghost page = { λ d. D.page d.device };

    ghost reads = { λ d. D.reads d.device };

    ghost writes = { λ d. D.writes d.device };

    ghost faults = { λ d. D.faults d.device };

    ghost reads_end = { λ d. D.reads_end d.device };

    ghost writes_end = { λ d. D.writes_end d.device };

    ghost faults_end = { λ d. D.faults_end d.device };

    fn limit(&self) -> u32 {
        self.device.limit()
    }

    fn read(&mut self, no: u32, buf: &mut [u8]) -> Result<(), Failed> {
        self.reads = self.reads.saturating_add(1);
        self.device.read(no, buf)
    }

    fn write(&mut self, no: u32, bytes: &[u8]) -> Result<(), Failed> {
        self.writes = self.writes.saturating_add(1);
        self.device.write(no, bytes)
    }
}

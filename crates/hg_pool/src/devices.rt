//! The two devices.
ghost use Rattle.std.specs.Prelude.{◌≡◌, MatchResult};

use crate::frames::Frames;
use hg_base::{File, FrameNo, PageFault, PageId};
use hg_io::{Failed, PageDevice};

/// The answer of a device, with the fault that it stands for.
fn answer(outcome: Result<(), Failed>, fault: PageFault) -> Result<(), PageFault>
    ensures { MatchResult outcome (λ _. result ≡ Ok (tt {0})) (λ _. result ≡ Err fault) }
{
    match outcome {
        Ok(()) => Ok(()),
        Err(_) => Err(fault),
    }
}

/// The device of the main file and that of the temporary file.
pub(crate) struct Devices<M, T> {
    pub(crate) main: M,
    pub(crate) temp: T,
}

impl<M: PageDevice, T: PageDevice> Devices<M, T> {
    ghost use Rattle.std.specs.Prelude.{◌≡◌, ◌<◌, true, false, Some, length, OnOk, IfErr};
    ghost use Rattle.hg_base.specs.Space.{key};
    ghost use Rattle.hg_pool.specs.Disks.{disks_in, pages_in, page_on, all_told, SamePages, SameButOne, DeviceCause};
    ghost use Rattle.hg_pool.specs.Clocking.{is_busy};
    ghost use Rattle.hg_pool.specs.Picture.{frame_at};
    ghost use Rattle.hg_pool.specs.Keeping.{set_item};
    ghost use Rattle.hg_pool.specs.Work.{calls_in, with_read, with_write, IsFaultOf};

    /// Puts the page's bytes into `bytes`.
    pub(crate) fn read(&mut self, page: PageId, bytes: &mut [u8]) -> Result<(), PageFault>
        requires in_range { page.no < pages_in (disks_in M.PageDevice T.PageDevice self.old) page.file }
        requires whole { length bytes.old ≡ 4096 }
        ensures gives { OnOk result (all_told (disks_in M.PageDevice T.PageDevice self.old) ≡ true
            → bytes.new ≡ page_on (disks_in M.PageDevice T.PageDevice self.old) (key page)) }
        ensures keeps { SamePages (disks_in M.PageDevice T.PageDevice self.old) (disks_in M.PageDevice T.PageDevice self.new) }
        ensures cause { DeviceCause (disks_in M.PageDevice T.PageDevice self.old) (disks_in M.PageDevice T.PageDevice self.new) result }
        ensures fails { IfErr result (IsFaultOf (Some page.file)) }
        ensures asked { calls_in (disks_in M.PageDevice T.PageDevice self.new)
            ≡ with_read (calls_in (disks_in M.PageDevice T.PageDevice self.old)) (Some page.file) }
    {
        match page.file {
            File::Main => answer(self.main.read(page.no, bytes), PageFault::MainFault),
            File::Temp => answer(self.temp.read(page.no, bytes), PageFault::TempFault),
        }
    }

    /// Reads the page into the frame's bytes.
    pub(crate) fn fill(
        &mut self,
        page: PageId,
        frames: &mut Frames,
        at: usize,
    ) -> Result<(), PageFault>
        requires in_range { page.no < pages_in (disks_in M.PageDevice T.PageDevice self.old) page.file }
        requires there { at < length frames.old.items }
        requires free { is_busy (frame_at frames.old.items at) ≡ false }
        ensures rest { frames.new ≡ set_item frames.old at (record (frame_at frames.old.items at) { bytes = (frame_at frames.new.items at).bytes }) }
        ensures whole { length (frame_at frames.new.items at).bytes ≡ 4096 }
        ensures gives { OnOk result (all_told (disks_in M.PageDevice T.PageDevice self.old) ≡ true
            → (frame_at frames.new.items at).bytes ≡ page_on (disks_in M.PageDevice T.PageDevice self.old) (key page)) }
        ensures keeps { SamePages (disks_in M.PageDevice T.PageDevice self.old) (disks_in M.PageDevice T.PageDevice self.new) }
        ensures cause { DeviceCause (disks_in M.PageDevice T.PageDevice self.old) (disks_in M.PageDevice T.PageDevice self.new) result }
        ensures fails { IfErr result (IsFaultOf (Some page.file)) }
        ensures asked { calls_in (disks_in M.PageDevice T.PageDevice self.new)
            ≡ with_read (calls_in (disks_in M.PageDevice T.PageDevice self.old)) (Some page.file) }
    {
        let mut chain = frames.lend(at);
        let outcome = self.read(page, chain.page_mut(FrameNo(at as u32)));
        frames.put(at, chain);
        outcome
    }

    /// Puts `bytes` into the page. A write that failed leaves any bytes in that page.
    pub(crate) fn write(&mut self, page: PageId, bytes: &[u8]) -> Result<(), PageFault>
        requires in_range { page.no < pages_in (disks_in M.PageDevice T.PageDevice self.old) page.file }
        requires whole { length bytes.now ≡ 4096 }
        ensures puts { OnOk result (all_told (disks_in M.PageDevice T.PageDevice self.old) ≡ true
            → page_on (disks_in M.PageDevice T.PageDevice self.new) (key page) ≡ bytes.now) }
        ensures keeps { SameButOne (disks_in M.PageDevice T.PageDevice self.old) (disks_in M.PageDevice T.PageDevice self.new) (key page) }
        ensures cause { DeviceCause (disks_in M.PageDevice T.PageDevice self.old) (disks_in M.PageDevice T.PageDevice self.new) result }
        ensures fails { IfErr result (IsFaultOf (Some page.file)) }
        ensures asked { calls_in (disks_in M.PageDevice T.PageDevice self.new)
            ≡ with_write (calls_in (disks_in M.PageDevice T.PageDevice self.old)) (Some page.file) }
    {
        match page.file {
            File::Main => answer(self.main.write(page.no, bytes), PageFault::MainFault),
            File::Temp => answer(self.temp.write(page.no, bytes), PageFault::TempFault),
        }
    }
    /// Writes the frame's bytes into the page.
    pub(crate) fn save(
        &mut self,
        page: PageId,
        frames: &mut Frames,
        at: usize,
    ) -> Result<(), PageFault>
        requires in_range { page.no < pages_in (disks_in M.PageDevice T.PageDevice self.old) page.file }
        requires there { at < length frames.old.items }
        requires free { is_busy (frame_at frames.old.items at) ≡ false }
        ensures same { frames.new ≡ frames.old }
        ensures puts { OnOk result (all_told (disks_in M.PageDevice T.PageDevice self.old) ≡ true
            → page_on (disks_in M.PageDevice T.PageDevice self.new) (key page) ≡ (frame_at frames.old.items at).bytes) }
        ensures keeps { SameButOne (disks_in M.PageDevice T.PageDevice self.old) (disks_in M.PageDevice T.PageDevice self.new) (key page) }
        ensures cause { DeviceCause (disks_in M.PageDevice T.PageDevice self.old) (disks_in M.PageDevice T.PageDevice self.new) result }
        ensures fails { IfErr result (IsFaultOf (Some page.file)) }
        ensures asked { calls_in (disks_in M.PageDevice T.PageDevice self.new)
            ≡ with_write (calls_in (disks_in M.PageDevice T.PageDevice self.old)) (Some page.file) }
    {
        let chain = frames.lend(at);
        let outcome = self.write(page, chain.page(FrameNo(at as u32)));
        frames.put(at, chain);
        outcome
    }
}

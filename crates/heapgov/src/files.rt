//! A file as a device of pages. It tells no bytes: what a file holds or gives, no proof says.
ghost use Rattle.std.specs.Prelude.{◌≡◌, ◌≤◌, ◌<◌, ◌*◌, ◌↔◌, IsOk, IsSome, IfSome, false, [], length};
ghost use Rattle.hg_base.specs.Count.{Ends};
ghost use Rattle.hg_io.specs.Count.{CountsFaults};

use hg_io::{Failed, PAGE_BYTES, PAGE_LIMIT, PageDevice};
use std::fs::{File, OpenFile, OpenOptions};
use std::io::ErrorKind;
use std::os::unix::fs::FileExt;
use std::rt::Files;

/// How often a call that was interrupted is made again.
const TRIES: u32 = 1000;

/// Reads once at a place of the file, again where the call was interrupted.
fn read_at<F: FileExt>(file: &F, buf: &mut [u8], place: u64) -> Option<usize>
    ensures { IfSome result (λ n. n ≤ length buf.old) }
{
    for _ in 0..TRIES {
        match file.read_at(buf, place) {
            Ok(count) => return Some(count),
            Err(error) => {
                if error.kind() != ErrorKind::Interrupted {
                    return None;
                }
            }
        }
    }
    None
}

/// Writes once at a place of the file, again where the call was interrupted. A write that takes
/// nothing failed.
fn write_at<F: FileExt>(file: &F, bytes: &[u8], place: u64) -> Option<usize>
    ensures { IfSome result (λ n. (n ≤ length bytes.now) × (0 < n)) }
{
    for _ in 0..TRIES {
        match file.write_at(bytes, place) {
            Ok(0) => return None,
            Ok(count) => return Some(count),
            Err(error) => {
                if error.kind() != ErrorKind::Interrupted {
                    return None;
                }
            }
        }
    }
    None
}

/// Fills `buf` from the file, with zeros beyond its end. None where a read failed.
fn read_all<F: FileExt>(file: &F, buf: &mut [u8], place: u64) -> Option<()> {
    let mut done = 0;
    while done < buf.len() {
        let rest = &mut buf[done..];
        match read_at(file, rest, place.saturating_add(done as u64))? {
            0 => {
                rest.fill(0);
                return Some(());
            }
            count => done += count,
        }
    }
    Some(())
}

/// Writes all of `bytes`. None where a write failed; any part of them may then be written.
fn write_all<F: FileExt>(file: &F, bytes: &[u8], place: u64) -> Option<()> {
    let mut done = 0;
    while done < bytes.len() {
        done += write_at(file, &bytes[done..], place.saturating_add(done as u64))?;
    }
    Some(())
}

/// Where a page begins in its file, in bytes.
fn place_of(no: u32) -> u64
    ensures { result ≡ 4096 * no }
{
    PAGE_BYTES as u64 * u64::from(no)
}

/// A file that is held by one opening of it at a time.
pub trait Held {
    /// Holds the file from now on, until it is closed. False where another opening holds it, in this
    /// program or in another one.
    fn hold(&self) -> bool;
}

impl Held for File {
    fn hold(&self) -> bool {
        self.try_lock().is_ok()
    }
}

/// Opens the file of that name, holds it and makes it empty. None where that fails; a file that another
/// opening holds is left as it is.
fn open_alone<R: Files>(files: &R, name: &str) -> Option<R::File>
where
    R::File: Held,
{
    let file = OpenOptions::new()
        .read(true)
        .write(true)
        .create(true)
        .open(files, name)
        .ok()?;
    if !file.hold() {
        return None;
    }
    file.set_len(0).ok()?;
    Some(file)
}

/// A file of the file system `R` as a device: page n is the 4,096 bytes from 4,096 * n on, and what
/// lies beyond the end of the file is zeros. The file is opened and locked at the first call; what stood
/// in it is lost. Where another program holds it, that call fails, and the file stays as it is.
#[derive(Drop)]
pub struct FileDevice<R: Files + Drop> {
    files: R,
    name: &'static str,
    file: Option<R::File>,
    reads: u64,
    writes: u64,
    faults: u64,
    ghost reads_end: { Ends reads },
    ghost writes_end: { Ends writes },
    ghost faults_end: { Ends faults },
}

impl<R: Files + Drop> FileDevice<R>
where
    R::File: Held,
{
    /// A device over the file of that name, of which nothing is asked yet.
    pub fn new(files: R, name: &'static str) -> FileDevice<R>
        ensures reads { result.reads ≡ 0 }
        ensures writes { result.writes ≡ 0 }
        ensures faults { result.faults ≡ 0 }
    {
        FileDevice {
            files,
            name,
            file: None,
            reads: 0,
            writes: 0,
            faults: 0,
        }
    }

    /// Makes the file where it is not made yet. Where that fails, the device still has none.
    fn make(&mut self)
        ensures reads { self.new.reads ≡ self.old.reads }
        ensures writes { self.new.writes ≡ self.old.writes }
        ensures faults { self.new.faults ≡ self.old.faults }
    {
        if self.file.is_none() {
            self.file = open_alone(&self.files, self.name);
        }
    }

    /// The answer of a call, which counts a fault where its work was not done.
    fn answer(&mut self, done: Option<()>) -> Result<(), Failed>
        ensures said { IsOk result ↔ IsSome done }
        ensures reads { self.new.reads ≡ self.old.reads }
        ensures writes { self.new.writes ≡ self.old.writes }
        ensures cause { CountsFaults self.old.faults self.new.faults result }
    {
        if done.is_none() {
            self.faults = self.faults.saturating_add(1);
            return Err(Failed);
        }
        Ok(())
    }
}

impl<R: Files + Drop> PageDevice for FileDevice<R>
where
    R::File: FileExt + Held,
{
    ghost pages = { λ _. 1048576 };

    ghost told = { λ _. false };

    ghost page = { λ _ _. [] };

    ghost reads = { λ d. d.reads };

    ghost writes = { λ d. d.writes };

    ghost faults = { λ d. d.faults };

    ghost reads_end = { λ d. d.reads_end };

    ghost writes_end = { λ d. d.writes_end };

    ghost faults_end = { λ d. d.faults_end };

    fn limit(&self) -> u32 {
        PAGE_LIMIT
    }

    fn read(&mut self, no: u32, buf: &mut [u8]) -> Result<(), Failed> {
        self.reads = self.reads.saturating_add(1);
        self.make();
        let done = match &self.file {
            Some(file) => read_all(file, buf, place_of(no)),
            None => None,
        };
        self.answer(done)
    }

    fn write(&mut self, no: u32, bytes: &[u8]) -> Result<(), Failed> {
        self.writes = self.writes.saturating_add(1);
        self.make();
        let done = match &self.file {
            Some(file) => write_all(file, bytes, place_of(no)),
            None => None,
        };
        self.answer(done)
    }
}

//! The frame in which a page may be, by the page's number.
//!
//! There is a place for each page up to the highest that was ever taken, and memory for one of each
//! page: the lowest free page is taken, so that pages with a place are the first ones of their file,
//! and nothing is written for the others.
ghost use Rattle.std.specs.Prelude.{◌≡◌, ◌<◌, ◌≤◌, ℕ, length, slice_index_or, vec_capacity};
ghost use Rattle.hg_base.specs.Space.{key};
ghost use Rattle.hg_pool.specs.Picture.{place_at, places_in, room_in};
ghost use Rattle.hg_pool.specs.Keeping.{with_place, Widened};

use hg_base::{File, PageId};

/// For each page of each file the frame that it was brought into last. Whether it is still there, the
/// frame tells.
#[derive(Drop)]
pub(crate) struct Places {
    pub(crate) main: Vec<u16>,
    pub(crate) temp: Vec<u16>,
}

/// The frame at a number; 0 where there is none yet.
fn frame_of(places: &Vec<u16>, no: u32) -> usize
    ensures { result ≡ slice_index_or places.now.items no 0 }
{
    match places.get(no as usize) {
        Some(frame) => *frame as usize,
        None => 0,
    }
}

/// Sees to it that the number has a place, which is there or would be the next one.
fn widen(places: &mut Vec<u16>, no: u32)
    requires near { no ≤ length places.old.items }
    requires room { no < vec_capacity places.old }
    ensures same { (n : ℕ) → slice_index_or places.new.items n 0 ≡ slice_index_or places.old.items n 0 }
    ensures there { no < length places.new.items }
    ensures wider { length places.old.items ≤ length places.new.items }
    ensures capacity { vec_capacity places.new ≡ vec_capacity places.old }
{
    if no as usize == places.len() {
        places.push_reserved(0);
    }
}

impl Places {
    /// The frame that the page was brought into last.
    pub(crate) fn at(&self, page: PageId) -> usize
        ensures { result ≡ place_at self.now (key page) }
    {
        match page.file {
            File::Main => frame_of(&self.main, page.no),
            File::Temp => frame_of(&self.temp, page.no),
        }
    }

    /// Gives the page a place, if it has none.
    pub(crate) fn reach(&mut self, page: PageId)
        requires near { page.no ≤ places_in self.old page.file }
        requires room { page.no < room_in self.old page.file }
        ensures { Widened self.old self.new page }
    {
        match page.file {
            File::Main => widen(&mut self.main, page.no),
            File::Temp => widen(&mut self.temp, page.no),
        }
    }

    /// Notes that the page is brought into the frame.
    pub(crate) fn set(&mut self, page: PageId, frame: usize)
        requires there { page.no < places_in self.old page.file }
        requires frame { frame < 65536 }
        ensures { self.new ≡ with_place self.old page frame }
    {
        match page.file {
            File::Main => self.main[page.no as usize] = frame as u16,
            File::Temp => self.temp[page.no as usize] = frame as u16,
        }
    }
}

//! What every layer of the engine names: numbers of frames, heaps, requests and pages, addresses,
//! the errors that many calls share, numbers read from bytes and written to them, and the two traits
//! that the layers above use: [`Pages`], the seam between the buffer pool and everything that is kept
//! on pages, and [`Heaps`], the working memory of queries over the same pages. [`PlainSpace`] meets
//! both in memory, for tests of what stands on them. It stands on `arrayvec` alone.
#![tactic(auto)]

mod addr;
mod bytes;
mod grants;
mod heaps;
mod pages;
mod plain;
mod plain_bytes;
mod plain_drain;
mod plain_heap;
mod plain_heaps;
mod plain_objects;
mod plain_page;
mod plain_parts;
mod plain_table;
#[cfg(test)]
mod tests;

pub use addr::Addr;
use arrayvec::ArrayVec;
pub use bytes::{get_u16, get_u32, get_u64, put_u16, put_u32, put_u64};
pub use grants::{Freeable, Grant, Ledger};
pub use heaps::Heaps;
pub use pages::{PageFault, Pages};
pub use plain::{PlainPin, PlainSpace};
use std::marker::Model;

/// The number of a frame of the pool, counted from 0. A frame has 4,096 bytes.
#[derive(Clone, Copy, PartialEq, Eq, Debug)]
pub struct FrameNo(pub u32);

/// Memory was wanted and not given. Nothing is promised on when it comes.
#[derive(Clone, Copy, PartialEq, Eq, Debug)]
pub struct NoMemory;

/// What was to be stored does not fit where it was to go. The call that answers it says when.
#[derive(Clone, Copy, PartialEq, Eq, Debug)]
pub struct NoRoom;

/// The number of a heap among those of its space.
#[derive(Clone, Copy, PartialEq, Eq, Debug)]
pub struct HeapNo(pub u32);

/// The number of a request for memory, below 16. Contracts see it as that number.
#[derive(Clone, Copy, PartialEq, Eq, Debug)]
pub struct Request(pub u8);

impl Model for Request {
    ghost use Rattle.std.specs.Prelude.{ℕ, ◌<◌};

    ghost Value = { ℕ };

    ghost view = { λ r. r.0 };

    ghost invariant = { λ r. r.0 < 16 };

    ghost inverse = { λ n. record { 0 = n } };
}

/// A time of the engine: each statement that changes rows draws the next one. 0 is before all.
#[derive(Clone, Copy, PartialEq, Eq, PartialOrd, Ord, Debug)]
pub struct Stamp(pub u32);

/// Where a version of a row stands: a page of the main file, and a slot of that page.
#[derive(Clone, Copy, PartialEq, Eq, PartialOrd, Ord, Debug)]
pub struct Place {
    pub page: u32,
    pub slot: u16,
}

/// One of the two files that hold pages.
#[derive(Clone, Copy, PartialEq, Eq, Debug)]
pub enum File {
    /// Tables and indexes.
    Main,
    /// What a statement puts aside while it runs.
    Temp,
}

/// A page: its file, and its number there, counted from 0. A page has 4,096 bytes.
#[derive(Clone, Copy, PartialEq, Eq, Debug)]
pub struct PageId {
    pub file: File,
    pub no: u32,
}

/// Where a table's pages stand in the main file: the number of the first and of the last page, which
/// are linked by their successors; neither where the table has no page.
#[derive(Clone, Copy, PartialEq, Eq, Debug)]
pub struct Table {
    pub first: Option<u32>,
    pub last: Option<u32>,
}

impl Place {
    ghost use Rattle.std.specs.Prelude.{◌≡◌, ◌≤◌, ◌+◌, ◌*◌, ◌^◌, IfSome, IfNone};

    /// The place as one number, as the entries of an index tree have it: the page's number times
    /// 65,536, plus the slot.
    pub fn number(self) -> u64
        ensures { result ≡ self.page * 65536 + self.slot }
    {
        self.page as u64 * 65_536 + self.slot as u64
    }

    /// The place that a number stands for, if it is one: its page's number is below 2^32.
    pub fn of_number(number: u64) -> Option<Place>
        ensures some { IfSome result (λ place. place.page * 65536 + place.slot ≡ number) }
        ensures none { IfNone result (2 ^ 48 ≤ number) }
    {
        match u32::try_from(number / 65_536) {
            Ok(page) => Some(Place {
                page,
                slot: (number % 65_536) as u16,
            }),
            Err(_) => None,
        }
    }
}

/// Where an ordered tree of keys and places stands: its file, and the number of the page at its top.
/// Its pages are linked by their successors from there on.
#[derive(Clone, Copy, PartialEq, Eq, Debug)]
pub struct Tree {
    pub file: File,
    pub top: u32,
}

/// An index of a table: its tree, the table's columns that make its key, in order, and whether no two
/// rows may have one key.
#[derive(Drop)]
pub struct Index {
    pub tree: Tree,
    pub columns: ArrayVec<u8, 16>,
    pub unique: bool,
}

/// What a reader of a page found wrong with it.
#[derive(Clone, Copy, PartialEq, Eq, Debug)]
pub enum Check {
    /// The byte that names the kind of a page or an object is another one.
    Kind,
    /// A count, offset or length is out of range, or two records share a byte.
    Size,
    /// A page of a heap names a frame that there is not, or that another page of the heap names.
    Frame,
    /// An address is neither nil nor an object that fits.
    Link,
    /// A child of an index page is not one level below, or a page that is named cannot be pinned.
    Level,
    /// Entries of an index page do not ascend, or a walk passes more pages than there are.
    Order,
    /// Bytes are no row, or an entry names a place where no row is.
    RowBytes,
}

//! Runs: lists of records that a statement puts aside on temporary pages, writes at the end and reads
//! from the front. It stands on `hg_base` (and `arrayvec`) alone; the contract that the layers above
//! use is that of the calls of [`Run`].
//!
//! ```text
//! first -> [ record | record | record ] -> [ record | record ] -> [ record ] <- last
//!
//! a page    | R | .. | first free byte | ..  | records, one behind the other | free .. |
//!   byte     0        2                  4    16
//! a record  | length | bytes |
//!   bytes     2        1 to 4,000
//! ```
//!
//! A record goes to the last page where it fits there, and else to a new page behind it. So the records
//! of each page, and the number of pages, are a function of the lengths of the records (`layout` and
//! `pages_for` of `specs/Layout.antt`). The pages are linked by their successors, which are kept beside
//! the pages: they are known over every space. A read pins one page, and copies its record once: a
//! position that comes to the end of a page moves to the next one at once, without a pin. Only where the
//! run grew by a page behind a position at its end does the next read pin two.
#![tactic(auto)]

mod page;
mod read;
#[cfg(test)]
mod tests;
mod write;

/// A run: the numbers of its first and its last temporary page, neither where it has no record, and
/// how many records it has. Its pages are given back by `destroy` alone.
#[derive(Clone, Copy, PartialEq, Eq, Debug)]
pub struct Run {
    pub first: Option<u32>,
    pub last: Option<u32>,
    pub records: u64,
}

/// A place between two records of a run. With no page and the offset 0 it is before the first one; it
/// is moved by `read` of that run alone.
#[derive(Clone, Copy, PartialEq, Eq, Debug)]
pub struct RunPos {
    pub page: Option<u32>,
    pub offset: u16,
}

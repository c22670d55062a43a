//! The buffer pool: a space of pages over two devices, kept in raw frames of memory that are reserved
//! when the pool is opened.
//!
//! ```text
//!   page maps (hg_space)     which pages are taken, and their successors
//!   places                   page -> the frame that it was brought into last
//!   marks                    frame -> its page, dirty, pinned             (`frames`)
//!   memory (hg_raw)          frame -> 4,096 bytes: at home, or in the chain of the pinned ones
//!   clock (hg_clock)         frame -> score and whether it is out; the hand gives the next victim
//! ```
//!
//! It stands on the base crate, the traits of the outside, the raw frames, the clock and the page maps.
//! The contract that the layers above use is that of [`hg_base::Pages`], which [`Pool`] implements,
//! with what `Pool::new` says of a new pool.
//!
//! What a call asks of the devices is said by their own counts of reads and writes (`Asked`): a page
//! that is in a frame asks nothing, and any other at most one write, of the page that leaves the frame
//! where it owes one, and then one read. The pool's counts rise just as those do. A page that was
//! read owes nothing, and only new bytes make it owe a write (`owed`): no other call changes that.
//!
//! Beside pins, `take_page` hands a page out with its frame, as a chain of its own, and `put_page` takes
//! it back; more than eight frames are always left for pins and for a victim. `resize` changes how many
//! frames are in use while none is out.
#![tactic(auto)]

mod calls;
mod devices;
mod frames;
mod lending;
mod maps;
mod opening;
mod pages;
mod parts;
mod places;
mod pool;
mod resizing;
mod store;
#[cfg(test)]
mod tests;

pub use pages::PoolPin;
pub use pool::Pool;

/// What an engine is opened with.
#[derive(Clone, Copy, PartialEq, Eq, Debug)]
pub struct Config {
    /// How many frames are reserved.
    pub max: u32,
    /// How many frames are in use at the beginning.
    pub pool: u32,
    /// For how many requests at once memory is shared out.
    pub mpl: u32,
    /// How many pages the main file may have.
    pub main_pages: u32,
    /// How many pages the temporary file may have.
    pub temp_pages: u32,
}

/// What a pool did so far. Each count stops at 2^64 - 1.
#[derive(Clone, Copy, PartialEq, Eq, Debug)]
pub struct PoolCounts {
    /// Reads of the two devices, failed ones too.
    pub reads: u64,
    /// Writes to the two devices, failed ones too.
    pub writes: u64,
    /// Pages that left their frame so that another one could come in.
    pub evictions: u64,
}

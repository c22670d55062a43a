//! Slotted pages: a page of 4,096 bytes that holds records in numbered slots.
//!
//! ```text
//!   0     2       4        6       16                           lowest               4,096
//!   | 'S' | slots | lowest | zeros | slot 0 | slot 1 |   gap    | record 1 | record 0 |
//!                                    4 bytes: where its record begins, how long it is
//! ```
//!
//! A record is put right below the others, with a new slot behind the others, as long as both fit into the
//! gap: an insertion then looks at the head alone (about 100 instructions; to check 128 slots was 1,900).
//! Where there is no gap an empty slot is used, and the page is closed up where that makes the room.
//!
//! It stands on `hg_base`; the proof of [`slot::get_mut`] cites lemmas of `core`. A page is seen as what
//! it shows at each slot, a record or none (`record_at`), and as its number of slots; the contract that
//! the layers above use is that of [`slot::insert_parts`], which takes bytes that may be any.
#![tactic(auto)]

mod change;
mod close;
mod entry;
mod find;
mod room;
pub mod slot;
#[cfg(test)]
mod tests;
mod verify;

pub use entry::Bounds;

//! The catalog: which tables and indexes there are, in order of creation, and where their pages stand.
//! A table is found by its name by hashing. It stands on `hg_base` and `hg_model` (and `indexmap` and
//! `arrayvec`) alone; the contract that the layers above use is that of [`Catalog`].
//!
//! ```text
//! tables    name -> columns, first and last page        0, 1, 2 .. in order of creation, at most 64
//! indexes   name or none, number of the table,          0, 1, 2 .. in order of creation, at most 64
//!           tree, numbers of the columns, unique
//! ```
//!
//! Contracts see a catalog as these two lists (`Contents`). What holds of every catalog is `IsSound`:
//! tables have different names, as have the indexes with a name, each table has 1 to 16 columns of
//! different names, and the columns of an index are different columns of its table, which make a key
//! that is not too long. Room for all of it is taken when the catalog is made, so no later call wants
//! memory.
#![tactic(auto)]

mod catalog;
mod entries;
#[cfg(test)]
mod tests;

pub use catalog::Catalog;

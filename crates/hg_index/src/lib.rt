//! Indexes: keys over the versions of a table. An index is an ordered tree with one entry for each version,
//! seen or not: its key is the coded values of the index's columns, one behind the other, and its place is
//! that of the version, as one number.
//!
//! ```text
//! a version      | 7 | 'ab' | NULL |     on page 3, in slot 2
//!                  0    1      2
//!
//! its entry in an index over the columns 1 and 0
//!
//!   key     | 01  61 62  00 | 01  80 00 00 07 |     place   3 * 65,536 + 2
//!                 'ab'                 7
//! ```
//!
//! NULL is the byte 0. A number is the byte 1 and four bytes, moved up by 2^31, the highest first; a text is
//! the byte 1, its characters, and the byte 0. So keys compare byte by byte as their values do, column after
//! column, NULL first, and no value's key begins another one of its type. Entries of one key stand in order
//! of their places.
//!
//! ```text
//! an index over two columns; asked for the value 5 and places from 5 on
//!
//!   entries   4 9 at 2 | 5 1 at 3   5 1 at 7   5 1 at 8 | 5 2 at 4 | 5 3 at 6 | 6 0 at 1
//!   searches             1st        2nd                   3rd        4th        5th
//!   places               too low    least 7               too low    least 6    the end: 6
//! ```
//!
//! The places of one key ascend, those of several do not. With one column the first place of a value from a
//! given one on is one search. With several, each key that begins with the value costs one or two: of its
//! entries those below the wanted places are passed over by a search from there on, and those behind the
//! first wanted place by a search behind the key.
//!
//! It stands on `hg_btree`, `hg_table` (what a version is), `hg_value`, `hg_model` and `hg_base`. The contract
//! that the layers above use is that of [`IndexCalls`], [`make`] and [`rows_may_be_entered`], and the relation
//! of a table and its indexes (`specs/Agreeing.antt`) with its laws: what keeps it (`AgreeLaws.antt`), an index
//! that is made beside the others (`BuildLaws.antt`), one index by itself and what is found in it
//! (`IndexLaws.antt`), rows whose keys compare (`RowLaws.antt`), and how many pages an entry takes
//! (`CountLaws.antt`).
#![tactic(auto)]

mod calls;
mod change;
mod find;
mod key;
mod laws;
mod life;
#[cfg(test)]
mod tests;
mod walk;

pub use calls::IndexCalls;
pub use laws::rows_may_be_entered;
pub use life::make;

//! The binder: it gives each name of a statement its table and its column, or answers the first cause
//! against the statement, in the one order of refusals. What it answers is what the definitions of
//! `hg_model` say over the tables of the catalog. It stands on `hg_catalog` and `hg_model` (and `hg_base`
//! and `arrayvec`) alone. The contract that the layers above use is that of [`bind_select`],
//! [`bind_insert`], [`bind_update`] and [`bind_delete`]: the bound form where nothing stands against the
//! statement, and else the first cause, with its name and kind. [`refuse_columns`] and [`place_key`] do the
//! same for CREATE.
//!
//! ```text
//! statement -- the tables' names, by hashing --> numbers of the tables, or 3
//!           -- aliases of FROM, a star's columns --> or 8, or 9
//!           -- names of columns, in order of text --> place of each column, or 4, 5 (of a change also 8)
//!           -- positions in ORDER BY --> or 22
//!           -- kinds, front to back, once a node --> a fit, or 6
//!           -- aggregates and grouping columns, once a node --> or 10
//!           -- widths, once a node --> or 7
//!           -- declared lengths, once a node --> bound, or 23
//! ```
//!
//! The bound form of a SELECT has numbers in the place of names; a place is the position in a row of the cross
//! product ([`places_are_positions`]). Over rows that are found by these numbers it means what the statement
//! means ([`bound_means_the_same`]), so no layer above looks at a name again:
//!
//! ```text
//! SELECT * FROM t, w ORDER BY b        t (k, v), w (a, b)
//!     nodes    b     t.k    t.v    w.a    w.b        the star written out behind the nodes of the line
//!     places   none  (0,0)  (0,1)  (1,0)  (1,1)      table in FROM, column; (255, 255) is none
//!     outputs        0      1      2      3
//!     order    position 4                            a name that is an output: its node is NULL now
//! ```
//!
//! A statement is 37 KB, so it is looked at where it lies: the calls by value are thin edges over ones that
//! take it, or its parts, by reference and fill lists that the caller keeps. Binding takes no memory.
#![tactic(auto)]

mod columns;
mod create;
mod create_index;
mod delete;
mod errors;
mod from;
mod grouping;
mod insert;
mod kinds;
mod laws;
mod lengths;
mod names;
mod nodes;
mod scope;
mod select;
#[cfg(test)]
mod select_tests;
#[cfg(test)]
mod tests;
mod typing;
mod update;
mod width;
#[cfg(test)]
mod worked_tests;

pub use create::{refuse_columns, refuse_table};
pub use create_index::{place_index, place_key};
pub use delete::{BoundDelete, bind_delete, place_delete, place_filter};
pub use errors::BindError;
pub use insert::{BoundInsert, bind_insert, place_insert, place_values};
pub use laws::{bound_is_sound, bound_means_the_same, places_are_positions, read_keys_stand_apart};
pub use nodes::Places;
pub use select::{BoundSelect, bind_select, place_select};
pub use update::{BoundUpdate, bind_update, place_sets, place_update};

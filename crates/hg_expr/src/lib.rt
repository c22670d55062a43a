//! Expressions over a row. The nodes of a statement stand in one list, each behind its children; a row
//! holds the values of the columns that they name, and for each node a slot says which of them is its.
//!
//! ```text
//! nodes   0 Col a   1 Lit 7   2 Add 0 1   3 Col b   4 Less 2 3        a + 7 < b
//! slots   0         -         -           1         -
//! row     a  b
//! ```
//!
//! It stands on the model's nodes and on rows. A value on the way is a look of 32 bytes at where it lies:
//! a node asks its children, so that only what stands below the asked node is computed, AND and OR stop
//! where their answer stands, and nothing is kept or copied. The contract that the layers above use is that
//! of [`Evaluation`]: what it answers is what the definitions say that the node stands for over the row.
#![tactic(auto)]

mod edges;
mod evaluation;
mod laws;
mod logic;
mod slots;
#[cfg(test)]
mod tests;

pub use edges::{eval, test};
pub use evaluation::Evaluation;
pub use laws::{rows_fit, tables_so_far_tell};
pub use slots::{Places, Slots, find_columns, find_slots};

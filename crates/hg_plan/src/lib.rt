//! How the rows of a bound SELECT are found: for each node the number of its value in the row that is joined,
//! and for each table of FROM, in its order, a loop with the columns that the nodes name and the conditions that
//! are tested once a row of it has joined.
//!
//! ```text
//! SELECT a, w.c FROM t JOIN w ON t.b = w.b WHERE a > 1 AND c < 5
//!
//! loops    t (a, b)       w (b, c)
//! tests    a > 1          t.b = w.b, c < 5        split at AND, each at the first table where all is there
//! joined   a  b           b  c
//! slots    0  1           2  3                    of each column node; 255 of any other
//! ```
//!
//! A condition is tested at the last table that has a column in it, and one without a column at the first: each
//! node's last table is found from the leaves up, and a mark goes down from each condition through its ANDs.
//!
//! It stands on the binder and on the slots of `hg_expr`. The contract that the layer above uses is that of
//! [`Plan::fill`]; what it asks holds of every bound SELECT ([`bound_may_be_planned`]).
#![tactic(auto)]

mod conditions;
mod laws;
mod plan;
mod read_laws;
#[cfg(test)]
mod tests;

pub use laws::bound_may_be_planned;
pub use plan::{Plan, TableLoop};
pub use read_laws::{read_deletes_fit, read_selects_fit, read_updates_fit};

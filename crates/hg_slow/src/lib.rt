//! SELECT by its plain definition, for small tables. It stands on `hg_model` alone, and on nothing of
//! the engine: what it answers is what the definitions say, row by row, with the whole cross product in
//! memory. Its one contract is that of `slow_select`.
#![tactic(auto)]

mod answerable;
mod compare;
mod evaluate;
mod laws;
mod scope;
mod slow;
mod slow_groups;
mod slow_rows;
mod tables;

pub use answerable::is_answerable;
pub use laws::{bound_is_answerable, bound_is_narrow, read_is_well_formed};
pub use slow::{slow_answer, slow_select};
pub use tables::SlowTable;

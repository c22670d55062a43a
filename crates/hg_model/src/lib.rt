//! The definitions that every statement about the engine cites: names, values, rows and the trees of
//! statements, with what they mean, how their tables are joined and how many pages they may need; and
//! scripts as lines. It stands on nothing of the engine, and nothing in it knows of what stands on a page,
//! of frames or of runs.
#![tactic(auto)]

mod laws;
mod names;
mod tables;
mod trees;
mod values;

pub use laws::{
    bags, changes_count_rows, conditions_keep_rows, scripts_are_lines, turns_give_all,
    values_lie_below_their_bounds,
};
pub use names::Name;
pub use tables::{FromColumn, SortKey, Target};
pub use trees::{
    Cmp, ColRef, Column, Command, Count, Delete, Fold, FromTable, Insert, Literal, NewColumn,
    NewIndex, NewTable, Node, Nodes, Op, OrderBy, OrderKey, Output, Parsed, Select, Span, SqlType,
    Truth, Update,
};
pub use values::{Chars, NodeValue, Value};

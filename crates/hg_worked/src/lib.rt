//! Worked statements: many small ones, each with the answer that was worked out by hand, against the
//! definitions of `hg_model`, and some of them run by the slow evaluator.
#![tactic(auto)]

mod rows;

pub use rows::{
    changed_tables, created_things, filters, grouped_statements, joins, limits, lines_read, needs,
    numbers_out_of_range, ordered_statements, plans, refused_changes, refused_statements, scripts,
    too_many_things,
};

#[cfg(test)]
mod bound_tests;
#[cfg(test)]
mod tests;

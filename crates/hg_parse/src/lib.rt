//! Reads a line of a script: the law that the grammar reads it in one way, and the parser that gives it.
//!
//! ```text
//!     bytes --(hg_scan)--> tokens --(the descent)--> tree and texts --(ranges, counts)--> reading
//!
//!     input        what is at hand: one piece, and the bytes behind it
//!     constants    one function for each rule of the grammar, with one token of look-ahead: chains
//!     lists        group from the left by a loop, and parentheses nest at most 32 deep
//!     insert
//!     create
//!     expression
//!     select
//!     command
//!     room, keep   what is kept: as many items of each list as a statement may have, and a count of all
//!     judge, line  numbers out of range, and what there are too many of
//! ```
//!
//! No list of tokens is kept, and no byte is looked at again: what does not fit is counted and not kept, and
//! the line is read on, for a later error may come before it in the order of refusals.
//!
//! It stands on the scanner of `hg_scan` and the grammar of `hg_model`. The contract that the layer above uses
//! is that of [`parse_into`], with [`a_line_has_one_reading`]. Each rule's function is proved to give what the
//! descent of the definitions gives of the tokens at hand, with the builder that keeps so much; the laws say
//! what this tells of the whole tree.
#![tactic(auto)]

mod command;
mod constants;
mod create;
mod expression;
mod input;
mod insert;
mod judge;
mod keep;
mod laws;
mod line;
mod lists;
mod parsed;
mod places;
mod room;
mod select;
mod statement;
#[cfg(test)]
mod tests;

pub use laws::{
    a_line_has_one_reading, a_line_is_read_by_descent, fronts_are_kept, tokens_have_one_tree,
    what_is_kept_judges_alike,
};
pub use line::parse_into;
pub use parsed::parse;
pub use places::HeadingAt;
pub use room::Room;
pub use statement::{ParseError, Statement};

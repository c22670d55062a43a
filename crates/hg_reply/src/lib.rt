//! The seam between a script and the engine that answers it: reply lines with their bytes, and the
//! trait [`Machine`] of whatever answers statements in small steps. It stands on the plain machine
//! (`hg_machine`) and on rows (`hg_value`).
//!
//! The contract used above is that of [`Machine`]: each step says the lines of one small step of the
//! plain machine, and a line that says that a device failed comes only where that device's count rose.
#![tactic(auto)]

mod asked;
mod commands;
mod lent;
mod lines;
mod machine;
mod reply;
mod row;

pub use asked::{Asked, CommandAt, DeleteAt, IndexAt, InsertAt, SelectAt, TableAt, UpdateAt};
pub use commands::built;
pub use lent::asked_by;
pub use lines::{Cursor, Figures, ReplyLine, Text, Words, print};
pub use machine::{Machine, Next};
pub use reply::{REPLY_BYTES, Reply};

#[cfg(test)]
mod tests;

//! The plain machine that the engine is measured by: what it answers to the lines of a script, over tables
//! as lists of rows and cursors as bags of rows that are left, in small steps. It stands on the definitions
//! of `hg_model` and has no loop, no buffer and no memory.
//!
//! ```text
//!     a line --> Begin --> lines at once --> Turn, Turn, .. --> Close --> the next line
//!                  |        (Replies)          (Rounds)
//!                  one file for each command, which says the line of every refusal and every change
//!
//!     Run        lines in order, and a run that stops in the midst of a line
//!     Loose      what holds over devices that do not tell what stands on their pages
//!     Outcome    what a run took from its source and gave to its sink
//!     Laws       turns end, a command can always finish, a line that fits never fills a file, ..
//! ```
//!
//! The contract used above: `specs/Plain/Run.antt` says which reply lines are a run of the machine over a
//! script, and `specs/Plain/Outcome.antt` what a run of the engine took and gave. Each function here carries
//! laws of `specs/Plain`, and computes nothing.
#![tactic(auto)]

mod plain;

pub use plain::{
    commands_can_finish, fitting_lines_never_fill, floors_prevent_the_limit, lines_end_at_rest,
    rows_and_memory_fit_a_reply, runs_are_loose_runs, runs_are_steady, turns_end,
    turns_fit_a_reply, turns_give_answers, turns_take_what_they_give, worked_scripts,
};

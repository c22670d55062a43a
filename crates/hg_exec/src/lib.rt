//! The rows of a SELECT over one to four tables, by nested loops. It gives one row a turn, holds no page
//! between turns, and takes no memory.
//!
//! ```text
//! loops    t (a, b)       u (b, c)        v (c)           the tables of FROM, with their named columns
//! tests    a > 1          t.b = u.b       u.c = v.c       each where its columns are first all there
//!
//! open     t at 7.3       u at 9.0        v at 2.5        where each stands: page and slot of its row
//! joined   a  b           b  c            c               values of the rows so far, in one kept row
//!          ^0             ^2              ^4              start: where a loop's own values begin
//! ```
//!
//! A look is one step: the innermost open loop gives its next row. Its values go behind those of the loops
//! around it; where its conditions hold, the next loop is opened, or, inside the last one, the row is given.
//! Where it has no row left, it is closed. So a later table is read again for each row joined so far, and no
//! row is kept but the joined one and the one that was read.
//!
//! What loops owe ([`Loops::turn`]) is a list of rows, a function of the rows of the tables that the snapshot
//! sees and of where the loops stand: the innermost loop's first, and then those of the loop around it.
#![tactic(auto)]

mod fits;
mod laws;
mod loops;
mod next;
mod plan;
mod whole;

pub use laws::{loops_mean_select, planned_may_run, planned_means_the_same};
pub use loops::{Loops, Turn};
pub use plan::{OpenLoop, Statement};

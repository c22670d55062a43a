//! Runs a script: reads its lines from a source, answers each by an engine, and writes the replies to
//! a sink. It stands on the traits of the outside (`hg_io`), on the plain machine (`hg_machine`), on the
//! parser (`hg_parse`), on the seam to an engine (`hg_reply`) and, for its two public calls, on the engine
//! (`hg_engine`). Memory is taken at opening alone.
//!
//! ```text
//!     source --(bytes)--> session --(line)--> parser --(command where it lies)--> engine
//!                            |                                                      |
//!     sink <--(32 KB)-- what waits <------------------(lines of one step)-----------+
//! ```
//!
//! The contract used above is that of `run`: for any bytes of a script and any faults of
//! source, sink and devices, what is written is the text of a run of the plain machine over the lines
//! of the script, as far as the status says; and a fault is answered only where that object's count
//! of faults rose.
#![tactic(auto)]

mod asking;
mod lines;
mod output;
mod serving;
mod session;
mod statuses;
mod top;

pub use hg_engine::{Config, Devices, Engine};
pub use serving::serve;
pub use statuses::Status;
pub use top::{Outcome, run};

#[cfg(test)]
mod embedding;
#[cfg(test)]
mod tests;

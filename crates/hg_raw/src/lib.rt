//! The memory of the frame pool: one raw block, reserved at opening, and its frames. A `Region` has
//! the frames at home; a `Chain` has those that are out. A frame's bytes are reached through the
//! chain that has it, and through no other value. It stands on the base crate.
//!
//! ```text
//!   block    | 0: before, behind | 1: before, behind | ..   | page 0 | page 1 | ..
//!              8 bytes a frame, zeros at opening              4,096 bytes a frame
//!   home     | 0: out | 1: home | ..          a byte a frame
//!   blank    | 0: no  | 1: yes  | ..          a byte a frame: nothing was written to its page yet
//! ```
//!
//! Opening writes no page, since a pool of 65,536 frames would write 268 MB then, of which a run with
//! few frames in use touches little. So a frame that was never taken costs its word and two bytes.
//!
//! The layer above uses this: a chain is a list of frames with their bytes. Taking, joining,
//! splitting and giving back move frames, and change no byte.
//! Each of them takes the same time however long the chain is; a chain given back takes a step a
//! frame.
#![tactic(auto)]

mod chain;
mod pages;
mod region;
mod shell;
mod slots;

pub use chain::Chain;
pub use region::Region;

#[cfg(test)]
mod tests;

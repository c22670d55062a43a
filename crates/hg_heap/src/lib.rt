//! Heaps over the pool: locked in use, stolen page by page when they rest, and brought back into any
//! frames with their addresses rewritten.
//!
//! ```text
//!   unlocked   pages 7 -> 3 -> 12 of the temporary file, in frames or not, as the clock has it
//!
//!              lock     each page is handed out by the pool with its frame      page 7 in frame 5
//!                       each page names the frame in which it last stood        it stood in frame 3
//!                       all of them make the map from old frames to new ones    3 -> 5, 5 -> 3, 9 -> 9
//!                       where one has moved, each is rewritten under this map,  word 12416 -> 20608
//!                       each address once, and names its new frame
//!
//!   locked     one chain of frames; an address is frame * 4096 + offset
//! ```
//!
//! The frames of a locked heap are in one chain, in the order of its pages, so the bytes at an address are
//! found from the number of its frame alone, with no walk over pages or frames. The map of frames is a list
//! here, in which each page is looked up once.
//!
//! It stands on the pool, the raw frames, and the rewriting of pages. The contract that the layer above
//! uses is that of [`Heap::lock`]: the objects of the heap, whatever they are, stand in the new frames.
#![tactic(auto)]

mod handing;
mod heap;
mod moving;
#[cfg(test)]
mod tests;

pub use heap::{Heap, Locked};

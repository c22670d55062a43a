//! The map of the pages of one file: which of them are used, and a successor for each that is. It
//! stands on the base crate alone. The layer above sees it as a `PageMap` and uses the contracts of
//! [`Space`], above all that of [`Space::take`].
//!
//! ```text
//! free     levels of bits, each bit for a word of the next level | 64 free pages | 64 free pages | ..
//! linked   which pages have a successor                          | 64 pages      | 64 pages      | ..
//! links    the successors                                        | page 0 | page 1 | ..
//!                                                                  up to the highest page ever taken
//! ```
//!
//! Since the lowest free page is taken, the pages that were ever taken are the first ones: only these
//! have a bit and a link. To open a map of 1,048,576 pages is to write 4,162 words, and not 33,000 and
//! 4 MB of links, which took most of the 19 million instructions of an empty script.
#![tactic(auto)]

mod bits;
mod levels;
mod space;
mod summary;
#[cfg(test)]
mod tests;

pub use space::Space;

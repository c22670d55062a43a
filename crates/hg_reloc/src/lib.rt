//! The pages of heaps as bytes: what a page has to be, the objects on it, and the rewriting of its
//! addresses when the pages of a heap come into other frames.
//!
//! ```text
//!   0      2     4       8       16      48       64                              end         4,096
//!   | 'H' | end | frame | zeros | roots | zeros  | object | object | .. | object |    free     |
//!
//!   an object:  0        2      3       8      16
//!               | length | kind | zeros | link | payload, or the words of a directory | zeros |
//! ```
//!
//! An address is `frame * 4096 + offset`, 0 is nil; objects stand on a grid of 16 bytes. It stands on
//! `hg_base` alone. The contract that the layer above uses is that of [`rewrite`]: each address of the
//! page, the four roots and the words of directories among them, becomes the moved word of the word that
//! stood there, once, also where pages land in one another's old frames; every other byte stays.
//!
//! What this means for a whole heap are laws over definitions, for the store that keeps its pages:
//! `StandingLaws` (a heap stands in its new frames), `FittingLaws` ([`verify`] takes each of its pages),
//! `WritingLaws` and `HeapWritingLaws` (what a new page, a placed object, a root, a word and a payload do),
//! `PlaceLaws` (where the object stands that an address names).
#![tactic(auto)]

mod checks;
mod map;
mod moving;
mod object;
#[cfg(test)]
mod tests;

pub use checks::verify;
pub use map::{Move, MoveMap};
pub use moving::{move_page, rewrite};
pub use object::{Object, next_object, object_at};

/// The bytes of a page.
const PAGE: usize = 4096;

/// Where the frame stands in which the page last stood.
const FRAME: usize = 4;

/// Where the roots of a page stand, and how many they are; where its objects begin.
const ROOTS: usize = 16;

const ROOT_COUNT: usize = 4;

const FIRST: usize = 64;

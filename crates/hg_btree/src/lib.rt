//! Ordered trees of keys and places on pages. It stands on `hg_base` (and `arrayvec`) alone; the
//! contract that the layers above use is that of [`TreeCalls`].
//!
//! ```text
//! level 2                     [ top ]
//! level 1           [ a ]                [ b ]
//! level 0    [ c ] -> [ d ] -> [ e ] -> [ f ] -> none        leaves, each names the next one
//!
//! a page     | L or N | level | entries | first free byte | .. | next leaf | first child | entries ..
//!   byte     0        1       2         4                 6    8           12            16
//! an entry   | length of the key | place | key | child, on an inner page |
//!   bytes    2                   8             4
//! ```
//!
//! A child's entries are not before its own entry, and before the next one. All bytes of a page that the
//! drawing does not name are zero.
//!
//! Entries have no fixed length and no directory, so an entry is found by one pass over the page's bytes:
//! about half of the entries of one page a level are compared, in place. So the price of one entry decides.
//! It is passed with one read of its length and one of its key's first eight bytes, as a number: that takes
//! 14 instructions, where keys compared byte by byte took 85. Only keys that begin alike are compared
//! further, eight bytes at a time. Twelve bytes of key give 185 entries a leaf; in a tree of 100,000 of them
//! a look-up takes 2,800 instructions, and an insertion 3,700 where keys ascend and 3,000 where they come in
//! a mixed order.
//!
//! A tree is seen as its entries in order, its pages as a line of successors from the top on, and its
//! number of leaves (`IsTree` of `specs/Trees.antt`). Over levels, not over nodes: each level is the list
//! of its pages with their bounds, and each level is the children of the one above it, one page behind
//! the other. So a page that is cut in two changes its own level's list by one place and leaves the
//! lists above and below as they were.
//!
//! A split reads the page and the one above it into copies, puts the halves together there, pins the pages
//! and takes its new ones, and only then writes them whole: what fails before that has changed nothing. It
//! is made on the way down, where the longest entry would not fit, so no step goes back up.
//!
//! A leaf is split where an entry does not fit it: in the middle, or, where the entry goes behind all of the
//! last leaf, so that the old leaf stays full. So leaves are full where keys ascend, and two thirds full in a
//! mixed order.
#![tactic(auto)]

mod calls;
mod change;
mod commit;
mod delete;
mod grow;
mod halve;
mod insert;
mod keys;
mod life;
mod look;
#[cfg(test)]
mod mixed_tests;
mod node;
mod plan;
mod seek;
mod split;
mod store;
#[cfg(test)]
mod tests;
mod write;

pub use calls::TreeCalls;
pub use life::make;

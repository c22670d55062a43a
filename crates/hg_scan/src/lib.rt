//! Cuts a line into tokens, one at a time.
//!
//! ```text
//!     insert into t values (1, 'it''s') -- a comment
//!     '----' '-----------------------------------------
//!     piece   rest, which the next piece is cut off
//!
//!     kind    Keyword(Insert)   Name   Number   Text     Sign(Open)   End
//!     bytes   insert            t      1        it''s
//! ```
//!
//! A [`Scanner`] is the rest of a line. [`Scanner::next_token`] cuts one piece off its front: a kind and
//! the bytes of the line that it is spelled by, never a copy. It decides by the kind of the first byte,
//! which one table of 256 kinds gives, looks at each byte of the piece once, and at most at one byte
//! behind it. What a piece stands for is got from the piece when it is wanted: a name, a number, a text.
//!
//! It stands on the definitions of tokens in `hg_model`. The contract that the parser uses is that of
//! [`Scanner::next_token`] with the laws of [`laws`].
#![tactic(auto)]

mod bytes;
mod cut;
mod keywords;
pub mod laws;
mod number;
mod piece;
mod scanner;
#[cfg(test)]
mod tests;
mod text;
mod words;

pub use number::Number;
pub use piece::{Kind, Piece};
pub use scanner::Scanner;
pub use words::{Keyword, Sign};

//! A piece of a line: what stands there, and the bytes that it is spelled by.
ghost use Rattle.std.specs.Prelude.{IsTrue};
ghost use Rattle.hg_scan.specs.Pieces.{is_piece};

use crate::bytes::to_lower;
use crate::number::Number;
use crate::text::{push_plain, push_undoubled, undoubled_len};
use crate::words::{Keyword, Sign};
use arrayvec::ArrayString;
use hg_model::Name;

/// What a piece is.
#[derive(Clone, Copy, PartialEq, Eq)]
pub enum Kind {
    /// Nothing but blanks and a comment is left of the line.
    End,
    /// No token can begin here.
    Wrong,
    Keyword(Keyword),
    /// A word that is not reserved.
    Name,
    /// One or more digits.
    Number,
    /// A text. Its bytes are those between its quotes, with each quote in it doubled.
    Text,
    Sign(Sign),
}

/// A piece of a line. Its bytes are those of a word or a number in the line, and those between the
/// quotes of a text; of any other piece they say nothing.
#[derive(Clone, Copy)]
pub struct Piece<'a> {
    pub kind: Kind,
    /// Whether a text has a doubled quote.
    pub doubled: bool,
    pub bytes: &'a [u8],
    ghost spelled: { IsTrue (is_piece kind doubled bytes.now) },
}

impl<'a> Piece<'a> {
    ghost use Rattle.std.specs.Prelude.{◌≡◌, ◌≤◌, ◌<◌, ◌+◌, ◌++◌, ◌^◌, length, take, nat_lt, MatchOption};
    ghost use Rattle.hg_model.specs.Tables.{same_name};
    ghost use Rattle.hg_model.specs.Tokens.{lower, number_of};
    ghost use Rattle.hg_scan.specs.Cutting.{undoubled};
    ghost use Rattle.hg_scan.specs.Shown.{IsNumber};
    ghost use Rattle.arrayvec.specs.ArrayString.{array_string_len};

    /// Whether the piece is spelled so in lower case: for the words that are read as such only where
    /// the grammar has them, and are names elsewhere.
    pub fn is_spelled(&self, word: &[u8]) -> bool
        ensures { result ≡ same_name (lower self.now.bytes.now) word.now }
    {
        if self.bytes.len() != word.len() {
            return false;
        }
        for (i, b) in self.bytes.iter().enumerate() {
            if to_lower(*b) != word[i] {
                return false;
            }
        }
        true
    }

    /// Whether a name has more than 30 letters.
    pub fn is_long_name(&self) -> bool
        ensures { result ≡ nat_lt 30 (length (lower self.now.bytes.now)) }
    {
        self.bytes.len() > 30
    }

    /// The name, in lower case: its first 30 letters.
    pub fn name(&self) -> Name
        requires { self.now.kind ≡ Kind.Name }
        ensures front { result ≡ take 30 (lower self.now.bytes.now) }
        ensures whole { length (lower self.now.bytes.now) ≤ 30 → result ≡ lower self.now.bytes.now }
    {
        let mut name = Name::of_letter(to_lower(self.bytes[0]));
        for i in 1..self.bytes.len() {
            if !name.append(to_lower(self.bytes[i])) {
                return name;
            }
        }
        name
    }

    /// The number that digits name.
    pub fn number(&self) -> Number
        requires { self.now.kind ≡ Kind.Number }
        ensures { IsNumber result (number_of self.now.bytes.now) }
    {
        Number::of_digits(self.bytes)
    }

    /// The number that digits name, where it is below 2^32.
    pub fn count(&self) -> Option<u32>
        requires { self.now.kind ≡ Kind.Number }
        ensures { MatchOption result (2 ^ 32 ≤ number_of self.now.bytes.now) (λ n. n ≡ number_of self.now.bytes.now) }
    {
        match self.number() {
            Number::Magnitude(n) => u32::try_from(n).ok(),
            Number::TooLong => None,
        }
    }

    /// How many characters a text has.
    pub fn text_len(&self) -> usize
        requires { self.now.kind ≡ Kind.Text }
        ensures { result ≡ length (undoubled self.now.bytes.now) }
    {
        if self.doubled {
            undoubled_len(self.bytes)
        } else {
            self.bytes.len()
        }
    }

    /// Puts a text behind `out`, each of its quotes once.
    pub fn push_text(&self, out: &mut ArrayString<4096>)
        requires kind { self.now.kind ≡ Kind.Text }
        requires room { array_string_len out.old + length (undoubled self.now.bytes.now) ≤ 4096 }
        ensures { out.new.bytes ≡ out.old.bytes ++ undoubled self.now.bytes.now }
    {
        if self.doubled {
            push_undoubled(self.bytes, out);
        } else {
            push_plain(self.bytes, out);
        }
    }
}

//! What is at hand of a line: the piece that was cut off last, with one look at it before it is taken.
ghost use Rattle.std.specs.Prelude.{◌≡◌, []};
ghost use Rattle.std.specs.List.{list_any};
ghost use Rattle.hg_model.specs.Reading.{is_long_name, is_long_text};
ghost use Rattle.hg_model.specs.Tables.{same_name};
ghost use Rattle.hg_parse.specs.AtHand.{from_token};
ghost use Rattle.hg_scan.specs.Shown.{token_of};
ghost use Rattle.hg_scan.specs.Words.{word_of, bytes_of};

use crate::places::{NameAt, NumberAt, TextAt};
use hg_scan::{Keyword, Kind, Piece, Scanner, Sign};

/// The line is not in the grammar.
#[derive(Clone, Copy)]
pub struct Syntax;

/// A line from some token on.
#[derive(Clone, Copy)]
pub struct Input<'a> {
    pub scanner: Scanner<'a>,
    pub piece: Piece<'a>,
    /// Whether a name that was cut off has more than 30 letters.
    pub long_name: bool,
    /// Whether a text that was cut off has more than 255 characters.
    pub long_text: bool,
}

fn is_same_keyword(a: Keyword, b: Keyword) -> bool
    ensures { result ≡ same_name (word_of a) (word_of b) }
{
    a == b
}

fn is_same_sign(a: Sign, b: Sign) -> bool
    ensures { result ≡ same_name (bytes_of a) (bytes_of b) }
{
    a == b
}

fn has_long_name(piece: &Piece<'_>) -> bool
    ensures { result ≡ list_any is_long_name (from_token (token_of piece.now) []) }
{
    match piece.kind {
        Kind::Name => piece.is_long_name(),
        _ => false,
    }
}

fn has_long_text(piece: &Piece<'_>) -> bool
    ensures { result ≡ list_any is_long_text (from_token (token_of piece.now) []) }
{
    match piece.kind {
        Kind::Text => 255 < piece.text_len(),
        _ => false,
    }
}

impl<'a> Input<'a> {
    ghost use Rattle.std.specs.Prelude.{◌≡◌, ◌≤◌, ◌<◌, ◌+◌, ◌&&◌, false, length, IfSome};
    ghost use Rattle.std.specs.Bool.{OnTrue};
    ghost use Rattle.std.specs.List.{list_any};
    ghost use Rattle.std.specs.Option.{is_some, option_map};
    ghost use Rattle.hg_model.specs.Reading.{is_long_name, is_long_text};
    ghost use Rattle.hg_model.specs.Tokens.{Word, is_reserved};
    ghost use Rattle.hg_model.specs.Tokens.{Sign as SignToken};
    ghost use Rattle.hg_parse.specs.AtHand.{tokens, carried, left, stream, is_whole, past, word_at, number_at, letters_at, name_in, digits_in, text_in, told_at, GoesOn};
    ghost use Rattle.hg_parse.specs.Descent.{name};
    ghost use Rattle.hg_parse.specs.Keeping.{Kept};
    ghost use Rattle.hg_parse.specs.Rules.{number, is_end};
    ghost use Rattle.hg_parse.specs.Steps.{eats, behind};
    ghost use Rattle.hg_scan.specs.Words.{word_of, bytes_of};

    /// A line from its first token on.
    pub fn new(line: &'a [u8]) -> Input<'a>
        ensures tokens { tokens result ≡ stream line.now }
        ensures carried { carried result ≡ record { whole = is_whole line.now; long_name = list_any is_long_name (stream line.now); long_text = list_any is_long_text (stream line.now) } }
        ensures left { left result ≤ length line.now }
    {
        let mut scanner = Scanner::new(line);
        let piece = scanner.next_token();
        Input {
            scanner,
            piece,
            long_name: has_long_name(&piece),
            long_text: has_long_text(&piece),
        }
    }

    /// Takes the next piece.
    fn advance(&mut self)
        requires { 0 < length (tokens self.old) }
        ensures tokens { tokens self.new ≡ behind (tokens self.old) }
        ensures left { left self.new ≤ length self.old.scanner.rest.now }
        ensures goes_on { GoesOn self.old self.new }
    {
        self.piece = self.scanner.next_token();
        let long_name = has_long_name(&self.piece);
        let long_text = has_long_text(&self.piece);
        self.long_name |= long_name;
        self.long_text |= long_text;
    }

    /// Whether a reserved word comes next.
    pub fn is_keyword(&self, word: Keyword) -> bool
        ensures { result ≡ eats (Word (word_of word)) (tokens self.now) }
    {
        match self.piece.kind {
            Kind::Keyword(found) => is_same_keyword(word, found),
            _ => false,
        }
    }

    pub fn is_sign(&self, sign: Sign) -> bool
        ensures { result ≡ eats (SignToken (bytes_of sign)) (tokens self.now) }
    {
        match self.piece.kind {
            Kind::Sign(found) => is_same_sign(sign, found),
            _ => false,
        }
    }

    /// Whether a word comes next that is a name elsewhere.
    pub fn is_soft(&self, word: &[u8]) -> bool
        requires { is_reserved word.now ≡ false }
        ensures { result ≡ eats (Word word.now) (tokens self.now) }
    {
        match self.piece.kind {
            Kind::Name => self.piece.is_spelled(word),
            _ => false,
        }
    }

    /// Takes a reserved word where it comes next, and answers whether it did.
    pub fn eat_keyword(&mut self, word: Keyword) -> bool
        ensures found { result ≡ eats (Word (word_of word)) (tokens self.old) }
        ensures rest { tokens self.new ≡ past result (tokens self.old) }
        ensures goes_on { GoesOn self.old self.new }
        ensures shorter { OnTrue result (length (tokens self.new) < length (tokens self.old)) }
    {
        let found = self.is_keyword(word);
        if found {
            self.advance();
        }
        found
    }

    pub fn eat_sign(&mut self, sign: Sign) -> bool
        ensures found { result ≡ eats (SignToken (bytes_of sign)) (tokens self.old) }
        ensures rest { tokens self.new ≡ past result (tokens self.old) }
        ensures goes_on { GoesOn self.old self.new }
        ensures shorter { OnTrue result (length (tokens self.new) < length (tokens self.old)) }
    {
        let found = self.is_sign(sign);
        if found {
            self.advance();
        }
        found
    }

    pub fn eat_soft(&mut self, word: &[u8]) -> bool
        requires { is_reserved word.now ≡ false }
        ensures found { result ≡ eats (Word word.now) (tokens self.old) }
        ensures rest { tokens self.new ≡ past result (tokens self.old) }
        ensures goes_on { GoesOn self.old self.new }
        ensures shorter { OnTrue result (length (tokens self.new) < length (tokens self.old)) }
    {
        let found = self.is_soft(word);
        if found {
            self.advance();
        }
        found
    }

    pub fn name(&mut self) -> Result<NameAt<'a>, Syntax>
        ensures reads { (k : Kept) → name k (tokens self.old) ≡ told_at k word_at result self.new }
        ensures goes_on { GoesOn self.old self.new }
    {
        let piece = self.piece;
        match piece.kind {
            Kind::Name => {}
            _ => return Err(Syntax),
        }
        self.advance();
        Ok(NameAt { piece })
    }

    pub fn number(&mut self) -> Result<NumberAt<'a>, Syntax>
        ensures reads { (k : Kept) → number k (tokens self.old) ≡ told_at k number_at result self.new }
        ensures goes_on { GoesOn self.old self.new }
    {
        let piece = self.piece;
        match piece.kind {
            Kind::Number => {}
            _ => return Err(Syntax),
        }
        self.advance();
        Ok(NumberAt { piece })
    }

    /// Takes a text where it comes next.
    #[inline(always)]
    pub fn eat_text(&mut self) -> Option<TextAt<'a>>
        ensures reads { text_in (tokens self.old) ≡ option_map letters_at result }
        ensures left { IfSome result (λ t. length (letters_at t) + left self.new ≤ left self.old) }
        ensures rest { tokens self.new ≡ past (is_some result) (tokens self.old) }
        ensures goes_on { GoesOn self.old self.new }
    {
        match self.piece.kind {
            Kind::Text => {}
            _ => return None,
        }
        let piece = self.piece;
        self.advance();
        Some(TextAt { piece })
    }

    /// Takes a number where it comes next.
    #[inline(always)]
    pub fn eat_number(&mut self) -> Option<NumberAt<'a>>
        ensures reads { digits_in (tokens self.old) ≡ option_map number_at result }
        ensures rest { tokens self.new ≡ past (is_some result) (tokens self.old) }
        ensures goes_on { GoesOn self.old self.new }
    {
        match self.piece.kind {
            Kind::Number => {}
            _ => return None,
        }
        let piece = self.piece;
        self.advance();
        Some(NumberAt { piece })
    }

    /// Takes a name where it comes next.
    #[inline(always)]
    pub fn eat_name(&mut self) -> Option<NameAt<'a>>
        ensures reads { name_in (tokens self.old) ≡ option_map word_at result }
        ensures rest { tokens self.new ≡ past (is_some result) (tokens self.old) }
        ensures goes_on { GoesOn self.old self.new }
    {
        match self.piece.kind {
            Kind::Name => {}
            _ => return None,
        }
        let piece = self.piece;
        self.advance();
        Some(NameAt { piece })
    }

    /// Whether nothing is left of the line.
    #[tactic(auto, using(crate::proofs::Cutting::or_none), unfolding(crate::specs::AtHand::tokens, crate::specs::AtHand::carried))]
    pub fn is_at_end(&self) -> bool
        ensures found { result ≡ (is_end (tokens self.now) && (carried self.now).whole) }
        ensures flags { OnTrue result (((carried self.now).long_name ≡ self.now.long_name) × ((carried self.now).long_text ≡ self.now.long_text)) }
    {
        match self.piece.kind {
            Kind::End => true,
            _ => false,
        }
    }
}

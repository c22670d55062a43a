//! Cuts a piece off the front of a line.
ghost use Rattle.std.specs.Prelude.{◌≡◌, ◌==◌, ◌<◌, ◌≤◌, false, None, IsTrue, drop, length, take, MatchOption};
ghost use Rattle.std.specs.List.{prefix_len};
ghost use Rattle.hg_model.specs.Name.{begins_word, is_in_word, is_digit};
ghost use Rattle.hg_model.specs.Tokens.{begins};
ghost use Rattle.hg_scan.specs.Cutting.{front_of, word_front, number_front, text_front, sign_front, closing};
ghost use Rattle.hg_scan.specs.Pieces.{is_piece, minus_front, Closes};
ghost use Rattle.hg_scan.specs.Shown.{Cuts};

use crate::bytes::{ByteKind, byte_kind, is_digit, is_in_word, is_printable};
use crate::keywords::keyword;
use crate::piece::{Kind, Piece};
use crate::words::Sign;

/// A piece, and what is left behind it.
#[derive(Clone, Copy)]
pub struct Cut<'a> {
    pub piece: Piece<'a>,
    pub rest: &'a [u8],
}

/// Where a text ends: the place of the quote behind it, and whether a quote in it is doubled.
#[derive(Clone, Copy)]
struct Closing {
    at: usize,
    doubled: bool,
}

#[inline(always)]
fn begins_with(bytes: &[u8], byte: u8) -> bool
    ensures { result ≡ begins (λ b. b == byte) bytes.now }
{
    match bytes {
        [] => false,
        [first, ..] => *first == byte,
    }
}

/// Whether a byte stands at a place; none stands behind the end.
#[inline(always)]
fn is_at(bytes: &[u8], at: usize, byte: u8) -> bool
    ensures { result ≡ begins (λ b. b == byte) (drop at bytes.now) }
{
    at < bytes.len() && bytes[at] == byte
}

#[inline(always)]
fn begins_in_word(bytes: &[u8]) -> bool
    ensures { result ≡ begins is_in_word bytes.now }
{
    match bytes {
        [] => false,
        [first, ..] => is_in_word(*first),
    }
}

#[inline(always)]
fn word_len(rest: &[u8]) -> usize
    ensures { result ≡ prefix_len is_in_word rest.now }
{
    for (i, b) in rest.iter().enumerate() {
        if !is_in_word(*b) {
            return i;
        }
    }
    rest.len()
}

#[inline(always)]
fn number_len(rest: &[u8]) -> usize
    ensures { result ≡ prefix_len is_digit rest.now }
{
    for (i, b) in rest.iter().enumerate() {
        if !is_digit(*b) {
            return i;
        }
    }
    rest.len()
}

/// Where the text ends that begins with `bytes`, behind its first quote.
#[inline(always)]
fn text_end(bytes: &[u8]) -> Option<Closing>
    ensures { MatchOption result (closing bytes.now ≡ None) (λ c. Closes bytes.now c.at c.doubled) }
{
    let mut at = 0;
    let mut doubled = false;
    while at < bytes.len() {
        let b = bytes[at];
        if b == b'\'' {
            if !is_at(bytes, at + 1, b'\'') {
                return Some(Closing { at, doubled });
            }
            doubled = true;
            at += 2;
        } else if is_printable(b) {
            at += 1;
        } else {
            return None;
        }
    }
    None
}

/// Nothing cut off.
#[inline(always)]
fn nothing(kind: Kind, line: &[u8]) -> Cut<'_>
    requires { IsTrue (is_piece kind false line.now) }
    ensures kind { result.piece.kind ≡ kind }
    ensures rest { result.rest.now ≡ line.now }
{
    Cut {
        piece: Piece {
            kind,
            doubled: false,
            bytes: line,
        },
        rest: line,
    }
}

/// A sign cut off, with `behind` left.
#[inline(always)]
fn sign(sign: Sign, behind: &[u8]) -> Cut<'_>
    ensures token { result.piece.kind ≡ Kind.Sign sign }
    ensures rest { result.rest.now ≡ behind.now }
{
    Cut {
        piece: Piece {
            kind: Kind::Sign(sign),
            doubled: false,
            bytes: behind,
        },
        rest: behind,
    }
}

#[inline(always)]
fn word(rest: &[u8]) -> Cut<'_>
    requires { IsTrue (begins begins_word rest.now) }
    ensures { Cuts (word_front rest.now) result.piece rest.now result.rest.now }
{
    let (bytes, behind) = rest.split_at(word_len(rest));
    let kind = match keyword(bytes) {
        Some(k) => Kind::Keyword(k),
        None => Kind::Name,
    };
    Cut {
        piece: Piece {
            kind,
            doubled: false,
            bytes,
        },
        rest: behind,
    }
}

#[inline(always)]
fn number<'a>(line: &'a [u8], rest: &'a [u8]) -> Cut<'a>
    requires { IsTrue (begins is_digit rest.now) }
    ensures { Cuts (number_front rest.now) result.piece line.now result.rest.now }
{
    let (bytes, behind) = rest.split_at(number_len(rest));
    if begins_in_word(behind) {
        return nothing(Kind::Wrong, line);
    }
    Cut {
        piece: Piece {
            kind: Kind::Number,
            doubled: false,
            bytes,
        },
        rest: behind,
    }
}

/// A text, whose first quote stands before `behind`.
#[inline(always)]
fn text<'a>(line: &'a [u8], behind: &'a [u8]) -> Cut<'a>
    ensures { Cuts (text_front behind.now) result.piece line.now result.rest.now }
{
    let Some(end) = text_end(behind) else {
        return nothing(Kind::Wrong, line);
    };
    let (bytes, quote) = behind.split_at(end.at);
    let (_, rest) = quote.split_at(1);
    Cut {
        piece: Piece {
            kind: Kind::Text,
            doubled: end.doubled,
            bytes,
        },
        rest,
    }
}

/// A minus sign or a comment, whose first byte stands before `behind`.
#[inline(always)]
fn minus<'a>(line: &'a [u8], behind: &'a [u8]) -> Cut<'a>
    ensures { Cuts (minus_front behind.now) result.piece line.now result.rest.now }
{
    if begins_with(behind, b'-') {
        nothing(Kind::End, line)
    } else {
        sign(Sign::Minus, behind)
    }
}

#[inline(always)]
fn less<'a>(line: &'a [u8], behind: &'a [u8]) -> Cut<'a>
    ensures { Cuts (sign_front 60 behind.now) result.piece line.now result.rest.now }
{
    match behind {
        [b'=', rest @ ..] => sign(Sign::LessOrEqual, rest),
        [b'>', rest @ ..] => sign(Sign::LessGreater, rest),
        _ => sign(Sign::Less, behind),
    }
}

#[inline(always)]
fn greater<'a>(line: &'a [u8], behind: &'a [u8]) -> Cut<'a>
    ensures { Cuts (sign_front 62 behind.now) result.piece line.now result.rest.now }
{
    match behind {
        [b'=', rest @ ..] => sign(Sign::GreaterOrEqual, rest),
        _ => sign(Sign::Greater, behind),
    }
}

#[inline(always)]
fn bang<'a>(line: &'a [u8], behind: &'a [u8]) -> Cut<'a>
    ensures { Cuts (sign_front 33 behind.now) result.piece line.now result.rest.now }
{
    match behind {
        [b'=', rest @ ..] => sign(Sign::BangEqual, rest),
        _ => nothing(Kind::Wrong, line),
    }
}

/// Cuts the first piece off a line.
#[inline(always)]
pub fn cut_piece(line: &[u8]) -> Cut<'_>
    ensures { Cuts (front_of line.now) result.piece line.now result.rest.now }
{
    let mut rest = line;
    while let [first, behind @ ..] = rest {
        match byte_kind(*first) {
            ByteKind::Blank => rest = behind,
            ByteKind::Letter => return word(rest),
            ByteKind::Digit => return number(line, rest),
            ByteKind::Quote => return text(line, behind),
            ByteKind::Minus => return minus(line, behind),
            ByteKind::Less => return less(line, behind),
            ByteKind::Greater => return greater(line, behind),
            ByteKind::Bang => return bang(line, behind),
            ByteKind::Single(s) => return sign(s, behind),
            ByteKind::Printable | ByteKind::Outside => return nothing(Kind::Wrong, line),
        }
    }
    nothing(Kind::End, line)
}

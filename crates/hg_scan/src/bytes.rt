//! The kinds of bytes.
ghost use Rattle.std.specs.Prelude.{◌≡◌, true};
ghost use Rattle.hg_model.specs.Name.{begins_word, is_in_word, is_digit};
ghost use Rattle.hg_model.specs.Tokens.{lower_byte};
ghost use Rattle.hg_model.specs.Value.{is_printable};
ghost use Rattle.hg_scan.specs.Bytes.{kind_of};

use crate::words::Sign;

/// What a byte does at the front of a line.
#[derive(Clone, Copy)]
pub enum ByteKind {
    /// A space or a tab.
    Blank,
    /// A letter or `_`.
    Letter,
    Digit,
    Quote,
    /// `-`, which begins a comment where another follows.
    Minus,
    /// `<`, `>` and `!`, which another byte may make longer.
    Less,
    Greater,
    Bang,
    /// A sign of one byte.
    Single(Sign),
    /// Any other byte that a text may have.
    Printable,
    Outside,
}

const BL: ByteKind = ByteKind::Blank;

const LE: ByteKind = ByteKind::Letter;

const DI: ByteKind = ByteKind::Digit;

const QU: ByteKind = ByteKind::Quote;

const MI: ByteKind = ByteKind::Minus;

const LT: ByteKind = ByteKind::Less;

const GT: ByteKind = ByteKind::Greater;

const BA: ByteKind = ByteKind::Bang;

const OP: ByteKind = ByteKind::Single(Sign::Open);

const CL: ByteKind = ByteKind::Single(Sign::Close);

const CO: ByteKind = ByteKind::Single(Sign::Comma);

const DO: ByteKind = ByteKind::Single(Sign::Dot);

const SE: ByteKind = ByteKind::Single(Sign::Semicolon);

const ST: ByteKind = ByteKind::Single(Sign::Star);

const PL: ByteKind = ByteKind::Single(Sign::Plus);

const EQ: ByteKind = ByteKind::Single(Sign::Equal);

const PR: ByteKind = ByteKind::Printable;

const NO: ByteKind = ByteKind::Outside;

// The kind of each byte, 16 bytes a line.
static KINDS: [ByteKind; 256] = [
    NO, NO, NO, NO, NO, NO, NO, NO, NO, BL, NO, NO, NO, NO, NO, NO, NO, NO, NO, NO, NO, NO, NO, NO,
    NO, NO, NO, NO, NO, NO, NO, NO, BL, BA, PR, PR, PR, PR, PR, QU, OP, CL, ST, PL, CO, MI, DO, PR,
    DI, DI, DI, DI, DI, DI, DI, DI, DI, DI, PR, SE, LT, EQ, GT, PR, PR, LE, LE, LE, LE, LE, LE, LE,
    LE, LE, LE, LE, LE, LE, LE, LE, LE, LE, LE, LE, LE, LE, LE, LE, LE, LE, LE, PR, PR, PR, PR, LE,
    PR, LE, LE, LE, LE, LE, LE, LE, LE, LE, LE, LE, LE, LE, LE, LE, LE, LE, LE, LE, LE, LE, LE, LE,
    LE, LE, LE, PR, PR, PR, PR, NO, NO, NO, NO, NO, NO, NO, NO, NO, NO, NO, NO, NO, NO, NO, NO, NO,
    NO, NO, NO, NO, NO, NO, NO, NO, NO, NO, NO, NO, NO, NO, NO, NO, NO, NO, NO, NO, NO, NO, NO, NO,
    NO, NO, NO, NO, NO, NO, NO, NO, NO, NO, NO, NO, NO, NO, NO, NO, NO, NO, NO, NO, NO, NO, NO, NO,
    NO, NO, NO, NO, NO, NO, NO, NO, NO, NO, NO, NO, NO, NO, NO, NO, NO, NO, NO, NO, NO, NO, NO, NO,
    NO, NO, NO, NO, NO, NO, NO, NO, NO, NO, NO, NO, NO, NO, NO, NO, NO, NO, NO, NO, NO, NO, NO, NO,
    NO, NO, NO, NO, NO, NO, NO, NO, NO, NO, NO, NO, NO, NO, NO, NO,
];

#[inline(always)]
pub fn byte_kind(b: u8) -> ByteKind
    ensures kind { result ≡ kind_of b }
    ensures letter { result ≡ ByteKind.Letter → begins_word b ≡ true }
    ensures digit { result ≡ ByteKind.Digit → is_digit b ≡ true }
{
    KINDS[b as usize]
}

#[inline(always)]
pub fn is_in_word(b: u8) -> bool
    ensures { result ≡ is_in_word b }
{
    matches!(byte_kind(b), ByteKind::Letter | ByteKind::Digit)
}

#[inline(always)]
pub fn is_digit(b: u8) -> bool
    ensures { result ≡ is_digit b }
{
    matches!(b, b'0'..=b'9')
}

#[inline(always)]
pub fn is_printable(b: u8) -> bool
    ensures { result ≡ is_printable b }
{
    matches!(b, 32..=126)
}

#[inline(always)]
pub fn to_lower(b: u8) -> u8
    ensures { result ≡ lower_byte b }
{
    if matches!(b, b'A'..=b'Z') { b + 32 } else { b }
}

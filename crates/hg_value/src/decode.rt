//! Reading values where they stand.
ghost use Rattle.std.specs.Prelude.{◌≡◌, ◌≤◌, [], length, Some, MatchOption, slice_get};
ghost use Rattle.std.specs.Bool.{OnTrue, OnFalse};
ghost use Rattle.std.specs.List.{list_all};
ghost use Rattle.hg_model.specs.Value.{is_printable};
ghost use Rattle.hg_value.specs.Coding.{IsNoRow};
ghost use Rattle.hg_value.specs.RowParts.{narrow_number, wide_number, decoded, IsCoding, BeginsWith, BeginsWithNone, AreEnds};

use crate::encode::{NARROW, NULL, TEXT, WIDE, is_narrow};
use crate::room::Places;
use hg_model::{Chars, Value};

/// The value that bytes spell.
pub fn decode(bytes: &[u8]) -> Value
    requires { IsCoding bytes.now }
    ensures { result ≡ decoded bytes.now }
{
    let rest = bytes.split_at(1).1;
    match bytes[0] {
        NARROW => Value::Int(narrow_number(rest)),
        TEXT => Value::Text(Chars::from_bytes(rest.split_at(1).1)),
        WIDE => Value::Int(wide_number(rest)),
        _ => Value::Null,
    }
}

/// The number that four bytes spell.
#[tactic(auto, unfolding(crate::specs::RowParts::narrow_number))]
pub fn narrow_number(b: &[u8]) -> i128
    requires { length b.now ≡ 4 }
    ensures { result ≡ narrow_number b.now }
{
    i32::from_le_bytes([b[0], b[1], b[2], b[3]]) as i128
}

/// The number that sixteen bytes spell.
#[tactic(auto, unfolding(crate::specs::RowParts::wide_number))]
pub fn wide_number(b: &[u8]) -> i128
    requires { length b.now ≡ 16 }
    ensures { result ≡ wide_number b.now }
{
    i128::from_le_bytes([
        b[0], b[1], b[2], b[3], b[4], b[5], b[6], b[7], b[8], b[9], b[10], b[11], b[12], b[13],
        b[14], b[15],
    ])
}

/// How many bytes at the front are the coding of a value. None where no value stands there.
pub fn first_length(bytes: &[u8]) -> Option<usize>
    ensures { MatchOption result (BeginsWithNone bytes.now) (λ n. BeginsWith bytes.now n) }
{
    if bytes.is_empty() {
        return None;
    }
    match bytes[0] {
        NULL => Some(1),
        NARROW => narrow_length(bytes),
        TEXT => text_length(bytes),
        WIDE => wide_length(bytes),
        _ => None,
    }
}

fn narrow_length(bytes: &[u8]) -> Option<usize>
    requires { slice_get bytes.now 0 ≡ Some NARROW }
    ensures { MatchOption result (BeginsWithNone bytes.now) (λ n. BeginsWith bytes.now n) }
{
    if bytes.len() < 5 {
        return None;
    }
    Some(5)
}

fn wide_length(bytes: &[u8]) -> Option<usize>
    requires { slice_get bytes.now 0 ≡ Some WIDE }
    ensures { MatchOption result (BeginsWithNone bytes.now) (λ n. BeginsWith bytes.now n) }
{
    if bytes.len() < 17 {
        return None;
    }
    if is_narrow(wide_number(&bytes[1..17])) {
        return None;
    }
    Some(17)
}

fn text_length(bytes: &[u8]) -> Option<usize>
    requires { slice_get bytes.now 0 ≡ Some TEXT }
    ensures { MatchOption result (BeginsWithNone bytes.now) (λ n. BeginsWith bytes.now n) }
{
    if bytes.len() < 2 {
        return None;
    }
    let end = 2 + bytes[1] as usize;
    if end > bytes.len() {
        return None;
    }
    if !all_printable(&bytes[2..end]) {
        return None;
    }
    Some(end)
}

fn all_printable(bytes: &[u8]) -> bool
    ensures { result ≡ list_all is_printable bytes.now }
{
    for byte in bytes {
        if *byte < 32 || *byte > 126 {
            return false;
        }
    }
    true
}

/// Finds where the `n` values end that bytes are. False where they are no row of `n` values.
pub fn read_ends(bytes: &[u8], n: u8, ends: &mut Places) -> bool
    requires few { n ≤ 64 }
    requires short { length bytes.now ≤ 3900 }
    requires empty { ends.old ≡ [] }
    ensures found { OnTrue result (AreEnds n bytes.now ends.new) }
    ensures none { OnFalse result (IsNoRow n bytes.now) }
{
    let mut rest = bytes;
    for _place in 0..n {
        match first_length(rest) {
            Some(size) => {
                rest = rest.split_at(size).1;
                ends.push((bytes.len() - rest.len()) as u16);
            }
            None => return false,
        }
    }
    rest.is_empty()
}

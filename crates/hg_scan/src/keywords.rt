//! Finds reserved words: by their length, and then by their letters packed into one number.
ghost use Rattle.std.specs.Prelude.{◌≡◌, ◌≤◌, length};
ghost use Rattle.hg_model.specs.Tokens.{lower};
ghost use Rattle.hg_scan.specs.Words.{keyword_named};
ghost use Rattle.hg_scan.specs.Packing.{packed, packed_among, words_of_two, words_of_three, words_of_four, words_of_five, words_of_six, words_of_seven, words_of_eight};

use crate::bytes::to_lower;
use crate::words::Keyword;

/// The letters of a word in lower case, packed into one number, the first the highest.
fn pack(word: &[u8]) -> u64
    requires { length word.now ≤ 8 }
    ensures { result ≡ packed (lower word.now) }
{
    let mut all = 0;
    for b in word {
        all = all * 256 + to_lower(*b) as u64;
    }
    all
}

/// The reserved word of two letters that is packed so.
fn of_two(packed: u64) -> Option<Keyword>
    ensures { result ≡ packed_among packed words_of_two }
{
    match packed {
        0x6173 => Some(Keyword::As),
        0x6279 => Some(Keyword::By),
        0x696e => Some(Keyword::In),
        0x6973 => Some(Keyword::Is),
        0x6f6e => Some(Keyword::On),
        0x6f72 => Some(Keyword::Or),
        _ => None,
    }
}

/// The reserved word of three letters that is packed so.
fn of_three(packed: u64) -> Option<Keyword>
    ensures { result ≡ packed_among packed words_of_three }
{
    match packed {
        0x616c6c => Some(Keyword::All),
        0x616e64 => Some(Keyword::And),
        0x617363 => Some(Keyword::Asc),
        0x696e74 => Some(Keyword::Int),
        0x6b6579 => Some(Keyword::Key),
        0x6d6178 => Some(Keyword::Max),
        0x6d696e => Some(Keyword::Min),
        0x6e6f74 => Some(Keyword::Not),
        0x736574 => Some(Keyword::Set),
        0x73756d => Some(Keyword::Sum),
        _ => None,
    }
}

/// The reserved word of four letters that is packed so.
fn of_four(packed: u64) -> Option<Keyword>
    ensures { result ≡ packed_among packed words_of_four }
{
    match packed {
        0x64657363 => Some(Keyword::Desc),
        0x66726f6d => Some(Keyword::From),
        0x696e746f => Some(Keyword::Into),
        0x6a6f696e => Some(Keyword::Join),
        0x6c656674 => Some(Keyword::Left),
        0x6e756c6c => Some(Keyword::Null),
        _ => None,
    }
}

/// The reserved word of five letters that is packed so.
fn of_five(packed: u64) -> Option<Keyword>
    ensures { result ≡ packed_among packed words_of_five }
{
    match packed {
        0x636f756e74 => Some(Keyword::Count),
        0x63726f7373 => Some(Keyword::Cross),
        0x67726f7570 => Some(Keyword::Group),
        0x696e646578 => Some(Keyword::Index),
        0x696e6e6572 => Some(Keyword::Inner),
        0x6f72646572 => Some(Keyword::Order),
        0x6f75746572 => Some(Keyword::Outer),
        0x7461626c65 => Some(Keyword::Table),
        0x7768657265 => Some(Keyword::Where),
        _ => None,
    }
}

/// The reserved word of six letters that is packed so.
fn of_six(packed: u64) -> Option<Keyword>
    ensures { result ≡ packed_among packed words_of_six }
{
    match packed {
        0x626967696e74 => Some(Keyword::Bigint),
        0x637265617465 => Some(Keyword::Create),
        0x64656c657465 => Some(Keyword::Delete),
        0x657869737473 => Some(Keyword::Exists),
        0x686176696e67 => Some(Keyword::Having),
        0x696e73657274 => Some(Keyword::Insert),
        0x73656c656374 => Some(Keyword::Select),
        0x756e69717565 => Some(Keyword::Unique),
        0x757064617465 => Some(Keyword::Update),
        0x76616c756573 => Some(Keyword::Values),
        _ => None,
    }
}

/// The reserved word of seven letters that is packed so.
fn of_seven(packed: u64) -> Option<Keyword>
    ensures { result ≡ packed_among packed words_of_seven }
{
    match packed {
        0x6265747765656e => Some(Keyword::Between),
        0x696e7465676572 => Some(Keyword::Integer),
        0x7072696d617279 => Some(Keyword::Primary),
        0x76617263686172 => Some(Keyword::Varchar),
        _ => None,
    }
}

/// The reserved word of eight letters that is packed so.
fn of_eight(packed: u64) -> Option<Keyword>
    ensures { result ≡ packed_among packed words_of_eight }
{
    match packed {
        0x64697374696e6374 => Some(Keyword::Distinct),
        _ => None,
    }
}

/// The reserved word that is spelled so, in any case of its letters.
pub fn keyword(word: &[u8]) -> Option<Keyword>
    ensures { result ≡ keyword_named (lower word.now) }
{
    match word.len() {
        2 => of_two(pack(word)),
        3 => of_three(pack(word)),
        4 => of_four(pack(word)),
        5 => of_five(pack(word)),
        6 => of_six(pack(word)),
        7 => of_seven(pack(word)),
        8 => of_eight(pack(word)),
        _ => None,
    }
}

//! Reply lines as borrowed values, and their bytes: one function prints all but those of rows.
//!
//! ```text
//! row c 1,'it''s',NULL      a row of the cursor c; a SELECT's cursor has no name and is shown as *
//! done c                    the last row that was wanted
//! error 4 unknown column x  a refusal: its code, the code's name, and the words behind it
//! ```
//!
//! A line borrows its names. Every line but a row has at most 256 bytes; the line of a row is printed by
//! itself, from the row.
ghost use Rattle.std.specs.Prelude.{◌≡◌, ◌≤◌, ◌+◌, ◌++◌, length, decimal};
ghost use Rattle.std.specs.List.{flat_map};
ghost use Rattle.arrayvec.specs.ArrayVec.{array_vec_len};
ghost use Rattle.hg_machine.specs.Plain.Replies as said;
ghost use Rattle.hg_machine.specs.Plain.Refused as refused;
ghost use Rattle.hg_reply.specs.Plain as shape;

use crate::reply::REPLY_BYTES;
use arrayvec::ArrayVec;
use hg_base::{Check, File, PageId};
use hg_model::{ColRef, Count, Name};
use itoa::Buffer;

/// Room for the lines of one step.
pub type Text = ArrayVec<u8, REPLY_BYTES>;

/// The words behind the name of an error's code.
#[derive(Clone, Copy)]
pub enum Words<'a> {
    Nothing,
    Name(&'a Name),
    Column(&'a ColRef),
    Kind(Count),
    HeldAndCeiling(u32, u32),
    Damage(PageId, Check),
}

/// What SHOW MEMORY says first.
#[derive(Clone, Copy)]
pub struct Figures {
    pub pool: u32,
    pub max: u32,
    pub mpl: u32,
    pub active: u32,
    pub waiting: u32,
    pub hard: u32,
    pub soft: u32,
}

/// The name of a cursor; none for that of a SELECT.
pub type Cursor<'a> = Option<&'a Name>;

/// A reply line.
#[derive(Clone, Copy)]
pub enum ReplyLine<'a> {
    Created,
    Rows(u64),
    Vacuumed,
    Opened(&'a Name),
    Started(&'a Name),
    Worked(u64),
    Closed(Cursor<'a>),
    PoolSet(u32),
    MplSet(u32),
    Memory(Figures),
    Held(Cursor<'a>, u32),
    Done(Cursor<'a>),
    Ended(Cursor<'a>),
    Error(u8, Words<'a>),
}

/// Puts text behind what stands there.
pub fn put(out: &mut Text, text: &[u8])
    requires room { array_vec_len out.old + length text.now ≤ 16384 }
    ensures text { out.new.items ≡ out.old.items ++ text.now }
    ensures len { array_vec_len out.new ≡ array_vec_len out.old + length text.now }
{
    let _ = out.try_extend_from_slice(text);
}

fn put_number(out: &mut Text, number: u64)
    requires room { array_vec_len out.old + 20 ≤ 16384 }
    ensures text { out.new.items ≡ out.old.items ++ decimal number }
    ensures short { array_vec_len out.new ≤ array_vec_len out.old + 20 }
{
    let mut digits = Buffer::new();
    put(out, digits.format(number).as_bytes());
}

fn put_name(out: &mut Text, name: &Name)
    requires room { array_vec_len out.old + 30 ≤ 16384 }
    ensures text { out.new.items ≡ out.old.items ++ name.now }
    ensures short { array_vec_len out.new ≤ array_vec_len out.old + 30 }
{
    put(out, name.as_str().as_bytes());
}

fn put_cursor(out: &mut Text, cursor: &Cursor)
    requires room { array_vec_len out.old + 30 ≤ 16384 }
    ensures text { out.new.items ≡ out.old.items ++ said.shown (shape.name_of cursor.now) }
    ensures short { array_vec_len out.new ≤ array_vec_len out.old + 30 }
{
    match cursor {
        None => put(out, b"*"),
        Some(name) => put_name(out, name),
    }
}

fn put_word_number(out: &mut Text, word: &[u8], number: u64)
    requires room { array_vec_len out.old + length word.now + 20 ≤ 16384 }
    ensures text { out.new.items ≡ out.old.items ++ (word.now ++ decimal number) }
    ensures short { array_vec_len out.new ≤ array_vec_len out.old + length word.now + 20 }
{
    put(out, word);
    put_number(out, number);
}

fn put_word_name(out: &mut Text, word: &[u8], name: &Name)
    requires room { array_vec_len out.old + length word.now + 30 ≤ 16384 }
    ensures text { out.new.items ≡ out.old.items ++ (word.now ++ name.now) }
    ensures short { array_vec_len out.new ≤ array_vec_len out.old + length word.now + 30 }
{
    put(out, word);
    put_name(out, name);
}

/// A word and a cursor behind it.
pub fn put_word_cursor(out: &mut Text, word: &[u8], cursor: &Cursor)
    requires room { array_vec_len out.old + length word.now + 30 ≤ 16384 }
    ensures text { out.new.items ≡ out.old.items ++ (word.now ++ said.shown (shape.name_of cursor.now)) }
    ensures short { array_vec_len out.new ≤ array_vec_len out.old + length word.now + 30 }
{
    put(out, word);
    put_cursor(out, cursor);
}

fn put_figures(out: &mut Text, f: &Figures)
    requires room { array_vec_len out.old + 200 ≤ 16384 }
    ensures text { out.new.items ≡ out.old.items ++ said.figures_text (shape.figures_of f.now) }
    ensures short { array_vec_len out.new ≤ array_vec_len out.old + 200 }
{
    put_word_number(out, b"memory pool ", f.pool as u64);
    put_word_number(out, b" max ", f.max as u64);
    put_word_number(out, b" mpl ", f.mpl as u64);
    put_word_number(out, b" active ", f.active as u64);
    put_word_number(out, b" waiting ", f.waiting as u64);
    put_word_number(out, b" hard ", f.hard as u64);
    put_word_number(out, b" soft ", f.soft as u64);
}

fn put_held(out: &mut Text, cursor: &Cursor, pages: u32)
    requires room { array_vec_len out.old + 60 ≤ 16384 }
    ensures text { out.new.items ≡ out.old.items ++ (said.bare_text (said.held (shape.name_of cursor.now) pages)) }
    ensures short { array_vec_len out.new ≤ array_vec_len out.old + 60 }
{
    put_word_cursor(out, b"held ", cursor);
    put_word_number(out, b" ", pages as u64);
}

/// The name of a code.
fn code_word(code: u8) -> &'static [u8]
    requires { code ≤ 25 }
    ensures name { result.now ≡ said.code_name code }
    ensures short { length result.now ≤ 19 }
{
    match code {
        1 => b"syntax",
        2 => b"line too long",
        3 => b"unknown table",
        4 => b"unknown column",
        5 => b"ambiguous column",
        6 => b"type mismatch",
        7 => b"expression too wide",
        8 => b"name taken",
        9 => b"too many",
        10 => b"not grouped",
        11 => b"value does not fit",
        12 => b"null not allowed",
        13 => b"duplicate key",
        14 => b"unknown cursor",
        15 => b"cursor busy",
        16 => b"limit",
        17 => b"main device fault",
        18 => b"temp device fault",
        19 => b"main full",
        20 => b"temp full",
        21 => b"damaged",
        22 => b"bad number",
        23 => b"row too long",
        24 => b"stamps used up",
        25 => b"key too long",
        _ => b"",
    }
}

/// The words for a kind of which there can be too many, and how many there may be.
fn kind_word(kind: Count) -> &'static [u8]
    ensures name { result.now ≡ refused.kind_name kind }
    ensures short { length result.now ≤ 14 }
{
    match kind {
        Count::NameLetters => b"name letters",
        Count::TextLetters => b"text letters",
        Count::Columns => b"columns",
        Count::Rows => b"rows",
        Count::Values => b"values",
        Count::TablesInFrom => b"tables in from",
        Count::Outputs => b"outputs",
        Count::GroupColumns => b"group columns",
        Count::OrderKeys => b"order keys",
        Count::Nodes => b"nodes",
        Count::PrimaryKeys => b"primary keys",
        Count::Tables => b"tables",
        Count::Indexes => b"indexes",
        Count::Cursors => b"cursors",
        Count::RowsGrouped => b"rows grouped",
    }
}

fn kind_limit(kind: Count) -> u64
    ensures { result ≡ refused.kind_limit kind }
{
    match kind {
        Count::NameLetters => 30,
        Count::TextLetters => 255,
        Count::Columns => 16,
        Count::Rows => 64,
        Count::Values => 1024,
        Count::TablesInFrom => 4,
        Count::Outputs => 16,
        Count::GroupColumns => 16,
        Count::OrderKeys => 8,
        Count::Nodes => 96,
        Count::PrimaryKeys => 1,
        Count::Tables => 64,
        Count::Indexes => 64,
        Count::Cursors => 16,
        Count::RowsGrouped => 1073741824,
    }
}

/// The word for a file.
fn file_word(file: File) -> &'static [u8]
    ensures name { result.now ≡ refused.file_name file }
    ensures short { length result.now ≤ 4 }
{
    match file {
        File::Main => b"main",
        File::Temp => b"temp",
    }
}

/// The word for a check.
fn check_word(check: Check) -> &'static [u8]
    ensures name { result.now ≡ refused.check_name check }
    ensures short { length result.now ≤ 5 }
{
    match check {
        Check::Kind => b"kind",
        Check::Size => b"size",
        Check::Frame => b"frame",
        Check::Link => b"link",
        Check::Level => b"level",
        Check::Order => b"order",
        Check::RowBytes => b"row",
    }
}

fn put_blank_word(out: &mut Text, word: &[u8])
    requires room { array_vec_len out.old + 1 + length word.now ≤ 16384 }
    ensures text { out.new.items ≡ out.old.items ++ said.word_text word.now }
    ensures len { array_vec_len out.new ≡ array_vec_len out.old + 1 + length word.now }
{
    put(out, b" ");
    put(out, word);
}

fn put_blank_number(out: &mut Text, number: u64)
    requires room { array_vec_len out.old + 21 ≤ 16384 }
    ensures text { out.new.items ≡ out.old.items ++ said.word_text (decimal number) }
    ensures short { array_vec_len out.new ≤ array_vec_len out.old + 21 }
{
    put(out, b" ");
    put_number(out, number);
}

fn put_blank_name(out: &mut Text, name: &Name)
    requires room { array_vec_len out.old + 31 ≤ 16384 }
    ensures text { out.new.items ≡ out.old.items ++ said.word_text name.now }
    ensures short { array_vec_len out.new ≤ array_vec_len out.old + 31 }
{
    put(out, b" ");
    put_name(out, name);
}

fn put_column(out: &mut Text, column: &ColRef)
    requires room { array_vec_len out.old + 62 ≤ 16384 }
    ensures text { out.new.items ≡ out.old.items ++ said.word_text (refused.column_word column.now) }
    ensures short { array_vec_len out.new ≤ array_vec_len out.old + 62 }
{
    put(out, b" ");
    if let Some(table) = &column.table {
        put_name(out, table);
        put(out, b".");
    }
    put_name(out, &column.name);
}

fn put_damage(out: &mut Text, page: PageId, check: Check)
    requires room { array_vec_len out.old + 40 ≤ 16384 }
    ensures text { out.new.items ≡ out.old.items ++ flat_map said.word_text (shape.damage_words page check) }
    ensures short { array_vec_len out.new ≤ array_vec_len out.old + 40 }
{
    put_blank_word(out, file_word(page.file));
    put_blank_number(out, page.no as u64);
    put_blank_word(out, check_word(check));
}

fn put_kind(out: &mut Text, kind: Count)
    requires room { array_vec_len out.old + 40 ≤ 16384 }
    ensures text { out.new.items ≡ out.old.items ++ flat_map said.word_text (shape.kind_words kind) }
    ensures short { array_vec_len out.new ≤ array_vec_len out.old + 40 }
{
    put_blank_word(out, kind_word(kind));
    put_blank_number(out, kind_limit(kind));
}

fn put_two_numbers(out: &mut Text, first: u32, second: u32)
    requires room { array_vec_len out.old + 42 ≤ 16384 }
    ensures text { out.new.items ≡ out.old.items ++ flat_map said.word_text (shape.number_words first second) }
    ensures short { array_vec_len out.new ≤ array_vec_len out.old + 42 }
{
    put_blank_number(out, first as u64);
    put_blank_number(out, second as u64);
}

fn put_words(out: &mut Text, words: &Words)
    requires room { array_vec_len out.old + 62 ≤ 16384 }
    ensures text { out.new.items ≡ out.old.items ++ flat_map said.word_text (shape.words_of words.now) }
    ensures short { array_vec_len out.new ≤ array_vec_len out.old + 62 }
{
    match words {
        Words::Nothing => {}
        Words::Name(name) => put_blank_name(out, name),
        Words::Column(column) => put_column(out, column),
        Words::Kind(kind) => put_kind(out, *kind),
        Words::HeldAndCeiling(held, ceiling) => put_two_numbers(out, *held, *ceiling),
        Words::Damage(page, check) => put_damage(out, *page, *check),
    }
}

fn put_error(out: &mut Text, code: u8, words: &Words)
    requires known { code ≤ 25 }
    requires room { array_vec_len out.old + 120 ≤ 16384 }
    ensures text { out.new.items ≡ out.old.items ++ said.bare_text (said.error code (shape.words_of words.now)) }
    ensures short { array_vec_len out.new ≤ array_vec_len out.old + 120 }
{
    put_word_number(out, b"error ", code as u64);
    put_blank_word(out, code_word(code));
    put_words(out, words);
}

/// A reply line without its line feed.
fn put_bare(out: &mut Text, line: &ReplyLine)
    requires known { shape.IsKnown line.now }
    requires room { array_vec_len out.old + 200 ≤ 16384 }
    ensures text { out.new.items ≡ out.old.items ++ said.bare_text (shape.line_of line.now) }
    ensures short { array_vec_len out.new ≤ array_vec_len out.old + 200 }
{
    match line {
        ReplyLine::Created => put(out, b"created"),
        ReplyLine::Rows(count) => put_word_number(out, b"rows ", *count),
        ReplyLine::Vacuumed => put(out, b"vacuumed"),
        ReplyLine::Opened(name) => put_word_name(out, b"open ", name),
        ReplyLine::Started(name) => put_word_name(out, b"started ", name),
        ReplyLine::Worked(turns) => put_word_number(out, b"worked ", *turns),
        ReplyLine::Closed(cursor) => put_word_cursor(out, b"closed ", cursor),
        ReplyLine::PoolSet(frames) => put_word_number(out, b"pool ", *frames as u64),
        ReplyLine::MplSet(level) => put_word_number(out, b"mpl ", *level as u64),
        ReplyLine::Memory(figures) => put_figures(out, figures),
        ReplyLine::Held(cursor, pages) => put_held(out, cursor, *pages),
        ReplyLine::Done(cursor) => put_word_cursor(out, b"done ", cursor),
        ReplyLine::Ended(cursor) => put_word_cursor(out, b"end ", cursor),
        ReplyLine::Error(code, words) => put_error(out, *code, words),
    }
}

/// Puts a reply line behind those that stand there.
pub fn print(line: &ReplyLine, out: &mut Text)
    requires known { shape.IsKnown line.now }
    requires room { array_vec_len out.old + 256 ≤ 16384 }
    ensures text { out.new.items ≡ out.old.items ++ said.line_text (shape.line_of line.now) }
    ensures short { array_vec_len out.new ≤ array_vec_len out.old + 256 }
{
    put_bare(out, line);
    put(out, b"\n");
}

/// Whether it is an error line.
pub fn is_error(line: &ReplyLine) -> bool
    ensures { result ≡ said.is_error (shape.line_of line.now) }
{
    matches!(line, ReplyLine::Error(_, _))
}

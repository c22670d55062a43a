//! Lines and what they are read as, worked out by hand from the grammar.
mod tables;

use crate::{ParseError, Room, parse, parse_into};
use arrayvec::ArrayVec;
use hg_model::{Command, Count, Node};

/// What a line is read as, but for its tree.
#[derive(Clone, Copy)]
enum Reading {
    Blank,
    Syntax,
    BadNumber,
    TooMany(Count),
    Statement,
}

/// Whether a line is read so, where the pool may have 64 frames at most.
#[inline(never)]
fn is_read_as(line: &[u8], expected: Reading, room: &mut Room) -> bool {
    if line.len() > 4096 {
        return false;
    }
    match parse_into(line, 64, room) {
        Ok(None) => matches!(expected, Reading::Blank),
        Ok(Some(_)) => matches!(expected, Reading::Statement),
        Err(ParseError::Syntax) => matches!(expected, Reading::Syntax),
        Err(ParseError::BadNumber) => matches!(expected, Reading::BadNumber),
        Err(ParseError::TooMany(found)) => match expected {
            Reading::TooMany(count) => count == found,
            _ => false,
        },
    }
}

/// How many lines of a text come before the first that is not read so; all of them where each is.
#[inline(never)]
fn lines_read_as(text: &str, expected: Reading, room: &mut Room) -> usize {
    let mut read: usize = 0;
    for line in text.lines() {
        if !is_read_as(line.as_bytes(), expected, room) {
            return read;
        }
        read = read.saturating_add(1);
    }
    read
}

/// Whether each line of a text is read so.
#[inline(never)]
fn are_read_as(text: &str, expected: Reading, room: &mut Room) -> bool {
    lines_read_as(text, expected, room) == text.lines().count()
}

/// Whether each line of a text has too many of this, and of nothing that comes before it.
#[inline(never)]
fn have_too_many(text: &str, count: Count, room: &mut Room) -> bool {
    are_read_as(text, Reading::TooMany(count), room)
}

#[test]
fn lines(rt: HostRuntime) {
    let mut room = Room::new();
    assert!(rt; are_read_as(tables::BLANKS, Reading::Blank, &mut room));
    assert!(rt; are_read_as(tables::STATEMENTS, Reading::Statement, &mut room));
    assert!(rt; are_read_as(tables::NO_STATEMENTS, Reading::Syntax, &mut room));
    assert!(rt; are_read_as(tables::BAD_NUMBERS, Reading::BadNumber, &mut room));
}

#[test]
fn too_many(rt: HostRuntime) {
    let mut room = Room::new();
    assert!(rt; have_too_many(tables::TOO_MANY_NAME_LETTERS, Count::NameLetters, &mut room));
    assert!(rt; have_too_many(tables::TOO_MANY_TEXT_LETTERS, Count::TextLetters, &mut room));
    assert!(rt; have_too_many(tables::TOO_MANY_COLUMNS, Count::Columns, &mut room));
    assert!(rt; have_too_many(tables::TOO_MANY_ROWS, Count::Rows, &mut room));
    assert!(rt;
        have_too_many(
            tables::TOO_MANY_TABLES_IN_FROM,
            Count::TablesInFrom,
            &mut room
        )
    );
    assert!(rt; have_too_many(tables::TOO_MANY_OUTPUTS, Count::Outputs, &mut room));
    assert!(rt;
        have_too_many(
            tables::TOO_MANY_GROUP_COLUMNS,
            Count::GroupColumns,
            &mut room
        )
    );
    assert!(rt; have_too_many(tables::TOO_MANY_ORDER_KEYS, Count::OrderKeys, &mut room));
    assert!(rt; have_too_many(tables::TOO_MANY_NODES, Count::Nodes, &mut room));
}

/// A room, and a line that is put together of parts.
#[derive(Drop)]
struct Desk {
    room: Room,
    line: ArrayVec<u8, 4096>,
}

impl Desk {
    #[inline(never)]
    fn new() -> Desk {
        Desk {
            room: Room::new(),
            line: ArrayVec::new(),
        }
    }

    /// Puts bytes behind the line; what does not fit is left out.
    #[inline(never)]
    fn put(&mut self, bytes: &[u8]) {
        for byte in bytes {
            let _ = self.line.try_push(*byte);
        }
    }

    /// Whether a line of three parts is read so.
    #[inline(never)]
    fn reads(&mut self, front: &[u8], middle: &[u8], end: &[u8], expected: Reading) -> bool {
        self.reads_repeated(front, middle, 1, end, expected)
    }

    /// Whether a line is read so that has so many copies of a part between a front and an end.
    #[inline(never)]
    fn reads_repeated(
        &mut self,
        front: &[u8],
        part: &[u8],
        times: usize,
        end: &[u8],
        expected: Reading,
    ) -> bool {
        self.line.clear();
        self.put(front);
        for _turn in 0..times {
            self.put(part);
        }
        self.put(end);
        is_read_as(self.line.as_slice(), expected, &mut self.room)
    }
}

#[test]
fn long_lines(rt: HostRuntime) {
    let mut desk = Desk::new();
    let row = b"insert into t values (1";
    assert!(rt; desk.reads_repeated(row, b",1", 1023, b")", Reading::Statement));
    assert!(rt; desk.reads_repeated(row, b",1", 1024, b")", Reading::TooMany(Count::Values)));
    assert!(rt; desk.reads_repeated(row, b",1", 1024, b"", Reading::Syntax));
    assert!(rt; desk.reads_repeated(row, b"),(1", 1000, b")", Reading::TooMany(Count::Rows)));
    assert!(rt; desk.reads_repeated(row, b",1", 2030, b")", Reading::TooMany(Count::Values)));
    assert!(rt; desk.reads_repeated(b"", b" ", 4096, b"", Reading::Blank));
    assert!(rt; desk.reads_repeated(b"", b"\t", 4095, b";", Reading::Syntax));
    assert!(rt;
        desk.reads_repeated(
            b"select '",
            b"''",
            2000,
            b"' from t",
            Reading::TooMany(Count::TextLetters)
        )
    );
    assert!(rt;
        desk.reads_repeated(
            b"select ",
            b"'",
            4080,
            b" from t",
            Reading::TooMany(Count::TextLetters)
        )
    );
    assert!(rt; desk.reads_repeated(b"select ", b"'", 4079, b" from t", Reading::Syntax));
    assert!(rt; desk.reads_repeated(b"pool ", b"0", 4080, b"16", Reading::Statement));
    assert!(rt; desk.reads_repeated(b"pool ", b"9", 4091, b"", Reading::BadNumber));
}

#[test]
fn lines_of_one_part(rt: HostRuntime) {
    let mut desk = Desk::new();
    let parts: [&[u8]; 5] = [b"(", b"-", b"+", b"a.", b"not "];
    for i in 0..parts.len() {
        let alone = if i == 1 {
            Reading::Blank
        } else {
            Reading::Syntax
        };
        assert!(rt;
            desk.reads_repeated(b"", parts[i], 4096, b"", alone),
            "alone {}",
            i
        );
        assert!(rt;
            desk.reads_repeated(b"select ", parts[i], 4080, b" from t", Reading::Syntax),
            "select {}",
            i
        );
        assert!(rt;
            desk.reads_repeated(
                b"delete from t where ",
                parts[i],
                4096,
                b"",
                Reading::Syntax
            ),
            "where {}",
            i
        );
    }
}

/// A statement of the grammar, or none.
fn statement_where(is_one: bool) -> Reading {
    if is_one {
        Reading::Statement
    } else {
        Reading::Syntax
    }
}

fn is_letter(byte: u8) -> bool {
    (b'a' <= byte && byte <= b'z') || (b'A' <= byte && byte <= b'Z') || byte == b'_'
}

/// Whether a byte may stand alone between two operands.
fn is_between_operands(byte: u8) -> bool {
    match byte {
        b'+' | b'-' | b'*' | b',' | b'=' | b'<' | b'>' => true,
        _ => false,
    }
}

#[test]
fn bytes_outside(rt: HostRuntime) {
    let mut desk = Desk::new();
    for byte in 0..=255u8 {
        let blank = byte == b' ' || byte == b'\t';
        let end = blank || byte == b';';
        let front = statement_where(blank);
        let behind = statement_where(end);
        assert!(rt;
            desk.reads(b"", &[byte], b"work 1", front),
            "front {}",
            byte
        );
        assert!(rt;
            desk.reads(b"vacuum t ", &[byte], b"", behind),
            "behind {}",
            byte
        );
        assert!(rt;
            desk.reads(b"work 1 --", &[byte], b"'", Reading::Statement),
            "comment {}",
            byte
        );
        assert!(rt;
            desk.reads(b"--", &[byte], b"work 1", Reading::Blank),
            "no line {}",
            byte
        );
    }
}

#[test]
fn bytes_inside(rt: HostRuntime) {
    let mut desk = Desk::new();
    for byte in 0..=255u8 {
        let digit = b'0' <= byte && byte <= b'9';
        let word = digit || is_letter(byte);
        let blank = byte == b' ' || byte == b'\t';
        let end = blank || byte == b';';
        let joins = is_between_operands(byte);
        let text = statement_where(32 <= byte && byte <= 126 && byte != b'\'');
        let column = statement_where(word || joins || byte == b'.');
        let table = statement_where(word || blank || byte == b',');
        let whole = statement_where(word || end);
        let number = statement_where(digit || joins);
        let count = statement_where(digit || end);
        let part = [byte];
        assert!(rt;
            desk.reads(b"select a", &part, b"b from t", column),
            "column {}",
            byte
        );
        assert!(rt;
            desk.reads(b"select a from t", &part, b"u", table),
            "table {}",
            byte
        );
        assert!(rt; desk.reads(b"vacuum q", &part, b"", whole), "word {}", byte);
        assert!(rt;
            desk.reads(b"select 1", &part, b"2 from t", number),
            "number {}",
            byte
        );
        assert!(rt; desk.reads(b"work 1", &part, b"", count), "count {}", byte);
        assert!(rt;
            desk.reads(b"insert into t values ('a", &part, b"b')", text),
            "text {}",
            byte
        );
    }
}

/// Where a name may stand: as a table, a column, an alias, an index, a cursor.
const PLACES: usize = 24;

/// What stands before it.
static FRONTS: [&[u8]; PLACES] = [
    b"select a from ",
    b"select a from t join ",
    b"create table ",
    b"create index i on ",
    b"insert into ",
    b"update ",
    b"delete from ",
    b"vacuum ",
    b"select ",
    b"create table t (",
    b"update t set ",
    b"select t.",
    b"insert into t (",
    b"create index i on t (a, ",
    b"select a from t group by ",
    b"select a from t order by ",
    b"select a from t ",
    b"select a from t as ",
    b"select a as ",
    b"create index ",
    b"open ",
    b"start ",
    b"fetch ",
    b"close ",
];

/// What stands behind it.
static ENDS: [&[u8]; PLACES] = [
    b"",
    b" on a = b",
    b" (a int)",
    b" (a)",
    b" values (1)",
    b" set a = 1",
    b" where a = 1",
    b"",
    b" from t",
    b" int)",
    b" = 1",
    b" from t",
    b") values (1)",
    b")",
    b", b",
    b" desc",
    b", u",
    b"",
    b" from t",
    b" on t (a)",
    b" for select a from t",
    b" 1",
    b" 1",
    b"",
];

/// In how many places a word stands until it is first not read so; in all of them where it is.
#[inline(never)]
fn places_read_as(word: &[u8], expected: Reading, desk: &mut Desk) -> usize {
    for i in 0..PLACES {
        if !desk.reads(FRONTS[i], word, ENDS[i], expected) {
            return i;
        }
    }
    PLACES
}

#[test]
fn command_words_are_names(rt: HostRuntime) {
    let mut desk = Desk::new();
    for word in tables::COMMAND_WORDS.lines() {
        let places = places_read_as(word.as_bytes(), Reading::Statement, &mut desk);
        assert!(rt; places == PLACES, "{} in place {}", word, places);
    }
}

/// Each word but NULL, which is a value in the place of a column.
#[test]
fn keywords_are_no_names(rt: HostRuntime) {
    let mut desk = Desk::new();
    for word in tables::KEYWORDS.lines() {
        let places = places_read_as(word.as_bytes(), Reading::Syntax, &mut desk);
        let expected = if word == "NULL" { 8 } else { PLACES };
        assert!(rt; places == expected, "{} in place {}", word, places);
    }
}

/// Whether a node is an arithmetic of two nodes.
fn is_arithmetic(room: &Room, at: usize, left: u8, right: u8) -> bool {
    match room.nodes.get(at) {
        Some(Node::Arith(_, a, b)) => *a == left && *b == right,
        _ => false,
    }
}

fn is_not(room: &Room, at: usize, operand: u8) -> bool {
    match room.nodes.get(at) {
        Some(Node::Not(a)) => *a == operand,
        _ => false,
    }
}

fn is_both(room: &Room, at: usize, left: u8, right: u8) -> bool {
    match room.nodes.get(at) {
        Some(Node::Both(a, b)) => *a == left && *b == right,
        _ => false,
    }
}

#[test]
fn trees(rt: HostRuntime) {
    let mut room = Room::new();
    assert!(rt; is_read_as(b"select a - b - c from t", Reading::Statement, &mut room));
    assert!(rt; is_arithmetic(&room, 2, 0, 1));
    assert!(rt; is_arithmetic(&room, 4, 2, 3));
    assert!(rt;
        is_read_as(
            b"delete from t where not a and b",
            Reading::Statement,
            &mut room
        )
    );
    assert!(rt; is_not(&room, 1, 0));
    assert!(rt; is_both(&room, 3, 1, 2));
    assert!(rt;
        is_read_as(
            b"insert into t values ('it''s', 1)",
            Reading::Statement,
            &mut room
        )
    );
    assert!(rt; room.texts.as_str() == "it's");
    assert!(rt; room.values.len() == 2);
}

/// A room has nothing of an earlier line, however that was read.
#[test]
fn a_room_is_used_again(rt: HostRuntime) {
    let mut room = Room::new();
    let long = b"insert into t (a, b) values (1, 'x'), (2, 'y'), (3, 'z')";
    let short = b"insert into t values ('w')";
    assert!(rt; is_read_as(long, Reading::Statement, &mut room));
    assert!(rt; is_read_as(short, Reading::Statement, &mut room));
    assert!(rt; room.names.is_empty() && room.values.len() == 1 && room.ends.len() == 1);
    assert!(rt; room.texts.as_str() == "w");
    for line in tables::REFUSED.lines() {
        assert!(rt;
            !is_read_as(line.as_bytes(), Reading::Statement, &mut room),
            "{}",
            line
        );
        assert!(rt;
            is_read_as(short, Reading::Statement, &mut room),
            "{}",
            line
        );
        assert!(rt; room.names.is_empty() && room.values.len() == 1 && room.ends.len() == 1);
        assert!(rt; room.texts.as_str() == "w");
    }
}

/// How many values an INSERT has, where a line is read by value.
#[inline(never)]
fn values_by_value(line: &[u8]) -> usize {
    if line.len() > 4096 {
        return 0;
    }
    match parse(line, 64) {
        Ok(Some(parsed)) => match &parsed.command {
            Command::Insert(insert) => insert.values.len(),
            _ => 0,
        },
        _ => 0,
    }
}

#[test]
fn lines_by_value(rt: HostRuntime) {
    assert!(rt; values_by_value(b"insert into t values (1, 2), ('x', null)") == 4);
    assert!(rt; values_by_value(b"insert into t values (1, 2), ('x', nul)") == 0);
}

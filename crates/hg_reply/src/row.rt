//! The line of a row, printed from the row itself.
ghost use Rattle.std.specs.Prelude.{◌≡◌, ◌≤◌, ◌+◌, ◌*◌, ◌++◌, length};
ghost use Rattle.std.specs.List.{flat_map};
ghost use Rattle.std.specs.Fmt.{signed_decimal};
ghost use Rattle.arrayvec.specs.ArrayVec.{array_vec_len};
ghost use Rattle.hg_machine.specs.Plain.Replies as said;
ghost use Rattle.hg_reply.specs.Plain.{name_of};
ghost use Rattle.hg_value.specs.Coding.{coding};
ghost use Rattle.hg_value.specs.Looks.{value_of};

use crate::lines::{Cursor, Text, put, put_word_cursor};
use hg_value::{Look, Row};
use itoa::Buffer;

fn put_signed(out: &mut Text, number: i128)
    requires room { array_vec_len out.old + 40 ≤ 16384 }
    ensures text { out.new.items ≡ out.old.items ++ signed_decimal number }
    ensures short { array_vec_len out.new ≤ array_vec_len out.old + 40 }
{
    let mut digits = Buffer::new();
    put(out, digits.format(number).as_bytes());
}

/// A byte of a text between quotes: a quote stands twice.
fn put_doubled(out: &mut Text, byte: u8)
    requires room { array_vec_len out.old + 2 ≤ 16384 }
    ensures text { out.new.items ≡ out.old.items ++ said.doubled byte }
    ensures short { array_vec_len out.new ≤ array_vec_len out.old + 2 }
{
    if byte == b'\'' {
        put(out, b"''");
    } else {
        out.push(byte);
    }
}

/// A text in single quotes, each quote doubled.
fn put_quoted(out: &mut Text, text: &[u8])
    requires room { array_vec_len out.old + 2 * length text.now + 2 ≤ 16384 }
    ensures text { out.new.items ≡ out.old.items ++ said.quoted text.now }
    ensures short { array_vec_len out.new ≤ array_vec_len out.old + 2 * length text.now + 2 }
{
    put(out, b"'");
    for byte in text {
        put_doubled(out, *byte);
    }
    put(out, b"'");
}

fn put_value(out: &mut Text, value: &Look)
    requires room { array_vec_len out.old + 3 * length (coding (value_of value.now)) + 40 ≤ 16384 }
    ensures text { out.new.items ≡ out.old.items ++ said.value_text (value_of value.now) }
    ensures short { array_vec_len out.new ≤ array_vec_len out.old + 3 * length (coding (value_of value.now)) + 40 }
{
    match value {
        Look::Null => put(out, b"NULL"),
        Look::Int(number) => put_signed(out, *number),
        Look::Text(text) => put_quoted(out, text),
    }
}

/// A comma and a value behind it.
fn put_next_value(out: &mut Text, value: &Look)
    requires room { array_vec_len out.old + 3 * length (coding (value_of value.now)) + 41 ≤ 16384 }
    ensures text { out.new.items ≡ out.old.items ++ said.next_text (value_of value.now) }
    ensures short { array_vec_len out.new ≤ array_vec_len out.old + 3 * length (coding (value_of value.now)) + 41 }
{
    out.push(b',');
    put_value(out, value);
}

/// The values of a row with commas between them. At most 64 values of 3,900 coded bytes print as at most
/// 14,400 bytes.
fn put_values(out: &mut Text, row: &Row)
    requires room { array_vec_len out.old + 14400 ≤ 16384 }
    ensures text { out.new.items ≡ out.old.items ++ said.row_text row.now }
    ensures short { array_vec_len out.new ≤ array_vec_len out.old + 14400 }
{
    let count = row.len();
    if count == 0 {
        return;
    }
    put_value(out, &row.look(0));
    for place in 1..count {
        put_next_value(out, &row.look(place));
    }
}

/// Puts the line of a row of a cursor behind those that stand there.
pub fn print_row(cursor: &Cursor, row: &Row, out: &mut Text)
    requires room { array_vec_len out.old + 14436 ≤ 16384 }
    ensures text { out.new.items ≡ out.old.items ++ said.line_text (said.row (name_of cursor.now) row.now) }
    ensures short { array_vec_len out.new ≤ array_vec_len out.old + 14436 }
{
    put_word_cursor(out, b"row ", cursor);
    out.push(b' ');
    put_values(out, row);
    out.push(b'\n');
}

//! The bytes of lines, worked out by hand: the contracts say them in terms of definitions alone.
ghost use Rattle.hg_reply.specs.Plain.{IsKnown};

use crate::{Figures, Reply, ReplyLine, Words};
use hg_base::{Check, File, PageId};
use hg_model::{Chars, ColRef, Count, Name, Value};
use hg_value::Row;
use std::process::Abort;

fn says(rt: &impl Abort, reply: &mut Reply, line: ReplyLine, text: &str, is_error: bool)
    requires { IsKnown line }
{
    reply.clear();
    reply.say(&line);
    assert_eq!(rt; reply.text.as_slice(), text.as_bytes());
    assert_eq!(rt; reply.has_error, is_error);
}

#[test]
fn lines(rt: HostRuntime) {
    let rt = &rt;
    let name = Name::parse("c").expect(rt, "a name");
    let c = Some(&name);
    let mut r = Reply::new();
    says(rt, &mut r, ReplyLine::Created, "created\n", false);
    says(rt, &mut r, ReplyLine::Rows(0), "rows 0\n", false);
    says(rt, &mut r, ReplyLine::Rows(64), "rows 64\n", false);
    says(rt, &mut r, ReplyLine::Vacuumed, "vacuumed\n", false);
    says(rt, &mut r, ReplyLine::Opened(&name), "open c\n", false);
    says(rt, &mut r, ReplyLine::Started(&name), "started c\n", false);
    says(rt, &mut r, ReplyLine::Worked(9), "worked 9\n", false);
    says(rt, &mut r, ReplyLine::PoolSet(16), "pool 16\n", false);
    says(rt, &mut r, ReplyLine::MplSet(4), "mpl 4\n", false);
    says(rt, &mut r, ReplyLine::Held(c, 7), "held c 7\n", false);
    says(rt, &mut r, ReplyLine::Done(c), "done c\n", false);
    says(rt, &mut r, ReplyLine::Ended(None), "end *\n", false);
    says(rt, &mut r, ReplyLine::Closed(None), "closed *\n", false);
    let figures = Figures {
        pool: 128,
        max: 256,
        mpl: 4,
        active: 1,
        waiting: 0,
        hard: 192,
        soft: 32,
    };
    says(
        rt,
        &mut r,
        ReplyLine::Memory(figures),
        "memory pool 128 max 256 mpl 4 active 1 waiting 0 hard 192 soft 32\n",
        false,
    );
}

#[test]
fn errors(rt: HostRuntime) {
    let rt = &rt;
    let name = Name::parse("a23456789_123456789_123456789_").expect(rt, "a name");
    let mut r = Reply::new();
    says(
        rt,
        &mut r,
        ReplyLine::Error(1, Words::Nothing),
        "error 1 syntax\n",
        true,
    );
    says(
        rt,
        &mut r,
        ReplyLine::Error(3, Words::Name(&name)),
        "error 3 unknown table a23456789_123456789_123456789_\n",
        true,
    );
    says(
        rt,
        &mut r,
        ReplyLine::Error(9, Words::Kind(Count::RowsGrouped)),
        "error 9 too many rows grouped 1073741824\n",
        true,
    );
    says(
        rt,
        &mut r,
        ReplyLine::Error(16, Words::HeldAndCeiling(3, 2)),
        "error 16 limit 3 2\n",
        true,
    );
}

#[test]
fn a_column_of_a_table(rt: HostRuntime) {
    let rt = &rt;
    let table = Name::parse("t").expect(rt, "a name");
    let b = Name::parse("b").expect(rt, "a name");
    let column = ColRef {
        table: Some(table),
        name: b,
    };
    let mut r = Reply::new();
    says(
        rt,
        &mut r,
        ReplyLine::Error(4, Words::Column(&column)),
        "error 4 unknown column t.b\n",
        true,
    );
}

fn damage(rt: &impl Abort, file: File, no: u32, check: Check, text: &str) {
    let mut r = Reply::new();
    let words = Words::Damage(PageId { file, no }, check);
    says(rt, &mut r, ReplyLine::Error(21, words), text, true);
}

#[test]
fn damaged_pages(rt: HostRuntime) {
    let rt = &rt;
    let last = 4_294_967_295;
    damage(
        rt,
        File::Main,
        0,
        Check::Kind,
        "error 21 damaged main 0 kind\n",
    );
    damage(
        rt,
        File::Temp,
        7,
        Check::Size,
        "error 21 damaged temp 7 size\n",
    );
    damage(
        rt,
        File::Main,
        12,
        Check::Frame,
        "error 21 damaged main 12 frame\n",
    );
    damage(
        rt,
        File::Main,
        3,
        Check::Link,
        "error 21 damaged main 3 link\n",
    );
    damage(
        rt,
        File::Main,
        3,
        Check::Level,
        "error 21 damaged main 3 level\n",
    );
    damage(
        rt,
        File::Temp,
        last,
        Check::Order,
        "error 21 damaged temp 4294967295 order\n",
    );
    damage(
        rt,
        File::Main,
        1,
        Check::RowBytes,
        "error 21 damaged main 1 row\n",
    );
}

#[test]
fn lines_stand_behind_one_another(rt: HostRuntime) {
    let mut reply = Reply::new();
    reply.say(&ReplyLine::Error(17, Words::Nothing));
    reply.say(&ReplyLine::Closed(None));
    assert_eq!(rt;
        reply.text.as_slice(),
        b"error 17 main device fault\nclosed *\n".as_slice()
    );
    assert!(rt; reply.has_error);
}

fn text(rt: &impl Abort, characters: &str) -> Value {
    Value::Text(Chars::parse(characters).expect(rt, "a text"))
}

fn row_says(rt: &impl Abort, values: &[Value], text: &str) {
    let mut row = Row::new();
    for value in values {
        assert!(rt; row.push(value).is_ok());
    }
    let mut reply = Reply::new();
    reply.say_row(&None, &row);
    assert_eq!(rt; reply.text.as_slice(), text.as_bytes());
    assert!(rt; !reply.has_error);
}

#[test]
fn rows_of_one_value(rt: HostRuntime) {
    let rt = &rt;
    row_says(rt, &[Value::Null], "row * NULL\n");
    row_says(rt, &[Value::Int(-4)], "row * -4\n");
    row_says(rt, &[Value::Int(0)], "row * 0\n");
    row_says(
        rt,
        &[Value::Int(1 << 100)],
        "row * 1267650600228229401496703205376\n",
    );
    row_says(rt, &[text(rt, "")], "row * ''\n");
    row_says(rt, &[text(rt, "it's")], "row * 'it''s'\n");
    row_says(rt, &[text(rt, "''a,")], "row * '''''a,'\n");
}

#[test]
fn rows_of_more_values(rt: HostRuntime) {
    let rt = &rt;
    row_says(rt, &[text(rt, "'"), Value::Null], "row * '''',NULL\n");
    let sixteen = [
        Value::Int(0),
        Value::Int(1),
        Value::Null,
        Value::Int(-4),
        text(rt, "x"),
        Value::Int(5),
        Value::Int(6),
        Value::Int(7),
        Value::Int(-2147483648),
        Value::Null,
        text(rt, "o'clock"),
        Value::Int(11),
        Value::Int(12),
        Value::Int(13),
        Value::Int(-(1 << 100)),
        Value::Int(15),
    ];
    row_says(
        rt,
        &sixteen,
        "row * 0,1,NULL,-4,'x',5,6,7,-2147483648,NULL,'o''clock',11,12,13,-1267650600228229401496703205376,15\n",
    );
}

#[test]
fn last_row(rt: HostRuntime) {
    let rt = &rt;
    let name = Name::parse("c").expect(rt, "a name");
    let mut row = Row::new();
    assert!(rt; row.push(&Value::Int(7)).is_ok());
    let mut reply = Reply::new();
    reply.say_last_row(&Some(&name), &row);
    assert_eq!(rt; reply.text.as_slice(), b"row c 7\ndone c\n".as_slice());
}

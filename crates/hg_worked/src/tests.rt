//! Statements that the slow evaluator runs. A statement is written in words, operands first, so that it
//! needs no parser; the answers are worked by hand.
use arrayvec::{ArrayString, ArrayVec};
use hg_model::{
    Chars, Cmp, ColRef, Column, Fold, FromTable, Literal, Name, Node, Op, OrderBy, OrderKey,
    Output, Select, Span, SqlType, Value,
};
use hg_slow::{SlowTable, is_answerable, slow_answer};
use std::alloc::{AllocError, Global};
use std::test::Fail;

#[derive(Drop)]
struct Maker {
    select: Select,
    texts: ArrayString<4096>,
    stack: ArrayVec<u8, 32>,
}

fn new_maker() -> Maker {
    Maker {
        select: Select {
            distinct: false,
            star: false,
            outputs: ArrayVec::new(),
            tables: ArrayVec::new(),
            filter: None,
            group: ArrayVec::new(),
            having: None,
            order: ArrayVec::new(),
            nodes: ArrayVec::new(),
        },
        texts: ArrayString::new(),
        stack: ArrayVec::new(),
    }
}

fn push_node(maker: &mut Maker, node: Node) -> Option<()> {
    let place = u8::try_from(maker.select.nodes.len()).ok()?;
    maker.select.nodes.try_push(node).ok()?;
    maker.stack.try_push(place).ok()
}

fn push_text(maker: &mut Maker, text: &str) -> Option<()> {
    let at = u16::try_from(maker.texts.len()).ok()?;
    let len = u16::try_from(text.len()).ok()?;
    maker.texts.try_push_str(text).ok()?;
    push_node(maker, Node::Lit(Literal::Text(Span { at, len })))
}

fn column(text: &str) -> Option<ColRef> {
    match text.split_once('.') {
        None => Some(ColRef {
            table: None,
            name: Name::parse(text)?,
        }),
        Some((table, name)) => Some(ColRef {
            table: Some(Name::parse(table)?),
            name: Name::parse(name)?,
        }),
    }
}

fn operator(maker: &mut Maker, word: &str) -> Option<()> {
    let b = maker.stack.pop()?;
    let a = maker.stack.pop()?;
    let node = match word {
        "+" => Node::Arith(Op::Add, a, b),
        "-" => Node::Arith(Op::Sub, a, b),
        "*" => Node::Arith(Op::Mul, a, b),
        "=" => Node::Compare(Cmp::Eq, a, b),
        "<>" => Node::Compare(Cmp::Ne, a, b),
        "<" => Node::Compare(Cmp::Lt, a, b),
        ">" => Node::Compare(Cmp::Gt, a, b),
        ">=" => Node::Compare(Cmp::Ge, a, b),
        "and" => Node::Both(a, b),
        "or" => Node::Either(a, b),
        _ => return None,
    };
    push_node(maker, node)
}

fn aggregate(maker: &mut Maker, function: Fold) -> Option<()> {
    let a = maker.stack.pop()?;
    push_node(maker, Node::Aggregate(function, Some(a)))
}

fn clause(maker: &mut Maker, word: &str) -> Option<()> {
    let a = maker.stack.pop()?;
    match word {
        "out" => maker
            .select
            .outputs
            .try_push(Output {
                node: a,
                name: None,
            })
            .ok(),
        "where" => {
            maker.select.filter = Some(a);
            Some(())
        }
        "group" => maker.select.group.try_push(a).ok(),
        "having" => {
            maker.select.having = Some(a);
            Some(())
        }
        "order" | "descending" => maker
            .select
            .order
            .try_push(OrderKey {
                by: OrderBy::Column(a),
                descending: word == "descending",
            })
            .ok(),
        _ => None,
    }
}

fn from_table(maker: &mut Maker, text: &str) -> Option<()> {
    let table = FromTable {
        table: Name::parse(text)?,
        alias: Name::parse(text)?,
        on: None,
    };
    maker.select.tables.try_push(table).ok()
}

fn take_word(maker: &mut Maker, word: &str) -> Option<()> {
    if let Some(text) = word.strip_prefix("@") {
        return push_node(maker, Node::Col(column(text)?));
    }
    if let Some(text) = word.strip_prefix("#") {
        let number = text.parse::<i64>().ok()?;
        return push_node(maker, Node::Lit(Literal::Int(i128::from(number))));
    }
    if let Some(text) = word.strip_prefix("$") {
        return push_text(maker, text);
    }
    if let Some(text) = word.strip_prefix("from:") {
        return from_table(maker, text);
    }
    match word {
        "null" => push_node(maker, Node::Lit(Literal::Null)),
        "count(*)" => push_node(maker, Node::Aggregate(Fold::CountRows, None)),
        "count" => aggregate(maker, Fold::Count),
        "sum" => aggregate(maker, Fold::Sum),
        "min" => aggregate(maker, Fold::Min),
        "max" => aggregate(maker, Fold::Max),
        "not" => {
            let a = maker.stack.pop()?;
            push_node(maker, Node::Not(a))
        }
        "distinct" => {
            maker.select.distinct = true;
            Some(())
        }
        "star" => {
            maker.select.star = true;
            Some(())
        }
        "out" | "where" | "group" | "having" | "order" | "descending" => clause(maker, word),
        _ => operator(maker, word),
    }
}

fn statement(words: &str) -> Option<Maker> {
    let mut maker = new_maker();
    for word in words.split_whitespace() {
        take_word(&mut maker, word)?;
    }
    Some(maker)
}

fn value(word: &str) -> Option<Value> {
    if word == "NULL" {
        return Some(Value::Null);
    }
    match word.strip_prefix("$") {
        Some(text) => Some(Value::Text(Chars::parse(text)?)),
        None => Some(Value::Int(i128::from(word.parse::<i64>().ok()?))),
    }
}

// a table's columns of one type each: `a` of INTEGER, `$a` of VARCHAR(9)
fn columns(alloc: Global, words: &str) -> Result<Option<Vec<Column>>, AllocError> {
    let mut columns = Vec::new(alloc);
    for word in words.split_whitespace() {
        let (text, ty) = match word.strip_prefix("$") {
            Some(text) => (text, SqlType::Varchar(9)),
            None => (word, SqlType::Integer),
        };
        let Some(name) = Name::parse(text) else {
            return Ok(None);
        };
        columns.push(Column {
            name,
            ty,
            not_null: false,
        })?;
    }
    Ok(Some(columns))
}

// rows of values, each ended by `/`
fn rows(alloc: Global, words: &str) -> Result<Option<Vec<Vec<Value>>>, AllocError> {
    let mut rows = Vec::new(alloc);
    let mut row = Vec::new(alloc);
    for word in words.split_whitespace() {
        if word == "/" {
            rows.push(row)?;
            row = Vec::new(alloc);
        } else {
            let Some(value) = value(word) else {
                return Ok(None);
            };
            row.push(value)?;
        }
    }
    Ok(Some(rows))
}

fn table(
    alloc: Global,
    name: &str,
    column_words: &str,
    row_words: &str,
) -> Result<Option<SlowTable>, AllocError> {
    let Some(name) = Name::parse(name) else {
        return Ok(None);
    };
    let Some(columns) = columns(alloc, column_words)? else {
        return Ok(None);
    };
    let Some(rows) = rows(alloc, row_words)? else {
        return Ok(None);
    };
    Ok(Some(SlowTable {
        name,
        columns,
        rows,
    }))
}

fn printed(alloc: Global, answer: &Vec<Vec<Value>>) -> Result<String, AllocError> {
    let mut text = String::new(alloc);
    for row in answer {
        for value in row {
            match value {
                Value::Null => text.push_str("NULL ")?,
                Value::Int(number) => text.push_str(format!(in alloc; "{number} ")?.as_str())?,
                Value::Text(letters) => {
                    text.push_str("$")?;
                    text.push_str(letters.as_str())?;
                    text.push_str(" ")?;
                }
            }
        }
        text.push_str("/ ")?;
    }
    Ok(text)
}

// what the slow evaluator prints for a statement over one table
fn run(
    alloc: Global,
    column_words: &str,
    row_words: &str,
    words: &str,
) -> Result<String, AllocError> {
    let Some(maker) = statement(words) else {
        return String::from_str(alloc, "no statement");
    };
    let mut tables = Vec::new(alloc);
    let Some(table) = table(alloc, "t", column_words, row_words)? else {
        return String::from_str(alloc, "no table");
    };
    tables.push(table)?;
    if !is_answerable(&maker.select, maker.texts.as_str(), &tables) {
        return String::from_str(alloc, "not answerable");
    }
    let answer = slow_answer(alloc, &maker.select, maker.texts.as_str(), &tables)?;
    printed(alloc, &answer)
}

// columns, rows, statement, answer
const CASES: [[&str; 4]; 16] = [
    [
        "a",
        "NULL / NULL / 1 /",
        "@a out count(*) out from:t @a group @a order",
        "NULL 2 / 1 1 / ",
    ],
    [
        "a",
        "NULL / 1 / 2 /",
        "@a out from:t @a #1 <> where",
        "2 / ",
    ],
    [
        "a",
        "NULL / 1 / 2 /",
        "@a out from:t @a #1 = not where",
        "2 / ",
    ],
    ["a", "", "@a sum out count(*) out from:t", "NULL 0 / "],
    ["a", "", "@a sum out count(*) out from:t @a group", ""],
    [
        "a",
        "3 / 3 / NULL / 5 /",
        "count(*) out @a count out @a sum out @a min out @a max out from:t",
        "4 3 11 3 5 / ",
    ],
    [
        "a",
        "1 / 1 / NULL / NULL / 2 /",
        "distinct @a out from:t @a descending",
        "2 / 1 / NULL / ",
    ],
    [
        "a",
        "1 / 1 / NULL / NULL / 2 /",
        "@a min out @a max out @a count out @a sum out from:t count(*) #4 > having",
        "1 2 3 4 / ",
    ],
    [
        "a",
        "1 / 1 / NULL / NULL / 2 /",
        "count(*) out from:t count(*) #5 > having",
        "",
    ],
    [
        "a b",
        "NULL 1 / 1 NULL / NULL NULL / 2 1 /",
        "@b out from:t @a @b = #1 #0 = and not where @b descending",
        "1 / 1 / NULL / NULL / ",
    ],
    [
        "a $b",
        "1 $x / NULL $y / 1 $a /",
        "@b out from:t @a descending @b order",
        "$a / $x / $y / ",
    ],
    [
        "$b",
        "$b / $ab / $abc / $a /",
        "@b out from:t @b order",
        "$a / $ab / $abc / $b / ",
    ],
    [
        "$b",
        "$b / $ab / $abc / $a /",
        "@b out from:t @b $abc < where @b order",
        "$a / $ab / ",
    ],
    [
        "a",
        "-2147483648 / 2147483647 /",
        "@a @a * @a * out from:t @a order",
        "-9903520314283042199192993792 / 9903520300447984150353281023 / ",
    ],
    [
        "a",
        "1 / 2 /",
        "@a out from:t @a @a * @a * @a * #0 > where",
        "not answerable",
    ],
    [
        "a b",
        "2 5 / 1 6 /",
        "star from:t @b descending",
        "1 6 / 2 5 / ",
    ],
];

#[test]
fn statements(rt: HostRuntime) -> Result<(), Fail> {
    let alloc = rt.alloc();
    for case in CASES {
        let [column_words, row_words, words, answer] = case;
        let given = run(alloc, column_words, row_words, words)?;
        assert_eq!(rt; given.as_str(), answer);
    }
    Ok(())
}

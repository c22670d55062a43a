//! A table of expressions over one row, with values worked out by hand.
ghost use Rattle.std.specs.Prelude.{◌≡◌, IfSome};
ghost use Rattle.hg_expr.specs.Examples.{seven};

use crate::{Evaluation, eval, rows_fit, tables_so_far_tell};
use arrayvec::ArrayVec;
use hg_model::{Cmp, ColRef, Literal, Node, Op, Span, Truth, Value};
use hg_value::Row;
use std::test::Fail;

/// The row 5, NULL, 'ab', 'abc', 2147483647, -2147483648, ''.
fn row_of_seven() -> Option<Row>
    ensures { IfSome result (λ row. row ≡ seven) }
{
    let mut row = Row::new();
    row.push_int(5).ok()?;
    row.push_null().ok()?;
    row.push_text(b"ab").ok()?;
    row.push_text(b"abc").ok()?;
    row.push_int(2147483647).ok()?;
    row.push_int(-2147483648).ok()?;
    row.push_text(b"").ok()?;
    Some(row)
}

fn letter(truth: Truth) -> u8 {
    match truth {
        Truth::True => b't',
        Truth::False => b'f',
        Truth::Unknown => b'u',
    }
}

/// The truths of the nodes of the table, true, false and unknown, and of one behind them. A value is
/// unknown as a condition.
const TRUTHS: &[u8] = b"uuuutuutfututuufffuuttuutfutututfufuuutuutuuttutttffufufttuuutuututuuutu";

/// The truth of a node of the table over the row of seven.
fn truth_over(row: &Row, n: u8) -> Truth
    requires { row.now ≡ seven }
{
    let nodes = [
        Node::Col(ColRef::default()), // 0: a, 5
        Node::Lit(Literal::Int(7)),
        Node::Arith(Op::Add, 0, 1),
        Node::Col(ColRef::default()), // 3: m, 2147483647
        Node::Compare(Cmp::Lt, 2, 3), // a + 7 < m
        Node::Col(ColRef::default()), // 5: b, NULL
        Node::Compare(Cmp::Eq, 5, 5), // b = b
        Node::IsNull(5),
        Node::NotNull(5),
        Node::Arith(Op::Add, 5, 1), // b + 7
        Node::IsNull(9),
        Node::Neg(5),
        Node::IsNull(11),
        Node::Both(4, 6), // true AND unknown
        Node::Not(6),
        Node::Not(4),
        Node::Both(15, 6), // false AND unknown
        Node::Both(6, 15),
        Node::Either(6, 15), // unknown OR false
        Node::Either(15, 6),
        Node::Either(6, 4), // unknown OR true
        Node::Either(4, 6),
        Node::Col(ColRef::default()), // 22: s, 'ab'
        Node::Col(ColRef::default()), // 23: t, 'abc'
        Node::Compare(Cmp::Lt, 22, 23), // a prefix is less
        Node::Compare(Cmp::Ge, 22, 23),
        Node::Lit(Literal::Text(Span { at: 0, len: 1 })), // 26: 'b'
        Node::Compare(Cmp::Lt, 23, 26), // and a longer text may be
        Node::Col(ColRef::default()), // 28: e, ''
        Node::Compare(Cmp::Lt, 28, 22),
        Node::Lit(Literal::Text(Span { at: 1, len: 2 })), // 30: 'ab'
        Node::Compare(Cmp::Eq, 22, 30),
        Node::Compare(Cmp::Ne, 22, 30),
        Node::Lit(Literal::Text(Span { at: 3, len: 2 })), // 33: 'AB'
        Node::Compare(Cmp::Eq, 22, 33),
        Node::Col(ColRef::default()), // 35: l, -2147483648
        Node::Arith(Op::Sub, 35, 3), // l - m
        Node::Lit(Literal::Int(-4294967295)),
        Node::Compare(Cmp::Eq, 36, 37),
        Node::Arith(Op::Mul, 35, 35), // l * l
        Node::Lit(Literal::Int(4611686018427387904)),
        Node::Compare(Cmp::Eq, 39, 40),
        Node::Neg(35), // -l
        Node::Lit(Literal::Int(2147483648)),
        Node::Compare(Cmp::Gt, 42, 3), // -l > m
        Node::Compare(Cmp::Eq, 42, 43),
        Node::Lit(Literal::Int(5)),
        Node::Compare(Cmp::Ge, 0, 46), // a >= 5
        Node::Compare(Cmp::Le, 0, 1), // a <= 7
        Node::Both(47, 48), // a BETWEEN 5 AND 7
        Node::Not(49),
        Node::Compare(Cmp::Ge, 0, 1), // a >= 7
        Node::Compare(Cmp::Le, 0, 5), // a <= NULL
        Node::Both(51, 52), // a BETWEEN 7 AND b
        Node::Both(47, 52), // a BETWEEN 5 AND b
        Node::Compare(Cmp::Eq, 0, 1), // a = 7
        Node::Compare(Cmp::Eq, 0, 46), // a = 5
        Node::Either(55, 56), // a IN (7, 5)
        Node::Compare(Cmp::Eq, 0, 5), // a = NULL
        Node::Either(55, 58), // a IN (7, b)
        Node::Not(59),
        Node::Either(57, 58), // a IN (7, 5, b)
        Node::Lit(Literal::Null),
        Node::Compare(Cmp::Eq, 62, 0),
        Node::IsNull(62),
        Node::Col(ColRef::default()), // 65: behind the row
        Node::IsNull(65),
        Node::Arith(Op::Sub, 0, 1), // a - 7
        Node::Arith(Op::Mul, 0, 67), // a * (a - 7)
        Node::Lit(Literal::Int(-10)),
        Node::Compare(Cmp::Eq, 68, 69),
    ];
    let mut slots: [u8; 71] = [255; 71];
    slots[0] = 0;
    slots[3] = 4;
    slots[5] = 1;
    slots[22] = 2;
    slots[23] = 3;
    slots[28] = 6;
    slots[35] = 5;
    slots[65] = 7;
    let evaluation = Evaluation {
        nodes: &nodes,
        slots: &slots,
        texts: "babAB",
        row,
    };
    evaluation.truth(n)
}

/// `a + 7` over a row, by the places of its column.
fn sum_by_places(row: &Row) -> Value
    requires { row.now ≡ seven }
{
    let mut nodes = ArrayVec::new();
    nodes.push(Node::Col(ColRef::default()));
    nodes.push(Node::Lit(Literal::Int(7)));
    nodes.push(Node::Arith(Op::Add, 0, 1));
    let mut places = ArrayVec::new();
    places.push((255, 0));
    places.push((255, 255));
    places.push((255, 255));
    eval(&nodes, &places, 2, "", row)
}

#[test]
fn conditions_over_a_row(rt: HostRuntime) -> Result<(), Fail> {
    let row = row_of_seven().ok_or("no row")?;
    for (n, wanted) in TRUTHS.iter().enumerate() {
        assert_eq!(rt; letter(truth_over(&row, n as u8)), *wanted);
    }
    Ok(())
}

#[test]
fn values_by_places(rt: HostRuntime) -> Result<(), Fail> {
    let row = row_of_seven().ok_or("no row")?;
    rows_fit();
    tables_so_far_tell();
    assert!(rt; matches!(sum_by_places(&row), Value::Int(12)));
    Ok(())
}

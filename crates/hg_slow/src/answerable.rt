//! The test of what `slow_answer` asks of a SELECT and its tables.
ghost use Rattle.std.specs.Prelude.{◌≡◌, ◌≤◌, ◌<◌, ◌+◌, ◌*◌, ◌^◌, ℕ, length, map, min, nat_lt, IsTrue};
ghost use Rattle.std.specs.List.{list_all};
ghost use Rattle.hg_model.specs.Query.{query_of};
ghost use Rattle.hg_model.specs.Scope.{rows_of};
ghost use Rattle.hg_model.specs.Tables.{cross, fits_columns, fits_integer, fits_type, is_allowed, table_fits, table_named};
ghost use Rattle.hg_model.specs.Types as types;
ghost use Rattle.hg_model.specs.Value.{is_chars, is_printable};
ghost use Rattle.hg_model.specs.Width as width;
ghost use Rattle.hg_slow.specs.Answerable.{IsAnswerable, is_answerable};
ghost use Rattle.hg_slow.specs.SlowTables.{table_of, tables_of};
ghost use Rattle.hg_model.specs.declared.trees.FromTable.{FromTable};

use crate::compare::is_null;
use crate::scope::find_table;
use crate::tables::SlowTable;
use arrayvec::ArrayVec;
use hg_model::{Column, Fold, FromTable, Literal, Node, Op, Select, SqlType, Value};

fn has_children_before(place: usize, node: &Node) -> bool
    ensures { result ≡ width.has_children_before place node.now }
{
    match node {
        Node::Lit(_) | Node::Col(_) | Node::Aggregate(_, None) => true,
        Node::Neg(a) | Node::Not(a) | Node::IsNull(a) | Node::NotNull(a) => (*a as usize) < place,
        Node::Aggregate(_, Some(a)) => (*a as usize) < place,
        Node::Arith(_, a, b) => (*a as usize) < place && (*b as usize) < place,
        Node::Compare(_, a, b) => (*a as usize) < place && (*b as usize) < place,
        Node::Both(a, b) | Node::Either(a, b) => (*a as usize) < place && (*b as usize) < place,
    }
}

fn is_tree(nodes: &[Node]) -> bool
    ensures { result ≡ width.is_tree nodes.now }
{
    for (place, node) in nodes.iter().enumerate() {
        if !has_children_before(place, node) {
            return false;
        }
    }
    true
}

fn all_printable(bytes: &[u8]) -> bool
    ensures { result ≡ list_all is_printable bytes.now }
{
    for byte in bytes {
        if *byte < 32 || *byte > 126 {
            return false;
        }
    }
    true
}

fn is_chars(bytes: &[u8]) -> bool
    ensures { result ≡ is_chars bytes.now }
{
    all_printable(bytes) && bytes.len() <= 255
}

fn literal_fits(texts: &[u8], literal: &Literal) -> bool
    ensures { result ≡ width.literal_fits texts.now literal.now }
{
    match literal {
        Literal::Null | Literal::Int(_) => true,
        Literal::Text(span) => {
            let from = span.at as usize;
            let len = span.len as usize;
            from + len <= texts.len() && is_chars(&texts[from..from + len])
        }
    }
}

fn text_fits(texts: &[u8], node: &Node) -> bool
    ensures { result ≡ width.text_fits texts.now node.now }
{
    match node {
        Node::Lit(literal) => literal_fits(texts, literal),
        _ => true,
    }
}

fn texts_fit(texts: &[u8], nodes: &[Node]) -> bool
    ensures { result ≡ list_all (width.text_fits texts.now) nodes.now }
{
    for node in nodes {
        if !text_fits(texts, node) {
            return false;
        }
    }
    true
}

fn fits_integer(number: i128) -> bool
    ensures { result ≡ fits_integer number }
{
    -2147483648 <= number && number < 2147483648
}

fn fits_type(ty: SqlType, value: &Value) -> bool
    ensures { result ≡ fits_type ty value.now }
{
    match (ty, value) {
        (_, Value::Null) => true,
        (SqlType::Integer, Value::Int(number)) => fits_integer(*number),
        (SqlType::Varchar(most), Value::Text(text)) => text.as_str().len() <= most as usize,
        (SqlType::Integer, Value::Text(_)) | (SqlType::Varchar(_), Value::Int(_)) => false,
    }
}

fn is_allowed(column: &Column, value: &Value) -> bool
    ensures { result ≡ is_allowed column.now value.now }
{
    !(column.not_null && is_null(value))
}

fn fits_columns(columns: &[Column], row: &[Value]) -> bool
    ensures { result ≡ fits_columns columns.now row.now }
{
    if columns.len() != row.len() {
        return false;
    }
    for (place, column) in columns.iter().enumerate() {
        if !fits_type(column.ty, &row[place]) || !is_allowed(column, &row[place]) {
            return false;
        }
    }
    true
}

fn table_fits(table: &SlowTable) -> bool
    ensures { result ≡ table_fits (table_of table.now) }
{
    for row in &table.rows {
        if !fits_columns(&table.columns, row) {
            return false;
        }
    }
    true
}

fn tables_fit(tables: &Vec<SlowTable>) -> bool
    ensures { result ≡ list_all table_fits (tables_of tables.now.items) }
{
    for table in tables {
        if !table_fits(table) {
            return false;
        }
    }
    true
}

fn below_power(number: u128, place: u32) -> bool
    requires { place < 128 }
    ensures { result ≡ nat_lt number (2 ^ (place + 1)) }
{
    place == 127 || number < 1u128 << (place + 1)
}

#[tactic(auto, unfolding(hg_model::specs::Types::digits_within))]
fn digits_within(limit: u32, number: u128) -> usize
    requires { limit ≤ 128 }
    ensures value { result ≡ types.digits_within limit number }
    ensures small { result ≤ limit + 1 }
{
    for place in 0..limit {
        if below_power(number, place) {
            return place as usize + 1;
        }
    }
    limit as usize + 1
}

#[tactic(auto, unfolding(hg_model::specs::Types::binary_digits))]
fn binary_digits(number: u128) -> usize
    ensures value { result ≡ types.binary_digits number }
    ensures small { result ≤ 129 }
{
    digits_within(128, number)
}

fn literal_bound(literal: &Literal) -> usize
    ensures value { result ≡ types.literal_bound literal.now }
    ensures small { result ≤ 129 }
{
    match literal {
        Literal::Null | Literal::Text(_) => 1,
        Literal::Int(number) => binary_digits(number.unsigned_abs()),
    }
}

fn bound_at(done: &[usize], node: usize) -> usize
    requires { IsTrue (list_all types.is_narrow done.now) }
    ensures value { result ≡ types.bound_at done.now node }
    ensures small { result ≤ 126 }
{
    if node < done.len() { done[node] } else { 0 }
}

fn arithmetic_bound(op: Op, a: usize, b: usize) -> usize
    requires left { a ≤ 126 }
    requires right { b ≤ 126 }
    ensures { result ≡ types.arithmetic_bound op a b }
{
    match op {
        Op::Add | Op::Sub => a.max(b) + 1,
        Op::Mul => a + b,
    }
}

fn fold_bound(function: Fold, done: &[usize], operand: &Option<u8>) -> usize
    requires { IsTrue (list_all types.is_narrow done.now) }
    ensures { result ≡ types.fold_bound function done.now operand.now }
{
    match (function, operand) {
        (Fold::CountRows | Fold::Count, _) => 31,
        (Fold::Sum, None) => 30,
        (Fold::Sum, Some(a)) => 30 + bound_at(done, *a as usize),
        (Fold::Min | Fold::Max, None) => 1,
        (Fold::Min | Fold::Max, Some(a)) => bound_at(done, *a as usize),
    }
}

fn bound_of(node: &Node, done: &[usize]) -> usize
    requires { IsTrue (list_all types.is_narrow done.now) }
    ensures { result ≡ types.bound_of node.now done.now }
{
    match node {
        Node::Lit(literal) => literal_bound(literal),
        Node::Col(_) => 32,
        Node::Neg(a) => bound_at(done, *a as usize),
        Node::Arith(op, a, b) => {
            let left = bound_at(done, *a as usize);
            let right = bound_at(done, *b as usize);
            arithmetic_bound(*op, left, right)
        }
        Node::Aggregate(function, operand) => fold_bound(*function, done, operand),
        _ => 1,
    }
}

fn all_narrow(nodes: &[Node]) -> bool
    requires { length nodes.now ≤ 112 }
    ensures { result ≡ types.all_narrow nodes.now }
{
    let mut done = ArrayVec::<usize, 112>::new();
    for node in nodes {
        let bound = bound_of(node, done.as_slice());
        if bound > 126 {
            return false;
        }
        done.push(bound);
    }
    true
}

fn row_count(tables: &Vec<SlowTable>, from: &FromTable) -> usize
    ensures { result ≡ length (rows_of (table_named (tables_of tables.now.items) from.now.table)) }
{
    match find_table(tables, &from.table) {
        Some(table) => table.rows.len(),
        None => 0,
    }
}

// how many rows the cross product has, or 2^30 + 1 where they are more
fn product_count(tables: &Vec<SlowTable>, froms: &[FromTable]) -> usize
    ensures { result ≡ min (length (cross (map (λ (f : FromTable). rows_of (table_named (tables_of tables.now.items) f.table)) froms.now))) (2 ^ 30 + 1) }
{
    match froms {
        [] => 1,
        [first, others @ ..] => {
            let more = product_count(tables, others);
            let rows = row_count(tables, first);
            rows.saturating_mul(more).min((1 << 30) + 1)
        }
    }
}

fn passes(select: &Select, texts: &str, tables: &Vec<SlowTable>) -> bool
    ensures { result ≡ is_answerable (query_of select.now) texts.now (tables_of tables.now.items) }
{
    let nodes = select.nodes.as_slice();
    is_tree(nodes)
        && texts_fit(texts.as_bytes(), nodes)
        && all_narrow(nodes)
        && tables_fit(tables)
        && product_count(tables, select.tables.as_slice()) <= 1 << 30
}

/// Whether `slow_answer` may be asked: a statement that was read and bound over its tables passes, unless
/// the cross product of its tables has more than 2^30 rows.
pub fn is_answerable(select: &Select, texts: &str, tables: &Vec<SlowTable>) -> bool
    ensures test { result ≡ is_answerable (query_of select.now) texts.now (tables_of tables.now.items) }
    ensures answerable { IsTrue result → IsAnswerable (query_of select.now) texts.now (tables_of tables.now.items) }
{
    passes(select, texts, tables)
}

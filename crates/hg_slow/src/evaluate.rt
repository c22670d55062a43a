//! What the nodes of an expression stand for, computed in 128 bits.
ghost use Rattle.std.specs.Prelude.{◌≡◌, ◌<◌, ◌≤◌, ◌+◌, ◌^◌, ℕ, length, IsTrue, IfOk, []};
ghost use Rattle.std.specs.List.{fold, list_all};
ghost use Rattle.hg_model.specs.Value.{is_chars};
ghost use Rattle.hg_model.specs.Aggregates as aggregates;
ghost use Rattle.hg_model.specs.Evaluation as evaluation;
ghost use Rattle.hg_model.specs.Width.{IsBelow, AllBelow, SumsBelow, FoldFits, literal_fits, text_fits};

use crate::compare::{both, compare, either, is_null, known, opposite, value_cmp};
use hg_model::{Chars, Fold, Literal, Node, NodeValue, Op, Span, Truth, Value};
use std::alloc::{AllocError, Global};

/// The value at a place of a row; NULL behind its end.
pub fn value_at(row: &[Value], place: usize) -> Value
    ensures { result ≡ evaluation.value_at row.now place }
{
    match row.get(place) {
        Some(value) => value.copy(),
        None => Value::Null,
    }
}

/// The value of the node at an index.
pub fn value_of(done: &[NodeValue], node: usize) -> Value
    ensures { result ≡ evaluation.value_of done.now node }
{
    match done.get(node) {
        Some(NodeValue::Plain(value)) => value.copy(),
        _ => Value::Null,
    }
}

/// The truth of the node at an index.
pub fn truth_of(done: &[NodeValue], node: usize) -> Truth
    ensures { result ≡ evaluation.truth_of done.now node }
{
    match done.get(node) {
        Some(NodeValue::Condition(truth)) => *truth,
        _ => Truth::Unknown,
    }
}

fn part_of(texts: &str, span: &Span) -> Chars
    requires inside { span.now.at + span.now.len ≤ length texts.now }
    requires chars { IsTrue (is_chars (evaluation.part_of texts.now span.now)) }
    ensures { result ≡ evaluation.part_of texts.now span.now }
{
    let bytes = texts.as_bytes();
    let from = span.at as usize;
    let len = span.len as usize;
    Chars::from_bytes(&bytes[from..from + len])
}

fn literal_value(texts: &str, literal: &Literal) -> Value
    requires { IsTrue (literal_fits texts.now literal.now) }
    ensures { result ≡ evaluation.literal_value texts.now literal.now }
{
    match literal {
        Literal::Null => Value::Null,
        Literal::Int(number) => Value::Int(*number),
        Literal::Text(span) => Value::Text(part_of(texts, span)),
    }
}

fn negative(value: &Value) -> Value
    requires { IsBelow 126 (evaluation.negative value.now) }
    ensures { result ≡ evaluation.negative value.now }
{
    match value {
        Value::Int(x) => Value::Int(-*x),
        _ => Value::Null,
    }
}

fn arithmetic(op: Op, a: &Value, b: &Value) -> Value
    requires { IsBelow 126 (evaluation.arithmetic op a.now b.now) }
    ensures { result ≡ evaluation.arithmetic op a.now b.now }
{
    match (op, a, b) {
        (Op::Add, Value::Int(x), Value::Int(y)) => Value::Int(*x + *y),
        (Op::Sub, Value::Int(x), Value::Int(y)) => Value::Int(*x - *y),
        (Op::Mul, Value::Int(x), Value::Int(y)) => Value::Int(*x * *y),
        _ => Value::Null,
    }
}

fn node_value(leaf: &Value, texts: &str, node: &Node, done: &[NodeValue]) -> NodeValue
    requires text { IsTrue (text_fits texts.now node.now) }
    requires below { IsBelow 126 (evaluation.as_value (evaluation.node_value leaf.now texts.now node.now done.now)) }
    ensures { result ≡ evaluation.node_value leaf.now texts.now node.now done.now }
{
    match node {
        Node::Lit(literal) => NodeValue::Plain(literal_value(texts, literal)),
        Node::Col(_) | Node::Aggregate(_, _) => NodeValue::Plain(leaf.copy()),
        Node::Neg(a) => NodeValue::Plain(negative(&value_of(done, *a as usize))),
        Node::Arith(op, a, b) => {
            let left = value_of(done, *a as usize);
            let right = value_of(done, *b as usize);
            NodeValue::Plain(arithmetic(*op, &left, &right))
        }
        _ => NodeValue::Condition(condition(node, done)),
    }
}

fn condition(node: &Node, done: &[NodeValue]) -> Truth
    ensures { result ≡ evaluation.condition node.now done.now }
{
    match node {
        Node::Compare(cmp, a, b) => {
            let left = value_of(done, *a as usize);
            let right = value_of(done, *b as usize);
            compare(*cmp, &left, &right)
        }
        Node::Both(a, b) => both(truth_of(done, *a as usize), truth_of(done, *b as usize)),
        Node::Either(a, b) => either(truth_of(done, *a as usize), truth_of(done, *b as usize)),
        Node::Not(a) => opposite(truth_of(done, *a as usize)),
        Node::IsNull(a) => known(is_null(&value_of(done, *a as usize))),
        Node::NotNull(a) => known(!is_null(&value_of(done, *a as usize))),
        _ => Truth::Unknown,
    }
}

/// What each node stands for, where `leaves` has the value of each column and aggregate at its index.
pub fn values_of(
    alloc: Global,
    leaves: &[Value],
    texts: &str,
    nodes: &[Node],
) -> Result<Vec<NodeValue>, AllocError>
    requires text { IsTrue (list_all (text_fits texts.now) nodes.now) }
    requires below { AllBelow leaves.now texts.now nodes.now [] }
    ensures { IfOk result (λ v. v.items ≡ evaluation.values_of leaves.now texts.now nodes.now) }
{
    let mut done = Vec::new(alloc);
    for (k, node) in nodes.iter().enumerate() {
        let leaf = value_at(leaves, k);
        let value = node_value(&leaf, texts, node, &done);
        done.push(value)?;
    }
    Ok(done)
}

fn add_value(sum: Value, value: &Value) -> Value
    requires { IsBelow 126 (aggregates.add_value sum value.now) }
    ensures { result ≡ aggregates.add_value sum value.now }
{
    match (&sum, value) {
        (Value::Null, Value::Int(y)) => Value::Int(*y),
        (Value::Int(x), Value::Int(y)) => Value::Int(*x + *y),
        _ => sum,
    }
}

fn lesser(least: Value, value: &Value) -> Value
    ensures { result ≡ aggregates.lesser least value.now }
{
    if is_null(value) || (!is_null(&least) && !value_cmp(value, &least).is_lt()) {
        least
    } else {
        value.copy()
    }
}

fn greater(most: Value, value: &Value) -> Value
    ensures { result ≡ aggregates.greater most value.now }
{
    if is_null(value) || (!is_null(&most) && !value_cmp(&most, value).is_lt()) {
        most
    } else {
        value.copy()
    }
}

fn sum(values: &[Value]) -> Value
    requires { SumsBelow values.now Value.Null }
    ensures { result ≡ fold aggregates.add_value Value.Null values.now }
{
    let mut sum = Value::Null;
    for value in values {
        sum = add_value(sum, value);
    }
    sum
}

fn count(values: &[Value]) -> usize
    ensures value { result ≡ fold aggregates.count_value 0 values.now }
    ensures few { result ≤ length values.now }
{
    let mut n: usize = 0;
    for value in values {
        if !is_null(value) {
            n += 1;
        }
    }
    n
}

fn least(values: &[Value]) -> Value
    ensures { result ≡ fold aggregates.lesser Value.Null values.now }
{
    let mut least = Value::Null;
    for value in values {
        least = lesser(least, value);
    }
    least
}

fn greatest(values: &[Value]) -> Value
    ensures { result ≡ fold aggregates.greater Value.Null values.now }
{
    let mut most = Value::Null;
    for value in values {
        most = greater(most, value);
    }
    most
}

/// An aggregate over what its operand gives of each row.
pub fn aggregate(function: Fold, values: &[Value]) -> Value
    requires { FoldFits function values.now }
    ensures { result ≡ aggregates.aggregate function values.now }
{
    match function {
        Fold::CountRows => Value::Int(values.len() as i128),
        Fold::Count => Value::Int(count(values) as i128),
        Fold::Sum => sum(values),
        Fold::Min => least(values),
        Fold::Max => greatest(values),
    }
}

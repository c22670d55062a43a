//! The widths of numbers: how many bits a node's value may need.
ghost use Rattle.std.specs.Prelude.{◌≡◌, ◌≤◌, ◌<◌, ◌+◌, ◌^◌, length, nat_lt, IsTrue};
ghost use Rattle.std.specs.List.{list_all};
ghost use Rattle.hg_model.specs.Types as types;

use arrayvec::ArrayVec;
use hg_model::{Fold, Literal, Node, Op};

fn below_power(number: u128, place: u32) -> bool
    requires { place < 128 }
    ensures { result ≡ nat_lt number (2 ^ (place + 1)) }
{
    place == 127 || number < 1u128 << (place + 1)
}

#[tactic(auto, unfolding(hg_model::specs::Types::digits_within))]
fn digits_within(limit: u32, number: u128) -> usize
    requires { limit ≤ 128 }
    ensures value { result ≡ types.digits_within limit number }
    ensures small { result ≤ limit + 1 }
{
    for place in 0..limit {
        if below_power(number, place) {
            return place as usize + 1;
        }
    }
    limit as usize + 1
}

#[tactic(auto, unfolding(hg_model::specs::Types::binary_digits))]
fn binary_digits(number: u128) -> usize
    ensures value { result ≡ types.binary_digits number }
    ensures small { result ≤ 129 }
{
    digits_within(128, number)
}

fn literal_bound(literal: &Literal) -> usize
    ensures value { result ≡ types.literal_bound literal.now }
    ensures small { result ≤ 129 }
{
    match literal {
        Literal::Null | Literal::Text(_) => 1,
        Literal::Int(number) => binary_digits(number.unsigned_abs()),
    }
}

fn bound_at(done: &[usize], node: usize) -> usize
    requires { IsTrue (list_all types.is_narrow done.now) }
    ensures value { result ≡ types.bound_at done.now node }
    ensures small { result ≤ 126 }
{
    if node < done.len() { done[node] } else { 0 }
}

fn arithmetic_bound(op: Op, a: usize, b: usize) -> usize
    requires left { a ≤ 126 }
    requires right { b ≤ 126 }
    ensures { result ≡ types.arithmetic_bound op a b }
{
    match op {
        Op::Add | Op::Sub => a.max(b) + 1,
        Op::Mul => a + b,
    }
}

fn fold_bound(function: Fold, done: &[usize], operand: &Option<u8>) -> usize
    requires { IsTrue (list_all types.is_narrow done.now) }
    ensures { result ≡ types.fold_bound function done.now operand.now }
{
    match (function, operand) {
        (Fold::CountRows | Fold::Count, _) => 31,
        (Fold::Sum, None) => 30,
        (Fold::Sum, Some(a)) => 30 + bound_at(done, *a as usize),
        (Fold::Min | Fold::Max, None) => 1,
        (Fold::Min | Fold::Max, Some(a)) => bound_at(done, *a as usize),
    }
}

fn bound_of(node: &Node, done: &[usize]) -> usize
    requires { IsTrue (list_all types.is_narrow done.now) }
    ensures { result ≡ types.bound_of node.now done.now }
{
    match node {
        Node::Lit(literal) => literal_bound(literal),
        Node::Col(_) => 32,
        Node::Neg(a) => bound_at(done, *a as usize),
        Node::Arith(op, a, b) => {
            let left = bound_at(done, *a as usize);
            let right = bound_at(done, *b as usize);
            arithmetic_bound(*op, left, right)
        }
        Node::Aggregate(function, operand) => fold_bound(*function, done, operand),
        _ => 1,
    }
}

/// Whether no node passes 126 bits. Each bound is computed once, front to back.
pub fn all_narrow(nodes: &[Node]) -> bool
    requires { length nodes.now ≤ 112 }
    ensures { result ≡ types.all_narrow nodes.now }
{
    let mut done = ArrayVec::<usize, 112>::new();
    for node in nodes {
        let bound = bound_of(node, done.as_slice());
        if bound > 126 {
            return false;
        }
        done.push(bound);
    }
    true
}

//! What a node stands for over a row.
ghost use Rattle.std.specs.Prelude.{◌≡◌, ◌≤◌, ◌+◌, length, IsTrue};
ghost use Rattle.hg_model.specs.Evaluation.{literal_value, part_of};
ghost use Rattle.hg_model.specs.Width.{literal_fits};
ghost use Rattle.hg_model.specs.Value.{is_chars};
ghost use Rattle.hg_value.specs.Coding.{IsHeld};
ghost use Rattle.hg_value.specs.Looks.{value_of as seen};
ghost use Rattle.hg_model.specs.Evaluation.{value_at};

use crate::logic::{
    arithmetic, both, compare, either, is_null, is_true, known, negative, opposite,
};
use hg_model::{Literal, Node, Span, Truth};
use hg_value::{Look, Row};

/// The nodes of a statement over a row: the number of each node's value in the row is its slot, and text
/// literals name parts of the statement's texts.
#[derive(Clone, Copy)]
pub struct Evaluation<'a> {
    pub nodes: &'a [Node],
    pub slots: &'a [u8],
    pub texts: &'a str,
    pub row: &'a Row,
}

/// The bytes that a span names.
fn part_of<'a>(texts: &'a str, span: Span) -> &'a [u8]
    requires { span.at + span.len ≤ length texts.now }
    ensures { result.now ≡ part_of texts.now span }
{
    let behind = texts.as_bytes().split_at(span.at as usize).1;
    behind.split_at(span.len as usize).0
}

fn literal_value<'a>(texts: &'a str, literal: &Literal) -> Look<'a>
    requires { IsTrue (literal_fits texts.now literal.now) }
    ensures value { seen result ≡ literal_value texts.now literal.now }
    ensures held { IsHeld (seen result) }
{
    match literal {
        Literal::Null => Look::Null,
        Literal::Int(number) => Look::Int(*number),
        Literal::Text(span) => Look::Text(part_of(texts, *span)),
    }
}

/// The value of a row at a slot, NULL behind its end.
fn slot_value(row: &Row, slot: u8) -> Look<'_>
    ensures value { seen result ≡ value_at row.now slot }
    ensures held { IsHeld (seen result) }
{
    if slot < row.len() {
        row.look(slot)
    } else {
        Look::Null
    }
}

impl<'a> Evaluation<'a> {
    ghost use Rattle.std.specs.Prelude.{◌≡◌};
    ghost use Rattle.std.specs.List.{list_all};
    ghost use Rattle.hg_model.specs.Evaluation.{value_of, truth_of};
    ghost use Rattle.hg_model.specs.NullLogic.{is_true};
    ghost use Rattle.hg_model.specs.Types.{bound_at, bounds_of};
    ghost use Rattle.hg_model.specs.Width.{IsBelow, IsSound};
    ghost use Rattle.hg_value.specs.Coding.{IsHeld};
    ghost use Rattle.hg_value.specs.Looks.{value_of as seen};
    ghost use Rattle.hg_expr.specs.Over.{values_over, RowFits};

    /// The value of a node. NULL where the node is a condition, and where there is none.
    pub fn value(&self, n: u8) -> Look<'a>
        requires sound { IsSound self.now.texts.now self.now.nodes.now }
        requires fits { RowFits self.now.nodes.now self.now.slots.now self.now.row.now }
        ensures value { seen result ≡ value_of (values_over self.now.texts.now self.now.slots.now self.now.nodes.now self.now.row.now) n }
        ensures below { IsBelow (bound_at (bounds_of self.now.nodes.now) n) (seen result) }
        ensures held { IsHeld (seen result) }
    {
        let place = n as usize;
        if place >= self.nodes.len() {
            return Look::Null;
        }
        match &self.nodes[place] {
            Node::Lit(literal) => literal_value(self.texts, literal),
            Node::Col(_) => slot_value(self.row, self.slots[place]),
            Node::Aggregate(_, _) => slot_value(self.row, self.slots[place]),
            Node::Neg(a) => negative(&self.value(*a)),
            Node::Arith(op, a, b) => {
                let left = self.value(*a);
                let right = self.value(*b);
                arithmetic(*op, &left, &right)
            }
            _ => Look::Null,
        }
    }

    /// The truth of a node. AND and OR stop where the first condition settles them. Unknown where the node
    /// is a value, and where there is none.
    pub fn truth(&self, n: u8) -> Truth
        requires sound { IsSound self.now.texts.now self.now.nodes.now }
        requires fits { RowFits self.now.nodes.now self.now.slots.now self.now.row.now }
        ensures { result ≡ truth_of (values_over self.now.texts.now self.now.slots.now self.now.nodes.now self.now.row.now) n }
    {
        let place = n as usize;
        if place >= self.nodes.len() {
            return Truth::Unknown;
        }
        match &self.nodes[place] {
            Node::Compare(cmp, a, b) => {
                let left = self.value(*a);
                let right = self.value(*b);
                compare(*cmp, &left, &right)
            }
            Node::Both(a, b) => match self.truth(*a) {
                Truth::False => Truth::False,
                left => both(left, self.truth(*b)),
            },
            Node::Either(a, b) => match self.truth(*a) {
                Truth::True => Truth::True,
                left => either(left, self.truth(*b)),
            },
            Node::Not(a) => opposite(self.truth(*a)),
            Node::IsNull(a) => known(is_null(&self.value(*a))),
            Node::NotNull(a) => known(!is_null(&self.value(*a))),
            _ => Truth::Unknown,
        }
    }

    /// Whether all conditions are true. It stops at the first that is not.
    pub fn keeps(&self, conditions: &[u8]) -> bool
        requires sound { IsSound self.now.texts.now self.now.nodes.now }
        requires fits { RowFits self.now.nodes.now self.now.slots.now self.now.row.now }
        ensures { result ≡ list_all (λ n. is_true (truth_of (values_over self.now.texts.now self.now.slots.now self.now.nodes.now self.now.row.now) n)) conditions.now }
    {
        for condition in conditions {
            if !is_true(self.truth(*condition)) {
                return false;
            }
        }
        true
    }
}

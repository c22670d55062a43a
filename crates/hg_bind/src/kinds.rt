//! The kinds of values, and which of them may stand together.
ghost use Rattle.std.specs.Prelude.{◌≡◌, map};
ghost use Rattle.hg_model.specs.ChangeBinding.{filter_fits, kind_of_column};
ghost use Rattle.hg_model.specs.Types as model;
ghost use Rattle.hg_bind.specs.Kinds.{shown};

use hg_model::{Column, Fold, Literal, Node, SqlType};

/// What a node gives: a number, a text, NULL alone, or the truth of a condition.
#[derive(Clone, Copy, Default)]
pub enum Kind {
    Number,
    Letters,
    #[default]
    Nothing,
    Condition,
}

pub fn kind_of_type(ty: SqlType) -> Kind
    ensures { shown result ≡ model.kind_of_type ty }
{
    match ty {
        SqlType::Integer => Kind::Number,
        SqlType::Varchar(_) => Kind::Letters,
    }
}

pub fn kind_of_literal(literal: Literal) -> Kind
    ensures { shown result ≡ model.kind_of_literal literal }
{
    match literal {
        Literal::Null => Kind::Nothing,
        Literal::Int(_) => Kind::Number,
        Literal::Text(_) => Kind::Letters,
    }
}

/// The kind of a column by its number, and that of NULL where there is none.
pub fn kind_of_column(columns: &[Column], k: u8) -> Kind
    ensures { shown result ≡ kind_of_column columns.now k }
{
    match columns.get(k as usize) {
        Some(column) => kind_of_type(column.ty),
        None => Kind::Nothing,
    }
}

/// Whether two values may be compared, or assigned: no number with a text.
pub fn agree(a: Kind, b: Kind) -> bool
    ensures { result ≡ model.agree (shown a) (shown b) }
{
    match (a, b) {
        (Kind::Condition, _) => false,
        (_, Kind::Condition) => false,
        (Kind::Number, Kind::Letters) => false,
        (Kind::Letters, Kind::Number) => false,
        _ => true,
    }
}

/// The kind of a node by its place, and that of NULL where there is none.
pub fn kind_at(kinds: &[Kind], node: u8) -> Kind
    ensures { shown result ≡ model.kind_at (map shown kinds.now) node }
{
    match kinds.get(node as usize) {
        Some(kind) => *kind,
        None => Kind::Nothing,
    }
}

pub fn is_condition(kind: Kind) -> bool
    ensures { result ≡ model.is_condition (shown kind) }
{
    match kind {
        Kind::Condition => true,
        _ => false,
    }
}

pub fn is_value(kind: Kind) -> bool
    ensures { result ≡ model.is_value (shown kind) }
{
    !is_condition(kind)
}

/// A number, or NULL, which fits every type.
fn is_number(kind: Kind) -> bool
    ensures { result ≡ model.is_number (shown kind) }
{
    match kind {
        Kind::Number | Kind::Nothing => true,
        Kind::Letters | Kind::Condition => false,
    }
}

fn kind_of_fold(fold: Fold, operand: Kind) -> Kind
    ensures { shown result ≡ model.kind_of_fold fold (shown operand) }
{
    match fold {
        Fold::CountRows | Fold::Count | Fold::Sum => Kind::Number,
        Fold::Min | Fold::Max => operand,
    }
}

fn operand_kind(kinds: &[Kind], operand: &Option<u8>) -> Kind
    ensures { shown result ≡ model.operand_kind (map shown kinds.now) operand.now }
{
    match operand {
        Some(operand) => kind_at(kinds, *operand),
        None => Kind::Nothing,
    }
}

/// The kind of a node, where `leaf` is that of a column and `kinds` has those of the nodes before it.
pub fn kind_of(leaf: Kind, node: &Node, kinds: &[Kind]) -> Kind
    ensures { shown result ≡ model.kind_of (shown leaf) node.now (map shown kinds.now) }
{
    match node {
        Node::Lit(literal) => kind_of_literal(*literal),
        Node::Col(_) => leaf,
        Node::Neg(_) => Kind::Number,
        Node::Arith(_, _, _) => Kind::Number,
        Node::Aggregate(fold, operand) => kind_of_fold(*fold, operand_kind(kinds, operand)),
        Node::Compare(_, _, _) => Kind::Condition,
        Node::Both(_, _) => Kind::Condition,
        Node::Either(_, _) => Kind::Condition,
        Node::Not(_) => Kind::Condition,
        Node::IsNull(_) => Kind::Condition,
        Node::NotNull(_) => Kind::Condition,
    }
}

fn fold_fits(fold: Fold, operand: Kind) -> bool
    ensures { result ≡ model.fold_fits fold (shown operand) }
{
    match fold {
        Fold::CountRows => true,
        Fold::Sum => is_number(operand),
        Fold::Count | Fold::Min | Fold::Max => is_value(operand),
    }
}

fn operand_fits(fold: Fold, kinds: &[Kind], operand: &Option<u8>) -> bool
    ensures { result ≡ model.operand_fits fold (map shown kinds.now) operand.now }
{
    match operand {
        Some(operand) => fold_fits(fold, kind_at(kinds, *operand)),
        None => true,
    }
}

fn is_condition_at(kinds: &[Kind], node: u8) -> bool
    ensures { result ≡ model.is_condition (model.kind_at (map shown kinds.now) node) }
{
    is_condition(kind_at(kinds, node))
}

/// Whether a node's children are of the kinds that it takes.
fn is_well_typed(node: &Node, kinds: &[Kind]) -> bool
    ensures { result ≡ model.is_well_typed node.now (map shown kinds.now) }
{
    match node {
        Node::Lit(_) => true,
        Node::Col(_) => true,
        Node::Neg(a) => is_number(kind_at(kinds, *a)),
        Node::Arith(_, a, b) => is_number(kind_at(kinds, *a)) && is_number(kind_at(kinds, *b)),
        Node::Compare(_, a, b) => agree(kind_at(kinds, *a), kind_at(kinds, *b)),
        Node::Both(a, b) => is_condition_at(kinds, *a) && is_condition_at(kinds, *b),
        Node::Either(a, b) => is_condition_at(kinds, *a) && is_condition_at(kinds, *b),
        Node::Not(a) => is_condition_at(kinds, *a),
        Node::IsNull(a) => is_value(kind_at(kinds, *a)),
        Node::NotNull(a) => is_value(kind_at(kinds, *a)),
        Node::Aggregate(fold, operand) => operand_fits(*fold, kinds, operand),
    }
}

/// Whether each node's children are of the kinds that it takes.
pub fn all_well_typed(nodes: &[Node], kinds: &[Kind]) -> bool
    ensures { result ≡ model.all_well_typed nodes.now (map shown kinds.now) }
{
    for node in nodes {
        if !is_well_typed(node, kinds) {
            return false;
        }
    }
    true
}

/// Whether a filter, if there is one, is a condition.
pub fn filter_fits(kinds: &[Kind], filter: Option<u8>) -> bool
    ensures { result ≡ filter_fits (map shown kinds.now) filter }
{
    match filter {
        Some(node) => is_condition_at(kinds, node),
        None => true,
    }
}

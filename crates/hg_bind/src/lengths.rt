//! The sums of declared lengths of a SELECT: how long its rows may be while it is worked at.
ghost use Rattle.std.specs.Prelude.{◌≡◌, ◌≤◌, ◌<◌, ◌*◌, ◌+◌, ◌^◌, ◌∷◌, [], length, map, nat_le, slice_index, if◌then◌else◌};
ghost use Rattle.std.specs.List.{list_all, list_any, sum_by};
ghost use Rattle.hg_model.specs.SelectMeaning as meaning;
ghost use Rattle.hg_model.specs.Binding as binding;
ghost use Rattle.hg_model.specs.Query.{query_of};
ghost use Rattle.hg_model.specs.Types as types;
ghost use Rattle.hg_model.specs.declared.trees.Column.{Column as ColumnOf};
ghost use Rattle.hg_model.specs.declared.trees.OrderKey.{OrderKey as OrderKeyOf};
ghost use Rattle.hg_model.specs.declared.trees.Output.{Output as OutputOf};
ghost use Rattle.hg_bind.specs.BoundSelect.{bound_key};
ghost use Rattle.hg_bind.specs.Kinds.{shown};
ghost use Rattle.hg_bind.specs.Selecting as selecting;

use crate::create_index::type_length;
use crate::kinds::{Kind, kind_at};
use crate::scope::ScopeColumn;
use arrayvec::ArrayVec;
use hg_model::{Fold, Literal, Node, OrderBy, OrderKey, Output, Select};

/// The most that a row may have while a SELECT is worked at.
const MOST: usize = 3900;

fn length_of_literal(literal: Literal) -> u32
    ensures { result ≡ types.literal_length literal }
{
    match literal {
        Literal::Null => 1,
        Literal::Int(_) => 17,
        Literal::Text(span) => 2 + span.len as u32,
    }
}

/// The length of a node by its place, and 0 where there is none.
fn length_at(lengths: &[u32], node: u8) -> u32
    ensures { result ≡ slice_index lengths.now node }
{
    let node = node as usize;
    if node < lengths.len() {
        lengths[node]
    } else {
        0
    }
}

/// The length of a least or greatest value: that of its operand where that is no number.
fn extreme_length(kind: Kind, operand: u32) -> u32
    ensures { result ≡ types.extreme_length (shown kind) operand }
{
    match kind {
        Kind::Number | Kind::Condition => 17,
        Kind::Letters | Kind::Nothing => operand,
    }
}

fn fold_length(fold: Fold, kinds: &[Kind], done: &[u32], operand: &Option<u8>) -> u32
    ensures { result ≡ types.fold_length fold (map shown kinds.now) done.now operand.now }
{
    match (fold, operand) {
        (Fold::CountRows | Fold::Count | Fold::Sum, _) => 17,
        (Fold::Min | Fold::Max, None) => 17,
        (Fold::Min | Fold::Max, Some(a)) => extreme_length(kind_at(kinds, *a), length_at(done, *a)),
    }
}

/// The declared length of a node; `leaf` is that of a column.
fn length_of(kinds: &[Kind], leaf: u32, node: &Node, done: &[u32]) -> u32
    ensures { result ≡ types.length_of (map shown kinds.now) leaf node.now done.now }
{
    match node {
        Node::Lit(literal) => length_of_literal(*literal),
        Node::Col(_) => leaf,
        Node::Neg(_) => 17,
        Node::Arith(_, _, _) => 17,
        Node::Aggregate(fold, operand) => fold_length(*fold, kinds, done, operand),
        Node::Compare(_, _, _) => 0,
        Node::Both(_, _) => 0,
        Node::Either(_, _) => 0,
        Node::Not(_) => 0,
        Node::IsNull(_) => 0,
        Node::NotNull(_) => 0,
    }
}

/// The declared length of a column of FROM, and 0 where there is none.
fn length_of_place(scope: &[ScopeColumn], place: u8) -> u32
    ensures { result ≡ binding.type_at (λ (c : ColumnOf). types.type_length c.ty) 0 scope.now place }
{
    match scope.get(place as usize) {
        Some(column) => type_length(column.column.ty) as u32,
        None => 0,
    }
}

/// Puts the declared length of each node into a list, front to back.
fn list_lengths(
    scope: &[ScopeColumn],
    positions: &[u8],
    kinds: &[Kind],
    nodes: &[Node],
    lengths: &mut ArrayVec<u32, 112>,
)
    requires few { length nodes.now ≤ 112 }
    requires each { length positions.now ≡ length nodes.now }
    requires empty { lengths.old.items ≡ [] }
    ensures count { length lengths.new.items ≡ length nodes.now }
    ensures value { lengths.new.items ≡ types.lengths_from (map shown kinds.now) (map (binding.type_at (λ (c : ColumnOf). types.type_length c.ty) 0 scope.now) positions.now) nodes.now [] }
{
    for place in 0..nodes.len() {
        let leaf = length_of_place(scope, positions[place]);
        let here = length_of(kinds, leaf, &nodes[place], lengths.as_slice());
        lengths.push(here);
    }
}

/// Marks each of so many columns, or none.
fn mark_all(star: bool, count: usize, marks: &mut ArrayVec<bool, 64>)
    requires few { count ≤ 64 }
    requires empty { marks.old.items ≡ [] }
    ensures { selecting.AreMarks star [] count marks.new.items }
{
    for _column in 0..count {
        marks.push(star);
    }
}

/// Marks the column of a place, where there is one.
fn mark(place: Option<u8>, marks: &mut ArrayVec<bool, 64>)
    ensures { selecting.MarksOne place marks.old.items marks.new.items }
{
    if let Some(place) = place {
        let place = place as usize;
        if place < marks.len() {
            marks[place] = true;
        }
    }
}

/// Marks the columns of FROM that are named; a star names all. Each node is looked at once.
fn list_marks(star: bool, named: &[Option<u8>], count: usize, marks: &mut ArrayVec<bool, 64>)
    requires few { count ≤ 64 }
    requires empty { marks.old.items ≡ [] }
    ensures { selecting.AreMarks star named.now count marks.new.items }
{
    mark_all(star, count, marks);
    for place in 0..named.len() {
        mark(named[place], marks);
    }
}

fn length_if(is_named: bool, column: &ScopeColumn) -> usize
    ensures value { result ≡ (if is_named then types.type_length column.now.column.ty else 0) }
    ensures small { result ≤ 257 }
{
    if is_named {
        type_length(column.column.ty)
    } else {
        0
    }
}

/// The lengths of the columns of FROM that the statement names, each once; a star names all.
fn named_length(scope: &[ScopeColumn], named: &[Option<u8>], star: bool) -> usize
    requires { length scope.now ≤ 64 }
    ensures { result ≡ selecting.named_sum star named.now 0 scope.now }
{
    let mut marks = ArrayVec::new();
    list_marks(star, named, scope.len(), &mut marks);
    let marks = marks.as_slice();
    let mut sum = 0;
    for place in 0..scope.len() {
        sum += length_if(marks[place], &scope[place]);
    }
    sum
}

fn group_length(lengths: &[u32], group: &[u8]) -> usize
    requires { length group.now ≤ 16 }
    ensures value { result ≡ sum_by (slice_index lengths.now) group.now }
    ensures small { result ≤ 16 * 2 ^ 32 }
{
    let mut sum = 0;
    for node in group {
        sum += length_at(lengths, *node) as usize;
    }
    sum
}

fn own_length(node: &Node, length: u32) -> u32
    ensures { result ≡ (if meaning.is_aggregate node.now then length else 0) }
{
    match node {
        Node::Aggregate(_, _) => length,
        _ => 0,
    }
}

fn aggregate_lengths(nodes: &[Node], lengths: &[u32]) -> usize
    requires few { length nodes.now ≤ 112 }
    requires each { length lengths.now ≡ length nodes.now }
    ensures value { result ≡ binding.aggregate_lengths nodes.now lengths.now }
    ensures small { result ≤ 112 * 2 ^ 32 }
{
    let mut sum = 0;
    for place in 0..nodes.len() {
        sum += own_length(&nodes[place], lengths[place]) as usize;
    }
    sum
}

fn column_lengths(scope: &[ScopeColumn]) -> usize
    requires { length scope.now ≤ 64 }
    ensures value { result ≡ binding.column_lengths scope.now }
    ensures small { result ≤ 64 * 257 }
{
    let mut sum = 0;
    for column in scope {
        sum += type_length(column.column.ty);
    }
    sum
}

fn output_lengths(lengths: &[u32], outputs: &[Output]) -> usize
    requires { length outputs.now ≤ 16 }
    ensures value { result ≡ sum_by (λ (o : OutputOf). slice_index lengths.now o.node) outputs.now }
    ensures small { result ≤ 16 * 2 ^ 32 }
{
    let mut sum = 0;
    for output in outputs {
        sum += length_at(lengths, output.node) as usize;
    }
    sum
}

/// The length of a key of ORDER BY that is no output.
fn own_key_length(lengths: &[u32], by: OrderBy) -> u32
    ensures { result ≡ selecting.own_key_length lengths.now by }
{
    match by {
        OrderBy::Position(_) => 0,
        OrderBy::Column(node) => length_at(lengths, node),
    }
}

fn key_lengths(lengths: &[u32], keys: &[OrderKey]) -> usize
    requires { length keys.now ≤ 8 }
    ensures value { result ≡ sum_by (λ (k : OrderKeyOf). selecting.own_key_length lengths.now k.by) keys.now }
    ensures small { result ≤ 8 * 2 ^ 32 }
{
    let mut sum = 0;
    for key in keys {
        sum += own_key_length(lengths, key.by) as usize;
    }
    sum
}

fn outputs_length(select: &Select, scope: &[ScopeColumn], lengths: &[u32]) -> usize
    requires { length scope.now ≤ 64 }
    ensures value { result ≡ (if select.now.star then binding.column_lengths scope.now else sum_by (λ (o : OutputOf). slice_index lengths.now o.node) select.now.outputs.items) }
    ensures small { result ≤ 16 * 2 ^ 32 }
{
    if select.star {
        column_lengths(scope)
    } else {
        output_lengths(lengths, select.outputs.as_slice())
    }
}

/// Whether none of the three sums passes 3,900.
fn all_fit(named: usize, grouped: usize, given: usize) -> bool
    ensures { result ≡ list_all (λ n. nat_le n 3900) (named ∷ grouped ∷ given ∷ []) }
{
    named <= MOST && grouped <= MOST && given <= MOST
}

/// Whether the three sums of declared lengths are at most 3,900: the columns of FROM that the statement
/// names, each once; the grouping columns and the aggregates; the outputs and the order keys that are no
/// outputs.
pub fn lengths_fit(
    select: &Select,
    scope: &[ScopeColumn],
    positions: &[u8],
    kinds: &[Kind],
    named: &[Option<u8>],
    keys: &[OrderKey],
) -> bool
    requires few { length scope.now ≤ 64 }
    requires each { length positions.now ≡ length select.now.nodes.items }
    requires few_keys { length keys.now ≤ 8 }
    requires kinds { map shown kinds.now ≡ binding.select_kinds scope.now positions.now (query_of select.now) }
    requires named { named.now ≡ selecting.named_from scope.now positions.now (query_of select.now) 0 select.now.nodes.items }
    requires keys { keys.now ≡ map (bound_key scope.now positions.now (query_of select.now)) select.now.order.items }
    ensures { result ≡ binding.lengths_fit scope.now positions.now (query_of select.now) }
{
    let nodes = select.nodes.as_slice();
    let mut lengths = ArrayVec::new();
    list_lengths(scope, positions, kinds, nodes, &mut lengths);
    let lengths = lengths.as_slice();
    let grouped = group_length(lengths, select.group.as_slice())
        + aggregate_lengths(nodes, lengths);
    let given = outputs_length(select, scope, lengths) + key_lengths(lengths, keys);
    all_fit(named_length(scope, named, select.star), grouped, given)
}

//! Grouping: where aggregates may stand, and that only grouping columns stand outside them.
ghost use Rattle.std.specs.Prelude.{◌≡◌, ◌≤◌, [], length, map, nat_eq, slice_index};
ghost use Rattle.std.specs.Option.{option_to_list};
ghost use Rattle.std.specs.List.{list_all, list_any, range_with_len};
ghost use Rattle.hg_model.specs.Binding as binding;
ghost use Rattle.hg_model.specs.Query.{query_of};
ghost use Rattle.hg_model.specs.SelectMeaning as meaning;
ghost use Rattle.hg_model.specs.declared.trees.Output.{Output as OutputOf};
ghost use Rattle.hg_bind.specs.Selecting as selecting;

use crate::names::is_grouped;
use crate::scope::{ScopeColumn, position_at};
use arrayvec::ArrayVec;
use hg_model::{FromTable, Node, Output, Select};

/// For each node a yes or no.
type Marks = ArrayVec<bool, 112>;

fn has_at(done: &[bool], node: u8) -> bool
    ensures { result ≡ binding.has_at done.now node }
{
    match done.get(node as usize) {
        Some(has) => *has,
        None => false,
    }
}

fn below_operand(done: &[bool], operand: &Option<u8>) -> bool
    ensures { result ≡ binding.below_operand done.now operand.now }
{
    match operand {
        None => false,
        Some(operand) => has_at(done, *operand),
    }
}

/// Whether an aggregate stands at a node or below it.
fn has_aggregate(node: &Node, done: &[bool]) -> bool
    ensures { result ≡ binding.has_aggregate node.now done.now }
{
    match node {
        Node::Lit(_) => false,
        Node::Col(_) => false,
        Node::Neg(a) => has_at(done, *a),
        Node::Arith(_, a, b) => has_at(done, *a) || has_at(done, *b),
        Node::Compare(_, a, b) => has_at(done, *a) || has_at(done, *b),
        Node::Both(a, b) => has_at(done, *a) || has_at(done, *b),
        Node::Either(a, b) => has_at(done, *a) || has_at(done, *b),
        Node::Not(a) => has_at(done, *a),
        Node::IsNull(a) => has_at(done, *a),
        Node::NotNull(a) => has_at(done, *a),
        Node::Aggregate(_, _) => true,
    }
}

/// Puts for each node whether an aggregate stands at it or below it into a list, front to back.
fn list_aggregates(nodes: &[Node], has: &mut Marks)
    requires few { length nodes.now ≤ 112 }
    requires empty { has.old.items ≡ [] }
    ensures { has.new.items ≡ binding.aggregates_from nodes.now [] }
{
    for node in nodes {
        let here = has_aggregate(node, has.as_slice());
        has.push(here);
    }
}

fn nests_aggregate(has: &[bool], node: &Node) -> bool
    ensures { result ≡ binding.nests_aggregate has.now node.now }
{
    match node {
        Node::Aggregate(_, operand) => below_operand(has, operand),
        _ => false,
    }
}

/// Whether an aggregate stands in another.
fn some_nest(has: &[bool], nodes: &[Node]) -> bool
    ensures { result ≡ list_any (binding.nests_aggregate has.now) nodes.now }
{
    for node in nodes {
        if nests_aggregate(has, node) {
            return true;
        }
    }
    false
}

fn has_at_root(has: &[bool], root: &Option<u8>) -> bool
    ensures { result ≡ binding.below_operand has.now root.now }
{
    below_operand(has, root)
}

/// Whether an aggregate stands in a condition of ON.
fn some_joins_on(has: &[bool], froms: &[FromTable]) -> bool
    ensures { result ≡ list_any (binding.has_at has.now) (meaning.on_conditions froms.now) }
{
    for from in froms {
        if has_at_root(has, &from.on) {
            return true;
        }
    }
    false
}

/// Whether an aggregate stands in ON or WHERE.
fn some_filters(has: &[bool], select: &Select) -> bool
    ensures { result ≡ list_any (binding.has_at has.now) (meaning.conditions (query_of select.now)) }
{
    some_joins_on(has, select.tables.as_slice()) || has_at_root(has, &select.filter)
}

/// Whether no aggregate stands in ON, WHERE or another aggregate.
fn aggregates_stand_well(select: &Select) -> bool
    ensures { result ≡ binding.aggregates_stand_well (query_of select.now) }
{
    let nodes = select.nodes.as_slice();
    let mut has = ArrayVec::new();
    list_aggregates(nodes, &mut has);
    !some_filters(has.as_slice(), select) && !some_nest(has.as_slice(), nodes)
}

/// Whether a place is that of a grouping column.
fn is_group_place(group: &[u8], positions: &[u8], place: u8) -> bool
    ensures { result ≡ list_any (nat_eq place) (map (slice_index positions.now) group.now) }
{
    for node in group {
        if place == position_at(positions, *node) {
            return true;
        }
    }
    false
}

fn covered_at(done: &[bool], node: u8) -> bool
    ensures { result ≡ selecting.covered_at done.now node }
{
    match done.get(node as usize) {
        Some(covered) => *covered,
        None => true,
    }
}

/// Whether the columns at a node and below it, outside aggregates, are grouping columns; `leaf` says it of
/// the node where it is a column.
fn is_covered(leaf: bool, node: &Node, done: &[bool]) -> bool
    ensures { result ≡ selecting.is_covered leaf node.now done.now }
{
    match node {
        Node::Lit(_) => true,
        Node::Col(_) => leaf,
        Node::Neg(a) => covered_at(done, *a),
        Node::Arith(_, a, b) => covered_at(done, *a) && covered_at(done, *b),
        Node::Compare(_, a, b) => covered_at(done, *a) && covered_at(done, *b),
        Node::Both(a, b) => covered_at(done, *a) && covered_at(done, *b),
        Node::Either(a, b) => covered_at(done, *a) && covered_at(done, *b),
        Node::Not(a) => covered_at(done, *a),
        Node::IsNull(a) => covered_at(done, *a),
        Node::NotNull(a) => covered_at(done, *a),
        Node::Aggregate(_, _) => true,
    }
}

/// Puts for each node whether its columns are grouping columns into a list, front to back.
fn list_covered(nodes: &[Node], positions: &[u8], group: &[u8], covered: &mut Marks)
    requires few { length nodes.now ≤ 112 }
    requires empty { covered.old.items ≡ [] }
    ensures { covered.new.items ≡ selecting.covered_from (map (slice_index positions.now) group.now) positions.now nodes.now [] }
{
    for place in 0..nodes.len() {
        let leaf = is_group_place(group, positions, position_at(positions, place as u8));
        let here = is_covered(leaf, &nodes[place], covered.as_slice());
        covered.push(here);
    }
}

/// Whether each column of FROM is a grouping column.
fn all_grouped(scope: &[ScopeColumn], positions: &[u8], group: &[u8]) -> bool
    requires { length scope.now ≤ 64 }
    ensures { result ≡ list_all (λ p. list_any (nat_eq p) (map (slice_index positions.now) group.now)) (range_with_len 0 (length scope.now)) }
{
    for place in 0..scope.len() {
        if !is_group_place(group, positions, place as u8) {
            return false;
        }
    }
    true
}

fn outputs_covered(covered: &[bool], outputs: &[Output]) -> bool
    ensures { result ≡ list_all (λ (o : OutputOf). selecting.covered_at covered.now o.node) outputs.now }
{
    for output in outputs {
        if !covered_at(covered, output.node) {
            return false;
        }
    }
    true
}

fn having_covered(covered: &[bool], having: &Option<u8>) -> bool
    ensures { result ≡ list_all (selecting.covered_at covered.now) (option_to_list having.now) }
{
    match having {
        None => true,
        Some(node) => covered_at(covered, *node),
    }
}

/// Whether the outputs name, outside aggregates, only grouping columns.
fn outputs_grouped(
    scope: &[ScopeColumn],
    positions: &[u8],
    select: &Select,
    covered: &[bool],
) -> bool
    requires few { length scope.now ≤ 64 }
    requires covered { covered.now ≡ selecting.covered_from (binding.group_places positions.now (query_of select.now)) positions.now select.now.nodes.items [] }
    ensures { result ≡ list_all (binding.all_among (binding.group_places positions.now (query_of select.now)))
        (binding.output_places (query_of select.now) scope.now (binding.free_from positions.now select.now.nodes.items [])) }
{
    if select.star {
        all_grouped(scope, positions, select.group.as_slice())
    } else {
        outputs_covered(covered, select.outputs.as_slice())
    }
}

/// Whether the outputs and HAVING name, outside aggregates, only grouping columns.
fn is_all_grouped(scope: &[ScopeColumn], positions: &[u8], select: &Select) -> bool
    requires few { length scope.now ≤ 64 }
    ensures { result ≡ binding.is_all_grouped scope.now positions.now (query_of select.now) }
{
    let nodes = select.nodes.as_slice();
    let mut covered = ArrayVec::new();
    list_covered(nodes, positions, select.group.as_slice(), &mut covered);
    let covered = covered.as_slice();
    outputs_grouped(scope, positions, select, covered) && having_covered(covered, &select.having)
}

/// Whether aggregates and grouping columns stand as they may.
pub fn grouping_fits(scope: &[ScopeColumn], positions: &[u8], select: &Select) -> bool
    requires few { length scope.now ≤ 64 }
    ensures { result ≡ binding.grouping_fits scope.now positions.now (query_of select.now) }
{
    aggregates_stand_well(select)
        && (!is_grouped(select) || is_all_grouped(scope, positions, select))
}

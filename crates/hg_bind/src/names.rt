//! The names of a SELECT: what each stands for, and the first that stands for nothing or for several.
ghost use Rattle.std.specs.Prelude.{◌≡◌, ◌≤◌, ◌<◌, ◌+◌, ℕ, false, [], None, Some, length, map, option_map, slice_get};
ghost use Rattle.std.specs.List.{list_any};
ghost use Rattle.hg_model.specs.Binding as binding;
ghost use Rattle.hg_model.specs.Query.{query_of};
ghost use Rattle.hg_model.specs.Refusal.{first_cause};
ghost use Rattle.hg_model.specs.Scope as scopes;
ghost use Rattle.hg_model.specs.SelectMeaning.{is_grouped, is_aggregate};
ghost use Rattle.hg_model.specs.declared.trees.OrderKey.{OrderKey as OrderKeyOf};
ghost use Rattle.hg_bind.specs.Bound.{error_of};
ghost use Rattle.hg_bind.specs.BoundSelect.{by_target, bound_key};
ghost use Rattle.hg_bind.specs.Selecting as selecting;
ghost use Rattle.hg_bind.specs.declared.names.Found.TheVariants as found;

use crate::errors::{BindError, ambiguous_reference, unknown_reference};
use crate::from::tables_seen;
use crate::nodes::has_aggregate;
use crate::scope::{ScopeColumn, count_meant, count_named, is_named, position_at, star_output};
use arrayvec::ArrayVec;
use hg_model::{ColRef, Name, Node, OrderBy, OrderKey, Output, Select};

/// The outputs that a name in ORDER BY finds: none, one (with the place of its column, where it is a column
/// alone, and others may be the same column), or several.
#[derive(Clone, Copy)]
pub enum Found {
    Nothing,
    One(Option<u8>),
    Several,
}

fn cause_of_count(count: usize, column: &ColRef) -> Option<BindError>
    ensures { result ≡ option_map error_of (binding.cause_of_count count column.now) }
{
    match count {
        0 => Some(unknown_reference(column)),
        1 => None,
        _ => Some(ambiguous_reference(column)),
    }
}

fn column_cause(scope: &[ScopeColumn], seen: u8, column: &ColRef) -> Option<BindError>
    requires { length scope.now ≤ 64 }
    ensures { result ≡ option_map error_of (binding.column_cause scope.now seen column.now) }
{
    cause_of_count(count_meant(scope, seen, column), column)
}

fn is_output_name(column: &ColRef, output: &Option<Name>) -> bool
    ensures { result ≡ scopes.is_output_name column.now output.now }
{
    match output {
        None => false,
        Some(name) => column.table.is_none() && column.name == *name,
    }
}

/// The place of a node's column, where it is a column alone.
fn column_place(positions: &[u8], nodes: &[Node], node: u8) -> Option<u8>
    ensures { result ≡ scopes.column_place positions.now nodes.now node }
{
    match nodes.get(node as usize) {
        Some(Node::Col(_)) => Some(position_at(positions, node)),
        _ => None,
    }
}

fn is_column_named(scope: &[ScopeColumn], column: &ColRef, place: Option<u8>) -> bool
    ensures { result ≡ scopes.is_column_named scope.now column.now place }
{
    match place {
        None => false,
        Some(place) => match scope.get(place as usize) {
            None => false,
            Some(other) => is_named(column, other),
        },
    }
}

fn finds_output(
    scope: &[ScopeColumn],
    positions: &[u8],
    nodes: &[Node],
    column: &ColRef,
    output: &Output,
) -> bool
    ensures { result ≡ scopes.finds_output scope.now positions.now nodes.now column.now output.now }
{
    is_output_name(column, &output.name)
        || is_column_named(scope, column, column_place(positions, nodes, output.node))
}

fn is_same_column(first: Option<u8>, place: Option<u8>) -> bool
    ensures { result ≡ selecting.is_same_column first place }
{
    match (first, place) {
        (Some(first), Some(place)) => first == place,
        _ => false,
    }
}

fn with_output(found: Found, place: Option<u8>) -> Found
    ensures { result ≡ selecting.with_output found place }
{
    match found {
        Found::Nothing => Found::One(place),
        Found::One(first) => {
            if is_same_column(first, place) {
                Found::One(first)
            } else {
                Found::Several
            }
        }
        Found::Several => Found::Several,
    }
}

/// The outputs that a name in ORDER BY finds.
fn outputs_found(scope: &[ScopeColumn], positions: &[u8], select: &Select, column: &ColRef) -> Found
    ensures { result ≡ selecting.found_in found.Nothing (binding.outputs_found scope.now positions.now (query_of select.now) column.now) }
{
    let nodes = select.nodes.as_slice();
    let outputs = select.outputs.as_slice();
    let mut found = Found::Nothing;
    for output in outputs {
        if finds_output(scope, positions, nodes, column, output) {
            found = with_output(found, column_place(positions, nodes, output.node));
        }
    }
    found
}

/// A statement is grouped where it has GROUP BY, HAVING or an aggregate.
pub fn is_grouped(select: &Select) -> bool
    ensures { result ≡ is_grouped (query_of select.now) }
{
    !select.group.is_empty() || select.having.is_some() || has_aggregate(select.nodes.as_slice())
}

fn may_name_columns(select: &Select) -> bool
    ensures { result ≡ binding.may_name_columns (query_of select.now) }
{
    !(is_grouped(select) || select.distinct)
}

/// A name in ORDER BY of a statement with outputs: one of these, and else a column of FROM where it may be.
fn written_key_cause(
    scope: &[ScopeColumn],
    positions: &[u8],
    select: &Select,
    column: &ColRef,
) -> Option<BindError>
    requires few { length scope.now ≤ 64 }
    requires written { (query_of select.now).star ≡ false }
    ensures { result ≡ option_map error_of (binding.key_cause scope.now positions.now (query_of select.now) column.now) }
{
    match outputs_found(scope, positions, select, column) {
        Found::One(_) => None,
        Found::Several => Some(ambiguous_reference(column)),
        Found::Nothing => {
            if may_name_columns(select) {
                column_cause(scope, select.tables.len() as u8, column)
            } else {
                Some(unknown_reference(column))
            }
        }
    }
}

fn key_cause(
    scope: &[ScopeColumn],
    positions: &[u8],
    select: &Select,
    column: &ColRef,
) -> Option<BindError>
    requires few { length scope.now ≤ 64 }
    ensures { result ≡ option_map error_of (binding.key_cause scope.now positions.now (query_of select.now) column.now) }
{
    if select.star {
        cause_of_count(count_named(scope, column), column)
    } else {
        written_key_cause(scope, positions, select, column)
    }
}

fn is_key_of(node: u8, by: OrderBy) -> bool
    ensures { result ≡ binding.is_key_of node by }
{
    match by {
        OrderBy::Position(_) => false,
        OrderBy::Column(key) => node == key,
    }
}

fn is_order_key(select: &Select, node: u8) -> bool
    ensures { result ≡ binding.is_order_key (query_of select.now) node }
{
    let order = select.order.as_slice();
    for key in order {
        if is_key_of(node, key.by) {
            return true;
        }
    }
    false
}

fn name_cause(
    scope: &[ScopeColumn],
    positions: &[u8],
    select: &Select,
    place: u8,
    node: &Node,
) -> Option<BindError>
    requires few { length scope.now ≤ 64 }
    ensures { result ≡ option_map error_of (binding.name_cause scope.now positions.now (query_of select.now) place node.now) }
{
    match node {
        Node::Col(column) => {
            if is_order_key(select, place) {
                key_cause(scope, positions, select, column)
            } else {
                column_cause(scope, tables_seen(select, place), column)
            }
        }
        _ => None,
    }
}

/// The first name, in order of text, that stands for nothing or for several.
pub fn names_cause(scope: &[ScopeColumn], positions: &[u8], select: &Select) -> Option<BindError>
    requires few { length scope.now ≤ 64 }
    ensures { result ≡ option_map error_of (first_cause (binding.names_from scope.now positions.now (query_of select.now) 0 select.now.nodes.items)) }
{
    let nodes = select.nodes.as_slice();
    for place in 0..nodes.len() {
        if let Some(error) = name_cause(scope, positions, select, place as u8, &nodes[place]) {
            return Some(error);
        }
    }
    None
}

fn written_output(scope: &[ScopeColumn], positions: &[u8], select: &Select, column: &ColRef) -> u8
    ensures { result ≡ scopes.written_output scope.now positions.now (query_of select.now) column.now }
{
    let nodes = select.nodes.as_slice();
    let outputs = select.outputs.as_slice();
    for place in 0..outputs.len() {
        if finds_output(scope, positions, nodes, column, &outputs[place]) {
            return place as u8;
        }
    }
    outputs.len() as u8
}

fn output_found(scope: &[ScopeColumn], positions: &[u8], select: &Select, column: &ColRef) -> u8
    requires few { length scope.now ≤ 64 }
    ensures { result ≡ scopes.output_found scope.now positions.now (query_of select.now) column.now }
{
    if select.star {
        star_output(scope, column)
    } else {
        written_output(scope, positions, select, column)
    }
}

/// How many outputs there are, those of a star written out.
pub fn output_count(scope: &[ScopeColumn], select: &Select) -> usize
    ensures { result ≡ scopes.output_count scope.now (query_of select.now) }
{
    if select.star {
        scope.len()
    } else {
        select.outputs.len()
    }
}

/// What a name in ORDER BY orders by: an output by its position from 1 on, or its own node.
fn key_of_name(scope: &[ScopeColumn], positions: &[u8], select: &Select, node: u8) -> OrderBy
    requires few { length scope.now ≤ 64 }
    ensures { result ≡ by_target (scopes.name_target scope.now positions.now (query_of select.now) node (slice_get select.now.nodes.items node)) }
{
    let nodes = select.nodes.as_slice();
    match nodes.get(node as usize) {
        Some(Node::Col(column)) => {
            let place = output_found(scope, positions, select, column);
            if (place as usize) < output_count(scope, select) {
                OrderBy::Position(place as u32 + 1)
            } else {
                OrderBy::Column(node)
            }
        }
        _ => OrderBy::Column(node),
    }
}

/// What a key of ORDER BY orders by.
fn bound_by(scope: &[ScopeColumn], positions: &[u8], select: &Select, by: OrderBy) -> OrderBy
    requires few { length scope.now ≤ 64 }
    ensures { result ≡ by_target (scopes.target_of scope.now positions.now (query_of select.now) by) }
{
    match by {
        OrderBy::Position(0) => OrderBy::Position(1),
        OrderBy::Position(place) => OrderBy::Position(place),
        OrderBy::Column(node) => key_of_name(scope, positions, select, node),
    }
}

/// Puts the keys of ORDER BY into a list, each that is an output by its position.
pub fn list_keys(
    scope: &[ScopeColumn],
    positions: &[u8],
    select: &Select,
    keys: &mut ArrayVec<OrderKey, 8>,
)
    requires few { length scope.now ≤ 64 }
    requires empty { keys.old.items ≡ [] }
    ensures { keys.new.items ≡ map (bound_key scope.now positions.now (query_of select.now)) select.now.order.items }
{
    let order = select.order.as_slice();
    for key in order {
        keys.push(OrderKey {
            by: bound_by(scope, positions, select, key.by),
            descending: key.descending,
        });
    }
}

/// Whether a name in ORDER BY is an output.
fn is_output_key(scope: &[ScopeColumn], positions: &[u8], select: &Select, node: u8) -> bool
    requires few { length scope.now ≤ 64 }
    ensures { result ≡ binding.is_output_target (scopes.name_target scope.now positions.now (query_of select.now) node (slice_get select.now.nodes.items node)) }
{
    match key_of_name(scope, positions, select, node) {
        OrderBy::Position(_) => true,
        OrderBy::Column(_) => false,
    }
}

fn named_place(
    scope: &[ScopeColumn],
    positions: &[u8],
    select: &Select,
    place: u8,
    node: &Node,
) -> Option<u8>
    requires few { length scope.now ≤ 64 }
    ensures { result ≡ selecting.named_place scope.now positions.now (query_of select.now) place node.now }
{
    match node {
        Node::Col(_) => {
            if is_order_key(select, place) && is_output_key(scope, positions, select, place) {
                None
            } else {
                Some(position_at(positions, place))
            }
        }
        _ => None,
    }
}

/// Puts for each node the place of the column of FROM that it names into a list. A name in ORDER BY that
/// is an output names none.
pub fn list_named(
    scope: &[ScopeColumn],
    positions: &[u8],
    select: &Select,
    named: &mut ArrayVec<Option<u8>, 112>,
)
    requires few { length scope.now ≤ 64 }
    requires empty { named.old.items ≡ [] }
    ensures { named.new.items ≡ selecting.named_from scope.now positions.now (query_of select.now) 0 select.now.nodes.items }
{
    let nodes = select.nodes.as_slice();
    for place in 0..nodes.len() {
        named.push(named_place(scope, positions, select, place as u8, &nodes[place]));
    }
}

fn is_outside(outputs: usize, by: OrderBy) -> bool
    ensures { result ≡ binding.is_outside outputs by }
{
    match by {
        OrderBy::Position(place) => place == 0 || outputs < place as usize,
        OrderBy::Column(_) => false,
    }
}

/// Whether a position in ORDER BY is none of an output.
pub fn has_outside(scope: &[ScopeColumn], select: &Select) -> bool
    ensures { result ≡ list_any (λ (k : OrderKeyOf). binding.is_outside (scopes.output_count scope.now (query_of select.now)) k.by) select.now.order.items }
{
    let outputs = output_count(scope, select);
    let order = select.order.as_slice();
    for key in order {
        if is_outside(outputs, key.by) {
            return true;
        }
    }
    false
}

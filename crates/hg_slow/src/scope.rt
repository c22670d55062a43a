//! What the names in a SELECT stand for, over plain tables.
ghost use Rattle.std.specs.Prelude.{◌≡◌, ◌++◌, ◌<◌, ℕ, length, ◌^◌, slice_get, slice_index, IfOk, OnOk};
ghost use Rattle.std.specs.Option.{option_map};
ghost use Rattle.hg_model.specs.Query.{query_of};
ghost use Rattle.hg_model.specs.Tables.{table_named, same_name};
ghost use Rattle.hg_slow.specs.SlowTables.{table_of, tables_of};
ghost use Rattle.hg_model.specs.Scope as scopes;
ghost use Rattle.hg_model.specs.SelectMeaning as meaning;

use crate::tables::SlowTable;
use hg_model::{
    ColRef, Column, FromColumn, FromTable, Name, Node, OrderBy, Output, Select, Target,
};
use std::alloc::{AllocError, Global};

fn same_name(a: &Name, b: &Name) -> bool
    ensures { result ≡ same_name a.now b.now }
{
    a == b
}

pub fn find_table<'a>(tables: &'a Vec<SlowTable>, name: &Name) -> Option<&'a SlowTable>
    ensures { option_map (λ t. table_of t.now) result ≡ table_named (tables_of tables.now.items) name.now }
{
    for table in tables {
        if same_name(&table.name, name) {
            return Some(table);
        }
    }
    None
}

fn push_columns(
    scope: &mut Vec<FromColumn>,
    table: usize,
    alias: &Name,
    columns: &Vec<Column>,
) -> Result<(), AllocError>
    ensures { OnOk result (scope.new.items ≡ scope.old.items ++ scopes.columns_from table alias.now 0 columns.now.items) }
{
    for (place, column) in columns.iter().enumerate() {
        scope.push(FromColumn {
            table,
            alias: alias.copy(),
            place,
            column: column.copy(),
        })?;
    }
    Ok(())
}

/// The columns of FROM.
pub fn scope_of(
    alloc: Global,
    select: &Select,
    tables: &Vec<SlowTable>,
) -> Result<Vec<FromColumn>, AllocError>
    ensures { IfOk result (λ v. v.items ≡ scopes.scope_of (tables_of tables.now.items) (query_of select.now)) }
{
    let mut scope = Vec::new(alloc);
    let froms = select.tables.as_slice();
    for (k, from) in froms.iter().enumerate() {
        if let Some(table) = find_table(tables, &from.table) {
            push_columns(&mut scope, k, &from.alias, &table.columns)?;
        }
    }
    Ok(scope)
}

fn is_of_table(table: &Option<Name>, alias: &Name) -> bool
    ensures { result ≡ scopes.is_of_table table.now alias.now }
{
    match table {
        None => true,
        Some(table) => same_name(table, alias),
    }
}

fn is_named(name: &ColRef, column: &FromColumn) -> bool
    ensures { result ≡ scopes.is_named name.now column.now }
{
    is_of_table(&name.table, &column.alias) && same_name(&name.name, &column.column.name)
}

fn is_within(on: &Option<u8>, node: usize) -> bool
    ensures { result ≡ scopes.is_within on.now node }
{
    match on {
        None => false,
        Some(root) => node <= *root as usize,
    }
}

fn is_in_outputs(outputs: &[Output], node: usize) -> bool
    ensures { result ≡ scopes.is_in_outputs outputs.now node }
{
    for output in outputs {
        if node <= output.node as usize {
            return true;
        }
    }
    false
}

fn seen_by_condition(tables: &[FromTable], node: usize) -> usize
    requires { length tables.now < 2 ^ 32 }
    ensures { result ≡ scopes.seen_from 0 tables.now node }
{
    for (k, table) in tables.iter().enumerate() {
        if is_within(&table.on, node) {
            return k + 1;
        }
    }
    tables.len()
}

/// How many tables of FROM, from the left, the node at an index sees.
fn tables_seen(select: &Select, node: usize) -> usize
    ensures { result ≡ scopes.tables_seen (query_of select.now) node }
{
    if is_in_outputs(select.outputs.as_slice(), node) {
        select.tables.len()
    } else {
        seen_by_condition(select.tables.as_slice(), node)
    }
}

fn column_meant(scope: &Vec<FromColumn>, seen: usize, name: &ColRef) -> usize
    ensures { result ≡ scopes.column_meant scope.now.items seen name.now }
{
    for (place, column) in scope.iter().enumerate() {
        if column.table < seen && is_named(name, column) {
            return place;
        }
    }
    scope.len()
}

fn position_of(scope: &Vec<FromColumn>, seen: usize, node: &Node) -> usize
    ensures { result ≡ scopes.position_of scope.now.items seen node.now }
{
    match node {
        Node::Col(name) => column_meant(scope, seen, name),
        _ => scope.len(),
    }
}

/// For each node, the place of its value in a row of the cross product of FROM.
pub fn positions_of(
    alloc: Global,
    select: &Select,
    scope: &Vec<FromColumn>,
) -> Result<Vec<usize>, AllocError>
    ensures { IfOk result (λ v. v.items ≡ scopes.positions_of scope.now.items (query_of select.now)) }
{
    let mut positions = Vec::new(alloc);
    let nodes = select.nodes.as_slice();
    for (k, node) in nodes.iter().enumerate() {
        positions.push(position_of(scope, tables_seen(select, k), node))?;
    }
    Ok(positions)
}

fn is_output_name(name: &ColRef, output: &Option<Name>) -> bool
    ensures { result ≡ scopes.is_output_name name.now output.now }
{
    match output {
        None => false,
        Some(output) => name.table.is_none() && same_name(&name.name, output),
    }
}

fn column_place(positions: &Vec<usize>, nodes: &[Node], node: usize) -> Option<usize>
    ensures { result ≡ scopes.column_place positions.now.items nodes.now node }
{
    match nodes.get(node) {
        Some(Node::Col(_)) => Some(place_at(positions, node)),
        _ => None,
    }
}

fn place_at(positions: &Vec<usize>, node: usize) -> usize
    ensures { result ≡ slice_index positions.now.items node }
{
    if node < positions.len() {
        positions[node]
    } else {
        0
    }
}

fn is_column_named(scope: &[FromColumn], name: &ColRef, place: Option<usize>) -> bool
    ensures { result ≡ scopes.is_column_named scope.now name.now place }
{
    match place {
        None => false,
        Some(place) => match scope.get(place) {
            None => false,
            Some(column) => is_named(name, column),
        },
    }
}

fn finds_output(
    scope: &Vec<FromColumn>,
    positions: &Vec<usize>,
    nodes: &[Node],
    name: &ColRef,
    output: &Output,
) -> bool
    ensures { result ≡ scopes.finds_output scope.now.items positions.now.items nodes.now name.now output.now }
{
    is_output_name(name, &output.name)
        || is_column_named(
            scope,
            name,
            column_place(positions, nodes, output.node as usize),
        )
}

fn written_output(
    scope: &Vec<FromColumn>,
    positions: &Vec<usize>,
    select: &Select,
    name: &ColRef,
) -> usize
    ensures { result ≡ scopes.written_output scope.now.items positions.now.items (query_of select.now) name.now }
{
    let nodes = select.nodes.as_slice();
    let outputs = select.outputs.as_slice();
    for (place, output) in outputs.iter().enumerate() {
        if finds_output(scope, positions, nodes, name, output) {
            return place;
        }
    }
    outputs.len()
}

fn star_output(scope: &Vec<FromColumn>, name: &ColRef) -> usize
    ensures { result ≡ scopes.star_output scope.now.items name.now }
{
    for (place, column) in scope.iter().enumerate() {
        if is_named(name, column) {
            return place;
        }
    }
    scope.len()
}

fn output_found(
    scope: &Vec<FromColumn>,
    positions: &Vec<usize>,
    select: &Select,
    name: &ColRef,
) -> usize
    ensures { result ≡ scopes.output_found scope.now.items positions.now.items (query_of select.now) name.now }
{
    if select.star {
        star_output(scope, name)
    } else {
        written_output(scope, positions, select, name)
    }
}

fn output_count(scope: &Vec<FromColumn>, select: &Select) -> usize
    ensures { result ≡ scopes.output_count scope.now.items (query_of select.now) }
{
    if select.star {
        scope.len()
    } else {
        select.outputs.len()
    }
}

fn name_target(
    scope: &Vec<FromColumn>,
    positions: &Vec<usize>,
    select: &Select,
    node: usize,
) -> Target
    ensures { result ≡ scopes.name_target scope.now.items positions.now.items (query_of select.now) node (slice_get select.now.nodes.items node) }
{
    let nodes = select.nodes.as_slice();
    match nodes.get(node) {
        Some(Node::Col(name)) => {
            let found = output_found(scope, positions, select, name);
            if found < output_count(scope, select) {
                Target::ToOutput(found)
            } else {
                Target::ToNode(node)
            }
        }
        _ => Target::ToNode(node),
    }
}

fn target_of(
    scope: &Vec<FromColumn>,
    positions: &Vec<usize>,
    select: &Select,
    by: OrderBy,
) -> Target
    ensures { result ≡ scopes.target_of scope.now.items positions.now.items (query_of select.now) by }
{
    match by {
        OrderBy::Position(0) => Target::ToOutput(0),
        OrderBy::Position(k) => Target::ToOutput(k as usize - 1),
        OrderBy::Column(node) => name_target(scope, positions, select, node as usize),
    }
}

/// What each key of ORDER BY orders by, with its direction.
pub fn targets_of(
    alloc: Global,
    scope: &Vec<FromColumn>,
    positions: &Vec<usize>,
    select: &Select,
) -> Result<Vec<(bool, Target)>, AllocError>
    ensures { IfOk result (λ v. v.items ≡ meaning.targets_of scope.now.items positions.now.items (query_of select.now)) }
{
    let mut targets = Vec::new(alloc);
    let order = select.order.as_slice();
    for key in order {
        targets.push((key.descending, target_of(scope, positions, select, key.by)))?;
    }
    Ok(targets)
}

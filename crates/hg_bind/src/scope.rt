//! The columns of FROM, in order of tables and then of columns, and the place of each name among them.
ghost use Rattle.std.specs.Prelude.{◌≡◌, ◌≤◌, ◌<◌, ◌+◌, ◌++◌, ◌*◌, [], ℕ, length, slice_get, slice_index, option_map};
ghost use Rattle.std.specs.List.{count_by};
ghost use Rattle.hg_model.specs.Binding as binding;
ghost use Rattle.hg_model.specs.Query.{query_of};
ghost use Rattle.hg_model.specs.Scope as scopes;
ghost use Rattle.hg_model.specs.Tables.{table_named};
ghost use Rattle.hg_bind.specs.Bound.{tables_of};

use crate::from::tables_seen;
use arrayvec::ArrayVec;
use hg_catalog::Catalog;
use hg_model::{ColRef, Column, FromTable, Name, Node, Select};
use std::marker::Model;

/// A column of FROM: the number of its table there, the table's alias, and its own number in the table.
#[derive(Drop)]
pub struct ScopeColumn {
    pub table: u8,
    pub alias: Name,
    pub place: u8,
    pub column: Column,
}

impl Model for ScopeColumn {
    ghost use Rattle.hg_model.specs.declared.tables.FromColumn.{FromColumn};

    ghost Value = { FromColumn };

    ghost view = { λ c. record { table = c.table; alias = c.alias; place = c.place; column = c.column } };
}

impl Default for ScopeColumn {
    ghost use Rattle.std.specs.Prelude.{⊤};

    ghost is_default = { λ c. ⊤ };

    fn default() -> ScopeColumn {
        ScopeColumn {
            table: 0,
            alias: Name::default(),
            place: 0,
            column: Column::default(),
        }
    }
}

/// Four tables of at most 16 columns.
pub type Scope = ArrayVec<ScopeColumn, 64>;

/// The columns of a table of FROM.
fn columns_of<'a>(from: &FromTable, catalog: &'a Catalog) -> &'a [Column]
    ensures columns { result.now ≡ scopes.columns_of (table_named (tables_of catalog.now) from.now.table) }
    ensures few { length result.now ≤ 16 }
{
    match catalog.table(&from.table) {
        Some(number) => catalog.columns(number).as_slice(),
        None => &[],
    }
}

/// Puts the columns of one table of FROM behind those before it.
fn push_columns(scope: &mut Scope, table: u8, alias: &Name, columns: &[Column])
    requires room { length scope.old.items + length columns.now ≤ 64 }
    requires few { length columns.now ≤ 16 }
    ensures { scope.new.items ≡ scope.old.items ++ scopes.columns_from table alias.now 0 columns.now }
{
    for place in 0..columns.len() {
        scope.push(ScopeColumn {
            table,
            alias: alias.copy(),
            place: place as u8,
            column: columns[place].copy(),
        });
    }
}

/// Puts the columns of FROM into a list.
pub fn list_scope(froms: &[FromTable], catalog: &Catalog, scope: &mut Scope)
    requires few { length froms.now ≤ 4 }
    requires empty { scope.old.items ≡ [] }
    ensures columns { scope.new.items ≡ scopes.scope_from (tables_of catalog.now) 0 froms.now }
    ensures few { length scope.new.items ≤ 64 }
{
    for number in 0..froms.len() {
        let from = &froms[number];
        let columns = columns_of(from, catalog);
        push_columns(scope, number as u8, &from.alias, columns);
    }
}

/// Whether a name, with or without a table, names that column of FROM.
pub fn is_named(column: &ColRef, other: &ScopeColumn) -> bool
    ensures { result ≡ scopes.is_named column.now other.now }
{
    let of_table = match &column.table {
        None => true,
        Some(table) => *table == other.alias,
    };
    of_table && column.name == other.column.name
}

/// Whether it is named and stands in one of the first `seen` tables.
fn is_meant(column: &ColRef, seen: u8, other: &ScopeColumn) -> bool
    ensures { result ≡ scopes.is_meant column.now seen other.now }
{
    other.table < seen && is_named(column, other)
}

/// How many columns of the first `seen` tables a name means.
pub fn count_meant(scope: &[ScopeColumn], seen: u8, column: &ColRef) -> usize
    requires { length scope.now ≤ 64 }
    ensures { result ≡ count_by (scopes.is_meant column.now seen) scope.now }
{
    let mut count = 0;
    for other in scope {
        if is_meant(column, seen, other) {
            count += 1;
        }
    }
    count
}

/// How many columns of FROM a name means.
pub fn count_named(scope: &[ScopeColumn], column: &ColRef) -> usize
    requires { length scope.now ≤ 64 }
    ensures { result ≡ count_by (scopes.is_named column.now) scope.now }
{
    let mut count = 0;
    for other in scope {
        if is_named(column, other) {
            count += 1;
        }
    }
    count
}

/// The place of the first column of the first `seen` tables that a name means.
fn column_meant(scope: &[ScopeColumn], seen: u8, column: &ColRef) -> u8
    requires { length scope.now ≤ 64 }
    ensures { result ≡ scopes.column_meant scope.now seen column.now }
{
    for place in 0..scope.len() {
        if is_meant(column, seen, &scope[place]) {
            return place as u8;
        }
    }
    scope.len() as u8
}

/// The place of the first column of FROM that a name means.
pub fn star_output(scope: &[ScopeColumn], column: &ColRef) -> u8
    requires { length scope.now ≤ 64 }
    ensures { result ≡ scopes.star_output scope.now column.now }
{
    for place in 0..scope.len() {
        if is_named(column, &scope[place]) {
            return place as u8;
        }
    }
    scope.len() as u8
}

fn position_of(scope: &[ScopeColumn], seen: u8, node: &Node) -> u8
    requires { length scope.now ≤ 64 }
    ensures { result ≡ scopes.position_of scope.now seen node.now }
{
    match node {
        Node::Col(column) => column_meant(scope, seen, column),
        _ => scope.len() as u8,
    }
}

/// Puts the place of each node's column in a row of the cross product of FROM into a list.
pub fn list_positions(select: &Select, scope: &[ScopeColumn], positions: &mut ArrayVec<u8, 112>)
    requires few { length scope.now ≤ 64 }
    requires empty { positions.old.items ≡ [] }
    ensures { positions.new.items ≡ scopes.positions_of scope.now (query_of select.now) }
{
    let nodes = select.nodes.as_slice();
    for place in 0..nodes.len() {
        let seen = tables_seen(select, place as u8);
        positions.push(position_of(scope, seen, &nodes[place]));
    }
}

/// A place of a list, and 0 where it has none.
pub fn position_at(positions: &[u8], node: u8) -> u8
    ensures { result ≡ slice_index positions.now node }
{
    let node = node as usize;
    if node < positions.len() {
        positions[node]
    } else {
        0
    }
}

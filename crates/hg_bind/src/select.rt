//! SELECT.
ghost use Rattle.std.specs.Prelude.{◌≡◌, ◌≤◌, ◌++◌, ◌+◌, ◌&&◌, true, [], None, Some, IfOk, OnOk, OnErr, IfErr, IfNone, length, map, not, nat_lt, option_map, slice_get};
ghost use Rattle.std.specs.List.{list_any};
ghost use Rattle.hg_model.specs.Binding as binding;
ghost use Rattle.hg_model.specs.Query.{query_of};
ghost use Rattle.hg_model.specs.Refusal.{first_cause};
ghost use Rattle.hg_model.specs.Scope.{output_count, positions_of, scope_of};
ghost use Rattle.hg_model.specs.Tables.{same_name, table_named};
ghost use Rattle.hg_model.specs.declared.tables.FromColumn.{FromColumn};
ghost use Rattle.hg_model.specs.declared.trees.FromTable.{FromTable as FromTableOf};
ghost use Rattle.hg_bind.specs.Bound.{error_of, tables_of};
ghost use Rattle.hg_bind.specs.BoundSelect as bound;
ghost use Rattle.hg_bind.specs.Kinds.{shown};
ghost use Rattle.hg_bind.specs.Selecting as selecting;

use crate::errors::{
    BindError, bad_number, name_taken, not_grouped, row_too_long, too_many, too_wide,
    type_mismatch, unknown_table,
};
use crate::grouping::grouping_fits;
use crate::lengths::lengths_fit;
use crate::names::{has_outside, list_keys, list_named, names_cause};
use crate::nodes::Places;
use crate::scope::{ScopeColumn, list_positions, list_scope};
use crate::typing::{list_select_kinds, select_types_fit};
use crate::width::all_narrow;
use arrayvec::ArrayVec;
use hg_catalog::Catalog;
use hg_model::{ColRef, Count, FromTable, Literal, Name, Node, Nodes, OrderKey, Output, Select};

/// A SELECT in its bound form, with the numbers of its tables, and for each node the place of its column:
/// the number of its table in FROM, and its own number in that table.
#[derive(Drop)]
pub struct BoundSelect {
    pub select: Select,
    pub tables: ArrayVec<u8, 4>,
    pub places: Places,
}

/// Puts the numbers of the tables of FROM into a list, or answers the first name that no table has.
fn list_tables(
    froms: &[FromTable],
    catalog: &Catalog,
    tables: &mut ArrayVec<u8, 4>,
) -> Result<(), BindError>
    requires few { length froms.now ≤ 4 }
    requires empty { tables.old.items ≡ [] }
    ensures ok { OnOk result (binding.unknown_table (tables_of catalog.now) froms.now ≡ None) }
    ensures tables { OnOk result (bound.AreTables (tables_of catalog.now) froms.now tables.new.items) }
    ensures err { IfErr result (λ e. option_map error_of (binding.unknown_table (tables_of catalog.now) froms.now) ≡ Some e) }
{
    for from in froms {
        match catalog.table(&from.table) {
            Some(number) => tables.push(number),
            None => return Err(unknown_table(&from.table)),
        }
    }
    Ok(())
}

/// Whether a table of that alias stands in a list.
fn is_alias(name: &Name, froms: &[FromTable]) -> bool
    ensures { result ≡ list_any (same_name name.now) (map (λ (f : FromTableOf). f.alias) froms.now) }
{
    for from in froms {
        if *name == from.alias {
            return true;
        }
    }
    false
}

/// The first alias in FROM that has stood before.
fn repeated_alias(froms: &[FromTable]) -> Option<BindError>
    ensures { result ≡ option_map error_of (binding.repeated_name (map (λ (f : FromTableOf). f.alias) froms.now)) }
{
    for place in 0..froms.len() {
        let name = &froms[place].alias;
        if is_alias(name, &froms[..place]) {
            return Some(name_taken(name));
        }
    }
    None
}

/// The first cause against a SELECT behind its names.
fn last_refusal(
    select: &Select,
    scope: &[ScopeColumn],
    positions: &[u8],
    named: &[Option<u8>],
    keys: &[OrderKey],
) -> Option<BindError>
    requires few { length scope.now ≤ 64 }
    requires each { length positions.now ≡ length select.now.nodes.items }
    requires named { named.now ≡ selecting.named_from scope.now positions.now (query_of select.now) 0 select.now.nodes.items }
    requires few_keys { length keys.now ≤ 8 }
    requires keys { keys.now ≡ map (bound.bound_key scope.now positions.now (query_of select.now)) select.now.order.items }
    ensures { result ≡ option_map error_of (first_cause (bound.causes_behind_names scope.now positions.now (query_of select.now))) }
{
    if has_outside(scope, select) {
        return Some(bad_number());
    }
    let nodes = select.nodes.as_slice();
    let mut kinds = ArrayVec::new();
    list_select_kinds(scope, positions, nodes, &mut kinds);
    if !select_types_fit(select, kinds.as_slice()) {
        return Some(type_mismatch());
    }
    if !grouping_fits(scope, positions, select) {
        return Some(not_grouped());
    }
    if !all_narrow(nodes) {
        return Some(too_wide());
    }
    if !lengths_fit(select, scope, positions, kinds.as_slice(), named, keys) {
        return Some(row_too_long());
    }
    None
}

/// Whether a star stands for more outputs than there may be.
fn star_is_long(select: &Select, scope: &[ScopeColumn]) -> bool
    ensures { result ≡ (select.now.star && nat_lt 16 (length scope.now)) }
{
    select.star && scope.len() > 16
}

/// The first cause against a SELECT whose tables are there.
fn refuse_select(
    select: &Select,
    scope: &[ScopeColumn],
    positions: &[u8],
    named: &[Option<u8>],
    keys: &[OrderKey],
) -> Option<BindError>
    requires few { length scope.now ≤ 64 }
    requires each { length positions.now ≡ length select.now.nodes.items }
    requires named { named.now ≡ selecting.named_from scope.now positions.now (query_of select.now) 0 select.now.nodes.items }
    requires few_keys { length keys.now ≤ 8 }
    requires keys { keys.now ≡ map (bound.bound_key scope.now positions.now (query_of select.now)) select.now.order.items }
    ensures value { result ≡ option_map error_of (first_cause (bound.causes_behind_tables scope.now positions.now (query_of select.now))) }
    ensures star { IfNone result (select.now.star ≡ true → length scope.now ≤ 16) }
{
    if let Some(error) = repeated_alias(select.tables.as_slice()) {
        return Some(error);
    }
    if star_is_long(select, scope) {
        return Some(too_many(Count::Outputs));
    }
    if let Some(error) = names_cause(scope, positions, select) {
        return Some(error);
    }
    last_refusal(select, scope, positions, named, keys)
}

fn is_settled(node: &Node, named: Option<u8>) -> bool
    ensures { result ≡ bound.is_output_name node.now named }
{
    match (node, named) {
        (Node::Col(_), None) => true,
        _ => false,
    }
}

/// Puts NULL in the place of a name of ORDER BY that is an output.
fn settle(node: &mut Node, named: Option<u8>)
    ensures { node.new ≡ bound.settled_node node.old named }
{
    if is_settled(node, named) {
        *node = Node::Lit(Literal::Null);
    }
}

/// Puts NULL in the place of each name of ORDER BY that is an output.
fn settle_nodes(nodes: &mut Nodes, named: &[Option<u8>])
    requires { length named.now ≡ length nodes.old.items }
    ensures { nodes.new.items ≡ bound.settled nodes.old.items named.now }
{
    for place in 0..named.len() {
        settle(&mut nodes[place], named[place]);
    }
}

/// Writes a star out: behind the nodes of the line one for each column of FROM, each an output.
fn write_star(nodes: &mut Nodes, outputs: &mut ArrayVec<Output, 16>, scope: &[ScopeColumn])
    requires few { length scope.now ≤ 16 }
    requires room { length nodes.old.items ≤ 96 }
    ensures nodes { nodes.new.items ≡ nodes.old.items ++ map bound.column_node scope.now }
    ensures outputs { outputs.new.items ≡ bound.star_outputs (length nodes.old.items) scope.now }
{
    outputs.clear();
    for column in scope {
        outputs.push(Output {
            node: nodes.len() as u8,
            name: None,
        });
        nodes.push(Node::Col(ColRef {
            table: Some(column.alias.copy()),
            name: column.column.name.copy(),
        }));
    }
}

fn place_if_named(scope: &[ScopeColumn], named: Option<u8>) -> (u8, u8)
    ensures { result ≡ bound.place_if_named scope.now named }
{
    match named {
        None => (255, 255),
        Some(place) => match scope.get(place as usize) {
            None => (255, 255),
            Some(column) => (column.table, column.place),
        },
    }
}

fn push_named_places(scope: &[ScopeColumn], named: &[Option<u8>], places: &mut Places)
    requires few { length named.now ≤ 112 }
    requires empty { places.old.items ≡ [] }
    ensures { places.new.items ≡ map (bound.place_if_named scope.now) named.now }
{
    for place in named {
        places.push(place_if_named(scope, *place));
    }
}

fn push_star_places(scope: &[ScopeColumn], places: &mut Places)
    requires { length places.old.items + length scope.now ≤ 112 }
    ensures { places.new.items ≡ places.old.items ++ map bound.place_of_column scope.now }
{
    for column in scope {
        places.push((column.table, column.place));
    }
}

/// Puts the place of each node of the bound form into a list.
fn list_places(scope: &[ScopeColumn], named: &[Option<u8>], select: &Select, places: &mut Places)
    requires few { length named.now ≤ 96 }
    requires star { select.now.star ≡ true → length scope.now ≤ 16 }
    requires empty { places.old.items ≡ [] }
    ensures { places.new.items ≡ bound.places_with scope.now named.now (query_of select.now) }
{
    push_named_places(scope, named, places);
    if select.star {
        push_star_places(scope, places);
    }
}

/// Writes the bound form where the statement lies.
fn write_out(
    select: &mut Select,
    scope: &[ScopeColumn],
    named: &[Option<u8>],
    keys: ArrayVec<OrderKey, 8>,
)
    requires few { length select.old.nodes.items ≤ 96 }
    requires each { length named.now ≡ length select.old.nodes.items }
    requires star { select.old.star ≡ true → length scope.now ≤ 16 }
    ensures { query_of select.new ≡ bound.written_with scope.now named.now keys.items (query_of select.old) }
{
    select.order = keys;
    settle_nodes(&mut select.nodes, named);
    if select.star {
        write_star(&mut select.nodes, &mut select.outputs, scope);
        select.star = false;
    }
}

/// Binds a SELECT where it lies: its star is written out, a name of ORDER BY that is an output becomes its
/// position, `tables` gets the numbers of its tables, and `places` the place of each node's column. The
/// statement of a line has at most 96 nodes; 16 more have room for the star.
pub fn place_select(
    select: &mut Select,
    catalog: &Catalog,
    tables: &mut ArrayVec<u8, 4>,
    places: &mut Places,
) -> Result<(), BindError>
    requires few_nodes { length select.old.nodes.items ≤ 96 }
    requires no_tables { tables.old.items ≡ [] }
    requires no_places { places.old.items ≡ [] }
    ensures ok { OnOk result (bound.IsBoundSelect (tables_of catalog.now) (query_of select.old) (query_of select.new) tables.new.items places.new.items) }
    ensures err { IfErr result (λ e. option_map error_of (binding.select_refusal (tables_of catalog.now) (query_of select.old)) ≡ Some e) }
    ensures kept { OnErr result (select.new ≡ select.old) }
{
    if let Err(error) = list_tables(select.tables.as_slice(), catalog, tables) {
        return Err(error);
    }
    let mut scope = ArrayVec::new();
    list_scope(select.tables.as_slice(), catalog, &mut scope);
    let scope = scope.as_slice();
    let mut positions = ArrayVec::new();
    list_positions(select, scope, &mut positions);
    let positions = positions.as_slice();
    let mut named = ArrayVec::new();
    list_named(scope, positions, select, &mut named);
    let mut keys = ArrayVec::new();
    list_keys(scope, positions, select, &mut keys);
    if let Some(error) = refuse_select(
        select,
        scope,
        positions,
        named.as_slice(),
        keys.as_slice(),
    ) {
        return Err(error);
    }
    list_places(scope, named.as_slice(), select, places);
    write_out(select, scope, named.as_slice(), keys);
    Ok(())
}

/// Binds a SELECT, or answers the first cause against it. The statement goes in and comes back by value;
/// [`place_select`] moves none.
pub fn bind_select(select: Select, catalog: &Catalog) -> Result<BoundSelect, BindError>
    requires few_nodes { length select.nodes.items ≤ 96 }
    ensures ok { IfOk result (λ b. bound.IsBoundSelect (tables_of catalog.now) (query_of select) (query_of b.select) b.tables.items b.places.items) }
    ensures err { IfErr result (λ e. option_map error_of (binding.select_refusal (tables_of catalog.now) (query_of select)) ≡ Some e) }
{
    let mut select = select;
    let mut tables = ArrayVec::new();
    let mut places = ArrayVec::new();
    match place_select(&mut select, catalog, &mut tables, &mut places) {
        Ok(()) => Ok(BoundSelect {
            select,
            tables,
            places,
        }),
        Err(error) => Err(error),
    }
}

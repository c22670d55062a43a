//! The nodes of an UPDATE or a DELETE, whose names are of one table.
ghost use Rattle.std.specs.Prelude.{◌≡◌, ◌≤◌, [], None, Some, IfOk, OnOk, IfErr, IfSome, IfNone, length, map, option_map};
ghost use Rattle.std.specs.List.{count_by, list_any, position_or_len};
ghost use Rattle.hg_catalog.specs.Contents.{IsNewTable};
ghost use Rattle.hg_model.specs.ChangeBinding.{change_positions, node_name_cause, place_of_node};
ghost use Rattle.hg_model.specs.Refusal.{first_cause};
ghost use Rattle.hg_model.specs.Scope.{columns_from, is_named, is_of_table};
ghost use Rattle.hg_model.specs.SelectMeaning.{is_aggregate};
ghost use Rattle.hg_bind.specs.Bound.{causes_behind_types, error_of, numbers_of, row_places};
ghost use Rattle.hg_bind.specs.Kinds.{kinds_of_nodes, shown};

use crate::columns::column_of_name;
use crate::errors::{BindError, not_grouped, too_wide, unknown_reference};
use crate::kinds::{Kind, kind_of, kind_of_column};
use crate::width::all_narrow;
use arrayvec::ArrayVec;
use hg_model::{ColRef, Column, Name, Node};

/// For each node the place of its value in a row: the first number is 255, the second the number of the
/// table's column.
pub type Places = ArrayVec<(u8, u8), 112>;

/// Whether a name is written without a table, or with this one.
fn is_of_table(written: &Option<Name>, table: &Name) -> bool
    ensures { result ≡ is_of_table written.now table.now }
{
    match written {
        None => true,
        Some(other) => other == table,
    }
}

/// The number of the column that a name means.
pub fn place_of_column(columns: &[Column], table: &Name, column: &ColRef) -> Option<u8>
    requires { IsNewTable columns.now }
    ensures place { IfSome result (λ k. k ≡ position_or_len (is_named column.now) (columns_from 0 table.now 0 columns.now)) }
    ensures one { IfSome result (λ k. count_by (is_named column.now) (columns_from 0 table.now 0 columns.now) ≡ 1) }
    ensures none { IfNone result (count_by (is_named column.now) (columns_from 0 table.now 0 columns.now) ≡ 0) }
{
    if !is_of_table(&column.table, table) {
        return None;
    }
    match column_of_name(columns, &column.name) {
        Some(place) => Some(place),
        None => None,
    }
}

/// The number of the column that a node names, or the error that it names none. Where the node is no
/// column, it is the one behind the last.
fn place_of_node(columns: &[Column], table: &Name, node: &Node) -> Result<u8, BindError>
    requires { IsNewTable columns.now }
    ensures place { IfOk result (λ k. k ≡ place_of_node (columns_from 0 table.now 0 columns.now) node.now) }
    ensures ok { IfOk result (λ k. node_name_cause (columns_from 0 table.now 0 columns.now) node.now ≡ None) }
    ensures err { IfErr result (λ e. option_map error_of (node_name_cause (columns_from 0 table.now 0 columns.now) node.now) ≡ Some e) }
{
    match node {
        Node::Col(column) => match place_of_column(columns, table, column) {
            Some(place) => Ok(place),
            None => Err(unknown_reference(column)),
        },
        _ => Ok(columns.len() as u8),
    }
}

/// Puts the place of each node's column into a list, or answers the first name that no column has.
pub fn place_nodes(
    columns: &[Column],
    table: &Name,
    nodes: &[Node],
    places: &mut Places,
) -> Result<(), BindError>
    requires columns { IsNewTable columns.now }
    requires few { length nodes.now ≤ 112 }
    requires empty { places.old.items ≡ [] }
    ensures places { OnOk result (places.new.items ≡ row_places (change_positions (columns_from 0 table.now 0 columns.now) nodes.now)) }
    ensures ok { OnOk result (first_cause (map (node_name_cause (columns_from 0 table.now 0 columns.now)) nodes.now) ≡ None) }
    ensures err { IfErr result (λ e. option_map error_of (first_cause (map (node_name_cause (columns_from 0 table.now 0 columns.now)) nodes.now)) ≡ Some e) }
{
    for node in nodes {
        match place_of_node(columns, table, node) {
            Ok(place) => places.push((255, place)),
            Err(error) => return Err(error),
        }
    }
    Ok(())
}

/// Puts the kind of each node into a list, front to back.
pub fn list_kinds(
    columns: &[Column],
    nodes: &[Node],
    places: &[(u8, u8)],
    kinds: &mut ArrayVec<Kind, 112>,
)
    requires few { length nodes.now ≤ 112 }
    requires each { length places.now ≡ length nodes.now }
    requires empty { kinds.old.items ≡ [] }
    ensures { map shown kinds.new.items ≡ kinds_of_nodes columns.now (numbers_of places.now) nodes.now }
{
    for place in 0..nodes.len() {
        let leaf = kind_of_column(columns, places[place].1);
        let kind = kind_of(leaf, &nodes[place], kinds.as_slice());
        kinds.push(kind);
    }
}

/// Whether an aggregate stands among the nodes.
pub fn has_aggregate(nodes: &[Node]) -> bool
    ensures { result ≡ list_any is_aggregate nodes.now }
{
    for node in nodes {
        if let Node::Aggregate(_, _) = node {
            return true;
        }
    }
    false
}

/// The causes that are looked for behind types: an aggregate, and then a node that is too wide.
pub fn last_cause(nodes: &[Node]) -> Option<BindError>
    requires { length nodes.now ≤ 112 }
    ensures { result ≡ option_map error_of (first_cause (causes_behind_types nodes.now)) }
{
    if has_aggregate(nodes) {
        return Some(not_grouped());
    }
    if !all_narrow(nodes) {
        return Some(too_wide());
    }
    None
}

//! DELETE.
ghost use Rattle.std.specs.Prelude.{◌≡◌, ◌≤◌, ◌&&◌, [], Some, IfOk, IfErr, length, option_map};
ghost use Rattle.hg_model.specs.ChangeBinding.{delete_refusal, filter_fits};
ghost use Rattle.hg_model.specs.Statements.{delete_tree};
ghost use Rattle.hg_model.specs.Types.{all_well_typed};
ghost use Rattle.hg_bind.specs.Bound.{tables_of, error_of, numbers_of, IsPlacedDelete};
ghost use Rattle.hg_bind.specs.Kinds.{kinds_of_nodes};

use crate::errors::{BindError, type_mismatch, unknown_table};
use crate::kinds::{all_well_typed, filter_fits};
use crate::nodes::{Places, last_cause, list_kinds, place_nodes};
use arrayvec::ArrayVec;
use hg_catalog::Catalog;
use hg_model::{Column, Delete, Name, Node};

/// A DELETE with the number of its table, and the place of each node's column.
#[derive(Drop)]
pub struct BoundDelete {
    pub delete: Delete,
    pub table: u8,
    pub places: Places,
}

/// Whether each node takes its children, and the filter is a condition.
fn types_fit(columns: &[Column], nodes: &[Node], places: &[(u8, u8)], filter: Option<u8>) -> bool
    requires few { length nodes.now ≤ 112 }
    requires each { length places.now ≡ length nodes.now }
    ensures { result ≡ (all_well_typed nodes.now (kinds_of_nodes columns.now (numbers_of places.now) nodes.now)
        && filter_fits (kinds_of_nodes columns.now (numbers_of places.now) nodes.now) filter) }
{
    let mut kinds = ArrayVec::new();
    list_kinds(columns, nodes, places, &mut kinds);
    all_well_typed(nodes, kinds.as_slice()) && filter_fits(kinds.as_slice(), filter)
}

/// Binds a DELETE of these parts where they lie: the answer is the number of its table, and `places` gets
/// the place of each node's column.
pub fn place_filter(
    table: &Name,
    filter: Option<u8>,
    nodes: &[Node],
    catalog: &Catalog,
    places: &mut Places,
) -> Result<u8, BindError>
    requires few_nodes { length nodes.now ≤ 112 }
    requires empty { places.old.items ≡ [] }
    ensures ok { IfOk result (λ number. IsPlacedDelete (tables_of catalog.now) (record { table = table.now; filter = filter; nodes = nodes.now }) number places.new.items) }
    ensures err { IfErr result (λ e. option_map error_of (delete_refusal (tables_of catalog.now) (record { table = table.now; filter = filter; nodes = nodes.now })) ≡ Some e) }
{
    let Some(number) = catalog.table(table) else {
        return Err(unknown_table(table));
    };
    let columns = catalog.columns(number).as_slice();
    if let Err(error) = place_nodes(columns, table, nodes, places) {
        return Err(error);
    }
    if !types_fit(columns, nodes, places.as_slice(), filter) {
        return Err(type_mismatch());
    }
    match last_cause(nodes) {
        Some(error) => Err(error),
        None => Ok(number),
    }
}

/// Binds a DELETE where it lies, as [`place_filter`] does.
pub fn place_delete(
    delete: &Delete,
    catalog: &Catalog,
    places: &mut Places,
) -> Result<u8, BindError>
    requires empty { places.old.items ≡ [] }
    ensures ok { IfOk result (λ table. IsPlacedDelete (tables_of catalog.now) (delete_tree delete.now) table places.new.items) }
    ensures err { IfErr result (λ e. option_map error_of (delete_refusal (tables_of catalog.now) (delete_tree delete.now)) ≡ Some e) }
{
    match place_filter(
        &delete.table,
        delete.filter,
        delete.nodes.as_slice(),
        catalog,
        places,
    ) {
        Ok(table) => Ok(table),
        Err(error) => Err(error),
    }
}

/// Binds a DELETE, or answers the first cause against it. The answer is given by value;
/// [`place_delete`] moves no statement.
pub fn bind_delete(delete: Delete, catalog: &Catalog) -> Result<BoundDelete, BindError>
    ensures same { IfOk result (λ b. b.delete ≡ delete) }
    ensures ok { IfOk result (λ b. IsPlacedDelete (tables_of catalog.now) (delete_tree delete) b.table b.places.items) }
    ensures err { IfErr result (λ e. option_map error_of (delete_refusal (tables_of catalog.now) (delete_tree delete)) ≡ Some e) }
{
    let mut places = ArrayVec::new();
    match place_delete(&delete, catalog, &mut places) {
        Ok(table) => Ok(BoundDelete {
            delete,
            table,
            places,
        }),
        Err(error) => Err(error),
    }
}

//! UPDATE.
ghost use Rattle.std.specs.Prelude.{◌≡◌, ◌≤◌, ◌&&◌, ℕ, List, [], None, Some, IfOk, OnOk, IfErr, length, map, option_map};
ghost use Rattle.std.specs.List.{list_any};
ghost use Rattle.hg_model.specs.ChangeBinding.{column_number, columns_cause, filter_fits, sets_fit, update_refusal};
ghost use Rattle.hg_model.specs.Refusal.{first_cause};
ghost use Rattle.hg_model.specs.Statements.{update_tree};
ghost use Rattle.hg_model.specs.Tables.{same_name};
ghost use Rattle.hg_model.specs.Types.{all_well_typed};
ghost use Rattle.hg_bind.specs.Bound.{tables_of, error_of, names_set, numbers_of, IsPlacedUpdate};
ghost use Rattle.hg_bind.specs.Kinds.{kinds_of_nodes, shown};

use crate::columns::column_of_name;
use crate::errors::{BindError, name_taken, type_mismatch, unknown_column, unknown_table};
use crate::kinds::{Kind, agree, all_well_typed, filter_fits, kind_at, kind_of_column};
use crate::nodes::{Places, last_cause, list_kinds, place_nodes};
use arrayvec::ArrayVec;
use hg_catalog::Catalog;
use hg_model::{Column, Name, Node, Update};

/// An UPDATE with the number of its table, the number of the column of each SET item, and the place of
/// each node's column.
#[derive(Drop)]
pub struct BoundUpdate {
    pub update: Update,
    pub table: u8,
    pub targets: ArrayVec<u8, 16>,
    pub places: Places,
}

/// Whether a name is set in a list of SET items.
fn is_set(name: &Name, sets: &[(Name, u8)]) -> bool
    ensures { result ≡ list_any (same_name name.now) (names_set sets.now) }
{
    for set in sets {
        if *name == set.0 {
            return true;
        }
    }
    false
}

/// Puts the number of the column of each SET item into a list, or answers the first name that no column
/// has or that has stood before.
fn list_targets(
    columns: &[Column],
    sets: &[(Name, u8)],
    targets: &mut ArrayVec<u8, 16>,
) -> Result<(), BindError>
    requires few_columns { length columns.now ≤ 16 }
    requires few_sets { length sets.now ≤ 16 }
    requires empty { targets.old.items ≡ [] }
    ensures ok { OnOk result (first_cause (columns_cause columns.now [] (names_set sets.now)) ≡ None) }
    ensures targets { OnOk result (targets.new.items ≡ map (column_number columns.now) (names_set sets.now)) }
    ensures err { IfErr result (λ e. option_map error_of (first_cause (columns_cause columns.now [] (names_set sets.now))) ≡ Some e) }
{
    for place in 0..sets.len() {
        let name = &sets[place].0;
        let Some(number) = column_of_name(columns, name) else {
            return Err(unknown_column(name));
        };
        if is_set(name, &sets[..place]) {
            return Err(name_taken(name));
        }
        targets.push(number);
    }
    Ok(())
}

/// Whether each SET item assigns a value of its column's kind.
fn sets_fit(columns: &[Column], targets: &[u8], sets: &[(Name, u8)], kinds: &[Kind]) -> bool
    requires { targets.now ≡ map (column_number columns.now) (names_set sets.now) }
    ensures { result ≡ sets_fit columns.now (map shown kinds.now) sets.now }
{
    for place in 0..sets.len() {
        if !agree(
            kind_of_column(columns, targets[place]),
            kind_at(kinds, sets[place].1),
        ) {
            return false;
        }
    }
    true
}

/// Whether each node takes its children, each SET item a value, and the filter is a condition.
fn types_fit(
    columns: &[Column],
    targets: &[u8],
    sets: &[(Name, u8)],
    nodes: &[Node],
    places: &[(u8, u8)],
    filter: Option<u8>,
) -> bool
    requires few { length nodes.now ≤ 112 }
    requires each { length places.now ≡ length nodes.now }
    requires targets { targets.now ≡ map (column_number columns.now) (names_set sets.now) }
    ensures { result ≡ (all_well_typed nodes.now (kinds_of_nodes columns.now (numbers_of places.now) nodes.now)
        && (sets_fit columns.now (kinds_of_nodes columns.now (numbers_of places.now) nodes.now) sets.now
        && filter_fits (kinds_of_nodes columns.now (numbers_of places.now) nodes.now) filter)) }
{
    let mut kinds = ArrayVec::new();
    list_kinds(columns, nodes, places, &mut kinds);
    all_well_typed(nodes, kinds.as_slice())
        && sets_fit(columns, targets, sets, kinds.as_slice())
        && filter_fits(kinds.as_slice(), filter)
}

/// Binds an UPDATE of these parts where they lie: the answer is the number of its table, `targets` gets
/// the number of the column of each SET item, and `places` the place of each node's column.
pub fn place_sets(
    table: &Name,
    sets: &[(Name, u8)],
    filter: Option<u8>,
    nodes: &[Node],
    catalog: &Catalog,
    targets: &mut ArrayVec<u8, 16>,
    places: &mut Places,
) -> Result<u8, BindError>
    requires few_sets { length sets.now ≤ 16 }
    requires few_nodes { length nodes.now ≤ 112 }
    requires no_targets { targets.old.items ≡ [] }
    requires no_places { places.old.items ≡ [] }
    ensures ok { IfOk result (λ number. IsPlacedUpdate (tables_of catalog.now)
        (record { table = table.now; sets = sets.now; filter = filter; nodes = nodes.now }) number targets.new.items places.new.items) }
    ensures err { IfErr result (λ e. option_map error_of (update_refusal (tables_of catalog.now)
        (record { table = table.now; sets = sets.now; filter = filter; nodes = nodes.now })) ≡ Some e) }
{
    let Some(number) = catalog.table(table) else {
        return Err(unknown_table(table));
    };
    let columns = catalog.columns(number).as_slice();
    if let Err(error) = list_targets(columns, sets, targets) {
        return Err(error);
    }
    if let Err(error) = place_nodes(columns, table, nodes, places) {
        return Err(error);
    }
    if !types_fit(
        columns,
        targets.as_slice(),
        sets,
        nodes,
        places.as_slice(),
        filter,
    ) {
        return Err(type_mismatch());
    }
    match last_cause(nodes) {
        Some(error) => Err(error),
        None => Ok(number),
    }
}

/// Binds an UPDATE where it lies, as [`place_sets`] does.
pub fn place_update(
    update: &Update,
    catalog: &Catalog,
    targets: &mut ArrayVec<u8, 16>,
    places: &mut Places,
) -> Result<u8, BindError>
    requires no_targets { targets.old.items ≡ [] }
    requires no_places { places.old.items ≡ [] }
    ensures ok { IfOk result (λ table. IsPlacedUpdate (tables_of catalog.now) (update_tree update.now) table targets.new.items places.new.items) }
    ensures err { IfErr result (λ e. option_map error_of (update_refusal (tables_of catalog.now) (update_tree update.now)) ≡ Some e) }
{
    match place_sets(
        &update.table,
        update.sets.as_slice(),
        update.filter,
        update.nodes.as_slice(),
        catalog,
        targets,
        places,
    ) {
        Ok(table) => Ok(table),
        Err(error) => Err(error),
    }
}

/// Binds an UPDATE, or answers the first cause against it. The answer is given by value;
/// [`place_update`] moves no statement.
pub fn bind_update(update: Update, catalog: &Catalog) -> Result<BoundUpdate, BindError>
    ensures same { IfOk result (λ b. b.update ≡ update) }
    ensures ok { IfOk result (λ b. IsPlacedUpdate (tables_of catalog.now) (update_tree update) b.table b.targets.items b.places.items) }
    ensures err { IfErr result (λ e. option_map error_of (update_refusal (tables_of catalog.now) (update_tree update)) ≡ Some e) }
{
    let mut targets = ArrayVec::new();
    let mut places = ArrayVec::new();
    match place_update(&update, catalog, &mut targets, &mut places) {
        Ok(table) => Ok(BoundUpdate {
            update,
            table,
            targets,
            places,
        }),
        Err(error) => Err(error),
    }
}

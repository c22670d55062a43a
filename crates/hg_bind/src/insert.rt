//! INSERT.
ghost use Rattle.std.specs.Prelude.{◌≡◌, ◌≤◌, ◌-◌, [], None, Some, IfOk, OnOk, IfErr, length, option_map, take, drop};
ghost use Rattle.std.specs.List.{list_all};
ghost use Rattle.hg_model.specs.ChangeBinding.{columns_cause, insert_refusal, insert_targets, tuple_fits};
ghost use Rattle.hg_model.specs.Changes.{tuples_from};
ghost use Rattle.hg_model.specs.Refusal.{first_cause};
ghost use Rattle.hg_model.specs.Statements.{insert_tree};
ghost use Rattle.hg_bind.specs.Bound.{tables_of, error_of, IsPlacedInsert};

use crate::columns::{list_all_columns, list_columns};
use crate::errors::{BindError, type_mismatch, unknown_table};
use crate::kinds::{agree, kind_of_column, kind_of_literal};
use arrayvec::ArrayVec;
use hg_catalog::Catalog;
use hg_model::{Column, Insert, Literal, Name};

/// An INSERT with the number of its table, and for each value of a row the number of its column.
#[derive(Drop)]
pub struct BoundInsert {
    pub insert: Insert,
    pub table: u8,
    pub targets: ArrayVec<u8, 16>,
}

/// A part of the values: those from one place up to another.
fn part(values: &[Literal], from: u16, end: u16) -> &[Literal]
    ensures { result.now ≡ take (end - from) (drop from values.now) }
{
    let first = values.len().min(from as usize);
    let last = values.len().min(end as usize).max(first);
    &values[first..last]
}

/// Whether a row of constants has one for each target, and no number for a text or text for a number.
fn tuple_fits(columns: &[Column], targets: &[u8], tuple: &[Literal]) -> bool
    ensures { result ≡ tuple_fits columns.now targets.now tuple.now }
{
    if targets.len() != tuple.len() {
        return false;
    }
    for place in 0..targets.len() {
        if !agree(
            kind_of_column(columns, targets[place]),
            kind_of_literal(tuple[place]),
        ) {
            return false;
        }
    }
    true
}

/// Whether each row of constants fits; `ends` has the place behind the last value of each.
fn tuples_fit(columns: &[Column], targets: &[u8], values: &[Literal], ends: &[u16]) -> bool
    ensures { result ≡ list_all (tuple_fits columns.now targets.now) (tuples_from 0 ends.now values.now) }
{
    let mut from = 0;
    for end in ends {
        if !tuple_fits(columns, targets, part(values, from, *end)) {
            return false;
        }
        from = *end;
    }
    true
}

/// Puts the number of each target into a list: those of the listed columns, and of all columns where
/// none is listed.
fn list_targets(
    columns: &[Column],
    names: &[Name],
    targets: &mut ArrayVec<u8, 16>,
) -> Result<(), BindError>
    requires few_columns { length columns.now ≤ 16 }
    requires few_names { length names.now ≤ 16 }
    requires empty { targets.old.items ≡ [] }
    ensures ok { OnOk result (first_cause (columns_cause columns.now [] names.now) ≡ None) }
    ensures targets { OnOk result (targets.new.items ≡ insert_targets columns.now names.now) }
    ensures err { IfErr result (λ e. option_map error_of (first_cause (columns_cause columns.now [] names.now)) ≡ Some e) }
{
    match names {
        [] => {
            list_all_columns(columns, targets);
            Ok(())
        }
        _ => list_columns(columns, names, targets),
    }
}

/// Binds an INSERT of these parts where they lie: the answer is the number of its table, and `targets`
/// gets the number of the column of each value.
pub fn place_values(
    table: &Name,
    names: &[Name],
    values: &[Literal],
    ends: &[u16],
    catalog: &Catalog,
    targets: &mut ArrayVec<u8, 16>,
) -> Result<u8, BindError>
    requires few_names { length names.now ≤ 16 }
    requires empty { targets.old.items ≡ [] }
    ensures ok { IfOk result (λ number. IsPlacedInsert (tables_of catalog.now)
        (record { table = table.now; columns = names.now; values = values.now; ends = ends.now }) number targets.new.items) }
    ensures err { IfErr result (λ e. option_map error_of (insert_refusal (tables_of catalog.now)
        (record { table = table.now; columns = names.now; values = values.now; ends = ends.now })) ≡ Some e) }
{
    let Some(number) = catalog.table(table) else {
        return Err(unknown_table(table));
    };
    let columns = catalog.columns(number).as_slice();
    if let Err(error) = list_targets(columns, names, targets) {
        return Err(error);
    }
    if !tuples_fit(columns, targets.as_slice(), values, ends) {
        return Err(type_mismatch());
    }
    Ok(number)
}

/// Binds an INSERT where it lies, as [`place_values`] does.
pub fn place_insert(
    insert: &Insert,
    catalog: &Catalog,
    targets: &mut ArrayVec<u8, 16>,
) -> Result<u8, BindError>
    requires empty { targets.old.items ≡ [] }
    ensures ok { IfOk result (λ table. IsPlacedInsert (tables_of catalog.now) (insert_tree insert.now) table targets.new.items) }
    ensures err { IfErr result (λ e. option_map error_of (insert_refusal (tables_of catalog.now) (insert_tree insert.now)) ≡ Some e) }
{
    match place_values(
        &insert.table,
        insert.columns.as_slice(),
        insert.values.as_slice(),
        insert.ends.as_slice(),
        catalog,
        targets,
    ) {
        Ok(table) => Ok(table),
        Err(error) => Err(error),
    }
}

/// Binds an INSERT, or answers the first cause against it. The answer is given by value;
/// [`place_insert`] moves no statement.
pub fn bind_insert(insert: Insert, catalog: &Catalog) -> Result<BoundInsert, BindError>
    ensures same { IfOk result (λ b. b.insert ≡ insert) }
    ensures ok { IfOk result (λ b. IsPlacedInsert (tables_of catalog.now) (insert_tree insert) b.table b.targets.items) }
    ensures err { IfErr result (λ e. option_map error_of (insert_refusal (tables_of catalog.now) (insert_tree insert)) ≡ Some e) }
{
    let mut targets = ArrayVec::new();
    match place_insert(&insert, catalog, &mut targets) {
        Ok(table) => Ok(BoundInsert {
            insert,
            table,
            targets,
        }),
        Err(error) => Err(error),
    }
}

//! CREATE TABLE and CREATE INDEX.
ghost use Rattle.std.specs.Prelude.{◌≡◌, is_some, option_map};
ghost use Rattle.std.specs.List.{count_by, list_any};
ghost use Rattle.hg_model.specs.Binding.{repeated_name};
ghost use Rattle.hg_model.specs.Creation.{create_table_refusal, is_key};
ghost use Rattle.hg_model.specs.Statements.{table_tree};
ghost use Rattle.hg_model.specs.Tables.{same_name, table_named};
ghost use Rattle.hg_model.specs.declared.trees.NewColumn.{NewColumn as NewColumnOf};
ghost use Rattle.hg_bind.specs.Bound.{error_of, indexes_of, names_made, tables_of};

use crate::errors::{BindError, name_taken, too_many};
use hg_catalog::Catalog;
use hg_model::{Count, Name, NewColumn, NewTable};

/// Whether there is a table of that name.
fn is_table(catalog: &Catalog, name: &Name) -> bool
    ensures { result ≡ is_some (table_named (tables_of catalog.now) name.now) }
{
    match catalog.table(name) {
        Some(_number) => true,
        None => false,
    }
}

/// Whether a new column of that name stands in a list.
fn is_new_column(name: &Name, columns: &[NewColumn]) -> bool
    ensures { result ≡ list_any (same_name name.now) (names_made columns.now) }
{
    for column in columns {
        if *name == column.column.name {
            return true;
        }
    }
    false
}

/// The first column's name that has stood before.
fn repeated_column(columns: &[NewColumn]) -> Option<BindError>
    ensures { result ≡ option_map error_of (repeated_name (names_made columns.now)) }
{
    for place in 0..columns.len() {
        let name = &columns[place].column.name;
        if is_new_column(name, &columns[..place]) {
            return Some(name_taken(name));
        }
    }
    None
}

fn count_primary(columns: &[NewColumn]) -> usize
    ensures { result ≡ count_by (λ (c : NewColumnOf). c.primary) columns.now }
{
    let mut count = 0;
    for column in columns {
        if column.primary {
            count += 1;
        }
    }
    count
}

/// How many columns get an index of their own.
fn count_keys(columns: &[NewColumn]) -> usize
    ensures { result ≡ count_by is_key columns.now }
{
    let mut count = 0;
    for column in columns {
        if column.primary || column.unique {
            count += 1;
        }
    }
    count
}

/// The first cause against CREATE TABLE with this name and these columns.
pub fn refuse_columns(name: &Name, columns: &[NewColumn], catalog: &Catalog) -> Option<BindError>
    ensures { result ≡ option_map error_of (create_table_refusal (tables_of catalog.now) (indexes_of catalog.now)
        (record { name = name.now; columns = columns.now })) }
{
    if is_table(catalog, name) {
        return Some(name_taken(name));
    }
    if let Some(error) = repeated_column(columns) {
        return Some(error);
    }
    if count_primary(columns) > 1 {
        return Some(too_many(Count::PrimaryKeys));
    }
    if catalog.table_count() >= 64 {
        return Some(too_many(Count::Tables));
    }
    if catalog.index_count() as usize + count_keys(columns) > 64 {
        return Some(too_many(Count::Indexes));
    }
    None
}

/// The first cause against CREATE TABLE.
pub fn refuse_table(table: &NewTable, catalog: &Catalog) -> Option<BindError>
    ensures { result ≡ option_map error_of (create_table_refusal (tables_of catalog.now) (indexes_of catalog.now) (table_tree table.now)) }
{
    refuse_columns(&table.name, table.columns.as_slice(), catalog)
}

//! Rows that are taken over as they stand: a row of which all columns are named, and a joined row whose values
//! are the outputs.
ghost use Rattle.std.specs.Prelude.{◌≡◌, ◌<◌, true, List, length};
ghost use Rattle.std.specs.Bool.{OnTrue};
ghost use Rattle.hg_expr.specs.Over.{values_over};
ghost use Rattle.hg_model.specs.Evaluation.{value_at, value_of};
ghost use Rattle.hg_model.specs.declared.values.Value.{Value};
ghost use Rattle.hg_value.specs.Looks.{chosen};
ghost use Rattle.hg_exec.specs.Joins.{form_of, output_of};
ghost use Rattle.hg_exec.specs.Standing.{entry};
ghost use Rattle.hg_model.specs.Tables.{fits_columns};

use crate::plan::Statement;
use hg_catalog::Catalog;
use hg_model::Node;
use hg_plan::TableLoop;
use hg_value::Row;

/// Whether these columns are all of a row of so many values, in their order.
fn are_all(columns: &[u8], count: u8) -> bool
    ensures { OnTrue result ((row : List Value) → length row ≡ count → chosen row columns.now ≡ row) }
{
    if columns.len() != count as usize {
        return false;
    }
    for (place, column) in columns.iter().enumerate() {
        if *column as usize != place {
            return false;
        }
    }
    true
}

/// Whether a row of a loop's table may be read into the joined row: its columns are the first there, and all of
/// them are named in their order.
pub(crate) fn reads_whole(catalog: &Catalog, of: &TableLoop, start: u8) -> bool
    requires { of.now.table < length catalog.now.tables }
    ensures first { OnTrue result (start ≡ 0) }
    ensures all { OnTrue result ((row : List Value) → fits_columns (entry catalog.now.tables of.now.table).columns row ≡ true
        → chosen row of.now.columns.items ≡ row) }
{
    if start != 0 {
        return false;
    }
    let columns = catalog.columns(of.table);
    are_all(of.columns.as_slice(), columns.len() as u8)
}

/// Whether a node is a column whose value stands at a place of the joined row.
fn is_column_at(statement: &Statement, node: u8, place: usize) -> bool
    requires { length statement.now.slots.now ≡ length statement.now.nodes.now }
    ensures { OnTrue result ((row : List Value)
        → value_of (values_over statement.now.texts.now statement.now.slots.now statement.now.nodes.now row) node ≡ value_at row place) }
{
    let node = node as usize;
    if node >= statement.nodes.len() {
        return false;
    }
    match &statement.nodes[node] {
        Node::Col(_) => statement.slots[node] as usize == place,
        _ => false,
    }
}

/// Whether the outputs are the values of the joined row, in their order.
pub(crate) fn gives_joined(statement: &Statement, joined: &Row) -> bool
    requires { length statement.now.slots.now ≡ length statement.now.nodes.now }
    ensures { OnTrue result (output_of (form_of statement.now) joined.now ≡ joined.now) }
{
    if statement.outputs.len() != joined.len() as usize {
        return false;
    }
    for (place, output) in statement.outputs.iter().enumerate() {
        if !is_column_at(statement, output.node, place) {
            return false;
        }
    }
    true
}

//! Plain tables, and what the slow evaluator keeps of a SELECT.
use hg_model::{Column, Name, SortKey, Target, Value};
use std::marker::Model;

/// A table in memory: its name, its columns and its rows, each with a value for each column.
#[derive(Drop)]
pub struct SlowTable {
    pub name: Name,
    pub columns: Vec<Column>,
    pub rows: Vec<Vec<Value>>,
}

/// What stays the same for all rows of a SELECT: for each node the place of its value in a row of the
/// cross product, and what each key of ORDER BY orders by.
#[derive(Drop)]
pub struct Places {
    pub positions: Vec<usize>,
    pub targets: Vec<(bool, Target)>,
}

/// A row. Contracts see the list of its values.
#[derive(Drop)]
pub struct SlowRow {
    pub values: Vec<Value>,
}

impl Model for SlowRow {
    ghost use Rattle.std.specs.Prelude.{List};
    ghost use Rattle.hg_model.specs.declared.values.Value.{Value as Cell};

    ghost Value = { List Cell };

    ghost view = { λ r. r.values.items };
}

/// The rows of a group. Contracts see their list.
#[derive(Drop)]
pub struct Group {
    pub rows: Vec<SlowRow>,
}

impl Model for Group {
    ghost use Rattle.std.specs.Prelude.{List};
    ghost use Rattle.hg_model.specs.declared.values.Value.{Value as Cell};

    ghost Value = { List (List Cell) };

    ghost view = { λ g. g.rows.items };
}

/// An output row and its keys of ORDER BY.
#[derive(Drop)]
pub struct SlowPair {
    pub row: Vec<Value>,
    pub keys: Vec<SortKey>,
}

impl Model for SlowPair {
    ghost use Rattle.hg_model.specs.Order.{Pair};

    ghost Value = { Pair };

    ghost view = { λ p. record { row = p.row.items; keys = p.keys.items } };
}

//! What the names in a SELECT stand for.
use crate::names::Name;
use crate::trees::Column;
use crate::values::Value;

/// One column of FROM: the place of its table there, its table's alias, its place in the table, and
/// what the table says of it.
#[derive(Drop)]
pub struct FromColumn {
    pub table: usize,
    pub alias: Name,
    pub place: usize,
    pub column: Column,
}

/// What a key of ORDER BY orders by: an output by its number from 0, or a node.
#[derive(Clone, Copy)]
pub enum Target {
    ToOutput(usize),
    ToNode(usize),
}

/// A row's value for one key of ORDER BY, with the key's direction.
#[derive(Drop)]
pub struct SortKey {
    pub descending: bool,
    pub value: Value,
}

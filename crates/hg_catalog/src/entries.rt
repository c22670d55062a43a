//! What the catalog keeps of a table and of an index.
use arrayvec::ArrayVec;
use hg_base::{Index, Table};
use hg_model::{Column, Name};

/// A table's columns, and where its pages stand.
#[derive(Drop)]
pub struct TableEntry {
    pub columns: ArrayVec<Column, 16>,
    pub pages: Table,
}

/// An index with its name, where it has one, and the number of its table.
#[derive(Drop)]
pub struct IndexEntry {
    pub name: Option<Name>,
    pub table: u8,
    pub index: Index,
}

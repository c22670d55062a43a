//! A command where it lies: in the room that a line is read into, or in a command that is handed over whole.
//! Nothing of it is copied.
ghost use Rattle.std.specs.Prelude.{◌≤◌, length};

use hg_model::{FromTable, Literal, Name, NewColumn, Node, OrderKey, Output};

/// A CREATE TABLE.
#[derive(Clone, Copy)]
pub struct TableAt<'a> {
    pub name: &'a Name,
    pub columns: &'a [NewColumn],
    ghost few_columns: { length columns.now ≤ 16 },
}

/// A CREATE INDEX.
#[derive(Clone, Copy)]
pub struct IndexAt<'a> {
    pub name: &'a Name,
    pub table: &'a Name,
    pub unique: bool,
    pub columns: &'a [Name],
    ghost few_columns: { length columns.now ≤ 16 },
}

/// An INSERT. `ends[i]` is the index behind the last value of row i. No `columns` means all.
#[derive(Clone, Copy)]
pub struct InsertAt<'a> {
    pub table: &'a Name,
    pub columns: &'a [Name],
    pub values: &'a [Literal],
    pub ends: &'a [u16],
    ghost few_columns: { length columns.now ≤ 16 },
    ghost few_values: { length values.now ≤ 1024 },
    ghost few_rows: { length ends.now ≤ 64 },
}

/// An UPDATE.
#[derive(Clone, Copy)]
pub struct UpdateAt<'a> {
    pub table: &'a Name,
    pub sets: &'a [(Name, u8)],
    pub filter: Option<u8>,
    pub nodes: &'a [Node],
    ghost few_sets: { length sets.now ≤ 16 },
    ghost few_nodes: { length nodes.now ≤ 112 },
}

/// A DELETE.
#[derive(Clone, Copy)]
pub struct DeleteAt<'a> {
    pub table: &'a Name,
    pub filter: Option<u8>,
    pub nodes: &'a [Node],
    ghost few_nodes: { length nodes.now ≤ 112 },
}

/// A SELECT. With `star` it has no `outputs`.
#[derive(Clone, Copy)]
pub struct SelectAt<'a> {
    pub distinct: bool,
    pub star: bool,
    pub outputs: &'a [Output],
    pub tables: &'a [FromTable],
    pub filter: Option<u8>,
    pub group: &'a [u8],
    pub having: Option<u8>,
    pub order: &'a [OrderKey],
    pub nodes: &'a [Node],
    ghost few_outputs: { length outputs.now ≤ 16 },
    ghost few_tables: { length tables.now ≤ 4 },
    ghost few_groups: { length group.now ≤ 16 },
    ghost few_keys: { length order.now ≤ 8 },
    ghost few_nodes: { length nodes.now ≤ 112 },
}

/// A command.
#[derive(Clone, Copy)]
pub enum CommandAt<'a> {
    CreateTable(TableAt<'a>),
    CreateIndex(IndexAt<'a>),
    Insert(InsertAt<'a>),
    Update(UpdateAt<'a>),
    Delete(DeleteAt<'a>),
    Vacuum(&'a Name),
    Select(SelectAt<'a>),
    OpenCursor(&'a Name, SelectAt<'a>),
    Start(&'a Name, u32),
    Work(u32),
    Fetch(&'a Name, u32),
    Close(&'a Name),
    Pool(u32),
    Mpl(u32),
    ShowMemory,
}

/// A command with the texts of its line, one after the other with quotes undoubled.
#[derive(Clone, Copy)]
pub struct Asked<'a> {
    pub command: CommandAt<'a>,
    pub texts: &'a str,
    ghost short_texts: { length texts.now ≤ 4096 },
}

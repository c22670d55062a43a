//! The catalog, as callers see it.
use crate::entries::{IndexEntry, TableEntry};
use arrayvec::ArrayVec;
use hg_base::{Index, NoMemory, Table};
use hg_model::{Column, Name};
use indexmap::IndexMap;
use std::alloc::Global;
use std::marker::Model;

/// How many tables there may be, and how many indexes.
const MOST: usize = 64;

/// The tables and the indexes, each numbered from 0 in order of creation.
#[derive(Drop)]
pub struct Catalog {
    tables: IndexMap<Name, TableEntry>,
    indexes: Vec<IndexEntry>,
}

impl Model for Catalog {
    ghost use Rattle.std.specs.Prelude.{◌≤◌, length, vec_capacity, map, ◌+◌};
    ghost use Rattle.indexmap.specs.IndexMap.{spare};
    ghost use Rattle.hg_catalog.specs.Contents.{Contents, IsSound, table_of_entry, index_of_entry};

    ghost Value = { Contents };

    ghost view = { λ c. record { tables = map table_of_entry c.tables.entries; indexes = map index_of_entry c.indexes.items } };

    ghost invariant = { λ c. IsSound (record { tables = map table_of_entry c.tables.entries; indexes = map index_of_entry c.indexes.items })
        × (64 ≤ length c.tables.entries + spare c.tables) × (64 ≤ vec_capacity c.indexes) };
}

impl Catalog {
    ghost use Rattle.std.specs.Prelude.{◌≡◌, ◌<◌, ◌≤◌, [], ◌∷◌, ◌++◌, Some, None, false, IfOk, IfSome, length, option_map, slice_get};
    ghost use Rattle.std.specs.Option.{option_copied};
    ghost use Rattle.hg_catalog.specs.Contents.{Contents, IsSound, CatalogTable, CatalogIndex, IsNewTable, IsNewIndex, has_index_name, table_number, with_pages, with_index};

    /// A catalog without tables. All the memory that it will take is taken here, and the only error is
    /// want of it.
    pub fn new(alloc: Global) -> Result<Catalog, NoMemory>
        ensures { IfOk result (λ c. c ≡ record { tables = []; indexes = [] }) }
    {
        let Ok(tables) = IndexMap::with_capacity(alloc, MOST) else {
            return Err(NoMemory);
        };
        let Ok(indexes) = Vec::with_capacity(alloc, MOST) else {
            return Err(NoMemory);
        };
        Ok(Catalog { tables, indexes })
    }

    /// Puts a table without pages behind the others.
    pub fn add_table(&mut self, name: Name, columns: ArrayVec<Column, 16>)
        requires few { length self.old.tables < 64 }
        requires free { table_number self.old name ≡ None }
        requires columns { IsNewTable columns.items }
        ensures change { self.new ≡ record self.old {
          tables = self.old.tables
              ++ record { name = name; columns = columns.items; pages = record { first = None; last = None } } ∷ [];
        } }
        ensures sound { IsSound self.new }
    {
        let pages = Table {
            first: None,
            last: None,
        };
        match self.tables.insert(name, TableEntry { columns, pages }) {
            Ok(_) => {}
            Err(_) => unreachable!(),
        }
    }

    /// Puts an index behind the others. No index may have its name, where it has one.
    pub fn add_index(&mut self, name: Option<Name>, table: u8, index: Index)
        requires few { length self.old.indexes < 64 }
        requires free { has_index_name name self.old.indexes ≡ false }
        requires fits { IsNewIndex self.old table index.columns.items }
        ensures change { self.new ≡ record self.old {
          indexes = self.old.indexes
              ++ record { name = name; table = table; index = index } ∷ [];
        } }
        ensures sound { IsSound self.new }
    {
        self.indexes
            .push_reserved(IndexEntry { name, table, index });
    }

    /// The number of the table of that name.
    pub fn table(&self, name: &Name) -> Option<u8>
        ensures value { result ≡ table_number self.now name.now }
        ensures sound { IsSound self.now }
    {
        match self.tables.get_index_of(name) {
            Some(number) => Some(number as u8),
            None => None,
        }
    }

    /// How many tables there are.
    pub fn table_count(&self) -> u8
        ensures value { result ≡ length self.now.tables }
        ensures sound { IsSound self.now }
    {
        self.tables.len() as u8
    }

    /// The columns of a table.
    pub fn columns(&self, t: u8) -> &ArrayVec<Column, 16>
        requires { t < length self.now.tables }
        ensures value { option_map (λ (x : CatalogTable). x.columns) (slice_get self.now.tables t) ≡ Some result.now.items }
        ensures fits { IsNewTable result.now.items }
    {
        &self.tables[t as usize].columns
    }

    pub fn table_name(&self, t: u8) -> &Name
        requires { t < length self.now.tables }
        ensures { option_map (λ (x : CatalogTable). x.name) (slice_get self.now.tables t) ≡ Some result.now }
    {
        match self.tables.get_index(t as usize) {
            Some((name, _)) => name,
            None => unreachable!(),
        }
    }

    /// Where the pages of a table stand.
    pub fn table_data(&self, t: u8) -> Table
        requires { t < length self.now.tables }
        ensures { option_map (λ (x : CatalogTable). x.pages) (slice_get self.now.tables t) ≡ Some result }
    {
        self.tables[t as usize].pages
    }

    pub fn set_table_data(&mut self, t: u8, d: Table)
        requires { t < length self.old.tables }
        ensures change { self.new ≡ record self.old { tables = with_pages self.old.tables t d } }
        ensures count { length self.new.tables ≡ length self.old.tables }
        ensures sound { IsSound self.new }
    {
        self.tables[t as usize].pages = d;
    }

    /// How many indexes there are.
    pub fn index_count(&self) -> u8
        ensures value { result ≡ length self.now.indexes }
        ensures sound { IsSound self.now }
    {
        self.indexes.len() as u8
    }

    /// The number of the table of an index.
    pub fn index_table(&self, i: u8) -> u8
        requires { i < length self.now.indexes }
        ensures { option_map (λ (x : CatalogIndex). x.table) (slice_get self.now.indexes i) ≡ Some result }
    {
        self.indexes[i as usize].table
    }

    /// The name of an index; none where a key of CREATE TABLE made it.
    pub fn index_name(&self, i: u8) -> Option<&Name>
        requires { i < length self.now.indexes }
        ensures { option_map (λ (x : CatalogIndex). x.name) (slice_get self.now.indexes i) ≡ Some (option_copied result) }
    {
        self.indexes[i as usize].name.as_ref()
    }

    /// The tree, the columns and the kind of an index.
    pub fn index(&self, i: u8) -> Index
        requires { i < length self.now.indexes }
        ensures { option_map (λ (x : CatalogIndex). x.index) (slice_get self.now.indexes i) ≡ Some result }
    {
        let index = &self.indexes[i as usize].index;
        let mut columns = ArrayVec::new();
        match columns.try_extend_from_slice(index.columns.as_slice()) {
            Ok(()) => {}
            Err(_) => unreachable!(),
        }
        Index {
            tree: index.tree,
            columns,
            unique: index.unique,
        }
    }

    /// Says anew where the tree of an index stands.
    pub fn set_index(&mut self, i: u8, x: Index)
        requires there { i < length self.old.indexes }
        requires same { IfSome (slice_get self.old.indexes i) (λ (old : CatalogIndex).
            (x.columns ≡ old.index.columns) × (x.unique ≡ old.index.unique)) }
        ensures change { self.new ≡ record self.old { indexes = with_index self.old.indexes i x } }
        ensures count { length self.new.indexes ≡ length self.old.indexes }
        ensures sound { IsSound self.new }
    {
        self.indexes[i as usize].index = x;
    }
}

//! INSERT.
ghost use Rattle.std.specs.Prelude.{◌≡◌, ◌<◌, ℕ, [], List, length, IsTrue, IfOk, OnOk, IfErr, OnErr, MatchResult, slice_get, Some};
ghost use Rattle.std.specs.List.{list_all};
ghost use Rattle.hg_base.specs.Causes.{HasCause, fault_of};
ghost use Rattle.hg_base.specs.Space.{NoPins};
ghost use Rattle.hg_catalog.specs.Contents.{CatalogTable, IsSound};
ghost use Rattle.hg_model.specs.Value.{is_printable};
ghost use Rattle.hg_table.specs.Marks.{IsDrawn, Commits};
ghost use Rattle.hg_base.specs.declared.Table.{Table as TableOf};
ghost use Rattle.hg_table.specs.Chains.{IsChain};
ghost use Rattle.hg_dml.specs.Fitting.{IsSmallType, AreSmall, AreReady};
ghost use Rattle.hg_dml.specs.Putting.{Puts, PutsSome};
ghost use Rattle.hg_dml.specs.Steps.{IsRefusal};
ghost use Rattle.hg_dml.specs.Tuples.{sources_of, rows_from};
ghost use Rattle.hg_dml.specs.Inserting.{StandsAt, MovesEnds, PutsAll, OnRefused, OnFault, PutsPart, IsCause};

use crate::causes::check_rows;
use crate::putting::put_rows;
use crate::tuples::{Sources, list_sources};
use hg_base::{PageFault, Pages, Stamp};
use hg_catalog::Catalog;
use hg_model::{Column, Literal, SqlType};
use hg_table::Stamps;
use hg_value::{Row, codings_tell};

/// Why a change of a table was not made.
#[derive(Clone, Copy)]
pub enum ChangeError {
    /// A cause against its rows: the code, and the number of the column that it names.
    Refused { code: u8, column: Option<u8> },
    /// A fault of the space.
    Fault(PageFault),
}

/// The length of a type is a byte. Nothing is computed here.
fn know_type(ty: SqlType)
    ensures { IsSmallType ty }
{
    match ty {
        SqlType::Integer => {}
        SqlType::Varchar(_) => {}
    }
}

/// So it is with all columns.
fn know_types(columns: &[Column])
    ensures { AreSmall columns.now }
{
    for column in columns {
        know_type(column.ty);
    }
}

/// Looks for the first cause against the rows of an INSERT, and puts the places of the columns' values
/// into a list.
fn check(
    table: u8,
    targets: &[u8],
    values: &[Literal],
    ends: &[u16],
    texts: &[u8],
    catalog: &Catalog,
    sources: &mut Sources,
) -> Result<(), ChangeError>
    requires there { table < length catalog.now.tables }
    requires printable { IsTrue (list_all is_printable texts.now) }
    requires empty { sources.old.items ≡ [] }
    ensures ok { OnOk result ((t : CatalogTable) → slice_get catalog.now.tables table ≡ Some t
        → AreReady t.columns (rows_from texts.now sources.new.items values.now ends.now)) }
    ensures sources { (t : CatalogTable) → slice_get catalog.now.tables table ≡ Some t
        → sources.new.items ≡ sources_of targets.now (length t.columns) }
    ensures err { IfErr result (λ e. (t : CatalogTable) → slice_get catalog.now.tables table ≡ Some t
        → IsRefusal t.columns (rows_from texts.now sources.new.items values.now ends.now) e) }
{
    let columns = catalog.columns(table).as_slice();
    know_types(columns);
    codings_tell();
    list_sources(targets, columns.len(), sources);
    match check_rows(columns, sources.as_slice(), values, ends, texts) {
        Ok(()) => {}
        Err(error) => return Err(error),
    }
    Ok(())
}

/// Puts the rows of an INSERT into a table of a catalog, under a stamp that is not committed.
fn put<S: Pages>(
    table: u8,
    sources: &[Option<usize>],
    values: &[Literal],
    ends: &[u16],
    texts: &[u8],
    catalog: &mut Catalog,
    stamp: Stamp,
    space: &mut S,
    row: &mut Row,
) -> Result<(), PageFault>
    requires there { table < length catalog.old.tables }
    requires stands { StandsAt (S.state space.old) catalog.old table }
    requires ready { (t : CatalogTable) → slice_get catalog.old.tables table ≡ Some t
        → AreReady t.columns (rows_from texts.now sources.now values.now ends.now) }
    requires out { NoPins (S.state space.old) }
    ensures moves { (after : TableOf) × MovesEnds catalog.old catalog.new table after
        × ((t : CatalogTable) → slice_get catalog.old.tables table ≡ Some t → (pages : List ℕ) → IsChain (S.state space.old) t.pages pages
        → MatchResult result
        (λ u. Puts (S.state space.old) (S.state space.new) t.pages after pages stamp.0 t.columns (rows_from texts.now sources.now values.now ends.now))
        (λ f. PutsSome (S.state space.old) (S.state space.new) t.pages after pages stamp.0 t.columns (rows_from texts.now sources.now values.now ends.now) f)) }
    ensures cause { HasCause (S.state space.old) (S.state space.new) (fault_of result) }
    ensures sound { IsSound catalog.new }
{
    let mut data = catalog.table_data(table);
    let result = put_rows(space, &mut data, row, stamp, sources, values, ends, texts);
    catalog.set_table_data(table, data);
    result
}

/// Puts the rows of an INSERT into a table, all of them under a stamp that was drawn for it, and commits
/// the stamp. `targets` has the numbers of the columns for which each row has values, `values` all
/// values, and `ends` for each row the place behind its last one; `row` is room for one of them. The
/// table has no index.
///
/// Answered is how many rows there are. What is Refused touched no page; a Fault leaves some of the rows
/// in the table, under a stamp that is not committed.
pub fn insert_rows<S: Pages>(
    table: u8,
    targets: &[u8],
    values: &[Literal],
    ends: &[u16],
    texts: &[u8],
    catalog: &mut Catalog,
    stamps: &mut Stamps,
    stamp: Stamp,
    space: &mut S,
    row: &mut Row,
) -> Result<u64, ChangeError>
    requires there { table < length catalog.old.tables }
    requires stands { StandsAt (S.state space.old) catalog.old table }
    requires printable { IsTrue (list_all is_printable texts.now) }
    requires drawn { IsDrawn stamps.old stamp.0 }
    requires out { NoPins (S.state space.old) }
    ensures count { IfOk result (λ n. n ≡ length ends.now) }
    ensures ok { IfOk result (λ n. (t : CatalogTable) → slice_get catalog.old.tables table ≡ Some t
        → PutsAll (S.state space.old) (S.state space.new) catalog.old catalog.new table stamp.0 texts.now targets.now values.now ends.now t) }
    ensures committed { IfOk result (λ n. Commits stamps.old stamps.new stamp.0) }
    ensures refused { IfErr result (OnRefused (λ code column. (t : CatalogTable) → slice_get catalog.old.tables table ≡ Some t
        → IsCause texts.now targets.now values.now ends.now code column t)) }
    ensures untouched { IfErr result (OnRefused (λ code column. (space.new ≡ space.old) × (catalog.new ≡ catalog.old))) }
    ensures fault { IfErr result (OnFault (λ f. (t : CatalogTable) → slice_get catalog.old.tables table ≡ Some t
        → PutsPart (S.state space.old) (S.state space.new) catalog.old catalog.new table stamp.0 texts.now targets.now values.now ends.now f t)) }
    ensures uncommitted { OnErr result (stamps.new ≡ stamps.old) }
    ensures sound { IsSound catalog.new }
{
    let _ = catalog.table_count();
    let mut sources = Sources::new();
    match check(table, targets, values, ends, texts, catalog, &mut sources) {
        Ok(()) => {}
        Err(error) => return Err(error),
    }
    match put(
        table,
        sources.as_slice(),
        values,
        ends,
        texts,
        catalog,
        stamp,
        space,
        row,
    ) {
        Ok(()) => {
            stamps.commit(stamp);
            Ok(ends.len() as u64)
        }
        Err(fault) => Err(ChangeError::Fault(fault)),
    }
}

//! INSERT, UPDATE and DELETE of bound statements.
ghost use Rattle.std.specs.Prelude.{◌≡◌, ◌<◌, ◌≤◌, ◌-◌, ◌^◌, ℕ, List, length, IsTrue, IfOk, IfErr, OnErr, slice_get, Some};
ghost use Rattle.std.specs.List.{list_all};
ghost use Rattle.hg_base.specs.Space.{NoPins};
ghost use Rattle.hg_base.specs.declared.File.TheVariants.{Main, Temp};
ghost use Rattle.hg_bind.specs.Bound.{numbers_of, tables_of, IsPlacedInsert, IsPlacedUpdate, IsPlacedDelete};
ghost use Rattle.hg_catalog.specs.Contents.{CatalogTable, IsSound};
ghost use Rattle.hg_model.specs.Statements.{insert_tree, update_tree, delete_tree};
ghost use Rattle.hg_model.specs.Value.{is_printable};
ghost use Rattle.hg_model.specs.Width.{IsSound as AreSound};
ghost use Rattle.hg_table.specs.Chains.{IsChain};
ghost use Rattle.hg_table.specs.Marks.{committed, IsDrawn, Commits};
ghost use Rattle.hg_dml.specs.Bound.{insert_of, update_of, delete_of, Changes, Removes, IsAgainst, IsRefused};
ghost use Rattle.hg_dml.specs.Deleting.{DeletesSome};
ghost use Rattle.hg_dml.specs.Filtering.{row_passes};
ghost use Rattle.hg_dml.specs.Inserting.{StandsAt, OnRefused, OnFault, PutsPart};
ghost use Rattle.hg_dml.specs.Updating.{UpdatesTableSome};

use crate::deletion::delete_rows;
use crate::filter::{Filter, list_numbers};
use crate::insertion::{ChangeError, insert_rows};
use crate::updating::{ChangeRoom, Sets, update_rows};
use arrayvec::ArrayVec;
use hg_base::{Pages, Stamp};
use hg_bind::{BoundDelete, BoundInsert, BoundUpdate};
use hg_catalog::Catalog;
use hg_table::Stamps;
use hg_value::Row;

/// INSERT: its rows join the table under a stamp that was drawn for it, and the stamp is committed. The answer is
/// how many they are. The table has no index. Room for a row is made here; [`insert_rows`] is lent it.
pub fn insert<S: Pages>(
    b: &BoundInsert,
    texts: &str,
    catalog: &mut Catalog,
    stamps: &mut Stamps,
    stamp: Stamp,
    space: &mut S,
) -> Result<u32, ChangeError>
    requires bound { IsPlacedInsert (tables_of catalog.old) (insert_tree b.now.insert) b.now.table b.now.targets.items }
    requires stands { StandsAt (S.state space.old) catalog.old b.now.table }
    requires texts { IsTrue (list_all is_printable texts.now) }
    requires drawn { IsDrawn stamps.old stamp.0 }
    requires out { NoPins (S.state space.old) }
    ensures count { IfOk result (λ n. n ≡ length b.now.insert.ends.items) }
    ensures ok { IfOk result (λ n. (t : CatalogTable) → slice_get catalog.old.tables b.now.table ≡ Some t → (pages : List ℕ) → IsChain (S.state space.old) t.pages pages
        → Changes (S.state space.old) (S.state space.new) catalog.old catalog.new b.now.table (insert_of texts.now b.now) t (committed stamps.old) stamp.0 pages n) }
    ensures committed { IfOk result (λ n. Commits stamps.old stamps.new stamp.0) }
    ensures refused { IfErr result (OnRefused (λ code column. (t : CatalogTable) → slice_get catalog.old.tables b.now.table ≡ Some t
        → IsAgainst (insert_of texts.now b.now) t code column)) }
    ensures untouched { IfErr result (OnRefused (λ code column. (space.new ≡ space.old) × (catalog.new ≡ catalog.old))) }
    ensures fault { IfErr result (OnFault (λ f. (t : CatalogTable) → slice_get catalog.old.tables b.now.table ≡ Some t
        → PutsPart (S.state space.old) (S.state space.new) catalog.old catalog.new b.now.table stamp.0 texts.now b.now.targets.items b.now.insert.values.items b.now.insert.ends.items f t)) }
    ensures uncommitted { OnErr result (stamps.new ≡ stamps.old) }
    ensures sound { IsSound catalog.new }
{
    let mut row = Row::new();
    match insert_rows(
        b.table,
        b.targets.as_slice(),
        b.insert.values.as_slice(),
        b.insert.ends.as_slice(),
        texts.as_bytes(),
        catalog,
        stamps,
        stamp,
        space,
        &mut row,
    ) {
        Ok(count) => Ok(count as u32),
        Err(error) => Err(error),
    }
}

/// UPDATE: the rows that pass its condition are changed under a stamp that was drawn for it, and the stamp is
/// committed. The answer is how many they are. The table has no index. Room for rows is made here;
/// [`update_rows`] is lent it.
pub fn update<S: Pages>(
    b: &BoundUpdate,
    texts: &str,
    catalog: &mut Catalog,
    stamps: &mut Stamps,
    stamp: Stamp,
    space: &mut S,
) -> Result<u32, ChangeError>
    requires bound { IsPlacedUpdate (tables_of catalog.old) (update_tree b.now.update) b.now.table b.now.targets.items b.now.places.items }
    requires stands { StandsAt (S.state space.old) catalog.old b.now.table }
    requires texts { AreSound texts.now b.now.update.nodes.items }
    requires drawn { IsDrawn stamps.old stamp.0 }
    requires few_pages { (S.state space.old).limit Main < 2 ^ 25 }
    requires numbers { (S.state space.old).limit Temp ≤ 2 ^ 32 }
    requires out { NoPins (S.state space.old) }
    ensures ok { IfOk result (λ n. (t : CatalogTable) → slice_get catalog.old.tables b.now.table ≡ Some t → (pages : List ℕ) → IsChain (S.state space.old) t.pages pages
        → Changes (S.state space.old) (S.state space.new) catalog.old catalog.new b.now.table (update_of texts.now b.now) t (committed stamps.old) stamp.0 pages n) }
    ensures committed { IfOk result (λ n. Commits stamps.old stamps.new stamp.0) }
    ensures refused { IfErr result (OnRefused (λ code column. (t : CatalogTable) → slice_get catalog.old.tables b.now.table ≡ Some t → (pages : List ℕ) → IsChain (S.state space.old) t.pages pages
        → IsRefused (S.state space.old) (S.state space.new) (update_of texts.now b.now) t (committed stamps.old) stamp.0 pages code column)) }
    ensures unmoved { IfErr result (OnRefused (λ code column. catalog.new ≡ catalog.old)) }
    ensures fault { IfErr result (OnFault (λ f. (t : CatalogTable) → slice_get catalog.old.tables b.now.table ≡ Some t → (pages : List ℕ) → IsChain (S.state space.old) t.pages pages
        → UpdatesTableSome (S.state space.old) (S.state space.new) catalog.old catalog.new b.now.table pages (committed stamps.old) stamp.0
        (row_passes texts.now (numbers_of b.now.places.items) b.now.update.nodes.items b.now.update.filter) f t)) }
    ensures uncommitted { OnErr result (stamps.new ≡ stamps.old) }
    ensures sound { IsSound catalog.new }
{
    let mut columns = ArrayVec::new();
    list_numbers(b.places.as_slice(), &mut columns);
    let filter = Filter {
        condition: b.update.filter,
        nodes: b.update.nodes.as_slice(),
        columns: columns.as_slice(),
        texts,
    };
    let sets = Sets {
        targets: b.targets.as_slice(),
        items: b.update.sets.as_slice(),
    };
    let mut room = ChangeRoom::new();
    match update_rows(
        b.table, &filter, &sets, catalog, stamps, stamp, space, &mut room,
    ) {
        Ok(count) => Ok(count as u32),
        Err(error) => Err(error),
    }
}

/// DELETE: the rows that pass its condition leave the table under a stamp that was drawn for it, and the stamp is
/// committed. The answer is how many they are. The table has no index. Room for a row is made here;
/// [`delete_rows`] is lent it.
pub fn delete<S: Pages>(
    b: &BoundDelete,
    texts: &str,
    catalog: &mut Catalog,
    stamps: &mut Stamps,
    stamp: Stamp,
    space: &mut S,
) -> Result<u32, ChangeError>
    requires bound { IsPlacedDelete (tables_of catalog.old) (delete_tree b.now.delete) b.now.table b.now.places.items }
    requires stands { StandsAt (S.state space.old) catalog.old b.now.table }
    requires texts { AreSound texts.now b.now.delete.nodes.items }
    requires drawn { IsDrawn stamps.old stamp.0 }
    requires few_pages { (S.state space.old).limit Main < 2 ^ 25 }
    requires out { NoPins (S.state space.old) }
    ensures ok { IfOk result (λ n. (t : CatalogTable) → slice_get catalog.old.tables b.now.table ≡ Some t → (pages : List ℕ) → IsChain (S.state space.old) t.pages pages
        → Removes (S.state space.old) (S.state space.new) (delete_of texts.now b.now) t (committed stamps.old) stamp.0 pages n) }
    ensures committed { IfOk result (λ n. Commits stamps.old stamps.new stamp.0) }
    ensures never_refused { IfErr result (OnRefused (λ code column. ⊥)) }
    ensures fault { IfErr result (OnFault (λ f. (t : CatalogTable) → slice_get catalog.old.tables b.now.table ≡ Some t → (pages : List ℕ) → IsChain (S.state space.old) t.pages pages
        → DeletesSome (S.state space.old) (S.state space.new) t.pages pages t.columns (committed stamps.old) (stamp.0 - 1) stamp.0 f)) }
    ensures uncommitted { OnErr result (stamps.new ≡ stamps.old) }
    ensures unmoved { catalog.new ≡ catalog.old }
{
    let mut columns = ArrayVec::new();
    list_numbers(b.places.as_slice(), &mut columns);
    let filter = Filter {
        condition: b.delete.filter,
        nodes: b.delete.nodes.as_slice(),
        columns: columns.as_slice(),
        texts,
    };
    let mut row = Row::new();
    match delete_rows(b.table, &filter, catalog, stamps, stamp, space, &mut row) {
        Ok(count) => Ok(count as u32),
        Err(fault) => Err(ChangeError::Fault(fault)),
    }
}

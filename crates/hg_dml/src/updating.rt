//! UPDATE.
ghost use Rattle.std.specs.Prelude.{◌≡◌, ◌<◌, ◌≤◌, ◌*◌, ◌-◌, ◌^◌, ℕ, List, length, IfOk, IfErr, OnErr, slice_get, Some};
ghost use Rattle.hg_base.specs.Space.{NoPins, taken_in};
ghost use Rattle.hg_base.specs.declared.File.TheVariants.{Main, Temp};
ghost use Rattle.hg_base.specs.declared.Table.{Table as TableOf};
ghost use Rattle.hg_catalog.specs.Contents.{CatalogTable, IsSound};
ghost use Rattle.hg_table.specs.Chains.{IsChain};
ghost use Rattle.hg_table.specs.Marks.{committed, IsDrawn, Commits};
ghost use Rattle.hg_dml.specs.Filtering.{IsFilter, row_passes};
ghost use Rattle.hg_run.specs.Runs.{no_run};
ghost use Rattle.hg_dml.specs.Inserting.{StandsAt, StandsOver, OnRefused, OnFault};
ghost use Rattle.hg_dml.specs.Making.{goes_by, made_by, IsChange};
ghost use Rattle.hg_dml.specs.UpdateSteps.{UpdatedBeside, RefusedBeside, SomeBeside};
ghost use Rattle.hg_dml.specs.Updating.{row_set, Updates, UpdatesTable, UpdateIsRefused, UpdatesSome, UpdatesTableSome};

use crate::changing::change_along;
use crate::ending::end_run;
use crate::filter::Filter;
use crate::insertion::ChangeError;
use crate::making::{Causes, Change, SetNodes, list_nodes};
use crate::storing::store_rows;
use arrayvec::ArrayVec;
use hg_base::{Pages, Stamp, Table};
use hg_catalog::Catalog;
use hg_model::Name;
use hg_run::Run;
use hg_table::Stamps;
use hg_value::{Row, codings_tell};

/// What an UPDATE sets: its items, each with the number of the node of its right side among the nodes of the
/// statement's [`Filter`], and for each item the number of its column.
#[derive(Clone, Copy)]
pub struct Sets<'a> {
    pub targets: &'a [u8],
    pub items: &'a [(Name, u8)],
}

/// Room for what a change has at hand: a row that is read or written, the row that is made of it, and a record
/// of a run.
#[derive(Drop)]
pub struct ChangeRoom {
    pub row: Row,
    pub made: Row,
    pub record: ArrayVec<u8, 4000>,
}

impl ChangeRoom {
    pub fn new() -> ChangeRoom {
        ChangeRoom {
            row: Row::new(),
            made: Row::new(),
            record: ArrayVec::new(),
        }
    }
}

/// Walks along the table and puts the rows that are made aside; where nothing stands against them, they are
/// then put into the table.
fn change_aside<S: Pages>(
    space: &mut S,
    data: &mut Table,
    change: &Change<'_>,
    stamps: &Stamps,
    stamp: Stamp,
    room: &mut ChangeRoom,
    run: &mut Run,
) -> Result<u64, ChangeError>
    requires change { IsChange change.now }
    requires some { 1 ≤ length change.now.columns.now }
    requires out { NoPins (S.state space.old) }
    requires numbers { (S.state space.old).limit Temp ≤ 2 ^ 32 }
    requires stamp { 0 < stamp.0 }
    requires whole { StandsOver (S.state space.old) data.old change.now.columns.now }
    requires run { run.old ≡ no_run }
    ensures ok { IfOk result (UpdatedBeside (S.state space.old) (S.state space.new) data.old data.new change.now.columns.now (committed stamps.now) (stamp.0 - 1) stamp.0
        (goes_by change.now) (made_by change.now) run.new) }
    ensures few { IfOk result (λ n. n ≤ taken_in (S.state space.old) Main * 128) }
    ensures refused { IfErr result (OnRefused (RefusedBeside (S.state space.old) (S.state space.new) data.old change.now.columns.now (committed stamps.now) (stamp.0 - 1) stamp.0
        (goes_by change.now) (made_by change.now) run.new)) }
    ensures fault { IfErr result (OnFault (SomeBeside (S.state space.old) (S.state space.new) data.old data.new change.now.columns.now (committed stamps.now) (stamp.0 - 1) stamp.0
        (goes_by change.now) run.new)) }
    ensures pins { NoPins (S.state space.new) }
{
    codings_tell();
    let mut causes = Causes::new();
    let count = match change_along(space, *data, change, stamps, stamp, room, run, &mut causes) {
        Ok(count) => count,
        Err(fault) => return Err(ChangeError::Fault(fault)),
    };
    match causes.first() {
        Ok(()) => {}
        Err(error) => return Err(error),
    }
    match store_rows(space, data, change.columns, stamp, room, run, count) {
        Ok(()) => Ok(count),
        Err(fault) => Err(ChangeError::Fault(fault)),
    }
}

/// The same, and no temporary page is left.
fn change_rows<S: Pages>(
    space: &mut S,
    data: &mut Table,
    change: &Change<'_>,
    stamps: &Stamps,
    stamp: Stamp,
    room: &mut ChangeRoom,
) -> Result<u64, ChangeError>
    requires change { IsChange change.now }
    requires some { 1 ≤ length change.now.columns.now }
    requires out { NoPins (S.state space.old) }
    requires numbers { (S.state space.old).limit Temp ≤ 2 ^ 32 }
    requires stamp { 0 < stamp.0 }
    requires whole { StandsOver (S.state space.old) data.old change.now.columns.now }
    ensures ok { IfOk result (λ n. (pages : List ℕ) → IsChain (S.state space.old) data.old pages
        → Updates (S.state space.old) (S.state space.new) data.old data.new pages change.now.columns.now (committed stamps.now) (stamp.0 - 1) stamp.0
        (goes_by change.now) (made_by change.now) n) }
    ensures few { IfOk result (λ n. n ≤ taken_in (S.state space.old) Main * 128) }
    ensures refused { IfErr result (OnRefused (λ code column. (pages : List ℕ) → IsChain (S.state space.old) data.old pages
        → UpdateIsRefused (S.state space.old) (S.state space.new) data.old pages change.now.columns.now (committed stamps.now) (stamp.0 - 1) stamp.0
        (goes_by change.now) (made_by change.now) code column)) }
    ensures fault { IfErr result (OnFault (λ f. (pages : List ℕ) → IsChain (S.state space.old) data.old pages
        → UpdatesSome (S.state space.old) (S.state space.new) data.old data.new pages change.now.columns.now (committed stamps.now) (stamp.0 - 1) stamp.0
        (goes_by change.now) f)) }
{
    let mut run = Run::new();
    let result = change_aside(space, data, change, stamps, stamp, room, &mut run);
    end_run(space, run);
    result
}

/// The change of the rows of a table of a catalog, under a stamp that is not committed.
fn change_table<S: Pages>(
    table: u8,
    filter: &Filter<'_>,
    sets: &Sets<'_>,
    catalog: &Catalog,
    data: &mut Table,
    stamps: &Stamps,
    stamp: Stamp,
    space: &mut S,
    room: &mut ChangeRoom,
) -> Result<u64, ChangeError>
    requires there { table < length catalog.now.tables }
    requires stands { StandsAt (S.state space.old) catalog.now table }
    requires data { (t : CatalogTable) → slice_get catalog.now.tables table ≡ Some t → data.old ≡ t.pages }
    requires filter { IsFilter filter.now.texts.now filter.now.columns.now filter.now.nodes.now }
    requires stamp { 0 < stamp.0 }
    requires numbers { (S.state space.old).limit Temp ≤ 2 ^ 32 }
    requires out { NoPins (S.state space.old) }
    ensures ok { IfOk result (λ n. (t : CatalogTable) → slice_get catalog.now.tables table ≡ Some t → (pages : List ℕ) → IsChain (S.state space.old) t.pages pages
        → Updates (S.state space.old) (S.state space.new) t.pages data.new pages t.columns (committed stamps.now) (stamp.0 - 1) stamp.0
        (row_passes filter.now.texts.now filter.now.columns.now filter.now.nodes.now filter.now.condition)
        (row_set filter.now.texts.now filter.now.columns.now filter.now.nodes.now sets.now.targets.now sets.now.items.now) n) }
    ensures few { IfOk result (λ n. n ≤ taken_in (S.state space.old) Main * 128) }
    ensures refused { IfErr result (OnRefused (λ code column. (t : CatalogTable) → slice_get catalog.now.tables table ≡ Some t → (pages : List ℕ) → IsChain (S.state space.old) t.pages pages
        → UpdateIsRefused (S.state space.old) (S.state space.new) t.pages pages t.columns (committed stamps.now) (stamp.0 - 1) stamp.0
        (row_passes filter.now.texts.now filter.now.columns.now filter.now.nodes.now filter.now.condition)
        (row_set filter.now.texts.now filter.now.columns.now filter.now.nodes.now sets.now.targets.now sets.now.items.now) code column)) }
    ensures fault { IfErr result (OnFault (λ f. (t : CatalogTable) → slice_get catalog.now.tables table ≡ Some t → (pages : List ℕ) → IsChain (S.state space.old) t.pages pages
        → UpdatesSome (S.state space.old) (S.state space.new) t.pages data.new pages t.columns (committed stamps.now) (stamp.0 - 1) stamp.0
        (row_passes filter.now.texts.now filter.now.columns.now filter.now.nodes.now filter.now.condition) f)) }
{
    let columns = catalog.columns(table).as_slice();
    let mut nodes = SetNodes::new();
    list_nodes(sets, columns.len(), &mut nodes);
    let change = Change {
        columns,
        filter: *filter,
        nodes: nodes.as_slice(),
    };
    change_rows(space, data, &change, stamps, stamp, room)
}

/// Changes the rows of a table that pass a condition, all of them under a stamp that was drawn for it, and
/// commits the stamp. What it looks at is what the last stamp before this one sees. The table has no index.
///
/// Answered is how many rows were changed. What is Refused put no row, and a Fault leaves some of the new rows
/// in the table, under a stamp that is not committed, which nobody sees; neither leaves a temporary page.
pub fn update_rows<S: Pages>(
    table: u8,
    filter: &Filter<'_>,
    sets: &Sets<'_>,
    catalog: &mut Catalog,
    stamps: &mut Stamps,
    stamp: Stamp,
    space: &mut S,
    room: &mut ChangeRoom,
) -> Result<u64, ChangeError>
    requires there { table < length catalog.old.tables }
    requires stands { StandsAt (S.state space.old) catalog.old table }
    requires filter { IsFilter filter.now.texts.now filter.now.columns.now filter.now.nodes.now }
    requires drawn { IsDrawn stamps.old stamp.0 }
    requires numbers { (S.state space.old).limit Temp ≤ 2 ^ 32 }
    requires out { NoPins (S.state space.old) }
    ensures ok { IfOk result (λ n. (t : CatalogTable) → slice_get catalog.old.tables table ≡ Some t → (pages : List ℕ) → IsChain (S.state space.old) t.pages pages
        → UpdatesTable (S.state space.old) (S.state space.new) catalog.old catalog.new table pages (committed stamps.old) stamp.0
        (row_passes filter.now.texts.now filter.now.columns.now filter.now.nodes.now filter.now.condition)
        (row_set filter.now.texts.now filter.now.columns.now filter.now.nodes.now sets.now.targets.now sets.now.items.now) n t) }
    ensures few { IfOk result (λ n. n ≤ taken_in (S.state space.old) Main * 128) }
    ensures committed { IfOk result (λ n. Commits stamps.old stamps.new stamp.0) }
    ensures refused { IfErr result (OnRefused (λ code column. (t : CatalogTable) → slice_get catalog.old.tables table ≡ Some t → (pages : List ℕ) → IsChain (S.state space.old) t.pages pages
        → UpdateIsRefused (S.state space.old) (S.state space.new) t.pages pages t.columns (committed stamps.old) (stamp.0 - 1) stamp.0
        (row_passes filter.now.texts.now filter.now.columns.now filter.now.nodes.now filter.now.condition)
        (row_set filter.now.texts.now filter.now.columns.now filter.now.nodes.now sets.now.targets.now sets.now.items.now) code column)) }
    ensures unmoved { IfErr result (OnRefused (λ code column. catalog.new ≡ catalog.old)) }
    ensures fault { IfErr result (OnFault (λ f. (t : CatalogTable) → slice_get catalog.old.tables table ≡ Some t → (pages : List ℕ) → IsChain (S.state space.old) t.pages pages
        → UpdatesTableSome (S.state space.old) (S.state space.new) catalog.old catalog.new table pages (committed stamps.old) stamp.0
        (row_passes filter.now.texts.now filter.now.columns.now filter.now.nodes.now filter.now.condition) f t)) }
    ensures uncommitted { OnErr result (stamps.new ≡ stamps.old) }
    ensures sound { IsSound catalog.new }
{
    let _ = catalog.table_count();
    let mut data = catalog.table_data(table);
    match change_table(
        table, filter, sets, catalog, &mut data, stamps, stamp, space, room,
    ) {
        Ok(count) => {
            catalog.set_table_data(table, data);
            stamps.commit(stamp);
            Ok(count)
        }
        Err(ChangeError::Refused { code, column }) => Err(ChangeError::Refused { code, column }),
        Err(ChangeError::Fault(fault)) => {
            catalog.set_table_data(table, data);
            Err(ChangeError::Fault(fault))
        }
    }
}

//! DELETE.
ghost use Rattle.std.specs.Prelude.{◌≡◌, ◌≢◌, ◌+◌, ◌*◌, ◌-◌, ◌^◌, ◌<◌, ◌≤◌, if◌then◌else◌, ℕ, true, List, length, IfOk, OnOk, IfErr, OnErr, Some, slice_get};
ghost use Rattle.hg_base.specs.Space.{NoPins, taken_in};
ghost use Rattle.hg_base.specs.declared.File.TheVariants.{Main};
ghost use Rattle.hg_base.specs.Causes.{HasCause, fault_of};
ghost use Rattle.hg_base.specs.Steadiness.{Steady};
ghost use Rattle.hg_catalog.specs.Contents.{CatalogTable};
ghost use Rattle.hg_model.specs.Tables.{fits_columns};
ghost use Rattle.hg_table.specs.Calls.{none_mine, HasVersion, LookFault, IsVersionCheck, NamesPage, TakesNone};
ghost use Rattle.hg_table.specs.Chains.{IsChain};
ghost use Rattle.hg_table.specs.Marks.{committed, IsDrawn, Commits};
ghost use Rattle.hg_dml.specs.Deleting.{Deletes, DeletesSome};
ghost use Rattle.hg_dml.specs.DeleteSteps.{Removes};
ghost use Rattle.hg_dml.specs.Filtering.{IsFilter, row_passes};
ghost use Rattle.hg_dml.specs.Inserting.{StandsAt, StandsOver};

use crate::filter::{Filter, fits_columns, passes};
use hg_base::{Check, File, PageFault, PageId, Pages, Place, Stamp, Table};
use hg_catalog::Catalog;
use hg_model::Column;
use hg_table::{Stamps, TableCalls};
use hg_value::Row;

/// The most versions that a page holds.
pub const MOST_ON_PAGE: u64 = 128;

/// Kills the version at a place, whose row was read, where the row passes the condition, and tells whether
/// it does.
fn delete_one<S: Pages>(
    space: &mut S,
    table: Table,
    columns: &[Column],
    filter: &Filter<'_>,
    stamp: Stamp,
    place: Place,
    row: &Row,
) -> Result<bool, PageFault>
    requires out { NoPins (S.state space.old) }
    requires few { length columns.now ≤ 16 }
    requires filter { IsFilter filter.now.texts.now filter.now.columns.now filter.now.nodes.now }
    requires stamp { stamp.0 ≢ 0 }
    requires there { (S.state space.old).told ≡ true → HasVersion (S.state space.old) table (length columns.now) place }
    requires fits { (S.state space.old).told ≡ true → fits_columns columns.now row.now ≡ true }
    ensures ok { IfOk result (λ gone. Removes (S.state space.old) (S.state space.new) table place stamp.0 gone) }
    ensures gone { IfOk result (λ gone. gone ≡ row_passes filter.now.texts.now filter.now.columns.now filter.now.nodes.now filter.now.condition row.now) }
    ensures fits { OnOk result (fits_columns columns.now row.now ≡ true) }
    ensures takes_none { TakesNone (S.state space.old) (S.state space.new) }
    ensures err_steady { OnErr result (Steady none_mine (S.state space.old) (S.state space.new)) }
    ensures cause { HasCause (S.state space.old) (S.state space.new) (fault_of result) }
    ensures fault { IfErr result (LookFault IsVersionCheck) }
    ensures page { IfErr result (NamesPage place.page) }
{
    if !fits_columns(columns, row) {
        return Err(PageFault::Damaged {
            page: PageId {
                file: File::Main,
                no: place.page,
            },
            check: Check::RowBytes,
        });
    }
    if !passes(filter, row) {
        return Ok(false);
    }
    let mut data = table;
    match data.kill(space, place, stamp) {
        Ok(()) => Ok(true),
        Err(fault) => Err(fault),
    }
}

/// One more where a row goes.
pub fn counted(count: u64, gone: bool) -> u64
    requires { count + 1 < 2 ^ 64 }
    ensures { result ≡ count + (if gone then 1 else 0) }
{
    if gone { count + 1 } else { count }
}

/// Walks along a table and kills the versions that the last stamp before this one sees and whose rows pass
/// the condition. The answer is how many they are.
fn delete_along<S: Pages>(
    space: &mut S,
    table: Table,
    columns: &[Column],
    filter: &Filter<'_>,
    stamps: &Stamps,
    stamp: Stamp,
    row: &mut Row,
) -> Result<u64, PageFault>
    requires out { NoPins (S.state space.old) }
    requires few { length columns.now ≤ 16 }
    requires filter { IsFilter filter.now.texts.now filter.now.columns.now filter.now.nodes.now }
    requires stamp { 0 < stamp.0 }
    requires whole { StandsOver (S.state space.old) table columns.now }
    ensures ok { IfOk result (λ n. (pages : List ℕ) → IsChain (S.state space.old) table pages
        → Deletes (S.state space.old) (S.state space.new) table pages columns.now (committed stamps.now) (stamp.0 - 1) stamp.0
        (row_passes filter.now.texts.now filter.now.columns.now filter.now.nodes.now filter.now.condition) n) }
    ensures few { IfOk result (λ n. n ≤ taken_in (S.state space.old) Main * 128) }
    ensures err { IfErr result (λ f. (pages : List ℕ) → IsChain (S.state space.old) table pages
        → DeletesSome (S.state space.old) (S.state space.new) table pages columns.now (committed stamps.now) (stamp.0 - 1) stamp.0 f) }
{
    let width = columns.len() as u8;
    let snapshot = Stamp(stamp.0 - 1);
    let mut at = None;
    let mut count = 0;
    for _turn in 0..space.taken(File::Main) as u64 * MOST_ON_PAGE {
        let found = match table.next_visible(space, at, width, snapshot, stamps, row) {
            Ok(found) => found,
            Err(fault) => return Err(fault),
        };
        let Some(place) = found else {
            return Ok(count);
        };
        let gone = match delete_one(space, table, columns, filter, stamp, place, row) {
            Ok(gone) => gone,
            Err(fault) => return Err(fault),
        };
        count = counted(count, gone);
        at = Some(place);
    }
    Ok(count)
}

/// Deletes the rows of a table that pass a condition, all of them under a stamp that was drawn for it, and
/// commits the stamp. What it looks at is what the last stamp before this one sees. `row` is room for one
/// row. The table has no index.
///
/// Answered is how many rows were deleted. A fault leaves some of them dead under a stamp that is not
/// committed, which nobody sees.
pub fn delete_rows<S: Pages>(
    table: u8,
    filter: &Filter<'_>,
    catalog: &Catalog,
    stamps: &mut Stamps,
    stamp: Stamp,
    space: &mut S,
    row: &mut Row,
) -> Result<u64, PageFault>
    requires there { table < length catalog.now.tables }
    requires stands { StandsAt (S.state space.old) catalog.now table }
    requires filter { IsFilter filter.now.texts.now filter.now.columns.now filter.now.nodes.now }
    requires drawn { IsDrawn stamps.old stamp.0 }
    requires out { NoPins (S.state space.old) }
    ensures ok { IfOk result (λ n. (t : CatalogTable) → slice_get catalog.now.tables table ≡ Some t → (pages : List ℕ) → IsChain (S.state space.old) t.pages pages
        → Deletes (S.state space.old) (S.state space.new) t.pages pages t.columns (committed stamps.old) (stamp.0 - 1) stamp.0
        (row_passes filter.now.texts.now filter.now.columns.now filter.now.nodes.now filter.now.condition) n) }
    ensures few { IfOk result (λ n. n ≤ taken_in (S.state space.old) Main * 128) }
    ensures committed { IfOk result (λ n. Commits stamps.old stamps.new stamp.0) }
    ensures fault { IfErr result (λ f. (t : CatalogTable) → slice_get catalog.now.tables table ≡ Some t → (pages : List ℕ) → IsChain (S.state space.old) t.pages pages
        → DeletesSome (S.state space.old) (S.state space.new) t.pages pages t.columns (committed stamps.old) (stamp.0 - 1) stamp.0 f) }
    ensures uncommitted { OnErr result (stamps.new ≡ stamps.old) }
{
    let columns = catalog.columns(table).as_slice();
    let data = catalog.table_data(table);
    match delete_along(space, data, columns, filter, stamps, stamp, row) {
        Ok(count) => {
            stamps.commit(stamp);
            Ok(count)
        }
        Err(fault) => Err(fault),
    }
}

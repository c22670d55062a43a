//! The next row of a loop.
ghost use Rattle.std.specs.Prelude.{◌≡◌, [], ◌+◌, ◌<◌, ◌≤◌, ℕ, true, List, length, IfOk, IfErr, IfSome, MatchOption, None};
ghost use Rattle.hg_base.specs.Causes.{HasCause, fault_of};
ghost use Rattle.hg_base.specs.Space.{NoPins};
ghost use Rattle.hg_base.specs.Steadiness.{Steady};
ghost use Rattle.hg_model.specs.Tables.{fits_columns};
ghost use Rattle.hg_model.specs.declared.values.Value.{Value};
ghost use Rattle.hg_table.specs.Calls.{none_mine, TakesNone, LookFault, NamesOneOf, StandsOn, main_page};
ghost use Rattle.hg_table.specs.Chains.{IsChain};
ghost use Rattle.hg_table.specs.Marks.{committed};
ghost use Rattle.hg_exec.specs.Standing.{HasLeft};
ghost use Rattle.hg_exec.specs.Turning.{Finds, IsLoopCheck};

use crate::fits::fits_columns;
use crate::plan::OpenLoop;
use hg_base::{Check, File, PageFault, PageId, Pages, Place, Stamp};
use hg_model::Column;
use hg_table::{Stamps, TableCalls};
use hg_value::Row;

/// The answer where the page of a place is wrong.
fn damaged(at: Place, check: Check) -> PageFault
    ensures { result ≡ PageFault.Damaged (main_page at.page) check }
{
    PageFault::Damaged {
        page: PageId {
            file: File::Main,
            no: at.page,
        },
        check,
    }
}

/// The next row behind the place of a loop that the snapshot sees, which is put into `row`, by one search
/// along the pages of the table, and the loop behind it. None where no row is left. A row that does not fit
/// the columns of its table is damage, and so is one more than the budget.
pub fn next_row<S: Pages, D: TableCalls>(
    space: &mut S,
    table: &D,
    columns: &[Column],
    from: OpenLoop,
    snapshot: Stamp,
    stamps: &Stamps,
    row: &mut Row,
) -> Result<Option<OpenLoop>, PageFault>
    requires out { NoPins (S.state space.old) }
    requires few { length columns.now ≤ 16 }
    requires more { 0 < from.budget }
    requires way { (pages : List ℕ) × IsChain (S.state space.old) (D.ends table.now) pages × StandsOn pages from.at
        × ((S.state space.old).told ≡ true → (left : List (List Value))
        × HasLeft (S.state space.old) (committed stamps.now) snapshot.0 (D.ends table.now) columns.now pages from.at from.budget left) }
    ensures finds { IfOk result (λ found. (pages : List ℕ) (left : List (List Value))
        → HasLeft (S.state space.old) (committed stamps.now) snapshot.0 (D.ends table.now) columns.now pages from.at from.budget left
        → MatchOption found (left ≡ [])
        (Finds (S.state space.new) (committed stamps.now) snapshot.0 (D.ends table.now) columns.now pages left row.new)) }
    ensures fits { IfOk result (λ found. IfSome found (λ o. fits_columns columns.now row.new ≡ true)) }
    ensures unseen { IfOk result (λ found. found ≡ None → row.new ≡ row.old) }
    ensures next { IfOk result (λ found. IfSome found (λ o. (o.budget + 1 ≡ from.budget) × (0 < o.budget) × (o.start ≡ from.start))) }
    ensures on { IfOk result (λ found. IfSome found (λ o. (pages : List ℕ)
        → IsChain (S.state space.old) (D.ends table.now) pages → StandsOn pages o.at)) }
    ensures steady { Steady none_mine (S.state space.old) (S.state space.new) }
    ensures takes_none { TakesNone (S.state space.old) (S.state space.new) }
    ensures cause { HasCause (S.state space.old) (S.state space.new) (fault_of result) }
    ensures check { IfErr result (LookFault IsLoopCheck) }
    ensures page { (pages : List ℕ) → IsChain (S.state space.old) (D.ends table.now) pages
        → IfErr result (NamesOneOf pages) }
{
    let width = columns.len() as u8;
    let Some(place) = table.next_visible(space, from.at, width, snapshot, stamps, row)? else {
        return Ok(None);
    };
    if !fits_columns(columns, row) {
        return Err(damaged(place, Check::RowBytes));
    }
    if from.budget == 1 {
        return Err(damaged(place, Check::Order));
    }
    Ok(Some(OpenLoop {
        at: Some(place),
        budget: from.budget - 1,
        start: from.start,
    }))
}

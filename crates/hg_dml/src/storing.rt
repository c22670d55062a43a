//! The rows that an UPDATE put aside are put into their table.
ghost use Rattle.std.specs.Prelude.{◌≡◌, ◌≤◌, ℕ, true, List, length, OnOk, OnErr, IfErr};
ghost use Rattle.std.specs.Bool.{OnTrue};
ghost use Rattle.hg_base.specs.Space.{NoPins};
ghost use Rattle.hg_base.specs.declared.Check.TheVariants.{RowBytes};
ghost use Rattle.hg_model.specs.Tables.{fits_columns};
ghost use Rattle.hg_model.specs.declared.values.Value.{Value};
ghost use Rattle.hg_run.specs.Calls.{temp_page, HasWay};
ghost use Rattle.hg_table.specs.Calls.{HasTable};
ghost use Rattle.hg_table.specs.Chains.{IsChain};
ghost use Rattle.hg_value.specs.Coding.{IsRowOf};
ghost use Rattle.hg_dml.specs.Inserting.{StandsOver};
ghost use Rattle.hg_dml.specs.UpdateSteps.{HoldsAside, AreStorable, IsStorableRow, StoresOne, StoreFails, StoresAll, StoresSome};

use crate::causes::MOST_BYTES;
use crate::filter::fits_columns;
use crate::putting::put_one;
use crate::updating::ChangeRoom;
use hg_base::{Check, File, PageFault, PageId, Pages, Stamp, Table};
use hg_model::Column;
use hg_run::{Run, RunPos};
use hg_value::Row;

/// What is answered where a record of a run is no row of the table: its first page is damaged.
fn damaged(first: u32) -> PageFault
    ensures { result ≡ PageFault.Damaged (temp_page first) RowBytes }
{
    PageFault::Damaged {
        page: PageId {
            file: File::Temp,
            no: first,
        },
        check: Check::RowBytes,
    }
}

/// Makes `row` the row that a record spells. Whether it is one that may be put into the table.
fn take_row(columns: &[Column], record: &[u8], row: &mut Row) -> bool
    requires { length columns.now ≤ 16 }
    ensures storable { OnTrue result (IsStorableRow columns.now row.new) }
    ensures known { (vs : List Value) → IsRowOf vs (length columns.now) record.now → fits_columns columns.now vs ≡ true → length record.now ≤ 1000
        → (result ≡ true) × (row.new ≡ vs) }
{
    if record.len() > MOST_BYTES || !row.read_into(record, columns.len() as u8) {
        return false;
    }
    fits_columns(columns, row)
}

/// Reads the record behind a position, and puts its row into the table, born under a stamp.
fn store_one<S: Pages>(
    space: &mut S,
    data: &mut Table,
    columns: &[Column],
    stamp: Stamp,
    room: &mut ChangeRoom,
    run: &Run,
    at: &mut RunPos,
    first: u32,
) -> Result<(), PageFault>
    requires few { length columns.now ≤ 16 }
    requires out { NoPins (S.state space.old) }
    requires way { HasWay (S.state space.old) run.now at.old }
    requires chain { (pages : List ℕ) × IsChain (S.state space.old) data.old pages }
    requires whole { (S.state space.old).told ≡ true → HasTable (S.state space.old) data.old }
    ensures ok { OnOk result (StoresOne (S.state space.old) (S.state space.new) columns.now run.now at.old at.new data.old data.new stamp.0) }
    ensures same { OnErr result (data.new ≡ data.old) }
    ensures err { IfErr result (StoreFails (S.state space.old) (S.state space.new) columns.now run.now at.old at.new first data.old) }
{
    match run.read(space, at, &mut room.record) {
        Ok(true) => {}
        Ok(false) => return Err(damaged(first)),
        Err(fault) => return Err(fault),
    }
    if !take_row(columns, room.record.as_slice(), &mut room.row) {
        return Err(damaged(first));
    }
    match put_one(space, data, &room.row, stamp) {
        Ok(()) => Ok(()),
        Err(fault) => Err(fault),
    }
}

/// Puts so many rows of a run into a table, born under a stamp that is not committed.
pub fn store_rows<S: Pages>(
    space: &mut S,
    data: &mut Table,
    columns: &[Column],
    stamp: Stamp,
    room: &mut ChangeRoom,
    run: &Run,
    count: u64,
) -> Result<(), PageFault>
    requires few { length columns.now ≤ 16 }
    requires out { NoPins (S.state space.old) }
    requires aside { (temp : List ℕ) × (rows : List (List Value)) × HoldsAside (S.state space.old) run.now temp rows × AreStorable columns.now rows }
    requires whole { StandsOver (S.state space.old) data.old columns.now }
    ensures ok { OnOk result ((temp : List ℕ) (rows : List (List Value)) → HoldsAside (S.state space.old) run.now temp rows → AreStorable columns.now rows → length rows ≡ count
        → StoresAll (S.state space.old) (S.state space.new) columns.now data.old data.new stamp.0 run.now temp rows) }
    ensures err { IfErr result (λ f. (temp : List ℕ) (rows : List (List Value)) → HoldsAside (S.state space.old) run.now temp rows → AreStorable columns.now rows → length rows ≡ count
        → StoresSome (S.state space.old) (S.state space.new) columns.now data.old data.new stamp.0 run.now temp rows f) }
{
    let Some(first) = run.first else {
        return Ok(());
    };
    let mut at = RunPos::start();
    for _turn in 0..count {
        match store_one(space, data, columns, stamp, room, run, &mut at, first) {
            Ok(()) => {}
            Err(fault) => return Err(fault),
        }
    }
    Ok(())
}

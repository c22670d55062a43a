//! The walk of an UPDATE: the rows that it makes are put aside, and the old ones are killed.
ghost use Rattle.std.specs.Prelude.{◌≡◌, ◌≢◌, ◌<◌, ◌≤◌, ◌*◌, ◌^◌, ◌-◌, ℕ, true, false, List, length, Ok, OnOk, IfOk, IfErr, [], Some};
ghost use Rattle.hg_base.specs.Space.{NoPins, taken_in};
ghost use Rattle.hg_base.specs.declared.File.TheVariants.{Main, Temp};
ghost use Rattle.hg_model.specs.Tables.{fits_columns};
ghost use Rattle.hg_run.specs.Calls.{HasRun};
ghost use Rattle.hg_run.specs.Runs.{IsChain as IsRunChain, no_run};
ghost use Rattle.hg_table.specs.Calls.{HasVersion, wrong_place};
ghost use Rattle.hg_table.specs.Marks.{committed};
ghost use Rattle.hg_dml.specs.Inserting.{StandsOver};
ghost use Rattle.hg_dml.specs.Making.{goes_by, made_by, IsChange, Notes, AreCauses};
ghost use Rattle.hg_dml.specs.UpdateSteps.{Moves, FailsMove, StepDone, StepFails, ChangedAll, ChangedSome};

use crate::deletion::{MOST_ON_PAGE, counted};
use crate::filter::{fits_columns, passes};
use crate::making::{Causes, Change, make_row};
use crate::updating::ChangeRoom;
use hg_base::{Check, File, PageFault, PageId, Pages, Place, Stamp, Table};
use hg_run::Run;
use hg_table::{Stamps, TableCalls};
use hg_value::Row;

/// Looks at a row that was read, and makes its new one where it passes the condition. Whether it does.
fn look(
    change: &Change<'_>,
    place: Place,
    room: &mut ChangeRoom,
    causes: &mut Causes,
) -> Result<bool, PageFault>
    requires change { IsChange change.now }
    ensures fits { OnOk result (fits_columns change.now.columns.now room.old.row ≡ true) }
    ensures goes { IfOk result (λ goes. goes ≡ goes_by change.now room.old.row) }
    ensures notes { result ≡ Ok true → Notes change.now.columns.now (made_by change.now room.old.row) causes.old causes.new }
    ensures made { result ≡ Ok true → causes.new.long ≡ false → room.new.made ≡ made_by change.now room.old.row }
    ensures same { result ≡ Ok false → causes.new ≡ causes.old }
    ensures row { room.new.row ≡ room.old.row }
    ensures err { IfErr result (λ f. (f ≡ wrong_place place.page) × (fits_columns change.now.columns.now room.old.row ≡ false)) }
{
    if !fits_columns(change.columns, &room.row) {
        return Err(PageFault::Damaged {
            page: PageId {
                file: File::Main,
                no: place.page,
            },
            check: Check::RowBytes,
        });
    }
    if !passes(&change.filter, &room.row) {
        return Ok(false);
    }
    make_row(change, &room.row, &mut room.made, causes);
    Ok(true)
}

/// Puts a row that was made aside, and kills the version that it was made of.
fn set_aside<S: Pages>(
    space: &mut S,
    table: Table,
    stamp: Stamp,
    place: Place,
    made: &Row,
    run: &mut Run,
) -> Result<(), PageFault>
    requires out { NoPins (S.state space.old) }
    requires chain { (temp : List ℕ) × IsRunChain (S.state space.old) run.old temp }
    requires run { (S.state space.old).told ≡ true → HasRun (S.state space.old) run.old }
    requires numbers { (S.state space.old).limit Temp ≤ 2 ^ 32 }
    requires some { 1 ≤ length made.now }
    requires there { (S.state space.old).told ≡ true → (columns : ℕ) × HasVersion (S.state space.old) table columns place }
    requires stamp { stamp.0 ≢ 0 }
    ensures ok { OnOk result (Moves (S.state space.old) (S.state space.new) table place stamp.0 run.old run.new made.now) }
    ensures err { IfErr result (FailsMove (S.state space.old) (S.state space.new) place run.old run.new made.now) }
{
    match run.append(space, made.bytes()) {
        Ok(()) => {}
        Err(fault) => return Err(fault),
    }
    let mut data = table;
    match data.kill(space, place, stamp) {
        Ok(()) => Ok(()),
        Err(fault) => Err(fault),
    }
}

/// Looks at a row that was read. Where it passes the condition and nothing is known to stand against the
/// rows that are made, its new row is put aside and its version killed. Whether it passes.
fn change_one<S: Pages>(
    space: &mut S,
    table: Table,
    change: &Change<'_>,
    stamp: Stamp,
    place: Place,
    room: &mut ChangeRoom,
    run: &mut Run,
    causes: &mut Causes,
) -> Result<bool, PageFault>
    requires change { IsChange change.now }
    requires some { 1 ≤ length change.now.columns.now }
    requires out { NoPins (S.state space.old) }
    requires chain { (temp : List ℕ) × IsRunChain (S.state space.old) run.old temp }
    requires run { (S.state space.old).told ≡ true → HasRun (S.state space.old) run.old }
    requires numbers { (S.state space.old).limit Temp ≤ 2 ^ 32 }
    requires there { (S.state space.old).told ≡ true → HasVersion (S.state space.old) table (length change.now.columns.now) place }
    requires fits { (S.state space.old).told ≡ true → fits_columns change.now.columns.now room.old.row ≡ true }
    requires stamp { stamp.0 ≢ 0 }
    ensures ok { IfOk result (StepDone (S.state space.old) (S.state space.new) table change.now place stamp.0 room.old.row run.old run.new causes.old causes.new) }
    ensures fits { OnOk result (fits_columns change.now.columns.now room.old.row ≡ true) }
    ensures err { IfErr result (StepFails (S.state space.old) (S.state space.new) change.now place room.old.row run.old run.new) }
{
    match look(change, place, room, causes) {
        Ok(true) => {}
        Ok(false) => return Ok(false),
        Err(fault) => return Err(fault),
    }
    if causes.stand() {
        return Ok(true);
    }
    match set_aside(space, table, stamp, place, &room.made, run) {
        Ok(()) => Ok(true),
        Err(fault) => Err(fault),
    }
}

/// Walks along a table as the last stamp before this one sees it, and changes the rows that pass the
/// condition: their new rows are put into a run and the versions killed, until something is known to stand
/// against a new row; from then on nothing is written. The answer is how many rows pass.
pub fn change_along<S: Pages>(
    space: &mut S,
    table: Table,
    change: &Change<'_>,
    stamps: &Stamps,
    stamp: Stamp,
    room: &mut ChangeRoom,
    run: &mut Run,
    causes: &mut Causes,
) -> Result<u64, PageFault>
    requires change { IsChange change.now }
    requires some { 1 ≤ length change.now.columns.now }
    requires out { NoPins (S.state space.old) }
    requires numbers { (S.state space.old).limit Temp ≤ 2 ^ 32 }
    requires stamp { 0 < stamp.0 }
    requires whole { StandsOver (S.state space.old) table change.now.columns.now }
    requires run { run.old ≡ no_run }
    requires causes { AreCauses change.now.columns.now [] causes.old }
    ensures ok { IfOk result (ChangedAll (S.state space.old) (S.state space.new) table change.now.columns.now (committed stamps.now) (stamp.0 - 1) stamp.0
        (goes_by change.now) (made_by change.now) run.new causes.new) }
    ensures few { IfOk result (λ n. n ≤ taken_in (S.state space.old) Main * 128) }
    ensures err { IfErr result (ChangedSome (S.state space.old) (S.state space.new) table change.now.columns.now (committed stamps.now) (stamp.0 - 1) stamp.0
        (goes_by change.now) run.new) }
{
    let width = change.columns.len() as u8;
    let snapshot = Stamp(stamp.0 - 1);
    let mut at = None;
    let mut count = 0;
    for _turn in 0..space.taken(File::Main) as u64 * MOST_ON_PAGE {
        let found = match table.next_visible(space, at, width, snapshot, stamps, &mut room.row) {
            Ok(found) => found,
            Err(fault) => return Err(fault),
        };
        let Some(place) = found else {
            return Ok(count);
        };
        let goes = match change_one(space, table, change, stamp, place, room, run, causes) {
            Ok(goes) => goes,
            Err(fault) => return Err(fault),
        };
        count = counted(count, goes);
        at = Some(place);
    }
    Ok(count)
}

//! Putting versions into a table.
ghost use Rattle.std.specs.Prelude.{◌≡◌, ℕ, ◌+◌, ◌++◌, ◌≤◌, ◌⊎◌, true, false, List, length, Some, None, Err, IfOk, IfErr, IfSome, OnOk, OnErr, MatchOption};
ghost use Rattle.hg_base.specs.Space.{NoPins, key_in, at, IsFree, with_bytes};
ghost use Rattle.hg_base.specs.Causes.{HasCause, fault_of};
ghost use Rattle.hg_base.specs.Steadiness.{Steady, IsPlain};
ghost use Rattle.hg_slot.specs.Slotted.{Fits, IsSlotted};
ghost use Rattle.hg_slot.specs.Changing.{IsInserted, IsWrong};
ghost use Rattle.hg_value.specs.Coding.{coded};
ghost use Rattle.hg_table.specs.Chains.{IsChain};
ghost use Rattle.hg_table.specs.Calls.{none_mine, insert_mine, HasTable, Inserts, KeepsPages, AddsPage, InsertFault, NamesPage, NamesGiven, HasNoRoom, newborn};
ghost use Rattle.hg_table.specs.Steps.{Looks, Refused, Tries, HoldsRecord, PutsRecord, MakesPage, AddsRecord, IsNoDamage};

use crate::open::{damaged, main_page};
use crate::stored::front_of;
use hg_base::{Check, File, PageFault, Pages, Place, Stamp, Table};
use hg_slot::slot;
use hg_value::Row;

/// Puts a record of two parts into a page whose bytes may be any. None where it does not fit.
#[tactic(auto, using(crate::proofs::Seeing::insertion_wrong))]
fn put_in(page: &mut [u8], front: &[u8], row: &[u8]) -> Result<Option<u16>, Check>
    requires { length page.old ≡ 4096 }
    ensures tried { IfOk result (Tries page.old page.new (front.now ++ row.now)) }
    ensures wrong { IfErr result (IsWrong page.old) }
    ensures err { OnErr result (page.new ≡ page.old) }
{
    match slot::insert_parts(page, front, row) {
        Ok(Some(slot)) => Ok(Some(slot)),
        Ok(None) => Ok(None),
        Err(check) => Err(check),
    }
}

/// Makes a page that holds one record of two parts, and gives the record's slot.
fn start_with(page: &mut [u8], front: &[u8], row: &[u8]) -> u16
    requires whole { length page.old ≡ 4096 }
    requires short { length front.now + length row.now ≤ 4076 }
    ensures { HoldsRecord page.new result (front.now ++ row.now) }
{
    slot::init(page);
    match slot::insert_parts(page, front, row) {
        Ok(Some(slot)) => slot,
        Ok(None) => unreachable!(),
        Err(_) => unreachable!(),
    }
}

/// Puts a record into a page of a table. None where it does not fit.
fn put_on<S: Pages>(
    space: &mut S,
    no: u32,
    front: &[u8],
    row: &[u8],
) -> Result<Option<u16>, PageFault>
    requires out { NoPins (S.state space.old) }
    requires plain { IsPlain (S.state space.old) (key_in File.Main no) }
    requires sound { (S.state space.old).told ≡ true → (page : List ℕ)
        × ((S.state space.old).bytes (key_in File.Main no) ≡ Some page) × IsSlotted page }
    ensures put { IfOk result (PutsRecord (S.state space.old) (S.state space.new) no
        (front.now ++ row.now)) }
    ensures err { OnErr result (Looks (S.state space.old) (S.state space.new)) }
    ensures cause { HasCause (S.state space.old) (S.state space.new) (fault_of result) }
    ensures fault { IfErr result (InsertFault (S.state space.old)) }
    ensures page { IfErr result (NamesPage no) }
    ensures not_full { result ≡ Err PageFault.MainFull → ⊥ }
{
    let pin = space.pin(main_page(no))?;
    let answer = put_in(space.bytes_mut(&pin), front, row);
    space.unpin(pin);
    match answer {
        Ok(slot) => Ok(slot),
        Err(check) => Err(damaged(no, check)),
    }
}

/// Takes a page and puts a record there.
#[tactic(auto, using(crate::proofs::Seeing::refused))]
fn new_page<S: Pages>(space: &mut S, front: &[u8], row: &[u8]) -> Result<Place, PageFault>
    requires out { NoPins (S.state space.old) }
    requires short { length front.now + length row.now ≤ 4076 }
    ensures made { IfOk result (MakesPage (S.state space.old) (S.state space.new)
        (front.now ++ row.now)) }
    ensures err { OnErr result (Refused (S.state space.old) (S.state space.new)) }
    ensures cause { HasCause (S.state space.old) (S.state space.new) (fault_of result) }
    ensures fault { IfErr result (InsertFault (S.state space.old)) }
    ensures whole { IfErr result IsNoDamage }
{
    let pin = space.fresh(File::Main)?;
    let page = space.page_of(&pin);
    let slot = start_with(space.bytes_mut(&pin), front, row);
    space.unpin(pin);
    Ok(Place {
        page: page.no,
        slot,
    })
}

/// Puts a version on a new page behind the last one of the table.
fn add_page<S: Pages>(
    table: &mut Table,
    space: &mut S,
    front: &[u8],
    row: &[u8],
) -> Result<Place, PageFault>
    requires out { NoPins (S.state space.old) }
    requires chain { (pages : List ℕ) × IsChain (S.state space.old) table.old pages }
    requires short { length front.now + length row.now ≤ 4076 }
    ensures made { IfOk result (λ place. AddsRecord (S.state space.old)
        (S.state space.new) table.old table.new (front.now ++ row.now) place) }
    ensures same { OnErr result (table.new ≡ table.old) }
    ensures err { OnErr result (Refused (S.state space.old) (S.state space.new)) }
    ensures cause { HasCause (S.state space.old) (S.state space.new) (fault_of result) }
    ensures fault { IfErr result (InsertFault (S.state space.old)) }
    ensures whole { IfErr result IsNoDamage }
{
    let place = new_page(space, front, row)?;
    match table.last {
        Some(last) => space.set_next(main_page(last), Some(place.page)),
        None => table.first = Some(place.page),
    }
    table.last = Some(place.page);
    Ok(place)
}

/// Puts a version of a row into a table.
pub fn insert<S: Pages>(
    table: &mut Table,
    space: &mut S,
    row: &Row,
    born: Stamp,
) -> Result<Place, PageFault>
    requires out { NoPins (S.state space.old) }
    requires chain { (pages : List ℕ) × IsChain (S.state space.old) table.old pages }
    requires short { length (coded row.now) ≤ 1000 }
    requires table { (S.state space.old).told ≡ true → HasTable (S.state space.old) table.old }
    ensures ok { IfOk result (λ place. (pages : List ℕ)
        → IsChain (S.state space.old) table.old pages
        → Inserts (S.state space.old) (S.state space.new) table.old table.new pages
        (newborn row.now born.0 place)) }
    ensures pages { IfOk result (λ place. KeepsPages (S.state space.old)
        (S.state space.new) table.old table.new place.page
        ⊎ AddsPage (S.state space.old) (S.state space.new) table.old table.new place.page
        (8 + length (coded row.now))) }
    ensures steady { IfOk result (λ place. Steady (insert_mine table.old place)
        (S.state space.old) (S.state space.new)) }
    ensures same { OnErr result (table.new ≡ table.old) }
    ensures err { OnErr result (Refused (S.state space.old) (S.state space.new)) }
    ensures cause { HasCause (S.state space.old) (S.state space.new) (fault_of result) }
    ensures fault { IfErr result (InsertFault (S.state space.old)) }
    ensures page { IfErr result (NamesGiven table.old.last) }
    ensures full { result ≡ Err PageFault.MainFull → HasNoRoom (S.state space.old)
        table.old.last (8 + length (coded row.now)) }
{
    let front = front_of(born);
    if let Some(last) = table.last {
        if let Some(slot) = put_on(space, last, &front, row.bytes())? {
            return Ok(Place { page: last, slot });
        }
    }
    add_page(table, space, &front, row.bytes())
}

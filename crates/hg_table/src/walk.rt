//! The way along a table's versions.
ghost use Rattle.std.specs.Prelude.{◌≡◌, ℕ, ◌+◌, ◌<◌, ◌≤◌, true, false, List, length, Some, None, IsOk, IfOk, IfErr, IfSome, OnOk, IsErrOf};
ghost use Rattle.hg_base.specs.Space.{NoPins, key_in, IsFree};
ghost use Rattle.hg_base.specs.Lines.{IsLine};
ghost use Rattle.hg_base.specs.Causes.{HasCause, fault_of};
ghost use Rattle.hg_base.specs.Steadiness.{IsPlain};
ghost use Rattle.hg_base.specs.declared.Table.{Table as TableOf};
ghost use Rattle.hg_slot.specs.Slotted.{IsSlotted};
ghost use Rattle.hg_slot.specs.Changing.{IsWrong};
ghost use Rattle.hg_table.specs.Chains.{IsChain};
ghost use Rattle.hg_table.specs.Versions.{Placed, RowVersion, IsTable, in_pages};
ghost use Rattle.hg_table.specs.Places.{behind, first_place};
ghost use Rattle.hg_table.specs.Calls.{HasStart, LookFault, IsPageCheck, IsWalkCheck, NamesPage, NamesMain, IsBarred, StandsOn, CannotBePinned, wrong_place, WalksOn, walk_start, main_page};
ghost use Rattle.hg_table.specs.Steps.{Looks, IsSound, IsNextSlot, IsNotTooLong, HoldsLine};

use crate::open::{damaged, main_page, open};
use hg_base::{Check, File, PageFault, Pages, Place, Table};
use hg_slot::slot;

/// The first slot from `from` on that is not empty, on a page whose bytes may be any.
#[tactic(auto, using(crate::proofs::Seeing::head_wrong))]
pub fn next_slot(page: &[u8], from: u32) -> Result<Option<u16>, Check>
    requires { length page.now ≡ 4096 }
    ensures slotted { IsSlotted page.now → IsOk result }
    ensures next { IfOk result (IsNextSlot page.now from) }
    ensures wrong { IfErr result (IsWrong page.now) }
{
    let count = match slot::check_head(page) {
        Ok(count) => count as u32,
        Err(check) => return Err(check),
    };
    for slot in from..count {
        match slot::peek(page, slot as u16) {
            Ok(Some(_)) => return Ok(Some(slot as u16)),
            Ok(None) => {}
            Err(check) => return Err(check),
        }
    }
    Ok(None)
}

/// Pins a page and looks for a slot that is not empty, from `from` on. Where it cannot be pinned, a page that is entered is a page of a chain, and
/// another that of a place.
fn look<S: Pages>(
    space: &mut S,
    no: u32,
    from: u32,
    entering: bool,
) -> Result<Option<u16>, PageFault>
    requires out { NoPins (S.state space.old) }
    requires sound { (S.state space.old).told ≡ true → IsSound (S.state space.old) no }
    ensures next { IfOk result (λ slot. (page : List ℕ)
        → (S.state space.old).bytes (key_in File.Main no) ≡ Some page → IsNextSlot page from slot) }
    ensures plain { OnOk result (IsFree (S.state space.old) (main_page no)) }
    ensures looks { Looks (S.state space.old) (S.state space.new) }
    ensures cause { HasCause (S.state space.old) (S.state space.new) (fault_of result) }
    ensures fault { IfErr result (LookFault IsWalkCheck) }
    ensures page { IfErr result (NamesPage no) }
    ensures known { IsFree (S.state space.old) (main_page no)
        → IfErr result (LookFault IsPageCheck) }
    ensures level { entering ≡ true → IfErr result (IsBarred (S.state space.old) None) }
    ensures row { entering ≡ false → (slot : ℕ)
        → IfErr result (IsBarred (S.state space.old) (Some (record { page = no; slot = slot }))) }
    ensures no_page { entering ≡ false → CannotBePinned (S.state space.old) no
        → IsErrOf result (wrong_place no) }
    ensures step { IfErr result IsNotTooLong }
    ensures links { (S.state space.new).next ≡ (S.state space.old).next }
{
    let check = if entering {
        Check::Level
    } else {
        Check::RowBytes
    };
    let pin = open(space, no, check)?;
    let found = next_slot(space.bytes(&pin), from);
    space.unpin(pin);
    match found {
        Ok(slot) => Ok(slot),
        Err(check) => Err(damaged(no, check)),
    }
}

/// The first version of a line of pages.
fn first_along<S: Pages>(space: &mut S, start: Option<u32>) -> Result<Option<Place>, PageFault>
    requires out { NoPins (S.state space.old) }
    requires line { (S.state space.old).told ≡ true → HoldsLine (S.state space.old) start }
    ensures first { IfOk result (λ first. (l : HoldsLine (S.state space.old) start)
        → first ≡ first_place (in_pages l.held l.pages)) }
    ensures on_line { IfOk result (λ first. (pages : List ℕ)
        → IsLine File.Main (S.state space.old) start pages → StandsOn pages first) }
    ensures looks { Looks (S.state space.old) (S.state space.new) }
    ensures cause { HasCause (S.state space.old) (S.state space.new) (fault_of result) }
    ensures fault { IfErr result (LookFault IsWalkCheck) }
    ensures page { IfErr result NamesMain }
    ensures known { (pages : List ℕ) → IsLine File.Main (S.state space.old) start pages
        → IfErr result (LookFault IsPageCheck) }
    ensures level { IfErr result (IsBarred (S.state space.old) None) }
    ensures order { IfErr result (WalksOn (S.state space.old) start) }
{
    let mut next = start;
    for _turn in 0..space.taken(File::Main) {
        let Some(no) = next else {
            return Ok(None);
        };
        if let Some(slot) = look(space, no, 0, true)? {
            return Ok(Some(Place { page: no, slot }));
        }
        next = space.next(main_page(no));
    }
    match next {
        None => Ok(None),
        Some(no) => Err(damaged(no, Check::Order)),
    }
}

/// The place of the next version behind `at`, or of the first.
pub fn after<S: Pages>(
    table: &Table,
    space: &mut S,
    at: Option<Place>,
) -> Result<Option<Place>, PageFault>
    requires out { NoPins (S.state space.old) }
    requires start { (S.state space.old).told ≡ true → HasStart (S.state space.old) table.now at }
    ensures next { IfOk result (λ next. (columns : ℕ) (pages : List ℕ) (versions : List Placed)
        → IsTable (S.state space.old) table.now columns pages versions
        → next ≡ first_place (behind pages at versions)) }
    ensures on_pages { IfOk result (λ next. (pages : List ℕ)
        → IsChain (S.state space.old) table.now pages → StandsOn pages at → StandsOn pages next) }
    ensures looks { Looks (S.state space.old) (S.state space.new) }
    ensures cause { HasCause (S.state space.old) (S.state space.new) (fault_of result) }
    ensures fault { IfErr result (LookFault IsWalkCheck) }
    ensures page { IfErr result NamesMain }
    ensures known { (pages : List ℕ) → IsChain (S.state space.old) table.now pages
        → StandsOn pages at → IfErr result (LookFault IsPageCheck) }
    ensures level { IfErr result (IsBarred (S.state space.old) at) }
    ensures order { IfErr result (WalksOn (S.state space.old)
        (walk_start (S.state space.old) table.now at)) }
    ensures no_page { IfSome at (λ place. CannotBePinned (S.state space.old) place.page
        → IsErrOf result (wrong_place place.page)) }
{
    match at {
        None => first_along(space, table.first),
        Some(place) => {
            if let Some(slot) = look(space, place.page, place.slot as u32 + 1, false)? {
                return Ok(Some(Place {
                    page: place.page,
                    slot,
                }));
            }
            first_along(space, space.next(main_page(place.page)))
        }
    }
}

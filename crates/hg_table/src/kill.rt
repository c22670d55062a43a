//! The death of versions.
ghost use Rattle.std.specs.Prelude.{◌≡◌, ◌≢◌, ℕ, ◌+◌, ◌≤◌, true, List, length, Some, None, IfErr, OnOk, OnErr, IsErrOf};
ghost use Rattle.std.specs.Int.{w32, to_le_bytes};
ghost use Rattle.hg_base.specs.Space.{NoPins, key_in};
ghost use Rattle.hg_base.specs.Causes.{HasCause, fault_of};
ghost use Rattle.hg_slot.specs.Slotted.{IsSlotted, record_at};
ghost use Rattle.hg_slot.specs.Changing.{Overwrites};
ghost use Rattle.hg_table.specs.Calls.{LookFault, IsVersionCheck, TakesNone, NamesPage, CannotBePinned, wrong_place};
ghost use Rattle.hg_table.specs.Versions.{RowVersion};
ghost use Rattle.hg_table.specs.Steps.{Looks, IsSoundAt, IsWrongRecord, ChangesPage, Kills, HoldsStamps};

use crate::open::{damaged, open};
use hg_base::{Check, PageFault, Pages, Place, Stamp};
use hg_slot::slot;

/// Sets the stamp under which the version of a slot died.
#[tactic(auto, using(crate::proofs::Seeing::slot_wrong))]
pub fn kill_in(page: &mut [u8], slot: u16, died: Stamp) -> Result<(), Check>
    requires { length page.old ≡ 4096 }
    ensures ok { OnOk result (Kills page.old page.new slot died.0) }
    ensures err { OnErr result (page.new ≡ page.old) }
    ensures wrong { IfErr result (IsWrongRecord page.old slot) }
{
    match slot::overwrite(page, slot, 4, &died.0.to_le_bytes()) {
        Ok(true) => Ok(()),
        Ok(false) => Err(Check::RowBytes),
        Err(check) => Err(check),
    }
}

/// Sets the stamp under which the version at a place died.
pub fn kill<S: Pages>(space: &mut S, place: Place, died: Stamp) -> Result<(), PageFault>
    requires out { NoPins (S.state space.old) }
    requires sound { (S.state space.old).told ≡ true → (columns : ℕ) × (v : RowVersion)
        × IsSoundAt (S.state space.old) columns place.page place.slot (Some v) }
    ensures ok { OnOk result (ChangesPage (S.state space.old) (S.state space.new) place.page
        (λ old new. Kills old new place.slot died.0)) }
    ensures err { OnErr result (Looks (S.state space.old) (S.state space.new)) }
    ensures links { (S.state space.new).next ≡ (S.state space.old).next }
    ensures heaps { (S.state space.new).of_heap ≡ (S.state space.old).of_heap }
    ensures cause { HasCause (S.state space.old) (S.state space.new) (fault_of result) }
    ensures fault { IfErr result (LookFault IsVersionCheck) }
    ensures page { IfErr result (NamesPage place.page) }
    ensures no_page { CannotBePinned (S.state space.old) place.page
        → IsErrOf result (wrong_place place.page) }
{
    let pin = open(space, place.page, Check::RowBytes)?;
    let answer = kill_in(space.bytes_mut(&pin), place.slot, died);
    space.unpin(pin);
    match answer {
        Ok(()) => Ok(()),
        Err(check) => Err(damaged(place.page, check)),
    }
}

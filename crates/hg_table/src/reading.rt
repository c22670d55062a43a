//! Reading one version.
ghost use Rattle.std.specs.Prelude.{◌≡◌, true, false, Option, length, IfOk, IfErr, IfSome, OnOk, OnErr, IsErrOf, option_map};
ghost use Rattle.hg_base.specs.Space.{NoPins, key_in};
ghost use Rattle.hg_base.specs.Causes.{HasCause, fault_of};
ghost use Rattle.hg_base.specs.declared.Stamp.{Stamp as StampOf};
ghost use Rattle.hg_slot.specs.Slotted.{record_at};
ghost use Rattle.hg_table.specs.Marks.{committed};
ghost use Rattle.hg_table.specs.Versions.{RowVersion, Shows};
ghost use Rattle.hg_table.specs.Places.{sees};
ghost use Rattle.hg_table.specs.Calls.{LookFault, IsVersionCheck, NamesPage, LeavesRow, CannotBePinned, wrong_place};
ghost use Rattle.hg_table.specs.Steps.{Looks, IsSoundAt, IsWrongAt, IsWrongVersion};

use crate::open::{damaged, open};
use crate::stamping::Stamps;
use crate::stored::{death_of, is_seen, life_of, row_of};
use hg_base::{Check, PageFault, Pages, Place, Stamp};
use hg_slot::slot;
use hg_value::Row;

/// What a snapshot sees of a slot of a page whose bytes may be any.
#[tactic(auto, using(crate::proofs::Seeing::slot_wrong))]
pub fn read_in(
    page: &[u8],
    slot: u16,
    columns: u8,
    snapshot: Stamp,
    stamps: &Stamps,
    out: &mut Row,
) -> Result<bool, Check>
    requires { length page.now ≡ 4096 }
    ensures seen { IfOk result (λ seen. (v : Option RowVersion)
        → Shows columns (record_at page.now slot) v
        → seen ≡ sees (committed stamps.now) snapshot.0 v) }
    ensures row { result ≡ Ok true → (v : Option RowVersion)
        → Shows columns (record_at page.now slot) v → IfSome v (λ w. out.new ≡ w.row) }
    ensures width { result ≡ Ok true → length out.new ≡ columns }
    ensures unseen { result ≡ Ok false → out.new ≡ out.old }
    ensures wrong { IfErr result (IsWrongAt page.now columns slot) }
    ensures refused { OnErr result (LeavesRow out.old out.new) }
{
    let record = match slot::peek(page, slot) {
        Ok(Some(record)) => record,
        Ok(None) => return Ok(false),
        Err(check) => return Err(check),
    };
    let Some(life) = life_of(record) else {
        return Err(Check::RowBytes);
    };
    if !is_seen(life, snapshot, stamps) {
        return Ok(false);
    }
    if row_of(record, columns, out) {
        Ok(true)
    } else {
        Err(Check::RowBytes)
    }
}

/// The stamps and the row of a slot of a page whose bytes may be any.
#[tactic(auto, using(crate::proofs::Seeing::slot_wrong))]
pub fn version_in(
    page: &[u8],
    slot: u16,
    columns: u8,
    out: &mut Row,
) -> Result<(Stamp, Option<Stamp>), Check>
    requires { length page.now ≡ 4096 }
    ensures found { IfOk result (λ stamps. (v : Option RowVersion)
        → Shows columns (record_at page.now slot) v
        → v ≡ Some (record {
          born = stamps.0.0;
          died = option_map (λ
              (s : StampOf). s.0) stamps.1;
          row = out.new;
        })) }
    ensures width { OnOk result (length out.new ≡ columns) }
    ensures wrong { IfErr result (IsWrongVersion page.now columns slot) }
    ensures refused { OnErr result (LeavesRow out.old out.new) }
{
    let record = match slot::peek(page, slot) {
        Ok(Some(record)) => record,
        Ok(None) => return Err(Check::RowBytes),
        Err(check) => return Err(check),
    };
    let Some(life) = life_of(record) else {
        return Err(Check::RowBytes);
    };
    if row_of(record, columns, out) {
        Ok((Stamp(life.born), death_of(life)))
    } else {
        Err(Check::RowBytes)
    }
}

/// Reads what a snapshot sees at a place.
pub fn read<S: Pages>(
    space: &mut S,
    at: Place,
    columns: u8,
    snapshot: Stamp,
    stamps: &Stamps,
    out: &mut Row,
) -> Result<bool, PageFault>
    requires no_pins { NoPins (S.state space.old) }
    requires sound { (S.state space.old).told ≡ true → (v : Option RowVersion)
        × IsSoundAt (S.state space.old) columns at.page at.slot v }
    ensures seen { IfOk result (λ seen. (v : Option RowVersion)
        → IsSoundAt (S.state space.old) columns at.page at.slot v
        → seen ≡ sees (committed stamps.now) snapshot.0 v) }
    ensures row { result ≡ Ok true → (v : Option RowVersion)
        → IsSoundAt (S.state space.old) columns at.page at.slot v
        → IfSome v (λ w. out.new ≡ w.row) }
    ensures width { result ≡ Ok true → length out.new ≡ columns }
    ensures unseen { result ≡ Ok false → out.new ≡ out.old }
    ensures looks { Looks (S.state space.old) (S.state space.new) }
    ensures cause { HasCause (S.state space.old) (S.state space.new) (fault_of result) }
    ensures fault { IfErr result (LookFault IsVersionCheck) }
    ensures page { IfErr result (NamesPage at.page) }
    ensures no_page { CannotBePinned (S.state space.old) at.page
        → IsErrOf result (wrong_place at.page) }
    ensures refused { OnErr result (LeavesRow out.old out.new) }
{
    let pin = open(space, at.page, Check::RowBytes)?;
    let answer = read_in(space.bytes(&pin), at.slot, columns, snapshot, stamps, out);
    space.unpin(pin);
    match answer {
        Ok(seen) => Ok(seen),
        Err(check) => Err(damaged(at.page, check)),
    }
}

/// Reads the version at a place.
pub fn version<S: Pages>(
    space: &mut S,
    at: Place,
    columns: u8,
    out: &mut Row,
) -> Result<(Stamp, Option<Stamp>), PageFault>
    requires no_pins { NoPins (S.state space.old) }
    requires sound { (S.state space.old).told ≡ true → (v : RowVersion)
        × IsSoundAt (S.state space.old) columns at.page at.slot (Some v) }
    ensures found { IfOk result (λ stamps. (v : Option RowVersion)
        → IsSoundAt (S.state space.old) columns at.page at.slot v
        → v ≡ Some (record {
          born = stamps.0.0;
          died = option_map (λ
              (s : StampOf). s.0) stamps.1;
          row = out.new;
        })) }
    ensures width { OnOk result (length out.new ≡ columns) }
    ensures looks { Looks (S.state space.old) (S.state space.new) }
    ensures cause { HasCause (S.state space.old) (S.state space.new) (fault_of result) }
    ensures fault { IfErr result (LookFault IsVersionCheck) }
    ensures page { IfErr result (NamesPage at.page) }
    ensures no_page { CannotBePinned (S.state space.old) at.page
        → IsErrOf result (wrong_place at.page) }
    ensures refused { OnErr result (LeavesRow out.old out.new) }
{
    let pin = open(space, at.page, Check::RowBytes)?;
    let answer = version_in(space.bytes(&pin), at.slot, columns, out);
    space.unpin(pin);
    match answer {
        Ok(stamps) => Ok(stamps),
        Err(check) => Err(damaged(at.page, check)),
    }
}

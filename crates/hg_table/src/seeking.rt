//! The way along the versions that a snapshot sees.
ghost use Rattle.std.specs.Prelude.{◌≡◌, ℕ, ◌≤◌, ◌<◌, true, List, Option, Some, None, Ok, length, IfOk, IfErr, OnErr, IsSome};
ghost use Rattle.std.specs.List.{AllByRecursion};
ghost use Rattle.hg_base.specs.Space.{NoPins, key_in};
ghost use Rattle.hg_base.specs.Lines.{IsLine};
ghost use Rattle.hg_base.specs.Causes.{HasCause, fault_of};
ghost use Rattle.hg_base.specs.Steadiness.{IsPlain};
ghost use Rattle.hg_slot.specs.Slotted.{record_at};
ghost use Rattle.hg_table.specs.Chains.{IsChain};
ghost use Rattle.hg_table.specs.Marks.{committed};
ghost use Rattle.hg_table.specs.Versions.{Placed, RowVersion, Shows, HoldsVersions, IsTable, in_pages};
ghost use Rattle.hg_table.specs.Places.{behind, first_seen, Finds};
ghost use Rattle.hg_table.specs.Calls.{HasWay, LookFault, IsVersionCheck, NamesPage, NamesMain, StandsOn, NamesOneOf, LeavesRow};
ghost use Rattle.hg_table.specs.Steps.{Looks, IsWrongPage, IsNextSeen, HoldsRowsOf};

use crate::open::{damaged, main_page};
use crate::reading::read_in;
use crate::stamping::Stamps;
use hg_base::{Check, File, PageFault, Pages, Place, Stamp, Table};
use hg_slot::slot;
use hg_value::Row;

/// The first version from a slot on that a snapshot sees, on a page whose bytes may be any. Its row is
/// put into `out`.
#[tactic(auto, using(crate::proofs::Seeing::page_wrong))]
pub fn next_seen(
    page: &[u8],
    from: u32,
    columns: u8,
    snapshot: Stamp,
    stamps: &Stamps,
    out: &mut Row,
) -> Result<Option<u16>, Check>
    requires { length page.now ≡ 4096 }
    ensures seen { IfOk result (λ slot. (held : ℕ → Option RowVersion)
        → ((k : ℕ) → Shows columns (record_at page.now k) (held k))
        → IsNextSeen (committed stamps.now) snapshot.0 held from slot out.old out.new) }
    ensures unseen { result ≡ Ok None → out.new ≡ out.old }
    ensures width { IfOk result (λ slot. IsSome slot → length out.new ≡ columns) }
    ensures wrong { IfErr result (IsWrongPage page.now columns) }
    ensures refused { OnErr result (LeavesRow out.old out.new) }
{
    let count = match slot::check_head(page) {
        Ok(count) => count as u32,
        Err(check) => return Err(check),
    };
    for slot in from..count {
        match read_in(page, slot as u16, columns, snapshot, stamps, out) {
            Ok(true) => return Ok(Some(slot as u16)),
            Ok(false) => {}
            Err(check) => return Err(check),
        }
    }
    Ok(None)
}

/// Pins a page of a table and looks there for the first version from a slot on that a snapshot sees.
fn seen_on<S: Pages>(
    space: &mut S,
    no: u32,
    from: u32,
    columns: u8,
    snapshot: Stamp,
    stamps: &Stamps,
    out: &mut Row,
) -> Result<Option<u16>, PageFault>
    requires out { NoPins (S.state space.old) }
    requires plain { IsPlain (S.state space.old) (key_in File.Main no) }
    requires sound { (S.state space.old).told ≡ true → (held : ℕ → Option RowVersion)
        × HoldsVersions (S.state space.old) columns no held }
    ensures seen { IfOk result (λ slot. (held : ℕ → Option RowVersion)
        → HoldsVersions (S.state space.old) columns no held
        → IsNextSeen (committed stamps.now) snapshot.0 held from slot out.old out.new) }
    ensures unseen { result ≡ Ok None → out.new ≡ out.old }
    ensures width { IfOk result (λ slot. IsSome slot → length out.new ≡ columns) }
    ensures looks { Looks (S.state space.old) (S.state space.new) }
    ensures cause { HasCause (S.state space.old) (S.state space.new) (fault_of result) }
    ensures refused { OnErr result (LeavesRow out.old out.new) }
    ensures fault { IfErr result (LookFault IsVersionCheck) }
    ensures page { IfErr result (NamesPage no) }
{
    let pin = space.pin(main_page(no))?;
    let answer = next_seen(space.bytes(&pin), from, columns, snapshot, stamps, out);
    space.unpin(pin);
    match answer {
        Ok(slot) => Ok(slot),
        Err(check) => Err(damaged(no, check)),
    }
}

/// The first version of a line of pages that a snapshot sees.
fn seen_along<S: Pages>(
    space: &mut S,
    start: Option<u32>,
    columns: u8,
    snapshot: Stamp,
    stamps: &Stamps,
    out: &mut Row,
) -> Result<Option<Place>, PageFault>
    requires out { NoPins (S.state space.old) }
    requires line { (pages : List ℕ) × IsLine File.Main (S.state space.old) start pages }
    requires rows { (S.state space.old).told ≡ true
        → HoldsRowsOf (S.state space.old) start columns }
    ensures seen { IfOk result (λ next. (r : HoldsRowsOf (S.state space.old) start columns)
        → Finds (first_seen (committed stamps.now) snapshot.0 (in_pages r.held r.pages)) next
        out.old out.new) }
    ensures on_line { IfOk result (λ next. (pages : List ℕ)
        → IsLine File.Main (S.state space.old) start pages → StandsOn pages next) }
    ensures unseen { result ≡ Ok None → out.new ≡ out.old }
    ensures width { IfOk result (λ next. IsSome next → length out.new ≡ columns) }
    ensures looks { Looks (S.state space.old) (S.state space.new) }
    ensures cause { HasCause (S.state space.old) (S.state space.new) (fault_of result) }
    ensures refused { OnErr result (LeavesRow out.old out.new) }
    ensures fault { IfErr result (LookFault IsVersionCheck) }
    ensures page { (pages : List ℕ) → IsLine File.Main (S.state space.old) start pages
        → IfErr result (NamesOneOf pages) }
{
    let mut next = start;
    for _turn in 0..space.taken(File::Main) {
        let Some(no) = next else {
            return Ok(None);
        };
        if let Some(slot) = seen_on(space, no, 0, columns, snapshot, stamps, out)? {
            return Ok(Some(Place { page: no, slot }));
        }
        next = space.next(main_page(no));
    }
    Ok(None)
}

/// The first version behind `at`, or of all, that a snapshot sees.
pub fn next_visible<S: Pages>(
    table: &Table,
    space: &mut S,
    at: Option<Place>,
    columns: u8,
    snapshot: Stamp,
    stamps: &Stamps,
    out: &mut Row,
) -> Result<Option<Place>, PageFault>
    requires out { NoPins (S.state space.old) }
    requires way { HasWay (S.state space.old) table.now columns at }
    ensures seen { IfOk result (λ next. (pages : List ℕ) (versions : List Placed)
        → IsTable (S.state space.old) table.now columns pages versions
        → Finds (first_seen (committed stamps.now) snapshot.0 (behind pages at versions)) next
        out.old out.new) }
    ensures on_pages { IfOk result (λ next. (pages : List ℕ)
        → IsChain (S.state space.old) table.now pages → StandsOn pages next) }
    ensures unseen { result ≡ Ok None → out.new ≡ out.old }
    ensures width { IfOk result (λ next. IsSome next → length out.new ≡ columns) }
    ensures looks { Looks (S.state space.old) (S.state space.new) }
    ensures cause { HasCause (S.state space.old) (S.state space.new) (fault_of result) }
    ensures refused { OnErr result (LeavesRow out.old out.new) }
    ensures fault { IfErr result (LookFault IsVersionCheck) }
    ensures page { (pages : List ℕ) → IsChain (S.state space.old) table.now pages
        → IfErr result (NamesOneOf pages) }
{
    let Some(place) = at else {
        return seen_along(space, table.first, columns, snapshot, stamps, out);
    };
    let from = place.slot as u32 + 1;
    match seen_on(space, place.page, from, columns, snapshot, stamps, out)? {
        Some(slot) => Ok(Some(Place {
            page: place.page,
            slot,
        })),
        None => {
            let next = space.next(main_page(place.page));
            seen_along(space, next, columns, snapshot, stamps, out)
        }
    }
}

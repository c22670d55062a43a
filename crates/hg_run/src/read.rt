//! Reading a run, record by record.
ghost use Rattle.std.specs.Prelude.{◌≡◌, ℕ, ◌+◌, ◌≤◌, true, false, List, length, None, Ok, Some, IfOk, IfErr, OnOk, OnErr};
ghost use Rattle.hg_base.specs.Space.{NoPins, key_in};
ghost use Rattle.hg_base.specs.Causes.{HasCause, fault_of};
ghost use Rattle.hg_base.specs.Steadiness.{Steady, IsPlain};
ghost use Rattle.hg_run.specs.Format.{IsPageAt};
ghost use Rattle.hg_run.specs.Runs.{IsChain, IsRun, IsAt, StandsOn, first_position};
ghost use Rattle.hg_run.specs.Calls.{none_mine, HasWay, Reads, ReadFault, NamesGiven, NamesOneOf};
ghost use Rattle.hg_run.specs.Steps.{Looks, TakesNext, IsBehind, position_from};

use crate::page::{Found, HEAD, take_at};
use crate::write::{damaged, temp_page};
use crate::{Run, RunPos};
use arrayvec::ArrayVec;
use hg_base::{Check, File, PageFault, Pages};

/// Reads the record that begins at an offset of a page, under one pin. None where the records end
/// there; `out` then stays.
fn take_from<S: Pages>(
    space: &mut S,
    no: u32,
    offset: u16,
    out: &mut ArrayVec<u8, 4000>,
) -> Result<Option<Found>, PageFault>
    requires no_pins { NoPins (S.state space.old) }
    requires plain { IsPlain (S.state space.old) (key_in File.Temp no) }
    requires sound { (S.state space.old).told ≡ true → (page : List ℕ) × (done : List (List ℕ))
        × (todo : List (List ℕ)) × ((S.state space.old).bytes (key_in File.Temp no) ≡ Some page)
        × IsPageAt page offset done todo }
    ensures next { IfOk result (λ found. (page : List ℕ) (done todo : List (List ℕ))
        → (S.state space.old).bytes (key_in File.Temp no) ≡ Some page
        → IsPageAt page offset done todo → TakesNext done todo found out.new.items) }
    ensures none { result ≡ Ok None → out.new ≡ out.old }
    ensures err { OnErr result (out.new ≡ out.old) }
    ensures looks { Looks (S.state space.old) (S.state space.new) }
    ensures cause { HasCause (S.state space.old) (S.state space.new) (fault_of result) }
    ensures fault { IfErr result ReadFault }
    ensures page { IfErr result (NamesGiven (Some no)) }
{
    let pin = space.pin(temp_page(no))?;
    let found = take_at(space.bytes(&pin), offset as usize, out);
    space.unpin(pin);
    match found {
        Ok(found) => Ok(found),
        Err(check) => Err(damaged(no, check)),
    }
}

/// The position behind a record that was read. Where its page ends there and another one follows, it
/// is the first of that page.
fn behind<S: Pages>(space: &S, no: u32, found: Found) -> RunPos
    requires { (S.state space.now).taken (key_in File.Temp no) ≡ true }
    ensures { IsBehind (S.state space.now) no found result }
{
    if found.is_last {
        if let Some(next) = space.next(temp_page(no)) {
            return RunPos {
                page: Some(next),
                offset: HEAD as u16,
            };
        }
    }
    RunPos {
        page: Some(no),
        offset: found.after,
    }
}

impl RunPos {
    /// The position before the first record of any run.
    pub fn start() -> RunPos
        ensures { result ≡ first_position }
    {
        RunPos {
            page: None,
            offset: 0,
        }
    }

    /// The position itself, or the first one of the first page.
    fn from(self, first: Option<u32>) -> RunPos
        ensures { result ≡ position_from self first }
    {
        match self.page {
            Some(_) => self,
            None => RunPos {
                page: first,
                offset: HEAD as u16,
            },
        }
    }
}

impl Run {
    /// Reads the record behind a position into `out`, and moves the position behind it. False exactly
    /// where no record is left; the position and `out` then stay, as they do where it is refused.
    pub fn read<S: Pages>(
        &self,
        space: &mut S,
        at: &mut RunPos,
        out: &mut ArrayVec<u8, 4000>,
    ) -> Result<bool, PageFault>
        requires no_pins { NoPins (S.state space.old) }
        requires way { HasWay (S.state space.old) self.now at.old }
        ensures read { IfOk result (λ read. (rs : List (List ℕ)) (pages : List ℕ)
            (done rest : List (List ℕ)) → IsRun (S.state space.old) self.now rs pages
            → IsAt pages rs at.old done rest
            → Reads read pages rs at.new done rest out.new.items) }
        ensures on_pages { (pages : List ℕ) → IsChain (S.state space.old) self.now pages
            → StandsOn pages at.new.page }
        ensures end { result ≡ Ok false → at.new ≡ at.old }
        ensures end_out { result ≡ Ok false → out.new ≡ out.old }
        ensures err { OnErr result (at.new ≡ at.old) }
        ensures err_out { OnErr result (out.new ≡ out.old) }
        ensures steady { Steady none_mine (S.state space.old) (S.state space.new) }
        ensures taken { (S.state space.new).taken ≡ (S.state space.old).taken }
        ensures cause { HasCause (S.state space.old) (S.state space.new) (fault_of result) }
        ensures fault { IfErr result ReadFault }
        ensures page { (pages : List ℕ) → IsChain (S.state space.old) self.now pages
            → IfErr result (NamesOneOf pages) }
    {
        let start = at.from(self.first);
        let Some(no) = start.page else {
            return Ok(false);
        };
        if let Some(found) = take_from(space, no, start.offset, out)? {
            *at = behind(space, no, found);
            return Ok(true);
        }
        let Some(next) = space.next(temp_page(no)) else {
            return Ok(false);
        };
        match take_from(space, next, HEAD as u16, out)? {
            Some(found) => {
                *at = behind(space, next, found);
                Ok(true)
            }
            None => Err(damaged(next, Check::Size)),
        }
    }
}

//! How a run begins, grows and ends.
ghost use Rattle.std.specs.Prelude.{◌≡◌, ℕ, ◌+◌, ◌-◌, ◌^◌, min, ◌<◌, ◌≤◌, true, List, [], ◌∷◌, length, None, Err, Some, IfOk, IfErr, OnOk, OnErr};
ghost use Rattle.hg_base.specs.Space.{NoPins, key_in};
ghost use Rattle.hg_base.specs.Causes.{HasCause, FreshFault, fault_of};
ghost use Rattle.hg_base.specs.Steadiness.{Steady, IsPlain};
ghost use Rattle.hg_run.specs.Format.{IsClean, IsRunPage};
ghost use Rattle.hg_run.specs.Runs.{IsChain, IsRun, no_run};
ghost use Rattle.hg_run.specs.Calls.{none_mine, append_mine, temp_page, HasRun, Appends, NeedsPage, Ends, AppendFault, NamesGiven};
ghost use Rattle.hg_run.specs.Steps.{Looks, PutsOn, PutsLast, MakesPage, AddsRecord};

use crate::Run;
use crate::page::{put_in, start};
use hg_base::{Check, File, PageFault, PageId, Pages};

/// The temporary page with this number.
pub fn temp_page(no: u32) -> PageId
    ensures { result ≡ temp_page no }
{
    PageId {
        file: File::Temp,
        no,
    }
}

/// What was found wrong with a page.
pub fn damaged(no: u32, check: Check) -> PageFault
    ensures { result ≡ PageFault.Damaged (temp_page no) check }
{
    PageFault::Damaged {
        page: temp_page(no),
        check,
    }
}

/// Puts a record behind those of a page. False where it does not fit.
fn put_on<S: Pages>(space: &mut S, no: u32, bytes: &[u8]) -> Result<bool, PageFault>
    requires out { NoPins (S.state space.old) }
    requires plain { IsPlain (S.state space.old) (key_in File.Temp no) }
    requires sound { (S.state space.old).told ≡ true → (page : List ℕ) × (rs : List (List ℕ))
        × ((S.state space.old).bytes (key_in File.Temp no) ≡ Some page) × IsRunPage page rs }
    requires some { 1 ≤ length bytes.now }
    requires few { length bytes.now ≤ 4000 }
    ensures put { IfOk result (PutsOn (S.state space.old) (S.state space.new) no bytes.now) }
    ensures err { OnErr result (Looks (S.state space.old) (S.state space.new)) }
    ensures cause { HasCause (S.state space.old) (S.state space.new) (fault_of result) }
    ensures fault { IfErr result (AppendFault (S.state space.old)) }
    ensures page { IfErr result (NamesGiven (Some no)) }
    ensures not_full { result ≡ Err PageFault.TempFull → ⊥ }
{
    let pin = space.pin(temp_page(no))?;
    let answer = put_in(space.bytes_mut(&pin), bytes);
    space.unpin(pin);
    match answer {
        Ok(true) => Ok(true),
        Ok(false) => Ok(false),
        Err(check) => Err(damaged(no, check)),
    }
}

/// Makes a page that holds one record.
fn start_with(page: &mut [u8], bytes: &[u8])
    requires whole { length page.old ≡ 4096 }
    requires some { 1 ≤ length bytes.now }
    requires few { length bytes.now ≤ 4000 }
    ensures page { IsRunPage page.new (bytes.now ∷ []) }
    ensures clean { IsClean page.new }
{
    start(page);
    match put_in(page, bytes) {
        Ok(true) => {}
        Ok(false) => unreachable!(),
        Err(_) => unreachable!(),
    }
}

/// Takes a page and puts a record there.
fn new_page<S: Pages>(space: &mut S, bytes: &[u8]) -> Result<u32, PageFault>
    requires out { NoPins (S.state space.old) }
    requires some { 1 ≤ length bytes.now }
    requires few { length bytes.now ≤ 4000 }
    ensures made { IfOk result (MakesPage (S.state space.old) (S.state space.new) bytes.now) }
    ensures err { OnErr result (Looks (S.state space.old) (S.state space.new)) }
    ensures cause { HasCause (S.state space.old) (S.state space.new) (fault_of result) }
    ensures fault { IfErr result (AppendFault (S.state space.old)) }
    ensures whole { IfErr result (NamesGiven None) }
{
    let pin = space.fresh(File::Temp)?;
    let page = space.page_of(&pin);
    start_with(space.bytes_mut(&pin), bytes);
    space.unpin(pin);
    Ok(page.no)
}

/// Puts a record on a new page behind the last one of a run.
fn add_page<S: Pages>(run: &mut Run, space: &mut S, bytes: &[u8]) -> Result<(), PageFault>
    requires out { NoPins (S.state space.old) }
    requires chain { (pages : List ℕ) × IsChain (S.state space.old) run.old pages }
    requires some { 1 ≤ length bytes.now }
    requires few { length bytes.now ≤ 4000 }
    ensures made { OnOk result ((x : ℕ) × AddsRecord (S.state space.old) (S.state space.new)
        run.old run.new bytes.now x) }
    ensures records { run.new.records ≡ run.old.records }
    ensures same { OnErr result (run.new ≡ run.old) }
    ensures err { OnErr result (Looks (S.state space.old) (S.state space.new)) }
    ensures cause { HasCause (S.state space.old) (S.state space.new) (fault_of result) }
    ensures fault { IfErr result (AppendFault (S.state space.old)) }
    ensures whole { IfErr result (NamesGiven None) }
{
    let no = new_page(space, bytes)?;
    match run.last {
        Some(last) => space.set_next(temp_page(last), Some(no)),
        None => run.first = Some(no),
    }
    run.last = Some(no);
    Ok(())
}

/// Puts a record behind those of the last page of a run. False where there is no page, or it does not
/// fit there.
fn put_last<S: Pages>(run: &Run, space: &mut S, bytes: &[u8]) -> Result<bool, PageFault>
    requires out { NoPins (S.state space.old) }
    requires chain { (pages : List ℕ) × IsChain (S.state space.old) run.now pages }
    requires run { (S.state space.old).told ≡ true → HasRun (S.state space.old) run.now }
    requires some { 1 ≤ length bytes.now }
    requires few { length bytes.now ≤ 4000 }
    ensures put { IfOk result (PutsLast (S.state space.old) (S.state space.new) run.now.last
        bytes.now) }
    ensures err { OnErr result (Looks (S.state space.old) (S.state space.new)) }
    ensures cause { HasCause (S.state space.old) (S.state space.new) (fault_of result) }
    ensures fault { IfErr result (AppendFault (S.state space.old)) }
    ensures page { IfErr result (NamesGiven run.now.last) }
    ensures not_full { result ≡ Err PageFault.TempFull → ⊥ }
{
    match run.last {
        Some(last) => put_on(space, last, bytes),
        None => Ok(false),
    }
}

impl Run {
    /// A run with no record. It has no page.
    pub fn new() -> Run
        ensures { result ≡ no_run }
    {
        Run {
            first: None,
            last: None,
            records: 0,
        }
    }

    /// Puts a record behind the others. It goes to the last page where it fits there, and else to a new
    /// page behind it. Refused, the run and the space are as before, but for counts.
    pub fn append<S: Pages>(&mut self, space: &mut S, bytes: &[u8]) -> Result<(), PageFault>
        requires out { NoPins (S.state space.old) }
        requires chain { (pages : List ℕ) × IsChain (S.state space.old) self.old pages }
        requires run { (S.state space.old).told ≡ true → HasRun (S.state space.old) self.old }
        requires numbers { (S.state space.old).limit File.Temp ≤ 2 ^ 32 }
        requires some { 1 ≤ length bytes.now }
        requires few { length bytes.now ≤ 4000 }
        ensures ok { OnOk result ((pages : List ℕ) → IsChain (S.state space.old) self.old pages
            → Appends (S.state space.old) (S.state space.new) self.old self.new pages bytes.now) }
        ensures steady { OnOk result (Steady (append_mine self.old self.new) (S.state space.old)
            (S.state space.new)) }
        ensures counted { OnOk result (self.new.records ≡ min (self.old.records + 1) (2 ^ 64 - 1)) }
        ensures err { OnErr result (self.new ≡ self.old) }
        ensures err_steady { OnErr result (Steady none_mine (S.state space.old)
            (S.state space.new)) }
        ensures err_taken { OnErr result ((S.state space.new).taken ≡ (S.state space.old).taken) }
        ensures cause { HasCause (S.state space.old) (S.state space.new) (fault_of result) }
        ensures fault { IfErr result (AppendFault (S.state space.old)) }
        ensures page { IfErr result (NamesGiven self.old.last) }
        ensures full { result ≡ Err PageFault.TempFull → (rs : List (List ℕ)) (pages : List ℕ)
            → IsRun (S.state space.old) self.old rs pages → NeedsPage rs bytes.now pages }
    {
        if !put_last(self, space, bytes)? {
            add_page(self, space, bytes)?;
        }
        self.records = self.records.saturating_add(1);
        Ok(())
    }

    /// Gives all pages back. It calls no device, so it cannot fail.
    pub fn destroy<S: Pages>(self, space: &mut S)
        requires out { NoPins (S.state space.old) }
        requires chain { (pages : List ℕ) × IsChain (S.state space.old) self pages }
        ensures { (pages : List ℕ) → IsChain (S.state space.old) self pages
            → Ends (S.state space.old) (S.state space.new) pages }
    {
        let mut next = self.first;
        for _turn in 0..space.taken(File::Temp) {
            let Some(no) = next else {
                return;
            };
            let page = temp_page(no);
            next = space.next(page);
            space.release(page);
        }
    }
}

//! The calls on a table.

use crate::stamping::Stamps;
use crate::{insertion, kill, reading, seeking, walk};
use hg_base::{PageFault, Pages, Place, Stamp, Table};
use hg_value::Row;

/// What is done with a table: `hg_base`'s [`Table`] says where its pages stand. Each call pins no page
/// that it does not give back, refused or not, and needs no memory. No pin is out when it is called.
///
/// Over a space that does not tell its bytes each call is safe and ends. What it finds damaged then
/// it answers as [`PageFault::Damaged`], with the page and what was wrong: `Kind` and `Size` of a
/// page that is no slotted page, `RowBytes` of a place whose page cannot be pinned or that holds no
/// version, `Level` of a page of the chain, the first or a successor, that cannot be pinned, `Order`
/// of a walk that passes more pages than are taken, which names the page that it would enter next.
/// Successors are kept beside the pages, over every space: where the pages of the table are known and the
/// walk begins on one of them, neither of the last two comes. The bytes that a pin showed are not told
/// after the call, so which of their checks failed is exact in the calls of `hg_slot` on bytes alone:
/// Kind comes only where byte 0 is another one.
pub trait TableCalls {
    ghost use Rattle.std.specs.Prelude.{◌≡◌, ◌≢◌, ℕ, ◌+◌, ◌≤◌, ◌⊎◌, true, false, List, length, Some, None, Ok, Err, IfOk, IfErr, OnOk, OnErr, IfSome, IsSome, IsErrOf, option_map};
    ghost use Rattle.hg_base.specs.Space.{NoPins};
    ghost use Rattle.hg_base.specs.Causes.{HasCause, fault_of};
    ghost use Rattle.hg_base.specs.Steadiness.{Steady};
    ghost use Rattle.hg_base.specs.declared.Stamp.{Stamp as StampOf};
    ghost use Rattle.hg_base.specs.declared.Table.{Table as TableOf};
    ghost use Rattle.hg_value.specs.Coding.{coded};
    ghost use Rattle.hg_table.specs.Marks.{committed};
    ghost use Rattle.hg_table.specs.Chains.{IsChain};
    ghost use Rattle.hg_table.specs.Versions.{Placed, IsTable};
    ghost use Rattle.hg_table.specs.Places.{version_at, behind, first_place, first_seen, Finds, sees, killed};
    ghost use Rattle.hg_table.specs.Calls.{none_mine, page_mine, insert_mine, HasTable, HasPage, HasVersion, HasStart, HasWay, Inserts, KeepsPages, AddsPage, InsertFault, LookFault, IsPageCheck, IsVersionCheck, IsWalkCheck, NamesPage, NamesGiven, NamesMain, NamesOneOf, IsBarred, HasNoRoom, StandsOn, TakesNone, CannotBePinned, LeavesRow, WalksOn, walk_start, wrong_place, newborn};

    // where the table's pages stand
    ghost ends: { Self → TableOf };

    /// Puts a version of a row into the table, born under a stamp, and gives its place. It goes to the
    /// last page where it fits there, and else to a new page behind it. Refused, the table and the
    /// space are as before, but for counts.
    fn insert<S: Pages>(
        &mut self,
        space: &mut S,
        row: &Row,
        born: Stamp,
    ) -> Result<Place, PageFault>
        requires out { NoPins (S.state space.old) }
        requires chain { (pages : List ℕ) × IsChain (S.state space.old) (ends self.old) pages }
        requires table { (S.state space.old).told ≡ true
            → HasTable (S.state space.old) (ends self.old) }
        requires short { length (coded row.now) ≤ 1000 }
        ensures ok { IfOk result (λ at. (pages : List ℕ)
            → IsChain (S.state space.old) (ends self.old) pages
            → Inserts (S.state space.old) (S.state space.new) (ends self.old)
            (ends self.new) pages (newborn row.now born.0 at)) }
        ensures pages { IfOk result (λ at. KeepsPages (S.state space.old) (S.state space.new)
            (ends self.old) (ends self.new) at.page
            ⊎ AddsPage (S.state space.old) (S.state space.new) (ends self.old)
            (ends self.new) at.page (8 + length (coded row.now))) }
        ensures steady { IfOk result (λ at. Steady (insert_mine (ends self.old) at)
            (S.state space.old) (S.state space.new)) }

        ensures err { OnErr result (ends self.new ≡ ends self.old) }
        ensures err_steady { OnErr result (Steady none_mine (S.state space.old)
            (S.state space.new)) }
        ensures err_taken { OnErr result ((S.state space.new).taken ≡ (S.state space.old).taken) }
        ensures cause { HasCause (S.state space.old) (S.state space.new) (fault_of result) }
        ensures fault { IfErr result (InsertFault (S.state space.old)) }
        ensures page { IfErr result (NamesGiven (ends self.old).last) }
        ensures full { result ≡ Err PageFault.MainFull → HasNoRoom (S.state space.old)
            (ends self.old).last (8 + length (coded row.now)) };

    /// Sets the stamp under which a version died, also over an earlier one.
    fn kill<S: Pages>(&mut self, space: &mut S, at: Place, died: Stamp) -> Result<(), PageFault>
        requires out { NoPins (S.state space.old) }
        requires there { (S.state space.old).told ≡ true → (columns : ℕ)
            × HasVersion (S.state space.old) (ends self.old) columns at }
        requires stamp { died.0 ≢ 0 }
        ensures ok { OnOk result ((columns : ℕ) (pages : List ℕ) (versions : List Placed)
            → IsTable (S.state space.old) (ends self.old) columns pages versions
            → IsTable (S.state space.new) (ends self.new) columns pages
            (killed at died.0 versions)) }
        ensures same { ends self.new ≡ ends self.old }
        ensures chain { (pages : List ℕ) → IsChain (S.state space.old) (ends self.old) pages
            → IsChain (S.state space.new) (ends self.old) pages }
        ensures links { (S.state space.new).next ≡ (S.state space.old).next }
        ensures heaps { (S.state space.new).of_heap ≡ (S.state space.old).of_heap }
        ensures steady { OnOk result (Steady (page_mine at.page) (S.state space.old)
            (S.state space.new)) }
        ensures err_steady { OnErr result (Steady none_mine (S.state space.old)
            (S.state space.new)) }
        ensures takes_none { TakesNone (S.state space.old) (S.state space.new) }
        ensures cause { HasCause (S.state space.old) (S.state space.new) (fault_of result) }
        ensures fault { IfErr result (LookFault IsVersionCheck) }
        ensures page { IfErr result (NamesPage at.page) }
        ensures no_page { CannotBePinned (S.state space.old) at.page
            → IsErrOf result (wrong_place at.page) };

    /// Whether a version stands at a place and the snapshot sees it. Its row is put into `out` then;
    /// where it is not seen, `out` stays as it was; refused, `out` is as it was or has no values.
    fn read<S: Pages>(
        &self,
        space: &mut S,
        at: Place,
        columns: u8,
        snapshot: Stamp,
        stamps: &Stamps,
        out: &mut Row,
    ) -> Result<bool, PageFault>
        requires no_pins { NoPins (S.state space.old) }
        requires page { (S.state space.old).told ≡ true
            → HasPage (S.state space.old) (ends self.now) columns at }
        ensures seen { IfOk result (λ seen. (pages : List ℕ) (versions : List Placed)
            → IsTable (S.state space.old) (ends self.now) columns pages versions
            → seen ≡ sees (committed stamps.now) snapshot.0 (version_at versions at)) }
        ensures row { result ≡ Ok true → (pages : List ℕ) (versions : List Placed)
            → IsTable (S.state space.old) (ends self.now) columns pages versions
            → IfSome (version_at versions at) (λ v. out.new ≡ v.row) }
        ensures width { result ≡ Ok true → length out.new ≡ columns }
        ensures unseen { result ≡ Ok false → out.new ≡ out.old }
        ensures steady { Steady none_mine (S.state space.old) (S.state space.new) }
        ensures takes_none { TakesNone (S.state space.old) (S.state space.new) }
        ensures cause { HasCause (S.state space.old) (S.state space.new) (fault_of result) }
        ensures fault { IfErr result (LookFault IsVersionCheck) }
        ensures page { IfErr result (NamesPage at.page) }
        ensures no_page { CannotBePinned (S.state space.old) at.page
            → IsErrOf result (wrong_place at.page) }
        ensures refused { OnErr result (LeavesRow out.old out.new) };

    /// The place of the next version behind `at`, in order of pages and slots; of the first where `at`
    /// is None. None where no version is left. A version need not stand at `at` any more.
    fn after<S: Pages>(&self, space: &mut S, at: Option<Place>) -> Result<Option<Place>, PageFault>
        requires out { NoPins (S.state space.old) }
        requires start { (S.state space.old).told ≡ true
            → HasStart (S.state space.old) (ends self.now) at }
        ensures next { IfOk result (λ next. (columns : ℕ) (pages : List ℕ)
            (versions : List Placed)
            → IsTable (S.state space.old) (ends self.now) columns pages versions
            → next ≡ first_place (behind pages at versions)) }
        ensures on_pages { IfOk result (λ next. (pages : List ℕ)
            → IsChain (S.state space.old) (ends self.now) pages → StandsOn pages at
            → StandsOn pages next) }
        ensures steady { Steady none_mine (S.state space.old) (S.state space.new) }
        ensures takes_none { TakesNone (S.state space.old) (S.state space.new) }
        ensures cause { HasCause (S.state space.old) (S.state space.new) (fault_of result) }
        ensures fault { IfErr result (LookFault IsWalkCheck) }
        ensures page { IfErr result NamesMain }
        ensures level { IfErr result (IsBarred (S.state space.old) at) }
        ensures known { (pages : List ℕ) → IsChain (S.state space.old) (ends self.now) pages
            → StandsOn pages at → IfErr result (LookFault IsPageCheck) }
        ensures order { IfErr result (WalksOn (S.state space.old)
            (walk_start (S.state space.old) (ends self.now) at)) }
        ensures no_page { IfSome at (λ place. CannotBePinned (S.state space.old) place.page
            → IsErrOf result (wrong_place place.page)) };

    /// The first version behind `at`, in order of pages and slots, that the snapshot sees; the first of
    /// all that it sees where `at` is None. Its row is put into `out`, under the pin under which it was
    /// found; each page is pinned once. None where no such version is left: `out` then stays as it was.
    /// Refused, `out` is as it was or has no values. A version need not stand at `at` any more. Since the pages of the table are known over every space,
    /// neither Level nor Order comes: what is damaged is a page of the table, or the bytes of a record.
    fn next_visible<S: Pages>(
        &self,
        space: &mut S,
        at: Option<Place>,
        columns: u8,
        snapshot: Stamp,
        stamps: &Stamps,
        out: &mut Row,
    ) -> Result<Option<Place>, PageFault>
        requires no_pins { NoPins (S.state space.old) }
        requires way { HasWay (S.state space.old) (ends self.now) columns at }
        ensures seen { IfOk result (λ next. (pages : List ℕ) (versions : List Placed)
            → IsTable (S.state space.old) (ends self.now) columns pages versions
            → Finds (first_seen (committed stamps.now) snapshot.0 (behind pages at versions))
            next out.old out.new) }
        ensures unseen { result ≡ Ok None → out.new ≡ out.old }
        ensures width { IfOk result (λ next. IsSome next → length out.new ≡ columns) }
        ensures on_pages { IfOk result (λ next. (pages : List ℕ)
            → IsChain (S.state space.old) (ends self.now) pages → StandsOn pages next) }
        ensures steady { Steady none_mine (S.state space.old) (S.state space.new) }
        ensures takes_none { TakesNone (S.state space.old) (S.state space.new) }
        ensures cause { HasCause (S.state space.old) (S.state space.new) (fault_of result) }
        ensures fault { IfErr result (LookFault IsVersionCheck) }
        ensures page { (pages : List ℕ) → IsChain (S.state space.old) (ends self.now) pages
            → IfErr result (NamesOneOf pages) }
        ensures refused { OnErr result (LeavesRow out.old out.new) };

    /// The stamps of the version at a place, seen or not. Its row is put into `out`; refused, `out` is as
    /// it was or has no values.
    fn version<S: Pages>(
        &self,
        space: &mut S,
        at: Place,
        columns: u8,
        out: &mut Row,
    ) -> Result<(Stamp, Option<Stamp>), PageFault>
        requires no_pins { NoPins (S.state space.old) }
        requires there { (S.state space.old).told ≡ true
            → HasVersion (S.state space.old) (ends self.now) columns at }
        ensures found { IfOk result (λ stamps. (pages : List ℕ) (versions : List Placed)
            → IsTable (S.state space.old) (ends self.now) columns pages versions
            → version_at versions at ≡ Some (record {
              born = stamps.0.0;
              died = option_map (λ
                  (s : StampOf). s.0) stamps.1;
              row = out.new;
            })) }
        ensures width { OnOk result (length out.new ≡ columns) }
        ensures steady { Steady none_mine (S.state space.old) (S.state space.new) }
        ensures takes_none { TakesNone (S.state space.old) (S.state space.new) }
        ensures cause { HasCause (S.state space.old) (S.state space.new) (fault_of result) }
        ensures fault { IfErr result (LookFault IsVersionCheck) }
        ensures page { IfErr result (NamesPage at.page) }
        ensures no_page { CannotBePinned (S.state space.old) at.page
            → IsErrOf result (wrong_place at.page) }
        ensures refused { OnErr result (LeavesRow out.old out.new) };
}

impl TableCalls for Table {
    ghost ends = { λ t. t };

    fn insert<S: Pages>(
        &mut self,
        space: &mut S,
        row: &Row,
        born: Stamp,
    ) -> Result<Place, PageFault> {
        insertion::insert(self, space, row, born)
    }

    fn kill<S: Pages>(&mut self, space: &mut S, at: Place, died: Stamp) -> Result<(), PageFault> {
        kill::kill(space, at, died)
    }

    fn read<S: Pages>(
        &self,
        space: &mut S,
        at: Place,
        columns: u8,
        snapshot: Stamp,
        stamps: &Stamps,
        out: &mut Row,
    ) -> Result<bool, PageFault> {
        reading::read(space, at, columns, snapshot, stamps, out)
    }

    fn after<S: Pages>(
        &self,
        space: &mut S,
        at: Option<Place>,
    ) -> Result<Option<Place>, PageFault> {
        walk::after(self, space, at)
    }

    fn next_visible<S: Pages>(
        &self,
        space: &mut S,
        at: Option<Place>,
        columns: u8,
        snapshot: Stamp,
        stamps: &Stamps,
        out: &mut Row,
    ) -> Result<Option<Place>, PageFault> {
        seeking::next_visible(self, space, at, columns, snapshot, stamps, out)
    }

    fn version<S: Pages>(
        &self,
        space: &mut S,
        at: Place,
        columns: u8,
        out: &mut Row,
    ) -> Result<(Stamp, Option<Stamp>), PageFault> {
        reading::version(space, at, columns, out)
    }
}

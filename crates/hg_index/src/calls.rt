//! The calls on an index.

use crate::{change, find, life};
use hg_base::{Index, PageFault, Pages, Place};
use hg_model::Value;
use hg_value::Row;

/// What is done with an index: `hg_base`'s [`Index`] says where its tree stands and which columns of a table
/// make its keys. An index is seen as the versions that it has entries of (`IsIndexOf`), in any order: of
/// each just one, of its key and its place. Its pages are the line from the top of its tree on. Each call
/// pins no page that it does not give back, refused or not, and needs no memory. No pin is out when it is
/// called.
///
/// What a caller holds between calls is one relation (`IsReady`), which each call keeps, refused or not: no
/// pin is out, the index has its line of pages, and where the space tells, it is an index of some versions.
///
/// A row that is entered has the index's columns, its numbers there fit 32 bits signed, and its key has at
/// most 512 bytes (`MayBeEntered`). NULL is a value like others: it equals itself and no other value.
///
/// Over a space that does not tell its bytes each call is safe and ends. What it finds damaged then it
/// answers as [`PageFault::Damaged`]: as the calls on a tree do, and besides, with the page at the tree's
/// top, `Order` of entries that do not ascend or of a walk along more entries than pages can have, and
/// `RowBytes` of an entry whose place is no place of a version.
pub trait IndexCalls {
    ghost use Rattle.std.specs.Prelude.{◌≡◌, ℕ, ◌∷◌, true, List, Ok, None, Some, IfOk, IfErr, IfSome, OnOk, OnErr};
    ghost use Rattle.std.specs.List.{AllByRecursion};
    ghost use Rattle.std.specs.List.Sorted.{IsPermutation};
    ghost use Rattle.hg_base.specs.Space.{NoPins};
    ghost use Rattle.hg_base.specs.Causes.{HasCause, fault_of};
    ghost use Rattle.hg_base.specs.Lines.{IsLine};
    ghost use Rattle.hg_base.specs.Steadiness.{Steady};
    ghost use Rattle.hg_base.specs.declared.Index.{Index as IndexOf};
    ghost use Rattle.hg_btree.specs.Deleting.{pages_mine};
    ghost use Rattle.hg_btree.specs.Growing.{LineGrows};
    ghost use Rattle.hg_btree.specs.Life.{Ends};
    ghost use Rattle.hg_btree.specs.Steps.{Looks, LookFault, GrowFault};
    ghost use Rattle.hg_index.specs.Agreeing.{IsIndexOf};
    ghost use Rattle.hg_index.specs.Calls.{HasIndex, HasNoneAt, IsIndexNow, IsReady, FindFault, most_with};
    ghost use Rattle.hg_index.specs.Entering.{MayBeEntered};
    ghost use Rattle.hg_index.specs.Finding.{IsBehind, HasFirst, HasKeyOf, FirstCompares, KeyCompares, FindsLeast};
    ghost use Rattle.hg_table.specs.Versions.{Placed};
    ghost use Rattle.hg_value.specs.Keys.{IsNarrow};

    // the tree, the columns, and whether the index is unique
    ghost index: { Self → IndexOf };

    /// Puts in the entry of a version: of this row at this place, where no other version stands. Refused,
    /// the index has the entries that it had. Full pages on the way are split, refused or not, so it may
    /// have more pages.
    fn add<S: Pages>(&mut self, space: &mut S, row: &Row, at: Place) -> Result<(), PageFault>
        requires out { NoPins (S.state space.old) }
        requires line { (pages : List ℕ) × IsLine (index self.old).tree.file (S.state space.old)
            (Some (index self.old).tree.top) pages }
        requires there { (S.state space.old).told ≡ true
            → HasIndex (S.state space.old) (index self.old) }
        requires may { MayBeEntered (index self.old).columns.items row.now }
        ensures added { OnOk result ((pages : List ℕ) (leaves : ℕ) (versions : List Placed)
            (h : IsIndexOf (S.state space.old) (index self.old) pages leaves versions) (v : Placed)
            → v.version.row ≡ row.now → v.place ≡ at → HasNoneAt at versions
            → IsIndexNow (S.state space.new) (index self.old)
            (most_with (S.state space.old) (index self.old) pages leaves versions h row.now at) leaves
            (v ∷ versions)) }
        ensures err { OnErr result ((pages : List ℕ) (leaves : ℕ) (versions : List Placed)
            (h : IsIndexOf (S.state space.old) (index self.old) pages leaves versions)
            → IsIndexNow (S.state space.new) (index self.old)
            (most_with (S.state space.old) (index self.old) pages leaves versions h row.now at) leaves
            versions) }
        ensures line { (pages : List ℕ) → IsLine (index self.old).tree.file (S.state space.old)
            (Some (index self.old).tree.top) pages
            → LineGrows (index self.old).tree.file (S.state space.old) (S.state space.new)
            (index self.old).tree.top pages }
        ensures ready { IsReady (S.state space.old) (index self.old)
            → IsReady (S.state space.new) (index self.old) }
        ensures same { index self.new ≡ index self.old }
        ensures cause { HasCause (S.state space.old) (S.state space.new) (fault_of result) }
        ensures fault { IfErr result (GrowFault (index self.old).tree.file (S.state space.new)) };

    /// Takes the entry of a version out: of this row at this place. Where there is no such entry the
    /// index stays. Its line stays in any case. Refused, nothing changed.
    fn remove<S: Pages>(&mut self, space: &mut S, row: &Row, at: Place) -> Result<(), PageFault>
        requires out { NoPins (S.state space.old) }
        requires there { (S.state space.old).told ≡ true
            → HasIndex (S.state space.old) (index self.old) }
        requires may { MayBeEntered (index self.old).columns.items row.now }
        ensures gone { OnOk result ((pages : List ℕ) (leaves : ℕ) (versions rest : List Placed)
            (v : Placed) → IsIndexOf (S.state space.old) (index self.old) pages leaves versions
            → IsPermutation versions (v ∷ rest) → v.version.row ≡ row.now → v.place ≡ at
            → IsIndexOf (S.state space.new) (index self.old) pages leaves rest) }
        ensures absent { OnOk result ((pages : List ℕ) (leaves : ℕ) (versions : List Placed)
            → IsIndexOf (S.state space.old) (index self.old) pages leaves versions
            → HasNoneAt at versions
            → IsIndexOf (S.state space.new) (index self.old) pages leaves versions) }
        ensures steady { OnOk result ((pages : List ℕ) → IsLine (index self.old).tree.file
            (S.state space.old) (Some (index self.old).tree.top) pages
            → Steady (pages_mine (index self.old).tree.file pages) (S.state space.old)
            (S.state space.new)) }
        ensures taken { OnOk result ((S.state space.new).taken ≡ (S.state space.old).taken) }
        ensures line { (pages : List ℕ) → IsLine (index self.old).tree.file (S.state space.old)
            (Some (index self.old).tree.top) pages
            → IsLine (index self.old).tree.file (S.state space.new) (Some (index self.old).tree.top)
            pages }
        ensures ready { IsReady (S.state space.old) (index self.old)
            → IsReady (S.state space.new) (index self.old) }
        ensures same { index self.new ≡ index self.old }
        ensures err { OnErr result (Looks (S.state space.old) (S.state space.new)) }
        ensures cause { HasCause (S.state space.old) (S.state space.new) (fault_of result) }
        ensures fault { IfErr result (LookFault (index self.old).tree.file) };

    /// Of the places of versions whose first key column is this value the least one behind `after`, or the
    /// least of all where `after` is None; None exactly where there is none. A number that does not fit 32
    /// bits signed is the value of none. With one column this is one search of the tree; with several it is
    /// one or two for each different key that begins with the value.
    fn first_from<S: Pages>(
        &self,
        space: &mut S,
        first: &Value,
        after: Option<Place>,
    ) -> Result<Option<Place>, PageFault>
        requires out { NoPins (S.state space.old) }
        requires there { (S.state space.old).told ≡ true
            → HasIndex (S.state space.old) (index self.now) }
        ensures first { IfOk result (λ found. (pages : List ℕ) (leaves : ℕ) (versions : List Placed)
            → IsIndexOf (S.state space.old) (index self.now) pages leaves versions
            → AllByRecursion (FirstCompares (index self.now).columns.items first.now) versions
            → FindsLeast (HasFirst (index self.now).columns.items first.now) after versions found) }
        ensures behind { IfOk result (λ found. IfSome found (IsBehind after)) }
        ensures wide { (IsNarrow first.now → ⊥) → result ≡ Ok None }
        ensures looks { Looks (S.state space.old) (S.state space.new) }
        ensures ready { IsReady (S.state space.old) (index self.now)
            → IsReady (S.state space.new) (index self.now) }
        ensures cause { HasCause (S.state space.old) (S.state space.new) (fault_of result) }
        ensures fault { IfErr result (FindFault (index self.now).tree.file) };

    /// Of the places of versions with the key of this row the least one behind `after`, or the least of all
    /// where `after` is None; None exactly where there is none. It is one search of the tree. Whoever looks
    /// for a second row with a unique key asks for rows without NULL in the key alone.
    fn same_key<S: Pages>(
        &self,
        space: &mut S,
        row: &Row,
        after: Option<Place>,
    ) -> Result<Option<Place>, PageFault>
        requires out { NoPins (S.state space.old) }
        requires there { (S.state space.old).told ≡ true
            → HasIndex (S.state space.old) (index self.now) }
        requires may { MayBeEntered (index self.now).columns.items row.now }
        ensures same { IfOk result (λ found. (pages : List ℕ) (leaves : ℕ) (versions : List Placed)
            → IsIndexOf (S.state space.old) (index self.now) pages leaves versions
            → AllByRecursion (KeyCompares (index self.now).columns.items row.now) versions
            → FindsLeast (HasKeyOf (index self.now).columns.items row.now) after versions found) }
        ensures behind { IfOk result (λ found. IfSome found (IsBehind after)) }
        ensures looks { Looks (S.state space.old) (S.state space.new) }
        ensures ready { IsReady (S.state space.old) (index self.now)
            → IsReady (S.state space.new) (index self.now) }
        ensures cause { HasCause (S.state space.old) (S.state space.new) (fault_of result) }
        ensures fault { IfErr result (FindFault (index self.now).tree.file) };

    /// Gives all pages of the index back. It calls no device and cannot fail.
    fn destroy<S: Pages>(self, space: &mut S)
        requires out { NoPins (S.state space.old) }
        requires line { (pages : List ℕ) × IsLine (index self).tree.file (S.state space.old)
            (Some (index self).tree.top) pages }
        ensures { (pages : List ℕ)
            → IsLine (index self).tree.file (S.state space.old) (Some (index self).tree.top) pages
            → Ends (index self).tree.file (S.state space.old) (S.state space.new) pages };
}

impl IndexCalls for Index {
    ghost index = { λ i. i };

    fn add<S: Pages>(&mut self, space: &mut S, row: &Row, at: Place) -> Result<(), PageFault> {
        change::add(self, space, row, at)
    }

    fn remove<S: Pages>(&mut self, space: &mut S, row: &Row, at: Place) -> Result<(), PageFault> {
        change::remove(self, space, row, at)
    }

    fn first_from<S: Pages>(
        &self,
        space: &mut S,
        first: &Value,
        after: Option<Place>,
    ) -> Result<Option<Place>, PageFault> {
        find::first_from(self, space, first, after)
    }

    fn same_key<S: Pages>(
        &self,
        space: &mut S,
        row: &Row,
        after: Option<Place>,
    ) -> Result<Option<Place>, PageFault> {
        find::same_key(self, space, row, after)
    }

    fn destroy<S: Pages>(self, space: &mut S) {
        life::destroy(self, space)
    }
}

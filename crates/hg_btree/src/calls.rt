//! The calls on a tree.

use crate::{delete, insert, life, seek};
use arrayvec::ArrayVec;
use hg_base::{File, PageFault, Pages, Tree};

/// What is done with an ordered tree: `hg_base`'s [`Tree`] says where its top page stands, which never
/// changes. The tree is seen as its entries, keys and places in order, with its pages as the line from
/// the top on and its number of leaves (`IsTree`). Each call pins no page that it does not give back,
/// refused or not, and needs no memory. No pin is out when it is called. A key has at most 512 bytes
/// where it is stored.
///
/// What a caller holds between calls is one relation (`IsReady`), which each call keeps, refused or not: no
/// pin is out, the tree has its line of pages, and where the space tells, it is a tree.
///
/// Over a space that does not tell its bytes each call is safe and ends. What it finds damaged then it
/// answers as [`PageFault::Damaged`], with the page and what was wrong: `Kind` and `Size` of a page that
/// is no page of a tree, `Level` of one whose level does not fit its place in the tree or that cannot be
/// pinned, `Order` of a walk along more leaves than pages are taken.
pub trait TreeCalls {
    ghost use Rattle.std.specs.Prelude.{◌≡◌, ℕ, ◌^◌, ◌<◌, ◌≤◌, true, List, length, Some, IfOk, IfErr, OnOk, OnErr};
    ghost use Rattle.hg_base.specs.Space.{NoPins};
    ghost use Rattle.hg_base.specs.Causes.{HasCause, FreshFault, fault_of};
    ghost use Rattle.hg_base.specs.Steadiness.{Steady};
    ghost use Rattle.hg_base.specs.Lines.{IsLine};
    ghost use Rattle.hg_base.specs.declared.Tree.{Tree as TreeOf};
    ghost use Rattle.hg_btree.specs.Entries.{Entry};
    ghost use Rattle.hg_btree.specs.Nodes.{IsFirst};
    ghost use Rattle.hg_btree.specs.Trees.{IsTree, HasTree};
    ghost use Rattle.hg_btree.specs.Life.{Makes, Ends};
    ghost use Rattle.hg_btree.specs.Deleting.{Deletes, pages_mine};
    ghost use Rattle.hg_btree.specs.Steps.{Looks, LookFault, GrowFault};
    ghost use Rattle.hg_btree.specs.Growing.{Inserts, LineGrows, most_pages};
    ghost use Rattle.hg_btree.specs.Kept.{IsReady};

    // where the tree stands
    ghost stands: { Self → TreeOf };

    /// Puts an entry in. False exactly where it was there; the entries then stay, as they do where the
    /// call fails. Full pages on the way are split, so the tree's line may have more pages.
    fn insert<S: Pages>(&mut self, space: &mut S, key: &[u8], at: u64) -> Result<bool, PageFault>
        requires no_pins { NoPins (S.state space.old) }
        requires line { (pages : List ℕ)
            × IsLine (stands self.old).file (S.state space.old) (Some (stands self.old).top) pages }
        requires short { length key.now ≤ 512 }
        requires there { (S.state space.old).told ≡ true
            → HasTree (stands self.old).file (S.state space.old) (stands self.old).top }
        ensures inserts { (es : List Entry) (pages : List ℕ) (leaves : ℕ)
            (h : IsTree (stands self.old).file (S.state space.old) (stands self.old).top es pages leaves)
            → Inserts (stands self.old).file (S.state space.new) (stands self.old).top es
            (most_pages (stands self.old).file (S.state space.old) (stands self.old).top h.levels (length pages)
            (record { key = key.now; place = at; child = 0 })) leaves
            (record { key = key.now; place = at; child = 0 }) result }
        ensures line { (pages : List ℕ)
            → IsLine (stands self.old).file (S.state space.old) (Some (stands self.old).top) pages
            → LineGrows (stands self.old).file (S.state space.old) (S.state space.new) (stands self.old).top pages }
        ensures ready { IsReady (S.state space.old) (stands self.old)
            → IsReady (S.state space.new) (stands self.old) }
        ensures same { stands self.new ≡ stands self.old }
        ensures cause { HasCause (S.state space.old) (S.state space.new) (fault_of result) }
        ensures fault { IfErr result (GrowFault (stands self.old).file (S.state space.new)) };

    /// Takes an entry out. False exactly where it is not there; the tree then stays. Its line stays in any
    /// case.
    fn delete<S: Pages>(&mut self, space: &mut S, key: &[u8], at: u64) -> Result<bool, PageFault>
        requires no_pins { NoPins (S.state space.old) }
        requires there { (S.state space.old).told ≡ true
            → HasTree (stands self.old).file (S.state space.old) (stands self.old).top }
        ensures gone { IfOk result (λ gone. (es : List Entry) (pages : List ℕ) (leaves : ℕ)
            → IsTree (stands self.old).file (S.state space.old) (stands self.old).top es pages leaves
            → Deletes (stands self.old).file (S.state space.new) (stands self.old).top es pages leaves
            (record { key = key.now; place = at; child = 0 }) gone) }
        ensures steady { OnOk result ((pages : List ℕ)
            → IsLine (stands self.old).file (S.state space.old) (Some (stands self.old).top) pages
            → Steady (pages_mine (stands self.old).file pages) (S.state space.old) (S.state space.new)) }
        ensures taken { OnOk result ((S.state space.new).taken ≡ (S.state space.old).taken) }
        ensures line { (pages : List ℕ)
            → IsLine (stands self.old).file (S.state space.old) (Some (stands self.old).top) pages
            → IsLine (stands self.old).file (S.state space.new) (Some (stands self.old).top) pages }
        ensures ready { IsReady (S.state space.old) (stands self.old)
            → IsReady (S.state space.new) (stands self.old) }
        ensures same { stands self.new ≡ stands self.old }
        ensures err { OnErr result (Looks (S.state space.old) (S.state space.new)) }
        ensures cause { HasCause (S.state space.old) (S.state space.new) (fault_of result) }
        ensures fault { IfErr result (LookFault (stands self.old).file) };

    /// The first entry that is not before the one given: its place; its key is put into `out`. None where
    /// all are before it.
    fn seek<S: Pages>(
        &self,
        space: &mut S,
        key: &[u8],
        at: u64,
        out: &mut ArrayVec<u8, 512>,
    ) -> Result<Option<u64>, PageFault>
        requires no_pins { NoPins (S.state space.old) }
        requires there { (S.state space.old).told ≡ true
            → HasTree (stands self.now).file (S.state space.old) (stands self.now).top }
        ensures first { IfOk result (λ found. (es : List Entry) (pages : List ℕ) (leaves : ℕ)
            → IsTree (stands self.now).file (S.state space.old) (stands self.now).top es pages leaves
            → IsFirst es (record { key = key.now; place = at; child = 0 }) found out.new.items) }
        ensures looks { Looks (S.state space.old) (S.state space.new) }
        ensures ready { IsReady (S.state space.old) (stands self.now)
            → IsReady (S.state space.new) (stands self.now) }
        ensures cause { HasCause (S.state space.old) (S.state space.new) (fault_of result) }
        ensures fault { IfErr result (LookFault (stands self.now).file) };

    /// Gives all pages of the tree back. It calls no device and cannot fail.
    fn destroy<S: Pages>(self, space: &mut S)
        requires out { NoPins (S.state space.old) }
        requires line { (pages : List ℕ)
            × IsLine (stands self).file (S.state space.old) (Some (stands self).top) pages }
        ensures { (pages : List ℕ)
            → IsLine (stands self).file (S.state space.old) (Some (stands self).top) pages
            → Ends (stands self).file (S.state space.old) (S.state space.new) pages };
}

impl TreeCalls for Tree {
    ghost stands = { λ t. t };

    fn insert<S: Pages>(&mut self, space: &mut S, key: &[u8], at: u64) -> Result<bool, PageFault> {
        insert::insert(*self, space, key, at)
    }

    fn delete<S: Pages>(&mut self, space: &mut S, key: &[u8], at: u64) -> Result<bool, PageFault> {
        delete::delete(*self, space, key, at)
    }

    fn seek<S: Pages>(
        &self,
        space: &mut S,
        key: &[u8],
        at: u64,
        out: &mut ArrayVec<u8, 512>,
    ) -> Result<Option<u64>, PageFault> {
        seek::seek(*self, space, key, at, out)
    }

    fn destroy<S: Pages>(self, space: &mut S) {
        life::destroy(self, space)
    }
}

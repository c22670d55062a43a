//! Entries that join and leave.
ghost use Rattle.std.specs.Prelude.{◌≡◌, ℕ, ◌∷◌, true, List, Some, IfErr, OnOk, OnErr};
ghost use Rattle.std.specs.List.Sorted.{IsPermutation};
ghost use Rattle.hg_base.specs.Space.{NoPins};
ghost use Rattle.hg_base.specs.Causes.{HasCause, fault_of};
ghost use Rattle.hg_base.specs.Lines.{IsLine};
ghost use Rattle.hg_base.specs.Steadiness.{Steady};
ghost use Rattle.hg_btree.specs.Deleting.{pages_mine};
ghost use Rattle.hg_btree.specs.Growing.{LineGrows};
ghost use Rattle.hg_btree.specs.Steps.{Looks, LookFault, GrowFault};
ghost use Rattle.hg_index.specs.Agreeing.{IsIndexOf};
ghost use Rattle.hg_index.specs.Calls.{HasIndex, HasNoneAt, IsIndexNow, IsReady, most_with};
ghost use Rattle.hg_index.specs.Entering.{MayBeEntered};
ghost use Rattle.hg_table.specs.Versions.{Placed};

use crate::key::{entry_place, put_row_key};
use arrayvec::ArrayVec;
use hg_base::{Index, PageFault, Pages, Place};
use hg_btree::TreeCalls;
use hg_value::Row;

/// Puts the entry of a row at a place in.
pub fn add<S: Pages>(index: &Index, space: &mut S, row: &Row, at: Place) -> Result<(), PageFault>
    requires out { NoPins (S.state space.old) }
    requires line { (pages : List ℕ)
        × IsLine index.now.tree.file (S.state space.old) (Some index.now.tree.top) pages }
    requires there { (S.state space.old).told ≡ true → HasIndex (S.state space.old) index.now }
    requires may { MayBeEntered index.now.columns.items row.now }
    ensures added { OnOk result ((pages : List ℕ) (leaves : ℕ) (versions : List Placed)
        (h : IsIndexOf (S.state space.old) index.now pages leaves versions) (v : Placed)
        → v.version.row ≡ row.now → v.place ≡ at → HasNoneAt at versions
        → IsIndexNow (S.state space.new) index.now
        (most_with (S.state space.old) index.now pages leaves versions h row.now at) leaves
        (v ∷ versions)) }
    ensures err { OnErr result ((pages : List ℕ) (leaves : ℕ) (versions : List Placed)
        (h : IsIndexOf (S.state space.old) index.now pages leaves versions)
        → IsIndexNow (S.state space.new) index.now
        (most_with (S.state space.old) index.now pages leaves versions h row.now at) leaves versions) }
    ensures line { (pages : List ℕ)
        → IsLine index.now.tree.file (S.state space.old) (Some index.now.tree.top) pages
        → LineGrows index.now.tree.file (S.state space.old) (S.state space.new) index.now.tree.top pages }
    ensures ready { IsReady (S.state space.old) index.now
        → IsReady (S.state space.new) index.now }
    ensures cause { HasCause (S.state space.old) (S.state space.new) (fault_of result) }
    ensures fault { IfErr result (GrowFault index.now.tree.file (S.state space.new)) }
{
    let mut key: ArrayVec<u8, 512> = ArrayVec::new();
    put_row_key(index.columns.as_slice(), row, &mut key);
    let mut tree = index.tree;
    match tree.insert(space, key.as_slice(), entry_place(at)) {
        Ok(_) => Ok(()),
        Err(fault) => Err(fault),
    }
}

/// Takes the entry of a row at a place out.
pub fn remove<S: Pages>(index: &Index, space: &mut S, row: &Row, at: Place) -> Result<(), PageFault>
    requires out { NoPins (S.state space.old) }
    requires there { (S.state space.old).told ≡ true → HasIndex (S.state space.old) index.now }
    requires may { MayBeEntered index.now.columns.items row.now }
    ensures gone { OnOk result ((pages : List ℕ) (leaves : ℕ) (versions rest : List Placed)
        (v : Placed) → IsIndexOf (S.state space.old) index.now pages leaves versions
        → IsPermutation versions (v ∷ rest) → v.version.row ≡ row.now → v.place ≡ at
        → IsIndexOf (S.state space.new) index.now pages leaves rest) }
    ensures absent { OnOk result ((pages : List ℕ) (leaves : ℕ) (versions : List Placed)
        → IsIndexOf (S.state space.old) index.now pages leaves versions → HasNoneAt at versions
        → IsIndexOf (S.state space.new) index.now pages leaves versions) }
    ensures steady { OnOk result ((pages : List ℕ)
        → IsLine index.now.tree.file (S.state space.old) (Some index.now.tree.top) pages
        → Steady (pages_mine index.now.tree.file pages) (S.state space.old) (S.state space.new)) }
    ensures taken { OnOk result ((S.state space.new).taken ≡ (S.state space.old).taken) }
    ensures line { (pages : List ℕ)
        → IsLine index.now.tree.file (S.state space.old) (Some index.now.tree.top) pages
        → IsLine index.now.tree.file (S.state space.new) (Some index.now.tree.top) pages }
    ensures ready { IsReady (S.state space.old) index.now
        → IsReady (S.state space.new) index.now }
    ensures err { OnErr result (Looks (S.state space.old) (S.state space.new)) }
    ensures cause { HasCause (S.state space.old) (S.state space.new) (fault_of result) }
    ensures fault { IfErr result (LookFault index.now.tree.file) }
{
    let mut key: ArrayVec<u8, 512> = ArrayVec::new();
    put_row_key(index.columns.as_slice(), row, &mut key);
    let mut tree = index.tree;
    match tree.delete(space, key.as_slice(), entry_place(at)) {
        Ok(_) => Ok(()),
        Err(fault) => Err(fault),
    }
}

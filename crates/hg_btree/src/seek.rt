//! The way down a tree, and along its leaves.
ghost use Rattle.std.specs.Prelude.{◌≡◌, ℕ, ◌<◌, true, false, List, length, Some, IsOk, IfOk, IfErr, OnOk, OnErr};
ghost use Rattle.hg_base.specs.Space.{NoPins};
ghost use Rattle.hg_base.specs.Causes.{HasCause, fault_of};
ghost use Rattle.hg_base.specs.declared.PageId.{PageId as PageIdOf};
ghost use Rattle.hg_btree.specs.Entries.{Entry};
ghost use Rattle.hg_btree.specs.Nodes.{IsFirst};
ghost use Rattle.hg_btree.specs.Trees.{IsTree, HasTree, Reached, Along, pages_of};
ghost use Rattle.hg_btree.specs.Steps.{Looks, LookFault};

use crate::look::{OnLeaf, look, look_along};
use arrayvec::ArrayVec;
use hg_base::{Check, File, PageFault, PageId, Pages, Tree};

/// The page of a file with this number.
pub fn page_in(file: File, no: u32) -> PageId
    ensures { result ≡ record { file = file; no = no } }
{
    PageId { file, no }
}

/// The leaf where an entry stands, or would stand.
pub fn leaf_of<S: Pages>(
    tree: Tree,
    space: &mut S,
    key: &[u8],
    place: u64,
) -> Result<u32, PageFault>
    requires out { NoPins (S.state space.old) }
    requires there { (S.state space.old).told ≡ true → HasTree tree.file (S.state space.old) tree.top }
    ensures leaf { IfOk result (λ leaf. (es : List Entry) (pages : List ℕ) (leaves : ℕ) (h : IsTree tree.file (S.state space.old) tree.top es pages leaves)
        → Reached tree.top h.levels (record { key = key.now; place = place; child = 0 }) 0 leaf) }
    ensures looks { Looks (S.state space.old) (S.state space.new) }
    ensures cause { HasCause (S.state space.old) (S.state space.new) (fault_of result) }
    ensures fault { IfErr result (LookFault tree.file) }
{
    let mut found = look(space, page_in(tree.file, tree.top), key, place)?;
    if found.level == 0 {
        return Ok(tree.top);
    }
    while found.level > 1 {
        let page = page_in(tree.file, found.child);
        let below = look(space, page, key, place)?;
        if below.level != found.level - 1 {
            return Err(PageFault::Damaged {
                page,
                check: Check::Level,
            });
        }
        found = below;
    }
    Ok(found.child)
}

/// The place of the first entry that is not before the one given, where all before this leaf, the second
/// on the way along them, are. Its key is put into `out`. It ends by the number of pages taken.
fn seek_on<S: Pages>(
    tree: Tree,
    space: &mut S,
    second: u32,
    key: &[u8],
    place: u64,
    out: &mut ArrayVec<u8, 512>,
) -> Result<Option<u64>, PageFault>
    requires no_pins { NoPins (S.state space.old) }
    requires there { (S.state space.old).told ≡ true → (es : List Entry) × (pages : List ℕ) × (leaves : ℕ) × IsTree tree.file (S.state space.old) tree.top es pages leaves
        × Along (pages_of tree.file (S.state space.old)) es pages (record { key = key.now; place = place; child = 0 }) second 1 }
    ensures first { IfOk result (λ found. (es : List Entry) (pages : List ℕ) (leaves : ℕ) → IsTree tree.file (S.state space.old) tree.top es pages leaves
        → Along (pages_of tree.file (S.state space.old)) es pages (record { key = key.now; place = place; child = 0 }) second 1
        → IsFirst es (record { key = key.now; place = place; child = 0 }) found out.new.items) }
    ensures looks { Looks (S.state space.old) (S.state space.new) }
    ensures cause { HasCause (S.state space.old) (S.state space.new) (fault_of result) }
    ensures fault { IfErr result (LookFault tree.file) }
{
    let mut leaf = second;
    for _turn in 1..space.taken(tree.file) {
        let on = look_along(space, page_in(tree.file, leaf), key, place, out)?;
        match on {
            OnLeaf::Entry(place) => return Ok(Some(place)),
            OnLeaf::End => return Ok(None),
            OnLeaf::Next(next) => leaf = next,
        }
    }
    Err(PageFault::Damaged {
        page: page_in(tree.file, leaf),
        check: Check::Order,
    })
}

/// The place of the first entry of a tree that is not before the one given. Its key is put into `out`.
pub fn seek<S: Pages>(
    tree: Tree,
    space: &mut S,
    key: &[u8],
    place: u64,
    out: &mut ArrayVec<u8, 512>,
) -> Result<Option<u64>, PageFault>
    requires no_pins { NoPins (S.state space.old) }
    requires there { (S.state space.old).told ≡ true → HasTree tree.file (S.state space.old) tree.top }
    ensures first { IfOk result (λ found. (es : List Entry) (pages : List ℕ) (leaves : ℕ) → IsTree tree.file (S.state space.old) tree.top es pages leaves
        → IsFirst es (record { key = key.now; place = place; child = 0 }) found out.new.items) }
    ensures looks { Looks (S.state space.old) (S.state space.new) }
    ensures cause { HasCause (S.state space.old) (S.state space.new) (fault_of result) }
    ensures fault { IfErr result (LookFault tree.file) }
{
    let leaf = leaf_of(tree, space, key, place)?;
    let on = look_along(space, page_in(tree.file, leaf), key, place, out)?;
    match on {
        OnLeaf::Entry(place) => Ok(Some(place)),
        OnLeaf::End => Ok(None),
        OnLeaf::Next(next) => seek_on(tree, space, next, key, place, out),
    }
}

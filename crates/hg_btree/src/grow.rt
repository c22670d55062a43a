//! How a page of a tree is split in two: its upper entries go to a new page.
ghost use Rattle.std.specs.Prelude.{◌≡◌, ℕ, ◌+◌, ◌≤◌, ◌<◌, true, false, List, length, Some, IfOk, IfErr, OnOk, OnErr};
ghost use Rattle.hg_base.specs.Space.{NoPins};
ghost use Rattle.hg_base.specs.Causes.{HasCause, fault_of};
ghost use Rattle.hg_base.specs.Lines.{IsLine};
ghost use Rattle.hg_btree.specs.Entries.{Entry, Before, NotBehind};
ghost use Rattle.hg_btree.specs.Trees.{pages_of};
ghost use Rattle.hg_btree.specs.Growing.{AboveCrowded, CrowdedTop, OnWay, HasRoom, LineGrows, leaves_after, crowded_on};
ghost use Rattle.hg_btree.specs.Steps.{Looks, GrowFault};

use crate::node::compare;
use crate::plan::{Sheets, plan_split, plan_top};
use crate::seek::page_in;
use crate::store::{store_split, store_top};
use hg_base::{PageFault, Pages, Tree};
use std::cmp::Ordering;

/// The half where an entry goes: the upper one from the bound on.
fn half_for(key: &[u8], place: u64, bound: &[u8], at: u64, lower: u32, upper: u32) -> u32
    ensures low { (n m : ℕ) → Before (record { key = key.now; place = place; child = n }) (record { key = bound.now; place = at; child = m }) → result ≡ lower }
    ensures high { (n m : ℕ) → NotBehind (record { key = bound.now; place = at; child = m }) (record { key = key.now; place = place; child = n }) → result ≡ upper }
{
    match compare(key, place, bound, at) {
        Ordering::Less => lower,
        Ordering::Equal => upper,
        Ordering::Greater => upper,
    }
}

/// Splits the child of a page on the way to an entry. Answers the half where the way leads on.
pub fn split_child<S: Pages>(
    tree: Tree,
    space: &mut S,
    node: u32,
    key: &[u8],
    place: u64,
) -> Result<u32, PageFault>
    requires no_pins { NoPins (S.state space.old) }
    requires line { (pages : List ℕ) × IsLine tree.file (S.state space.old) (Some tree.top) pages }
    requires short { length key.now ≤ 512 }
    requires there { (S.state space.old).told ≡ true → (es : List Entry) × (most : ℕ) × (leaves : ℕ) × (n : ℕ)
        × AboveCrowded tree.file (S.state space.old) tree.top (record { key = key.now; place = place; child = 0 }) es most leaves n node }
    ensures split { IfOk result (λ half. (es : List Entry) (most leaves n : ℕ)
        → AboveCrowded tree.file (S.state space.old) tree.top (record { key = key.now; place = place; child = 0 }) es most leaves n node
        → OnWay tree.file (S.state space.new) tree.top (record { key = key.now; place = place; child = 0 }) es most (leaves_after n leaves) n half
        × HasRoom tree.file (S.state space.new) half) }
    ensures line { OnOk result ((pages : List ℕ) → IsLine tree.file (S.state space.old) (Some tree.top) pages
        → LineGrows tree.file (S.state space.old) (S.state space.new) tree.top pages) }
    ensures err { OnErr result (Looks (S.state space.old) (S.state space.new)) }
    ensures cause { HasCause (S.state space.old) (S.state space.new) (fault_of result) }
    ensures fault { IfErr result (GrowFault tree.file (S.state space.new)) }
{
    let mut sheets = Sheets::new();
    let plan = plan_split(space, tree.file, node, key, place, &mut sheets)?;
    let top = page_in(tree.file, tree.top);
    let pages = (page_in(tree.file, node), page_in(tree.file, plan.child));
    let new = store_split(
        space,
        top,
        pages,
        &mut sheets.above,
        &mut sheets.lower,
        &sheets.upper,
        &sheets.key,
        plan.bound,
    )?;
    Ok(half_for(key, place, &sheets.key, plan.bound.place, plan.child, new))
}

/// Splits the top of a tree: both halves go to new pages, and the top becomes the inner page above them.
/// Answers the half where the way to an entry leads on.
pub fn split_top<S: Pages>(
    tree: Tree,
    space: &mut S,
    key: &[u8],
    place: u64,
) -> Result<u32, PageFault>
    requires no_pins { NoPins (S.state space.old) }
    requires line { (pages : List ℕ) × IsLine tree.file (S.state space.old) (Some tree.top) pages }
    requires short { length key.now ≤ 512 }
    requires there { (S.state space.old).told ≡ true → (es : List Entry) × (pages : List ℕ) × (leaves : ℕ)
        × CrowdedTop tree.file (S.state space.old) tree.top es pages leaves }
    ensures split { IfOk result (λ half. (es : List Entry) (pages : List ℕ) (leaves most : ℕ)
        (w : CrowdedTop tree.file (S.state space.old) tree.top es pages leaves)
        → length pages + 2 + crowded_on (pages_of tree.file (S.state space.old)) w.tree.levels (record { key = key.now; place = place; child = 0 }) ≤ most
        → OnWay tree.file (S.state space.new) tree.top (record { key = key.now; place = place; child = 0 }) es most
        (leaves_after (length w.tree.levels) leaves) (length w.tree.levels) half
        × HasRoom tree.file (S.state space.new) half) }
    ensures line { OnOk result ((pages : List ℕ) → IsLine tree.file (S.state space.old) (Some tree.top) pages
        → LineGrows tree.file (S.state space.old) (S.state space.new) tree.top pages) }
    ensures err { OnErr result (Looks (S.state space.old) (S.state space.new)) }
    ensures cause { HasCause (S.state space.old) (S.state space.new) (fault_of result) }
    ensures fault { IfErr result (GrowFault tree.file (S.state space.new)) }
{
    let mut sheets = Sheets::new();
    let top = page_in(tree.file, tree.top);
    let bound = plan_top(space, top, key, place, &mut sheets)?;
    let new = store_top(
        space,
        top,
        &mut sheets.above,
        &mut sheets.lower,
        &sheets.upper,
        &sheets.key,
        bound,
    )?;
    Ok(half_for(key, place, &sheets.key, bound.place, new.0, new.1))
}

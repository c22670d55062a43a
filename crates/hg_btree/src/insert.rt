//! Putting entries into a tree.
ghost use Rattle.std.specs.Prelude.{◌≡◌, ℕ, ◌+◌, ◌<◌, ◌≤◌, true, false, List, length, Some, IfOk, IfErr, OnOk, OnErr, ◌⊎◌};
ghost use Rattle.hg_base.specs.Space.{NoPins, key_in};
ghost use Rattle.hg_base.specs.Causes.{HasCause, fault_of};
ghost use Rattle.hg_base.specs.Lines.{IsLine};
ghost use Rattle.hg_btree.specs.Entries.{Entry};
ghost use Rattle.hg_btree.specs.Trees.{IsTree, HasTree, Reached};
ghost use Rattle.hg_btree.specs.Growing.{AtStep, AtFullLeaf, OnWay, HasRoom, FindsHere, IsTreeNow, LineGrows, Inserts, most_pages};
ghost use Rattle.hg_btree.specs.Putting.{Puts, IsFullFor};
ghost use Rattle.hg_btree.specs.Steps.{Looks, LookFault, GrowFault};

use crate::change::{Put, put_into};
use crate::grow::{split_child, split_top};
use crate::look::{Found, look};
use crate::seek::page_in;
use hg_base::{Check, PageFault, Pages, Tree};

/// Where the way down has come to: a page with room for one more entry, or a top that is a leaf, and what
/// was found there.
#[derive(Clone, Copy)]
struct Step {
    node: u32,
    found: Found,
}

/// Looks at a page where the way down has come to.
fn look_here<S: Pages>(
    tree: Tree,
    space: &mut S,
    node: u32,
    key: &[u8],
    place: u64,
) -> Result<Found, PageFault>
    requires no_pins { NoPins (S.state space.old) }
    requires there { (S.state space.old).told ≡ true → (es : List Entry) × (pages : List ℕ) × (leaves : ℕ) × (level : ℕ)
        × (h : IsTree tree.file (S.state space.old) tree.top es pages leaves) × Reached tree.top h.levels (record { key = key.now; place = place; child = 0 }) level node }
    ensures found { IfOk result (λ f. (es : List Entry) (pages : List ℕ) (leaves level : ℕ) (h : IsTree tree.file (S.state space.old) tree.top es pages leaves)
        → Reached tree.top h.levels (record { key = key.now; place = place; child = 0 }) level node
        → FindsHere tree.file (S.state space.old) tree.top (record { key = key.now; place = place; child = 0 }) h.levels level node f.level f.crowded f.child) }
    ensures looks { Looks (S.state space.old) (S.state space.new) }
    ensures cause { HasCause (S.state space.old) (S.state space.new) (fault_of result) }
    ensures fault { IfErr result (LookFault tree.file) }
{
    let found = look(space, page_in(tree.file, node), key, place)?;
    Ok(found)
}

/// Whether a top need not be split on the way down: it is a leaf, or not crowded.
fn may_stay(found: Found) -> bool
    ensures stays { result ≡ true → (found.level ≡ 0) ⊎ (found.crowded ≡ false) }
    ensures splits { result ≡ false → (0 < found.level) × (found.crowded ≡ true) }
{
    if found.level == 0 {
        return true;
    }
    !found.crowded
}

/// The first step down: a crowded top that is no leaf is split.
fn first_step<S: Pages>(
    tree: Tree,
    space: &mut S,
    key: &[u8],
    place: u64,
) -> Result<Step, PageFault>
    requires no_pins { NoPins (S.state space.old) }
    requires line { (pages : List ℕ) × IsLine tree.file (S.state space.old) (Some tree.top) pages }
    requires short { length key.now ≤ 512 }
    requires there { (S.state space.old).told ≡ true → HasTree tree.file (S.state space.old) tree.top }
    ensures step { IfOk result (λ s. (es : List Entry) (pages : List ℕ) (leaves : ℕ) (h : IsTree tree.file (S.state space.old) tree.top es pages leaves)
        → AtStep tree.file (S.state space.new) tree.top (record { key = key.now; place = place; child = 0 }) es
        (most_pages tree.file (S.state space.old) tree.top h.levels (length pages) (record { key = key.now; place = place; child = 0 })) leaves s.found.level s.node s.found.child) }
    ensures err { OnErr result ((es : List Entry) (pages : List ℕ) (leaves : ℕ) (h : IsTree tree.file (S.state space.old) tree.top es pages leaves)
        → IsTreeNow tree.file (S.state space.new) tree.top es
        (most_pages tree.file (S.state space.old) tree.top h.levels (length pages) (record { key = key.now; place = place; child = 0 })) leaves) }
    ensures line { (pages : List ℕ) → IsLine tree.file (S.state space.old) (Some tree.top) pages
        → LineGrows tree.file (S.state space.old) (S.state space.new) tree.top pages }
    ensures cause { HasCause (S.state space.old) (S.state space.new) (fault_of result) }
    ensures fault { IfErr result (GrowFault tree.file (S.state space.new)) }
{
    let node = tree.top;
    let found = look_here(tree, space, node, key, place)?;
    if may_stay(found) {
        return Ok(Step { node, found });
    }
    let half = split_top(tree, space, key, place)?;
    match look_here(tree, space, half, key, place) {
        Ok(found) => Ok(Step { node: half, found }),
        Err(fault) => Err(fault),
    }
}

/// One step further down: a crowded page there is split.
fn next_step<S: Pages>(
    tree: Tree,
    space: &mut S,
    from: Step,
    key: &[u8],
    place: u64,
) -> Result<Step, PageFault>
    requires no_pins { NoPins (S.state space.old) }
    requires line { (pages : List ℕ) × IsLine tree.file (S.state space.old) (Some tree.top) pages }
    requires short { length key.now ≤ 512 }
    requires above { 1 < from.found.level }
    requires there { (S.state space.old).told ≡ true → (es : List Entry) × (most : ℕ) × (leaves : ℕ)
        × AtStep tree.file (S.state space.old) tree.top (record { key = key.now; place = place; child = 0 }) es most leaves from.found.level from.node from.found.child }
    ensures step { IfOk result (λ s. (es : List Entry) (most leaves : ℕ)
        → AtStep tree.file (S.state space.old) tree.top (record { key = key.now; place = place; child = 0 }) es most leaves from.found.level from.node from.found.child
        → AtStep tree.file (S.state space.new) tree.top (record { key = key.now; place = place; child = 0 }) es most leaves s.found.level s.node s.found.child) }
    ensures below { IfOk result (λ s. (es : List Entry) (most leaves : ℕ)
        → AtStep tree.file (S.state space.old) tree.top (record { key = key.now; place = place; child = 0 }) es most leaves from.found.level from.node from.found.child
        → s.found.level + 1 ≡ from.found.level) }
    ensures err { OnErr result ((es : List Entry) (most leaves : ℕ)
        → AtStep tree.file (S.state space.old) tree.top (record { key = key.now; place = place; child = 0 }) es most leaves from.found.level from.node from.found.child
        → IsTreeNow tree.file (S.state space.new) tree.top es most leaves) }
    ensures line { (pages : List ℕ) → IsLine tree.file (S.state space.old) (Some tree.top) pages
        → LineGrows tree.file (S.state space.old) (S.state space.new) tree.top pages }
    ensures cause { HasCause (S.state space.old) (S.state space.new) (fault_of result) }
    ensures fault { IfErr result (GrowFault tree.file (S.state space.new)) }
{
    let node = from.found.child;
    let found = look_here(tree, space, node, key, place)?;
    if !found.crowded {
        return Ok(Step { node, found });
    }
    let half = split_child(tree, space, from.node, key, place)?;
    match look_here(tree, space, half, key, place) {
        Ok(found) => Ok(Step { node: half, found }),
        Err(fault) => Err(fault),
    }
}

/// The page above the leaf where an entry goes, or the top where that is the leaf. What the way meets
/// crowded is split.
fn way_down<S: Pages>(tree: Tree, space: &mut S, key: &[u8], place: u64) -> Result<Step, PageFault>
    requires no_pins { NoPins (S.state space.old) }
    requires line { (pages : List ℕ) × IsLine tree.file (S.state space.old) (Some tree.top) pages }
    requires short { length key.now ≤ 512 }
    requires there { (S.state space.old).told ≡ true → HasTree tree.file (S.state space.old) tree.top }
    ensures step { IfOk result (λ s. (es : List Entry) (pages : List ℕ) (leaves : ℕ) (h : IsTree tree.file (S.state space.old) tree.top es pages leaves)
        → AtStep tree.file (S.state space.new) tree.top (record { key = key.now; place = place; child = 0 }) es
        (most_pages tree.file (S.state space.old) tree.top h.levels (length pages) (record { key = key.now; place = place; child = 0 })) leaves s.found.level s.node s.found.child) }
    ensures low { IfOk result (λ s. s.found.level ≤ 1) }
    ensures err { OnErr result ((es : List Entry) (pages : List ℕ) (leaves : ℕ) (h : IsTree tree.file (S.state space.old) tree.top es pages leaves)
        → IsTreeNow tree.file (S.state space.new) tree.top es
        (most_pages tree.file (S.state space.old) tree.top h.levels (length pages) (record { key = key.now; place = place; child = 0 })) leaves) }
    ensures line { (pages : List ℕ) → IsLine tree.file (S.state space.old) (Some tree.top) pages
        → LineGrows tree.file (S.state space.old) (S.state space.new) tree.top pages }
    ensures cause { HasCause (S.state space.old) (S.state space.new) (fault_of result) }
    ensures fault { IfErr result (GrowFault tree.file (S.state space.new)) }
{
    let mut step = first_step(tree, space, key, place)?;
    while step.found.level > 1 {
        let next = match next_step(tree, space, step, key, place) {
            Ok(next) => next,
            Err(fault) => return Err(fault),
        };
        if next.found.level >= step.found.level {
            return Err(PageFault::Damaged {
                page: page_in(tree.file, next.node),
                check: Check::Level,
            });
        }
        step = next;
    }
    Ok(step)
}

/// The leaf where an entry goes.
fn leaf_under(step: Step) -> u32
    ensures top { step.found.level ≡ 0 → result ≡ step.node }
    ensures below { 0 < step.found.level → result ≡ step.found.child }
{
    if step.found.level == 0 {
        step.node
    } else {
        step.found.child
    }
}

/// Puts an entry into the leaf where the way down has come to.
fn put_at<S: Pages>(
    tree: Tree,
    space: &mut S,
    leaf: u32,
    key: &[u8],
    place: u64,
) -> Result<Put, PageFault>
    requires no_pins { NoPins (S.state space.old) }
    requires short { length key.now ≤ 512 }
    requires there { (S.state space.old).told ≡ true → (es : List Entry) × (pages : List ℕ) × (leaves : ℕ)
        × (h : IsTree tree.file (S.state space.old) tree.top es pages leaves) × Reached tree.top h.levels (record { key = key.now; place = place; child = 0 }) 0 leaf }
    ensures puts { IfOk result (λ how. (es : List Entry) (pages : List ℕ) (leaves : ℕ) (h : IsTree tree.file (S.state space.old) tree.top es pages leaves)
        → Reached tree.top h.levels (record { key = key.now; place = place; child = 0 }) 0 leaf
        → Puts tree.file (S.state space.new) tree.top es pages leaves (record { key = key.now; place = place; child = 0 }) how) }
    ensures full { IfOk result (λ how. how ≡ Put.NoRoom → Looks (S.state space.old) (S.state space.new)
        × ((page : List ℕ) → (S.state space.old).bytes (key_in tree.file leaf) ≡ Some page → IsFullFor page (record { key = key.now; place = place; child = 0 }))) }
    ensures line { OnOk result ((pages : List ℕ) → IsLine tree.file (S.state space.old) (Some tree.top) pages
        → LineGrows tree.file (S.state space.old) (S.state space.new) tree.top pages) }
    ensures err { OnErr result (Looks (S.state space.old) (S.state space.new)) }
    ensures cause { HasCause (S.state space.old) (S.state space.new) (fault_of result) }
    ensures fault { IfErr result (LookFault tree.file) }
{
    let how = put_into(space, page_in(tree.file, leaf), key, place)?;
    Ok(how)
}

/// Splits the leaf where an entry goes. Answers the half where it goes then.
fn split_leaf<S: Pages>(
    tree: Tree,
    space: &mut S,
    step: Step,
    key: &[u8],
    place: u64,
) -> Result<u32, PageFault>
    requires no_pins { NoPins (S.state space.old) }
    requires line { (pages : List ℕ) × IsLine tree.file (S.state space.old) (Some tree.top) pages }
    requires short { length key.now ≤ 512 }
    requires low { step.found.level ≤ 1 }
    requires there { (S.state space.old).told ≡ true → (es : List Entry) × (most : ℕ) × (leaves : ℕ)
        × AtFullLeaf tree.file (S.state space.old) tree.top (record { key = key.now; place = place; child = 0 }) es most leaves step.found.level step.node step.found.child }
    ensures split { IfOk result (λ half. (es : List Entry) (most leaves : ℕ)
        → AtFullLeaf tree.file (S.state space.old) tree.top (record { key = key.now; place = place; child = 0 }) es most leaves step.found.level step.node step.found.child
        → OnWay tree.file (S.state space.new) tree.top (record { key = key.now; place = place; child = 0 }) es most (leaves + 1) 0 half
        × HasRoom tree.file (S.state space.new) half) }
    ensures line { OnOk result ((pages : List ℕ) → IsLine tree.file (S.state space.old) (Some tree.top) pages
        → LineGrows tree.file (S.state space.old) (S.state space.new) tree.top pages) }
    ensures err { OnErr result (Looks (S.state space.old) (S.state space.new)) }
    ensures cause { HasCause (S.state space.old) (S.state space.new) (fault_of result) }
    ensures fault { IfErr result (GrowFault tree.file (S.state space.new)) }
{
    if step.found.level == 0 {
        return split_top(tree, space, key, place);
    }
    split_child(tree, space, step.node, key, place)
}

/// Puts an entry into a leaf that has no room for it.
fn put_split<S: Pages>(
    tree: Tree,
    space: &mut S,
    step: Step,
    key: &[u8],
    place: u64,
) -> Result<bool, PageFault>
    requires no_pins { NoPins (S.state space.old) }
    requires line { (pages : List ℕ) × IsLine tree.file (S.state space.old) (Some tree.top) pages }
    requires short { length key.now ≤ 512 }
    requires low { step.found.level ≤ 1 }
    requires there { (S.state space.old).told ≡ true → (es : List Entry) × (most : ℕ) × (leaves : ℕ)
        × AtFullLeaf tree.file (S.state space.old) tree.top (record { key = key.now; place = place; child = 0 }) es most leaves step.found.level step.node step.found.child }
    ensures inserts { (es : List Entry) (most leaves : ℕ)
        → AtFullLeaf tree.file (S.state space.old) tree.top (record { key = key.now; place = place; child = 0 }) es most leaves step.found.level step.node step.found.child
        → Inserts tree.file (S.state space.new) tree.top es most leaves (record { key = key.now; place = place; child = 0 }) result }
    ensures line { (pages : List ℕ) → IsLine tree.file (S.state space.old) (Some tree.top) pages
        → LineGrows tree.file (S.state space.old) (S.state space.new) tree.top pages }
    ensures cause { HasCause (S.state space.old) (S.state space.new) (fault_of result) }
    ensures fault { IfErr result (GrowFault tree.file (S.state space.new)) }
{
    let half = match split_leaf(tree, space, step, key, place) {
        Ok(half) => half,
        Err(fault) => return Err(fault),
    };
    match put_at(tree, space, half, key, place) {
        Ok(Put::New) => Ok(true),
        Ok(Put::Old) => Ok(false),
        Ok(Put::NoRoom) => Err(PageFault::Damaged {
            page: page_in(tree.file, half),
            check: Check::Size,
        }),
        Err(fault) => Err(fault),
    }
}

/// Puts an entry into a tree. False where it was there.
pub fn insert<S: Pages>(
    tree: Tree,
    space: &mut S,
    key: &[u8],
    place: u64,
) -> Result<bool, PageFault>
    requires no_pins { NoPins (S.state space.old) }
    requires line { (pages : List ℕ) × IsLine tree.file (S.state space.old) (Some tree.top) pages }
    requires short { length key.now ≤ 512 }
    requires there { (S.state space.old).told ≡ true → HasTree tree.file (S.state space.old) tree.top }
    ensures inserts { (es : List Entry) (pages : List ℕ) (leaves : ℕ) (h : IsTree tree.file (S.state space.old) tree.top es pages leaves)
        → Inserts tree.file (S.state space.new) tree.top es
        (most_pages tree.file (S.state space.old) tree.top h.levels (length pages) (record { key = key.now; place = place; child = 0 })) leaves
        (record { key = key.now; place = place; child = 0 }) result }
    ensures line { (pages : List ℕ) → IsLine tree.file (S.state space.old) (Some tree.top) pages
        → LineGrows tree.file (S.state space.old) (S.state space.new) tree.top pages }
    ensures cause { HasCause (S.state space.old) (S.state space.new) (fault_of result) }
    ensures fault { IfErr result (GrowFault tree.file (S.state space.new)) }
{
    let step = match way_down(tree, space, key, place) {
        Ok(step) => step,
        Err(fault) => return Err(fault),
    };
    let leaf = leaf_under(step);
    match put_at(tree, space, leaf, key, place) {
        Ok(Put::New) => Ok(true),
        Ok(Put::Old) => Ok(false),
        Ok(Put::NoRoom) => put_split(tree, space, step, key, place),
        Err(fault) => Err(fault),
    }
}

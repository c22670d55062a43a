//! How a tree begins and ends.
ghost use Rattle.std.specs.Prelude.{◌≡◌, ℕ, ◌^◌, ◌<◌, true, false, List, Some, IfOk, IfErr, OnErr};
ghost use Rattle.hg_base.specs.Space.{NoPins};
ghost use Rattle.hg_base.specs.Causes.{HasCause, FreshFault, fault_of};
ghost use Rattle.hg_base.specs.Lines.{IsLine};
ghost use Rattle.hg_btree.specs.Kept.{IsReady};
ghost use Rattle.hg_btree.specs.Life.{Makes, MakesLeaf, Ends};
ghost use Rattle.hg_btree.specs.Steps.{Looks};

use crate::seek::page_in;
use crate::write::start;
use hg_base::{File, PageFault, PageId, Pages, Tree};

/// Takes a page and makes it a leaf with no entries.
fn make_leaf<S: Pages>(space: &mut S, file: File) -> Result<PageId, PageFault>
    requires out { NoPins (S.state space.old) }
    ensures made { IfOk result (MakesLeaf file (S.state space.old) (S.state space.new)) }
    ensures err { OnErr result (Looks (S.state space.old) (S.state space.new)) }
    ensures cause { HasCause (S.state space.old) (S.state space.new) (fault_of result) }
    ensures fault { IfErr result (FreshFault file (S.state space.old)) }
{
    let pin = space.fresh(file)?;
    let page = space.page_of(&pin);
    start(space.bytes_mut(&pin), false, 0, u32::MAX);
    space.unpin(pin);
    Ok(page)
}

/// Makes a tree with no entries.
pub fn make<S: Pages>(space: &mut S, file: File) -> Result<Tree, PageFault>
    requires out { NoPins (S.state space.old) }
    requires numbers { (S.state space.old).limit file < 2 ^ 32 }
    ensures made { IfOk result (Makes file (S.state space.old) (S.state space.new)) }
    ensures ready { IfOk result (λ tree. IsReady (S.state space.new) tree) }
    ensures err { OnErr result (Looks (S.state space.old) (S.state space.new)) }
    ensures cause { HasCause (S.state space.old) (S.state space.new) (fault_of result) }
    ensures fault { IfErr result (FreshFault file (S.state space.old)) }
{
    let page = make_leaf(space, file)?;
    Ok(Tree { file, top: page.no })
}

/// Gives all pages of a tree back.
pub fn destroy<S: Pages>(tree: Tree, space: &mut S)
    requires out { NoPins (S.state space.old) }
    requires line { (pages : List ℕ) × IsLine tree.file (S.state space.old) (Some tree.top) pages }
    ensures { (pages : List ℕ) → IsLine tree.file (S.state space.old) (Some tree.top) pages → Ends tree.file (S.state space.old) (S.state space.new) pages }
{
    let mut next = Some(tree.top);
    for _turn in 0..space.taken(tree.file) {
        let Some(no) = next else {
            return;
        };
        let page = page_in(tree.file, no);
        next = space.next(page);
        space.release(page);
    }
}

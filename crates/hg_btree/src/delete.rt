//! Taking entries out of a tree.
ghost use Rattle.std.specs.Prelude.{◌≡◌, ℕ, true, false, List, Some, IfOk, IfErr, OnOk, OnErr};
ghost use Rattle.hg_base.specs.Space.{NoPins};
ghost use Rattle.hg_base.specs.Causes.{HasCause, fault_of};
ghost use Rattle.hg_base.specs.Steadiness.{Steady};
ghost use Rattle.hg_base.specs.Lines.{IsLine};
ghost use Rattle.hg_btree.specs.Entries.{Entry};
ghost use Rattle.hg_btree.specs.Trees.{IsTree, HasTree};
ghost use Rattle.hg_btree.specs.Deleting.{Deletes, pages_mine};
ghost use Rattle.hg_btree.specs.Steps.{Looks, LookFault};

use crate::change::take_from;
use crate::seek::{leaf_of, page_in};
use hg_base::{PageFault, Pages, Tree};

/// Takes an entry out of a tree. False where it is not there.
pub fn delete<S: Pages>(
    tree: Tree,
    space: &mut S,
    key: &[u8],
    place: u64,
) -> Result<bool, PageFault>
    requires no_pins { NoPins (S.state space.old) }
    requires there { (S.state space.old).told ≡ true → HasTree tree.file (S.state space.old) tree.top }
    ensures gone { IfOk result (λ gone. (es : List Entry) (pages : List ℕ) (leaves : ℕ) → IsTree tree.file (S.state space.old) tree.top es pages leaves
        → Deletes tree.file (S.state space.new) tree.top es pages leaves (record { key = key.now; place = place; child = 0 }) gone) }
    ensures steady { OnOk result ((pages : List ℕ) → IsLine tree.file (S.state space.old) (Some tree.top) pages
        → Steady (pages_mine tree.file pages) (S.state space.old) (S.state space.new)) }
    ensures taken { OnOk result ((S.state space.new).taken ≡ (S.state space.old).taken) }
    ensures line { (pages : List ℕ) → IsLine tree.file (S.state space.old) (Some tree.top) pages
        → IsLine tree.file (S.state space.new) (Some tree.top) pages }
    ensures err { OnErr result (Looks (S.state space.old) (S.state space.new)) }
    ensures cause { HasCause (S.state space.old) (S.state space.new) (fault_of result) }
    ensures fault { IfErr result (LookFault tree.file) }
{
    let leaf = leaf_of(tree, space, key, place)?;
    let gone = take_from(space, page_in(tree.file, leaf), key, place)?;
    Ok(gone)
}

//! How an index begins and ends.
ghost use Rattle.std.specs.Prelude.{◌≡◌, ℕ, ◌^◌, ◌<◌, [], ◌∷◌, true, List, Some, IfOk, IfErr, OnErr};
ghost use Rattle.hg_base.specs.Space.{NoPins};
ghost use Rattle.hg_base.specs.Causes.{HasCause, FreshFault, fault_of};
ghost use Rattle.hg_base.specs.Lines.{IsLine};
ghost use Rattle.hg_base.specs.declared.File.TheVariants.{Main};
ghost use Rattle.hg_btree.specs.Life.{Makes, Ends};
ghost use Rattle.hg_btree.specs.Steps.{Looks};
ghost use Rattle.hg_index.specs.Agreeing.{IsIndexOf};
ghost use Rattle.hg_index.specs.Calls.{IsReady};

use arrayvec::ArrayVec;
use hg_base::{File, Index, PageFault, Pages};
use hg_btree::TreeCalls;

/// Makes an index over columns of a table, with no entry. It takes one page.
pub fn make<S: Pages>(
    space: &mut S,
    columns: ArrayVec<u8, 16>,
    unique: bool,
) -> Result<Index, PageFault>
    requires out { NoPins (S.state space.old) }
    requires numbers { (S.state space.old).limit Main < 2 ^ 32 }
    ensures made { IfOk result (λ i. Makes Main (S.state space.old) (S.state space.new) i.tree) }
    ensures empty { IfOk result (λ i. (S.state space.old).told ≡ true
        → IsIndexOf (S.state space.new) i (i.tree.top ∷ []) 1 []) }
    ensures columns { IfOk result (λ i. i.columns ≡ columns) }
    ensures unique { IfOk result (λ i. i.unique ≡ unique) }
    ensures ready { IfOk result (λ i. IsReady (S.state space.new) i) }
    ensures err { OnErr result (Looks (S.state space.old) (S.state space.new)) }
    ensures cause { HasCause (S.state space.old) (S.state space.new) (fault_of result) }
    ensures fault { IfErr result (FreshFault Main (S.state space.old)) }
{
    let tree = hg_btree::make(space, File::Main)?;
    Ok(Index {
        tree,
        columns,
        unique,
    })
}

/// Gives all pages of an index back.
pub fn destroy<S: Pages>(index: Index, space: &mut S)
    requires out { NoPins (S.state space.old) }
    requires line { (pages : List ℕ)
        × IsLine index.tree.file (S.state space.old) (Some index.tree.top) pages }
    ensures { (pages : List ℕ) → IsLine index.tree.file (S.state space.old) (Some index.tree.top) pages
        → Ends index.tree.file (S.state space.old) (S.state space.new) pages }
{
    index.tree.destroy(space)
}

//! The end of a run.
ghost use Rattle.std.specs.Prelude.{ℕ, List};
ghost use Rattle.hg_base.specs.Space.{NoPins};
ghost use Rattle.hg_run.specs.Runs.{IsChain};
ghost use Rattle.hg_dml.specs.UpdateSteps.{EndsRun};

use hg_base::{File, PageId, Pages};
use hg_run::Run;

/// Gives all pages of a run back, as its `destroy` does. The contract says besides that they are of no heap
/// then: none of them is lent.
pub fn end_run<S: Pages>(space: &mut S, run: Run)
    requires out { NoPins (S.state space.old) }
    requires chain { (temp : List ℕ) × IsChain (S.state space.old) run temp }
    ensures { (temp : List ℕ) → IsChain (S.state space.old) run temp → EndsRun (S.state space.old) (S.state space.new) temp }
{
    let mut next = run.first;
    for _turn in 0..space.taken(File::Temp) {
        let Some(no) = next else {
            return;
        };
        let page = PageId {
            file: File::Temp,
            no,
        };
        next = space.next(page);
        space.release(page);
    }
}

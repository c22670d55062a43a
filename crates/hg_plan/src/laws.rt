//! Laws of plans. A function here computes nothing: its contract is the law.
ghost use Rattle.hg_plan.specs.PlanLaws as plan_laws;

use hg_bind::places_are_positions;

/// A SELECT that was bound may be planned.
pub fn bound_may_be_planned()
    ensures { plan_laws.BoundMayBePlanned }
{
    places_are_positions();
}

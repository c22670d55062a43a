//! Laws of loops. A function here computes nothing: its contract is the law.
ghost use Rattle.hg_exec.specs.Meaning as meaning;
ghost use Rattle.hg_exec.specs.Planned as planned;

use hg_bind::{bound_is_sound, bound_means_the_same, places_are_positions};
use hg_expr::tables_so_far_tell;
use hg_model::conditions_keep_rows;
use hg_value::codings_tell;

/// What loops owe as they begin is what the SELECT means that they are planned for: the outputs of those rows
/// of the cross product that ON and WHERE keep, in its order.
pub fn loops_mean_select()
    ensures { meaning.LoopsMeanSelect }
{
    tables_so_far_tell();
    conditions_keep_rows();
}

/// Loops that are planned for a SELECT without groups, DISTINCT and ORDER BY give what it means, in some order,
/// over its tables with the rows of each in any order.
pub fn planned_means_the_same()
    ensures { planned.ReadyMeansTheSame }
{
    loops_mean_select();
    bound_means_the_same();
    bound_is_sound();
    places_are_positions();
}

/// Loops may run over a SELECT without groups that was read, bound and planned: its tables and columns are there,
/// its nodes can be evaluated, and the joined row and the output have room in a row.
pub fn planned_may_run()
    ensures { planned.ReadyMayRun }
{
    bound_is_sound();
    places_are_positions();
    tables_so_far_tell();
    codings_tell();
}

//! Laws of the definitions. A function here computes nothing: its contract is the law.
ghost use Rattle.hg_model.specs.ChangeLaws as changes;
ghost use Rattle.hg_model.specs.Laws as laws;
ghost use Rattle.hg_model.specs.PlanLaws as plans;
ghost use Rattle.hg_model.specs.ScriptLaws as scripts;

/// The carrier of 'evaluation is exact in 128 bits and never fails': where no node's bound passes 126
/// bits, over rows of 32-bit numbers, every value lies below 2^bound in magnitude.
pub fn values_lie_below_their_bounds()
    ensures row { laws.RowValuesLieBelow }
    ensures group { laws.GroupValuesLieBelow }
{}

/// Pairs that are given one by one until none is left are all pairs of the meaning, ordered by their
/// keys.
pub fn turns_give_all()
    ensures { laws.TurnsGiveAll }
{}

/// Bags of any items.
pub fn bags<T>()
    ensures equal { laws.BagsAreEqual T }
    ensures counts { laws.BagsCountAlike T }
    ensures append { laws.BagsAppend T }
    ensures take_one { laws.BagsTakeOne T }
{}

/// The lines of a script, and what each is read as.
pub fn scripts_are_lines()
    ensures whole { scripts.LinesMakeScript }
    ensures cut { scripts.LinesHaveNoFeed }
    ensures once { scripts.LinesAreReadOnce }
{}

/// What a change that is made says of its number of rows, and that VACUUM keeps every row.
pub fn changes_count_rows()
    ensures insert { changes.InsertsCounted }
    ensures update { changes.UpdatesCounted }
    ensures delete { changes.DeletesCounted }
    ensures vacuum { changes.VacuumKeepsTables }
{}

/// Splitting ON and WHERE at AND keeps the same rows, and each condition is tested at one table.
pub fn conditions_keep_rows()
    ensures split { plans.SplittingKeepsRows }
    ensures tested { plans.EachIsTestedOnce }
{}

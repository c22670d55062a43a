//! The worked statements. A function here computes nothing: its contract is the table of answers.
ghost use Rattle.hg_worked.specs.ChangeRefusals.{CodesHold, DeleteRefusalsHold, InsertRefusalsHold, UpdateRefusalsHold, VacuumsHold};
ghost use Rattle.hg_worked.specs.Changes.{ChangesHold};
ghost use Rattle.hg_worked.specs.Creations.{CreationsHold};
ghost use Rattle.hg_worked.specs.Filters.{FiltersHold};
ghost use Rattle.hg_worked.specs.Grouping.{GroupingHold};
ghost use Rattle.std.specs.Prelude.{ℕ};
ghost use Rattle.hg_worked.specs.Joins.{JoinsHold};
ghost use Rattle.hg_worked.specs.LimitsHeld.{LimitsHold};
ghost use Rattle.hg_worked.specs.LineCounts.{LineCountsFit, LineCountsHold};
ghost use Rattle.hg_worked.specs.LineNumbers.{LineNumbersHold, PoolNumbersHold};
ghost use Rattle.hg_worked.specs.Lines.{LinesHold};
ghost use Rattle.hg_worked.specs.Ordering.{OrderingHold};
ghost use Rattle.hg_worked.specs.PageNeeds.{CommandNeedsHold, CountedJoinNeeds, IntakesHold, JoinNeeds};
ghost use Rattle.hg_worked.specs.Plans.{ConditionsHold, IndexesHold};
ghost use Rattle.hg_worked.specs.Refusals.{RefusalsHold};
ghost use Rattle.hg_worked.specs.Scripts.{LineReadingsHold, ScriptsHold};

/// Conditions and arithmetic, worked by hand.
pub fn filters()
    ensures { FiltersHold }
{}

/// Joins, worked by hand.
pub fn joins()
    ensures { JoinsHold }
{}

/// Groups, aggregates and DISTINCT, worked by hand.
pub fn grouped_statements()
    ensures { GroupingHold }
{}

/// ORDER BY, worked by hand.
pub fn ordered_statements()
    ensures { OrderingHold }
{}

/// Statements that are refused, worked by hand.
pub fn refused_statements()
    ensures { RefusalsHold }
{}

/// INSERT, UPDATE and DELETE, worked by hand.
pub fn changed_tables()
    ensures { ChangesHold }
{}

/// Changes that are refused for the first of two causes, VACUUM, and the code of each cause, worked by
/// hand.
pub fn refused_changes()
    ensures insert { InsertRefusalsHold }
    ensures update { UpdateRefusalsHold }
    ensures delete { DeleteRefusalsHold }
    ensures vacuum { VacuumsHold }
    ensures codes { CodesHold }
{}

/// Scripts as lines, worked by hand, whatever the most frames of the pool may be.
pub fn scripts()
    ensures lines { ScriptsHold }
    ensures readings { (max : ℕ) → LineReadingsHold max }
{}

/// What lines are read as, worked by hand, whatever the most frames of the pool may be.
pub fn lines_read()
    ensures { (max : ℕ) → LinesHold max }
{}

/// Lines with a number out of range, for each command that has one, worked by hand.
pub fn numbers_out_of_range()
    ensures any { (max : ℕ) → LineNumbersHold max }
    ensures pool { PoolNumbersHold }
{}

/// Lines that have too many of something, for each kind, and such that just have not, worked by hand.
pub fn too_many_things()
    ensures too_many { (max : ℕ) → LineCountsHold max }
    ensures just_fit { (max : ℕ) → LineCountsFit max }
{}

/// CREATE TABLE and CREATE INDEX, worked by hand.
pub fn created_things()
    ensures { CreationsHold }
{}

/// Conditions, hash joins, floors and indexes of a SELECT, worked by hand.
pub fn plans()
    ensures conditions { ConditionsHold }
    ensures indexes { IndexesHold }
{}

/// Pages that statements may need, worked by hand; and those of a join of 2,000 rows with 2,000.
pub fn needs()
    ensures intakes { IntakesHold }
    ensures commands { CommandNeedsHold }
    ensures join { JoinNeeds }
    ensures counted_join { CountedJoinNeeds }
{}

/// Limits on working pages, worked by hand.
pub fn limits()
    ensures { LimitsHold }
{}

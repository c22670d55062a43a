//! Laws of indexes. A function here computes nothing: its contract is the law.
ghost use Rattle.hg_index.specs.RowLaws as rows;

use hg_value::keys_are_as_long;

/// A row that fits the columns of a table may be entered into an index over some of them whose declared
/// lengths are together at most 512.
#[tactic(auto, using(crate::specs::RowLaws::may_be_entered))]
pub fn rows_may_be_entered()
    ensures { rows.RowsMayBeEntered }
{
    keys_are_as_long();
}

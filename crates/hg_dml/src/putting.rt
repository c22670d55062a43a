//! Rows of constants are put into a table, one version after the other.
ghost use Rattle.std.specs.Prelude.{◌≡◌, ◌≤◌, ◌++◌, ◌∷◌, [], ℕ, true, List, length, OnErr, OnOk, IfErr};
ghost use Rattle.std.specs.List.{AllByRecursion};
ghost use Rattle.hg_base.specs.Space.{NoPins};
ghost use Rattle.hg_base.specs.Causes.{HasCause, fault_of};
ghost use Rattle.hg_base.specs.Steadiness.{Steady};
ghost use Rattle.hg_base.specs.declared.Place.{Place as PlaceOf};
ghost use Rattle.hg_model.specs.declared.trees.Column.{Column};
ghost use Rattle.hg_table.specs.Chains.{IsChain};
ghost use Rattle.hg_table.specs.Calls.{none_mine, HasTable, InsertFault, NamesGiven};
ghost use Rattle.hg_value.specs.Coding.{coded, HasRoom, IsHeld, IsStorable};
ghost use Rattle.hg_dml.specs.Putting.{Puts, PutsSome};
ghost use Rattle.hg_dml.specs.Steps.{OneMore, CanPut, FitRows, IsShort};
ghost use Rattle.hg_dml.specs.Tuples.{row_from, rows_from};
ghost use Rattle.hg_value.specs.Looks.{value_of};

use crate::tuples::{look, tuple_between};
use hg_base::{PageFault, Pages, Stamp};
use hg_model::Literal;
use hg_table::TableCalls;
use hg_value::{Look, Row};

/// Puts a value behind the others of a row.
#[inline]
pub fn push(row: &mut Row, value: &Look)
    requires held { IsHeld (value_of value.now) }
    requires room { HasRoom row.old (value_of value.now) }
    ensures { row.new ≡ row.old ++ value_of value.now ∷ [] }
{
    let _ = row.push_look(value);
}

/// Makes `row` the row that a table gets of a row of constants.
fn fill(row: &mut Row, tuple: &[Literal], sources: &[Option<usize>], texts: &[u8])
    requires { IsStorable (row_from texts.now sources.now tuple.now) }
    ensures { row.new ≡ row_from texts.now sources.now tuple.now }
{
    row.clear();
    for source in sources {
        push(row, &look(tuple, *source, texts));
    }
}

/// Puts one row into a table, born under a stamp.
pub fn put_one<S: Pages, D: TableCalls>(
    space: &mut S,
    table: &mut D,
    row: &Row,
    stamp: Stamp,
) -> Result<(), PageFault>
    requires out { NoPins (S.state space.old) }
    requires chain { (pages : List ℕ) × IsChain (S.state space.old) (D.ends table.old) pages }
    requires whole { (S.state space.old).told ≡ true → HasTable (S.state space.old) (D.ends table.old) }
    requires short { length (coded row.now) ≤ 1000 }
    ensures ok { OnOk result ((place : PlaceOf) × (n : ℕ)
        × OneMore (S.state space.old) (S.state space.new) (D.ends table.old) (D.ends table.new) place stamp.0 n row.now) }
    ensures err { OnErr result (D.ends table.new ≡ D.ends table.old) }
    ensures err_steady { OnErr result (Steady none_mine (S.state space.old) (S.state space.new)) }
    ensures err_taken { OnErr result ((S.state space.new).taken ≡ (S.state space.old).taken) }
    ensures fault { IfErr result (InsertFault (S.state space.old)) }
    ensures page { IfErr result (NamesGiven (D.ends table.old).last) }
    ensures cause { HasCause (S.state space.old) (S.state space.new) (fault_of result) }
{
    table.insert(space, row, stamp)?;
    Ok(())
}

/// Puts the rows of an INSERT into a table, born under one stamp that is not committed. Where it fails,
/// some of them may have been put. `row` is room for one of them.
pub fn put_rows<S: Pages, D: TableCalls>(
    space: &mut S,
    table: &mut D,
    row: &mut Row,
    stamp: Stamp,
    sources: &[Option<usize>],
    values: &[Literal],
    ends: &[u16],
    texts: &[u8],
) -> Result<(), PageFault>
    requires out { NoPins (S.state space.old) }
    requires whole { CanPut (S.state space.old) (D.ends table.old) (rows_from texts.now sources.now values.now ends.now) }
    requires short { AllByRecursion IsShort (rows_from texts.now sources.now values.now ends.now) }
    ensures ok { OnOk result ((pages : List ℕ) (columns : List Column) → IsChain (S.state space.old) (D.ends table.old) pages
        → FitRows columns (rows_from texts.now sources.now values.now ends.now)
        → Puts (S.state space.old) (S.state space.new) (D.ends table.old) (D.ends table.new) pages stamp.0 columns (rows_from texts.now sources.now values.now ends.now)) }
    ensures err { IfErr result (λ f. (pages : List ℕ) (columns : List Column) → IsChain (S.state space.old) (D.ends table.old) pages
        → FitRows columns (rows_from texts.now sources.now values.now ends.now)
        → PutsSome (S.state space.old) (S.state space.new) (D.ends table.old) (D.ends table.new) pages stamp.0 columns (rows_from texts.now sources.now values.now ends.now) f) }
    ensures cause { HasCause (S.state space.old) (S.state space.new) (fault_of result) }
{
    let mut from = 0;
    for end in ends {
        let tuple = tuple_between(values, from, *end);
        from = *end;
        fill(row, tuple, sources, texts);
        match put_one(space, table, row, stamp) {
            Ok(()) => {}
            Err(fault) => return Err(fault),
        }
    }
    Ok(())
}

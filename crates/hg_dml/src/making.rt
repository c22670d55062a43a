//! The row that an UPDATE makes of a row, and what stands against the rows that it makes.
ghost use Rattle.std.specs.Prelude.{◌≡◌, ◌≤◌, ◌<◌, ◌||◌, ◌++◌, ◌∷◌, nat_lt, length, slice_set, false, [], IsTrue, OnOk, IfErr, List, Some, slice_get};
ghost use Rattle.hg_expr.specs.Over.{values_over, RowFits};
ghost use Rattle.hg_model.specs.Width.{is_small_row, IsSound};
ghost use Rattle.hg_model.specs.declared.trees.Column.{Column as ColumnOf};
ghost use Rattle.hg_model.specs.declared.values.Value.{Value};
ghost use Rattle.hg_value.specs.Coding.{IsHeld, HasRoom};
ghost use Rattle.hg_value.specs.Looks.{value_of};
ghost use Rattle.hg_dml.specs.Making.{set_nodes, no_nodes, picked, made_by, IsChange, earlier, noted, breaks_null, breaks_type, Notes, AreCauses, stand};
ghost use Rattle.hg_dml.specs.Rows.{rows_cause};
ghost use Rattle.hg_dml.specs.Steps.{IsRefusal};

use crate::causes::MOST_BYTES;
use crate::filter::Filter;
use crate::insertion::ChangeError;
use crate::putting::push;
use crate::tuples::{coded_length, fits, is_null};
use crate::updating::Sets;
use arrayvec::ArrayVec;
use hg_expr::{Evaluation, rows_fit};
use hg_model::Column;
use hg_value::{Look, Row, codings_tell};

/// For each column of a table the node whose value it gets; none where it keeps its own.
pub type SetNodes = ArrayVec<Option<u8>, 16>;

/// What an UPDATE does with the rows of a table.
#[derive(Clone, Copy)]
pub struct Change<'a> {
    pub columns: &'a [Column],
    pub filter: Filter<'a>,
    pub nodes: &'a [Option<u8>],
}

/// What stands against the rows that are made, over all of them: the first column that would hold a
/// forbidden NULL, the first that would hold a value which does not fit it, and whether a row is too long.
#[derive(Clone, Copy)]
pub struct Causes {
    pub null: Option<u8>,
    pub misfit: Option<u8>,
    pub long: bool,
}

/// Puts the node of each column's value into a list; where a column is set twice, that of the later item.
pub fn list_nodes(sets: &Sets<'_>, width: usize, nodes: &mut SetNodes)
    requires few { width ≤ 16 }
    requires empty { nodes.old.items ≡ [] }
    ensures { nodes.new.items ≡ set_nodes sets.now.targets.now sets.now.items.now (no_nodes width) }
{
    for _column in 0..width {
        nodes.push(None);
    }
    set_all(sets, nodes);
}

/// Puts the nodes of the items into the list, one after the other.
fn set_all(sets: &Sets<'_>, nodes: &mut SetNodes)
    ensures { nodes.new.items ≡ set_nodes sets.now.targets.now sets.now.items.now nodes.old.items }
{
    let both = sets.targets.len().min(sets.items.len());
    for place in 0..both {
        set_one(nodes, sets.targets[place], sets.items[place].1);
    }
}

/// Puts the node of a column into the list, where there is such a column.
fn set_one(nodes: &mut SetNodes, target: u8, node: u8)
    ensures { nodes.new.items ≡ slice_set nodes.old.items target (Some node) }
{
    let place = target as usize;
    if place < nodes.len() {
        nodes[place] = Some(node);
    }
}

/// The earlier of two columns.
#[inline]
fn earlier(first: Option<u8>, place: u8) -> Option<u8>
    ensures { result ≡ earlier first place }
{
    match first {
        Some(other) => {
            if other < place {
                Some(other)
            } else {
                Some(place)
            }
        }
        None => Some(place),
    }
}

/// The same where something stands against the column; else the first one stays.
#[inline]
fn noted(first: Option<u8>, place: u8, stands: bool) -> Option<u8>
    ensures { result ≡ noted first place stands }
{
    if stands { earlier(first, place) } else { first }
}

impl Causes {
    /// Nothing stands against no rows.
    pub fn new() -> Causes
        ensures { (columns : List ColumnOf) → AreCauses columns [] result }
    {
        Causes {
            null: None,
            misfit: None,
            long: false,
        }
    }

    /// Whether anything stands against the rows.
    #[inline]
    pub fn stand(&self) -> bool
        ensures { result ≡ stand self.now }
    {
        self.null.is_some() || self.misfit.is_some() || self.long
    }

    /// Looks at the value of a column.
    #[inline]
    fn note(&mut self, place: u8, column: &Column, value: &Look)
        ensures null { self.new.null ≡ noted self.old.null place (breaks_null column.now (value_of value.now)) }
        ensures misfit { self.new.misfit ≡ noted self.old.misfit place (breaks_type column.now (value_of value.now)) }
        ensures long { self.new.long ≡ self.old.long }
    {
        self.null = noted(self.null, place, column.not_null && is_null(value));
        self.misfit = noted(self.misfit, place, !fits(column, value));
    }

    /// Looks at how many bytes a row has.
    #[inline]
    fn note_length(&mut self, bytes: usize)
        ensures null { self.new.null ≡ self.old.null }
        ensures misfit { self.new.misfit ≡ self.old.misfit }
        ensures long { self.new.long ≡ (self.old.long || nat_lt 1000 bytes) }
    {
        self.long = self.long || bytes > MOST_BYTES;
    }

    /// The first of all causes, as the error that tells it.
    pub fn first(&self) -> Result<(), ChangeError>
        ensures none { OnOk result (stand self.now ≡ false) }
        ensures ok { OnOk result ((columns : List ColumnOf) (rows : List (List Value)) → AreCauses columns rows self.now → rows_cause columns rows ≡ None) }
        ensures err { IfErr result (λ e. (columns : List ColumnOf) (rows : List (List Value)) → AreCauses columns rows self.now → IsRefusal columns rows e) }
    {
        if let Some(column) = self.null {
            return Err(ChangeError::Refused {
                code: 12,
                column: Some(column),
            });
        }
        if let Some(column) = self.misfit {
            return Err(ChangeError::Refused {
                code: 11,
                column: Some(column),
            });
        }
        if self.long {
            return Err(ChangeError::Refused {
                code: 23,
                column: None,
            });
        }
        Ok(())
    }
}

/// The new value of a column: that of its node over the old row, or its own.
#[inline]
fn new_value<'a>(evaluation: &Evaluation<'a>, node: Option<u8>, place: u8) -> Look<'a>
    requires sound { IsSound evaluation.now.texts.now evaluation.now.nodes.now }
    requires fits { RowFits evaluation.now.nodes.now evaluation.now.slots.now evaluation.now.row.now }
    requires there { place < length evaluation.now.row.now }
    ensures value { (v : Value) → slice_get evaluation.now.row.now place ≡ Some v
        → value_of result ≡ picked (values_over evaluation.now.texts.now evaluation.now.slots.now evaluation.now.nodes.now evaluation.now.row.now) node v }
    ensures held { IsHeld (value_of result) }
{
    match node {
        Some(node) => evaluation.value(node),
        None => evaluation.row.look(place),
    }
}

/// Puts a value behind the others of a row that has so many bytes with it, where they are not too many.
#[inline]
fn push_short(made: &mut Row, value: &Look, bytes: usize)
    requires held { IsHeld (value_of value.now) }
    requires room { bytes ≤ 1000 → HasRoom made.old (value_of value.now) }
    ensures { bytes ≤ 1000 → made.new ≡ made.old ++ value_of value.now ∷ [] }
{
    if bytes <= MOST_BYTES {
        push(made, value);
    }
}

/// Makes the row that an UPDATE makes of a row, as far as it is not too long, and looks at its values.
pub fn make_row(change: &Change<'_>, row: &Row, made: &mut Row, causes: &mut Causes)
    requires change { IsChange change.now }
    requires small { IsTrue (is_small_row row.now) }
    requires as_long { length row.now ≡ length change.now.columns.now }
    ensures causes { Notes change.now.columns.now (made_by change.now row.now) causes.old causes.new }
    ensures made { causes.new.long ≡ false → made.new ≡ made_by change.now row.now }
{
    rows_fit();
    codings_tell();
    let evaluation = Evaluation {
        nodes: change.filter.nodes,
        slots: change.filter.columns,
        texts: change.filter.texts,
        row,
    };
    let mut bytes = 0;
    made.clear();
    for place in 0..change.columns.len() {
        let value = new_value(&evaluation, change.nodes[place], place as u8);
        causes.note(place as u8, &change.columns[place], &value);
        bytes += coded_length(&value);
        push_short(made, &value, bytes);
    }
    causes.note_length(bytes);
}

//! Evaluation by the places of a bound statement.
ghost use Rattle.std.specs.Prelude.{◌≡◌};
ghost use Rattle.hg_model.specs.Evaluation.{value_of, truth_of};
ghost use Rattle.hg_model.specs.Types.{bound_at, bounds_of};
ghost use Rattle.hg_model.specs.Width.{IsBelow, IsSound};
ghost use Rattle.hg_expr.specs.Over.{values_over, RowFits};
ghost use Rattle.hg_expr.specs.Slots.{slots_of, ArePlaced};

use crate::evaluation::Evaluation;
use crate::slots::{Places, find_slots};
use arrayvec::ArrayVec;
use hg_model::{Nodes, Truth, Value};
use hg_value::Row;

/// The value of a node over a row that holds the columns that the nodes name.
pub fn eval(nodes: &Nodes, places: &Places, n: u8, texts: &str, row: &Row) -> Value
    requires placed { ArePlaced nodes.now.items places.now.items }
    requires sound { IsSound texts.now nodes.now.items }
    requires fits { RowFits nodes.now.items (slots_of nodes.now.items places.now.items) row.now }
    ensures value { result ≡ value_of (values_over texts.now (slots_of nodes.now.items places.now.items) nodes.now.items row.now) n }
    ensures below { IsBelow (bound_at (bounds_of nodes.now.items) n) result }
{
    let mut slots = ArrayVec::new();
    find_slots(nodes, places, &mut slots);
    let evaluation = Evaluation {
        nodes: nodes.as_slice(),
        slots: slots.as_slice(),
        texts,
        row,
    };
    evaluation.value(n).to_value()
}

/// The truth of a condition over a row that holds the columns that the nodes name.
pub fn test(nodes: &Nodes, places: &Places, n: u8, texts: &str, row: &Row) -> Truth
    requires placed { ArePlaced nodes.now.items places.now.items }
    requires sound { IsSound texts.now nodes.now.items }
    requires fits { RowFits nodes.now.items (slots_of nodes.now.items places.now.items) row.now }
    ensures { result ≡ truth_of (values_over texts.now (slots_of nodes.now.items places.now.items) nodes.now.items row.now) n }
{
    let mut slots = ArrayVec::new();
    find_slots(nodes, places, &mut slots);
    let evaluation = Evaluation {
        nodes: nodes.as_slice(),
        slots: slots.as_slice(),
        texts,
        row,
    };
    evaluation.truth(n)
}

//! The plan of a SELECT.
ghost use Rattle.std.specs.Prelude.{◌≡◌, ◌≤◌, ◌<◌, [], length, map};
ghost use Rattle.hg_expr.specs.Slots.{ArePlaced, named_columns};
ghost use Rattle.hg_plan.specs.Planning.{AreNamed};
ghost use Rattle.hg_plan.specs.Testing.{AreMarkedAt, marked_at};
ghost use Rattle.hg_plan.specs.declared.plan.TableLoop.{TableLoop as TableLoopOf};

use crate::conditions::{Conditions, find_conditions};
use arrayvec::ArrayVec;
use hg_bind::Places;
use hg_expr::{Slots, find_columns, find_slots};
use hg_model::{Nodes, Select};

/// The loop over one table of FROM: the number of the table, the columns of it that the nodes name, and the
/// conditions that are tested once a row of it has joined the rows before.
#[derive(Drop, Default)]
pub struct TableLoop {
    pub table: u8,
    pub columns: ArrayVec<u8, 16>,
    pub tests: ArrayVec<u8, 112>,
}

/// For each node of a bound SELECT the number of its value in the joined row, and its loops, the outermost
/// first.
#[derive(Drop, Default)]
pub struct Plan {
    pub slots: Slots,
    pub loops: ArrayVec<TableLoop, 4>,
}

/// The loop over the table of a number, at its position in FROM.
fn loop_at(
    nodes: &Nodes,
    places: &Places,
    conditions: &Conditions,
    table: u8,
    position: u8,
) -> TableLoop
    requires placed { ArePlaced nodes.now.items places.now.items }
    requires position { position < 4 }
    ensures table { result.table ≡ table }
    ensures named { result.columns.items ≡ named_columns nodes.now.items places.now.items position }
    ensures tests { result.tests.items ≡ marked_at conditions.now.marks conditions.now.latest.items position }
{
    let mut columns = ArrayVec::new();
    find_columns(nodes, places, position, &mut columns);
    let mut tests = ArrayVec::new();
    conditions.put_tests(position, &mut tests);
    TableLoop {
        table,
        columns,
        tests,
    }
}

/// Puts a loop for each table of FROM into an empty list.
fn put_loops(
    select: &Select,
    places: &Places,
    conditions: &Conditions,
    tables: &[u8],
    loops: &mut ArrayVec<TableLoop, 4>,
)
    requires each { length tables.now ≡ length select.now.tables.items }
    requires placed { ArePlaced select.now.nodes.items places.now.items }
    requires empty { loops.old.items ≡ [] }
    ensures tables_are { map (λ (l : TableLoopOf). l.table) loops.new.items ≡ tables.now }
    ensures named { AreNamed select.now.nodes.items places.now.items 0 loops.new.items }
    ensures tests { AreMarkedAt conditions.now.marks conditions.now.latest.items 0 loops.new.items }
{
    let froms = select.tables.as_slice();
    for position in 0..froms.len() {
        let table = tables[position];
        let next = loop_at(&select.nodes, places, conditions, table, position as u8);
        loops.push(next);
    }
}

impl Plan {
    ghost use Rattle.std.specs.Prelude.{◌≡◌, ◌≤◌, ◌<◌, length, nat_lt, IsTrue};
    ghost use Rattle.std.specs.List.{list_all};
    ghost use Rattle.hg_expr.specs.Slots.{ArePlaced};
    ghost use Rattle.hg_model.specs.Query.{query_of};
    ghost use Rattle.hg_model.specs.SelectMeaning.{conditions};
    ghost use Rattle.hg_model.specs.Width.{is_tree};
    ghost use Rattle.hg_plan.specs.Planning.{IsPlanOf};

    /// Plans a bound SELECT over the tables of these numbers; what was planned before is gone.
    pub fn fill(&mut self, select: &Select, tables: &[u8], places: &Places)
        requires each { length tables.now ≡ length select.now.tables.items }
        requires placed { ArePlaced select.now.nodes.items places.now.items }
        requires tree { IsTrue (is_tree select.now.nodes.items) }
        requires inside { IsTrue (list_all (λ n. nat_lt n (length select.now.nodes.items)) (conditions (query_of select.now))) }
        ensures { IsPlanOf (query_of select.now) tables.now places.now.items self.new }
    {
        let conditions = find_conditions(select, places);
        self.slots.clear();
        find_slots(&select.nodes, places, &mut self.slots);
        self.loops.clear();
        put_loops(select, places, &conditions, tables, &mut self.loops);
    }
}

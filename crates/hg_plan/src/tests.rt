//! The plan of one SELECT over three tables, worked out by hand.
ghost use Rattle.std.specs.Prelude.{◌≡◌, [], ◌∷◌, length, nat_lt, IsTrue};
ghost use Rattle.std.specs.List.{list_all};
ghost use Rattle.hg_expr.specs.Slots.{ArePlaced};
ghost use Rattle.hg_plan.specs.Examples.{three};
ghost use Rattle.hg_model.specs.Query.{query_of};
ghost use Rattle.hg_model.specs.SelectMeaning.{conditions, on_conditions};
ghost use Rattle.hg_model.specs.Width.{is_tree};

use crate::{Plan, bound_may_be_planned};
use arrayvec::ArrayVec;
use hg_bind::Places;
use hg_model::{Cmp, ColRef, FromTable, Literal, Name, Node, Nodes, Output, Select};
use std::test::Fail;

/// For each node the place of its column: t has a and b as its columns 0 and 3, w has c and d as 2 and 5, u
/// has e and f as 1 and 15.
const PLACES: [(u8, u8); 22] = [
    (0, 0),
    (0, 0),
    (1, 2),
    (255, 255),
    (1, 5),
    (255, 255),
    (255, 255),
    (255, 255),
    (2, 1),
    (1, 5),
    (255, 255),
    (255, 255),
    (255, 255),
    (255, 255),
    (0, 3),
    (255, 255),
    (255, 255),
    (2, 15),
    (1, 2),
    (255, 255),
    (255, 255),
    (255, 255),
];

/// The number of each column node in the joined row: a, b, c, d, e, f.
const SLOTS: &[u8] = &[
    0, 0, 2, 255, 3, 255, 255, 255, 4, 3, 255, 255, 255, 255, 1, 255, 255, 5, 2, 255, 255, 255,
];

/// The nodes of `SELECT t.a FROM t JOIN w ON t.a = w.c AND w.d < 5 JOIN u ON u.e = w.d WHERE 1 = 1 AND
/// (t.b = 2 OR u.f = w.c)`, each below those that it stands behind.
fn nodes() -> Nodes
    ensures count { length result.items ≡ 22 }
    ensures tree { IsTrue (is_tree result.items) }
    ensures placed { ArePlaced result.items three }
{
    let mut nodes = ArrayVec::new();
    nodes.push(Node::Col(ColRef::default())); // 0: t.a
    nodes.push(Node::Col(ColRef::default())); // 1: t.a
    nodes.push(Node::Col(ColRef::default())); // 2: w.c
    nodes.push(Node::Compare(Cmp::Eq, 1, 2)); // 3: t.a = w.c
    nodes.push(Node::Col(ColRef::default())); // 4: w.d
    nodes.push(Node::Lit(Literal::Int(5)));
    nodes.push(Node::Compare(Cmp::Lt, 4, 5)); // 6: w.d < 5
    nodes.push(Node::Both(3, 6)); // 7: ON of w
    nodes.push(Node::Col(ColRef::default())); // 8: u.e
    nodes.push(Node::Col(ColRef::default())); // 9: w.d
    nodes.push(Node::Compare(Cmp::Eq, 8, 9)); // 10: ON of u
    nodes.push(Node::Lit(Literal::Int(1)));
    nodes.push(Node::Lit(Literal::Int(1)));
    nodes.push(Node::Compare(Cmp::Eq, 11, 12)); // 13: 1 = 1
    nodes.push(Node::Col(ColRef::default())); // 14: t.b
    nodes.push(Node::Lit(Literal::Int(2)));
    nodes.push(Node::Compare(Cmp::Eq, 14, 15)); // 16: t.b = 2
    nodes.push(Node::Col(ColRef::default())); // 17: u.f
    nodes.push(Node::Col(ColRef::default())); // 18: w.c
    nodes.push(Node::Compare(Cmp::Eq, 17, 18)); // 19: u.f = w.c
    nodes.push(Node::Either(16, 19)); // 20: t.b = 2 OR u.f = w.c
    nodes.push(Node::Both(13, 20)); // 21: WHERE
    nodes
}

fn joined(on: Option<u8>) -> FromTable
    ensures { result.on ≡ on }
{
    FromTable {
        table: Name::default(),
        alias: Name::default(),
        on,
    }
}

fn tables() -> ArrayVec<FromTable, 4>
    ensures count { length result.items ≡ 3 }
    ensures on { on_conditions result.items ≡ 7 ∷ 10 ∷ [] }
{
    let mut tables = ArrayVec::new();
    tables.push(joined(None));
    tables.push(joined(Some(7)));
    tables.push(joined(Some(10)));
    tables
}

fn select() -> Select
    ensures count { length result.tables.items ≡ 3 }
    ensures tree { IsTrue (is_tree result.nodes.items) }
    ensures placed { ArePlaced result.nodes.items three }
    ensures inside { IsTrue (list_all (λ n. nat_lt n (length result.nodes.items)) (conditions (query_of result))) }
{
    let mut outputs = ArrayVec::new();
    outputs.push(Output::default());
    Select {
        distinct: false,
        star: false,
        outputs,
        tables: tables(),
        filter: Some(21),
        group: ArrayVec::new(),
        having: None,
        order: ArrayVec::new(),
        nodes: nodes(),
    }
}

/// The plan, where the tables of FROM are those of the numbers 7, 3 and 9.
fn plan() -> Option<Plan> {
    let select = select();
    let places: Places = ArrayVec::try_from(&PLACES[..]).ok()?;
    let mut plan = Plan::default();
    plan.fill(&select, &[7, 3, 9], &places);
    Some(plan)
}

fn is_loop(plan: &Plan, position: usize, table: u8, columns: &[u8], tests: &[u8]) -> bool {
    match plan.loops.as_slice().get(position) {
        Some(one) => {
            one.table == table && one.columns.as_slice() == columns && one.tests.as_slice() == tests
        }
        None => false,
    }
}

#[test]
fn conditions_at_their_tables(rt: HostRuntime) -> Result<(), Fail> {
    bound_may_be_planned();
    let plan = plan().ok_or("no places")?;
    assert_eq!(rt; plan.loops.len(), 3);
    assert!(rt; is_loop(&plan, 0, 7, &[0, 3], &[13]));
    assert!(rt; is_loop(&plan, 1, 3, &[2, 5], &[3, 6]));
    assert!(rt; is_loop(&plan, 2, 9, &[1, 15], &[10, 20]));
    assert!(rt; plan.slots.as_slice() == SLOTS);
    Ok(())
}

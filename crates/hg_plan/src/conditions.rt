//! The conditions of a SELECT, split at AND, and for each the table of FROM at which it is tested.
ghost use Rattle.std.specs.Prelude.{◌≡◌, ◌<◌, ◌≤◌, [], length, nat_lt, IsTrue, ◌&&◌, ℕ, Bool};
ghost use Rattle.std.specs.List.{flat_map, list_all};
ghost use Rattle.std.specs.Option.{option_to_list};
ghost use Rattle.hg_expr.specs.Slots.{ArePlaced};
ghost use Rattle.hg_model.specs.Conditions.{parts_at, parts_from, split_conditions};
ghost use Rattle.hg_model.specs.Query.{query_of};
ghost use Rattle.hg_model.specs.SelectMeaning.{conditions, on_conditions};
ghost use Rattle.hg_model.specs.Width.{has_children_before, is_tree};
ghost use Rattle.hg_plan.specs.Testing as testing;

use arrayvec::ArrayVec;
use hg_bind::Places;
use hg_model::{FromTable, Node, Select};

/// How many nodes a SELECT has at most.
const NODES: usize = 112;

/// Which nodes are conditions, and for each node the last table of FROM that has a column at it or below it.
#[derive(Drop)]
pub struct Conditions {
    marks: [bool; NODES],
    latest: ArrayVec<u8, 112>,
}

fn latest_at(done: &[u8], node: u8) -> u8
    ensures { result ≡ testing.latest_at done.now node }
{
    match done.get(node as usize) {
        Some(table) => *table,
        None => 0,
    }
}

/// The last table that a node needs, where each node before it has its own; `table` is that of a column.
fn latest_of(table: u8, node: &Node, done: &[u8]) -> u8
    ensures { result ≡ testing.latest_of table node.now done.now }
{
    match node {
        Node::Lit(_) => 0,
        Node::Col(_) => table,
        Node::Neg(a) => latest_at(done, *a),
        Node::Arith(_, a, b) => latest_at(done, *a).max(latest_at(done, *b)),
        Node::Compare(_, a, b) => latest_at(done, *a).max(latest_at(done, *b)),
        Node::Both(a, b) => latest_at(done, *a).max(latest_at(done, *b)),
        Node::Either(a, b) => latest_at(done, *a).max(latest_at(done, *b)),
        Node::Not(a) => latest_at(done, *a),
        Node::IsNull(a) => latest_at(done, *a),
        Node::NotNull(a) => latest_at(done, *a),
        Node::Aggregate(_, _) => 0,
    }
}

/// Puts the last table that each node needs into an empty list, children first.
fn find_latest(nodes: &[Node], places: &[(u8, u8)], latest: &mut ArrayVec<u8, 112>)
    requires few { length nodes.now ≤ 112 }
    requires each { length places.now ≡ length nodes.now }
    requires empty { latest.old.items ≡ [] }
    ensures { latest.new.items ≡ testing.latest_from nodes.now places.now [] }
{
    for (k, node) in nodes.iter().enumerate() {
        let table = latest_of(places[k].0, node, latest.as_slice());
        latest.push(table);
    }
}

/// Marks a condition where there is one.
fn mark_root(root: &Option<u8>, marks: &mut [bool])
    requires inside { IsTrue (list_all (λ n. nat_lt n (length marks.old)) (option_to_list root.now)) }
    ensures { (p : ℕ → Bool) → list_all p (testing.marked marks.new) ≡ list_all p (option_to_list root.now) && list_all p (testing.marked marks.old) }
{
    if let Some(node) = root {
        marks[*node as usize] = true;
    }
}

/// Marks the conditions of ON.
fn mark_on(tables: &[FromTable], marks: &mut [bool])
    requires inside { IsTrue (list_all (λ n. nat_lt n (length marks.old)) (on_conditions tables.now)) }
    ensures { (p : ℕ → Bool) → list_all p (testing.marked marks.new) ≡ list_all p (on_conditions tables.now) && list_all p (testing.marked marks.old) }
{
    for table in tables {
        mark_root(&table.on, marks);
    }
}

/// Marks the conditions of ON and WHERE, where no node is marked.
fn mark_roots(select: &Select, marks: &mut [bool])
    requires inside { IsTrue (list_all (λ n. nat_lt n (length marks.old)) (conditions (query_of select.now))) }
    requires none { testing.marked marks.old ≡ [] }
    ensures { testing.HaveSame (testing.marked marks.new) (conditions (query_of select.now)) }
{
    mark_on(select.tables.as_slice(), marks);
    mark_root(&select.filter, marks);
}

/// A marked AND passes its mark to its two children.
fn pass_mark(node: &Node, k: usize, marks: &mut [bool])
    requires room { k < length marks.old }
    requires before { IsTrue (has_children_before k node.now) }
    ensures { marks.new ≡ testing.passed k node.now marks.old }
{
    if let Node::Both(a, b) = node {
        if marks[k] {
            marks[k] = false;
            marks[*a as usize] = true;
            marks[*b as usize] = true;
        }
    }
}

/// Splits the marked conditions at AND, parents first.
fn split_marked(nodes: &[Node], marks: &mut [bool])
    requires tree { IsTrue (is_tree nodes.now) }
    requires room { length nodes.now ≤ length marks.old }
    ensures { testing.HaveSame (testing.marked marks.new) (flat_map (parts_at (parts_from nodes.now [])) (testing.marked marks.old)) }
{
    let mut k = nodes.len();
    while k > 0 {
        k -= 1;
        pass_mark(&nodes[k], k, marks);
    }
}

/// Finds the conditions of a bound SELECT.
pub fn find_conditions(select: &Select, places: &Places) -> Conditions
    requires placed { ArePlaced select.now.nodes.items places.now.items }
    requires tree { IsTrue (is_tree select.now.nodes.items) }
    requires inside { IsTrue (list_all (λ n. nat_lt n (length select.now.nodes.items)) (conditions (query_of select.now))) }
    ensures latest { result.latest.items ≡ testing.latest_from select.now.nodes.items places.now.items [] }
    ensures marked { testing.HaveSame (testing.marked result.marks) (split_conditions (query_of select.now)) }
{
    let nodes = select.nodes.as_slice();
    let mut latest = ArrayVec::new();
    find_latest(nodes, places.as_slice(), &mut latest);
    let mut marks = [false; NODES];
    mark_roots(select, &mut marks);
    split_marked(nodes, &mut marks);
    Conditions { marks, latest }
}

impl Conditions {
    /// Puts the conditions that are tested at a table of FROM, by its position there, into an empty list.
    pub fn put_tests(&self, table: u8, tests: &mut ArrayVec<u8, 112>)
        requires empty { tests.old.items ≡ [] }
        ensures { tests.new.items ≡ testing.marked_at self.now.marks self.now.latest.items table }
    {
        for (node, marked) in self.marks.iter().enumerate() {
            let node = node as u8;
            let latest = latest_at(self.latest.as_slice(), node);
            if *marked && latest == table {
                tests.push(node);
            }
        }
    }
}

//! Which values a row holds, and which of them is a node's. It is found once a statement.
ghost use Rattle.std.specs.Prelude.{◌≡◌, ◌<◌, ◌≤◌, ℕ, List, [], length};
ghost use Rattle.hg_model.specs.declared.trees.Node.{Node};
ghost use Rattle.hg_expr.specs.Marks.{AreUnmarked, MarksOne, AreMarks, AreNumbers};
ghost use Rattle.hg_expr.specs.Slots.{named_columns, slot_at, slots_from, slots_of, ArePlaced, HasPlace};

use arrayvec::ArrayVec;
use hg_model::{Node, Nodes};

/// For each node of a statement the place of its column: the position of its table in FROM, and its number
/// there. `(255, k)` is value k of the row.
pub type Places = ArrayVec<(u8, u8), 112>;

/// For each node of a statement the number of its value in the row.
pub type Slots = ArrayVec<u8, 112>;

/// How many columns a table has at most, and four tables.
const TABLE: usize = 16;

const COLUMNS: usize = 64;

/// The first part of a place in the row itself.
const OF_ROW: u8 = 255;

/// The slot of what is no column: behind every row.
const NO_SLOT: u8 = 255;

/// Marks the column that a node names.
fn mark(node: &Node, place: (u8, u8), marks: &mut [bool])
    requires room { length marks.old ≡ 64 }
    requires placed { HasPlace node.now place }
    ensures { MarksOne node.now place marks.old marks.new }
{
    if let Node::Col(_) = node {
        if place.0 != OF_ROW {
            marks[TABLE * place.0 as usize + place.1 as usize] = true;
        }
    }
}

/// Marks the columns that the nodes name.
fn mark_all(nodes: &[Node], places: &[(u8, u8)], marks: &mut [bool])
    requires none { AreUnmarked marks.old }
    requires placed { ArePlaced nodes.now places.now }
    ensures { AreMarks nodes.now places.now marks.new }
{
    for (k, node) in nodes.iter().enumerate() {
        mark(node, places[k], marks);
    }
}

/// Numbers the columns, each by how many marked ones stand before it.
fn number_all(marks: &[bool], numbers: &mut [u8])
    requires marks { length marks.now ≡ 64 }
    requires room { length numbers.old ≡ 64 }
    ensures { (ns : List Node) (ps : List (ℕ × ℕ)) → AreMarks ns ps marks.now → AreNumbers ns ps numbers.new }
{
    let mut count: u8 = 0;
    for key in 0..COLUMNS {
        numbers[key] = count;
        if marks[key] {
            count += 1;
        }
    }
}

/// The slot of a node, where each column has its number.
fn slot_at(node: &Node, place: (u8, u8), numbers: &[u8]) -> u8
    requires room { length numbers.now ≡ 64 }
    requires placed { HasPlace node.now place }
    ensures { (ns : List Node) (ps : List (ℕ × ℕ)) → AreNumbers ns ps numbers.now → result ≡ slot_at ns ps node.now place }
{
    if place.0 == OF_ROW {
        return place.1;
    }
    match node {
        Node::Col(_) => numbers[TABLE * place.0 as usize + place.1 as usize],
        _ => NO_SLOT,
    }
}

/// Puts the slot of each node into an empty list.
fn put_slots(nodes: &[Node], places: &[(u8, u8)], numbers: &[u8], slots: &mut Slots)
    requires few { length nodes.now ≤ 112 }
    requires placed { ArePlaced nodes.now places.now }
    requires numbers { AreNumbers nodes.now places.now numbers.now }
    requires empty { slots.old.items ≡ [] }
    ensures { slots.new.items ≡ slots_from nodes.now places.now nodes.now places.now }
{
    for (k, node) in nodes.iter().enumerate() {
        slots.push(slot_at(node, places[k], numbers));
    }
}

/// Finds for each node the number of its value in the row; `slots` is empty. Each column has a place of
/// one of four tables of at most 16 columns, or of the row itself.
pub fn find_slots(nodes: &Nodes, places: &Places, slots: &mut Slots)
    requires placed { ArePlaced nodes.now.items places.now.items }
    requires empty { slots.old.items ≡ [] }
    ensures { slots.new.items ≡ slots_of nodes.now.items places.now.items }
{
    let nodes = nodes.as_slice();
    let places = places.as_slice();
    let mut marks = [false; COLUMNS];
    let mut numbers = [0; COLUMNS];
    mark_all(nodes, places, &mut marks);
    number_all(&marks, &mut numbers);
    put_slots(nodes, places, &numbers, slots);
}

/// Puts the numbers of a table's marked columns into an empty list.
fn put_columns(marks: &[bool], table: u8, columns: &mut ArrayVec<u8, 16>)
    requires room { length marks.now ≡ 64 }
    requires table { table < 4 }
    requires empty { columns.old.items ≡ [] }
    ensures { (ns : List Node) (ps : List (ℕ × ℕ)) → AreMarks ns ps marks.now → columns.new.items ≡ named_columns ns ps table }
{
    for column in 0..TABLE as u8 {
        if marks[TABLE * table as usize + column as usize] {
            columns.push(column);
        }
    }
}

/// Finds the columns of a table of FROM that the nodes name, in order: those whose values a row holds.
/// `columns` is empty.
pub fn find_columns(nodes: &Nodes, places: &Places, table: u8, columns: &mut ArrayVec<u8, 16>)
    requires placed { ArePlaced nodes.now.items places.now.items }
    requires table { table < 4 }
    requires empty { columns.old.items ≡ [] }
    ensures { columns.new.items ≡ named_columns nodes.now.items places.now.items table }
{
    let mut marks = [false; COLUMNS];
    mark_all(nodes.as_slice(), places.as_slice(), &mut marks);
    put_columns(&marks, table, columns);
}

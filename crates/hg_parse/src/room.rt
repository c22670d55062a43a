//! The room that a statement is read into. The caller keeps it across lines: it has 51 KB.
//!
//! ```text
//!     lists    each keeps as many items as a statement may have of them
//!     counts   how many there were of each, up to the greatest number of the count's type
//!     bad      whether a number among the nodes, the keys, the types, the values was out of range
//! ```
ghost use Rattle.std.specs.Prelude.{◌≤◌, length};

use arrayvec::{ArrayString, ArrayVec};
use hg_model::{FromTable, Literal, Name, NewColumn, Nodes, OrderKey, Output};

/// The room of a statement, and what it is read into.
#[derive(Drop)]
pub struct Room {
    pub nodes: Nodes,
    pub texts: ArrayString<4096>,
    pub outputs: ArrayVec<Output, 16>,
    pub tables: ArrayVec<FromTable, 4>,
    pub group: ArrayVec<u8, 16>,
    pub order: ArrayVec<OrderKey, 8>,
    pub columns: ArrayVec<NewColumn, 16>,
    pub names: ArrayVec<Name, 16>,
    pub sets: ArrayVec<(Name, u8), 16>,
    pub values: ArrayVec<Literal, 1024>,
    pub ends: ArrayVec<u16, 64>,
    pub node_count: u8,
    pub output_count: u8,
    pub table_count: u8,
    pub group_count: u8,
    pub order_count: u8,
    pub column_count: u8,
    pub name_count: u8,
    pub set_count: u8,
    pub value_count: u16,
    pub end_count: u8,
    pub bad_node: bool,
    pub bad_key: bool,
    pub bad_type: bool,
    pub bad_value: bool,
    ghost nodes_counted: { length nodes.items ≤ node_count },
    ghost outputs_counted: { length outputs.items ≤ output_count },
    ghost tables_counted: { length tables.items ≤ table_count },
    ghost group_counted: { length group.items ≤ group_count },
    ghost order_counted: { length order.items ≤ order_count },
    ghost columns_counted: { length columns.items ≤ column_count },
    ghost names_counted: { length names.items ≤ name_count },
    ghost sets_counted: { length sets.items ≤ set_count },
    ghost values_counted: { length values.items ≤ value_count },
    ghost ends_counted: { length ends.items ≤ end_count },
}

//! The rows of FROM and those that pass ON and WHERE, by their plain definition: the whole cross product
//! in memory, every node computed anew for each row.
ghost use Rattle.std.specs.Prelude.{◌≡◌, ◌≤◌, ◌<◌, ◌^◌, ◌++◌, ◌∷◌, ℕ, List, [], false, length, map, IsTrue, IfOk, OnOk};
ghost use Rattle.std.specs.List.{list_all, filter, flat_map};
ghost use Rattle.std.specs.Option.{option_to_list};
ghost use Rattle.hg_model.specs.Evaluation as evaluation;
ghost use Rattle.hg_model.specs.Groups as groups;
ghost use Rattle.hg_model.specs.NullLogic.{is_true};
ghost use Rattle.hg_model.specs.Order.{GivenInTurn, stands_before};
ghost use Rattle.hg_model.specs.Query.{query_of};
ghost use Rattle.hg_model.specs.SelectMeaning as meaning;
ghost use Rattle.hg_slow.specs.SlowPlaces.{setting};
ghost use Rattle.hg_model.specs.Tables.{table_named, cross};
ghost use Rattle.hg_slow.specs.SlowTables.{table_of, tables_of};
ghost use Rattle.hg_model.specs.Scope.{rows_of};
ghost use Rattle.hg_model.specs.Width.{IsSound, is_small_row};
ghost use Rattle.hg_model.specs.declared.trees.FromTable.{FromTable};

use crate::compare::{is_true, keys_cmp, same_values};
use crate::evaluate::{aggregate, truth_of, value_at, value_of, values_of};
use crate::scope::{find_table, positions_of, scope_of, targets_of};
use crate::tables::{Group, Places, SlowPair, SlowRow, SlowTable};
use hg_model::{FromTable, Node, NodeValue, Select, SortKey, Target, Value};
use std::alloc::{AllocError, Global};

pub fn copy_values(alloc: Global, values: &[Value]) -> Result<Vec<Value>, AllocError>
    ensures { IfOk result (λ v. v.items ≡ values.now) }
{
    let mut copy = Vec::new(alloc);
    for value in values {
        copy.push(value.copy())?;
    }
    Ok(copy)
}

fn joined(alloc: Global, front: &[Value], back: &[Value]) -> Result<SlowRow, AllocError>
    ensures { IfOk result (λ row. row ≡ front.now ++ back.now) }
{
    let mut values = copy_values(alloc, front)?;
    for value in back {
        values.push(value.copy())?;
    }
    Ok(SlowRow { values })
}

fn table_rows(alloc: Global, table: &SlowTable) -> Result<Vec<SlowRow>, AllocError>
    ensures { IfOk result (λ v. v.items ≡ (table_of table.now).rows) }
{
    let mut rows = Vec::new(alloc);
    for row in &table.rows {
        let values = copy_values(alloc, row)?;
        rows.push(SlowRow { values })?;
    }
    Ok(rows)
}

fn rows_named(
    alloc: Global,
    tables: &Vec<SlowTable>,
    from: &FromTable,
) -> Result<Vec<SlowRow>, AllocError>
    ensures { IfOk result (λ v. v.items ≡ rows_of (table_named (tables_of tables.now.items) from.now.table)) }
{
    match find_table(tables, &from.table) {
        Some(table) => table_rows(alloc, table),
        None => Ok(Vec::new(alloc)),
    }
}

fn push_joined(
    alloc: Global,
    out: &mut Vec<SlowRow>,
    front: &SlowRow,
    more: &Vec<SlowRow>,
) -> Result<(), AllocError>
    ensures { OnOk result (out.new.items ≡ out.old.items ++ map (λ rest. front.now ++ rest) more.now.items) }
{
    for rest in more {
        out.push(joined(alloc, &front.values, &rest.values)?)?;
    }
    Ok(())
}

fn product(
    alloc: Global,
    rows: &Vec<SlowRow>,
    more: &Vec<SlowRow>,
) -> Result<Vec<SlowRow>, AllocError>
    ensures { IfOk result (λ v. v.items ≡ flat_map (λ row. map (λ rest. row ++ rest) more.now.items) rows.now.items) }
{
    let mut out = Vec::new(alloc);
    for row in rows {
        push_joined(alloc, &mut out, row, more)?;
    }
    Ok(out)
}

pub fn from_rows(
    alloc: Global,
    tables: &Vec<SlowTable>,
    froms: &[FromTable],
) -> Result<Vec<SlowRow>, AllocError>
    ensures { IfOk result (λ v. v.items ≡ cross (map (λ (f : FromTable). rows_of (table_named (tables_of tables.now.items) f.table)) froms.now)) }
{
    match froms {
        [] => one_empty_row(alloc),
        [first, others @ ..] => {
            let rows = rows_named(alloc, tables, first)?;
            let more = from_rows(alloc, tables, others)?;
            product(alloc, &rows, &more)
        }
    }
}

fn one_empty_row(alloc: Global) -> Result<Vec<SlowRow>, AllocError>
    ensures { IfOk result (λ v. v.items ≡ [] ∷ []) }
{
    let mut rows = Vec::new(alloc);
    let values = Vec::new(alloc);
    rows.push(SlowRow { values })?;
    Ok(rows)
}

pub fn places_of(
    alloc: Global,
    select: &Select,
    tables: &Vec<SlowTable>,
) -> Result<Places, AllocError>
    ensures { IfOk result (λ p. (texts : List ℕ) → setting select.now texts p ≡ meaning.setting_of (query_of select.now) texts (tables_of tables.now.items)) }
{
    let scope = scope_of(alloc, select, tables)?;
    let positions = positions_of(alloc, select, &scope)?;
    let targets = targets_of(alloc, &scope, &positions, select)?;
    Ok(Places { positions, targets })
}

fn row_leaf(row: &[Value], node: &Node, place: usize) -> Value
    ensures { result ≡ meaning.row_leaf row.now node.now place }
{
    match node {
        Node::Col(_) => value_at(row, place),
        _ => Value::Null,
    }
}

fn row_leaves(
    alloc: Global,
    nodes: &[Node],
    positions: &[usize],
    row: &[Value],
) -> Result<Vec<Value>, AllocError>
    ensures { IfOk result (λ v. v.items ≡ meaning.leaves_of (meaning.row_leaf row.now) nodes.now positions.now) }
{
    let mut leaves = Vec::new(alloc);
    for (k, node) in nodes.iter().enumerate() {
        if k == positions.len() {
            return Ok(leaves);
        }
        leaves.push(row_leaf(row, node, positions[k]))?;
    }
    Ok(leaves)
}

#[tactic(auto, unfolding(hg_model::specs::SelectMeaning::row_values))]
pub fn row_values(
    alloc: Global,
    select: &Select,
    texts: &str,
    places: &Places,
    row: &[Value],
) -> Result<Vec<NodeValue>, AllocError>
    requires sound { IsSound texts.now select.now.nodes.items }
    requires small { IsTrue (is_small_row row.now) }
    ensures { IfOk result (λ v. v.items ≡ meaning.row_values (setting select.now texts.now places.now) row.now) }
{
    let nodes = select.nodes.as_slice();
    let leaves = row_leaves(alloc, nodes, &places.positions, row)?;
    values_of(alloc, &leaves, texts, nodes)
}

pub fn condition_holds(values: &[NodeValue], condition: &Option<u8>) -> bool
    ensures { result ≡ list_all (λ n. is_true (evaluation.truth_of values.now n)) (option_to_list condition.now) }
{
    match condition {
        None => true,
        Some(node) => is_true(truth_of(values, *node as usize)),
    }
}

fn joins_hold(values: &[NodeValue], tables: &[FromTable]) -> bool
    ensures { result ≡ list_all (λ n. is_true (evaluation.truth_of values.now n)) (meaning.on_conditions tables.now) }
{
    for table in tables {
        if !condition_holds(values, &table.on) {
            return false;
        }
    }
    true
}

#[tactic(auto, unfolding(hg_model::specs::SelectMeaning::keeps_row))]
fn keeps_row(
    alloc: Global,
    select: &Select,
    texts: &str,
    places: &Places,
    row: &[Value],
) -> Result<bool, AllocError>
    requires sound { IsSound texts.now select.now.nodes.items }
    requires small { IsTrue (is_small_row row.now) }
    ensures { IfOk result (λ b. b ≡ meaning.keeps_row (setting select.now texts.now places.now) row.now) }
{
    let values = row_values(alloc, select, texts, places, row)?;
    let joined = joins_hold(&values, select.tables.as_slice());
    Ok(joined && condition_holds(&values, &select.filter))
}

pub fn copy_row(alloc: Global, row: &SlowRow) -> Result<SlowRow, AllocError>
    ensures { IfOk result (λ copy. copy ≡ row.now) }
{
    let values = copy_values(alloc, &row.values)?;
    Ok(SlowRow { values })
}

pub fn kept_rows(
    alloc: Global,
    select: &Select,
    texts: &str,
    places: &Places,
    rows: &[SlowRow],
) -> Result<Vec<SlowRow>, AllocError>
    requires sound { IsSound texts.now select.now.nodes.items }
    requires small { IsTrue (list_all is_small_row rows.now) }
    ensures { IfOk result (λ v. v.items ≡ filter (meaning.keeps_row (setting select.now texts.now places.now)) rows.now) }
{
    let mut kept = Vec::new(alloc);
    for row in rows {
        if keeps_row(alloc, select, texts, places, &row.values)? {
            kept.push(copy_row(alloc, row)?)?;
        }
    }
    Ok(kept)
}

//! Groups and aggregates by their plain definition.
ghost use Rattle.std.specs.Prelude.{◌≡◌, ◌≤◌, ◌^◌, ◌++◌, ◌∷◌, [], ℕ, List, length, map, IsTrue, IfOk};
ghost use Rattle.std.specs.List.{list_all, list_any, filter, AllByRecursion};
ghost use Rattle.std.specs.Option.{option_to_list};
ghost use Rattle.hg_model.specs.Evaluation as evaluation;
ghost use Rattle.hg_model.specs.Groups as groups;
ghost use Rattle.hg_model.specs.NullLogic.{is_true};
ghost use Rattle.hg_model.specs.SelectMeaning as meaning;
ghost use Rattle.hg_slow.specs.SlowPlaces.{setting};
ghost use Rattle.hg_model.specs.Width.{IsSound, LeafFits, is_small_row};

use crate::compare::same_values;
use crate::evaluate::{aggregate, value_at, value_of, values_of};
use crate::slow_rows::{condition_holds, copy_row, copy_values, row_values};
use crate::tables::{Group, Places, SlowRow};
use hg_model::{Node, NodeValue, Select, Value};
use std::alloc::{AllocError, Global};

#[tactic(auto, unfolding(hg_model::specs::SelectMeaning::group_key))]
fn group_key(
    alloc: Global,
    select: &Select,
    texts: &str,
    places: &Places,
    row: &[Value],
) -> Result<SlowRow, AllocError>
    requires sound { IsSound texts.now select.now.nodes.items }
    requires small { IsTrue (is_small_row row.now) }
    ensures { IfOk result (λ key. key ≡ meaning.group_key (setting select.now texts.now places.now) row.now) }
{
    let evaluated = row_values(alloc, select, texts, places, row)?;
    let values = values_at(alloc, &evaluated, select.group.as_slice())?;
    Ok(SlowRow { values })
}

/// The values of some nodes.
fn values_at(alloc: Global, evaluated: &[NodeValue], nodes: &[u8]) -> Result<Vec<Value>, AllocError>
    ensures { IfOk result (λ v. v.items ≡ map (evaluation.value_of evaluated.now) nodes.now) }
{
    let mut values = Vec::new(alloc);
    for node in nodes {
        values.push(value_of(evaluated, *node as usize))?;
    }
    Ok(values)
}

fn keys_of(
    alloc: Global,
    select: &Select,
    texts: &str,
    places: &Places,
    rows: &[SlowRow],
) -> Result<Vec<SlowRow>, AllocError>
    requires sound { IsSound texts.now select.now.nodes.items }
    requires small { IsTrue (list_all is_small_row rows.now) }
    ensures { IfOk result (λ v. v.items ≡ map (meaning.group_key (setting select.now texts.now places.now)) rows.now) }
{
    let mut keys = Vec::new(alloc);
    for row in rows {
        keys.push(group_key(alloc, select, texts, places, &row.values)?)?;
    }
    Ok(keys)
}

fn is_among(kept: &[SlowRow], key: &SlowRow) -> bool
    ensures { result ≡ list_any (groups.same_values key.now) kept.now }
{
    for one in kept {
        if same_values(&key.values, &one.values) {
            return true;
        }
    }
    false
}

fn firsts(alloc: Global, keys: &[SlowRow]) -> Result<Vec<SlowRow>, AllocError>
    ensures { IfOk result (λ v. v.items ≡ groups.firsts keys.now) }
{
    let mut kept = Vec::new(alloc);
    for key in keys {
        if !is_among(&kept, key) {
            kept.push(copy_row(alloc, key)?)?;
        }
    }
    Ok(kept)
}

fn group_with(
    alloc: Global,
    select: &Select,
    texts: &str,
    places: &Places,
    rows: &[SlowRow],
    key: &SlowRow,
) -> Result<Group, AllocError>
    requires sound { IsSound texts.now select.now.nodes.items }
    requires small { IsTrue (list_all is_small_row rows.now) }
    ensures { IfOk result (λ g. g ≡ filter (λ row. groups.same_values (meaning.group_key (setting select.now texts.now places.now) row) key.now) rows.now) }
{
    let mut of_key = Vec::new(alloc);
    for row in rows {
        let row_key = group_key(alloc, select, texts, places, &row.values)?;
        if same_values(&row_key.values, &key.values) {
            of_key.push(copy_row(alloc, row)?)?;
        }
    }
    Ok(Group { rows: of_key })
}

fn groups_by(
    alloc: Global,
    select: &Select,
    texts: &str,
    places: &Places,
    rows: &[SlowRow],
) -> Result<Vec<Group>, AllocError>
    requires sound { IsSound texts.now select.now.nodes.items }
    requires small { IsTrue (list_all is_small_row rows.now) }
    ensures { IfOk result (λ v. v.items ≡ groups.groups_by (meaning.group_key (setting select.now texts.now places.now)) rows.now) }
{
    let every_key = keys_of(alloc, select, texts, places, rows)?;
    let keys = firsts(alloc, &every_key)?;
    let mut groups = Vec::new(alloc);
    for key in &keys {
        groups.push(group_with(alloc, select, texts, places, rows, key)?)?;
    }
    Ok(groups)
}

fn one_group(alloc: Global, rows: Vec<SlowRow>) -> Result<Vec<Group>, AllocError>
    ensures { IfOk result (λ v. v.items ≡ rows.items ∷ []) }
{
    let mut groups = Vec::new(alloc);
    groups.push(Group { rows })?;
    Ok(groups)
}

/// The groups of the rows that pass ON and WHERE.
pub fn groups_of(
    alloc: Global,
    select: &Select,
    texts: &str,
    places: &Places,
    rows: Vec<SlowRow>,
) -> Result<Vec<Group>, AllocError>
    requires sound { IsSound texts.now select.now.nodes.items }
    requires small { IsTrue (list_all is_small_row rows.items) }
    ensures { IfOk result (λ v. v.items ≡ meaning.groups_of (setting select.now texts.now places.now) rows.items) }
{
    if select.group.is_empty() {
        one_group(alloc, rows)
    } else {
        groups_by(alloc, select, texts, places, &rows)
    }
}

fn nulls(alloc: Global, rows: &[SlowRow]) -> Result<Vec<Value>, AllocError>
    ensures { IfOk result (λ v. v.items ≡ map (λ row. Value.Null) rows.now) }
{
    let mut values = Vec::new(alloc);
    for _row in rows {
        values.push(Value::Null)?;
    }
    Ok(values)
}

fn operand_values(
    alloc: Global,
    select: &Select,
    texts: &str,
    places: &Places,
    rows: &[SlowRow],
    node: usize,
) -> Result<Vec<Value>, AllocError>
    requires sound { IsSound texts.now select.now.nodes.items }
    requires small { IsTrue (list_all is_small_row rows.now) }
    ensures { IfOk result (λ v. v.items ≡ map (λ row. evaluation.value_of (meaning.row_values (setting select.now texts.now places.now) row) node) rows.now) }
{
    let mut values = Vec::new(alloc);
    for row in rows {
        let evaluated = row_values(alloc, select, texts, places, &row.values)?;
        values.push(value_of(&evaluated, node))?;
    }
    Ok(values)
}

fn operands(
    alloc: Global,
    select: &Select,
    texts: &str,
    places: &Places,
    rows: &[SlowRow],
    operand: &Option<u8>,
) -> Result<Vec<Value>, AllocError>
    requires sound { IsSound texts.now select.now.nodes.items }
    requires small { IsTrue (list_all is_small_row rows.now) }
    ensures { IfOk result (λ v. v.items ≡ meaning.operands (setting select.now texts.now places.now) operand.now rows.now) }
{
    match operand {
        None => nulls(alloc, rows),
        Some(node) => operand_values(alloc, select, texts, places, rows, *node as usize),
    }
}

fn first_value(rows: &[SlowRow], place: usize) -> Value
    ensures { result ≡ evaluation.value_at (meaning.first_row rows.now) place }
{
    match rows {
        [] => Value::Null,
        [first, ..] => value_at(&first.values, place),
    }
}

fn group_leaf(
    alloc: Global,
    select: &Select,
    texts: &str,
    places: &Places,
    rows: &[SlowRow],
    node: &Node,
    place: usize,
) -> Result<Value, AllocError>
    requires sound { IsSound texts.now select.now.nodes.items }
    requires small { IsTrue (list_all is_small_row rows.now) }
    requires fits { LeafFits (setting select.now texts.now places.now) rows.now node.now }
    ensures { IfOk result (λ v. v ≡ meaning.group_leaf (setting select.now texts.now places.now) rows.now node.now place) }
{
    match node {
        Node::Aggregate(function, operand) => {
            let values = operands(alloc, select, texts, places, rows, operand)?;
            Ok(aggregate(*function, &values))
        }
        Node::Col(_) => Ok(first_value(rows, place)),
        _ => Ok(Value::Null),
    }
}

fn group_leaves(
    alloc: Global,
    select: &Select,
    texts: &str,
    places: &Places,
    rows: &[SlowRow],
) -> Result<Vec<Value>, AllocError>
    requires sound { IsSound texts.now select.now.nodes.items }
    requires small { IsTrue (list_all is_small_row rows.now) }
    requires fits { AllByRecursion (LeafFits (setting select.now texts.now places.now) rows.now) select.now.nodes.items }
    ensures { IfOk result (λ v. v.items ≡ meaning.leaves_of (meaning.group_leaf (setting select.now texts.now places.now) rows.now) select.now.nodes.items places.now.positions.items) }
{
    let mut leaves = Vec::new(alloc);
    let nodes = select.nodes.as_slice();
    let positions = places.positions.as_slice();
    for (k, node) in nodes.iter().enumerate() {
        if k == positions.len() {
            return Ok(leaves);
        }
        leaves.push(group_leaf(alloc, select, texts, places, rows, node, positions[k])?)?;
    }
    Ok(leaves)
}

/// What each node stands for over a group.
#[tactic(auto, unfolding(hg_model::specs::SelectMeaning::group_values))]
pub fn group_values(
    alloc: Global,
    select: &Select,
    texts: &str,
    places: &Places,
    rows: &[SlowRow],
) -> Result<Vec<NodeValue>, AllocError>
    requires sound { IsSound texts.now select.now.nodes.items }
    requires small { IsTrue (list_all is_small_row rows.now) }
    requires few { length rows.now ≤ 2 ^ 30 }
    ensures { IfOk result (λ v. v.items ≡ meaning.group_values (setting select.now texts.now places.now) rows.now) }
{
    let leaves = group_leaves(alloc, select, texts, places, rows)?;
    values_of(alloc, &leaves, texts, select.nodes.as_slice())
}

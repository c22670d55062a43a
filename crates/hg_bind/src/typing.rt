//! Types of a SELECT, and the sums of its declared lengths.
ghost use Rattle.std.specs.Prelude.{◌≡◌, ◌≤◌, ◌<◌, ◌*◌, ◌+◌, ◌^◌, ℕ, List, [], length, map, slice_index};
ghost use Rattle.std.specs.List.{list_all, sum_by};
ghost use Rattle.std.specs.Option.{option_to_list};
ghost use Rattle.hg_model.specs.Binding as binding;
ghost use Rattle.hg_model.specs.Query.{query_of};
ghost use Rattle.hg_model.specs.SelectMeaning as meaning;
ghost use Rattle.hg_model.specs.Types as types;
ghost use Rattle.hg_model.specs.declared.tables.FromColumn.{FromColumn};
ghost use Rattle.hg_model.specs.declared.trees.Column.{Column as ColumnOf};
ghost use Rattle.hg_model.specs.declared.trees.Output.{Output as OutputOf};
ghost use Rattle.hg_bind.specs.Kinds.{shown};

use crate::kinds::{Kind, all_well_typed, is_condition, is_value, kind_at, kind_of, kind_of_type};
use crate::scope::{ScopeColumn, position_at};
use arrayvec::ArrayVec;
use hg_model::{FromTable, Node, Output, Select};

/// The kind of a column of FROM, and that of NULL where there is none.
fn kind_of_place(scope: &[ScopeColumn], place: u8) -> Kind
    ensures { shown result ≡ binding.type_at (λ (c : ColumnOf). types.kind_of_type c.ty) types.Nothing scope.now place }
{
    match scope.get(place as usize) {
        Some(column) => kind_of_type(column.column.ty),
        None => Kind::Nothing,
    }
}

/// Puts the kind of each node into a list, front to back.
pub fn list_select_kinds(
    scope: &[ScopeColumn],
    positions: &[u8],
    nodes: &[Node],
    kinds: &mut ArrayVec<Kind, 112>,
)
    requires few { length nodes.now ≤ 112 }
    requires each { length positions.now ≡ length nodes.now }
    requires empty { kinds.old.items ≡ [] }
    ensures { map shown kinds.new.items ≡ types.kinds_from (binding.leaf_kinds scope.now positions.now) nodes.now [] }
{
    for place in 0..nodes.len() {
        let leaf = kind_of_place(scope, positions[place]);
        let kind = kind_of(leaf, &nodes[place], kinds.as_slice());
        kinds.push(kind);
    }
}

fn outputs_fit(kinds: &[Kind], outputs: &[Output]) -> bool
    ensures { result ≡ list_all (λ (o : OutputOf). types.is_value (types.kind_at (map shown kinds.now) o.node)) outputs.now }
{
    for output in outputs {
        if !is_value(kind_at(kinds, output.node)) {
            return false;
        }
    }
    true
}

/// Whether a node, if there is one, is a condition.
fn root_fits(kinds: &[Kind], root: &Option<u8>) -> bool
    ensures { result ≡ list_all (λ n. types.is_condition (types.kind_at (map shown kinds.now) n)) (option_to_list root.now) }
{
    match root {
        None => true,
        Some(node) => is_condition(kind_at(kinds, *node)),
    }
}

/// Whether each ON has a condition.
fn joins_fit(kinds: &[Kind], froms: &[FromTable]) -> bool
    ensures { result ≡ list_all (λ n. types.is_condition (types.kind_at (map shown kinds.now) n)) (meaning.on_conditions froms.now) }
{
    for from in froms {
        if !root_fits(kinds, &from.on) {
            return false;
        }
    }
    true
}

/// Whether each node takes its children, each output is a value, and ON, WHERE and HAVING are conditions.
pub fn select_types_fit(select: &Select, kinds: &[Kind]) -> bool
    ensures { result ≡ binding.select_types_fit (query_of select.now) (map shown kinds.now) }
{
    all_well_typed(select.nodes.as_slice(), kinds)
        && outputs_fit(kinds, select.outputs.as_slice())
        && joins_fit(kinds, select.tables.as_slice())
        && root_fits(kinds, &select.filter)
        && root_fits(kinds, &select.having)
}

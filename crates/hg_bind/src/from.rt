//! How many tables of FROM a name in a SELECT sees.
ghost use Rattle.std.specs.Prelude.{◌≡◌, ◌≤◌, length};
ghost use Rattle.hg_model.specs.Query.{query_of};
ghost use Rattle.hg_model.specs.Scope.{is_in_outputs, is_within, seen_from, tables_seen};

use hg_model::{FromTable, Output, Select};

/// Whether a node stands in a condition of ON, or before it.
fn is_within(on: &Option<u8>, node: u8) -> bool
    ensures { result ≡ is_within on.now node }
{
    match on {
        None => false,
        Some(root) => node <= *root,
    }
}

fn is_in_outputs(outputs: &[Output], node: u8) -> bool
    ensures { result ≡ is_in_outputs outputs.now node }
{
    for output in outputs {
        if node <= output.node {
            return true;
        }
    }
    false
}

fn seen_by_condition(froms: &[FromTable], node: u8) -> u8
    requires { length froms.now ≤ 4 }
    ensures { result ≡ seen_from 0 froms.now node }
{
    for place in 0..froms.len() {
        if is_within(&froms[place].on, node) {
            return place as u8 + 1;
        }
    }
    froms.len() as u8
}

/// How many tables of FROM, from the left, a node sees: a condition of ON those to its left and its own,
/// every other place all.
pub fn tables_seen(select: &Select, node: u8) -> u8
    ensures { result ≡ tables_seen (query_of select.now) node }
{
    let froms = select.tables.as_slice();
    if is_in_outputs(select.outputs.as_slice(), node) {
        froms.len() as u8
    } else {
        seen_by_condition(froms, node)
    }
}

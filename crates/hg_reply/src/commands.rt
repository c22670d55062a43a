//! Which commands there are by now: the one place in the code that says so.
ghost use Rattle.std.specs.Prelude.{◌≡◌};
ghost use Rattle.std.specs.List.{list_all, list_any};
ghost use Rattle.hg_reply.specs.Asked.{command_in, query_at};
ghost use Rattle.hg_model.specs.SelectMeaning.{is_aggregate, is_grouped};
ghost use Rattle.hg_reply.specs.Built.{is_built, is_plain_column, is_plain_select};

use crate::asked::{CommandAt, SelectAt};
use hg_model::{NewColumn, Node};

fn are_plain(columns: &[NewColumn]) -> bool
    ensures { result ≡ list_all is_plain_column columns.now }
{
    columns.iter().all(|c| !(c.primary || c.unique))
}

fn is_aggregate(node: &Node) -> bool
    ensures { result ≡ is_aggregate node.now }
{
    match node {
        Node::Aggregate(_, _) => true,
        _ => false,
    }
}

fn has_aggregate(nodes: &[Node]) -> bool
    ensures { result ≡ list_any is_aggregate nodes.now }
{
    nodes.iter().any(is_aggregate)
}

/// Whether a SELECT has a GROUP BY, a HAVING or an aggregate.
fn is_grouped(select: &SelectAt) -> bool
    ensures { result ≡ is_grouped (query_at select.now) }
{
    select.group.len() > 0 || select.having.is_some() || has_aggregate(select.nodes)
}

fn is_plain_select(select: &SelectAt) -> bool
    ensures { result ≡ is_plain_select (query_at select.now) }
{
    !select.distinct && select.order.is_empty() && !is_grouped(select)
}

/// Whether it is a command that there is by now. Any other is a syntax error.
pub fn built(command: &CommandAt) -> bool
    ensures { result ≡ is_built (command_in command.now) }
{
    match command {
        CommandAt::CreateTable(table) => are_plain(table.columns),
        CommandAt::Insert(_) | CommandAt::Update(_) | CommandAt::Delete(_) | CommandAt::Pool(_) => {
            true
        }
        CommandAt::Select(select) => is_plain_select(select),
        CommandAt::CreateIndex(_)
        | CommandAt::Vacuum(_)
        | CommandAt::OpenCursor(_, _)
        | CommandAt::Start(_, _)
        | CommandAt::Work(_)
        | CommandAt::Fetch(_, _)
        | CommandAt::Close(_)
        | CommandAt::Mpl(_)
        | CommandAt::ShowMemory => false,
    }
}

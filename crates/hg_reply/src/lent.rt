//! A command that was handed over whole, where it lies.
ghost use Rattle.std.specs.Prelude.{◌≡◌};
ghost use Rattle.hg_model.specs.Query.{query_of};
ghost use Rattle.hg_model.specs.Statements.{command_tree};
ghost use Rattle.hg_reply.specs.Asked.{command_in, query_at, texts_in};

use crate::asked::{Asked, CommandAt, DeleteAt, IndexAt, InsertAt, SelectAt, TableAt, UpdateAt};
use hg_model::{Command, Parsed, Select};

fn select_at(select: &Select) -> SelectAt<'_>
    ensures { query_at result ≡ query_of select.now }
{
    SelectAt {
        distinct: select.distinct,
        star: select.star,
        outputs: select.outputs.as_slice(),
        tables: select.tables.as_slice(),
        filter: select.filter,
        group: select.group.as_slice(),
        having: select.having,
        order: select.order.as_slice(),
        nodes: select.nodes.as_slice(),
    }
}

fn command_at(command: &Command) -> CommandAt<'_>
    ensures { command_in result ≡ command_tree command.now }
{
    match command {
        Command::CreateTable(table) => CommandAt::CreateTable(TableAt {
            name: &table.name,
            columns: table.columns.as_slice(),
        }),
        Command::CreateIndex(index) => CommandAt::CreateIndex(IndexAt {
            name: &index.name,
            table: &index.table,
            unique: index.unique,
            columns: index.columns.as_slice(),
        }),
        Command::Insert(insert) => CommandAt::Insert(InsertAt {
            table: &insert.table,
            columns: insert.columns.as_slice(),
            values: insert.values.as_slice(),
            ends: insert.ends.as_slice(),
        }),
        Command::Update(update) => CommandAt::Update(UpdateAt {
            table: &update.table,
            sets: update.sets.as_slice(),
            filter: update.filter,
            nodes: update.nodes.as_slice(),
        }),
        Command::Delete(delete) => CommandAt::Delete(DeleteAt {
            table: &delete.table,
            filter: delete.filter,
            nodes: delete.nodes.as_slice(),
        }),
        Command::Vacuum(table) => CommandAt::Vacuum(table),
        Command::Select(select) => CommandAt::Select(select_at(select)),
        Command::OpenCursor(cursor, select) => CommandAt::OpenCursor(cursor, select_at(select)),
        Command::Start(cursor, n) => CommandAt::Start(cursor, *n),
        Command::Work(n) => CommandAt::Work(*n),
        Command::Fetch(cursor, n) => CommandAt::Fetch(cursor, *n),
        Command::Close(cursor) => CommandAt::Close(cursor),
        Command::Pool(n) => CommandAt::Pool(*n),
        Command::Mpl(n) => CommandAt::Mpl(*n),
        Command::ShowMemory => CommandAt::ShowMemory,
    }
}

/// A line that was read, where it lies.
pub fn asked_by(parsed: &Parsed) -> Asked<'_>
    ensures command { command_in result.command ≡ command_tree parsed.now.command }
    ensures texts { texts_in result ≡ parsed.now.texts.bytes }
{
    Asked {
        command: command_at(&parsed.command),
        texts: parsed.texts.as_str(),
    }
}

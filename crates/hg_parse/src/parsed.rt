//! A line as one value. A statement has 34 KB: the engine reads into room that it keeps.
//!
//! Each function here is a call of its own in the built program. Put together into one they took LLVM 18
//! minutes, for it takes each of the large values apart.
ghost use Rattle.std.specs.Prelude.{◌≡◌, ◌≤◌, ◌↔◌, length};
ghost use Rattle.hg_model.specs.Reading.{Reading, Reads};
ghost use Rattle.hg_model.specs.Statements.{command_tree};
ghost use Rattle.hg_parse.specs.Kept.{kept};
ghost use Rattle.hg_parse.specs.Parsing.{reading_given};
ghost use Rattle.hg_model.specs.Query.{query_of};
ghost use Rattle.hg_parse.specs.Statements.{tree_in, query_in};

use crate::line::parse_into;
use crate::places::HeadingAt;
use crate::room::Room;
use crate::statement::{ParseError, Statement};
use hg_model::{Command, Delete, Insert, NewIndex, NewTable, Parsed, Select, Update};

#[inline(never)]
#[tactic(auto, unfolding(crate::specs::Kept::kept))]
fn to_select(heading: HeadingAt, room: Room) -> Select
    ensures { query_of result ≡ query_in heading (kept room) }
{
    Select {
        distinct: heading.distinct,
        star: heading.star,
        outputs: room.outputs,
        tables: room.tables,
        filter: heading.filter,
        group: room.group,
        having: heading.having,
        order: room.order,
        nodes: room.nodes,
    }
}

#[inline(never)]
#[tactic(auto, unfolding(crate::specs::Kept::kept))]
fn to_command(statement: Statement, room: Room) -> Command
    ensures { command_tree result ≡ tree_in statement (kept room) }
{
    match statement {
        Statement::CreateTable(name) => Command::CreateTable(NewTable {
            name,
            columns: room.columns,
        }),
        Statement::CreateIndex(unique, name, table) => Command::CreateIndex(NewIndex {
            name,
            table,
            unique,
            columns: room.names,
        }),
        Statement::Insert(table) => Command::Insert(Insert {
            table,
            columns: room.names,
            values: room.values,
            ends: room.ends,
        }),
        Statement::Update(table, filter) => Command::Update(Update {
            table,
            sets: room.sets,
            filter,
            nodes: room.nodes,
        }),
        Statement::Delete(table, filter) => Command::Delete(Delete {
            table,
            filter,
            nodes: room.nodes,
        }),
        Statement::Vacuum(table) => Command::Vacuum(table),
        Statement::Select(heading) => Command::Select(to_select(heading, room)),
        Statement::OpenCursor(cursor, heading) => {
            Command::OpenCursor(cursor, to_select(heading, room))
        }
        Statement::Start(cursor, n) => Command::Start(cursor, n),
        Statement::Work(n) => Command::Work(n),
        Statement::Fetch(cursor, n) => Command::Fetch(cursor, n),
        Statement::Close(cursor) => Command::Close(cursor),
        Statement::Pool(n) => Command::Pool(n),
        Statement::Mpl(n) => Command::Mpl(n),
        Statement::ShowMemory => Command::ShowMemory,
    }
}

#[inline(never)]
#[tactic(auto, unfolding(crate::specs::Kept::kept))]
fn to_parsed(statement: Statement, room: Room) -> Parsed
    ensures command { command_tree result.command ≡ tree_in statement (kept room) }
    ensures texts { result.texts.bytes ≡ (kept room).texts }
{
    let texts = room.texts;
    Parsed {
        command: to_command(statement, room),
        texts,
    }
}

/// What a line is read as.
#[inline(never)]
pub fn parse(line: &[u8], max: u32) -> Result<Option<Parsed>, ParseError>
    requires short { length line.now ≤ 4096 }
    ensures reads { (a : Reading) → Reads max line.now a ↔ (reading_given result ≡ a) }
{
    let mut room = Room::new();
    match parse_into(line, max, &mut room) {
        Ok(Some(statement)) => Ok(Some(to_parsed(statement, room))),
        Ok(None) => Ok(None),
        Err(error) => Err(error),
    }
}

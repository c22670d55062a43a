//! What a line asks for: a command where it lies in the room that the line was read into.
ghost use Rattle.std.specs.Prelude.{◌≡◌};
ghost use Rattle.hg_parse.specs.Kept.{kept};
ghost use Rattle.hg_parse.specs.Statements.{query_in, tree_in};
ghost use Rattle.hg_reply.specs.Asked.{command_in, query_at, texts_in};
ghost use Rattle.hg_reply.specs.Plain.{line_of, IsKnown};
ghost use Rattle.hg_serve.specs.Asking.{refusal_of};

use hg_parse::{HeadingAt, ParseError, Room, Statement};
use hg_reply::{
    Asked, CommandAt, DeleteAt, IndexAt, InsertAt, ReplyLine, SelectAt, TableAt, UpdateAt, Words,
};

#[tactic(auto, unfolding(hg_parse::specs::Kept::kept))]
fn select_in<'a>(heading: HeadingAt, room: &'a Room) -> SelectAt<'a>
    ensures { query_at result ≡ query_in heading (kept room.now) }
{
    SelectAt {
        distinct: heading.distinct,
        star: heading.star,
        outputs: room.outputs.as_slice(),
        tables: room.tables.as_slice(),
        filter: heading.filter,
        group: room.group.as_slice(),
        having: heading.having,
        order: room.order.as_slice(),
        nodes: room.nodes.as_slice(),
    }
}

#[tactic(auto, unfolding(hg_parse::specs::Kept::kept))]
fn command_from<'a>(statement: &'a Statement, room: &'a Room) -> CommandAt<'a>
    ensures { command_in result ≡ tree_in statement.now (kept room.now) }
{
    match statement {
        Statement::CreateTable(name) => CommandAt::CreateTable(TableAt {
            name,
            columns: room.columns.as_slice(),
        }),
        Statement::CreateIndex(unique, name, table) => CommandAt::CreateIndex(IndexAt {
            name,
            table,
            unique: *unique,
            columns: room.names.as_slice(),
        }),
        Statement::Insert(table) => CommandAt::Insert(InsertAt {
            table,
            columns: room.names.as_slice(),
            values: room.values.as_slice(),
            ends: room.ends.as_slice(),
        }),
        Statement::Update(table, filter) => CommandAt::Update(UpdateAt {
            table,
            sets: room.sets.as_slice(),
            filter: *filter,
            nodes: room.nodes.as_slice(),
        }),
        Statement::Delete(table, filter) => CommandAt::Delete(DeleteAt {
            table,
            filter: *filter,
            nodes: room.nodes.as_slice(),
        }),
        Statement::Vacuum(table) => CommandAt::Vacuum(table),
        Statement::Select(heading) => CommandAt::Select(select_in(*heading, room)),
        Statement::OpenCursor(cursor, heading) => {
            CommandAt::OpenCursor(cursor, select_in(*heading, room))
        }
        Statement::Start(cursor, n) => CommandAt::Start(cursor, *n),
        Statement::Work(n) => CommandAt::Work(*n),
        Statement::Fetch(cursor, n) => CommandAt::Fetch(cursor, *n),
        Statement::Close(cursor) => CommandAt::Close(cursor),
        Statement::Pool(n) => CommandAt::Pool(*n),
        Statement::Mpl(n) => CommandAt::Mpl(*n),
        Statement::ShowMemory => CommandAt::ShowMemory,
    }
}

/// The command that a line was read as.
#[tactic(auto, unfolding(hg_parse::specs::Kept::kept))]
pub fn asked_in<'a>(statement: &'a Statement, room: &'a Room) -> Asked<'a>
    ensures command { command_in result.command ≡ tree_in statement.now (kept room.now) }
    ensures texts { texts_in result ≡ (kept room.now).texts }
{
    Asked {
        command: command_from(statement, room),
        texts: room.texts.as_str(),
    }
}

/// The line of what is no command.
pub const SYNTAX_ERROR: ReplyLine<'static> = ReplyLine::Error(1, Words::Nothing);

/// The line of what is longer than a line may be.
pub const LINE_TOO_LONG: ReplyLine<'static> = ReplyLine::Error(2, Words::Nothing);

/// The line of a refusal by the parser.
pub fn refusal(error: &ParseError) -> ReplyLine<'static>
    ensures line { line_of result ≡ refusal_of error.now }
    ensures known { IsKnown result }
{
    match error {
        ParseError::Syntax => SYNTAX_ERROR,
        ParseError::BadNumber => ReplyLine::Error(22, Words::Nothing),
        ParseError::TooMany(kind) => ReplyLine::Error(9, Words::Kind(*kind)),
    }
}

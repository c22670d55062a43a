//! Commands.
ghost use Rattle.std.specs.Prelude.{◌≡◌, ◌<◌, length, codes};
ghost use Rattle.hg_parse.specs.AtHand.{tokens, told_at, GoesOn};
ghost use Rattle.hg_parse.specs.Keeping.{Kept};
ghost use Rattle.hg_parse.specs.Kept.{kept, keeper, told, unit, same, form_at, Fits, Moves};
ghost use Rattle.hg_parse.specs.Rules.{set_item, update, delete, open_for, command};
ghost use Rattle.hg_parse.specs.AtHand.{word_at};
ghost use Rattle.hg_parse.specs.Commands.{soft_steps};

use crate::create::create;
use crate::expression::expression;
use crate::input::{Input, Syntax};
use crate::insert::insert;
use crate::lists::{Item, commas};
use crate::places::{FormAt, NameAt};
use crate::room::Room;
use crate::select::{clause, select};
use hg_scan::{Keyword, Sign};

/// name "=" or
fn set_item(input: &mut Input<'_>, room: &mut Room) -> Result<(), Syntax>
    requires fits { Fits input.old room.old }
    ensures reads { set_item keeper (kept room.old) (tokens input.old) ≡ told unit result room.new input.new }
    ensures moves { Moves input.old room.old input.new room.new }
{
    let name = input.name()?;
    if !input.eat_sign(Sign::Equal) {
        return Err(Syntax);
    }
    let n = expression(input, room)?;
    room.push_set(&name, n);
    Ok(())
}

/// A column of UPDATE with its new value.
#[derive(Clone, Copy)]
pub struct Sets;

impl Item for Sets {
    ghost rule = { set_item keeper };

    fn read(input: &mut Input<'_>, room: &mut Room) -> Result<(), Syntax> {
        set_item(input, room)
    }
}

/// UPDATE name SET name "=" or {"," name "=" or} [WHERE or], behind its first word
fn update<'a>(input: &mut Input<'a>, room: &mut Room) -> Result<FormAt<'a>, Syntax>
    requires fits { Fits input.old room.old }
    ensures reads { update keeper (kept room.old) (tokens input.old) ≡ told form_at result room.new input.new }
    ensures moves { Moves input.old room.old input.new room.new }
{
    let table = input.name()?;
    if !input.eat_keyword(Keyword::Set) {
        return Err(Syntax);
    }
    commas::<Sets>(input, room)?;
    let filter = clause(input, room, Keyword::Where)?;
    Ok(FormAt::Update(table, filter))
}

/// DELETE FROM name [WHERE or], behind its first word
fn delete<'a>(input: &mut Input<'a>, room: &mut Room) -> Result<FormAt<'a>, Syntax>
    requires fits { Fits input.old room.old }
    ensures reads { delete keeper (kept room.old) (tokens input.old) ≡ told form_at result room.new input.new }
    ensures moves { Moves input.old room.old input.new room.new }
{
    if !input.eat_keyword(Keyword::From) {
        return Err(Syntax);
    }
    let table = input.name()?;
    let filter = clause(input, room, Keyword::Where)?;
    Ok(FormAt::Delete(table, filter))
}

/// OPEN name FOR select, behind the name
#[tactic(auto, unfolding(hg_model::specs::Tokens::is_reserved))]
fn open_for<'a>(
    input: &mut Input<'a>,
    room: &mut Room,
    cursor: &NameAt<'a>,
) -> Result<FormAt<'a>, Syntax>
    requires fits { Fits input.old room.old }
    ensures reads { open_for keeper (kept room.old) (word_at cursor.now) (tokens input.old) ≡ told form_at result room.new input.new }
    ensures moves { Moves input.old room.old input.new room.new }
{
    if !input.eat_soft(b"for") {
        return Err(Syntax);
    }
    if !input.eat_keyword(Keyword::Select) {
        return Err(Syntax);
    }
    let heading = select(input, room)?;
    Ok(FormAt::Open(*cursor, heading))
}

/// A command whose first word is no reserved word.
#[tactic(auto, unfolding(hg_model::specs::Tokens::is_reserved))]
fn soft_command<'a>(input: &mut Input<'a>, room: &mut Room) -> Result<FormAt<'a>, Syntax>
    requires fits { Fits input.old room.old }
    ensures reads { soft_steps keeper (kept room.old) (tokens input.old) ≡ told form_at result room.new input.new }
    ensures moves { Moves input.old room.old input.new room.new }
{
    if input.eat_soft(b"open") {
        let cursor = input.name()?;
        return open_for(input, room, &cursor);
    }
    if input.eat_soft(b"start") {
        let cursor = input.name()?;
        let number = input.number()?;
        return Ok(FormAt::Start(cursor, number));
    }
    if input.eat_soft(b"work") {
        let number = input.number()?;
        return Ok(FormAt::Work(number));
    }
    if input.eat_soft(b"fetch") {
        let cursor = input.name()?;
        let number = input.number()?;
        return Ok(FormAt::Fetch(cursor, number));
    }
    if input.eat_soft(b"close") {
        let cursor = input.name()?;
        return Ok(FormAt::Close(cursor));
    }
    if input.eat_soft(b"vacuum") {
        let table = input.name()?;
        return Ok(FormAt::Vacuum(table));
    }
    if input.eat_soft(b"pool") {
        let number = input.number()?;
        return Ok(FormAt::Pool(number));
    }
    if input.eat_soft(b"mpl") {
        let number = input.number()?;
        return Ok(FormAt::Mpl(number));
    }
    if input.eat_soft(b"show") {
        if !input.eat_soft(b"memory") {
            return Err(Syntax);
        }
        return Ok(FormAt::Memory);
    }
    Err(Syntax)
}

/// A command.
#[tactic(auto, using(crate::proofs::Values::command_by))]
pub fn command<'a>(input: &mut Input<'a>, room: &mut Room) -> Result<FormAt<'a>, Syntax>
    requires fits { Fits input.old room.old }
    ensures reads { command keeper (kept room.old) (tokens input.old) ≡ told form_at result room.new input.new }
    ensures moves { Moves input.old room.old input.new room.new }
{
    if input.eat_keyword(Keyword::Insert) {
        return insert(input, room);
    }
    if input.eat_keyword(Keyword::Select) {
        let heading = select(input, room)?;
        return Ok(FormAt::Select(heading));
    }
    if input.eat_keyword(Keyword::Update) {
        return update(input, room);
    }
    if input.eat_keyword(Keyword::Delete) {
        return delete(input, room);
    }
    if input.eat_keyword(Keyword::Create) {
        return create(input, room);
    }
    soft_command(input, room)
}

//! INSERT and the lists of names.
ghost use Rattle.std.specs.Prelude.{◌≡◌};
ghost use Rattle.hg_parse.specs.AtHand.{tokens};
ghost use Rattle.hg_parse.specs.Kept.{kept, keeper, told, unit, form_at, Fits, Moves};
ghost use Rattle.hg_parse.specs.Rules.{constant, row, name_item, listed, name_list, insert};

use crate::constants::constant;
use crate::input::{Input, Syntax};
use crate::lists::{Item, commas};
use crate::places::FormAt;
use crate::room::Room;
use hg_scan::{Keyword, Sign};

/// A value of a row.
#[derive(Clone, Copy)]
pub struct Constants;

impl Item for Constants {
    ghost rule = { constant keeper };

    fn read(input: &mut Input<'_>, room: &mut Room) -> Result<(), Syntax> {
        constant(input, room)
    }
}

/// tuple = "(" const {"," const} ")"
fn row(input: &mut Input<'_>, room: &mut Room) -> Result<(), Syntax>
    requires fits { Fits input.old room.old }
    ensures reads { row keeper (kept room.old) (tokens input.old) ≡ told unit result room.new input.new }
    ensures moves { Moves input.old room.old input.new room.new }
{
    if !input.eat_sign(Sign::Open) {
        return Err(Syntax);
    }
    commas::<Constants>(input, room)?;
    if !input.eat_sign(Sign::Close) {
        return Err(Syntax);
    }
    room.end_row();
    Ok(())
}

/// A row of an INSERT.
#[derive(Clone, Copy)]
pub struct Rows;

impl Item for Rows {
    ghost rule = { row keeper };

    fn read(input: &mut Input<'_>, room: &mut Room) -> Result<(), Syntax> {
        row(input, room)
    }
}

fn name_item(input: &mut Input<'_>, room: &mut Room) -> Result<(), Syntax>
    requires fits { Fits input.old room.old }
    ensures reads { name_item keeper (kept room.old) (tokens input.old) ≡ told unit result room.new input.new }
    ensures moves { Moves input.old room.old input.new room.new }
{
    let name = input.name()?;
    room.push_name(&name);
    Ok(())
}

/// A name of a list.
#[derive(Clone, Copy)]
pub struct ListedName;

impl Item for ListedName {
    ghost rule = { name_item keeper };

    fn read(input: &mut Input<'_>, room: &mut Room) -> Result<(), Syntax> {
        name_item(input, room)
    }
}

/// "(" name {"," name} ")"
pub fn name_list(input: &mut Input<'_>, room: &mut Room) -> Result<(), Syntax>
    requires fits { Fits input.old room.old }
    ensures reads { name_list keeper (kept room.old) (tokens input.old) ≡ told unit result room.new input.new }
    ensures moves { Moves input.old room.old input.new room.new }
{
    if !input.eat_sign(Sign::Open) {
        return Err(Syntax);
    }
    commas::<ListedName>(input, room)?;
    if !input.eat_sign(Sign::Close) {
        return Err(Syntax);
    }
    Ok(())
}

/// ["(" name {"," name} ")"]
fn listed(input: &mut Input<'_>, room: &mut Room) -> Result<(), Syntax>
    requires fits { Fits input.old room.old }
    ensures reads { listed keeper (kept room.old) (tokens input.old) ≡ told unit result room.new input.new }
    ensures moves { Moves input.old room.old input.new room.new }
{
    if !input.eat_sign(Sign::Open) {
        return Ok(());
    }
    commas::<ListedName>(input, room)?;
    if !input.eat_sign(Sign::Close) {
        return Err(Syntax);
    }
    Ok(())
}

/// INSERT INTO name [names] VALUES tuple {"," tuple}, behind its first word
pub fn insert<'a>(input: &mut Input<'a>, room: &mut Room) -> Result<FormAt<'a>, Syntax>
    requires fits { Fits input.old room.old }
    ensures reads { insert keeper (kept room.old) (tokens input.old) ≡ told form_at result room.new input.new }
    ensures moves { Moves input.old room.old input.new room.new }
{
    if !input.eat_keyword(Keyword::Into) {
        return Err(Syntax);
    }
    let table = input.name()?;
    listed(input, room)?;
    if !input.eat_keyword(Keyword::Values) {
        return Err(Syntax);
    }
    commas::<Rows>(input, room)?;
    Ok(FormAt::Insert(table))
}

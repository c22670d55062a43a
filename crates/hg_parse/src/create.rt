//! CREATE TABLE and CREATE INDEX.
ghost use Rattle.std.specs.Prelude.{◌≡◌, ◌<◌, length};
ghost use Rattle.hg_parse.specs.AtHand.{tokens, told_at, GoesOn};
ghost use Rattle.hg_parse.specs.Keeping.{Kept};
ghost use Rattle.hg_parse.specs.Kept.{kept, keeper, told, unit, form_at, flags_at, type_at, turned_at, Went, Fits, Moves};
ghost use Rattle.hg_parse.specs.Rules.{type_of, constraints_turn, constraints, new_column, create_table, create_index, create};

use crate::input::{Input, Syntax};
use crate::insert::name_list;
use crate::lists::{Item, commas};
use crate::places::{Constraints, FormAt, TypeAt};
use crate::room::Room;
use hg_scan::{Keyword, Sign};

/// INTEGER | INT | VARCHAR "(" number ")"
fn type_of<'a>(input: &mut Input<'a>) -> Result<TypeAt<'a>, Syntax>
    ensures reads { (k : Kept) → type_of k (tokens input.old) ≡ told_at k type_at result input.new }
    ensures goes_on { GoesOn input.old input.new }
{
    if input.eat_keyword(Keyword::Integer) {
        return Ok(TypeAt::Integer);
    }
    if input.eat_keyword(Keyword::Int) {
        return Ok(TypeAt::Integer);
    }
    if !input.eat_keyword(Keyword::Varchar) {
        return Err(Syntax);
    }
    if !input.eat_sign(Sign::Open) {
        return Err(Syntax);
    }
    let most = input.number()?;
    if !input.eat_sign(Sign::Close) {
        return Err(Syntax);
    }
    Ok(TypeAt::Varchar(most))
}

/// One more constraint, where one comes next.
fn constraint(input: &mut Input<'_>, flags: Constraints) -> Result<Option<Constraints>, Syntax>
    ensures reads { (k : Kept) → constraints_turn k (flags_at flags) (tokens input.old) ≡ turned_at k flags_at result input.new }
    ensures went { Went result input.old input.new }
    ensures goes_on { GoesOn input.old input.new }
{
    if input.eat_keyword(Keyword::Not) {
        if flags.not_null {
            return Err(Syntax);
        }
        if !input.eat_keyword(Keyword::Null) {
            return Err(Syntax);
        }
        return Ok(Some(Constraints {
            not_null: true,
            primary: flags.primary,
            unique: flags.unique,
        }));
    }
    if input.eat_keyword(Keyword::Primary) {
        if flags.primary {
            return Err(Syntax);
        }
        if !input.eat_keyword(Keyword::Key) {
            return Err(Syntax);
        }
        return Ok(Some(Constraints {
            not_null: flags.not_null,
            primary: true,
            unique: flags.unique,
        }));
    }
    if input.eat_keyword(Keyword::Unique) {
        if flags.unique {
            return Err(Syntax);
        }
        return Ok(Some(Constraints {
            not_null: flags.not_null,
            primary: flags.primary,
            unique: true,
        }));
    }
    Ok(None)
}

/// {NOT NULL | PRIMARY KEY | UNIQUE}, each at most once
fn constraints(input: &mut Input<'_>) -> Result<Constraints, Syntax>
    ensures reads { (k : Kept) → constraints k (tokens input.old) ≡ told_at k flags_at result input.new }
    ensures goes_on { GoesOn input.old input.new }
{
    let mut flags = Constraints {
        not_null: false,
        primary: false,
        unique: false,
    };
    'each: loop {
        match constraint(input, flags) {
            Ok(Some(more)) => flags = more,
            Ok(None) => return Ok(flags),
            Err(_) => return Err(Syntax),
        }
    }
}

/// column = name type constraints
fn new_column(input: &mut Input<'_>, room: &mut Room) -> Result<(), Syntax>
    requires fits { Fits input.old room.old }
    ensures reads { new_column keeper (kept room.old) (tokens input.old) ≡ told unit result room.new input.new }
    ensures moves { Moves input.old room.old input.new room.new }
{
    let name = input.name()?;
    let ty = type_of(input)?;
    let flags = constraints(input)?;
    room.push_new_column(&name, &ty, flags);
    Ok(())
}

/// A column of CREATE TABLE.
#[derive(Clone, Copy)]
pub struct NewColumns;

impl Item for NewColumns {
    ghost rule = { new_column keeper };

    fn read(input: &mut Input<'_>, room: &mut Room) -> Result<(), Syntax> {
        new_column(input, room)
    }
}

/// CREATE TABLE name "(" column {"," column} ")", behind TABLE
fn create_table<'a>(input: &mut Input<'a>, room: &mut Room) -> Result<FormAt<'a>, Syntax>
    requires fits { Fits input.old room.old }
    ensures reads { create_table keeper (kept room.old) (tokens input.old) ≡ told form_at result room.new input.new }
    ensures moves { Moves input.old room.old input.new room.new }
{
    let table = input.name()?;
    if !input.eat_sign(Sign::Open) {
        return Err(Syntax);
    }
    commas::<NewColumns>(input, room)?;
    if !input.eat_sign(Sign::Close) {
        return Err(Syntax);
    }
    Ok(FormAt::Table(table))
}

/// CREATE [UNIQUE] INDEX name ON name names, behind UNIQUE
fn create_index<'a>(
    input: &mut Input<'a>,
    room: &mut Room,
    unique: bool,
) -> Result<FormAt<'a>, Syntax>
    requires fits { Fits input.old room.old }
    ensures reads { create_index keeper unique (kept room.old) (tokens input.old) ≡ told form_at result room.new input.new }
    ensures moves { Moves input.old room.old input.new room.new }
{
    if !input.eat_keyword(Keyword::Index) {
        return Err(Syntax);
    }
    let index = input.name()?;
    if !input.eat_keyword(Keyword::On) {
        return Err(Syntax);
    }
    let table = input.name()?;
    name_list(input, room)?;
    Ok(FormAt::Index(unique, index, table))
}

/// CREATE, behind its first word
pub fn create<'a>(input: &mut Input<'a>, room: &mut Room) -> Result<FormAt<'a>, Syntax>
    requires fits { Fits input.old room.old }
    ensures reads { create keeper (kept room.old) (tokens input.old) ≡ told form_at result room.new input.new }
    ensures moves { Moves input.old room.old input.new room.new }
{
    if input.eat_keyword(Keyword::Table) {
        return create_table(input, room);
    }
    if input.eat_keyword(Keyword::Unique) {
        return create_index(input, room, true);
    }
    create_index(input, room, false)
}

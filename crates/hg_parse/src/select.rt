//! SELECT.
ghost use Rattle.std.specs.Prelude.{◌≡◌, ◌<◌, length, codes};
ghost use Rattle.hg_parse.specs.AtHand.{tokens, told_at, GoesOn};
ghost use Rattle.hg_parse.specs.Keeping.{Kept};
ghost use Rattle.hg_parse.specs.Kept.{kept, keeper, told, unit, same, table_at, heading_at, turned_on, WentOn, Fits, Moves};
ghost use Rattle.hg_parse.specs.Rules.{quantifier, direction, ref, clause, output, plain_table, joined, tables_turn, tables, group_column, group, order_key, order, columns, select};
ghost use Rattle.hg_parse.specs.Steps.{got};
ghost use Rattle.hg_scan.specs.Words.{word_of};

use crate::expression::{column, expression};
use crate::input::{Input, Syntax};
use crate::lists::{Item, commas};
use crate::places::{HeadingAt, KeyAt, TableAt};
use crate::room::Room;
use hg_scan::{Keyword, Sign};

/// [ALL | DISTINCT]: whether DISTINCT.
fn quantifier(input: &mut Input<'_>) -> bool
    ensures reads { (k : Kept) → quantifier k (tokens input.old) ≡ got k result (tokens input.new) }
    ensures goes_on { GoesOn input.old input.new }
{
    if input.eat_keyword(Keyword::All) {
        return false;
    }
    input.eat_keyword(Keyword::Distinct)
}

/// [ASC | DESC]: whether DESC.
fn direction(input: &mut Input<'_>) -> bool
    ensures reads { (k : Kept) → direction k (tokens input.old) ≡ got k result (tokens input.new) }
    ensures goes_on { GoesOn input.old input.new }
{
    if input.eat_keyword(Keyword::Asc) {
        return false;
    }
    input.eat_keyword(Keyword::Desc)
}

/// ref = name [[AS] name]
#[tactic(auto, using(crate::proofs::Values::alias_by))]
fn table_ref<'a>(input: &mut Input<'a>) -> Result<TableAt<'a>, Syntax>
    ensures reads { (k : Kept) → ref k (tokens input.old) ≡ told_at k table_at result input.new }
    ensures goes_on { GoesOn input.old input.new }
{
    let table = input.name()?;
    if input.eat_keyword(Keyword::As) {
        let alias = input.name()?;
        return Ok(TableAt { table, alias });
    }
    if let Some(alias) = input.eat_name() {
        return Ok(TableAt { table, alias });
    }
    Ok(TableAt {
        table,
        alias: table,
    })
}

/// [word or], as of WHERE and HAVING
pub fn clause(input: &mut Input<'_>, room: &mut Room, word: Keyword) -> Result<Option<u8>, Syntax>
    requires fits { Fits input.old room.old }
    ensures reads { clause keeper (word_of word) (kept room.old) (tokens input.old) ≡ told same result room.new input.new }
    ensures moves { Moves input.old room.old input.new room.new }
{
    if !input.eat_keyword(word) {
        return Ok(None);
    }
    let n = expression(input, room)?;
    Ok(Some(n))
}

/// output = or [AS name]
fn output(input: &mut Input<'_>, room: &mut Room) -> Result<(), Syntax>
    requires fits { Fits input.old room.old }
    ensures reads { output keeper (kept room.old) (tokens input.old) ≡ told unit result room.new input.new }
    ensures moves { Moves input.old room.old input.new room.new }
{
    let n = expression(input, room)?;
    if input.eat_keyword(Keyword::As) {
        let name = input.name()?;
        room.push_output(n, &Some(name));
        return Ok(());
    }
    room.push_output(n, &None);
    Ok(())
}

/// An output of a SELECT.
#[derive(Clone, Copy)]
pub struct Outputs;

impl Item for Outputs {
    ghost rule = { output keeper };

    fn read(input: &mut Input<'_>, room: &mut Room) -> Result<(), Syntax> {
        output(input, room)
    }
}

/// "*" | output {"," output}: whether `*`
fn columns(input: &mut Input<'_>, room: &mut Room) -> Result<bool, Syntax>
    requires fits { Fits input.old room.old }
    ensures reads { columns keeper (kept room.old) (tokens input.old) ≡ told same result room.new input.new }
    ensures moves { Moves input.old room.old input.new room.new }
{
    if input.eat_sign(Sign::Star) {
        return Ok(true);
    }
    commas::<Outputs>(input, room)?;
    Ok(false)
}

/// A table without ON.
fn plain_table(input: &mut Input<'_>, room: &mut Room) -> Result<(), Syntax>
    requires fits { Fits input.old room.old }
    ensures reads { plain_table keeper (kept room.old) (tokens input.old) ≡ told unit result room.new input.new }
    ensures moves { Moves input.old room.old input.new room.new }
{
    let table = table_ref(input)?;
    room.push_table(&table);
    Ok(())
}

/// A table with ON.
fn joined(input: &mut Input<'_>, room: &mut Room) -> Result<(), Syntax>
    requires fits { Fits input.old room.old }
    ensures reads { joined keeper (kept room.old) (tokens input.old) ≡ told unit result room.new input.new }
    ensures moves { Moves input.old room.old input.new room.new }
{
    let table = table_ref(input)?;
    if !input.eat_keyword(Keyword::On) {
        return Err(Syntax);
    }
    let n = expression(input, room)?;
    room.push_joined(&table, n);
    Ok(())
}

/// One more table, where one comes next: whether it did.
fn more_tables(input: &mut Input<'_>, room: &mut Room) -> Result<bool, Syntax>
    requires fits { Fits input.old room.old }
    ensures reads { tables_turn keeper (kept room.old) tt (tokens input.old) ≡ turned_on result room.new input.new }
    ensures went { WentOn result input.old room.old input.new room.new }
    ensures moves { Moves input.old room.old input.new room.new }
{
    if input.eat_sign(Sign::Comma) {
        plain_table(input, room)?;
        return Ok(true);
    }
    if input.eat_keyword(Keyword::Cross) {
        if !input.eat_keyword(Keyword::Join) {
            return Err(Syntax);
        }
        plain_table(input, room)?;
        return Ok(true);
    }
    if input.eat_keyword(Keyword::Join) {
        joined(input, room)?;
        return Ok(true);
    }
    if input.eat_keyword(Keyword::Inner) {
        if !input.eat_keyword(Keyword::Join) {
            return Err(Syntax);
        }
        joined(input, room)?;
        return Ok(true);
    }
    Ok(false)
}

/// ref {"," ref | CROSS JOIN ref | [INNER] JOIN ref ON or}
fn tables(input: &mut Input<'_>, room: &mut Room) -> Result<(), Syntax>
    requires fits { Fits input.old room.old }
    ensures reads { tables keeper (kept room.old) (tokens input.old) ≡ told unit result room.new input.new }
    ensures moves { Moves input.old room.old input.new room.new }
{
    plain_table(input, room)?;
    'each: loop {
        match more_tables(input, room) {
            Ok(true) => {}
            Ok(false) => return Ok(()),
            Err(_) => return Err(Syntax),
        }
    }
}

fn group_column(input: &mut Input<'_>, room: &mut Room) -> Result<(), Syntax>
    requires fits { Fits input.old room.old }
    ensures reads { group_column keeper (kept room.old) (tokens input.old) ≡ told unit result room.new input.new }
    ensures moves { Moves input.old room.old input.new room.new }
{
    let column = column(input)?;
    let n = room.push_column(&column);
    room.push_group(n);
    Ok(())
}

/// A column of GROUP BY.
#[derive(Clone, Copy)]
pub struct GroupColumns;

impl Item for GroupColumns {
    ghost rule = { group_column keeper };

    fn read(input: &mut Input<'_>, room: &mut Room) -> Result<(), Syntax> {
        group_column(input, room)
    }
}

/// [GROUP BY col {"," col}]
fn group(input: &mut Input<'_>, room: &mut Room) -> Result<(), Syntax>
    requires fits { Fits input.old room.old }
    ensures reads { group keeper (kept room.old) (tokens input.old) ≡ told unit result room.new input.new }
    ensures moves { Moves input.old room.old input.new room.new }
{
    if !input.eat_keyword(Keyword::Group) {
        return Ok(());
    }
    if !input.eat_keyword(Keyword::By) {
        return Err(Syntax);
    }
    commas::<GroupColumns>(input, room)
}

/// key = (number | col) [ASC | DESC]
#[tactic(auto, using(crate::proofs::Values::order_key_by))]
fn order_key(input: &mut Input<'_>, room: &mut Room) -> Result<(), Syntax>
    requires fits { Fits input.old room.old }
    ensures reads { order_key keeper (kept room.old) (tokens input.old) ≡ told unit result room.new input.new }
    ensures moves { Moves input.old room.old input.new room.new }
{
    if let Some(number) = input.eat_number() {
        let descending = direction(input);
        room.push_key(&KeyAt::Position(number), descending);
        return Ok(());
    }
    let column = column(input)?;
    let n = room.push_column(&column);
    let descending = direction(input);
    room.push_key(&KeyAt::Column(n), descending);
    Ok(())
}

/// A key of ORDER BY.
#[derive(Clone, Copy)]
pub struct OrderKeys;

impl Item for OrderKeys {
    ghost rule = { order_key keeper };

    fn read(input: &mut Input<'_>, room: &mut Room) -> Result<(), Syntax> {
        order_key(input, room)
    }
}

/// [ORDER BY key {"," key}]
fn order(input: &mut Input<'_>, room: &mut Room) -> Result<(), Syntax>
    requires fits { Fits input.old room.old }
    ensures reads { order keeper (kept room.old) (tokens input.old) ≡ told unit result room.new input.new }
    ensures moves { Moves input.old room.old input.new room.new }
{
    if !input.eat_keyword(Keyword::Order) {
        return Ok(());
    }
    if !input.eat_keyword(Keyword::By) {
        return Err(Syntax);
    }
    commas::<OrderKeys>(input, room)
}

/// A SELECT behind its first word.
#[tactic(auto, unfolding(crate::specs::Rules::select))]
pub fn select(input: &mut Input<'_>, room: &mut Room) -> Result<HeadingAt, Syntax>
    requires fits { Fits input.old room.old }
    ensures reads { select keeper (kept room.old) (tokens input.old) ≡ told heading_at result room.new input.new }
    ensures moves { Moves input.old room.old input.new room.new }
{
    let distinct = quantifier(input);
    let star = columns(input, room)?;
    if !input.eat_keyword(Keyword::From) {
        return Err(Syntax);
    }
    tables(input, room)?;
    let filter = clause(input, room, Keyword::Where)?;
    group(input, room)?;
    let having = clause(input, room, Keyword::Having)?;
    order(input, room)?;
    Ok(HeadingAt {
        distinct,
        star,
        filter,
        having,
    })
}

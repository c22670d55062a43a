//! Reads a line.
ghost use Rattle.std.specs.Prelude.{◌≡◌, ◌≤◌, ◌↔◌, length, OnOk};
ghost use Rattle.hg_model.specs.Reading.{Reading, Reads};
ghost use Rattle.hg_parse.specs.AtHand.{tokens, carried};
ghost use Rattle.hg_parse.specs.Kept.{kept, keeper, Fits};
ghost use Rattle.hg_parse.specs.Rules.{command};
ghost use Rattle.hg_parse.specs.Statements.{lined, told_line, reading_in};

use crate::command::command;
use crate::input::{Input, Syntax};
use crate::judge::{has_bad_number, to_statement, too_many};
use crate::places::FormAt;
use crate::room::Room;
use crate::statement::{ParseError, Statement};
use hg_scan::Sign;

/// line = command [";"], and nothing behind it.
fn whole_line<'a>(input: &mut Input<'a>, room: &mut Room) -> Result<FormAt<'a>, Syntax>
    requires fits { Fits input.old room.old }
    ensures reads { lined (carried input.old).whole (command keeper (kept room.old) (tokens input.old)) ≡ told_line result room.new }
    ensures long_name { OnOk result (input.new.long_name ≡ (carried input.old).long_name) }
    ensures long_text { OnOk result (input.new.long_text ≡ (carried input.old).long_text) }
{
    let Ok(form) = command(input, room) else {
        return Err(Syntax);
    };
    input.eat_sign(Sign::Semicolon);
    if !input.is_at_end() {
        return Err(Syntax);
    }
    Ok(form)
}

/// Reads a line into room that the caller keeps. A line is read on to its end where something does not
/// fit, for it is no statement of the grammar if anything behind is wrong, and a number out of range comes
/// before a count that is too great.
///
/// With all parentheses open that may be, it takes 32 KB of stack at most.
#[inline(never)]
pub fn parse_into(line: &[u8], max: u32, out: &mut Room) -> Result<Option<Statement>, ParseError>
    requires short { length line.now ≤ 4096 }
    ensures reads { (a : Reading) → Reads max line.now a ↔ (reading_in result (kept out.new) ≡ a) }
{
    out.clear();
    let mut input = Input::new(line);
    if input.is_at_end() {
        return Ok(None);
    }
    let Ok(form) = whole_line(&mut input, out) else {
        return Err(ParseError::Syntax);
    };
    if has_bad_number(&form, max, out) {
        return Err(ParseError::BadNumber);
    }
    match too_many(&form, input.long_name, input.long_text, out) {
        Some(count) => Err(ParseError::TooMany(count)),
        None => Ok(Some(to_statement(&form))),
    }
}

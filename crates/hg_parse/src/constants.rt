//! Constants and rows.
ghost use Rattle.std.specs.Prelude.{◌≡◌};
ghost use Rattle.hg_parse.specs.AtHand.{tokens};
ghost use Rattle.hg_parse.specs.Kept.{kept, keeper, told, unit, Fits, Moves};
ghost use Rattle.hg_parse.specs.Rules.{constant};

use crate::input::{Input, Syntax};
use crate::room::Room;
use hg_scan::{Keyword, Sign};

/// const = ["+" | "-"] number | text | NULL
#[tactic(auto, using(crate::proofs::Values::constant_by))]
pub fn constant(input: &mut Input<'_>, room: &mut Room) -> Result<(), Syntax>
    requires fits { Fits input.old room.old }
    ensures reads { constant keeper (kept room.old) (tokens input.old) ≡ told unit result room.new input.new }
    ensures moves { Moves input.old room.old input.new room.new }
{
    if let Some(number) = input.eat_number() {
        room.push_positive(&number);
        return Ok(());
    }
    if let Some(text) = input.eat_text() {
        room.push_text_value(&text);
        return Ok(());
    }
    if input.eat_keyword(Keyword::Null) {
        room.push_null_value();
        return Ok(());
    }
    if input.eat_sign(Sign::Plus) {
        let number = input.number()?;
        room.push_positive(&number);
        return Ok(());
    }
    if input.eat_sign(Sign::Minus) {
        let number = input.number()?;
        room.push_negative(&number);
        return Ok(());
    }
    Err(Syntax)
}

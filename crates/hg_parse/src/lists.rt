//! Lists with commas.
use crate::input::{Input, Syntax};
use crate::room::Room;
use hg_scan::Sign;

/// A part of a statement that may stand in a list.
pub trait Item {
    ghost use Rattle.std.specs.Prelude.{◌≡◌, List, ⊤};
    ghost use Rattle.hg_model.specs.Tokens.{Token};
    ghost use Rattle.hg_parse.specs.AtHand.{tokens};
    ghost use Rattle.hg_parse.specs.Keeping.{Kept};
    ghost use Rattle.hg_parse.specs.Kept.{kept, told, unit, Fits, Moves};
    ghost use Rattle.hg_parse.specs.Steps.{Answer};

    /// The rule of the grammar.
    ghost rule: { Kept → List Token → Answer Kept ⊤ };

    fn read(input: &mut Input<'_>, room: &mut Room) -> Result<(), Syntax>
        requires fits { Fits input.old room.old }
        ensures reads { rule (kept room.old) (tokens input.old) ≡ told unit result room.new input.new }
        ensures moves { Moves input.old room.old input.new room.new };
}

ghost use Rattle.std.specs.Prelude.{◌≡◌};
ghost use Rattle.hg_parse.specs.AtHand.{tokens};
ghost use Rattle.hg_parse.specs.Kept.{kept, told, unit, Fits, Moves};
ghost use Rattle.hg_parse.specs.Steps.{commas};

/// Items with commas between them.
pub fn commas<I: Item>(input: &mut Input<'_>, room: &mut Room) -> Result<(), Syntax>
    requires fits { Fits input.old room.old }
    ensures reads { commas I.rule (kept room.old) (tokens input.old) ≡ told unit result room.new input.new }
    ensures moves { Moves input.old room.old input.new room.new }
{
    I::read(input, room)?;
    'items: while input.eat_sign(Sign::Comma) {
        let Ok(()) = I::read(input, room) else {
            return Err(Syntax);
        };
    }
    Ok(())
}

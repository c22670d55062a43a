//! The reply of one step.
ghost use Rattle.std.specs.Prelude.{◌≡◌, false, ◌≤◌, ◌+◌, [], ◌∷◌, ◌++◌, length, ◌||◌};
ghost use Rattle.arrayvec.specs.ArrayVec.{array_vec_len};
ghost use Rattle.hg_machine.specs.Plain.Replies as said;
ghost use Rattle.hg_machine.specs.Plain.Replies.{line_text, text_of};
ghost use Rattle.hg_reply.specs.Plain.{line_of, name_of, IsKnown};

use crate::lines::{Cursor, ReplyLine, is_error, print};
use crate::row::print_row;
use arrayvec::ArrayVec;
use hg_value::Row;

/// The bytes of a reply at most.
pub const REPLY_BYTES: usize = 16_384;

/// The reply lines of one step, as bytes, and whether an error line is among them. The longest step
/// has room.
#[derive(Drop)]
pub struct Reply {
    pub text: ArrayVec<u8, REPLY_BYTES>,
    pub has_error: bool,
}

impl Reply {
    /// A reply of no line.
    pub fn new() -> Reply
        ensures text { result.text.items ≡ [] }
        ensures errors { result.has_error ≡ false }
    {
        Reply {
            text: ArrayVec::new(),
            has_error: false,
        }
    }

    /// Takes all lines away.
    pub fn clear(&mut self)
        ensures text { self.new.text.items ≡ [] }
        ensures errors { self.new.has_error ≡ false }
    {
        self.text.clear();
        self.has_error = false;
    }

    /// Puts a line behind the others, with at least 512 bytes left.
    pub fn say(&mut self, line: &ReplyLine)
        requires known { IsKnown line.now }
        requires room { array_vec_len self.old.text ≤ 15872 }
        ensures text { self.new.text.items ≡ self.old.text.items ++ line_text (line_of line.now) }
        ensures errors { self.new.has_error ≡ (self.old.has_error || said.is_error (line_of line.now)) }
        ensures short { array_vec_len self.new.text ≤ array_vec_len self.old.text + 256 }
    {
        print(line, &mut self.text);
        self.has_error = self.has_error || is_error(line);
    }

    /// Puts the line of a row of a cursor behind the others, of which at most 1,024 bytes stand there. The
    /// longest row has room.
    pub fn say_row(&mut self, cursor: &Cursor, row: &Row)
        requires room { array_vec_len self.old.text ≤ 1024 }
        ensures text { self.new.text.items ≡ self.old.text.items ++ line_text (said.row (name_of cursor.now) row.now) }
        ensures errors { self.new.has_error ≡ self.old.has_error }
        ensures short { array_vec_len self.new.text ≤ array_vec_len self.old.text + 14436 }
    {
        print_row(cursor, row, &mut self.text);
    }

    /// Puts the line of the last row that was wanted of a cursor behind the others, and `done` behind it.
    pub fn say_last_row(&mut self, cursor: &Cursor, row: &Row)
        requires room { array_vec_len self.old.text ≤ 1024 }
        ensures text { self.new.text.items ≡ self.old.text.items ++ text_of (said.row (name_of cursor.now) row.now ∷ said.done (name_of cursor.now) ∷ []) }
        ensures errors { self.new.has_error ≡ self.old.has_error }
    {
        self.say_row(cursor, row);
        self.say(&ReplyLine::Done(*cursor));
    }

    /// Puts text behind the lines.
    pub(crate) fn put(&mut self, text: &[u8])
        requires { array_vec_len self.old.text + length text.now ≤ 16384 }
        ensures text { self.new.text.items ≡ self.old.text.items ++ text.now }
        ensures errors { self.new.has_error ≡ self.old.has_error }
    {
        let _ = self.text.try_extend_from_slice(text);
    }
}

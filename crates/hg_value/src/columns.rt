//! Rows of chosen columns.
ghost use Rattle.hg_value.specs.Coding.{IsNoRow};

use crate::decode::read_ends;
use crate::room::Places;
use crate::row::{MAX_BYTES, MAX_VALUES, Row, coding_among};
use hg_base::NoRoom;

/// Why columns were not put into a row: the bytes are no such row, or there is no room.
#[derive(Clone, Copy, PartialEq, Eq, Debug)]
pub enum Unread {
    NoRow,
    NoRoom,
}

impl Row {
    ghost use Rattle.std.specs.Prelude.{◌≡◌, ◌<◌, ◌++◌, List, length, take, OnOk, OnErr, IfErr};
    ghost use Rattle.std.specs.List.{AllByRecursion};
    ghost use Rattle.hg_model.specs.declared.values.Value.{Value as Scalar};
    ghost use Rattle.hg_value.specs.Choosing.{HasRoomFor, CannotPush};
    ghost use Rattle.hg_value.specs.Coding.{IsRowOf};
    ghost use Rattle.hg_value.specs.Looks.{chosen};
    ghost use Rattle.hg_value.specs.RowParts.{row_values, AreParts};

    /// Puts the values at these places of a row of these parts behind the others. Where one of them has
    /// no room, those before it were put.
    fn append_columns(&mut self, ends: &[u16], bytes: &[u8], columns: &[u8]) -> Result<(), NoRoom>
        requires parts { AreParts ends.now bytes.now }
        requires columns { AllByRecursion (λ k. k < length ends.now) columns.now }
        ensures ok { OnOk result (self.new ≡ self.old ++ chosen (row_values ends.now bytes.now) columns.now) }
        ensures kept { take (length self.old) self.new ≡ self.old }
        ensures room { OnErr result (HasRoomFor self.old (chosen (row_values ends.now bytes.now) columns.now) → ⊥) }
    {
        for column in columns {
            match self.append(coding_among(ends, bytes, *column as usize), &[]) {
                Ok(()) => {}
                Err(_) => return Err(NoRoom),
            }
        }
        Ok(())
    }

    /// Puts the columns of these numbers behind the others, out of the row of `n` values that has these
    /// bytes. No value is made: each one's bytes are copied as they stand. Where it is refused, this row is
    /// as it was.
    pub fn push_columns(&mut self, bytes: &[u8], n: u8, columns: &[u8]) -> Result<(), Unread>
        requires columns { AllByRecursion (λ k. k < n) columns.now }
        ensures ok { OnOk result ((vs : List Scalar) → IsRowOf vs n bytes.now → self.new ≡ self.old ++ chosen vs columns.now) }
        ensures read { OnOk result ((vs : List Scalar) × IsRowOf vs n bytes.now) }
        ensures unchanged { OnErr result (self.new ≡ self.old) }
        ensures cause { IfErr result (λ e. CannotPush self.old bytes.now n columns.now e) }
    {
        if n as usize > MAX_VALUES || bytes.len() > MAX_BYTES {
            return Err(Unread::NoRow);
        }
        let mut ends = Places::new();
        if !read_ends(bytes, n, &mut ends) {
            return Err(Unread::NoRow);
        }
        let before = self.len();
        match self.append_columns(ends.as_slice(), bytes, columns) {
            Ok(()) => Ok(()),
            Err(_) => {
                self.truncate(before);
                Err(Unread::NoRoom)
            }
        }
    }
}

//! A value where it lies.
ghost use Rattle.std.specs.Prelude.{◌≡◌};
ghost use Rattle.hg_value.specs.Coding.{IsHeld};
ghost use Rattle.hg_value.specs.Looks.{value_of};
ghost use Rattle.hg_value.specs.RowParts.{decoded, IsCoding};

use crate::decode::{narrow_number, wide_number};
use crate::encode::{NARROW, TEXT, WIDE};
use hg_model::{Chars, Value};

/// A look at a value where it lies. A text is the bytes of its characters.
#[derive(Clone, Copy)]
pub enum Look<'a> {
    Null,
    Int(i128),
    Text(&'a [u8]),
}

/// A look at the value that bytes spell.
pub fn look_at(bytes: &[u8]) -> Look<'_>
    requires { IsCoding bytes.now }
    ensures value { value_of result ≡ decoded bytes.now }
    ensures held { IsHeld (value_of result) }
{
    let rest = bytes.split_at(1).1;
    match bytes[0] {
        NARROW => Look::Int(narrow_number(rest)),
        TEXT => Look::Text(rest.split_at(1).1),
        WIDE => Look::Int(wide_number(rest)),
        _ => Look::Null,
    }
}

impl Look<'_> {
    /// The value itself.
    pub fn to_value(&self) -> Value
        requires { IsHeld (value_of self.now) }
        ensures { result ≡ value_of self.now }
    {
        match self {
            Look::Null => Value::Null,
            Look::Int(number) => Value::Int(*number),
            Look::Text(text) => Value::Text(Chars::from_bytes(text)),
        }
    }
}

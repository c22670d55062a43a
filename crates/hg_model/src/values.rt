//! Values of a column.
ghost use Rattle.std.specs.Prelude.{◌≡◌};
ghost use Rattle.std.specs.List.{list_all};
ghost use Rattle.hg_model.specs.Value.{is_chars, is_printable};

use crate::trees::Truth;
use arrayvec::ArrayString;
use std::marker::Model;

/// A text of 0 to 255 characters from 0x20 to 0x7E. Contracts see its bytes.
#[derive(Drop)]
pub struct Chars {
    text: ArrayString<255>,
}

impl Model for Chars {
    ghost use Rattle.std.specs.Prelude.{IsTrue, List, ℕ};
    ghost use Rattle.hg_model.specs.Value.{is_chars};

    ghost Value = { List ℕ };

    ghost view = { λ c. c.text.bytes };

    ghost invariant = { λ c. IsTrue (is_chars c.text.bytes) };
}

impl Chars {
    ghost use Rattle.std.specs.Prelude.{◌≡◌, ◌↔◌, IsTrue, IfSome, IsSome};
    ghost use Rattle.hg_model.specs.Value.{is_chars};

    /// The text of these characters.
    pub fn new(s: &str) -> Chars
        requires { IsTrue (is_chars s.now) }
        ensures { result ≡ s.now }
    {
        let mut text = ArrayString::new();
        text.push_str(s);
        Chars { text }
    }

    /// The text of these bytes.
    pub fn from_bytes(bytes: &[u8]) -> Chars
        requires { IsTrue (is_chars bytes.now) }
        ensures { result ≡ bytes.now }
    {
        let mut text = ArrayString::new();
        for byte in bytes {
            text.push(*byte as char);
        }
        Chars { text }
    }

    /// The text of these characters, where it is one.
    pub fn parse(s: &str) -> Option<Chars>
        ensures some { IfSome result (λ t. t ≡ s.now) }
        ensures variant { IsSome result ↔ IsTrue (is_chars s.now) }
    {
        if is_chars(s.as_bytes()) {
            Some(Chars::new(s))
        } else {
            None
        }
    }

    /// An equal text.
    pub fn copy(&self) -> Chars
        ensures { result ≡ self.now }
    {
        Chars { text: self.text }
    }

    pub fn as_str(&self) -> &str
        ensures text { result.now ≡ self.now }
        ensures chars { IsTrue (is_chars self.now) }
    {
        self.text.as_str()
    }
}

fn all_printable(bytes: &[u8]) -> bool
    ensures { result ≡ list_all is_printable bytes.now }
{
    for byte in bytes {
        if *byte < 32 || *byte > 126 {
            return false;
        }
    }
    true
}

fn is_chars(bytes: &[u8]) -> bool
    ensures { result ≡ is_chars bytes.now }
{
    all_printable(bytes) && bytes.len() <= 255
}

/// A value: NULL, a whole number or a text.
#[derive(Drop, Default)]
pub enum Value {
    #[default]
    Null,
    Int(i128),
    Text(Chars),
}

impl Value {
    ghost use Rattle.std.specs.Prelude.{◌≡◌};

    pub fn copy(&self) -> Value
        ensures { result ≡ self.now }
    {
        match self {
            Value::Null => Value::Null,
            Value::Int(n) => Value::Int(*n),
            Value::Text(text) => Value::Text(text.copy()),
        }
    }
}

/// What a node of an expression stands for over a row or a group: a value, or a condition's truth.
#[derive(Drop)]
pub enum NodeValue {
    Plain(Value),
    Condition(Truth),
}

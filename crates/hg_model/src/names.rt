//! Names of tables, columns, indexes and cursors.
ghost use Rattle.std.specs.Prelude.{◌≡◌};
ghost use Rattle.std.specs.List.{list_all};
ghost use Rattle.hg_model.specs.Name.{begins_word, is_in_word, is_letter, is_name};

use arrayvec::ArrayString;
use std::hash::{Hash, Hasher};
use std::marker::Model;

/// A name of 1 to 30 bytes: a letter or `_`, and then letters, digits and `_`. Contracts see its
/// bytes. The parser keeps names in lower case.
#[derive(Drop)]
pub struct Name {
    text: ArrayString<30>,
}

impl Model for Name {
    ghost use Rattle.std.specs.Prelude.{IsTrue, List, ℕ};
    ghost use Rattle.hg_model.specs.Name.{is_name};

    ghost Value = { List ℕ };

    ghost view = { λ n. n.text.bytes };

    ghost invariant = { λ n. IsTrue (is_name n.text.bytes) };
}

impl Name {
    ghost use Rattle.std.specs.Prelude.{◌≡◌, ◌<◌, ◌≤◌, ◌↔◌, IsTrue, IfSome, IsSome, true, [], ◌∷◌, ◌++◌, length, MatchBool};
    ghost use Rattle.hg_model.specs.Name.{is_name, begins_word, is_in_word};

    /// The name that is spelled so.
    pub fn new(s: &str) -> Name
        requires { IsTrue (is_name s.now) }
        ensures { result ≡ s.now }
    {
        let mut text = ArrayString::new();
        text.push_str(s);
        Name { text }
    }

    /// A name of one letter or `_`.
    pub fn of_letter(letter: u8) -> Name
        requires { begins_word letter ≡ true }
        ensures { result ≡ letter ∷ [] }
    {
        let mut text = ArrayString::new();
        text.push(letter as char);
        Name { text }
    }

    /// Puts a letter, a digit or `_` behind the name where it has fewer than 30 bytes, and answers
    /// whether it had.
    pub fn append(&mut self, letter: u8) -> bool
        requires { is_in_word letter ≡ true }
        ensures { MatchBool result ((length self.old < 30) × (self.new ≡ self.old ++ letter ∷ []))
            ((30 ≤ length self.old) × (self.new ≡ self.old)) }
    {
        if self.text.len() == 30 {
            return false;
        }
        self.text.push(letter as char);
        true
    }

    /// The name that is spelled so, where it is one.
    pub fn parse(s: &str) -> Option<Name>
        ensures some { IfSome result (λ n. n ≡ s.now) }
        ensures variant { IsSome result ↔ IsTrue (is_name s.now) }
    {
        if is_name(s.as_bytes()) {
            Some(Name::new(s))
        } else {
            None
        }
    }

    /// An equal name.
    pub fn copy(&self) -> Name
        ensures { result ≡ self.now }
    {
        Name { text: self.text }
    }

    pub fn as_str(&self) -> &str
        ensures text { result.now ≡ self.now }
        ensures name { IsTrue (is_name self.now) }
        ensures short { length self.now ≤ 30 }
    {
        self.text.as_str()
    }
}

fn is_letter(b: u8) -> bool
    ensures { result ≡ is_letter b }
{
    (97 <= b && b <= 122) || (65 <= b && b <= 90)
}

fn begins_word(b: u8) -> bool
    ensures { result ≡ begins_word b }
{
    is_letter(b) || b == 95
}

fn is_in_word(b: u8) -> bool
    ensures { result ≡ is_in_word b }
{
    begins_word(b) || (48 <= b && b <= 57)
}

fn all_in_word(bytes: &[u8]) -> bool
    ensures { result ≡ list_all is_in_word bytes.now }
{
    for byte in bytes {
        if !is_in_word(*byte) {
            return false;
        }
    }
    true
}

fn is_name(bytes: &[u8]) -> bool
    ensures { result ≡ is_name bytes.now }
{
    match bytes {
        [] => false,
        [first, rest @ ..] => begins_word(*first) && all_in_word(rest) && rest.len() <= 29,
    }
}

impl Default for Name {
    ghost use Rattle.std.specs.Prelude.{◌≡◌, codes};

    ghost is_default = { λ n. n ≡ codes "x" };

    fn default() -> Name {
        Name::new("x")
    }
}

impl PartialEq for Name {
    ghost use Rattle.std.specs.Prelude.{nat_eq};
    ghost use Rattle.std.specs.Cmp.{partial_equiv_from_equiv};
    ghost use Rattle.std.specs.Cmp.Lexicographic.{nat_list_eq_equiv};
    ghost use lib.Pointwise.{pointwise};

    ghost eq = { pointwise nat_eq };

    ghost laws = { partial_equiv_from_equiv nat_list_eq_equiv };

    fn eq(&self, other: &Self) -> bool {
        self.as_str() == other.as_str()
    }
}

impl Eq for Name {
    ghost use Rattle.std.specs.Cmp.Lexicographic.{nat_list_eq_equiv};

    ghost laws = { nat_list_eq_equiv };
}

impl Hash for Name {
    ghost use Rattle.std.specs.Hash as fed;
    ghost use Rattle.std.specs.Cmp.Rules.{hashing};
    ghost use Rattle.std.proofs.Common.{rules};

    ghost hash_input = { λ s. fed.str s };

    ghost respects_eq = { Prim.search (hashing, rules) };

    fn hash<H: Hasher>(&self, state: &mut H) {
        self.as_str().hash(state);
    }
}

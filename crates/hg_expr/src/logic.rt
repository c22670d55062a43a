//! Truths, comparison and arithmetic of looks.
ghost use Rattle.std.specs.Prelude.{◌≡◌};
ghost use Rattle.hg_model.specs.Evaluation as evaluation;
ghost use Rattle.hg_model.specs.NullLogic as logic;
ghost use Rattle.hg_model.specs.Width.{IsBelow};
ghost use Rattle.hg_value.specs.Looks.{value_of};

use hg_model::{Cmp, Op, Truth};
use hg_value::Look;
use std::cmp::Ordering;

/// AND.
pub fn both(a: Truth, b: Truth) -> Truth
    ensures { result ≡ logic.both a b }
{
    match (a, b) {
        (Truth::False, _) => Truth::False,
        (Truth::True, b) => b,
        (Truth::Unknown, Truth::False) => Truth::False,
        (Truth::Unknown, _) => Truth::Unknown,
    }
}

/// OR.
pub fn either(a: Truth, b: Truth) -> Truth
    ensures { result ≡ logic.either a b }
{
    match (a, b) {
        (Truth::True, _) => Truth::True,
        (Truth::False, b) => b,
        (Truth::Unknown, Truth::True) => Truth::True,
        (Truth::Unknown, _) => Truth::Unknown,
    }
}

/// NOT.
pub fn opposite(a: Truth) -> Truth
    ensures { result ≡ logic.opposite a }
{
    match a {
        Truth::True => Truth::False,
        Truth::False => Truth::True,
        Truth::Unknown => Truth::Unknown,
    }
}

/// The truth of a fact that is known.
pub fn known(holds: bool) -> Truth
    ensures { result ≡ logic.known holds }
{
    if holds { Truth::True } else { Truth::False }
}

/// Whether a condition keeps a row.
pub fn is_true(a: Truth) -> bool
    ensures { result ≡ logic.is_true a }
{
    match a {
        Truth::True => true,
        Truth::False | Truth::Unknown => false,
    }
}

/// Whether a value is NULL.
pub fn is_null(a: &Look) -> bool
    ensures { result ≡ logic.is_null (value_of a.now) }
{
    match a {
        Look::Null => true,
        Look::Int(_) | Look::Text(_) => false,
    }
}

fn holds(cmp: Cmp, order: Ordering) -> bool
    ensures { result ≡ logic.holds cmp order }
{
    match cmp {
        Cmp::Eq => order.is_eq(),
        Cmp::Ne => order.is_ne(),
        Cmp::Lt => order.is_lt(),
        Cmp::Le => order.is_le(),
        Cmp::Gt => order.is_gt(),
        Cmp::Ge => order.is_ge(),
    }
}

/// A comparison of two values.
pub fn compare(cmp: Cmp, a: &Look, b: &Look) -> Truth
    ensures { result ≡ logic.compare cmp (value_of a.now) (value_of b.now) }
{
    match (a, b) {
        (Look::Int(x), Look::Int(y)) => known(holds(cmp, x.cmp(y))),
        (Look::Text(s), Look::Text(t)) => known(holds(cmp, s.cmp(t))),
        _ => Truth::Unknown,
    }
}

/// Minus a value. NULL gives NULL.
pub fn negative<'a>(a: &Look) -> Look<'a>
    requires { IsBelow 126 (evaluation.negative (value_of a.now)) }
    ensures { value_of result ≡ evaluation.negative (value_of a.now) }
{
    match a {
        Look::Int(x) => Look::Int(-*x),
        _ => Look::Null,
    }
}

/// A sum, a difference or a product. NULL gives NULL.
pub fn arithmetic<'a>(op: Op, a: &Look, b: &Look) -> Look<'a>
    requires { IsBelow 126 (evaluation.arithmetic op (value_of a.now) (value_of b.now)) }
    ensures { value_of result ≡ evaluation.arithmetic op (value_of a.now) (value_of b.now) }
{
    match (op, a, b) {
        (Op::Add, Look::Int(x), Look::Int(y)) => Look::Int(*x + *y),
        (Op::Sub, Look::Int(x), Look::Int(y)) => Look::Int(*x - *y),
        (Op::Mul, Look::Int(x), Look::Int(y)) => Look::Int(*x * *y),
        _ => Look::Null,
    }
}

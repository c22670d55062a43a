//! How values stand to each other.
ghost use Rattle.std.specs.Prelude.{◌≡◌, ◌↔◌, ◌||◌, IsTrue, IsNone, IfSome};
ghost use Rattle.hg_model.specs.NullLogic.{is_null, compare as condition};
ghost use Rattle.hg_model.specs.Order.{value_cmp};
ghost use Rattle.hg_model.specs.declared.trees.Cmp.{Cmp};
ghost use Rattle.hg_value.specs.Comparing.{AreOfOneType, truth_by};

use hg_model::Value;
use std::cmp::Ordering;

/// How two values of one type stand to each other: numbers as whole numbers, texts byte by byte, a
/// proper prefix being less. None where one of them is NULL.
pub fn compare(a: &Value, b: &Value) -> Option<Ordering>
    requires { AreOfOneType a.now b.now }
    ensures null { IsNone result ↔ IsTrue (is_null a.now || is_null b.now) }
    ensures order { IfSome result (λ o. o ≡ value_cmp a.now b.now) }
    ensures condition { (c : Cmp) → condition c a.now b.now ≡ truth_by c result }
{
    match (a, b) {
        (Value::Int(x), Value::Int(y)) => Some(x.cmp(y)),
        (Value::Text(s), Value::Text(t)) => Some(s.as_str().cmp(t.as_str())),
        _ => None,
    }
}

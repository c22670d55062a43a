//! Expressions: one function a rule of the grammar, the loosest first. They call one another through
//! parentheses alone, and `depth` says how many of these may still open.
ghost use Rattle.std.specs.Prelude.{◌≡◌, ◌<◌, length, Option};
ghost use Rattle.std.specs.Option.{is_some};
ghost use Rattle.hg_parse.specs.AtHand.{tokens, past, word_at, fold_in, sum_sign, told_at, GoesOn};
ghost use Rattle.hg_parse.specs.Descent.{prim, factor, term, sum, items, pred, negation, conjunction, disjunction, inside, deeper, aggregate, word_tail, not_tail, is_tail, between, in_list, compares, column_of, column, is_count};
ghost use Rattle.hg_parse.specs.Descent.{whole};
ghost use Rattle.hg_parse.specs.Keeping.{Kept};
ghost use Rattle.hg_parse.specs.Kept.{kept, keeper, told, same, column_at, Fits, Moves};
ghost use Rattle.hg_parse.specs.Steps.{closed};

use crate::input::{Input, Syntax};
use crate::places::{ColumnAt, NameAt};
use crate::room::Room;
use hg_model::{Cmp, Fold, Op};
use hg_scan::{Keyword, Sign};

/// A column's name behind its first word.
fn column_of<'a>(input: &mut Input<'a>, first: &NameAt<'a>) -> Result<ColumnAt<'a>, Syntax>
    ensures reads { (k : Kept) → column_of k (word_at first.now) (tokens input.old) ≡ told_at k column_at result input.new }
    ensures goes_on { GoesOn input.old input.new }
{
    if !input.eat_sign(Sign::Dot) {
        return Ok(ColumnAt {
            table: None,
            name: *first,
        });
    }
    let name = input.name()?;
    Ok(ColumnAt {
        table: Some(*first),
        name,
    })
}

/// col = name ["." name]
pub fn column<'a>(input: &mut Input<'a>) -> Result<ColumnAt<'a>, Syntax>
    ensures reads { (k : Kept) → column k (tokens input.old) ≡ told_at k column_at result input.new }
    ensures goes_on { GoesOn input.old input.new }
{
    let first = input.name()?;
    column_of(input, &first)
}

/// The comparison that comes next.
#[tactic(auto, using(crate::proofs::Expressions::compares_by))]
fn eat_compare(input: &mut Input<'_>) -> Option<Cmp>
    ensures reads { compares (tokens input.old) ≡ result }
    ensures rest { tokens input.new ≡ past (is_some result) (tokens input.old) }
    ensures goes_on { GoesOn input.old input.new }
{
    if input.eat_sign(Sign::Equal) {
        Some(Cmp::Eq)
    } else if input.eat_sign(Sign::LessGreater) || input.eat_sign(Sign::BangEqual) {
        Some(Cmp::Ne)
    } else if input.eat_sign(Sign::Less) {
        Some(Cmp::Lt)
    } else if input.eat_sign(Sign::LessOrEqual) {
        Some(Cmp::Le)
    } else if input.eat_sign(Sign::Greater) {
        Some(Cmp::Gt)
    } else if input.eat_sign(Sign::GreaterOrEqual) {
        Some(Cmp::Ge)
    } else {
        None
    }
}

/// The name of an aggregate that comes next.
#[tactic(auto, using(crate::proofs::Expressions::fold_by))]
fn eat_fold(input: &mut Input<'_>) -> Option<Fold>
    ensures reads { fold_in (tokens input.old) ≡ result }
    ensures rest { tokens input.new ≡ past (is_some result) (tokens input.old) }
    ensures goes_on { GoesOn input.old input.new }
{
    if input.eat_keyword(Keyword::Count) {
        Some(Fold::Count)
    } else if input.eat_keyword(Keyword::Sum) {
        Some(Fold::Sum)
    } else if input.eat_keyword(Keyword::Min) {
        Some(Fold::Min)
    } else if input.eat_keyword(Keyword::Max) {
        Some(Fold::Max)
    } else {
        None
    }
}

/// The sign of a sum that comes next.
fn eat_sum_sign(input: &mut Input<'_>) -> Option<Op>
    ensures reads { sum_sign (tokens input.old) ≡ result }
    ensures rest { tokens input.new ≡ past (is_some result) (tokens input.old) }
    ensures goes_on { GoesOn input.old input.new }
{
    if input.eat_sign(Sign::Plus) {
        Some(Op::Add)
    } else if input.eat_sign(Sign::Minus) {
        Some(Op::Sub)
    } else {
        None
    }
}

fn is_count(fold: Fold) -> bool
    ensures { result ≡ is_count fold }
{
    match fold {
        Fold::Count => true,
        _ => false,
    }
}

/// Behind IS.
fn is_tail(input: &mut Input<'_>, room: &mut Room, m: u8) -> Result<u8, Syntax>
    requires fits { Fits input.old room.old }
    ensures reads { is_tail keeper (kept room.old) m (tokens input.old) ≡ told same result room.new input.new }
    ensures moves { Moves input.old room.old input.new room.new }
{
    if input.eat_keyword(Keyword::Not) {
        if !input.eat_keyword(Keyword::Null) {
            return Err(Syntax);
        }
        return Ok(room.push_not_null(m));
    }
    if !input.eat_keyword(Keyword::Null) {
        return Err(Syntax);
    }
    Ok(room.push_is_null(m))
}

/// or = and {OR and}
#[cycle(expression)]
#[tactic(auto, unfolding(crate::specs::Descent::disjunction))]
fn disjunction(input: &mut Input<'_>, room: &mut Room, depth: u8) -> Result<u8, Syntax>
    requires fits { Fits input.old room.old }
    ensures reads { disjunction keeper depth (inside keeper depth) (kept room.old) (tokens input.old) ≡ told same result room.new input.new }
    ensures moves { Moves input.old room.old input.new room.new }
{
    let mut n = conjunction(input, room, depth)?;
    'chain: while input.eat_keyword(Keyword::Or) {
        let Ok(m) = conjunction(input, room, depth) else {
            return Err(Syntax);
        };
        n = room.push_either(n, m);
    }
    Ok(n)
}

/// and = not {AND not}
#[cycle(expression)]
#[tactic(auto, unfolding(crate::specs::Descent::conjunction))]
fn conjunction(input: &mut Input<'_>, room: &mut Room, depth: u8) -> Result<u8, Syntax>
    requires fits { Fits input.old room.old }
    ensures reads { conjunction keeper depth (inside keeper depth) (kept room.old) (tokens input.old) ≡ told same result room.new input.new }
    ensures moves { Moves input.old room.old input.new room.new }
{
    let mut n = negation(input, room, depth)?;
    'chain: while input.eat_keyword(Keyword::And) {
        let Ok(m) = negation(input, room, depth) else {
            return Err(Syntax);
        };
        n = room.push_both(n, m);
    }
    Ok(n)
}

/// not = [NOT] pred
#[cycle(expression)]
#[tactic(auto, unfolding(crate::specs::Descent::negation))]
fn negation(input: &mut Input<'_>, room: &mut Room, depth: u8) -> Result<u8, Syntax>
    requires fits { Fits input.old room.old }
    ensures reads { negation keeper depth (inside keeper depth) (kept room.old) (tokens input.old) ≡ told same result room.new input.new }
    ensures moves { Moves input.old room.old input.new room.new }
{
    if !input.eat_keyword(Keyword::Not) {
        return predicate(input, room, depth);
    }
    let n = predicate(input, room, depth)?;
    Ok(room.push_not(n))
}

/// pred = sum [cmp sum | IS [NOT] NULL | [NOT] BETWEEN sum AND sum | [NOT] IN "(" sum {"," sum} ")"]
#[cycle(expression)]
#[tactic(auto, unfolding(crate::specs::Descent::pred))]
fn predicate(input: &mut Input<'_>, room: &mut Room, depth: u8) -> Result<u8, Syntax>
    requires fits { Fits input.old room.old }
    ensures reads { pred keeper depth (inside keeper depth) (kept room.old) (tokens input.old) ≡ told same result room.new input.new }
    ensures moves { Moves input.old room.old input.new room.new }
{
    let m = sum(input, room, depth)?;
    let Some(cmp) = eat_compare(input) else {
        return tail(input, room, m, depth);
    };
    let n = sum(input, room, depth)?;
    Ok(room.push_compare(cmp, m, n))
}

/// Behind the first operand of a predicate that is no comparison.
#[cycle(expression)]
fn tail(input: &mut Input<'_>, room: &mut Room, m: u8, depth: u8) -> Result<u8, Syntax>
    requires fits { Fits input.old room.old }
    ensures reads { word_tail keeper depth (inside keeper depth) (kept room.old) m (tokens input.old) ≡ told same result room.new input.new }
    ensures moves { Moves input.old room.old input.new room.new }
{
    if input.eat_keyword(Keyword::Is) {
        return is_tail(input, room, m);
    }
    if input.eat_keyword(Keyword::Not) {
        return not_tail(input, room, m, depth);
    }
    if input.eat_keyword(Keyword::Between) {
        return between(input, room, m, depth);
    }
    if input.eat_keyword(Keyword::In) {
        return in_list(input, room, m, depth);
    }
    Ok(m)
}

/// Behind NOT that stands behind an operand.
#[cycle(expression)]
fn not_tail(input: &mut Input<'_>, room: &mut Room, m: u8, depth: u8) -> Result<u8, Syntax>
    requires fits { Fits input.old room.old }
    ensures reads { not_tail keeper depth (inside keeper depth) (kept room.old) m (tokens input.old) ≡ told same result room.new input.new }
    ensures moves { Moves input.old room.old input.new room.new }
{
    if input.eat_keyword(Keyword::Between) {
        let n = between(input, room, m, depth)?;
        return Ok(room.push_not(n));
    }
    if input.eat_keyword(Keyword::In) {
        let n = in_list(input, room, m, depth)?;
        return Ok(room.push_not(n));
    }
    Err(Syntax)
}

/// Behind BETWEEN.
#[cycle(expression)]
fn between(input: &mut Input<'_>, room: &mut Room, m: u8, depth: u8) -> Result<u8, Syntax>
    requires fits { Fits input.old room.old }
    ensures reads { between keeper depth (inside keeper depth) (kept room.old) m (tokens input.old) ≡ told same result room.new input.new }
    ensures moves { Moves input.old room.old input.new room.new }
{
    let a = sum(input, room, depth)?;
    let low = room.push_compare(Cmp::Ge, m, a);
    if !input.eat_keyword(Keyword::And) {
        return Err(Syntax);
    }
    let b = sum(input, room, depth)?;
    let high = room.push_compare(Cmp::Le, m, b);
    Ok(room.push_both(low, high))
}

/// Behind IN.
#[cycle(expression)]
fn in_list(input: &mut Input<'_>, room: &mut Room, m: u8, depth: u8) -> Result<u8, Syntax>
    requires fits { Fits input.old room.old }
    ensures reads { in_list keeper depth (inside keeper depth) (kept room.old) m (tokens input.old) ≡ told same result room.new input.new }
    ensures moves { Moves input.old room.old input.new room.new }
{
    if !input.eat_sign(Sign::Open) {
        return Err(Syntax);
    }
    let n = items(input, room, m, depth)?;
    if !input.eat_sign(Sign::Close) {
        return Err(Syntax);
    }
    Ok(n)
}

/// The items of IN: an equality each, joined by OR.
#[cycle(expression)]
#[tactic(auto, unfolding(crate::specs::Descent::items))]
fn items(input: &mut Input<'_>, room: &mut Room, m: u8, depth: u8) -> Result<u8, Syntax>
    requires fits { Fits input.old room.old }
    ensures reads { items keeper depth (inside keeper depth) m (kept room.old) (tokens input.old) ≡ told same result room.new input.new }
    ensures moves { Moves input.old room.old input.new room.new }
{
    let first = sum(input, room, depth)?;
    let mut n = room.push_compare(Cmp::Eq, m, first);
    'chain: while input.eat_sign(Sign::Comma) {
        let Ok(item) = sum(input, room, depth) else {
            return Err(Syntax);
        };
        let equal = room.push_compare(Cmp::Eq, m, item);
        n = room.push_either(n, equal);
    }
    Ok(n)
}

/// sum = term {("+" | "-") term}
#[cycle(expression)]
#[tactic(auto, unfolding(crate::specs::Descent::sum))]
fn sum(input: &mut Input<'_>, room: &mut Room, depth: u8) -> Result<u8, Syntax>
    requires fits { Fits input.old room.old }
    ensures reads { sum keeper depth (inside keeper depth) (kept room.old) (tokens input.old) ≡ told same result room.new input.new }
    ensures moves { Moves input.old room.old input.new room.new }
{
    let mut n = term(input, room, depth)?;
    'chain: while let Some(op) = eat_sum_sign(input) {
        let Ok(m) = term(input, room, depth) else {
            return Err(Syntax);
        };
        n = room.push_arith(op, n, m);
    }
    Ok(n)
}

/// term = factor {"*" factor}
#[cycle(expression)]
#[tactic(auto, unfolding(crate::specs::Descent::term))]
fn term(input: &mut Input<'_>, room: &mut Room, depth: u8) -> Result<u8, Syntax>
    requires fits { Fits input.old room.old }
    ensures reads { term keeper depth (inside keeper depth) (kept room.old) (tokens input.old) ≡ told same result room.new input.new }
    ensures moves { Moves input.old room.old input.new room.new }
{
    let mut n = factor(input, room, depth)?;
    'chain: while input.eat_sign(Sign::Star) {
        let Ok(m) = factor(input, room, depth) else {
            return Err(Syntax);
        };
        n = room.push_arith(Op::Mul, n, m);
    }
    Ok(n)
}

/// factor = ["+" | "-"] prim
#[cycle(expression)]
#[tactic(auto, unfolding(crate::specs::Descent::factor))]
fn factor(input: &mut Input<'_>, room: &mut Room, depth: u8) -> Result<u8, Syntax>
    requires fits { Fits input.old room.old }
    ensures reads { factor keeper depth (inside keeper depth) (kept room.old) (tokens input.old) ≡ told same result room.new input.new }
    ensures moves { Moves input.old room.old input.new room.new }
{
    if input.eat_sign(Sign::Plus) {
        return primary(input, room, depth);
    }
    if input.eat_sign(Sign::Minus) {
        let n = primary(input, room, depth)?;
        return Ok(room.push_neg(n));
    }
    primary(input, room, depth)
}

/// prim = number | text | NULL | col | agg | "(" or ")"
#[cycle(expression)]
#[tactic(auto, using(crate::proofs::Expressions::prim_by))]
fn primary(input: &mut Input<'_>, room: &mut Room, depth: u8) -> Result<u8, Syntax>
    requires fits { Fits input.old room.old }
    ensures reads { prim keeper depth (inside keeper depth) (kept room.old) (tokens input.old) ≡ told same result room.new input.new }
    ensures moves { Moves input.old room.old input.new room.new }
{
    if let Some(name) = input.eat_name() {
        let column = column_of(input, &name)?;
        return Ok(room.push_column(&column));
    }
    if let Some(number) = input.eat_number() {
        return Ok(room.push_number(&number));
    }
    if let Some(text) = input.eat_text() {
        return Ok(room.push_text(&text));
    }
    if input.eat_keyword(Keyword::Null) {
        return Ok(room.push_null());
    }
    if input.eat_sign(Sign::Open) {
        return nested(input, room, depth);
    }
    let Some(fold) = eat_fold(input) else {
        return Err(Syntax);
    };
    if !input.eat_sign(Sign::Open) {
        return Err(Syntax);
    }
    aggregate(input, room, fold, depth)
}

/// Behind `(`.
#[cycle(expression)]
#[tactic(auto, using(crate::proofs::Expressions::nested_by, crate::proofs::Expressions::no_deeper))]
fn nested(input: &mut Input<'_>, room: &mut Room, depth: u8) -> Result<u8, Syntax>
    requires fits { Fits input.old room.old }
    ensures reads { deeper depth (closed (inside keeper depth (kept room.old) (tokens input.old))) ≡ told same result room.new input.new }
    ensures moves { Moves input.old room.old input.new room.new }
{
    if depth == 0 {
        return Err(Syntax);
    }
    let n = disjunction(input, room, depth - 1)?;
    if !input.eat_sign(Sign::Close) {
        return Err(Syntax);
    }
    Ok(n)
}

/// Behind `(` of an aggregate.
#[cycle(expression)]
#[tactic(auto, using(crate::proofs::Expressions::aggregate_by, crate::proofs::Expressions::no_deeper))]
fn aggregate(input: &mut Input<'_>, room: &mut Room, fold: Fold, depth: u8) -> Result<u8, Syntax>
    requires fits { Fits input.old room.old }
    ensures reads { deeper depth (aggregate keeper (inside keeper depth) (kept room.old) fold (tokens input.old)) ≡ told same result room.new input.new }
    ensures moves { Moves input.old room.old input.new room.new }
{
    if depth == 0 {
        return Err(Syntax);
    }
    if is_count(fold) {
        if input.eat_sign(Sign::Star) {
            if !input.eat_sign(Sign::Close) {
                return Err(Syntax);
            }
            return Ok(room.push_row_count());
        }
    }
    let n = disjunction(input, room, depth - 1)?;
    if !input.eat_sign(Sign::Close) {
        return Err(Syntax);
    }
    Ok(room.push_aggregate(fold, n))
}

/// An expression with no parenthesis open.
#[tactic(auto, using(crate::proofs::Expressions::whole_by))]
pub fn expression(input: &mut Input<'_>, room: &mut Room) -> Result<u8, Syntax>
    requires fits { Fits input.old room.old }
    ensures reads { whole keeper (kept room.old) (tokens input.old) ≡ told same result room.new input.new }
    ensures moves { Moves input.old room.old input.new room.new }
{
    disjunction(input, room, 32)
}

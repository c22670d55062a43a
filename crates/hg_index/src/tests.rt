//! Indexes over one column and over two, whose rows have one key in part and NULL among their values.
ghost use Rattle.std.specs.Prelude.{ℕ, ◌<◌, ◌≤◌, ◌^◌, List, length, IfSome};
ghost use Rattle.std.specs.List.{AllByRecursion};
ghost use Rattle.hg_base.specs.Space.{NoPins};
ghost use Rattle.hg_index.specs.Calls.{IsReady};
ghost use Rattle.hg_index.specs.Entering.{MayBeEntered};
ghost use Rattle.hg_value.specs.Keys.{index_key_length};
ghost use Rattle.hg_value.specs.Laws.{IsIndexed};

use crate::{IndexCalls, make};
use arrayvec::ArrayVec;
use hg_base::{File, Index, PageFault, Pages, Place, PlainSpace};
use hg_model::Value;
use hg_value::{Row, keys_are_as_long};
use std::test::Fail;

/// What stands between the answers to two questions.
const THEN: u32 = 99;

/// A number, and NULL in the place of 0.
fn value(x: i32) -> Value
    ensures indexed { IsIndexed result }
    ensures short { index_key_length result ≤ 5 }
{
    if x == 0 {
        Value::Null
    } else {
        Value::Int(x as i128)
    }
}

/// A row of two such values.
fn pair(first: i32, second: i32) -> Option<Row>
    ensures { IfSome result (λ row. (columns : List ℕ) → AllByRecursion (λ k. k < 2) columns
        → length columns ≤ 2 → MayBeEntered columns row) }
{
    keys_are_as_long();
    let mut row = Row::new();
    if row.push(&value(first)).is_ok() && row.push(&value(second)).is_ok() {
        Some(row)
    } else {
        None
    }
}

/// The place on a page.
fn place(page: u32) -> Place {
    Place { page, slot: 7 }
}

/// Puts in or takes out the entry of a row of two values.
fn change<S: Pages>(
    index: &mut Index,
    space: &mut S,
    first: i32,
    second: i32,
    page: u32,
    add: bool,
) -> Result<(), PageFault>
    requires ready { IsReady (S.state space.old) index.old }
    requires columns { AllByRecursion (λ k. k < 2) index.old.columns.items }
    requires few { length index.old.columns.items ≤ 2 }
    ensures ready { IsReady (S.state space.new) index.new }
    ensures columns { AllByRecursion (λ k. k < 2) index.new.columns.items }
    ensures few { length index.new.columns.items ≤ 2 }
{
    let Some(row) = pair(first, second) else {
        return Ok(());
    };
    if add {
        index.add(space, &row, place(page))
    } else {
        index.remove(space, &row, place(page))
    }
}

/// The pages of the places of a value, in order.
fn list<S: Pages>(
    index: &Index,
    space: &mut S,
    first: &Value,
    found: &mut ArrayVec<u32, 64>,
) -> Result<(), PageFault>
    requires { IsReady (S.state space.old) index.now }
    ensures { IsReady (S.state space.new) index.now }
{
    let mut after = None;
    for _turn in 0..20u8 {
        after = index.first_from(space, first, after)?;
        let _ = found.try_push(after.map_or(THEN, |place| place.page));
        if after.is_none() {
            return Ok(());
        }
    }
    Ok(())
}

/// The pages of the places of the key of a row of two values, in order.
fn list_same<S: Pages>(
    index: &Index,
    space: &mut S,
    first: i32,
    second: i32,
    found: &mut ArrayVec<u32, 64>,
) -> Result<(), PageFault>
    requires ready { IsReady (S.state space.old) index.now }
    requires columns { AllByRecursion (λ k. k < 2) index.now.columns.items }
    requires few { length index.now.columns.items ≤ 2 }
    ensures { IsReady (S.state space.new) index.now }
{
    let Some(row) = pair(first, second) else {
        return Ok(());
    };
    let mut after = None;
    for _turn in 0..20u8 {
        after = index.same_key(space, &row, after)?;
        let _ = found.try_push(after.map_or(THEN, |place| place.page));
        if after.is_none() {
            return Ok(());
        }
    }
    Ok(())
}

/// The answers of an index over these columns of the same rows.
fn answers<S: Pages>(
    space: &mut S,
    columns: ArrayVec<u8, 16>,
    found: &mut ArrayVec<u32, 64>,
) -> Result<(), PageFault>
    requires no_pins { NoPins (S.state space.old) }
    requires numbers { (S.state space.old).limit File.Main < 2 ^ 32 }
    requires columns { AllByRecursion (λ k. k < 2) columns.items }
    requires few { length columns.items ≤ 2 }
    ensures { NoPins (S.state space.new) }
{
    let mut index = make(space, columns, false)?;
    change(&mut index, space, 5, 1, 7, true)?;
    change(&mut index, space, 5, 2, 3, true)?;
    change(&mut index, space, 5, 1, 5, true)?;
    change(&mut index, space, 4, 9, 1, true)?;
    change(&mut index, space, 6, 0, 2, true)?;
    change(&mut index, space, 0, 1, 9, true)?;
    change(&mut index, space, 0, 1, 8, true)?;
    change(&mut index, space, 5, 3, 4, true)?;
    list(&index, space, &value(5), found)?;
    list(&index, space, &value(0), found)?;
    list(&index, space, &value(4), found)?;
    list(&index, space, &value(-7), found)?;
    list(&index, space, &Value::Int(1 << 31), found)?;
    list_same(&index, space, 5, 1, found)?;
    list_same(&index, space, 0, 1, found)?;
    change(&mut index, space, 5, 1, 5, false)?;
    change(&mut index, space, 5, 1, 5, false)?;
    list(&index, space, &value(5), found)?;
    index.destroy(space);
    Ok(())
}

#[test]
fn places_are_found_by_value_and_by_key(rt: HostRuntime) -> Result<(), Fail> {
    let mut space = PlainSpace::new(rt.alloc());
    let mut found = ArrayVec::new();
    let mut columns = ArrayVec::new();
    columns.push(0);
    answers(&mut space, columns, &mut found)?;
    assert_eq!(rt;
        found.as_slice(),
        [
            3, 4, 5, 7, 99, 8, 9, 99, 1, 99, 99, 99, 3, 4, 5, 7, 99, 8, 9, 99, 3, 4, 7, 99,
        ]
        .as_slice()
    );
    found.clear();
    let mut columns = ArrayVec::new();
    columns.push(0);
    columns.push(1);
    answers(&mut space, columns, &mut found)?;
    assert_eq!(rt;
        found.as_slice(),
        [
            3, 4, 5, 7, 99, 8, 9, 99, 1, 99, 99, 99, 5, 7, 99, 8, 9, 99, 3, 4, 7, 99,
        ]
        .as_slice()
    );
    assert_eq!(rt; space.taken(File::Main), 0);
    Ok(())
}

//! Statements over one small table, worked out by hand: a test for each thing that they show.
ghost use Rattle.std.specs.Prelude.{◌≡◌, [], ◌∷◌, codes, false};
ghost use Rattle.hg_catalog.specs.Contents.{IsNewTable};

use crate::select_tests::{add, bound, column, said};
use crate::{place_index, refuse_table};
use arrayvec::ArrayVec;
use hg_base::NoMemory;
use hg_catalog::Catalog;
use hg_model::{Column, Name, NewColumn, NewIndex, NewTable, SqlType};
use std::alloc::Global;
use std::process::Abort;
use std::test::Fail;

/// The column of t.
fn alone() -> ArrayVec<Column, 16>
    ensures { IsNewTable result.items }
{
    let mut columns = ArrayVec::new();
    columns.push(column(Name::new("a"), SqlType::Integer));
    columns
}

/// The columns of s: three of VARCHAR(200).
fn texts() -> ArrayVec<Column, 16>
    ensures { IsNewTable result.items }
{
    let mut columns = ArrayVec::new();
    columns.push(column(Name::new("x"), SqlType::Varchar(200)));
    columns.push(column(Name::new("y"), SqlType::Varchar(200)));
    columns.push(column(Name::new("z"), SqlType::Varchar(200)));
    columns
}

/// The tables `t (a INTEGER)` and `s (x VARCHAR(200), y VARCHAR(200), z VARCHAR(200))`.
fn catalog(rt: &impl Abort, alloc: Global) -> Result<Catalog, NoMemory> {
    let mut catalog = Catalog::new(alloc)?;
    add(rt, &mut catalog, Name::new("t"), alone());
    add(rt, &mut catalog, Name::new("s"), texts());
    Ok(catalog)
}

/// Checks that a SELECT is refused, by the code and the name of its error line.
fn refuse(rt: &impl Abort, catalog: &Catalog, text: &str, code: u8, name: &str) {
    match bound(rt, catalog, text) {
        Ok(_) => panic!(rt; "{text} is bound"),
        Err(error) => {
            let words = said(&error);
            if words != (code, "", name) {
                panic!(rt; "{text}: {} {}", words.0, words.2);
            }
        }
    }
}

#[test]
fn fourth_power_is_too_wide(rt: HostRuntime) -> Result<(), Fail> {
    let catalog = catalog(&rt, rt.alloc()).ok().ok_or("memory")?;
    refuse(&rt, &catalog, "a a * a * a * from t", 7, "");
    Ok(())
}

#[test]
fn sum_of_third_powers_is_bound(rt: HostRuntime) -> Result<(), Fail> {
    let catalog = catalog(&rt, rt.alloc()).ok().ok_or("memory")?;
    match bound(&rt, &catalog, "a a * a * sum from t") {
        Ok(bound) => assert_eq!(rt; bound.places.len(), 6),
        Err(error) => panic!(rt; "refused by {}", error.code),
    }
    Ok(())
}

#[test]
fn unknown_table_is_named(rt: HostRuntime) -> Result<(), Fail> {
    let catalog = catalog(&rt, rt.alloc()).ok().ok_or("memory")?;
    refuse(&rt, &catalog, "star from u", 3, "u");
    Ok(())
}

#[test]
fn unknown_column_is_named(rt: HostRuntime) -> Result<(), Fail> {
    let catalog = catalog(&rt, rt.alloc()).ok().ok_or("memory")?;
    refuse(&rt, &catalog, "x from t", 4, "x");
    Ok(())
}

#[test]
fn table_stands_once_without_an_alias(rt: HostRuntime) -> Result<(), Fail> {
    let catalog = catalog(&rt, rt.alloc()).ok().ok_or("memory")?;
    refuse(&rt, &catalog, "a from t , t", 8, "t");
    Ok(())
}

#[test]
fn column_of_two_aliases_is_ambiguous(rt: HostRuntime) -> Result<(), Fail> {
    let catalog = catalog(&rt, rt.alloc()).ok().ok_or("memory")?;
    refuse(&rt, &catalog, "x.a , a from t x , t y", 5, "a");
    Ok(())
}

#[test]
fn number_is_no_text(rt: HostRuntime) -> Result<(), Fail> {
    let catalog = catalog(&rt, rt.alloc()).ok().ok_or("memory")?;
    refuse(&rt, &catalog, "a from t where a '1 =", 6, "");
    Ok(())
}

#[test]
fn column_beside_a_count_is_not_grouped(rt: HostRuntime) -> Result<(), Fail> {
    let catalog = catalog(&rt, rt.alloc()).ok().ok_or("memory")?;
    refuse(&rt, &catalog, "a , count* from t", 10, "");
    Ok(())
}

/// What an index on columns of s is answered: code 0 where it is placed.
fn indexed(catalog: &Catalog, columns: ArrayVec<Name, 16>) -> u8 {
    let index = NewIndex {
        name: Name::new("i"),
        table: Name::new("s"),
        unique: false,
        columns,
    };
    let mut numbers = ArrayVec::new();
    match place_index(&index, catalog, &mut numbers) {
        Ok(_) => 0,
        Err(error) => error.code,
    }
}

// 606 bytes
#[test]
fn three_long_texts_are_no_key(rt: HostRuntime) -> Result<(), Fail> {
    let catalog = catalog(&rt, rt.alloc()).ok().ok_or("memory")?;
    let mut columns = ArrayVec::new();
    columns.push(Name::new("x"));
    columns.push(Name::new("y"));
    columns.push(Name::new("z"));
    assert_eq!(rt; indexed(&catalog, columns), 25);
    Ok(())
}

// 404 bytes
#[test]
fn two_long_texts_are_a_key(rt: HostRuntime) -> Result<(), Fail> {
    let catalog = catalog(&rt, rt.alloc()).ok().ok_or("memory")?;
    let mut columns = ArrayVec::new();
    columns.push(Name::new("x"));
    columns.push(Name::new("y"));
    assert_eq!(rt; indexed(&catalog, columns), 0);
    Ok(())
}

/// A new column of texts of up to 255 bytes.
fn text_column(name: Name) -> NewColumn {
    NewColumn {
        column: column(name, SqlType::Varchar(255)),
        primary: false,
        unique: false,
    }
}

// a table may be as wide as its columns make it: a row that is too long is refused when it comes
#[test]
fn table_of_long_texts_is_made(rt: HostRuntime) -> Result<(), Fail> {
    let catalog = catalog(&rt, rt.alloc()).ok().ok_or("memory")?;
    let mut columns = ArrayVec::new();
    columns.push(text_column(Name::new("c0")));
    columns.push(text_column(Name::new("c1")));
    columns.push(text_column(Name::new("c2")));
    columns.push(text_column(Name::new("c3")));
    let table = NewTable {
        name: Name::new("w"),
        columns,
    };
    assert!(rt; refuse_table(&table, &catalog).is_none());
    Ok(())
}

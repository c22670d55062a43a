//! Statements over `t (k INTEGER, v VARCHAR(10))` and `w (a VARCHAR(255), b VARCHAR(253),
//! c VARCHAR(254))`, with what binding answers worked out by hand.
ghost use Rattle.std.specs.Prelude.{◌≡◌, [], ◌∷◌, codes, false, IfOk, length};
ghost use Rattle.hg_catalog.specs.Contents.{IsNewTable};

use crate::{BindError, bind_delete, bind_insert, bind_update, place_index, refuse_table};
use arrayvec::ArrayVec;
use hg_base::NoMemory;
use hg_catalog::Catalog;
use hg_model::{
    Cmp, ColRef, Column, Delete, Fold, Insert, Literal, Name, NewColumn, NewIndex, NewTable, Node,
    Nodes, Op, Span, SqlType, Update,
};
use std::alloc::Global;
use std::process::Abort;
use std::test::Fail;

fn column(name: Name, ty: SqlType) -> Column
    ensures { result ≡ record { name = name; ty = ty; not_null = false } }
{
    Column {
        name,
        ty,
        not_null: false,
    }
}

fn catalog(alloc: Global) -> Result<Catalog, NoMemory> {
    let mut catalog = Catalog::new(alloc)?;
    let mut columns = ArrayVec::new();
    columns.push(column(Name::new("k"), SqlType::Integer));
    columns.push(column(Name::new("v"), SqlType::Varchar(10)));
    catalog.add_table(Name::new("t"), columns);
    let mut columns = ArrayVec::new();
    columns.push(column(Name::new("a"), SqlType::Varchar(255)));
    columns.push(column(Name::new("b"), SqlType::Varchar(253)));
    columns.push(column(Name::new("c"), SqlType::Varchar(254)));
    catalog.add_table(Name::new("w"), columns);
    Ok(catalog)
}

fn name(rt: &impl Abort, text: &str) -> Name {
    match Name::parse(text) {
        Some(name) => name,
        None => panic!(rt; "{text} is no name"),
    }
}

/// What an error line says: its code, and its name where it has one.
fn said(error: &BindError) -> (u8, &str) {
    match &error.name {
        Some(column) => (error.code, column.name.as_str()),
        None => (error.code, ""),
    }
}

fn text() -> Literal {
    Literal::Text(Span { at: 0, len: 1 })
}

fn insert(rt: &impl Abort, table: &str, names: &[&str], values: &[Literal]) -> Insert {
    let mut columns = ArrayVec::new();
    for column in names {
        if columns.try_push(name(rt, column)).is_err() {
            panic!(rt; "too many columns");
        }
    }
    let mut list = ArrayVec::new();
    for value in values {
        if list.try_push(*value).is_err() {
            panic!(rt; "too many values");
        }
    }
    let mut ends = ArrayVec::new();
    ends.push(list.len() as u16);
    Insert {
        table: name(rt, table),
        columns,
        values: list,
        ends,
    }
}

#[test]
fn inserts(rt: HostRuntime) -> Result<(), Fail> {
    let catalog = catalog(rt.alloc()).ok().ok_or("memory")?;
    let one = Literal::Int(1);
    let bound: [(&[&str], &[Literal], &[u8]); 3] = [
        (&[], &[one, text()], &[0, 1]),
        (&["v", "k"], &[text(), one], &[1, 0]),
        (&["k"], &[Literal::Null], &[0]),
    ];
    for (names, values, targets) in bound {
        match bind_insert(insert(&rt, "t", names, values), &catalog) {
            Ok(bound) => {
                assert_eq!(rt; bound.table, 0);
                assert!(rt; bound.targets.as_slice() == targets);
            }
            Err(error) => panic!(rt; "refused by {}", error.code),
        }
    }
    let refused: [(&str, &[&str], &[Literal], (u8, &str)); 7] = [
        ("u", &["x"], &[one], (3, "u")),
        ("t", &["k", "x"], &[text()], (4, "x")),
        ("t", &["k", "k"], &[one], (8, "k")),
        ("t", &["x", "k", "k"], &[one], (4, "x")),
        ("t", &["k", "k", "x"], &[one], (8, "k")),
        ("t", &[], &[one], (6, "")),
        ("t", &["k"], &[text()], (6, "")),
    ];
    for (table, names, values, words) in refused {
        match bind_insert(insert(&rt, table, names, values), &catalog) {
            Ok(_) => panic!(rt; "not refused"),
            Err(error) => assert_eq!(rt; said(&error), words),
        }
    }
    Ok(())
}

fn push(rt: &impl Abort, nodes: &mut Nodes, node: Node) {
    if nodes.try_push(node).is_err() {
        panic!(rt; "too many nodes");
    }
}

fn named(rt: &impl Abort, table: Option<&str>, column: &str) -> Node {
    let table = match table {
        Some(table) => Some(name(rt, table)),
        None => None,
    };
    Node::Col(ColRef {
        table,
        name: name(rt, column),
    })
}

/// `column = literal`, three nodes.
fn equality(rt: &impl Abort, table: Option<&str>, column: &str, literal: Literal) -> Nodes {
    let mut nodes = ArrayVec::new();
    push(rt, &mut nodes, named(rt, table, column));
    push(rt, &mut nodes, Node::Lit(literal));
    push(rt, &mut nodes, Node::Compare(Cmp::Eq, 0, 1));
    nodes
}

/// `k * literal = literal`, five nodes, the last one the comparison.
fn product(rt: &impl Abort, literal: i128) -> Nodes {
    let mut nodes = ArrayVec::new();
    push(rt, &mut nodes, named(rt, None, "k"));
    push(rt, &mut nodes, Node::Lit(Literal::Int(literal)));
    push(rt, &mut nodes, Node::Arith(Op::Mul, 0, 1));
    push(rt, &mut nodes, Node::Lit(Literal::Int(1)));
    push(rt, &mut nodes, Node::Compare(Cmp::Eq, 2, 3));
    nodes
}

/// `COUNT(k) = 1`, four nodes.
fn counted(rt: &impl Abort) -> Nodes {
    let mut nodes = ArrayVec::new();
    push(rt, &mut nodes, named(rt, None, "k"));
    push(rt, &mut nodes, Node::Aggregate(Fold::Count, Some(0)));
    push(rt, &mut nodes, Node::Lit(Literal::Int(1)));
    push(rt, &mut nodes, Node::Compare(Cmp::Eq, 1, 2));
    nodes
}

/// What a DELETE from t is answered, where its filter is its last node: code 0 where it is bound.
fn deleted(rt: &impl Abort, catalog: &Catalog, nodes: Nodes) -> u8 {
    let last = nodes.len().saturating_sub(1) as u8;
    let delete = Delete {
        table: Name::new("t"),
        filter: Some(last),
        nodes,
    };
    match bind_delete(delete, catalog) {
        Ok(bound) => {
            assert_eq!(rt; bound.places.len(), bound.delete.nodes.len());
            0
        }
        Err(error) => error.code,
    }
}

#[test]
fn deletes(rt: HostRuntime) -> Result<(), Fail> {
    let catalog = catalog(rt.alloc()).ok().ok_or("memory")?;
    let one = Literal::Int(1);
    for (table, column, literal, code) in [
        (None, "k", one, 0),
        (Some("t"), "v", text(), 0),
        (Some("u"), "k", one, 4),
        (None, "x", one, 4),
        (None, "x", text(), 4),
        (None, "k", text(), 6),
        (None, "v", one, 6),
        (None, "v", Literal::Null, 0),
    ] {
        let nodes = equality(&rt, table, column, literal);
        assert_eq!(rt; deleted(&rt, &catalog, nodes), code);
    }
    // 94 and 95 bits beside the 32 of k
    for (literal, code) in [((1 << 94) - 1, 0), (1 << 94, 7)] {
        assert_eq!(rt; deleted(&rt, &catalog, product(&rt, literal)), code);
    }
    assert_eq!(rt; deleted(&rt, &catalog, counted(&rt)), 10);
    Ok(())
}

#[test]
fn updates(rt: HostRuntime) -> Result<(), Fail> {
    let catalog = catalog(rt.alloc()).ok().ok_or("memory")?;
    for (first, second, code) in [("k", "v", 6), ("k", "k", 8), ("x", "k", 4), ("v", "x", 4)] {
        let mut sets = ArrayVec::new();
        sets.push((name(&rt, first), 1));
        sets.push((name(&rt, second), 1));
        let update = Update {
            table: Name::new("t"),
            sets,
            filter: Some(2),
            nodes: equality(&rt, None, "k", Literal::Int(1)),
        };
        match bind_update(update, &catalog) {
            Ok(_) => panic!(rt; "not refused"),
            Err(error) => assert_eq!(rt; error.code, code),
        }
    }
    let mut sets = ArrayVec::new();
    sets.push((Name::new("v"), 1));
    let update = Update {
        table: Name::new("t"),
        sets,
        filter: None,
        nodes: equality(&rt, None, "v", text()),
    };
    match bind_update(update, &catalog) {
        Ok(bound) => {
            assert!(rt; bound.targets.as_slice() == [1].as_slice());
            match bound.places.as_slice() {
                [first, ..] => assert_eq!(rt; *first, (255, 1)),
                [] => panic!(rt; "no places"),
            }
        }
        Err(error) => panic!(rt; "refused by {}", error.code),
    }
    Ok(())
}

#[test]
fn new_tables(rt: HostRuntime) -> Result<(), Fail> {
    let catalog = catalog(rt.alloc()).ok().ok_or("memory")?;
    for (table, second, primary, code) in [
        ("u", "b", false, 0),
        ("t", "a", true, 8),
        ("u", "a", true, 8),
        ("u", "b", true, 9),
    ] {
        let mut columns = ArrayVec::new();
        columns.push(NewColumn {
            column: column(Name::new("a"), SqlType::Integer),
            primary: true,
            unique: true,
        });
        columns.push(NewColumn {
            column: column(name(&rt, second), SqlType::Integer),
            primary,
            unique: false,
        });
        let table = NewTable {
            name: name(&rt, table),
            columns,
        };
        let said = match refuse_table(&table, &catalog) {
            Some(error) => error.code,
            None => 0,
        };
        assert_eq!(rt; said, code);
    }
    Ok(())
}

#[test]
fn new_indexes(rt: HostRuntime) -> Result<(), Fail> {
    let catalog = catalog(rt.alloc()).ok().ok_or("memory")?;
    // keys of 512 and of 513 bytes among them
    let cases: [(&str, &[&str], u8); 7] = [
        ("t", &["v", "k"], 0),
        ("u", &["k"], 3),
        ("t", &["k", "x"], 4),
        ("t", &["k", "k"], 8),
        ("t", &["k", "k", "x"], 4),
        ("w", &["a", "b"], 0),
        ("w", &["a", "c"], 25),
    ];
    for (table, names, code) in cases {
        let mut columns = ArrayVec::new();
        for column in names {
            if columns.try_push(name(&rt, column)).is_err() {
                panic!(rt; "too many columns");
            }
        }
        let index = NewIndex {
            name: Name::new("i"),
            table: name(&rt, table),
            unique: true,
            columns,
        };
        let mut numbers = ArrayVec::new();
        let said = match place_index(&index, &catalog, &mut numbers) {
            Ok(_) => 0,
            Err(error) => error.code,
        };
        assert_eq!(rt; said, code);
    }
    Ok(())
}

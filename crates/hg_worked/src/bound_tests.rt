//! A statement that is read and bound, as `slow_select` asks: this one by hand.
ghost use Rattle.std.specs.Prelude.{◌≡◌, [], ◌∷◌, IfOk};
ghost use Rattle.hg_model.specs.Query.{query_of};
ghost use Rattle.hg_slow.specs.SlowTables.{rows_seen, table_of, tables_of};
ghost use Rattle.hg_worked.specs.Samples.{above_one, column_a, table_20, tables_20};

use arrayvec::ArrayVec;
use hg_model::{
    Cmp, ColRef, Column, FromTable, Literal, Name, Node, OrderBy, OrderKey, Select, SqlType, Value,
};
use hg_slow::{SlowTable, slow_select};
use std::alloc::{AllocError, Global};
use std::test::Fail;

fn row_of(alloc: Global, number: i128) -> Result<Vec<Value>, AllocError>
    ensures { IfOk result (λ v. v.items ≡ Value.Int number ∷ []) }
{
    let mut row = Vec::new(alloc);
    row.push(Value::Int(number))?;
    Ok(row)
}

fn rows_of_t(alloc: Global) -> Result<Vec<Vec<Value>>, AllocError>
    ensures { IfOk result (λ v. rows_seen v.items ≡ table_20.rows) }
{
    let mut rows = Vec::new(alloc);
    rows.push(row_of(alloc, 2)?)?;
    rows.push(row_of(alloc, 1)?)?;
    rows.push(row_of(alloc, 3)?)?;
    Ok(rows)
}

fn table_t(alloc: Global) -> Result<SlowTable, AllocError>
    ensures { IfOk result (λ t. table_of t ≡ table_20) }
{
    let rows = rows_of_t(alloc)?;
    let mut columns = Vec::new(alloc);
    columns.push(Column {
        name: Name::new("a"),
        ty: SqlType::Integer,
        not_null: false,
    })?;
    Ok(SlowTable {
        name: Name::new("t"),
        columns,
        rows,
    })
}

fn tables(alloc: Global) -> Result<Vec<SlowTable>, AllocError>
    ensures { IfOk result (λ v. tables_of v.items ≡ tables_20) }
{
    let table = table_t(alloc)?;
    let mut tables = Vec::new(alloc);
    tables.push(table)?;
    Ok(tables)
}

fn column_a() -> Node
    ensures { result ≡ column_a }
{
    Node::Col(ColRef {
        table: None,
        name: Name::new("a"),
    })
}

fn select_above_one() -> Select
    ensures { query_of result ≡ above_one }
{
    let mut tables = ArrayVec::new();
    tables.push(FromTable {
        table: Name::new("t"),
        alias: Name::new("t"),
        on: None,
    });
    let mut nodes = ArrayVec::new();
    nodes.push(column_a());
    nodes.push(Node::Lit(Literal::Int(1)));
    nodes.push(Node::Compare(Cmp::Gt, 0, 1));
    nodes.push(column_a());
    let mut order = ArrayVec::new();
    order.push(OrderKey {
        by: OrderBy::Column(3),
        descending: true,
    });
    Select {
        distinct: false,
        star: true,
        outputs: ArrayVec::new(),
        tables,
        filter: Some(2),
        group: ArrayVec::new(),
        having: None,
        order,
        nodes,
    }
}

#[test]
fn a_bound_statement(rt: HostRuntime) -> Result<(), Fail> {
    let alloc = rt.alloc();
    let tables = tables(alloc)?;
    let select = select_above_one();
    let rows = slow_select(alloc, &select, "", &tables)?;
    assert_eq!(rt; rows.len(), 2);
    assert!(rt; matches!(rows[0].first(), Some(Value::Int(3))));
    assert!(rt; matches!(rows[1].first(), Some(Value::Int(2))));
    Ok(())
}

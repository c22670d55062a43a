//! One catalog, with what each call answers worked out by hand.
ghost use Rattle.std.specs.Prelude.{◌≡◌, ◌<◌, [], ◌∷◌, false, IfOk, length};
ghost use Rattle.hg_catalog.specs.Contents.{IsNewTable};
ghost use Rattle.hg_model.specs.declared.trees.SqlType.TheVariants.{Integer};

use crate::Catalog;
use arrayvec::ArrayVec;
use hg_base::{File, Index, NoMemory, Table, Tree};
use hg_model::{Column, Name, SqlType};
use std::alloc::Global;
use std::process::Abort;
use std::test::Fail;

/// A list of one column of INTEGER.
fn one_column(name: Name) -> ArrayVec<Column, 16>
    ensures items { result.items ≡ record { name = name; ty = Integer; not_null = false } ∷ [] }
    ensures fits { IsNewTable result.items }
{
    let mut columns = ArrayVec::new();
    columns.push(Column {
        name,
        ty: SqlType::Integer,
        not_null: false,
    });
    columns
}

/// Adds a table of one column, whose name has to be free.
fn add(rt: &impl Abort, catalog: &mut Catalog, name: Name) {
    if catalog.table_count() < 64 && catalog.table(&name).is_none() {
        catalog.add_table(name, one_column(Name::new("k")));
    } else {
        panic!(rt; "no room, or the name is taken");
    }
}

/// A catalog of a table and an index without a name on its column.
fn with_index(alloc: Global) -> Result<Catalog, NoMemory>
    ensures { IfOk result (λ c. (length c.tables ≡ 1) × (length c.indexes ≡ 1)) }
{
    let mut catalog = Catalog::new(alloc)?;
    catalog.add_table(Name::new("t"), one_column(Name::new("k")));
    let mut columns = ArrayVec::new();
    columns.push(0);
    let tree = Tree {
        file: File::Main,
        top: 7,
    };
    catalog.add_index(
        None,
        0,
        Index {
            tree,
            columns,
            unique: true,
        },
    );
    Ok(catalog)
}

#[test]
fn tables_and_indexes_in_order_of_creation(rt: HostRuntime) -> Result<(), Fail> {
    let mut catalog = Catalog::new(rt.alloc()).ok().ok_or("memory")?;
    assert_eq!(rt; catalog.table_count(), 0);
    assert!(rt; catalog.table(&Name::new("t")).is_none());
    add(&rt, &mut catalog, Name::new("t"));
    add(&rt, &mut catalog, Name::new("u"));
    assert_eq!(rt; catalog.table_count(), 2);
    for (name, number) in [("t", Some(0)), ("u", Some(1)), ("k", None)] {
        assert_eq!(rt; catalog.table(&Name::parse(name).ok_or("a name")?), number);
    }
    Ok(())
}

#[test]
fn where_pages_stand(rt: HostRuntime) -> Result<(), Fail> {
    let mut catalog = with_index(rt.alloc()).ok().ok_or("memory")?;
    assert_eq!(rt; (catalog.table_count(), catalog.index_count()), (1, 1));
    assert_eq!(rt; catalog.table_name(0).as_str(), "t");
    assert_eq!(rt; catalog.columns(0).len(), 1);
    assert_eq!(rt; catalog.table_data(0).first, None);
    catalog.set_table_data(
        0,
        Table {
            first: Some(3),
            last: Some(5),
        },
    );
    assert_eq!(rt; catalog.table_data(0).last, Some(5));
    assert_eq!(rt; catalog.index_table(0), 0);
    assert!(rt; catalog.index_name(0).is_none());
    let mut index = catalog.index(0);
    assert_eq!(rt;
        (index.tree.top, index.columns.len(), index.unique),
        (7, 1, true)
    );
    index.tree.top = 9;
    catalog.set_index(0, index);
    assert_eq!(rt; catalog.index(0).tree.top, 9);
    Ok(())
}

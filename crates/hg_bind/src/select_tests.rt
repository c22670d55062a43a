//! SELECTs, each written with operators behind their operands, with what binding answers worked out by
//! hand. The tables: `t (k INTEGER, v VARCHAR(10))`, `e` of eight and `f` of nine columns of INTEGER, `l` and
//! `m` of fifteen columns of VARCHAR(255) and one of VARCHAR(43) or VARCHAR(44): 3,900 and 3,901 bytes.
ghost use Rattle.std.specs.Prelude.{◌≡◌, ◌≤◌, [], ◌∷◌, codes, false, IfOk, length, map};
ghost use Rattle.std.specs.List.{range_with_len};
ghost use Rattle.hg_catalog.specs.Contents.{IsNewTable};

use crate::{BindError, BoundSelect, bind_select};
use arrayvec::ArrayVec;
use hg_base::NoMemory;
use hg_catalog::Catalog;
use hg_model::{
    Cmp, ColRef, Column, Fold, FromTable, Literal, Name, Node, Op, OrderBy, OrderKey, Output,
    Select, Span, SqlType,
};
use std::alloc::Global;
use std::process::Abort;
use std::test::Fail;

pub fn column(name: Name, ty: SqlType) -> Column
    ensures { result ≡ record { name = name; ty = ty; not_null = false } }
{
    Column {
        name,
        ty,
        not_null: false,
    }
}

pub fn add(rt: &impl Abort, catalog: &mut Catalog, name: Name, columns: ArrayVec<Column, 16>)
    requires { IsNewTable columns.items }
{
    if catalog.table_count() < 64 && catalog.table(&name).is_none() {
        catalog.add_table(name, columns);
    } else {
        panic!(rt; "no room, or the name is taken");
    }
}

/// The columns of t.
fn two() -> ArrayVec<Column, 16>
    ensures { IsNewTable result.items }
{
    let mut columns = ArrayVec::new();
    columns.push(column(Name::new("k"), SqlType::Integer));
    columns.push(column(Name::new("v"), SqlType::Varchar(10)));
    columns
}

/// The columns of e.
fn eight() -> ArrayVec<Column, 16>
    ensures { IsNewTable result.items }
{
    let mut columns = ArrayVec::new();
    columns.push(column(Name::new("c0"), SqlType::Integer));
    columns.push(column(Name::new("c1"), SqlType::Integer));
    columns.push(column(Name::new("c2"), SqlType::Integer));
    columns.push(column(Name::new("c3"), SqlType::Integer));
    columns.push(column(Name::new("c4"), SqlType::Integer));
    columns.push(column(Name::new("c5"), SqlType::Integer));
    columns.push(column(Name::new("c6"), SqlType::Integer));
    columns.push(column(Name::new("c7"), SqlType::Integer));
    columns
}

/// The columns of f.
fn nine() -> ArrayVec<Column, 16>
    ensures { IsNewTable result.items }
{
    let mut columns = ArrayVec::new();
    columns.push(column(Name::new("p0"), SqlType::Integer));
    columns.push(column(Name::new("p1"), SqlType::Integer));
    columns.push(column(Name::new("p2"), SqlType::Integer));
    columns.push(column(Name::new("p3"), SqlType::Integer));
    columns.push(column(Name::new("p4"), SqlType::Integer));
    columns.push(column(Name::new("p5"), SqlType::Integer));
    columns.push(column(Name::new("p6"), SqlType::Integer));
    columns.push(column(Name::new("p7"), SqlType::Integer));
    columns.push(column(Name::new("p8"), SqlType::Integer));
    columns
}

/// The columns of l and m: fifteen of VARCHAR(255), and one more.
fn sixteen(last: u8) -> ArrayVec<Column, 16>
    ensures { IsNewTable result.items }
{
    let mut columns = ArrayVec::new();
    columns.push(column(Name::new("d0"), SqlType::Varchar(255)));
    columns.push(column(Name::new("d1"), SqlType::Varchar(255)));
    columns.push(column(Name::new("d2"), SqlType::Varchar(255)));
    columns.push(column(Name::new("d3"), SqlType::Varchar(255)));
    columns.push(column(Name::new("d4"), SqlType::Varchar(255)));
    columns.push(column(Name::new("d5"), SqlType::Varchar(255)));
    columns.push(column(Name::new("d6"), SqlType::Varchar(255)));
    columns.push(column(Name::new("d7"), SqlType::Varchar(255)));
    columns.push(column(Name::new("d8"), SqlType::Varchar(255)));
    columns.push(column(Name::new("d9"), SqlType::Varchar(255)));
    columns.push(column(Name::new("d10"), SqlType::Varchar(255)));
    columns.push(column(Name::new("d11"), SqlType::Varchar(255)));
    columns.push(column(Name::new("d12"), SqlType::Varchar(255)));
    columns.push(column(Name::new("d13"), SqlType::Varchar(255)));
    columns.push(column(Name::new("d14"), SqlType::Varchar(255)));
    columns.push(column(Name::new("d15"), SqlType::Varchar(last)));
    columns
}

fn catalog(rt: &impl Abort, alloc: Global) -> Result<Catalog, NoMemory> {
    let mut catalog = Catalog::new(alloc)?;
    add(rt, &mut catalog, Name::new("t"), two());
    add(rt, &mut catalog, Name::new("e"), eight());
    add(rt, &mut catalog, Name::new("f"), nine());
    add(rt, &mut catalog, Name::new("l"), sixteen(43));
    add(rt, &mut catalog, Name::new("m"), sixteen(44));
    Ok(catalog)
}

fn name(rt: &impl Abort, text: &str) -> Name {
    match Name::parse(text) {
        Some(name) => name,
        None => panic!(rt; "{text} is no name"),
    }
}

/// Which part of a SELECT is being read.
#[derive(Clone, Copy)]
enum Clause {
    Outputs,
    From,
    On,
    Where,
    Group,
    Having,
    Order,
}

/// A SELECT as far as it is read: the operands that wait for their operator, and what the item that is being
/// read has beside its expression.
#[derive(Drop)]
struct Reader {
    select: Select,
    clause: Clause,
    waiting: ArrayVec<u8, 32>,
    table: Option<Name>,
    alias: Option<Name>,
    is_name: bool,
    position: u32,
    descending: bool,
}

fn push<T: Drop, const N: usize>(rt: &impl Abort, list: &mut ArrayVec<T, N>, item: T) {
    if list.try_push(item).is_err() {
        panic!(rt; "a list is full");
    }
}

fn empty() -> Select {
    Select {
        distinct: false,
        star: false,
        outputs: ArrayVec::new(),
        tables: ArrayVec::new(),
        filter: None,
        group: ArrayVec::new(),
        having: None,
        order: ArrayVec::new(),
        nodes: ArrayVec::new(),
    }
}

impl Reader {
    fn take(&mut self, rt: &impl Abort) -> u8 {
        match self.waiting.pop() {
            Some(node) => node,
            None => panic!(rt; "no operand"),
        }
    }

    fn node(&mut self, rt: &impl Abort, node: Node) {
        let place = self.select.nodes.len() as u8;
        push(rt, &mut self.select.nodes, node);
        push(rt, &mut self.waiting, place);
    }

    fn column(&mut self, rt: &impl Abort, word: &str) {
        let (table, column) = match word.split_once('.') {
            Some((table, column)) => (Some(name(rt, table)), column),
            None => (None, word),
        };
        self.node(
            rt,
            Node::Col(ColRef {
                table,
                name: name(rt, column),
            }),
        );
    }

    fn one(&mut self, rt: &impl Abort, word: &str) {
        let a = self.take(rt);
        let node = match word {
            "neg" => Node::Neg(a),
            "not" => Node::Not(a),
            "isnull" => Node::IsNull(a),
            "notnull" => Node::NotNull(a),
            "count" => Node::Aggregate(Fold::Count, Some(a)),
            "sum" => Node::Aggregate(Fold::Sum, Some(a)),
            "min" => Node::Aggregate(Fold::Min, Some(a)),
            _ => Node::Aggregate(Fold::Max, Some(a)),
        };
        self.node(rt, node);
    }

    fn two(&mut self, rt: &impl Abort, word: &str) {
        let b = self.take(rt);
        let a = self.take(rt);
        let node = match word {
            "+" => Node::Arith(Op::Add, a, b),
            "*" => Node::Arith(Op::Mul, a, b),
            "=" => Node::Compare(Cmp::Eq, a, b),
            "<" => Node::Compare(Cmp::Lt, a, b),
            "and" => Node::Both(a, b),
            _ => Node::Either(a, b),
        };
        self.node(rt, node);
    }

    /// A word of an expression. `93` and `94` are 2 to these powers; `'9` is a text of nine letters.
    fn expression(&mut self, rt: &impl Abort, word: &str) {
        match word {
            "0" => self.node(rt, Node::Lit(Literal::Int(0))),
            "1" => self.node(rt, Node::Lit(Literal::Int(1))),
            "93" => self.node(rt, Node::Lit(Literal::Int(1 << 93))),
            "94" => self.node(rt, Node::Lit(Literal::Int(1 << 94))),
            "'1" => self.node(rt, Node::Lit(Literal::Text(Span { at: 0, len: 1 }))),
            "'9" => self.node(rt, Node::Lit(Literal::Text(Span { at: 0, len: 9 }))),
            "'10" => self.node(rt, Node::Lit(Literal::Text(Span { at: 0, len: 10 }))),
            "null" => self.node(rt, Node::Lit(Literal::Null)),
            "count*" => self.node(rt, Node::Aggregate(Fold::CountRows, None)),
            "neg" | "not" | "isnull" | "notnull" | "count" | "sum" | "min" | "max" => {
                self.one(rt, word)
            }
            "+" | "*" | "=" | "<" | "and" | "or" => self.two(rt, word),
            _ => self.column(rt, word),
        }
    }

    fn from_word(&mut self, rt: &impl Abort, word: &str) {
        if self.table.is_none() {
            self.table = Some(name(rt, word));
        } else {
            self.alias = Some(name(rt, word));
        }
    }

    fn order_word(&mut self, rt: &impl Abort, word: &str) {
        match word {
            "desc" => self.descending = true,
            "#0" => self.position = 1000,
            "#1" => self.position = 1,
            "#2" => self.position = 2,
            "#16" => self.position = 16,
            "#17" => self.position = 17,
            _ => self.column(rt, word),
        }
    }

    fn end_table(&mut self, rt: &impl Abort, on: Option<u8>) {
        let table = match self.table.take() {
            Some(table) => table,
            None => panic!(rt; "no table"),
        };
        let alias = match self.alias.take() {
            Some(alias) => alias,
            None => table.copy(),
        };
        push(rt, &mut self.select.tables, FromTable { table, alias, on });
    }

    fn end_key(&mut self, rt: &impl Abort) {
        let by = match self.position {
            0 => OrderBy::Column(self.take(rt)),
            1000 => OrderBy::Position(0),
            position => OrderBy::Position(position),
        };
        let descending = self.descending;
        push(rt, &mut self.select.order, OrderKey { by, descending });
        self.position = 0;
        self.descending = false;
    }

    fn end_output(&mut self, rt: &impl Abort) {
        if let Some(node) = self.waiting.pop() {
            let name = self.alias.take();
            push(rt, &mut self.select.outputs, Output { node, name });
        }
    }

    /// Ends an item of a clause.
    fn end_item(&mut self, rt: &impl Abort) {
        match self.clause {
            Clause::Outputs => self.end_output(rt),
            Clause::From => self.end_table(rt, None),
            Clause::On => {
                let on = self.take(rt);
                self.end_table(rt, Some(on));
                self.clause = Clause::From;
            }
            Clause::Where => self.select.filter = Some(self.take(rt)),
            Clause::Group => {
                let node = self.take(rt);
                push(rt, &mut self.select.group, node);
            }
            Clause::Having => self.select.having = Some(self.take(rt)),
            Clause::Order => self.end_key(rt),
        }
    }

    fn begin(&mut self, rt: &impl Abort, clause: Clause) {
        self.end_item(rt);
        self.clause = clause;
    }

    fn item_word(&mut self, rt: &impl Abort, word: &str) {
        if self.is_name {
            self.alias = Some(name(rt, word));
            self.is_name = false;
            return;
        }
        match self.clause {
            Clause::From => self.from_word(rt, word),
            Clause::Order => self.order_word(rt, word),
            _ => self.expression(rt, word),
        }
    }

    fn word(&mut self, rt: &impl Abort, word: &str) {
        match word {
            "distinct" => self.select.distinct = true,
            "star" => self.select.star = true,
            "as" => self.is_name = true,
            "," => self.end_item(rt),
            "from" => self.begin(rt, Clause::From),
            "on" => self.clause = Clause::On,
            "where" => self.begin(rt, Clause::Where),
            "group" => self.begin(rt, Clause::Group),
            "having" => self.begin(rt, Clause::Having),
            "order" => self.begin(rt, Clause::Order),
            _ => self.item_word(rt, word),
        }
    }
}

/// Reads a SELECT, from behind the word itself.
fn read(rt: &impl Abort, text: &str) -> Select {
    let mut reader = Reader {
        select: empty(),
        clause: Clause::Outputs,
        waiting: ArrayVec::new(),
        table: None,
        alias: None,
        is_name: false,
        position: 0,
        descending: false,
    };
    for word in text.split_whitespace() {
        reader.word(rt, word);
    }
    reader.end_item(rt);
    reader.select
}

/// What an error line says: its code, and behind it the name or the number of outputs.
pub fn said(error: &BindError) -> (u8, &str, &str) {
    match &error.name {
        Some(column) => match &column.table {
            Some(table) => (error.code, table.as_str(), column.name.as_str()),
            None => (error.code, "", column.name.as_str()),
        },
        None => (error.code, "", ""),
    }
}

pub fn bound(rt: &impl Abort, catalog: &Catalog, text: &str) -> Result<BoundSelect, BindError> {
    let select = read(rt, text);
    if select.nodes.len() > 96 {
        panic!(rt; "too many nodes");
    }
    bind_select(select, catalog)
}

/// A statement with its code, and the table and the name behind it.
type Refused = (&'static str, u8, &'static str, &'static str);

/// Statements that are refused, each with its code and the name behind it.
const REFUSED_TABLES: [Refused; 13] = [
    // unknown tables, from left to right, before all else
    ("star from u", 3, "", "u"),
    ("x from u , t , t", 3, "", "u"),
    ("x from t , t , u", 3, "", "u"),
    ("star from t , u , z", 3, "", "u"),
    // names that have stood before in FROM
    ("star from t , t", 8, "", "t"),
    ("x from t , t", 8, "", "t"),
    ("star from t a , e b , t a", 8, "", "a"),
    ("k from t a , e b , f b , t a", 8, "", "b"),
    ("star from e , f , e", 8, "", "e"),
    // seventeen outputs of a star
    ("star from e , f", 9, "", ""),
    ("star from e , f where x", 9, "", ""),
    ("star from e , f order #17", 9, "", ""),
    ("star from l , t", 9, "", ""),
];

const REFUSED_COLUMNS: [Refused; 16] = [
    // columns that are not there, in each place
    ("x from t", 4, "", "x"),
    ("k , x 1 + from t", 4, "", "x"),
    ("t.x from t", 4, "t", "x"),
    ("u.k from t", 4, "u", "k"),
    ("t.k from t a", 4, "t", "k"),
    ("k from t , e on x 1 =", 4, "", "x"),
    ("k from t where x 1 =", 4, "", "x"),
    ("k from t where k '1 = x 1 = and", 4, "", "x"),
    ("k from t group x", 4, "", "x"),
    ("k from t group k having x 1 =", 4, "", "x"),
    ("k from t order x", 4, "", "x"),
    ("x sum from t", 4, "", "x"),
    ("y , x from t", 4, "", "y"),
    ("k from t where y x =", 4, "", "y"),
    // columns of a later table in ON
    ("a.k from t a , t b on c.k a.k = , t c", 4, "c", "k"),
    ("a.k from t a , t b on c0 a.k = , e", 4, "", "c0"),
];

const REFUSED_KEYS: [Refused; 19] = [
    // columns that several tables have
    ("k from t a , t b", 5, "", "k"),
    ("a.k , v from t a , t b", 5, "", "v"),
    ("a.k from t a , t b on k 1 =", 5, "", "k"),
    ("a.k from t a , t b where v '1 =", 5, "", "v"),
    ("a.k from t a , t b group k", 5, "", "k"),
    ("a.k from t a , t b order v", 5, "", "v"),
    ("a.k from t a , t b order k , v", 5, "", "v"),
    ("x , k from t a , t b", 4, "", "x"),
    ("k , x from t a , t b", 5, "", "k"),
    // names of ORDER BY
    ("k as x , v as x from t order x", 5, "", "x"),
    ("a.k , b.k from t a , t b order k", 5, "", "k"),
    ("star from t a , t b order k", 5, "", "k"),
    ("star from t order x", 4, "", "x"),
    ("star from t a order t.k", 4, "t", "k"),
    ("distinct k from t order v", 4, "", "v"),
    ("k from t group k order v", 4, "", "v"),
    ("count* from t order k", 4, "", "k"),
    ("k as x from t order t.x", 4, "t", "x"),
    ("k 1 + as k , k from t order k", 5, "", "k"),
];

const REFUSED_LATER: [Refused; 17] = [
    // positions outside the outputs, behind every name
    ("k from t order #0", 22, "", ""),
    ("k from t order #2", 22, "", ""),
    ("star from t order #16", 22, "", ""),
    ("k from t order #0 , x", 4, "", "x"),
    ("k '1 + from t order #2", 22, "", ""),
    // types
    ("k '1 + from t", 6, "", ""),
    ("v neg from t", 6, "", ""),
    ("v sum from t", 6, "", ""),
    ("k v = from t", 6, "", ""),
    ("k 1 = from t", 6, "", ""),
    ("k from t where k", 6, "", ""),
    ("k from t where null", 6, "", ""),
    ("k from t where k v =", 6, "", ""),
    ("a.k from t a , t b on a.k", 6, "", ""),
    ("k from t group k having count*", 6, "", ""),
    ("k 1 = isnull from t", 6, "", ""),
    ("k from t where v sum 1 =", 6, "", ""),
];

const REFUSED_LAST: [Refused; 9] = [
    // grouping
    ("k , count* from t", 10, "", ""),
    ("star from t group k", 10, "", ""),
    ("k from t group k having v '1 =", 10, "", ""),
    ("k from t where count* 1 =", 10, "", ""),
    ("k sum max from t", 10, "", ""),
    ("k 94 * , count* from t", 10, "", ""),
    // widths, and then lengths
    ("k 94 * from t", 7, "", ""),
    ("star from m where d0 isnull k 94 * 1 = or", 4, "", "k"),
    ("star from m", 23, "", ""),
];

const NONE: (u8, u8) = (255, 255);

/// Each statement that is bound, with the place of each of its nodes and the number of its outputs.
const BOUND: [(&str, &[(u8, u8)], usize); 30] = [
    ("k from t", &[(0, 0)], 1),
    ("v , k from t", &[(0, 1), (0, 0)], 2),
    ("t.k from t", &[(0, 0)], 1),
    ("a.k from t a", &[(0, 0)], 1),
    ("k 1 + from t", &[(0, 0), NONE, NONE], 1),
    ("star from t", &[(0, 0), (0, 1)], 2),
    ("star from t a , t b", &[(0, 0), (0, 1), (1, 0), (1, 1)], 4),
    (
        "star from t , t b where b.k 1 =",
        &[(1, 0), NONE, NONE, (0, 0), (0, 1), (1, 0), (1, 1)],
        4,
    ),
    ("a.v , b.k from t a , t b", &[(0, 1), (1, 0)], 2),
    ("c7 , p8 from e , f", &[(0, 7), (1, 8)], 2),
    (
        "a.k from t a , t b on a.k b.k =",
        &[(0, 0), (0, 0), (1, 0), NONE],
        1,
    ),
    (
        "a.k from t a on k 1 = , t b",
        &[(0, 0), (0, 0), NONE, NONE],
        1,
    ),
    (
        "a.k from t a on v '1 = , t b on a.k b.k =",
        &[(0, 0), (0, 1), NONE, NONE, (0, 0), (1, 0), NONE],
        1,
    ),
    // names of ORDER BY that are outputs, and such that are columns of FROM
    ("k from t order k", &[(0, 0), NONE], 1),
    ("k from t order v", &[(0, 0), (0, 1)], 1),
    ("k as x from t order x desc", &[(0, 0), NONE], 1),
    ("k as v from t order v", &[(0, 0), NONE], 1),
    ("k 1 + as x from t order x", &[(0, 0), NONE, NONE, NONE], 1),
    ("k , k from t order k", &[(0, 0), (0, 0), NONE], 2),
    ("k as x , k as x from t order x", &[(0, 0), (0, 0), NONE], 2),
    ("star from t order v", &[NONE, (0, 0), (0, 1)], 2),
    (
        "star from t a , t b order b.v",
        &[NONE, (0, 0), (0, 1), (1, 0), (1, 1)],
        4,
    ),
    ("distinct k from t order k", &[(0, 0), NONE], 1),
    ("k , v from t order #1 , #2", &[(0, 0), (0, 1)], 2),
    ("k as x from t order t.k", &[(0, 0), NONE], 1),
    // grouping, and NULL
    ("k , count* from t group k", &[(0, 0), NONE, (0, 0)], 2),
    (
        "star from t group k , v",
        &[(0, 0), (0, 1), (0, 0), (0, 1)],
        2,
    ),
    (
        "k sum from t having count* 1 =",
        &[(0, 0), NONE, NONE, NONE, NONE],
        1,
    ),
    (
        "v max from t where k isnull",
        &[(0, 1), NONE, (0, 0), NONE],
        1,
    ),
    ("null from t where v null =", &[NONE, (0, 1), NONE, NONE], 1),
];

/// The limits, each met and passed by one: the widths 126 and 127, outputs of a star, positions, and the
/// three sums of lengths.
const LIMITS: [(&str, u8); 16] = [
    ("k 93 * from t", 0),
    ("k 94 * from t", 7),
    ("k 93 * 1 = from t", 6),
    ("k from t where k 94 * 1 =", 7),
    ("k 93 * sum from t", 7),
    ("k sum from t", 0),
    ("star from e , e g", 0),
    ("star from e , f", 9),
    ("star from l", 0),
    ("star from m", 23),
    (
        "d0 , d1 , d2 , d3 , d4 , d5 , d6 , d7 , d8 , d9 , d10 , d11 , d12 , d13 , d14 , d15 from l",
        0,
    ),
    (
        "d0 , d1 , d2 , d3 , d4 , d5 , d6 , d7 , d8 , d9 , d10 , d11 , d12 , d13 , d14 , d15 from m",
        23,
    ),
    (
        "count* , count* , '9 max from l group d0 , d1 , d2 , d3 , d4 , d5 , d6 , d7 , d8 , d9 , d10 , d11 , d12 , d13 , d14",
        0,
    ),
    (
        "count* , count* , '10 max from l group d0 , d1 , d2 , d3 , d4 , d5 , d6 , d7 , d8 , d9 , d10 , d11 , d12 , d13 , d14",
        23,
    ),
    ("star from e , e g order #16", 0),
    ("star from e , e g order #17", 22),
];

fn refuse_all(rt: &impl Abort, catalog: &Catalog, cases: &[Refused]) {
    for (text, code, table, column) in cases {
        match bound(rt, catalog, text) {
            Ok(_) => panic!(rt; "{text} is bound"),
            Err(error) => {
                let words = said(&error);
                if words != (*code, *table, *column) {
                    panic!(rt; "{text}: {} {}", words.0, words.2);
                }
            }
        }
    }
}

#[test]
fn refused_selects(rt: HostRuntime) -> Result<(), Fail> {
    let catalog = catalog(&rt, rt.alloc()).ok().ok_or("memory")?;
    refuse_all(&rt, &catalog, &REFUSED_TABLES);
    refuse_all(&rt, &catalog, &REFUSED_COLUMNS);
    refuse_all(&rt, &catalog, &REFUSED_KEYS);
    refuse_all(&rt, &catalog, &REFUSED_LATER);
    refuse_all(&rt, &catalog, &REFUSED_LAST);
    Ok(())
}

#[test]
fn bound_selects(rt: HostRuntime) -> Result<(), Fail> {
    let catalog = catalog(&rt, rt.alloc()).ok().ok_or("memory")?;
    for (text, places, outputs) in BOUND {
        match bound(&rt, &catalog, text) {
            Ok(bound) => {
                if bound.places.as_slice() != places || bound.select.outputs.len() != outputs {
                    panic!(rt; "{text} has other places");
                }
                if bound.select.star || bound.select.nodes.len() != places.len() {
                    panic!(rt; "{text} is not written out");
                }
            }
            Err(error) => panic!(rt; "{text}: {}", error.code),
        }
    }
    Ok(())
}

#[test]
fn limits_of_selects(rt: HostRuntime) -> Result<(), Fail> {
    let catalog = catalog(&rt, rt.alloc()).ok().ok_or("memory")?;
    for (text, code) in LIMITS {
        let said = match bound(&rt, &catalog, text) {
            Ok(_) => 0,
            Err(error) => error.code,
        };
        if said != code {
            panic!(rt; "{text}: {said}");
        }
    }
    Ok(())
}

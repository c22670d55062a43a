//! The trees of statements. A node's children stand before it in the list and are named by their
//! index. Contracts see every list as the list of its items.
use crate::names::Name;
use arrayvec::{ArrayString, ArrayVec};

/// The three values of a condition.
#[derive(Clone, Copy, Default)]
pub enum Truth {
    True,
    #[default]
    False,
    Unknown,
}

/// The type of a column. The number is the most characters that it holds, 1 to 255.
#[derive(Clone, Copy, Default)]
pub enum SqlType {
    #[default]
    Integer,
    Varchar(u8),
}

/// A column of a table.
#[derive(Drop, Default)]
pub struct Column {
    pub name: Name,
    pub ty: SqlType,
    pub not_null: bool,
}

/// A part of the texts of a statement.
#[derive(Clone, Copy, Default)]
pub struct Span {
    pub at: u16,
    pub len: u16,
}

/// A constant as it is written. A text stands among the texts of its statement.
#[derive(Clone, Copy, Default)]
pub enum Literal {
    #[default]
    Null,
    Int(i128),
    Text(Span),
}

#[derive(Clone, Copy, Default)]
pub enum Op {
    #[default]
    Add,
    Sub,
    Mul,
}

#[derive(Clone, Copy, Default)]
pub enum Cmp {
    #[default]
    Eq,
    Ne,
    Lt,
    Le,
    Gt,
    Ge,
}

/// An aggregate. `CountRows` is `COUNT(*)`, the only one without an operand.
#[derive(Clone, Copy, Default)]
pub enum Fold {
    #[default]
    CountRows,
    Count,
    Sum,
    Min,
    Max,
}

/// A column's name, with its table's alias where it is written.
#[derive(Drop, Default)]
pub struct ColRef {
    pub table: Option<Name>,
    pub name: Name,
}

/// One node of an expression. `Both` is AND, `Either` is OR.
#[derive(Drop)]
pub enum Node {
    Lit(Literal),
    Col(ColRef),
    Neg(u8),
    Arith(Op, u8, u8),
    Compare(Cmp, u8, u8),
    Both(u8, u8),
    Either(u8, u8),
    Not(u8),
    IsNull(u8),
    NotNull(u8),
    Aggregate(Fold, Option<u8>),
}

/// The nodes of one statement: 96 of a line, and 16 for a star that is written out.
pub type Nodes = ArrayVec<Node, 112>;

/// A column of CREATE TABLE, with its keys.
#[derive(Drop, Default)]
pub struct NewColumn {
    pub column: Column,
    pub primary: bool,
    pub unique: bool,
}

#[derive(Drop)]
pub struct NewTable {
    pub name: Name,
    pub columns: ArrayVec<NewColumn, 16>,
}

#[derive(Drop)]
pub struct NewIndex {
    pub name: Name,
    pub table: Name,
    pub unique: bool,
    pub columns: ArrayVec<Name, 16>,
}

/// An INSERT. `ends[i]` is the index behind the last value of row i. No `columns` means all.
#[derive(Drop)]
pub struct Insert {
    pub table: Name,
    pub columns: ArrayVec<Name, 16>,
    pub values: ArrayVec<Literal, 1024>,
    pub ends: ArrayVec<u16, 64>,
}

#[derive(Drop)]
pub struct Update {
    pub table: Name,
    pub sets: ArrayVec<(Name, u8), 16>,
    pub filter: Option<u8>,
    pub nodes: Nodes,
}

#[derive(Drop)]
pub struct Delete {
    pub table: Name,
    pub filter: Option<u8>,
    pub nodes: Nodes,
}

/// One output of a SELECT, with the name after its AS.
#[derive(Drop, Default)]
pub struct Output {
    pub node: u8,
    pub name: Option<Name>,
}

/// One table of FROM. Without an alias of its own its alias is the table's name.
#[derive(Drop, Default)]
pub struct FromTable {
    pub table: Name,
    pub alias: Name,
    pub on: Option<u8>,
}

/// What a key of ORDER BY names: the position of an output, from 1 on, or a column's name.
#[derive(Clone, Copy)]
pub enum OrderBy {
    Position(u32),
    Column(u8),
}

#[derive(Clone, Copy, Default)]
pub struct OrderKey {
    pub by: OrderBy,
    pub descending: bool,
}

/// A SELECT. With `star` it has no `outputs`.
#[derive(Drop)]
pub struct Select {
    pub distinct: bool,
    pub star: bool,
    pub outputs: ArrayVec<Output, 16>,
    pub tables: ArrayVec<FromTable, 4>,
    pub filter: Option<u8>,
    pub group: ArrayVec<u8, 16>,
    pub having: Option<u8>,
    pub order: ArrayVec<OrderKey, 8>,
    pub nodes: Nodes,
}

#[derive(Drop)]
pub enum Command {
    CreateTable(NewTable),
    CreateIndex(NewIndex),
    Insert(Insert),
    Update(Update),
    Delete(Delete),
    Vacuum(Name),
    Select(Select),
    OpenCursor(Name, Select),
    Start(Name, u32),
    Work(u32),
    Fetch(Name, u32),
    Close(Name),
    Pool(u32),
    Mpl(u32),
    ShowMemory,
}

/// A line that was read: its command, and its texts one after the other with quotes undoubled.
#[derive(Drop)]
pub struct Parsed {
    pub command: Command,
    pub texts: ArrayString<4096>,
}

/// What there can be too many of, in the order in which the parser reports it; the kinds behind
/// `Nodes` are found later than by the parser.
#[derive(Clone, Copy, PartialEq, Eq, Debug)]
pub enum Count {
    NameLetters,
    TextLetters,
    Columns,
    Rows,
    Values,
    TablesInFrom,
    Outputs,
    GroupColumns,
    OrderKeys,
    Nodes,
    PrimaryKeys,
    Tables,
    Indexes,
    Cursors,
    RowsGrouped,
}

impl Default for Node {
    ghost use Rattle.std.specs.Prelude.{◌≡◌};
    ghost use Rattle.hg_model.specs.declared.trees.Literal.TheVariants as literal;
    ghost use Rattle.hg_model.specs.declared.trees.Node.TheVariants as node;

    ghost is_default = { λ n. n ≡ node.Lit literal.Null };

    fn default() -> Node {
        Node::Lit(Literal::Null)
    }
}

impl Default for OrderBy {
    ghost use Rattle.std.specs.Prelude.{◌≡◌};
    ghost use Rattle.hg_model.specs.declared.trees.OrderBy.TheVariants.{Position};

    ghost is_default = { λ by. by ≡ Position 0 };

    fn default() -> OrderBy {
        OrderBy::Position(0)
    }
}

impl Column {
    ghost use Rattle.std.specs.Prelude.{◌≡◌};

    /// An equal column.
    pub fn copy(&self) -> Column
        ensures { result ≡ self.now }
    {
        Column {
            name: self.name.copy(),
            ty: self.ty,
            not_null: self.not_null,
        }
    }
}

impl ColRef {
    ghost use Rattle.std.specs.Prelude.{◌≡◌};

    /// An equal name.
    pub fn copy(&self) -> ColRef
        ensures { result ≡ self.now }
    {
        let table = match &self.table {
            Some(table) => Some(table.copy()),
            None => None,
        };
        ColRef {
            table,
            name: self.name.copy(),
        }
    }
}

impl Node {
    ghost use Rattle.std.specs.Prelude.{◌≡◌};

    /// An equal node.
    pub fn copy(&self) -> Node
        ensures { result ≡ self.now }
    {
        match self {
            Node::Lit(literal) => Node::Lit(*literal),
            Node::Col(column) => Node::Col(column.copy()),
            Node::Neg(a) => Node::Neg(*a),
            Node::Arith(op, a, b) => Node::Arith(*op, *a, *b),
            Node::Compare(cmp, a, b) => Node::Compare(*cmp, *a, *b),
            Node::Both(a, b) => Node::Both(*a, *b),
            Node::Either(a, b) => Node::Either(*a, *b),
            Node::Not(a) => Node::Not(*a),
            Node::IsNull(a) => Node::IsNull(*a),
            Node::NotNull(a) => Node::NotNull(*a),
            Node::Aggregate(fold, a) => Node::Aggregate(*fold, *a),
        }
    }
}

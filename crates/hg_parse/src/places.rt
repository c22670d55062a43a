//! Parts of a statement where they stand in the line. What they say is got from them when it is kept.
ghost use Rattle.std.specs.Prelude.{◌≡◌};
ghost use Rattle.hg_scan.specs.declared.piece.Kind.TheVariants as kind;

use hg_scan::Piece;

/// A name where it stands in the line.
#[derive(Clone, Copy)]
pub struct NameAt<'a> {
    pub piece: Piece<'a>,
    ghost is_name: { piece.kind ≡ kind.Name },
}

/// A number where it stands in the line.
#[derive(Clone, Copy)]
pub struct NumberAt<'a> {
    pub piece: Piece<'a>,
    ghost is_number: { piece.kind ≡ kind.Number },
}

/// A text where it stands in the line.
#[derive(Clone, Copy)]
pub struct TextAt<'a> {
    pub piece: Piece<'a>,
    ghost is_text: { piece.kind ≡ kind.Text },
}

/// A column's name, with its table's where it is written.
#[derive(Clone, Copy)]
pub struct ColumnAt<'a> {
    pub table: Option<NameAt<'a>>,
    pub name: NameAt<'a>,
}

/// A table of FROM with its alias.
#[derive(Clone, Copy)]
pub struct TableAt<'a> {
    pub table: NameAt<'a>,
    pub alias: NameAt<'a>,
}

/// What a key of ORDER BY names.
#[derive(Clone, Copy)]
pub enum KeyAt<'a> {
    Position(NumberAt<'a>),
    Column(u8),
}

/// The type of a column.
#[derive(Clone, Copy)]
pub enum TypeAt<'a> {
    Integer,
    Varchar(NumberAt<'a>),
}

/// The constraints of a column.
#[derive(Clone, Copy)]
pub struct Constraints {
    pub not_null: bool,
    pub primary: bool,
    pub unique: bool,
}

/// What a SELECT has beside its lists.
#[derive(Clone, Copy)]
pub struct HeadingAt {
    pub distinct: bool,
    pub star: bool,
    pub filter: Option<u8>,
    pub having: Option<u8>,
}

/// Which command was read, with what stands in no list.
#[derive(Clone, Copy)]
pub enum FormAt<'a> {
    Table(NameAt<'a>),
    Index(bool, NameAt<'a>, NameAt<'a>),
    Insert(NameAt<'a>),
    Update(NameAt<'a>, Option<u8>),
    Delete(NameAt<'a>, Option<u8>),
    Vacuum(NameAt<'a>),
    Select(HeadingAt),
    Open(NameAt<'a>, HeadingAt),
    Start(NameAt<'a>, NumberAt<'a>),
    Work(NumberAt<'a>),
    Fetch(NameAt<'a>, NumberAt<'a>),
    Close(NameAt<'a>),
    Pool(NumberAt<'a>),
    Mpl(NumberAt<'a>),
    Memory,
}

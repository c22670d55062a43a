//! Why a statement is refused.
ghost use Rattle.std.specs.Prelude.{◌≡◌};
ghost use Rattle.hg_model.specs.Refusal.{UnknownTable, UnknownColumn, AmbiguousColumn, NameTaken, TypeMismatch, TooWide, TooMany, NotGrouped, BadNumber, RowTooLong, KeyTooLong};
ghost use Rattle.hg_bind.specs.Bound.{error_of};

use hg_model::{ColRef, Count, Name};

/// The code of an error line, with the name or the kind that is written behind it.
#[derive(Drop)]
pub struct BindError {
    pub code: u8,
    pub name: Option<ColRef>,
    pub kind: Option<Count>,
}

fn with_name(code: u8, name: &Name) -> BindError
    ensures { result ≡ record { code = code; name = Some (record { table = None; name = name.now }); kind = None } }
{
    BindError {
        code,
        name: Some(ColRef {
            table: None,
            name: name.copy(),
        }),
        kind: None,
    }
}

pub fn unknown_table(name: &Name) -> BindError
    ensures { result ≡ error_of (UnknownTable name.now) }
{
    with_name(3, name)
}

/// A column's name, with its table's where it is written, that no column has.
pub fn unknown_reference(column: &ColRef) -> BindError
    ensures { result ≡ error_of (UnknownColumn column.now) }
{
    BindError {
        code: 4,
        name: Some(column.copy()),
        kind: None,
    }
}

/// A column's name, with its table's where it is written, that several columns have.
pub fn ambiguous_reference(column: &ColRef) -> BindError
    ensures { result ≡ error_of (AmbiguousColumn column.now) }
{
    BindError {
        code: 5,
        name: Some(column.copy()),
        kind: None,
    }
}

/// A column's name without a table that no column has.
pub fn unknown_column(name: &Name) -> BindError
    ensures { result ≡ error_of (UnknownColumn (record { table = None; name = name.now })) }
{
    with_name(4, name)
}

pub fn name_taken(name: &Name) -> BindError
    ensures { result ≡ error_of (NameTaken name.now) }
{
    with_name(8, name)
}

/// Too many of a kind.
pub fn too_many(kind: Count) -> BindError
    ensures { result ≡ error_of (TooMany kind) }
{
    BindError {
        code: 9,
        name: None,
        kind: Some(kind),
    }
}

fn without_words(code: u8) -> BindError
    ensures { result ≡ record { code = code; name = None; kind = None } }
{
    BindError {
        code,
        name: None,
        kind: None,
    }
}

pub fn type_mismatch() -> BindError
    ensures { result ≡ error_of TypeMismatch }
{
    without_words(6)
}

pub fn too_wide() -> BindError
    ensures { result ≡ error_of TooWide }
{
    without_words(7)
}

pub fn key_too_long() -> BindError
    ensures { result ≡ error_of KeyTooLong }
{
    without_words(25)
}

pub fn not_grouped() -> BindError
    ensures { result ≡ error_of NotGrouped }
{
    without_words(10)
}

/// A position in ORDER BY that is none of an output.
pub fn bad_number() -> BindError
    ensures { result ≡ error_of BadNumber }
{
    without_words(22)
}

pub fn row_too_long() -> BindError
    ensures { result ≡ error_of RowTooLong }
{
    without_words(23)
}

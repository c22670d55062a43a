//! Rows of constants, looked at where they lie.
ghost use Rattle.std.specs.Prelude.{◌≡◌, ◌≤◌, ◌-◌, [], length, take, drop};
ghost use Rattle.hg_model.specs.Changes.{value_length, row_length};
ghost use Rattle.hg_model.specs.Evaluation.{literal_value, part_of};
ghost use Rattle.hg_model.specs.NullLogic.{is_null};
ghost use Rattle.hg_model.specs.Tables.{fits_integer, fits_type};
ghost use Rattle.hg_value.specs.Looks.{value_of};
ghost use Rattle.hg_dml.specs.Tuples.{source_of, sources_of, value_in, row_from};

use arrayvec::ArrayVec;
use hg_model::{Column, Literal, Span, SqlType};
use hg_value::Look;

/// For each column of a table the place of its value in a row of constants; none where it is not listed.
pub type Sources = ArrayVec<Option<usize>, 16>;

/// The place of the value for a column.
fn source_of(targets: &[u8], column: u8) -> Option<usize>
    ensures { result ≡ source_of targets.now column }
{
    for place in 0..targets.len() {
        if targets[place] == column {
            return Some(place);
        }
    }
    None
}

/// Puts the place of the value for each column of a table into a list.
pub fn list_sources(targets: &[u8], width: usize, sources: &mut Sources)
    requires few { width ≤ 16 }
    requires empty { sources.old.items ≡ [] }
    ensures { sources.new.items ≡ sources_of targets.now width }
{
    for column in 0..width {
        sources.push(source_of(targets, column as u8));
    }
}

/// A part of the values: those from one place up to another.
#[inline]
pub fn tuple_between(values: &[Literal], from: u16, end: u16) -> &[Literal]
    ensures { result.now ≡ take (end - from) (drop from values.now) }
{
    let first = values.len().min(from as usize);
    let last = values.len().min(end as usize).max(first);
    &values[first..last]
}

/// The bytes of a text among the texts of its statement.
#[inline]
fn part(texts: &[u8], span: Span) -> &[u8]
    ensures value { result.now ≡ part_of texts.now span }
    ensures short { length result.now ≤ 65535 }
{
    let first = texts.len().min(span.at as usize);
    let last = texts.len().min(first + span.len as usize);
    &texts[first..last]
}

/// A look at a constant.
#[inline]
fn look_at<'a>(constant: &Literal, texts: &'a [u8]) -> Look<'a>
    ensures value { value_of result ≡ literal_value texts.now constant.now }
    ensures small { value_length (value_of result) ≤ 70000 }
{
    match constant {
        Literal::Null => Look::Null,
        Literal::Int(number) => Look::Int(*number),
        Literal::Text(span) => Look::Text(part(texts, *span)),
    }
}

/// A look at the value that a row of constants has at a place.
#[inline]
pub fn look<'a>(tuple: &[Literal], source: Option<usize>, texts: &'a [u8]) -> Look<'a>
    ensures value { value_of result ≡ value_in texts.now tuple.now source }
    ensures small { value_length (value_of result) ≤ 70000 }
{
    match source {
        Some(place) => {
            match tuple.get(place) {
                Some(constant) => look_at(constant, texts),
                None => Look::Null,
            }
        }
        None => Look::Null,
    }
}

/// Whether a number has 32 bits.
#[inline]
fn is_narrow(number: i128) -> bool
    ensures { result ≡ fits_integer number }
{
    number >= -(1 << 31) && number < (1 << 31)
}

#[inline]
pub fn is_null(value: &Look) -> bool
    ensures { result ≡ is_null (value_of value.now) }
{
    match value {
        Look::Null => true,
        _ => false,
    }
}

/// Whether a column's type can hold the value.
#[inline]
pub fn fits(column: &Column, value: &Look) -> bool
    ensures { result ≡ fits_type column.now.ty (value_of value.now) }
{
    match value {
        Look::Null => true,
        Look::Int(number) => {
            match column.ty {
                SqlType::Integer => is_narrow(*number),
                SqlType::Varchar(_) => false,
            }
        }
        Look::Text(text) => {
            match column.ty {
                SqlType::Integer => false,
                SqlType::Varchar(most) => text.len() <= most as usize,
            }
        }
    }
}

/// How many bytes the value has.
#[inline]
pub fn coded_length(value: &Look) -> usize
    requires { value_length (value_of value.now) ≤ 70000 }
    ensures { result ≡ value_length (value_of value.now) }
{
    match value {
        Look::Null => 1,
        Look::Int(number) => { if is_narrow(*number) { 5 } else { 17 } }
        Look::Text(text) => 2 + text.len(),
    }
}

/// How many bytes a row has.
pub fn row_length(tuple: &[Literal], sources: &[Option<usize>], texts: &[u8]) -> usize
    requires { length sources.now ≤ 16 }
    ensures { result ≡ row_length (row_from texts.now sources.now tuple.now) }
{
    let mut bytes = 0;
    for source in sources {
        bytes += coded_length(&look(tuple, *source, texts));
    }
    bytes
}

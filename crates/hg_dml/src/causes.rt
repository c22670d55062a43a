//! The first cause against the rows of an INSERT.
ghost use Rattle.std.specs.Prelude.{◌≡◌, ◌≤◌, length, None, OnOk, IfErr};
ghost use Rattle.std.specs.List.{list_any};
ghost use Rattle.hg_model.specs.Changes.{tuples_from, null_cause, fit_cause, long_cause, row_length};
ghost use Rattle.hg_model.specs.NullLogic.{is_null};
ghost use Rattle.hg_model.specs.Refusal.{NullNotAllowed, DoesNotFit};
ghost use Rattle.hg_model.specs.Tables.{fits_type};
ghost use Rattle.hg_dml.specs.Rows.{rows_cause};
ghost use Rattle.hg_dml.specs.Steps.{FirstIs, IsRefusal};
ghost use Rattle.hg_dml.specs.Tuples.{value_in, rows_from};
ghost use Rattle.std.specs.Prelude.{nat_lt, not, ◌&&◌};

use crate::insertion::ChangeError;
use crate::tuples::{fits, is_null, look, row_length, tuple_between};
use hg_model::{Column, Literal};

/// The most bytes that a row of a table has.
pub const MOST_BYTES: usize = 1000;

/// Whether any row has NULL at a place.
fn any_null(source: Option<usize>, values: &[Literal], ends: &[u16], texts: &[u8]) -> bool
    ensures { result ≡ list_any (λ tuple. is_null (value_in texts.now tuple source)) (tuples_from 0 ends.now values.now) }
{
    let mut from = 0;
    for end in ends {
        if is_null(&look(tuple_between(values, from, *end), source, texts)) {
            return true;
        }
        from = *end;
    }
    false
}

/// Whether a column must hold no NULL, and any row has one at a place.
fn has_forbidden_null(
    column: &Column,
    source: Option<usize>,
    values: &[Literal],
    ends: &[u16],
    texts: &[u8],
) -> bool
    ensures { result ≡ (column.now.not_null && list_any (λ tuple. is_null (value_in texts.now tuple source)) (tuples_from 0 ends.now values.now)) }
{
    column.not_null && any_null(source, values, ends, texts)
}

/// Whether any row has a value at a place that a column's type cannot hold.
fn any_misfit(
    column: &Column,
    source: Option<usize>,
    values: &[Literal],
    ends: &[u16],
    texts: &[u8],
) -> bool
    ensures { result ≡ list_any (λ tuple. not (fits_type column.now.ty (value_in texts.now tuple source))) (tuples_from 0 ends.now values.now) }
{
    let mut from = 0;
    for end in ends {
        if !fits(
            column,
            &look(tuple_between(values, from, *end), source, texts),
        ) {
            return true;
        }
        from = *end;
    }
    false
}

/// Whether any row has too many bytes.
fn any_long(sources: &[Option<usize>], values: &[Literal], ends: &[u16], texts: &[u8]) -> bool
    requires { length sources.now ≤ 16 }
    ensures { result ≡ list_any (λ row. nat_lt 1000 (row_length row)) (rows_from texts.now sources.now values.now ends.now) }
{
    let mut from = 0;
    for end in ends {
        if row_length(tuple_between(values, from, *end), sources, texts) > MOST_BYTES {
            return true;
        }
        from = *end;
    }
    false
}

/// The first column that would hold a NULL which it must not hold.
fn null_column(
    columns: &[Column],
    sources: &[Option<usize>],
    values: &[Literal],
    ends: &[u16],
    texts: &[u8],
) -> Option<u8>
    requires few { length columns.now ≤ 16 }
    requires as_long { length sources.now ≡ length columns.now }
    ensures { FirstIs columns.now NullNotAllowed (null_cause columns.now (rows_from texts.now sources.now values.now ends.now)) result }
{
    for place in 0..columns.len() {
        if has_forbidden_null(&columns[place], sources[place], values, ends, texts) {
            return Some(place as u8);
        }
    }
    None
}

/// The first column that would hold a value which does not fit it.
fn misfit_column(
    columns: &[Column],
    sources: &[Option<usize>],
    values: &[Literal],
    ends: &[u16],
    texts: &[u8],
) -> Option<u8>
    requires few { length columns.now ≤ 16 }
    requires as_long { length sources.now ≡ length columns.now }
    ensures { FirstIs columns.now DoesNotFit (fit_cause columns.now (rows_from texts.now sources.now values.now ends.now)) result }
{
    for place in 0..columns.len() {
        if any_misfit(&columns[place], sources[place], values, ends, texts) {
            return Some(place as u8);
        }
    }
    None
}

/// Looks for the first cause against the rows of an INSERT.
pub fn check_rows(
    columns: &[Column],
    sources: &[Option<usize>],
    values: &[Literal],
    ends: &[u16],
    texts: &[u8],
) -> Result<(), ChangeError>
    requires few { length columns.now ≤ 16 }
    requires as_long { length sources.now ≡ length columns.now }
    ensures ok { OnOk result (rows_cause columns.now (rows_from texts.now sources.now values.now ends.now) ≡ None) }
    ensures err { IfErr result (IsRefusal columns.now (rows_from texts.now sources.now values.now ends.now)) }
{
    if let Some(column) = null_column(columns, sources, values, ends, texts) {
        return Err(ChangeError::Refused {
            code: 12,
            column: Some(column),
        });
    }
    if let Some(column) = misfit_column(columns, sources, values, ends, texts) {
        return Err(ChangeError::Refused {
            code: 11,
            column: Some(column),
        });
    }
    if any_long(sources, values, ends, texts) {
        return Err(ChangeError::Refused {
            code: 23,
            column: None,
        });
    }
    Ok(())
}

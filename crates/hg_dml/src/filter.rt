//! Which rows of a table a change concerns.
ghost use Rattle.std.specs.Prelude.{◌≡◌, ◌≤◌, ◌&&◌, IsTrue, length};
ghost use Rattle.hg_bind.specs.Bound.{numbers_of};
ghost use Rattle.hg_model.specs.Tables.{fits_type, is_allowed, fits_columns};
ghost use Rattle.hg_model.specs.Width.{is_small_row};
ghost use Rattle.hg_value.specs.Looks.{value_of};
ghost use Rattle.hg_dml.specs.Filtering.{IsFilter, row_passes};

use crate::tuples::{fits, is_null};
use arrayvec::ArrayVec;
use hg_expr::{Evaluation, rows_fit};
use hg_model::{Column, Node};
use hg_value::{Look, Row};

/// The condition of a DELETE or an UPDATE, bound to its table: the number of its node among the
/// statement's, none where every row passes, for each node the number of its column, and the statement's
/// texts.
#[derive(Clone, Copy)]
pub struct Filter<'a> {
    pub condition: Option<u8>,
    pub nodes: &'a [Node],
    pub columns: &'a [u8],
    pub texts: &'a str,
}

/// Puts the numbers of the columns of places into a list.
pub fn list_numbers(places: &[(u8, u8)], numbers: &mut ArrayVec<u8, 112>)
    requires { length places.now ≤ 112 }
    ensures { numbers.new.items ≡ numbers_of places.now }
{
    numbers.clear();
    for place in places {
        numbers.push(place.1);
    }
}

/// Whether a column may hold the value.
#[inline]
fn may_hold(column: &Column, value: &Look) -> bool
    ensures fits { result ≡ (fits_type column.now.ty (value_of value.now) && is_allowed column.now (value_of value.now)) }
{
    fits(column, value) && !(column.not_null && is_null(value))
}

/// Whether a row is one of a table with these columns.
pub fn fits_columns(columns: &[Column], row: &Row) -> bool
    requires few { length columns.now ≤ 16 }
    ensures { result ≡ fits_columns columns.now row.now }
{
    if columns.len() != row.len() as usize {
        return false;
    }
    for (place, column) in columns.iter().enumerate() {
        if !may_hold(column, &row.look(place as u8)) {
            return false;
        }
    }
    true
}

/// Whether a row passes the condition.
pub fn passes(filter: &Filter<'_>, row: &Row) -> bool
    requires filter { IsFilter filter.now.texts.now filter.now.columns.now filter.now.nodes.now }
    requires small { IsTrue (is_small_row row.now) }
    ensures { result ≡ row_passes filter.now.texts.now filter.now.columns.now filter.now.nodes.now filter.now.condition row.now }
{
    rows_fit();
    let evaluation = Evaluation {
        nodes: filter.nodes,
        slots: filter.columns,
        texts: filter.texts,
        row,
    };
    match filter.condition {
        Some(condition) => evaluation.keeps(&[condition]),
        None => true,
    }
}

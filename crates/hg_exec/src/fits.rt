//! Whether a row that was read is one of its table.
ghost use Rattle.std.specs.Prelude.{◌≡◌, ◌<◌, length, slice_get, Some};
ghost use Rattle.hg_model.specs.NullLogic.{is_null};
ghost use Rattle.hg_model.specs.Tables.{fits_columns, fits_type, fits_integer, is_allowed};
ghost use Rattle.hg_value.specs.Looks.{value_of as seen};

use hg_model::{Column, SqlType};
use hg_value::{Look, Row};

fn fits_integer(number: i128) -> bool
    ensures { result ≡ fits_integer number }
{
    -2147483648 <= number && number < 2147483648
}

fn fits_type(ty: SqlType, look: &Look) -> bool
    ensures { result ≡ fits_type ty (seen look.now) }
{
    match (ty, look) {
        (_, Look::Null) => true,
        (SqlType::Integer, Look::Int(number)) => fits_integer(*number),
        (SqlType::Varchar(most), Look::Text(text)) => text.len() <= most as usize,
        (SqlType::Integer, Look::Text(_)) | (SqlType::Varchar(_), Look::Int(_)) => false,
    }
}

fn is_null(look: &Look) -> bool
    ensures { result ≡ is_null (seen look.now) }
{
    match look {
        Look::Null => true,
        _ => false,
    }
}

fn is_allowed(column: &Column, look: &Look) -> bool
    ensures { result ≡ is_allowed column.now (seen look.now) }
{
    !(column.not_null && is_null(look))
}

/// Whether a row has a value for each column that the column may hold.
pub fn fits_columns(columns: &[Column], row: &Row) -> bool
    ensures { result ≡ fits_columns columns.now row.now }
{
    if columns.len() != row.len() as usize {
        return false;
    }
    for (place, column) in columns.iter().enumerate() {
        let look = row.look(place as u8);
        if !fits_type(column.ty, &look) || !is_allowed(column, &look) {
            return false;
        }
    }
    true
}

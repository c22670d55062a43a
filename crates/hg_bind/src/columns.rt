//! Columns by their names, and lists of column names from left to right.
ghost use Rattle.std.specs.Prelude.{◌≡◌, ◌<◌, ◌≤◌, false, true, [], None, Some, IfOk, OnOk, IfErr, IfSome, IfNone, length, map, option_map};
ghost use Rattle.std.specs.List.{list_any, range_with_len};
ghost use Rattle.hg_model.specs.ChangeBinding.{column_number, columns_cause};
ghost use Rattle.hg_model.specs.Refusal.{first_cause};
ghost use Rattle.hg_model.specs.Tables.{same_name};
ghost use Rattle.hg_model.specs.declared.trees.Column.{Column as ColumnOf};
ghost use Rattle.hg_bind.specs.Bound.{error_of};

use crate::errors::{BindError, name_taken, unknown_column};
use arrayvec::ArrayVec;
use hg_model::{Column, Name};

/// Whether a name stands in a list.
pub fn is_among(name: &Name, names: &[Name]) -> bool
    ensures { result ≡ list_any (same_name name.now) names.now }
{
    for other in names {
        if name == other {
            return true;
        }
    }
    false
}

/// The number of the column of that name.
pub fn column_of_name(columns: &[Column], name: &Name) -> Option<u8>
    requires { length columns.now ≤ 16 }
    ensures number { IfSome result (λ k. k ≡ column_number columns.now name.now) }
    ensures there { IfSome result (λ k. list_any (λ (c : ColumnOf). same_name c.name name.now) columns.now ≡ true) }
    ensures none { IfNone result (list_any (λ (c : ColumnOf). same_name c.name name.now) columns.now ≡ false) }
{
    for place in 0..columns.len() {
        if columns[place].name == *name {
            return Some(place as u8);
        }
    }
    None
}

/// Puts the number of each named column into a list, or answers the first name that no column has or
/// that has stood before.
pub fn list_columns(
    columns: &[Column],
    names: &[Name],
    numbers: &mut ArrayVec<u8, 16>,
) -> Result<(), BindError>
    requires few_columns { length columns.now ≤ 16 }
    requires few_names { length names.now ≤ 16 }
    requires empty { numbers.old.items ≡ [] }
    ensures ok { OnOk result (first_cause (columns_cause columns.now [] names.now) ≡ None) }
    ensures numbers { OnOk result (numbers.new.items ≡ map (column_number columns.now) names.now) }
    ensures err { IfErr result (λ e. option_map error_of (first_cause (columns_cause columns.now [] names.now)) ≡ Some e) }
{
    for place in 0..names.len() {
        let name = &names[place];
        let Some(number) = column_of_name(columns, name) else {
            return Err(unknown_column(name));
        };
        if is_among(name, &names[..place]) {
            return Err(name_taken(name));
        }
        numbers.push(number);
    }
    Ok(())
}

/// Puts the numbers of all columns into a list.
pub fn list_all_columns(columns: &[Column], numbers: &mut ArrayVec<u8, 16>)
    requires few_columns { length columns.now ≤ 16 }
    requires empty { numbers.old.items ≡ [] }
    ensures { numbers.new.items ≡ range_with_len 0 (length columns.now) }
{
    for place in 0..columns.len() {
        numbers.push(place as u8);
    }
}

//! Keys of rows and of values.
ghost use Rattle.std.specs.Prelude.{◌≡◌, []};
ghost use Rattle.std.specs.Bool.{OnTrue, OnFalse};
ghost use Rattle.hg_index.specs.Entering.{place_number, row_key, IsPlace, MayBeEntered};
ghost use Rattle.hg_model.specs.Tables.{fits_integer};
ghost use Rattle.hg_value.specs.Keys.{index_key, IsNarrow};
ghost use Rattle.hg_value.specs.Laws.{IsIndexed};

use arrayvec::ArrayVec;
use hg_base::Place;
use hg_model::Value;
use hg_value::{Row, keys_are_as_long, push_index_key};

/// Makes the key of a row in an index over these columns, in an empty room.
pub fn put_row_key(columns: &[u8], row: &Row, key: &mut ArrayVec<u8, 512>)
    requires may { MayBeEntered columns.now row.now }
    requires empty { key.old.items ≡ [] }
    ensures { key.new.items ≡ row_key columns.now row.now }
{
    for column in columns {
        match push_index_key(&row.get(*column), key) {
            Ok(()) => {}
            Err(_) => unreachable!(),
        }
    }
}

/// Whether a number fits 32 bits signed.
fn is_narrow(x: i128) -> bool
    ensures { result ≡ fits_integer x }
{
    x >= -(1 << 31) && x < (1 << 31)
}

/// Whether an index key can have such a part: a number has to fit 32 bits signed.
fn can_be_keyed(value: &Value) -> bool
    ensures yes { OnTrue result (IsNarrow value.now) }
    ensures no_number { OnFalse result (IsNarrow value.now → ⊥) }
{
    match value {
        Value::Int(x) => is_narrow(*x),
        _ => true,
    }
}

/// Makes the key of a value in an empty room. False where no key has such a part, since it is a number
/// that does not fit 32 bits signed.
pub fn put_first_key(first: &Value, key: &mut ArrayVec<u8, 512>) -> bool
    requires { key.old.items ≡ [] }
    ensures key { OnTrue result (key.new.items ≡ index_key first.now) }
    ensures indexed { OnTrue result (IsIndexed first.now) }
    ensures none { OnFalse result (IsNarrow first.now → ⊥) }
{
    keys_are_as_long();
    if !can_be_keyed(first) {
        return false;
    }
    match push_index_key(first, key) {
        Ok(()) => true,
        Err(_) => unreachable!(),
    }
}

/// The place of an entry that stands for a version at this place.
pub fn entry_place(at: Place) -> u64
    ensures number { result ≡ place_number at }
    ensures proper { IsPlace at }
{
    at.number()
}

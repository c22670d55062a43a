//! Keys of values.
ghost use Rattle.std.specs.Prelude.{◌≡◌, ◌+◌, ◌^◌, ◌<◌, ◌≤◌, ◌↔◌, ◌++◌, ◌∷◌, length, IsTrue, IsOk, OnOk, OnErr};
ghost use Rattle.hg_value.specs.Coding.{IsHeld};
ghost use Rattle.hg_value.specs.Keys.{index_key, working_key, IsNarrow, raised, narrow_raised, wide_raised};
ghost use Rattle.hg_model.specs.Tables.{fits_integer};

use arrayvec::ArrayVec;
use hg_base::NoRoom;
use hg_model::Value;

/// The byte that the key of NULL is, and the one that other keys begin with.
const NULL: u8 = 0;

const SOME: u8 = 1;

/// The byte behind a text, less than each of its own.
const END: u8 = 0;

/// Puts the key of a value in an index behind what is there. A number has to fit 32 bits signed.
/// NoRoom comes exactly where there would be more than 512 bytes; what is there is then as it was.
pub fn push_index_key(v: &Value, out: &mut ArrayVec<u8, 512>) -> Result<(), NoRoom>
    requires { IsNarrow v.now }
    ensures held { IsHeld v.now }
    ensures ok { OnOk result (out.new.items ≡ out.old.items ++ index_key v.now) }
    ensures unchanged { OnErr result (out.new ≡ out.old) }
    ensures room { IsOk result ↔ (length out.old.items + length (index_key v.now) ≤ 512) }
{
    match v {
        Value::Null => put(NULL, &[], &[], out),
        Value::Int(x) => put(SOME, &narrow_raised(*x), &[], out),
        Value::Text(text) => put(SOME, text.as_str().as_bytes(), &[END], out),
    }
}

/// Puts the key of a value, by which joins and groups work, behind what is there. NoRoom comes
/// exactly where there would be more than 4,096 bytes; what is there is then as it was.
pub fn push_key(v: &Value, out: &mut ArrayVec<u8, 4096>) -> Result<(), NoRoom>
    ensures held { IsHeld v.now }
    ensures ok { OnOk result (out.new.items ≡ out.old.items ++ working_key v.now) }
    ensures unchanged { OnErr result (out.new ≡ out.old) }
    ensures room { IsOk result ↔ (length out.old.items + length (working_key v.now) ≤ 4096) }
{
    match v {
        Value::Null => put(NULL, &[], &[], out),
        Value::Int(x) => put(SOME, &wide_raised(*x), &[], out),
        Value::Text(text) => put(SOME, text.as_str().as_bytes(), &[END], out),
    }
}

/// A number of 32 bits moved up.
fn moved_narrow(x: i128) -> u32
    requires { IsTrue (fits_integer x) }
    ensures { result ≡ raised 31 x }
{
    (x + (1 << 31)) as u32
}

/// A number of 32 bits moved up, the highest byte first.
#[tactic(auto, unfolding(crate::specs::Keys::narrow_raised))]
fn narrow_raised(x: i128) -> [u8; 4]
    requires { IsTrue (fits_integer x) }
    ensures { result ≡ narrow_raised x }
{
    moved_narrow(x).to_be_bytes()
}

/// A number moved up.
fn moved_wide(x: i128) -> u128
    ensures { result ≡ raised 127 x }
{
    x.cast_unsigned().wrapping_add(1 << 127)
}

/// A number moved up, the highest byte first.
#[tactic(auto, unfolding(crate::specs::Keys::wide_raised))]
fn wide_raised(x: i128) -> [u8; 16]
    ensures { result ≡ wide_raised x }
{
    moved_wide(x).to_be_bytes()
}

/// Puts a byte and two parts behind what is there.
fn put<const N: usize>(
    first: u8,
    middle: &[u8],
    last: &[u8],
    out: &mut ArrayVec<u8, N>,
) -> Result<(), NoRoom>
    requires { length middle.now + length last.now < 2 ^ 32 }
    ensures ok { OnOk result (out.new.items ≡ out.old.items ++ first ∷ (middle.now ++ last.now)) }
    ensures unchanged { OnErr result (out.new ≡ out.old) }
    ensures room { IsOk result ↔ (length out.old.items + length (first ∷ (middle.now ++ last.now)) ≤ N) }
{
    if out.remaining_capacity() < 1 + middle.len() + last.len() {
        return Err(NoRoom);
    }
    out.push(first);
    let _ = out.try_extend_from_slice(middle);
    let _ = out.try_extend_from_slice(last);
    Ok(())
}

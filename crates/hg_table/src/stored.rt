//! Versions in bytes.
ghost use Rattle.std.specs.Prelude.{◌≡◌, ℕ, ◌++◌, ◌^◌, ◌<◌, ◌≤◌, List, Option, length, IfSome, IsNone, [], option_map};
ghost use Rattle.std.specs.Bool.{OnTrue, OnFalse};
ghost use Rattle.hg_base.specs.declared.Stamp.{Stamp as StampOf};
ghost use Rattle.hg_model.specs.Visible.{is_visible};
ghost use Rattle.std.specs.Int.{w32, to_le_bytes};
ghost use Rattle.hg_table.specs.Marks.{committed};
ghost use Rattle.hg_table.specs.Versions.{RowVersion, IsStored, death, IsDeath};

use crate::stamping::Stamps;
use hg_base::{Stamp, get_u32, put_u32};
use hg_value::Row;

/// The bytes of the two stamps.
pub const STAMPS: usize = 8;

/// The stamps of a version: the one it was born under, and the one it died under or 0.
#[derive(Clone, Copy)]
pub struct Life {
    pub born: u32,
    pub died: u32,
}

/// The bytes with which the record of a version begins that was born under a stamp and did not die; the
/// bytes of its row follow them.
pub fn front_of(born: Stamp) -> [u8; STAMPS]
    ensures bytes { result ≡ to_le_bytes w32 born.0 ++ to_le_bytes w32 0 }
    ensures small { born.0 < 2 ^ 32 }
{
    let mut front = [0; STAMPS];
    put_u32(&mut front, 0, born.0);
    front
}

/// The stamps of a record. None where it is too short to be a version.
pub fn life_of(bytes: &[u8]) -> Option<Life>
    ensures some { IfSome result (λ life. (columns : ℕ) (v : RowVersion)
        → IsStored columns bytes.now v → (life.born ≡ v.born) × (life.died ≡ death v.died)) }
    ensures long { IfSome result (λ _. 8 ≤ length bytes.now) }
    ensures none { IsNone result → (columns : ℕ) (v : RowVersion) → IsStored columns bytes.now v
        → ⊥ }
{
    if bytes.len() < STAMPS {
        return None;
    }
    Some(Life {
        born: get_u32(bytes, 0),
        died: get_u32(bytes, 4),
    })
}

/// Whether a snapshot sees a version with these stamps.
pub fn is_seen(life: Life, snapshot: Stamp, stamps: &Stamps) -> bool
    ensures { (v : RowVersion) → v.born ≡ life.born → death v.died ≡ life.died → IsDeath v.died
        → result ≡ is_visible (committed stamps.now) snapshot.0 v }
{
    let is_born = stamps.is_committed(Stamp(life.born)) && life.born <= snapshot.0;
    let is_alive = life.died == 0
        || !stamps.is_committed(Stamp(life.died))
        || snapshot.0 < life.died;
    is_born && is_alive
}

/// Reads the row of a record. False where its bytes are no row of so many values.
pub fn row_of(bytes: &[u8], columns: u8, out: &mut Row) -> bool
    requires { 8 ≤ length bytes.now }
    ensures row { OnTrue result ((v : RowVersion) → IsStored columns bytes.now v
        → out.new ≡ v.row) }
    ensures width { OnTrue result (length out.new ≡ columns) }
    ensures none { OnFalse result ((v : RowVersion) → IsStored columns bytes.now v → ⊥) }
    ensures empty { OnFalse result (out.new ≡ []) }
{
    let (_, row) = bytes.split_at(STAMPS);
    out.read_into(row, columns)
}

/// The stamp of a death, where there is one.
pub fn death_of(life: Life) -> Option<Stamp>
    ensures { (died : Option ℕ) → death died ≡ life.died → IsDeath died
        → option_map (λ (s : StampOf). s.0) result ≡ died }
{
    if life.died == 0 {
        None
    } else {
        Some(Stamp(life.died))
    }
}

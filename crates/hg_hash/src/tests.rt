//! Callers of buckets as operators write them, over any space with heaps.
ghost use Rattle.std.specs.Prelude.{◌≡◌, ◌<◌, ◌≤◌, ◌∷◌, [], length, Some, IfOk, OnOk};
ghost use Rattle.hg_base.specs.HeapStates.{IsLocked, payload_in};
ghost use Rattle.hg_hash.specs.Buckets.{HasBuckets, bucket_in, chain_in};

use crate::{add, first, make_directory};
use hg_base::{Addr, HeapNo, Heaps, NoRoom};

/// Two rows of one bucket, the hashes 7 and 263, in a heap that had none: the address of the second one.
fn newest_of_two<H: Heaps>(
    heaps: &mut H,
    h: HeapNo,
    older: &[u8],
    newer: &[u8],
) -> Result<Addr, NoRoom>
    requires locked { IsLocked (H.state heaps.old) h.0 }
    requires some { 0 < length older.now }
    requires short { length older.now ≤ 3920 }
    requires some_newer { 0 < length newer.now }
    requires short_newer { length newer.now ≤ 3920 }
    ensures rows { OnOk result (bucket_in (H.state heaps.new) h.0 7
        ≡ Some (newer.now ∷ older.now ∷ [])) }
    ensures newest { IfOk result (λ a. payload_in (H.state heaps.new) h.0 a.word ≡ Some newer.now) }
{
    make_directory(heaps, h)?;
    add(heaps, h, 7, older)?;
    add(heaps, h, 263, newer)?;
    Ok(first(heaps, h, 7))
}

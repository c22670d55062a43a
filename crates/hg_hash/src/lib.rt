//! Rows of a heap in 256 buckets, to find those of a hash again. It stands on `hg_base` alone; the contract
//! that the layers above use is that of [`add`] and [`first`], and of `follow` of the heap.
//!
//! ```text
//! root 0 -> | 0 | 1 | 2 | .. | 255 |      a directory: an address for each bucket
//!                 |
//!                 +-> row -> row -> row -> nil      newest first
//! ```
//!
//! The bucket of a hash is the hash modulo 256. A row links to the row that was put into its bucket before,
//! so a chain is walked by `follow`, from what `first` gives. The rows of a bucket are a function of what the
//! heap holds (`bucket` of `specs/Buckets.antt`): they are the same after the heap was unlocked and locked
//! again, under other addresses.
#![tactic(auto)]

#[cfg(test)]
mod tests;

ghost use Rattle.std.specs.Prelude.{◌≡◌, ◌<◌, ◌≤◌, ◌%◌, ◌↔◌, [], length, None, Some, IsOk, IfSome, OnOk, OnErr};
ghost use Rattle.hg_base.specs.Content.{row_object, object_size};
ghost use Rattle.hg_base.specs.HeapFacts.{AreHeaps};
ghost use Rattle.hg_base.specs.HeapStates.{IsLocked, IsTarget, KeepsObjects, room_in, payload_in};
ghost use Rattle.hg_hash.specs.Buckets.{HasBuckets, NoRows, OnlyObjects, OtherBuckets, KeepsPayloads, KeepsChains, OnlyRows, buckets_in, bucket_in, chain_in, in_front};
ghost use Rattle.hg_hash.specs.Following.{IsNewest};

use hg_base::{Addr, HeapNo, Heaps, NoRoom, Request};

/// Learns that the heaps of a space are well formed.
fn learn_heaps<H: Heaps>(heaps: &H)
    ensures { AreHeaps (H.state heaps.now) }
{
    let _peak = heaps.peak(Request(0));
}

/// Makes root 0 a directory of 256 empty buckets. It takes 2,064 bytes of the last page; NoRoom comes
/// exactly where these are not free, and nothing then changes.
pub fn make_directory<H: Heaps>(heaps: &mut H, h: HeapNo) -> Result<(), NoRoom>
    requires { IsLocked (H.state heaps.old) h.0 }
    ensures room { IsOk result ↔ IfSome (room_in (H.state heaps.old) h.0) (λ free. 2064 ≤ free) }
    ensures buckets { OnOk result (HasBuckets (H.state heaps.new) h.0) }
    ensures empty { OnOk result (NoRows (H.state heaps.new) h.0) }
    ensures only_rows { OnOk result (OnlyRows (H.state heaps.new) h.0) }
    ensures kept { KeepsObjects (H.state heaps.old) (H.state heaps.new) h.0 }
    ensures only { OnOk result (OnlyObjects (H.state heaps.old) (H.state heaps.new) h.0) }
    ensures err { OnErr result (H.state heaps.new ≡ H.state heaps.old) }
{
    learn_heaps(heaps);
    let directory = heaps.place_words(h, 256)?;
    learn_heaps(heaps);
    heaps.set_root(h, 0, directory);
    Ok(())
}

/// How many addresses the directory at root 0 has, none where no directory is there. [`add`] and [`first`]
/// want 256: ask this of a heap whose pages a device may have changed.
pub fn bucket_count<H: Heaps>(heaps: &H, h: HeapNo) -> Option<u16>
    requires { IsLocked (H.state heaps.now) h.0 }
    ensures { result ≡ buckets_in (H.state heaps.now) h.0 }
{
    learn_heaps(heaps);
    let directory = heaps.root(h, 0);
    heaps.words(h, directory)
}

/// Puts a row in front of the bucket of its hash. NoRoom comes exactly where it does not fit on the last
/// page; nothing then changes.
pub fn add<H: Heaps>(heaps: &mut H, h: HeapNo, hash: u64, payload: &[u8]) -> Result<(), NoRoom>
    requires buckets { HasBuckets (H.state heaps.old) h.0 }
    requires some { 0 < length payload.now }
    requires short { length payload.now ≤ 3920 }
    ensures room { IsOk result ↔ IfSome (room_in (H.state heaps.old) h.0) (λ free. object_size
        (row_object payload.now None) ≤ free) }
    ensures front { OnOk result (bucket_in (H.state heaps.new) h.0 (hash % 256)
        ≡ in_front payload.now (bucket_in (H.state heaps.old) h.0 (hash % 256))) }
    ensures others { OnOk result (OtherBuckets (H.state heaps.old) (H.state heaps.new) h.0
        (hash % 256)) }
    ensures buckets { OnOk result (HasBuckets (H.state heaps.new) h.0) }
    ensures only_rows { OnOk result (OnlyRows (H.state heaps.old) h.0
        → OnlyRows (H.state heaps.new) h.0) }
    ensures rows { KeepsPayloads (H.state heaps.old) (H.state heaps.new) h.0 }
    ensures chains { KeepsChains (H.state heaps.old) (H.state heaps.new) h.0 }
    ensures only { OnOk result (OnlyObjects (H.state heaps.old) (H.state heaps.new) h.0) }
    ensures err { OnErr result (H.state heaps.new ≡ H.state heaps.old) }
{
    learn_heaps(heaps);
    let directory = heaps.root(h, 0);
    let bucket = (hash % 256) as u16;
    let newest = heaps.word(h, directory, bucket);
    let row = heaps.place(h, payload, newest)?;
    learn_heaps(heaps);
    heaps.set_word(h, directory, bucket, row);
    Ok(())
}

/// The address of the newest row in the bucket of a hash, nil where it has none. `follow` gives the rest,
/// newest first.
pub fn first<H: Heaps>(heaps: &H, h: HeapNo, hash: u64) -> Addr
    requires { HasBuckets (H.state heaps.now) h.0 }
    ensures chain { chain_in (H.state heaps.now) h.0 result.word
        ≡ bucket_in (H.state heaps.now) h.0 (hash % 256) }
    ensures newest { IfSome (bucket_in (H.state heaps.now) h.0 (hash % 256)) (λ rows. IsNewest
        (payload_in (H.state heaps.now) h.0 result.word) rows) }
    ensures nil { result.word ≡ 0 → bucket_in (H.state heaps.now) h.0 (hash % 256) ≡ Some [] }
    ensures empty { OnlyRows (H.state heaps.now) h.0
        → bucket_in (H.state heaps.now) h.0 (hash % 256) ≡ Some [] → result.word ≡ 0 }
    ensures target { IsTarget (H.state heaps.now) h.0 result.word }
{
    learn_heaps(heaps);
    let directory = heaps.root(h, 0);
    heaps.word(h, directory, (hash % 256) as u16)
}

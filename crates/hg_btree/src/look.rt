//! Looks at single pages of a tree.
ghost use Rattle.std.specs.Prelude.{◌≡◌, ℕ, ◌<◌, true, false, List, length, Some, IsOk, IfOk, IfErr, OnOk, OnErr, slice_index};
ghost use Rattle.hg_base.specs.Space.{NoPins, IsFree, IsPinned, IsSame, key as page_key};
ghost use Rattle.hg_base.specs.Causes.{HasCause, fault_of};
ghost use Rattle.hg_btree.specs.Entries.{Entry, AllBy, Before};
ghost use Rattle.hg_btree.specs.Nodes.{IsNode, IsWay, IsFirst, page_number, crowded_page};
ghost use Rattle.hg_btree.specs.Looking.{LeadsFrom, IsTreePage, SeeksOn};
ghost use Rattle.hg_btree.specs.Steps.{Looks, IsTreeCheck, LookFault};

use crate::node::{first_from, is_crowded, level_of, page_number_at, way};
use arrayvec::ArrayVec;
use hg_base::{Check, PageFault, PageId, Pages};

/// Where a leaf names the next one.
pub const NEXT: usize = 8;

/// What was found on a page on the way down: its level, 0 of a leaf, whether it is crowded, and the page
/// where the way leads on, which is none that counts where it is a leaf.
#[derive(Clone, Copy)]
pub struct Found {
    pub level: u8,
    pub crowded: bool,
    pub child: u32,
}

/// Pins a page whose number may be any. One that cannot be pinned is damage.
pub fn open<S: Pages>(space: &mut S, page: PageId) -> Result<S::Pin, PageFault>
    requires few { (S.state space.old).pins < 8 }
    requires free { (S.state space.old).told ≡ true → IsFree (S.state space.old) page }
    ensures names { IfOk result (λ pin. S.pin_page pin ≡ page) }
    ensures was_free { OnOk result (IsFree (S.state space.old) page) }
    ensures ok { OnOk result (IsPinned (S.state space.old) (S.state space.new) (page_key page)) }
    ensures err { OnErr result (IsSame (S.state space.old) (S.state space.new)) }
    ensures cause { HasCause (S.state space.old) (S.state space.new) (fault_of result) }
    ensures fault { IfErr result (LookFault page.file) }
{
    if !space.can_pin(page) {
        return Err(PageFault::Damaged {
            page,
            check: Check::Level,
        });
    }
    space.pin(page)
}

/// Where the way to an entry leads on from a page whose bytes may be any.
fn lead(page: &[u8], key: &[u8], place: u64) -> Result<Found, Check>
    requires { length page.now ≡ 4096 }
    ensures sound { IsTreePage page.now → IsOk result }
    ensures leads { IfOk result (λ found. LeadsFrom page.now (record { key = key.now; place = place; child = 0 }) found.level found.child) }
    ensures crowded { IfOk result (λ found. found.crowded ≡ crowded_page page.now) }
    ensures wrong { IfErr result IsTreeCheck }
{
    let level = level_of(page)?;
    let crowded = is_crowded(page);
    if level == 0 {
        return Ok(Found {
            level,
            crowded,
            child: 0,
        });
    }
    let onward = way(page, key, place)?;
    Ok(Found {
        level,
        crowded,
        child: onward.child,
    })
}

/// Looks at a page on the way to an entry.
pub fn look<S: Pages>(
    space: &mut S,
    page: PageId,
    key: &[u8],
    place: u64,
) -> Result<Found, PageFault>
    requires out { NoPins (S.state space.old) }
    requires free { (S.state space.old).told ≡ true → IsFree (S.state space.old) page }
    requires sound { (S.state space.old).told ≡ true → (bytes : List ℕ) × ((S.state space.old).bytes (page_key page) ≡ Some bytes) × IsTreePage bytes }
    ensures leads { IfOk result (λ found. (bytes : List ℕ) → (S.state space.old).bytes (page_key page) ≡ Some bytes
        → LeadsFrom bytes (record { key = key.now; place = place; child = 0 }) found.level found.child) }
    ensures crowded { IfOk result (λ found. (bytes : List ℕ) → (S.state space.old).bytes (page_key page) ≡ Some bytes
        → found.crowded ≡ crowded_page bytes) }
    ensures looks { Looks (S.state space.old) (S.state space.new) }
    ensures cause { HasCause (S.state space.old) (S.state space.new) (fault_of result) }
    ensures fault { IfErr result (LookFault page.file) }
{
    let pin = open(space, page)?;
    let found = lead(space.bytes(&pin), key, place);
    space.unpin(pin);
    match found {
        Ok(found) => Ok(found),
        Err(check) => Err(PageFault::Damaged { page, check }),
    }
}

/// What a leaf tells of the first entry that is not before another.
#[derive(Clone, Copy)]
pub enum OnLeaf {
    /// It is on the leaf, with this place.
    Entry(u64),
    /// It is not; the next leaf is this one.
    Next(u32),
    /// It is not, and there is no next leaf.
    End,
}

/// The leaf behind one whose bytes may be any.
fn next_leaf(page: &[u8]) -> OnLeaf
    requires { length page.now ≡ 4096 }
    ensures { (es : List Entry) (t : Entry) (key : List ℕ) → AllBy (λ e. Before e t) es → SeeksOn es (page_number page.now 8) t key result }
{
    let next = page_number_at(page, NEXT);
    if next == u32::MAX {
        OnLeaf::End
    } else {
        OnLeaf::Next(next)
    }
}

/// The first entry of a leaf that is not before the one given, or the next leaf. The bytes may be any.
fn seek_in(
    page: &[u8],
    key: &[u8],
    place: u64,
    out: &mut ArrayVec<u8, 512>,
) -> Result<OnLeaf, Check>
    requires { length page.now ≡ 4096 }
    ensures sound { (link : ℕ) (es : List Entry) → IsNode false page.now 0 link es → IsOk result }
    ensures seeks { IfOk result (λ on. (link : ℕ) (es : List Entry) → IsNode false page.now 0 link es
        → SeeksOn es link (record { key = key.now; place = place; child = 0 }) out.new.items on) }
    ensures err { OnErr result (out.new ≡ out.old) }
    ensures wrong { IfErr result IsTreeCheck }
{
    let level = level_of(page)?;
    if level != 0 {
        return Err(Check::Level);
    }
    let found = first_from(page, key, place, out)?;
    match found {
        Some(place) => Ok(OnLeaf::Entry(place)),
        None => Ok(next_leaf(page)),
    }
}

/// Looks at a leaf for the first entry that is not before the one given.
pub fn look_along<S: Pages>(
    space: &mut S,
    page: PageId,
    key: &[u8],
    place: u64,
    out: &mut ArrayVec<u8, 512>,
) -> Result<OnLeaf, PageFault>
    requires no_pins { NoPins (S.state space.old) }
    requires free { (S.state space.old).told ≡ true → IsFree (S.state space.old) page }
    requires sound { (S.state space.old).told ≡ true → (bytes : List ℕ) × (link : ℕ) × (es : List Entry) × ((S.state space.old).bytes (page_key page) ≡ Some bytes) × IsNode false bytes 0 link es }
    ensures seeks { IfOk result (λ on. (bytes : List ℕ) (link : ℕ) (es : List Entry) → (S.state space.old).bytes (page_key page) ≡ Some bytes
        → IsNode false bytes 0 link es → SeeksOn es link (record { key = key.now; place = place; child = 0 }) out.new.items on) }
    ensures err { OnErr result (out.new ≡ out.old) }
    ensures looks { Looks (S.state space.old) (S.state space.new) }
    ensures cause { HasCause (S.state space.old) (S.state space.new) (fault_of result) }
    ensures fault { IfErr result (LookFault page.file) }
{
    let pin = open(space, page)?;
    let found = seek_in(space.bytes(&pin), key, place, out);
    space.unpin(pin);
    match found {
        Ok(on) => Ok(on),
        Err(check) => Err(PageFault::Damaged { page, check }),
    }
}

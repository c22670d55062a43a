//! Changes of single leaves.
ghost use Rattle.std.specs.Prelude.{◌≡◌, ℕ, ◌+◌, ◌<◌, ◌≤◌, true, false, List, length, Some, Ok, IsOk, IfOk, IfErr, OnOk, OnErr};
ghost use Rattle.hg_base.specs.Space.{NoPins, IsFree, key as page_key};
ghost use Rattle.hg_base.specs.Causes.{HasCause, fault_of};
ghost use Rattle.hg_btree.specs.Entries.{Entry};
ghost use Rattle.hg_btree.specs.Nodes.{number, IsNode};
ghost use Rattle.hg_btree.specs.Leaf.{Removes, Misses, TakesFrom};
ghost use Rattle.hg_btree.specs.Putting.{Adds, Has, PutsInto};
ghost use Rattle.hg_btree.specs.Steps.{Looks, IsTreeCheck, LookFault};

use crate::look::open;
use crate::node::{BEFORE_KEY, FREE, PAGE, find, level_of, number_at};
use crate::write::{insert, remove};
use hg_base::{Check, PageFault, PageId, Pages};

/// Takes an entry out of a leaf whose bytes may be any. False where it is not there; the leaf then stays.
pub fn take_out(page: &mut [u8], key: &[u8], place: u64) -> Result<bool, Check>
    requires { length page.old ≡ 4096 }
    ensures taken { result ≡ Ok true → (link : ℕ) (es : List Entry)
        → IsNode false page.old 0 link es
        → Removes page.new link es (record { key = key.now; place = place; child = 0 }) }
    ensures missed { result ≡ Ok false → (link : ℕ) (es : List Entry)
        → IsNode false page.old 0 link es
        → Misses es (record { key = key.now; place = place; child = 0 }) }
    ensures kept { result ≡ Ok false → page.new ≡ page.old }
    ensures damaged { IfErr result (λ c. (link : ℕ) (es : List Entry)
        → IsNode false page.old 0 link es → ⊥) }
    ensures err { OnErr result (page.new ≡ page.old) }
    ensures wrong { IfErr result IsTreeCheck }
{
    let level = level_of(page)?;
    if level != 0 {
        return Err(Check::Level);
    }
    let spot = find(page, false, key, place)?;
    if !spot.there {
        return Ok(false);
    }
    remove(page, spot.at, spot.after);
    Ok(true)
}

/// Takes an entry out of a leaf.
pub fn take_from<S: Pages>(
    space: &mut S,
    page: PageId,
    key: &[u8],
    place: u64,
) -> Result<bool, PageFault>
    requires no_pins { NoPins (S.state space.old) }
    requires free { (S.state space.old).told ≡ true → IsFree (S.state space.old) page }
    requires sound { (S.state space.old).told ≡ true → (bytes : List ℕ) × (link : ℕ) × (es : List Entry) × ((S.state space.old).bytes (page_key page) ≡ Some bytes) × IsNode false bytes 0 link es }
    ensures takes { IfOk result (λ gone. TakesFrom (S.state space.old) (S.state space.new) page (record { key = key.now; place = place; child = 0 }) gone) }
    ensures err { OnErr result (Looks (S.state space.old) (S.state space.new)) }
    ensures cause { HasCause (S.state space.old) (S.state space.new) (fault_of result) }
    ensures fault { IfErr result (LookFault page.file) }
{
    let pin = open(space, page)?;
    let answer = take_out(space.bytes_mut(&pin), key, place);
    space.unpin(pin);
    match answer {
        Ok(true) => Ok(true),
        Ok(false) => Ok(false),
        Err(check) => Err(PageFault::Damaged { page, check }),
    }
}

/// What came of putting an entry into a leaf.
#[derive(Clone, Copy, PartialEq, Eq, Debug)]
pub enum Put {
    /// It is there now.
    New,
    /// It was there before.
    Old,
    /// It does not fit.
    NoRoom,
}

/// Puts an entry into a leaf whose bytes may be any. The leaf stays where it is not new, or does not fit.
pub fn put_in(page: &mut [u8], key: &[u8], place: u64) -> Result<Put, Check>
    requires whole { length page.old ≡ 4096 }
    requires short { length key.now ≤ 512 }
    ensures new { result ≡ Ok Put.New → (link : ℕ) (es : List Entry)
        → IsNode false page.old 0 link es
        → Adds page.new link es (record { key = key.now; place = place; child = 0 }) }
    ensures had { result ≡ Ok Put.Old → (link : ℕ) (es : List Entry)
        → IsNode false page.old 0 link es
        → Has es (record { key = key.now; place = place; child = 0 }) }
    ensures old { result ≡ Ok Put.Old → page.new ≡ page.old }
    ensures no_room { result ≡ Ok Put.NoRoom → (page.new ≡ page.old)
        × (4096 < number page.old 4 + 10 + length key.now) }
    ensures damaged { IfErr result (λ c. (link : ℕ) (es : List Entry)
        → IsNode false page.old 0 link es → ⊥) }
    ensures err { OnErr result (page.new ≡ page.old) }
    ensures wrong { IfErr result IsTreeCheck }
{
    let level = level_of(page)?;
    if level != 0 {
        return Err(Check::Level);
    }
    let spot = find(page, false, key, place)?;
    if spot.there {
        return Ok(Put::Old);
    }
    if number_at(page, FREE) + BEFORE_KEY + key.len() > PAGE {
        return Ok(Put::NoRoom);
    }
    insert(page, spot.at, false, key, place, 0);
    Ok(Put::New)
}

/// Puts an entry into a leaf.
pub fn put_into<S: Pages>(
    space: &mut S,
    page: PageId,
    key: &[u8],
    place: u64,
) -> Result<Put, PageFault>
    requires no_pins { NoPins (S.state space.old) }
    requires short { length key.now ≤ 512 }
    requires free { (S.state space.old).told ≡ true → IsFree (S.state space.old) page }
    requires sound { (S.state space.old).told ≡ true → (bytes : List ℕ) × (link : ℕ) × (es : List Entry) × ((S.state space.old).bytes (page_key page) ≡ Some bytes) × IsNode false bytes 0 link es }
    ensures puts { IfOk result (λ how. PutsInto (S.state space.old) (S.state space.new) page (record { key = key.now; place = place; child = 0 }) how) }
    ensures err { OnErr result (Looks (S.state space.old) (S.state space.new)) }
    ensures cause { HasCause (S.state space.old) (S.state space.new) (fault_of result) }
    ensures fault { IfErr result (LookFault page.file) }
{
    let pin = open(space, page)?;
    let answer = put_in(space.bytes_mut(&pin), key, place);
    space.unpin(pin);
    match answer {
        Ok(how) => Ok(how),
        Err(check) => Err(PageFault::Damaged { page, check }),
    }
}

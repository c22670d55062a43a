//! The walk along the entries whose keys begin alike.
ghost use Rattle.std.specs.Prelude.{◌≡◌, ℕ, ◌+◌, ◌^◌, ◌<◌, ◌≤◌, true, List, length, Some, None, IsOk, IfOk, IfErr, IfSome, option_map};
ghost use Rattle.std.specs.Bool.{OnTrue, OnFalse};
ghost use Rattle.hg_base.specs.Space.{NoPins};
ghost use Rattle.hg_base.specs.Causes.{HasCause, fault_of};
ghost use Rattle.hg_btree.specs.Entries.{Entry, AllBy};
ghost use Rattle.hg_btree.specs.Steps.{Looks};
ghost use Rattle.hg_btree.specs.Trees.{IsTree};
ghost use Rattle.hg_index.specs.Calls.{FindFault, IsIndexCheck};
ghost use Rattle.hg_index.specs.Entering.{place_number, IsPlace};
ghost use Rattle.hg_index.specs.Walks.{HasPrefix, HasPlace, HasPlaces, FindsNumber, FindsPlace, IsWalkAt, IsLesser};

use crate::find::{damaged, place_of};
use arrayvec::ArrayVec;
use hg_base::{Check, PageFault, Pages, Place, Tree};
use hg_btree::TreeCalls;

/// No leaf has more entries than this.
const MOST_ON_A_LEAF: u64 = 512;

/// How far a walk has come: it goes on at the first entry that is not before this key and place. `least` is
/// the least place that it met and that is not below the one from which on places are wanted.
#[derive(Drop)]
struct Walk {
    key: ArrayVec<u8, 512>,
    from: u64,
    least: Option<u64>,
}

/// The lesser of a number and one that there may be.
fn lesser(least: Option<u64>, number: u64) -> u64
    ensures { IsLesser least number result }
{
    match least {
        Some(other) => other.min(number),
        None => number,
    }
}

/// A walk that begins at a key.
fn begin(prefix: &[u8], low: u64) -> Walk
    requires { length prefix.now ≤ 512 }
    ensures key { result.key.items ≡ prefix.now }
    ensures from { result.from ≡ low }
    ensures none { result.least ≡ None }
{
    let mut key: ArrayVec<u8, 512> = ArrayVec::new();
    let _ = key.try_extend_from_slice(prefix);
    Walk {
        key,
        from: low,
        least: None,
    }
}

/// One entry further. Of the entries with one key those below `low` are passed over at once, and so are
/// those behind the first one that is not. False where the walk has come to its end.
fn step<S: Pages>(
    walk: &mut Walk,
    tree: Tree,
    space: &mut S,
    prefix: &[u8],
    low: u64,
) -> Result<bool, PageFault>
    requires out { NoPins (S.state space.old) }
    requires there { (S.state space.old).told ≡ true
        → HasPlaces tree.file (S.state space.old) tree.top }
    ensures goes { IfOk result (λ go. (es : List Entry) (pages : List ℕ) (leaves turns : ℕ)
        → IsTree tree.file (S.state space.old) tree.top es pages leaves → AllBy HasPlace es
        → IsWalkAt es prefix.now low walk.old.key.items walk.old.from walk.old.least turns
        → OnTrue go (IsWalkAt es prefix.now low walk.new.key.items walk.new.from walk.new.least (turns + 1))
        × OnFalse go (FindsNumber (HasPrefix prefix.now) low es walk.new.least)) }
    ensures looks { Looks (S.state space.old) (S.state space.new) }
    ensures cause { HasCause (S.state space.old) (S.state space.new) (fault_of result) }
    ensures fault { IfErr result (FindFault tree.file) }
{
    let mut found: ArrayVec<u8, 512> = ArrayVec::new();
    let Some(number) = tree.seek(space, walk.key.as_slice(), walk.from, &mut found)? else {
        return Ok(false);
    };
    if !begins_so(found.as_slice(), prefix) {
        return Ok(false);
    }
    walk.key = found;
    if number < low {
        walk.from = low;
    } else {
        walk.from = u64::MAX;
        walk.least = Some(lesser(walk.least, number));
    }
    Ok(true)
}

/// Whether a key begins so.

fn begins_so(key: &[u8], prefix: &[u8]) -> bool
    ensures yes { OnTrue result (HasPrefix prefix.now key.now) }
    ensures other { OnFalse result (HasPrefix prefix.now key.now → ⊥) }
{
    key.starts_with(prefix)
}

/// The place that was met, if one was.
fn place_met(least: Option<u64>, low: u64) -> Result<Option<Place>, Check>
    ensures number { IfOk result (λ place. option_map place_number place ≡ least) }
    ensures from { IfOk result (λ place. IfSome place (λ p. low ≤ place_number p)) }
    ensures proper { IfOk result (λ place. IfSome place IsPlace) }
    ensures none { least ≡ None → IsOk result }
    ensures known { (n : ℕ) → least ≡ Some n → low ≤ n → n < 2 ^ 48 → IsOk result }
    ensures check { IfErr result IsIndexCheck }
{
    match least {
        None => Ok(None),
        Some(number) => match place_of(number, low) {
            Ok(place) => Ok(Some(place)),
            Err(check) => Err(check),
        },
    }
}

/// The least place from `low` on of the entries whose keys begin so.
pub fn least_of_prefix<S: Pages>(
    tree: Tree,
    space: &mut S,
    prefix: &[u8],
    low: u64,
) -> Result<Option<Place>, PageFault>
    requires out { NoPins (S.state space.old) }
    requires there { (S.state space.old).told ≡ true
        → HasPlaces tree.file (S.state space.old) tree.top }
    requires short { length prefix.now ≤ 512 }
    ensures found { IfOk result (λ place. (es : List Entry) (pages : List ℕ) (leaves : ℕ)
        → IsTree tree.file (S.state space.old) tree.top es pages leaves → AllBy HasPlace es
        → FindsPlace (HasPrefix prefix.now) low es place) }
    ensures from { IfOk result (λ place. IfSome place (λ p. low ≤ place_number p)) }
    ensures proper { IfOk result (λ place. IfSome place IsPlace) }
    ensures looks { Looks (S.state space.old) (S.state space.new) }
    ensures cause { HasCause (S.state space.old) (S.state space.new) (fault_of result) }
    ensures fault { IfErr result (FindFault tree.file) }
{
    let mut walk = begin(prefix, low);
    for _turn in 0..space.taken(tree.file) as u64 * MOST_ON_A_LEAF {
        if !step(&mut walk, tree, space, prefix, low)? {
            return match place_met(walk.least, low) {
                Ok(place) => Ok(place),
                Err(check) => Err(damaged(tree, check)),
            };
        }
    }
    Err(damaged(tree, Check::Order))
}

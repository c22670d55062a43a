//! What is found in an index.
ghost use Rattle.std.specs.Prelude.{◌≡◌, ℕ, ◌^◌, ◌<◌, ◌≤◌, true, List, Ok, None, IsOk, IfOk, IfErr, IfSome};
ghost use Rattle.std.specs.List.{AllByRecursion};
ghost use Rattle.hg_base.specs.Space.{NoPins};
ghost use Rattle.hg_base.specs.Causes.{HasCause, fault_of};
ghost use Rattle.hg_btree.specs.Entries.{Entry, AllBy};
ghost use Rattle.hg_btree.specs.Steps.{Looks};
ghost use Rattle.hg_btree.specs.Trees.{IsTree};
ghost use Rattle.hg_index.specs.Agreeing.{IsIndexOf};
ghost use Rattle.hg_index.specs.Calls.{HasIndex, IsIndexCheck, FindFault};
ghost use Rattle.hg_index.specs.Entering.{place_number, IsPlace, MayBeEntered};
ghost use Rattle.hg_index.specs.Finding.{IsBehind, HasFirst, HasKeyOf, FirstCompares, KeyCompares, FindsLeast, number_behind};
ghost use Rattle.hg_index.specs.Walks.{HasPlace, HasPlaces, FindsPlace};
ghost use Rattle.hg_table.specs.Versions.{Placed};
ghost use Rattle.hg_value.specs.Keys.{IsNarrow};

use crate::key::{put_first_key, put_row_key};
use crate::walk::least_of_prefix;
use arrayvec::ArrayVec;
use hg_base::{Check, Index, PageFault, PageId, Pages, Place, Tree};
use hg_btree::TreeCalls;
use hg_model::Value;
use hg_value::{Row, index_keys_compare};

/// A tree is damaged so. Which page is, is not known: its top is named.
pub fn damaged(tree: Tree, check: Check) -> PageFault
    ensures { result ≡ PageFault.Damaged (record { file = tree.file; no = tree.top }) check }
{
    PageFault::Damaged {
        page: PageId {
            file: tree.file,
            no: tree.top,
        },
        check,
    }
}

/// The number of the first place behind this one, or of the first of all.
pub fn number_behind(after: Option<Place>) -> u64
    ensures { result ≡ number_behind after }
{
    match after {
        None => 0,
        Some(place) => place.number() + 1,
    }
}

/// The place of an entry that was sought from `low` on.
pub fn place_of(number: u64, low: u64) -> Result<Place, Check>
    ensures number { IfOk result (λ place. place_number place ≡ number) }
    ensures from { IfOk result (λ place. low ≤ number) }
    ensures proper { IfOk result IsPlace }
    ensures known { low ≤ number → number < 2 ^ 48 → IsOk result }
    ensures check { IfErr result IsIndexCheck }
{
    if number < low {
        return Err(Check::Order);
    }
    match Place::of_number(number) {
        Some(place) => Ok(place),
        None => Err(Check::RowBytes),
    }
}

/// The least place from `low` on of the entries with this key.
fn least_of_key<S: Pages>(
    tree: Tree,
    space: &mut S,
    key: &[u8],
    low: u64,
) -> Result<Option<Place>, PageFault>
    requires out { NoPins (S.state space.old) }
    requires there { (S.state space.old).told ≡ true
        → HasPlaces tree.file (S.state space.old) tree.top }
    ensures found { IfOk result (λ place. (es : List Entry) (pages : List ℕ) (leaves : ℕ)
        → IsTree tree.file (S.state space.old) tree.top es pages leaves → AllBy HasPlace es
        → FindsPlace (λ k. k ≡ key.now) low es place) }
    ensures from { IfOk result (λ place. IfSome place (λ p. low ≤ place_number p)) }
    ensures proper { IfOk result (λ place. IfSome place IsPlace) }
    ensures looks { Looks (S.state space.old) (S.state space.new) }
    ensures cause { HasCause (S.state space.old) (S.state space.new) (fault_of result) }
    ensures fault { IfErr result (FindFault tree.file) }
{
    let mut found: ArrayVec<u8, 512> = ArrayVec::new();
    let Some(number) = tree.seek(space, key, low, &mut found)? else {
        return Ok(None);
    };
    if found.as_slice() != key {
        return Ok(None);
    }
    match place_of(number, low) {
        Ok(place) => Ok(Some(place)),
        Err(check) => Err(damaged(tree, check)),
    }
}

/// The least place behind `after` of the versions whose first key column is this value. NULL is a value
/// like others.
pub fn first_from<S: Pages>(
    index: &Index,
    space: &mut S,
    first: &Value,
    after: Option<Place>,
) -> Result<Option<Place>, PageFault>
    requires out { NoPins (S.state space.old) }
    requires there { (S.state space.old).told ≡ true → HasIndex (S.state space.old) index.now }
    ensures first { IfOk result (λ found. (pages : List ℕ) (leaves : ℕ) (versions : List Placed)
        → IsIndexOf (S.state space.old) index.now pages leaves versions
        → AllByRecursion (FirstCompares index.now.columns.items first.now) versions
        → FindsLeast (HasFirst index.now.columns.items first.now) after versions found) }
    ensures behind { IfOk result (λ found. IfSome found (IsBehind after)) }
    ensures wide { (IsNarrow first.now → ⊥) → result ≡ Ok None }
    ensures looks { Looks (S.state space.old) (S.state space.new) }
    ensures cause { HasCause (S.state space.old) (S.state space.new) (fault_of result) }
    ensures fault { IfErr result (FindFault index.now.tree.file) }
{
    index_keys_compare();
    let mut key: ArrayVec<u8, 512> = ArrayVec::new();
    if !put_first_key(first, &mut key) {
        return Ok(None);
    }
    let low = number_behind(after);
    if index.columns.len() == 1 {
        least_of_key(index.tree, space, key.as_slice(), low)
    } else {
        least_of_prefix(index.tree, space, key.as_slice(), low)
    }
}

/// The least place behind `after` of the versions that have the key of this row. Two NULLs are one key
/// here.
pub fn same_key<S: Pages>(
    index: &Index,
    space: &mut S,
    row: &Row,
    after: Option<Place>,
) -> Result<Option<Place>, PageFault>
    requires out { NoPins (S.state space.old) }
    requires there { (S.state space.old).told ≡ true → HasIndex (S.state space.old) index.now }
    requires may { MayBeEntered index.now.columns.items row.now }
    ensures same { IfOk result (λ found. (pages : List ℕ) (leaves : ℕ) (versions : List Placed)
        → IsIndexOf (S.state space.old) index.now pages leaves versions
        → AllByRecursion (KeyCompares index.now.columns.items row.now) versions
        → FindsLeast (HasKeyOf index.now.columns.items row.now) after versions found) }
    ensures behind { IfOk result (λ found. IfSome found (IsBehind after)) }
    ensures looks { Looks (S.state space.old) (S.state space.new) }
    ensures cause { HasCause (S.state space.old) (S.state space.new) (fault_of result) }
    ensures fault { IfErr result (FindFault index.now.tree.file) }
{
    index_keys_compare();
    let mut key: ArrayVec<u8, 512> = ArrayVec::new();
    put_row_key(index.columns.as_slice(), row, &mut key);
    least_of_key(index.tree, space, key.as_slice(), number_behind(after))
}

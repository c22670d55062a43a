//! A leaf alone: what stands on it after entries were put in and taken out, and damaged pages. A tree of
//! several levels: keys put in from the last to the first, and walked from the first to the last.
ghost use Rattle.std.specs.Prelude.{◌≤◌, ◌<◌, ◌^◌, length, IfOk};
ghost use Rattle.hg_base.specs.Space.{NoPins};
ghost use Rattle.hg_btree.specs.Kept.{IsReady};

use crate::change::{Put, put_in, take_out};
use crate::delete::delete;
use crate::insert::insert;
use crate::life::{destroy, make};
use crate::node::first_from;
use crate::seek::seek;
use crate::write::start;
use arrayvec::ArrayVec;
use hg_base::{Check, File, PageFault, Pages, PlainSpace, Tree};
use std::test::Fail;

#[test]
fn a_leaf_keeps_its_entries_in_order(rt: HostRuntime) -> Result<(), Fail> {
    let mut page = [0u8; 4096];
    let mut out: ArrayVec<u8, 512> = ArrayVec::new();
    start(&mut page, false, 0, u32::MAX);
    for n in 0..100u8 {
        assert_eq!(rt; put_in(&mut page, &[1, 99 - n], 7)?, Put::New);
    }
    assert_eq!(rt; put_in(&mut page, &[1, 50], 7)?, Put::Old);
    assert_eq!(rt; put_in(&mut page, &[1, 50], 6)?, Put::New);
    assert_eq!(rt; first_from(&page, &[1, 50], 0, &mut out)?, Some(6));
    assert_eq!(rt; take_out(&mut page, &[1, 50], 6)?, true);
    for n in 0..100u8 {
        assert_eq!(rt; first_from(&page, &[1, n], 0, &mut out)?, Some(7));
        assert_eq!(rt; out.as_slice(), [1, n].as_slice());
    }
    assert_eq!(rt; first_from(&page, &[1, 100], 0, &mut out)?, None);
    for n in 0..50u8 {
        assert_eq!(rt; take_out(&mut page, &[1, 2 * n], 7)?, true);
        assert_eq!(rt; take_out(&mut page, &[1, 2 * n], 7)?, false);
    }
    for n in 0..50u8 {
        assert_eq!(rt; first_from(&page, &[1, 2 * n], 0, &mut out)?, Some(7));
        assert_eq!(rt; out.as_slice(), [1, 2 * n + 1].as_slice());
    }
    Ok(())
}

#[test]
fn seven_longest_keys_fill_a_leaf(rt: HostRuntime) -> Result<(), Fail> {
    let mut page = [0u8; 4096];
    let mut key = [0u8; 512];
    start(&mut page, false, 0, u32::MAX);
    for n in 0..7u8 {
        key[511] = n;
        assert_eq!(rt; put_in(&mut page, &key, 0)?, Put::New);
    }
    key[511] = 7;
    assert_eq!(rt; put_in(&mut page, &key, 0)?, Put::NoRoom);
    Ok(())
}

#[test]
fn damaged_leaves(rt: HostRuntime) -> Result<(), Fail> {
    let mut page = [0u8; 4096];
    assert_eq!(rt; put_in(&mut page, &[1], 0), Err(Check::Kind));
    start(&mut page, false, 0, u32::MAX);
    page[1] = 1;
    assert_eq!(rt; put_in(&mut page, &[1], 0), Err(Check::Level));
    page[1] = 0;
    page[4] = 15;
    assert_eq!(rt; put_in(&mut page, &[1], 0), Err(Check::Size));
    page[4] = 20;
    assert_eq!(rt; take_out(&mut page, &[1], 0), Err(Check::Size));
    Ok(())
}

/// What was found of a tree: how many keys were new when they were put in, and when they were put in once
/// more, how many a walk from the empty key met in ascending order, how many were taken out, how many a
/// walk met then, whether it had several levels, and the pages that it leaves behind.
#[derive(Clone, Copy, PartialEq, Eq, Debug)]
struct Totals {
    new: u32,
    again: u32,
    walked: u32,
    out: u32,
    rest: u32,
    several: bool,
    left: u32,
}

/// Makes a tree with no entries.
pub fn begin<S: Pages>(space: &mut S) -> Result<Tree, PageFault>
    requires no_pins { NoPins (S.state space.old) }
    requires numbers { (S.state space.old).limit File.Temp < 2 ^ 32 }
    ensures { IfOk result (λ tree. IsReady (S.state space.new) tree) }
{
    make(space, File::Temp)
}

/// Puts an entry in.
pub fn put<S: Pages>(tree: Tree, space: &mut S, key: &[u8], place: u64) -> Result<bool, PageFault>
    requires ready { IsReady (S.state space.old) tree }
    requires short { length key.now ≤ 512 }
    ensures { IsReady (S.state space.new) tree }
{
    insert(tree, space, key, place)
}

/// Takes an entry out.
pub fn take<S: Pages>(tree: Tree, space: &mut S, key: &[u8], place: u64) -> Result<bool, PageFault>
    requires { IsReady (S.state space.old) tree }
    ensures { IsReady (S.state space.new) tree }
{
    delete(tree, space, key, place)
}

/// The first entry that is not before the one given.
pub fn next<S: Pages>(
    tree: Tree,
    space: &mut S,
    key: &[u8],
    place: u64,
    out: &mut ArrayVec<u8, 512>,
) -> Result<Option<u64>, PageFault>
    requires { IsReady (S.state space.old) tree }
    ensures { IsReady (S.state space.new) tree }
{
    seek(tree, space, key, place, out)
}

/// Puts so many keys in, from the last to the first. How many were new.
fn fill<S: Pages>(tree: Tree, space: &mut S, many: u32) -> Result<u32, PageFault>
    requires { IsReady (S.state space.old) tree }
    ensures { IsReady (S.state space.new) tree }
{
    let mut new = 0u32;
    for n in 0..many {
        let key = (many - 1 - n).to_be_bytes();
        if put(tree, space, &key, 5)? {
            new = new.saturating_add(1);
        }
    }
    Ok(new)
}

/// Takes every second one of so many keys out. How many were there.
fn thin<S: Pages>(tree: Tree, space: &mut S, many: u32) -> Result<u32, PageFault>
    requires { IsReady (S.state space.old) tree }
    ensures { IsReady (S.state space.new) tree }
{
    let mut out = 0u32;
    for n in 0..many {
        let key = n.saturating_mul(2).to_be_bytes();
        if take(tree, space, &key, 5)? {
            out = out.saturating_add(1);
        }
    }
    Ok(out)
}

/// Walks a tree from the empty key to its end: how many entries it meets, where they are those of the
/// numbers from `first` on with this step between them.
fn walk<S: Pages>(tree: Tree, space: &mut S, first: u32, step: u32) -> Result<u32, PageFault>
    requires { IsReady (S.state space.old) tree }
    ensures { IsReady (S.state space.new) tree }
{
    let mut key: ArrayVec<u8, 512> = ArrayVec::new();
    let mut out: ArrayVec<u8, 512> = ArrayVec::new();
    let mut number = first;
    for n in 0..100_000u32 {
        let Some(place) = next(tree, space, key.as_slice(), 0, &mut out)? else {
            return Ok(n);
        };
        if place != 5 || out.as_slice() != number.to_be_bytes().as_slice() {
            return Ok(0);
        }
        key.clear();
        let _ = key.try_extend_from_slice(&number.saturating_add(1).to_be_bytes());
        number = number.saturating_add(step);
    }
    Ok(0)
}

/// Makes a tree of so many keys, walks it, thins it, and gives its pages back.
fn round<S: Pages>(space: &mut S, many: u32) -> Result<Totals, PageFault>
    requires no_pins { NoPins (S.state space.old) }
    requires numbers { (S.state space.old).limit File.Temp < 2 ^ 32 }
{
    let tree = begin(space)?;
    let new = fill(tree, space, many)?;
    let again = fill(tree, space, many)?;
    let pages = space.taken(File::Temp);
    let walked = walk(tree, space, 0, 1)?;
    let out = thin(tree, space, many)?;
    let rest = walk(tree, space, 1, 2)?;
    destroy(tree, space);
    Ok(Totals {
        new,
        again,
        walked,
        out,
        rest,
        several: pages > 3,
        left: space.taken(File::Temp),
    })
}

#[test]
fn descending_keys_are_walked_ascending(rt: HostRuntime) -> Result<(), Fail> {
    let mut space = PlainSpace::new(rt.alloc());
    assert_eq!(rt;
        round(&mut space, 3_000)?,
        Totals {
            new: 3_000,
            again: 0,
            walked: 3_000,
            out: 1_500,
            rest: 1_500,
            several: true,
            left: 0,
        }
    );
    Ok(())
}

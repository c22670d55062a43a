//! An ordered tree of 400 keys of the longest kind, put in in a mixed order over a pool of 16 frames, of
//! whose main device one call fails. The call on the tree that meets the fault is refused, and the tree
//! then has the list of entries that it had before; every other one leaves it with its own entry too. At
//! the end no entry is missing. Seven keys fill a leaf, and an inner page has eight children at most: so
//! leaves and the pages of the two levels above them are split.
ghost use Rattle.std.specs.Prelude.{◌≡◌, ◌≤◌, ◌<◌, ◌^◌, ℕ, false, length, IfOk, IfSome, OnErr};
ghost use Rattle.hg_pool.specs.Resizing.{NoneOut};
ghost use Rattle.hg_trials.specs.Alone.{StandsAlone};

use arrayvec::ArrayVec;
use hg_base::{File, PageFault, Pages, Tree};
use hg_btree::{TreeCalls, make};
use hg_io::MemDevice;
use hg_pool::{Config, Pool};
use std::alloc::{AllocError, Global};
use std::process::Abort;
use std::test::Fail;

/// How many entries there are.
const MANY: usize = 400;

/// The place of the entry of that number.
fn place_of(number: usize) -> u64 {
    (number as u64).wrapping_add(1_000)
}

/// The key of the entry of that number: keys ascend as their numbers do.
fn key_of(number: usize) -> [u8; 512] {
    let mut key = [7; 512];
    key[0] = ((number / 256) % 256) as u8;
    key[1] = (number % 256) as u8;
    key
}

/// The number of the entry that comes in at this turn: each comes once.
fn number_at(turn: usize) -> usize {
    (turn % MANY) * 177 % MANY
}

/// Puts the entry of a number in.
fn put<S: Pages>(tree: Tree, space: &mut S, number: usize) -> Result<bool, PageFault>
    requires { StandsAlone (S.state space.old) tree }
    ensures { StandsAlone (S.state space.new) tree }
{
    let mut handle = tree;
    handle.insert(space, key_of(number).as_slice(), place_of(number))
}

/// The first entry that is not before the one given.
fn next<S: Pages>(
    tree: Tree,
    space: &mut S,
    key: &[u8],
    place: u64,
    out: &mut ArrayVec<u8, 512>,
) -> Result<Option<u64>, PageFault>
    requires { StandsAlone (S.state space.old) tree }
    ensures { StandsAlone (S.state space.new) tree }
{
    tree.seek(space, key, place, out)
}

/// Whether a walk from the least key meets the entries of these numbers, in their order, and no other.
fn has_list<S: Pages>(tree: Tree, space: &mut S, there: &[bool]) -> Result<bool, PageFault>
    requires { StandsAlone (S.state space.old) tree }
    ensures { StandsAlone (S.state space.new) tree }
{
    let mut key = [0; 512];
    let mut place = 0;
    let mut out: ArrayVec<u8, 512> = ArrayVec::new();
    for number in 0..there.len() {
        if there[number] {
            let found = next(tree, space, key.as_slice(), place, &mut out)?;
            key = key_of(number);
            place = place_of(number);
            if found != Some(place) || out.as_slice() != key.as_slice() {
                return Ok(false);
            }
            place = place.wrapping_add(1);
        }
    }
    let end = next(tree, space, key.as_slice(), place, &mut out)?;
    Ok(end.is_none())
}

/// What a trial found: how many calls were refused, whether the tree always had the list that it should
/// have, and how many pages it has at the end.
#[derive(Clone, Copy, PartialEq, Eq, Debug)]
struct Found {
    refused: u32,
    right: bool,
    pages: u32,
}

/// Puts the entry of a number in. Where that is refused, the tree has to have the list that it had
/// before, and then the entry is put in again. Whether all was right.
fn put_surely<S: Pages>(
    tree: Tree,
    space: &mut S,
    there: &[bool],
    number: usize,
    refused: &mut u32,
) -> Result<bool, PageFault>
    requires { StandsAlone (S.state space.old) tree }
    ensures { StandsAlone (S.state space.new) tree }
{
    match put(tree, space, number) {
        Ok(new) => Ok(new),
        Err(_) => {
            *refused = refused.saturating_add(1);
            let right = has_list(tree, space, there)?;
            let new = put(tree, space, number)?;
            Ok(right && new)
        }
    }
}

/// Notes that the entry of a number is in.
fn note(there: &mut [bool], number: usize) {
    if number < there.len() {
        there[number] = true;
    }
}

/// `has_list`, where it is wanted.
fn has_list_if<S: Pages>(
    wanted: bool,
    tree: Tree,
    space: &mut S,
    there: &[bool],
) -> Result<bool, PageFault>
    requires { StandsAlone (S.state space.old) tree }
    ensures { StandsAlone (S.state space.new) tree }
{
    if wanted {
        has_list(tree, space, there)
    } else {
        Ok(true)
    }
}

/// Puts all entries in; the list is walked after each call where `often` says so, and at the end.
fn fill<S: Pages>(
    tree: Tree,
    space: &mut S,
    there: &mut [bool],
    often: bool,
) -> Result<Found, PageFault>
    requires { StandsAlone (S.state space.old) tree }
    ensures { StandsAlone (S.state space.new) tree }
{
    let mut refused = 0u32;
    let mut right = true;
    for turn in 0..there.len() {
        let number = number_at(turn);
        let before = put_surely(tree, space, there, number, &mut refused)?;
        note(there, number);
        let after = has_list_if(often, tree, space, there)?;
        right = right && before && after;
    }
    let whole = has_list(tree, space, there)?;
    Ok(Found {
        refused,
        right: right && whole,
        pages: space.taken(File::Main),
    })
}

/// Makes a tree, in a space without heaps.
fn make_alone<S: Pages>(space: &mut S) -> Result<Tree, PageFault>
    requires out { NoneOut (S.state space.old) }
    requires numbers { (S.state space.old).limit File.Main < 2 ^ 32 }
    ensures ok { IfOk result (StandsAlone (S.state space.new)) }
    ensures err { OnErr result (NoneOut (S.state space.new)) }
{
    let tree = make(space, File::Main)?;
    Ok(tree)
}

/// Makes a tree and fills it.
fn grow<S: Pages>(space: &mut S, often: bool) -> Result<Found, PageFault>
    requires out { NoneOut (S.state space.old) }
    requires numbers { (S.state space.old).limit File.Main < 2 ^ 32 }
    ensures out { NoneOut (S.state space.new) }
{
    let tree = make_alone(space)?;
    let mut there = [false; MANY];
    fill(tree, space, there.as_mut_slice(), often)
}

/// A pool of 16 frames over a main device in which these calls fail.
fn open(
    alloc: Global,
    reads: &[u64],
    writes: &[u64],
) -> Result<Pool<MemDevice, MemDevice>, AllocError>
    ensures out { IfOk result (λ pool. NoneOut (⟦<Pool<MemDevice, MemDevice> as Pages>⟧.state pool)) }
    ensures few { IfOk result (λ pool. (⟦<Pool<MemDevice, MemDevice> as Pages>⟧.state pool).limit File.Main < 2 ^ 32) }
{
    let config = Config {
        max: 16,
        pool: 16,
        mpl: 1,
        main_pages: 256,
        temp_pages: 64,
    };
    let reads = Vec::from_slice(alloc, reads)?;
    let writes = Vec::from_slice(alloc, writes)?;
    let main = MemDevice::new(alloc, reads, writes);
    let temp = MemDevice::new(alloc, Vec::new(alloc), Vec::new(alloc));
    match Pool::new(alloc, &config, main, temp) {
        Ok(pool) => Ok(pool),
        Err(_) => Err(AllocError),
    }
}

/// A trial in which these calls fail, and how many reads and writes there were. None where a fault was
/// met by a walk and not by an insertion.
fn trial(
    alloc: Global,
    reads: &[u64],
    writes: &[u64],
    often: bool,
) -> Result<Option<Found>, AllocError> {
    let mut pool = open(alloc, reads, writes)?;
    let found = grow(&mut pool, often);
    let _ = pool.close();
    Ok(found.ok())
}

/// More pages than three levels can have: 1, 8 and 64.
const THREE_LEVELS: u32 = 73;

fn is_right(found: &Found, refused: u32) -> bool {
    found.right && found.refused == refused && found.pages > THREE_LEVELS
}

/// No call fails; the list is walked after each insertion.
#[test]
fn no_call_fails(rt: HostRuntime) -> Result<(), Fail> {
    let found = trial(rt.alloc(), &[], &[], true)?;
    assert!(rt; found.is_some_and(|found| is_right(&found, 0)));
    Ok(())
}

/// The reads and the writes of these numbers fail, one in each run. A number that no insertion reaches
/// ends it, and some are reached.
fn each_fails(
    rt: &impl Abort,
    alloc: Global,
    first: u64,
    behind: u64,
    of_reads: bool,
) -> Result<(), AllocError> {
    for call in first..behind {
        let calls = [call];
        let found = if of_reads {
            trial(alloc, &calls, &[], false)?
        } else {
            trial(alloc, &[], &calls, false)?
        };
        let Some(found) = found else {
            assert!(rt; call > first);
            return Ok(());
        };
        assert!(rt; is_right(&found, 1), "at {call}");
    }
    Ok(())
}

#[test]
fn reads_1_to_300_fail(rt: HostRuntime) -> Result<(), Fail> {
    each_fails(&rt, rt.alloc(), 1, 301, true)?;
    Ok(())
}

#[test]
fn later_reads_fail(rt: HostRuntime) -> Result<(), Fail> {
    each_fails(&rt, rt.alloc(), 301, 10_000, true)?;
    Ok(())
}

#[test]
fn writes_1_to_300_fail(rt: HostRuntime) -> Result<(), Fail> {
    each_fails(&rt, rt.alloc(), 1, 301, false)?;
    Ok(())
}

#[test]
fn later_writes_fail(rt: HostRuntime) -> Result<(), Fail> {
    each_fails(&rt, rt.alloc(), 301, 10_000, false)?;
    Ok(())
}

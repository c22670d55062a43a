//! Many keys of all lengths in a mixed order, half of them taken out again, against a sorted map.
ghost use Rattle.std.specs.Prelude.{◌≤◌, ◌<◌, ◌^◌, length, IfOk};
ghost use Rattle.hg_base.specs.Space.{NoPins};
ghost use Rattle.hg_btree.specs.Kept.{IsReady};

use crate::life::destroy;
use crate::tests::{begin, next, put, take};
use arrayvec::ArrayVec;
use hg_base::{File, PageFault, Pages, PlainSpace, Tree};
use std::alloc::Global;
use std::collections::BTreeMap;
use std::test::Fail;

/// A key and a place, which a map orders as a tree does.
#[derive(PartialEq, Eq, PartialOrd, Ord, Drop)]
struct Entry {
    key: Vec<u8>,
    place: u64,
}

/// Why a round stopped.
#[derive(Debug, Drop)]
enum Stop {
    Page(PageFault),
    Memory,
    /// The tree and the map differ at the entry of this place.
    Differs(u64),
}

/// The next number of a sequence that looks like chance.
fn drawn(state: &mut u64) -> u64 {
    *state = state
        .wrapping_mul(6_364_136_223_846_793_005)
        .wrapping_add(1_442_695_040_888_963_407);
    *state >> 33
}

/// A key of 0 to 512 bytes.
fn draw_key(state: &mut u64, key: &mut ArrayVec<u8, 512>) {
    key.clear();
    let many = drawn(state) % 513;
    for _n in 0..many {
        let _ = key.try_push((drawn(state) % 256) as u8);
    }
}

/// The entry of a key and a place, as the map keeps it.
fn entry_of(alloc: Global, key: &[u8], place: u64) -> Result<Entry, Stop> {
    let mut bytes = Vec::new(alloc);
    match bytes.extend_from_slice(key) {
        Ok(_) => Ok(Entry { key: bytes, place }),
        Err(_) => Err(Stop::Memory),
    }
}

/// Puts an entry into both.
fn put_in_both<S: Pages>(
    alloc: Global,
    tree: Tree,
    space: &mut S,
    map: &mut BTreeMap<Entry, bool>,
    key: &[u8],
    place: u64,
) -> Result<(), Stop>
    requires ready { IsReady (S.state space.old) tree }
    requires short { length key.now ≤ 512 }
    ensures { IsReady (S.state space.new) tree }
{
    let new = match put(tree, space, key, place) {
        Ok(new) => new,
        Err(fault) => return Err(Stop::Page(fault)),
    };
    match map.insert(entry_of(alloc, key, place)?, true) {
        Ok(old) => {
            if old.is_none() == new {
                Ok(())
            } else {
                Err(Stop::Differs(place))
            }
        }
        Err(_) => Err(Stop::Memory),
    }
}

/// Takes an entry out of both.
fn take_out_of_both<S: Pages>(
    alloc: Global,
    tree: Tree,
    space: &mut S,
    map: &mut BTreeMap<Entry, bool>,
    key: &[u8],
    place: u64,
) -> Result<(), Stop>
    requires ready { IsReady (S.state space.old) tree }
    ensures { IsReady (S.state space.new) tree }
{
    let gone = match take(tree, space, key, place) {
        Ok(gone) => gone,
        Err(fault) => return Err(Stop::Page(fault)),
    };
    if map.remove(&entry_of(alloc, key, place)?).is_some() == gone {
        Ok(())
    } else {
        Err(Stop::Differs(place))
    }
}

/// Puts so many entries into both, each of a key that is drawn.
fn fill<S: Pages>(
    alloc: Global,
    tree: Tree,
    space: &mut S,
    map: &mut BTreeMap<Entry, bool>,
    many: u64,
) -> Result<(), Stop>
    requires { IsReady (S.state space.old) tree }
    ensures { IsReady (S.state space.new) tree }
{
    let mut state = 1u64;
    let mut key: ArrayVec<u8, 512> = ArrayVec::new();
    for place in 0..many {
        draw_key(&mut state, &mut key);
        put_in_both(alloc, tree, space, map, key.as_slice(), place)?;
    }
    Ok(())
}

/// Takes every second entry of the same keys out of both.
fn thin<S: Pages>(
    alloc: Global,
    tree: Tree,
    space: &mut S,
    map: &mut BTreeMap<Entry, bool>,
    many: u64,
) -> Result<(), Stop>
    requires { IsReady (S.state space.old) tree }
    ensures { IsReady (S.state space.new) tree }
{
    let mut state = 1u64;
    let mut key: ArrayVec<u8, 512> = ArrayVec::new();
    for place in 0..many {
        draw_key(&mut state, &mut key);
        if place % 2 == 0 {
            take_out_of_both(alloc, tree, space, map, key.as_slice(), place)?;
        }
    }
    Ok(())
}

/// Whether what was found is this entry of the map.
fn is_entry(found: Option<u64>, key: &[u8], entry: &Entry) -> bool {
    found == Some(entry.place) && key == entry.key.as_slice()
}

/// Walks the tree beside the map: how many entries both have, where all are the same in order.
fn walk<S: Pages>(tree: Tree, space: &mut S, map: &BTreeMap<Entry, bool>) -> Result<u64, Stop>
    requires { IsReady (S.state space.old) tree }
    ensures { IsReady (S.state space.new) tree }
{
    let mut key: ArrayVec<u8, 512> = ArrayVec::new();
    let mut out: ArrayVec<u8, 512> = ArrayVec::new();
    let mut place = 0u64;
    let mut met = 0u64;
    for entry in map.keys() {
        match next(tree, space, key.as_slice(), place, &mut out) {
            Ok(found) if is_entry(found, out.as_slice(), entry) => {}
            Ok(_) => return Err(Stop::Differs(entry.place)),
            Err(fault) => return Err(Stop::Page(fault)),
        }
        key.clear();
        let _ = key.try_extend_from_slice(out.as_slice());
        place = entry.place.saturating_add(1);
        met = met.saturating_add(1);
    }
    match next(tree, space, key.as_slice(), place, &mut out) {
        Ok(None) => Ok(met),
        Ok(Some(more)) => Err(Stop::Differs(more)),
        Err(fault) => Err(Stop::Page(fault)),
    }
}

/// Fills both, walks both, thins both and walks both: how many entries each walk met, and the pages
/// that the tree leaves behind.
fn round<S: Pages>(alloc: Global, space: &mut S, many: u64) -> Result<(u64, u64, u32), Stop>
    requires no_pins { NoPins (S.state space.old) }
    requires numbers { (S.state space.old).limit File.Temp < 2 ^ 32 }
{
    let tree = match begin(space) {
        Ok(tree) => tree,
        Err(fault) => return Err(Stop::Page(fault)),
    };
    let mut map = BTreeMap::new(alloc);
    fill(alloc, tree, space, &mut map, many)?;
    let all = walk(tree, space, &map)?;
    thin(alloc, tree, space, &mut map, many)?;
    let rest = walk(tree, space, &map)?;
    destroy(tree, space);
    Ok((all, rest, space.taken(File::Temp)))
}

#[test]
fn mixed_keys_stand_as_in_a_sorted_map(rt: HostRuntime) -> Result<(), Fail> {
    let mut space = PlainSpace::new(rt.alloc());
    assert_eq!(rt; round(rt.alloc(), &mut space, 20_000)?, (20_000, 10_000, 0));
    Ok(())
}

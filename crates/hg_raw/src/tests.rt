// Every frame of a region is written with a pattern of its own, and read back through chains of
// every length, while they grow, while they shrink, and after a stay at home.
ghost use Rattle.std.specs.Prelude.{◌≡◌, ℕ, ◌<◌, IsTrue, slice_set};
ghost use Rattle.hg_raw.specs.Frames.{Has, AllHome, bytes_of, numbers};

use crate::chain::{Chain, NIL};
use crate::region::Region;
use hg_base::FrameNo;
use std::process::Abort;

const FRAMES: u32 = 64;

// The frames in two mixed orders: 37 and 29 have no factor in common with 64.
fn taken_at(k: u32) -> FrameNo
    requires { k < 64 }
{
    FrameNo((k * 37 + 11) % FRAMES)
}

fn split_at(k: u32) -> FrameNo
    requires { k < 64 }
{
    FrameNo((k * 29 + 5) % FRAMES)
}

fn pattern(f: FrameNo, i: usize) -> u8 {
    let column = (i % 251) as u8;
    let row = (i / 251 % 17) as u8;
    let frame = (f.0 % 256) as u8;
    column ^ row.wrapping_mul(13) ^ frame.wrapping_mul(41)
}

fn fill(page: &mut [u8], f: FrameNo) {
    for i in 0..page.len() {
        page[i] = pattern(f, i);
    }
}

fn is_filled(page: &[u8], f: FrameNo) -> bool {
    for i in 0..page.len() {
        if page[i] != pattern(f, i) {
            return false;
        }
    }
    page.len() == 4096
}

fn is_blank(page: &[u8]) -> bool {
    page.len() == 4096 && page.iter().all(|byte| *byte == 0)
}

fn has(chain: &Chain, f: FrameNo) -> bool
    ensures { IsTrue result → Has chain.now f.0 }
{
    let mut at = chain.first;
    while at != NIL {
        if at == f.0 {
            return true;
        }
        at = chain.next(at);
    }
    false
}

fn all_home(region: &Region, frames: u32) -> bool
    requires { region.now.region.frames ≡ frames }
    ensures { IsTrue result → AllHome region.now }
{
    for n in 0..frames {
        if !region.is_home(FrameNo(n)) {
            return false;
        }
    }
    true
}

fn expect_filled(rt: &impl Abort, chain: &Chain, f: FrameNo) {
    assert!(rt; has(chain, f), "{f:?} is missing");
    assert!(rt; is_filled(chain.page(f), f), "{f:?} has other bytes");
}

fn take(rt: &impl Abort, region: &mut Region, f: FrameNo) -> Chain
    ensures of_region { result.region ≡ region.old.region }
    ensures same_region { region.new.region ≡ region.old.region }
{
    assert!(rt; region.is_home(f));
    let one = region.take(f);
    assert!(rt; !region.is_home(f));
    one
}

// What a caller sees of a write: one byte of one frame.
fn put(chain: &mut Chain, f: FrameNo, i: usize, byte: u8)
    requires has { Has chain.old f.0 }
    requires within { i < 4096 }
    ensures written { bytes_of chain.new.frames f.0 ≡ slice_set (bytes_of chain.old.frames f.0) i byte }
    ensures others { (k : ℕ) → (k ≡ f.0 → ⊥) → bytes_of chain.new.frames k ≡ bytes_of chain.old.frames k }
    ensures region { chain.new.region ≡ chain.old.region }
    ensures same_frames { numbers chain.new.frames ≡ numbers chain.old.frames }
{
    let page = chain.page_mut(f);
    page[i] = byte;
}

// All frames in one chain, each with its pattern.
fn take_all(rt: &impl Abort, region: &mut Region) -> Chain
    ensures of_region { result.region ≡ region.old.region }
    ensures same_region { region.new.region ≡ region.old.region }
{
    let mut all = take(rt, region, taken_at(0));
    for k in 1..FRAMES {
        all.join(take(rt, region, taken_at(k)));
    }
    all
}

fn write_all(rt: &impl Abort, all: &mut Chain)
    ensures { all.new.region ≡ all.old.region }
{
    for k in 0..FRAMES {
        let f = taken_at(k);
        assert!(rt; has(all, f));
        let page = all.page_mut(f);
        assert!(rt; is_blank(page));
        fill(page, f);
        assert!(rt; has(all, f));
        put(all, f, 100, 7);
        assert!(rt; has(all, f));
        assert_eq!(rt; all.page(f)[100], 7);
        put(all, f, 100, pattern(f, 100));
    }
}

// The frames up to the k-th are in the one chain, and those behind it in the other.
fn expect_split(rt: &impl Abort, others: &Chain, all: &Chain, k: u32) {
    for j in 0..FRAMES {
        let chain = if j <= k { others } else { all };
        expect_filled(rt, chain, split_at(j));
    }
}

// Splits the frames off one by one, and joins them again in that order.
fn reorder(rt: &impl Abort, all: Chain) -> Chain
    ensures { result.region ≡ all.region }
{
    let mut all = all;
    let f = split_at(0);
    assert!(rt; has(&all, f));
    let mut others = all.split(f);
    for k in 1..FRAMES {
        let f = split_at(k);
        assert!(rt; has(&all, f));
        let one = all.split(f);
        assert!(rt; !has(&all, f));
        expect_filled(rt, &one, f);
        others.join(one);
        expect_split(rt, &others, &all, k);
    }
    others.join(all);
    others
}

#[test]
fn frames_keep_their_bytes(rt: HostRuntime) {
    let mut region = Region::new(rt.alloc(), FRAMES).expect(&rt, "memory");
    let mut all = take_all(&rt, &mut region);
    write_all(&rt, &mut all);
    let all = reorder(&rt, all);
    region.give_back(all);
    let again = take_all(&rt, &mut region);
    for k in 0..FRAMES {
        expect_filled(&rt, &again, taken_at(k));
    }
    region.give_back(again);
    assert!(rt; !region.is_home(FrameNo(FRAMES)));
    assert_eq!(rt; region.frames(), FRAMES);
    assert!(rt; all_home(&region, FRAMES));
    region.free();
}

#[test]
fn a_region_may_have_no_frame(rt: HostRuntime) {
    let region = Region::new(rt.alloc(), 0).expect(&rt, "memory");
    assert!(rt; all_home(&region, 0));
    region.free();
}

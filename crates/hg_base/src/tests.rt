//! Callers of `Pages` as the layers above write them, over any space, and run over a plain one.
ghost use Rattle.std.specs.Prelude.{◌≡◌, ◌≢◌, ℕ, ◌+◌, ◌<◌, ◌≤◌, ◌↔◌, ◌⊎◌, true, false, List, length, IsTrue, Some, None, IfOk, IfErr, OnOk, OnErr, IsErrOf, slice_index, MatchResult};
ghost use Rattle.hg_base.specs.Space.{Space, key, NoPins, IsSame};
ghost use Rattle.hg_base.specs.Causes.{HasCause, fault_of};
ghost use Rattle.hg_base.specs.Steadiness.{Steady, these_pages};
ghost use Rattle.hg_base.specs.HeapStates.{IsLocked, payload_in, KeepsObjects};

use crate::{
    Addr, File, Grant, HeapNo, Heaps, Ledger, NoRoom, PageFault, PageId, Pages, Place, PlainSpace,
    Request,
};
use std::test::Fail;

/// Puts a row in front of the list that begins at root 0 of a heap.
fn push_front<H: Heaps>(heaps: &mut H, h: HeapNo, payload: &[u8]) -> Result<Addr, NoRoom>
    requires locked { IsLocked (H.state heaps.old) h.0 }
    requires some { 0 < length payload.now }
    requires short { length payload.now ≤ 3920 }
    ensures there { IfOk result (λ a. payload_in (H.state heaps.new) h.0 a.word ≡ Some payload.now) }
    ensures kept { KeepsObjects (H.state heaps.old) (H.state heaps.new) h.0 }
    ensures err { OnErr result (H.state heaps.new ≡ H.state heaps.old) }
{
    let first = heaps.root(h, 0);
    let row = heaps.place(h, payload, first)?;
    heaps.set_root(h, 0, row);
    Ok(row)
}

/// The first byte of a page.
fn first_byte<S: Pages>(space: &mut S, page: PageId) -> Result<u8, PageFault>
    requires out { NoPins (S.state space.old) }
    requires taken { (S.state space.old).taken (key page) ≡ true }
    requires no_heap { (S.state space.old).of_heap (key page) ≡ false }
    ensures value { IfOk result (λ x. (b : List ℕ)
        → (S.state space.old).bytes (key page) ≡ Some b → x ≡ slice_index b 0) }
    ensures kept { Steady (these_pages (λ _. ⊥)) (S.state space.old) (S.state space.new) }
    ensures cause { HasCause (S.state space.old) (S.state space.new) (fault_of result) }
{
    let pin = space.pin(page)?;
    let first = space.bytes(&pin)[0];
    space.unpin(pin);
    Ok(first)
}

/// A new page behind the last one of a chain.
fn extend<S: Pages>(space: &mut S, last: PageId, kind: u8) -> Result<PageId, PageFault>
    requires out { NoPins (S.state space.old) }
    requires taken { (S.state space.old).taken (key last) ≡ true }
    requires no_heap { (S.state space.old).of_heap (key last) ≡ false }
    ensures new { IfOk result (λ p. (S.state space.old).taken (key p) ≡ false) }
    ensures taken { IfOk result (λ p. (S.state space.new).taken (key p) ≡ true) }
    ensures linked { IfOk result (λ p. (S.state space.new).next (key last) ≡ Some p.no) }
    ensures kept { IfOk result (λ p. Steady (these_pages (λ q. (q ≡ key last) ⊎ (q ≡ key p)))
        (S.state space.old) (S.state space.new)) }
    ensures err { OnErr result (IsSame (S.state space.old) (S.state space.new)) }
    ensures cause { HasCause (S.state space.old) (S.state space.new) (fault_of result) }
{
    let pin = space.fresh(last.file)?;
    let page = space.page_of(&pin);
    let bytes = space.bytes_mut(&pin);
    bytes[0] = kind;
    space.unpin(pin);
    space.set_next(last, Some(page.no));
    Ok(page)
}

/// The sum of the first bytes along a chain.
fn walk<S: Pages>(space: &mut S, first: PageId, budget: u32) -> Result<u64, PageFault>
    requires out { NoPins (S.state space.old) }
    ensures kept { Steady (these_pages (λ _. ⊥)) (S.state space.old) (S.state space.new) }
    ensures cause { HasCause (S.state space.old) (S.state space.new) (fault_of result) }
{
    let mut total: u64 = 0;
    let mut at = first;
    for _turn in 0..budget {
        if !space.can_pin(at) {
            return Ok(total);
        }
        let pin = space.pin(at)?;
        let first = space.bytes(&pin)[0];
        space.unpin(pin);
        total = total.saturating_add(first as u64);
        match space.next(at) {
            None => return Ok(total),
            Some(no) => at = PageId { file: at.file, no },
        }
    }
    Ok(total)
}

/// Two new pages, or none.
fn two<S: Pages>(space: &mut S, file: File) -> Result<(PageId, PageId), PageFault>
    requires out { NoPins (S.state space.old) }
    ensures kept { MatchResult result
        (λ p. Steady (these_pages (λ q. (q ≡ key p.0) ⊎ (q ≡ key p.1)))
        (S.state space.old) (S.state space.new))
        (λ _. Steady (these_pages (λ _. ⊥)) (S.state space.old) (S.state space.new)) }
    ensures cause { HasCause (S.state space.old) (S.state space.new) (fault_of result) }
{
    let left = space.fresh(file)?;
    let left_page = space.page_of(&left);
    match space.fresh(file) {
        Err(fault) => {
            space.unpin(left);
            space.release(left_page);
            Err(fault)
        }
        Ok(right) => {
            let right_page = space.page_of(&right);
            let bytes = space.bytes_mut(&right);
            bytes[0] = 1;
            let bytes = space.bytes_mut(&left);
            bytes[1] = 2;
            space.unpin(left);
            space.unpin(right);
            Ok((left_page, right_page))
        }
    }
}

/// A page that was made by `fresh`, with its first byte set.
fn one<S: Pages>(space: &mut S, file: File, kind: u8) -> Result<PageId, PageFault>
    requires out { NoPins (S.state space.old) }
    ensures kept { MatchResult result
        (λ p. Steady (these_pages (λ q. q ≡ key p)) (S.state space.old) (S.state space.new))
        (λ _. Steady (these_pages (λ _. ⊥)) (S.state space.old) (S.state space.new)) }
    ensures new { IfOk result (λ p. (S.state space.old).taken (key p) ≡ false) }
    ensures taken { IfOk result (λ p. (S.state space.new).taken (key p) ≡ true) }
    ensures no_heap { IfOk result (λ p. (S.state space.new).of_heap (key p) ≡ false) }
{
    let pin = space.fresh(file)?;
    let page = space.page_of(&pin);
    let bytes = space.bytes_mut(&pin);
    bytes[0] = kind;
    space.unpin(pin);
    Ok(page)
}

/// A chain of two pages beside a page of the other file: the sum over the whole chain, over its
/// front, and the other page's byte.
fn chain<S: Pages>(space: &mut S) -> Result<(u64, u64, u8), PageFault>
    requires { NoPins (S.state space.old) }
    ensures { OnOk result (NoPins (S.state space.new)) }
{
    let first = one(space, File::Main, 3)?;
    let other = one(space, File::Temp, 100)?;
    let _second = extend(space, first, 4)?;
    let whole = walk(space, first, 9)?;
    let front = walk(space, first, 1)?;
    let alone = first_byte(space, other)?;
    Ok((whole, front, alone))
}

/// Gives a page back where it is taken, and then takes two.
fn replace<S: Pages>(space: &mut S, page: PageId) -> Result<(u32, u32), PageFault>
    requires { NoPins (S.state space.old) }
    ensures { OnOk result (NoPins (S.state space.new)) }
{
    if space.can_pin(page) {
        space.release(page);
    }
    let (left, right) = two(space, page.file)?;
    Ok((left.no, right.no))
}

#[test]
fn pages_of_a_plain_space(rt: HostRuntime) -> Result<(), Fail> {
    let mut space = PlainSpace::new(rt.alloc());
    assert_eq!(rt; chain(&mut space)?, (7, 3, 100));
    assert_eq!(rt; (space.taken(File::Main), space.taken(File::Temp)), (2, 1));
    let second = PageId {
        file: File::Main,
        no: 1,
    };
    // the lowest pages that are not taken come first
    assert_eq!(rt; replace(&mut space, second)?, (1, 2));
    assert_eq!(rt; (space.taken(File::Main), space.taken(File::Temp)), (3, 1));
    assert_eq!(rt; (space.main_faults(), space.temp_faults()), (0, 0));
    assert_eq!(rt; (space.fulls(File::Main), space.fulls(File::Temp)), (0, 0));
    Ok(())
}

#[test]
fn places_as_numbers(rt: HostRuntime) -> Result<(), Fail> {
    let place = Place { page: 7, slot: 128 };
    assert_eq!(rt; place.number(), 458_880);
    assert_eq!(rt; Place::of_number(458_880), Some(place));
    assert_eq!(rt; Place::of_number(1 << 48), None);
    Ok(())
}

#[test]
fn grants_of_a_ledger(rt: HostRuntime) -> Result<(), Fail> {
    let mut ledger = Ledger::new();
    let first = ledger.grant(Request(3));
    let second = ledger.grant(Request(3));
    let mut both = first.join(second);
    assert_eq!(rt;
        (both.request(), both.pages(), ledger.held(Request(3))),
        (Request(3), 2, 2)
    );
    let one = both.split();
    assert_eq!(rt; (one.pages(), both.pages()), (1, 1));
    ledger.returned(one);
    ledger.returned(both);
    ledger.returned(Grant::none(Request(3)));
    assert_eq!(rt; (ledger.held(Request(3)), ledger.held(Request(4))), (0, 0));
    Ok(())
}

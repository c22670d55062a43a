//! Pages of a tree that are pinned together, written whole and linked.
ghost use Rattle.std.specs.Prelude.{◌≡◌, ◌≢◌, ℕ, ◌<◌, true, false, List, length, Some, IfOk, IfErr, OnOk, OnErr};
ghost use Rattle.hg_base.specs.Space.{NoPins, IsFree, with_next, key as page_key};
ghost use Rattle.hg_base.specs.Causes.{HasCause, fault_of};
ghost use Rattle.hg_btree.specs.Rewriting.{written, PinsWithNew, PinsWithTwo};
ghost use Rattle.hg_btree.specs.Steps.{Looks, LookFault, GrowFault};

use crate::look::open;
use hg_base::{PageFault, PageId, Pages};

/// Copies the bytes of a page.
pub fn copy_of<S: Pages>(space: &mut S, page: PageId, out: &mut [u8]) -> Result<(), PageFault>
    requires no_pins { NoPins (S.state space.old) }
    requires whole { length out.old ≡ 4096 }
    requires free { (S.state space.old).told ≡ true → IsFree (S.state space.old) page }
    ensures bytes { OnOk result ((bytes : List ℕ) → (S.state space.old).bytes (page_key page) ≡ Some bytes → out.new ≡ bytes) }
    ensures len { length out.new ≡ 4096 }
    ensures looks { Looks (S.state space.old) (S.state space.new) }
    ensures cause { HasCause (S.state space.old) (S.state space.new) (fault_of result) }
    ensures fault { IfErr result (LookFault page.file) }
{
    let pin = open(space, page)?;
    out.copy_from_slice(space.bytes(&pin));
    space.unpin(pin);
    Ok(())
}

/// Writes a pinned page whole, and gives its pin back.
pub fn put_back<S: Pages>(space: &mut S, pin: S::Pin, bytes: &[u8])
    requires pinned { (S.state space.old).pinned (page_key (S.pin_page pin)) ≡ true }
    requires whole { length bytes.now ≡ 4096 }
    ensures { S.state space.new ≡ written (S.state space.old) (page_key (S.pin_page pin)) bytes.now }
{
    space.bytes_mut(&pin).copy_from_slice(bytes);
    space.unpin(pin);
}

/// Puts a page behind the first one of a tree's line.
pub fn link_behind<S: Pages>(space: &mut S, top: PageId, new: PageId)
    requires top_taken { (S.state space.old).taken (page_key top) ≡ true }
    requires top_heap { (S.state space.old).of_heap (page_key top) ≡ false }
    requires new_taken { (S.state space.old).taken (page_key new) ≡ true }
    requires new_heap { (S.state space.old).of_heap (page_key new) ≡ false }
    ensures { S.state space.new ≡ with_next (with_next (S.state space.old) (page_key new) ((S.state space.old).next (page_key top))) (page_key top) (Some new.no) }
{
    let next = space.next(top);
    space.set_next(new, next);
    space.set_next(top, Some(new.no));
}

/// Pins a page and its child, and takes a new page.
pub fn pin_with_new<S: Pages>(
    space: &mut S,
    parent: PageId,
    child: PageId,
) -> Result<(S::Pin, S::Pin, S::Pin), PageFault>
    requires no_pins { NoPins (S.state space.old) }
    requires one_file { child.file ≡ parent.file }
    requires parent_free { (S.state space.old).told ≡ true → IsFree (S.state space.old) parent }
    requires child_free { (S.state space.old).told ≡ true → IsFree (S.state space.old) child }
    requires apart { (S.state space.old).told ≡ true → page_key child ≢ page_key parent }
    ensures names { IfOk result (λ pins. (S.pin_page (pins.0) ≡ parent) × (S.pin_page (pins.1) ≡ child)) }
    ensures pins { IfOk result (λ pins. PinsWithNew (S.state space.old) (S.state space.new) parent child (S.pin_page (pins.2))) }
    ensures err { OnErr result (Looks (S.state space.old) (S.state space.new)) }
    ensures cause { HasCause (S.state space.old) (S.state space.new) (fault_of result) }
    ensures fault { IfErr result (GrowFault parent.file (S.state space.new)) }
{
    let first = open(space, parent)?;
    let second = match open(space, child) {
        Ok(second) => second,
        Err(fault) => {
            space.unpin(first);
            return Err(fault);
        }
    };
    match space.fresh(parent.file) {
        Ok(new) => Ok((first, second, new)),
        Err(fault) => {
            space.unpin(second);
            space.unpin(first);
            Err(fault)
        }
    }
}

/// Pins a page, and takes two new pages.
pub fn pin_with_two<S: Pages>(
    space: &mut S,
    page: PageId,
) -> Result<(S::Pin, S::Pin, S::Pin), PageFault>
    requires no_pins { NoPins (S.state space.old) }
    requires free { (S.state space.old).told ≡ true → IsFree (S.state space.old) page }
    ensures name { IfOk result (λ pins. S.pin_page (pins.0) ≡ page) }
    ensures pins { IfOk result (λ pins. PinsWithTwo (S.state space.old) (S.state space.new) page (S.pin_page (pins.1)) (S.pin_page (pins.2))) }
    ensures err { OnErr result (Looks (S.state space.old) (S.state space.new)) }
    ensures cause { HasCause (S.state space.old) (S.state space.new) (fault_of result) }
    ensures fault { IfErr result (GrowFault page.file (S.state space.new)) }
{
    let first = open(space, page)?;
    let lower = match space.fresh(page.file) {
        Ok(lower) => lower,
        Err(fault) => {
            space.unpin(first);
            return Err(fault);
        }
    };
    match space.fresh(page.file) {
        Ok(upper) => Ok((first, lower, upper)),
        Err(fault) => {
            let taken = space.page_of(&lower);
            space.unpin(lower);
            space.release(taken);
            space.unpin(first);
            Err(fault)
        }
    }
}

/// Writes three pinned pages whole, and gives their pins back.
pub fn put_three<S: Pages>(
    space: &mut S,
    pins: (S::Pin, S::Pin, S::Pin),
    first: &[u8],
    second: &[u8],
    third: &[u8],
)
    requires first_pinned { (S.state space.old).pinned (page_key (S.pin_page (pins.0))) ≡ true }
    requires second_pinned { (S.state space.old).pinned (page_key (S.pin_page (pins.1))) ≡ true }
    requires third_pinned { (S.state space.old).pinned (page_key (S.pin_page (pins.2))) ≡ true }
    requires apart { page_key (S.pin_page (pins.1)) ≢ page_key (S.pin_page (pins.0)) }
    requires new_first { page_key (S.pin_page (pins.2)) ≢ page_key (S.pin_page (pins.0)) }
    requires new_second { page_key (S.pin_page (pins.2)) ≢ page_key (S.pin_page (pins.1)) }
    requires first_whole { length first.now ≡ 4096 }
    requires second_whole { length second.now ≡ 4096 }
    requires third_whole { length third.now ≡ 4096 }
    ensures { S.state space.new ≡ written (written (written (S.state space.old) (page_key (S.pin_page (pins.2))) third.now)
        (page_key (S.pin_page (pins.1))) second.now) (page_key (S.pin_page (pins.0))) first.now }
{
    let (one, two, three) = pins;
    put_back(space, three, third);
    put_back(space, two, second);
    put_back(space, one, first);
}

//! What a split is to write: it is put together in copies of the pages, before any page is changed.
ghost use Rattle.std.specs.Prelude.{◌≡◌, ℕ, ◌+◌, ◌≤◌, ◌<◌, true, List, [], length, replicate, IfOk, IfErr, OnErr, IsOk, Some};
ghost use Rattle.hg_base.specs.Space.{NoPins, IsFree, key as page_key};
ghost use Rattle.hg_base.specs.Causes.{HasCause, fault_of};
ghost use Rattle.hg_btree.specs.Entries.{Entry};
ghost use Rattle.hg_btree.specs.Nodes.{number, crowded_page};
ghost use Rattle.hg_btree.specs.Growing.{AboveCrowded, CrowdedTop};
ghost use Rattle.hg_btree.specs.Planning.{AreHalves, IsLevelOf, Planned, TopPlanned};
ghost use Rattle.hg_btree.specs.Looking.{IsTreePage};
ghost use Rattle.hg_btree.specs.Steps.{Looks, LookFault};

use crate::commit::copy_of;
use crate::halve::{Halved, halve, place_in};
use crate::node::{HEAD, PAGE};
use crate::seek::page_in;
use crate::store::Bound;
use arrayvec::ArrayVec;
use hg_base::{Check, File, PageFault, PageId, Pages};

/// The page above, both halves of the page that is split, and the key of the bound between them.
#[derive(Drop)]
pub struct Sheets {
    pub above: [u8; PAGE],
    pub lower: [u8; PAGE],
    pub upper: [u8; PAGE],
    pub key: ArrayVec<u8, 512>,
}

impl Sheets {
    /// Sheets with nothing on them.
    pub fn new() -> Sheets
        ensures above { result.above ≡ replicate 4096 0 }
        ensures lower { result.lower ≡ replicate 4096 0 }
        ensures upper { result.upper ≡ replicate 4096 0 }
        ensures key { result.key.items ≡ [] }
    {
        Sheets {
            above: [0; PAGE],
            lower: [0; PAGE],
            upper: [0; PAGE],
            key: ArrayVec::new(),
        }
    }
}

/// The child that is split, and where the bound between its halves goes.
#[derive(Clone, Copy)]
pub struct Plan {
    pub child: u32,
    pub bound: Bound,
}

/// Reads a page and puts its halves onto the sheets.
fn halve_page<S: Pages>(
    space: &mut S,
    page: PageId,
    key: &[u8],
    place: u64,
    sheets: &mut Sheets,
) -> Result<Halved, PageFault>
    requires no_pins { NoPins (S.state space.old) }
    requires short { length key.now ≤ 512 }
    requires free { (S.state space.old).told ≡ true → IsFree (S.state space.old) page }
    requires sound { (S.state space.old).told ≡ true → (bytes : List ℕ) × ((S.state space.old).bytes (page_key page) ≡ Some bytes)
        × IsTreePage bytes × (crowded_page bytes ≡ true) }
    ensures halves { IfOk result (λ h. (bytes : List ℕ) → (S.state space.old).bytes (page_key page) ≡ Some bytes
        → AreHalves bytes sheets.new.lower sheets.new.upper (record { key = key.now; place = place; child = 0 }) sheets.new.key.items h.place) }
    ensures level { IfOk result (λ h. (bytes : List ℕ) → (S.state space.old).bytes (page_key page) ≡ Some bytes → IsLevelOf bytes h.level) }
    ensures above { sheets.new.above ≡ sheets.old.above }
    ensures looks { Looks (S.state space.old) (S.state space.new) }
    ensures cause { HasCause (S.state space.old) (S.state space.new) (fault_of result) }
    ensures fault { IfErr result (LookFault page.file) }
{
    copy_of(space, page, &mut sheets.lower)?;
    match halve(
        &mut sheets.lower,
        &mut sheets.upper,
        key,
        place,
        &mut sheets.key,
    ) {
        Ok(halved) => Ok(halved),
        Err(check) => Err(PageFault::Damaged { page, check }),
    }
}

/// Puts together what a split of the child of a page is to write: the child on the way to an entry.
pub fn plan_split<S: Pages>(
    space: &mut S,
    file: File,
    node: u32,
    key: &[u8],
    place: u64,
    sheets: &mut Sheets,
) -> Result<Plan, PageFault>
    requires no_pins { NoPins (S.state space.old) }
    requires short { length key.now ≤ 512 }
    requires there { (S.state space.old).told ≡ true → (top : ℕ) × (es : List Entry) × (most : ℕ) × (leaves : ℕ) × (n : ℕ)
        × AboveCrowded file (S.state space.old) top (record { key = key.now; place = place; child = 0 }) es most leaves n node }
    ensures planned { IfOk result (λ p. (top : ℕ) (es : List Entry) (most leaves n : ℕ)
        (w : AboveCrowded file (S.state space.old) top (record { key = key.now; place = place; child = 0 }) es most leaves n node)
        → Planned file (S.state space.new) (record { key = key.now; place = place; child = 0 }) n node p.child p.bound.at p.bound.level
        sheets.new.above sheets.new.lower sheets.new.upper sheets.new.key.items p.bound.place w.on.pages) }
    ensures room { IfOk result (λ p. (16 ≤ p.bound.at) × (p.bound.at ≤ number sheets.new.above 4) × (number sheets.new.above 4 + 526 ≤ 4096)) }
    ensures looks { Looks (S.state space.old) (S.state space.new) }
    ensures cause { HasCause (S.state space.old) (S.state space.new) (fault_of result) }
    ensures fault { IfErr result (LookFault file) }
{
    let parent = page_in(file, node);
    copy_of(space, parent, &mut sheets.above)?;
    let spot = match place_in(&sheets.above, key, place) {
        Ok(spot) => spot,
        Err(check) => {
            return Err(PageFault::Damaged {
                page: parent,
                check,
            });
        }
    };
    let child = page_in(file, spot.child);
    let halved = halve_page(space, child, key, place, sheets)?;
    if halved.level != spot.level - 1 {
        return Err(PageFault::Damaged {
            page: child,
            check: Check::Level,
        });
    }
    Ok(Plan {
        child: spot.child,
        bound: Bound {
            level: halved.level,
            place: halved.place,
            at: spot.at,
        },
    })
}

/// Puts together what a split of a top is to write.
pub fn plan_top<S: Pages>(
    space: &mut S,
    top: PageId,
    key: &[u8],
    place: u64,
    sheets: &mut Sheets,
) -> Result<Bound, PageFault>
    requires no_pins { NoPins (S.state space.old) }
    requires short { length key.now ≤ 512 }
    requires there { (S.state space.old).told ≡ true → (es : List Entry) × (pages : List ℕ) × (leaves : ℕ)
        × CrowdedTop top.file (S.state space.old) top.no es pages leaves }
    ensures planned { IfOk result (λ b. (es : List Entry) (pages : List ℕ) (leaves : ℕ) (w : CrowdedTop top.file (S.state space.old) top.no es pages leaves)
        → TopPlanned top.file (S.state space.new) (record { key = key.now; place = place; child = 0 }) top.no (length w.tree.levels) b.level
        sheets.new.lower sheets.new.upper sheets.new.key.items b.place) }
    ensures low { IfOk result (λ b. b.level < 255) }
    ensures looks { Looks (S.state space.old) (S.state space.new) }
    ensures cause { HasCause (S.state space.old) (S.state space.new) (fault_of result) }
    ensures fault { IfErr result (LookFault top.file) }
{
    let halved = halve_page(space, top, key, place, sheets)?;
    if halved.level == 255 {
        return Err(PageFault::Damaged {
            page: top,
            check: Check::Level,
        });
    }
    Ok(Bound {
        level: halved.level,
        place: halved.place,
        at: HEAD,
    })
}

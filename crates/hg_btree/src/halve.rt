//! How a copy of a page is halved, and how its bound goes to a copy of the page above it.
ghost use Rattle.std.specs.Prelude.{◌≡◌, ℕ, ◌+◌, ◌≤◌, ◌<◌, true, false, List, length, IsOk, IfOk, IfErr};
ghost use Rattle.hg_btree.specs.Entries.{Entry};
ghost use Rattle.hg_btree.specs.Nodes.{number, IsNode, IsWay, crowded_page};
ghost use Rattle.hg_btree.specs.Halving.{AreInnerHalves, AreLeafHalves};
ghost use Rattle.hg_btree.specs.Looking.{IsTreePage};
ghost use Rattle.hg_btree.specs.Steps.{IsTreeCheck};

use crate::node::{is_crowded, level_of, way};
use crate::split::{halve_inner, halve_leaf, keep_lower, take_upper};
use arrayvec::ArrayVec;
use hg_base::Check;

/// What is known of a page that was halved: its level, and the place of the bound of its upper half.
#[derive(Clone, Copy)]
pub struct Halved {
    pub level: u8,
    pub place: u64,
}

/// Halves a leaf. Answers the place of the bound.
fn halve_low(
    page: &mut [u8],
    upper: &mut [u8],
    key: &[u8],
    place: u64,
    bound: &mut ArrayVec<u8, 512>,
) -> Result<u64, Check>
    requires whole { length page.old ≡ 4096 }
    requires other { length upper.old ≡ 4096 }
    requires short { length key.now ≤ 512 }
    ensures halves { IfOk result (λ p. (link : ℕ) (es : List Entry) → IsNode false page.old 0 link es
        → AreLeafHalves link link es page.new upper.new (record { key = key.now; place = place; child = 0 }) bound.new.items p) }
    ensures sound { (link : ℕ) (es : List Entry) → IsNode false page.old 0 link es → crowded_page page.old ≡ true → IsOk result }
    ensures wrong { IfErr result (λ c. c ≡ Check.Size) }
{
    let halves = halve_leaf(page, key, place, bound)?;
    take_upper(upper, page, halves.from, false, 0, halves.link, halves.more);
    keep_lower(page, halves.at, halves.count);
    Ok(halves.place)
}

/// Halves an inner page of this level. Answers the place of the bound.
fn halve_high(
    page: &mut [u8],
    upper: &mut [u8],
    level: u8,
    bound: &mut ArrayVec<u8, 512>,
) -> Result<u64, Check>
    requires whole { length page.old ≡ 4096 }
    requires other { length upper.old ≡ 4096 }
    ensures halves { IfOk result (λ p. (first : ℕ) (es : List Entry) (t : Entry) → IsNode true page.old level first es
        → AreInnerHalves level first es page.new upper.new t bound.new.items p) }
    ensures sound { (first : ℕ) (es : List Entry) → IsNode true page.old level first es → crowded_page page.old ≡ true → IsOk result }
    ensures wrong { IfErr result (λ c. c ≡ Check.Size) }
{
    let halves = halve_inner(page, bound)?;
    take_upper(
        upper,
        page,
        halves.from,
        true,
        level,
        halves.link,
        halves.more,
    );
    keep_lower(page, halves.at, halves.count);
    Ok(halves.place)
}

/// Halves a page whose bytes may be any: it keeps its lower entries, and `upper` becomes a page of the
/// others. The key of the bound between them is put into `bound`.
pub fn halve(
    page: &mut [u8],
    upper: &mut [u8],
    key: &[u8],
    place: u64,
    bound: &mut ArrayVec<u8, 512>,
) -> Result<Halved, Check>
    requires whole { length page.old ≡ 4096 }
    requires other { length upper.old ≡ 4096 }
    requires short { length key.now ≤ 512 }
    ensures leaf { IfOk result (λ h. (link : ℕ) (es : List Entry) → IsNode false page.old 0 link es → (h.level ≡ 0)
        × AreLeafHalves link link es page.new upper.new (record { key = key.now; place = place; child = 0 }) bound.new.items h.place) }
    ensures inner { IfOk result (λ h. (level first : ℕ) (es : List Entry) → IsNode true page.old level first es → 0 < level → (h.level ≡ level)
        × AreInnerHalves level first es page.new upper.new (record { key = key.now; place = place; child = 0 }) bound.new.items h.place) }
    ensures sound { IsTreePage page.old → crowded_page page.old ≡ true → IsOk result }
    ensures wrong { IfErr result IsTreeCheck }
{
    let level = level_of(page)?;
    if level == 0 {
        let place = halve_low(page, upper, key, place, bound)?;
        return Ok(Halved { level, place });
    }
    let place = halve_high(page, upper, level, bound)?;
    Ok(Halved { level, place })
}

/// Where the way to an entry leads on from an inner page that has room for one more.
#[derive(Clone, Copy)]
pub struct Place {
    pub level: u8,
    pub at: usize,
    pub child: u32,
}

/// Where the way to an entry leads on from an inner page whose bytes may be any.
pub fn place_in(page: &[u8], key: &[u8], place: u64) -> Result<Place, Check>
    requires { length page.now ≡ 4096 }
    ensures sound { (level first : ℕ) (es : List Entry) → IsNode true page.now level first es → 0 < level → crowded_page page.now ≡ false → IsOk result }
    ensures way { IfOk result (λ p. (level first : ℕ) (es : List Entry) → IsNode true page.now level first es
        → (p.level ≡ level) × IsWay first es (record { key = key.now; place = place; child = 0 }) p.at p.child) }
    ensures above { IfOk result (λ p. 0 < p.level) }
    ensures room { IfOk result (λ p. (16 ≤ p.at) × (p.at ≤ number page.now 4) × (number page.now 4 + 526 ≤ 4096)) }
    ensures wrong { IfErr result IsTreeCheck }
{
    let level = level_of(page)?;
    if level == 0 {
        return Err(Check::Level);
    }
    if is_crowded(page) {
        return Err(Check::Size);
    }
    let onward = way(page, key, place)?;
    Ok(Place {
        level,
        at: onward.at,
        child: onward.child,
    })
}

//! How a page of a tree is cut in two.
ghost use Rattle.std.specs.Prelude.{◌≡◌, ℕ, ◌+◌, ◌-◌, ◌≤◌, ◌<◌, ◌^◌, Bool, true, false, List, [], ◌∷◌, ◌++◌, length, take, drop, slice_index, IsOk, IfOk, IfErr, ◌⊎◌};
ghost use Rattle.hg_btree.specs.Entries.{Entry};
ghost use Rattle.hg_btree.specs.Nodes.{number, width, spelled, spelling, IsNode, crowded_page};
ghost use Rattle.hg_btree.specs.Cutting.{IsCut};
ghost use Rattle.hg_btree.specs.Halving.{HalvesInner, HalvesLeaf};

use crate::look::NEXT;
use crate::node::{
    BEFORE_KEY, COUNT, FREE, HEAD, end_of, entry_end, find, number_at, page_number_at, place_of,
};
use crate::write::{clear, link_place, set_head, start};
use arrayvec::ArrayVec;
use hg_base::{Check, put_u32};

/// Where a page is cut: the entry that begins at `at` and ends before `after` is the first one of the
/// upper part; `count` entries stand before it.
#[derive(Clone, Copy)]
pub struct CutPlace {
    pub at: usize,
    pub after: usize,
    pub count: u16,
}

/// The cut through the middle of a page, so that both parts have about half of its bytes.
pub fn cut(page: &[u8], inner: bool) -> Result<CutPlace, Check>
    requires { length page.now ≡ 4096 }
    ensures cut { IfOk result (λ c. (level link : ℕ) (es : List Entry) → IsNode inner page.now level link es → IsCut inner es c.at c.after c.count) }
    ensures lower { IfOk result (λ c. 16 < c.at) }
    ensures order { IfOk result (λ c. c.at + 10 ≤ c.after) }
    ensures upper { IfOk result (λ c. (c.after < number page.now 4) × (number page.now 4 ≤ 4096)) }
    ensures entry { IfOk result (λ c. (c.after ≡ c.at + 10 + number page.now c.at + width inner) × (number page.now c.at ≤ 512)) }
    ensures halves { IfOk result (λ c. (c.at ≤ 2582) × (number page.now 4 ≤ c.at + 2040) × (c.after ≤ c.at + 526)) }
    ensures sound { (level link : ℕ) (es : List Entry) → IsNode inner page.now level link es → crowded_page page.now ≡ true → IsOk result }
    ensures wrong { IfErr result (λ c. c ≡ Check.Size) }
{
    let end = end_of(page)?;
    let middle = HEAD + (end - HEAD) / 2;
    let mut at = HEAD;
    let mut count: u16 = 0;
    while at < middle {
        at = entry_end(page, inner, at, end)?;
        count += 1;
    }
    if at == HEAD || at >= end {
        return Err(Check::Size);
    }
    let after = entry_end(page, inner, at, end)?;
    if after >= end {
        return Err(Check::Size);
    }
    Ok(CutPlace { at, after, count })
}

/// Makes a page of the entries of another from the byte `from` on, whatever its own bytes were.
pub fn take_upper(
    page: &mut [u8],
    source: &[u8],
    from: usize,
    inner: bool,
    level: u8,
    link: u32,
    count: u16,
)
    requires whole { length page.old ≡ 4096 }
    requires of { length source.now ≡ 4096 }
    requires begins { 16 ≤ from }
    requires ends { from ≤ number source.now 4 }
    requires inside { number source.now 4 ≤ 4096 }
    ensures { (sl sk : ℕ) (done todo : List Entry) → IsNode inner source.now sl sk (done ++ todo)
        → from ≡ 16 + length (spelling inner done) → count ≡ length todo → IsNode inner page.new level link todo }
{
    start(page, inner, level, link);
    let end = number_at(source, FREE);
    let free = HEAD + (end - from);
    page[HEAD..free].copy_from_slice(&source[from..end]);
    set_head(page, count, free as u16);
}

/// Takes away the entries of a page from the byte `at` on.
pub fn keep_lower(page: &mut [u8], at: usize, count: u16)
    requires whole { length page.old ≡ 4096 }
    requires begins { 16 ≤ at }
    requires ends { at ≤ number page.old 4 }
    requires inside { number page.old 4 ≤ 4096 }
    ensures { (inner : Bool) (level link : ℕ) (done todo : List Entry) → IsNode inner page.old level link (done ++ todo)
        → at ≡ 16 + length (spelling inner done) → count ≡ length done → IsNode inner page.new level link done }
{
    let end = number_at(page, FREE);
    clear(&mut page[at..end]);
    set_head(page, count, at as u16);
}

/// Sets the link of a page: the next leaf, or the first child.
pub fn set_link(page: &mut [u8], inner: bool, link: u32)
    requires { length page.old ≡ 4096 }
    ensures { (level old : ℕ) (es : List Entry) → IsNode inner page.old level old es → IsNode inner page.new level link es }
{
    put_u32(page, link_place(inner), link);
}

/// How a page is halved: its entries before the byte `at`, of which there are `count`, stay, and those
/// from the byte `from` on, of which there are `more`, go to a new page with this link. `place` is of the
/// bound of the new page; the bound's key is given beside.
#[derive(Clone, Copy)]
pub struct Halves {
    pub at: usize,
    pub from: usize,
    pub count: u16,
    pub more: u16,
    pub place: u64,
    pub link: u32,
}

/// Makes a key of these bytes.
fn set_key(key: &mut ArrayVec<u8, 512>, bytes: &[u8])
    requires { length bytes.now ≤ 512 }
    ensures { key.new.items ≡ bytes.now }
{
    key.clear();
    match key.try_extend_from_slice(bytes) {
        Ok(()) => {}
        Err(_) => unreachable!(),
    }
}

/// Halves an inner page at its middle entry, whose child is the first of the new page.
pub fn halve_inner(page: &[u8], bound: &mut ArrayVec<u8, 512>) -> Result<Halves, Check>
    requires { length page.now ≡ 4096 }
    ensures halves { IfOk result (λ h. (level link : ℕ) (es : List Entry) → IsNode true page.now level link es → HalvesInner es h bound.new.items) }
    ensures places { IfOk result (λ h. (16 ≤ h.at) × (h.at ≤ h.from) × (h.from ≤ number page.now 4) × (number page.now 4 ≤ 4096)) }
    ensures room { IfOk result (λ h. (h.at ≤ 2582) × (number page.now 4 ≤ h.from + 2040)) }
    ensures sound { (level link : ℕ) (es : List Entry) → IsNode true page.now level link es → crowded_page page.now ≡ true → IsOk result }
    ensures wrong { IfErr result (λ c. c ≡ Check.Size) }
{
    let cut = cut(page, true)?;
    let total = number_at(page, COUNT) as u16;
    set_key(bound, &page[cut.at + BEFORE_KEY..cut.after - 4]);
    Ok(Halves {
        at: cut.at,
        from: cut.after,
        count: cut.count,
        more: total.saturating_sub(cut.count).saturating_sub(1),
        place: place_of(page, cut.at + 2),
        link: page_number_at(page, cut.after - 4),
    })
}

/// Halves a leaf at its middle entry.
fn halve_middle(page: &[u8], bound: &mut ArrayVec<u8, 512>) -> Result<Halves, Check>
    requires { length page.now ≡ 4096 }
    ensures halves { IfOk result (λ h. (link : ℕ) (es : List Entry) (t : Entry) → IsNode false page.now 0 link es → HalvesLeaf link es t h bound.new.items) }
    ensures places { IfOk result (λ h. (16 ≤ h.at) × (h.at ≤ h.from) × (h.from ≤ number page.now 4) × (number page.now 4 ≤ 4096)) }
    ensures room { IfOk result (λ h. (h.at ≤ 2582) × (number page.now 4 ≤ h.from + 2040)) }
    ensures sound { (link : ℕ) (es : List Entry) → IsNode false page.now 0 link es → crowded_page page.now ≡ true → IsOk result }
    ensures wrong { IfErr result (λ c. c ≡ Check.Size) }
{
    let cut = cut(page, false)?;
    let total = number_at(page, COUNT) as u16;
    set_key(bound, &page[cut.at + BEFORE_KEY..cut.after]);
    Ok(Halves {
        at: cut.at,
        from: cut.at,
        count: cut.count,
        more: total.saturating_sub(cut.count),
        place: place_of(page, cut.at + 2),
        link: page_number_at(page, NEXT),
    })
}

/// Halves a leaf for an entry that is to go there: at its middle entry, or, where it is the last leaf and
/// the entry goes behind all, so that the leaf stays full and the new one is empty.
pub fn halve_leaf(
    page: &[u8],
    key: &[u8],
    place: u64,
    bound: &mut ArrayVec<u8, 512>,
) -> Result<Halves, Check>
    requires whole { length page.now ≡ 4096 }
    requires short { length key.now ≤ 512 }
    ensures halves { IfOk result (λ h. (link : ℕ) (es : List Entry) → IsNode false page.now 0 link es
        → HalvesLeaf link es (record { key = key.now; place = place; child = 0 }) h bound.new.items) }
    ensures places { IfOk result (λ h. (16 ≤ h.at) × (h.at ≤ h.from) × (h.from ≤ number page.now 4) × (number page.now 4 ≤ 4096)) }
    ensures room { IfOk result (λ h. ((h.at ≤ 2582) ⊎ ((bound.new.items ≡ key.now) × (h.place ≡ place))) × (number page.now 4 ≤ h.from + 2040)) }
    ensures sound { (link : ℕ) (es : List Entry) → IsNode false page.now 0 link es → crowded_page page.now ≡ true → IsOk result }
    ensures wrong { IfErr result (λ c. c ≡ Check.Size) }
{
    let spot = find(page, false, key, place)?;
    let end = number_at(page, FREE);
    let next = page_number_at(page, NEXT);
    if spot.at < end || next != u32::MAX {
        return halve_middle(page, bound);
    }
    set_key(bound, key);
    Ok(Halves {
        at: end,
        from: end,
        count: number_at(page, COUNT) as u16,
        more: 0,
        place,
        link: next,
    })
}

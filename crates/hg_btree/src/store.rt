//! How the halves of a page go to the pages of a tree.
ghost use Rattle.std.specs.Prelude.{◌≡◌, ◌≢◌, ℕ, ◌+◌, ◌≤◌, ◌<◌, true, false, List, [], ◌∷◌, ◌++◌, length, Some, IfOk, IfErr, OnErr};
ghost use Rattle.hg_base.specs.Space.{NoPins, IsFree, key as page_key};
ghost use Rattle.hg_base.specs.Causes.{HasCause, fault_of};
ghost use Rattle.hg_base.specs.Lines.{IsLine};
ghost use Rattle.hg_btree.specs.Entries.{Entry};
ghost use Rattle.hg_btree.specs.Nodes.{number, spelling, IsNode};
ghost use Rattle.hg_btree.specs.Rewriting.{WritesSplit, WritesTop};
ghost use Rattle.hg_btree.specs.Steps.{Looks, GrowFault};

use crate::commit::{link_behind, pin_with_new, pin_with_two, put_three};
use crate::node::HEAD;
use crate::split::set_link;
use crate::write::{insert, start};
use hg_base::{PageFault, PageId, Pages};

/// What a page that was halved and the page above it are to get beside their bytes: the level of the
/// halves, the place of the bound, and where it goes in the page above.
#[derive(Clone, Copy)]
pub struct Bound {
    pub level: u8,
    pub place: u64,
    pub at: usize,
}

/// Links a page to the next leaf, if it is a leaf.
fn link_leaf(page: &mut [u8], leaf: bool, next: u32)
    requires { length page.old ≡ 4096 }
    ensures leaf { leaf ≡ true → (level old : ℕ) (es : List Entry) → IsNode false page.old level old es → IsNode false page.new level next es }
    ensures inner { leaf ≡ false → page.new ≡ page.old }
    ensures whole { length page.new ≡ 4096 }
{
    if leaf {
        set_link(page, false, next);
    }
}

/// Takes a new page for the upper half of a child, and writes it, the child and the page above.
pub fn store_split<S: Pages>(
    space: &mut S,
    top: PageId,
    pages: (PageId, PageId),
    above: &mut [u8],
    lower: &mut [u8],
    upper: &[u8],
    key: &[u8],
    bound: Bound,
) -> Result<u32, PageFault>
    requires no_pins { NoPins (S.state space.old) }
    requires one_file { pages.1.file ≡ pages.0.file }
    requires top_file { pages.0.file ≡ top.file }
    requires parent_free { (S.state space.old).told ≡ true → IsFree (S.state space.old) (pages.0) }
    requires child_free { (S.state space.old).told ≡ true → IsFree (S.state space.old) (pages.1) }
    requires apart { (S.state space.old).told ≡ true → page_key (pages.1) ≢ page_key (pages.0) }
    requires taken { (S.state space.old).taken (page_key top) ≡ true }
    requires no_heap { (S.state space.old).of_heap (page_key top) ≡ false }
    requires above_whole { length above.old ≡ 4096 }
    requires lower_whole { length lower.old ≡ 4096 }
    requires upper_whole { length upper.now ≡ 4096 }
    requires short { length key.now ≤ 512 }
    requires from { 16 ≤ bound.at }
    requires to { bound.at ≤ number above.old 4 }
    requires room { number above.old 4 + 526 ≤ 4096 }
    ensures writes { IfOk result (λ new. WritesSplit (S.state space.old) (S.state space.new) top (pages.0) (pages.1) new above.new lower.new upper.now) }
    ensures above { IfOk result (λ new. (level link : ℕ) (done todo : List Entry) → IsNode true above.old level link (done ++ todo)
        → bound.at ≡ 16 + length (spelling true done)
        → IsNode true above.new level link (done ++ record { key = key.now; place = bound.place; child = new } ∷ todo)) }
    ensures leaf { IfOk result (λ new. bound.level ≡ 0 → (level old : ℕ) (es : List Entry) → IsNode false lower.old level old es → IsNode false lower.new level new es) }
    ensures inner { IfOk result (λ new. 0 < bound.level → lower.new ≡ lower.old) }
    ensures err { OnErr result (Looks (S.state space.old) (S.state space.new)) }
    ensures cause { HasCause (S.state space.old) (S.state space.new) (fault_of result) }
    ensures fault { IfErr result (GrowFault top.file (S.state space.new)) }
{
    let (parent, child) = pages;
    let pins = pin_with_new(space, parent, child)?;
    let new = space.page_of(&pins.2);
    link_leaf(lower, bound.level == 0, new.no);
    insert(above, bound.at, true, key, bound.place, new.no);
    put_three(space, pins, above, lower, upper);
    link_behind(space, top, new);
    Ok(new.no)
}

/// Takes two new pages for the halves of a top, and writes them and the top, which becomes the inner page
/// above them.
pub fn store_top<S: Pages>(
    space: &mut S,
    top: PageId,
    above: &mut [u8],
    lower: &mut [u8],
    upper: &[u8],
    key: &[u8],
    bound: Bound,
) -> Result<(u32, u32), PageFault>
    requires no_pins { NoPins (S.state space.old) }
    requires free { (S.state space.old).told ≡ true → IsFree (S.state space.old) top }
    requires taken { (S.state space.old).taken (page_key top) ≡ true }
    requires no_heap { (S.state space.old).of_heap (page_key top) ≡ false }
    requires above_whole { length above.old ≡ 4096 }
    requires lower_whole { length lower.old ≡ 4096 }
    requires upper_whole { length upper.now ≡ 4096 }
    requires short { length key.now ≤ 512 }
    requires low { bound.level < 255 }
    ensures writes { IfOk result (λ new. WritesTop (S.state space.old) (S.state space.new) top (new.0) (new.1) above.new lower.new upper.now) }
    ensures above { IfOk result (λ new. IsNode true above.new (bound.level + 1) (new.0)
        (record { key = key.now; place = bound.place; child = new.1 } ∷ [])) }
    ensures leaf { IfOk result (λ new. bound.level ≡ 0 → (level old : ℕ) (es : List Entry) → IsNode false lower.old level old es → IsNode false lower.new level (new.1) es) }
    ensures inner { IfOk result (λ new. 0 < bound.level → lower.new ≡ lower.old) }
    ensures err { OnErr result (Looks (S.state space.old) (S.state space.new)) }
    ensures cause { HasCause (S.state space.old) (S.state space.new) (fault_of result) }
    ensures fault { IfErr result (GrowFault top.file (S.state space.new)) }
{
    let pins = pin_with_two(space, top)?;
    let low = space.page_of(&pins.1);
    let high = space.page_of(&pins.2);
    link_leaf(lower, bound.level == 0, high.no);
    start(above, true, bound.level + 1, low.no);
    insert(above, HEAD, true, key, bound.place, high.no);
    put_three(space, pins, above, lower, upper);
    link_behind(space, top, high);
    link_behind(space, top, low);
    Ok((low.no, high.no))
}

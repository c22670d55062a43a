//! A heap, unlocked and locked.

use crate::handing::{put_pages, take_pages};
use crate::moving::{move_pages, read_moves};
use hg_base::{PageFault, Request};
use hg_io::PageDevice;
use hg_pool::Pool;
use hg_raw::Chain;
use hg_reloc::MoveMap;

/// A heap that is unlocked: the request that it works for, its first and its last page, of the temporary
/// file, and how many it has. They are linked by their successors.
pub struct Heap {
    pub(crate) request: Request,
    pub(crate) first: u32,
    pub(crate) last: u32,
    pub(crate) count: u32,
}

/// A heap that is locked: its pages were handed out, and stand in the frames of one chain.
pub struct Locked {
    pub(crate) heap: Heap,
    pub(crate) chain: Chain,
}

impl Heap {
    ghost use Rattle.std.specs.Prelude.{◌≡◌, ◌+◌, ◌<◌, ◌≤◌, true, IfOk, IfErr, OnOk, OnErr};
    ghost use Rattle.hg_base.specs.Causes.{HasCause};
    ghost use Rattle.hg_base.specs.Content.{Objects};
    ghost use Rattle.hg_base.specs.HeapStates.{ReadFault, refused_fault};
    ghost use Rattle.hg_base.specs.Space.{IsSame};
    ghost use Rattle.hg_pool.specs.Lending.{lent_of};
    ghost use Rattle.hg_pool.specs.Shown.{state_of, current_of, max_of};
    ghost use Rattle.hg_heap.specs.Handing.{Come, out_of};
    ghost use Rattle.hg_heap.specs.Locking.{IsLockedIn, KeepsBytes, KeepsObjects, MovesAddresses, NamesPageOf};
    ghost use Rattle.hg_heap.specs.Resting.{Keeps, Rests, pages_of};

    /// Brings the pages back into frames, any of them, and rewrites their addresses where some page has
    /// moved. The objects are the same, under the addresses of these frames. Just the pages that are in no
    /// frame when their turn comes are read, each once. Refused, the heap is handed back as it was, with
    /// its pages.
    pub fn lock<M: PageDevice, T: PageDevice>(
        self,
        pool: &mut Pool<M, T>,
        map: &mut MoveMap,
    ) -> Result<Locked, (PageFault, Heap)>
        requires some { 0 < self.count }
        requires rests { Rests (state_of M.PageDevice T.PageDevice pool.old) (pages_of (state_of M.PageDevice T.PageDevice pool.old).next self) }
        requires room { lent_of pool.old + self.count + 8 ≤ current_of pool.old }
        requires map { map.old.max ≡ max_of pool.old }
        requires content { (state_of M.PageDevice T.PageDevice pool.old).told ≡ true → (o : Objects) × Keeps (state_of M.PageDevice T.PageDevice pool.old) (max_of pool.old)
            (pages_of (state_of M.PageDevice T.PageDevice pool.old).next self) o }
        ensures heap { IfOk result (λ l. l.heap ≡ self) }
        ensures state { OnOk result (state_of M.PageDevice T.PageDevice pool.new
            ≡ out_of (state_of M.PageDevice T.PageDevice pool.old) (pages_of (state_of M.PageDevice T.PageDevice pool.old).next self)) }
        ensures locked { IfOk result (λ l. IsLockedIn M.PageDevice T.PageDevice pool.new (pages_of (state_of M.PageDevice T.PageDevice pool.old).next self) l.chain) }
        ensures content { IfOk result (λ l. KeepsObjects (state_of M.PageDevice T.PageDevice pool.old) (max_of pool.old)
            (pages_of (state_of M.PageDevice T.PageDevice pool.old).next self) l.chain) }
        ensures addresses { IfOk result (λ l. MovesAddresses (state_of M.PageDevice T.PageDevice pool.old) (pages_of (state_of M.PageDevice T.PageDevice pool.old).next self) map.new l.chain) }
        ensures bytes { IfOk result (λ l. KeepsBytes (state_of M.PageDevice T.PageDevice pool.old) (pages_of (state_of M.PageDevice T.PageDevice pool.old).next self) l.chain) }
        ensures read { OnOk result (Come M.PageDevice T.PageDevice pool.old (pages_of (state_of M.PageDevice T.PageDevice pool.old).next self) pool.new) }
        ensures err { OnErr result (IsSame (state_of M.PageDevice T.PageDevice pool.old) (state_of M.PageDevice T.PageDevice pool.new)) }
        ensures back { IfErr result (λ e. e.1 ≡ self) }
        ensures cause { HasCause (state_of M.PageDevice T.PageDevice pool.old) (state_of M.PageDevice T.PageDevice pool.new) (refused_fault result) }
        ensures fault { IfErr result (λ e. ReadFault e.0) }
        ensures page { IfErr result (λ e. NamesPageOf (pages_of (state_of M.PageDevice T.PageDevice pool.old).next self) e.0) }
        ensures max { map.new.max ≡ map.old.max }
    {
        let mut chain = match take_pages(pool, self.first, self.count) {
            Ok(chain) => chain,
            Err(fault) => return Err((fault, self)),
        };
        match read_moves(pool, self.first, self.count, &chain, map) {
            Ok(true) => {
                move_pages(pool, self.first, self.count, &mut chain, map);
                Ok(Locked { heap: self, chain })
            }
            Ok(false) => Ok(Locked { heap: self, chain }),
            Err(fault) => {
                put_pages(pool, self.first, self.count, chain);
                Err((fault, self))
            }
        }
    }
}

impl Locked {
    ghost use Rattle.std.specs.Prelude.{◌≡◌, ◌<◌, true};
    ghost use Rattle.hg_base.specs.Content.{Objects};
    ghost use Rattle.hg_base.specs.HeapFacts.{AreWellPlaced};
    ghost use Rattle.hg_base.specs.HeapPage.{Stands};
    ghost use Rattle.hg_base.specs.Lines.{AreApart};
    ghost use Rattle.hg_raw.specs.Frames.{numbers};
    ghost use Rattle.hg_pool.specs.Shown.{state_of, max_of, counts_of_pool, CalledNone, SameFrames};
    ghost use Rattle.hg_heap.specs.Handing.{all_back, contents};
    ghost use Rattle.hg_heap.specs.Locking.{IsLockedIn};
    ghost use Rattle.hg_heap.specs.Resting.{Keeps, pages_of};

    /// Gives the frames back to the pool, where the pages may leave them from now on. No device is called.
    pub fn unlock<M: PageDevice, T: PageDevice>(self, pool: &mut Pool<M, T>) -> Heap
        requires some { 0 < self.heap.count }
        requires apart { AreApart (pages_of (state_of M.PageDevice T.PageDevice pool.old).next self.heap) }
        requires locked { IsLockedIn M.PageDevice T.PageDevice pool.old (pages_of (state_of M.PageDevice T.PageDevice pool.old).next self.heap) self.chain }
        ensures heap { result ≡ self.heap }
        ensures state { state_of M.PageDevice T.PageDevice pool.new
            ≡ all_back (state_of M.PageDevice T.PageDevice pool.old) (pages_of (state_of M.PageDevice T.PageDevice pool.old).next self.heap) (contents self.chain.frames) }
        ensures content { (state_of M.PageDevice T.PageDevice pool.old).told ≡ true → (o : Objects) → Stands o (numbers self.chain.frames) (contents self.chain.frames) → AreWellPlaced o
            → Keeps (state_of M.PageDevice T.PageDevice pool.new) (max_of pool.new) (pages_of (state_of M.PageDevice T.PageDevice pool.old).next self.heap) o }
        ensures frames { SameFrames pool.old pool.new }
        ensures calls_none { CalledNone pool.old pool.new }
        ensures counts { counts_of_pool pool.new ≡ counts_of_pool pool.old }
    {
        let Locked { heap, chain } = self;
        put_pages(pool, heap.first, heap.count, chain);
        heap
    }
}

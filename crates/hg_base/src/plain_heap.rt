//! A heap in memory: its pages, the request that it works for, and where it is.

use crate::Request;
use crate::plain_objects::HeapObjects;
use crate::plain_page::HeapPage;
use std::alloc::AllocError;

/// Where a heap is.
#[derive(Clone, Copy)]
pub(crate) enum PlainStanding {
    Locked,
    Unlocked,
    /// Its links mean nothing any more.
    Draining,
}

/// A heap.
#[derive(Drop)]
pub(crate) struct PlainHeap {
    pub(crate) request: Request,
    pub(crate) standing: PlainStanding,
    /// The keys of its pages, in order.
    pub(crate) pages: Vec<usize>,
    pub(crate) objects: HeapObjects,
}

impl PlainHeap {
    ghost use Rattle.std.specs.Prelude.{◌≡◌, ◌<◌, ◌++◌, ◌∷◌, [], length, OnOk, OnErr, vec_len};
    ghost use Rattle.hg_base.specs.PlainHeapFacts.{IsSameHeap, GotPage, Drained};
    ghost use Rattle.hg_base.specs.declared.plain_heap.PlainStanding.TheVariants.{Locked, Unlocked, Draining};

    /// One page more, with no object.
    pub(crate) fn add_page(&mut self, at: usize, page: HeapPage) -> Result<(), AllocError>
        requires { page ≡ [] }
        ensures ok { OnOk result (GotPage self.old self.new at) }
        ensures err { OnErr result (IsSameHeap self.old self.new) }
    {
        self.pages.reserve(1)?;
        self.objects.layout.reserve(1)?;
        self.pages.push_reserved(at);
        self.objects.layout.push_reserved(page);
        Ok(())
    }

    /// Its first page goes, and the rows of that page stand in `out`.
    pub(crate) fn drain(&mut self, out: &mut [u8]) -> usize
        requires some { 0 < vec_len self.old.pages }
        requires count { vec_len self.old.objects.layout ≡ vec_len self.old.pages }
        requires whole { length out.old ≡ 4096 }
        ensures { Drained self.old self.new result out.new }
    {
        let page = self.objects.layout.remove(0);
        page.write_rows(out);
        self.standing = PlainStanding::Draining;
        self.pages.remove(0)
    }

    /// Its pages stand in other frames now.
    pub(crate) fn lock(&mut self)
        ensures standing { self.new.standing ≡ Locked }
        ensures request { self.new.request ≡ self.old.request }
        ensures pages { self.new.pages ≡ self.old.pages }
        ensures layout { self.new.objects.layout ≡ self.old.objects.layout }
        ensures roots { self.new.objects.roots ≡ self.old.objects.roots }
    {
        let behind = self.objects.first as u64 + self.pages.len() as u64 + 1;
        self.objects.first = (behind % 65_536) as u32;
        self.standing = PlainStanding::Locked;
    }
}

//! Heaps: pages of working memory whose objects are linked by direct addresses.

use crate::{Addr, Grant, HeapNo, NoRoom, PageFault, Pages, Request};

/// A space that has heaps too. A heap is a list of temporary pages that hold objects: rows, each with
/// a payload and one link, and directories of links. While it is locked its pages stand in frames, and
/// an object is named by its address, `frame * 4096 + offset`; unlocked, its pages may leave their
/// frames, and when it is locked again they may stand in others, with every address in them rewritten.
///
/// Contracts see a heap as its objects page by page with its four roots, and as the frames in which its
/// pages stand ([`Objects`](../specs/Content.antt)): an address follows from these two. So what a call
/// keeps of addresses is what it keeps of objects and frames. Each clause `state` or `ok` says the whole
/// space after the call; whatever it does not name is as it was: pins, the bytes and successors of all
/// pages of no heap, and all other heaps.
///
/// A grant of one page comes with each page of a heap, and comes back with it.
pub trait Heaps: Pages {
    ghost use Rattle.std.specs.Prelude.{◌≡◌, ◌≢◌, ℕ, ◌+◌, ◌<◌, ◌≤◌, ◌↔◌, List, length, take, replicate, IsSome, Some, None, Option, IsOk, IfOk, IfErr, IfSome, OnOk, OnErr, IsErrOf, MatchOption, option_map};
    ghost use Rattle.std.specs.Borrow.{sem};
    ghost use Rattle.hg_base.specs.Lending.{LendsBytes};
    ghost use Rattle.hg_base.specs.Space.{Space, IsSame, IsFull};
    ghost use Rattle.hg_base.specs.Causes.{HasCause, FreshFault, fault_of, full_fault};
    ghost use Rattle.hg_base.specs.Content.{row_object, directory, object_size};
    ghost use Rattle.hg_base.specs.HeapContent.{no_links};
    ghost use Rattle.hg_base.specs.HeapFacts.{AreHeaps};
    ghost use Rattle.hg_base.specs.HeapStates.{MayGrow, CanLock, CanDrain, MakesHeap, AddsHeapPage, Locks, Drains, ReadFault, IsLocked, IsTarget, IsWordAt, HasWord, heap_count, payload_in, link_in, words_in, roots_in, room_in, next_in, after_row, after_directory, after_word, after_root, after_bytes, after_unlock, after_drop, pages_in, request_in, refused_fault, NamesHeapPage, KeepsObjects};
    ghost use Rattle.hg_base.specs.declared.File.TheVariants.{Temp};

    // the space once the last bytes behind a loan of a payload are known
    ghost after_payload: { Self → ℕ → ℕ → List ℕ → Self };

    /// A heap of one page, locked, with no object and four roots that lead to nothing.
    fn make(&mut self, grant: Grant) -> Result<HeapNo, (PageFault, Grant)>
        requires one { grant.pages ≡ 1 }
        requires few_heaps { heap_count (Self.state self.old) < 512 }
        requires room { MayGrow (Self.state self.old) grant.request }
        ensures ok { IfOk result (λ h. MakesHeap (Self.state self.old) (Self.state self.new) h.0
            grant.request) }
        ensures err { OnErr result (IsSame (Self.state self.old) (Self.state self.new)) }
        ensures back { IfErr result (λ e. e.1 ≡ grant) }
        ensures fault { IfErr result (λ e. FreshFault Temp (Self.state self.old) e.0) }
        ensures cause { HasCause (Self.state self.old) (Self.state self.new)
            (refused_fault result) }
        ensures full { IsFull (Self.state self.old) Temp → IfErr result (λ e. e.0 ≡ full_fault Temp) }
        ensures full_fails { IsFull (Self.state self.old) Temp → ¬ (IsOk result) };

    /// One page more for a heap that is locked, behind the others. Objects are placed there from now on.
    fn add_page(&mut self, h: HeapNo, grant: Grant) -> Result<(), (PageFault, Grant)>
        requires one { grant.pages ≡ 1 }
        requires locked { IsLocked (Self.state self.old) h.0 }
        requires same { grant.request ≡ request_in ((Self.state self.old).heaps.heap h.0) }
        requires room { MayGrow (Self.state self.old) grant.request }
        ensures ok { OnOk result (AddsHeapPage (Self.state self.old) (Self.state self.new) h.0) }
        ensures err { OnErr result (IsSame (Self.state self.old) (Self.state self.new)) }
        ensures back { IfErr result (λ e. e.1 ≡ grant) }
        ensures fault { IfErr result (λ e. FreshFault Temp (Self.state self.old) e.0) }
        ensures cause { HasCause (Self.state self.old) (Self.state self.new)
            (refused_fault result) }
        ensures full { IsFull (Self.state self.old) Temp → IfErr result (λ e. e.0 ≡ full_fault Temp) }
        ensures full_fails { IsFull (Self.state self.old) Temp → ¬ (IsOk result) };

    /// Places a row behind the last object, on the last page. NoRoom comes exactly where its size passes
    /// the free bytes of that page; nothing then changes.
    fn place(&mut self, h: HeapNo, payload: &[u8], link: Addr) -> Result<Addr, NoRoom>
        requires locked { IsLocked (Self.state self.old) h.0 }
        requires some { 0 < length payload.now }
        requires short { length payload.now ≤ 3920 }
        requires target { IsTarget (Self.state self.old) h.0 link.word }
        ensures room { IsOk result ↔ IfSome (room_in (Self.state self.old) h.0) (λ free. object_size
            (row_object payload.now None) ≤ free) }
        ensures address { IfOk result (λ a. next_in (Self.state self.old) h.0 ≡ Some a.word) }
        ensures ok { OnOk result (Self.state self.new ≡ after_row (Self.state self.old) h.0
            payload.now link.word) }
        ensures there { IfOk result (λ a. payload_in (Self.state self.new) h.0 a.word
            ≡ Some payload.now) }
        ensures leads { IfOk result (λ a. link_in (Self.state self.new) h.0 a.word
            ≡ Some link.word) }
        ensures kept { KeepsObjects (Self.state self.old) (Self.state self.new) h.0 }
        ensures err { OnErr result (Self.state self.new ≡ Self.state self.old) };

    /// Places a directory of `n` addresses, all of them nil. NoRoom as in `place`.
    fn place_words(&mut self, h: HeapNo, n: u16) -> Result<Addr, NoRoom>
        requires locked { IsLocked (Self.state self.old) h.0 }
        ensures room { IsOk result ↔ IfSome (room_in (Self.state self.old) h.0) (λ free. object_size
            (directory (no_links n)) ≤ free) }
        ensures address { IfOk result (λ a. next_in (Self.state self.old) h.0 ≡ Some a.word) }
        ensures ok { OnOk result (Self.state self.new ≡ after_directory (Self.state self.old) h.0 n) }
        ensures there { IfOk result (λ a. words_in (Self.state self.new) h.0 a.word
            ≡ Some (replicate n 0)) }
        ensures kept { KeepsObjects (Self.state self.old) (Self.state self.new) h.0 }
        ensures err { OnErr result (Self.state self.new ≡ Self.state self.old) };

    /// The k-th address of a directory, from 0.
    fn word(&self, h: HeapNo, dir: Addr, k: u16) -> Addr
        requires { HasWord (words_in (Self.state self.now) h.0 dir.word) k }
        ensures value { IsWordAt (words_in (Self.state self.now) h.0 dir.word) k result.word }
        ensures target { IsTarget (Self.state self.now) h.0 result.word };

    /// Sets the k-th address of a directory to nil or to any object of the heap.
    fn set_word(&mut self, h: HeapNo, dir: Addr, k: u16, to: Addr)
        requires inside { HasWord (words_in (Self.state self.old) h.0 dir.word) k }
        requires target { IsTarget (Self.state self.old) h.0 to.word }
        ensures { Self.state self.new ≡ after_word (Self.state self.old) h.0 dir.word k to.word };

    /// The address that a row leads to.
    fn follow(&self, h: HeapNo, a: Addr) -> Addr
        requires { IsSome (payload_in (Self.state self.now) h.0 a.word) }
        ensures value { link_in (Self.state self.now) h.0 a.word ≡ Some result.word }
        ensures target { IsTarget (Self.state self.now) h.0 result.word };

    /// The payload of a row, where it stands.
    fn payload(&self, h: HeapNo, a: Addr) -> &[u8]
        requires { IsSome (payload_in (Self.state self.now) h.0 a.word) }
        ensures { payload_in (Self.state self.now) h.0 a.word ≡ Some result.now };

    /// The payload of a row, to be written.
    fn payload_mut(&mut self, h: HeapNo, a: Addr) -> &mut [u8]
        requires { IsSome (payload_in (Self.state self.old) h.0 a.word) }
        ensures* lends { sem 𝓛 (LendsBytes Self.row self.entry result (after_payload self.old h.0
            a.word)) }
        ensures value { payload_in (Self.state self.old) h.0 a.word ≡ Some result.now };

    /// The payload of a row, at any number and address: None exactly where no locked heap has the number
    /// or no row of it stands there.
    fn peek(&self, h: HeapNo, a: Addr) -> Option<&[u8]>
        ensures { MatchOption result (payload_in (Self.state self.now) h.0 a.word ≡ None)
            (λ b. payload_in (Self.state self.now) h.0 a.word ≡ Some b.now) };

    /// How many addresses a directory has, at any number and address: None exactly where no locked heap
    /// has the number or no directory of it stands there.
    fn words(&self, h: HeapNo, a: Addr) -> Option<u16>
        ensures { result ≡ option_map length (words_in (Self.state self.now) h.0 a.word) };

    /// One of the four roots, by its number from 0.
    fn root(&self, h: HeapNo, k: u8) -> Addr
        requires locked { IsLocked (Self.state self.now) h.0 }
        requires four { k < 4 }
        ensures value { IsWordAt (roots_in (Self.state self.now) h.0) k result.word }
        ensures target { IsTarget (Self.state self.now) h.0 result.word };

    /// Sets a root to nil or to any object of the heap.
    fn set_root(&mut self, h: HeapNo, k: u8, to: Addr)
        requires locked { IsLocked (Self.state self.old) h.0 }
        requires four { k < 4 }
        requires target { IsTarget (Self.state self.old) h.0 to.word }
        ensures { Self.state self.new ≡ after_root (Self.state self.old) h.0 k to.word };

    /// Brings the pages of a heap into frames, any of them. The objects are the same, under the addresses
    /// of these frames. Refused, the heap stays unlocked with its objects.
    fn lock(&mut self, h: HeapNo) -> Result<(), PageFault>
        requires { CanLock (Self.state self.old) h.0 }
        ensures ok { OnOk result (Locks (Self.state self.old) (Self.state self.new) h.0) }
        ensures err { OnErr result (IsSame (Self.state self.old) (Self.state self.new)) }
        ensures fault { IfErr result ReadFault }
        ensures page { IfErr result (NamesHeapPage (pages_in ((Self.state self.old).heaps.heap h.0))) }
        ensures cause { HasCause (Self.state self.old) (Self.state self.new) (fault_of result) };

    /// Gives the frames of a heap back; its pages may leave them from now on.
    fn unlock(&mut self, h: HeapNo)
        requires { IsLocked (Self.state self.old) h.0 }
        ensures { Self.state self.new ≡ after_unlock (Self.state self.old) h.0 };

    /// Copies the first page into `out`, 4,096 bytes, releases it and gives back its grant. Links mean
    /// nothing any more: the heap is draining. Refused, the heap is as it was, and `out` has any bytes.
    fn drain(&mut self, h: HeapNo, out: &mut [u8]) -> Result<Grant, PageFault>
        requires few_pins { (Self.state self.old).pins < 8 }
        requires at_rest { CanDrain ((Self.state self.old).heaps.heap h.0) }
        requires whole { length out.old ≡ 4096 }
        ensures ok { OnOk result (Drains (Self.state self.old) (Self.state self.new) h.0 out.new) }
        ensures grant { IfOk result (λ g. g ≡ record {
          request = request_in ((Self.state self.old).heaps.heap h.0);
          pages = 1;
        }) }
        ensures err { OnErr result (IsSame (Self.state self.old) (Self.state self.new)) }
        ensures fault { IfErr result ReadFault }
        ensures page { IfErr result (NamesHeapPage (take 1 (pages_in ((Self.state self.old).heaps.heap h.0)))) }
        ensures cause { HasCause (Self.state self.old) (Self.state self.new) (fault_of result) };

    /// Releases all pages of a heap, wherever they are, and gives back its grant. No device is called.
    fn drop_heap(&mut self, h: HeapNo) -> Grant
        requires { IsSome ((Self.state self.old).heaps.heap h.0) }
        ensures state { Self.state self.new ≡ after_drop (Self.state self.old) h.0 }
        ensures grant { result ≡ record {
          request = request_in ((Self.state self.old).heaps.heap h.0);
          pages = length (pages_in ((Self.state self.old).heaps.heap h.0));
        } };

    /// How many pages a heap has.
    fn pages(&self, h: HeapNo) -> u32
        requires { IsSome ((Self.state self.now).heaps.heap h.0) }
        ensures { result ≡ length (pages_in ((Self.state self.now).heaps.heap h.0)) };

    /// The most pages that the request's heaps had at once since its cap was last set.
    fn peak(&self, r: Request) -> u32
        ensures count { result ≡ (Self.state self.now).heaps.peak r }
        ensures heaps { AreHeaps (Self.state self.now) };

    ghost writes_payload: { (s : Self) (h a : ℕ) (b w : List ℕ)
        → payload_in (Self.state s) h a ≡ Some b → length w ≡ length b
        → Self.state (after_payload s h a w) ≡ after_bytes (Self.state s) h a w };
}

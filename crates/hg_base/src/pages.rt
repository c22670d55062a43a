//! The seam between the buffer pool and everything that is kept on pages.

use crate::{Check, File, PageId};

/// Why a call over pages failed.
#[derive(Clone, Copy, PartialEq, Eq, Debug)]
pub enum PageFault {
    /// The device of the main file failed in this call.
    MainFault,
    /// The device of the temporary file failed in this call.
    TempFault,
    /// All pages of the main file are taken.
    MainFull,
    /// All pages of the temporary file are taken.
    TempFull,
    /// A page holds what no writer put there. It never comes where the space tells its bytes.
    Damaged { page: PageId, check: Check },
}

/// A space of pages in two files. Contracts see it as a [`Space`](../specs/Space.antt): a finite
/// map from the pages that are taken to their 4,096 bytes, the pins that are out, a successor for
/// each page, which pages are of a heap, and counts of faults.
///
/// A space tells its bytes, or it does not: that never changes. Where it does not, the bytes of a
/// page are known only while a pin holds it, and it may hold any bytes when it is pinned again.
pub trait Pages {
    ghost use Rattle.std.specs.Prelude.{◌≡◌, ◌≢◌, ℕ, ◌+◌, ◌<◌, ◌≤◌, ◌↔◌, true, false, List, length, IsTrue, Some, None, IfOk, IfErr, OnOk, OnErr, IsErrOf};
    ghost use Rattle.std.specs.Borrow.{sem};
    ghost use Rattle.hg_base.specs.Lending.{LendsBytes};
    ghost use Rattle.hg_base.specs.Space.{Space, key, IsPinned, IsMade, IsSame, IsFree, IsFull, IsWithinLimit, without_pin, without_page, with_bytes, with_next, full_count, taken_in};
    ghost use Rattle.hg_base.specs.Causes.{HasCause, PinFault, FreshFault, fault_of, full_fault};
    ghost use Rattle.hg_base.specs.declared.PageId.{PageId};

    /// The right to a page's bytes. It must be spent by `unpin`.
    type Pin;

    ghost state: { Self → Space };

    ghost pin_page: { Self.Pin → PageId };

    // the space once the last bytes behind a loan of a page's bytes are known
    ghost after_write: { Self → ℕ → List ℕ → Self };

    /// Pins a page, so that its bytes can be read and written.
    fn pin(&mut self, page: PageId) -> Result<Self::Pin, PageFault>
        requires taken { (state self.old).taken (key page) ≡ true }
        requires not_pinned { (state self.old).pinned (key page) ≡ false }
        requires no_heap { (state self.old).of_heap (key page) ≡ false }
        requires few { (state self.old).pins < 8 }
        ensures names { IfOk result (λ pin. pin_page pin ≡ page) }
        ensures ok { OnOk result (IsPinned (state self.old) (state self.new) (key page)) }
        ensures err { OnErr result (IsSame (state self.old) (state self.new)) }
        ensures fault { IfErr result PinFault }
        ensures cause { HasCause (state self.old) (state self.new) (fault_of result) };

    /// Takes a page that was not taken: zeros, pinned, with no successor.
    fn fresh(&mut self, file: File) -> Result<Self::Pin, PageFault>
        requires few { (state self.old).pins < 8 }
        ensures ok { IfOk result (λ pin. IsMade file (state self.old) (state self.new) (pin_page pin)) }
        ensures err { OnErr result (IsSame (state self.old) (state self.new)) }
        ensures fault { IfErr result (FreshFault file (state self.old)) }
        ensures cause { HasCause (state self.old) (state self.new) (fault_of result) }
        ensures full { IsFull (state self.old) file → IsErrOf result (full_fault file) };

    /// The page that a pin holds.
    fn page_of(&self, pin: &Self::Pin) -> PageId
        ensures { result ≡ pin_page pin.now };

    /// The bytes of a pinned page.
    fn bytes(&self, pin: &Self::Pin) -> &[u8]
        requires { (state self.now).pinned (key (pin_page pin.now)) ≡ true }
        ensures value { (state self.now).bytes (key (pin_page pin.now)) ≡ Some result.now }
        ensures len { length result.now ≡ 4096 };

    /// The bytes of a pinned page, to be written.
    fn bytes_mut(&mut self, pin: &Self::Pin) -> &mut [u8]
        requires { (state self.old).pinned (key (pin_page pin.now)) ≡ true }
        ensures* lends { sem 𝓛 (LendsBytes Self.row self.entry result (after_write self.old (key (pin_page pin.now)))) }
        ensures value { (state self.old).bytes (key (pin_page pin.now)) ≡ Some result.now }
        ensures len { length result.now ≡ 4096 };

    /// Gives a pin back.
    fn unpin(&mut self, pin: Self::Pin)
        requires { (state self.old).pinned (key (pin_page pin)) ≡ true }
        ensures { state self.new ≡ without_pin (state self.old) (key (pin_page pin)) };

    /// Gives a page back, so that it is not taken any more.
    fn release(&mut self, page: PageId)
        requires taken { (state self.old).taken (key page) ≡ true }
        requires not_pinned { (state self.old).pinned (key page) ≡ false }
        requires no_heap { (state self.old).of_heap (key page) ≡ false }
        ensures { state self.new ≡ without_page (state self.old) (key page) };

    /// The number of a page's successor, which is a page of the same file.
    fn next(&self, page: PageId) -> Option<u32>
        requires { (state self.now).taken (key page) ≡ true }
        ensures { result ≡ (state self.now).next (key page) };

    /// Sets or takes away a page's successor.
    fn set_next(&mut self, page: PageId, next: Option<u32>)
        requires taken { (state self.old).taken (key page) ≡ true }
        requires no_heap { (state self.old).of_heap (key page) ≡ false }
        ensures { state self.new ≡ with_next (state self.old) (key page) next };

    /// How often a call was answered by a fault of the main file's device so far.
    fn main_faults(&self) -> u64
        ensures { result ≡ (state self.now).counts.main };

    /// How often a call was answered by a fault of the temporary file's device so far.
    fn temp_faults(&self) -> u64
        ensures { result ≡ (state self.now).counts.temp };

    /// How many pages of a file are taken.
    fn taken(&self, file: File) -> u32
        ensures count { result ≡ taken_in (state self.now) file }
        ensures finite { IsWithinLimit (state self.now) file };

    /// Whether a page may be pinned. Ask it of a page whose number was read from a page.
    fn can_pin(&self, page: PageId) -> bool
        ensures { IsTrue result ↔ IsFree (state self.now) page };

    /// How often `fresh` found all pages of a file taken so far.
    fn fulls(&self, file: File) -> u64
        ensures { result ≡ full_count (state self.now).counts file };

    ghost writes: { (s : Self) (p : ℕ) (b w : List ℕ)
        → (state s).bytes p ≡ Some b → (state s).pinned p ≡ true → length w ≡ length b
        → state (after_write s p w) ≡ with_bytes (state s) p w };
}

//! Another number of frames in use.

use crate::parts::Parts;
use hg_base::PageFault;
use hg_io::PageDevice;

impl<M: PageDevice, T: PageDevice> Parts<M, T> {
    ghost use Rattle.std.specs.Prelude.{◌≡◌, ◌≤◌, ℕ, false, OnOk, OnErr, IfErr, IsOk, MatchResult};
    ghost use Rattle.hg_base.specs.Space.{IsSame};
    ghost use Rattle.hg_base.specs.Causes.{HasCause, PinFault, fault_of};
    ghost use Rattle.hg_pool.specs.Picture.{frame_at};
    ghost use Rattle.hg_pool.specs.Clocking.{is_busy};
    ghost use Rattle.hg_pool.specs.Passing.{PassesParts, IsClean};
    ghost use Rattle.hg_pool.specs.Shown.{state_of, IsWhole, clock_of, current_of, max_of, SameStockOf, CalledNone};
    ghost use Rattle.hg_pool.specs.Resizing.{NoneOut, with_current, Writes, KeepsBelow, StaysWhole, Cleaned};

    /// Writes the page of each frame from `from` on to its device, if its bytes are newer.
    fn clean_from(&mut self, from: usize) -> Result<(), PageFault>
        requires whole { IsWhole M.PageDevice T.PageDevice self.old }
        requires free { (f : ℕ) → is_busy (frame_at self.old.store.frames.items f) ≡ false }
        requires inside { from ≤ current_of self.old }
        ensures passes { PassesParts M.PageDevice T.PageDevice self.old self.new result }
        ensures cleaned { OnOk result (Cleaned M.PageDevice T.PageDevice self.old self.new from (current_of self.old)) }
        ensures refused { IfErr result (StaysWhole M.PageDevice T.PageDevice self.old self.new from) }
        ensures clock { clock_of self.new ≡ clock_of self.old }
        ensures evictions { self.new.store.counts.evictions ≡ self.old.store.counts.evictions }
    {
        for at in from..self.store.frames.count() {
            match self.clean(at) {
                Err(fault) => return Err(fault),
                Ok(()) => {}
            }
        }
        Ok(())
    }

    pub(crate) fn resize(&mut self, count: usize) -> Result<(), PageFault>
        requires whole { IsWhole M.PageDevice T.PageDevice self.old }
        requires none_out { NoneOut (state_of M.PageDevice T.PageDevice self.old) }
        requires at_least { 16 ≤ count }
        requires reserved { count ≤ max_of self.old }
        ensures whole { IsWhole M.PageDevice T.PageDevice self.new }
        ensures ok { OnOk result (state_of M.PageDevice T.PageDevice self.new ≡ with_current (state_of M.PageDevice T.PageDevice self.old) count) }
        ensures err { OnErr result (IsSame (state_of M.PageDevice T.PageDevice self.old) (state_of M.PageDevice T.PageDevice self.new)) }
        ensures cause { HasCause (state_of M.PageDevice T.PageDevice self.old)
            (state_of M.PageDevice T.PageDevice self.new) (fault_of result) }
        ensures fault { IfErr result PinFault }
        ensures size { MatchResult result (λ _. current_of self.new ≡ count) (λ _. current_of self.new ≡ current_of self.old) }
        ensures written { OnOk result (Writes M.PageDevice T.PageDevice self.old self.new count (current_of self.old)) }
        ensures keeps { OnOk result (KeepsBelow self.old self.new count) }
        ensures refused { IfErr result (StaysWhole M.PageDevice T.PageDevice self.old self.new count) }
        ensures larger_ok { current_of self.old ≤ count → IsOk result }
        ensures larger_calls { current_of self.old ≤ count → self.new.devices ≡ self.old.devices }
        ensures clock { clock_of self.new ≡ clock_of self.old }
        ensures stock { SameStockOf self.old self.new }
        ensures evictions { self.new.store.counts.evictions ≡ self.old.store.counts.evictions }
    {
        if count < self.store.frames.count() {
            self.clean_from(count)?;
            self.store.frames.shrink(count);
        } else {
            self.store.frames.grow(count);
        }
        Ok(())
    }
}

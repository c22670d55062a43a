//! Pages that are handed out with their frames.

use crate::parts::Parts;
use hg_base::{PageFault, PageId};
use hg_io::PageDevice;
use hg_raw::Chain;

impl<M: PageDevice, T: PageDevice> Parts<M, T> {
    ghost use Rattle.std.specs.Prelude.{◌≡◌, ◌≢◌, ℕ, ◌+◌, ◌<◌, ◌-◌, ◌^◌, ◌||◌, true, false, None, Some, OnOk, OnErr, IfOk, IfErr, IsOk};
    ghost use Rattle.hg_base.specs.Space.{key, IsSame};
    ghost use Rattle.hg_base.specs.Causes.{HasCause, PinFault, fault_of};
    ghost use Rattle.hg_clock.specs.Clock.{score_of};
    ghost use Rattle.hg_pool.specs.Clocking.{ComesIn, used, back};
    ghost use Rattle.hg_pool.specs.Shown.{state_of, IsWhole, in_frame, frame_of, page_in, clock_of, current_of, SameFrames, KeepsFrames, owed, OwesSame, Asked, IsRefused};
    ghost use Rattle.hg_pool.specs.Work.{evicted, owed_by};
    ghost use Rattle.hg_pool.specs.Keeping.{SameStock};
    ghost use Rattle.hg_pool.specs.Lending.{put_back, IsHandedOut, lent_of, IsChainOf, bytes_in, IsAsOnDevice, OneMoreOut, OneLessOut, KeepsOut};

    pub(crate) fn take_page(&mut self, page: PageId) -> Result<Chain, PageFault>
        requires whole { IsWhole M.PageDevice T.PageDevice self.old }
        requires taken { (state_of M.PageDevice T.PageDevice self.old).taken (key page) ≡ true }
        requires not_pinned { (state_of M.PageDevice T.PageDevice self.old).pinned (key page) ≡ false }
        requires not_out { (state_of M.PageDevice T.PageDevice self.old).of_heap (key page) ≡ false }
        requires few { lent_of self.old + 8 < current_of self.old }
        ensures whole { IsWhole M.PageDevice T.PageDevice self.new }
        ensures ok { IfOk result (λ chain. IsHandedOut (state_of M.PageDevice T.PageDevice self.old)
            (state_of M.PageDevice T.PageDevice self.new) (key page) (bytes_in self.new page chain)) }
        ensures chain { IfOk result (λ chain. IsChainOf self.new page chain) }
        ensures as_on_device { IfOk result (λ chain. IsAsOnDevice M.PageDevice T.PageDevice self.new page (bytes_in self.new page chain)) }
        ensures err { OnErr result (IsSame (state_of M.PageDevice T.PageDevice self.old) (state_of M.PageDevice T.PageDevice self.new)) }
        ensures cause { HasCause (state_of M.PageDevice T.PageDevice self.old)
            (state_of M.PageDevice T.PageDevice self.new) (fault_of result) }
        ensures fault { IfErr result PinFault }
        ensures in_frame { OnOk result (in_frame self.new page ≡ true) }
        ensures asked { OnOk result (in_frame self.old page ≡ false
            → Asked M.PageDevice T.PageDevice self.old self.new (owed self.old (frame_of self.new page)) (Some page.file)) }
        ensures refused { IfErr result (IsRefused M.PageDevice T.PageDevice self.old self.new page) }
        ensures used { OnOk result (in_frame self.old page ≡ true → clock_of self.new ≡ used (clock_of self.old) (frame_of self.old page)) }
        ensures comes { OnOk result (in_frame self.old page ≡ false
            → ComesIn (current_of self.old) (clock_of self.old) (clock_of self.new) (frame_of self.new page)) }
        ensures score { OnOk result (score_of (clock_of self.new) (frame_of self.new page) ≡ 7) }
        ensures stock { OnOk result (OneMoreOut self.old self.new) }
        ensures err_stock { OnErr result (SameStock self.old.store self.new.store) }
        ensures no_call { in_frame self.old page ≡ true → self.new.devices ≡ self.old.devices }
        ensures stays_ok { in_frame self.old page ≡ true → IsOk result }
        ensures keeps_frames { OnOk result (KeepsFrames self.old self.new page (frame_of self.new page)) }
        ensures same_frames { in_frame self.old page ≡ true → SameFrames self.old self.new }
        ensures owing { in_frame self.old page ≡ true → OwesSame self.old self.new }
        ensures clean { OnOk result (in_frame self.old page ≡ false → owed self.new (frame_of self.new page) ≡ None) }
        ensures keeps_out { KeepsOut M.PageDevice T.PageDevice self.old self.new }
        ensures keeps_counts { in_frame self.old page ≡ true → self.new.store.counts ≡ self.old.store.counts }
        ensures evicts { OnOk result (in_frame self.old page ≡ false → self.new.store.counts.evictions
            ≡ evicted (page_in self.old (frame_of self.new page)) self.old.store.counts.evictions) }
        ensures uncounted { self.new.store.counts ≡ self.old.store.counts → self.old.store.counts.reads < 2 ^ 64 - 1
            → self.old.store.counts.writes < 2 ^ 64 - 1 → self.new.devices ≡ self.old.devices }
    {
        let at = self.bring(page)?;
        Ok(self.store.lend(at))
    }

    pub(crate) fn put_page(&mut self, page: PageId, chain: Chain, dirty: bool)
        requires whole { IsWhole M.PageDevice T.PageDevice self.old }
        requires out { (state_of M.PageDevice T.PageDevice self.old).of_heap (key page) ≡ true }
        requires chain { IsChainOf self.old page chain }
        requires unchanged { dirty ≡ false → IsAsOnDevice M.PageDevice T.PageDevice self.old page (bytes_in self.old page chain) }
        ensures whole { IsWhole M.PageDevice T.PageDevice self.new }
        ensures after { state_of M.PageDevice T.PageDevice self.new
            ≡ put_back (state_of M.PageDevice T.PageDevice self.old) (key page) (bytes_in self.old page chain) }
        ensures owing { dirty ≡ false → owed self.new (frame_of self.old page) ≡ owed self.old (frame_of self.old page) }
        ensures owing_dirty { dirty ≡ true → owed self.new (frame_of self.old page) ≡ Some page.file }
        ensures owing_others { (g : ℕ) → g ≢ frame_of self.old page → owed self.new g ≡ owed self.old g }
        ensures clock { clock_of self.new ≡ back (clock_of self.old) (frame_of self.old page) }
        ensures stock { OneLessOut self.old self.new }
        ensures frames { SameFrames self.old self.new }
        ensures counts { self.new.store.counts ≡ self.old.store.counts }
        ensures no_call { self.new.devices ≡ self.old.devices }
    {
        let at = self.store.places.at(page);
        self.store.take_home(at, chain, dirty);
    }
}

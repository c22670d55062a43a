//! Pins of pages whose numbers may be any.
ghost use Rattle.std.specs.Prelude.{◌≡◌, true, IfOk, IfErr, OnOk, OnErr, IsErrOf};
ghost use Rattle.hg_base.specs.Space.{NoPins, IsFree, IsPinned, IsSame, key_in};
ghost use Rattle.hg_base.specs.Causes.{HasCause, fault_of};
ghost use Rattle.hg_table.specs.Calls.{LookFault, NamesPage, CannotBePinned, main_page};
ghost use Rattle.hg_table.specs.Steps.{IsThis, IsNotFree};

use hg_base::{Check, File, PageFault, PageId, Pages};

/// The page of the main file with this number.
pub fn main_page(no: u32) -> PageId
    ensures { result ≡ main_page no }
{
    PageId {
        file: File::Main,
        no,
    }
}

/// What was found wrong with a page.
pub fn damaged(no: u32, check: Check) -> PageFault
    ensures { result ≡ PageFault.Damaged (main_page no) check }
{
    PageFault::Damaged {
        page: main_page(no),
        check,
    }
}

/// Pins a page of the main file. A page that cannot be pinned is damage of the check given.
pub fn open<S: Pages>(space: &mut S, no: u32, check: Check) -> Result<S::Pin, PageFault>
    requires out { NoPins (S.state space.old) }
    requires free { (S.state space.old).told ≡ true → IsFree (S.state space.old) (main_page no) }
    ensures names { IfOk result (λ pin. S.pin_page pin ≡ main_page no) }
    ensures free { OnOk result (IsFree (S.state space.old) (main_page no)) }
    ensures ok { OnOk result (IsPinned (S.state space.old) (S.state space.new)
        (key_in File.Main no)) }
    ensures err { OnErr result (IsSame (S.state space.old) (S.state space.new)) }
    ensures cause { HasCause (S.state space.old) (S.state space.new) (fault_of result) }
    ensures fault { IfErr result (LookFault (IsThis check)) }
    ensures page { IfErr result (NamesPage no) }
    ensures barred { IfErr result (IsNotFree (S.state space.old)) }
    ensures no_page { CannotBePinned (S.state space.old) no
        → IsErrOf result (PageFault.Damaged (main_page no) check) }
    ensures links { (S.state space.new).next ≡ (S.state space.old).next }
{
    let page = main_page(no);
    if !space.can_pin(page) {
        return Err(damaged(no, check));
    }
    space.pin(page)
}

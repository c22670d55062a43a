//! The governor's queues, limits and grants, worked out by hand.
ghost use Rattle.std.specs.Prelude.{◌≡◌, ◌≤◌};
ghost use Rattle.std.specs.Bool.{OnTrue};
ghost use Rattle.hg_model.specs.Limits.{IsProper};
ghost use Rattle.hg_gov.specs.Rounds.{held_by, ceiling_in, soft_in};

use crate::Governor;
use hg_base::{Freeable, Grant, Request};
use std::test::Fail;

/// Who asks for pages: it can free so many.
#[derive(Drop)]
struct Holder {
    request: Request,
    freeable: u32,
}

impl Freeable for Holder {
    ghost can_free = { λ h. h.freeable };

    ghost works_for = { λ h. h.request };

    fn freeable(&self) -> u32 {
        self.freeable
    }

    fn request(&self) -> Request {
        self.request
    }
}

/// Whether the holder's request may be granted a page.
fn may_grow(gov: &Governor, holder: &Holder) -> bool
    ensures { OnTrue result (IsProper (held_by gov.now holder.now.request) holder.now.freeable (ceiling_in gov.now) (soft_in gov.now)) }
{
    let held = gov.held(holder.request);
    held < gov.ceiling() && (held < gov.soft() || holder.freeable == 0)
}

/// Grants pages to a request that holds none until the condition fails, gives them back, and tells how
/// many they were.
fn grow(gov: &mut Governor, holder: &Holder) -> u32 {
    let mut all = Grant::none(holder.request);
    for _turn in 0..65_536u32 {
        if may_grow(gov, holder) {
            let more = gov.grant(holder.request, holder);
            all = all.join(more);
        }
    }
    let pages = all.pages();
    gov.returned(all);
    pages
}

#[test]
fn limits_by_hand(rt: HostRuntime) -> Result<(), Fail> {
    // hard, soft and ceiling of an empty round, and the pages that are granted to a request that can
    // free none, and to one that can
    for (max, pool, mpl, hard, soft, ceiling, few) in [
        (256, 128, 4, 192, 32, 120, 32),
        (64, 64, 1, 48, 64, 48, 48),
        (16, 16, 16, 12, 1, 8, 1),
        (65_536, 65_536, 3, 49_152, 21_845, 49_152, 21_845),
        (100, 17, 2, 75, 8, 9, 8),
    ] {
        let mut gov = Governor::new(max, pool, mpl);
        assert_eq!(rt;
            (gov.hard(), gov.soft(), gov.ceiling()),
            (hard, soft, ceiling)
        );
        let request = Request(9);
        let rich = Holder {
            request,
            freeable: 1,
        };
        let poor = Holder {
            request,
            freeable: 0,
        };
        assert_eq!(rt; grow(&mut gov, &rich), few);
        assert_eq!(rt; grow(&mut gov, &poor), ceiling);
        assert_eq!(rt; gov.held(request), 0);
    }
    Ok(())
}

#[test]
fn a_round_by_hand(rt: HostRuntime) -> Result<(), Fail> {
    let mut gov = Governor::new(256, 128, 2);
    assert_eq!(rt; gov.next_turn(), None);
    // 5 and 7 are active, 3 and 9 wait
    assert_eq!(rt; gov.start(Request(5)), true);
    assert_eq!(rt; gov.start(Request(7)), true);
    assert_eq!(rt; gov.start(Request(3)), false);
    assert_eq!(rt; gov.start(Request(9)), false);
    assert_eq!(rt; (gov.active(), gov.waiting(), gov.hard()), (2, 2, 96));
    assert_eq!(rt; gov.next_turn(), Some(Request(5)));
    assert_eq!(rt; gov.next_turn(), Some(Request(7)));
    // 3 joins behind 5
    gov.stop(Request(7));
    assert_eq!(rt; (gov.active(), gov.waiting()), (2, 1));
    assert_eq!(rt; gov.next_turn(), Some(Request(5)));
    assert_eq!(rt; gov.next_turn(), Some(Request(3)));
    // 9 joins behind 5 and 3
    gov.set_mpl(3);
    assert_eq!(rt; gov.next_turn(), Some(Request(5)));
    assert_eq!(rt; gov.next_turn(), Some(Request(3)));
    assert_eq!(rt; gov.next_turn(), Some(Request(9)));
    Ok(())
}

#[test]
fn nobody_leaves_when_mpl_is_lowered(rt: HostRuntime) -> Result<(), Fail> {
    let mut gov = Governor::new(256, 128, 2);
    assert_eq!(rt; gov.start(Request(3)), true);
    assert_eq!(rt; gov.start(Request(9)), true);
    assert_eq!(rt; gov.start(Request(7)), false);
    gov.set_mpl(1);
    assert_eq!(rt; (gov.active(), gov.waiting()), (2, 1));
    // 7 joins once nobody is active
    gov.stop(Request(9));
    assert_eq!(rt; (gov.active(), gov.waiting()), (1, 1));
    gov.stop(Request(3));
    assert_eq!(rt; gov.next_turn(), Some(Request(7)));
    gov.stop(Request(7));
    assert_eq!(rt; gov.next_turn(), None);
    Ok(())
}

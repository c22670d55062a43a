//! Rows worked out by hand.
ghost use Rattle.std.specs.Prelude.{◌≡◌, ◌≤◌, All, IfOk};
ghost use Rattle.hg_clock.specs.Clock.{frame_count};

use super::Clock;
use hg_base::FrameNo;
use std::alloc::Global;
use std::test::Fail;

/// Scores and hand as after some run of touches and victims.
fn clock_with(alloc: Global, scores: [u8; 3], hand: u32) -> Result<Clock, Fail>
    requires { All (λ s. s ≤ 7) scores }
    ensures { IfOk result (λ clock. frame_count clock ≡ 3) }
{
    let scores = Vec::from_array(alloc, scores)?;
    let out = vec![in alloc; false; 3]?;
    Ok(Clock { scores, out, hand })
}

#[test]
fn the_first_used_up_is_taken(rt: HostRuntime) -> Result<(), Fail> {
    let mut clock = clock_with(rt.alloc(), [2, 0, 1], 0)?;
    assert_eq!(rt; clock.victim(3), Some(FrameNo(1)));
    assert_eq!(rt; clock.scores.as_slice(), [1, 0, 1].as_slice());
    assert_eq!(rt; clock.hand, 2);
    Ok(())
}

#[test]
fn a_frame_that_is_out_is_passed(rt: HostRuntime) -> Result<(), Fail> {
    let mut clock = clock_with(rt.alloc(), [2, 0, 1], 0)?;
    clock.set_out(FrameNo(1), true);
    assert_eq!(rt; clock.victim(3), Some(FrameNo(2)));
    assert_eq!(rt; clock.scores.as_slice(), [0, 0, 0].as_slice());
    assert_eq!(rt; clock.hand, 3);
    Ok(())
}

#[test]
fn calls_in_a_row(rt: HostRuntime) -> Result<(), Fail> {
    let made = Clock::new(rt.alloc(), 2);
    let mut clock = made.ok().ok_or("memory")?;
    clock.touch(FrameNo(0));
    // The hand lowers frame 0 to 6 and takes frame 1, and then to 5 and takes frame 1 again.
    assert_eq!(rt; clock.victim(2), Some(FrameNo(1)));
    assert_eq!(rt; clock.victim(2), Some(FrameNo(1)));
    clock.touch(FrameNo(1));
    // Both are passed five times, and then frame 0 is used up.
    assert_eq!(rt; clock.victim(2), Some(FrameNo(0)));
    assert_eq!(rt; clock.scores.as_slice(), [0, 2].as_slice());
    clock.clear(FrameNo(1));
    assert_eq!(rt; clock.victim(2), Some(FrameNo(1)));
    clock.set_out(FrameNo(0), true);
    clock.set_out(FrameNo(1), true);
    assert_eq!(rt; clock.victim(2), None);
    clock.set_out(FrameNo(0), false);
    assert_eq!(rt; clock.victim(2), Some(FrameNo(0)));
    Ok(())
}

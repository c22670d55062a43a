//! Sweeps over the frames from one number up to another.
ghost use Rattle.std.specs.Prelude.{◌≡◌, ◌≤◌, ◌<◌, ℕ, Bool, false, length, slice_index, slice_index_or, IfSome, IfNone};
ghost use Rattle.hg_clock.specs.Sweep.{AllOutIn, IsLeastIn, Lowers, IsFirstUsedUp, LowersBefore, Passes};
ghost use Rattle.hg_clock.specs.Clock.{place, first_look};

/// The frame at which the hand looks first.
pub fn first_frame(hand: usize, current: usize) -> usize
    ensures first { result ≡ first_look current hand }
    ensures ordered { result ≤ current }
{
    if hand < current { hand } else { 0 }
}

/// The first frame of least score among those that are not out. A score of 0 ends the sweep.
pub fn least_in(scores: &[u8], out: &[bool], low: usize, high: usize) -> Option<usize>
    requires ordered { low ≤ high }
    requires inside { high ≤ length scores.now }
    requires same_length { length out.now ≡ length scores.now }
    ensures found { IfSome result (λ f. IsLeastIn scores.now out.now low high f) }
    ensures none { IfNone result (AllOutIn out.now low high) }
{
    let mut best: Option<usize> = None;
    for frame in low..high {
        if out[frame] {
            continue;
        }
        if scores[frame] == 0 {
            return Some(frame);
        }
        let is_less = match best {
            None => true,
            Some(other) => scores[frame] < scores[other],
        };
        if is_less {
            best = Some(frame);
        }
    }
    best
}

/// Lowers the score of each frame that is not out.
pub fn lower(scores: &mut [u8], out: &[bool], low: usize, high: usize, amount: u8)
    requires ordered { low ≤ high }
    requires inside { high ≤ length scores.old }
    requires same_length { length out.now ≡ length scores.old }
    requires enough { (g : ℕ) → low ≤ g → g < high → slice_index_or out.now g false ≡ false → amount ≤ slice_index scores.old g }
    ensures { Lowers scores.old out.now low high amount scores.new }
{
    for frame in low..high {
        if !out[frame] {
            scores[frame] -= amount;
        }
    }
}

/// The frame that the hand takes when it looks at `first` first. It reads each frame once at most, and
/// stops at the first of score 0 from `first` on.
pub fn first_used_up(scores: &[u8], out: &[bool], first: usize, current: usize) -> Option<usize>
    requires ordered { first ≤ current }
    requires inside { current ≤ length scores.now }
    requires same_length { length out.now ≡ length scores.now }
    ensures found { IfSome result (λ f. IsFirstUsedUp scores.now out.now current first f) }
    ensures none { IfNone result (AllOutIn out.now 0 current) }
{
    let Some(ahead) = least_in(scores, out, first, current) else {
        return least_in(scores, out, 0, first);
    };
    if scores[ahead] == 0 {
        return Some(ahead);
    }
    match least_in(scores, out, 0, first) {
        Some(behind) if scores[behind] < scores[ahead] => Some(behind),
        _ => Some(ahead),
    }
}

/// Lowers by 1 the scores of the frames that the hand passes on its way from `first` to `victim`.
pub fn lower_before(scores: &mut [u8], out: &[bool], first: usize, current: usize, victim: usize)
    requires ordered { first ≤ current }
    requires inside { current ≤ length scores.old }
    requires same_length { length out.now ≡ length scores.old }
    requires below { victim < current }
    requires enough { (g : ℕ) → g < current → slice_index_or out.now g false ≡ false
        → place current first g < place current first victim → 0 < slice_index scores.old g }
    ensures { LowersBefore scores.old out.now current first victim scores.new }
{
    if first <= victim {
        lower(scores, out, first, victim, 1);
    } else {
        lower(scores, out, first, current, 1);
        lower(scores, out, 0, victim, 1);
    }
}

/// Lowers each score by as many passes as the hand makes over its frame before it takes `victim`.
pub fn pass(scores: &mut [u8], out: &[bool], first: usize, current: usize, victim: usize)
    requires ordered { first ≤ current }
    requires inside { current ≤ length scores.old }
    requires same_length { length out.now ≡ length scores.old }
    requires victim { IsFirstUsedUp scores.old out.now current first victim }
    ensures { Passes scores.old out.now current first victim scores.new }
{
    let rounds = scores[victim];
    if rounds > 0 {
        lower(scores, out, 0, current, rounds);
    }
    lower_before(scores, out, first, current, victim);
}

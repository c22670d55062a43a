//! The governor of working memory: which requests are active and whose turn it is, how many pages each
//! may hold, and the grants for them. It stands on `hg_base`, and on `hg_model` for the limits, which are
//! defined there; the contract that the layers above use is that of [`Governor`].
//!
//! ```text
//! queue   | 7 | 2 | 9 | 4 | 11 |        the round is 7, 2, 9; 4 and 11 wait
//!                       ^ active
//! ```
//!
//! Both queues are one list of at most 16 requests, the active ones first. Nobody waits while fewer than
//! `mpl` are active, so the back of the round is where the waiting list begins: waiting ones join by
//! moving the mark alone.
#![tactic(auto)]

#[cfg(test)]
mod tests;

ghost use Rattle.std.specs.Prelude.{◌≡◌, ℕ, ◌+◌, ◌-◌, ◌<◌, ◌≤◌, [], List, length, nat_lt, replicate, slice_index, drop};
ghost use Rattle.hg_model.specs.Limits.{IsProper};
ghost use Rattle.hg_gov.specs.Rounds.{GovernorState, IsSound, IsIdle, IsBusy, hard_in, soft_in, ceiling_in, held_by, count_of, started, joined, stopped, front_of, turned, with_held};

use arrayvec::ArrayVec;
use hg_base::{Freeable, Grant, Ledger, Request};
use std::marker::Model;

/// How many frames no request may hold.
const RESERVE: u32 = 8;

/// Who is active and who waits, what each request holds, and the three numbers that the limits are made
/// of: the most frames that the pool may have, the frames in use, and how many requests may be active.
#[derive(Drop)]
pub struct Governor {
    queue: ArrayVec<u8, 16>,
    active: u32,
    ledger: Ledger,
    most: u32,
    current: u32,
    mpl: u32,
}

impl Model for Governor {
    ghost use Rattle.hg_gov.specs.Rounds.{GovernorState};
    ghost use Rattle.hg_gov.specs.Shown.{shown, IsKept};

    ghost Value = { GovernorState };

    ghost view = { λ g. shown g.queue.items g.active g.ledger.held g.most g.current g.mpl };

    ghost invariant = { λ g. IsKept g.queue.items g.active g.ledger.held g.most g.current g.mpl };
}

/// Where a request stands in a queue.
fn place_of(queue: &[u8], request: u8) -> usize
    requires { 1 ≤ count_of request queue.now }
    ensures inside { result < length queue.now }
    ensures here { slice_index queue.now result ≡ request }
{
    for at in 0..queue.len() {
        if queue[at] == request {
            return at;
        }
    }
    unreachable!()
}

impl Governor {
    /// Nobody is active, nobody waits, and no page is granted.
    pub fn new(max: u32, pool: u32, mpl: u32) -> Governor
        requires max { max ≤ 65536 }
        requires pool_some { 16 ≤ pool }
        requires pool_few { pool ≤ max }
        requires mpl_some { 1 ≤ mpl }
        requires mpl_few { mpl ≤ 16 }
        ensures made { result ≡ record { round = []; waiting = []; held = replicate 16 0; most = max; current = pool; mpl = mpl } }
        ensures sound { IsSound result }
    {
        Governor {
            queue: ArrayVec::new(),
            active: 0,
            ledger: Ledger::new(),
            most: max,
            current: pool,
            mpl,
        }
    }

    /// A request becomes active, or waits: it is active exactly where fewer than `mpl` were.
    pub fn start(&mut self, r: Request) -> bool
        requires { IsIdle self.old r }
        ensures state { self.new ≡ started r self.old }
        ensures active { result ≡ nat_lt (length self.old.round) self.old.mpl }
        ensures sound { IsSound self.new }
    {
        self.queue.push(r.0);
        if self.active < self.mpl {
            self.active += 1;
            return true;
        }
        false
    }

    /// A request becomes idle, and waiting ones join the round.
    pub fn stop(&mut self, r: Request)
        requires { IsBusy self.old r }
        ensures state { self.new ≡ stopped r self.old }
        ensures sound { IsSound self.new }
    {
        let at = place_of(self.queue.as_slice(), r.0);
        let _ = self.queue.remove(at);
        let mut active = self.active;
        if (at as u32) < active {
            active -= 1;
        }
        self.active = active.max(self.mpl.min(self.queue.len() as u32));
    }

    /// The front of the round, which goes to its back. None exactly where nobody is active.
    pub fn next_turn(&mut self) -> Option<Request>
        ensures state { self.new ≡ record self.old { round = turned self.old.round } }
        ensures front { result ≡ front_of self.old.round }
        ensures sound { IsSound self.new }
    {
        if self.active == 0 {
            return None;
        }
        let front = self.queue.remove(0);
        self.queue.insert(self.active as usize - 1, front);
        Some(Request(front))
    }

    /// The most pages that an active request may hold: three quarters of the most frames, shared among
    /// those that are active.
    pub fn hard(&self) -> u32
        ensures limit { result ≡ hard_in self.now }
        ensures sound { IsSound self.now }
    {
        3 * self.most / (4 * self.active.max(1))
    }

    /// The pages that a request may hold although it can free some: the frames in use, shared among
    /// those that may be active.
    pub fn soft(&self) -> u32
        ensures limit { result ≡ soft_in self.now }
        ensures sound { IsSound self.now }
    {
        self.current / self.mpl
    }

    /// The most pages that a request may hold now: the hard limit, or what the pool has beside its
    /// reserve.
    pub fn ceiling(&self) -> u32
        ensures limit { result ≡ ceiling_in self.now }
        ensures sound { IsSound self.now }
    {
        self.hard().min(self.current - RESERVE)
    }

    /// How many requests are active.
    pub fn active(&self) -> u32
        ensures count { result ≡ length self.now.round }
        ensures sound { IsSound self.now }
    {
        self.active
    }

    /// How many requests wait.
    pub fn waiting(&self) -> u32
        ensures count { result ≡ length self.now.waiting }
        ensures sound { IsSound self.now }
    {
        self.queue.len() as u32 - self.active
    }

    /// How many pages a request holds.
    pub fn held(&self, r: Request) -> u32
        ensures count { result ≡ held_by self.now r }
        ensures sound { IsSound self.now }
    {
        self.ledger.held(r)
    }

    /// Grants one page to a request, whose pages the holder has. It cannot be refused: the condition is
    /// that the request stays within the ceiling, and within the soft limit unless it can free nothing.
    pub fn grant<F: Freeable>(&mut self, r: Request, holder: &F) -> Grant
        requires holder { F.works_for holder.now ≡ r }
        requires proper { IsProper (held_by self.old r) (F.can_free holder.now) (ceiling_in self.old) (soft_in self.old) }
        ensures grant { result ≡ record { request = r; pages = 1 } }
        ensures state { self.new ≡ with_held self.old r (held_by self.old r + 1) }
        ensures sound { IsSound self.new }
    {
        let _ = holder;
        self.ledger.grant(r)
    }

    /// Takes a grant back.
    pub fn returned(&mut self, g: Grant)
        requires { g.pages ≤ held_by self.old g.request }
        ensures state { self.new ≡ with_held self.old g.request (held_by self.old g.request - g.pages) }
        ensures sound { IsSound self.new }
    {
        self.ledger.returned(g);
    }

    /// Sets how many requests may be active. Where it is raised, waiting ones join the round; where it
    /// is lowered, nobody leaves it.
    pub fn set_mpl(&mut self, n: u32)
        requires some { 1 ≤ n }
        requires few { n ≤ 16 }
        ensures state { self.new ≡ joined (record self.old { mpl = n }) }
        ensures sound { IsSound self.new }
    {
        self.mpl = n;
        self.active = self.active.max(n.min(self.queue.len() as u32));
    }

    /// Sets how many frames are in use.
    pub fn set_pool(&mut self, n: u32)
        requires some { 16 ≤ n }
        requires few { n ≤ self.old.most }
        ensures state { self.new ≡ record self.old { current = n } }
        ensures sound { IsSound self.new }
    {
        self.current = n;
    }
}

//! The right to pages of working memory: who is granted one, and who can give one back.
ghost use Rattle.std.specs.Prelude.{◌≡◌, ◌+◌, ◌-◌, ◌<◌, ◌≤◌, slice_index, slice_set, replicate};

use crate::Request;

/// The right to so many pages of working memory, for one request. It is worth something, so it has no
/// `Drop`: whoever holds it joins it to another, makes a page of it or gives it back to where it came
/// from.
pub struct Grant {
    request: Request,
    pages: u32,
}

impl Grant {
    /// A grant of no page.
    pub fn none(request: Request) -> Grant
        ensures { result ≡ record { request = request; pages = 0 } }
    {
        Grant { request, pages: 0 }
    }

    /// A grant of so many pages, of a space that is in memory.
    pub(crate) fn of(request: Request, pages: u32) -> Grant
        ensures { result ≡ record { request = request; pages = pages } }
    {
        Grant { request, pages }
    }

    /// A page was made of it.
    pub(crate) fn spend(self) {
        let Grant {
            request: _,
            pages: _,
        } = self;
    }

    /// Both grants as one.
    pub fn join(self, other: Grant) -> Grant
        requires same { other.request ≡ self.request }
        requires few { self.pages + other.pages ≤ 4294967295 }
        ensures { result ≡ record { request = self.request; pages = self.pages + other.pages } }
    {
        let Grant { request, pages } = self;
        let Grant {
            request: _,
            pages: more,
        } = other;
        Grant {
            request,
            pages: pages + more,
        }
    }

    /// Takes a grant of one page off.
    pub fn split(&mut self) -> Grant
        requires { 0 < self.old.pages }
        ensures one { result ≡ record { request = self.old.request; pages = 1 } }
        ensures left { self.new ≡ record { request = self.old.request; pages = self.old.pages - 1 } }
    {
        self.pages -= 1;
        Grant {
            request: self.request,
            pages: 1,
        }
    }

    /// How many pages it is of.
    pub fn pages(&self) -> u32
        ensures { result ≡ self.now.pages }
    {
        self.pages
    }

    /// The request that it was granted to.
    pub fn request(&self) -> Request
        ensures { result ≡ self.now.request }
    {
        self.request
    }
}

/// What can be asked for its memory: an operator, or a tree of them.
pub trait Freeable {
    ghost use Rattle.std.specs.Prelude.{◌≡◌, ℕ};

    ghost can_free: { Self → ℕ };

    ghost works_for: { Self → ℕ };

    /// How many of its pages it can give up.
    fn freeable(&self) -> u32
        ensures { result ≡ can_free self.now };

    /// The request that its pages are granted to.
    fn request(&self) -> Request
        ensures { result ≡ works_for self.now };
}

/// Grants without limits, for tests of what asks for grants: it tells how many pages each request
/// holds.
#[derive(Drop)]
pub struct Ledger {
    held: [u32; 16],
}

impl Ledger {
    /// No request holds a page.
    pub fn new() -> Ledger
        ensures { result.held ≡ replicate 16 0 }
    {
        Ledger { held: [0; 16] }
    }

    /// Grants one page.
    pub fn grant(&mut self, r: Request) -> Grant
        requires { slice_index self.old.held r < 65536 }
        ensures grant { result ≡ record { request = r; pages = 1 } }
        ensures held { self.new.held ≡ slice_set self.old.held r (slice_index self.old.held r + 1) }
    {
        self.held[r.0 as usize] += 1;
        Grant {
            request: r,
            pages: 1,
        }
    }

    /// Takes a grant back.
    pub fn returned(&mut self, g: Grant)
        requires { g.pages ≤ slice_index self.old.held g.request }
        ensures { self.new.held ≡ slice_set self.old.held g.request (slice_index self.old.held g.request - g.pages) }
    {
        let Grant { request, pages } = g;
        self.held[request.0 as usize] -= pages;
    }

    /// How many pages a request holds.
    pub fn held(&self, r: Request) -> u32
        ensures { result ≡ slice_index self.now.held r }
    {
        self.held[r.0 as usize]
    }
}

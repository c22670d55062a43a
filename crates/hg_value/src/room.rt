//! The room of a row: bytes and places of which those in front count. Taking some away writes over none.
use std::marker::Model;

/// At most 3,900 bytes, one behind the other. Contracts see those that count.
#[derive(Drop)]
pub struct Bytes {
    cells: [u8; 3900],
    used: usize,
}

impl Model for Bytes {
    ghost use Rattle.std.specs.Prelude.{◌≡◌, ◌≤◌, ℕ, List, length, take};

    ghost Value = { List ℕ };

    ghost view = { λ b. take b.used b.cells };

    ghost invariant = { λ b. (b.used ≤ 3900) × (length b.cells ≡ 3900) };
}

impl Bytes {
    ghost use Rattle.std.specs.Prelude.{◌≡◌, ◌+◌, ◌≤◌, ◌++◌, [], length, take};

    /// No bytes.
    pub fn new() -> Bytes
        ensures { result ≡ [] }
    {
        Bytes {
            cells: [0; 3900],
            used: 0,
        }
    }

    pub fn len(&self) -> usize
        ensures value { result ≡ length self.now }
        ensures fits { result ≤ 3900 }
    {
        self.used
    }

    /// Puts bytes behind those that are there.
    #[inline]
    pub fn put(&mut self, bytes: &[u8])
        requires { length self.old + length bytes.now ≤ 3900 }
        ensures { self.new ≡ self.old ++ bytes.now }
    {
        let end = self.used + bytes.len();
        self.cells[self.used..end].copy_from_slice(bytes);
        self.used = end;
    }

    /// Keeps the first bytes.
    pub fn truncate(&mut self, len: usize)
        ensures { self.new ≡ take len self.old }
    {
        if len < self.used {
            self.used = len;
        }
    }

    pub fn as_slice(&self) -> &[u8]
        ensures { result.now ≡ self.now }
    {
        &self.cells[..self.used]
    }
}

/// At most 64 places in a row's bytes. Contracts see those that count.
#[derive(Drop)]
pub struct Places {
    cells: [u16; 64],
    used: usize,
}

impl Model for Places {
    ghost use Rattle.std.specs.Prelude.{◌≡◌, ◌≤◌, ℕ, List, length, take};

    ghost Value = { List ℕ };

    ghost view = { λ p. take p.used p.cells };

    ghost invariant = { λ p. (p.used ≤ 64) × (length p.cells ≡ 64) };
}

impl Places {
    ghost use Rattle.std.specs.Prelude.{◌≡◌, ◌<◌, ◌≤◌, ◌++◌, ◌∷◌, [], length, take};

    /// No places.
    pub fn new() -> Places
        ensures { result ≡ [] }
    {
        Places {
            cells: [0; 64],
            used: 0,
        }
    }

    pub fn len(&self) -> usize
        ensures value { result ≡ length self.now }
        ensures fits { result ≤ 64 }
    {
        self.used
    }

    /// Puts a place behind those that are there.
    #[inline]
    pub fn push(&mut self, place: u16)
        requires { length self.old < 64 }
        ensures { self.new ≡ self.old ++ place ∷ [] }
    {
        self.cells[self.used] = place;
        self.used += 1;
    }

    /// Keeps the first places.
    pub fn truncate(&mut self, len: usize)
        ensures { self.new ≡ take len self.old }
    {
        if len < self.used {
            self.used = len;
        }
    }

    pub fn as_slice(&self) -> &[u16]
        ensures { result.now ≡ self.now }
    {
        &self.cells[..self.used]
    }
}

//! A source of bytes and a sink for bytes.
ghost use Rattle.std.specs.Prelude.{◌≡◌, ◌≤◌, ℕ, List, Option, IfOk, OnErr, length};
ghost use Rattle.hg_base.specs.Count.{raised, Ends};
ghost use Rattle.hg_io.specs.Count.{CountsFaults};
ghost use Rattle.hg_io.specs.Bytes.{Reads, Writes};

/// The answer of a call on the outside that did not do its work.
#[derive(Clone, Copy, PartialEq, Eq, Debug)]
pub struct Failed;

/// Counts a fault.
pub(crate) fn count_fault(faults: &mut u64) -> Failed
    ensures { faults.new ≡ raised faults.old 1 }
{
    *faults = faults.saturating_add(1);
    Failed
}

/// Where the bytes of a script come from.
pub trait Source {
    /// The bytes that are left, where the source tells them.
    ghost left: { Self → Option (List ℕ) };

    /// How many bytes it gave so far.
    ghost given: { Self → ℕ };

    /// How many of its calls failed so far.
    ghost faults: { Self → ℕ };

    /// Puts the next bytes into the front of `buf` and answers their number. 0 for a buffer that is
    /// not empty is the end of the script. Behind them, and after a read that failed, `buf` has any bytes.
    fn read(&mut self, buf: &mut [u8]) -> Result<usize, Failed>
        ensures bound { IfOk result (λ n. n ≤ length buf.old) }
        ensures bytes { Reads (left self.old) (left self.new) result buf.new }
        ensures given { IfOk result (λ n. given self.new ≡ raised (given self.old) n) }
        ensures given_stays { OnErr result (given self.new ≡ given self.old) }
        ensures cause { CountsFaults (faults self.old) (faults self.new) result };

    /// The counts end at 2^64 - 1.
    ghost given_ends: { (s : Self) → Ends (given s) };

    ghost faults_end: { (s : Self) → Ends (faults s) };
}

/// Where the bytes of the replies go.
pub trait Sink {
    /// The bytes that were written, where the sink tells them.
    ghost written: { Self → Option (List ℕ) };

    /// How many of its calls failed so far.
    ghost faults: { Self → ℕ };

    /// Takes bytes from the front of `bytes` and answers their number, which is above 0 for a piece
    /// that is not empty.
    fn write(&mut self, bytes: &[u8]) -> Result<usize, Failed>
        ensures bound { IfOk result (λ n. n ≤ length bytes.now) }
        ensures bytes { Writes (written self.old) (written self.new) result bytes.now }
        ensures cause { CountsFaults (faults self.old) (faults self.new) result };

    /// The count ends at 2^64 - 1.
    ghost faults_end: { (s : Self) → Ends (faults s) };
}

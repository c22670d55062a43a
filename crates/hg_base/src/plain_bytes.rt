//! Bytes in memory.

use std::alloc::{AllocError, Global};
use std::marker::Model;

/// The bytes of a page or of a payload, or none. Contracts see their list.
#[derive(Drop)]
pub(crate) struct PlainBytes {
    bytes: Vec<u8>,
}

impl Model for PlainBytes {
    ghost use Rattle.std.specs.Prelude.{ℕ, List};

    ghost Value = { List ℕ };

    ghost view = { λ p. p.bytes.items };
}

impl PlainBytes {
    ghost use Rattle.std.specs.Prelude.{◌≡◌, [], length, IfOk};
    ghost use Rattle.std.specs.Borrow.{sem};
    ghost use Rattle.hg_base.specs.Space.{zero_page};
    ghost use Rattle.hg_base.specs.Lending.{LendsBytes, refit};
    ghost use Rattle.hg_base.specs.contracts.plain_bytes.PlainBytes.{the_row};

    pub(crate) fn none(alloc: Global) -> PlainBytes
        ensures { result ≡ [] }
    {
        PlainBytes {
            bytes: Vec::new(alloc),
        }
    }

    #[tactic(auto, unfolding(crate::specs::Space::zero_page))]
    pub(crate) fn zeros(alloc: Global) -> Result<PlainBytes, AllocError>
        ensures { IfOk result (λ p. p ≡ zero_page) }
    {
        Ok(PlainBytes {
            bytes: vec![in alloc; 0; 4096]?,
        })
    }

    /// These bytes once more.
    pub(crate) fn of(alloc: Global, bytes: &[u8]) -> Result<PlainBytes, AllocError>
        ensures { IfOk result (λ p. p ≡ bytes.now) }
    {
        let mut copy = Vec::new(alloc);
        copy.extend_from_slice(bytes)?;
        Ok(PlainBytes { bytes: copy })
    }

    pub(crate) fn len(&self) -> usize
        ensures { result ≡ length self.now }
    {
        self.bytes.len()
    }

    pub(crate) fn bytes(&self) -> &[u8]
        ensures { result.now ≡ self.now }
    {
        self.bytes.as_slice()
    }

    pub(crate) fn bytes_mut(&mut self) -> &mut [u8]
        ensures* lends { sem 𝓛 (LendsBytes the_row self.entry result (refit self.old)) }
        ensures value { result.now ≡ self.old }
    {
        self.bytes.as_mut_slice()
    }
}

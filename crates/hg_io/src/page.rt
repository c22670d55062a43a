//! The bytes of a page, as the devices in memory keep them.
ghost use Rattle.std.specs.Prelude.{◌≡◌, IfOk, length};
ghost use Rattle.hg_io.specs.Device.{zeros};

use std::alloc::{AllocError, Global};
use std::marker::Model;

/// The bytes of a page.
pub const PAGE_BYTES: usize = 4096;

/// A page's bytes, in memory of its own.
#[derive(Drop)]
pub(crate) struct Page {
    bytes: Vec<u8>,
}

impl Model for Page {
    ghost use Rattle.std.specs.Prelude.{◌≡◌, ℕ, List, length};

    ghost Value = { List ℕ };

    ghost view = { λ p. p.bytes.items };

    ghost invariant = { λ p. length p.bytes.items ≡ 4096 };
}

impl Page {
    /// A page of these bytes.
    pub(crate) fn of(alloc: Global, bytes: &[u8]) -> Result<Page, AllocError>
        requires whole_page { length bytes.now ≡ 4096 }
        ensures { IfOk result (λ page. page ≡ bytes.now) }
    {
        let bytes = Vec::from_slice(alloc, bytes)?;
        Ok(Page { bytes })
    }

    #[tactic(auto, unfolding(crate::specs::Device::zeros))]
    pub(crate) fn of_zeros(alloc: Global) -> Result<Page, AllocError>
        ensures { IfOk result (λ page. page ≡ zeros) }
    {
        let bytes = vec![in alloc; 0; PAGE_BYTES]?;
        Ok(Page { bytes })
    }

    pub(crate) fn bytes(&self) -> &[u8]
        ensures value { result.now ≡ self.now }
        ensures whole_page { length result.now ≡ 4096 }
    {
        self.bytes.as_slice()
    }

    pub(crate) fn put(&mut self, bytes: &[u8])
        requires whole_page { length bytes.now ≡ 4096 }
        ensures { self.new ≡ bytes.now }
    {
        self.bytes.as_mut_slice().copy_from_slice(bytes);
    }
}

/// Makes all bytes of the page zero.
pub(crate) fn put_zeros(page: &mut [u8])
    requires { length page.old ≡ 4096 }
    ensures { page.new ≡ zeros }
{
    page.fill(0);
}

//! Addresses of objects in heaps.

ghost use Rattle.std.specs.Prelude.{◌≡◌, ◌+◌, ◌*◌, ◌/◌, ◌%◌, ◌^◌, ◌<◌, ◌↔◌, IsTrue};

use crate::FrameNo;

/// The address of an object: the number of its frame times 4,096, plus its offset there. The word
/// 0 is nil, the address of nothing.
#[derive(Clone, Copy, PartialEq, Eq, Debug)]
pub struct Addr {
    pub word: u64,
}

impl Addr {
    /// The address at that offset of that frame.
    pub fn of(f: FrameNo, offset: u16) -> Addr
        requires { offset < 4096 }
        ensures { result.word ≡ f.0 * 4096 + offset }
    {
        Addr {
            word: f.0 as u64 * 4096 + offset as u64,
        }
    }

    /// The address of nothing.
    pub fn nil() -> Addr
        ensures { result.word ≡ 0 }
    {
        Addr { word: 0 }
    }

    /// The frame that the address names.
    pub fn frame(&self) -> FrameNo
        requires { self.now.word < 2 ^ 44 }
        ensures { result.0 ≡ self.now.word / 4096 }
    {
        FrameNo((self.word / 4096) as u32)
    }

    /// The offset in its frame, below 4,096.
    pub fn offset(&self) -> u16
        ensures { result ≡ self.now.word % 4096 }
    {
        (self.word % 4096) as u16
    }

    /// Whether this is the address of nothing.
    pub fn is_nil(&self) -> bool
        ensures { IsTrue result ↔ (self.now.word ≡ 0) }
    {
        self.word == 0
    }
}

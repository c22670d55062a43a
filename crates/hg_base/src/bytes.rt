//! Numbers in bytes, the least byte first: read at a place of a slice, and written there.

ghost use Rattle.std.specs.Prelude.{◌≡◌, ◌+◌, ◌≤◌, length, take, drop};
ghost use Rattle.std.specs.Int.{w16, w32, w64, to_le_bytes, from_le_bytes};
ghost use borrow.Rule.Slice.PartMut.{put_mid};

/// The number that the two bytes from `at` on stand for.
pub fn get_u16(b: &[u8], at: usize) -> u16
    requires { at + 2 ≤ length b.now }
    ensures value { result ≡ from_le_bytes w16 (take 2 (drop at b.now)) }
    ensures spelled { to_le_bytes w16 result ≡ take 2 (drop at b.now) }
{
    u16::from_le_bytes([b[at], b[at + 1]])
}

/// The number that the four bytes from `at` on stand for.
pub fn get_u32(b: &[u8], at: usize) -> u32
    requires { at + 4 ≤ length b.now }
    ensures value { result ≡ from_le_bytes w32 (take 4 (drop at b.now)) }
    ensures spelled { to_le_bytes w32 result ≡ take 4 (drop at b.now) }
{
    u32::from_le_bytes([b[at], b[at + 1], b[at + 2], b[at + 3]])
}

/// The number that the eight bytes from `at` on stand for.
pub fn get_u64(b: &[u8], at: usize) -> u64
    requires { at + 8 ≤ length b.now }
    ensures value { result ≡ from_le_bytes w64 (take 8 (drop at b.now)) }
    ensures spelled { to_le_bytes w64 result ≡ take 8 (drop at b.now) }
{
    u64::from_le_bytes([
        b[at],
        b[at + 1],
        b[at + 2],
        b[at + 3],
        b[at + 4],
        b[at + 5],
        b[at + 6],
        b[at + 7],
    ])
}

/// Writes the number into the two bytes from `at` on.
pub fn put_u16(b: &mut [u8], at: usize, v: u16)
    requires { at + 2 ≤ length b.old }
    ensures { b.new ≡ put_mid at 2 b.old (to_le_bytes w16 v) }
{
    b[at..at + 2].copy_from_slice(&v.to_le_bytes());
}

/// Writes the number into the four bytes from `at` on.
pub fn put_u32(b: &mut [u8], at: usize, v: u32)
    requires { at + 4 ≤ length b.old }
    ensures { b.new ≡ put_mid at 4 b.old (to_le_bytes w32 v) }
{
    b[at..at + 4].copy_from_slice(&v.to_le_bytes());
}

/// Writes the number into the eight bytes from `at` on.
pub fn put_u64(b: &mut [u8], at: usize, v: u64)
    requires { at + 8 ≤ length b.old }
    ensures { b.new ≡ put_mid at 8 b.old (to_le_bytes w64 v) }
{
    b[at..at + 8].copy_from_slice(&v.to_le_bytes());
}

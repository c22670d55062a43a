//! The forms of a coding.
ghost use Rattle.std.specs.Prelude.{◌≡◌};
ghost use Rattle.hg_model.specs.Tables.{fits_integer};

/// The byte that a coding begins with.
pub const NULL: u8 = 0;

pub const NARROW: u8 = 1;

pub const TEXT: u8 = 2;

pub const WIDE: u8 = 3;

/// Whether a number has 32 bits.
pub fn is_narrow(x: i128) -> bool
    ensures { result ≡ fits_integer x }
{
    x >= -(1 << 31) && x < (1 << 31)
}

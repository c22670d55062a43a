//! How many levels of bits there are over so many pages.
ghost use Rattle.std.specs.Prelude.{◌≡◌, ◌+◌, ◌/◌, ◌^◌, ◌<◌, ◌≤◌};
ghost use Rattle.hg_space.specs.Summary.{level_start};

/// How many levels there are above the bits of the pages, and the number of the first page's bit.
#[derive(Clone, Copy)]
pub struct Levels {
    pub above: u32,
    pub first: usize,
}

/// Levels so that each word of the lowest one has a bit above it, but for the word that all begins with.
pub fn levels_for(pages: usize) -> Levels
    requires { pages < 2 ^ 32 }
    ensures start { result.first ≡ level_start result.above }
    ensures enough { (result.first + pages) / 64 ≤ result.first }
    ensures few { result.first < 2 ^ 34 }
{
    let mut above = 0;
    let mut first = 0;
    while (first + pages) / 64 > first {
        above += 1;
        first = 64 * (first + 1);
    }
    Levels { above, first }
}

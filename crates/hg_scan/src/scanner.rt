//! Cuts pieces off the front of a line.
use crate::cut::cut_piece;
use crate::piece::Piece;

/// The rest of a line, of which pieces are cut off one by one.
#[derive(Clone, Copy)]
pub struct Scanner<'a> {
    pub rest: &'a [u8],
}

impl<'a> Scanner<'a> {
    ghost use Rattle.std.specs.Prelude.{◌≡◌};
    ghost use Rattle.hg_scan.specs.Cutting.{front_of};
    ghost use Rattle.hg_scan.specs.Shown.{Cuts};

    /// A scanner of a whole line, without its line feed.
    pub fn new(line: &'a [u8]) -> Scanner<'a>
        ensures { result.rest.now ≡ line.now }
    {
        Scanner { rest: line }
    }

    /// Cuts the next piece off. At the end of the line, and where no token can begin, the scanner stays
    /// where it is, and so answers the same again.
    pub fn next_token(&mut self) -> Piece<'a>
        ensures { Cuts (front_of self.old.rest.now) result self.old.rest.now self.new.rest.now }
    {
        let cut = cut_piece(self.rest);
        self.rest = cut.rest;
        cut.piece
    }
}

//! Laws of the definitions. A function here computes nothing: its contract is the law.
ghost use Rattle.hg_scan.specs.Cutting.{Spelled, EndsLine, EndsWrong, GoesOn, GetsShorter, TextsFit};

/// A line has one list of tokens at most: those that the scanner finds one after the other.
pub fn tokens_are_what_a_line_spells()
    ensures spelled { Spelled }
    ensures at_end { EndsLine }
    ensures wrong { EndsWrong }
    ensures next { GoesOn }
    ensures shorter { GetsShorter }
    ensures texts_fit { TextsFit }
{}

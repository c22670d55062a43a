//! Laws of the grammar. A function here computes nothing: its contract is the law.
ghost use Rattle.hg_model.specs.Reading.{HasOneReading};
ghost use Rattle.hg_parse.specs.Laws.{JudgesAlike, KeepsFronts, OneTree, ReadsByDescent};

/// A line has at most one tree, and so is read in one way: as nothing, as a syntax error, as having a
/// number out of range or too many of something, or as one statement.
pub fn a_line_has_one_reading()
    ensures { HasOneReading }
{}

/// A list of tokens has a tree exactly where the descent finds it, and no other.
pub fn tokens_have_one_tree()
    ensures { OneTree }
{}

/// What a line is read as is a function of its bytes: the one that the scanner and the descent compute.
pub fn a_line_is_read_by_descent()
    ensures { ReadsByDescent }
{}

/// A descent that keeps only so many items of each list, and counts them all, reads the same commands and
/// keeps fronts of the same lists.
pub fn fronts_are_kept()
    ensures { KeepsFronts }
{}

/// What is kept so says of the whole statement whether a number is out of range, and which count is too
/// great.
pub fn what_is_kept_judges_alike()
    ensures { JudgesAlike }
{}

//! What reading and binding give the slow evaluator. A function here computes nothing: its contract is the
//! law.
ghost use Rattle.hg_slow.specs.Bound.{BoundIsAnswerable, BoundIsNarrow, OpenedIsWellFormed, ReadIsWellFormed};

/// A SELECT that was read from a line is a tree whose text literals are texts.
pub fn read_is_well_formed()
    ensures alone { ReadIsWellFormed }
    ensures opened { OpenedIsWellFormed }
{}

/// A SELECT that is bound over its tables may be evaluated in 128 bits.
pub fn bound_is_narrow()
    ensures { BoundIsNarrow }
{}

/// A SELECT that was read, and is bound over tables whose rows fit, is answerable.
pub fn bound_is_answerable()
    ensures { BoundIsAnswerable }
{}

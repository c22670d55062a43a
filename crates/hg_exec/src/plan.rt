//! What stays the same for all rows of a SELECT.
use hg_base::Place;
use hg_model::{Node, Output};
use hg_plan::TableLoop;

/// A SELECT that is bound and planned: its nodes, its texts and its outputs, for each node the number of its
/// value in the joined row, and its loops, the outermost first.
#[derive(Clone, Copy)]
pub struct Statement<'a> {
    pub nodes: &'a [Node],
    pub texts: &'a str,
    pub outputs: &'a [Output],
    pub slots: &'a [u8],
    pub loops: &'a [TableLoop],
}

/// A loop that is open: the place of the version whose row it gave last, one more than the rows that it gives
/// at most from there on, and how many values of the joined row stand before its own.
#[derive(Clone, Copy, Default)]
pub struct OpenLoop {
    pub at: Option<Place>,
    pub budget: u64,
    pub start: u8,
}

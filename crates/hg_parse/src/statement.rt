//! What a line is read as.
use crate::places::HeadingAt;
use hg_model::{Count, Name};

/// Why a line is no statement, in the order in which it is found out.
#[derive(Clone, Copy)]
pub enum ParseError {
    /// It is not in the grammar.
    Syntax,
    /// A number in it is out of range.
    BadNumber,
    /// It has too many of something.
    TooMany(Count),
}

/// Which statement a line is, with what stands in no list. Its lists stand in its room.
#[derive(Drop)]
pub enum Statement {
    CreateTable(Name),
    CreateIndex(bool, Name, Name),
    Insert(Name),
    Update(Name, Option<u8>),
    Delete(Name, Option<u8>),
    Vacuum(Name),
    Select(HeadingAt),
    OpenCursor(Name, HeadingAt),
    Start(Name, u32),
    Work(u32),
    Fetch(Name, u32),
    Close(Name),
    Pool(u32),
    Mpl(u32),
    ShowMemory,
}

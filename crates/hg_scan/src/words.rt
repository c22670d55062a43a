//! Reserved words and signs.

/// A reserved word: one that is no name.
#[derive(Clone, Copy, PartialEq, Eq)]
pub enum Keyword {
    All,
    And,
    As,
    Asc,
    Between,
    Bigint,
    By,
    Count,
    Create,
    Cross,
    Delete,
    Desc,
    Distinct,
    Exists,
    From,
    Group,
    Having,
    In,
    Index,
    Inner,
    Insert,
    Int,
    Integer,
    Into,
    Is,
    Join,
    Key,
    Left,
    Max,
    Min,
    Not,
    Null,
    On,
    Or,
    Order,
    Outer,
    Primary,
    Select,
    Set,
    Sum,
    Table,
    Unique,
    Update,
    Values,
    Varchar,
    Where,
}

/// A sign. `<>` and `!=` are two signs, which mean the same.
#[derive(Clone, Copy, PartialEq, Eq)]
pub enum Sign {
    /// `(`
    Open,
    /// `)`
    Close,
    Comma,
    Dot,
    Semicolon,
    Star,
    Plus,
    Minus,
    Equal,
    Less,
    Greater,
    /// `<=`
    LessOrEqual,
    /// `>=`
    GreaterOrEqual,
    /// `<>`
    LessGreater,
    /// `!=`
    BangEqual,
}

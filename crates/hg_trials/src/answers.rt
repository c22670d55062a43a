//! The answers of two runs, compared. An answer is one line, or rows in any order and the line behind them.

use crate::standing::Lines;
use std::alloc::{AllocError, Global};

/// How many answers, and how many rows of one, there are at most.
const MANY: u32 = 100_000;

/// Puts the rows that stand next into `rows`, and gives the line behind them.
fn take_answer<'a>(
    lines: &mut Lines<'a>,
    rows: &mut Vec<&'a [u8]>,
) -> Result<&'a [u8], AllocError> {
    for _row in 0..MANY {
        let line = lines.next();
        if !line.starts_with(b"row ".as_slice()) {
            return Ok(line);
        }
        rows.push(line)?;
    }
    Ok(&[])
}

/// Whether the next answers are the same.
fn is_same_answer(
    alloc: Global,
    shown: &mut Lines,
    wanted: &mut Lines,
) -> Result<bool, AllocError> {
    let mut shown_rows = Vec::new(alloc);
    let mut wanted_rows = Vec::new(alloc);
    let shown_line = take_answer(shown, &mut shown_rows)?;
    let wanted_line = take_answer(wanted, &mut wanted_rows)?;
    shown_rows.sort()?;
    wanted_rows.sort()?;
    Ok(shown_line == wanted_line && shown_rows.as_slice() == wanted_rows.as_slice())
}

/// The number of the first answer, from 0, that is another one than what is wanted.
pub fn first_difference(
    alloc: Global,
    shown: &[u8],
    wanted: &[u8],
) -> Result<Option<u32>, AllocError> {
    let mut shown = Lines::new(shown);
    let mut wanted = Lines::new(wanted);
    for answer in 0..MANY {
        if shown.is_empty() && wanted.is_empty() {
            return Ok(None);
        }
        if !is_same_answer(alloc, &mut shown, &mut wanted)? {
            return Ok(Some(answer));
        }
    }
    Ok(Some(MANY))
}

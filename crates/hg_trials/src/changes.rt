//! A script of changes of one table, its text, and the rows that stand after it, as a plain list. The table t
//! has a number, how often the row was changed, and two texts, which are determined by the number; seven rows
//! fill a page.

use crate::script::{push_number, push_texts};
use crate::standing::Lines;
use std::alloc::{AllocError, Global};

/// A statement. An INSERT has seven rows, with the numbers from `first` on. An UPDATE and a DELETE are of the
/// rows whose numbers are from one on and below another.
#[derive(Clone, Copy, PartialEq, Eq, Debug)]
pub enum Change {
    Create,
    Insert { first: u32 },
    Update { from: u32, to: u32 },
    Delete { from: u32, to: u32 },
    Select,
}

/// The least number of a row.
pub const FIRST: u32 = 10_001;

/// A table of so many pages: `CREATE TABLE` and an INSERT for each page.
pub fn table_of(alloc: Global, pages: u32) -> Result<Vec<Change>, AllocError> {
    let mut all = Vec::new(alloc);
    all.push(Change::Create)?;
    for page in 0..pages {
        all.push(Change::Insert {
            first: page.wrapping_mul(7).wrapping_add(FIRST),
        })?;
    }
    Ok(all)
}

/// The turn-th of thirty changes: of three, one changes 150 rows, one deletes 7, and one inserts 7.
fn nth_change(turn: u32) -> Change {
    let part = turn / 3;
    match turn % 3 {
        0 => {
            let from = part.wrapping_mul(20).wrapping_add(FIRST);
            Change::Update {
                from,
                to: from.wrapping_add(150),
            }
        }
        1 => {
            let from = part.wrapping_mul(25).wrapping_add(FIRST);
            Change::Delete {
                from,
                to: from.wrapping_add(7),
            }
        }
        _ => Change::Insert {
            first: part.wrapping_mul(7).wrapping_add(20_001),
        },
    }
}

/// Puts thirty changes behind these statements, and a SELECT behind each second one.
pub fn add_changes(all: &mut Vec<Change>) -> Result<(), AllocError> {
    for turn in 0..30u32 {
        all.push(nth_change(turn))?;
        if turn % 2 == 1 {
            all.push(Change::Select)?;
        }
    }
    Ok(())
}

fn push_rows(text: &mut Vec<u8>, first: u32) -> Result<(), AllocError> {
    for row in 0..7u32 {
        let number = first.wrapping_add(row);
        text.extend_from_slice(if row == 0 { b"(" } else { b",(".as_slice() })?;
        push_number(text, number)?;
        text.extend_from_slice(b",0".as_slice())?;
        push_texts(text, number)?;
        text.push(b')')?;
    }
    Ok(())
}

fn push_range(text: &mut Vec<u8>, from: u32, to: u32) -> Result<(), AllocError> {
    text.extend_from_slice(b" WHERE a >= ".as_slice())?;
    push_number(text, from)?;
    text.extend_from_slice(b" AND a < ".as_slice())?;
    push_number(text, to)
}

fn push_line(text: &mut Vec<u8>, change: Change) -> Result<(), AllocError> {
    match change {
        Change::Create => text.extend_from_slice(
            b"CREATE TABLE t (a INTEGER, n INTEGER, b VARCHAR(255), c VARCHAR(255))".as_slice(),
        ),
        Change::Insert { first } => {
            text.extend_from_slice(b"INSERT INTO t VALUES ".as_slice())?;
            push_rows(text, first)
        }
        Change::Update { from, to } => {
            text.extend_from_slice(b"UPDATE t SET n = n + 1".as_slice())?;
            push_range(text, from, to)
        }
        Change::Delete { from, to } => {
            text.extend_from_slice(b"DELETE FROM t".as_slice())?;
            push_range(text, from, to)
        }
        Change::Select => text.extend_from_slice(b"SELECT a, n FROM t".as_slice()),
    }
}

/// The lines of a script.
pub fn text_of(alloc: Global, changes: &[Change]) -> Result<Vec<u8>, AllocError> {
    let mut text = Vec::new(alloc);
    for change in changes {
        push_line(&mut text, *change)?;
        text.push(b'\n')?;
    }
    Ok(text)
}

/// A row that stands: its number, and how often it was changed.
#[derive(Clone, Copy, PartialEq, Eq, PartialOrd, Ord, Debug)]
struct Row {
    number: u32,
    times: u32,
}

impl Row {
    fn is_within(&self, from: u32, to: u32) -> bool {
        self.number >= from && self.number < to
    }
}

/// What stands after the statements so far, whose lines were right, in order of numbers; and how many
/// statements met the fault, of which `fault` is the line. `shown` is room for the rows of a SELECT.
#[derive(Drop)]
pub struct Changed {
    rows: Vec<Row>,
    shown: Vec<Row>,
    fault: &'static [u8],
    pub faults: u32,
}

impl Changed {
    pub fn new(alloc: Global, fault: &'static [u8]) -> Changed {
        Changed {
            rows: Vec::new(alloc),
            shown: Vec::new(alloc),
            fault,
            faults: 0,
        }
    }

    /// Whether the line says that the statement met the fault, which is counted then.
    fn is_fault(&mut self, line: &[u8]) -> bool {
        let is_fault = line == self.fault;
        if is_fault {
            self.faults = self.faults.saturating_add(1);
        }
        is_fault
    }

    /// Does to the rows what a statement does.
    fn apply(&mut self, change: Change) -> Result<(), AllocError> {
        match change {
            Change::Insert { first } => {
                for row in 0..7u32 {
                    self.rows.push(Row {
                        number: first.wrapping_add(row),
                        times: 0,
                    })?;
                }
            }
            Change::Update { from, to } => {
                for place in 0..self.rows.len() {
                    if let Some(row) = self.rows.get_mut(place) {
                        if row.is_within(from, to) {
                            row.times = row.times.wrapping_add(1);
                        }
                    }
                }
            }
            Change::Delete { from, to } => self.rows.retain(|row| !row.is_within(from, to)),
            Change::Create | Change::Select => {}
        }
        Ok(())
    }

    /// How many rows a statement concerns.
    fn count(&self, change: Change) -> usize {
        match change {
            Change::Insert { first: _ } => 7,
            Change::Update { from, to } | Change::Delete { from, to } => {
                self.rows
                    .iter()
                    .filter(|row| row.is_within(from, to))
                    .count()
            }
            Change::Create | Change::Select => 0,
        }
    }

    /// A change: `rows n`, and it happened whole; or the fault, and it did not happen.
    fn takes_change(
        &mut self,
        alloc: Global,
        lines: &mut Lines,
        change: Change,
    ) -> Result<bool, AllocError> {
        let line = lines.next();
        let count = self.count(change);
        if line != format!(in alloc; "rows {count}")?.as_bytes() {
            return Ok(self.is_fault(line));
        }
        self.apply(change)?;
        Ok(true)
    }

    /// SELECT: each row that stands once, in any order, and `end *`; or some of them, each once, and then the
    /// fault and `closed *`.
    fn takes_select(&mut self, lines: &mut Lines) -> Result<bool, AllocError> {
        self.shown.clear();
        for _turn in 0..100_000u32 {
            let line = lines.next();
            let Some(row) = row_in(line) else {
                self.shown.sort()?;
                if line == b"end *".as_slice() {
                    return Ok(self.shown.as_slice() == self.rows.as_slice());
                }
                let is_part = self.shows_a_part();
                return Ok(is_part && self.is_fault(line) && lines.next() == b"closed *".as_slice());
            };
            self.shown.push(row)?;
        }
        Ok(false)
    }

    /// Whether each row that was shown, in order, is one that stands, and none was shown twice.
    fn shows_a_part(&self) -> bool {
        let mut last = 0u32;
        for row in &self.shown {
            if row.number <= last || !self.rows.as_slice().contains(row) {
                return false;
            }
            last = row.number;
        }
        true
    }

    /// Whether the next lines are right for this statement; what stands is then what stands after it.
    pub fn takes(
        &mut self,
        alloc: Global,
        lines: &mut Lines,
        change: Change,
    ) -> Result<bool, AllocError> {
        match change {
            Change::Create => Ok(lines.next() == b"created".as_slice()),
            Change::Select => self.takes_select(lines),
            _ => self.takes_change(alloc, lines, change),
        }
    }
}

/// The number that digits spell.
fn number_of(digits: &[u8]) -> u32 {
    let mut number = 0u32;
    for byte in digits {
        let digit = u32::from(byte.wrapping_sub(b'0'));
        number = number.wrapping_mul(10).wrapping_add(digit);
    }
    number
}

/// The row that a line shows: `row * ` and a number of five digits, a comma, and a number. None for
/// another line.
fn row_in(line: &[u8]) -> Option<Row> {
    if !line.starts_with(b"row * ".as_slice()) || line.len() < 13 {
        return None;
    }
    let (head, times) = line.split_at(12);
    Some(Row {
        number: number_of(&head[6..11]),
        times: number_of(times),
    })
}

//! The rows that stand, as a plain list, and the lines that each statement has to give then.

use crate::script::{Statement, Table, push_pool_said, push_rows_said, push_values};
use memchr::memchr;
use std::alloc::{AllocError, Global};

/// The line that a statement gives which met the fault.
const FAULT: &[u8] = b"error 17 main device fault";

/// Reply lines that were not looked at yet.
#[derive(Clone, Copy)]
pub struct Lines<'a> {
    rest: &'a [u8],
}

impl<'a> Lines<'a> {
    pub fn new(rest: &'a [u8]) -> Lines<'a> {
        Lines { rest }
    }

    /// Whether there is no more line.
    pub fn is_empty(&self) -> bool {
        self.rest.is_empty()
    }

    /// The next line, without its line feed; an empty one where there is none.
    pub fn next(&mut self) -> &'a [u8] {
        let Some(at) = memchr(b'\n', self.rest) else {
            return &[];
        };
        let (line, rest) = self.rest.split_at(at);
        let (_, behind) = rest.split_at(1);
        self.rest = behind;
        line
    }
}

/// A row that stands.
#[derive(Clone, Copy, PartialEq, Eq, Debug)]
struct Row {
    table: Table,
    number: u32,
}

/// What stands after the statements so far, whose lines were right: the rows of the INSERTs that were
/// answered with their number, in the order in which they came, which is that of their numbers; the
/// frames of the last `pool n`, and how many statements met a fault. `shown` and `wanted` are room for
/// numbers of rows, `line` for a line.
#[derive(Drop)]
pub struct Standing {
    rows: Vec<Row>,
    pub frames: u32,
    pub faults: u32,
    shown: Vec<u32>,
    wanted: Vec<u32>,
    line: Vec<u8>,
}

impl Standing {
    /// No row, and so many frames.
    pub fn new(alloc: Global, frames: u32) -> Standing {
        Standing {
            rows: Vec::new(alloc),
            frames,
            faults: 0,
            shown: Vec::new(alloc),
            wanted: Vec::new(alloc),
            line: Vec::new(alloc),
        }
    }

    /// Whether the line says that the statement met the fault, which is counted then.
    fn is_fault(&mut self, line: &[u8]) -> bool {
        let is_fault = line == FAULT;
        if is_fault {
            self.faults = self.faults.saturating_add(1);
        }
        is_fault
    }

    /// INSERT: `rows n`, and its rows stand; or the fault, and none of them does.
    fn insert(
        &mut self,
        lines: &mut Lines,
        table: Table,
        first: u32,
        count: u32,
    ) -> Result<bool, AllocError> {
        let line = lines.next();
        self.line.clear();
        push_rows_said(&mut self.line, count)?;
        if line != self.line.as_slice() {
            return Ok(self.is_fault(line));
        }
        for row in 0..count {
            let number = first.wrapping_add(row);
            self.rows.push(Row { table, number })?;
        }
        Ok(true)
    }

    /// POOL: `pool n`, and so many frames are in use; or the fault, and as many as before are.
    fn pool(&mut self, lines: &mut Lines, frames: u32) -> Result<bool, AllocError> {
        let line = lines.next();
        self.line.clear();
        push_pool_said(&mut self.line, frames)?;
        if line != self.line.as_slice() {
            return Ok(self.is_fault(line));
        }
        self.frames = frames;
        Ok(true)
    }

    /// Whether a line shows the row of a number, with its own texts; the number is kept.
    fn shows_row(&mut self, line: &[u8]) -> Result<bool, AllocError> {
        let number = number_in(line);
        self.line.clear();
        self.line.extend_from_slice(b"row * ".as_slice())?;
        push_values(&mut self.line, number)?;
        self.shown.push(number)?;
        Ok(line == self.line.as_slice())
    }

    /// Puts the numbers of the rows that stand in a table into `wanted`.
    fn want(&mut self, table: Table) -> Result<(), AllocError> {
        self.wanted.clear();
        for row in &self.rows {
            if row.table == table {
                self.wanted.push(row.number)?;
            }
        }
        Ok(())
    }

    /// SELECT: each row that stands once, in any order, and `end *`; or some of them, each once, and then
    /// the fault and `closed *`.
    fn select(&mut self, lines: &mut Lines, table: Table) -> Result<bool, AllocError> {
        self.want(table)?;
        self.shown.clear();
        for _turn in 0..100_000u32 {
            let line = lines.next();
            if !line.starts_with(b"row".as_slice()) {
                return self.ends(lines, line);
            }
            if !self.shows_row(line)? {
                return Ok(false);
            }
        }
        Ok(false)
    }

    /// Whether a SELECT ends rightly by this line and those behind it.
    fn ends(&mut self, lines: &mut Lines, line: &[u8]) -> Result<bool, AllocError> {
        self.shown.sort()?;
        if line == b"end *".as_slice() {
            return Ok(self.shown.as_slice() == self.wanted.as_slice());
        }
        let closed = self.is_fault(line) && lines.next() == b"closed *".as_slice();
        Ok(closed && is_within(self.shown.as_slice(), self.wanted.as_slice()))
    }

    /// Whether the next lines are right for this statement; what stands is then what stands after it.
    pub fn takes(&mut self, lines: &mut Lines, statement: Statement) -> Result<bool, AllocError> {
        match statement {
            Statement::Create(_) => Ok(lines.next() == b"created".as_slice()),
            Statement::Insert {
                table,
                first,
                count,
            } => self.insert(lines, table, first, count),
            Statement::Select(table) => self.select(lines, table),
            Statement::Pool(frames) => self.pool(lines, frames),
        }
    }
}

/// The number of five digits of the row that a line shows.
fn number_in(line: &[u8]) -> u32 {
    let mut number = 0u32;
    for byte in line.iter().skip(6).take(5) {
        let digit = u32::from(byte.wrapping_sub(b'0'));
        number = number.wrapping_mul(10).wrapping_add(digit);
    }
    number
}

/// Whether each of these numbers, which are sorted, is one of the others and stands once.
fn is_within(some: &[u32], all: &[u32]) -> bool {
    let mut last = 0u32;
    for number in some {
        if *number <= last || !all.contains(number) {
            return false;
        }
        last = *number;
    }
    true
}

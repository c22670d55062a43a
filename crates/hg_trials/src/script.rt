//! A script of 200 statements, and its text. Tables t, u and w have a number and two texts, which are
//! determined by the number; seven rows fill a page.

use std::alloc::{AllocError, Global};

#[derive(Clone, Copy, PartialEq, Eq, Debug)]
pub enum Table {
    T,
    U,
    W,
}

/// A statement. The rows of an INSERT have the numbers from `first` on.
#[derive(Clone, Copy, PartialEq, Eq, Debug)]
pub enum Statement {
    Create(Table),
    Insert {
        table: Table,
        first: u32,
        count: u32,
    },
    Select(Table),
    Pool(u32),
}

/// How many frames there are at most.
pub const MAX: u32 = 32;

/// The numbers of frames that the script asks for, one after the other.
fn frames_of(turn: u32) -> u32 {
    match turn % 5 {
        0 => 24,
        1 => 32,
        2 => 16,
        3 => 28,
        _ => 20,
    }
}

/// A page of rows, whose numbers no other statement has: two pages of three go to t.
fn rows_of(number: u32) -> Statement {
    Statement::Insert {
        table: if number % 3 == 0 { Table::U } else { Table::T },
        first: number.wrapping_mul(10).wrapping_add(10_001),
        count: 7,
    }
}

/// What the statement of that number does, from 0.
fn nth_of_script(number: u32) -> Statement {
    match number {
        0 => Statement::Create(Table::T),
        1 => Statement::Create(Table::U),
        _ => match number % 20 {
            4 => Statement::Select(Table::T),
            7 | 17 => Statement::Select(Table::U),
            9 | 19 => Statement::Pool(frames_of(number / 10)),
            _ => rows_of(number),
        },
    }
}

/// The script: 2 CREATE TABLEs, 148 INSERTs of 7 rows, 30 SELECTs and 20 POOLs.
pub fn statements(alloc: Global) -> Result<Vec<Statement>, AllocError> {
    let mut all = Vec::new(alloc);
    for number in 0..200u32 {
        all.push(nth_of_script(number))?;
    }
    Ok(all)
}

/// Statements after which each frame has a page that owes a write, whatever number of frames is in use:
/// 40 pages of a new table.
pub fn add_pages(all: &mut Vec<Statement>) -> Result<(), AllocError> {
    all.push(Statement::Create(Table::W))?;
    for page in 0..40u32 {
        all.push(Statement::Insert {
            table: Table::W,
            first: page.wrapping_mul(10).wrapping_add(20_001),
            count: 7,
        })?;
    }
    Ok(())
}

fn push_digit(text: &mut Vec<u8>, number: u32) -> Result<(), AllocError> {
    text.push(((number % 10) as u8).wrapping_add(b'0'))?;
    Ok(())
}

/// A number below 100, without zeros in front.
fn push_small(text: &mut Vec<u8>, number: u32) -> Result<(), AllocError> {
    if number >= 10 {
        push_digit(text, number / 10)?;
    }
    push_digit(text, number)
}

/// A number of five digits.
pub fn push_number(text: &mut Vec<u8>, number: u32) -> Result<(), AllocError> {
    push_digit(text, number / 10_000)?;
    push_digit(text, number / 1_000)?;
    push_digit(text, number / 100)?;
    push_digit(text, number / 10)?;
    push_digit(text, number)
}

/// A text of 255 times the same letter.
fn push_text(text: &mut Vec<u8>, letter: u8) -> Result<(), AllocError> {
    text.extend_from_slice(b",'".as_slice())?;
    text.extend_from_slice([letter; 255].as_slice())?;
    text.push(b'\'')?;
    Ok(())
}

/// The values of the row with that number, as a script and a reply show them.
pub fn push_values(text: &mut Vec<u8>, number: u32) -> Result<(), AllocError> {
    push_number(text, number)?;
    push_texts(text, number)
}

/// The two texts of the row with that number, each with a comma in front.
pub fn push_texts(text: &mut Vec<u8>, number: u32) -> Result<(), AllocError> {
    push_text(text, ((number % 26) as u8).wrapping_add(b'a'))?;
    push_text(text, ((number % 10) as u8).wrapping_add(b'A'))
}

fn push_table(text: &mut Vec<u8>, table: Table) -> Result<(), AllocError> {
    let letter = match table {
        Table::T => b't',
        Table::U => b'u',
        Table::W => b'w',
    };
    text.push(letter)?;
    Ok(())
}

fn push_insert(text: &mut Vec<u8>, table: Table, first: u32, count: u32) -> Result<(), AllocError> {
    text.extend_from_slice(b"INSERT INTO ".as_slice())?;
    push_table(text, table)?;
    text.extend_from_slice(b" VALUES ".as_slice())?;
    for row in 0..count {
        if row > 0 {
            text.push(b',')?;
        }
        text.push(b'(')?;
        push_values(text, first.wrapping_add(row))?;
        text.push(b')')?;
    }
    Ok(())
}

/// A statement's line, without its line feed.
fn push_line(text: &mut Vec<u8>, line: Statement) -> Result<(), AllocError> {
    match line {
        Statement::Create(table) => {
            text.extend_from_slice(b"CREATE TABLE ".as_slice())?;
            push_table(text, table)?;
            text.extend_from_slice(b" (a INTEGER, b VARCHAR(255), c VARCHAR(255))".as_slice())
        }
        Statement::Insert {
            table,
            first,
            count,
        } => push_insert(text, table, first, count),
        Statement::Select(table) => {
            text.extend_from_slice(b"SELECT * FROM ".as_slice())?;
            push_table(text, table)
        }
        Statement::Pool(frames) => {
            text.extend_from_slice(b"POOL ".as_slice())?;
            push_small(text, frames)
        }
    }
}

/// The lines of a script.
pub fn text_of(alloc: Global, statements: &[Statement]) -> Result<Vec<u8>, AllocError> {
    let mut text = Vec::new(alloc);
    for statement in statements {
        push_line(&mut text, *statement)?;
        text.push(b'\n')?;
    }
    Ok(text)
}

/// The line that answers an INSERT of so many rows, without its line feed.
pub fn push_rows_said(text: &mut Vec<u8>, count: u32) -> Result<(), AllocError> {
    text.extend_from_slice(b"rows ".as_slice())?;
    push_small(text, count)
}

/// The line that answers POOL, without its line feed.
pub fn push_pool_said(text: &mut Vec<u8>, frames: u32) -> Result<(), AllocError> {
    text.extend_from_slice(b"pool ".as_slice())?;
    push_small(text, frames)
}

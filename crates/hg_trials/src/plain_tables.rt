//! Tables as plain lists of rows, and what lines answer over them: a SELECT is what the slow evaluator says.

use arrayvec::ArrayVec;
use hg_model::{Chars, Column, Command, Insert, Literal, Name, NewColumn, NewTable, Select, Value};
use hg_parse::parse;
use hg_slow::{SlowTable, is_answerable, slow_answer};
use std::alloc::{AllocError, Global};

/// The most frames that a line may ask for.
const FRAMES: u32 = 16;

/// The longest line.
const LINE_BYTES: usize = 4096;

/// The tables that the lines so far made.
#[derive(Drop)]
pub struct PlainTables {
    tables: Vec<SlowTable>,
}

impl PlainTables {
    /// No table.
    pub fn new(alloc: Global) -> PlainTables {
        PlainTables {
            tables: Vec::new(alloc),
        }
    }

    /// Runs a CREATE TABLE, an INSERT of whole rows or a SELECT, and puts its answer behind the replies: how
    /// many rows it shows. None where the line is no such statement.
    pub fn run(
        &mut self,
        alloc: Global,
        line: &[u8],
        replies: &mut Vec<u8>,
    ) -> Result<Option<usize>, AllocError> {
        if line.len() > LINE_BYTES {
            return Ok(None);
        }
        let Ok(Some(parsed)) = parse(line, FRAMES) else {
            return Ok(None);
        };
        let texts = parsed.texts.as_str();
        match &parsed.command {
            Command::CreateTable(table) => self.create(alloc, table, replies),
            Command::Insert(insert) => self.insert(alloc, insert, texts, replies),
            Command::Select(select) => self.select(alloc, select, texts, replies),
            _ => Ok(None),
        }
    }

    fn create(
        &mut self,
        alloc: Global,
        table: &NewTable,
        replies: &mut Vec<u8>,
    ) -> Result<Option<usize>, AllocError> {
        self.tables.push(SlowTable {
            name: table.name.copy(),
            columns: columns_of(alloc, table.columns.as_slice())?,
            rows: Vec::new(alloc),
        })?;
        replies.extend_from_slice(b"created\n".as_slice())?;
        Ok(Some(0))
    }

    fn insert(
        &mut self,
        alloc: Global,
        insert: &Insert,
        texts: &str,
        replies: &mut Vec<u8>,
    ) -> Result<Option<usize>, AllocError> {
        let Some(place) = self.place_of(&insert.table) else {
            return Ok(None);
        };
        let Some(table) = self.tables.get_mut(place) else {
            return Ok(None);
        };
        if !push_rows(alloc, insert, texts, &mut table.rows)? {
            return Ok(None);
        }
        let count = insert.ends.len();
        replies.extend_from_slice(format!(in alloc; "rows {count}\n")?.as_bytes())?;
        Ok(Some(0))
    }

    fn select(
        &self,
        alloc: Global,
        select: &Select,
        texts: &str,
        replies: &mut Vec<u8>,
    ) -> Result<Option<usize>, AllocError> {
        if !is_answerable(select, texts, &self.tables) {
            return Ok(None);
        }
        let rows = slow_answer(alloc, select, texts, &self.tables)?;
        for row in &rows {
            say_row(alloc, row, replies)?;
        }
        replies.extend_from_slice(b"end *\n".as_slice())?;
        Ok(Some(rows.len()))
    }

    fn place_of(&self, name: &Name) -> Option<usize> {
        self.tables.iter().position(|table| table.name == *name)
    }
}

fn columns_of(alloc: Global, columns: &[NewColumn]) -> Result<Vec<Column>, AllocError> {
    let mut all = Vec::new(alloc);
    for new in columns {
        all.push(Column {
            name: new.column.name.copy(),
            ty: new.column.ty,
            not_null: new.column.not_null,
        })?;
    }
    Ok(all)
}

/// The value of a constant whose text stands among these. None where it stands elsewhere.
fn value_of(literal: Literal, texts: &str) -> Option<Value> {
    match literal {
        Literal::Null => Some(Value::Null),
        Literal::Int(number) => Some(Value::Int(number)),
        Literal::Text(span) => {
            let from = span.at as usize;
            let text = texts.get(from..from + span.len as usize)?;
            Some(Value::Text(Chars::parse(text)?))
        }
    }
}

fn row_of(
    alloc: Global,
    literals: &[Literal],
    texts: &str,
) -> Result<Option<Vec<Value>>, AllocError> {
    let mut row = Vec::new(alloc);
    for literal in literals {
        let Some(value) = value_of(*literal, texts) else {
            return Ok(None);
        };
        row.push(value)?;
    }
    Ok(Some(row))
}

/// Puts the rows of an INSERT behind these, where each of them can be read.
fn push_rows(
    alloc: Global,
    insert: &Insert,
    texts: &str,
    rows: &mut Vec<Vec<Value>>,
) -> Result<bool, AllocError> {
    let mut from = 0;
    for end in insert.ends.as_slice() {
        let behind = *end as usize;
        let Some(literals) = insert.values.as_slice().get(from..behind) else {
            return Ok(false);
        };
        let Some(row) = row_of(alloc, literals, texts)? else {
            return Ok(false);
        };
        rows.push(row)?;
        from = behind;
    }
    Ok(true)
}

/// A text in quotes, each quote in it twice.
fn say_text(text: &[u8], replies: &mut Vec<u8>) -> Result<(), AllocError> {
    replies.push(b'\'')?;
    for byte in text {
        if *byte == b'\'' {
            replies.push(b'\'')?;
        }
        replies.push(*byte)?;
    }
    replies.push(b'\'')?;
    Ok(())
}

fn say_value(alloc: Global, value: &Value, replies: &mut Vec<u8>) -> Result<(), AllocError> {
    match value {
        Value::Null => replies.extend_from_slice(b"NULL".as_slice()),
        Value::Int(number) => {
            replies.extend_from_slice(format!(in alloc; "{number}")?.as_bytes())
        }
        Value::Text(text) => say_text(text.as_str().as_bytes(), replies),
    }
}

/// The line of a row.
fn say_row(alloc: Global, row: &[Value], replies: &mut Vec<u8>) -> Result<(), AllocError> {
    let mut before = b"row * ".as_slice();
    for value in row {
        replies.extend_from_slice(before)?;
        say_value(alloc, value, replies)?;
        before = b",".as_slice();
    }
    replies.push(b'\n')?;
    Ok(())
}

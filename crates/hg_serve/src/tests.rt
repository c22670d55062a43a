//! Scripts with the replies that were worked out by hand, and one run for each fault. The rows of a
//! SELECT come in any order; here they are listed in the order in which they were inserted.
use crate::{Config, Devices, Engine, Outcome, Status, run, serve};
use hg_io::{CleanDevice, Failed, MemDevice, MemSink, MemSource, PageDevice};
use std::alloc::{AllocError, Global};
use std::process::Abort;
use std::test::Fail;

fn device(alloc: Global) -> MemDevice {
    MemDevice::new(alloc, Vec::new(alloc), Vec::new(alloc))
}

fn words(alloc: Global, word: Option<&str>) -> Result<Vec<String>, AllocError> {
    let mut words = Vec::new(alloc);
    if let Some(word) = word {
        words.push(String::from_str(alloc, word)?)?;
    }
    Ok(words)
}

/// A run with the calls of source and sink that fail: its status and what was written.
fn run_with(
    alloc: Global,
    word: Option<&str>,
    script: &str,
    source_fails: &[u64],
    sink_fails: &[u64],
) -> Result<(Status, MemSink), AllocError> {
    let bytes = Vec::from_slice(alloc, script.as_bytes())?;
    let mut source = MemSource::new(bytes, Vec::from_slice(alloc, source_fails)?);
    let mut sink = MemSink::new(alloc, Vec::from_slice(alloc, sink_fails)?);
    let words = words(alloc, word)?;
    let outcome = run(
        alloc,
        &words,
        &mut source,
        &mut sink,
        device(alloc),
        device(alloc),
    );
    let Outcome {
        status,
        main: _,
        temp: _,
    } = outcome;
    Ok((status, sink))
}

fn gives(
    rt: &impl Abort,
    alloc: Global,
    script: &str,
    replies: &str,
    status: Status,
) -> Result<(), AllocError> {
    let (ended, sink) = run_with(alloc, None, script, &[], &[])?;
    assert_eq!(rt; sink.bytes(), replies.as_bytes());
    assert_eq!(rt; ended, status);
    Ok(())
}

#[test]
fn worked_scripts(rt: HostRuntime) -> Result<(), Fail> {
    let alloc = rt.alloc();
    gives(&rt, alloc, "", "", Status::Clean)?;
    gives(
        &rt,
        alloc,
        "CREATE TABLE t (a INTEGER, b INTEGER)\nINSERT INTO t VALUES (1, 2), (3, NULL)\nINSERT INTO t VALUES (-4, 0)\nSELECT * FROM t\n",
        "created\nrows 2\nrows 1\nrow * 1,2\nrow * 3,NULL\nrow * -4,0\nend *\n",
        Status::Clean,
    )?;
    gives(&rt, alloc, "SELEC\n", "error 1 syntax\n", Status::Errors)?;
    gives(
        &rt,
        alloc,
        "SELECT * FROM u\n",
        "error 3 unknown table u\n",
        Status::Errors,
    )?;
    Ok(())
}

#[test]
fn lines_and_ends(rt: HostRuntime) -> Result<(), Fail> {
    let alloc = rt.alloc();
    gives(
        &rt,
        alloc,
        "create table T (A integer);\r\n \t\n\r\nSELECT*FROM t ;",
        "created\nend *\n",
        Status::Clean,
    )?;
    gives(
        &rt,
        alloc,
        "CREATE TABLE t (a INTEGER)\rx\nSELECT * FROM t\r",
        "error 1 syntax\nerror 1 syntax\n",
        Status::Errors,
    )?;
    gives(
        &rt,
        alloc,
        "-- a comment, of any bytes \u{e9}\n\0\n\u{e9}\nselect * from select\nSELECT * FROM u -- no table\n",
        "error 1 syntax\nerror 1 syntax\nerror 1 syntax\nerror 3 unknown table u\n",
        Status::Errors,
    )?;
    Ok(())
}

#[test]
fn refused_statements(rt: HostRuntime) -> Result<(), Fail> {
    let alloc = rt.alloc();
    gives(
        &rt,
        alloc,
        "CREATE TABLE t (a INTEGER)\nCREATE TABLE T (b INTEGER)\nCREATE TABLE u (b INTEGER, B INTEGER)\nINSERT INTO t VALUES (1), (1, 2)\nINSERT INTO t VALUES (1, 2)\nINSERT INTO x VALUES (1), (1, 2)\nINSERT INTO t VALUES ((1))\nINSERT INTO t VALUES (1\nINSERT INTO t VALUES\nSELECT * FROM t\n",
        "created\nerror 8 name taken t\nerror 8 name taken b\nerror 6 type mismatch\nerror 6 type mismatch\nerror 3 unknown table x\nerror 1 syntax\nerror 1 syntax\nerror 1 syntax\nend *\n",
        Status::Errors,
    )?;
    gives(
        &rt,
        alloc,
        "CREATE TABLE n (a INTEGER)\nINSERT INTO n VALUES (2147483647), (-2147483648), (+0000000000000000000000000000000000000007), (NULL)\nINSERT INTO n VALUES (2147483648)\nINSERT INTO n VALUES (-2147483649)\nINSERT INTO n VALUES (1111111111111111111111111111111111111111)\nINSERT INTO n VALUES (1x)\nSELECT * FROM n\n",
        "created\nrows 4\nerror 11 value does not fit a\nerror 11 value does not fit a\nerror 22 bad number\nerror 1 syntax\nrow * 2147483647\nrow * -2147483648\nrow * 7\nrow * NULL\nend *\n",
        Status::Errors,
    )?;
    gives(
        &rt,
        alloc,
        "CREATE TABLE a23456789_123456789_123456789_ (a INTEGER)\nCREATE TABLE a23456789_123456789_123456789_1 (a INTEGER)\nCREATE TABLE w (a INTEGER,b INTEGER,c INTEGER,d INTEGER,e INTEGER,f INTEGER,g INTEGER,h INTEGER,i INTEGER,j INTEGER,k INTEGER,l INTEGER,m INTEGER,n INTEGER,o INTEGER,p INTEGER,q INTEGER)\n",
        "created\nerror 9 too many name letters 30\nerror 9 too many columns 16\n",
        Status::Errors,
    )?;
    Ok(())
}

#[test]
fn wider_inserts(rt: HostRuntime) -> Result<(), Fail> {
    let alloc = rt.alloc();
    gives(
        &rt,
        alloc,
        "CREATE TABLE p (id INTEGER NOT NULL, name VARCHAR(5), n INTEGER)\nINSERT INTO p VALUES (1, 'it''s', 7), (2, NULL, -1)\nINSERT INTO p (Name, id) VALUES ('abcde', 3), ('''''', 4)\nSELECT * FROM p\n",
        "created\nrows 2\nrows 2\nrow * 1,'it''s',7\nrow * 2,NULL,-1\nrow * 3,'abcde',NULL\nrow * 4,'''''',NULL\nend *\n",
        Status::Clean,
    )?;
    gives(
        &rt,
        alloc,
        "CREATE TABLE p (id INTEGER NOT NULL, name VARCHAR(5), n INTEGER)\nINSERT INTO p (id, ID) VALUES (1, 2)\nINSERT INTO p (z) VALUES (1)\nINSERT INTO p (name) VALUES ('x')\nINSERT INTO p VALUES (NULL, 'abcdef', 1)\nINSERT INTO p VALUES (5, 'abcdef', 1)\nINSERT INTO p VALUES (5, 1, 1)\nINSERT INTO p VALUES (5, 'x', 2147483648)\nSELECT * FROM p\n",
        "created\nerror 8 name taken id\nerror 4 unknown column z\nerror 12 null not allowed id\nerror 12 null not allowed id\nerror 11 value does not fit name\nerror 6 type mismatch\nerror 11 value does not fit n\nend *\n",
        Status::Errors,
    )?;
    Ok(())
}

/// Three texts of 255 letters and one of 227 have 1,000 bytes, with a mark and a length for each; a row has
/// 1,000 at most.
fn texts_of(alloc: Global, last: usize) -> Result<Vec<u8>, AllocError> {
    let mut script = Vec::from_slice(
        alloc,
        b"CREATE TABLE l (a VARCHAR(255),b VARCHAR(255),c VARCHAR(255),d VARCHAR(255))\n".as_slice(),
    )?;
    script.extend_from_slice(b"INSERT INTO l VALUES (".as_slice())?;
    for letters in [255, 255, 255, last] {
        script.push(b'\'')?;
        for _letter in 0..letters {
            script.push(b'x')?;
        }
        script.extend_from_slice(b"',".as_slice())?;
    }
    let _ = script.pop();
    script.extend_from_slice(b")\n".as_slice())?;
    Ok(script)
}

#[test]
fn longest_rows(rt: HostRuntime) -> Result<(), Fail> {
    let alloc = rt.alloc();
    let (_, sink) = through_engine(alloc, texts_of(alloc, 227)?, device(alloc))?;
    assert_eq!(rt; sink.bytes(), b"created\nrows 1\n".as_slice());
    let (_, sink) = through_engine(alloc, texts_of(alloc, 228)?, device(alloc))?;
    assert_eq!(rt;
        sink.bytes(),
        b"created\nerror 23 row too long\n".as_slice()
    );
    Ok(())
}

#[test]
fn pool(rt: HostRuntime) -> Result<(), Fail> {
    let alloc = rt.alloc();
    gives(
        &rt,
        alloc,
        "POOL 16\nPOOL 15\nPOOL 257\nCREATE TABLE t (a INTEGER)\nINSERT INTO t VALUES (1)\npool 256;\nSELECT * FROM t\n",
        "pool 16\nerror 22 bad number\nerror 22 bad number\ncreated\nrows 1\npool 256\nrow * 1\nend *\n",
        Status::Errors,
    )?;
    Ok(())
}

/// Every right side is computed from the old row; a change that is refused leaves the rows.
#[test]
fn changes(rt: HostRuntime) -> Result<(), Fail> {
    let alloc = rt.alloc();
    gives(
        &rt,
        alloc,
        "CREATE TABLE t (a INTEGER, b INTEGER)\nINSERT INTO t VALUES (1, 2)\nUPDATE t SET a = b, b = a\nSELECT * FROM t\nUPDATE t SET a = 2147483647 + b\nSELECT * FROM t\nDELETE FROM t WHERE a = NULL\nUPDATE t SET b = NULL WHERE NOT a = 1\nSELECT * FROM t\nUPDATE t SET a = 5 WHERE b > 0\nDELETE FROM t WHERE b IS NULL AND t.a = 2\nDELETE FROM t\nUPDATE t SET a = 1\nSELECT * FROM t\n",
        "created\nrows 1\nrows 1\nrow * 2,1\nend *\nerror 11 value does not fit a\nrow * 2,1\nend *\nrows 0\nrows 1\nrow * 2,NULL\nend *\nrows 0\nrows 1\nrows 0\nrows 0\nend *\n",
        Status::Errors,
    )?;
    gives(
        &rt,
        alloc,
        "CREATE TABLE t (a INTEGER NOT NULL)\nCREATE TABLE u (a INTEGER NOT NULL)\nINSERT INTO t VALUES (1), (2), (3)\nINSERT INTO u VALUES (1)\nUPDATE t SET a = NULL WHERE a = 3\nUPDATE T SET A = A * 10 WHERE a <> 2\nDELETE FROM t WHERE a BETWEEN 2 AND 10\nSELECT * FROM t\nSELECT * FROM u\n",
        "created\ncreated\nrows 3\nrows 1\nerror 12 null not allowed a\nrows 2\nrows 2\nrow * 30\nend *\nrow * 1\nend *\n",
        Status::Errors,
    )?;
    Ok(())
}

#[test]
fn refused_changes(rt: HostRuntime) -> Result<(), Fail> {
    let alloc = rt.alloc();
    gives(
        &rt,
        alloc,
        "CREATE TABLE t (a INTEGER, v VARCHAR(2))\nUPDATE x SET a = 1\nUPDATE t SET z = 1\nUPDATE t SET a = z\nUPDATE t SET a = v\nUPDATE t SET a = 99999999999999999999999999999999999999 * 9\nUPDATE t SET a = 1, A = 2\nUPDATE t SET a = MAX(a)\nUPDATE t SET a = 1 WHERE a\nSELECT * FROM t\n",
        "created\nerror 3 unknown table x\nerror 4 unknown column z\nerror 4 unknown column z\nerror 6 type mismatch\nerror 7 expression too wide\nerror 8 name taken a\nerror 10 not grouped\nerror 6 type mismatch\nend *\n",
        Status::Errors,
    )?;
    gives(
        &rt,
        alloc,
        "CREATE TABLE t (a INTEGER, v VARCHAR(2))\nDELETE FROM x\nDELETE FROM t WHERE z = 1\nDELETE FROM t WHERE u.a = 1\nDELETE FROM t WHERE a = v\nDELETE FROM t WHERE a = 99999999999999999999999999999999999999 * 9\nDELETE FROM t WHERE COUNT(*) = 1\nSELECT * FROM t\n",
        "created\nerror 3 unknown table x\nerror 4 unknown column z\nerror 4 unknown column u.a\nerror 6 type mismatch\nerror 7 expression too wide\nerror 10 not grouped\nend *\n",
        Status::Errors,
    )?;
    Ok(())
}

/// Four texts of 255 letters would have 1,028 bytes; a row has 1,000 at most.
fn long_update(alloc: Global) -> Result<Vec<u8>, AllocError> {
    let mut script = Vec::from_slice(
        alloc,
        b"CREATE TABLE l (a VARCHAR(255),b VARCHAR(255),c VARCHAR(255),d VARCHAR(255))\nINSERT INTO l (a) VALUES ('".as_slice(),
    )?;
    for _letter in 0..255 {
        script.push(b'x')?;
    }
    script.extend_from_slice(
        b"')\nUPDATE l SET b = a, c = a, d = a\nUPDATE l SET b = a, c = a\nSELECT 1 FROM l WHERE a = b AND b = c AND d IS NULL\n".as_slice(),
    )?;
    Ok(script)
}

#[test]
fn longest_changes(rt: HostRuntime) -> Result<(), Fail> {
    let alloc = rt.alloc();
    let (_, sink) = through_engine(alloc, long_update(alloc)?, device(alloc))?;
    assert_eq!(rt;
        sink.bytes(),
        b"created\nrows 1\nerror 23 row too long\nrows 1\nrow * 1\nend *\n".as_slice()
    );
    Ok(())
}

/// Commands that the grammar reads and that there are not by now.
#[test]
fn not_built(rt: HostRuntime) -> Result<(), Fail> {
    let alloc = rt.alloc();
    gives(
        &rt,
        alloc,
        "CREATE TABLE t (a INTEGER PRIMARY KEY)\nCREATE TABLE t (a INTEGER UNIQUE)\nCREATE TABLE t (a INTEGER)\nCREATE INDEX i ON t (a)\nVACUUM t\nSELECT DISTINCT * FROM t\nSELECT COUNT(*) FROM t\nSELECT a FROM t GROUP BY a\nSELECT * FROM t ORDER BY 1\nOPEN c FOR SELECT * FROM t\nSTART c 1\nWORK 1\nFETCH c 1\nCLOSE c\nMPL 2\nSHOW MEMORY\nSELECT * FROM t\n",
        "error 1 syntax\nerror 1 syntax\ncreated\nerror 1 syntax\nerror 1 syntax\nerror 1 syntax\nerror 1 syntax\nerror 1 syntax\nerror 1 syntax\nerror 1 syntax\nerror 1 syntax\nerror 1 syntax\nerror 1 syntax\nerror 1 syntax\nerror 1 syntax\nerror 1 syntax\nend *\n",
        Status::Errors,
    )?;
    Ok(())
}

/// A SELECT with so many parentheses around its condition, and one with so many nodes in it.
fn nested(alloc: Global, depth: usize) -> Result<Vec<u8>, AllocError> {
    let mut script = Vec::from_slice(alloc, b"SELECT * FROM t WHERE ".as_slice())?;
    for _open in 0..depth {
        script.push(b'(')?;
    }
    script.extend_from_slice(b"a = 1".as_slice())?;
    for _close in 0..depth {
        script.push(b')')?;
    }
    script.push(b'\n')?;
    Ok(script)
}

fn summed(alloc: Global, terms: usize) -> Result<Vec<u8>, AllocError> {
    let mut script = Vec::from_slice(alloc, b"SELECT * FROM t WHERE a = 1".as_slice())?;
    for _term in 0..terms {
        script.extend_from_slice(b"+1".as_slice())?;
    }
    script.push(b'\n')?;
    Ok(script)
}

/// What the parser refuses comes before what the binder refuses. `a = 1` has 3 nodes and each `+1` 2 more:
/// 46 of these make 95, and 47 make 97.
#[test]
fn refusals_of_the_parser(rt: HostRuntime) -> Result<(), Fail> {
    let alloc = rt.alloc();
    let (_, sink) = through_engine(alloc, nested(alloc, 32)?, device(alloc))?;
    assert_eq!(rt; sink.bytes(), b"error 3 unknown table t\n".as_slice());
    let (_, sink) = through_engine(alloc, nested(alloc, 33)?, device(alloc))?;
    assert_eq!(rt; sink.bytes(), b"error 1 syntax\n".as_slice());
    let (_, sink) = through_engine(alloc, summed(alloc, 46)?, device(alloc))?;
    assert_eq!(rt; sink.bytes(), b"error 3 unknown table t\n".as_slice());
    let (_, sink) = through_engine(alloc, summed(alloc, 47)?, device(alloc))?;
    assert_eq!(rt; sink.bytes(), b"error 9 too many nodes 96\n".as_slice());
    Ok(())
}

#[test]
fn faults(rt: HostRuntime) -> Result<(), Fail> {
    let alloc = rt.alloc();
    let (status, sink) = run_with(alloc, None, "CREATE TABLE t (a INTEGER)\nSEL", &[2], &[])?;
    assert_eq!(rt;
        (status, sink.bytes() == b"created\n".as_slice()),
        (Status::SourceFault, true)
    );
    let (status, sink) = run_with(alloc, None, "SELECT * FROM t", &[], &[1])?;
    assert_eq!(rt;
        (status, sink.bytes().is_empty()),
        (Status::SinkFault, true)
    );
    let (status, sink) = run_with(alloc, Some("--max"), "SELEC\n", &[], &[])?;
    assert_eq!(rt; (status, sink.bytes().is_empty()), (Status::Usage, true));
    Ok(())
}

/// The last five digits of a number.
fn push_number(text: &mut Vec<u8>, number: usize) -> Result<(), AllocError> {
    push_digit(text, number / 10_000)?;
    push_digit(text, number / 1_000)?;
    push_digit(text, number / 100)?;
    push_pair(text, number)
}

fn push_pair(text: &mut Vec<u8>, number: usize) -> Result<(), AllocError> {
    push_digit(text, number / 10)?;
    push_digit(text, number)
}

fn push_digit(text: &mut Vec<u8>, number: usize) -> Result<(), AllocError> {
    text.push(((number % 10) as u8).wrapping_add(b'0'))?;
    Ok(())
}

/// How many rows each INSERT has: so many times `per`, and then `last` where that is not 0.
fn sizes_of(
    alloc: Global,
    inserts: usize,
    per: usize,
    last: usize,
) -> Result<Vec<usize>, AllocError> {
    let mut sizes = Vec::new(alloc);
    for _insert in 0..inserts {
        sizes.push(per)?;
    }
    if last > 0 {
        sizes.push(last)?;
    }
    Ok(sizes)
}

/// An INSERT of so many rows, from `first` on.
fn push_insert(text: &mut Vec<u8>, first: usize, count: usize) -> Result<(), AllocError> {
    text.extend_from_slice(b"INSERT INTO t VALUES (".as_slice())?;
    for row in 0..count {
        if row > 0 {
            text.extend_from_slice(b", (".as_slice())?;
        }
        push_number(text, first.wrapping_add(row))?;
        text.push(b')')?;
    }
    text.push(b'\n')?;
    Ok(())
}

/// A table of one number, its INSERTs with the rows 10001, 10002 and so on, and a SELECT of all.
fn script_of(alloc: Global, sizes: &[usize]) -> Result<Vec<u8>, AllocError> {
    let mut text = Vec::from_slice(alloc, b"CREATE TABLE t (a INTEGER)\n".as_slice())?;
    let mut first: usize = 10_001;
    for count in sizes {
        push_insert(&mut text, first, *count)?;
        first = first.wrapping_add(*count);
    }
    text.extend_from_slice(b"SELECT * FROM t\n".as_slice())?;
    Ok(text)
}

/// The replies where the INSERTs from `first` to before `behind` gave `line` instead, whose rows are then
/// left out; the SELECT shows the first `shown` rows of the others, and then `end`.
#[derive(Clone, Copy)]
struct Expected<'a> {
    first: usize,
    behind: usize,
    line: &'a [u8],
    shown: usize,
    end: &'a [u8],
}

const ALL: usize = 1_000_000;

const END: &[u8] = b"end *\n";

const FAULT: &[u8] = b"error 17 main device fault\n";

fn push_rows(rows: &mut Vec<u8>, first: usize, count: usize) -> Result<(), AllocError> {
    for row in 0..count {
        rows.extend_from_slice(b"row * ".as_slice())?;
        push_number(rows, first.wrapping_add(row))?;
        rows.push(b'\n')?;
    }
    Ok(())
}

fn replies_of(alloc: Global, sizes: &[usize], expected: &Expected) -> Result<Vec<u8>, AllocError> {
    let mut text = Vec::from_slice(alloc, b"created\n".as_slice())?;
    let mut rows = Vec::new(alloc);
    let mut left = expected.shown;
    let mut first: usize = 10_001;
    let mut insert: usize = 0;
    for count in sizes {
        if expected.first <= insert && insert < expected.behind {
            text.extend_from_slice(expected.line)?;
        } else {
            text.extend_from_slice(b"rows ".as_slice())?;
            push_pair(&mut text, *count)?;
            text.push(b'\n')?;
            push_rows(&mut rows, first, left.min(*count))?;
            left = left.saturating_sub(*count);
        }
        first = first.wrapping_add(*count);
        insert = insert.wrapping_add(1);
    }
    text.extend_from_slice(rows.as_slice())?;
    text.extend_from_slice(expected.end)?;
    Ok(text)
}

/// What scripts give through one engine of 16 frames over this main device: the status of the second,
/// and what both wrote.
fn through_engine_twice<M: PageDevice + Drop>(
    alloc: Global,
    first: Vec<u8>,
    second: Vec<u8>,
    main: M,
) -> Result<(Status, MemSink), AllocError> {
    let temp = device(alloc);
    if main.limit() < 64 || temp.limit() < 64 {
        return Err(AllocError);
    }
    let config = Config {
        max: 16,
        pool: 16,
        mpl: 1,
        main_pages: 64,
        temp_pages: 64,
    };
    let mut one = MemSource::new(first, Vec::new(alloc));
    let mut other = MemSource::new(second, Vec::new(alloc));
    let mut sink = MemSink::new(alloc, Vec::new(alloc));
    let Ok(mut engine) = Engine::new(alloc, &config, main, temp) else {
        return Err(AllocError);
    };
    let _ = serve(&mut engine, &mut one, &mut sink);
    let status = serve(&mut engine, &mut other, &mut sink);
    let _ = engine.close();
    Ok((status, sink))
}

/// What a script gives through an engine.
fn through_engine<M: PageDevice + Drop>(
    alloc: Global,
    script: Vec<u8>,
    main: M,
) -> Result<(Status, MemSink), AllocError> {
    through_engine_twice(alloc, Vec::new(alloc), script, main)
}

/// On which line, from 0, the first error stands.
fn first_error(text: &[u8]) -> Option<usize> {
    let mut line: usize = 0;
    for at in 0..text.len() {
        let (_, rest) = text.split_at(at);
        if rest.starts_with(b"error".as_slice()) {
            return Some(line);
        }
        if text[at] == b'\n' {
            line = line.wrapping_add(1);
        }
    }
    None
}

/// What is expected with the first error on that line: an INSERT's is instead of its rows, the
/// SELECT's closes it.
fn with_fault(error: Option<usize>, inserts: usize) -> Expected<'static> {
    let all = Expected {
        first: 0,
        behind: 0,
        line: FAULT,
        shown: ALL,
        end: END,
    };
    match error {
        None => all,
        Some(line) if line <= inserts => Expected {
            first: line.saturating_sub(1),
            behind: line,
            ..all
        },
        Some(line) => Expected {
            shown: line.saturating_sub(1).saturating_sub(inserts),
            end: b"error 17 main device fault\nclosed *\n",
            ..all
        },
    }
}

/// INSERTs with their script and the replies without a fault.
#[derive(Drop)]
struct Trial {
    sizes: Vec<usize>,
    script: Vec<u8>,
    plain: Vec<u8>,
}

impl Trial {
    fn new(alloc: Global, sizes: Vec<usize>) -> Result<Trial, AllocError> {
        let script = script_of(alloc, &sizes)?;
        let plain = replies_of(alloc, &sizes, &with_fault(None, 0))?;
        Ok(Trial {
            sizes,
            script,
            plain,
        })
    }

    /// Over a main device whose read or write of that number fails: on which line the error stands.
    fn one_fault(
        &self,
        rt: &impl Abort,
        alloc: Global,
        read: &[u64],
        write: &[u64],
    ) -> Result<Option<usize>, AllocError> {
        let read = Vec::from_slice(alloc, read)?;
        let write = Vec::from_slice(alloc, write)?;
        let main = MemDevice::new(alloc, read, write);
        let script = Vec::from_slice(alloc, self.script.as_slice())?;
        let (status, sink) = through_engine(alloc, script, main)?;
        if status == Status::Clean {
            assert!(rt; sink.bytes() == self.plain.as_slice());
            return Ok(None);
        }
        let error = first_error(sink.bytes());
        let expected = replies_of(alloc, &self.sizes, &with_fault(error, self.sizes.len()))?;
        assert!(rt; sink.bytes() == expected.as_slice() && status == Status::Errors);
        Ok(error)
    }
}

/// The reads and then the writes of these numbers fail, one in each run. A number that was not reached
/// changes nothing, and a greater one is not reached then either.
fn each_fails(rt: &impl Abort, alloc: Global, first: u64, last: u64) -> Result<(), AllocError> {
    let trial = Trial::new(alloc, sizes_of(alloc, 40, 64, 0)?)?;
    let mut reads = true;
    let mut writes = true;
    for call in first..last {
        reads = reads && trial.one_fault(rt, alloc, &[call], &[])?.is_some();
        writes = writes && trial.one_fault(rt, alloc, &[], &[call])?.is_some();
        if !reads && !writes {
            return Ok(());
        }
    }
    Ok(())
}

#[test]
fn calls_1_to_8_of_the_main_device_fail(rt: HostRuntime) -> Result<(), Fail> {
    each_fails(&rt, rt.alloc(), 1, 9)?;
    Ok(())
}

#[test]
fn calls_9_to_16_of_the_main_device_fail(rt: HostRuntime) -> Result<(), Fail> {
    each_fails(&rt, rt.alloc(), 9, 17)?;
    Ok(())
}

#[test]
fn calls_17_to_24_of_the_main_device_fail(rt: HostRuntime) -> Result<(), Fail> {
    each_fails(&rt, rt.alloc(), 17, 25)?;
    Ok(())
}

#[test]
fn calls_25_to_200_of_the_main_device_fail(rt: HostRuntime) -> Result<(), Fail> {
    each_fails(&rt, rt.alloc(), 25, 201)?;
    Ok(())
}

#[test]
fn first_write_fails_under_4000_rows(rt: HostRuntime) -> Result<(), Fail> {
    let alloc = rt.alloc();
    let trial = Trial::new(alloc, sizes_of(alloc, 62, 64, 32)?)?;
    assert!(rt; trial.one_fault(&rt, alloc, &[], &[1])?.is_some());
    Ok(())
}

/// A page has 128 slots, and 63 pages are for tables: 8,064 versions. The INSERT of rows 8,041 to 8,100
/// puts 24 of them before it is refused.
#[test]
fn main_file_fills_up(rt: HostRuntime) -> Result<(), Fail> {
    let alloc = rt.alloc();
    let sizes = sizes_of(alloc, 137, 60, 0)?;
    let (status, sink) = through_engine(alloc, script_of(alloc, &sizes)?, device(alloc))?;
    let expected = Expected {
        first: 134,
        behind: 137,
        line: b"error 19 main full\n",
        shown: ALL,
        end: END,
    };
    assert!(rt; sink.bytes() == replies_of(alloc, &sizes, &expected)?.as_slice());
    assert_eq!(rt; status, Status::Errors);
    Ok(())
}

#[test]
fn over_a_clean_device(rt: HostRuntime) -> Result<(), Fail> {
    let alloc = rt.alloc();
    let Ok(main) = CleanDevice::new(alloc, 64) else {
        return Err(Fail::from(AllocError));
    };
    let script =
        "CREATE TABLE t (a INTEGER, b INTEGER)\nINSERT INTO t VALUES (1, 2), (3, NULL)\nINSERT INTO t VALUES (-4, 0)\nSELECT * FROM t\n";
    let (status, sink) = through_engine(alloc, Vec::from_slice(alloc, script.as_bytes())?, main)?;
    assert_eq!(rt;
        sink.bytes(),
        "created\nrows 2\nrows 1\nrow * 1,2\nrow * 3,NULL\nrow * -4,0\nend *\n".as_bytes()
    );
    assert_eq!(rt; status, Status::Clean);
    Ok(())
}

/// A device that takes every page, and gives zeros for each. It tells nothing, and its counts of calls
/// stand at their end.
#[derive(Drop)]
struct Forgetful;

impl PageDevice for Forgetful {
    ghost use Rattle.std.specs.Prelude.{[], false, ◌^◌, ◌-◌};
    ghost use Rattle.std.proofs.Math.Nat.{le_refl};
    ghost use Rattle.hg_base.specs.Count.{none_ends};

    ghost pages = { λ _. 64 };

    ghost told = { λ _. false };

    ghost page = { λ _ _. [] };

    ghost reads = { λ _. 2 ^ 64 - 1 };

    ghost writes = { λ _. 2 ^ 64 - 1 };

    ghost faults = { λ _. 0 };

    ghost reads_end = { λ _. le_refl (2 ^ 64 - 1) };

    ghost writes_end = { λ _. le_refl (2 ^ 64 - 1) };

    ghost faults_end = { λ _. none_ends };

    fn limit(&self) -> u32 {
        64
    }

    fn read(&mut self, _no: u32, buf: &mut [u8]) -> Result<(), Failed> {
        buf.fill(0);
        Ok(())
    }

    fn write(&mut self, _no: u32, _bytes: &[u8]) -> Result<(), Failed> {
        Ok(())
    }
}

/// The rows of 40 INSERTs stand on 20 pages, and 16 are in frames. So the table's first page, whose
/// number is 1, comes back as zeros, which are no page of rows.
#[test]
fn over_a_device_that_forgets(rt: HostRuntime) -> Result<(), Fail> {
    let alloc = rt.alloc();
    let sizes = sizes_of(alloc, 40, 64, 0)?;
    let (status, sink) = through_engine(alloc, script_of(alloc, &sizes)?, Forgetful)?;
    let expected = Expected {
        first: 40,
        behind: 40,
        line: FAULT,
        shown: 0,
        end: b"error 21 damaged main 1 kind\nclosed *\n",
    };
    assert!(rt; sink.bytes() == replies_of(alloc, &sizes, &expected)?.as_slice());
    assert_eq!(rt; status, Status::Errors);
    Ok(())
}

/// The rows of a SELECT are more than wait for the sink, which fails at its second call; nothing is
/// pending then, and the engine serves the next script.
#[test]
fn an_engine_serves_after_a_sink_fault(rt: HostRuntime) -> Result<(), Fail> {
    let alloc = rt.alloc();
    let mut script = script_of(alloc, &sizes_of(alloc, 40, 64, 0)?)?;
    script.extend_from_slice(b"CREATE TABLE never (a INTEGER)\n".as_slice())?;
    let next = "INSERT INTO never VALUES (1)\nCREATE TABLE u (a INTEGER)\nSELECT * FROM u\n";
    let mut one = MemSource::new(script, Vec::new(alloc));
    let mut other = MemSource::new(Vec::from_slice(alloc, next.as_bytes())?, Vec::new(alloc));
    let mut broken_sink = MemSink::new(alloc, Vec::from_slice(alloc, &[2])?);
    let mut sink = MemSink::new(alloc, Vec::new(alloc));
    let config = Config {
        max: 16,
        pool: 16,
        mpl: 1,
        main_pages: 64,
        temp_pages: 64,
    };
    let Ok(mut engine) = Engine::new(alloc, &config, device(alloc), device(alloc)) else {
        return Err(Fail::from(AllocError));
    };
    let broken = serve(&mut engine, &mut one, &mut broken_sink);
    let served = serve(&mut engine, &mut other, &mut sink);
    let Devices { main: _, temp: _ } = engine.close();
    assert_eq!(rt; (broken, served), (Status::SinkFault, Status::Errors));
    assert_eq!(rt;
        sink.bytes(),
        b"error 3 unknown table never\ncreated\nend *\n".as_slice()
    );
    Ok(())
}

#[test]
fn an_engine_serves_again(rt: HostRuntime) -> Result<(), Fail> {
    let alloc = rt.alloc();
    let first = "CREATE TABLE t (a INTEGER)\nINSERT INTO t VALUES (1), (2)\nSELECT * FROM u";
    let second = "INSERT INTO t VALUES (3)\nSELECT * FROM t\n";
    let (status, sink) = through_engine_twice(
        alloc,
        Vec::from_slice(alloc, first.as_bytes())?,
        Vec::from_slice(alloc, second.as_bytes())?,
        device(alloc),
    )?;
    assert_eq!(rt;
        sink.bytes(),
        "created\nrows 2\nerror 3 unknown table u\nrows 1\nrow * 1\nrow * 2\nrow * 3\nend *\n".as_bytes()
    );
    assert_eq!(rt; status, Status::Clean);
    Ok(())
}

/// A comment of two dashes and so many letters, and a statement behind it.
fn after_comment(alloc: Global, letters: usize) -> Result<(Status, MemSink), AllocError> {
    let mut script = Vec::from_slice(alloc, b"--".as_slice())?;
    for _letter in 0..letters {
        script.push(b'x')?;
    }
    script.extend_from_slice(b"\nCREATE TABLE u (a INTEGER)\n".as_slice())?;
    through_engine(alloc, script, device(alloc))
}

#[test]
fn long_comments(rt: HostRuntime) -> Result<(), Fail> {
    let alloc = rt.alloc();
    let (status, sink) = after_comment(alloc, 4_094)?;
    assert_eq!(rt; sink.bytes(), b"created\n".as_slice());
    assert_eq!(rt; status, Status::Clean);
    let (status, sink) = after_comment(alloc, 4_095)?;
    assert_eq!(rt;
        sink.bytes(),
        b"error 2 line too long\ncreated\n".as_slice()
    );
    assert_eq!(rt; status, Status::Errors);
    Ok(())
}

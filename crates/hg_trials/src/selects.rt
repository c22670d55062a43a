//! SELECTs from their bytes to the bytes of their replies: each gives the rows, in any order, that the slow
//! evaluator gives over the same tables, and as many of them as `sqlite3` counts.

use crate::answers::first_difference;
use crate::clean_run::run_clean;
use crate::plain_tables::PlainTables;
use hg_serve::Status;
use std::alloc::{AllocError, Global};
use std::process::Abort;
use std::test::Fail;

/// A line, and how many rows it shows.
type Line = (&'static str, usize);

/// Three tables of numbers and texts, with NULLs and rows that are there twice, and one without rows.
const TABLES: [Line; 10] = [
    ("CREATE TABLE t (a INTEGER, b INTEGER, s VARCHAR(9))", 0),
    ("INSERT INTO t VALUES (1, 10, 'one'), (2, NULL, 'two')", 0),
    ("INSERT INTO t VALUES (NULL, 30, 'three'), (2, 20, NULL)", 0),
    ("INSERT INTO t VALUES (-3, 0, 'it''s'), (NULL, NULL, '')", 0),
    ("CREATE TABLE u (a INTEGER, s VARCHAR(255))", 0),
    (
        "INSERT INTO u VALUES (1, 'one'), (2, 'on'), (2, 'two'), (2, 'two')",
        0,
    ),
    (
        "INSERT INTO u VALUES (NULL, 'One'), (5, NULL), (4, 'on ')",
        0,
    ),
    ("CREATE TABLE v (k INTEGER NOT NULL, b INTEGER)", 0),
    (
        "INSERT INTO v VALUES (1, 2), (2, 10), (3, NULL), (2147483647, -2147483648)",
        0,
    ),
    ("CREATE TABLE e (a INTEGER, s VARCHAR(1))", 0),
];

/// Whole rows of one to four tables, and tables without rows.
const STARS: [Line; 9] = [
    ("SELECT * FROM t", 6),
    ("SELECT ALL * FROM u, v", 28),
    ("SELECT * FROM v CROSS JOIN u CROSS JOIN t", 168),
    ("SELECT * FROM v, v w, v x, v y", 256),
    ("SELECT * FROM e", 0),
    ("SELECT * FROM e, t", 0),
    ("SELECT * FROM t, u, e", 0),
    ("SELECT t.a, 7 FROM t CROSS JOIN e CROSS JOIN u", 0),
    ("SELECT t.a FROM t JOIN e ON t.a = e.a OR 1 = 1", 0),
];

/// One table under several names, tables under each other's name, and outputs with names.
const NAMES: [Line; 7] = [
    ("SELECT * FROM u x, u AS y WHERE x.s = y.s", 8),
    (
        "SELECT p.k, q.k, r.b FROM v p, v q, v r WHERE p.k = q.k AND q.k = r.k",
        4,
    ),
    (
        "SELECT w.k, z.b FROM v w JOIN v x ON x.k = w.k JOIN v y ON y.k = x.k JOIN v z ON z.b <> y.k",
        11,
    ),
    ("SELECT u.b, t.s FROM t u, u t WHERE u.a = t.a", 7),
    ("select T.A, tT.b from T tt, v V2, t where tT.B = v2.B;", 6),
    ("SELECT a AS x, b AS y, a AS b FROM t", 6),
    (
        "SELECT k, k, v.k, v.b, v.k, b, k, k, k, k, k, k, k, k, k, b FROM v -- 16 outputs",
        4,
    ),
];

/// Conditions of ON.
const ON: [Line; 19] = [
    ("SELECT t.a, u.s FROM t JOIN u ON t.a = u.a", 7),
    ("SELECT t.s, u.a FROM t INNER JOIN u ON u.s = t.s", 3),
    ("SELECT t.a, u.a FROM t JOIN u ON t.a <> u.a", 17),
    (
        "SELECT t.a, u.a FROM t JOIN u ON t.a != u.a AND u.a >= t.a",
        15,
    ),
    ("SELECT t.a, u.a FROM t JOIN u ON t.a = u.a OR t.s = u.s", 7),
    (
        "SELECT t.a, u.a, k FROM u CROSS JOIN v JOIN t ON t.a BETWEEN u.a AND v.k",
        28,
    ),
    (
        "SELECT t.a, u.a, k FROM u, v JOIN t ON t.a NOT BETWEEN u.a AND v.k",
        70,
    ),
    (
        "SELECT t.a, u.a, k FROM u, v JOIN t ON t.a IN (u.a, v.k, 5)",
        42,
    ),
    (
        "SELECT t.a, u.a, k FROM u, v JOIN t ON t.a NOT IN (u.a, v.k, 5)",
        57,
    ),
    ("SELECT t.s, u.s FROM t JOIN u ON t.s < u.s", 15),
    ("SELECT t.s, u.s FROM t JOIN u ON NOT t.s >= u.s", 15),
    (
        "SELECT t.s, u.s FROM t JOIN u ON t.a IS NULL AND u.s IS NOT NULL",
        12,
    ),
    (
        "SELECT x.a, y.a, z.a FROM u x JOIN u y ON x.a < y.a JOIN u z ON y.a < z.a AND x.s <> z.s",
        3,
    ),
    ("SELECT t.a, k FROM t JOIN v ON t.a = 1", 4),
    ("SELECT t.a, k FROM t JOIN v ON k = 3", 6),
    ("SELECT t.a, k FROM t JOIN v ON 1 = 1", 24),
    ("SELECT t.a, k FROM t JOIN v ON 1 = 0", 0),
    ("SELECT t.a, k FROM t JOIN v ON t.a = NULL", 0),
    (
        "SELECT t.a, u.a FROM t JOIN u ON t.a < u.a WHERE u.a - t.a = 1",
        3,
    ),
];

/// NULL in conditions, and AND, OR and NOT over it.
const TRUTHS: [Line; 17] = [
    ("SELECT a FROM t WHERE a = NULL", 0),
    ("SELECT a FROM t WHERE a <> NULL OR s = 'one'", 1),
    ("SELECT a FROM t WHERE NOT (a = NULL)", 0),
    ("SELECT a, b FROM t WHERE a IS NULL", 2),
    ("SELECT a, b FROM t WHERE a IS NOT NULL AND b IS NULL", 1),
    ("SELECT a, b FROM t WHERE a + b IS NULL", 3),
    ("SELECT a FROM t WHERE NOT a = 2", 2),
    ("SELECT a, b FROM t WHERE NOT (a = 2 AND b = 20)", 3),
    ("SELECT a, b FROM t WHERE NOT (a = 2 OR b = 20)", 2),
    ("SELECT a, b FROM t WHERE NOT (NOT (a < 2))", 2),
    ("SELECT a FROM t WHERE a IN (1, NULL)", 1),
    ("SELECT a FROM t WHERE a NOT IN (1, NULL)", 0),
    ("SELECT a FROM t WHERE NOT a BETWEEN 2 AND NULL", 2),
    ("SELECT s FROM t WHERE NULL IS NULL", 6),
    ("SELECT s FROM t WHERE NULL = NULL", 0),
    ("SELECT s FROM t WHERE a = 1 OR NULL = 1 AND b = 10", 1),
    (
        "SELECT t.s, u.s FROM t, u WHERE t.a = u.a OR t.b IS NULL AND u.a IS NULL",
        9,
    ),
];

/// Texts compare byte by byte, without padding.
const TEXTS: [Line; 7] = [
    ("SELECT s FROM u WHERE s = 'on'", 1),
    ("SELECT s FROM u WHERE s <> 'one'", 5),
    ("SELECT s FROM u WHERE s < 'one'", 3),
    ("SELECT s FROM u WHERE s BETWEEN 'on' AND 'one'", 3),
    ("SELECT s FROM u WHERE s IN ('One', 'TWO', 'on ', NULL)", 2),
    ("SELECT a FROM t WHERE s = 'it''s' OR s = '' OR s > 'tw'", 3),
    ("SELECT t.s FROM t, u WHERE t.s = u.s AND t.a = u.a", 3),
];

/// Arithmetic and constants, as outputs and in conditions.
const VALUES: [Line; 11] = [
    (
        "SELECT a + b, a - b, a * b, -a, +a, -(a - 1) * (b + 2) FROM t",
        6,
    ),
    (
        "SELECT t.a * u.a + 1 - -t.b FROM t, u WHERE t.a * 2 >= u.a + 1",
        9,
    ),
    ("SELECT k * k * k, b * b * b, k - b FROM v", 4),
    ("SELECT k * 4294967296 + b, -b FROM v WHERE k * k > 8", 2),
    ("SELECT 1, 'it''s', NULL, -5, 0012, '' FROM v", 4),
    (
        "SELECT 85070591730234615865843651857942052863, NULL + 1 FROM u WHERE a = 1",
        1,
    ),
    ("SELECT a FROM u WHERE 1 + 1 = 2", 7),
    ("SELECT a FROM u WHERE 'a' > 'b'", 0),
    ("SELECT a FROM u WHERE 1 = 1 AND a = 2 AND 2 > 1", 3),
    ("SELECT a FROM u WHERE NULL + 1 = 1", 0),
    ("SELECT a FROM t WHERE a = b - 18 AND -a < 0", 1),
];

/// Three and four tables, with a condition that is split at AND.
const THREE: [Line; 7] = [
    (
        "SELECT t.s, u.s, v.b FROM t, u, v WHERE t.a = u.a AND u.a = v.k AND v.b > 0",
        7,
    ),
    (
        "SELECT t.s, u.s, v.b FROM t, u, v WHERE v.k = t.a AND (t.a = u.a AND t.b IS NULL)",
        3,
    ),
    (
        "SELECT t.s, v.k FROM t, v, u WHERE v.k = 1 AND t.a = 2 AND u.a = 5",
        2,
    ),
    (
        "SELECT t.s, u.s, v.k FROM t JOIN u ON t.a = u.a, v WHERE v.k BETWEEN t.a AND u.a AND u.s <> 'on'",
        5,
    ),
    (
        "SELECT t.a, u.a, v.k FROM t, u, v WHERE t.a + u.a = v.k AND (t.b = 10 OR v.b = 10) AND t.s <= u.s",
        3,
    ),
    (
        "SELECT x.a, y.a, t.a, v.k FROM u x, u y, t, v WHERE x.a = y.a AND y.a = t.a AND t.a = v.k AND x.s = 'two'",
        12,
    ),
    (
        "SELECT x.a, t.b FROM u x, t, v, u y WHERE v.b = t.b AND y.a = 5 AND x.a = v.k - 1 AND 1 = 1",
        1,
    ),
];

/// A script, and the replies over plain tables.
#[derive(Drop)]
struct Trial {
    plain: PlainTables,
    script: Vec<u8>,
    wanted: Vec<u8>,
}

impl Trial {
    fn add(
        &mut self,
        rt: &impl Abort,
        alloc: Global,
        line: &str,
        count: usize,
    ) -> Result<(), AllocError> {
        self.script.extend_from_slice(line.as_bytes())?;
        self.script.push(b'\n')?;
        let shown = self.plain.run(alloc, line.as_bytes(), &mut self.wanted)?;
        assert_eq!(rt; shown, Some(count), "{line}");
        Ok(())
    }

    fn add_all(
        &mut self,
        rt: &impl Abort,
        alloc: Global,
        lines: &[Line],
    ) -> Result<(), AllocError> {
        for (line, count) in lines {
            self.add(rt, alloc, line, *count)?;
        }
        Ok(())
    }
}

/// The SELECT of the answer with that number, from 0, where the lines that make the tables come first.
fn select_at(selects: &[Line], answer: u32) -> &'static str {
    let place = (answer as usize).saturating_sub(TABLES.len());
    if place < selects.len() {
        selects[place].0
    } else {
        "the end"
    }
}

/// These SELECTs, behind the lines that make the tables, answer as over plain tables.
fn give_the_same(rt: &impl Abort, alloc: Global, selects: &[Line]) -> Result<(), AllocError> {
    let mut trial = Trial {
        plain: PlainTables::new(alloc),
        script: Vec::new(alloc),
        wanted: Vec::new(alloc),
    };
    trial.add_all(rt, alloc, &TABLES)?;
    trial.add_all(rt, alloc, selects)?;
    let (status, sink) = run_clean(alloc, trial.script.as_slice())?;
    let difference = first_difference(alloc, sink.bytes(), trial.wanted.as_slice())?;
    if let Some(answer) = difference {
        panic!(rt; "another answer: {}", select_at(selects, answer));
    }
    assert_eq!(rt; status, Status::Clean);
    Ok(())
}

#[test]
fn selects(rt: HostRuntime) -> Result<(), Fail> {
    let alloc = rt.alloc();
    give_the_same(&rt, alloc, &STARS)?;
    give_the_same(&rt, alloc, &NAMES)?;
    give_the_same(&rt, alloc, &ON)?;
    give_the_same(&rt, alloc, &TRUTHS)?;
    give_the_same(&rt, alloc, &TEXTS)?;
    give_the_same(&rt, alloc, &VALUES)?;
    give_the_same(&rt, alloc, &THREE)?;
    Ok(())
}

//! Small scripts with the replies that were worked out by hand. The rows of a SELECT come in any order.

use crate::answers::first_difference;
use crate::clean_run::run_clean;
use hg_serve::Status;
use std::alloc::{AllocError, Global};
use std::process::Abort;
use std::test::Fail;

/// A script, its replies, and how it ends.
type Script = (&'static str, &'static str, Status);

const SCRIPTS: [Script; 6] = [
    // a NULL is neither equal nor unequal to a number
    (
        "CREATE TABLE t (a INTEGER)\nINSERT INTO t VALUES (NULL), (1), (2)\nSELECT a FROM t WHERE a <> 1\nSELECT a FROM t WHERE NOT (a = 1)\n",
        "created\nrows 3\nrow * 2\nend *\nrow * 2\nend *\n",
        Status::Clean,
    ),
    // one number that does not fit refuses the whole INSERT, and a product of four is too wide
    (
        "CREATE TABLE t (a INTEGER)\nINSERT INTO t VALUES (1), (2), (2147483648)\nSELECT * FROM t\nSELECT a*a*a*a FROM t\n",
        "created\nerror 11 value does not fit a\nend *\nerror 7 expression too wide\n",
        Status::Errors,
    ),
    // lines that are refused: by the grammar, for a name, a type or a number
    (
        "CREATE TABLE t (a INTEGER)\nSELEC\nSELECT * FROM u\nSELECT x FROM t\nSELECT a FROM t, t\nSELECT x.a, a FROM t x, t y\nSELECT a FROM t WHERE a = 'x'\nWORK 0\n",
        "created\nerror 1 syntax\nerror 3 unknown table u\nerror 4 unknown column x\nerror 8 name taken t\nerror 5 ambiguous column a\nerror 6 type mismatch\nerror 22 bad number\n",
        Status::Errors,
    ),
    // texts with a quote, and such that are NULL or too long for their column
    (
        "CREATE TABLE n (s VARCHAR(4) NOT NULL)\nINSERT INTO n VALUES ('it''s')\nINSERT INTO n VALUES (NULL)\nINSERT INTO n VALUES ('abcde')\nSELECT s FROM n\n",
        "created\nrows 1\nerror 12 null not allowed s\nerror 11 value does not fit s\nrow * 'it''s'\nend *\n",
        Status::Errors,
    ),
    // a join by an inequality, and a condition over both tables
    (
        "CREATE TABLE t (a INTEGER)\nCREATE TABLE u (a INTEGER)\nINSERT INTO t VALUES (1), (2)\nINSERT INTO u VALUES (2), (3)\nSELECT t.a, u.a FROM t JOIN u ON t.a < u.a WHERE u.a - t.a = 1\n",
        "created\ncreated\nrows 2\nrows 2\nrow * 1,2\nrow * 2,3\nend *\n",
        Status::Clean,
    ),
    // NULL among the items of IN
    (
        "CREATE TABLE t (a INTEGER)\nINSERT INTO t VALUES (1), (2)\nSELECT a FROM t WHERE a IN (1, NULL)\nSELECT a FROM t WHERE a NOT IN (1, NULL)\n",
        "created\nrows 2\nrow * 1\nend *\nend *\n",
        Status::Clean,
    ),
];

/// Checks what a script gives.
fn gives(
    rt: &impl Abort,
    alloc: Global,
    script: &[u8],
    replies: &str,
    status: Status,
) -> Result<(), AllocError> {
    let (ended, sink) = run_clean(alloc, script)?;
    let difference = first_difference(alloc, sink.bytes(), replies.as_bytes())?;
    assert_eq!(rt; difference, None, "{replies}");
    assert_eq!(rt; ended, status);
    Ok(())
}

#[test]
fn worked_scripts(rt: HostRuntime) -> Result<(), Fail> {
    let alloc = rt.alloc();
    for (script, replies, status) in SCRIPTS {
        gives(&rt, alloc, script.as_bytes(), replies, status)?;
    }
    Ok(())
}

/// A text of so many letters.
fn push_text(script: &mut Vec<u8>, letters: u32) -> Result<(), AllocError> {
    script.push(b'\'')?;
    for _letter in 0..letters {
        script.push(b'x')?;
    }
    script.push(b'\'')?;
    Ok(())
}

/// An INSERT of a row of four texts of so many letters.
fn push_insert(script: &mut Vec<u8>, letters: u32) -> Result<(), AllocError> {
    let mut before = b"INSERT INTO w VALUES (".as_slice();
    for _text in 0..4u32 {
        script.extend_from_slice(before)?;
        push_text(script, letters)?;
        before = b",".as_slice();
    }
    script.extend_from_slice(b")\n".as_slice())
}

/// A row has 1,000 bytes at most, with a mark and a length for each text: four texts of 250 letters have
/// 1,008, and of 248 letters 1,000.
#[test]
fn rows_of_four_texts(rt: HostRuntime) -> Result<(), Fail> {
    let alloc = rt.alloc();
    let mut script = Vec::from_slice(
        alloc,
        b"CREATE TABLE w (a VARCHAR(255), b VARCHAR(255), c VARCHAR(255), d VARCHAR(255))\n".as_slice(),
    )?;
    push_insert(&mut script, 250)?;
    push_insert(&mut script, 248)?;
    let replies = "created\nerror 23 row too long\nrows 1\n";
    gives(&rt, alloc, script.as_slice(), replies, Status::Errors)?;
    Ok(())
}

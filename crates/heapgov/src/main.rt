//! The program: runs the script on standard input, writes its replies to standard output, and ends
//! with the number of the status. Its devices are the files `heapgov.main` and `heapgov.temp` in the
//! current folder, each made anew at its first read or write.
//!
//! What standard input and the files hold, and that standard output takes what is written, no proof
//! says: the streams and the files are the trusted edge.
#![tactic(auto)]

mod files;
mod streams;
#[cfg(test)]
mod tests;

use files::FileDevice;
use hg_serve::{Status, run};
use std::env::{self, Env};
use std::io::{self, ErrorKind};
use std::process::ExitCode;
use streams::{StdSink, StdSource};

/// The words of the command line without the program's name.
fn words<R: Env + AllocGlobal>(rt: &R) -> io::Result<Vec<String>> {
    let mut words = Vec::new(rt.alloc());
    for word in env::args(rt)?.skip(1) {
        words.push(word)?;
    }
    Ok(words)
}

/// The status where the words could not be read: for want of memory, or since one is no text.
fn refused(kind: ErrorKind) -> Status {
    match kind {
        ErrorKind::OutOfMemory => Status::NoMemory,
        _ => Status::Usage,
    }
}

fn main(rt: HostRuntime) -> ExitCode {
    let alloc = rt.alloc();
    let words = match words(&rt) {
        Ok(words) => words,
        Err(error) => return ExitCode::from(refused(error.kind()).number()),
    };
    let mut source = StdSource::new(rt.reader());
    let mut sink = StdSink::new(io::writer(&rt));
    let outcome = run(
        alloc,
        &words,
        &mut source,
        &mut sink,
        FileDevice::new(&rt, "heapgov.main"),
        FileDevice::new(&rt, "heapgov.temp"),
    );
    ExitCode::from(outcome.status.number())
}

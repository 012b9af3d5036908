//! The homotopy tester over files in memory, for `tests/growth` alone.
//!
//! `main` reads each file that the words name, before anything is asked, prints `filled`, and only then has `program::run`
//! answer the words, from memory and into a sink that passes over what is written. So all memory that is taken behind that
//! line is what the command itself takes.
//!
//!     memory_cli certify MESH WALKS
#![tactic(auto)]

use program::run;
use std::io;
use std::process::ExitCode;
use std::rt::{Env, Files};
use surf_io::{FileShelf, MemoryShelf, QuietSink, ReadEnd, read_whole, read_words};

/// How the program ends where it has not come so far as to ask anything. No status of an answer has this number.
const NOT_FILLED: u8 = 6;

fn main(rt: HostRuntime) -> ExitCode {
    let Ok((words, mut shelf)) = fill(&rt) else {
        return ExitCode::from(NOT_FILLED);
    };
    let Ok(()) = rt.println("filled") else {
        return ExitCode::from(NOT_FILLED);
    };
    let status = run(rt.alloc(), &words, &mut shelf, &mut QuietSink::new());
    ExitCode::from(status.number())
}

/// The words behind the program's name, and the files that they name. A word that names no file is passed over.
fn fill<R: Env + Files + AllocGlobal>(rt: &R) -> io::Result<(Vec<String>, MemoryShelf)> {
    let words = read_words(rt)?;
    let mut shelf = MemoryShelf::new(rt.alloc());
    for name in &words {
        let mut files = FileShelf::new(rt, rt.alloc());
        match read_whole(rt.alloc(), &mut files, name, u64::MAX) {
            Ok(bytes) => shelf.put(name, &bytes)?,
            Err(ReadEnd::Fault) => {}
            Err(_) => return Err(io::ErrorKind::OutOfMemory.into()),
        }
    }
    Ok((words, shelf))
}

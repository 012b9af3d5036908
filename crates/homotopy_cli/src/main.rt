//! The homotopy tester for edge walks on polygon meshes.
//!
//! `main` takes the words behind the program's name, and `program::run` answers them; what it answers is in the contract there. Words of
//! which one is no text are no command, as no words are.
//!
//!     homotopy_cli decide FILE WALKS
#![tactic(auto)]

#[cfg(test)]
mod faults;
#[cfg(test)]
mod files;
#[cfg(test)]
mod limits;
#[cfg(test)]
mod rows;
#[cfg(test)]
mod tests;

use program::{Status, run};
use std::process::ExitCode;
use surf_io::{FileShelf, OutSink, read_words};

fn main(rt: HostRuntime) -> ExitCode {
    let Ok(words) = read_words(&rt) else {
        return ExitCode::from(Status::OutOfMemory.number());
    };
    let mut shelf = FileShelf::new(&rt, rt.alloc());
    let mut out = OutSink::new(&rt);
    let status = run(rt.alloc(), &words, &mut shelf, &mut out);
    ExitCode::from(status.number())
}

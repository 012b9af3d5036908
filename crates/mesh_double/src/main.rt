//! The double of a surface with boundary, as a mesh: `homotopy_cli decide` on it is exact for walks of the surface, as they stand.
//!
//! `main` takes the one word behind the program's name, and `double_commands::write_double` does the rest; what it writes is in the
//! contract there.
//!
//!     mesh_double FILE
#![tactic(auto)]

use commands::Status;
use double_commands::{refuse_words, write_double};
use std::process::ExitCode;
use surf_io::{FileShelf, OutSink, read_words};

fn main(rt: HostRuntime) -> ExitCode {
    let Ok(words) = read_words(&rt) else {
        return ExitCode::from(Status::OutOfMemory.number());
    };
    let mut shelf = FileShelf::new(&rt, rt.alloc());
    let mut out = OutSink::new(&rt);
    let status = match words.as_slice() {
        [name] => write_double(rt.alloc(), &mut shelf, &mut out, name.as_str()),
        _ => refuse_words(&mut out),
    };
    ExitCode::from(status.number())
}

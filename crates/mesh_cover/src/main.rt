//! The orientation cover of a closed surface, as a mesh, and the lifts of two walks to it, as a walk file: `homotopy_cli decide` on the two
//! answers for the walks.
//!
//! `main` takes the words behind the program's name, one or two, and `cover_commands` does the rest; what it writes is in the contracts
//! there.
//!
//!     mesh_cover FILE
//!     mesh_cover FILE WALKS
#![tactic(auto)]

use commands::Status;
use cover_commands::{write_cover, write_lifts};
use double_commands::refuse_words;
use std::process::ExitCode;
use surf_io::{FileShelf, OutSink, read_words};

fn main(rt: HostRuntime) -> ExitCode {
    let Ok(words) = read_words(&rt) else {
        return ExitCode::from(Status::OutOfMemory.number());
    };
    let mut shelf = FileShelf::new(&rt, rt.alloc());
    let mut out = OutSink::new(&rt);
    let status = match words.as_slice() {
        [mesh] => write_cover(rt.alloc(), &mut shelf, &mut out, mesh.as_str()),
        [mesh, walks] => write_lifts(
            rt.alloc(),
            &mut shelf,
            &mut out,
            mesh.as_str(),
            walks.as_str(),
        ),
        _ => refuse_words(&mut out),
    };
    ExitCode::from(status.number())
}

//! The homotopy tester for edge walks on polygon meshes: its commands, put together.
//!
//! A caller hands `run` the words of a command line, a shelf of files and a sink, and gets the status with which the program
//! ends. What is answered is in its contract: `Commands` of specs/ is the table of commands, `Outcomes` says what answers words, and
//! `Headline` has the theorem of all commands. What is promised of answers stands in `laws`; for each command it is a record of the
//! crate that has the command. Proved: every command returns, and the answers are these.
//!
//!     let status = run(alloc, &words, &mut shelf, &mut out);
#![tactic(auto)]

mod command;
pub mod laws;
mod top;

pub use command::{Command, read_command};
pub use commands::Status;
pub use top::run;

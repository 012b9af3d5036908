//! The world outside, as files to read by name and a sink to write to, with a count of faults, and the words of a program.
//!
//! A caller sees a shelf as the files that it holds and a sink as the bytes that it took, where they tell; and each as a
//! count of faults. Proved: what is read whole is the file, what is written is appended, digits and all, and a read or a
//! write fails only where the count rose. The files of the system and standard output tell nothing; they are tested.
//!
//!     let bytes = read_whole(alloc, &mut shelf, "mesh.off", limit)?;
//!     write_whole(&mut sink, &bytes)?;
#![tactic(auto)]

mod digits;
mod fault_plan;
mod faults;
mod file_shelf;
mod lines;
mod memory_shelf;
mod memory_sink;
mod out_sink;
mod piece;
mod quiet_shelf;
mod quiet_sink;
mod read;
mod shelf;
mod sink;
mod stored_files;
mod words;
mod write;

pub use digits::{put_natural, put_signed};
pub use faults::Failed;
pub use file_shelf::FileShelf;
pub use memory_shelf::MemoryShelf;
pub use memory_sink::MemorySink;
pub use out_sink::OutSink;
pub use piece::Piece;
pub use quiet_shelf::QuietShelf;
pub use quiet_sink::QuietSink;
pub use read::{ReadEnd, read_whole};
pub use shelf::Shelf;
pub use sink::Sink;
pub use words::read_words;
pub use write::write_whole;

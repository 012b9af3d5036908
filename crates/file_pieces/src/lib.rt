//! A file of a shelf, read in pieces of 65,536 bytes, byte by byte or to its end.
//!
//! A caller sees the limit, how many bytes were looked at, the bytes that are kept, and whether the file has no others. Proved:
//! the bytes that come are those of the file, nothing is read while a byte is kept, and a read that failed or a byte past the
//! limit is answered as such, and only then.
//!
//!     let mut pieces = Pieces::new(alloc, limit)?;
//!     while let Some(byte) = pieces.next(&mut shelf, "moves")? { .. }
#![tactic(auto)]

mod fault;
mod file_lines;
mod pieces;
mod short_line;

pub use fault::{GatherFault, PieceFault};
pub use file_lines::FileLines;
pub use pieces::Pieces;
pub use short_line::{MOST_BYTES, MOST_WORDS, ShortLine};

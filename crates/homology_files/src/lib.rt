//! Certificates of homology as texts, read and written.
//!
//! Proved: what is read is what the lines of the text mean, or the first fault with its line, or want of memory; a certificate
//! is written in its one spelling; and what was written reads back, alone and behind the line of its answer (laws).
//!
//!     let certificate = read_homology(alloc, b"CHAIN 1\n3 -1\n")?;
//!     write_homology(&certificate, &mut sink)?;
#![tactic(auto)]

mod fault;
mod head;
pub mod laws;
mod reading;
mod words;
mod writing;

pub use fault::HomologyFault;
pub use reading::read_homology;
pub use writing::write_homology;

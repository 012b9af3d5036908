//! Reading mesh texts in the format OFF.
//!
//! A caller hands in the bytes of a text, and gets the face list or the first fault with its line. Proved: the result is
//! what the lines of the text mean, or want of memory.
//!
//!     let mesh = read_off(alloc, b"OFF 3 1 0\n0 0 0\n1 0 0\n0 1 0\n3 0 1 2\n")?;
//!     let sides = mesh.total();
#![tactic(auto)]

mod header;
mod keyword;
mod mesh;
mod off_fault;
mod ring;

pub use mesh::read_off;
pub use off_fault::OffFault;

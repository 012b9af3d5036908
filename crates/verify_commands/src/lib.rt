//! The command `verify`: judging a certificate against the mesh and the walks alone.
//!
//! It is a command as those of `commands` are: `verify` gives a `Reply`, or what stops it, with the clause `Runs` of its check
//! (specs/Verify.antt, which has the theorems that a reader looks for first). A list of moves is judged while it is read, move by move;
//! a denial is read whole. Proved: it accepts exactly the lists that lead within their peak, and the denials that hold, whoever made
//! them.
//!
//!     let reply = verify::verify(alloc, &mut shelf, mesh, walks, certificate)?;
#![tactic(auto)]

pub mod progress;
pub mod verify;

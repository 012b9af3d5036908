//! What commands of the homotopy tester for edge walks on polygon meshes have in common: files are read, faults are told, replies are
//! written.
//!
//! A command reads files from a shelf, one after another, and gives a `Reply`, or what stops it: a `Stop`, carried by `?`. What it
//! does is said by one clause, `Runs` (specs/Replies.antt), of its check: what it looks at, in order, and what it answers then. Each
//! command stands in a crate of its own, with a file of specs/ that has its check, and the theorem that a reader looks for first. It takes
//! from here:
//!
//! - `read_file`, `read_mesh` and `read_pair`, each with the clause `EndsReading` of its check;
//! - `read_list`, for walks of which a command asks something else than that they are a pair;
//! - `Limits`, for a command that makes lists of moves;
//! - `refused`, `refused_at` and `refused_at_place`, which make the `Stop` of a fault that this crate does not know, with the clause
//!   `Tells`;
//! - `Line`, `Phrase` and `Text`, of which a `Reply` is made, which `give` writes;
//! - the parts that checks are made of (specs/Checks.antt), and the lemmas of proofs/: `Running` and `Checking` for the clause `Runs`,
//!   `Sound` and `Rows` for the law of the command, which is said wherever words are answered by its check (`AnswersTo`).
//!
//! Nothing here knows how a certificate is made: no surface is built and no edge is split, so that what judges certificates can stand on
//! it.
#![tactic(auto)]

mod certificate;
pub mod decision;
mod decision_lines;
mod inputs;
mod limits;
mod line;
mod odd_chain_line;
mod refusal;
mod reply;
mod status;
mod stop;
mod text;
mod word_lines;

pub use certificate::{Certificate, MOST_SHOWN_PEAK, MOST_SPHERE_MOVES};
pub use inputs::{MOST_BYTES, read_file, read_list, read_mesh, read_pair};
pub use limits::{Limits, OverLimit};
pub use line::{Line, MOST_OTHERS, Phrase};
pub use refusal::{Input, refused, refused_at, refused_at_place};
pub use reply::{Reply, give};
pub use status::Status;
pub use stop::Stop;
pub use text::{Text, put_text};

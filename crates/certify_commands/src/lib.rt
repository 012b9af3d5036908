//! The command `certify`: a certificate for what `decide` answers.
//!
//! It is a command as `commands` says: `certify` gives a `Reply`, or what stops it, with the clause `Runs` of its check
//! (specs/Certify.antt, which has the theorem that a reader looks for first). `find_certificate` is the same of a surface and two walks
//! in memory. Proved: within the limits a list that leads is printed exactly where some list does, with its exact peak, and else a denial
//! that holds.
#![tactic(auto)]

pub mod certify;
mod finding;

pub use certify::{CERTIFY_LIMITS, find_certificate};

//! The command `trial`: what `surface` and `decide` say of a chain of tori, and of its three pairs of walks.
//!
//! It is a command as `commands` says, which reads no file: `trial` gives a `Reply`, or what stops it, by its check (specs/Trial.antt,
//! which has the theorem that a reader looks for first).
#![tactic(auto)]

pub mod trial;

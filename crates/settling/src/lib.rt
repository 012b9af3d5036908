//! Turns that come round again and again, put at the end of a canonical word.
//!
//! A closed walk that is gone along once more puts the same turns at the end of its word. Proved: if the turns that come
//! round are canonical themselves, then the word is settled before long, and from there on each round only puts its
//! turns last. It is a law of words alone: no wheel, no surface and no walk is in it.
//!
//! docs/definitions/LOOPS.md tells what a row of turns is, and why the word settles.
#![tactic(auto)]

pub mod laws;

//! The command `verify-homology`: the verdict on a chain or a cocycle, whoever made it and on any mesh.
//!
//! It is a command as `commands` says: `verify_homology` gives a `Reply`, or what stops it, with the clause `Runs` of its check
//! (specs/VerifyHomology.antt, which has the theorem that a reader looks for first).
#![tactic(auto)]

pub mod laws;
pub mod verify_homology;

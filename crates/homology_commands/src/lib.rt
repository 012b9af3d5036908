//! The command `homology`: whether two walks of a surface are homologous, with a certificate.
//!
//! It is a command as `commands` says: `show_homology` gives a `Reply`, or what stops it, with the clause `Runs` of its check
//! (specs/Homology.antt, which has the theorem that a reader looks for first). Proved: it tells whether two walks of a surface are
//! homologous, with a chain or a cocycle that shows it, and `verify-homology` accepts what is printed.
#![tactic(auto)]

pub mod laws;
mod listing;
pub mod show_homology;

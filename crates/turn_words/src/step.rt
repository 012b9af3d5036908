//! The elementary steps on a turn word.

/// One elementary step. A place `at` counts the entries of the word from 0.
///
/// All sums are modulo the degree.
#[derive(Clone, Copy, Debug, PartialEq, Eq)]
pub enum Step {
    /// A spur goes in: the entry `s` at the place becomes `first 0 (s - first)`. At the end of the word
    /// `first 0` is put.
    SpurIn { at: u32, first: u32 },
    /// A spur goes: the entries `x 0 y` from the place become `x + y`. Where `y` is not there, `x 0` goes.
    SpurOut { at: u32 },
    /// The path is pushed across a quad. Up, `x -1 y` from the place becomes `(x + 1) 1 (y + 1)`. Down,
    /// `x 1 y` becomes `(x - 1) -1 (y - 1)`. The `y` may be missing.
    Push { at: u32, up: bool },
}

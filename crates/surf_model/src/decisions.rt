//! What is answered of two walks.

/// Whether one walk may take the place of another.
#[derive(Clone, Copy, Debug, PartialEq, Eq)]
pub enum Answer {
    /// Some list of moves leads from the first walk to the second.
    Homotopic,
    /// No list of moves does.
    Different,
}

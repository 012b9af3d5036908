//! Denials: what shows that no list of moves leads from one walk to another.

use crate::labelling::Labelling;
use turn_words::Word;

/// A labelling, and the words that two walks have under it. Anybody can make one, and it says nothing until it is
/// checked. Where it holds, no list of moves leads from the first walk to the second.
#[derive(Debug, Drop)]
pub struct Denial {
    pub labelling: Labelling,
    /// The word of the first walk.
    pub first: Word,
    /// The word of the second walk.
    pub second: Word,
}

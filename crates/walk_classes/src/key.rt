//! What tells the class of a walk.
ghost use Rattle.std.specs.Prelude.{◌≡◌, IfOk};
ghost use Rattle.walk_classes.specs.WalkKeys.{HasKept, IsKeyFound};

use component_deciding::WordFinder;
use std::alloc::{AllocError, Global};
use surf_model::{VertexName, Walk};
use turn_words::{TurnWord, Word};

/// The word of a walk as a key.
#[derive(Debug, PartialEq, Eq, PartialOrd, Ord, Drop)]
pub(crate) enum WordKey {
    /// A turn word, as the list of its entries.
    Turns(Vec<u32>),
    /// The end of the walk in the plane.
    Flat { x: i64, y: i64 },
}

/// The ends of a walk and its word. Walks are in one class exactly where their keys are equal.
#[derive(Debug, PartialEq, Eq, PartialOrd, Ord, Drop)]
pub(crate) struct Key {
    pub(crate) start: VertexName,
    pub(crate) end: VertexName,
    pub(crate) word: WordKey,
}

/// The key of a walk, or none where this is no walk of the surface.
pub(crate) fn key_if_walk(
    alloc: Global,
    finder: &mut WordFinder,
    walk: &Walk,
) -> Result<Option<Key>, AllocError>
    ensures kept { HasKept finder.old finder.new }
    ensures key { IfOk result (IsKeyFound finder.new walk.now) }
{
    let Some(word) = finder.word_if_walk(walk)? else {
        return Ok(None);
    };
    let word = match word {
        Word::Turns(turns) => WordKey::Turns(entries_of(alloc, &turns)?),
        Word::Flat { x, y } => WordKey::Flat { x, y },
    };
    let start = walk.at(0);
    let end = walk.at(walk.darts());
    Ok(Some(Key { start, end, word }))
}

/// The entries of a turn word.
fn entries_of(alloc: Global, word: &TurnWord) -> Result<Vec<u32>, AllocError>
    ensures { IfOk result (λ entries. entries.items ≡ word.now) }
{
    let mut entries = Vec::with_capacity(alloc, word.len() as usize)?;
    for k in 0..word.len() {
        entries.push(word.at(k))?;
    }
    Ok(entries)
}

//! Free words of closed walks, with the components in which they lie.
ghost use Rattle.std.specs.Prelude.{◌≡◌, ◌↔◌, IfOk, IsTrue};
ghost use Rattle.closed_walks.specs.FreeHomotopy.{IsClosedWalk};
ghost use Rattle.component_deciding.specs.ComponentWords.{IsFreeUnder};

use free_loops::{FreeWord, are_same_free_words, free_word};
use std::alloc::AllocError;
use surf_model::Walk;
use walk_translate::Labelled;

/// The free word of a closed walk, under the labels of its component, with the place of that component; a connected surface has the
/// place 0.
#[derive(Debug, Drop)]
pub struct PlacedWord {
    pub place: u32,
    pub word: FreeWord,
}

impl PlacedWord {
    /// Tells whether two are one: whether the closed walks that they are of are freely homotopic.
    pub fn is_same(&self, other: &PlacedWord) -> bool
        ensures { IsTrue result ↔ (self.now ≡ other.now) }
    {
        self.place == other.place && are_same_free_words(&self.word, &other.word)
    }
}

/// The free word of a closed walk of a labelled surface, which is the component at a place.
pub(crate) fn free_word_on(
    labelled: &Labelled,
    place: u32,
    walk: &Walk,
) -> Result<PlacedWord, AllocError>
    requires { IsClosedWalk labelled.now.surface.mesh walk.now }
    ensures place { IfOk result (λ placed. placed.place ≡ place) }
    ensures word { IfOk result (λ placed. IsFreeUnder labelled.now walk.now placed.word) }
{
    let labels = labelled.labels();
    let word = free_word(labelled.alloc(), labelled.surface(), labels, walk)?;
    Ok(PlacedWord { place, word })
}

//! The words of the walks of a surface, of which two with common ends are one exactly where the walks are homotopic; and whether closed
//! walks are freely homotopic.
ghost use Rattle.std.specs.Prelude.{◌≡◌, ◌↔◌, ℕ, List, IfOk};
ghost use Rattle.closed_surfaces.specs.SignedSurfaces.{IsSigned};
ghost use Rattle.closed_walks.specs.FreeHomotopy.{FreelyHomotopic, IsClosedWalk};
ghost use Rattle.component_deciding.specs.WordFinders.{IsFreeIn, IsWordIn, mesh_of_finder};
ghost use Rattle.component_deciding.specs.declared.free.PlacedWord.{PlacedWord};
ghost use Rattle.free_loops.specs.FreeWords.{DoDecideFree};
ghost use Rattle.surf_model.specs.Edges.{IsTableOf};
ghost use Rattle.turn_words.specs.declared.word.Word.{Word};
ghost use Rattle.walk_translate.specs.Found.{DoDecide, IsFoundOn, IsWordFound};

use crate::free::{PlacedWord, free_word_on};
use crate::several_words::SeveralWords;
use closed_surfaces::{SignedMesh, connected};
use free_loops::FreeAnswer;
use labellings::are_same_words;
use manifold_check::Parts;
use std::alloc::{AllocError, Global};
use surf_model::{Answer, Sides, Walk};
use turn_words::Word;
use walk_translate::{Labelled, have_common_ends};

/// A surface of which the words of walks may be asked, each under the labels of its component, and whether closed walks are freely
/// homotopic. Contracts see its mesh, and which words its walks have.
#[derive(Drop)]
pub enum WordFinder {
    /// A connected surface with its labels.
    Whole(Labelled),
    /// Several components, each of which is labelled where it is asked about.
    Several(SeveralWords),
}

impl WordFinder {
    /// The surface that a mesh is, of which walks of so many darts are to be asked. Where there is one component alone, it is labelled, and
    /// no face is copied; of several, each that is no sphere is labelled where the first walk lies in it, and keeps its labels.
    pub fn of(alloc: Global, mesh: SignedMesh, darts: u64) -> Result<WordFinder, AllocError>
        requires { IsSigned mesh }
        ensures { IfOk result (λ finder. mesh_of_finder finder ≡ mesh.faces) }
    {
        let parts = Parts::build(alloc, &mesh.faces, &mesh.sides)?;
        if parts.len() == 1 {
            // Its memory is for the surface.
            drop(parts);
            let surface = connected(alloc, mesh)?;
            return Ok(WordFinder::Whole(Labelled::for_darts(alloc, surface, darts)?));
        }
        Ok(WordFinder::Several(SeveralWords::of(alloc, mesh, parts, darts)?))
    }

    /// The edge table of the surface.
    pub fn sides(&self) -> &Sides
        ensures table { IsTableOf (mesh_of_finder self.now) result.now }
        // What holds of the words that every finder gives.
        ensures decide { DoDecide (mesh_of_finder self.now) (IsWordIn self.now) }
        ensures free { DoDecideFree (mesh_of_finder self.now) (IsFreeIn self.now) }
    {
        match self {
            WordFinder::Whole(labelled) => {
                // The proof reads what holds of every labelled surface.
                let _ = labelled.labels();
                labelled.sides()
            }
            WordFinder::Several(several) => several.sides(),
        }
    }

    /// The word of a walk, or none where this is no walk of the surface. Words that were given before stay those of their walks.
    pub fn word_if_walk(&mut self, walk: &Walk) -> Result<Option<Word>, AllocError>
        ensures same { mesh_of_finder self.new ≡ mesh_of_finder self.old }
        ensures kept { (other : List ℕ) (word : Word) → IsWordIn self.old other word → IsWordIn self.new other word }
        ensures word { IfOk result (IsWordFound (mesh_of_finder self.old) (IsWordIn self.new) walk.now) }
    {
        match self {
            WordFinder::Whole(labelled) => labelled.word_if_walk(walk),
            WordFinder::Several(several) => several.word_if_walk(walk),
        }
    }

    /// Decides by their words whether two walks are homotopic, or tells by `None` that they are no walks of the surface with common ends.
    pub fn answer_if_pair(
        &mut self,
        first: &Walk,
        second: &Walk,
    ) -> Result<Option<Answer>, AllocError>
        ensures same { mesh_of_finder self.new ≡ mesh_of_finder self.old }
        ensures answer { IfOk result (IsFoundOn (mesh_of_finder self.old) first.now second.now) }
    {
        if !have_common_ends(first, second) {
            return Ok(None);
        }
        let Some(one) = self.word_if_walk(first)? else {
            return Ok(None);
        };
        let Some(other) = self.word_if_walk(second)? else {
            return Ok(None);
        };
        // The proof reads what holds of every word.
        let _ = self.sides();
        if are_same_words(&one, &other) {
            Ok(Some(Answer::Homotopic))
        } else {
            Ok(Some(Answer::Different))
        }
    }

    /// The free word of a closed walk, with the place of its component. Free words that were given before stay those of their walks.
    pub fn free_word(&mut self, walk: &Walk) -> Result<PlacedWord, AllocError>
        requires { IsClosedWalk (mesh_of_finder self.old) walk.now }
        ensures same { mesh_of_finder self.new ≡ mesh_of_finder self.old }
        ensures kept { (other : List ℕ) (placed : PlacedWord) → IsFreeIn self.old other placed → IsFreeIn self.new other placed }
        ensures word { IfOk result (IsFreeIn self.new walk.now) }
    {
        match self {
            WordFinder::Whole(labelled) => free_word_on(labelled, 0, walk),
            WordFinder::Several(several) => several.free_word(walk),
        }
    }

    /// Decides by their free words whether two closed walks are freely homotopic.
    pub fn decide_free(&mut self, first: &Walk, second: &Walk) -> Result<FreeAnswer, AllocError>
        requires first { IsClosedWalk (mesh_of_finder self.old) first.now }
        requires second { IsClosedWalk (mesh_of_finder self.old) second.now }
        ensures same { mesh_of_finder self.new ≡ mesh_of_finder self.old }
        ensures answer { IfOk result (λ answer. (answer ≡ FreeAnswer.Freely)
            ↔ FreelyHomotopic (mesh_of_finder self.old) first.now second.now) }
    {
        let one = self.free_word(first)?;
        let other = self.free_word(second)?;
        // The proof reads what holds of every free word.
        let _ = self.sides();
        if one.is_same(&other) {
            Ok(FreeAnswer::Freely)
        } else {
            Ok(FreeAnswer::NotFreely)
        }
    }
}

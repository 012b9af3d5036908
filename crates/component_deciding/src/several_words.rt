//! The words of walks on a surface of several components.
ghost use Rattle.std.specs.Prelude.{◌≡◌, ℕ, List, length, slice_index_or, IfOk, None};
ghost use Rattle.closed_surfaces.specs.SignedSurfaces.{IsSigned};
ghost use Rattle.closed_walks.specs.FreeHomotopy.{IsClosedWalk};
ghost use Rattle.component_deciding.specs.ComponentWords.{IsFreeAmong, IsWordAmong};
ghost use Rattle.component_deciding.specs.declared.free.PlacedWord.{PlacedWord};
ghost use Rattle.free_loops.specs.FreeWords.{DoDecideFree};
ghost use Rattle.surf_model.specs.ComponentParts.{AreParts};
ghost use Rattle.surf_model.specs.Edges.{IsTableOf};
ghost use Rattle.turn_words.specs.declared.word.Word.{Word};
ghost use Rattle.walk_translate.specs.Found.{DoDecide, IsWordFound};

use crate::apart::Apart;
use crate::free::{PlacedWord, free_word_on};
use crate::own_mesh::{own_labelled, own_walk};
use closed_surfaces::SignedMesh;
use free_loops::FreeWord;
use manifold_check::Parts;
use std::alloc::{AllocError, Global};
use std::marker::Model;
use surf_model::{Sides, Walk};
use turn_words::Word;
use walk_translate::Labelled;

/// A surface of several components, of which each is labelled where it is asked about. Contracts see the components and their labels.
#[derive(Drop)]
pub struct SeveralWords {
    apart: Apart,
    /// For each component its labels, from the first walk there on; a sphere gets none. A slot takes 8 bytes.
    labelled: Vec<Option<Box<Labelled>>>,
}

impl Model for SeveralWords {
    ghost use Rattle.component_deciding.specs.ComponentWords.{AreLabelledApart, SeveralView};

    ghost Value = { SeveralView };

    ghost view = { λ a. record { apart = a.apart; labelled = a.labelled.items } };

    ghost invariant = { λ a. AreLabelledApart (record { apart = a.apart; labelled = a.labelled.items }) };
}

impl SeveralWords {
    /// Numbers the vertices of each component, and finds its genus; of walks of so many darts is to be asked. Nothing is labelled yet.
    pub(crate) fn of(
        alloc: Global,
        mesh: SignedMesh,
        parts: Parts,
        darts: u64,
    ) -> Result<SeveralWords, AllocError>
        requires signed { IsSigned mesh }
        requires parts { AreParts mesh.faces parts }
        ensures { IfOk result (λ several. several.apart.mesh.faces ≡ mesh.faces) }
    {
        let apart = Apart::of(alloc, mesh, parts, darts)?;
        let labelled = none_labelled(alloc, apart.parts.len())?;
        Ok(SeveralWords { apart, labelled })
    }

    /// The edge table of the surface.
    pub(crate) fn sides(&self) -> &Sides
        ensures table { IsTableOf self.now.apart.mesh.faces result.now }
        // What holds of the words of every surface.
        ensures decide { DoDecide self.now.apart.mesh.faces (IsWordAmong self.now) }
        ensures free { DoDecideFree self.now.apart.mesh.faces (IsFreeAmong self.now) }
    {
        &self.apart.mesh.sides
    }

    /// The word of a walk, or none where this is no walk of the surface. Its component is labelled where it is no sphere, and has no labels
    /// yet.
    pub(crate) fn word_if_walk(&mut self, walk: &Walk) -> Result<Option<Word>, AllocError>
        ensures same { self.new.apart ≡ self.old.apart }
        ensures kept { (other : List ℕ) (word : Word) → IsWordAmong self.old other word → IsWordAmong self.new other word }
        ensures word { IfOk result (IsWordFound self.old.apart.mesh.faces (IsWordAmong self.new) walk.now) }
    {
        let Some(place) = self.apart.place_of(walk.at(0)) else {
            return Ok(None);
        };
        if self.apart.is_sphere(place) {
            return Ok(self.apart.word_on_sphere(walk));
        }
        let Some(own) = own_walk(&self.apart, place, walk)? else {
            return Ok(None);
        };
        if let Some(labelled) = &self.labelled[place as usize] {
            return labelled.word_if_walk(&own);
        }
        let labelled = own_labelled(&self.apart, place)?;
        let found = labelled.word_if_walk(&own);
        let kept = Box::new(self.apart.alloc, labelled)?;
        self.labelled[place as usize] = Some(kept);
        found
    }

    /// The free word of a closed walk, with the place of its component, which is labelled where it is no sphere, and has no labels yet.
    pub(crate) fn free_word(&mut self, walk: &Walk) -> Result<PlacedWord, AllocError>
        requires { IsClosedWalk self.old.apart.mesh.faces walk.now }
        ensures same { self.new.apart ≡ self.old.apart }
        ensures kept { (other : List ℕ) (placed : PlacedWord) → IsFreeAmong self.old other placed → IsFreeAmong self.new other placed }
        ensures word { IfOk result (IsFreeAmong self.new walk.now) }
    {
        let place = self.apart.parts.part_of(walk.at(0));
        if self.apart.is_sphere(place) {
            let word = FreeWord::on_sphere(self.apart.alloc);
            return Ok(PlacedWord { place, word });
        }
        let Some(own) = own_walk(&self.apart, place, walk)? else {
            unreachable!()
        };
        if let Some(labelled) = &self.labelled[place as usize] {
            return free_word_on(labelled, place, &own);
        }
        let labelled = own_labelled(&self.apart, place)?;
        let found = free_word_on(&labelled, place, &own);
        let kept = Box::new(self.apart.alloc, labelled)?;
        self.labelled[place as usize] = Some(kept);
        found
    }
}

/// No labels for so many components.
fn none_labelled(alloc: Global, count: u32) -> Result<Vec<Option<Box<Labelled>>>, AllocError>
    ensures each { IfOk result (λ labelled. length labelled.items ≡ count) }
    ensures none { IfOk result (λ labelled. (k : ℕ) → slice_index_or labelled.items k None ≡ None) }
{
    let mut labelled = Vec::with_capacity(alloc, count as usize)?;
    for _ in 0..count {
        labelled.push(None)?;
    }
    Ok(labelled)
}

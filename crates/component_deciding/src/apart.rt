//! A surface of several components, and the numbers of their own vertices.
ghost use Rattle.std.specs.Prelude.{◌≡◌, ◌↔◌, ◌<◌, [], length, slice_index, false, IfOk, IsTrue, MatchOption};
ghost use Rattle.closed_surfaces.specs.SignedSurfaces.{IsSigned};
ghost use Rattle.surf_model.specs.ComponentParts.{AreParts, component_mesh};
ghost use Rattle.surf_model.specs.FaceLists.{is_used};
ghost use Rattle.surf_model.specs.Genera.{HasGenus};
ghost use Rattle.surf_model.specs.Walks.{IsWalk};
ghost use Rattle.turn_words.specs.declared.word.Word.TheVariants.{Turns};
ghost use Rattle.component_deciding.specs.OwnVertices.{IsApart};
ghost use Rattle.walk_translate.specs.Found.{IsFoundOn};

use crate::own_numbers::{OwnNumbers, number_vertices};
use closed_surfaces::{SignedMesh, genera_of};
use manifold_check::Parts;
use std::alloc::{AllocError, Global};
use surf_model::{Answer, VertexName, Walk};
use turn_words::{TurnWord, Word};
use walk_translate::{are_pair, is_walk};

/// From how many darts for each edge of the mesh on the spokes of all darts of a component are kept: to find them takes the time of
/// looking up two or three darts an edge.
const MANY_DARTS: u64 = 3;

/// An orientable closed surface with its components, each over its own vertices.
#[derive(Drop)]
pub(crate) struct Apart {
    pub(crate) alloc: Global,
    pub(crate) mesh: SignedMesh,
    pub(crate) parts: Parts,
    pub(crate) own: OwnNumbers,
    /// The genus of each component.
    pub(crate) genera: Vec<u32>,
    /// Whether the spokes of all darts of a component are kept, since so many darts are to be asked of.
    pub(crate) keeps_spokes: bool,
}

impl Apart {
    /// Numbers the vertices of each component, and finds its genus. Of walks of so many darts is to be asked.
    pub(crate) fn of(
        alloc: Global,
        mesh: SignedMesh,
        parts: Parts,
        darts: u64,
    ) -> Result<Apart, AllocError>
        requires signed { IsSigned mesh }
        requires parts { AreParts mesh.faces parts }
        ensures mesh { IfOk result (λ apart. apart.mesh.faces ≡ mesh.faces) }
        ensures apart { IfOk result IsApart }
    {
        let own = number_vertices(alloc, &mesh, &parts)?;
        let genera = genera_of(alloc, &mesh, &parts)?;
        let keeps_spokes = darts / MANY_DARTS >= u64::from(mesh.sides.len());
        Ok(Apart {
            alloc,
            mesh,
            parts,
            own,
            genera,
            keeps_spokes,
        })
    }

    /// The place of the component of a vertex; none for one that no face names.
    pub(crate) fn place_of(&self, vertex: VertexName) -> Option<u32>
        requires { IsApart self.now }
        ensures { MatchOption result (is_used self.now.mesh.faces vertex.0 ≡ false)
            (λ place. IsTrue (is_used self.now.mesh.faces vertex.0) × (slice_index self.now.parts.places vertex.0 ≡ place)) }
    {
        if self.mesh.sides.used(vertex) {
            Some(self.parts.part_of(vertex))
        } else {
            None
        }
    }

    /// Whether the component at a place is a sphere.
    pub(crate) fn is_sphere(&self, place: u32) -> bool
        requires apart { IsApart self.now }
        requires place { place < length self.now.parts.components }
        ensures { IsTrue result ↔ HasGenus (component_mesh self.now.mesh.faces self.now.parts place) 0 }
    {
        self.genera[place as usize] == 0
    }

    /// What is found of two walks of which the first begins in the component at a place, a sphere: there any two with common ends are
    /// homotopic, and no labels are wanted.
    pub(crate) fn answer_on_sphere(&self, place: u32, first: &Walk, second: &Walk) -> Option<Answer>
        requires apart { IsApart self.now }
        requires place { place < length self.now.parts.components }
        requires sphere { HasGenus (component_mesh self.now.mesh.faces self.now.parts place) 0 }
        requires there { slice_index self.now.parts.places (slice_index first.now 0) ≡ place }
        ensures { IsFoundOn self.now.mesh.faces first.now second.now result }
    {
        if !are_pair(&self.mesh.faces, &self.mesh.sides, first, second) {
            return None;
        }
        Some(Answer::Homotopic)
    }

    /// The word of a walk on a component that is a sphere, or none where this is no walk of the surface.
    pub(crate) fn word_on_sphere(&self, walk: &Walk) -> Option<Word>
        requires { IsApart self.now }
        ensures { MatchOption result (IsWalk self.now.mesh.faces walk.now → ⊥)
            (λ word. IsWalk self.now.mesh.faces walk.now × (word ≡ Turns [])) }
    {
        if !is_walk(&self.mesh.faces, &self.mesh.sides, walk) {
            return None;
        }
        Some(Word::Turns(TurnWord::new(self.alloc)))
    }
}

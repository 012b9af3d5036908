//! What is found of two walks on the component in which they lie, and a certificate made of it.
ghost use Rattle.std.specs.Prelude.{◌≡◌, ◌<◌, ℕ, List, All, length, slice_index, IfOk};
ghost use Rattle.surf_model.specs.FaceLists.{FaceList};
ghost use Rattle.surf_model.specs.Walks.{HaveCommonEnds, IsWalk};
ghost use Rattle.halfedge_map.specs.OrientedMeshes.{OrientedMesh};
ghost use Rattle.surf_model.specs.ComponentParts.{component_at};
ghost use Rattle.surf_model.specs.Submeshes.{move_of_whole_mesh, renamed_moves};
ghost use Rattle.commands.specs.Certificates.{IsShown};
ghost use Rattle.closed_surfaces.specs.SignedSurfaces.{IsComponentOf, IsPart, surface_of};
ghost use Rattle.certify_commands.specs.Findings.{IsFinding, IsOfFaces, TellsOfSome};
ghost use Rattle.surf_model.specs.Genera.{HasGenus, LiesOnSphere};

use closed_surfaces::component::{Component, Part};
use commands::Certificate;
use labellings::{Denial, GoodLabelling};
use manifold_check::Parts;
use std::alloc::{AllocError, Global};
use surf_model::{Move, MoveList};
use turn_words::Word;
use widening::widen;

/// What is found of two walks of a connected surface.
#[derive(Debug, Drop)]
pub enum Finding {
    /// Moves that lead from the first to the second.
    Moves(MoveList),
    /// Their words, which differ, under a good labelling.
    Words {
        good: GoodLabelling,
        first: Word,
        second: Word,
    },
}

impl Finding {
    /// The certificate for the mesh of which the surface is a component.
    pub fn for_mesh(self, alloc: Global, component: &Component) -> Result<Certificate, AllocError>
        requires component { (mesh : FaceList) × (v : ℕ) × IsComponentOf mesh v component.now }
        requires some { TellsOfSome (surface_of component.now) self }
        ensures { (mesh : FaceList) (first second : List ℕ) → IsComponentOf mesh (slice_index first 0) component.now
            → IsWalk mesh first → IsWalk mesh second → HaveCommonEnds first second
            → IsFinding (surface_of component.now) first second self → IfOk result (IsShown mesh first second) }
    {
        match component {
            Component::Whole(surface) => {
                // The proof reads that it is connected.
                let _ = surface.faces();
                Ok(self.into_certificate())
            }
            Component::Alone(part) => self.for_whole(alloc, part),
        }
    }

    /// The certificate where the surface is the whole mesh.
    fn into_certificate(self) -> Certificate
        ensures { (surface : OrientedMesh) (first second : List ℕ) → IsFinding surface first second self
            → (LiesOnSphere surface.mesh (slice_index first 0) → HasGenus surface.mesh 0) → IsShown surface.mesh first second result }
    {
        match self {
            Finding::Moves(list) => Certificate::Moves(list),
            Finding::Words {
                good,
                first,
                second,
            } => Certificate::Denial(Denial {
                labelling: good.into_labelling(),
                first,
                second,
            }),
        }
    }

    /// The certificate where the surface is one of several components: the faces of the moves have the
    /// names that they have in the whole, or the labelling is widened to it.
    fn for_whole(self, alloc: Global, part: &Part) -> Result<Certificate, AllocError>
        requires part { IsPart part.now }
        requires some { TellsOfSome part.now.alone self }
        ensures { (first second : List ℕ) → IsWalk part.now.whole.faces first → IsWalk part.now.whole.faces second
            → slice_index part.now.parts.places (slice_index first 0) ≡ part.now.place
            → slice_index part.now.parts.places (slice_index second 0) ≡ part.now.place
            → IsFinding part.now.alone first second self → IfOk result (IsShown part.now.whole.faces first second) }
    {
        match self {
            Finding::Moves(list) => {
                let renamed = rename(alloc, &part.parts, part.place, &list)?;
                Ok(Certificate::Moves(renamed))
            }
            Finding::Words {
                good,
                first,
                second,
            } => {
                let whole = &part.whole;
                let wide = widen(
                    alloc,
                    &whole.faces,
                    &whole.signs,
                    &part.parts,
                    part.place,
                    &good,
                )?;
                Ok(Certificate::Denial(Denial {
                    labelling: wide,
                    first,
                    second,
                }))
            }
        }
    }
}

/// A list of moves of a component, with the names that its faces have in the whole mesh.
fn rename(alloc: Global, parts: &Parts, place: u32, list: &MoveList) -> Result<MoveList, AllocError>
    requires place { place < length parts.now.components }
    requires faces { All (IsOfFaces (length (component_at parts.now place))) list.now.moves }
    ensures { IfOk result (λ renamed. renamed
        ≡ record { moves = renamed_moves (component_at parts.now place) list.now.moves; peak = list.now.peak }) }
{
    let mut renamed = MoveList::new(alloc, list.peak());
    for k in 0..list.len() {
        // The peak is declared already.
        renamed.push(rename_move(parts, place, list.at(k)), 0)?;
    }
    Ok(renamed)
}

/// A move of a component, with the name that its face has in the whole mesh.
fn rename_move(parts: &Parts, place: u32, mv: Move) -> Move
    requires place { place < length parts.now.components }
    requires face { IsOfFaces (length (component_at parts.now place)) mv }
    ensures { result ≡ move_of_whole_mesh (component_at parts.now place) mv }
{
    let mut renamed = mv;
    if let Move::Across { face, .. } = &mut renamed {
        *face = parts.name(place, *face);
    }
    renamed
}

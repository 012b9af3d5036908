//! Deciding on many pairs of walks of a surface.
ghost use Rattle.std.specs.Prelude.{◌≡◌, IfOk};
ghost use Rattle.closed_surfaces.specs.SignedSurfaces.{IsSigned};
ghost use Rattle.component_deciding.specs.PairDeciders.{mesh_of_decider};
ghost use Rattle.surf_model.specs.Edges.{IsTableOf};
ghost use Rattle.walk_translate.specs.Found.{IsFoundOn};

use crate::several::Several;
use closed_surfaces::{SignedMesh, connected};
use manifold_check::Parts;
use std::alloc::{AllocError, Global};
use surf_model::{Answer, Sides, Walk};
use walk_translate::Decider;

/// A surface of which many pairs of walks may be asked. Contracts see its mesh.
#[derive(Drop)]
pub enum PairDecider {
    /// A connected surface, which is labelled.
    Whole(Decider),
    /// Several components, each of which is labelled where it is asked about.
    Several(Several),
}

impl PairDecider {
    /// The surface that a mesh is, of which walks of so many darts are to be asked. Where there is one component alone, no face is copied.
    pub fn of(alloc: Global, mesh: SignedMesh, darts: u64) -> Result<PairDecider, AllocError>
        requires { IsSigned mesh }
        ensures { IfOk result (λ decider. mesh_of_decider decider ≡ mesh.faces) }
    {
        let parts = Parts::build(alloc, &mesh.faces, &mesh.sides)?;
        if parts.len() == 1 {
            // Its memory is for the surface.
            drop(parts);
            let surface = connected(alloc, mesh)?;
            return Ok(PairDecider::Whole(Decider::for_darts(alloc, surface, darts)?));
        }
        Ok(PairDecider::Several(Several::of(alloc, mesh, parts, darts)?))
    }

    /// The edge table of the surface.
    pub fn sides(&self) -> &Sides
        ensures { IsTableOf (mesh_of_decider self.now) result.now }
    {
        match self {
            PairDecider::Whole(decider) => decider.sides(),
            PairDecider::Several(several) => several.sides(),
        }
    }

    /// Decides whether two walks are homotopic, or tells by `None` that they are no walks of the surface with common ends.
    pub fn answer_if_pair(
        &mut self,
        first: &Walk,
        second: &Walk,
    ) -> Result<Option<Answer>, AllocError>
        ensures same { mesh_of_decider self.new ≡ mesh_of_decider self.old }
        ensures answer { IfOk result (IsFoundOn (mesh_of_decider self.old) first.now second.now) }
    {
        match self {
            PairDecider::Whole(decider) => decider.answer_if_pair(first, second),
            PairDecider::Several(several) => several.answer_if_pair(first, second),
        }
    }
}

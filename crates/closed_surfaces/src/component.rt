//! The component of a surface in which two walks lie, as a connected surface of its own.
ghost use Rattle.std.specs.Prelude.{◌≡◌, ◌<◌, length, slice_index, IsTrue, IfOk};
ghost use Rattle.surf_model.specs.FaceLists.{is_used};
ghost use Rattle.surf_model.specs.Components.{EachTwoAreJoined};
ghost use Rattle.surf_model.specs.Walks.{IsWalk};
ghost use Rattle.surf_model.specs.ComponentParts.{AreParts, component_at, component_mesh};
ghost use Rattle.surf_model.specs.Submeshes.{signs_among};
ghost use Rattle.closed_surfaces.specs.SignedSurfaces.{IsComponentOf, IsSigned, surface_of};

use crate::signed_mesh::SignedMesh;
use halfedge_map::Surface;
use manifold_check::Parts;
use std::alloc::{AllocError, Global};
use surf_model::{Sides, VertexName, Walk};

/// A component of a surface.
#[derive(Debug, Drop)]
pub enum Component {
    /// All of the surface, which is connected.
    Whole(Surface),
    /// One of several.
    Alone(Part),
}

/// One of several components.
#[derive(Debug, Drop)]
pub struct Part {
    /// Its own faces, as a surface.
    pub alone: Surface,
    /// The surface of all components.
    pub whole: SignedMesh,
    /// All components.
    pub parts: Parts,
    /// Which of them it is.
    pub place: u32,
}

impl Component {
    /// The component of a used vertex. Where there is one component alone, no face is copied.
    pub fn of(alloc: Global, mesh: SignedMesh, vertex: VertexName) -> Result<Component, AllocError>
        requires signed { IsSigned mesh }
        requires used { IsTrue (is_used mesh.faces vertex.0) }
        ensures { IfOk result (IsComponentOf mesh.faces vertex.0) }
    {
        let parts = Parts::build(alloc, &mesh.faces, &mesh.sides)?;
        if parts.len() == 1 {
            // Its memory is for the surface.
            drop(parts);
            return Ok(Component::Whole(connected(alloc, mesh)?));
        }
        let place = parts.part_of(vertex);
        let alone = surface_alone(alloc, &mesh, &parts, place)?;
        Ok(Component::Alone(Part {
            alone,
            whole: mesh,
            parts,
            place,
        }))
    }

    /// The component in which a walk lies.
    pub fn of_walk(alloc: Global, mesh: SignedMesh, walk: &Walk) -> Result<Component, AllocError>
        requires signed { IsSigned mesh }
        requires walk { IsWalk mesh.faces walk.now }
        ensures { IfOk result (IsComponentOf mesh.faces (slice_index walk.now 0)) }
    {
        Component::of(alloc, mesh, walk.at(0))
    }

    /// The component as a surface.
    pub fn surface(&self) -> &Surface
        ensures { result.now ≡ surface_of self.now }
    {
        match self {
            Component::Whole(surface) => surface,
            Component::Alone(part) => &part.alone,
        }
    }
}

/// A connected surface, whole.
pub fn connected(alloc: Global, mesh: SignedMesh) -> Result<Surface, AllocError>
    requires signed { IsSigned mesh }
    requires joined { EachTwoAreJoined mesh.faces }
    ensures { IfOk result (λ surface. surface.mesh ≡ mesh.faces) }
{
    Surface::build(alloc, mesh.faces, mesh.sides, mesh.signs)
}

/// A component by its place, as a surface of its own.
pub fn surface_alone(
    alloc: Global,
    mesh: &SignedMesh,
    parts: &Parts,
    place: u32,
) -> Result<Surface, AllocError>
    requires signed { IsSigned mesh.now }
    requires parts { AreParts mesh.now.faces parts.now }
    requires place { place < length parts.now.components }
    ensures mesh { IfOk result (λ alone. alone.mesh ≡ component_mesh mesh.now.faces parts.now place) }
    ensures signs { IfOk result (λ alone. alone.signs ≡ signs_among mesh.now.signs (component_at parts.now place)) }
{
    let faces = parts.faces(&mesh.faces, place)?;
    let sides = Sides::build(alloc, &faces)?;
    let signs = parts.signs(&mesh.signs, place)?;
    Surface::build(alloc, faces, sides, signs)
}

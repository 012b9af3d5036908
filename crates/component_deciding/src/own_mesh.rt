//! A component as a surface over its own vertices, and its walks there.
ghost use Rattle.std.specs.Prelude.{◌≡◌, ◌<◌, All, length, map, slice_index, IfOk, MatchOption, OnOk};
ghost use Rattle.surf_model.specs.Vertices.{numbers};
ghost use Rattle.surf_model.specs.Walks.{IsWalk};
ghost use Rattle.surf_model.specs.ComponentParts.{component_at, component_mesh};
ghost use Rattle.walk_translate.specs.LabelledSurfaces.{IsLabelledSurface};
ghost use Rattle.component_deciding.specs.OwnVertices.{IsApart, IsOwnWalk, own_mesh};

use crate::apart::Apart;
use crate::own_numbers::OwnNumbers;
use halfedge_map::Surface;
use std::alloc::AllocError;
use surf_model::{FaceName, Faces, Sides, VertexName, Walk};
use walk_translate::Labelled;

/// A component by its place, over its own vertices, with its labels.
pub(crate) fn own_labelled(apart: &Apart, place: u32) -> Result<Labelled, AllocError>
    requires apart { IsApart apart.now }
    requires place { place < length apart.now.parts.components }
    ensures labels { IfOk result IsLabelledSurface }
    ensures mesh { IfOk result (λ labelled. labelled.surface.mesh
        ≡ own_mesh (component_mesh apart.now.mesh.faces apart.now.parts place)) }
{
    let alone = own_surface(apart, place)?;
    Labelled::of(apart.alloc, alone, apart.keeps_spokes)
}

/// A component by its place, over its own vertices.
fn own_surface(apart: &Apart, place: u32) -> Result<Surface, AllocError>
    requires apart { IsApart apart.now }
    requires place { place < length apart.now.parts.components }
    ensures { IfOk result (λ alone. alone.mesh ≡ own_mesh (component_mesh apart.now.mesh.faces apart.now.parts place)) }
{
    let faces = own_faces(apart, place)?;
    let sides = Sides::build(apart.alloc, &faces)?;
    let signs = apart.parts.signs(&apart.mesh.signs, place)?;
    Surface::build(apart.alloc, faces, sides, signs)
}

/// The faces of a component over its own vertices.
fn own_faces(apart: &Apart, place: u32) -> Result<Faces, AllocError>
    requires apart { IsApart apart.now }
    requires place { place < length apart.now.parts.components }
    ensures { IfOk result (λ alone. alone ≡ own_mesh (component_mesh apart.now.mesh.faces apart.now.parts place)) }
{
    let own = &apart.own;
    let mut alone = Faces::new(apart.alloc, own.counts[place as usize]);
    let mut ring = Vec::new(apart.alloc);
    for face in 0..apart.parts.size(place) {
        let name = apart.parts.name(place, FaceName(face));
        renumber(own, apart.mesh.faces.ring(name), &mut ring)?;
        alone.push_slice(&ring)?;
    }
    Ok(alone)
}

/// Puts the own numbers of vertices in place of what a list holds.
fn renumber(
    own: &OwnNumbers,
    vertices: &[VertexName],
    list: &mut Vec<VertexName>,
) -> Result<(), AllocError>
    requires { All (λ v. v < length own.now.numbers.items) (numbers vertices.now) }
    ensures { OnOk result (numbers list.new.items ≡ map (slice_index own.now.numbers.items) (numbers vertices.now)) }
{
    list.clear();
    for vertex in vertices {
        list.push(VertexName(own.numbers[vertex.0 as usize]))?;
    }
    Ok(())
}

/// A walk along the own vertices of a component; none where it is no list of vertices of this component.
pub(crate) fn own_walk(apart: &Apart, place: u32, walk: &Walk) -> Result<Option<Walk>, AllocError>
    requires { IsApart apart.now }
    ensures { IfOk result (λ found. MatchOption found
        (IsWalk apart.now.mesh.faces walk.now → slice_index apart.now.parts.places (slice_index walk.now 0) ≡ place → ⊥)
        (IsOwnWalk apart.now place walk.now)) }
{
    let entries = walk.darts() + 1;
    let mut vertices = Vec::with_capacity(apart.alloc, entries as usize)?;
    for at in 0..entries {
        let vertex = walk.at(at);
        let Some(there) = apart.place_of(vertex) else {
            return Ok(None);
        };
        if there != place {
            return Ok(None);
        }
        vertices.push(VertexName(apart.own.numbers[vertex.0 as usize]))?;
    }
    Ok(Some(Walk::of(apart.alloc, &vertices)?))
}

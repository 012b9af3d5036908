//! Deciding on pairs of walks of a surface of several components.
ghost use Rattle.std.specs.Prelude.{◌≡◌, ◌<◌, length, None, IfOk, IfSome};
ghost use Rattle.closed_surfaces.specs.SignedSurfaces.{IsSigned};
ghost use Rattle.component_deciding.specs.OwnVertices.{IsApart, IsLabelledComponent, own_mesh};
ghost use Rattle.surf_model.specs.ComponentParts.{AreParts, component_mesh};
ghost use Rattle.surf_model.specs.Edges.{IsTableOf};
ghost use Rattle.walk_translate.specs.Found.{IsFoundOn};

use crate::apart::Apart;
use crate::own_mesh::{own_labelled, own_walk};
use closed_surfaces::SignedMesh;
use manifold_check::Parts;
use std::alloc::{AllocError, Global};
use std::marker::Model;
use surf_model::{Answer, Sides, VertexName, Walk};
use walk_translate::Decider;

/// A surface of several components, of which pairs of walks may be asked. Contracts see its mesh.
#[derive(Drop)]
pub struct Several {
    apart: Apart,
    /// The component of the pair before, by its place, with its labels. It is given back before another is labelled.
    last: Option<(u32, Decider)>,
}

impl Model for Several {
    ghost use Rattle.std.specs.Prelude.{IfSome};
    ghost use Rattle.component_deciding.specs.OwnVertices.{IsApart, IsLabelledComponent};
    ghost use Rattle.surf_model.specs.FaceLists.{FaceList};

    ghost Value = { FaceList };

    ghost view = { λ a. a.apart.mesh.faces };

    ghost invariant = { λ a. IsApart a.apart × IfSome a.last (IsLabelledComponent a.apart) };
}

impl Several {
    /// Numbers the vertices of each component, and finds its genus; of walks of so many darts is to be asked. Nothing is labelled yet.
    pub(crate) fn of(
        alloc: Global,
        mesh: SignedMesh,
        parts: Parts,
        darts: u64,
    ) -> Result<Several, AllocError>
        requires signed { IsSigned mesh }
        requires parts { AreParts mesh.faces parts }
        ensures { IfOk result (λ several. several ≡ mesh.faces) }
    {
        let apart = Apart::of(alloc, mesh, parts, darts)?;
        Ok(Several { apart, last: None })
    }

    /// The edge table of the surface.
    pub(crate) fn sides(&self) -> &Sides
        ensures { IsTableOf self.now result.now }
    {
        &self.apart.mesh.sides
    }

    /// Where walks from a vertex stand in the order of questions: at the place of its component, or at 0 where that is a sphere, which is
    /// not labelled, or where no face names the vertex.
    pub(crate) fn turn_of(&self, vertex: VertexName) -> u32 {
        match self.apart.place_of(vertex) {
            Some(place) if !self.apart.is_sphere(place) => place,
            _ => 0,
        }
    }

    /// Decides whether two walks are homotopic, or tells by `None` that they are no walks of the surface with common ends. Their component
    /// is labelled where it is no sphere, and the pair before lay in another.
    pub(crate) fn answer_if_pair(
        &mut self,
        first: &Walk,
        second: &Walk,
    ) -> Result<Option<Answer>, AllocError>
        ensures same { self.new ≡ self.old }
        ensures answer { IfOk result (IsFoundOn self.old first.now second.now) }
    {
        let Some(place) = self.apart.place_of(first.at(0)) else {
            return Ok(None);
        };
        if self.apart.is_sphere(place) {
            return Ok(self.apart.answer_on_sphere(place, first, second));
        }
        let Some(one) = own_walk(&self.apart, place, first)? else {
            return Ok(None);
        };
        let Some(other) = own_walk(&self.apart, place, second)? else {
            return Ok(None);
        };
        let mut decider = take_labelled(&self.apart, &mut self.last, place)?;
        let found = decider.answer_if_pair(&one, &other);
        self.last = Some((place, decider));
        found
    }
}

/// A component by its place with its labels, which are made where it is not the one that is kept. They are the caller's then.
fn take_labelled(
    apart: &Apart,
    last: &mut Option<(u32, Decider)>,
    place: u32,
) -> Result<Decider, AllocError>
    requires apart { IsApart apart.now }
    requires place { place < length apart.now.parts.components }
    requires last { IfSome last.old (IsLabelledComponent apart.now) }
    ensures taken { last.new ≡ None }
    ensures decider { IfOk result (λ decider. decider ≡ own_mesh (component_mesh apart.now.mesh.faces apart.now.parts place)) }
{
    if let Some((at, decider)) = last.take() {
        if at == place {
            return Ok(decider);
        }
        drop(decider);
    }
    let labelled = own_labelled(apart, place)?;
    Ok(Decider::of(apart.alloc, labelled))
}

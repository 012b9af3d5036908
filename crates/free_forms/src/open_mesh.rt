//! Open surfaces with a parent for each face.
ghost use Rattle.std.specs.Prelude.{◌≡◌, ◌<◌, length, IfOk, IfSome, IfNone};
ghost use Rattle.surf_model.specs.Edges.{IsTableOf};
ghost use Rattle.free_forms.specs.OpenSurfaces.{IsOpenSurface};
ghost use Rattle.free_forms.specs.Parents.{HasFaceParents, IsParentEdge, Joins, parent_of};

use crate::search::parent_places;
use std::alloc::{AllocError, Global};
use std::marker::Model;
use surf_model::{FaceName, Faces, Side, Sides, VertexName};

/// An open surface, with a parent for each face: one of its sides, so that crossing parents from any face ends at an edge of
/// one side. It is seen as the face list and the place of each face's parent.
#[derive(Debug, Drop)]
pub struct OpenMesh {
    faces: Faces,
    sides: Sides,
    /// For each face the place of its parent.
    places: Vec<u32>,
}

impl Model for OpenMesh {
    ghost use Rattle.free_forms.specs.Parents.{OpenView};
    ghost use Rattle.free_forms.specs.StoredMeshes.{IsStoredMesh};

    ghost Value = { OpenView };

    ghost view = { λ a. record { mesh = a.faces; places = a.places.items } };

    ghost invariant = { λ a. IsStoredMesh a.faces a.sides a.places.items };
}

impl OpenMesh {
    /// Finds a parent for each face, by a search from all boundary edges, breadth first. The time is that of going over the sides a
    /// few times. Where there is no memory, the face list and the table are dropped.
    pub fn build(alloc: Global, faces: Faces, sides: Sides) -> Result<OpenMesh, AllocError>
        requires table { IsTableOf faces sides }
        requires surface { IsOpenSurface faces }
        ensures mesh { IfOk result (λ surface. surface.mesh ≡ faces) }
        ensures parents { IfOk result (λ surface. HasFaceParents surface) }
    {
        let places = parent_places(alloc, &faces, &sides)?;
        Ok(OpenMesh {
            faces,
            sides,
            places,
        })
    }

    /// The parent of a face. It takes no memory.
    pub fn parent(&self, face: FaceName) -> Side
        requires { face.0 < length self.now.mesh.faces }
        ensures parent { result ≡ parent_of self.now face.0 }
        // What holds of every open mesh: crossing parents ends outside.
        ensures parents { HasFaceParents self.now }
    {
        Side {
            face,
            at: self.places[face.0 as usize],
        }
    }

    /// The face list.
    pub fn faces(&self) -> &Faces
        ensures mesh { result.now ≡ self.now.mesh }
        // What holds of every open mesh.
        ensures parents { HasFaceParents self.now }
    {
        &self.faces
    }

    /// The parent on the edge of two vertices; none where they form no parent edge.
    pub(crate) fn parent_between(&self, u: VertexName, v: VertexName) -> Option<Side>
        ensures face { IfSome result (λ side. side.face.0 < length self.now.mesh.faces) }
        ensures parent { IfSome result (λ side. side ≡ parent_of self.now side.face.0) }
        ensures joined { IfSome result (λ side. Joins self.now.mesh side u.0 v.0) }
        ensures none { IfNone result (IsParentEdge self.now u.0 v.0 → ⊥) }
        // What holds of every open mesh.
        ensures parents { HasFaceParents self.now }
    {
        let Some(edge) = self.sides.between(u, v) else {
            return None;
        };
        for k in 0..self.sides.sides_of(edge) {
            let side = self.sides.side(edge, k);
            if self.places[side.face.0 as usize] == side.at {
                return Some(side);
            }
        }
        None
    }
}

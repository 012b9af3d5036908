//! A surface as its darts.
ghost use Rattle.std.specs.Prelude.{◌≡◌, ◌<◌, IfOk};
ghost use Rattle.surf_model.specs.Edges.{IsTableOf};
ghost use Rattle.surf_model.specs.Components.{EachTwoAreJoined};
ghost use Rattle.surf_model.specs.Surfaces.{IsClosedManifold, IsCoherent};

use crate::darts::{Origins, kept_origins, next_darts, used_vertices};
use std::alloc::{AllocError, Global};
use std::marker::Model;
use surf_model::{DartName, EdgeName, FaceName, Faces, Sides, Signs, VertexName};

/// A connected orientable closed surface: a mesh, the table of its edges, and signs under which the two sides of each
/// edge run oppositely.
///
/// A dart (half-edge) is a side of a face and has its number, as sides are numbered face after face. It runs as the face
/// lists it where the face is kept, and the other way where it is flipped.
#[derive(Debug, Drop)]
pub struct Surface {
    faces: Faces,
    sides: Sides,
    signs: Signs,
    /// For each dart the one that follows in its face.
    next: Vec<DartName>,
    origins: Origins,
    /// The number of used vertices.
    vertices: u32,
}

impl Model for Surface {
    ghost use Rattle.halfedge_map.specs.OrientedMeshes.{OrientedMesh};
    ghost use Rattle.halfedge_map.specs.StoredDarts.{IsStoredSurface};

    ghost Value = { OrientedMesh };

    ghost view = { λ a. record { mesh = a.faces; table = a.sides; signs = a.signs } };

    ghost invariant = { λ a. IsStoredSurface (record { mesh = a.faces; table = a.sides; signs = a.signs })
        a.next.items a.origins a.vertices };
}

impl Surface {
    ghost use Rattle.std.specs.Prelude.{length, is_some, IfSome};
    ghost use Rattle.halfedge_map.specs.OrientedMeshes.{OrientedMesh, IsOrientedSurface};
    ghost use Rattle.halfedge_map.specs.DartMaps.{darts_of, next_of, twin_of, origin_of, face_of, edge_of, used_vertices, euler_of};
    ghost use Rattle.halfedge_map.specs.RotationSystems.{rotations_of, IsDartFrom};
    ghost use Rattle.surf_model.specs.FaceLists.{is_edge, HasFileSize};

    /// The surface of a mesh, from the table of its edges and from coherent signs of its faces. The mesh is a closed manifold, of
    /// which any two used vertices are joined by a walk.
    pub fn build(
        alloc: Global,
        faces: Faces,
        sides: Sides,
        signs: Signs,
    ) -> Result<Surface, AllocError>
        requires table { IsTableOf faces sides }
        requires closed { IsClosedManifold faces }
        requires connected { EachTwoAreJoined faces }
        requires coherent { IsCoherent faces signs }
        ensures { IfOk result (λ surface. surface ≡ record { mesh = faces; table = sides; signs = signs }) }
    {
        let next = next_darts(alloc, &faces, &signs)?;
        let origins = kept_origins(alloc, &faces, &signs)?;
        let vertices = used_vertices(&faces, &sides);
        Ok(Surface {
            faces,
            sides,
            signs,
            next,
            origins,
            vertices,
        })
    }

    /// The mesh.
    pub fn faces(&self) -> &Faces
        ensures mesh { result.now ≡ self.now.mesh }
        // What holds of every surface.
        ensures valid { IsOrientedSurface self.now }
        ensures small { HasFileSize self.now.mesh }
    {
        &self.faces
    }

    /// The table of the edges.
    pub fn sides(&self) -> &Sides
        ensures table { result.now ≡ self.now.table }
        // What holds of every surface.
        ensures valid { IsOrientedSurface self.now }
        ensures small { HasFileSize self.now.mesh }
    {
        &self.sides
    }

    /// The signs of the faces.
    pub fn signs(&self) -> &Signs
        ensures { result.now ≡ self.now.signs }
    {
        &self.signs
    }

    /// The number of darts.
    pub fn darts(&self) -> u32
        ensures count { result ≡ darts_of self.now }
        // What holds of every surface.
        ensures valid { IsOrientedSurface self.now }
        ensures small { HasFileSize self.now.mesh }
    {
        // The proof reads it there.
        let _ = &self.next;
        self.faces.total()
    }

    /// The dart that follows in its face.
    pub fn next(&self, dart: DartName) -> DartName
        requires { dart.0 < darts_of self.now }
        ensures next { result.0 ≡ next_of self.now dart.0 }
        ensures within { result.0 < darts_of self.now }
    {
        self.next[dart.0 as usize]
    }

    /// The vertex where a dart starts.
    #[inline(always)]
    pub fn origin(&self, dart: DartName) -> VertexName
        requires { dart.0 < darts_of self.now }
        ensures { result.0 ≡ origin_of self.now dart.0 }
    {
        match &self.origins {
            Origins::AsListed => self.faces.corner_at(dart),
            Origins::Stored(origin) => origin[dart.0 as usize],
        }
    }

    /// The face of a dart.
    pub fn face_of(&self, dart: DartName) -> FaceName
        requires { dart.0 < darts_of self.now }
        ensures face { result.0 ≡ face_of self.now dart.0 }
        ensures within { result.0 < length self.now.mesh.faces }
    {
        self.faces.side_at(dart).face
    }

    /// The edge of a dart.
    pub fn edge_of(&self, dart: DartName) -> EdgeName
        requires { dart.0 < darts_of self.now }
        ensures edge { result.0 ≡ edge_of self.now dart.0 }
        ensures within { result.0 < length self.now.table }
    {
        // The proof reads what holds of every surface.
        let _ = &self.next;
        self.sides.edge_of(dart)
    }

    /// A dart of an edge. The other one is its twin.
    pub fn dart_of(&self, edge: EdgeName) -> DartName
        requires { edge.0 < length self.now.table }
        ensures edge { edge_of self.now result.0 ≡ edge.0 }
        ensures within { result.0 < darts_of self.now }
        // What holds of every surface.
        ensures valid { IsOrientedSurface self.now }
    {
        // The proof reads what holds of every surface.
        let _ = &self.next;
        self.faces.dart(self.sides.side(edge, 0))
    }

    /// The other dart of the edge of a dart.
    pub fn twin(&self, dart: DartName) -> DartName
        requires { dart.0 < darts_of self.now }
        ensures twin { result.0 ≡ twin_of self.now dart.0 }
        ensures within { result.0 < darts_of self.now }
        // What holds of every surface.
        ensures small { HasFileSize self.now.mesh }
    {
        // The proof reads what holds of every surface.
        let _ = &self.next;
        self.sides.other(dart)
    }

    /// The dart from one vertex to another. Any numbers are allowed.
    pub fn dart_between(&self, u: VertexName, v: VertexName) -> Option<DartName>
        // It is there exactly where the two form an edge.
        ensures edge { is_some result ≡ is_edge self.now.mesh u.0 v.0 }
        ensures leads { IfSome result (λ dart. IsDartFrom (rotations_of self.now) u.0 v.0 dart.0) }
    {
        let edge = self.sides.between(u, v)?;
        let dart = self.dart_of(edge);
        if self.origin(dart) == u {
            Some(dart)
        } else {
            Some(self.twin(dart))
        }
    }

    /// The number of used vertices.
    pub fn vertices(&self) -> u32
        ensures { result ≡ used_vertices self.now }
    {
        self.vertices
    }

    /// The Euler characteristic: used vertices less edges plus faces.
    pub fn euler(&self) -> i64
        ensures { result ≡ euler_of self.now }
    {
        i64::from(self.vertices) - i64::from(self.sides.len()) + i64::from(self.faces.len())
    }
}

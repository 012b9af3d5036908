//! Small meshes of triangles, for the tests of the other crates. The same meshes stand in the definitions of
//! `surf_model` as `Meshes`, for worked examples.
//!
//! A caller sees one call, that makes the mesh of some triangles. Proved: the faces are the triangles in their
//! order, and a list is refused, but for want of memory, only where one of them is no face.
//!
//!     let torus = mesh_of(alloc, 7, &TORUS)?;
#![tactic(auto)]

ghost use Rattle.std.specs.Prelude.{◌≡◌, ◌⊎◌, ◌↔◌, ◌*◌, ◌≤◌, All, length, IsTrue, IfOk, IfErr};
ghost use Rattle.surf_model.specs.FaceLists.{IsFace};
ghost use Rattle.surf_model.specs.declared.limits.TheConstants.{MOST_SIDES, MOST_VERTICES};

use std::alloc::{AllocError, Global};
use surf_model::{Faces, VertexName};

/// A triangle, by its corners in order.
pub type Triangle = [u32; 3];

/// The tetrahedron.
pub const TETRAHEDRON: [Triangle; 4] = [[0, 1, 2], [0, 3, 1], [0, 2, 3], [1, 3, 2]];

/// The tetrahedron, with its last face listed the other way round.
pub const TURNED_TETRAHEDRON: [Triangle; 4] = [[0, 1, 2], [0, 3, 1], [0, 2, 3], [1, 2, 3]];

/// The torus of seven vertices.
pub const TORUS: [Triangle; 14] = [
    [0, 1, 3],
    [1, 2, 4],
    [2, 3, 5],
    [3, 4, 6],
    [4, 5, 0],
    [5, 6, 1],
    [6, 0, 2],
    [0, 3, 2],
    [1, 4, 3],
    [2, 5, 4],
    [3, 6, 5],
    [4, 0, 6],
    [5, 1, 0],
    [6, 2, 1],
];

/// A double torus: two such tori without the triangle 0 1 3, along which they hang together. The last face is listed the
/// other way round.
pub const DOUBLE_TORUS: [Triangle; 26] = [
    [1, 2, 4],
    [2, 3, 5],
    [3, 4, 6],
    [4, 5, 0],
    [5, 6, 1],
    [6, 0, 2],
    [0, 3, 2],
    [1, 4, 3],
    [2, 5, 4],
    [3, 6, 5],
    [4, 0, 6],
    [5, 1, 0],
    [6, 2, 1],
    [1, 8, 7],
    [7, 9, 3],
    [3, 10, 8],
    [8, 0, 9],
    [9, 1, 10],
    [10, 7, 0],
    [0, 7, 3],
    [1, 3, 8],
    [7, 8, 9],
    [3, 9, 10],
    [8, 10, 0],
    [9, 0, 1],
    [10, 7, 1],
];

/// The projective plane of six vertices.
pub const PROJECTIVE_PLANE: [Triangle; 10] = [
    [0, 1, 2],
    [0, 2, 3],
    [0, 3, 4],
    [0, 4, 5],
    [0, 5, 1],
    [1, 2, 4],
    [2, 3, 5],
    [3, 4, 1],
    [4, 5, 2],
    [5, 1, 3],
];

/// Why triangles make no mesh.
#[derive(Clone, Copy, Debug, PartialEq, Eq)]
pub enum TriangleFault {
    /// One of them has two equal corners, or one past the count.
    NoFace,
    /// Memory ran out.
    OutOfMemory,
}

impl From<AllocError> for TriangleFault {
    ghost use Rattle.std.specs.Prelude.{◌≡◌};
    ghost use Rattle.small_meshes.specs.declared.TriangleFault.TheVariants.{OutOfMemory};

    ghost from_gives = { λ _ fault. fault ≡ OutOfMemory };

    fn from(_error: AllocError) -> TriangleFault {
        TriangleFault::OutOfMemory
    }
}

/// The mesh of these triangles over `count` vertices.
pub fn mesh_of(alloc: Global, count: u32, triangles: &[Triangle]) -> Result<Faces, TriangleFault>
    requires few_vertices { count ≤ MOST_VERTICES }
    requires few_sides { 3 * length triangles.now ≤ MOST_SIDES }
    ensures mesh { IfOk result (λ mesh. mesh ≡ record { count = count; faces = triangles.now }) }
    ensures fault { IfErr result (λ fault. (fault ≡ TriangleFault.OutOfMemory) ⊎ (All (IsFace count) triangles.now → ⊥)) }
{
    let mut faces = Faces::new(alloc, count);
    for triangle in triangles {
        if !is_face(count, triangle) {
            return Err(TriangleFault::NoFace);
        }
        let [a, b, c] = *triangle;
        faces.push_slice(&[VertexName(a), VertexName(b), VertexName(c)])?;
    }
    Ok(faces)
}

/// Whether a triangle is a face among `count` vertices.
fn is_face(count: u32, triangle: &Triangle) -> bool
    ensures { IsTrue result ↔ IsFace count triangle.now }
{
    let [a, b, c] = *triangle;
    a < count && b < count && c < count && a != b && b != c && c != a
}

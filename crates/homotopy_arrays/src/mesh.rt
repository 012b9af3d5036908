//! Meshes that lie in arrays.
ghost use Rattle.std.specs.Prelude.{◌≡◌, ◌⊎◌, ◌+◌, ◌≤◌, ◌==◌, [], ◌∷◌, ◌++◌, length, sum, nat_lt, Some, None, Err, OnOk, IfErr};
ghost use Rattle.std.specs.List.{list_all};
ghost use Rattle.surf_model.specs.FaceLists.{total_sides};
ghost use Rattle.surf_model.specs.declared.limits.TheConstants.{MOST_VERTICES, MOST_SIDES};
ghost use Rattle.off_reader.specs.OffTexts.{has_equal_neighbours};
ghost use Rattle.homotopy_arrays.specs.MeshArrays.{array_face_fault, mesh_in_arrays};

use crate::fault::Fault;
use std::alloc::Global;
use surf_model::faces::corner_after;
use surf_model::{FaceName, Faces, FacesBuilder, MOST_SIDES, MOST_VERTICES, VertexName};

/// A mesh in arrays: how many vertices, the size of each face, and the corners of all faces, face after face.
#[derive(Clone, Copy)]
pub struct MeshArrays<'a> {
    pub vertices: u32,
    pub sizes: &'a [u32],
    pub corners: &'a [u32],
}

/// The mesh that the arrays are, or what is first wrong with them.
pub fn mesh_of_arrays(alloc: Global, mesh: MeshArrays<'_>) -> Result<Faces, Fault>
    ensures { (result ≡ mesh_in_arrays mesh.entry) ⊎ (result ≡ Err Fault.OutOfMemory) }
{
    let MeshArrays {
        vertices,
        sizes,
        corners,
    } = mesh;
    if vertices > MOST_VERTICES {
        return Err(Fault::ManyVertices);
    }
    if !add_up_to(sizes, corners.len()) {
        return Err(Fault::CornerCount);
    }
    if corners.len() > MOST_SIDES as usize {
        return Err(Fault::ManySides);
    }
    let mut faces = FacesBuilder::new(alloc, vertices);
    let mut at = 0;
    for face in 0..sizes.len() {
        let end = at + sizes[face] as usize;
        put_face(&mut faces, vertices, face as u32, &corners[at..end])?;
        at = end;
    }
    Ok(faces.finish())
}

/// Whether the sizes together are so many.
pub(crate) fn add_up_to(sizes: &[u32], wanted: usize) -> bool
    ensures { result ≡ (sum sizes.now == wanted) }
{
    let mut left = wanted;
    for size in sizes {
        if *size as usize > left {
            return false;
        }
        left -= *size as usize;
    }
    left == 0
}

/// Puts a face last, which has this number.
fn put_face(faces: &mut FacesBuilder, vertices: u32, number: u32, face: &[u32]) -> Result<(), Fault>
    requires vertices { faces.old.mesh.count ≡ vertices }
    requires none { faces.old.pending ≡ [] }
    requires room { total_sides faces.old.mesh + length face.now ≤ MOST_SIDES }
    ensures put { OnOk result (faces.new ≡ record {
      mesh = record { count = vertices; faces = faces.old.mesh.faces ++ face.now ∷ [] };
      pending = [];
    }) }
    ensures good { OnOk result (array_face_fault vertices number face.now ≡ None) }
    ensures fault { IfErr result (λ fault. (fault ≡ Fault.OutOfMemory) ⊎ (array_face_fault vertices number face.now ≡ Some fault)) }
{
    let name = FaceName(number);
    if face.len() < 3 {
        return Err(Fault::FewCorners { face: name });
    }
    if !are_below(face, vertices) {
        return Err(Fault::NoVertex { face: name });
    }
    if has_equal_neighbours(face) {
        return Err(Fault::EqualNeighbours { face: name });
    }
    for corner in face {
        faces.push(VertexName(*corner))?;
    }
    faces.close()?;
    Ok(())
}

/// Whether each corner is below the number of vertices.
fn are_below(face: &[u32], vertices: u32) -> bool
    ensures { result ≡ list_all (λ v. nat_lt v vertices) face.now }
{
    face.iter().all(|corner| *corner < vertices)
}

/// Whether two neighbours round the face are one vertex.
fn has_equal_neighbours(face: &[u32]) -> bool
    requires { length face.now ≤ MOST_SIDES }
    ensures { result ≡ has_equal_neighbours face.now }
{
    let sides = face.len() as u32;
    for corner in 0..sides {
        let next = corner_after(true, sides, corner);
        if face[corner as usize] == face[next as usize] {
            return true;
        }
    }
    false
}

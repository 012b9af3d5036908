//! Building the double, face by face.
ghost use Rattle.std.specs.Prelude.{◌≡◌, ◌⊎◌, ◌+◌, ◌<◌, ◌≤◌, ◌==◌, [], length, IfOk, IfErr, OnOk, Any, Contains};
ghost use Rattle.surf_model.specs.Darts.{IsSide, first_side, tail_of, head_of};
ghost use Rattle.surf_model.specs.Edges.{Edge, IsTableOf};
ghost use Rattle.surf_model.specs.FaceLists.{FaceList, HasFileSize, IsFace, total_sides};
ghost use Rattle.surf_model.specs.Surfaces.{sides_between};
ghost use Rattle.surf_model.specs.Vertices.{numbers};
ghost use Rattle.surf_model.specs.declared.limits.TheConstants.{MOST_VERTICES};
ghost use Rattle.doubling.specs.Building.{with_faces, with_mirrors, with_quads, with_face, HasNoRoom, EndsEarly};
ghost use Rattle.doubling.specs.DoubleFaults.{IsBeyond};
ghost use Rattle.doubling.specs.Doubles.{double_of, mirror, mirror_face};

use crate::fault::DoubleFault;
use std::alloc::Global;
use surf_model::faces::corner_after;
use surf_model::{
    FaceName, Faces, FacesBuilder, MOST_SIDES, MOST_VERTICES, Side, Sides, VertexName,
};

/// The double of a mesh, from its faces and the table of its sides. The time is that of going over the sides three times.
pub fn double(alloc: Global, faces: &Faces, sides: &Sides) -> Result<Faces, DoubleFault>
    requires { IsTableOf faces.now sides.now }
    ensures double { IfOk result (λ double. double ≡ double_of faces.now) }
    // There is none exactly where it would be larger than a mesh may be, or where there is no memory for it.
    ensures fault { IfErr result (λ fault. (fault ≡ DoubleFault.OutOfMemory) ⊎ IsBeyond faces.now fault) }
    ensures made { HasFileSize (double_of faces.now) → IfErr result (λ fault. fault ≡ DoubleFault.OutOfMemory) }
{
    if faces.count() > MOST_VERTICES / 2 {
        return Err(DoubleFault::TooManyVertices);
    }
    let mut double = FacesBuilder::new(alloc, 2 * faces.count());
    put_faces(&mut double, faces)?;
    put_mirrors(&mut double, faces)?;
    put_quads(&mut double, faces, sides)?;
    Ok(double.finish())
}

/// Puts the faces of the mesh.
fn put_faces(double: &mut FacesBuilder, faces: &Faces) -> Result<(), DoubleFault>
    requires { double.old ≡ with_faces faces.now 0 }
    ensures put { OnOk result (double.new ≡ with_mirrors faces.now 0) }
    ensures fault { IfErr result (EndsEarly faces.now) }
{
    for face in 0..faces.len() {
        put_face(double, faces.ring(FaceName(face)))?;
    }
    Ok(())
}

/// Puts the mirrors of the faces of the mesh.
fn put_mirrors(double: &mut FacesBuilder, faces: &Faces) -> Result<(), DoubleFault>
    requires { double.old ≡ with_mirrors faces.now 0 }
    ensures put { OnOk result (double.new ≡ with_quads faces.now 0) }
    ensures fault { IfErr result (EndsEarly faces.now) }
{
    for face in 0..faces.len() {
        put_mirror(double, faces.ring(FaceName(face)), faces.count())?;
    }
    Ok(())
}

/// Puts the mirror of a face of a mesh of so many vertices.
fn put_mirror(double: &mut FacesBuilder, ring: &[VertexName], count: u32) -> Result<(), DoubleFault>
    requires none { double.old.pending ≡ [] }
    requires few { count ≤ MOST_VERTICES }
    requires count { double.old.mesh.count ≡ count + count }
    requires face { IsFace count (numbers ring.now) }
    ensures put { OnOk result (double.new ≡ with_face double.old (mirror_face count (numbers ring.now))) }
    ensures fault { IfErr result (HasNoRoom (total_sides double.old.mesh + length ring.now)) }
{
    for place in 0..ring.len() {
        double.push(mirror(ring[ring.len() - 1 - place], count))?;
    }
    close_face(double)
}

/// Puts the quads of the sides on the boundary.
fn put_quads(double: &mut FacesBuilder, faces: &Faces, sides: &Sides) -> Result<(), DoubleFault>
    requires table { IsTableOf faces.now sides.now }
    requires double { double.old ≡ with_quads faces.now 0 }
    ensures put { OnOk result (double.new.mesh ≡ double_of faces.now) }
    ensures fault { IfErr result (EndsEarly faces.now) }
{
    for face in 0..faces.len() {
        put_quads_of(double, faces, sides, FaceName(face))?;
    }
    Ok(())
}

/// Puts the quads of those sides of a face that are on the boundary.
fn put_quads_of(
    double: &mut FacesBuilder,
    faces: &Faces,
    sides: &Sides,
    face: FaceName,
) -> Result<(), DoubleFault>
    requires table { IsTableOf faces.now sides.now }
    requires face { face.0 < length faces.now.faces }
    requires double { double.old ≡ with_quads faces.now (first_side faces.now face.0) }
    ensures put { OnOk result (double.new ≡ with_quads faces.now (first_side faces.now (face.0 + 1))) }
    ensures fault { IfErr result (EndsEarly faces.now) }
{
    for at in 0..faces.sides(face) {
        put_quad_of(double, faces, sides, Side { face, at })?;
    }
    Ok(())
}

/// Puts the quad of a side, if it is on the boundary.
fn put_quad_of(
    double: &mut FacesBuilder,
    faces: &Faces,
    sides: &Sides,
    side: Side,
) -> Result<(), DoubleFault>
    requires table { IsTableOf faces.now sides.now }
    requires side { IsSide faces.now side }
    requires double { double.old ≡ with_quads faces.now (first_side faces.now side.face.0 + side.at) }
    ensures put { OnOk result (double.new ≡ with_quads faces.now (first_side faces.now side.face.0 + side.at + 1)) }
    ensures fault { IfErr result (EndsEarly faces.now) }
{
    if !is_rim(sides, side) {
        return Ok(());
    }
    let count = faces.count();
    let tail = faces.corner(side.face, side.at);
    let next = corner_after(true, faces.sides(side.face), side.at);
    let head = faces.corner(side.face, next);
    put_face(
        double,
        &[head, tail, mirror(tail, count), mirror(head, count)],
    )
}

/// Whether a side is on the boundary: no other side is of its edge.
fn is_rim(sides: &Sides, side: Side) -> bool
    requires { Any (λ (edge : Edge). Contains edge.sides side) sides.now }
    ensures { (mesh : FaceList) → IsTableOf mesh sides.now
        → result ≡ (sides_between mesh (tail_of mesh side) (head_of mesh side) == 1) }
{
    sides.sides_of(sides.edge_at(side)) == 1
}

/// The mirror of a vertex.
fn mirror(vertex: VertexName, count: u32) -> VertexName
    requires vertex { vertex.0 < count }
    requires few { count ≤ MOST_VERTICES }
    ensures { result.0 ≡ mirror count vertex.0 }
{
    VertexName(vertex.0 + count)
}

/// Puts a face.
fn put_face(double: &mut FacesBuilder, ring: &[VertexName]) -> Result<(), DoubleFault>
    requires none { double.old.pending ≡ [] }
    requires face { IsFace double.old.mesh.count (numbers ring.now) }
    ensures put { OnOk result (double.new ≡ with_face double.old (numbers ring.now)) }
    ensures fault { IfErr result (HasNoRoom (total_sides double.old.mesh + length ring.now)) }
{
    for corner in ring {
        double.push(*corner)?;
    }
    close_face(double)
}

/// Closes the face whose corners were put, unless there are then more sides than a mesh may have.
pub fn close_face(double: &mut FacesBuilder) -> Result<(), DoubleFault>
    requires { IsFace double.old.mesh.count double.old.pending }
    ensures put { OnOk result (double.new ≡ with_face double.old double.old.pending) }
    ensures fault { IfErr result (HasNoRoom (total_sides double.old.mesh + length double.old.pending)) }
{
    if double.total() as usize + double.pending().len() > MOST_SIDES as usize {
        return Err(DoubleFault::TooManySides);
    }
    double.close()?;
    Ok(())
}

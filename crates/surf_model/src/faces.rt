//! Face lists: polygon meshes as lists of faces, each face the ring of its corners.
ghost use Rattle.std.specs.Prelude.{◌≡◌, ◌+◌, ◌<◌, ◌≤◌, [], ◌∷◌, ◌++◌, length, slice_index, OnOk, OnErr, IfOk};
ghost use Rattle.surf_model.specs.FaceLists.{face_at, next_corner, total_sides, IsFace, IsFaceList, HasFileSize};
ghost use Rattle.surf_model.specs.Darts.{first_side, IsSide, side_number, side_after, tail_of};
ghost use Rattle.surf_model.specs.StoredEdges.{IsNumbering};
ghost use Rattle.surf_model.specs.Vertices.{numbers};
ghost use Rattle.surf_model.specs.declared.edges.Side.{Side};
ghost use Rattle.surf_model.specs.declared.limits.TheConstants.{MOST_VERTICES, MOST_SIDES};

use crate::edges::Side;
use crate::names::{DartName, FaceName, VertexName};
use crate::parts::Parts;
use std::alloc::{AllocError, Global};
use std::marker::Model;

/// A vertex count and a list of faces, each the list of the vertices at its corners.
///
/// All corners stand in one vector, face after face, so that no face takes memory of its own.
#[derive(Debug, Drop)]
pub struct Faces {
    count: u32,
    corners: Vec<VertexName>,
    /// The places in `corners` where the faces end.
    parts: Parts,
}

impl Model for Faces {
    ghost use Rattle.surf_model.specs.FaceLists.{FaceList};
    ghost use Rattle.surf_model.specs.StoredFaces.{IsStored, stored_mesh};

    ghost Value = { FaceList };

    ghost view = { λ a. stored_mesh a.count a.parts a.corners.items };

    ghost invariant = { λ a. IsStored a.count a.parts a.corners.items };
}

impl Faces {
    /// A list of no faces over `count` vertices. It takes no memory.
    pub fn new(alloc: Global, count: u32) -> Faces
        requires { count ≤ MOST_VERTICES }
        ensures { result ≡ record { count = count; faces = [] } }
    {
        Faces {
            count,
            corners: Vec::new(alloc),
            parts: Parts::new(alloc),
        }
    }

    /// Puts a face last.
    pub fn push(&mut self, face: Vec<VertexName>) -> Result<(), AllocError>
        requires face { IsFace self.old.count (numbers face.items) }
        requires room { total_sides self.old + length face.items ≤ MOST_SIDES }
        ensures ok { OnOk result (self.new
            ≡ record { count = self.old.count; faces = self.old.faces ++ numbers face.items ∷ [] }) }
        ensures err { OnErr result (self.new ≡ self.old) }
    {
        self.push_slice(&face)
    }

    /// Puts a face last, as `push` does, from corners that the caller keeps.
    pub fn push_slice(&mut self, face: &[VertexName]) -> Result<(), AllocError>
        requires face { IsFace self.old.count (numbers face.now) }
        requires room { total_sides self.old + length face.now ≤ MOST_SIDES }
        ensures ok { OnOk result (self.new
            ≡ record { count = self.old.count; faces = self.old.faces ++ numbers face.now ∷ [] }) }
        ensures err { OnErr result (self.new ≡ self.old) }
    {
        self.corners.reserve(face.len())?;
        self.parts.push(face.len() as u32)?;
        self.corners.extend_from_slice(face).unwrap();
        Ok(())
    }

    /// The vertex count: every vertex number is below it.
    pub fn count(&self) -> u32
        ensures count { result ≡ self.now.count }
        // What holds of every face list.
        ensures valid { IsFaceList self.now }
        ensures small { HasFileSize self.now }
    {
        self.count
    }

    /// The number of faces.
    pub fn len(&self) -> u32
        ensures count { result ≡ length self.now.faces }
        // What holds of every face list.
        ensures valid { IsFaceList self.now }
        ensures small { HasFileSize self.now }
    {
        self.parts.len()
    }

    /// The number of sides of a face.
    pub fn sides(&self, face: FaceName) -> u32
        requires { face.0 < length self.now.faces }
        ensures { result ≡ length (face_at self.now face.0) }
    {
        self.parts.end(face.0) - self.parts.start(face.0)
    }

    /// The vertex at corner `t` of a face.
    pub fn corner(&self, face: FaceName, t: u32) -> VertexName
        requires face { face.0 < length self.now.faces }
        requires corner { t < length (face_at self.now face.0) }
        ensures { result.0 ≡ slice_index (face_at self.now face.0) t }
    {
        self.corners[(self.parts.start(face.0) + t) as usize]
    }

    /// The vertex where the side with a number starts, as its face lists it.
    #[inline(always)]
    pub fn corner_at(&self, dart: DartName) -> VertexName
        requires { dart.0 < total_sides self.now }
        ensures { (side : Side) → IsSide self.now side → side_number self.now side ≡ dart.0
            → result.0 ≡ tail_of self.now side }
    {
        self.corners[dart.0 as usize]
    }

    /// The vertices at the corners of a face, in order.
    pub fn ring(&self, face: FaceName) -> &[VertexName]
        requires { face.0 < length self.now.faces }
        ensures ring { numbers result.now ≡ face_at self.now face.0 }
        // What holds of every face.
        ensures polygon { IsFace self.now.count (face_at self.now face.0) }
    {
        let (start, end) = (self.parts.start(face.0), self.parts.end(face.0));
        &self.corners[start as usize..end as usize]
    }

    /// The number of sides of all faces together.
    pub fn total(&self) -> u32
        ensures { result ≡ total_sides self.now }
    {
        self.corners.len() as u32
    }

    /// The number of a face's first side, where the sides are numbered from 0 on, face after face.
    pub fn first_dart(&self, face: FaceName) -> DartName
        requires { face.0 < length self.now.faces }
        ensures { result.0 ≡ first_side self.now face.0 }
    {
        DartName(self.parts.start(face.0))
    }

    /// The number of a side.
    pub fn dart(&self, side: Side) -> DartName
        requires { IsSide self.now side }
        ensures number { result.0 ≡ side_number self.now side }
        // What holds of every side.
        ensures below { result.0 < total_sides self.now }
        // What holds of every face list.
        ensures valid { IsFaceList self.now }
    {
        DartName(self.parts.start(side.face.0) + side.at)
    }

    /// The side with a number.
    pub fn side_at(&self, dart: DartName) -> Side
        requires { dart.0 < total_sides self.now }
        ensures side { IsSide self.now result }
        ensures number { side_number self.now result ≡ dart.0 }
    {
        let face = self.parts.part_at(dart.0);
        Side {
            face: FaceName(face),
            at: dart.0 - self.parts.start(face),
        }
    }

    /// The numbers at which the sides of the faces end.
    pub(crate) fn numbering(&self) -> Result<Parts, AllocError>
        ensures numbering { IfOk result (IsNumbering self.now) }
        // What holds of every face list.
        ensures valid { IfOk result (λ _. IsFaceList self.now) }
    {
        self.parts.copy()
    }

    /// The side that follows a side in its face, where the first one follows the last.
    pub fn after(&self, side: Side) -> Side
        requires { IsSide self.now side }
        ensures after { result ≡ side_after self.now side }
        // What holds of every side.
        ensures side { IsSide self.now result }
    {
        Side {
            face: side.face,
            at: corner_after(true, self.sides(side.face), side.at),
        }
    }
}

/// A face list, and the corners so far of a face that is not yet in it.
///
/// So a reader puts the corners where they stay, and a face that it finds at fault is never in the list.
#[derive(Debug, Drop)]
pub struct FacesBuilder {
    count: u32,
    /// The corners of all faces, face after face, and then those of the face that is not yet in the list.
    corners: Vec<VertexName>,
    /// The places in `corners` where the faces of the list end.
    parts: Parts,
}

impl Model for FacesBuilder {
    ghost use Rattle.surf_model.specs.FaceLists.{PendingFace};
    ghost use Rattle.surf_model.specs.StoredFaces.{IsStoredPending, stored_pending};

    ghost Value = { PendingFace };

    ghost view = { λ a. stored_pending a.count a.parts a.corners.items };

    ghost invariant = { λ a. IsStoredPending a.count a.parts a.corners.items };
}

impl FacesBuilder {
    /// A list of no faces over `count` vertices, and no corners. It takes no memory.
    pub fn new(alloc: Global, count: u32) -> FacesBuilder
        requires { count ≤ MOST_VERTICES }
        ensures { result ≡ record { mesh = record { count = count; faces = [] }; pending = [] } }
    {
        FacesBuilder {
            count,
            corners: Vec::new(alloc),
            parts: Parts::new(alloc),
        }
    }

    /// Puts a corner last in the face that is not yet in the list.
    #[inline(always)]
    pub fn push(&mut self, corner: VertexName) -> Result<(), AllocError>
        ensures ok { OnOk result (self.new ≡ record self.old { pending = self.old.pending ++ corner.0 ∷ [] }) }
        ensures err { OnErr result (self.new ≡ self.old) }
    {
        self.corners.push(corner)?;
        Ok(())
    }

    /// The corners so far of the face that is not yet in the list.
    pub fn pending(&self) -> &[VertexName]
        ensures { numbers result.now ≡ self.now.pending }
    {
        &self.corners[self.parts.total() as usize..]
    }

    /// Puts the face with these corners last in the list. The next face has no corners yet.
    pub fn close(&mut self) -> Result<(), AllocError>
        requires face { IsFace self.old.mesh.count self.old.pending }
        requires room { total_sides self.old.mesh + length self.old.pending ≤ MOST_SIDES }
        ensures ok { OnOk result (self.new ≡ record {
          mesh = record { count = self.old.mesh.count; faces = self.old.mesh.faces ++ self.old.pending ∷ [] };
          pending = [];
        }) }
        ensures err { OnErr result (self.new ≡ self.old) }
    {
        let size = self.corners.len() - self.parts.total() as usize;
        self.parts.push(size as u32)?;
        Ok(())
    }

    /// The number of sides of all faces of the list together.
    pub fn total(&self) -> u32
        ensures { result ≡ total_sides self.now.mesh }
    {
        self.parts.total()
    }

    /// The list. The corners of a face that is not yet in it go.
    pub fn finish(self) -> Faces
        ensures { result ≡ self.mesh }
    {
        let mut corners = self.corners;
        corners.truncate(self.parts.total() as usize);
        Faces {
            count: self.count,
            corners,
            parts: self.parts,
        }
    }
}

/// The corner after corner `t` of a face of so many sides, by rising places or by falling ones, going round.
pub fn corner_after(rising: bool, sides: u32, t: u32) -> u32
    requires { t < sides }
    ensures corner { result ≡ next_corner rising sides t }
    ensures within { result < sides }
{
    match rising {
        true if t + 1 == sides => 0,
        true => t + 1,
        false if t == 0 => sides - 1,
        false => t - 1,
    }
}

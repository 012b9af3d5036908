//! What moves read of a walk that a pool keeps, and the way round a face that they write.
ghost use Rattle.std.specs.Prelude.{◌≡◌, ◌+◌, ◌-◌, ◌<◌, ◌≤◌, ◌++◌, length, take, drop, not, ◌&&◌, ◌^◌, nat_lt, nat_le, slice_index, Some};
ghost use Rattle.chain_pool.specs.Chains.{under, IsLive, list_of};
ghost use Rattle.surf_model.specs.FaceLists.{FaceList, face_at, corners_from, is_edge};
ghost use Rattle.surf_model.specs.Edges.{IsTableOf};
ghost use Rattle.surf_model.specs.Moves.{replaced, same_walk};

use chain_pool::CellName;
use segmented_pool::Pool;
use surf_model::faces::corner_after;
use surf_model::{FaceName, Faces, Sides, VertexName};

/// A place of a chain.
#[derive(Clone, Copy)]
pub struct Spot {
    pub chain: CellName,
    pub at: u32,
}

/// A way round a face: from a corner on, by rising places if `forward`, else by falling ones.
#[derive(Clone, Copy)]
pub struct Way {
    pub face: FaceName,
    pub corner: u32,
    pub forward: bool,
}

impl Way {
    /// The way from the same corner in the other direction.
    pub fn reversed(self) -> Way
        ensures { result ≡ record self { forward = not self.forward } }
    {
        Way {
            forward: !self.forward,
            ..self
        }
    }
}

/// Whether two vertices form an edge.
pub fn form_edge(sides: &Sides, u: VertexName, v: VertexName) -> bool
    ensures { (mesh : FaceList) → IsTableOf mesh sides.now → result ≡ is_edge mesh u.0 v.0 }
{
    sides.between(u, v).is_some()
}

/// The entry at a place, which becomes the chain's remembered place.
pub fn read(pool: &mut Pool, spot: Spot) -> VertexName
    requires live { IsLive pool.old spot.chain.0 }
    requires place { spot.at < length (list_of pool.old spot.chain.0) }
    ensures value { result.0 ≡ slice_index (list_of pool.old spot.chain.0) spot.at }
    ensures same { pool.new ≡ pool.old }
{
    VertexName(pool.entry(spot.chain, spot.at))
}

/// Whether the mesh has the face, the face has the corner and as many sides, and the entries read them.
pub fn is_on_face(pool: &mut Pool, spot: Spot, faces: &Faces, way: Way, taken: u32) -> bool
    requires live { IsLive pool.old spot.chain.0 }
    requires place { spot.at + taken < length (list_of pool.old spot.chain.0) }
    requires few { spot.at + taken < 2 ^ 32 }
    ensures same { pool.new ≡ pool.old }
    ensures reads { result ≡ (nat_lt way.face.0 (length faces.now.faces)
        && nat_lt way.corner (length (face_at faces.now way.face.0))
        && nat_le taken (length (face_at faces.now way.face.0))
        && same_walk (take (taken + 1) (drop spot.at (list_of pool.old spot.chain.0)))
        (corners_from (face_at faces.now way.face.0) way.forward way.corner taken)) }
{
    if faces.len() <= way.face.0 {
        return false;
    }
    let sides = faces.sides(way.face);
    way.corner < sides && taken <= sides && reads_face(pool, spot, faces, way, taken)
}

/// Whether the entries from a place on are the vertices that so many steps of a way round a face meet.
fn reads_face(pool: &mut Pool, spot: Spot, faces: &Faces, way: Way, steps: u32) -> bool
    requires live { IsLive pool.old spot.chain.0 }
    requires place { spot.at + steps < length (list_of pool.old spot.chain.0) }
    requires few { spot.at + steps < 2 ^ 32 }
    requires face { way.face.0 < length faces.now.faces }
    requires corner { way.corner < length (face_at faces.now way.face.0) }
    ensures same { pool.new ≡ pool.old }
    ensures reads { result ≡ same_walk (take (steps + 1) (drop spot.at (list_of pool.old spot.chain.0)))
        (corners_from (face_at faces.now way.face.0) way.forward way.corner steps) }
{
    let sides = faces.sides(way.face);
    let mut corner = way.corner;
    for step in 0..=steps {
        let at = spot.at + step;
        if read(pool, Spot { at, ..spot }) != faces.corner(way.face, corner) {
            return false;
        }
        corner = corner_after(way.forward, sides, corner);
    }
    true
}

/// The entries that read so many sides of a way round a face give way to the others, read from the same corner the other way.
///
/// First out, then in, so that no more cells are wanted than the longer of the two walks has. The first entry stays in its cell, and
/// so does the last one where sides go out and come in: both ways round the face begin and end alike.
pub fn replace_sides(pool: &mut Pool, spot: Spot, faces: &Faces, way: Way, taken: u32)
    requires live { IsLive pool.old spot.chain.0 }
    requires place { spot.at + taken < length (list_of pool.old spot.chain.0) }
    requires few { length (list_of pool.old spot.chain.0) + length (face_at faces.now way.face.0) < taken + 2 ^ 32 }
    requires face { way.face.0 < length faces.now.faces }
    requires corner { way.corner < length (face_at faces.now way.face.0) }
    requires sides { taken ≤ length (face_at faces.now way.face.0) }
    requires reads { take (taken + 1) (drop spot.at (list_of pool.old spot.chain.0))
        ≡ corners_from (face_at faces.now way.face.0) way.forward way.corner taken }
    requires room { length (face_at faces.now way.face.0) ≤ pool.old.spare + taken + taken }
    ensures list { under pool.new.lists spot.chain.0 ≡ Some (replaced spot.at (taken + 1)
        (corners_from (face_at faces.now way.face.0) (not way.forward) way.corner (length (face_at faces.now way.face.0) - taken))
        (list_of pool.old spot.chain.0)) }
    ensures spare { pool.new.spare + length (face_at faces.now way.face.0) ≡ pool.old.spare + taken + taken }
{
    let left = faces.sides(way.face) - taken;
    let last = taken.min(left).min(1);
    let behind = Spot {
        at: spot.at + 1,
        ..spot
    };
    pool.cut_between(spot.chain, behind.at, behind.at + taken - last);
    push_face(pool, behind, faces, way.reversed(), left - last);
}

/// Puts the vertices that so many steps of a way round a face meet, but not the one at its corner, into a chain, from a place on.
fn push_face(pool: &mut Pool, spot: Spot, faces: &Faces, way: Way, steps: u32)
    requires live { IsLive pool.old spot.chain.0 }
    requires place { spot.at ≤ length (list_of pool.old spot.chain.0) }
    requires face { way.face.0 < length faces.now.faces }
    requires corner { way.corner < length (face_at faces.now way.face.0) }
    requires room { steps ≤ pool.old.spare }
    requires few { spot.at + steps < 2 ^ 32 }
    ensures list { under pool.new.lists spot.chain.0 ≡ Some (take spot.at (list_of pool.old spot.chain.0)
        ++ drop 1 (corners_from (face_at faces.now way.face.0) way.forward way.corner steps)
        ++ drop spot.at (list_of pool.old spot.chain.0)) }
    ensures spare { pool.new.spare + steps ≡ pool.old.spare }
{
    let sides = faces.sides(way.face);
    let mut corner = way.corner;
    for step in 0..steps {
        corner = corner_after(way.forward, sides, corner);
        pool.push_after(spot.chain, spot.at + step, faces.corner(way.face, corner).0);
    }
}

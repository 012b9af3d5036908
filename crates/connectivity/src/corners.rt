//! Whether the corners at each used vertex make one ring, or one fan where the vertex is on the boundary.
ghost use Rattle.std.specs.Prelude.{◌≡◌, ◌==◌, ◌<◌, ◌^◌, ℕ, length, slice_set, IfOk, IfSome, IfNone, MatchOption, OnOk};
ghost use Rattle.surf_model.specs.FaceLists.{IsFaceList, total_sides};
ghost use Rattle.surf_model.specs.Edges.{IsTableOf};
ghost use Rattle.surf_model.specs.Darts.{IsSide, tail_of};
ghost use Rattle.surf_model.specs.Surfaces.{ArePartners};
ghost use Rattle.connectivity.specs.Joined.{NoEdgeHasThreeSides, EachVertexHasOneRing, IsLeastPinch};
ghost use Rattle.connectivity.specs.Partitions.{AreRings};
ghost use Rattle.connectivity.specs.Classes.{AreLeastMembers};
ghost use Rattle.connectivity.specs.Links.{AreCornersAcross, AreMadeJoined, AreLinks, IsFirstPinched, with_ring, link_at};

use crate::classes::Classes;
use std::alloc::{AllocError, Global};
use surf_model::{DartName, FaceName, Faces, Side, Sides, VertexName};

/// How many rings are met at a vertex.
#[derive(Clone, Copy, PartialEq, Eq)]
enum Link {
    NoRing,
    OneRing,
    Pinched,
}

impl Link {
    /// The link once a ring more is met.
    fn with_ring(self) -> Link
        ensures { result ≡ with_ring self }
    {
        match self {
            Link::NoRing => Link::OneRing,
            Link::OneRing | Link::Pinched => Link::Pinched,
        }
    }
}

/// The least used vertex at which some two corners are not joined by steps, so that they make neither one ring nor one fan; nothing
/// where there is none. The time is that of going over the sides a few times.
pub fn pinched_vertex(
    alloc: Global,
    faces: &Faces,
    sides: &Sides,
) -> Result<Option<VertexName>, AllocError>
    requires table { IsTableOf faces.now sides.now }
    requires few { NoEdgeHasThreeSides faces.now }
    ensures { IfOk result (λ found.
        MatchOption found (EachVertexHasOneRing faces.now) (λ vertex. IsLeastPinch faces.now vertex.0)) }
{
    let rings = rings(alloc, faces, sides)?;
    let links = links(alloc, faces, &rings)?;
    Ok(first_pinched(&links))
}

/// For each corner the number of the least corner in its ring.
fn rings(alloc: Global, faces: &Faces, sides: &Sides) -> Result<Vec<u32>, AllocError>
    requires table { IsTableOf faces.now sides.now }
    requires few { NoEdgeHasThreeSides faces.now }
    ensures count { IfOk result (λ rings. length rings.items ≡ total_sides faces.now) }
    ensures rings { IfOk result (λ rings. AreRings faces.now rings.items) }
    ensures least { IfOk result (λ rings. AreLeastMembers rings.items) }
{
    let mut corners = Classes::new(alloc, faces.total())?;
    for face in 0..faces.len() {
        let face = FaceName(face);
        for at in 0..faces.sides(face) {
            let side = Side { face, at };
            let dart = faces.dart(side);
            let other = sides.other(dart);
            // An edge of two sides is joined once, at the later of them, so that only the partner is looked up far away. An
            // edge of one side has itself here.
            if other.0 < dart.0 {
                join_across(&mut corners, faces, side, faces.side_at(other));
            }
        }
    }
    Ok(corners.into_least())
}

/// Joins the corners of a side with those of its partner: at each end of their edge the two that stand there.
fn join_across(corners: &mut Classes, faces: &Faces, side: Side, partner: Side)
    requires partners { ArePartners faces.now side partner }
    requires count { length corners.old ≡ total_sides faces.now }
    ensures { AreMadeJoined faces.now corners.old corners.new side partner }
{
    let (first, last, _) = corners_across(faces, side, partner);
    corners.join(faces.dart(side).0, faces.dart(first).0);
    corners.join(faces.dart(faces.after(side)).0, faces.dart(last).0);
}

/// The corners of the partner of a side, where the side starts and where it ends; and whether both sides start at one vertex.
pub fn corners_across(faces: &Faces, side: Side, partner: Side) -> (Side, Side, bool)
    requires { ArePartners faces.now side partner }
    ensures corners { AreCornersAcross faces.now side partner result.0 result.1 }
    ensures alike { result.2 ≡ (tail_of faces.now side == tail_of faces.now partner) }
    // What holds of every side.
    ensures first { IsSide faces.now result.0 }
    ensures last { IsSide faces.now result.1 }
    // What holds of every face list.
    ensures valid { IsFaceList faces.now }
{
    // The proof reads what holds of every face list.
    let _ = faces.len();
    let after = faces.after(partner);
    if faces.corner(side.face, side.at) == faces.corner(partner.face, partner.at) {
        (partner, after, true)
    } else {
        (after, partner, false)
    }
}

/// The link of each vertex. Each ring is met at its least corner.
fn links(alloc: Global, faces: &Faces, rings: &[u32]) -> Result<Vec<Link>, AllocError>
    requires count { length rings.now ≡ total_sides faces.now }
    requires rings { AreRings faces.now rings.now }
    requires least { AreLeastMembers rings.now }
    ensures links { IfOk result (λ links. AreLinks faces.now rings.now links.items) }
    ensures few { IfOk result (λ links. length links.items < 2 ^ 32) }
    // What holds of every face list.
    ensures valid { OnOk result (IsFaceList faces.now) }
{
    let mut links = vec![in alloc; Link::NoRing; faces.count() as usize]?;
    for corner in 0..faces.total() {
        if rings[corner as usize] == corner {
            let side = faces.side_at(DartName(corner));
            let vertex = faces.corner(side.face, side.at);
            add_ring(&mut links, vertex);
        }
    }
    Ok(links)
}

/// Puts a ring more to the link of a vertex.
fn add_ring(links: &mut [Link], vertex: VertexName)
    requires { vertex.0 < length links.old }
    ensures { links.new ≡ slice_set links.old vertex.0 (with_ring (link_at links.old vertex.0)) }
{
    let link = links[vertex.0 as usize];
    links[vertex.0 as usize] = link.with_ring();
}

/// The first vertex whose link is pinched.
fn first_pinched(links: &[Link]) -> Option<VertexName>
    requires { length links.now < 2 ^ 32 }
    ensures some { IfSome result (λ vertex. IsFirstPinched links.now vertex.0) }
    ensures none { IfNone result ((v : ℕ) → v < length links.now → link_at links.now v ≡ Link.Pinched → ⊥) }
{
    for (vertex, link) in links.iter().enumerate() {
        if *link == Link::Pinched {
            return Some(VertexName(vertex as u32));
        }
    }
    None
}

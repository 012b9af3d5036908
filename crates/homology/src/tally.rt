//! A tally of the edges: what the darts of walks and the sides of faces give to each.
ghost use Rattle.std.specs.Prelude.{◌≡◌, ◌≢◌, ℕ, ◌+◌, ◌<◌, ◌≤◌, ◌^◌, length, slice_set, Any, IfSome, IfNone, IfOk, pos, ◌+ℤ◌, ◌-ℤ◌, neg_ℤ, unsigned_abs};
ghost use Rattle.surf_model.specs.FaceLists.{HasFileSize};
ghost use Rattle.surf_model.specs.Edges.{IsTableOf, HasEnds, edge_in};
ghost use Rattle.surf_model.specs.Walks.{IsWalk, darts};
ghost use Rattle.homology.specs.Sums.{along, share};
ghost use Rattle.homology.specs.Chains.{boundary, count_difference};
ghost use Rattle.homology.specs.Tallies.{number_at, signed_from, GrewBy, AreNumbersWithin, AreTableNumbers, face_share, IsLeft};
ghost use Rattle.homology.specs.declared.certificate.TheConstants.{MOST_NUMBER};

use crate::walk_pair::WalkPair;
use std::alloc::{AllocError, Global};
use surf_model::{EdgeName, FaceName, Faces, Side, Sides, VertexName, Walk};

/// At each edge the count of the first walk, less that of the second.
pub fn count_differences(
    alloc: Global,
    faces: &Faces,
    sides: &Sides,
    first: &Walk,
    second: &Walk,
) -> Result<Vec<i64>, AllocError>
    requires table { IsTableOf faces.now sides.now }
    requires first { IsWalk faces.now first.now }
    requires second { IsWalk faces.now second.now }
    ensures counts { IfOk result (λ counts. AreTableNumbers sides.now counts.items (count_difference first.now second.now)) }
    // Two walks have fewer than 2^32 darts together.
    ensures room { IfOk result (λ counts. AreNumbersWithin (2 ^ 32) counts.items) }
{
    let mut counts = vec![in alloc; 0i64; sides.len() as usize]?;
    give_walks(&mut counts, faces, sides, first, second);
    Ok(counts)
}

/// Gives the darts of the first walk to the edges of a tally of zeros, and takes those of the second.
fn give_walks(counts: &mut [i64], faces: &Faces, sides: &Sides, first: &Walk, second: &Walk)
    requires table { IsTableOf faces.now sides.now }
    requires first { IsWalk faces.now first.now }
    requires second { IsWalk faces.now second.now }
    requires long { length counts.old ≡ length sides.now }
    requires zeros { (k : ℕ) → number_at counts.old k ≡ pos 0 }
    ensures counts { AreTableNumbers sides.now counts.new (count_difference first.now second.now) }
    ensures room { AreNumbersWithin (2 ^ 32) counts.new }
{
    add_walk(counts, faces, sides, first, 1);
    add_walk(counts, faces, sides, second, -1);
}

/// At each edge the count of the first walk, less that of the second, less the boundary of the numbered faces.
pub(crate) fn rest_of(
    alloc: Global,
    walks: WalkPair<'_>,
    of_face: &[i64],
) -> Result<Vec<i64>, AllocError>
    requires table { IsTableOf walks.faces.now walks.sides.now }
    requires each_face { length of_face.now ≡ length walks.faces.now.faces }
    requires small { AreNumbersWithin MOST_NUMBER of_face.now }
    ensures { IfOk result (λ rest. IsLeft walks.entry.faces.now walks.entry.sides.now (number_at of_face.now) walks.entry.first.now
        walks.entry.second.now rest.items) }
{
    let mut rest = count_differences(alloc, walks.faces, walks.sides, walks.first, walks.second)?;
    take_faces(&mut rest, walks.faces, walks.sides, of_face);
    Ok(rest)
}

/// The first edge whose tally is not 0.
pub fn first_nonzero(tally: &[i64], sides: &Sides) -> Option<EdgeName>
    requires { length tally.now ≡ length sides.now }
    ensures found { IfSome result (λ edge. edge.0 < length sides.now) }
    ensures nonzero { IfSome result (λ edge. number_at tally.now edge.0 ≢ pos 0) }
    ensures before { IfSome result (λ edge. (k : ℕ) → k < edge.0 → number_at tally.now k ≡ pos 0) }
    ensures none { IfNone result ((k : ℕ) → k < length sides.now → number_at tally.now k ≡ pos 0) }
{
    for edge in 0..sides.len() {
        if tally[edge as usize] != 0 {
            return Some(EdgeName(edge));
        }
    }
    None
}

/// Gives the darts of a walk to their edges, each dart so much.
fn add_walk(tally: &mut [i64], faces: &Faces, sides: &Sides, walk: &Walk, amount: i64)
    requires table { IsTableOf faces.now sides.now }
    requires walk { IsWalk faces.now walk.now }
    requires long { length tally.old ≡ length sides.now }
    requires small { unsigned_abs amount ≤ 1 }
    requires room { AreNumbersWithin (2 ^ 32) tally.old }
    ensures grew { GrewBy sides.now (λ low high. along (share amount low high) walk.now) tally.old tally.new }
    // A walk has fewer than 2^31 darts.
    ensures size { (bound : ℕ) → AreNumbersWithin bound tally.old → AreNumbersWithin (bound + 2 ^ 31) tally.new }
{
    for dart in 0..walk.darts() {
        let from = walk.at(dart);
        let edge = edge_between(sides, from, walk.at(dart + 1));
        add_dart(tally, sides, edge, from, amount);
    }
}

/// The number of a dart along an edge: that of the edge, with a minus sign where the dart does not start at its lower vertex.
pub fn number_of_dart(sides: &Sides, of_edge: &[i64], edge: EdgeName, from: VertexName) -> i64
    requires edge { edge.0 < length sides.now }
    requires long { length of_edge.now ≡ length sides.now }
    requires small { AreNumbersWithin MOST_NUMBER of_edge.now }
    ensures number { result ≡ signed_from (number_at of_edge.now edge.0) (edge_in sides.now edge.0) from.0 }
    ensures small { unsigned_abs result ≤ MOST_NUMBER }
{
    let number = of_edge[edge.0 as usize];
    let (low, _) = sides.ends(edge);
    if from == low { number } else { -number }
}

/// The edge of a dart.
pub(crate) fn edge_between(sides: &Sides, from: VertexName, to: VertexName) -> EdgeName
    requires { Any (HasEnds from.0 to.0) sides.now }
    ensures found { result.0 < length sides.now }
    ensures ends { HasEnds from.0 to.0 (edge_in sides.now result.0) }
{
    sides.between(from, to).unwrap()
}

/// Takes the sides of all faces from their edges, for each side the number of its face.
pub fn take_faces(tally: &mut [i64], faces: &Faces, sides: &Sides, of_face: &[i64])
    requires table { IsTableOf faces.now sides.now }
    requires long { length tally.old ≡ length sides.now }
    requires each_face { length of_face.now ≡ length faces.now.faces }
    requires small { AreNumbersWithin MOST_NUMBER of_face.now }
    requires room { AreNumbersWithin (2 ^ 33) tally.old }
    ensures { GrewBy sides.now (λ low high. neg_ℤ (boundary faces.now (number_at of_face.now) low high)) tally.old tally.new }
{
    for face in 0..faces.len() {
        add_face(tally, faces, sides, FaceName(face), -of_face[face as usize]);
    }
}

/// Gives the sides of a face to their edges, each side so much.
fn add_face(tally: &mut [i64], faces: &Faces, sides: &Sides, face: FaceName, amount: i64)
    requires table { IsTableOf faces.now sides.now }
    requires few { HasFileSize faces.now }
    requires face { face.0 < length faces.now.faces }
    requires long { length tally.old ≡ length sides.now }
    requires small { unsigned_abs amount ≤ MOST_NUMBER }
    requires room { AreNumbersWithin (2 ^ 60) tally.old }
    ensures { GrewBy sides.now (face_share faces.now amount face.0) tally.old tally.new }
{
    for at in 0..faces.sides(face) {
        let edge = sides.edge_at(Side { face, at });
        add_dart(tally, sides, edge, faces.corner(face, at), amount);
    }
}

/// Gives a dart to its edge: the amount where the dart starts at the edge's lower vertex, and else minus the amount.
pub fn add_dart(tally: &mut [i64], sides: &Sides, edge: EdgeName, from: VertexName, amount: i64)
    requires edge { edge.0 < length sides.now }
    requires long { length tally.old ≡ length sides.now }
    requires room { unsigned_abs (number_at tally.old edge.0) + unsigned_abs amount < 2 ^ 62 }
    ensures { tally.new
        ≡ slice_set tally.old edge.0 (number_at tally.old edge.0 +ℤ signed_from amount (edge_in sides.now edge.0) from.0) }
{
    let (low, _) = sides.ends(edge);
    let entry = &mut tally[edge.0 as usize];
    if from == low {
        *entry += amount;
    } else {
        *entry -= amount;
    }
}

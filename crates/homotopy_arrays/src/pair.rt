//! Two walks that lie in arrays.
ghost use Rattle.std.specs.Prelude.{◌≡◌, ◌≤◌, ◌<◌, length, sum, IfOk, Some};
ghost use Rattle.surf_model.specs.FaceLists.{FaceList};
ghost use Rattle.surf_model.specs.Edges.{IsTableOf};
ghost use Rattle.homotopy_arrays.specs.CheckedPairs.{AreCheckedLoops, AreListed, IsChecked};
ghost use Rattle.homotopy_arrays.specs.Pairs.{AreWalks, are_pairs, length_fault, walk_in_arrays, two_walks_fault};

use crate::mesh::add_up_to;
use compact_surfaces::CompactSurface;
use std::alloc::{AllocError, Global};
use surf_model::{Sides, VertexName, Walk};
use walk_files::{LoopFault, PairFault, WalkList, check_loops, check_pair};

/// The most vertices of a walk.
pub const MOST_WALK: usize = 1 << 31;

/// What is first wrong with two lists of vertices that are not the walks of a mesh that a question is about. Walks are counted from 1.
#[derive(Clone, Copy, Debug, PartialEq, Eq)]
pub enum WalkFault {
    /// The walk has no vertex.
    Empty { walk: u32 },
    /// The walk has more vertices than a walk may have.
    Long { walk: u32 },
    /// The walks are no walks of the mesh, or have no common ends.
    Pair(PairFault),
    /// The walks are no closed walks of the mesh.
    Loops(LoopFault),
}

/// Two walks that were compared with a mesh.
#[derive(Debug, Drop)]
pub(crate) enum Checked {
    /// They are the two walks that were asked for.
    Pair(WalkList),
    /// What is first wrong with them.
    Faulty(WalkFault),
}

/// Compares two walks with the mesh that has this table.
pub(crate) fn check_walks(
    alloc: Global,
    sides: &Sides,
    first: &[u32],
    second: &[u32],
) -> Result<Checked, AllocError>
    ensures { IfOk result (λ checked. (mesh : FaceList) → IsTableOf mesh sides.now → IsChecked mesh first.now second.now checked) }
{
    let pair = match lists_of(alloc, first, second)? {
        Checked::Pair(pair) => pair,
        Checked::Faulty(fault) => return Ok(Checked::Faulty(fault)),
    };
    match check_pair(sides, &pair) {
        Ok(()) => Ok(Checked::Pair(pair)),
        Err(fault) => Ok(Checked::Faulty(WalkFault::Pair(fault))),
    }
}

/// The same of two closed walks, which need have no vertex in common.
pub(crate) fn check_closed(
    alloc: Global,
    sides: &Sides,
    first: &[u32],
    second: &[u32],
) -> Result<Checked, AllocError>
    ensures { IfOk result (λ checked. (mesh : FaceList) → IsTableOf mesh sides.now → AreCheckedLoops mesh first.now second.now checked) }
{
    let pair = match lists_of(alloc, first, second)? {
        Checked::Pair(pair) => pair,
        Checked::Faulty(fault) => return Ok(Checked::Faulty(fault)),
    };
    match check_loops(sides, &pair) {
        Ok(()) => Ok(Checked::Pair(pair)),
        Err(fault) => Ok(Checked::Faulty(WalkFault::Loops(fault))),
    }
}

/// Two lists of vertices, where neither has none or too many.
fn lists_of(alloc: Global, first: &[u32], second: &[u32]) -> Result<Checked, AllocError>
    ensures { IfOk result (AreListed first.now second.now) }
{
    if let Some(fault) = length_fault(1, first) {
        return Ok(Checked::Faulty(fault));
    }
    if let Some(fault) = length_fault(2, second) {
        return Ok(Checked::Faulty(fault));
    }
    let one = walk_of(alloc, first)?;
    let other = walk_of(alloc, second)?;
    Ok(Checked::Pair(WalkList::pair(alloc, one, other)?))
}

/// What is first wrong with two lists that are no two walks of a surface with common ends.
pub(crate) fn fault_of(
    alloc: Global,
    surface: &CompactSurface,
    first: &[u32],
    second: &[u32],
) -> Result<WalkFault, AllocError>
    requires { AreWalks surface.now first.now second.now → ⊥ }
    ensures { IfOk result (λ fault. two_walks_fault surface.now first.now second.now ≡ Some fault) }
{
    match check_walks(alloc, surface.sides(), first, second)? {
        Checked::Faulty(fault) => Ok(fault),
        Checked::Pair(_) => unreachable!(),
    }
}

/// Whether the walk with this number has no vertex, or too many.
pub(crate) fn length_fault(walk: u32, vertices: &[u32]) -> Option<WalkFault>
    ensures { result ≡ length_fault walk vertices.now }
{
    if vertices.is_empty() {
        Some(WalkFault::Empty { walk })
    } else if vertices.len() > MOST_WALK {
        Some(WalkFault::Long { walk })
    } else {
        None
    }
}

/// The walk along these vertices.
pub(crate) fn walk_of(alloc: Global, vertices: &[u32]) -> Result<Walk, AllocError>
    requires some { 0 < length vertices.now }
    requires few { length vertices.now ≤ MOST_WALK }
    ensures { IfOk result (λ walk. walk ≡ vertices.now) }
{
    let mut walk = Walk::new(alloc, VertexName(vertices[0]))?;
    for place in 1..vertices.len() {
        walk.push(VertexName(vertices[place]))?;
    }
    Ok(walk)
}

/// Whether the sizes are those of two walks for each pair, and together are the number of the vertices.
pub(crate) fn are_pairs(sizes: &[u32], vertices: &[u32]) -> bool
    ensures { result ≡ are_pairs sizes.now vertices.now }
{
    add_up_to(sizes, vertices.len()) && sizes.len() % 2 == 0
}

/// The vertices of the walk at a place.
pub(crate) fn slice_at<'a>(sizes: &[u32], vertices: &'a [u32], place: usize) -> &'a [u32]
    requires sizes { sum sizes.now ≡ length vertices.now }
    requires place { place < length sizes.now }
    ensures { result.now ≡ walk_in_arrays sizes.now vertices.now place }
{
    let mut at = 0;
    for before in 0..place {
        at += sizes[before] as usize;
    }
    let end = at + sizes[place] as usize;
    &vertices[at..end]
}

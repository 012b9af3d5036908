//! The heights of faces: what is counted on the way up from each to the root.
ghost use Rattle.std.specs.Prelude.{◌≡◌, ℕ, ◌<◌, ◌≤◌, ◌^◌, true, None, [], length, OnOk, IfOk, Some, is_some, unsigned_abs, ℤ};
ghost use Rattle.surf_model.specs.declared.names.DartName.{DartName};
ghost use Rattle.halfedge_map.specs.DartMaps.{darts_of};
ghost use Rattle.halfedge_map.specs.OrientedMeshes.{IsOrientedSurface};
ghost use Rattle.homology.specs.Tallies.{number_at, AreNumbersWithin};
ghost use Rattle.homology.specs.declared.certificate.TheConstants.{MOST_NUMBER};
ghost use Rattle.homology_deciding.specs.FaceTrees.{IsTree, IsWayUp};
ghost use Rattle.homology_deciding.specs.Heights.{signed_dart_count, height_of, listed, AreHeights, EndsAtHeight};

use crate::face_tree::FaceTree;
use halfedge_map::Surface;
use homology::tally::number_of_dart;
use std::alloc::{AllocError, Global};
use surf_model::{DartName, FaceName};

/// The height of each face.
pub(crate) fn heights_of(
    alloc: Global,
    tree: &FaceTree<'_>,
    counts: &[i64],
) -> Result<Vec<Option<i64>>, AllocError>
    requires tree { IsTree tree.now }
    requires counts { length counts.now ≡ length tree.now.surface.now.table }
    requires small { AreNumbersWithin MOST_NUMBER counts.now }
    ensures heights { IfOk result (λ heights. AreHeights tree.now counts.now heights.items) }
    ensures all { IfOk result (λ heights.
        (f : ℕ) → f < length tree.now.surface.now.mesh.faces → is_some (height_of heights.items f) ≡ true) }
{
    let mut heights = vec![in alloc; None; tree.surface.faces().len() as usize]?;
    settle_all(alloc, &mut heights, tree, counts)?;
    Ok(heights)
}

/// Finds the height of each face, where none is known.
fn settle_all(
    alloc: Global,
    heights: &mut [Option<i64>],
    tree: &FaceTree<'_>,
    counts: &[i64],
) -> Result<(), AllocError>
    requires tree { IsTree tree.now }
    requires counts { length counts.now ≡ length tree.now.surface.now.table }
    requires small { AreNumbersWithin MOST_NUMBER counts.now }
    requires long { length heights.old ≡ length tree.now.surface.now.mesh.faces }
    requires none { (f : ℕ) → height_of heights.old f ≡ None }
    ensures heights { OnOk result (AreHeights tree.now counts.now heights.new) }
    ensures all { OnOk result ((f : ℕ) → f < length tree.now.surface.now.mesh.faces → is_some (height_of heights.new f) ≡ true) }
{
    heights[tree.split.root_face().0 as usize] = Some(0);
    let mut way = Vec::new(alloc);
    for face in 0..tree.surface.faces().len() {
        climb(&mut way, heights, tree, FaceName(face))?;
        settle(heights, &mut way, tree, counts);
    }
    Ok(())
}

/// Goes up from a face to the first whose height is known, and keeps the darts of the way.
fn climb(
    way: &mut Vec<DartName>,
    heights: &[Option<i64>],
    tree: &FaceTree<'_>,
    face: FaceName,
) -> Result<(), AllocError>
    requires tree { IsTree tree.now }
    requires face { face.0 < length tree.now.surface.now.mesh.faces }
    requires empty { way.old.items ≡ [] }
    requires long { length heights.now ≡ length tree.now.surface.now.mesh.faces }
    requires root { is_some (height_of heights.now tree.now.split.now.root_face) ≡ true }
    ensures { OnOk result (EndsAtHeight tree.now heights.now face.0 way.new.items) }
{
    let mut at = face;
    // A way up passes each face once at most.
    for _step in 0..tree.surface.faces().len() {
        if heights[at.0 as usize].is_some() {
            return Ok(());
        }
        let Some(up) = tree.up(at) else {
            return Ok(());
        };
        way.push(up)?;
        at = tree.above(up);
    }
    Ok(())
}

/// Finds the heights of the faces on a way, from its upper end down.
fn settle(heights: &mut [Option<i64>], way: &mut Vec<DartName>, tree: &FaceTree<'_>, counts: &[i64])
    requires tree { IsTree tree.now }
    requires counts { length counts.now ≡ length tree.now.surface.now.table }
    requires small { AreNumbersWithin MOST_NUMBER counts.now }
    requires heights { AreHeights tree.now counts.now heights.old }
    requires way { (f : ℕ) × EndsAtHeight tree.now heights.old f way.old.items }
    ensures heights { AreHeights tree.now counts.now heights.new }
    ensures kept { (f : ℕ) → is_some (height_of heights.old f) ≡ true → is_some (height_of heights.new f) ≡ true }
    ensures found { (f : ℕ) → EndsAtHeight tree.now heights.old f way.old.items → is_some (height_of heights.new f) ≡ true }
    ensures empty { way.new.items ≡ [] }
{
    while let Some(up) = way.pop() {
        if let Some(height) = heights[tree.above(up).0 as usize] {
            let face = tree.surface.face_of(up);
            heights[face.0 as usize] = Some(height + count_at(tree.surface, counts, up));
        }
    }
}

/// What is counted at a dart.
fn count_at(surface: &Surface, counts: &[i64], dart: DartName) -> i64
    requires dart { dart.0 < darts_of surface.now }
    requires counts { length counts.now ≡ length surface.now.table }
    requires small { AreNumbersWithin MOST_NUMBER counts.now }
    ensures count { result ≡ signed_dart_count surface.now counts.now dart.0 }
    ensures small { unsigned_abs result ≤ MOST_NUMBER }
{
    number_of_dart(
        surface.sides(),
        counts,
        surface.edge_of(dart),
        surface.origin(dart),
    )
}

/// The heights as numbers of the faces that are listed: with a minus sign where a face is flipped.
pub(crate) fn as_listed(
    alloc: Global,
    tree: &FaceTree<'_>,
    heights: &[Option<i64>],
) -> Result<Vec<i64>, AllocError>
    requires tree { IsTree tree.now }
    requires each_face { length heights.now ≡ length tree.now.surface.now.mesh.faces }
    requires small { (f : ℕ) (height : ℤ) → height_of heights.now f ≡ Some height → unsigned_abs height < 2 ^ 63 }
    ensures each_face { IfOk result (λ numbers. length numbers.items ≡ length tree.now.surface.now.mesh.faces) }
    ensures numbers { IfOk result (λ numbers. (f : ℕ) (height : ℤ) → height_of heights.now f ≡ Some height
        → number_at numbers.items f ≡ listed tree.now.surface.now f height) }
{
    let mut numbers = Vec::with_capacity(alloc, heights.len())?;
    for face in 0..tree.surface.faces().len() {
        let height = heights[face as usize].unwrap_or(0);
        numbers.push(as_face_listed(tree, FaceName(face), height))?;
    }
    Ok(numbers)
}

/// A height as a number of its face as it is listed.
fn as_face_listed(tree: &FaceTree<'_>, face: FaceName, height: i64) -> i64
    requires tree { IsTree tree.now }
    requires face { face.0 < length tree.now.surface.now.mesh.faces }
    requires small { unsigned_abs height < 2 ^ 63 }
    ensures { result ≡ listed tree.now.surface.now face.0 height }
{
    if tree.surface.signs().flipped(face) {
        -height
    } else {
        height
    }
}

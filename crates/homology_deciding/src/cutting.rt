//! The cocycle of a closed way across faces.
ghost use Rattle.std.specs.Prelude.{◌≡◌, ℕ, ◌+◌, ◌<◌, ◌≤◌, ◌^◌, List, length, IfOk, unsigned_abs, pos, ◌+ℤ◌};
ghost use Rattle.surf_model.specs.declared.names.DartName.{DartName};
ghost use Rattle.halfedge_map.specs.DartMaps.{darts_of};
ghost use Rattle.homology.specs.Tallies.{number_at, AreNumbersWithin, AreTableNumbers, GrewBy};
ghost use Rattle.homology_deciding.specs.FaceTrees.{IsTree, IsWayUp, dart_share, way_share};
ghost use Rattle.homology_deciding.specs.Cuts.{IsCutAt};

use crate::face_tree::FaceTree;
use homology::tally::add_dart;
use std::alloc::{AllocError, Global};
use surf_model::{DartName, FaceName};

/// The numbers of the edges that a closed way crosses: across the edge of a dart, then up to the root, and down again to the
/// dart's face.
pub(crate) fn cut(
    alloc: Global,
    tree: &FaceTree<'_>,
    dart: DartName,
) -> Result<Vec<i64>, AllocError>
    requires tree { IsTree tree.now }
    requires dart { dart.0 < darts_of tree.now.surface.now }
    ensures cut { IfOk result (λ numbers. IsCutAt tree.now dart.0 numbers.items) }
    ensures few { IfOk result (λ numbers. length numbers.items < 2 ^ 32) }
{
    let edges = tree.surface.sides().len() as usize;
    let mut numbers = vec![in alloc; 0i64; edges]?;
    cross_all(&mut numbers, tree, dart);
    Ok(numbers)
}

/// Gives the darts of that way to the edges of a tally of zeros.
fn cross_all(numbers: &mut [i64], tree: &FaceTree<'_>, dart: DartName)
    requires tree { IsTree tree.now }
    requires dart { dart.0 < darts_of tree.now.surface.now }
    requires long { length numbers.old ≡ length tree.now.surface.now.table }
    requires zeros { (k : ℕ) → number_at numbers.old k ≡ pos 0 }
    ensures { IsCutAt tree.now dart.0 numbers.new }
{
    cross(numbers, tree, dart, 1);
    cross_up(numbers, tree, tree.above(dart), 1);
    cross_up(numbers, tree, tree.surface.face_of(dart), -1);
}

/// Gives the darts of the way up from a face to the root to their edges, each dart so much.
fn cross_up(numbers: &mut [i64], tree: &FaceTree<'_>, face: FaceName, amount: i64)
    requires tree { IsTree tree.now }
    requires face { face.0 < length tree.now.surface.now.mesh.faces }
    requires long { length numbers.old ≡ length tree.now.surface.now.table }
    requires small { unsigned_abs amount ≤ 1 }
    requires room { AreNumbersWithin (2 ^ 32) numbers.old }
    ensures way { (way : List DartName) × IsWayUp tree.now.surface.now tree.now.split.now face.0 way tree.now.split.now.root_face
        × GrewBy tree.now.surface.now.table (way_share tree.now.surface.now amount way) numbers.old numbers.new }
    ensures size { (bound : ℕ) → AreNumbersWithin bound numbers.old → AreNumbersWithin (bound + 1) numbers.new }
{
    let mut at = face;
    // A way up passes each face once at most.
    for _step in 0..tree.surface.faces().len() {
        let Some(up) = tree.up(at) else {
            return;
        };
        cross(numbers, tree, up, amount);
        at = tree.above(up);
    }
}

/// Gives a dart to its edge: the amount where it starts at the edge's lower vertex, and else minus the amount.
fn cross(numbers: &mut [i64], tree: &FaceTree<'_>, dart: DartName, amount: i64)
    requires tree { IsTree tree.now }
    requires dart { dart.0 < darts_of tree.now.surface.now }
    requires long { length numbers.old ≡ length tree.now.surface.now.table }
    requires small { unsigned_abs amount ≤ 1 }
    requires room { AreNumbersWithin (2 ^ 33) numbers.old }
    ensures { GrewBy tree.now.surface.now.table (dart_share tree.now.surface.now amount dart.0) numbers.old numbers.new }
{
    let surface = tree.surface;
    let edge = surface.edge_of(dart);
    add_dart(numbers, surface.sides(), edge, surface.origin(dart), amount);
}

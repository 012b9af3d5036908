//! Meshes whose faces are listed coherently as they stand.
ghost use Rattle.std.specs.Prelude.{◌≡◌, true, false};
ghost use Rattle.surf_model.specs.FaceLists.{IsFaceList};
ghost use Rattle.surf_model.specs.Edges.{IsTableOf};
ghost use Rattle.orientation.specs.Classes.{EachEdgeHasAtMostTwoSides};
ghost use Rattle.orientation.specs.Trees.{AreListedCoherently};

use crate::across::run_alike;
use surf_model::{FaceName, Faces, Side, Sides};

/// Whether the two sides of every edge that has two run oppositely, as their faces list them.
pub(crate) fn are_listed_coherently(faces: &Faces, sides: &Sides) -> bool
    requires table { IsTableOf faces.now sides.now }
    requires two { EachEdgeHasAtMostTwoSides faces.now }
    ensures coherent { result ≡ true → AreListedCoherently faces.now }
    ensures torn { result ≡ false → AreListedCoherently faces.now → ⊥ }
    // What holds of every face list.
    ensures valid { IsFaceList faces.now }
{
    for face in 0..faces.len() {
        let face = FaceName(face);
        for at in 0..faces.sides(face) {
            let side = Side { face, at };
            let dart = faces.dart(side);
            let other = sides.other(dart);
            // Each edge is looked at once, at the later of its two sides, so that only the partner lies far away.
            if other.0 < dart.0 && run_alike(faces, side, faces.side_at(other)) {
                return false;
            }
        }
    }
    true
}

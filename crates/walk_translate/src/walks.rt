//! Whether lists of vertices are walks of a mesh with common ends.
ghost use Rattle.std.specs.Prelude.{◌↔◌, IsTrue};
ghost use Rattle.surf_model.specs.Edges.{IsTableOf};
ghost use Rattle.surf_model.specs.Walks.{AreWalkPair, IsWalk, HaveCommonEnds};

use surf_model::{Faces, Sides, Walk};

/// Whether two lists of vertices are walks of the mesh with common ends.
pub fn are_pair(faces: &Faces, sides: &Sides, first: &Walk, second: &Walk) -> bool
    requires { IsTableOf faces.now sides.now }
    ensures { IsTrue result ↔ AreWalkPair faces.now first.now second.now }
{
    is_walk(faces, sides, first) && is_walk(faces, sides, second) && have_common_ends(first, second)
}

/// Whether the vertices are a walk of the mesh.
pub fn is_walk(faces: &Faces, sides: &Sides, walk: &Walk) -> bool
    requires { IsTableOf faces.now sides.now }
    ensures { IsTrue result ↔ IsWalk faces.now walk.now }
{
    if !sides.used(walk.at(0)) {
        return false;
    }
    for dart in 0..walk.darts() {
        if sides.between(walk.at(dart), walk.at(dart + 1)).is_none() {
            return false;
        }
    }
    true
}

/// Whether two walks start together and end together.
pub fn have_common_ends(first: &Walk, second: &Walk) -> bool
    ensures { IsTrue result ↔ HaveCommonEnds first.now second.now }
{
    first.at(0) == second.at(0) && first.at(first.darts()) == second.at(second.darts())
}

//! Lifts of walks to the cover.
ghost use Rattle.std.specs.Prelude.{◌≡◌, IfOk, IsTrue};
ghost use Rattle.surf_model.specs.Edges.{IsTableOf};
ghost use Rattle.surf_model.specs.Darts.{IsSide, side_after};
ghost use Rattle.surf_model.specs.FaceLists.{is_edge};
ghost use Rattle.surf_model.specs.Walks.{IsWalk};
ghost use Rattle.orientation_cover.specs.Ways.{AreWays, told_by};
ghost use Rattle.orientation_cover.specs.Turns.{IsSideBetween, lift_by, turns_by};

use crate::sheets::{differ, over};
use crate::ways::WaysRound;
use std::alloc::{AllocError, Global};
use surf_model::{Faces, Side, Sides, VertexName, Walk};

/// The lift of a walk that begins on the lower sheet of the cover by ways round the vertices.
pub fn lift(
    alloc: Global,
    faces: &Faces,
    sides: &Sides,
    ways: &WaysRound,
    walk: &Walk,
) -> Result<Walk, AllocError>
    requires table { IsTableOf faces.now sides.now }
    requires ways { AreWays faces.now ways.now }
    requires walk { IsWalk faces.now walk.now }
    ensures { IfOk result (λ lift. lift ≡ lift_by faces.now ways.now walk.now) }
{
    let mut upper = false;
    let mut lift = Walk::new(alloc, walk.at(0))?;
    for place in 0..walk.darts() {
        let (from, to) = (walk.at(place), walk.at(place + 1));
        upper = differ(turns(faces, sides, ways, from, to), upper);
        lift.push(VertexName(over(faces.count(), upper, to.0)))?;
    }
    Ok(lift)
}

/// Whether an edge turns, by its ends.
fn turns(faces: &Faces, sides: &Sides, ways: &WaysRound, from: VertexName, to: VertexName) -> bool
    requires table { IsTableOf faces.now sides.now }
    requires ways { AreWays faces.now ways.now }
    requires edge { IsTrue (is_edge faces.now from.0 to.0) }
    ensures { result ≡ turns_by faces.now (told_by faces.now ways.now) from.0 to.0 }
{
    // The proof reads what holds of every face list.
    let _ = faces.len();
    let (corner, next) = corners_between(faces, sides, from, to);
    differ(ways.against(faces, corner), ways.against(faces, next))
}

/// The corners at the two ends of a side between two vertices.
fn corners_between(faces: &Faces, sides: &Sides, from: VertexName, to: VertexName) -> (Side, Side)
    requires table { IsTableOf faces.now sides.now }
    requires edge { IsTrue (is_edge faces.now from.0 to.0) }
    ensures side { IsSideBetween faces.now from.0 to.0 result.0 }
    ensures next { result.1 ≡ side_after faces.now result.0 }
    ensures corner { IsSide faces.now result.1 }
{
    let edge = sides.between(from, to).unwrap();
    let side = sides.side(edge, 0);
    (side, faces.after(side))
}

//! What lies on the other side of an edge.
ghost use Rattle.std.specs.Prelude.{◌≡◌, ◌<◌, ◌↔◌, IsTrue};
ghost use Rattle.surf_model.specs.Darts.{IsSide};
ghost use Rattle.surf_model.specs.Edges.{IsTableOf};
ghost use Rattle.surf_model.specs.Surfaces.{ArePartners};
ghost use Rattle.orientation.specs.Classes.{EachEdgeHasAtMostTwoSides};
ghost use Rattle.orientation.specs.Trees.{IsAcross, IsAlong, runs_alike};

use surf_model::{ChainLink, FaceName, Faces, Side, Sides};

/// The other side of a side's edge, where the edge has two.
pub(crate) fn across(faces: &Faces, sides: &Sides, side: Side) -> Option<Side>
    requires table { IsTableOf faces.now sides.now }
    requires two { EachEdgeHasAtMostTwoSides faces.now }
    requires side { IsSide faces.now side }
    ensures { IsAcross faces.now side result }
{
    let dart = faces.dart(side);
    let other = sides.other(dart);
    if other == dart {
        None
    } else {
        Some(faces.side_at(other))
    }
}

/// Whether two sides of one edge run the same way, as their faces list them.
pub(crate) fn run_alike(faces: &Faces, side: Side, other: Side) -> bool
    requires side { IsSide faces.now side }
    requires other { IsSide faces.now other }
    ensures { result ≡ runs_alike faces.now side other }
{
    faces.corner(side.face, side.at) == faces.corner(other.face, other.at)
}

/// The link from a face across the edge of a side.
pub(crate) fn link(faces: &Faces, sides: &Sides, face: FaceName, side: Side) -> ChainLink
    requires table { IsTableOf faces.now sides.now }
    requires side { IsSide faces.now side }
    ensures face { result.face ≡ face }
    ensures edge { IsAlong faces.now side result.low.0 result.high.0 }
{
    let (low, high) = sides.ends(sides.edge_of(faces.dart(side)));
    ChainLink { face, low, high }
}

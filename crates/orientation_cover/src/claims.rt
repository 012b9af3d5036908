//! Claims on ways round the vertices, in classes of those that hold together.
//!
//! A claim says that a face goes against the way at a corner, or with it. Where an edge has two sides, a claim on a corner of the one is
//! worth a claim on the corner of the other at the same end.
ghost use Rattle.std.specs.Prelude.{◌≡◌, ◌+◌, ◌≤◌, ◌<◌, Bool, length, IfOk};
ghost use Rattle.surf_model.specs.FaceLists.{total_sides};
ghost use Rattle.surf_model.specs.Edges.{IsTableOf};
ghost use Rattle.surf_model.specs.Darts.{IsSide};
ghost use Rattle.surf_model.specs.Surfaces.{ArePartners};
ghost use Rattle.connectivity.specs.Classes.{AreLeastMembers};
ghost use Rattle.connectivity.specs.Joined.{NoEdgeHasThreeSides};
ghost use Rattle.orientation_cover.specs.Claims.{AreClaimClasses, AreClaimsMadeJoined, with_corners};

use crate::sheets::over;
use connectivity::{Classes, corners_across};
use std::alloc::{AllocError, Global};
use surf_model::{EdgeName, Faces, Side, Sides};

/// For each claim the number of the least one that holds with it.
pub(crate) fn claim_classes(
    alloc: Global,
    faces: &Faces,
    sides: &Sides,
) -> Result<Vec<u32>, AllocError>
    requires table { IsTableOf faces.now sides.now }
    requires few { NoEdgeHasThreeSides faces.now }
    ensures classes { IfOk result (λ least. AreClaimClasses faces.now least.items) }
    ensures least { IfOk result (λ least. AreLeastMembers least.items) }
{
    // The proof reads what holds of every face list.
    let _ = faces.len();
    let mut claims = Classes::new(alloc, 2 * faces.total())?;
    for edge in 0..sides.len() {
        let edge = EdgeName(edge);
        if sides.sides_of(edge) == 2 {
            join_across(&mut claims, faces, sides.side(edge, 0), sides.side(edge, 1));
        }
    }
    Ok(claims.into_least())
}

/// Joins the claims on the corners of a side with those on the corners of its partner.
fn join_across(claims: &mut Classes, faces: &Faces, side: Side, partner: Side)
    requires partners { ArePartners faces.now side partner }
    requires count { length claims.old ≡ total_sides faces.now + total_sides faces.now }
    ensures { AreClaimsMadeJoined faces.now claims.old claims.new side partner }
{
    let (first, last, alike) = corners_across(faces, side, partner);
    join_corners(claims, faces, side, first, alike);
    join_corners(claims, faces, faces.after(side), last, alike);
}

/// Joins the two claims on a corner with those on another: contrary ones where the two sides between the corners run alike.
fn join_corners(claims: &mut Classes, faces: &Faces, corner: Side, other: Side, alike: bool)
    requires corner { IsSide faces.now corner }
    requires other { IsSide faces.now other }
    requires count { length claims.old ≡ total_sides faces.now + total_sides faces.now }
    ensures { claims.new ≡ with_corners faces.now claims.old corner other alike }
{
    // The proof reads what holds of every face list.
    let _ = faces.len();
    let total = faces.total();
    let (corner, other) = (faces.dart(corner).0, faces.dart(other).0);
    claims.join(over(total, false, corner), over(total, alike, other));
    claims.join(over(total, true, corner), over(total, !alike, other));
}

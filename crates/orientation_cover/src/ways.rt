//! Ways round the vertices of a mesh, on which the faces at each vertex agree.
ghost use Rattle.std.specs.Prelude.{◌≡◌, ◌+◌, ◌<◌, length, slice_index, MatchOption, IfOk};
ghost use Rattle.surf_model.specs.FaceLists.{total_sides};
ghost use Rattle.surf_model.specs.Edges.{IsTableOf};
ghost use Rattle.surf_model.specs.Darts.{IsSide};
ghost use Rattle.connectivity.specs.Joined.{NoEdgeHasThreeSides};
ghost use Rattle.orientation_cover.specs.Ways.{AreWays, told_by};
ghost use Rattle.orientation_cover.specs.Claims.{AreClaimClasses};

use crate::claims::claim_classes;
use std::alloc::{AllocError, Global};
use std::marker::Model;
use surf_model::{Faces, Side, Sides};

/// A way round each vertex, told at its corners: whether the face of the corner, as it is listed, goes against it.
#[derive(Debug, Drop)]
pub struct WaysRound {
    /// For each corner, by its number.
    against: Vec<bool>,
}

impl Model for WaysRound {
    ghost use Rattle.std.specs.Prelude.{Bool, List};

    ghost Value = { List Bool };

    ghost view = { λ a. a.against.items };
}

impl WaysRound {
    /// Whether the face of a corner goes against the way at it; the corner bears the name of the side that starts there.
    pub fn against(&self, faces: &Faces, corner: Side) -> bool
        requires count { length self.now ≡ total_sides faces.now }
        requires corner { IsSide faces.now corner }
        ensures { result ≡ told_by faces.now self.now corner }
    {
        self.against[faces.dart(corner).0 as usize]
    }
}

/// Ways round the vertices of a mesh each edge of which has at most two sides. The time is that of going over the sides a few times.
///
/// Of the two claims at a corner that one is taken to hold whose class has the lesser least member, which is the claim that the face at
/// the least corner of the ring goes with the way.
pub fn ways_round(alloc: Global, faces: &Faces, sides: &Sides) -> Result<WaysRound, AllocError>
    requires table { IsTableOf faces.now sides.now }
    requires few { NoEdgeHasThreeSides faces.now }
    ensures { IfOk result (AreWays faces.now) }
{
    // The proof reads what holds of every face list.
    let _ = faces.len();
    let least = claim_classes(alloc, faces, sides)?;
    let total = faces.total();
    let mut against = Vec::with_capacity(alloc, total as usize)?;
    for corner in 0..total {
        against.push(least[(corner + total) as usize] < least[corner as usize])?;
    }
    Ok(WaysRound { against })
}

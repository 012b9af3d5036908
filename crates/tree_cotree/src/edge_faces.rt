//! Faces that are kept for the edges on which darts of theirs are kept.
ghost use Rattle.std.specs.Prelude.{◌≡◌, length, IfOk};
ghost use Rattle.halfedge_map.specs.RotationSystems.{rotations_of};
ghost use Rattle.tree_cotree.specs.Markings.{AreDartsApart};
ghost use Rattle.tree_cotree.specs.Searches.{kept_at};
ghost use Rattle.tree_cotree.specs.EdgeFaces.{AreBelowEdges};

use crate::maybe_number::MaybeNumber;
use halfedge_map::Surface;
use std::alloc::{AllocError, Global};

/// For each edge the face for which a dart on it is kept.
pub(crate) fn faces_below(
    alloc: Global,
    surface: &Surface,
    from: &[MaybeNumber],
) -> Result<Vec<MaybeNumber>, AllocError>
    requires each_face { length from.now ≡ length surface.now.mesh.faces }
    requires apart { AreDartsApart (rotations_of surface.now) from.now }
    ensures each_edge { IfOk result (λ below. length below.items ≡ length surface.now.table) }
    ensures below { IfOk result (λ below. AreBelowEdges (rotations_of surface.now) from.now (length surface.now.table)
        (kept_at below.items) (length from.now)) }
{
    let mut below = vec![in alloc; MaybeNumber::none(); surface.sides().len() as usize]?;
    for face in 0..surface.faces().len() {
        if let Some(dart) = from[face as usize].dart() {
            below[surface.edge_of(dart).0 as usize] = MaybeNumber::some(face);
        }
    }
    Ok(below)
}

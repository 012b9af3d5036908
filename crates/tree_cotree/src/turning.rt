//! Turning a tree over the faces round, so that another face is its root.
ghost use Rattle.std.specs.Prelude.{◌≡◌, ℕ, ◌<◌, Bool, true, length, OnOk, IfOk};
ghost use Rattle.halfedge_map.specs.OrientedMeshes.{IsOrientedSurface};
ghost use Rattle.halfedge_map.specs.DartMaps.{darts_of};
ghost use Rattle.halfedge_map.specs.RotationSystems.{rotations_of};
ghost use Rattle.tree_cotree.specs.RingViews.{dart_numbers};
ghost use Rattle.tree_cotree.specs.Ways.{HasRoot, IsRooted, IsWay};

use crate::maybe_number::MaybeNumber;
use halfedge_map::Surface;
use std::alloc::{AllocError, Global};
use surf_model::DartName;

/// Makes the face of a dart the root of a tree over the faces, which is given by a dart that leads on for each face but the
/// root. The edges of the tree stay.
pub(crate) fn turn_round(
    alloc: Global,
    surface: &Surface,
    from: &mut [MaybeNumber],
    start: DartName,
) -> Result<(), AllocError>
    requires valid { IsOrientedSurface surface.now }
    requires start { start.0 < darts_of surface.now }
    requires tree { HasRoot (rotations_of surface.now) from.old }
    requires each_face { length from.old ≡ length surface.now.mesh.faces }
    ensures { OnOk result ((allowed : ℕ → Bool) (root : ℕ)
        → IsRooted (rotations_of surface.now) (rotations_of surface.now).face allowed (length from.old) root from.old
        → IsRooted (rotations_of surface.now) (rotations_of surface.now).face allowed (length from.old)
        ((rotations_of surface.now).face start.0) from.new) }
{
    let mut way = way_up(alloc, surface, from, start)?;
    while let Some(dart) = way.pop() {
        let back = surface.twin(dart);
        from[surface.face_of(back).0 as usize] = MaybeNumber::some(back.0);
        from[surface.face_of(dart).0 as usize] = MaybeNumber::none();
    }
    Ok(())
}

/// The darts that lead from the face of a dart to the root of a tree over the faces.
fn way_up(
    alloc: Global,
    surface: &Surface,
    from: &[MaybeNumber],
    start: DartName,
) -> Result<Vec<DartName>, AllocError>
    requires valid { IsOrientedSurface surface.now }
    requires start { start.0 < darts_of surface.now }
    requires tree { HasRoot (rotations_of surface.now) from.now }
    requires each_face { length from.now ≡ length surface.now.mesh.faces }
    ensures { IfOk result (λ way. (root : ℕ)
        → IsRooted (rotations_of surface.now) (rotations_of surface.now).face (λ e. true) (length from.now) root from.now
        → IsWay (rotations_of surface.now) from.now ((rotations_of surface.now).face start.0) (dart_numbers way.items) root) }
{
    let mut way = Vec::new(alloc);
    let mut face = surface.face_of(start);
    while let Some(dart) = from[face.0 as usize].dart() {
        way.push(dart)?;
        face = surface.face_of(surface.twin(dart));
    }
    Ok(way)
}

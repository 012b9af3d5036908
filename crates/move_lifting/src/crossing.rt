//! Steps of a walk across the face below a cotree edge.
ghost use Rattle.std.specs.Prelude.{◌≡◌, ◌<◌, ◌++◌, ℕ, true, false, OnOk, MatchOption};
ghost use Rattle.surf_model.specs.FaceLists.{is_edge};
ghost use Rattle.surf_model.specs.Darts.{IsSide};
ghost use Rattle.surf_model.specs.Vertices.{numbers};
ghost use Rattle.halfedge_map.specs.DartMaps.{darts_of, edge_of};
ghost use Rattle.halfedge_map.specs.RotationSystems.{rotations_of, IsDartFrom};
ghost use Rattle.tree_cotree.specs.Splits.{IsSplit, in_cotree};
ghost use Rattle.move_lifting.specs.Crossings.{beyond, IsStepOf, GoesAlong, IsOneIn, IsFaceBelow};

use halfedge_map::Surface;
use std::alloc::AllocError;
use surf_model::faces::corner_after;
use surf_model::{DartName, FaceName, Faces, Side, VertexName};
use tree_cotree::Split;

/// A step round a face: from a corner to the one after it, by rising places if `forward`, else by falling ones.
#[derive(Clone, Copy)]
pub(crate) struct FaceStep {
    pub(crate) face: FaceName,
    pub(crate) corner: u32,
    pub(crate) forward: bool,
}

/// The step from one vertex to another round the face that lies below their edge in the cotree; none where the edge is
/// not of the cotree.
pub(crate) fn face_below(
    surface: &Surface,
    split: &Split,
    from: VertexName,
    to: VertexName,
) -> Option<FaceStep>
    requires split { IsSplit surface.now split.now }
    requires edge { is_edge surface.now.mesh from.0 to.0 ≡ true }
    ensures { MatchOption result
        ((dart : ℕ) → IsDartFrom (rotations_of surface.now) from.0 to.0 dart → in_cotree split.now (edge_of surface.now dart) ≡ false)
        (IsFaceBelow surface.now split.now from.0 to.0) }
{
    let faces = surface.faces();
    let dart = surface.dart_between(from, to).unwrap();
    let face = split.child_face(surface.edge_of(dart))?;
    let side = faces.side_at(dart_in(surface, dart, face));
    Some(step_along(faces, side, from))
}

/// Of a dart and its twin the one that lies in a face.
fn dart_in(surface: &Surface, dart: DartName, face: FaceName) -> DartName
    requires { dart.0 < darts_of surface.now }
    ensures { IsOneIn surface.now dart.0 face.0 result.0 }
{
    if surface.face_of(dart) == face {
        dart
    } else {
        surface.twin(dart)
    }
}

/// The step along a side that starts at one of its two vertices.
fn step_along(faces: &Faces, side: Side, from: VertexName) -> FaceStep
    requires { IsSide faces.now side }
    ensures { GoesAlong faces.now side from.0 result }
{
    let forward = faces.corner(side.face, side.at) == from;
    if forward {
        FaceStep {
            face: side.face,
            corner: side.at,
            forward,
        }
    } else {
        FaceStep {
            face: side.face,
            corner: corner_after(true, faces.sides(side.face), side.at),
            forward,
        }
    }
}

/// Puts the vertices of the face last that stand beyond the start of a step, all round in the step's direction.
pub(crate) fn push_rest(
    vertices: &mut Vec<VertexName>,
    faces: &Faces,
    step: FaceStep,
) -> Result<(), AllocError>
    requires { IsStepOf faces.now step }
    ensures { OnOk result (numbers vertices.new.items ≡ numbers vertices.old.items ++ beyond faces.now step) }
{
    let sides = faces.sides(step.face);
    let mut corner = step.corner;
    for _count in 0..sides - 1 {
        corner = corner_after(step.forward, sides, corner);
        vertices.push(faces.corner(step.face, corner))?;
    }
    Ok(())
}

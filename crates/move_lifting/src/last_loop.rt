//! The loop of the last side of a polygon, with the moves that put it in.
ghost use Rattle.std.specs.Prelude.{◌≡◌, ◌<◌, ◌≤◌, not, length, slice_index, IfOk};
ghost use Rattle.surf_model.specs.FaceLists.{corners_from, face_at};
ghost use Rattle.surf_model.specs.Vertices.{numbers};
ghost use Rattle.surf_model.specs.declared.moves.Move.TheVariants.{Across};
ghost use Rattle.halfedge_map.specs.DartMaps.{darts_of};
ghost use Rattle.halfedge_map.specs.OrientedMeshes.{IsOrientedSurface};
ghost use Rattle.move_lifting.specs.Crossings.{IsStepOf, IsStepFrom};
ghost use Rattle.move_lifting.specs.Cuts.{IsCut};
ghost use Rattle.move_lifting.specs.SpokeWalks.{IsLastLoop};

use crate::crossing::{FaceStep, push_rest};
use crate::cut::Cut;
use crate::expanding::lead_all;
use crate::laying::walk_of_one;
use crate::lifted::Lifted;
use halfedge_map::Surface;
use std::alloc::{AllocError, Global};
use surf_model::faces::corner_after;
use surf_model::{DartName, Faces, Move, MoveList, VertexName};

/// The loop of the last side of a polygon, or if `back` the way back along it: a walk without spurs from the vertex where that
/// side starts, and moves that lead to it from that vertex.
///
/// One move goes all round the root face of the cotree, in which the last side lies, and the others lead that off the cotree.
pub(crate) fn last_loop(alloc: Global, cut: &Cut<'_>, back: bool) -> Result<Lifted, AllocError>
    requires { IsCut cut.now }
    ensures { IfOk result (IsLastLoop cut.now.on.surface.now cut.now.on.split.now cut.now.polygon.now back) }
{
    let (surface, polygon) = (cut.on.surface, cut.polygon);
    let dart = polygon.side(polygon.degree() - 1);
    let step = step_from(surface, dart, back);
    let around = all_round(alloc, surface.faces(), step, surface.origin(dart))?;
    let mut moves = MoveList::new(alloc, 0);
    moves.push(move_round(step), around.len() as u32 - 1)?;
    let track = lead_all(alloc, &cut.on, &around, 0, moves)?;
    track.finish(alloc)
}

/// The step from where a dart starts in its face, along it or if `back` the other way round the face.
fn step_from(surface: &Surface, dart: DartName, back: bool) -> FaceStep
    requires { dart.0 < darts_of surface.now }
    ensures step { IsStepFrom surface.now dart.0 back result }
    // What holds of every surface.
    ensures valid { IsOrientedSurface surface.now }
{
    let faces = surface.faces();
    let side = faces.side_at(dart);
    let flipped = surface.signs().flipped(side.face);
    let corner = if flipped {
        corner_after(true, faces.sides(side.face), side.at)
    } else {
        side.at
    };
    FaceStep {
        face: side.face,
        corner,
        forward: flipped == back,
    }
}

/// The vertices all round the face of a step, from its start and back to it.
fn all_round(
    alloc: Global,
    faces: &Faces,
    step: FaceStep,
    start: VertexName,
) -> Result<Vec<VertexName>, AllocError>
    requires step { IsStepOf faces.now step }
    requires start { start.0 ≡ slice_index (face_at faces.now step.face.0) step.corner }
    ensures { IfOk result (λ around. numbers around.items
        ≡ corners_from (face_at faces.now step.face.0) step.forward step.corner (length (face_at faces.now step.face.0))) }
{
    let mut around = walk_of_one(alloc, start)?;
    push_rest(&mut around, faces, step)?;
    around.push(start)?;
    Ok(around)
}

/// The move all round the face of a step, where the walk is at its start.
fn move_round(step: FaceStep) -> Move
    ensures { result ≡ Across 0 step.face step.corner (not step.forward) 0 }
{
    Move::Across {
        at: 0,
        face: step.face,
        corner: step.corner,
        forward: !step.forward,
        taken: 0,
    }
}

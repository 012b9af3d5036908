//! Lists of moves that lead on a double cover, made lists on the mesh.
ghost use Rattle.std.specs.Prelude.{◌≡◌, length, IfOk};
ghost use Rattle.double_covers.specs.Covers.{under};
ghost use Rattle.folded_lists.specs.LoweredLists.{LeadsBelow, LeadsBelowLifts, lower_move};

use std::alloc::{AllocError, Global};
use surf_model::{FaceName, Faces, Move, MoveList, VertexName};

/// The list below one on a double cover of a mesh, the orientation cover or another: in place of each vertex and each face stands the one
/// that it lies over. It leads where the list above leads, with its exact peak. The time is that of going over the list.
pub fn lower(alloc: Global, faces: &Faces, list: &MoveList) -> Result<MoveList, AllocError>
    ensures leads { IfOk result (LeadsBelow faces.now list.now) }
    ensures lifts { IfOk result (LeadsBelowLifts faces.now list.now) }
    ensures many { IfOk result (λ below. length below.moves ≡ length list.now.moves) }
    ensures peak { IfOk result (λ below. below.peak ≡ list.now.peak) }
{
    // The proof reads what holds of every face list.
    let _ = faces.len();
    let mut below = MoveList::new(alloc, list.peak());
    for k in 0..list.len() {
        // The peak is declared already.
        below.push(lower_move(faces, list.at(k)), 0)?;
    }
    Ok(below)
}

/// The move below one on a double cover.
fn lower_move(faces: &Faces, mv: Move) -> Move
    ensures { result ≡ lower_move faces.now.count (length faces.now.faces) mv }
{
    match mv {
        Move::Insert { at, via } => Move::Insert {
            at,
            via: VertexName(under(faces.count(), via.0)),
        },
        Move::Remove { at, via } => Move::Remove {
            at,
            via: VertexName(under(faces.count(), via.0)),
        },
        Move::Across {
            at,
            face,
            corner,
            forward,
            taken,
        } => Move::Across {
            at,
            face: FaceName(under(faces.len(), face.0)),
            corner,
            forward,
            taken,
        },
    }
}

/// The number of the mesh under one of the cover, where the mesh has so many.
fn under(count: u32, number: u32) -> u32
    ensures { result ≡ under count number }
{
    if number < count {
        number
    } else {
        number - count
    }
}

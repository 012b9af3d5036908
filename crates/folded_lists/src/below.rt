//! What a move of the double of a mesh becomes on the mesh.
ghost use Rattle.std.specs.Prelude.{◌≡◌, ◌+◌, ◌<◌, ◌≤◌, ℕ, List, ◌∷◌, length, slice_index, MatchOption};
ghost use Rattle.surf_model.specs.FaceLists.{face_at};
ghost use Rattle.surf_model.specs.Replacements.{Replaces};
ghost use Rattle.surf_model.specs.declared.moves.Move.TheVariants.{Across};
ghost use Rattle.doubling.specs.Doubles.{double_of};
ghost use Rattle.doubling.specs.Folds.{fold, folded};
ghost use Rattle.folded_lists.specs.FoldedLists.{IsAllowedAt, IsMoveBelow, along_edge};

use surf_model::{FaceName, Faces, Move, VertexName};

/// The fold of a vertex of the double, of a mesh of so many vertices.
pub(crate) fn fold(count: u32, vertex: VertexName) -> VertexName
    ensures { result.0 ≡ fold count vertex.0 }
{
    if vertex.0 < count {
        vertex
    } else {
        VertexName(vertex.0 - count)
    }
}

/// The move of the mesh that a move of the double becomes, where the part that it replaces begins at a vertex whose fold is at this place;
/// or none, where both parts have one fold.
pub fn move_below(
    faces: &Faces,
    double: &Faces,
    place: u32,
    here: VertexName,
    mv: Move,
) -> Option<Move>
    requires double { double.now ≡ double_of faces.now }
    requires allowed { IsAllowedAt double.now here.0 mv }
    ensures { (rest others : List ℕ) → Replaces double.now mv (here.0 ∷ rest) (here.0 ∷ others) → MatchOption result
        (folded faces.now.count (here.0 ∷ rest) ≡ folded faces.now.count (here.0 ∷ others))
        (IsMoveBelow faces.now place (here.0 ∷ rest) (here.0 ∷ others)) }
{
    // The proof reads what holds of every face list.
    let count = faces.count();
    match mv {
        Move::Insert { via, .. } => {
            let via = fold(count, via);
            if via == fold(count, here) {
                None
            } else {
                Some(Move::Insert { at: place, via })
            }
        }
        Move::Remove { via, .. } => {
            let via = fold(count, via);
            if via == fold(count, here) {
                None
            } else {
                Some(Move::Remove { at: place, via })
            }
        }
        Move::Across {
            face,
            corner,
            forward,
            taken,
            ..
        } => across_below(faces, double, place, face, corner, forward, taken),
    }
}

/// The same of a way round a face: one of the mesh stays, one of the mirror goes round its face the other way, and one of a quad puts a
/// spur in, or takes it out, or changes nothing.
fn across_below(
    faces: &Faces,
    double: &Faces,
    place: u32,
    face: FaceName,
    corner: u32,
    forward: bool,
    taken: u32,
) -> Option<Move>
    requires double { double.now ≡ double_of faces.now }
    requires face { face.0 < length double.now.faces }
    requires corner { corner < length (face_at double.now face.0) }
    requires taken { taken ≤ length (face_at double.now face.0) }
    ensures { (at : ℕ) (part other : List ℕ) → Replaces double.now (Across at face corner forward taken) part other → MatchOption result
        (folded faces.now.count part ≡ folded faces.now.count other)
        (IsMoveBelow faces.now place part other) }
{
    // The proof reads what holds of every face list.
    let count = faces.len();
    if face.0 < count {
        return Some(Move::Across {
            at: place,
            face,
            corner,
            forward,
            taken,
        });
    }
    if face.0 - count < count {
        let face = FaceName(face.0 - count);
        return Some(Move::Across {
            at: place,
            face,
            // The mirror is listed backwards.
            corner: faces.sides(face) - 1 - corner,
            forward: !forward,
            taken,
        });
    }
    quad_below(faces, double, place, face, corner, forward, taken)
}

/// The same of a way round a quad, of which every second side leads from a vertex to its mirror, or back.
fn quad_below(
    faces: &Faces,
    double: &Faces,
    place: u32,
    face: FaceName,
    corner: u32,
    forward: bool,
    taken: u32,
) -> Option<Move>
    requires double { double.now ≡ double_of faces.now }
    requires quad { length faces.now.faces + length faces.now.faces ≤ face.0 }
    requires face { face.0 < length double.now.faces }
    requires corner { corner < length (face_at double.now face.0) }
    requires taken { taken ≤ length (face_at double.now face.0) }
    ensures { (at : ℕ) (part other : List ℕ) → Replaces double.now (Across at face corner forward taken) part other → MatchOption result
        (folded faces.now.count part ≡ folded faces.now.count other)
        (IsMoveBelow faces.now place part other) }
{
    let via = fold(faces.count(), double.corner(face, (corner + 2) % 4));
    match along_edge(corner, forward, taken) {
        0 => Some(Move::Insert { at: place, via }),
        1 => None,
        _ => Some(Move::Remove { at: place, via }),
    }
}

/// How many of so many sides of a quad, from a corner on, lead along its edge or the mirror of that.
fn along_edge(corner: u32, forward: bool, taken: u32) -> u32
    requires { taken ≤ 4 }
    ensures { result ≡ along_edge corner forward taken }
{
    let first = if forward {
        corner % 2 == 0
    } else {
        corner % 2 == 1
    };
    if first { (taken + 1) / 2 } else { taken / 2 }
}

//! What holds of lists of moves on doubles, said of the definitions. A call of such a function does nothing; its contract is the law.
ghost use Rattle.std.specs.Prelude.{◌≤◌, ℕ, List, length};
ghost use Rattle.surf_model.specs.FaceLists.{FaceList, IsFaceList};
ghost use Rattle.surf_model.specs.Moves.{PeakedMoves};
ghost use Rattle.surf_model.specs.PeakedLists.{LeadsAtPeak};
ghost use Rattle.surf_model.specs.Walks.{IsWalk};
ghost use Rattle.doubling.specs.Doubles.{double_of};

/// Where a list of moves leads on the double of a mesh from one walk of the mesh to another, one leads on the mesh that has no more moves
/// and no greater peak: each move becomes one or none.
pub fn a_list_on_the_double_folds()
    ensures { (mesh : FaceList) (first second : List ℕ) (list : PeakedMoves) → IsFaceList mesh → IsWalk mesh first → IsWalk mesh second
        → LeadsAtPeak (double_of mesh) first list second
        → (below : PeakedMoves) × LeadsAtPeak mesh first below second × (length below.moves ≤ length list.moves)
        × (below.peak ≤ list.peak) }
{}

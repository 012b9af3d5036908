//! What holds of edge tables and of the table of moves, said of the definitions. A call of one of these functions
//! does nothing; its contract is the law.
ghost use Rattle.std.specs.Prelude.{◌≡◌, ◌+◌, ◌<◌, ◌↔◌, ℕ, List, ◌∷◌, ◌++◌, length, take, drop, slice_index, Some, Any, Contains};
ghost use Rattle.surf_model.specs.Darts.{IsSide};
ghost use Rattle.surf_model.specs.Edges.{Edge, IsTableOf};
ghost use Rattle.surf_model.specs.FaceLists.{FaceList, IsFaceList};
ghost use Rattle.surf_model.specs.Moves.{apply};
ghost use Rattle.surf_model.specs.Replacements.{IsReplacement};
ghost use Rattle.surf_model.specs.declared.moves.Move.TheVariants.{Insert, Remove};
ghost use Rattle.surf_model.specs.declared.moves.Move.{Move};
ghost use Rattle.surf_model.specs.declared.edges.Side.{Side};
ghost use Rattle.surf_model.specs.declared.names.VertexName.{VertexName};

/// Each mesh has an edge table.
pub fn each_mesh_has_a_table()
    ensures { (mesh : FaceList) → IsFaceList mesh → (table : List Edge) × IsTableOf mesh table }
{}

/// A mesh has no second one.
pub fn one_table()
    ensures { (mesh : FaceList) (table other : List Edge) → IsTableOf mesh table → IsTableOf mesh other → table ≡ other }
{}

/// The sides in the table of a mesh are the sides of the mesh.
pub fn sides_in_table()
    ensures { (mesh : FaceList) (table : List Edge) (side : Side) → IsTableOf mesh table
        → IsSide mesh side ↔ Any (λ (edge : Edge). Contains edge.sides side) table }
{}

/// A move is allowed, and gives a walk, exactly where that walk is the first one with a part replaced as the
/// move says, at the place of the move.
pub fn move_is_a_replacement()
    ensures { (mesh : FaceList) (walk next : List ℕ) (move : Move) → 0 < length walk
        → (apply mesh walk move ≡ Some next) ↔ IsReplacement mesh move walk next }
{}

/// What the two spur moves leave: two entries more behind entry `at`, or two fewer.
pub fn spur_rows()
    ensures goes_in { (mesh : FaceList) (walk next : List ℕ) (at : ℕ) (via : VertexName) → 0 < length walk
        → apply mesh walk (Insert at via) ≡ Some next
        → next ≡ take (at + 1) walk ++ via.0 ∷ slice_index walk at ∷ drop (at + 1) walk }
    ensures goes_out { (mesh : FaceList) (walk next : List ℕ) (at : ℕ) (via : VertexName) → 0 < length walk
        → apply mesh walk (Remove at via) ≡ Some next
        → next ≡ take (at + 1) walk ++ drop (at + 3) walk }
{}

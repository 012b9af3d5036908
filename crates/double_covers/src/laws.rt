//! What holds of double covers, said of the definitions. A call of one of these functions does nothing; its contract is the law.
ghost use Rattle.std.specs.Prelude.{◌≡◌, ◌↔◌, ℕ, Bool, List, map};
ghost use Rattle.surf_model.specs.Darts.{IsSide};
ghost use Rattle.surf_model.specs.FaceLists.{FaceList, IsFaceList};
ghost use Rattle.surf_model.specs.Surfaces.{IsOrientable};
ghost use Rattle.surf_model.specs.Walks.{IsWalk};
ghost use Rattle.surf_model.specs.Moves.{Homotopic};
ghost use Rattle.surf_model.specs.declared.edges.Side.{Side};
ghost use Rattle.connectivity.specs.Joined.{NoEdgeHasThreeSides};
ghost use Rattle.double_covers.specs.Covers.{AreTurns, cover_of, lifted, under};
ghost use Rattle.double_covers.specs.WaysRound.{AreWaysRound, AreTurnsOf, IsTwisted};

/// A double cover of a polygon mesh is one.
pub fn cover_is_a_mesh()
    ensures { (mesh : FaceList) (turns : ℕ → ℕ → Bool) → IsFaceList mesh → AreTurns mesh turns → IsFaceList (cover_of mesh turns) }
{}

/// A walk of the mesh has a lift from each sheet, which is a walk of the cover, and lies over the walk.
pub fn walks_are_lifted()
    ensures walk { (mesh : FaceList) (turns : ℕ → ℕ → Bool) (upper : Bool) (walk : List ℕ) → AreTurns mesh turns → IsWalk mesh walk
        → IsWalk (cover_of mesh turns) (lifted turns mesh.count upper walk) }
    ensures lies_over { (mesh : FaceList) (turns : ℕ → ℕ → Bool) (upper : Bool) (walk : List ℕ) → IsFaceList mesh → IsWalk mesh walk
        → map (under mesh.count) (lifted turns mesh.count upper walk) ≡ walk }
{}

/// Two walks of a mesh are homotopic exactly where their lifts from one sheet are; where these end at two vertices, they are not.
pub fn cover_keeps_homotopy()
    ensures { (mesh : FaceList) (turns : ℕ → ℕ → Bool) (upper : Bool) (first second : List ℕ) → IsFaceList mesh → AreTurns mesh turns
        → IsWalk mesh first → IsWalk mesh second
        → Homotopic (cover_of mesh turns) (lifted turns mesh.count upper first) (lifted turns mesh.count upper second)
        ↔ Homotopic mesh first second }
{}

/// The edges along which ways round the vertices do not agree may turn, and the cover that they make is orientable.
pub fn cover_by_ways_is_orientable()
    ensures turns { (mesh : FaceList) (against : Side → Bool) (turns : ℕ → ℕ → Bool) → AreTurnsOf mesh against turns → AreTurns mesh turns }
    ensures orientable { (mesh : FaceList) (against : Side → Bool) (turns : ℕ → ℕ → Bool) → IsFaceList mesh → AreWaysRound mesh against
        → AreTurnsOf mesh against turns → IsOrientable (cover_of mesh turns) }
{}

/// Where no edge has three sides, the corners at no vertex are twisted: a corner that is entered by one of its sides is left by the other.
pub fn no_corners_are_twisted()
    ensures { (mesh : FaceList) (corner : Side) → IsFaceList mesh → NoEdgeHasThreeSides mesh → IsSide mesh corner → IsTwisted mesh corner
        → ⊥ }
{}

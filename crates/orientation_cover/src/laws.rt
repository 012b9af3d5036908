//! What holds of the cover, said of the definitions. A call of one of these functions does nothing; its contract is the law.
ghost use Rattle.std.specs.Prelude.{◌≡◌, ◌↔◌, Bool, ℕ, List};
ghost use Rattle.surf_model.specs.FaceLists.{FaceList, IsFaceList};
ghost use Rattle.surf_model.specs.Surfaces.{IsOrientable};
ghost use Rattle.connectivity.specs.Joined.{NoEdgeHasThreeSides};
ghost use Rattle.surf_model.specs.Walks.{IsWalk};
ghost use Rattle.surf_model.specs.Moves.{Homotopic};
ghost use Rattle.orientation_cover.specs.Ways.{AreWays};
ghost use Rattle.orientation_cover.specs.Turns.{cover_by, lift_by};

/// A mesh no edge of which has three sides has a list of bits that are ways round its vertices, and no mesh has two: so it has one cover.
pub fn ways_are_one()
    ensures some { (mesh : FaceList) → IsFaceList mesh → NoEdgeHasThreeSides mesh → (bits : List Bool) × AreWays mesh bits }
    ensures one { (mesh : FaceList) (bits others : List Bool) → AreWays mesh bits → AreWays mesh others → bits ≡ others }
{}

/// The cover by ways round the vertices is an orientable mesh.
pub fn cover_is_orientable()
    ensures mesh { (mesh : FaceList) (bits : List Bool) → IsFaceList mesh → AreWays mesh bits → IsFaceList (cover_by mesh bits) }
    ensures orientable { (mesh : FaceList) (bits : List Bool) → IsFaceList mesh → AreWays mesh bits → IsOrientable (cover_by mesh bits) }
{}

/// The lift of a walk is a walk of the cover, and two walks are homotopic exactly where their lifts are.
pub fn lifts_decide()
    ensures walk { (mesh : FaceList) (bits : List Bool) (walk : List ℕ) → IsFaceList mesh → AreWays mesh bits → IsWalk mesh walk
        → IsWalk (cover_by mesh bits) (lift_by mesh bits walk) }
    ensures homotopy { (mesh : FaceList) (bits : List Bool) (first second : List ℕ) → IsFaceList mesh → AreWays mesh bits
        → IsWalk mesh first → IsWalk mesh second
        → Homotopic (cover_by mesh bits) (lift_by mesh bits first) (lift_by mesh bits second) ↔ Homotopic mesh first second }
{}

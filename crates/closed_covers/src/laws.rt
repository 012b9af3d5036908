//! What holds of covers, said of the definitions. A call of one of these functions does nothing; its contract is the law.
ghost use Rattle.std.specs.Prelude.{◌≡◌, Bool, List, ℕ, ◌-◌, ◌<◌, pos, ◌-ℤ◌};
ghost use Rattle.surf_model.specs.FaceLists.{FaceList, IsFaceList};
ghost use Rattle.surf_model.specs.Surfaces.{EachEdgeHasTwoSides, IsClosed, IsClosedManifold, IsOrientable, IsSurface};
ghost use Rattle.surf_model.specs.Components.{EachTwoAreJoined};
ghost use Rattle.surf_model.specs.OrientableSurfaces.{IsOrientableSurface};
ghost use Rattle.surf_model.specs.Genera.{AreNumbersOf, HasGenus};
ghost use Rattle.surf_model.specs.declared.numbers.SurfaceNumbers.{SurfaceNumbers};
ghost use Rattle.connectivity.specs.Joined.{EachVertexHasOneRing};
ghost use Rattle.double_covers.specs.Covers.{AreTurns, cover_of};
ghost use Rattle.orientation_cover.specs.Turns.{cover_by};
ghost use Rattle.orientation_cover.specs.Ways.{AreWays};
ghost use Rattle.closed_covers.specs.TwiceNumbers.{AreTwice};

/// A double cover of a closed manifold is one, whatever edges turn.
pub fn cover_is_closed()
    ensures two_sides { (mesh : FaceList) (turns : ℕ → ℕ → Bool) → IsFaceList mesh → AreTurns mesh turns → EachEdgeHasTwoSides mesh
        → EachEdgeHasTwoSides (cover_of mesh turns) }
    ensures one_ring { (mesh : FaceList) (turns : ℕ → ℕ → Bool) → IsFaceList mesh → AreTurns mesh turns → EachVertexHasOneRing mesh
        → EachVertexHasOneRing (cover_of mesh turns) }
    ensures manifold { (mesh : FaceList) (turns : ℕ → ℕ → Bool) → IsFaceList mesh → AreTurns mesh turns → IsClosedManifold mesh
        → IsClosedManifold (cover_of mesh turns) }
{}

/// The cover of a closed manifold by ways round its vertices is an orientable closed surface. It is in one piece where the manifold is so
/// and has no coherent signs.
pub fn orientation_cover_is_closed()
    ensures surface { (mesh : FaceList) (bits : List Bool) → IsFaceList mesh → AreWays mesh bits → IsClosedManifold mesh
        → IsOrientableSurface (cover_by mesh bits) }
    ensures joined { (mesh : FaceList) (bits : List Bool) → IsFaceList mesh → AreWays mesh bits → EachTwoAreJoined mesh
        → (IsOrientable mesh → ⊥) → EachTwoAreJoined (cover_by mesh bits) }
    ensures connected { (mesh : FaceList) (bits : List Bool) → IsFaceList mesh → AreWays mesh bits → IsClosed mesh
        → (IsOrientable mesh → ⊥) → IsSurface (cover_by mesh bits) }
{}

/// Where each edge of the mesh has two sides, the cover has twice the vertices, edges and faces, and twice the Euler characteristic. So
/// where that of the mesh is `2 - k`, as of a sphere with `k` crosscaps, the cover has the genus `k - 1`.
pub fn cover_has_numbers()
    ensures numbers { (mesh : FaceList) (turns : ℕ → ℕ → Bool) (numbers others : SurfaceNumbers) → IsFaceList mesh → AreTurns mesh turns
        → EachEdgeHasTwoSides mesh → AreNumbersOf mesh numbers → AreNumbersOf (cover_of mesh turns) others → AreTwice numbers others }
    ensures genus { (mesh : FaceList) (turns : ℕ → ℕ → Bool) (numbers : SurfaceNumbers) (k : ℕ) → IsFaceList mesh → AreTurns mesh turns
        → EachEdgeHasTwoSides mesh → AreNumbersOf mesh numbers → 0 < k → pos 2 -ℤ pos k ≡ numbers.euler
        → HasGenus (cover_of mesh turns) (k - 1) }
{}

//! What holds of doubles, said of the definitions. A call of one of these functions does nothing; its contract is the law.
ghost use Rattle.std.specs.Prelude.{◌≡◌, ◌↔◌, ℕ, ◌+◌, ◌*◌, ◌-◌, ◌<◌, pos, ◌-ℤ◌};
ghost use Rattle.surf_model.specs.FaceLists.{FaceList, IsFaceList};
ghost use Rattle.surf_model.specs.Surfaces.{EachEdgeHasTwoSides, IsClosed, IsOrientable, IsSurface};
ghost use Rattle.surf_model.specs.Components.{EachTwoAreJoined};
ghost use Rattle.connectivity.specs.Joined.{NoEdgeHasThreeSides, EachVertexHasOneRing};
ghost use Rattle.free_forms.specs.OpenSurfaces.{HasBoundary, IsOpenSurface};
ghost use Rattle.doubling.specs.Doubles.{double_of};
ghost use Rattle.surf_model.specs.Genera.{AreNumbersOf, HasGenus};
ghost use Rattle.surf_model.specs.declared.numbers.SurfaceNumbers.{SurfaceNumbers};
ghost use Rattle.closed_doubles.specs.DoubledNumbers.{AreDoubled};

/// The double is closed and in one piece, where the mesh is so but for its boundary.
pub fn double_is_closed()
    ensures two_sides { (mesh : FaceList) → IsFaceList mesh → NoEdgeHasThreeSides mesh → EachVertexHasOneRing mesh
        → EachEdgeHasTwoSides (double_of mesh) }
    ensures one_ring { (mesh : FaceList) → IsFaceList mesh → EachVertexHasOneRing mesh → EachVertexHasOneRing (double_of mesh) }
    ensures joined { (mesh : FaceList) → IsFaceList mesh → HasBoundary mesh → EachTwoAreJoined mesh → EachTwoAreJoined (double_of mesh) }
    // So the double of a surface with boundary is a closed surface, orientable or not.
    ensures closed { (mesh : FaceList) → IsFaceList mesh → IsOpenSurface mesh → IsClosed (double_of mesh) }
{}

/// The double is orientable exactly where the mesh is: a mirror of a flipped face is flipped, and a quad has the sign of the face at its
/// edge.
pub fn double_is_orientable()
    ensures signs { (mesh : FaceList) → IsFaceList mesh → NoEdgeHasThreeSides mesh → EachVertexHasOneRing mesh
        → IsOrientable (double_of mesh) ↔ IsOrientable mesh }
    ensures surface { (mesh : FaceList) → IsFaceList mesh → IsOpenSurface mesh → IsOrientable mesh → IsSurface (double_of mesh) }
{}

/// The double has twice the vertices, edges and faces of the mesh, and an edge and a face more for each edge on the boundary. Its Euler
/// characteristic is twice that of the mesh. So where that is `2 - 2 g - b`, as of a surface of genus `g` with `b` curves on its boundary,
/// the double has the genus `2 g + b - 1`.
pub fn double_has_numbers()
    ensures numbers { (mesh : FaceList) (numbers others : SurfaceNumbers) → IsFaceList mesh → NoEdgeHasThreeSides mesh
        → EachVertexHasOneRing mesh → AreNumbersOf mesh numbers → AreNumbersOf (double_of mesh) others → AreDoubled mesh numbers others }
    ensures genus { (mesh : FaceList) (numbers : SurfaceNumbers) (g b : ℕ) → IsFaceList mesh → NoEdgeHasThreeSides mesh
        → EachVertexHasOneRing mesh → AreNumbersOf mesh numbers → 0 < b → (pos 2 -ℤ pos (2 * g)) -ℤ pos b ≡ numbers.euler
        → HasGenus (double_of mesh) (2 * g + b - 1) }
{}

//! What holds of signs and of odd chains, said of the definitions. A call of one of these functions does
//! nothing; its contract is the law.
ghost use Rattle.std.specs.Prelude.{◌≡◌, ◌<◌, ◌↔◌, ℕ, Bool, List, length, slice_index};
ghost use Rattle.surf_model.specs.FaceLists.{FaceList, IsFaceList, face_at};
ghost use Rattle.surf_model.specs.Surfaces.{AreJoinedByWalk, IsClosedManifold, IsCoherent, IsOrientable};
ghost use Rattle.surf_model.specs.declared.chains.ChainLink.{ChainLink};
ghost use Rattle.surf_model.specs.OddChains.{IsOddChain};
ghost use Rattle.orientation.specs.Classes.{AreOfOneClass, EachEdgeHasAtMostTwoSides, IsLeastKept};

/// A mesh with an odd chain has no coherent signs.
pub fn odd_chain_excludes_signs()
    ensures { (mesh : FaceList) (chain : List ChainLink) → IsFaceList mesh → IsOddChain mesh chain → IsOrientable mesh → ⊥ }
{}

/// Coherent signs that keep the least face of each class are the only ones.
pub fn kept_signs_are_unique()
    ensures { (mesh : FaceList) (signs others : List Bool) → IsFaceList mesh → IsCoherent mesh signs → IsLeastKept mesh signs
        → IsCoherent mesh others → IsLeastKept mesh others → signs ≡ others }
{}

/// A mesh whose edges have at most two sides is not without both: coherent signs that keep the least face of each
/// class, and an odd chain.
pub fn signs_or_chain()
    ensures { (mesh : FaceList) → IsFaceList mesh → EachEdgeHasAtMostTwoSides mesh
        → ((signs : List Bool) → IsCoherent mesh signs → IsLeastKept mesh signs → ⊥)
        → ((chain : List ChainLink) → IsOddChain mesh chain → ⊥) → ⊥ }
{}

/// On a closed manifold, in one piece or in several, the classes of faces are the components: steps across edges lead from one face
/// to another exactly where a walk joins their vertices. So `orient` keeps the least face of each component.
pub fn classes_are_components()
    ensures { (mesh : FaceList) (f g : ℕ) → IsFaceList mesh → IsClosedManifold mesh → f < length mesh.faces → g < length mesh.faces
        → AreOfOneClass mesh f g ↔ AreJoinedByWalk mesh (slice_index (face_at mesh f) 0) (slice_index (face_at mesh g) 0) }
{}

//! What holds of the components of a mesh, said of the definitions. A call of one of these functions does nothing; its
//! contract is the law.
ghost use Rattle.std.specs.Prelude.{◌≡◌, ◌<◌, ◌↔◌, ℕ, Bool, List, All, length, slice_index};
ghost use Rattle.surf_model.specs.FaceLists.{FaceList, IsFaceList, face_at};
ghost use Rattle.surf_model.specs.Walks.{IsWalk};
ghost use Rattle.surf_model.specs.Moves.{Leads, Homotopic, greatest_darts};
ghost use Rattle.surf_model.specs.Surfaces.{IsClosed, IsClosedManifold, IsCoherent};
ghost use Rattle.surf_model.specs.Components.{EachTwoAreJoined, place_of_face};
ghost use Rattle.surf_model.specs.declared.moves.Move.{Move};
ghost use Rattle.surf_model.specs.Submeshes.{signs_among, renamed_moves};
ghost use Rattle.surf_model.specs.ComponentParts.{PartsView, AreParts, component_at, component_mesh};

/// A walk stays in the component of its first vertex, and a face in that of its first corner.
pub fn walks_and_faces_stay_in_a_component()
    ensures walk { (mesh : FaceList) (parts : PartsView) (walk : List ℕ) (k : ℕ) → AreParts mesh parts → IsWalk mesh walk
        → k < length walk → slice_index parts.places (slice_index walk k) ≡ slice_index parts.places (slice_index walk 0) }
    ensures face { (mesh : FaceList) (parts : PartsView) (f t : ℕ) → AreParts mesh parts → f < length mesh.faces
        → t < length (face_at mesh f)
        → slice_index parts.places (slice_index (face_at mesh f) t) ≡ place_of_face mesh parts.places f }
{}

/// The walks of a mesh that start in a component are the walks along the component's own faces.
pub fn walks_of_a_component()
    ensures alone { (mesh : FaceList) (parts : PartsView) (part : ℕ) (walk : List ℕ) → AreParts mesh parts
        → part < length parts.components → IsWalk mesh walk → slice_index parts.places (slice_index walk 0) ≡ part
        → IsWalk (component_mesh mesh parts part) walk }
    ensures whole { (mesh : FaceList) (parts : PartsView) (part : ℕ) (walk : List ℕ) → AreParts mesh parts
        → part < length parts.components → IsWalk (component_mesh mesh parts part) walk
        → IsWalk mesh walk × (slice_index parts.places (slice_index walk 0) ≡ part) }
{}

/// Walks are homotopic on the mesh exactly where they are on the own faces of the first one's component.
pub fn homotopy_in_a_component()
    ensures { (mesh : FaceList) (parts : PartsView) (part : ℕ) (first second : List ℕ) → AreParts mesh parts
        → part < length parts.components → IsWalk mesh first → slice_index parts.places (slice_index first 0) ≡ part
        → Homotopic mesh first second ↔ Homotopic (component_mesh mesh parts part) first second }
{}

/// A list of moves that leads on a component's own faces leads on the mesh once its faces are renamed, and passes as many
/// darts.
pub fn renamed_moves_lead()
    ensures leads { (mesh : FaceList) (parts : PartsView) (part : ℕ) (first second : List ℕ) (moves : List Move)
        → AreParts mesh parts → part < length parts.components → 0 < length first
        → Leads (component_mesh mesh parts part) first moves second
        → Leads mesh first (renamed_moves (component_at parts part) moves) second }
    ensures darts { (mesh : FaceList) (parts : PartsView) (part : ℕ) (first second : List ℕ) (moves : List Move)
        → AreParts mesh parts → part < length parts.components → 0 < length first
        → Leads (component_mesh mesh parts part) first moves second
        → greatest_darts mesh first (renamed_moves (component_at parts part) moves)
        ≡ greatest_darts (component_mesh mesh parts part) first moves }
{}

/// Each component of a closed manifold is a connected closed surface, with the signs of its faces, which are faces of the mesh.
pub fn components_are_surfaces()
    ensures closed { (mesh : FaceList) (parts : PartsView) (part : ℕ) → AreParts mesh parts → part < length parts.components
        → IsClosedManifold mesh → IsClosed (component_mesh mesh parts part) }
    ensures coherent { (mesh : FaceList) (parts : PartsView) (part : ℕ) (signs : List Bool) → AreParts mesh parts
        → part < length parts.components → IsCoherent mesh signs
        → IsCoherent (component_mesh mesh parts part) (signs_among signs (component_at parts part)) }
    ensures valid { (mesh : FaceList) (parts : PartsView) (part : ℕ) → AreParts mesh parts → part < length parts.components
        → IsFaceList mesh → IsFaceList (component_mesh mesh parts part) }
    ensures faces { (mesh : FaceList) (parts : PartsView) (part : ℕ) → AreParts mesh parts → part < length parts.components
        → All (λ f. f < length mesh.faces) (component_at parts part) }
{}

/// A mesh of one component is connected, and a connected mesh with a face has one component.
pub fn one_component_is_connected()
    ensures connected { (mesh : FaceList) (parts : PartsView) → AreParts mesh parts → length parts.components ≡ 1
        → EachTwoAreJoined mesh }
    ensures one { (mesh : FaceList) (parts : PartsView) → IsFaceList mesh → AreParts mesh parts → 0 < length mesh.faces
        → EachTwoAreJoined mesh → length parts.components ≡ 1 }
{}

//! What holds of doubles, said of the definitions. A call of one of these functions does nothing; its contract is the law.
ghost use Rattle.std.specs.Prelude.{◌↔◌, ℕ, List};
ghost use Rattle.surf_model.specs.FaceLists.{FaceList, IsFaceList};
ghost use Rattle.surf_model.specs.Walks.{IsWalk};
ghost use Rattle.surf_model.specs.Moves.{Homotopic};
ghost use Rattle.closed_walks.specs.FreeHomotopy.{IsClosedWalk, FreelyHomotopic};
ghost use Rattle.homology.specs.Chains.{AreHomologous};
ghost use Rattle.doubling.specs.Doubles.{double_of};

/// The double of a polygon mesh is one.
pub fn double_is_a_mesh()
    ensures { (mesh : FaceList) → IsFaceList mesh → IsFaceList (double_of mesh) }
{}

/// Walks of a mesh are walks of its double.
pub fn walks_stay_walks()
    ensures { (mesh : FaceList) (walk : List ℕ) → IsWalk mesh walk → IsWalk (double_of mesh) walk }
{}

/// Two walks of a mesh are homotopic in the double exactly where they are in the mesh.
pub fn double_keeps_homotopy()
    ensures { (mesh : FaceList) (first second : List ℕ) → IsFaceList mesh → IsWalk mesh first → IsWalk mesh second
        → Homotopic (double_of mesh) first second ↔ Homotopic mesh first second }
{}

/// Two closed walks of a mesh are freely homotopic in the double exactly where they are in the mesh.
pub fn double_keeps_free_homotopy()
    ensures { (mesh : FaceList) (first second : List ℕ) → IsFaceList mesh → IsClosedWalk mesh first → IsClosedWalk mesh second
        → FreelyHomotopic (double_of mesh) first second ↔ FreelyHomotopic mesh first second }
{}

/// Two walks of a mesh are homologous in the double exactly where they are in the mesh.
pub fn double_keeps_homology()
    ensures { (mesh : FaceList) (first second : List ℕ) → IsFaceList mesh → IsWalk mesh first → IsWalk mesh second
        → AreHomologous (double_of mesh) first second ↔ AreHomologous mesh first second }
{}

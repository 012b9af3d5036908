//! What goes over to a mesh whose vertices have other numbers, said of the definitions. A call of one of these functions does nothing;
//! its contract is the law.
ghost use Rattle.std.specs.Prelude.{◌≡◌, ◌<◌, ◌↔◌, ℕ, Bool, List, length, map, IsTrue};
ghost use Rattle.surf_model.specs.FaceLists.{FaceList, IsFaceList, total_sides, is_edge, is_used};
ghost use Rattle.surf_model.specs.Walks.{IsWalk, HaveCommonEnds};
ghost use Rattle.surf_model.specs.Moves.{Leads, Homotopic, greatest_darts};
ghost use Rattle.surf_model.specs.Surfaces.{IsClosed, IsClosedManifold, IsCoherent};
ghost use Rattle.surf_model.specs.Components.{EachTwoAreJoined};
ghost use Rattle.surf_model.specs.declared.moves.Move.{Move};
ghost use Rattle.renaming.specs.Renamings.{IsRenamed, renamed_move};

/// A renaming leads back: the first mesh is the other one, renamed by `back`. So what goes over by the laws here goes back by them too.
pub fn renaming_leads_back()
    ensures { (there back : ℕ → ℕ) (mesh other : FaceList) → IsFaceList mesh → IsRenamed there back mesh other
        → IsRenamed back there other mesh }
{}

/// A renamed polygon mesh is one, with as many sides; used vertices and edges of the first are so there by their other numbers.
pub fn renamed_mesh_is_a_mesh()
    ensures valid { (there back : ℕ → ℕ) (mesh other : FaceList) → IsRenamed there back mesh other → IsFaceList mesh
        → IsFaceList other }
    ensures sides { (there back : ℕ → ℕ) (mesh other : FaceList) → IsRenamed there back mesh other
        → total_sides other ≡ total_sides mesh }
    ensures used { (there back : ℕ → ℕ) (mesh other : FaceList) (v : ℕ) → IsRenamed there back mesh other
        → IsTrue (is_used mesh v) → IsTrue (is_used other (there v)) }
    ensures edge { (there back : ℕ → ℕ) (mesh other : FaceList) (u v : ℕ) → IsRenamed there back mesh other
        → IsTrue (is_edge mesh u v) → IsTrue (is_edge other (there u) (there v)) }
{}

/// A renamed walk is a walk of the renamed mesh, and renamed by `back` it is the walk again. Common ends stay common.
pub fn renamed_walks_are_walks()
    ensures walk { (there back : ℕ → ℕ) (mesh other : FaceList) (walk : List ℕ) → IsRenamed there back mesh other
        → IsWalk mesh walk → IsWalk other (map there walk) }
    ensures restored { (there back : ℕ → ℕ) (mesh other : FaceList) (walk : List ℕ) → IsRenamed there back mesh other
        → IsWalk mesh walk → map back (map there walk) ≡ walk }
    ensures ends { (there : ℕ → ℕ) (first second : List ℕ) → 0 < length first → 0 < length second → HaveCommonEnds first second
        → HaveCommonEnds (map there first) (map there second) }
{}

/// A list of moves that leads from a walk to another leads, renamed, from the renamed walk to the renamed other, and passes as many darts.
pub fn renamed_moves_lead()
    ensures leads { (there back : ℕ → ℕ) (mesh other : FaceList) (moves : List Move) (first second : List ℕ)
        → IsRenamed there back mesh other → 0 < length first → Leads mesh first moves second
        → Leads other (map there first) (map (renamed_move there) moves) (map there second) }
    ensures darts { (there back : ℕ → ℕ) (mesh other : FaceList) (moves : List Move) (first second : List ℕ)
        → IsRenamed there back mesh other → 0 < length first → Leads mesh first moves second
        → greatest_darts other (map there first) (map (renamed_move there) moves) ≡ greatest_darts mesh first moves }
{}

/// Walks are homotopic exactly where the renamed walks are.
pub fn homotopy_of_renamed_walks()
    ensures { (there back : ℕ → ℕ) (mesh other : FaceList) (first second : List ℕ) → IsFaceList mesh
        → IsRenamed there back mesh other → IsWalk mesh first → IsWalk mesh second
        → Homotopic mesh first second ↔ Homotopic other (map there first) (map there second) }
{}

/// A renamed closed manifold is one, a connected mesh stays connected, and coherent signs stay coherent: a face keeps its sign.
pub fn renamed_surfaces_are_surfaces()
    ensures manifold { (there back : ℕ → ℕ) (mesh other : FaceList) → IsFaceList mesh → IsRenamed there back mesh other
        → IsClosedManifold mesh → IsClosedManifold other }
    ensures closed { (there back : ℕ → ℕ) (mesh other : FaceList) → IsFaceList mesh → IsRenamed there back mesh other
        → IsClosed mesh → IsClosed other }
    ensures connected { (there back : ℕ → ℕ) (mesh other : FaceList) → IsFaceList mesh → IsRenamed there back mesh other
        → EachTwoAreJoined mesh → EachTwoAreJoined other }
    ensures coherent { (there back : ℕ → ℕ) (mesh other : FaceList) (signs : List Bool) → IsFaceList mesh
        → IsRenamed there back mesh other → IsCoherent mesh signs → IsCoherent other signs }
{}

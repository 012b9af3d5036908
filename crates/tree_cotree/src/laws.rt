//! What holds of every split of a surface, however it was made, said of the definitions. A call of one of these
//! functions does nothing; its contract is the law.
ghost use Rattle.std.specs.Prelude.{◌≡◌, ◌≢◌, ◌↔◌, ℕ, ◌+◌, ◌*◌, ◌<◌, Bool, true, false, not, List, length};
ghost use Rattle.surf_model.specs.FaceLists.{FaceList, IsFaceList, is_used};
ghost use Rattle.surf_model.specs.Edges.{Edge, IsTableOf};
ghost use Rattle.surf_model.specs.Surfaces.{IsSurface};
ghost use Rattle.surf_model.specs.Numbers.{count_below};
ghost use Rattle.halfedge_map.specs.OrientedMeshes.{OrientedMesh, IsOrientedSurface};
ghost use Rattle.halfedge_map.specs.DartMaps.{used_vertices};
ghost use Rattle.halfedge_map.specs.RotationSystems.{rotations_of};
ghost use Rattle.tree_cotree.specs.SpanningTrees.{MakesOneRing};
ghost use Rattle.tree_cotree.specs.Splits.{SplitView, HasTrees, IsSplit, in_tree, in_cotree, is_left};
ghost use Rattle.tree_cotree.specs.Colourings.{ColouringView, IsColouring};
ghost use Rattle.tree_cotree.specs.ColouredTrees.{HasColouredTrees};

/// All darts stand on one ring of the tree, and on one ring of the edges outside the cotree, which are those of the tree
/// and the leftover ones.
pub fn split_leaves_one_ring()
    ensures tree { (surface : OrientedMesh) (split : SplitView) → IsOrientedSurface surface → IsSplit surface split
        → MakesOneRing (rotations_of surface) (in_tree split) }
    ensures tree_and_left { (surface : OrientedMesh) (split : SplitView) → IsOrientedSurface surface → IsSplit surface split
        → MakesOneRing (rotations_of surface) (λ e. not (in_cotree split e)) }
{}

/// Used vertices, faces and twice the genus are two more than the edges: the genus is the one of the Euler
/// characteristic.
pub fn genus_is_exact()
    ensures { (surface : OrientedMesh) (split : SplitView) → IsOrientedSurface surface → IsSplit surface split
        → used_vertices surface + length surface.mesh.faces + 2 * split.genus ≡ length surface.table + 2 }
{}

/// Each connected orientable closed surface has a table of its edges, and a genus: used vertices, faces and twice the genus
/// are two more than the edges.
pub fn each_surface_has_a_genus()
    ensures { (mesh : FaceList) → IsFaceList mesh → IsSurface mesh → (table : List Edge) × IsTableOf mesh table
        × (genus : ℕ) × (count_below (is_used mesh) mesh.count + length mesh.faces + 2 * genus ≡ length table + 2) }
{}

/// The number of leftover edges is even, whatever tree and cotree are taken.
pub fn leftover_edges_are_even()
    ensures { (surface : OrientedMesh) (split : SplitView) → IsOrientedSurface surface
        → HasTrees surface split
        → (genus : ℕ) × (count_below (is_left split) (length surface.table) ≡ 2 * genus) }
{}

/// Whatever tree and cotree edges are coloured by: where a root face with a leftover edge, if there is one, and half the number of
/// the leftover edges are told with them, there are ways to the roots, so that some split tells this. And each split does.
pub fn colourings_with_trees_are_of_splits()
    ensures { (surface : OrientedMesh) (colouring : ColouringView) → IsOrientedSurface surface
        → HasColouredTrees surface colouring ↔ IsColouring surface colouring }
{}

/// Each surface has a split, whoever makes it.
pub fn each_surface_has_a_split()
    ensures { (surface : OrientedMesh) → IsOrientedSurface surface → (split : SplitView) × IsSplit surface split }
{}

//! What holds of the labelling of a cut, said of the definitions. A call of one of these functions does nothing; its
//! contract is the law.
ghost use Rattle.std.specs.Prelude.{◌≡◌, ◌↔◌, ℕ, ◌-◌, ◌<◌, ◌≤◌, true, List, All, length, slice_index};
ghost use Rattle.surf_model.specs.Walks.{IsWalk, HaveCommonEnds};
ghost use Rattle.surf_model.specs.Moves.{Homotopic};
ghost use Rattle.turn_words.specs.FormLaws.{led};
ghost use Rattle.turn_words.specs.Canonical.{IsCanonicalOf};
ghost use Rattle.turn_words.specs.SpokePaths.{turn_word_of};
ghost use Rattle.flat_forms.specs.Vectors.{origin};
ghost use Rattle.flat_forms.specs.FlatStates.{flat_next};
ghost use Rattle.labellings.specs.GoodLabellings.{IsGood};
ghost use Rattle.labellings.specs.QuadPaths.{quad_path};
ghost use Rattle.quad_system.specs.PolygonLabellings.{labelling_from, all_zero, IsFull};
ghost use Rattle.halfedge_map.specs.OrientedMeshes.{OrientedMesh, IsOrientedSurface};
ghost use Rattle.tree_cotree.specs.Splits.{SplitView, IsSplit};
ghost use Rattle.polygon_cut.specs.Polygons.{PolygonView, IsCutFrom};
ghost use Rattle.polygon_cut.specs.SpokeLoops.{AreWaysUp, HaveFreeSpokes, by_loop, path_loop, spokes_along};

pub use labellings::laws::{
    homotopic_walks_have_one_word, moves_keep_the_state,
    no_list_of_moves_leads_where_a_denial_holds,
};
use turn_words::Form;

/// The labelling that a polygon gives is good, whatever tree and cotree it was cut along, and it is full.
pub fn polygon_labelling_is_good_and_full()
    ensures good { (surface : OrientedMesh) (split : SplitView) (polygon : PolygonView) → IsOrientedSurface surface
        → IsSplit surface split → IsCutFrom surface split polygon → 0 < polygon.degree
        → IsGood surface.mesh (labelling_from surface polygon) }
    ensures full { (surface : OrientedMesh) (split : SplitView) (polygon : PolygonView) → IsOrientedSurface surface
        → IsSplit surface split → IsCutFrom surface split polygon → 0 < polygon.degree
        → IsFull surface.mesh (labelling_from surface polygon) }
{}

/// A good labelling need not be full. On every surface the labels that are all 0 are good, since each edge meets the tree
/// rule, and they are not full.
pub fn good_need_not_be_full()
    ensures good { (surface : OrientedMesh) → IsOrientedSurface surface → IsGood surface.mesh (all_zero surface) }
    ensures not_full { (surface : OrientedMesh) → IsFull surface.mesh (all_zero surface) → ⊥ }
{}

/// What a walk is told by up to spurs. Spokes of its darts, with those of the side across in place of the last side's,
/// are spokes of the polygon, and lead a state at the vertex to the same state as the quad path, in every form whose
/// states belong to the places.
pub fn free_spokes_lead_where_the_quad_path_does<F: Form>()
    ensures below { (surface : OrientedMesh) (split : SplitView) (polygon : PolygonView) (spokes : ℕ → ℕ → List ℕ)
        (walk : List ℕ) → IsOrientedSurface surface → IsSplit surface split → IsCutFrom surface split polygon
        → 0 < polygon.degree → HaveFreeSpokes surface polygon spokes → IsWalk surface.mesh walk
        → All (λ spoke. spoke < length polygon.places) (spokes_along spokes walk) }
    ensures state { (surface : OrientedMesh) (split : SplitView) (polygon : PolygonView) (spokes : ℕ → ℕ → List ℕ)
        (walk : List ℕ) (state : F.State) → IsOrientedSurface surface → IsSplit surface split
        → IsCutFrom surface split polygon → 0 < polygon.degree → HaveFreeSpokes surface polygon spokes
        → IsWalk surface.mesh walk → F.Belongs polygon.places state → F.IsAtVertex state
        → led F.next polygon.places state (spokes_along spokes walk)
        ≡ led F.next polygon.places state (quad_path surface.mesh (labelling_from surface polygon) walk) }
{}

/// A walk is homotopic to the loop of the spokes of its quad path, with the way up the tree before it and the way down behind it.
pub fn walks_are_the_loops_of_their_quad_paths()
    ensures { (surface : OrientedMesh) (split : SplitView) (polygon : PolygonView) (root : ℕ) (up : ℕ → List ℕ) (walk : List ℕ)
        → IsOrientedSurface surface → IsSplit surface split → IsCutFrom surface split polygon → 0 < polygon.degree
        → AreWaysUp surface split root up → IsWalk surface.mesh walk
        → Homotopic surface.mesh walk
        (by_loop up (slice_index walk 0) (slice_index walk (length walk - 1))
        (path_loop surface polygon root up true (quad_path surface.mesh (labelling_from surface polygon) walk))) }
{}

/// What canonical words decide. On a cut with five sides at least, two walks with common ends are homotopic exactly where
/// the turn words of their quad paths have one canonical word. Moves keep the word by the fold law; and where the words
/// are one, each walk is homotopic to the product of the spokes that it passes, which steps on turn words do not change.
pub fn homotopic_where_the_words_are_one()
    ensures { (surface : OrientedMesh) (split : SplitView) (polygon : PolygonView) (first second one other : List ℕ)
        → IsOrientedSurface surface → IsSplit surface split → IsCutFrom surface split polygon → 5 ≤ polygon.degree
        → IsWalk surface.mesh first → IsWalk surface.mesh second → HaveCommonEnds first second
        → IsCanonicalOf polygon.degree
        (turn_word_of polygon.places (quad_path surface.mesh (labelling_from surface polygon) first)) one
        → IsCanonicalOf polygon.degree
        (turn_word_of polygon.places (quad_path surface.mesh (labelling_from surface polygon) second)) other
        → Homotopic surface.mesh first second ↔ (one ≡ other) }
{}

/// What the plane decides. On a cut with four sides, two walks with common ends are homotopic exactly where their quad
/// paths lead the form of the degree 4 from the origin to one point of the plane.
pub fn homotopic_where_the_points_are_one()
    ensures { (surface : OrientedMesh) (split : SplitView) (polygon : PolygonView) (first second : List ℕ)
        → IsOrientedSurface surface → IsSplit surface split → IsCutFrom surface split polygon → polygon.degree ≡ 4
        → IsWalk surface.mesh first → IsWalk surface.mesh second → HaveCommonEnds first second
        → Homotopic surface.mesh first second
        ↔ (led flat_next polygon.places origin (quad_path surface.mesh (labelling_from surface polygon) first)
        ≡ led flat_next polygon.places origin (quad_path surface.mesh (labelling_from surface polygon) second)) }
{}

//! What holds of every polygon cut from a surface, said of the definitions. A call of one of these functions does
//! nothing; its contract is the law.
ghost use Rattle.std.specs.Prelude.{◌≡◌, ◌≢◌, ◌⊎◌, ℕ, ◌+◌, ◌*◌, ◌-◌, ◌<◌, ◌≤◌, true, false, List, [], ◌∷◌, ◌++◌, length, slice_index, All};
ghost use Rattle.surf_model.specs.FaceLists.{FaceList, IsFaceList, is_used};
ghost use Rattle.surf_model.specs.Surfaces.{IsSurface};
ghost use Rattle.surf_model.specs.Genera.{HasGenus};
ghost use Rattle.surf_model.specs.Walks.{IsWalk, AreWalkPair};
ghost use Rattle.surf_model.specs.Moves.{Homotopic, Leads};
ghost use Rattle.surf_model.specs.FreeWalks.{AreFreelyEqual};
ghost use Rattle.surf_model.specs.declared.moves.Move.{Move};
ghost use Rattle.halfedge_map.specs.Orbits.{IsReached};
ghost use Rattle.halfedge_map.specs.OrientedMeshes.{OrientedMesh, IsOrientedSurface};
ghost use Rattle.halfedge_map.specs.DartMaps.{darts_of, next_of, twin_of, edge_of, origin_of};
ghost use Rattle.halfedge_map.specs.RotationSystems.{rotations_of};
ghost use Rattle.tree_cotree.specs.Splits.{SplitView, IsSplit, in_tree, in_cotree, is_left};
ghost use Rattle.polygon_cut.specs.Polygons.{PolygonView, IsCutFrom, KindLabels, label_of, place_of, turned, one_up, one_down};
ghost use Rattle.polygon_cut.specs.RingWalks.{ring_walk, IsRingArc};
ghost use Rattle.polygon_cut.specs.ShortWalks.{AreShortAround, IsFreelyShort};
ghost use Rattle.polygon_cut.specs.SpokeLoops.{AreWaysUp, HaveFreeSpokes, LeavesCotree, IsOffCotree, by_loop, path_loop, spokes_along};
ghost use Rattle.polygon_cut.specs.SpokeLoops.{backward, comes_back, way_round, way_back_round, last_side, last_side_loop, across_last, ArePushedFreely, ArePushedWithLoop};

/// One step along the ring of tree and leftover edges keeps the label, or raises it by one past a leftover dart: along a
/// tree edge both labels are one, across a cotree edge they are, and along a leftover edge the label rises by one.
pub fn labels_ride_along_the_ring()
    ensures { (surface : OrientedMesh) (split : SplitView) (polygon : PolygonView) (dart : ℕ) → IsOrientedSurface surface
        → IsSplit surface split → IsCutFrom surface split polygon → 0 < polygon.degree → dart < darts_of surface
        → KindLabels (rotations_of surface) (in_tree split) (in_cotree split) (is_left split) polygon dart }
{}

/// Turning round the one vertex, from side to side, every side is reached from side 0.
pub fn turning_reaches_every_side()
    ensures { (surface : OrientedMesh) (split : SplitView) (polygon : PolygonView) (side : ℕ) → IsOrientedSurface surface
        → IsSplit surface split → IsCutFrom surface split polygon → side < polygon.degree
        → IsReached (turned (rotations_of surface) polygon) 0 side }
{}

/// The places meet the leftover rule: where a leftover dart has the label `a` and its twin `c`, the spoke `c + 1` stands one
/// place before `a`. For four sides they rise by one with the spokes.
pub fn places_turn_round_the_vertex()
    ensures leftover { (surface : OrientedMesh) (split : SplitView) (polygon : PolygonView) (dart : ℕ) → IsOrientedSurface surface
        → IsSplit surface split → IsCutFrom surface split polygon → 0 < polygon.degree → dart < darts_of surface
        → is_left split (edge_of surface dart) ≡ true
        → place_of polygon (one_up polygon.degree (label_of polygon (twin_of surface dart)))
        ≡ one_down polygon.degree (place_of polygon (label_of polygon dart)) }
    ensures four { (surface : OrientedMesh) (split : SplitView) (polygon : PolygonView) (spoke : ℕ) → IsOrientedSurface surface
        → IsSplit surface split → IsCutFrom surface split polygon → polygon.degree ≡ 4 → spoke < 4
        → place_of polygon (one_up 4 spoke) ≡ one_up 4 (place_of polygon spoke) }
{}

/// On a connected orientable closed surface of genus 0, so of Euler characteristic 2, any two walks with common ends are homotopic.
pub fn walks_on_a_surface_of_genus_0_are_homotopic()
    ensures { (mesh : FaceList) (first second : List ℕ) → IsFaceList mesh → IsSurface mesh → HasGenus mesh 0
        → AreWalkPair mesh first second → Homotopic mesh first second }
{}

// Up to spurs alone: walks as products of the loops of spokes.

/// A walk off the cotree, to which spur moves and ways round the faces below cotree edges lead from another walk, is the
/// loop of that walk's spokes, with the way up the tree before it and the way down behind it, up to spurs.
pub fn walks_are_freely_their_spokes()
    ensures { (surface : OrientedMesh) (split : SplitView) (polygon : PolygonView) (root : ℕ) (up : ℕ → List ℕ)
        (spokes : ℕ → ℕ → List ℕ) (first second : List ℕ) (moves : List Move) → IsOrientedSurface surface
        → IsSplit surface split → IsCutFrom surface split polygon → 0 < polygon.degree → AreWaysUp surface split root up
        → HaveFreeSpokes surface polygon spokes → IsWalk surface.mesh first → Leads surface.mesh first moves second
        → All (LeavesCotree surface split) moves → IsOffCotree surface split second
        → AreFreelyEqual surface.mesh second
        (by_loop up (slice_index second 0) (slice_index second (length second - 1))
        (path_loop surface polygon root up true (spokes_along spokes first))) }
{}

/// The way once round the root face from the last side, led off the cotree by such moves, is the loop of the last side,
/// with the way up the tree before it and the way down behind it, up to spurs; and the same way backward is that loop
/// backward.
pub fn root_face_is_freely_the_loop_of_the_last_side()
    ensures forward { (surface : OrientedMesh) (split : SplitView) (polygon : PolygonView) (root : ℕ) (up : ℕ → List ℕ)
        (second : List ℕ) (moves : List Move) → IsOrientedSurface surface → IsSplit surface split
        → IsCutFrom surface split polygon → 0 < polygon.degree → AreWaysUp surface split root up
        → Leads surface.mesh (way_round surface split (last_side polygon)) moves second
        → All (LeavesCotree surface split) moves → IsOffCotree surface split second
        → AreFreelyEqual surface.mesh second
        (by_loop up (origin_of surface (last_side polygon)) (origin_of surface (last_side polygon))
        (last_side_loop surface polygon root up)) }
    ensures back { (surface : OrientedMesh) (split : SplitView) (polygon : PolygonView) (root : ℕ) (up : ℕ → List ℕ)
        (second : List ℕ) (moves : List Move) → IsOrientedSurface surface → IsSplit surface split
        → IsCutFrom surface split polygon → 0 < polygon.degree → AreWaysUp surface split root up
        → Leads surface.mesh (way_back_round surface split (last_side polygon)) moves second
        → All (LeavesCotree surface split) moves → IsOffCotree surface split second
        → AreFreelyEqual surface.mesh second
        (by_loop up (origin_of surface (last_side polygon)) (origin_of surface (last_side polygon))
        (backward root (last_side_loop surface polygon root up))) }
{}

/// A push across the quad of a side and of the one across from it leaves the loop of a list of spokes as it is, up to
/// spurs. Across the quad of the last side it puts the loop of the last side in once.
pub fn pushes_are_free_but_at_the_last_side()
    ensures others { (surface : OrientedMesh) (split : SplitView) (polygon : PolygonView) (root : ℕ) (up : ℕ → List ℕ)
        (side : ℕ) → IsOrientedSurface surface → IsSplit surface split → IsCutFrom surface split polygon
        → AreWaysUp surface split root up → side < polygon.degree → ArePushedFreely surface polygon root up side }
    ensures last { (surface : OrientedMesh) (split : SplitView) (polygon : PolygonView) (root : ℕ) (up : ℕ → List ℕ)
        → IsOrientedSurface surface → IsSplit surface split → IsCutFrom surface split polygon → 0 < polygon.degree
        → AreWaysUp surface split root up
        → ArePushedWithLoop surface polygon root up (polygon.degree - 1) (across_last surface polygon) }
{}

/// What a walk along the ring of tree and leftover edges is worth: up to spurs, an arc of the ring is the loop of two spokes, there
/// along that of the label at its first dart, and back along that of the label at the dart to which it leads, with the way up the tree
/// before the loop and the way down behind it. So is each dart off the cotree that is not the last side, by the labels at its
/// tail and at its head. And of any two darts, so of any two sides too, there is an arc from the one to the other or from the other to
/// the one, with fewer steps than there are darts.
pub fn ring_walks_are_freely_two_spokes()
    ensures walk { (surface : OrientedMesh) (split : SplitView) (polygon : PolygonView) (root : ℕ) (up : ℕ → List ℕ)
        (from to steps : ℕ) → IsOrientedSurface surface → IsSplit surface split → IsCutFrom surface split polygon
        → 0 < polygon.degree → AreWaysUp surface split root up → from < darts_of surface
        → IsRingArc surface split polygon from to steps
        → AreFreelyEqual surface.mesh (origin_of surface from ∷ ring_walk surface split steps from)
        (by_loop up (origin_of surface from) (origin_of surface to)
        (path_loop surface polygon root up true (label_of polygon from ∷ label_of polygon to ∷ []))) }
    ensures dart { (surface : OrientedMesh) (split : SplitView) (polygon : PolygonView) (root : ℕ) (up : ℕ → List ℕ)
        (dart : ℕ) → IsOrientedSurface surface → IsSplit surface split → IsCutFrom surface split polygon
        → 0 < polygon.degree → AreWaysUp surface split root up → dart < darts_of surface
        → in_cotree split (edge_of surface dart) ≡ false → dart ≢ last_side polygon
        → AreFreelyEqual surface.mesh (origin_of surface dart ∷ origin_of surface (twin_of surface dart) ∷ [])
        (by_loop up (origin_of surface dart) (origin_of surface (twin_of surface dart))
        (path_loop surface polygon root up true (label_of polygon dart ∷ label_of polygon (next_of surface dart) ∷ []))) }
    ensures joined { (surface : OrientedMesh) (split : SplitView) (polygon : PolygonView) (one other : ℕ)
        → IsOrientedSurface surface → IsSplit surface split → IsCutFrom surface split polygon → 0 < polygon.degree
        → one < darts_of surface → other < darts_of surface
        → (steps : ℕ) × (steps < darts_of surface)
        × (IsRingArc surface split polygon one other steps ⊎ IsRingArc surface split polygon other one steps) }
{}

/// The loop of a list of spokes, with a way up the tree before it and a way down behind it, is a short walk, up to spurs:
/// for each two spokes it goes once along the tree and once along a part of the ring, and at the end along the tree again.
pub fn loops_of_spokes_are_short()
    ensures { (surface : OrientedMesh) (split : SplitView) (polygon : PolygonView) (root : ℕ) (up : ℕ → List ℕ) (u v pairs : ℕ)
        (path : List ℕ) → IsOrientedSurface surface → IsSplit surface split → IsCutFrom surface split polygon
        → 0 < polygon.degree → AreWaysUp surface split root up → is_used surface.mesh u ≡ true → is_used surface.mesh v ≡ true
        → All (λ spoke. spoke < polygon.degree) path → length path ≤ 2 * pairs
        → IsFreelyShort surface pairs (by_loop up u v (path_loop surface polygon root up true path)) }
{}

/// Where the loop of the last side is put in, the way there and the way back and on are short, up to spurs: behind an even
/// number of spokes of a path, with or without the two of the side across from the last one behind them, or behind an odd
/// number with any one spoke behind them.
pub fn loops_are_put_in_along_short_ways()
    ensures behind { (surface : OrientedMesh) (split : SplitView) (polygon : PolygonView) (before after : List ℕ)
        (there home pairs : ℕ) → IsOrientedSurface surface → IsSplit surface split → IsCutFrom surface split polygon
        → 0 < polygon.degree → comes_back before ≡ true → All (λ spoke. spoke < polygon.degree) before
        → All (λ spoke. spoke < polygon.degree) after → length before ≤ 2 * there → length after ≤ 2 * home
        → there + home ≤ pairs → AreShortAround surface split polygon before (before ++ after) pairs }
    ensures behind_two { (surface : OrientedMesh) (split : SplitView) (polygon : PolygonView) (before after : List ℕ)
        (there home pairs : ℕ) → IsOrientedSurface surface → IsSplit surface split → IsCutFrom surface split polygon
        → 0 < polygon.degree → comes_back before ≡ true → All (λ spoke. spoke < polygon.degree) before
        → All (λ spoke. spoke < polygon.degree) after → length before ≤ 2 * there → length after ≤ 2 * home
        → there + home ≤ pairs
        → AreShortAround surface split polygon
        (before ++ across_last surface polygon ∷ (across_last surface polygon + 1) ∷ []) (before ++ after) pairs }
    ensures behind_one { (surface : OrientedMesh) (split : SplitView) (polygon : PolygonView) (before : List ℕ) (spoke : ℕ)
        (after : List ℕ) (there home pairs : ℕ) → IsOrientedSurface surface → IsSplit surface split
        → IsCutFrom surface split polygon → 0 < polygon.degree → comes_back before ≡ false
        → All (λ spoke. spoke < polygon.degree) (before ++ spoke ∷ []) → All (λ spoke. spoke < polygon.degree) (spoke ∷ after)
        → length before < 2 * there → length after < 2 * home → there + home ≤ pairs
        → AreShortAround surface split polygon (before ++ spoke ∷ []) (before ++ after) pairs }
{}

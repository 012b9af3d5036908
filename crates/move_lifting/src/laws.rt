//! What holds of walks that are led off the cotree of a surface, and of walks without spurs, said of the definitions. A call of one of
//! these functions does nothing; its contract is the law.
ghost use Rattle.std.specs.Prelude.{◌≡◌, ◌*◌, ◌<◌, ◌≤◌, ℕ, List, length};
ghost use Rattle.surf_model.specs.FaceLists.{FaceList};
ghost use Rattle.surf_model.specs.FreeWalks.{AreFreelyEqual, HasNoSpur};
ghost use Rattle.surf_model.specs.Moves.{PeakedMoves};
ghost use Rattle.surf_model.specs.declared.limits.TheConstants.{MOST_PEAK};
ghost use Rattle.surf_model.specs.Walks.{IsWalk, darts};
ghost use Rattle.halfedge_map.specs.OrientedMeshes.{OrientedMesh, IsOrientedSurface};
ghost use Rattle.halfedge_map.specs.DartMaps.{darts_of, face_of};
ghost use Rattle.tree_cotree.specs.Splits.{SplitView, IsSplit};
ghost use Rattle.polygon_cut.specs.SpokeLoops.{way_round};
ghost use Rattle.move_lifting.specs.Lifts.{HasLowPeak, IsShortList};
ghost use Rattle.move_lifting.specs.WalksOff.{LeadsOffCotree};
ghost use Rattle.move_lifting.specs.declared.expanding.TheConstants.{MOST_LIFTED_SIDES, MOST_LIFTED_DARTS, MOST_LOW_PEAK, MOST_SHORT_MOVES};

/// Moves that go round the faces below cotree edges lead from each walk of a surface to one off the cotree, that has at most as many
/// darts as the surface for each of its own. So a dart on a cotree edge leads to a walk off the cotree of at most as many darts as the
/// surface has; and so does the way all round the root face.
pub fn walks_lead_off_the_cotree()
    ensures walk { (surface : OrientedMesh) (split : SplitView) (walk : List ℕ) → IsOrientedSurface surface → IsSplit surface split
        → IsWalk surface.mesh walk → LeadsOffCotree surface split walk (darts walk * darts_of surface) }
    ensures root_face { (surface : OrientedMesh) (split : SplitView) (dart : ℕ) → IsOrientedSurface surface → IsSplit surface split
        → dart < darts_of surface → face_of surface dart ≡ split.root_face
        → LeadsOffCotree surface split (way_round surface split dart) (darts_of surface) }
{}

/// A low peak, within the limits of `lift`, is at most `MOST_LOW_PEAK`. So a file that has such a list is read: its peak is no greater than
/// those that are read.
pub fn low_peaks_are_read()
    ensures most { (sides darts : ℕ) (list : PeakedMoves) → sides ≤ MOST_LIFTED_SIDES → darts ≤ MOST_LIFTED_DARTS
        → HasLowPeak sides darts list → list.peak ≤ MOST_LOW_PEAK }
    ensures read { (sides darts : ℕ) (list : PeakedMoves) → sides ≤ MOST_LIFTED_SIDES → darts ≤ MOST_LIFTED_DARTS
        → HasLowPeak sides darts list → list.peak ≤ MOST_PEAK }
{}

/// A short list, within the limits of `lift`, has at most `MOST_SHORT_MOVES` moves.
pub fn short_lists_are_few()
    ensures { (sides darts : ℕ) (list : PeakedMoves) → sides ≤ MOST_LIFTED_SIDES → darts ≤ MOST_LIFTED_DARTS
        → IsShortList sides darts list → length list.moves ≤ MOST_SHORT_MOVES }
{}

/// A walk is at least as long as one without spurs that spur moves alone lead to.
pub fn walk_without_spurs_is_shortest()
    ensures { (mesh : FaceList) (walk reduced : List ℕ) → 0 < length walk → AreFreelyEqual mesh walk reduced → HasNoSpur reduced
        → length reduced ≤ length walk }
{}

//! What walks and lists of moves have to do with what is left of the walks between their common darts. The functions do nothing.
ghost use Rattle.std.specs.Prelude.{◌↔◌, List, ℕ};
ghost use Rattle.surf_model.specs.FaceLists.{FaceList};
ghost use Rattle.surf_model.specs.Moves.{PeakedMoves, Homotopic};
ghost use Rattle.surf_model.specs.Walks.{IsWalk};
ghost use Rattle.surf_model.specs.PeakedLists.{LeadsAtPeak};
ghost use Rattle.common_ends.specs.Trimmed.{AreCommonDarts, between, put_around};
ghost use Rattle.common_ends.specs.declared.common_darts.CommonDarts.{CommonDarts};

/// Two walks are homotopic exactly where what is left of them between their common darts is.
pub fn homotopic_where_the_parts_between_are()
    ensures { (mesh : FaceList) (first second : List ℕ) (common : CommonDarts) → IsWalk mesh first → IsWalk mesh second
        → AreCommonDarts first second common
        → Homotopic mesh first second
        ↔ Homotopic mesh (between common.front common.back first) (between common.front common.back second) }
{}

/// A list of moves between what is left leads from the one walk to the other where the common darts stand around it, and its peak is exact:
/// that of the list, and all common darts.
pub fn a_list_between_leads_around()
    ensures { (mesh : FaceList) (first second : List ℕ) (common : CommonDarts) (list : PeakedMoves) → IsWalk mesh first
        → IsWalk mesh second → AreCommonDarts first second common
        → LeadsAtPeak mesh (between common.front common.back first) list (between common.front common.back second)
        → LeadsAtPeak mesh first (put_around common list) second }
{}

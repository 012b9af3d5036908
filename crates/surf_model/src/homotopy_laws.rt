//! What holds of lists of moves and of the walks that they join, said of the definitions. A call of one of these
//! functions does nothing; its contract is the law.
ghost use Rattle.std.specs.Prelude.{◌≡◌, ◌<◌, ℕ, List, ◌++◌, length, Option, Some};
ghost use Rattle.surf_model.specs.FaceLists.{FaceList};
ghost use Rattle.surf_model.specs.Walks.{IsWalk, HaveCommonEnds};
ghost use Rattle.surf_model.specs.Moves.{apply, Leads, Homotopic};
ghost use Rattle.surf_model.specs.Rewriting.{raised, all_raised, inverse_of, sides_of_move, way_back};
ghost use Rattle.surf_model.specs.FreeWalks.{AreFreelyEqual, HasNoSpur, IsAlongTree, RankFalls};
ghost use Rattle.surf_model.specs.declared.moves.Move.{Move};

/// A move leads from a walk to a walk with the same ends, and so does a list of moves.
pub fn moves_keep_walks_and_ends()
    ensures walk { (mesh : FaceList) (walk next : List ℕ) (moves : List Move) → IsWalk mesh walk → Leads mesh walk moves next
        → IsWalk mesh next }
    ensures ends { (mesh : FaceList) (walk next : List ℕ) (moves : List Move) → IsWalk mesh walk → Leads mesh walk moves next
        → HaveCommonEnds walk next }
{}

/// Moves do in a longer walk what they do in a part of it: what stands in front and behind stays, and their places
/// rise by the number of entries in front.
pub fn moves_in_context()
    ensures one { (mesh : FaceList) (walk next before after : List ℕ) (move : Move) → 0 < length walk → apply mesh walk move ≡ Some next
        → apply mesh (before ++ walk ++ after) (raised (length before) move) ≡ Some (before ++ next ++ after) }
    ensures list { (mesh : FaceList) (walk next before after : List ℕ) (moves : List Move) → 0 < length walk → Leads mesh walk moves next
        → Leads mesh (before ++ walk ++ after) (all_raised (length before) moves) (before ++ next ++ after) }
{}

/// Where a move leads from a walk, its inverse leads back; the inverses of a list of moves, the last one first, lead
/// back along the list.
pub fn inverses_lead_back()
    ensures one { (mesh : FaceList) (walk next : List ℕ) (move : Move) → IsWalk mesh walk → apply mesh walk move ≡ Some next
        → apply mesh next (inverse_of (sides_of_move mesh move) move) ≡ Some walk }
    ensures list { (mesh : FaceList) (walk next : List ℕ) (moves : List Move) → IsWalk mesh walk → Leads mesh walk moves next
        → Leads mesh next (way_back mesh moves) walk }
{}

/// Homotopy of walks is an equivalence, and homotopic parts of a walk may take each other's place.
pub fn homotopy_is_a_congruence()
    ensures reflexive { (mesh : FaceList) (walk : List ℕ) → Homotopic mesh walk walk }
    ensures symmetric { (mesh : FaceList) (first second : List ℕ) → IsWalk mesh first → Homotopic mesh first second
        → Homotopic mesh second first }
    ensures transitive { (mesh : FaceList) (first second third : List ℕ) → Homotopic mesh first second → Homotopic mesh second third
        → Homotopic mesh first third }
    ensures in_context { (mesh : FaceList) (first second before after : List ℕ) → 0 < length first → Homotopic mesh first second
        → Homotopic mesh (before ++ first ++ after) (before ++ second ++ after) }
{}

/// To be joined by spur moves alone is an equivalence too, and such parts of a walk may take each other's place.
pub fn free_equality_is_a_congruence()
    ensures reflexive { (mesh : FaceList) (walk : List ℕ) → AreFreelyEqual mesh walk walk }
    ensures symmetric { (mesh : FaceList) (first second : List ℕ) → IsWalk mesh first → AreFreelyEqual mesh first second
        → AreFreelyEqual mesh second first }
    ensures transitive { (mesh : FaceList) (first second third : List ℕ) → AreFreelyEqual mesh first second
        → AreFreelyEqual mesh second third → AreFreelyEqual mesh first third }
    ensures in_context { (mesh : FaceList) (first second before after : List ℕ) → 0 < length first → AreFreelyEqual mesh first second
        → AreFreelyEqual mesh (before ++ first ++ after) (before ++ second ++ after) }
{}

/// Of the walks that spur moves alone join, one at most has no spur.
pub fn reduced_walk_is_unique()
    ensures { (mesh : FaceList) (first second : List ℕ) → 0 < length first → AreFreelyEqual mesh first second → HasNoSpur first
        → HasNoSpur second → first ≡ second }
{}

/// Two walks along one tree with common ends and without spurs are equal.
pub fn walk_along_a_tree_is_unique()
    ensures { (parent : ℕ → Option ℕ) (rank : ℕ → ℕ) (first second : List ℕ) → RankFalls parent rank → 0 < length first → 0 < length second
        → IsAlongTree parent first → IsAlongTree parent second → HasNoSpur first → HasNoSpur second → HaveCommonEnds first second
        → first ≡ second }
{}

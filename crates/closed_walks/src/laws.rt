//! What holds of freely homotopic walks, said of the definitions. A call of one of these functions does nothing; its contract is
//! the law.
ghost use Rattle.std.specs.Prelude.{◌≡◌, ℕ, List, ◌++◌, drop, slice_index};
ghost use Rattle.surf_model.specs.FaceLists.{FaceList};
ghost use Rattle.surf_model.specs.Walks.{IsWalk, darts};
ghost use Rattle.surf_model.specs.Moves.{Homotopic};
ghost use Rattle.closed_walks.specs.FreeHomotopy.{IsClosedWalk, FreelyLeads, FreeStep, FreelyHomotopic};

/// Homotopic walks are freely homotopic.
pub fn homotopic_walks_are_freely_homotopic()
    ensures { (mesh : FaceList) (first second : List ℕ) → Homotopic mesh first second → FreelyHomotopic mesh first second }
{}

/// Free steps lead from a closed walk to a closed walk.
pub fn free_steps_keep_closed_walks()
    ensures { (mesh : FaceList) (walk next : List ℕ) (steps : List FreeStep) → IsClosedWalk mesh walk
        → FreelyLeads mesh walk steps next → IsClosedWalk mesh next }
{}

/// Free homotopy of closed walks is an equivalence. A move is undone by its inverse, and a change of the start by the others
/// all round.
pub fn free_homotopy_is_an_equivalence()
    ensures reflexive { (mesh : FaceList) (walk : List ℕ) → FreelyHomotopic mesh walk walk }
    ensures symmetric { (mesh : FaceList) (first second : List ℕ) → IsClosedWalk mesh first → FreelyHomotopic mesh first second
        → FreelyHomotopic mesh second first }
    ensures transitive { (mesh : FaceList) (first second third : List ℕ) → FreelyHomotopic mesh first second
        → FreelyHomotopic mesh second third → FreelyHomotopic mesh first third }
{}

/// A closed walk that is put together of two walks, one there and one back, is freely homotopic to the one that goes back
/// first.
pub fn closed_walk_may_start_at_its_second_part()
    ensures { (mesh : FaceList) (there back : List ℕ) → IsWalk mesh there → IsWalk mesh back
        → slice_index back 0 ≡ slice_index there (darts there) → slice_index there 0 ≡ slice_index back (darts back)
        → FreelyHomotopic mesh (there ++ drop 1 back) (back ++ drop 1 there) }
{}

//! What the definitions of this crate say together. The functions do nothing.
ghost use Rattle.std.specs.Prelude.{◌≡◌, ◌<◌, ◌↔◌, List, ℕ, length};
ghost use Rattle.surf_model.specs.Moves.{Homotopic};
ghost use Rattle.surf_model.specs.Walks.{IsWalk};
ghost use Rattle.free_forms.specs.Parents.{OpenView, HasFaceParents};
ghost use Rattle.free_forms.specs.Normal.{IsNormalWalkOf};

/// A walk has one normal walk at most.
pub fn normal_walk_is_unique()
    ensures { (surface : OpenView) (walk first second : List ℕ) → HasFaceParents surface → 0 < length walk
        → IsNormalWalkOf surface walk first → IsNormalWalkOf surface walk second → first ≡ second }
{}

/// Two walks are homotopic exactly where their normal walks are equal.
pub fn homotopic_by_normal_walks()
    ensures { (surface : OpenView) (walk other first second : List ℕ) → HasFaceParents surface → IsWalk surface.mesh walk
        → IsWalk surface.mesh other → IsNormalWalkOf surface walk first → IsNormalWalkOf surface other second
        → Homotopic surface.mesh walk other ↔ (first ≡ second) }
{}

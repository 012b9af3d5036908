//! What holds of actions, said of the definitions. A call of one of these functions does nothing; its contract is the law.
ghost use Rattle.std.specs.Prelude.{ℕ, List, All, slice_index};
ghost use Rattle.surf_model.specs.FaceLists.{FaceList};
ghost use Rattle.surf_model.specs.Walks.{IsWalk};
ghost use Rattle.surf_model.specs.Moves.{Leads};
ghost use Rattle.surf_model.specs.declared.moves.Move.{Move};
ghost use Rattle.walk_actions.specs.Actions.{walked, Acts, FacesActAsNothing, CrossesOnly};

/// What darts do to states.
pub trait Action {
    /// What is carried along a walk.
    ghost State: { Type 0 };

    /// The state that a dart makes of one, from its first vertex to its second.
    ghost act: { State → ℕ → ℕ → State };

    /// Two states that are not told apart.
    ghost Same: { State → State → Type 0 };

    /// The states that stand at a vertex.
    ghost IsAt: { ℕ → State → Type 0 };

    /// The faces that may be crossed.
    ghost May: { ℕ → Type 0 };
}

/// Moves do not change how a walk acts, where each face that they cross acts as nothing once round from one of its corners.
pub fn moves_change_no_action<A: Action>()
    ensures { (mesh : FaceList) (moves : List Move) (first second : List ℕ) (state : A.State)
        → Acts mesh A.Same A.act A.IsAt → FacesActAsNothing mesh A.Same A.act A.IsAt A.May
        → IsWalk mesh first → All (CrossesOnly A.May) moves → Leads mesh first moves second → A.IsAt (slice_index first 0) state
        → A.Same (walked A.act state first) (walked A.act state second) }
{}

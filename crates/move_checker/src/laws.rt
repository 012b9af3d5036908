//! What the definitions of this crate say together. A call of one of these functions does nothing; its contract is the law.
ghost use Rattle.std.specs.Prelude.{◌≡◌, ◌<◌, ◌↔◌, ℕ, List, IsSome, IsNone};
ghost use Rattle.surf_model.specs.FaceLists.{FaceList};
ghost use Rattle.surf_model.specs.Moves.{PeakedMoves, apply};
ghost use Rattle.surf_model.specs.Walks.{darts};
ghost use Rattle.surf_model.specs.declared.moves.Move.{Move};
ghost use Rattle.move_checker.specs.Refusals.{refusal};
ghost use Rattle.move_checker.specs.Verdicts.{verdict_of, IsRefusedAt, EndsElsewhere};
ghost use Rattle.move_checker.specs.declared.fault.MoveFault.{MoveFault};
ghost use Rattle.move_checker.specs.declared.judge.Verdict.TheVariants.{Peak, AtMove, End};

/// A move has a reason to be refused exactly where the table of moves does not allow it.
pub fn refused_with_reason()
    ensures { (mesh : FaceList) (walk : List ℕ) (move : Move) → IsNone (refusal mesh walk move) ↔ IsSome (apply mesh walk move) }
{}

/// When each verdict but that of acceptance comes, in the words of the mesh.
pub fn verdicts_in_words()
    ensures peak { (mesh : FaceList) (first second : List ℕ) (list : PeakedMoves)
        → (verdict_of mesh first second list ≡ Peak) ↔ (list.peak < darts first) }
    ensures at_move { (mesh : FaceList) (first second : List ℕ) (list : PeakedMoves) (number : ℕ) (fault : MoveFault)
        → (verdict_of mesh first second list ≡ AtMove number fault) ↔ IsRefusedAt mesh first list number fault }
    ensures end { (mesh : FaceList) (first second : List ℕ) (list : PeakedMoves)
        → (verdict_of mesh first second list ≡ End) ↔ EndsElsewhere mesh first second list }
{}

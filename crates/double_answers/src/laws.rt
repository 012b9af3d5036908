//! What is promised of answers on doubles, said of the definitions. A call of one of these functions does nothing; its contract is the law.
ghost use Rattle.std.specs.Prelude.{◌≡◌, ◌↔◌, ℕ, List, codes};
ghost use Rattle.surf_model.specs.FaceLists.{FaceList, IsFaceList};
ghost use Rattle.surf_model.specs.Moves.{Homotopic, PeakedMoves};
ghost use Rattle.surf_model.specs.Walks.{IsWalk};
ghost use Rattle.walk_files.specs.PairLists.{WalkPair};
ghost use Rattle.closed_walks.specs.FreeHomotopy.{FreelyHomotopic};
ghost use Rattle.homology.specs.Chains.{AreHomologous};
ghost use Rattle.doubling.specs.Doubles.{double_of};
ghost use Rattle.labellings.specs.declared.denial.Denial as denials;
ghost use Rattle.commands.specs.Inputs.{SpellsPair};
ghost use Rattle.commands.specs.declared.certificate.Certificate.{Certificate};
ghost use Rattle.commands.specs.declared.status.Status.{Status};
ghost use Rattle.certify_commands.specs.Certify.{IsWithinLimits};
ghost use Rattle.pair_commands.specs.Decide.{TellsDecisions};
ghost use Rattle.pair_commands.specs.PairInput.{SpellsPairs};
ghost use Rattle.loop_commands.specs.Loops.{SpellsLoops};
ghost use Rattle.verify_commands.specs.Verify.{IsVerifyInput};
ghost use Rattle.program.specs.Outcomes.{EachAnswer};
ghost use Rattle.double_answers.specs.DoubledInputs.{IsInputOnDouble};

/// `decide` tells of each pair of walks of the surface whether they are homotopic there.
pub fn decide_answers_for_the_surface()
    ensures { EachAnswer (λ held words status text. (mesh : FaceList) (pairs : List WalkPair)
        → IsInputOnDouble (codes "decide") (SpellsPairs mesh pairs) held words mesh → TellsDecisions mesh pairs status text) }
{}

/// `certify` answers yes exactly where the two walks are homotopic on the surface, where the double is within its limits.
pub fn certify_answers_for_the_surface()
    ensures { EachAnswer (λ held words status text. (mesh : FaceList) (first second : List ℕ)
        → IsInputOnDouble (codes "certify") (SpellsPair mesh first second) held words mesh → IsWithinLimits (double_of mesh) first second
        → (status ≡ Status.Yes) ↔ Homotopic mesh first second) }
{}

/// `loops` answers yes exactly where the two closed walks are freely homotopic on the surface.
pub fn loops_answers_for_the_surface()
    ensures { EachAnswer (λ held words status text. (mesh : FaceList) (first second : List ℕ)
        → IsInputOnDouble (codes "loops") (SpellsLoops mesh first second) held words mesh
        → (status ≡ Status.Yes) ↔ FreelyHomotopic mesh first second) }
{}

/// `homology` answers yes exactly where the two walks are homologous on the surface.
pub fn homology_answers_for_the_surface()
    ensures { EachAnswer (λ held words status text. (mesh : FaceList) (first second : List ℕ)
        → IsInputOnDouble (codes "homology") (SpellsPair mesh first second) held words mesh
        → (status ≡ Status.Yes) ↔ AreHomologous mesh first second) }
{}

/// Where `verify` accepts a denial on the double of a mesh, no list of moves leads from the one walk to the other in the mesh; and where it
/// accepts a list of moves there, one leads in the mesh. The mesh need not be a surface.
pub fn verify_answers_for_the_mesh()
    ensures denial { EachAnswer (λ held words status text. (mesh : FaceList) (first second : List ℕ) (denial : denials.Denial)
        → IsFaceList mesh → IsWalk mesh first → IsWalk mesh second
        → IsVerifyInput held words (double_of mesh) first second (Certificate.Denial denial) → status ≡ Status.Yes
        → Homotopic mesh first second → ⊥) }
    ensures moves { EachAnswer (λ held words status text. (mesh : FaceList) (first second : List ℕ) (list : PeakedMoves)
        → IsFaceList mesh → IsWalk mesh first → IsWalk mesh second
        → IsVerifyInput held words (double_of mesh) first second (Certificate.Moves list) → status ≡ Status.Yes
        → Homotopic mesh first second) }
{}

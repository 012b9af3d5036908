//! What is promised of answers on covers, said of the definitions. A call of one of these functions does nothing; its contract is the law.
ghost use Rattle.std.specs.Prelude.{◌≡◌, ◌↔◌, Bool, ℕ, List, [], ◌∷◌, Option, codes};
ghost use Rattle.surf_io.specs.Files.{Files};
ghost use Rattle.surf_model.specs.FaceLists.{FaceList, IsFaceList};
ghost use Rattle.surf_model.specs.Moves.{Homotopic, PeakedMoves};
ghost use Rattle.surf_model.specs.Walks.{IsWalk};
ghost use Rattle.labellings.specs.declared.denial.Denial as denials;
ghost use Rattle.orientation_cover.specs.Turns.{cover_by, lift_by};
ghost use Rattle.orientation_cover.specs.Ways.{AreWays};
ghost use Rattle.commands.specs.Checks.{Holds};
ghost use Rattle.commands.specs.declared.certificate.Certificate.{Certificate};
ghost use Rattle.commands.specs.declared.status.Status.{Status};
ghost use Rattle.certify_commands.specs.Certify.{IsWithinLimits};
ghost use Rattle.pair_commands.specs.Decide.{TellsDecisions};
ghost use Rattle.verify_commands.specs.Verify.{IsVerifyInput};
ghost use Rattle.program.specs.Outcomes.{EachAnswer};
ghost use Rattle.cover_answers.specs.CoveredInputs.{IsInputOnCover, ArePrinted};

/// `decide` tells of the lifts of two walks whether the walks are homotopic in the mesh.
pub fn decide_answers_for_the_mesh()
    ensures { EachAnswer (λ held words status text. (mesh : FaceList) (bits : List Bool) (first second : List ℕ)
        → IsInputOnCover (codes "decide") held words mesh bits first second
        → TellsDecisions mesh (record { first = first; second = second } ∷ []) status text) }
{}

/// `certify` answers yes exactly where the two walks are homotopic in the mesh, where the cover and the lifts are within its limits.
pub fn certify_answers_for_the_mesh()
    ensures { EachAnswer (λ held words status text. (mesh : FaceList) (bits : List Bool) (first second : List ℕ)
        → IsInputOnCover (codes "certify") held words mesh bits first second
        → IsWithinLimits (cover_by mesh bits) (lift_by mesh bits first) (lift_by mesh bits second)
        → (status ≡ Status.Yes) ↔ Homotopic mesh first second) }
{}

/// Where `verify` accepts a denial on the cover, for the lifts of two walks, no list of moves leads from the one walk to the other in the
/// mesh; and where it accepts a list of moves there, one leads in the mesh.
pub fn verify_answers_for_the_mesh()
    ensures denial { EachAnswer (λ held words status text. (mesh : FaceList) (bits : List Bool) (first second : List ℕ)
        (denial : denials.Denial) → IsFaceList mesh → AreWays mesh bits → IsWalk mesh first → IsWalk mesh second
        → IsVerifyInput held words (cover_by mesh bits) (lift_by mesh bits first) (lift_by mesh bits second) (Certificate.Denial denial)
        → status ≡ Status.Yes → Homotopic mesh first second → ⊥) }
    ensures moves { EachAnswer (λ held words status text. (mesh : FaceList) (bits : List Bool) (first second : List ℕ)
        (list : PeakedMoves) → IsFaceList mesh → AreWays mesh bits → IsWalk mesh first → IsWalk mesh second
        → IsVerifyInput held words (cover_by mesh bits) (lift_by mesh bits first) (lift_by mesh bits second) (Certificate.Moves list)
        → status ≡ Status.Yes → Homotopic mesh first second) }
{}

/// The files that `mesh_cover` writes are such: the cover, and the lifts of two walks, where they end at one vertex.
pub fn written_files_are_such()
    ensures { (held there : Option Files) (mesh_name walks_name keyword cover_name lifts_name : List ℕ) (mesh : FaceList)
        (bits : List Bool) (first second : List ℕ) (status : Status) (cover_text lifts_text : List ℕ)
        → ArePrinted held mesh_name walks_name mesh bits first second status cover_text lifts_text
        → Holds there cover_name (λ bytes. bytes ≡ cover_text) → Holds there lifts_name (λ bytes. bytes ≡ lifts_text)
        → IsInputOnCover keyword there (keyword ∷ cover_name ∷ lifts_name ∷ []) mesh bits first second }
{}

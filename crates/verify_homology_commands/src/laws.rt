//! What is promised of answers, said of the definitions. A call of this function does nothing; its contract is the law.
ghost use Rattle.std.specs.Prelude.{◌≡◌, ℕ, List, [], ◌∷◌, codes, Option};
ghost use Rattle.surf_io.specs.Files.{Files};
ghost use Rattle.commands.specs.Outcomes.{AnswersTo};
ghost use Rattle.commands.specs.declared.status.Status.{Status};
ghost use Rattle.verify_homology_commands.specs.VerifyHomology.{verify_homology, IsHomologyVerified};

/// What `verify-homology` answers of a certificate, wherever its words are answered by its check.
pub fn verify_homology_answers()
    ensures { (held : Option Files) (words : List (List ℕ)) (status : Status) (text : List ℕ)
        → ((mesh walks certificate : List ℕ) → words ≡ codes "verify-homology" ∷ mesh ∷ walks ∷ certificate ∷ []
        → AnswersTo held (verify_homology held mesh walks certificate) status text)
        → IsHomologyVerified held words status text }
{}

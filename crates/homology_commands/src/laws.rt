//! What is promised of answers, said of the definitions. A call of one of these functions does nothing; its contract is the law.
ghost use Rattle.std.specs.Prelude.{◌≡◌, ℕ, List, [], ◌∷◌, codes, Option};
ghost use Rattle.surf_io.specs.Files.{Files};
ghost use Rattle.surf_model.specs.FaceLists.{FaceList};
ghost use Rattle.commands.specs.Outcomes.{AnswersTo};
ghost use Rattle.commands.specs.declared.status.Status.{Status};
ghost use Rattle.homology_commands.specs.Homology.{homology, IsHomologyAnswered, IsHomologyPrinted};
ghost use Rattle.homology_commands.specs.PrintedHomology.{IsHomologyAccepted};

/// What `homology` answers of two walks of a surface, wherever its words are answered by its check.
pub fn homology_answers()
    ensures { (held : Option Files) (words : List (List ℕ)) (status : Status) (text : List ℕ)
        → ((mesh walks : List ℕ) → words ≡ codes "homology" ∷ mesh ∷ walks ∷ [] → AnswersTo held (homology held mesh walks) status text)
        → IsHomologyAnswered held words status text }
{}

/// What `homology` prints is, as it is, a certificate that `verify-homology` accepts on the same mesh and walks.
pub fn printed_certificates_are_accepted()
    ensures { (mesh : FaceList) (first second : List ℕ) (status : Status) (text : List ℕ)
        → (printed : IsHomologyPrinted mesh first second status text) → IsHomologyAccepted mesh first second printed.shown text }
{}

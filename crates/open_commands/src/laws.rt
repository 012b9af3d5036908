//! What is promised of answers, said of the definitions. A call of one of these functions does nothing; its contract is the law.
ghost use Rattle.std.specs.Prelude.{◌≡◌, ℕ, ◌≤◌, List, [], ◌∷◌, codes, length, Option};
ghost use Rattle.surf_io.specs.Files.{Files};
ghost use Rattle.surf_model.specs.FaceLists.{FaceList, IsFaceList};
ghost use Rattle.surf_model.specs.Moves.{PeakedMoves};
ghost use Rattle.surf_model.specs.Walks.{IsWalk};
ghost use Rattle.free_forms.specs.declared.limits.TheConstants.{MOST_OPEN_STEPS};
ghost use Rattle.commands.specs.Certificates.{Convinces, certificate_text};
ghost use Rattle.commands.specs.Outcomes.{AnswersTo};
ghost use Rattle.commands.specs.declared.certificate.Certificate.{Certificate};
ghost use Rattle.commands.specs.declared.status.Status.{Status};
ghost use Rattle.open_commands.specs.CertifyOpen.{certify_open, IsCertifiedOpen};
ghost use Rattle.open_commands.specs.DecideOpen.{decide_open, IsDecidedOpen};
ghost use Rattle.open_commands.specs.OpenPairs.{IsWithinOpenLimits};

/// What `decide-open` answers of two walks of an open surface, where its words are answered by its check.
pub fn decide_open_answers()
    ensures { (held : Option Files) (words : List (List ℕ)) (status : Status) (text : List ℕ)
        → ((mesh walks : List ℕ) → words ≡ codes "decide-open" ∷ mesh ∷ walks ∷ []
        → AnswersTo held (decide_open held mesh walks) status text)
        → IsDecidedOpen held words status text }
{}

/// What `certify-open` answers of two walks of an open surface, where its words are answered by its check.
pub fn certify_open_answers()
    ensures { (held : Option Files) (words : List (List ℕ)) (status : Status) (text : List ℕ)
        → ((mesh walks : List ℕ) → words ≡ codes "certify-open" ∷ mesh ∷ walks ∷ []
        → AnswersTo held (certify_open held mesh walks) status text)
        → IsCertifiedOpen held words status text }
{}

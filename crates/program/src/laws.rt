//! What is promised of answers, said of the definitions: the headline first, then what each command is for. A call of one of these
//! functions does nothing; its contract is the law. `run` says of each answer that it is one of `Answers`.
ghost use Rattle.std.specs.Prelude.{◌≡◌, ℕ, ◌≤◌, List, [], codes, length, slice_index, Ok, Option};
ghost use Rattle.surf_io.specs.Files.{Files};
ghost use Rattle.surf_model.specs.FaceLists.{FaceList};
ghost use Rattle.off_reader.specs.OffTexts.{meaning_of};
ghost use Rattle.surf_gen.specs.Chains.{chain_mesh};
ghost use Rattle.surf_gen.specs.ChainTexts.{chain_text};
ghost use Rattle.surf_gen.specs.Sizes.{IsChainSize};
ghost use Rattle.certify_commands.specs.Certify.{IsCertified, IsCertifyInput, IsWithinLimits, IsCertificatePrinted};
ghost use Rattle.pair_commands.specs.Decide.{IsDecided};
ghost use Rattle.program.specs.Headline.{Headline};
ghost use Rattle.commands.specs.Checks.{IsTold};
ghost use Rattle.surf_model.specs.Genera.{LiesOnSphere};
ghost use Rattle.commands.specs.Lines.{line};
ghost use Rattle.commands.specs.Outcomes.{Outcome};
ghost use Rattle.program.specs.Outcomes.{AllTold, Answers, EachAnswer, IsOutcome};
ghost use Rattle.program.specs.Premises.{HasPremises};
ghost use Rattle.program.specs.PrintedCertificates.{IsAccepted};
ghost use Rattle.reduce_commands.specs.Reduce.{IsReduced};
ghost use Rattle.surface_commands.specs.Surface.{IsMeasured};
ghost use Rattle.trial_commands.specs.Trial.{IsTried};
ghost use Rattle.open_commands.specs.CertifyOpen.{IsCertifiedOpen, IsListPrinted};
ghost use Rattle.open_commands.specs.DecideOpen.{IsDecidedOpen};
ghost use Rattle.open_commands.specs.OpenPairs.{IsOpenInput, IsWithinOpenLimits};
ghost use Rattle.verify_commands.specs.Verify.{IsVerified, IsDenialVerified};
ghost use Rattle.verify_homology_commands.specs.VerifyHomology.{IsHomologyVerified};
ghost use Rattle.homology_commands.specs.Homology.{IsHomologyAnswered, IsHomologyPrinted};
ghost use Rattle.homology_commands.specs.PrintedHomology.{IsHomologyVerifyOfText};
ghost use Rattle.loop_commands.specs.Loops.{IsLoopsAnswered};
ghost use Rattle.commands.specs.declared.certificate.Certificate.{Certificate};
ghost use Rattle.commands.specs.declared.inputs.TheConstants.{MOST_BYTES};
ghost use Rattle.commands.specs.declared.status.Status.{Status};

/// The headline: on an orientable closed surface `decide` tells of each pair of walks whether they are homotopic, and `certify` prints what
/// shows it.
pub fn headline()
    ensures { EachAnswer Headline }
{}

/// The premises of the laws on answers are met wherever an answer comes: where a command does not refuse, and its files are told, the words
/// are an input of that command, within its limits.
pub fn answers_have_their_premises()
    ensures { EachAnswer (λ held words status _. HasPremises held words status) }
{}

/// What `surface` answers of a mesh.
pub fn surface_answers()
    ensures { EachAnswer IsMeasured }
{}

/// What `decide` answers of pairs of walks of a surface.
pub fn decide_answers()
    ensures { EachAnswer IsDecided }
{}

/// What `certify` answers of two walks of a surface.
pub fn certify_answers()
    ensures { EachAnswer IsCertified }
{}

/// What `loops` answers of two closed walks of a surface.
pub fn loops_answers()
    ensures { EachAnswer IsLoopsAnswered }
{}

/// What `decide-open` answers of two walks of a surface with boundary.
pub fn decide_open_answers()
    ensures { EachAnswer IsDecidedOpen }
{}

/// What `certify-open` answers of two walks of a surface with boundary.
pub fn certify_open_answers()
    ensures { EachAnswer IsCertifiedOpen }
{}

/// What `homology` answers of two walks of a surface.
pub fn homology_answers()
    ensures { EachAnswer IsHomologyAnswered }
{}

/// What `verify` answers of a list of moves, and of a denial.
pub fn verify_answers()
    ensures moves { EachAnswer IsVerified }
    ensures denial { EachAnswer IsDenialVerified }
{}

/// What `verify-homology` answers of a chain, and of a cocycle.
pub fn verify_homology_answers()
    ensures { EachAnswer IsHomologyVerified }
{}

/// What `reduce` answers of a list of turn words.
pub fn reduce_answers()
    ensures { EachAnswer IsReduced }
{}

/// What `trial` answers of a chain of tori.
pub fn trial_answers()
    ensures { EachAnswer (λ _. IsTried) }
{}

/// The text of a chain of tori is read as the chain.
pub fn chain_texts_are_read()
    ensures { (genus grid : ℕ) → IsChainSize genus grid → meaning_of (chain_text genus grid) ≡ Ok (chain_mesh genus grid) }
{}

/// No words are without an outcome, whatever the files hold.
pub fn some_outcome()
    ensures { (held : Option Files) (words : List (List ℕ)) → ((outcome : Outcome) → IsOutcome held words outcome → ⊥) → ⊥ }
{}

/// Where each file that is looked at is told, words have one outcome.
pub fn one_outcome()
    ensures { (held : Option Files) (words : List (List ℕ)) (first second : Outcome) → AllTold held words
        → IsOutcome held words first → IsOutcome held words second → first ≡ second }
{}

/// What `certify` prints is, as it is, a certificate that `verify` accepts on the same mesh and walks, where a file may be so large.
pub fn printed_certificates_are_accepted()
    ensures { (held : Option Files) (words : List (List ℕ)) (mesh : FaceList) (first second : List ℕ) (status : Status) (text : List ℕ)
        → IsCertifyInput held words mesh first second → IsWithinLimits mesh first second
        → (printed : IsCertificatePrinted mesh first second status text) → length text ≤ MOST_BYTES
        → IsAccepted mesh first second printed.shown text }
{}

/// For walks on a sphere all that `certify` prints is, as it is, a certificate that `verify` accepts on the same mesh and walks.
pub fn printed_on_spheres_is_accepted()
    ensures { (held : Option Files) (words : List (List ℕ)) (mesh : FaceList) (first second : List ℕ) (status : Status) (text : List ℕ)
        → IsCertifyInput held words mesh first second → IsWithinLimits mesh first second → LiesOnSphere mesh (slice_index first 0)
        → (printed : IsCertificatePrinted mesh first second status text) → IsAccepted mesh first second printed.shown text }
{}

/// What `homology` prints is, as it is, a certificate: `verify-homology` answers `accepted` of it, on the same mesh and walks.
pub fn printed_homology_is_accepted()
    ensures { (mesh : FaceList) (first second : List ℕ) (status : Status) (text : List ℕ) → IsHomologyPrinted mesh first second status text
        → (held : Option Files) (words : List (List ℕ)) (told : Status) (answer : List ℕ)
        → IsHomologyVerifyOfText held words mesh first second text → Answers held words told answer
        → (told ≡ Status.Yes) × (answer ≡ line (codes "accepted") []) }
{}

/// Each list that `certify-open` prints is, as it is, a certificate that `verify` accepts on the same mesh and walks.
pub fn printed_lists_are_accepted()
    ensures { (held : Option Files) (words : List (List ℕ)) (mesh : FaceList) (first second : List ℕ) (status : Status) (text : List ℕ)
        → IsOpenInput (codes "certify-open") held words mesh first second → IsWithinOpenLimits mesh first second
        → (printed : IsListPrinted mesh first second status text) → IsAccepted mesh first second (Certificate.Moves printed.list) text }
{}

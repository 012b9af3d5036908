//! What holds of joined lists of spokes and of freely homotopic walks, said of the definitions. A call of one of these functions does
//! nothing; its contract is the law.
ghost use Rattle.std.specs.Prelude.{◌≡◌, ◌≢◌, ◌+◌, ◌*◌, ◌<◌, ◌≤◌, ℕ, List, [], ◌∷◌, ◌++◌, All, length, take};
ghost use Rattle.surf_model.specs.FaceLists.{FaceList, IsFaceList};
ghost use Rattle.turn_words.specs.Modulo.{minus};
ghost use Rattle.turn_words.specs.PutTurns.{put_last};
ghost use Rattle.turn_words.specs.FiveCases.{EndsOpen};
ghost use Rattle.turn_words.specs.FormLaws.{led};
ghost use Rattle.turn_words.specs.HyperStates.{empty_state, hyper_next, IsHyperWheel};
ghost use Rattle.turn_words.specs.declared.word.Word.{Word};
ghost use Rattle.settling.specs.TurnRows.{IsCanonicalRow};
ghost use Rattle.labellings.specs.Labellings.{LabellingView};
ghost use Rattle.labellings.specs.GoodLabellings.{IsGood};
ghost use Rattle.labellings.specs.QuadPaths.{quad_path};
ghost use Rattle.labellings.specs.WalkWords.{IsWordOf};
ghost use Rattle.spoke_rings.specs.CyclicWords.{cyclic_turn, IsLoop, IsFullWheel, IsCyclicallyCanonical};
ghost use Rattle.spoke_rings.specs.LoopSteps.{LoopLeads};
ghost use Rattle.spoke_rings.specs.Rotations.{IsRotation};
ghost use Rattle.closed_walks.specs.FreeHomotopy.{IsClosedWalk, FreelyHomotopic};
ghost use Rattle.joined_loops.specs.JoinedLists.{JoinedBy, Joined, repeated};

/// To be joined is an equivalence of closed lists of spokes.
pub fn joining_is_an_equivalence()
    ensures itself { (places spokes : List ℕ) → Joined places spokes spokes }
    ensures back { (places first second : List ℕ) → IsLoop places first → Joined places first second → Joined places second first }
    ensures on { (places first second third : List ℕ) → Joined places first second → Joined places second third →
        Joined places first third }
{}

/// Joined lists stay joined, by the same list, where each is gone along as often again.
pub fn joined_lists_stay_joined_gone_along_again()
    ensures { (places first second joining : List ℕ) (count : ℕ) → IsLoop places first → JoinedBy places first second joining →
        JoinedBy places (repeated first count) (repeated second count) joining }
{}

/// Steps on a closed list of spokes lead to closed lists that are joined to it.
pub fn steps_lead_to_joined_lists()
    ensures loops { (places spokes end : List ℕ) → IsHyperWheel places → IsLoop places spokes → LoopLeads places spokes end →
        IsLoop places end }
    ensures joined { (places spokes end : List ℕ) → IsHyperWheel places → IsLoop places spokes → LoopLeads places spokes end →
        Joined places spokes end }
{}

/// A put leaves what stands before a turn that is neither 2 nor -2, but for the entry just before it, and so it does with a turn 2 where no
/// bracket is open before that.
pub fn put_leaves_what_stands_before_such_a_turn()
    ensures { (degree turn x y : ℕ) (before after : List ℕ) → 5 ≤ degree → x ≢ minus degree 2 →
        (x ≡ 2 → ¬ EndsOpen (before ++ y ∷ [])) →
        (more : List ℕ) × ((put_last degree (before ++ y ∷ x ∷ after) turn).word ≡ before ++ more) }
{}

/// On a full wheel spokes that are put behind many rounds of a closed list with canonical cyclic turns take away one round of the word each
/// at most, and two more.
pub fn spokes_take_away_one_round_each_at_most()
    ensures { (places spokes more : List ℕ) (rounds : ℕ) → IsFullWheel places → IsLoop places spokes →
        IsCanonicalRow (length places) (length spokes) (cyclic_turn places spokes) →
        take (rounds * length spokes + 2)
        (led hyper_next places empty_state (repeated spokes (length more + rounds + 2) ++ more)).word
        ≡ take (rounds * length spokes + 2) (led hyper_next places empty_state (repeated spokes (length more + rounds + 2))).word }
{}

/// On a full wheel the number of a state belongs to its word: where two lists of spokes lead from the state of the empty word to one word,
/// they lead to one state.
pub fn number_belongs_to_the_word()
    ensures { (places first second : List ℕ) → IsFullWheel places → All (λ spoke. spoke < length places) first →
        All (λ spoke. spoke < length places) second →
        (led hyper_next places empty_state first).word ≡ (led hyper_next places empty_state second).word →
        led hyper_next places empty_state first ≡ led hyper_next places empty_state second }
{}

/// On a full wheel two closed lists that are joined and cyclically canonical are one, but for where they start.
pub fn joined_canonical_lists_are_rotations()
    ensures { (places first second : List ℕ) → IsFullWheel places → IsLoop places first → IsLoop places second →
        IsCyclicallyCanonical places first → IsCyclicallyCanonical places second → Joined places first second →
        IsRotation first second }
{}

/// Under a good labelling of any mesh, freely homotopic closed walks have joined quad paths. It tells something over a degree from 5
/// on, where the wheel has states.
pub fn freely_homotopic_walks_have_joined_paths()
    ensures { (mesh : FaceList) (labelling : LabellingView) (first second : List ℕ) → IsFaceList mesh → IsGood mesh labelling
        → IsClosedWalk mesh first → FreelyHomotopic mesh first second
        → Joined labelling.places (quad_path mesh labelling first) (quad_path mesh labelling second) }
{}

/// Under a good labelling with a full wheel, freely homotopic closed walks have one cyclically canonical list of spokes, but for where it
/// starts, whatever steps lead there from their quad paths.
pub fn freely_homotopic_walks_have_one_cyclic_form()
    ensures { (mesh : FaceList) (labelling : LabellingView) (first second one other : List ℕ) → IsFaceList mesh → IsGood mesh labelling
        → IsFullWheel labelling.places → IsClosedWalk mesh first → FreelyHomotopic mesh first second
        → LoopLeads labelling.places (quad_path mesh labelling first) one
        → LoopLeads labelling.places (quad_path mesh labelling second) other
        → IsCyclicallyCanonical labelling.places one → IsCyclicallyCanonical labelling.places other → IsRotation one other }
{}

/// Under a good labelling over the degree 4, freely homotopic closed walks have one word.
pub fn freely_homotopic_walks_have_one_sum()
    ensures { (mesh : FaceList) (labelling : LabellingView) (first second : List ℕ) (one other : Word) → IsFaceList mesh
        → IsGood mesh labelling → labelling.degree ≡ 4 → IsClosedWalk mesh first → FreelyHomotopic mesh first second
        → IsWordOf mesh labelling first one → IsWordOf mesh labelling second other → one ≡ other }
{}

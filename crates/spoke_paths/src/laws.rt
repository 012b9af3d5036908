//! What holds of paths of spokes, said of the definitions. A call of one of these functions does nothing; its
//! contract is the law.
ghost use Rattle.std.specs.Prelude.{◌≡◌, ◌<◌, ℕ, List, [], All, length};
ghost use Rattle.turn_words.specs.FormLaws.{led};
ghost use Rattle.turn_words.specs.HyperStates.{empty_state, hyper_next, IsHyperWheel};
ghost use Rattle.turn_words.specs.SpokePaths.{turn_word_of};
ghost use Rattle.flat_forms.specs.Vectors.{origin};
ghost use Rattle.flat_forms.specs.FlatStates.{flat_next, IsFlatWheel};
ghost use Rattle.spoke_paths.specs.PathSteps.{PathLeads};
ghost use Rattle.spoke_paths.specs.ReducedWords.{IsReducedWord};
ghost use Rattle.spoke_paths.specs.declared.step.PathStep.{PathStep};

use turn_words::Form;

/// A reduced path over a degree from 5 on, of which the canonical word is empty, has no spokes.
pub fn reduced_path_without_a_word_is_empty()
    ensures { (places path : List ℕ) → IsHyperWheel places → All (λ spoke. spoke < length places) path →
        IsReducedWord (length places) (turn_word_of places path) →
        (led hyper_next places empty_state path).word ≡ [] → path ≡ [] }
{}

/// A reduced path over the degree 4 that ends where it starts has no spokes.
pub fn reduced_path_in_the_plane_that_comes_back_is_empty()
    ensures { (places path : List ℕ) → IsFlatWheel places → All (λ spoke. spoke < length places) path →
        IsReducedWord (length places) (turn_word_of places path) → led flat_next places origin path ≡ origin → path ≡ [] }
{}

/// Steps keep the state of a form that a path leads to.
pub fn path_steps_keep_the_state<F: Form>()
    ensures below { (places path end : List ℕ) (steps : List PathStep) → All (λ spoke. spoke < length places) path →
        PathLeads places path steps end → All (λ spoke. spoke < length places) end }
    ensures state { (places path end : List ℕ) (steps : List PathStep) → F.IsOwn places →
        All (λ spoke. spoke < length places) path → PathLeads places path steps end →
        led F.next places F.empty end ≡ led F.next places F.empty path }
{}

/// Steps that lead from a path to a reduced one leave no spokes where the path has no word: over a degree from 5 on
/// where its canonical word is empty, and over the degree 4 where it ends where it starts.
pub fn steps_leave_nothing_of_a_path_without_a_word()
    ensures turns { (places path end : List ℕ) (steps : List PathStep) → IsHyperWheel places →
        All (λ spoke. spoke < length places) path → PathLeads places path steps end →
        IsReducedWord (length places) (turn_word_of places end) →
        (led hyper_next places empty_state path).word ≡ [] → end ≡ [] }
    ensures flat { (places path end : List ℕ) (steps : List PathStep) → IsFlatWheel places →
        All (λ spoke. spoke < length places) path → PathLeads places path steps end →
        IsReducedWord (length places) (turn_word_of places end) → led flat_next places origin path ≡ origin → end ≡ [] }
{}

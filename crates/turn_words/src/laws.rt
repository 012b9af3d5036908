//! What holds of turn words, said of the definitions. A call of one of these functions does nothing; its
//! contract is the law.
ghost use Rattle.std.specs.Prelude.{◌≡◌, ◌<◌, ◌≤◌, ◌↔◌, ◌++◌, ℕ, List, All, length, Some};
ghost use Rattle.turn_words.specs.Canonical.{IsCanonical, IsCanonicalOf, IsTurnWord, StandsNowhere};
ghost use Rattle.turn_words.specs.FiveCases.{FiveCases};
ghost use Rattle.turn_words.specs.FormLaws.{led, NotesAlong};
ghost use Rattle.turn_words.specs.HyperStates.{HyperState, empty_state, hyper_next, IsHyperWheel, BelongsTo, LeadOn};
ghost use Rattle.turn_words.specs.SpokePaths.{turn_word_of, turns_from};
ghost use Rattle.turn_words.specs.StepTable.{after_word_steps, Reaches};
ghost use Rattle.turn_words.specs.declared.step.Step.{Step};

use crate::form::Form;

/// What a turn word reaches is a turn word, and reaches it. So each elementary step can be undone.
pub fn reaching_goes_both_ways()
    ensures { (degree : ℕ) (word reached : List ℕ) → IsTurnWord degree word → Reaches degree word reached →
        IsTurnWord degree reached × Reaches degree reached word }
{}

/// Two canonical words that one turn word reaches are equal.
pub fn canonical_word_is_unique()
    ensures { (degree : ℕ) (word first second : List ℕ) → IsTurnWord degree word → IsCanonicalOf degree word first →
        IsCanonicalOf degree word second → first ≡ second }
{}

/// Each turn word reaches a canonical word.
pub fn canonical_word_is_there()
    ensures { (degree : ℕ) (word : List ℕ) → IsTurnWord degree word →
        (canonical : List ℕ) × IsCanonicalOf degree word canonical }
{}

/// A canonical word is its own canonical word. So to take the canonical word twice is to take it once.
pub fn canonical_word_is_kept()
    ensures { (degree : ℕ) (word canonical : List ℕ) → IsTurnWord degree word → IsCanonical degree word →
        IsCanonicalOf degree word canonical → canonical ≡ word }
{}

/// Words of which one reaches the other have one canonical word.
pub fn reached_word_shares_it()
    ensures { (degree : ℕ) (word reached first second : List ℕ) → IsTurnWord degree word →
        Reaches degree word reached → IsCanonicalOf degree word first → IsCanonicalOf degree reached second →
        first ≡ second }
{}

/// One turn word reaches another exactly where they have one canonical word.
pub fn words_of_one_canonical_word_reach_each_other()
    ensures { (degree : ℕ) (word other first second : List ℕ) → IsTurnWord degree word → IsTurnWord degree other →
        IsCanonicalOf degree word first → IsCanonicalOf degree other second →
        (Reaches degree word other ↔ (first ≡ second)) }
{}

/// How a turn is put at the end of a word, as a table over the five cases.
pub fn turn_is_put_by_cases()
    ensures { (degree : ℕ) → 5 ≤ degree → FiveCases degree }
{}

/// A word is canonical exactly where no spur, no turn -1 and no bracket stands anywhere among its turns.
pub fn canonical_word_has_no_bracket()
    ensures { (degree : ℕ) (word : List ℕ) → IsCanonical degree word ↔ StandsNowhere degree word }
{}

/// The word of the state that a list of spokes leads to from the state of the empty word is the canonical
/// word of their turn word.
pub fn spokes_lead_to_their_canonical_word()
    ensures turns { (places spokes : List ℕ) → IsHyperWheel places → All (λ spoke. spoke < length places) spokes →
        IsTurnWord (length places) (turn_word_of places spokes) }
    ensures canonical { (places spokes : List ℕ) → IsHyperWheel places → All (λ spoke. spoke < length places) spokes →
        IsCanonicalOf (length places) (turn_word_of places spokes)
        (led hyper_next places empty_state spokes).word }
{}

/// So do spokes from a state that others lead to: to the canonical word of all of them.
pub fn spokes_lead_on_to_the_canonical_word()
    ensures { (places before spokes : List ℕ) → IsHyperWheel places → All (λ spoke. spoke < length places) before →
        All (λ spoke. spoke < length places) spokes →
        IsCanonicalOf (length places) (turn_word_of places (before ++ spokes))
        (led hyper_next places (led hyper_next places empty_state before) spokes).word }
{}

/// And so do spokes from any state of the wheel, whatever its number is: to the canonical word of the state's word
/// with the turns of the spokes behind it, the first of which is counted from the number. The steps that are noted
/// along them lead there too.
pub fn spokes_lead_from_any_state_to_the_canonical_word()
    ensures canonical { (places : List ℕ) (state : HyperState) (spokes : List ℕ) → BelongsTo places state →
        All (λ spoke. spoke < length places) spokes →
        IsCanonicalOf (length places) (state.word ++ turns_from places state spokes)
        (led hyper_next places state spokes).word }
    ensures noted { (places : List ℕ) (state : HyperState) (spokes : List ℕ) (steps : List Step) →
        BelongsTo places state → All (λ spoke. spoke < length places) spokes →
        NotesAlong hyper_next LeadOn places state spokes steps →
        after_word_steps (length places) steps (state.word ++ turns_from places state spokes)
        ≡ Some (led hyper_next places state spokes).word }
{}

/// The steps that are noted along a list of spokes, from the state of the empty word, lead from the turn word
/// of the spokes to its canonical word.
pub fn noted_steps_lead_to_the_canonical_word()
    ensures { (places spokes : List ℕ) (steps : List Step) → IsHyperWheel places →
        All (λ spoke. spoke < length places) spokes →
        NotesAlong hyper_next LeadOn places empty_state spokes steps →
        after_word_steps (length places) steps (turn_word_of places spokes)
        ≡ Some (led hyper_next places empty_state spokes).word }
{}

/// Two lists of spokes, one put after the other: where they lead, and what they note.
pub fn lists_of_spokes_are_put_one_after_another<F: Form>()
    ensures led { (places : List ℕ) (state : F.State) (first second : List ℕ) →
        led F.next places state (first ++ second) ≡ led F.next places (led F.next places state first) second }
    ensures notes { (places : List ℕ) (state : F.State) (first second : List ℕ) (steps more : List Step) →
        NotesAlong F.next F.Notes places state first steps →
        NotesAlong F.next F.Notes places (led F.next places state first) second more →
        NotesAlong F.next F.Notes places state (first ++ second) (steps ++ more) }
{}

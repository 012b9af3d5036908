//! What holds of rows of turns, said of the definitions. A call of one of these functions does nothing; its contract is
//! the law.
ghost use Rattle.std.specs.Prelude.{◌≡◌, ◌+◌, ◌<◌, ◌≤◌, ℕ, List, length};
ghost use Rattle.turn_words.specs.Canonical.{IsCanonical};
ghost use Rattle.turn_words.specs.PutTurns.{Put};
ghost use Rattle.settling.specs.TurnRows.{put_along, IsCanonicalRow, LosesAtMost, Settles};

/// Where a canonical row loses few entries, it settles soon.
pub fn row_settles_within_its_losses()
    ensures { (degree period budget : ℕ) (began : Put) (row : ℕ → ℕ) → 5 ≤ degree →
        IsCanonicalRow degree period row → IsCanonical degree began.word → began.change < degree →
        LosesAtMost budget degree began row → Settles degree period budget began row }
{}

/// A canonical row loses at most as many entries as the word had before.
pub fn row_loses_at_most_the_word_before()
    ensures { (degree period : ℕ) (began : Put) (row : ℕ → ℕ) → 5 ≤ degree →
        IsCanonicalRow degree period row → IsCanonical degree began.word → began.change < degree →
        (count : ℕ) → count ≤ length (put_along degree began row count).word + length began.word }
{}

/// A canonical row that is put at the end of any canonical word settles, whatever the number that changes its first
/// entry.
pub fn row_settles()
    ensures { (degree period : ℕ) (began : Put) (row : ℕ → ℕ) → 5 ≤ degree →
        IsCanonicalRow degree period row → IsCanonical degree began.word → began.change < degree →
        Settles degree period (length began.word) began row }
{}

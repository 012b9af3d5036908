//! The canonical word that a turn word reaches.
ghost use Rattle.std.specs.Prelude.{◌≡◌, ◌⊎◌, ℕ, ◌+◌, ◌*◌, ◌<◌, ◌≤◌, List, All, Contains, length, IfOk, MatchResult, MatchOption};
ghost use Rattle.turn_words.specs.Canonical.{IsCanonical, IsCanonicalOf, IsTurnWord};
ghost use Rattle.turn_words.specs.StepTable.{Reaches};
ghost use Rattle.turn_words.specs.WordFaults.{IsFirstAbove, IsWordFaultOf};
ghost use Rattle.turn_words.specs.declared.canonising.TheConstants.{MOST_ENTRIES};

use crate::counter::Steps;
use crate::modulo::sum_modulo;
use crate::put::put_turn;
use crate::run_word::RunWord;
use crate::word::TurnWord;
use std::alloc::{AllocError, Global};
use std::sync::ledger::Ledger;

/// The most entries of a word whose canonical word is looked for.
pub const MOST_ENTRIES: u32 = 1_000_000;

/// Why a list of entries has no canonical word.
#[derive(Clone, Copy, Debug, PartialEq, Eq)]
pub enum WordFault {
    /// The degree is below 5.
    Degree,
    /// The first entry that is not below the degree.
    Range { at: u32 },
    /// Memory ran out.
    OutOfMemory,
}

impl From<AllocError> for WordFault {
    ghost use Rattle.std.specs.Prelude.{◌≡◌};
    ghost use Rattle.turn_words.specs.declared.canonising.WordFault.TheVariants.{OutOfMemory};

    ghost from_gives = { λ _ fault. fault ≡ OutOfMemory };

    fn from(_error: AllocError) -> WordFault {
        WordFault::OutOfMemory
    }
}

/// The canonical word that elementary steps reach from a word. There is no other, so a canonical word is
/// given back. A degree that is too small is told before an entry that is too large.
pub fn canonise<L: Ledger>(
    alloc: Global,
    degree: u32,
    word: &[u32],
    steps: &mut Steps<L>,
) -> Result<TurnWord, WordFault>
    requires { length word.now ≤ MOST_ENTRIES }
    ensures canonical { IfOk result (λ canonical. IsCanonicalOf degree word.now canonical) }
    ensures only { IfOk result (λ canonical. (other : List ℕ) → IsCanonicalOf degree word.now other → other ≡ canonical) }
    ensures same { IfOk result (λ canonical. IsCanonical degree word.now → canonical ≡ word.now) }
    ensures cases { MatchResult result (λ _. IsTurnWord degree word.now) (IsWordFaultOf degree word.now) }
    ensures counted { steps.new ≤ steps.old + 8 * length word.now }
{
    if degree < 5 {
        return Err(WordFault::Degree);
    }
    if let Some(at) = first_above(degree, word) {
        return Err(WordFault::Range { at: at as u32 });
    }
    // The word that is put together is passed to no call, so it need not go through memory.
    let mut canonical = RunWord::with_room(alloc, word.len() as u32)?;
    let mut change = 0;
    for entry in word {
        let turn = sum_modulo(degree, *entry, change);
        change = put_turn(&mut canonical, degree, turn, steps).change;
    }
    Ok(canonical.written(alloc)?)
}

/// The first entry that is not below the degree.
fn first_above(degree: u32, word: &[u32]) -> Option<usize>
    ensures { MatchOption result (All (λ entry. entry < degree) word.now) (IsFirstAbove degree word.now) }
{
    // Unlike the search, the look for the largest entry takes many entries at a time.
    if largest(word) < degree {
        return None;
    }
    for (at, entry) in word.iter().enumerate() {
        if *entry >= degree {
            return Some(at);
        }
    }
    None
}

/// The largest entry, or 0 where there is none.
fn largest(word: &[u32]) -> u32
    ensures most { All (λ entry. entry ≤ result) word.now }
    ensures some { result ≡ 0 ⊎ Contains word.now result }
{
    let mut largest = 0;
    for entry in word {
        largest = largest.max(*entry);
    }
    largest
}

//! The command `reduce`: the canonical words of a list of turn words.
ghost use Rattle.std.specs.Prelude.{◌≡◌, ◌⊎◌, ◌<◌, ◌≤◌, [], ◌∷◌, ◌++◌, List, length, nat_lt, false, IsTrue, if◌then◌else◌, MatchOption, MatchResult, IfOk, OnOk, Ok, Err};
ghost use Rattle.std.specs.List.{list_all};
ghost use Rattle.text_scan.specs.Each.{ok_first};
ghost use Rattle.turn_words.specs.Canonical.{IsTurnWord, IsCanonicalOf};
ghost use Rattle.walk_files.specs.NumberLists.{NumberLine};
ghost use Rattle.walk_files.specs.NumberTexts.{words_of};
ghost use Rattle.walk_files.specs.declared.fault.WalkFault.{WalkFault};
ghost use Rattle.walk_files.specs.declared.limits.TheConstants.{MOST_ENTRIES};
ghost use Rattle.reduce_commands.specs.Reduce as of_reduce;
ghost use Rattle.reduce_commands.specs.Canonised.{AreCanonised, IsNotCanonised, IsSoFar};
ghost use Rattle.commands.specs.Refusals.{numbers_line};
ghost use Rattle.commands.specs.declared.refusal.Input.{Input};
ghost use Rattle.commands.specs.Replies.{Runs};
ghost use Rattle.commands.specs.Stops.{Tells};
ghost use Rattle.commands.specs.declared.stop.Stop.{Stop};

use commands::{Input, Phrase, Reply, Stop, Text, read_file, refused, refused_at};
use std::alloc::{AllocError, Global};
use std::marker::Brand;
use std::sync::ledger::{Blank, Ledger};
use surf_io::Shelf;
use turn_words::{Steps, TurnWord, WordFault, canonise};
use walk_files::WordReader;

/// The least degree of turn words.
pub const LEAST_DEGREE: u32 = 5;

/// The canonical words over the degree that the turn words in the file `list` reach, line by line. The file is
/// read only where the degree is in order.
pub fn reduce<S: Shelf>(
    alloc: Global,
    shelf: &mut S,
    degree: u32,
    list: &str,
) -> Result<Reply, Stop>
    ensures { Runs S.held S.faults shelf.old shelf.new (λ files. of_reduce.reduce files degree list.now) result }
{
    if degree < LEAST_DEGREE {
        return Err(refused(&[Phrase::Text("degree"), Phrase::Number(degree as u64)]));
    }
    let bytes = read_file(alloc, shelf, list, Input::TurnWords)?;
    let words = canonical_words(alloc, degree, &bytes)?;
    Ok(Reply::Yes(Text::Words(words)))
}

/// The canonical words of the turn words that the bytes spell, line by line. Where they spell some, the first line with an entry that is
/// too large is refused.
fn canonical_words(alloc: Global, degree: u32, bytes: &[u8]) -> Result<Vec<TurnWord>, Stop>
    requires least { LEAST_DEGREE ≤ degree }
    ensures end { MatchResult result (λ words. AreCanonised degree (words_of bytes.now) words.items)
        (λ stop. (stop ≡ Stop.OutOfMemory) ⊎ IsNotCanonised degree (words_of bytes.now) stop) }
{
    canonise_lines::<Brand>(alloc, degree, bytes, Blank::new(1))
}

/// Reads line by line, so that of the entries no more than those of one line are held.
fn canonise_lines<L: Ledger>(
    alloc: Global,
    degree: u32,
    bytes: &[u8],
    blank: Blank,
) -> Result<Vec<TurnWord>, Stop>
    requires name { blank.name ≡ L.name }
    requires parts { blank.parts ≡ L.parts }
    requires some { 0 < L.parts }
    requires least { LEAST_DEGREE ≤ degree }
    ensures end { MatchResult result (λ words. AreCanonised degree (words_of bytes.now) words.items)
        (λ stop. (stop ≡ Stop.OutOfMemory) ⊎ IsNotCanonised degree (words_of bytes.now) stop) }
{
    let mut steps: Steps<L> = Steps::new(blank);
    let mut reader = WordReader::new(alloc, bytes);
    let mut so_far = SoFar {
        words: Vec::new(alloc),
        out_of_range: None,
    };
    while next_word(&mut reader)? {
        so_far.put(alloc, degree, &reader, &mut steps)?;
    }
    match so_far.out_of_range {
        Some(line) => Err(refused_at("list", line, "range")),
        None => Ok(so_far.words),
    }
}

/// Reads the next turn word. `false` where there is none.
fn next_word(reader: &mut WordReader<'_>) -> Result<bool, Stop>
    ensures word { MatchResult result
        (λ more. reader.old.left ≡ (if more then ok_first (Ok reader.new.present) reader.new.left else Ok []))
        (λ stop. (stop ≡ Stop.OutOfMemory) ⊎ ((fault : WalkFault) × (reader.old.left ≡ Err fault)
        × Tells (numbers_line Input.TurnWords fault) stop)) }
    ensures fewer { IfOk result (λ more. IsTrue more → reader.new.lines < reader.old.lines) }
{
    match reader.next_word() {
        Ok(more) => Ok(more),
        Err(fault) => Err(Input::TurnWords.refused_for(fault)),
    }
}

/// What the lines so far came to.
#[derive(Drop)]
struct SoFar {
    /// The canonical words of the lines, as long as none is out of range.
    words: Vec<TurnWord>,
    /// The first line with an entry that is too large. The lines behind it are read, since a line that is no turn word is told first.
    out_of_range: Option<u64>,
}

impl SoFar {
    /// Puts the line that was read last behind the others.
    fn put<L: Ledger>(
        &mut self,
        alloc: Global,
        degree: u32,
        reader: &WordReader<'_>,
        steps: &mut Steps<L>,
    ) -> Result<(), AllocError>
        requires least { LEAST_DEGREE ≤ degree }
        ensures { OnOk result ((lines : List NumberLine) → IsSoFar degree lines self.old.words.items self.old.out_of_range
            → IsSoFar degree (lines ++ reader.now.present ∷ []) self.new.words.items self.new.out_of_range) }
    {
        if self.out_of_range.is_some() {
            return Ok(());
        }
        match canonise_line(alloc, degree, reader.entries(), steps)? {
            Some(word) => self.words.push(word).map_err(AllocError::from)?,
            None => self.out_of_range = Some(reader.line()),
        }
        Ok(())
    }
}

/// The canonical word of a turn word; none where it has an entry that is too large.
fn canonise_line<L: Ledger>(
    alloc: Global,
    degree: u32,
    entries: &[u32],
    steps: &mut Steps<L>,
) -> Result<Option<TurnWord>, AllocError>
    requires least { LEAST_DEGREE ≤ degree }
    requires few { length entries.now ≤ MOST_ENTRIES }
    ensures { IfOk result (λ found. MatchOption found (list_all (λ entry. nat_lt entry degree) entries.now ≡ false)
        (λ word. IsTurnWord degree entries.now × IsCanonicalOf degree entries.now word)) }
{
    match canonise(alloc, degree, entries, steps) {
        Ok(word) => Ok(Some(word)),
        Err(WordFault::Degree) => unreachable!(),
        Err(WordFault::Range { .. }) => Ok(None),
        Err(WordFault::OutOfMemory) => Err(AllocError),
    }
}

//! Reading turn words.
ghost use Rattle.std.specs.Prelude.{◌≡◌, ◌≤◌, ◌⊎◌, ◌++◌, [], ◌∷◌, length, IsTrue, OnOk, OnErr, MatchResult, Ok, Err, nat_lt, if◌then◌else◌};
ghost use Rattle.text_scan.specs.Lines.{is_filled};
ghost use Rattle.walk_files.specs.declared.fault.WalkFault.TheVariants.{BadNumber, TooLong, OutOfMemory};
ghost use Rattle.walk_files.specs.declared.limits.TheConstants.{MOST_ENTRIES};
ghost use Rattle.walk_files.specs.NumberTexts.{words_of, entries_of, numbers_on};

use crate::fault::WalkFault;
use crate::limits::{MOST_ENTRIES, MOST_LINES};
use crate::number_lines::{LinesBuilder, NumberLines};
use crate::numbers::fault_of_line;
use std::alloc::{AllocError, Global};
use std::marker::Model;
use text_scan::{Cursor, number};

/// The turn words of a text, one on each line with words.
pub fn read_words(alloc: Global, bytes: &[u8]) -> Result<NumberLines, WalkFault>
    ensures { (result ≡ words_of bytes.now) ⊎ (result ≡ Err OutOfMemory) }
{
    let mut reader = WordReader::new(alloc, bytes);
    let mut lists = LinesBuilder::new(alloc);
    while reader.next_word()? {
        lists.extend(reader.entries())?;
        lists.close(reader.line())?;
    }
    Ok(lists.finish())
}

/// The turn words of a text, read one after another into room that is used again.
#[derive(Debug, Drop)]
pub struct WordReader<'a> {
    cursor: Cursor<'a>,
    /// How many words were read.
    count: u64,
    /// The number of the line that was read last.
    line: u64,
    /// The entries on that line.
    entries: Vec<u32>,
}

impl<'a> Model for WordReader<'a> {
    ghost use Rattle.std.specs.Prelude.{◌≤◌, length};
    ghost use Rattle.text_scan.specs.Unread.{lines_left};
    ghost use Rattle.walk_files.specs.NumberTexts.{WordsLeft, words_on};
    ghost use Rattle.walk_files.specs.declared.limits.TheConstants.{MOST_ENTRIES, MOST_LINES};

    ghost Value = { WordsLeft };

    ghost view = { λ a. record {
      present = record { line = a.line; numbers = a.entries.items };
      left = words_on a.count (lines_left a.cursor);
      lines = length (lines_left a.cursor);
    } };

    ghost invariant = { λ a. (a.count ≤ MOST_LINES) × (length a.entries.items ≤ MOST_ENTRIES) };
}

impl<'a> WordReader<'a> {
    ghost use Rattle.std.specs.Prelude.{◌<◌, ◌≤◌, [], false, if◌then◌else◌, IfOk, length};
    ghost use Rattle.text_scan.specs.Each.{ok_first};

    /// The beginning of a text. It takes no memory.
    pub fn new(alloc: Global, bytes: &'a [u8]) -> WordReader<'a>
        ensures { result.left ≡ words_of bytes.now }
    {
        WordReader {
            cursor: Cursor::new(bytes),
            count: 0,
            line: 0,
            entries: Vec::new(alloc),
        }
    }

    /// Reads the next turn word. `false` where there is none, and then nothing changes. Behind a fault nothing is told of what comes.
    pub fn next_word(&mut self) -> Result<bool, WalkFault>
        ensures word { MatchResult result
            (λ more. self.old.left ≡ (if more then ok_first (Ok self.new.present) self.new.left else Ok []))
            (λ fault. (self.old.left ≡ Err fault) ⊎ (fault ≡ OutOfMemory)) }
        ensures fewer { IfOk result (λ more. IsTrue more → self.new.lines < self.old.lines) }
        ensures end { IfOk result (λ more. more ≡ false → self.new ≡ self.old) }
    {
        if !self.cursor.find_line() {
            return Ok(false);
        }
        let line = self.cursor.line();
        if self.count == MOST_LINES {
            return Err(WalkFault::TooMany { line });
        }
        self.entries.clear();
        read_entries(&mut self.cursor, &mut self.entries)?;
        self.count += 1;
        self.line = line;
        Ok(true)
    }

    /// The number of the line of the turn word that was read last, counted from 1.
    pub fn line(&self) -> u64
        ensures { result ≡ self.now.present.line }
    {
        self.line
    }

    /// The entries of the turn word that was read last.
    pub fn entries(&self) -> &[u32]
        ensures entries { result.now ≡ self.now.present.numbers }
        ensures few { length result.now ≤ MOST_ENTRIES }
    {
        self.entries.as_slice()
    }
}

/// Puts the entries of the present line, of which no word was read yet, into an empty list.
fn read_entries(cursor: &mut Cursor<'_>, entries: &mut Vec<u32>) -> Result<(), WalkFault>
    requires words { IsTrue (is_filled cursor.old.words) }
    requires empty { entries.old.items ≡ [] }
    ensures entries { MatchResult result
        (λ _. Ok entries.new.items ≡ numbers_on entries_of MOST_ENTRIES cursor.old.line cursor.old.words)
        (λ fault. (Err fault ≡ numbers_on entries_of MOST_ENTRIES cursor.old.line cursor.old.words) ⊎ (fault ≡ OutOfMemory)) }
    ensures place { OnOk result (cursor.new ≡ record cursor.old { words = [] }) }
    ensures few { length entries.new.items ≤ MOST_ENTRIES }
{
    let Some(word) = cursor.word() else {
        return Ok(());
    };
    if word == b"empty".as_slice() && !cursor.has_word() {
        return Ok(());
    }
    let mut room = MOST_ENTRIES - 1;
    let Some(first) = number(word) else {
        return Err(fault_of_line(cursor, room));
    };
    push(entries, first)?;
    while let Some(value) = cursor.short_natural() {
        if room == 0 {
            return Err(WalkFault::TooLong {
                line: cursor.line(),
            });
        }
        room -= 1;
        let Ok(entry) = u32::try_from(value) else {
            return Err(fault_of_line(cursor, room));
        };
        push(entries, entry)?;
    }
    end_of_entries(cursor, room)
}

/// Puts an entry last.
#[inline(always)]
fn push(entries: &mut Vec<u32>, entry: u32) -> Result<(), AllocError>
    ensures ok { OnOk result (entries.new.items ≡ entries.old.items ++ entry ∷ []) }
    ensures err { OnErr result (entries.new.items ≡ entries.old.items) }
{
    entries.push(entry)?;
    Ok(())
}

/// Ends the entries of a line, which may have `room` more. A word that is left is no natural, or it would be one of them,
/// and is the fault of the line.
fn end_of_entries(cursor: &mut Cursor<'_>, room: u64) -> Result<(), WalkFault>
    ensures end { MatchResult result
        (λ _. (cursor.old.words ≡ []) × (cursor.new ≡ cursor.old))
        (λ fault. IsTrue (is_filled cursor.old.words)
        × (fault ≡ (if nat_lt room (length cursor.old.words) then TooLong cursor.old.line else BadNumber cursor.old.line))) }
{
    if cursor.has_word() {
        return Err(fault_of_line(cursor, room));
    }
    Ok(())
}

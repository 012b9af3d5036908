//! Reading a file line by line.
ghost use Rattle.std.specs.Prelude.{◌≡◌, ◌≢◌, ℕ, ◌+◌, ◌-◌, ◌^◌, ◌<◌, ◌≤◌, true, false, List, [], ◌∷◌, ◌++◌, length, take, Some, slice_index, IfOk, IfSome, IfNone, IsTrue, OnOk, OnErr, OnSome, MatchOption, if◌then◌else◌};
ghost use Rattle.surf_io.specs.Calls.{OnlyReads};
ghost use Rattle.surf_io.specs.Faults.{Rose};
ghost use Rattle.surf_io.specs.Files.{file_of};
ghost use Rattle.text_scan.specs.Lines.{is_filled, unmarked};
ghost use Rattle.text_scan.specs.Unread.{words_here};
ghost use Rattle.file_pieces.specs.Reading.{Reading, Reads, bytes_left, read_so_far};
ghost use Rattle.file_pieces.specs.ShortLines.{Stands};
ghost use Rattle.file_pieces.specs.FileLines.{IsOneLine, ReadsLine, IsOn, StandsBehind, HasLine, TakesPlace, IsNumbered, PassesByte};

use crate::fault::{GatherFault, PieceFault};
use crate::pieces::Pieces;
use crate::short_line::ShortLine;
use std::alloc::{AllocError, Global};
use std::marker::Model;
use surf_io::Shelf;

/// The lines of a file that is read in pieces. The shelf and the name are handed to each call.
#[derive(Drop)]
pub struct FileLines {
    pieces: Pieces,
    /// The number of the line at the place.
    number: u64,
}

impl Model for FileLines {
    ghost use Rattle.std.specs.Prelude.{◌+◌, ◌≤◌};
    ghost use Rattle.file_pieces.specs.FileLines.{LinesReading};

    ghost Value = { LinesReading };

    ghost view = { λ a. record { reading = a.pieces; number = a.number } };

    ghost invariant = { λ a. (1 ≤ a.number) × (a.number ≤ a.pieces.place + 1) };
}

impl FileLines {
    ghost use Rattle.file_pieces.specs.FileLines.{LinesReading};

    /// A place before the first byte of a file of at most `limit` bytes.
    pub fn new(alloc: Global, limit: u64) -> Result<FileLines, AllocError>
        requires { limit < 2 ^ 32 }
        ensures { IfOk result (λ lines. lines
            ≡ record { reading = record { limit = limit; place = 0; kept = []; ended = false }; number = 1 }) }
    {
        Ok(FileLines {
            pieces: Pieces::new(alloc, limit)?,
            number: 1,
        })
    }

    /// The number of the line at the place: one more than the lines before it.
    pub fn number(&self) -> u64
        ensures number { result ≡ self.now.number }
        // What holds of every reading.
        ensures some { 1 ≤ result }
        ensures few { result ≤ self.now.reading.place + 1 }
        ensures within { read_so_far self.now.reading ≤ self.now.reading.limit }
        ensures small { self.now.reading.limit < 2 ^ 32 }
    {
        let _ = self.pieces.place();
        self.number
    }

    /// Reads the first line that has words, behind the byte-order mark that the file may have, and puts its words into `line`, shortened.
    /// Its number, or `None` where there is no such line, at the end of the file.
    pub fn first_line<S: Shelf>(
        &mut self,
        shelf: &mut S,
        name: &str,
        line: &mut ShortLine,
    ) -> Result<Option<u64>, PieceFault>
        requires place { self.old.reading.place ≡ 0 }
        requires number { self.old.number ≡ 1 }
        ensures reads { IfOk result (λ _. IfSome (file_of (S.held shelf.old) name.now)
            (λ file. Reads self.old.reading file → Reads self.new.reading file)) }
        ensures line { IfOk result (λ found. IfSome (file_of (S.held shelf.old) name.now) (λ file. Reads self.old.reading file →
            ReadsLine 1 (unmarked file) found (words_here line.new.done) self.new.number (bytes_left self.new.reading file)
            × IfNone found (bytes_left self.new.reading file ≡ []))) }
        ensures filled { IfOk result (λ found. OnSome found (is_filled (words_here line.new.done) ≡ true)) }
        ensures failed { result ≡ Err PieceFault.Failed → Rose (S.faults shelf.old) (S.faults shelf.new) }
        ensures too_large { result ≡ Err PieceFault.TooLarge → IfSome (file_of (S.held shelf.old) name.now)
            (λ file. Reads self.old.reading file → self.old.reading.limit < length file) }
        ensures limit { self.new.reading.limit ≡ self.old.reading.limit }
        ensures only_reads { OnlyReads S.held S.faults shelf.old shelf.new }
    {
        line.clear();
        pass_mark(&mut self.pieces, line, shelf, name)?;
        read_line(&mut self.pieces, &mut self.number, line, shelf, name)
    }

    /// Reads the next line that has words, and puts its words into `line`, shortened. Its number, or `None` where there is no such line,
    /// at the end of the file.
    pub fn next_line<S: Shelf>(
        &mut self,
        shelf: &mut S,
        name: &str,
        line: &mut ShortLine,
    ) -> Result<Option<u64>, PieceFault>
        ensures reads { IfOk result (λ _. IfSome (file_of (S.held shelf.old) name.now)
            (λ file. Reads self.old.reading file → Reads self.new.reading file)) }
        ensures line { IfOk result (λ found. IfSome (file_of (S.held shelf.old) name.now) (λ file. Reads self.old.reading file →
            ReadsLine self.old.number (bytes_left self.old.reading file) found (words_here line.new.done) self.new.number
            (bytes_left self.new.reading file) × IfNone found (bytes_left self.new.reading file ≡ []))) }
        ensures filled { IfOk result (λ found. OnSome found (is_filled (words_here line.new.done) ≡ true)) }
        // Unless the file's end was met, nothing is read while a byte is kept.
        ensures lazy { IfOk result (λ found. self.new.reading.ended ≡ false → self.new.reading.place ≤ read_so_far self.old.reading
            → shelf.new ≡ shelf.old) }
        ensures failed { result ≡ Err PieceFault.Failed → Rose (S.faults shelf.old) (S.faults shelf.new) }
        ensures too_large { result ≡ Err PieceFault.TooLarge → IfSome (file_of (S.held shelf.old) name.now)
            (λ file. Reads self.old.reading file → self.old.reading.limit < length file) }
        ensures limit { self.new.reading.limit ≡ self.old.reading.limit }
        ensures only_reads { OnlyReads S.held S.faults shelf.old shelf.new }
    {
        line.clear();
        read_line(&mut self.pieces, &mut self.number, line, shelf, name)
    }

    /// The bytes from the place on that were read already.
    #[inline(always)]
    pub fn kept(&self) -> &[u8]
        ensures { result.now ≡ self.now.reading.kept }
    {
        self.pieces.kept()
    }

    /// Goes past the line at the place, which has words, where it was read up to its line feed already: so many bytes lie before that.
    #[inline(always)]
    pub fn pass_line(&mut self, len: usize)
        requires kept { len < length self.old.reading.kept }
        requires feed { slice_index self.old.reading.kept len ≡ 10 }
        requires alone { IsOneLine (take len self.old.reading.kept) }
        requires filled { is_filled (words_here (take len self.old.reading.kept)) ≡ true }
        ensures reads { (file : List ℕ) → Reads self.old.reading file → Reads self.new.reading file }
        ensures line { (file : List ℕ) → Reads self.old.reading file →
            ReadsLine self.old.number (bytes_left self.old.reading file) (Some self.old.number)
            (words_here (take len self.old.reading.kept))
            self.new.number (bytes_left self.new.reading file) }
        ensures limit { self.new.reading.limit ≡ self.old.reading.limit }
    {
        let _ = self.pieces.place();
        self.number += 1;
        self.pieces.pass(len + 1);
    }

    /// Passes over the rest of the file.
    pub fn pass_rest<S: Shelf>(&mut self, shelf: &mut S, name: &str) -> Result<(), PieceFault>
        ensures file { OnOk result (IfSome (file_of (S.held shelf.old) name.now)
            (λ file. Reads self.old.reading file → Reads self.new.reading file)) }
        ensures ended { OnOk result ((self.new.reading.ended ≡ true) × (self.new.reading.kept ≡ [])) }
        ensures failed { result ≡ Err PieceFault.Failed → Rose (S.faults shelf.old) (S.faults shelf.new) }
        ensures too_large { result ≡ Err PieceFault.TooLarge → IfSome (file_of (S.held shelf.old) name.now)
            (λ file. Reads self.old.reading file → self.old.reading.limit < length file) }
        ensures within { OnOk result (self.new.reading.place ≤ self.new.reading.limit) }
        ensures number { self.new.number ≡ self.old.number }
        ensures limit { self.new.reading.limit ≡ self.old.reading.limit }
        ensures only_reads { OnlyReads S.held S.faults shelf.old shelf.new }
    {
        self.pieces.pass_rest(shelf, name)
    }

    /// Puts the rest of the file behind the bytes of `into`.
    pub fn gather_rest<S: Shelf>(
        &mut self,
        shelf: &mut S,
        name: &str,
        into: &mut Vec<u8>,
    ) -> Result<(), GatherFault>
        ensures file { OnOk result (IfSome (file_of (S.held shelf.old) name.now) (λ file. Reads self.old.reading file →
            Reads self.new.reading file × (into.new.items ≡ into.old.items ++ bytes_left self.old.reading file))) }
        ensures ended { OnOk result ((self.new.reading.ended ≡ true) × (self.new.reading.kept ≡ [])) }
        ensures count { OnOk result (self.old.reading.place + length into.new.items ≡ self.new.reading.place + length into.old.items) }
        ensures failed { result ≡ Err (GatherFault.Piece PieceFault.Failed) → Rose (S.faults shelf.old) (S.faults shelf.new) }
        ensures too_large { result ≡ Err (GatherFault.Piece PieceFault.TooLarge) → IfSome (file_of (S.held shelf.old) name.now)
            (λ file. Reads self.old.reading file → self.old.reading.limit < length file) }
        ensures within { OnOk result (self.new.reading.place ≤ self.new.reading.limit) }
        ensures number { self.new.number ≡ self.old.number }
        ensures limit { self.new.reading.limit ≡ self.old.reading.limit }
        ensures only_reads { OnlyReads S.held S.faults shelf.old shelf.new }
    {
        self.pieces.gather_rest(shelf, name, into)
    }
}

/// Passes over the byte-order mark that a file may begin with. Its bytes are put into the line where it is cut short.
fn pass_mark<S: Shelf>(
    pieces: &mut Pieces,
    line: &mut ShortLine,
    shelf: &mut S,
    name: &str,
) -> Result<(), PieceFault>
    requires place { pieces.old.place ≡ 0 }
    requires line { Stands line.old [] }
    ensures reads { OnOk result (IfSome (file_of (S.held shelf.old) name.now) (λ file. Reads pieces.old file → Reads pieces.new file)) }
    ensures line { OnOk result (IfSome (file_of (S.held shelf.old) name.now) (λ file. Reads pieces.old file →
        IsOn 1 (unmarked file) line.new 1 (bytes_left pieces.new file))) }
    ensures begun { OnOk result ((if line.new.begun then 1 else 0) ≤ pieces.new.place) }
    ensures failed { result ≡ Err PieceFault.Failed → Rose (S.faults shelf.old) (S.faults shelf.new) }
    ensures too_large { result ≡ Err PieceFault.TooLarge → IfSome (file_of (S.held shelf.old) name.now)
        (λ file. Reads pieces.old file → pieces.old.limit < length file) }
    ensures limit { pieces.new.limit ≡ pieces.old.limit }
    ensures only_reads { OnlyReads S.held S.faults shelf.old shelf.new }
{
    if !pass_byte(pieces, line, shelf, name, 0xEF)? {
        return Ok(());
    }
    if !pass_byte(pieces, line, shelf, name, 0xBB)? {
        return Ok(());
    }
    if !pass_byte(pieces, line, shelf, name, 0xBF)? {
        return Ok(());
    }
    line.clear();
    Ok(())
}

/// Puts the next byte into the line, if it is this one. Else nothing is looked at.
fn pass_byte<S: Shelf>(
    pieces: &mut Pieces,
    line: &mut ShortLine,
    shelf: &mut S,
    name: &str,
    byte: u8,
) -> Result<bool, PieceFault>
    requires { byte ≢ 10 }
    ensures reads { OnOk result (IfSome (file_of (S.held shelf.old) name.now) (λ file. Reads pieces.old file → Reads pieces.new file)) }
    ensures passed { IfOk result (λ passed. IfSome (file_of (S.held shelf.old) name.now) (λ file. Reads pieces.old file →
        PassesByte passed byte (bytes_left pieces.old file) (bytes_left pieces.new file))) }
    ensures line { IfOk result (λ passed. (bytes : List ℕ) → Stands line.old bytes
        → Stands line.new (if passed then bytes ++ byte ∷ [] else bytes)) }
    ensures place { IfOk result (λ passed. (if passed then 1 else 0) ≤ pieces.new.place) }
    ensures later { pieces.old.place ≤ pieces.new.place }
    ensures failed { result ≡ Err PieceFault.Failed → Rose (S.faults shelf.old) (S.faults shelf.new) }
    ensures too_large { result ≡ Err PieceFault.TooLarge → IfSome (file_of (S.held shelf.old) name.now)
        (λ file. Reads pieces.old file → pieces.old.limit < length file) }
    ensures limit { pieces.new.limit ≡ pieces.old.limit }
    ensures only_reads { OnlyReads S.held S.faults shelf.old shelf.new }
{
    if pieces.peek(shelf, name)? != Some(byte) {
        return Ok(false);
    }
    let _ = pieces.next(shelf, name)?;
    line.push(byte);
    Ok(true)
}

/// What a byte makes of a line.
#[derive(Clone, Copy, Debug, PartialEq, Eq)]
enum Taken {
    /// The line goes on, or a blank one has ended.
    Open,
    /// The line with this number has ended, and has words.
    Found(u64),
    /// The text has ended.
    End,
}

/// Reads on to the end of the first line that has words, where a line was begun. Its number, or `None` where there is no such line,
/// at the end of the file.
fn read_line<S: Shelf>(
    pieces: &mut Pieces,
    number: &mut u64,
    line: &mut ShortLine,
    shelf: &mut S,
    name: &str,
) -> Result<Option<u64>, PieceFault>
    requires numbered { number.old + (if line.old.begun then 1 else 0) ≤ pieces.old.place + 1 }
    ensures reads { IfOk result (λ _. IfSome (file_of (S.held shelf.old) name.now)
        (λ file. Reads pieces.old file → Reads pieces.new file)) }
    ensures line { IfOk result (λ found. IfSome (file_of (S.held shelf.old) name.now) (λ file. Reads pieces.old file →
        (first : ℕ) (all : List ℕ) → IsOn first all line.old number.old (bytes_left pieces.old file)
        → ReadsLine first all found (words_here line.new.done) number.new (bytes_left pieces.new file)
        × IfNone found (bytes_left pieces.new file ≡ []))) }
    ensures filled { IfOk result (λ found. OnSome found (is_filled (words_here line.new.done) ≡ true)) }
    ensures numbered { number.new ≤ pieces.new.place + 1 }
    ensures later { number.old ≤ number.new }
    // Unless the file's end was met, nothing is read while a byte is kept.
    ensures lazy { IfOk result (λ found. pieces.new.ended ≡ false → pieces.new.place ≤ read_so_far pieces.old → shelf.new ≡ shelf.old) }
    ensures failed { result ≡ Err PieceFault.Failed → Rose (S.faults shelf.old) (S.faults shelf.new) }
    ensures too_large { result ≡ Err PieceFault.TooLarge → IfSome (file_of (S.held shelf.old) name.now)
        (λ file. Reads pieces.old file → pieces.old.limit < length file) }
    ensures limit { pieces.new.limit ≡ pieces.old.limit }
    ensures only_reads { OnlyReads S.held S.faults shelf.old shelf.new }
{
    loop {
        match take_byte(pieces, number, line, shelf, name)? {
            Taken::Open => {}
            Taken::Found(found) => return Ok(Some(found)),
            Taken::End => return Ok(None),
        }
    }
}

/// Takes the next byte of the file.
#[inline(always)]
fn take_byte<S: Shelf>(
    pieces: &mut Pieces,
    number: &mut u64,
    line: &mut ShortLine,
    shelf: &mut S,
    name: &str,
) -> Result<Taken, PieceFault>
    requires numbered { number.old + (if line.old.begun then 1 else 0) ≤ pieces.old.place + 1 }
    ensures reads { IfOk result (λ _. IfSome (file_of (S.held shelf.old) name.now)
        (λ file. Reads pieces.old file → Reads pieces.new file)) }
    ensures line { IfOk result (λ taken. IfSome (file_of (S.held shelf.old) name.now) (λ file. Reads pieces.old file →
        (first : ℕ) (all : List ℕ) → IsOn first all line.old number.old (bytes_left pieces.old file)
        → StandsBehind taken first all line.new number.new (bytes_left pieces.new file))) }
    ensures filled { IfOk result (λ taken. HasLine taken (words_here line.new.done)) }
    ensures numbered { IfOk result (λ taken. IsNumbered taken number.new line.new.begun pieces.new.place) }
    ensures failing { OnErr result ((number.new ≡ number.old) × (pieces.old.place ≤ pieces.new.place)) }
    ensures later { number.old ≤ number.new }
    ensures place { IfOk result (λ taken. TakesPlace taken pieces.old pieces.new) }
    ensures lazy { IsTrue (is_filled pieces.old.kept) → OnOk result ((shelf.new ≡ shelf.old)
        × (read_so_far pieces.new ≡ read_so_far pieces.old)) }
    ensures failed { result ≡ Err PieceFault.Failed → Rose (S.faults shelf.old) (S.faults shelf.new) }
    ensures too_large { result ≡ Err PieceFault.TooLarge → IfSome (file_of (S.held shelf.old) name.now)
        (λ file. Reads pieces.old file → pieces.old.limit < length file) }
    ensures within { read_so_far pieces.new ≤ pieces.new.limit }
    ensures limit { pieces.new.limit ≡ pieces.old.limit }
    ensures only_reads { OnlyReads S.held S.faults shelf.old shelf.new }
{
    match pieces.next(shelf, name)? {
        Some(b'\n') => Ok(end_line(number, line)),
        Some(byte) => {
            line.push(byte);
            Ok(Taken::Open)
        }
        None => Ok(end_text(number, line)),
    }
}

/// Ends a line at its line feed. Where it has no words, the next line is begun.
fn end_line(number: &mut u64, line: &mut ShortLine) -> Taken
    requires { number.old < 2 ^ 63 }
    ensures line { (first : ℕ) (all left : List ℕ) → IsOn first all line.old number.old (10 ∷ left)
        → StandsBehind result first all line.new number.new left }
    ensures filled { HasLine result (words_here line.new.done) }
    ensures begun { result ≢ Taken.End }
    ensures next { number.new ≡ number.old + 1 }
    ensures anew { result ≡ Taken.Open → line.new.begun ≡ false }
{
    let ended = *number;
    *number += 1;
    line.finish();
    if line.has_words() {
        return Taken::Found(ended);
    }
    line.clear();
    Taken::Open
}

/// Ends the last line where the text ends without a line feed.
fn end_text(number: &mut u64, line: &mut ShortLine) -> Taken
    requires { number.old < 2 ^ 63 }
    ensures line { (first : ℕ) (all : List ℕ) → IsOn first all line.old number.old []
        → StandsBehind result first all line.new number.new [] }
    ensures filled { HasLine result (words_here line.new.done) }
    ensures ended { result ≢ Taken.Open }
    ensures next { number.new ≡ number.old + (if line.old.begun then 1 else 0) }
{
    let ended = *number;
    line.finish();
    *number += u64::from(line.has_begun());
    if line.has_words() {
        Taken::Found(ended)
    } else {
        Taken::End
    }
}

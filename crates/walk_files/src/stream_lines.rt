//! The lines of a certificate that is read from a shelf, one by one.
ghost use Rattle.std.specs.Prelude.{◌≡◌, ◌≢◌, ◌⊎◌, ℕ, ◌<◌, ◌≤◌, List, [], ◌∷◌, length, drop, true, false, None, Err, IfOk, IfErr, OnOk, OnSome, IfSome, IfNone, IsSome, MatchOption, MatchResult};
ghost use Rattle.surf_io.specs.Calls.{OnlyReads};
ghost use Rattle.surf_io.specs.Faults.{Rose};
ghost use Rattle.surf_io.specs.Files.{file_of};
ghost use Rattle.text_scan.specs.Lines.{is_filled, lines_from, full_lines, end_line};
ghost use Rattle.text_scan.specs.Unread.{words_here};
ghost use Rattle.file_pieces.specs.Reading.{Reads, bytes_left, read_so_far};
ghost use Rattle.file_pieces.specs.SameLines.{SameLine};
ghost use Rattle.walk_files.specs.Certificates.{answer_alone, head_in, head_of_text, behind_head, IsWithinPeak};
ghost use Rattle.walk_files.specs.Readers.{next_move_of, next_on};
ghost use Rattle.walk_files.specs.Streams.{IsStreamAnswer, IsReadOut, IsWithin, end_behind};

use crate::certificate::{Answer, CertHead, pass_answer, read_head_line};
use crate::fault::CertFault;
use crate::moves::{read_line, read_no_line};
use crate::stream_end::StreamEnd;
use crate::whole_lines::move_line;
use file_pieces::{FileLines, ShortLine};
use surf_io::Shelf;
use surf_model::Move;
use text_scan::Cursor;

/// Reads the next line that has words, which holds a move where some are still to come.
pub(crate) fn read_next_move<S: Shelf>(
    lines: &mut FileLines,
    to_come: u64,
    shelf: &mut S,
    name: &str,
) -> Result<Option<Move>, StreamEnd>
    ensures answer { IfSome (file_of (S.held shelf.old) name.now) (λ file. Reads lines.old.reading file →
        IsStreamAnswer result (next_move_of (end_behind lines.old.number (bytes_left lines.old.reading file)) to_come
        (lines_from lines.old.number (bytes_left lines.old.reading file)))) }
    ensures reads { OnOk result (IfSome (file_of (S.held shelf.old) name.now)
        (λ file. Reads lines.old.reading file → Reads lines.new.reading file)) }
    ensures left { OnOk result (IfSome (file_of (S.held shelf.old) name.now) (λ file. Reads lines.old.reading file →
        (lines_from lines.new.number (bytes_left lines.new.reading file)
        ≡ drop 1 (lines_from lines.old.number (bytes_left lines.old.reading file)))
        × (end_behind lines.new.number (bytes_left lines.new.reading file)
        ≡ end_behind lines.old.number (bytes_left lines.old.reading file))
        × (lines.old.number ≤ lines.new.number))) }
    ensures some { IfOk result (λ mv. IsSome mv → 0 < to_come) }
    ensures no_memory { result ≢ Err StreamEnd.OutOfMemory }
    ensures no_want { result ≢ Err (StreamEnd.Cert CertFault.OutOfMemory) }
    ensures fault { result ≡ Err StreamEnd.Fault → Rose (S.faults shelf.old) (S.faults shelf.new) }
    ensures too_large { result ≡ Err StreamEnd.TooLarge → IfSome (file_of (S.held shelf.old) name.now)
        (λ file. Reads lines.old.reading file → lines.old.reading.limit < length file) }
    ensures within { IfSome (file_of (S.held shelf.old) name.now) (λ file. Reads lines.old.reading file →
        MatchResult result (λ mv. IfNone mv (length file ≤ lines.old.reading.limit))
        (λ end. IsWithin end (length file) lines.old.reading.limit)) }
    ensures read_out { IfErr result (λ end. IsReadOut end lines.new) }
    ensures lazy { IfOk result (λ mv. lines.new.reading.ended ≡ false → lines.new.reading.place ≤ read_so_far lines.old.reading
        → shelf.new ≡ shelf.old) }
    ensures limit { lines.new.reading.limit ≡ lines.old.reading.limit }
    ensures only_reads { OnlyReads S.held S.faults shelf.old shelf.new }
{
    if to_come > 0 {
        if let Some(found) = move_line(lines.kept()) {
            lines.pass_line(found.len);
            return Ok(Some(found.mv));
        }
    }
    let mut line = ShortLine::new();
    let found = lines.next_line(shelf, name, &mut line)?;
    match read_found(&line, found, lines.number(), to_come) {
        Ok(mv) => Ok(mv),
        Err(fault) => Err(refuse(lines, shelf, name, fault)),
    }
}

/// What is given where a line was found, or none is left and the text ends at `end_line`.
fn read_found(
    line: &ShortLine,
    found: Option<u64>,
    end_line: u64,
    to_come: u64,
) -> Result<Option<Move>, CertFault>
    requires { OnSome found (is_filled (words_here line.now.done) ≡ true) }
    ensures answer { MatchOption found (result ≡ next_move_of end_line to_come [])
        (λ number. (words : List (List ℕ)) → SameLine (words_here line.now.done) words
        → result ≡ next_on to_come (record { number = number; words = words })) }
    ensures some { IfOk result (λ mv. IsSome mv → 0 < to_come) }
    ensures none { IfOk result (λ mv. IfNone mv (found ≡ None)) }
    ensures fault { result ≢ Err CertFault.OutOfMemory }
{
    let Some(number) = found else {
        return read_no_line(end_line, to_come);
    };
    read_line(&mut at_words(line), number, to_come)
}

/// A place before the first word of a line that has words.
fn at_words(line: &ShortLine) -> Cursor<'_>
    requires { is_filled (words_here line.now.done) ≡ true }
    ensures { result.words ≡ words_here line.now.done }
{
    let mut cursor = Cursor::new(line.bytes());
    let _ = cursor.find_line();
    cursor
}

/// Passes over the rest of the file behind a fault of the certificate. A read that fails on the way, or a byte too many, goes before it.
pub(crate) fn refuse<S: Shelf>(
    lines: &mut FileLines,
    shelf: &mut S,
    name: &str,
    fault: CertFault,
) -> StreamEnd
    ensures end { (result ≡ StreamEnd.Cert fault) ⊎ (result ≡ StreamEnd.Fault) ⊎ (result ≡ StreamEnd.TooLarge) }
    ensures no_want { fault ≢ CertFault.OutOfMemory → result ≢ StreamEnd.Cert CertFault.OutOfMemory }
    ensures fault { result ≡ StreamEnd.Fault → Rose (S.faults shelf.old) (S.faults shelf.new) }
    ensures too_large { result ≡ StreamEnd.TooLarge → IfSome (file_of (S.held shelf.old) name.now)
        (λ file. Reads lines.old.reading file → lines.old.reading.limit < length file) }
    ensures within { IfSome (file_of (S.held shelf.old) name.now)
        (λ file. Reads lines.old.reading file → IsWithin result (length file) lines.old.reading.limit) }
    ensures read_out { IsReadOut result lines.new }
    ensures limit { lines.new.reading.limit ≡ lines.old.reading.limit }
    ensures only_reads { OnlyReads S.held S.faults shelf.old shelf.new }
{
    match lines.pass_rest(shelf, name) {
        Ok(()) => StreamEnd::Cert(fault),
        Err(end) => StreamEnd::from(end),
    }
}

/// Reads the lines up to the head of a file of which nothing was read yet.
pub(crate) fn read_stream_head<S: Shelf>(
    lines: &mut FileLines,
    shelf: &mut S,
    name: &str,
) -> Result<CertHead, StreamEnd>
    requires place { lines.old.reading.place ≡ 0 }
    requires number { lines.old.number ≡ 1 }
    ensures answer { IfSome (file_of (S.held shelf.old) name.now) (λ file. Reads lines.old.reading file →
        IsStreamAnswer result (head_of_text file)) }
    ensures reads { OnOk result (IfSome (file_of (S.held shelf.old) name.now)
        (λ file. Reads lines.old.reading file → Reads lines.new.reading file)) }
    ensures left { OnOk result (IfSome (file_of (S.held shelf.old) name.now) (λ file. Reads lines.old.reading file →
        (lines_from lines.new.number (bytes_left lines.new.reading file) ≡ behind_head (full_lines file))
        × (end_behind lines.new.number (bytes_left lines.new.reading file) ≡ end_line file)
        × (1 < lines.new.number))) }
    ensures peak { IfOk result IsWithinPeak }
    ensures no_memory { result ≢ Err StreamEnd.OutOfMemory }
    ensures no_want { result ≢ Err (StreamEnd.Cert CertFault.OutOfMemory) }
    ensures fault { result ≡ Err StreamEnd.Fault → Rose (S.faults shelf.old) (S.faults shelf.new) }
    ensures too_large { result ≡ Err StreamEnd.TooLarge → IfSome (file_of (S.held shelf.old) name.now)
        (λ file. Reads lines.old.reading file → lines.old.reading.limit < length file) }
    ensures within { IfSome (file_of (S.held shelf.old) name.now) (λ file. Reads lines.old.reading file →
        IfErr result (λ end. IsWithin end (length file) lines.old.reading.limit)) }
    ensures read_out { IfErr result (λ end. IsReadOut end lines.new) }
    ensures limit { lines.new.reading.limit ≡ lines.old.reading.limit }
    ensures only_reads { OnlyReads S.held S.faults shelf.old shelf.new }
{
    let mut line = ShortLine::new();
    let first = lines.first_line(shelf, name, &mut line)?;
    let Some(answer) = answer_found(&line, first) else {
        return match head_found(&line, first, CertFault::NoHead, None) {
            Ok(head) => Ok(head),
            Err(fault) => Err(refuse(lines, shelf, name, fault)),
        };
    };
    let second = lines.next_line(shelf, name, &mut line)?;
    let ended = CertFault::Ended {
        line: lines.number(),
    };
    match head_found(&line, second, ended, Some(answer)) {
        Ok(head) => Ok(head),
        Err(fault) => Err(refuse(lines, shelf, name, fault)),
    }
}

/// The answer that a line is, if one was found.
fn answer_found(line: &ShortLine, found: Option<u64>) -> Option<Answer>
    requires { OnSome found (is_filled (words_here line.now.done) ≡ true) }
    ensures { MatchOption found (result ≡ None) (λ number. (words : List (List ℕ)) → SameLine (words_here line.now.done) words
        → result ≡ answer_alone words) }
{
    found?;
    pass_answer(&mut at_words(line))
}

/// The head that a line is, if one was found; else this fault.
fn head_found(
    line: &ShortLine,
    found: Option<u64>,
    none: CertFault,
    answer: Option<Answer>,
) -> Result<CertHead, CertFault>
    requires { OnSome found (is_filled (words_here line.now.done) ≡ true) }
    ensures head { MatchOption found (result ≡ Err none) (λ number. (words : List (List ℕ)) → SameLine (words_here line.now.done) words
        → result ≡ head_in answer (record { number = number; words = words })) }
    ensures peak { IfOk result IsWithinPeak }
    ensures no_memory { none ≢ CertFault.OutOfMemory → result ≢ Err CertFault.OutOfMemory }
{
    let Some(number) = found else {
        return Err(none);
    };
    read_head_line(&mut at_words(line), number, answer)
}

//! A certificate that is read from a shelf in pieces.
ghost use Rattle.std.specs.Prelude.{◌≡◌, ◌≢◌, ℕ, ◌+◌, ◌-◌, ◌^◌, ◌<◌, ◌≤◌, List, length, true, false, None, Err, IsTrue, IfOk, IfErr, IfSome, IfNone, IsSome, MatchResult};
ghost use Rattle.surf_io.specs.Calls.{OnlyReads};
ghost use Rattle.surf_io.specs.Faults.{Rose};
ghost use Rattle.surf_io.specs.Files.{file_of};
ghost use Rattle.file_pieces.specs.Reading.{read_so_far};

use crate::certificate::CertHead;
use crate::fault::CertFault;
use crate::stream_denial::read_stream_denial;
use crate::stream_end::StreamEnd;
use crate::stream_lines::{read_next_move, read_stream_head};
use file_pieces::FileLines;
use labellings::Denial;
use std::alloc::Global;
use std::marker::Model;
use surf_io::Shelf;
use surf_model::Move;

/// A certificate on a shelf, of which the head and some lines behind it were read. The shelf and the name are handed to each call, and the
/// file is read in pieces of 65,536 bytes.
///
/// Once it has refused, it gives that refusal again, and reads nothing. No move takes memory.
#[derive(Drop)]
pub struct CertStream {
    lines: FileLines,
    head: CertHead,
    /// How many moves were given.
    given: u64,
    /// Whether the denial was given.
    denied: bool,
    refusal: Option<StreamEnd>,
}

impl Model for CertStream {
    ghost use Rattle.walk_files.specs.Streams.{Streamed};

    ghost Value = { Streamed };

    ghost view = { λ a.
        record { lines = a.lines; head = a.head; given = a.given; denied = a.denied; refusal = a.refusal } };
}

impl CertStream {
    ghost use Rattle.walk_files.specs.Certificates.{head_of_text, IsWithinPeak};
    ghost use Rattle.walk_files.specs.declared.certificate.CertHead.{CertHead};
    ghost use Rattle.walk_files.specs.Readers.{count_in, next_answer, denial_left};
    ghost use Rattle.walk_files.specs.Streams.{Streamed, reader_at, streams_list, streams_denial, IsIn, Belongs, IsStreamAnswer, IsReadOut, IsWithin, after_move, behind_denial};

    /// Reads the lines up to the head of the file `name`, which may have at most `limit` bytes. Takes a piece of 65,536 bytes.
    pub fn start<S: Shelf>(
        alloc: Global,
        shelf: &mut S,
        name: &str,
        limit: u64,
    ) -> Result<CertStream, StreamEnd>
        requires { limit < 2 ^ 32 - 1 }
        ensures answer { IfSome (file_of (S.held shelf.old) name.now) (λ file. MatchResult result (λ stream. IsIn stream file)
            (λ end. IsStreamAnswer {A = CertHead} (Err end) (head_of_text file))) }
        ensures peak { IfOk result (λ stream. IsWithinPeak stream.head) }
        ensures fresh { IfOk result (λ stream. (stream.given ≡ 0) × (stream.denied ≡ false) × (stream.refusal ≡ None)
            × (stream.lines.reading.limit ≡ limit)) }
        ensures fault { result ≡ Err StreamEnd.Fault → Rose (S.faults shelf.old) (S.faults shelf.new) }
        ensures too_large { result ≡ Err StreamEnd.TooLarge → IfSome (file_of (S.held shelf.old) name.now) (λ file. limit < length file) }
        ensures within { IfSome (file_of (S.held shelf.old) name.now) (λ file. IfErr result (λ end. IsWithin end (length file) limit)) }
        ensures no_want { result ≢ Err (StreamEnd.Cert CertFault.OutOfMemory) }
        ensures only_reads { OnlyReads S.held S.faults shelf.old shelf.new }
    {
        let mut lines = FileLines::new(alloc, limit)?;
        let head = read_stream_head(&mut lines, shelf, name)?;
        Ok(CertStream {
            lines,
            head,
            given: 0,
            denied: false,
            refusal: None,
        })
    }

    /// The head.
    pub fn head(&self) -> CertHead
        ensures { result ≡ self.now.head }
    {
        self.head
    }

    /// The move on the next line with words, or `None` behind the last one, where the file was read to its end. It takes no memory.
    pub fn next_move<S: Shelf>(
        &mut self,
        shelf: &mut S,
        name: &str,
    ) -> Result<Option<Move>, StreamEnd>
        requires { IsTrue (streams_list self.old) }
        // A refusal that is kept is given again.
        ensures kept { IfSome self.old.refusal (λ end. (result ≡ Err end) × (self.new ≡ self.old) × (shelf.new ≡ shelf.old)) }
        ensures answer { self.old.refusal ≡ None → IfSome (file_of (S.held shelf.old) name.now) (λ file. IsIn self.old file →
            IsStreamAnswer result (next_answer (reader_at self.old file)) × Belongs self.new file) }
        ensures after { self.old.refusal ≡ None → self.new ≡ record (after_move self.old result) { lines = self.new.lines } }
        ensures no_memory { self.old.refusal ≡ None → result ≢ Err StreamEnd.OutOfMemory }
        ensures fault { self.old.refusal ≡ None → result ≡ Err StreamEnd.Fault → Rose (S.faults shelf.old) (S.faults shelf.new) }
        ensures too_large { self.old.refusal ≡ None → result ≡ Err StreamEnd.TooLarge → IfSome (file_of (S.held shelf.old) name.now)
            (λ file. IsIn self.old file → self.old.lines.reading.limit < length file) }
        ensures within { self.old.refusal ≡ None → IfSome (file_of (S.held shelf.old) name.now) (λ file. IsIn self.old file →
            MatchResult result (λ mv. IfNone mv (length file ≤ self.old.lines.reading.limit))
            (λ end. IsWithin end (length file) self.old.lines.reading.limit)) }
        ensures read_out { self.old.refusal ≡ None → IfErr result (λ end. IsReadOut end self.new.lines) }
        ensures no_want { self.old.refusal ≡ None → result ≢ Err (StreamEnd.Cert CertFault.OutOfMemory) }
        // A move is one of those that the head promises.
        ensures promised { IfOk result (λ mv. IsSome mv → self.old.given < count_in self.old.head) }
        ensures counted { self.old.refusal ≡ None → self.new.given < 2 ^ 64 }
        // Unless the file's end was met, nothing is read while a byte is kept.
        ensures lazy { IfOk result (λ mv. self.new.lines.reading.ended ≡ false
            → self.new.lines.reading.place ≤ read_so_far self.old.lines.reading → shelf.new ≡ shelf.old) }
        ensures limit { self.new.lines.reading.limit ≡ self.old.lines.reading.limit }
        ensures only_reads { OnlyReads S.held S.faults shelf.old shelf.new }
    {
        if let Some(end) = self.refusal {
            return Err(end);
        }
        let to_come = self.head.count().saturating_sub(self.given);
        match read_next_move(&mut self.lines, to_come, shelf, name) {
            Ok(Some(mv)) => {
                self.given += 1;
                Ok(Some(mv))
            }
            Ok(None) => Ok(None),
            Err(end) => {
                self.refusal = Some(end);
                Err(end)
            }
        }
    }

    /// The denial that all lines behind the head are, or the first fault among them. The rest of the file is read, and memory is taken for
    /// it and for what it spells, and none by the degree in the head.
    pub fn denial<S: Shelf>(
        &mut self,
        alloc: Global,
        shelf: &mut S,
        name: &str,
    ) -> Result<Denial, StreamEnd>
        requires head { IsTrue (streams_denial self.old) }
        requires once { self.old.denied ≡ false }
        // A refusal that is kept is given again.
        ensures kept { IfSome self.old.refusal (λ end. (result ≡ Err end) × (self.new ≡ self.old) × (shelf.new ≡ shelf.old)) }
        ensures answer { self.old.refusal ≡ None → IfSome (file_of (S.held shelf.old) name.now) (λ file. IsIn self.old file →
            IsStreamAnswer result (denial_left (reader_at self.old file)) × Belongs self.new file) }
        ensures after { self.old.refusal ≡ None → self.new ≡ record (behind_denial self.old result) { lines = self.new.lines } }
        ensures fault { self.old.refusal ≡ None → result ≡ Err StreamEnd.Fault → Rose (S.faults shelf.old) (S.faults shelf.new) }
        ensures too_large { self.old.refusal ≡ None → result ≡ Err StreamEnd.TooLarge → IfSome (file_of (S.held shelf.old) name.now)
            (λ file. IsIn self.old file → self.old.lines.reading.limit < length file) }
        ensures within { self.old.refusal ≡ None → IfSome (file_of (S.held shelf.old) name.now) (λ file. IsIn self.old file →
            MatchResult result (λ _. length file ≤ self.old.lines.reading.limit)
            (λ end. IsWithin end (length file) self.old.lines.reading.limit)) }
        ensures read_out { self.old.refusal ≡ None → IfErr result (λ end. IsReadOut end self.new.lines) }
        ensures no_want { self.old.refusal ≡ None → result ≢ Err (StreamEnd.Cert CertFault.OutOfMemory) }
        ensures limit { self.new.lines.reading.limit ≡ self.old.lines.reading.limit }
        ensures only_reads { OnlyReads S.held S.faults shelf.old shelf.new }
    {
        if let Some(end) = self.refusal {
            return Err(end);
        }
        let answer = read_stream_denial(alloc, &mut self.lines, self.head.degree(), shelf, name);
        match &answer {
            Ok(_) => self.denied = true,
            Err(end) => self.refusal = Some(*end),
        }
        answer
    }
}

//! The denial of a certificate that is read from a shelf.
ghost use Rattle.std.specs.Prelude.{◌≡◌, ◌≢◌, ◌⊎◌, ◌-◌, ◌^◌, ◌<◌, ◌≤◌, ◌++◌, [], length, true, replicate, Err, IfOk, IfErr, OnOk, IfSome, MatchResult};
ghost use Rattle.surf_io.specs.Calls.{OnlyReads};
ghost use Rattle.surf_io.specs.Faults.{Rose};
ghost use Rattle.surf_io.specs.Files.{file_of};
ghost use Rattle.text_scan.specs.Lines.{lines_from};
ghost use Rattle.file_pieces.specs.Reading.{Reads, bytes_left};
ghost use Rattle.walk_files.specs.Denials.{denial_in, unlabelled};
ghost use Rattle.walk_files.specs.Streams.{IsStreamAnswer, IsReadOut, IsWithin, end_behind};

use crate::denial::read_denial;
use crate::fault::CertFault;
use crate::stream_end::StreamEnd;
use file_pieces::FileLines;
use labellings::Denial;
use std::alloc::{AllocError, Global};
use surf_io::Shelf;
use text_scan::Cursor;

/// Reads all lines that are left as the denial behind a head of this degree, which stands in a line before.
pub(crate) fn read_stream_denial<S: Shelf>(
    alloc: Global,
    lines: &mut FileLines,
    degree: u32,
    shelf: &mut S,
    name: &str,
) -> Result<Denial, StreamEnd>
    ensures answer { IfSome (file_of (S.held shelf.old) name.now) (λ file. Reads lines.old.reading file → 1 < lines.old.number →
        IsStreamAnswer result (denial_in (end_behind lines.old.number (bytes_left lines.old.reading file)) (unlabelled degree)
        (lines_from lines.old.number (bytes_left lines.old.reading file)))) }
    ensures reads { OnOk result (IfSome (file_of (S.held shelf.old) name.now)
        (λ file. Reads lines.old.reading file → Reads lines.new.reading file)) }
    ensures fault { result ≡ Err StreamEnd.Fault → Rose (S.faults shelf.old) (S.faults shelf.new) }
    ensures too_large { result ≡ Err StreamEnd.TooLarge → IfSome (file_of (S.held shelf.old) name.now)
        (λ file. Reads lines.old.reading file → lines.old.reading.limit < length file) }
    ensures within { IfSome (file_of (S.held shelf.old) name.now) (λ file. Reads lines.old.reading file →
        MatchResult result (λ _. length file ≤ lines.old.reading.limit) (λ end. IsWithin end (length file) lines.old.reading.limit)) }
    ensures read_out { IfErr result (λ end. IsReadOut end lines.new) }
    ensures no_want { result ≢ Err (StreamEnd.Cert CertFault.OutOfMemory) }
    ensures number { lines.new.number ≡ lines.old.number }
    ensures limit { lines.new.reading.limit ≡ lines.old.reading.limit }
    ensures only_reads { OnlyReads S.held S.faults shelf.old shelf.new }
{
    let text = gather_lines(alloc, lines, shelf, name)?;
    let mut cursor = Cursor::new(&text);
    Ok(read_denial(alloc, &mut cursor, degree)?)
}

/// The rest of the file behind as many line feeds as lines came before, so that its lines keep their numbers.
fn gather_lines<S: Shelf>(
    alloc: Global,
    lines: &mut FileLines,
    shelf: &mut S,
    name: &str,
) -> Result<Vec<u8>, StreamEnd>
    ensures text { IfOk result (λ text. IfSome (file_of (S.held shelf.old) name.now) (λ file. Reads lines.old.reading file →
        Reads lines.new.reading file × (text.items ≡ replicate (lines.old.number - 1) 10 ++ bytes_left lines.old.reading file))) }
    ensures short { IfOk result (λ text. length text.items < 2 ^ 32) }
    ensures ended { OnOk result ((lines.new.reading.ended ≡ true) × (lines.new.reading.kept ≡ [])) }
    ensures within { OnOk result (lines.new.reading.place ≤ lines.new.reading.limit) }
    ensures end { IfErr result (λ end. (end ≡ StreamEnd.Fault) ⊎ ((end ≡ StreamEnd.TooLarge) ⊎ (end ≡ StreamEnd.OutOfMemory))) }
    ensures fault { result ≡ Err StreamEnd.Fault → Rose (S.faults shelf.old) (S.faults shelf.new) }
    ensures too_large { result ≡ Err StreamEnd.TooLarge → IfSome (file_of (S.held shelf.old) name.now)
        (λ file. Reads lines.old.reading file → lines.old.reading.limit < length file) }
    ensures number { lines.new.number ≡ lines.old.number }
    ensures limit { lines.new.reading.limit ≡ lines.old.reading.limit }
    ensures only_reads { OnlyReads S.held S.faults shelf.old shelf.new }
{
    let mut text = Vec::new(alloc);
    let before = lines.number() as usize - 1;
    text.resize(before, b'\n').map_err(AllocError::from)?;
    lines.gather_rest(shelf, name, &mut text)?;
    Ok(text)
}

//! Writing denials.
ghost use Rattle.std.specs.Prelude.{◌≡◌, ℕ, ◌<◌, ◌^◌, ◌++◌, ◌∷◌, [], length, drop, true, Some, Ok, OnOk, OnErr, All, ◌≤◌, map, decimal, slice_index, flat_map};
ghost use Rattle.text_scan.specs.Numbers.{fits_i64};
ghost use Rattle.walk_files.specs.Denials.{denial_of_text};
ghost use Rattle.std.specs.Fmt.{signed_decimal};
ghost use Rattle.text_scan.specs.Plain.{line_of};
ghost use Rattle.surf_io.specs.Calls.{OnlyWrites, WroteAll, WrotePart};
ghost use Rattle.surf_io.specs.Gathered.{Puts, spaced_number};
ghost use Rattle.walk_files.specs.DenialTexts.{sign_word, face_words, entry_words, word_words, labelling_text, denial_text, AreNumbers, HasNumbers, AreWordNumbers, HasForms};

use labellings::{Denial, Labelling};
use surf_io::{Failed, Piece, Sink};
use surf_model::FaceName;
use turn_words::{TurnWord, Word};

/// Writes the text of the denial. After a failure a first part of it was written. It takes no memory.
pub fn write_denial<K: Sink>(denial: &Denial, sink: &mut K) -> Result<(), Failed>
    ensures ok { OnOk result (WroteAll K.written sink.old sink.new (denial_text denial.now)) }
    ensures failed { OnErr result (WrotePart K.written K.faults sink.old sink.new (denial_text denial.now)) }
    ensures only_writes { OnlyWrites K.settled K.faults sink.old sink.new }
    // What was written reads back, where each word is a point exactly if the degree is 4.
    ensures reads_back { OnOk result (HasForms denial.now → denial_of_text (denial_text denial.now) ≡ Some (Ok denial.now)) }
{
    let mut piece = Piece::new();
    put_denial(denial, &mut piece, sink)?;
    piece.write_out(sink)
}

/// Puts the text of the denial.
fn put_denial<K: Sink>(denial: &Denial, piece: &mut Piece, sink: &mut K) -> Result<(), Failed>
    ensures puts { Puts K.written K.settled K.faults result sink.old sink.new piece.old piece.new (denial_text denial.now) }
    // What holds of every value, told as far as it was gone over.
    ensures numbers { OnOk result (HasNumbers denial.now.labelling × AreWordNumbers denial.now.first × AreWordNumbers denial.now.second) }
{
    put_labelling(&denial.labelling, piece, sink)?;
    put_word(&denial.first, piece, sink)?;
    put_word(&denial.second, piece, sink)
}

/// Puts the lines of the head, of the faces and of the places.
fn put_labelling<K: Sink>(
    labelling: &Labelling,
    piece: &mut Piece,
    sink: &mut K,
) -> Result<(), Failed>
    ensures puts { Puts K.written K.settled K.faults result sink.old sink.new piece.old piece.new (labelling_text labelling.now) }
    // What holds of every value, told as far as it was gone over.
    ensures numbers { OnOk result (HasNumbers labelling.now) }
{
    put_line(b"LABELS", &[labelling.degree()], piece, sink)?;
    put_faces(labelling, piece, sink)?;
    put_line(b"places", labelling.all_places(), piece, sink)
}

/// Puts the lines of the faces.
fn put_faces<K: Sink>(labelling: &Labelling, piece: &mut Piece, sink: &mut K) -> Result<(), Failed>
    ensures puts { Puts K.written K.settled K.faults result sink.old sink.new piece.old piece.new
        (flat_map (λ face. line_of (face_words face)) labelling.now.faces) }
    // What holds of every value, told as far as it was gone over.
    ensures numbers { OnOk result (All (λ face. AreNumbers face.labels) labelling.now.faces) }
{
    for k in 0..labelling.faces() {
        let face = FaceName(k);
        let sign = sign(labelling.flipped(face));
        put_line(sign, labelling.labels(face), piece, sink)?;
    }
    Ok(())
}

/// Puts a line: a word, and numbers behind it.
fn put_line<K: Sink>(
    word: &[u8],
    numbers: &[u32],
    piece: &mut Piece,
    sink: &mut K,
) -> Result<(), Failed>
    requires { length word.now ≤ Piece.WORD }
    ensures puts { Puts K.written K.settled K.faults result sink.old sink.new piece.old piece.new
        (line_of (word.now ∷ map decimal numbers.now)) }
    // What holds of all numbers of 32 bits.
    ensures numbers { AreNumbers numbers.now }
{
    piece.put_line(word, numbers, sink)
}

/// The sign of a face.
fn sign(flipped: bool) -> &'static [u8]
    ensures sign { result.now ≡ sign_word flipped }
    ensures short { length result.now ≡ 1 }
{
    if flipped { b"-" } else { b"+" }
}

/// Puts the line of the word of a walk.
fn put_word<K: Sink>(word: &Word, piece: &mut Piece, sink: &mut K) -> Result<(), Failed>
    ensures puts { Puts K.written K.settled K.faults result sink.old sink.new piece.old piece.new (line_of (word_words word.now)) }
    // What holds of every value, told as far as it was gone over.
    ensures numbers { OnOk result (AreWordNumbers word.now) }
{
    match word {
        Word::Turns(turns) => put_turns(turns, piece, sink),
        Word::Flat { x, y } => put_point(*x, *y, piece, sink),
    }
}

/// Puts the line of a turn word into the piece. What has no room is written out.
pub fn put_turns<K: Sink>(word: &TurnWord, piece: &mut Piece, sink: &mut K) -> Result<(), Failed>
    ensures puts { Puts K.written K.settled K.faults result sink.old sink.new piece.old piece.new (line_of (entry_words word.now)) }
    // What holds of every value, told as far as it was gone over.
    ensures numbers { OnOk result (AreNumbers word.now) }
{
    if word.is_empty() {
        return piece.put_line(b"empty", &[], sink);
    }
    piece.make_room(Piece::WORD, sink)?;
    piece.put_natural(u64::from(word.at(0)));
    put_later_entries(word, piece, sink)?;
    piece.end_line(sink)
}

/// Puts the entries of a turn word but the first, each behind a blank.
fn put_later_entries<K: Sink>(
    word: &TurnWord,
    piece: &mut Piece,
    sink: &mut K,
) -> Result<(), Failed>
    ensures puts { Puts K.written K.settled K.faults result sink.old sink.new piece.old piece.new
        (flat_map spaced_number (drop 1 word.now)) }
    // What holds of every value, told as far as it was gone over.
    ensures numbers { OnOk result ((j : ℕ) → 0 < j → j < length word.now → slice_index word.now j < 2 ^ 32) }
{
    for k in 1..word.len() {
        piece.put_behind(word.at(k), sink)?;
    }
    Ok(())
}

/// Puts the line of a point of the plane.
fn put_point<K: Sink>(x: i64, y: i64, piece: &mut Piece, sink: &mut K) -> Result<(), Failed>
    ensures puts { Puts K.written K.settled K.faults result sink.old sink.new piece.old piece.new
        (line_of (signed_decimal x ∷ signed_decimal y ∷ [])) }
    // What holds of every value, told as far as it was gone over.
    ensures numbers { (fits_i64 x ≡ true) × (fits_i64 y ≡ true) }
{
    piece.make_room(2 * Piece::WORD, sink)?;
    piece.put_signed(x);
    piece.put(b" ");
    piece.put_signed(y);
    piece.put(b"\n");
    Ok(())
}

//! Reading denials.
ghost use Rattle.std.specs.Prelude.{◌≡◌, ◌⊎◌, ◌^◌, ◌<◌, List, [], ◌∷◌, length, drop, IsTrue, Some, None, Ok, Err, OnOk, MatchResult};
ghost use Rattle.text_scan.specs.Lines.{is_filled};
ghost use Rattle.text_scan.specs.Unread.{lines_left};
ghost use Rattle.labellings.specs.declared.denial.Denial.{Denial};
ghost use Rattle.turn_words.specs.declared.word.Word.TheVariants.{Turns};
ghost use Rattle.text_scan.specs.Each.{each_some};
ghost use Rattle.text_scan.specs.Numbers.{number_of};
ghost use Rattle.walk_files.specs.NumberTexts.{entries_of};
ghost use Rattle.walk_files.specs.Denials.{sign_of, point_of, word_of, word_on, words_in, denial_in, unlabelled, AreFew};
ghost use Rattle.walk_files.specs.declared.fault.CertFault.TheVariants.{Bad, OutOfMemory};

use crate::fault::CertFault;
use labellings::{Denial, Labelling};
use std::alloc::{AllocError, Global};
use text_scan::{Cursor, number};
use turn_words::{TurnWord, Word};

/// Reads the lines that are left, all of them, as the denial behind a head of this degree. Memory is taken for what was
/// read alone, and none by the degree.
pub(crate) fn read_denial(
    alloc: Global,
    cursor: &mut Cursor<'_>,
    degree: u32,
) -> Result<Denial, CertFault>
    requires { AreFew (lines_left cursor.old) }
    ensures denial { (result ≡ denial_in cursor.old.end_line (unlabelled degree) (lines_left cursor.old)) ⊎ (result ≡ Err OutOfMemory) }
    ensures end { cursor.new.end_line ≡ cursor.old.end_line }
{
    let mut labelling = Labelling::new(alloc, degree);
    read_labelling(alloc, cursor, &mut labelling)?;
    let first = read_word_line(alloc, cursor, degree)?;
    let second = read_word_line(alloc, cursor, degree)?;
    if cursor.find_line() {
        return Err(CertFault::Extra {
            line: cursor.line(),
        });
    }
    Ok(Denial {
        labelling,
        first,
        second,
    })
}

/// Reads the lines of the faces and the line of the places into a labelling that has none of them.
fn read_labelling(
    alloc: Global,
    cursor: &mut Cursor<'_>,
    labelling: &mut Labelling,
) -> Result<(), CertFault>
    requires few { AreFew (lines_left cursor.old) }
    requires empty { labelling.old ≡ unlabelled labelling.old.degree }
    ensures labelling { MatchResult result
        (λ _. (denial_in cursor.old.end_line labelling.old (lines_left cursor.old)
        ≡ words_in cursor.old.end_line labelling.new (lines_left cursor.new))
        × AreFew (lines_left cursor.new) × (labelling.new.degree ≡ labelling.old.degree))
        (λ fault. (denial_in cursor.old.end_line labelling.old (lines_left cursor.old) ≡ Err fault) ⊎ (fault ≡ OutOfMemory)) }
    ensures end { cursor.new.end_line ≡ cursor.old.end_line }
{
    let mut labels = Vec::new(alloc);
    while cursor.find_line() {
        let keyword = cursor.word().unwrap();
        if keyword == b"places".as_slice() {
            return read_places(cursor, labelling);
        }
        labels.clear();
        let flipped = read_face(cursor, keyword, &mut labels)?;
        labelling.push_face(flipped, &labels)?;
    }
    Err(CertFault::Ended {
        line: cursor.end_line(),
    })
}

/// Reads the labels of a face, to the end of its line, into an empty list. The first word of the line is its sign:
/// whether the face is flipped.
fn read_face(cursor: &mut Cursor<'_>, sign: &[u8], labels: &mut Vec<u32>) -> Result<bool, CertFault>
    requires { labels.old.items ≡ [] }
    ensures face { MatchResult result
        (λ flipped. (sign_of sign.now ≡ Some flipped) × (each_some number_of cursor.old.words ≡ Some labels.new.items))
        (λ fault. (((sign_of sign.now ≡ None) ⊎ (each_some number_of cursor.old.words ≡ None)) × (fault ≡ Bad cursor.old.line))
        ⊎ (fault ≡ OutOfMemory)) }
    ensures place { cursor.new ≡ record cursor.old { words = cursor.new.words } }
    ensures ended { OnOk result (cursor.new.words ≡ []) }
{
    let line = cursor.line();
    let Some(flipped) = read_sign(sign) else {
        return Err(CertFault::Bad { line });
    };
    while cursor.has_word() {
        let Some(label) = cursor.number() else {
            return Err(CertFault::Bad { line });
        };
        labels.push(label).map_err(AllocError::from)?;
    }
    Ok(flipped)
}

/// Whether a word is the sign of a flipped or of a kept face.
fn read_sign(word: &[u8]) -> Option<bool>
    ensures { result ≡ sign_of word.now }
{
    match word {
        b"+" => Some(false),
        b"-" => Some(true),
        _ => None,
    }
}

/// Reads the places, to the end of their line, into a labelling that has none.
fn read_places(cursor: &mut Cursor<'_>, labelling: &mut Labelling) -> Result<(), CertFault>
    requires few { length cursor.old.words < 2 ^ 32 }
    requires none { labelling.old.places ≡ [] }
    ensures places { MatchResult result
        (λ _. each_some number_of cursor.old.words ≡ Some labelling.new.places)
        (λ fault. ((each_some number_of cursor.old.words ≡ None) × (fault ≡ Bad cursor.old.line)) ⊎ (fault ≡ OutOfMemory)) }
    ensures labelling { labelling.new ≡ record labelling.old { places = labelling.new.places } }
    ensures place { cursor.new ≡ record cursor.old { words = cursor.new.words } }
    ensures ended { OnOk result (cursor.new.words ≡ []) }
{
    let line = cursor.line();
    while cursor.has_word() {
        let Some(place) = cursor.number() else {
            return Err(CertFault::Bad { line });
        };
        labelling.push_place(place)?;
    }
    Ok(())
}

/// Reads the word of a walk on the next line.
fn read_word_line(alloc: Global, cursor: &mut Cursor<'_>, degree: u32) -> Result<Word, CertFault>
    requires { AreFew (lines_left cursor.old) }
    ensures word { (result ≡ word_on cursor.old.end_line degree (lines_left cursor.old)) ⊎ (result ≡ Err OutOfMemory) }
    ensures place { OnOk result (lines_left cursor.new ≡ drop 1 (lines_left cursor.old)) }
    ensures end { cursor.new.end_line ≡ cursor.old.end_line }
{
    if !cursor.find_line() {
        return Err(CertFault::Ended {
            line: cursor.end_line(),
        });
    }
    let line = cursor.line();
    if degree == 4 {
        return read_point(cursor).ok_or(CertFault::Bad { line });
    }
    let word = read_turns(alloc, cursor)?;
    Ok(Word::Turns(word))
}

/// The point of the plane that the words of the present line are.
fn read_point(cursor: &mut Cursor<'_>) -> Option<Word>
    ensures point { result ≡ point_of cursor.old.words }
    ensures place { cursor.new ≡ record cursor.old { words = cursor.new.words } }
    ensures ended { result ≡ None ⊎ (cursor.new.words ≡ []) }
{
    let x = cursor.integer()?;
    let y = cursor.integer()?;
    if cursor.has_word() {
        return None;
    }
    Some(Word::Flat { x, y })
}

/// The turn word of the present line, of which no word was read yet.
fn read_turns(alloc: Global, cursor: &mut Cursor<'_>) -> Result<TurnWord, CertFault>
    requires words { IsTrue (is_filled cursor.old.words) }
    requires few { length cursor.old.words < 2 ^ 32 }
    ensures word { MatchResult result
        (λ word. entries_of cursor.old.words ≡ Some word)
        (λ fault. ((entries_of cursor.old.words ≡ None) × (fault ≡ Bad cursor.old.line)) ⊎ (fault ≡ OutOfMemory)) }
    ensures place { cursor.new ≡ record cursor.old { words = cursor.new.words } }
    ensures ended { OnOk result (cursor.new.words ≡ []) }
{
    let line = cursor.line();
    let mut turns = TurnWord::new(alloc);
    let word = cursor.word().unwrap();
    if word == b"empty".as_slice() && !cursor.has_word() {
        return Ok(turns);
    }
    let Some(first) = number(word) else {
        return Err(CertFault::Bad { line });
    };
    turns.push(first)?;
    while cursor.has_word() {
        let Some(entry) = cursor.number() else {
            return Err(CertFault::Bad { line });
        };
        turns.push(entry)?;
    }
    Ok(turns)
}

//! The header of a mesh text: the keyword, and the counts of vertices and faces.
ghost use Rattle.std.specs.Prelude.{◌≡◌, ℕ, List, [], ◌∷◌, min, ◌^◌, ◌-◌, ◌≤◌, Ok, Err, Some, MatchOption, MatchResult, OnOk, IfOk, option_map};
ghost use Rattle.text_scan.specs.Numbers.{natural_of};
ghost use Rattle.text_scan.specs.Unread.{Unread, lines_left};
ghost use Rattle.off_reader.specs.OffTexts.{header_of, counts_at, bare_counts, counts_behind, coordinates_of};
ghost use Rattle.off_reader.specs.OffSteps.{present_line, keyword_seen, SaysHeader};
ghost use Rattle.surf_model.specs.declared.limits.TheConstants.{MOST_VERTICES};

use crate::keyword::{Keyword, keyword_of};
use crate::off_fault::OffFault;
use surf_model::{MOST_SIDES, MOST_VERTICES};
use text_scan::{Cursor, NumberFault, natural};

/// The word behind the keyword of a form that is not read.
const BINARY: &[u8] = b"BINARY";

/// The most faces of a mesh: each has three sides at least.
pub const MOST_FACES: u32 = MOST_SIDES / 3;

/// What the header of a text says.
#[derive(Clone, Copy, Debug)]
pub(crate) struct Header {
    /// How many coordinates each vertex has.
    pub(crate) coordinates: u32,
    pub(crate) vertices: u32,
    pub(crate) faces: u32,
}

/// Reads up to the counts.
pub(crate) fn read_header(cursor: &mut Cursor) -> Result<Header, OffFault>
    ensures header { SaysHeader (header_of (lines_left cursor.old)) result cursor.new }
    ensures limits { IfOk result (λ header. header.vertices ≤ MOST_VERTICES) }
    ensures end { cursor.new.end_line ≡ cursor.old.end_line }
{
    let Some(word) = first_word(cursor) else {
        return Err(OffFault::NoCounts);
    };
    match keyword_of(word) {
        Some(keyword) => behind_keyword(cursor, &keyword),
        None => counts_from(cursor, 3, word),
    }
}

/// The first word of the next line with words left, and goes past it. `None` where there is no such
/// line.
fn first_word<'a>(cursor: &mut Cursor<'a>) -> Option<&'a [u8]>
    ensures word { MatchOption result (lines_left cursor.old ≡ [])
        (λ word. lines_left cursor.old ≡ record { number = cursor.new.line; words = word.now ∷ cursor.new.words } ∷ cursor.new.lines) }
    ensures end { cursor.new.end_line ≡ cursor.old.end_line }
{
    if !cursor.find_line() {
        return None;
    }
    cursor.word()
}

/// The counts behind a keyword, which is the word before.
fn behind_keyword(cursor: &mut Cursor, keyword: &Keyword) -> Result<Header, OffFault>
    ensures header { SaysHeader (counts_behind (keyword_seen keyword.now) (present_line cursor.old) cursor.old.lines) result cursor.new }
    ensures limits { IfOk result (λ header. header.vertices ≤ MOST_VERTICES) }
    ensures end { cursor.new.end_line ≡ cursor.old.end_line }
{
    if keyword.has_piece(b'n') {
        return Err(OffFault::UnreadForm {
            line: cursor.line(),
        });
    }
    let coordinates = coordinates_of(keyword);
    if keyword.rest.is_empty() {
        behind_bare_keyword(cursor, coordinates)
    } else {
        counts_from(cursor, coordinates, keyword.rest)
    }
}

fn coordinates_of(keyword: &Keyword) -> u32
    ensures { result ≡ coordinates_of (keyword_seen keyword.now) }
{
    if keyword.has_piece(b'4') { 4 } else { 3 }
}

/// The counts behind a keyword with nothing behind `OFF`.
fn behind_bare_keyword(cursor: &mut Cursor, coordinates: u32) -> Result<Header, OffFault>
    ensures header { SaysHeader (bare_counts coordinates (present_line cursor.old) cursor.old.lines) result cursor.new }
    ensures limits { IfOk result (λ header. header.vertices ≤ MOST_VERTICES) }
    ensures end { cursor.new.end_line ≡ cursor.old.end_line }
{
    let line = cursor.line();
    let in_line = cursor.has_word();
    let Some(word) = first_word(cursor) else {
        return Err(OffFault::NoCounts);
    };
    if in_line && word == BINARY {
        return Err(OffFault::UnreadForm { line });
    }
    counts_from(cursor, coordinates, word)
}

/// The counts of which `first` is the first word, and the present line has the others.
fn counts_from(cursor: &mut Cursor, coordinates: u32, first: &[u8]) -> Result<Header, OffFault>
    ensures header { SaysHeader (counts_at coordinates
        (record { number = cursor.old.line; words = first.now ∷ cursor.old.words } ∷ cursor.old.lines)) result cursor.new }
    ensures limits { IfOk result (λ header. header.vertices ≤ MOST_VERTICES) }
    ensures end { cursor.new.end_line ≡ cursor.old.end_line }
{
    let line = cursor.line();
    let Some(vertices) = capped(first) else {
        return Err(OffFault::BadCounts { line });
    };
    let Some(faces) = cursor.natural() else {
        return Err(OffFault::BadCounts { line });
    };
    if vertices > MOST_VERTICES as u64 || faces > MOST_FACES as u64 {
        return Err(OffFault::TooMany { line });
    }
    Ok(Header {
        coordinates,
        vertices: vertices as u32,
        faces: faces as u32,
    })
}

/// The number that a word is, or 2^64 - 1 where it is larger; `None` where it is no natural.
fn capped(word: &[u8]) -> Option<u64>
    ensures { result ≡ option_map (λ n. min n (2 ^ 64 - 1)) (natural_of word.now) }
{
    match natural(word) {
        Ok(n) => Some(n),
        Err(NumberFault::TooLarge) => Some(u64::MAX),
        Err(NumberFault::NotDigits) => None,
    }
}

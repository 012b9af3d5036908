//! Reading moves.
ghost use Rattle.std.specs.Prelude.{◌≡◌, List, [], ◌∷◌, ◌<◌, drop, None, IfOk, IsSome, OnOk, OnSome};
ghost use Rattle.text_scan.specs.Unread.{lines_left};
ghost use Rattle.walk_files.specs.Certificates.{direction_of, spur_of, across_of, move_of};
ghost use Rattle.walk_files.specs.Readers.{next_move_of, next_on};

use crate::fault::CertFault;
use surf_model::{FaceName, Move, VertexName};
use text_scan::Cursor;

/// Reads the next line, which holds a move where some are still to come.
pub(crate) fn read_next(cursor: &mut Cursor<'_>, to_come: u64) -> Result<Option<Move>, CertFault>
    ensures answer { result ≡ next_move_of cursor.old.end_line to_come (lines_left cursor.old) }
    ensures place { OnOk result (lines_left cursor.new ≡ drop 1 (lines_left cursor.old)) }
    ensures end { cursor.new.end_line ≡ cursor.old.end_line }
    ensures some { IfOk result (λ mv. IsSome mv → 0 < to_come) }
{
    if !cursor.find_line() {
        return read_no_line(cursor.end_line(), to_come);
    }
    let line = cursor.line();
    read_line(cursor, line, to_come)
}

/// What is given where no line is left, and the text ends at this one.
pub(crate) fn read_no_line(end_line: u64, to_come: u64) -> Result<Option<Move>, CertFault>
    ensures answer { result ≡ next_move_of end_line to_come [] }
    ensures none { IfOk result (λ mv. mv ≡ None) }
{
    if to_come == 0 {
        Ok(None)
    } else {
        Err(CertFault::Ended { line: end_line })
    }
}

/// Reads the present line, which has this number, as a move where some are still to come.
pub(crate) fn read_line(
    cursor: &mut Cursor<'_>,
    line: u64,
    to_come: u64,
) -> Result<Option<Move>, CertFault>
    ensures answer { result ≡ next_on to_come (record { number = line; words = cursor.old.words }) }
    ensures place { cursor.new ≡ record cursor.old { words = cursor.new.words } }
    ensures ended { OnOk result (cursor.new.words ≡ []) }
    ensures some { IfOk result (λ mv. IsSome mv → 0 < to_come) }
    ensures some_move { IfOk result IsSome }
{
    if to_come == 0 {
        return Err(CertFault::Extra { line });
    }
    match read_move(cursor) {
        Some(mv) => Ok(Some(mv)),
        None => Err(CertFault::Bad { line }),
    }
}

/// The move that the words of the present line are.
pub(crate) fn read_move(cursor: &mut Cursor<'_>) -> Option<Move>
    ensures mv { result ≡ move_of cursor.old.words }
    ensures place { cursor.new ≡ record cursor.old { words = cursor.new.words } }
    ensures ended { OnSome result (cursor.new.words ≡ []) }
{
    match cursor.word()? {
        b"+" => {
            let (at, via) = read_spur(cursor)?;
            Some(Move::Insert { at, via })
        }
        b"-" => {
            let (at, via) = read_spur(cursor)?;
            Some(Move::Remove { at, via })
        }
        b"f" => read_across(cursor),
        _ => None,
    }
}

/// The place and the vertex of a spur, to the end of the line.
fn read_spur(cursor: &mut Cursor<'_>) -> Option<(u32, VertexName)>
    ensures spur { result ≡ spur_of cursor.old.words }
    ensures place { cursor.new ≡ record cursor.old { words = cursor.new.words } }
    ensures ended { OnSome result (cursor.new.words ≡ []) }
{
    let at = cursor.number()?;
    let via = cursor.number()?;
    if cursor.has_word() {
        return None;
    }
    Some((at, VertexName(via)))
}

/// A move across a face, to the end of the line.
fn read_across(cursor: &mut Cursor<'_>) -> Option<Move>
    ensures across { result ≡ across_of cursor.old.words }
    ensures place { cursor.new ≡ record cursor.old { words = cursor.new.words } }
    ensures ended { OnSome result (cursor.new.words ≡ []) }
{
    let at = cursor.number()?;
    let face = FaceName(cursor.number()?);
    let corner = cursor.number()?;
    let forward = read_direction(cursor.word()?)?;
    let taken = cursor.number()?;
    if cursor.has_word() {
        return None;
    }
    Some(Move::Across {
        at,
        face,
        corner,
        forward,
        taken,
    })
}

/// Whether a word is that of the forward or of the backward direction round a face.
fn read_direction(word: &[u8]) -> Option<bool>
    ensures { result ≡ direction_of word.now }
{
    match word {
        b"+" => Some(true),
        b"-" => Some(false),
        _ => None,
    }
}

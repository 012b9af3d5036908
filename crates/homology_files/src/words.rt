//! The numbers that the words of a line are.
ghost use Rattle.std.specs.Prelude.{◌≡◌, [], OnSome};
ghost use Rattle.homology_files.specs.HomologyTexts.{next_size, face_number_of, edge_number_of, is_face_above, is_edge_before, is_edge_above};
ghost use Rattle.text_scan.specs.Unread.{past_word};

use homology::{ChainNumbers, CocycleNumbers, EdgeNumber, FaceNumber, MOST_NUMBER};
use surf_model::{FaceName, VertexName};
use text_scan::Cursor;

/// The number of a face that the words of the present line are.
pub(crate) fn read_face_number(cursor: &mut Cursor<'_>) -> Option<FaceNumber>
    ensures number { result ≡ face_number_of cursor.old.words }
    ensures place { cursor.new ≡ record cursor.old { words = cursor.new.words } }
    ensures ended { OnSome result (cursor.new.words ≡ []) }
{
    let face = cursor.number()?;
    let number = read_size(cursor)?;
    if cursor.has_word() {
        return None;
    }
    Some(FaceNumber {
        face: FaceName(face),
        number,
    })
}

/// The number of an edge that the words of the present line are.
pub(crate) fn read_edge_number(cursor: &mut Cursor<'_>) -> Option<EdgeNumber>
    ensures number { result ≡ edge_number_of cursor.old.words }
    ensures place { cursor.new ≡ record cursor.old { words = cursor.new.words } }
    ensures ended { OnSome result (cursor.new.words ≡ []) }
{
    let low = cursor.number()?;
    let high = cursor.number()?;
    let number = read_size(cursor)?;
    if cursor.has_word() || low >= high {
        return None;
    }
    Some(EdgeNumber {
        low: VertexName(low),
        high: VertexName(high),
        number,
    })
}

/// The number of a face or an edge that the next word is, and goes past that word.
fn read_size(cursor: &mut Cursor<'_>) -> Option<i64>
    ensures number { result ≡ next_size cursor.old.words }
    ensures place { cursor.new ≡ past_word cursor.old }
{
    let number = cursor.integer()?;
    if number.unsigned_abs() > u64::from(MOST_NUMBER) {
        return None;
    }
    Some(number)
}

/// Whether the face of a line is above those of a chain.
pub(crate) fn face_rises(numbers: &ChainNumbers, line: FaceNumber) -> bool
    ensures { result ≡ is_face_above numbers.now line }
{
    let count = numbers.len();
    count == 0 || numbers.at(count - 1).face.0 < line.face.0
}

/// Whether the edge of a line is above those of a cocycle.
pub(crate) fn edge_rises(numbers: &CocycleNumbers, line: EdgeNumber) -> bool
    ensures { result ≡ is_edge_above numbers.now line }
{
    let count = numbers.len();
    count == 0 || comes_before(numbers.at(count - 1), line)
}

/// Whether an edge comes before another, by its lower and then its higher vertex.
fn comes_before(one: EdgeNumber, other: EdgeNumber) -> bool
    ensures { result ≡ is_edge_before one other }
{
    one.low.0 < other.low.0 || (one.low == other.low && one.high.0 < other.high.0)
}

//! Moves whose lines lie whole in the bytes that are at hand.
ghost use Rattle.std.specs.Prelude.{IfSome};
ghost use Rattle.text_scan.specs.Numbers.{number_of};
ghost use Rattle.walk_files.specs.Certificates.{direction_of, spur_of, across_of};
ghost use Rattle.walk_files.specs.WholeLines.{IsMoveLine, BeginsWithWord, BeginsWithWords, BeginsWithMove};

use surf_model::{FaceName, Move, VertexName};

/// A move, and how many bytes lie before the line feed of its line.
#[derive(Clone, Copy)]
pub(crate) struct MoveLine {
    pub(crate) mv: Move,
    pub(crate) len: usize,
}

/// The move that the first line of these bytes is, where it lies here whole, up to its line feed. It is sought in one pass, in the form in
/// which moves are written: single blanks, and nothing but a line end behind. `None` wherever the line is of another form.
pub(crate) fn move_line(bytes: &[u8]) -> Option<MoveLine>
    ensures { IfSome result (λ found. IsMoveLine bytes.now found.len found.mv) }
{
    let (mv, behind) = move_at(bytes)?;
    let len = bytes.len() - behind.len();
    match behind {
        [b'\n', ..] => Some(MoveLine { mv, len }),
        [b'\r', b'\n', ..] => Some(MoveLine { mv, len: len + 1 }),
        _ => None,
    }
}

/// A move at the front, and the bytes behind it.
#[inline(always)]
fn move_at(bytes: &[u8]) -> Option<(Move, &[u8])>
    ensures { IfSome result (λ read. BeginsWithMove bytes.now read.0 read.1.now) }
{
    match bytes {
        [b'f', words @ ..] => across_at(words),
        [b'+', words @ ..] => {
            let ((at, via), behind) = spur_at(words)?;
            Some((Move::Insert { at, via }, behind))
        }
        [b'-', words @ ..] => {
            let ((at, via), behind) = spur_at(words)?;
            Some((Move::Remove { at, via }, behind))
        }
        _ => None,
    }
}

/// The place and the vertex of a spur at the front, and the bytes behind them.
#[inline(always)]
fn spur_at(bytes: &[u8]) -> Option<((u32, VertexName), &[u8])>
    ensures { IfSome result (λ read. BeginsWithWords spur_of bytes.now read.0 read.1.now) }
{
    let (at, rest) = number_at(bytes)?;
    let (via, rest) = number_at(rest)?;
    Some(((at, VertexName(via)), rest))
}

/// A move across a face at the front, behind its keyword, and the bytes behind it.
#[inline(always)]
fn across_at(bytes: &[u8]) -> Option<(Move, &[u8])>
    ensures { IfSome result (λ read. BeginsWithWords across_of bytes.now read.0 read.1.now) }
{
    let (at, rest) = number_at(bytes)?;
    let (face, rest) = number_at(rest)?;
    let (corner, rest) = number_at(rest)?;
    let (forward, rest) = direction_at(rest)?;
    let (taken, rest) = number_at(rest)?;
    let mv = Move::Across {
        at,
        face: FaceName(face),
        corner,
        forward,
        taken,
    };
    Some((mv, rest))
}

/// The direction round a face at the front, and the bytes behind it.
#[inline(always)]
fn direction_at(bytes: &[u8]) -> Option<(bool, &[u8])>
    ensures { IfSome result (λ read. BeginsWithWord direction_of bytes.now read.0 read.1.now) }
{
    match bytes {
        [b' ', b'+', rest @ ..] => Some((true, rest)),
        [b' ', b'-', rest @ ..] => Some((false, rest)),
        _ => None,
    }
}

/// From this number on a further digit may be one too many for 32 bits.
const MANY: u32 = u32::MAX / 10;

/// The number at the front, and the bytes behind its digits. `None` also where it has nearly 2^32 or more.
#[inline(always)]
fn number_at(bytes: &[u8]) -> Option<(u32, &[u8])>
    ensures { IfSome result (λ read. BeginsWithWord number_of bytes.now read.0 read.1.now) }
{
    let [b' ', digits @ ..] = bytes else {
        return None;
    };
    let mut value: u32 = 0;
    let mut rest = digits;
    while let [byte, after @ ..] = rest {
        if !byte.is_ascii_digit() {
            break;
        }
        if value >= MANY {
            return None;
        }
        value = value * 10 + u32::from(byte - b'0');
        rest = after;
    }
    if rest.len() == digits.len() {
        return None;
    }
    Some((value, rest))
}

//! The keyword of a mesh text.
ghost use Rattle.std.specs.Prelude.{◌≡◌, ◌==◌, ◌<◌, false, length, position, IfSome, IfNone, option_map};
ghost use Rattle.std.specs.List.{list_any};
ghost use Rattle.off_reader.specs.OffTexts.{is_single_piece, are_pieces, keyword_of};

const TITLE: &[u8] = b"OFF";

/// The piece of two bytes.
const PAIR: &[u8] = b"ST";

/// A keyword: what stands before `OFF` and behind it.
#[derive(Clone, Copy, Debug)]
pub(crate) struct Keyword<'a> {
    pub(crate) pieces: &'a [u8],
    pub(crate) rest: &'a [u8],
}

/// The keyword that a word is, if it is one.
pub(crate) fn keyword_of(word: &[u8]) -> Option<Keyword<'_>>
    ensures { option_map (λ keyword. record { pieces = keyword.pieces.now; rest = keyword.rest.now }) result ≡ keyword_of word.now }
{
    let (pieces, behind) = word.split_at(place_of_o(word)?);
    let rest = behind.strip_prefix(TITLE)?;
    if are_pieces(pieces) {
        Some(Keyword { pieces, rest })
    } else {
        None
    }
}

/// The place of the first O. No piece has one, so that it is that of `OFF`.
fn place_of_o(word: &[u8]) -> Option<usize>
    ensures place { result ≡ position (λ byte. byte == 79) word.now }
    ensures within { IfSome result (λ place. place < length word.now) }
{
    word.iter().position(|byte| *byte == b'O')
}

/// Whether these are pieces that may stand before `OFF`: `C`, `N`, `4`, `n` and `ST`.
fn are_pieces(pieces: &[u8]) -> bool
    ensures { result ≡ are_pieces pieces.now }
{
    let mut rest = pieces;
    while !rest.is_empty() {
        let Some(after) = after_piece(rest) else {
            return false;
        };
        rest = after;
    }
    true
}

/// The bytes behind the piece at the front.
fn after_piece(bytes: &[u8]) -> Option<&[u8]>
    ensures none { IfNone result (0 < length bytes.now → are_pieces bytes.now ≡ false) }
    ensures some { IfSome result (λ after. (are_pieces bytes.now ≡ are_pieces after.now) × (length after.now < length bytes.now)) }
{
    let (first, after) = bytes.split_first()?;
    if is_single_piece(*first) {
        return Some(after);
    }
    bytes.strip_prefix(PAIR)
}

fn is_single_piece(byte: u8) -> bool
    ensures { result ≡ is_single_piece byte }
{
    matches!(byte, b'C' | b'N' | b'4' | b'n')
}

impl Keyword<'_> {
    /// Whether the piece of this one byte stands before `OFF`.
    pub(crate) fn has_piece(&self, piece: u8) -> bool
        ensures { result ≡ list_any (λ byte. byte == piece) self.now.pieces.now }
    {
        self.pieces.contains(&piece)
    }
}

//! Reading the head of a certificate.
ghost use Rattle.std.specs.Prelude.{◌≡◌, [], drop, OnOk, OnSome, Some, IsTrue, is_some, if◌then◌else◌};
ghost use Rattle.text_scan.specs.Lines.{is_filled};
ghost use Rattle.text_scan.specs.Unread.{lines_left};
ghost use Rattle.homology_files.specs.HomologyTexts.{keyword_kind, homology_head_of, kind_answered, fits_kind, homology_head_in, first_homology_head, homology_head_among, behind_homology_head};

use crate::fault::HomologyFault;
use text_scan::Cursor;

/// What a certificate gives numbers to.
#[derive(Clone, Copy, Debug, PartialEq, Eq)]
pub(crate) enum Kind {
    /// The faces: it is a chain.
    OfFaces,
    /// The edges: it is a cocycle.
    OfEdges,
}

/// The head of a certificate.
#[derive(Clone, Copy, Debug, PartialEq, Eq)]
pub(crate) struct Head {
    pub(crate) kind: Kind,
    /// How many lines follow.
    pub(crate) count: u32,
}

/// Reads the head of a text of which nothing was read yet.
pub(crate) fn read_head(cursor: &mut Cursor<'_>) -> Result<Head, HomologyFault>
    ensures head { result ≡ homology_head_among cursor.old.end_line (lines_left cursor.old) }
    ensures place { OnOk result (lines_left cursor.new ≡ behind_homology_head (lines_left cursor.old)) }
    ensures end { cursor.new.end_line ≡ cursor.old.end_line }
{
    if !cursor.find_line() {
        return Err(HomologyFault::NoHead);
    }
    match pass_answer(cursor) {
        Some(kind) => read_head_behind(cursor, kind),
        None => {
            let line = cursor.line();
            read_head_line(cursor, line, None)
        }
    }
}

/// The kind whose answer the present line is, and goes past it. Where it is none, nothing changes.
fn pass_answer(cursor: &mut Cursor<'_>) -> Option<Kind>
    requires { IsTrue (is_filled cursor.old.words) }
    ensures answer { result ≡ kind_answered cursor.old.words }
    ensures place { cursor.new ≡ (if is_some result then record cursor.old { words = [] } else cursor.old) }
{
    if cursor.pass_words(b"homologous") {
        Some(Kind::OfFaces)
    } else if cursor.pass_words(b"not homologous") {
        Some(Kind::OfEdges)
    } else {
        None
    }
}

/// Reads the head on the next line, behind the answer of this kind.
fn read_head_behind(cursor: &mut Cursor<'_>, kind: Kind) -> Result<Head, HomologyFault>
    ensures head { result ≡ first_homology_head (Some kind) cursor.old.end_line (lines_left cursor.old) }
    ensures place { OnOk result (lines_left cursor.new ≡ drop 1 (lines_left cursor.old)) }
    ensures end { cursor.new.end_line ≡ cursor.old.end_line }
{
    if !cursor.find_line() {
        return Err(HomologyFault::Ended {
            line: cursor.end_line(),
        });
    }
    let line = cursor.line();
    read_head_line(cursor, line, Some(kind))
}

/// Reads the head on the present line, which has this number, and of which no word was read yet.
fn read_head_line(
    cursor: &mut Cursor<'_>,
    line: u64,
    answer: Option<Kind>,
) -> Result<Head, HomologyFault>
    ensures head { result ≡ homology_head_in answer (record { number = line; words = cursor.old.words }) }
    ensures place { cursor.new ≡ record cursor.old { words = cursor.new.words } }
    ensures ended { OnOk result (cursor.new.words ≡ []) }
{
    match read_head_words(cursor) {
        Some(head) if head_fits(answer, head) => Ok(head),
        _ => Err(HomologyFault::Bad { line }),
    }
}

/// Whether the head may stand behind the answer, if there is one.
fn head_fits(answer: Option<Kind>, head: Head) -> bool
    ensures { result ≡ fits_kind answer head }
{
    match (answer, head.kind) {
        (None, _) => true,
        (Some(Kind::OfFaces), Kind::OfFaces) => true,
        (Some(Kind::OfEdges), Kind::OfEdges) => true,
        _ => false,
    }
}

/// The head that the words of the present line are.
fn read_head_words(cursor: &mut Cursor<'_>) -> Option<Head>
    ensures head { result ≡ homology_head_of cursor.old.words }
    ensures place { cursor.new ≡ record cursor.old { words = cursor.new.words } }
    ensures ended { OnSome result (cursor.new.words ≡ []) }
{
    let kind = keyword(cursor.word()?)?;
    let count = cursor.number()?;
    if cursor.has_word() {
        return None;
    }
    Some(Head { kind, count })
}

/// The kind of certificate that a keyword begins.
fn keyword(word: &[u8]) -> Option<Kind>
    ensures { result ≡ keyword_kind word.now }
{
    if word == b"CHAIN".as_slice() {
        Some(Kind::OfFaces)
    } else if word == b"COCYCLE".as_slice() {
        Some(Kind::OfEdges)
    } else {
        None
    }
}

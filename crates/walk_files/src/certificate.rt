//! Reading certificates.
ghost use Rattle.std.specs.Prelude.{◌≡◌, ◌≢◌, ◌^◌, [], drop, Err, OnOk, IfOk, OnSome, Some, IsTrue, is_some, if◌then◌else◌};
ghost use Rattle.text_scan.specs.Lines.{is_filled};
ghost use Rattle.text_scan.specs.Unread.{lines_left};
ghost use Rattle.walk_files.specs.declared.certificate.CertHead.{CertHead};
ghost use Rattle.walk_files.specs.Certificates.{fits, answer_alone, cert_head_of, head_in, head_among, behind_head, first_head, IsWithinPeak};

use crate::fault::CertFault;
use crate::limits::MOST_PEAK;
use text_scan::{Cursor, natural};

/// The head of a certificate.
#[derive(Clone, Copy, Debug, PartialEq, Eq)]
pub enum CertHead {
    /// A list of moves follows.
    Moves {
        /// How many moves there are.
        count: u64,
        /// The greatest number of darts that they are declared to pass.
        peak: u32,
    },
    /// A labelling follows.
    Labels {
        degree: u32,
    },
}

impl CertHead {
    ghost use Rattle.walk_files.specs.Readers.{count_in, degree_in};

    /// How many moves follow: none behind the head of a labelling.
    pub(crate) fn count(self) -> u64
        ensures { result ≡ count_in self }
    {
        match self {
            CertHead::Moves { count, .. } => count,
            CertHead::Labels { .. } => 0,
        }
    }

    /// The degree of the labelling that follows: 0 behind the head of a list of moves.
    pub(crate) fn degree(self) -> u32
        ensures { result ≡ degree_in self }
    {
        match self {
            CertHead::Moves { .. } => 0,
            CertHead::Labels { degree } => degree,
        }
    }
}

/// An answer that stands alone on the line before a head.
#[derive(Clone, Copy, Debug, PartialEq, Eq)]
pub(crate) enum Answer {
    Homotopic,
    Different,
}

/// Reads the head of a text of which nothing was read yet.
pub(crate) fn read_head(cursor: &mut Cursor<'_>) -> Result<CertHead, CertFault>
    ensures head { result ≡ head_among cursor.old.end_line (lines_left cursor.old) }
    ensures place { OnOk result (lines_left cursor.new ≡ behind_head (lines_left cursor.old)) }
    ensures end { cursor.new.end_line ≡ cursor.old.end_line }
{
    if !cursor.find_line() {
        return Err(CertFault::NoHead);
    }
    match pass_answer(cursor) {
        Some(answer) => read_head_behind(cursor, answer),
        None => {
            let line = cursor.line();
            read_head_line(cursor, line, None)
        }
    }
}

/// The answer that stands alone on the present line, and goes past it. Where there is none, nothing changes.
pub(crate) fn pass_answer(cursor: &mut Cursor<'_>) -> Option<Answer>
    requires { IsTrue (is_filled cursor.old.words) }
    ensures answer { result ≡ answer_alone cursor.old.words }
    ensures place { cursor.new ≡ (if is_some result then record cursor.old { words = [] } else cursor.old) }
{
    if cursor.pass_words(b"homotopic") {
        Some(Answer::Homotopic)
    } else if cursor.pass_words(b"different") {
        Some(Answer::Different)
    } else {
        None
    }
}

/// Reads the head on the next line, behind a line that was an answer.
fn read_head_behind(cursor: &mut Cursor<'_>, answer: Answer) -> Result<CertHead, CertFault>
    ensures head { result ≡ first_head (Some answer) cursor.old.end_line (lines_left cursor.old) }
    ensures place { OnOk result (lines_left cursor.new ≡ drop 1 (lines_left cursor.old)) }
    ensures end { cursor.new.end_line ≡ cursor.old.end_line }
{
    if !cursor.find_line() {
        return Err(CertFault::Ended {
            line: cursor.end_line(),
        });
    }
    let line = cursor.line();
    read_head_line(cursor, line, Some(answer))
}

/// Reads the head on the present line, which has this number, and of which no word was read yet.
pub(crate) fn read_head_line(
    cursor: &mut Cursor<'_>,
    line: u64,
    answer: Option<Answer>,
) -> Result<CertHead, CertFault>
    ensures head { result ≡ head_in answer (record { number = line; words = cursor.old.words }) }
    ensures place { cursor.new ≡ record cursor.old { words = cursor.new.words } }
    ensures ended { OnOk result (cursor.new.words ≡ []) }
    ensures peak { IfOk result IsWithinPeak }
    ensures no_memory { result ≢ Err CertFault.OutOfMemory }
{
    let Some(head) = read_head_words(cursor) else {
        return Err(CertFault::Bad { line });
    };
    if !head_fits(answer, head) {
        return Err(CertFault::Bad { line });
    }
    match head {
        CertHead::Moves { peak, .. } if peak > MOST_PEAK => Err(CertFault::Peak { line }),
        _ => Ok(head),
    }
}

/// Whether the head may stand behind the answer, if there is one.
fn head_fits(answer: Option<Answer>, head: CertHead) -> bool
    ensures { result ≡ fits answer head }
{
    match (answer, head) {
        (None, _) => true,
        (Some(Answer::Homotopic), CertHead::Moves { .. }) => true,
        (Some(Answer::Different), CertHead::Labels { .. }) => true,
        _ => false,
    }
}

/// The head that the words of the present line are.
fn read_head_words(cursor: &mut Cursor<'_>) -> Option<CertHead>
    ensures head { result ≡ cert_head_of cursor.old.words }
    ensures place { cursor.new ≡ record cursor.old { words = cursor.new.words } }
    ensures ended { OnSome result (cursor.new.words ≡ []) }
{
    let head = match cursor.word()? {
        b"MOVES" => {
            let count = natural(cursor.word()?).ok()?;
            let peak = cursor.number()?;
            CertHead::Moves { count, peak }
        }
        b"LABELS" => {
            let degree = cursor.number()?;
            CertHead::Labels { degree }
        }
        _ => return None,
    };
    if cursor.has_word() {
        return None;
    }
    Some(head)
}

//! The words of a line in bounded room.
ghost use Rattle.std.specs.Prelude.{◌≡◌, ◌≢◌, ℕ, ◌+◌, ◌≤◌, not, ◌&&◌, true, false, List, [], ◌∷◌, ◌++◌, length, if◌then◌else◌};
ghost use Rattle.std.specs.List.{list_all};
ghost use Rattle.text_scan.specs.Lines.{is_blank, is_filled, full_lines};
ghost use Rattle.text_scan.specs.Steps.{ends_word};
ghost use Rattle.text_scan.specs.Unread.{words_here};
ghost use Rattle.text_scan.specs.Numbers.{is_digit};
ghost use Rattle.std.specs.Str.{bytes_eq};
ghost use Rattle.file_pieces.specs.SameLines.{SameLine};
ghost use Rattle.file_pieces.specs.ShortLines.{is_lean, PutsByte};

use arrayvec::ArrayVec;
use std::marker::Model;

/// How many words of a line are kept. A format looks at one less, so that a line with more is seen to have more.
pub const MOST_WORDS: usize = 7;

/// How many bytes of a word are kept, leading zeros not counted: one more than a number of 64 bits has.
pub const MOST_BYTES: usize = 21;

/// Room for a blank, and for all words with a blank behind each.
const ROOM: usize = 155;

/// A line that is read byte by byte, in bounded room however long it is. Each word is shortened: leading zeros and what is past
/// `MOST_BYTES` are left out. What is left says the same to a format of keywords and of numbers of at most 64 bits.
#[derive(Drop)]
pub struct ShortLine {
    /// A blank, and the words that have ended, with a blank behind each.
    done: ArrayVec<u8, ROOM>,
    /// The word that has begun.
    word: ArrayVec<u8, MOST_BYTES>,
    /// How many words have ended.
    words: usize,
    /// Whether no further byte counts: behind the beginning of a comment, and behind the last word that is kept.
    closed: bool,
    /// Whether the line has a byte.
    begun: bool,
}

impl Model for ShortLine {
    ghost use Rattle.file_pieces.specs.ShortLines.{ShortText, IsShortLine};

    ghost Value = { ShortText };

    ghost view = { λ a. record { done = a.done.items; word = a.word.items; closed = a.closed; begun = a.begun } };

    ghost invariant = { λ a.
        IsShortLine (record { done = a.done.items; word = a.word.items; closed = a.closed; begun = a.begun }) a.words };
}

impl ShortLine {
    ghost use Rattle.file_pieces.specs.ShortLines.{Stands, HasEnded, text_before};

    /// A line that has no byte yet.
    pub fn new() -> ShortLine
        ensures { Stands result [] }
    {
        let mut done = ArrayVec::new();
        done.push(b' ');
        ShortLine {
            done,
            word: ArrayVec::new(),
            words: 0,
            closed: false,
            begun: false,
        }
    }

    /// Begins a line anew.
    pub fn clear(&mut self)
        ensures { Stands self.new [] }
    {
        self.done.clear();
        self.done.push(b' ');
        self.word.clear();
        self.words = 0;
        self.closed = false;
        self.begun = false;
    }

    /// Puts a byte that is no line feed behind the line.
    #[inline(always)]
    pub fn push(&mut self, byte: u8)
        requires { byte ≢ 10 }
        ensures { (bytes : List ℕ) → Stands self.old bytes → Stands self.new (bytes ++ byte ∷ []) }
    {
        self.begun = true;
        if self.closed {
            return;
        }
        if is_blank(byte) {
            self.end_word();
        } else if byte == b'#' {
            self.end_word();
            self.closed = true;
        } else {
            self.push_in_word(byte);
        }
    }

    /// Puts a byte that goes on with the word.
    #[inline(always)]
    fn push_in_word(&mut self, byte: u8)
        requires going_on { self.old.closed ≡ false }
        requires inside { ends_word byte ≡ false }
        ensures same { (after : List ℕ) → SameLine (words_here (self.new.done ++ (self.new.word ++ after)))
            (words_here (self.old.done ++ (self.old.word ++ byte ∷ after))) }
        ensures others { self.new ≡ record self.old { word = self.new.word } }
    {
        push_byte(&mut self.word, byte);
    }

    /// Ends the word, if one has begun.
    #[inline(always)]
    fn end_word(&mut self)
        requires { self.old.closed ≡ false }
        ensures ended { HasEnded self.old.done self.old.word self.new }
        ensures word { self.new.word ≡ [] }
        ensures begun { self.new.begun ≡ self.old.begun }
    {
        if self.word.is_empty() {
            return;
        }
        put(&mut self.done, self.word.as_slice());
        self.done.push(b' ');
        self.word.clear();
        self.words += 1;
        self.closed = self.words == MOST_WORDS;
    }

    /// Ends the line.
    pub fn finish(&mut self)
        ensures words { (bytes : List ℕ) → Stands self.old bytes → SameLine (words_here self.new.done) (words_here bytes) }
        ensures begun { self.new.begun ≡ self.old.begun }
    {
        if !self.closed {
            self.end_word();
        }
    }

    /// The line's words, shortened, on a line of their own.
    pub fn bytes(&self) -> &[u8]
        ensures bytes { result.now ≡ self.now.done }
        ensures line { full_lines result.now
            ≡ (if is_filled (words_here self.now.done) then (record { number = 1; words = words_here self.now.done }) ∷ [] else []) }
    {
        self.done.as_slice()
    }

    /// Whether the line has words that have ended.
    pub fn has_words(&self) -> bool
        ensures { result ≡ is_filled (words_here self.now.done) }
    {
        self.words > 0
    }

    /// Whether the line has a byte.
    pub fn has_begun(&self) -> bool
        ensures { result ≡ self.now.begun }
    {
        self.begun
    }
}

fn is_blank(byte: u8) -> bool
    ensures { result ≡ is_blank byte }
{
    // Nearly every byte of a word is larger, so that one comparison is enough for it.
    byte <= b' ' && matches!(byte, b' ' | b'\t' | 0x0B | 0x0C | b'\r')
}

/// Puts a byte behind a word that is kept.
#[inline(always)]
fn push_byte(word: &mut ArrayVec<u8, MOST_BYTES>, byte: u8)
    requires short { length word.old.items ≤ MOST_BYTES }
    requires lean { is_lean word.old.items ≡ true }
    requires inside { list_all (λ b. not (ends_word b)) word.old.items ≡ true }
    requires goes_on { ends_word byte ≡ false }
    ensures { PutsByte word.old.items word.new.items byte }
{
    if is_zero_before(word.as_slice(), byte) {
        word.clear();
        word.push(byte);
        return;
    }
    if word.len() < MOST_BYTES {
        word.push(byte);
    }
}

/// Whether a word is a zero, and the byte a digit that follows it.
fn is_zero_before(word: &[u8], byte: u8) -> bool
    ensures { result ≡ (is_digit byte && bytes_eq word.now (48 ∷ [])) }
{
    byte.is_ascii_digit() && word == b"0".as_slice()
}

fn put(text: &mut ArrayVec<u8, ROOM>, bytes: &[u8])
    requires { length text.old.items + length bytes.now ≤ ROOM }
    ensures { text.new.items ≡ text.old.items ++ bytes.now }
{
    let _ = text.try_extend_from_slice(bytes);
}

//! A reader's place in a text.
ghost use Rattle.std.specs.Prelude.{◌≡◌, ◌+◌, ◌-◌, ◌^◌, ◌<◌, ◌≤◌, ◌↔◌, min, [], IsTrue, is_some, IfSome, IfNone, MatchOption, option_map, option_copied, if◌then◌else◌, length, slice_get};
ghost use Rattle.std.specs.Bool.{OnTrue};
ghost use Rattle.text_scan.specs.Lines.{is_filled, unmarked, full_lines, end_line};
ghost use Rattle.text_scan.specs.Unread.{Unread, lines_left, at_line, past_word, next_word, next_natural, next_number, next_integer, next_is_number_text, are_words, words_here, unread_at};

use crate::line_by_line::Words;
use crate::naturals::signed;
use crate::steps::{
    after_blanks, after_line, begins_word, digit_at, first_word, line_count, natural_at,
    number_text_at, word_at,
};
use std::marker::Model;

/// The bytes of a byte-order mark, which a text may begin with.
const MARK: &[u8] = b"\xEF\xBB\xBF";

/// A text without the byte-order mark that it may begin with.
pub(crate) fn unmarked(text: &[u8]) -> &[u8]
    ensures { result.now ≡ unmarked text.now }
{
    text.strip_prefix(MARK).unwrap_or(text)
}

/// A place in a text, which goes on word by word and line by line. It takes no memory, and looks at
/// each byte about once.
#[derive(Debug, Drop)]
pub struct Cursor<'a> {
    /// The whole text, without a byte-order mark.
    text: &'a [u8],
    /// What is left of the text.
    rest: &'a [u8],
    /// The number of the present line.
    line: u64,
}

impl<'a> Model for Cursor<'a> {
    ghost use Rattle.std.specs.Prelude.{◌+◌, ◌^◌, ◌<◌, length};
    ghost use Rattle.text_scan.specs.Unread.{Unread, unread_at};

    ghost Value = { Unread };

    ghost view = { λ a. unread_at a.text.now a.line a.rest.now };

    ghost invariant = { λ a. (0 < a.line) × (a.line + length a.rest.now < 2 ^ 64) };
}

impl<'a> Cursor<'a> {
    /// The beginning of a text, behind the byte-order mark that it may have.
    pub fn new(text: &'a [u8]) -> Cursor<'a>
        ensures lines { lines_left result ≡ full_lines text.now }
        ensures end { result.end_line ≡ end_line text.now }
    {
        let text = unmarked(text);
        Cursor {
            text,
            rest: text,
            line: 1,
        }
    }

    /// Goes to the first line with words left: the present one if it has some left, else the next
    /// that is not blank. `false` where there is none, and then nothing changes.
    #[inline(always)]
    pub fn find_line(&mut self) -> bool
        ensures found { result ≡ is_filled (lines_left self.old) }
        ensures place { self.new ≡ at_line self.old (lines_left self.old) }
        // A line that is found has a word left.
        ensures filled { OnTrue result (IsTrue (is_filled self.new.words)) }
    {
        let Some((line, rest)) = first_word(self.line, self.rest) else {
            return false;
        };
        self.line = line;
        self.rest = rest;
        true
    }

    /// Passes over the words left in the present line.
    #[inline(always)]
    pub fn pass_line(&mut self)
        ensures { self.new ≡ record self.old { words = [] } }
    {
        self.rest = after_line(self.rest);
    }

    /// The next natural of the present line, or 2^64 - 1 where it is larger than that, and goes past
    /// it. `None` where the line has no further word or the next is no natural, and then nothing
    /// changes.
    #[inline(always)]
    pub fn natural(&mut self) -> Option<u64>
        ensures value { result ≡ option_map (λ n. min n (2 ^ 64 - 1)) (next_natural self.old.words) }
        ensures place { self.new ≡ (if is_some result then past_word self.old else self.old) }
        // Fewer words are left than the largest answer, so that no number that it stands for counts them.
        ensures few { length self.new.words < 2 ^ 64 - 1 }
    {
        let (value, rest) = natural_at(after_blanks(self.rest))?;
        self.rest = rest;
        Some(value)
    }

    /// What `natural` gives and where it goes. It is faster where nearly all naturals have one digit, with single blanks between
    /// them, and slower elsewhere.
    #[inline(always)]
    pub fn short_natural(&mut self) -> Option<u64>
        ensures value { result ≡ option_map (λ n. min n (2 ^ 64 - 1)) (next_natural self.old.words) }
        ensures place { self.new ≡ (if is_some result then past_word self.old else self.old) }
        ensures few { length self.new.words < 2 ^ 64 - 1 }
    {
        if let Some((value, rest)) = digit_at(self.rest) {
            self.rest = rest;
            return Some(value);
        }
        self.natural()
    }

    /// The number of at most 2^32 - 1 that the next word of the present line is, and goes past that
    /// word. `None` where it is none, or where the line has no further word.
    #[inline(always)]
    pub fn number(&mut self) -> Option<u32>
        ensures value { result ≡ next_number self.old.words }
        ensures place { self.new ≡ past_word self.old }
    {
        let Some(value) = self.natural() else {
            let _ = self.word();
            return None;
        };
        u32::try_from(value).ok()
    }

    /// The integer of 64 bits that the next word of the present line is, and goes past that word.
    /// `None` where it is none, or where the line has no further word.
    pub fn integer(&mut self) -> Option<i64>
        ensures value { result ≡ next_integer self.old.words }
        ensures place { self.new ≡ past_word self.old }
    {
        let word = self.word()?;
        signed(word).ok()
    }

    /// Whether the words left in the present line are those of `line`, and goes past them if so.
    /// Else nothing changes.
    pub fn pass_words(&mut self, line: &[u8]) -> bool
        ensures answer { result ≡ are_words self.old.words (words_here line.now) }
        ensures place { self.new ≡ (if result then record self.old { words = [] } else self.old) }
    {
        let mut left = Words::of(self.rest);
        let mut wanted = Words::of(line);
        while let Some(word) = wanted.next() {
            let Some(next) = left.next() else {
                return false;
            };
            if next != word {
                return false;
            }
        }
        if left.next().is_some() {
            return false;
        }
        self.pass_line();
        true
    }

    /// Whether words are left in the present line.
    #[inline(always)]
    pub fn has_word(&self) -> bool
        ensures { result ≡ is_filled self.now.words }
    {
        begins_word(after_blanks(self.rest))
    }

    /// The next word of the present line, and goes past it. `None` where the line has no further
    /// word.
    pub fn word(&mut self) -> Option<&'a [u8]>
        ensures word { option_map (λ word. word.now) result ≡ next_word self.old.words }
        ensures place { self.new ≡ past_word self.old }
    {
        let (word, rest) = word_at(after_blanks(self.rest))?;
        self.rest = rest;
        Some(word)
    }

    /// Whether the present line has a further word and it is a number text, and goes past it if so.
    /// Else nothing changes.
    #[inline(always)]
    pub fn number_text(&mut self) -> bool
        ensures answer { result ≡ next_is_number_text self.old.words }
        ensures place { self.new ≡ (if result then past_word self.old else self.old) }
    {
        let Some(rest) = number_text_at(after_blanks(self.rest)) else {
            return false;
        };
        self.rest = rest;
        true
    }

    /// The line where the text ends: one more than its number of lines.
    pub fn end_line(&self) -> u64
        ensures { result ≡ self.now.end_line }
    {
        line_count(self.text) + 1
    }

    /// The number of the present line.
    pub fn line(&self) -> u64
        ensures { result ≡ self.now.line }
    {
        self.line
    }
}

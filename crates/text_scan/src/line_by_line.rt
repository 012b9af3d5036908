//! The lines of a text, and the words of a line, one after the other.
ghost use Rattle.std.specs.Prelude.{◌≡◌, [], ◌∷◌, drop, is_some, if◌then◌else◌, option_map, MatchOption};
ghost use Rattle.text_scan.specs.Lines.{full_lines, line_count};
ghost use Rattle.text_scan.specs.Unread.{LinesLeft, next_word, next_number, words_here};

use crate::cursor::unmarked;
use crate::steps::{after_blanks, after_line, first_word, line_count, natural_at, word_at};
use std::marker::Model;

/// The lines of a text that have words, one after the other. It takes no memory.
#[derive(Debug, Drop)]
pub struct Lines<'a> {
    /// The whole text, without a byte-order mark.
    text: &'a [u8],
    /// What is left of the text.
    rest: &'a [u8],
    /// The number of the line where `rest` begins.
    line: u64,
}

impl<'a> Model for Lines<'a> {
    ghost use Rattle.std.specs.Prelude.{◌+◌, ◌^◌, ◌<◌, length};
    ghost use Rattle.text_scan.specs.Lines.{cut_lines, lines_from};
    ghost use Rattle.text_scan.specs.Unread.{LinesLeft};

    ghost Value = { LinesLeft };

    ghost view = { λ a. record { lines = lines_from a.line a.rest.now; count = length (cut_lines a.text.now) } };

    ghost invariant = { λ a. a.line + length a.rest.now < 2 ^ 64 };
}

impl<'a> Lines<'a> {
    /// A place before the first line, behind the byte-order mark that the text may have.
    pub fn new(text: &'a [u8]) -> Lines<'a>
        ensures { result ≡ record { lines = full_lines text.now; count = line_count text.now } }
    {
        let text = unmarked(text);
        Lines {
            text,
            rest: text,
            line: 1,
        }
    }

    /// The next line that is not blank. `None` exactly where there is none, and then nothing changes.
    pub fn next(&mut self) -> Option<Line<'a>>
        ensures { MatchOption result ((self.old.lines ≡ []) × (self.new ≡ self.old))
            (λ line. self.old ≡ record self.new { lines = line ∷ self.new.lines }) }
    {
        let (number, text) = first_word(self.line, self.rest)?;
        self.line = number;
        self.rest = after_line(text);
        Some(Line { number, text })
    }

    /// The number of lines of the whole text, blank ones counted.
    pub fn count(&self) -> u64
        ensures { result ≡ self.now.count }
    {
        line_count(self.text)
    }
}

/// A line that has words.
#[derive(Debug, Drop)]
pub struct Line<'a> {
    number: u64,
    /// The text from the first word of the line on.
    text: &'a [u8],
}

impl<'a> Model for Line<'a> {
    ghost use Rattle.text_scan.specs.Lines.{Line as NumberedLine};
    ghost use Rattle.text_scan.specs.Unread.{words_here};

    ghost Value = { NumberedLine };

    ghost view = { λ a. record { number = a.number; words = words_here a.text.now } };
}

impl<'a> Line<'a> {
    /// The line's number; lines are counted from 1, blank ones too.
    pub fn number(&self) -> u64
        ensures { result ≡ self.now.number }
    {
        self.number
    }

    /// A place before the first word of the line.
    pub fn words(&self) -> Words<'a>
        ensures { result ≡ self.now.words }
    {
        Words::of(self.text)
    }
}

/// The words of a line, one after the other.
#[derive(Debug, Drop)]
pub struct Words<'a> {
    rest: &'a [u8],
}

impl<'a> Model for Words<'a> {
    ghost use Rattle.std.specs.Prelude.{ℕ, List};
    ghost use Rattle.text_scan.specs.Unread.{words_here};

    ghost Value = { List (List ℕ) };

    ghost view = { λ a. words_here a.rest.now };
}

impl<'a> Words<'a> {
    /// A place before the first word of a line, from which on the text is this one.
    pub(crate) fn of(rest: &'a [u8]) -> Words<'a>
        ensures { result ≡ words_here rest.now }
    {
        Words { rest }
    }

    /// The next word, a part of the text that was handed in. `None` exactly where there is none.
    pub fn next(&mut self) -> Option<&'a [u8]>
        ensures word { option_map (λ word. word.now) result ≡ next_word self.old }
        ensures place { self.new ≡ drop 1 self.old }
    {
        let (word, rest) = word_at(after_blanks(self.rest))?;
        self.rest = rest;
        Some(word)
    }

    /// The number of at most 2^32 - 1 that the next word is, and goes past that word. `None` where it is none, or where there
    /// is no further word, and then nothing changes.
    #[inline(always)]
    pub fn number(&mut self) -> Option<u32>
        ensures value { result ≡ next_number self.old }
        ensures place { self.new ≡ (if is_some result then drop 1 self.old else self.old) }
    {
        let (value, rest) = natural_at(after_blanks(self.rest))?;
        let number = u32::try_from(value).ok()?;
        self.rest = rest;
        Some(number)
    }
}

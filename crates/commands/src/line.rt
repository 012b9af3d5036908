//! The lines that the program writes.
ghost use Rattle.std.specs.Prelude.{◌≡◌, ◌≤◌, length, map};
ghost use Rattle.commands.specs.Lines.{behind_blank, in_lines, line, phrase_text};
ghost use Rattle.commands.specs.Writes.{Writes};

use std::marker::Model;
use surf_io::{Failed, Sink, put_natural, put_signed, write_whole};

/// A part of a line.
#[derive(Clone, Copy, Debug, PartialEq, Eq)]
pub enum Phrase {
    /// This text.
    Text(&'static str),
    /// A number in decimal digits.
    Number(u64),
    /// A number in decimal digits, with a minus before it where it is negative.
    Signed(i64),
}

/// The most phrases behind the first of a line.
pub const MOST_OTHERS: usize = 5;

/// A line of a few phrases. It takes no memory.
#[derive(Debug, Drop)]
pub struct Line {
    first: Phrase,
    others: [Phrase; MOST_OTHERS],
    len: usize,
}

impl Model for Line {
    ghost use Rattle.std.specs.Prelude.{ℕ, ◌≤◌, List, map, take};
    ghost use Rattle.commands.specs.Lines.{line, phrase_text};
    ghost use Rattle.commands.specs.declared.line.TheConstants.{MOST_OTHERS};

    ghost Value = { List ℕ };

    ghost view = { λ l. line (phrase_text l.first) (map phrase_text (take l.len l.others)) };

    ghost invariant = { λ l. l.len ≤ MOST_OTHERS };
}

impl Line {
    /// The line of these phrases.
    pub fn of(first: Phrase, others: &[Phrase]) -> Line
        requires { length others.now ≤ MOST_OTHERS }
        ensures { result ≡ line (phrase_text first) (map phrase_text others.now) }
    {
        let mut kept = [first; MOST_OTHERS];
        let len = others.len();
        kept[..len].copy_from_slice(others);
        Line {
            first,
            others: kept,
            len,
        }
    }
}

/// Writes some lines.
pub fn put_lines<K: Sink>(out: &mut K, lines: &Vec<Line>) -> Result<(), Failed>
    ensures { Writes K.written K.settled K.faults out.old out.new (in_lines lines.now.items) result }
{
    for line in lines {
        put_line(out, line)?;
    }
    Ok(())
}

/// Writes a line.
pub fn put_line<K: Sink>(out: &mut K, line: &Line) -> Result<(), Failed>
    ensures { Writes K.written K.settled K.faults out.old out.new line.now result }
{
    put_phrases(out, line.first, &line.others[..line.len])
}

/// Writes phrases, with a blank between two and a line feed behind the last.
fn put_phrases<K: Sink>(out: &mut K, first: Phrase, others: &[Phrase]) -> Result<(), Failed>
    ensures { Writes K.written K.settled K.faults out.old out.new (line (phrase_text first) (map phrase_text others.now)) result }
{
    put_phrase(out, first)?;
    for phrase in others {
        put_behind(out, *phrase)?;
    }
    write_whole(out, b"\n")
}

/// Writes a phrase behind others.
fn put_behind<K: Sink>(out: &mut K, phrase: Phrase) -> Result<(), Failed>
    ensures { Writes K.written K.settled K.faults out.old out.new (behind_blank (phrase_text phrase)) result }
{
    write_whole(out, b" ")?;
    put_phrase(out, phrase)
}

fn put_phrase<K: Sink>(out: &mut K, phrase: Phrase) -> Result<(), Failed>
    ensures { Writes K.written K.settled K.faults out.old out.new (phrase_text phrase) result }
{
    match phrase {
        Phrase::Text(text) => write_whole(out, text.as_bytes()),
        Phrase::Number(number) => put_natural(out, number),
        Phrase::Signed(number) => put_signed(out, number),
    }
}

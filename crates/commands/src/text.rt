//! What the program writes, by its kinds.
ghost use Rattle.std.specs.Prelude.{◌≡◌};
ghost use Rattle.commands.specs.Certificates.{certificate_text};
ghost use Rattle.commands.specs.HomologyCertificates.{answer_in, homology_line, homology_phrase, homology_text};
ghost use Rattle.commands.specs.Stops.{bytes_of};
ghost use Rattle.commands.specs.Writes.{Writes};
ghost use Rattle.commands.specs.declared.certificate.Certificate.{Certificate};

use crate::certificate::Certificate;
use crate::decision::line_of;
use crate::decision_lines::put_decisions;
use crate::line::{Line, Phrase, put_line, put_lines};
use crate::odd_chain_line::put_odd_chain;
use crate::word_lines::put_words;
use homology::HomologyCert;
use homology_files::write_homology;
use labellings::Denial;
use surf_io::{Failed, Sink};
use surf_model::{Answer, MoveList, OddChain};
use turn_words::TurnWord;
use walk_files::{write_denial, write_moves};

/// What is written.
#[derive(Debug, Drop)]
pub enum Text {
    /// A line.
    Line(Line),
    /// Some lines.
    Lines(Vec<Line>),
    /// The refusal that an odd chain tells.
    OddChain(OddChain),
    /// A certificate behind the decision that it is for.
    Certificate(Certificate),
    /// Turn words, each on a line.
    Words(Vec<TurnWord>),
    /// Decisions, each on a line.
    Decisions(Vec<Answer>),
    /// A certificate of homology behind the answer that it is for.
    Homology(HomologyCert),
}

/// Writes a text.
pub fn put_text<K: Sink>(out: &mut K, text: &Text) -> Result<(), Failed>
    ensures { Writes K.written K.settled K.faults out.old out.new (bytes_of text.now) result }
{
    match text {
        Text::Line(line) => put_line(out, line),
        Text::Lines(lines) => put_lines(out, lines),
        Text::OddChain(chain) => put_odd_chain(out, chain),
        Text::Certificate(Certificate::Moves(list)) => put_moves(out, list),
        Text::Certificate(Certificate::Denial(denial)) => put_denial(out, denial),
        Text::Words(words) => put_words(out, words),
        Text::Decisions(decisions) => put_decisions(out, decisions),
        Text::Homology(shown) => put_homology(out, shown),
    }
}

/// Writes a list of moves behind its decision.
fn put_moves<K: Sink>(out: &mut K, list: &MoveList) -> Result<(), Failed>
    ensures { Writes K.written K.settled K.faults out.old out.new (certificate_text (Certificate.Moves list.now)) result }
{
    put_line(out, &line_of(Answer::Homotopic))?;
    write_moves(list, out)
}

/// Writes a denial behind its decision.
fn put_denial<K: Sink>(out: &mut K, denial: &Denial) -> Result<(), Failed>
    ensures { Writes K.written K.settled K.faults out.old out.new (certificate_text (Certificate.Denial denial.now)) result }
{
    put_line(out, &line_of(Answer::Different))?;
    write_denial(denial, out)
}

/// Writes a certificate of homology behind the answer that it is for.
fn put_homology<K: Sink>(out: &mut K, shown: &HomologyCert) -> Result<(), Failed>
    ensures { Writes K.written K.settled K.faults out.old out.new (homology_text shown.now) result }
{
    put_line(out, &line_for(shown))?;
    write_homology(shown, out)
}

/// The line of the answer that a certificate of homology is for.
fn line_for(shown: &HomologyCert) -> Line
    ensures { result ≡ homology_line (answer_in shown.now) }
{
    Line::of(Phrase::Text(phrase_for(shown)), &[])
}

/// The phrase of the answer that a certificate of homology is for.
fn phrase_for(shown: &HomologyCert) -> &'static str
    ensures { result.now ≡ homology_phrase (answer_in shown.now) }
{
    match shown {
        HomologyCert::Chain(_) => "homologous",
        HomologyCert::Cocycle(_) => "not homologous",
    }
}

//! Why an input is refused: what stops a command, for each fault.
ghost use Rattle.std.specs.Prelude.{◌≡◌, ◌≤◌, length, map};
ghost use Rattle.commands.specs.Lines.{phrase_text};
ghost use Rattle.commands.specs.Refusals.{input_name, numbers_line, told, told_at, told_at_place, too_large};
ghost use Rattle.commands.specs.Stops.{Tells};

use crate::line::{Line, MOST_OTHERS, Phrase};
use crate::stop::Stop;
use crate::text::Text;
use off_reader::OffFault;
use walk_files::{CertFault, PairFault, StreamEnd, WalkFault};

/// A refusal that these phrases tell.
pub fn refused(phrases: &[Phrase]) -> Stop
    requires { length phrases.now ≤ MOST_OTHERS }
    ensures { Tells (told (map phrase_text phrases.now)) result }
{
    Stop::Refused(Text::Line(Line::of(Phrase::Text("refused:"), phrases)))
}

/// A refusal for a cause in a line of a file.
pub fn refused_at(what: &'static str, line: u64, cause: &'static str) -> Stop
    ensures { Tells (told_at what.now line cause.now) result }
{
    refused(&[
        Phrase::Text(what),
        Phrase::Text("line"),
        Phrase::Number(line),
        Phrase::Text(cause),
    ])
}

/// A refusal for a cause at a place of a walk.
pub fn refused_at_place(walk: u32, place: u32, cause: &'static str) -> Stop
    ensures { Tells (told_at_place walk place cause.now) result }
{
    refused(&[
        Phrase::Text("walk"),
        Phrase::Number(walk as u64),
        Phrase::Text("place"),
        Phrase::Number(place as u64),
        Phrase::Text(cause),
    ])
}

/// A file that a command reads, by what it is to be.
#[derive(Clone, Copy, Debug, PartialEq, Eq)]
pub enum Input {
    /// The mesh.
    Mesh,
    /// The two walks.
    Walks,
    /// The certificate.
    Certificate,
    /// The list of turn words.
    TurnWords,
}

impl Input {
    /// What a line calls the file.
    fn name(self) -> &'static str
        ensures { result.now ≡ input_name self }
    {
        match self {
            Input::Mesh => "off",
            Input::Walks => "walks",
            Input::Certificate => "certificate",
            Input::TurnWords => "list",
        }
    }

    /// Refused since it has too many bytes.
    pub fn too_large(self) -> Stop
        ensures { Tells (too_large self) result }
    {
        refused(&[Phrase::Text(self.name()), Phrase::Text("too large")])
    }

    /// Refused for a fault in its lines of numbers.
    pub fn refused_for(self, fault: WalkFault) -> Stop
        ensures { Tells (numbers_line self fault) result }
    {
        match fault {
            WalkFault::BadNumber { line } => refused_at(self.name(), line, "number"),
            WalkFault::TooLong { line } => refused_at(self.name(), line, "long"),
            WalkFault::TooMany { line } => refused_at(self.name(), line, "many"),
            WalkFault::BadGroup { line } => refused_at(self.name(), line, "group"),
            WalkFault::OutOfMemory => Stop::OutOfMemory,
        }
    }
}

impl From<OffFault> for Stop {
    ghost use Rattle.commands.specs.Refusals.{off_line};
    ghost use Rattle.commands.specs.Stops.{Tells};

    ghost from_gives = { λ fault stop. Tells (off_line fault) stop };

    fn from(fault: OffFault) -> Stop {
        match fault {
            OffFault::NoCounts => refused(&[Phrase::Text("off no counts")]),
            OffFault::BadCounts { line } => refused_at("off", line, "counts"),
            OffFault::UnreadForm { line } => refused_at("off", line, "form"),
            OffFault::BadVertex { line } => refused_at("off", line, "vertex"),
            OffFault::Ended { line } => refused_at("off", line, "ended"),
            OffFault::BadFace { line } => refused_at("off", line, "face"),
            OffFault::IndexRange { line } => refused_at("off", line, "index"),
            OffFault::EqualNeighbours { line } => refused_at("off", line, "neighbours"),
            OffFault::TooMany { line } => refused_at("off", line, "many"),
            OffFault::OutOfMemory => Stop::OutOfMemory,
        }
    }
}

impl From<PairFault> for Stop {
    ghost use Rattle.commands.specs.Refusals.{pair_line};
    ghost use Rattle.commands.specs.Stops.{Tells};

    ghost from_gives = { λ fault stop. Tells (pair_line fault) stop };

    fn from(fault: PairFault) -> Stop {
        match fault {
            PairFault::NotTwo { count } => {
                refused(&[Phrase::Text("walks count"), Phrase::Number(count)])
            }
            PairFault::NoVertex { walk, place } => refused_at_place(walk, place, "vertex"),
            PairFault::NoEdge { walk, place } => refused_at_place(walk, place, "edge"),
            PairFault::EndsDiffer { at_start: true } => refused(&[Phrase::Text("walks start")]),
            PairFault::EndsDiffer { at_start: false } => refused(&[Phrase::Text("walks end")]),
        }
    }
}

impl From<CertFault> for Stop {
    ghost use Rattle.commands.specs.Refusals.{certificate_line};
    ghost use Rattle.commands.specs.Stops.{Tells};

    ghost from_gives = { λ fault stop. Tells (certificate_line fault) stop };

    fn from(fault: CertFault) -> Stop {
        let certificate = "certificate";
        match fault {
            CertFault::NoHead => refused(&[Phrase::Text("certificate no head")]),
            CertFault::Bad { line } => refused_at(certificate, line, "bad"),
            CertFault::Ended { line } => refused_at(certificate, line, "ended"),
            CertFault::Extra { line } => refused_at(certificate, line, "extra"),
            CertFault::Peak { line } => refused_at(certificate, line, "peak"),
            CertFault::OutOfMemory => Stop::OutOfMemory,
        }
    }
}

impl From<StreamEnd> for Stop {
    ghost use Rattle.commands.specs.Stops.{StopsReading};

    ghost from_gives = { λ end stop. StopsReading end stop };

    fn from(end: StreamEnd) -> Stop {
        match end {
            StreamEnd::Fault => Stop::ReadFault,
            StreamEnd::TooLarge => Input::Certificate.too_large(),
            StreamEnd::Cert(fault) => Stop::from(fault),
            StreamEnd::OutOfMemory => Stop::OutOfMemory,
        }
    }
}

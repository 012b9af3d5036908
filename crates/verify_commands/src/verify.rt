//! The command `verify`: judging a certificate against the mesh and the walks alone.
ghost use Rattle.std.specs.Prelude.{◌≡◌, ◌≤◌, List, length, map, None, IsTrue, IfSome, MatchResult};
ghost use Rattle.surf_io.specs.Files.{file_of};
ghost use Rattle.surf_model.specs.Edges.{IsTableOf};
ghost use Rattle.surf_model.specs.Walks.{IsWalk};
ghost use Rattle.surf_model.specs.declared.moves.Move.{Move};
ghost use Rattle.labellings.specs.declared.verdict.DenialVerdict.{DenialVerdict};
ghost use Rattle.move_checker.specs.Verdicts.{verdict_of};
ghost use Rattle.walk_files.specs.Streams.{IsIn, streams_list};
ghost use Rattle.commands.specs.Answers.{Exactly};
ghost use Rattle.commands.specs.Inputs.{certificate_in};
ghost use Rattle.commands.specs.Lines.{line, phrase_text};
ghost use Rattle.verify_commands.specs.Progress.{IsVerdictOnFile, outlook, peak_in};
ghost use Rattle.commands.specs.Replies.{Concludes, IsReplyTo, Runs};
ghost use Rattle.commands.specs.Stops.{EndsReading, Stops};
ghost use Rattle.verify_commands.specs.Verify as of_verify;
ghost use Rattle.verify_commands.specs.Verify.{denial_answer, fault_word, judged_file, verdict_answer};
ghost use Rattle.commands.specs.declared.status.Status.{Status};
ghost use Rattle.commands.specs.declared.stop.Stop.{Stop};

use crate::progress::{Pair, Progress};
use commands::{Line, MOST_BYTES, MOST_OTHERS, Phrase, Reply, Stop, Text, read_mesh, read_pair};
use labellings::{DenialVerdict, LabelFault, check_denial};
use move_checker::{MoveFault, Verdict};
use std::alloc::Global;
use surf_io::Shelf;
use surf_model::Sides;
use walk_files::{CertHead, CertStream};

/// The judgement on the certificate in the file `certificate`, between the walks in the file `walks`,
/// on the mesh in the file `mesh`. A file is read only where those before it are in order.
pub fn verify<S: Shelf>(
    alloc: Global,
    shelf: &mut S,
    mesh: &str,
    walks: &str,
    certificate: &str,
) -> Result<Reply, Stop>
    ensures { Runs S.held S.faults shelf.old shelf.new (λ files. of_verify.verify files mesh.now walks.now certificate.now) result }
{
    let faces = read_mesh(alloc, shelf, mesh)?;
    let sides = Sides::build(alloc, &faces)?;
    let walks = read_pair(alloc, shelf, walks, &sides)?;
    let pair = Pair {
        faces: &faces,
        sides: &sides,
        first: walks.at(0),
        second: walks.at(1),
    };
    let reply = judge(alloc, shelf, certificate, &pair);
    // By calls, each of which is proved once, and not here again.
    drop(walks);
    drop(sides);
    drop(faces);
    reply
}

/// The judgement on a certificate between two walks, read in pieces.
fn judge<S: Shelf>(
    alloc: Global,
    shelf: &mut S,
    certificate: &str,
    pair: &Pair<'_>,
) -> Result<Reply, Stop>
    requires table { IsTableOf pair.now.faces.now pair.now.sides.now }
    requires first { IsWalk pair.now.faces.now pair.now.first.now }
    requires second { IsWalk pair.now.faces.now pair.now.second.now }
    ensures { EndsReading S.held S.faults shelf.old shelf.new (λ files. Concludes
        (judged_file files certificate.now pair.now.faces.now pair.now.first.now pair.now.second.now) result) result }
{
    let mut stream = CertStream::start(alloc, shelf, certificate, MOST_BYTES)?;
    match stream.head() {
        CertHead::Moves { peak, .. } => {
            let start = Progress::start(alloc, pair.first, peak)?;
            let verdict = judge_moves(shelf, certificate, pair, stream, start)?;
            Ok(reply_on_moves(verdict))
        }
        CertHead::Labels { .. } => {
            let denial = stream.denial(alloc, shelf, certificate)?;
            let verdict = check_denial(
                alloc,
                pair.faces,
                pair.sides,
                pair.first,
                pair.second,
                denial,
            )?;
            reply_on_denial(verdict)
        }
    }
}

/// The verdict on a list of moves, which is judged while it is read. Behind a move that is refused the file is read on to its end, as a
/// line that is no move is refused before. It takes no memory.
fn judge_moves<S: Shelf>(
    shelf: &mut S,
    name: &str,
    pair: &Pair<'_>,
    mut stream: CertStream,
    mut progress: Progress,
) -> Result<Verdict, Stop>
    requires table { IsTableOf pair.now.faces.now pair.now.sides.now }
    requires list { IsTrue (streams_list stream) }
    requires fresh { (stream.given ≡ 0) × (stream.refusal ≡ None) × (stream.lines.reading.limit ≡ MOST_BYTES) }
    requires file { IfSome (file_of (S.held shelf.old) name.now) (IsIn stream) }
    requires start { (moves : List Move) → outlook pair.now.faces.now pair.now.second.now 0 progress moves
        ≡ verdict_of pair.now.faces.now pair.now.first.now pair.now.second.now
        (record { moves = moves; peak = peak_in stream.head }) }
    ensures { EndsReading S.held S.faults shelf.old shelf.new (λ files. MatchResult result
        (IsVerdictOnFile files name.now pair.now.faces.now pair.now.first.now pair.now.second.now)
        (Stops (certificate_in files name.now))) result }
{
    let mut done = 0;
    'moves: while let Some(mv) = stream.next_move(shelf, name)? {
        progress.step(pair, done, mv);
        done += 1;
    }
    Ok(progress.verdict(pair.second))
}

/// The reply that a verdict on a list of moves is.
fn reply_on_moves(verdict: Verdict) -> Reply
    ensures { IsReplyTo (verdict_answer verdict) result }
{
    match verdict {
        Verdict::Accepted => Reply::Yes(Text::Line(Line::of(Phrase::Text("accepted"), &[]))),
        Verdict::Peak => rejected("rejected: peak", &[]),
        Verdict::AtMove { number, fault } => rejected(
            "rejected: move",
            &[Phrase::Number(number), Phrase::Text(word_of_fault(fault))],
        ),
        Verdict::End => rejected("rejected: end", &[]),
    }
}

/// The reply that a verdict on a denial is.
fn reply_on_denial(verdict: DenialVerdict) -> Result<Reply, Stop>
    ensures { MatchResult result (IsReplyTo (denial_answer verdict)) (λ stop. stop ≡ Stop.OutOfMemory) }
{
    Ok(match verdict {
        DenialVerdict::Accepted => Reply::Yes(Text::Line(Line::of(Phrase::Text("accepted"), &[]))),
        DenialVerdict::Label(fault) => return reply_on_label(fault),
        DenialVerdict::WordWrong { walk } => {
            rejected("rejected: word", &[Phrase::Number(walk as u64)])
        }
        DenialVerdict::Equal => rejected("rejected: equal", &[]),
    })
}

/// The reply that the first rule of good labellings which fails is.
fn reply_on_label(fault: LabelFault) -> Result<Reply, Stop>
    ensures { MatchResult result (IsReplyTo (denial_answer (DenialVerdict.Label fault))) (λ stop. stop ≡ Stop.OutOfMemory) }
{
    Ok(match fault {
        LabelFault::Shape => rejected("rejected: shape", &[]),
        LabelFault::Degree { degree } => {
            rejected("rejected: degree", &[Phrase::Number(degree as u64)])
        }
        LabelFault::PlaceTwice { place } => {
            rejected("rejected: place", &[Phrase::Number(place as u64)])
        }
        LabelFault::EdgeRule { low, high } => rejected(
            "rejected: edge",
            &[Phrase::Number(low.0 as u64), Phrase::Number(high.0 as u64)],
        ),
        LabelFault::OutOfMemory => return Err(Stop::OutOfMemory),
    })
}

/// No, for these reasons.
fn rejected(first: &'static str, others: &[Phrase]) -> Reply
    requires { length others.now ≤ MOST_OTHERS }
    ensures { IsReplyTo (record { status = Status.No; texts = Exactly (line first.now (map phrase_text others.now)) }) result }
{
    Reply::No(Text::Line(Line::of(Phrase::Text(first), others)))
}

/// Why a move is refused, in one word.
fn word_of_fault(fault: MoveFault) -> &'static str
    ensures { result.now ≡ fault_word fault }
{
    match fault {
        MoveFault::Place => "place",
        MoveFault::NoEdge => "edge",
        MoveFault::NotSpur => "spur",
        MoveFault::NotOnFace => "face",
        MoveFault::OverPeak => "peak",
    }
}

//! The command `verify-homology`: judging a certificate of homology against the mesh and the walks alone.
ghost use Rattle.std.specs.Prelude.{◌≡◌, ◌≤◌, length, map, MatchResult, Err};
ghost use Rattle.surf_model.specs.Edges.{IsTableOf};
ghost use Rattle.walk_files.specs.Pairs.{IsPair};
ghost use Rattle.homology_files.specs.HomologyTexts.{cert_of_text};
ghost use Rattle.homology.specs.declared.verdict.HomologyVerdict.{HomologyVerdict};
ghost use Rattle.commands.specs.Answers.{Exactly};
ghost use Rattle.commands.specs.Checks.{meant};
ghost use Rattle.surf_model.specs.Walks.{walk_at};
ghost use Rattle.commands.specs.Lines.{line, phrase_text};
ghost use Rattle.commands.specs.Replies.{IsReplyTo, Replies, Runs};
ghost use Rattle.commands.specs.Stops.{Ends, EndsReading, Tells};
ghost use Rattle.commands.specs.declared.status.Status.{Status};
ghost use Rattle.commands.specs.declared.stop.Stop.{Stop};
ghost use Rattle.verify_homology_commands.specs.VerifyHomology.{homology_certificate_in, fault_line, homology_judgement, homology_verdict_answer};
ghost use Rattle.verify_homology_commands.specs.VerifyHomology as of_verify;

use commands::{
    Input, Line, MOST_OTHERS, Phrase, Reply, Stop, Text, read_file, read_mesh, read_pair, refused,
    refused_at,
};
use homology::{HomologyCert, HomologyVerdict, check_homology};
use homology_files::{HomologyFault, read_homology};
use std::alloc::Global;
use surf_io::Shelf;
use surf_model::{Faces, Sides};
use walk_files::WalkList;

/// The judgement on the certificate of homology in the file `certificate`, between the walks in the file `walks`, on the mesh in
/// the file `mesh`. A file is read only where those before it are in order.
pub fn verify_homology<S: Shelf>(
    alloc: Global,
    shelf: &mut S,
    mesh: &str,
    walks: &str,
    certificate: &str,
) -> Result<Reply, Stop>
    ensures { Runs S.held S.faults shelf.old shelf.new
        (λ files. of_verify.verify_homology files mesh.now walks.now certificate.now) result }
{
    let faces = read_mesh(alloc, shelf, mesh)?;
    let sides = Sides::build(alloc, &faces)?;
    let pair = read_pair(alloc, shelf, walks, &sides)?;
    let shown = read_shown(alloc, shelf, certificate)?;
    judge(alloc, &faces, &sides, &pair, &shown)
}

/// Reads the certificate. The bytes of its file are given back.
fn read_shown<S: Shelf>(alloc: Global, shelf: &mut S, name: &str) -> Result<HomologyCert, Stop>
    ensures { EndsReading S.held S.faults shelf.old shelf.new (λ files. Ends (homology_certificate_in files name.now) result) result }
{
    let bytes = read_file(alloc, shelf, name, Input::Certificate)?;
    certificate_of_bytes(alloc, &bytes)
}

/// The certificate that the bytes spell.
fn certificate_of_bytes(alloc: Global, bytes: &[u8]) -> Result<HomologyCert, Stop>
    ensures end { Ends (meant fault_line (cert_of_text bytes.now)) result }
    ensures no_fault { result ≡ Err Stop.ReadFault → ⊥ }
{
    match read_homology(alloc, bytes) {
        Ok(certificate) => Ok(certificate),
        Err(fault) => Err(refused_for(fault)),
    }
}

/// What stops the command for a fault of its certificate.
fn refused_for(fault: HomologyFault) -> Stop
    ensures { Tells (fault_line fault) result }
{
    match fault {
        HomologyFault::NoHead => refused(&[Phrase::Text("certificate no head")]),
        HomologyFault::Bad { line } => refused_at("certificate", line, "bad"),
        HomologyFault::Ended { line } => refused_at("certificate", line, "ended"),
        HomologyFault::Extra { line } => refused_at("certificate", line, "extra"),
        HomologyFault::OutOfMemory => Stop::OutOfMemory,
    }
}

/// The judgement on a certificate for a pair of walks of the mesh with this table.
fn judge(
    alloc: Global,
    faces: &Faces,
    sides: &Sides,
    pair: &WalkList,
    certificate: &HomologyCert,
) -> Result<Reply, Stop>
    requires table { IsTableOf faces.now sides.now }
    requires pair { IsPair faces.now pair.now.walks }
    ensures { MatchResult result
        (Replies (homology_judgement faces.now (walk_at pair.now.walks 0) (walk_at pair.now.walks 1) certificate.now))
        (λ stop. stop ≡ Stop.OutOfMemory) }
{
    let verdict = check_homology(alloc, faces, sides, pair.at(0), pair.at(1), certificate)?;
    Ok(reply_on(verdict))
}

/// The reply that a verdict is.
fn reply_on(verdict: HomologyVerdict) -> Reply
    ensures { IsReplyTo (homology_verdict_answer verdict) result }
{
    match verdict {
        HomologyVerdict::Face(face) => {
            rejected("rejected: face", &[Phrase::Number(face.0 as u64)])
        }
        HomologyVerdict::Edge(low, high) => rejected(
            "rejected: edge",
            &[Phrase::Number(low.0 as u64), Phrase::Number(high.0 as u64)],
        ),
        HomologyVerdict::Sum(face) => {
            rejected("rejected: face", &[Phrase::Number(face.0 as u64)])
        }
        HomologyVerdict::Zero => rejected("rejected: zero", &[]),
        HomologyVerdict::Accepted => Reply::Yes(Text::Line(Line::of(
            Phrase::Text("accepted"),
            &[],
        ))),
    }
}

/// No, for these reasons.
fn rejected(first: &'static str, others: &[Phrase]) -> Reply
    requires { length others.now ≤ MOST_OTHERS }
    ensures { IsReplyTo (record { status = Status.No; texts = Exactly (line first.now (map phrase_text others.now)) }) result }
{
    Reply::No(Text::Line(Line::of(Phrase::Text(first), others)))
}

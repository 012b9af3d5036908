//! What comes of certificates that lie in bytes.
ghost use Rattle.std.specs.Prelude.{◌≡◌, ◌^◌, ◌<◌, ◌≤◌, None, MatchResult, IsTrue, length};
ghost use Rattle.surf_model.specs.Edges.{IsTableOf};
ghost use Rattle.surf_model.specs.Walks.{IsWalk};
ghost use Rattle.walk_files.specs.Readers.{count_in, is_list, moves_left};
ghost use Rattle.walk_files.specs.declared.limits.TheConstants.{MOST_PEAK};
ghost use Rattle.homotopy_arrays.specs.Judgements.{IsFaultOfMoves, IsFaultOfSpelling, IsFaultOfText, IsVerdictOnMoves, IsVerifyFault, Judges, JudgesSpelt, JudgesText, JudgesWalks, IsFaultOfWalks};
ghost use Rattle.homotopy_arrays.specs.MeshArrays.{mesh_in_arrays};

use crate::fault::Fault;
use crate::mesh::{MeshArrays, mesh_of_arrays};
use crate::pair::{Checked, WalkFault, check_walks};
use commands::MOST_BYTES;
use labellings::{DenialVerdict, check_denial};
use move_checker::Verdict;
use std::alloc::{AllocError, Global};
use surf_model::{Faces, Sides};
use verify_commands::progress::{Pair, Progress};
use walk_files::{CertFault, CertHead, CertReader};

/// Why nothing comes of a certificate.
#[derive(Clone, Copy, Debug, PartialEq, Eq)]
pub enum VerifyFault {
    /// The arrays are no mesh, for this fault, or there is no memory.
    Mesh(Fault),
    /// The two walks are no walks of the mesh with common ends, for this fault.
    Walks(WalkFault),
    /// The certificate has more bytes than the program reads.
    Long,
    /// The bytes are no certificate, for this fault. It is never for want of memory.
    Certificate(CertFault),
}

impl From<Fault> for VerifyFault {
    ghost use Rattle.homotopy_arrays.specs.declared.verify.VerifyFault.TheVariants.{Mesh};

    ghost from_gives = { λ first fault. fault ≡ Mesh first };

    fn from(fault: Fault) -> VerifyFault {
        VerifyFault::Mesh(fault)
    }
}

impl From<AllocError> for VerifyFault {
    ghost use Rattle.homotopy_arrays.specs.Judgements.{no_memory};

    ghost from_gives = { λ _ fault. fault ≡ no_memory };

    fn from(_: AllocError) -> VerifyFault {
        VerifyFault::Mesh(Fault::OutOfMemory)
    }
}

impl From<CertFault> for VerifyFault {
    ghost use Rattle.homotopy_arrays.specs.Judgements.{of_certificate_fault};

    ghost from_gives = { λ first fault. fault ≡ of_certificate_fault first };

    fn from(fault: CertFault) -> VerifyFault {
        match fault {
            CertFault::OutOfMemory => VerifyFault::Mesh(Fault::OutOfMemory),
            _ => VerifyFault::Certificate(fault),
        }
    }
}

/// What comes of a certificate.
#[derive(Clone, Copy, Debug, PartialEq, Eq)]
pub enum Judgement {
    /// It is a list of moves, with this verdict.
    Moves(Verdict),
    /// It is a denial, with this verdict.
    Denial(DenialVerdict),
}

/// A mesh with its table.
#[derive(Clone, Copy)]
pub(crate) struct Tabled<'a> {
    pub(crate) faces: &'a Faces,
    pub(crate) sides: &'a Sides,
}

/// What comes of the certificate that the bytes spell, between two walks of the mesh that the arrays are, which need be no surface.
pub fn verify_arrays(
    alloc: Global,
    mesh: MeshArrays<'_>,
    first: &[u32],
    second: &[u32],
    certificate: &[u8],
) -> Result<Judgement, VerifyFault>
    ensures { MatchResult result (Judges (mesh_in_arrays mesh.entry) first.now second.now certificate.now)
        (IsVerifyFault (mesh_in_arrays mesh.entry) first.now second.now certificate.now) }
{
    let faces = mesh_of_arrays(alloc, mesh)?;
    let judged = verify_on(alloc, &faces, first, second, certificate);
    // By a call, which is proved once, and not here again.
    drop(faces);
    judged
}

/// What comes of a certificate between two walks of a mesh.
fn verify_on(
    alloc: Global,
    faces: &Faces,
    first: &[u32],
    second: &[u32],
    certificate: &[u8],
) -> Result<Judgement, VerifyFault>
    ensures { MatchResult result (JudgesWalks faces.now first.now second.now certificate.now)
        (IsFaultOfWalks faces.now first.now second.now certificate.now) }
{
    let sides = Sides::build(alloc, faces)?;
    let on = Tabled {
        faces,
        sides: &sides,
    };
    let judged = verify_walks(alloc, on, first, second, certificate);
    // By a call, which is proved once, and not here again.
    drop(sides);
    judged
}

/// What comes of a certificate between two walks of the mesh that has this table.
fn verify_walks(
    alloc: Global,
    on: Tabled<'_>,
    first: &[u32],
    second: &[u32],
    certificate: &[u8],
) -> Result<Judgement, VerifyFault>
    requires { IsTableOf on.faces.now on.sides.now }
    ensures { MatchResult result (JudgesWalks on.entry.faces.now first.now second.now certificate.now)
        (IsFaultOfWalks on.entry.faces.now first.now second.now certificate.now) }
{
    match check_walks(alloc, on.sides, first, second)? {
        Checked::Pair(walks) => {
            let pair = Pair {
                faces: on.faces,
                sides: on.sides,
                first: walks.at(0),
                second: walks.at(1),
            };
            judge(alloc, &pair, certificate)
        }
        Checked::Faulty(fault) => Err(VerifyFault::Walks(fault)),
    }
}

/// What comes of the certificate that the bytes spell.
fn judge(alloc: Global, on: &Pair<'_>, certificate: &[u8]) -> Result<Judgement, VerifyFault>
    requires table { IsTableOf on.now.faces.now on.now.sides.now }
    requires first { IsWalk on.now.faces.now on.now.first.now }
    requires second { IsWalk on.now.faces.now on.now.second.now }
    ensures { MatchResult result (JudgesText on.now.faces.now on.now.first.now on.now.second.now certificate.now)
        (IsFaultOfText certificate.now) }
{
    if certificate.len() as u64 > MOST_BYTES {
        return Err(VerifyFault::Long);
    }
    judge_text(alloc, on, certificate)
}

/// What comes of the certificate that the bytes spell, which are no more than are read.
fn judge_text(alloc: Global, on: &Pair<'_>, certificate: &[u8]) -> Result<Judgement, VerifyFault>
    requires table { IsTableOf on.now.faces.now on.now.sides.now }
    requires first { IsWalk on.now.faces.now on.now.first.now }
    requires second { IsWalk on.now.faces.now on.now.second.now }
    requires short { length certificate.now ≤ MOST_BYTES }
    ensures { MatchResult result (JudgesSpelt on.now.faces.now on.now.first.now on.now.second.now certificate.now)
        (IsFaultOfSpelling certificate.now) }
{
    let mut reader = CertReader::start(certificate)?;
    match reader.head() {
        CertHead::Moves { peak, .. } => {
            let verdict = judge_moves(alloc, on, reader, peak)?;
            Ok(Judgement::Moves(verdict))
        }
        CertHead::Labels { .. } => {
            let denial = reader.denial(alloc)?;
            let verdict = check_denial(alloc, on.faces, on.sides, on.first, on.second, denial)?;
            Ok(Judgement::Denial(verdict))
        }
    }
}

/// The verdict on the moves that a reader has to give, under this peak. They are judged while they are read, and none is kept. Behind a
/// move that is refused the text is read on to its end, as a line that is no move is refused before.
fn judge_moves(
    alloc: Global,
    on: &Pair<'_>,
    mut reader: CertReader<'_>,
    peak: u32,
) -> Result<Verdict, VerifyFault>
    requires table { IsTableOf on.now.faces.now on.now.sides.now }
    requires list { IsTrue (is_list reader) }
    requires fresh { (reader.given ≡ 0) × (reader.refusal ≡ None) }
    requires peak { peak ≤ MOST_PEAK }
    requires count { count_in reader.head < 2 ^ 64 }
    ensures { MatchResult result (IsVerdictOnMoves on.now.faces.now on.now.first.now on.now.second.now peak (moves_left reader.entry))
        (IsFaultOfMoves (moves_left reader.entry)) }
{
    let mut progress = Progress::start(alloc, on.first, peak)?;
    let mut done = 0;
    'moves: while let Some(mv) = reader.next_move()? {
        progress.step(on, done, mv);
        done += 1;
    }
    Ok(progress.verdict(on.second))
}

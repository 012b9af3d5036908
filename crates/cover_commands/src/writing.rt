//! Writing the cover, or lifts to it, or why there is none.
ghost use Rattle.std.specs.Prelude.{◌≡◌, ◌⊎◌, ◌≤◌, ℕ, List, length, IfSome};
ghost use Rattle.surf_io.specs.Calls.{OnlyReads, WroteAll, WrotePart};
ghost use Rattle.surf_io.specs.Faults.{Rose};
ghost use Rattle.commands.specs.Outcomes.{AnswersTo};
ghost use Rattle.commands.specs.Statuses.{IsAnswered};
ghost use Rattle.commands.specs.declared.status.Status.{Status};
ghost use Rattle.cover_commands.specs.MeshCover.{lifted_walks, lifts_status, lifts_text, mesh_cover, seen_lifts, walk_lines};

use crate::lifting::{Lifts, do_meet, read_lifts};
use crate::reading::read_cover;
use crate::walk_writing::write_walks;
use commands::{Line, Phrase, Reply, Status, Stop, Text, give};
use double_commands::give_mesh;
use std::alloc::Global;
use surf_io::{Shelf, Sink};

/// Writes the cover of the closed manifold in the file `mesh`, or the line of its refusal.
///
/// All reading and all work that takes memory is done before the first byte is written.
pub fn write_cover<S: Shelf, K: Sink>(
    alloc: Global,
    shelf: &mut S,
    out: &mut K,
    mesh: &str,
) -> Status
    // What was answered is the outcome of the check, and is settled.
    ensures answered { IsAnswered result → (text : List ℕ)
        × AnswersTo (S.held shelf.old) (mesh_cover (S.held shelf.old) mesh.now) result text
        × WroteAll K.written out.old out.new text }
    ensures settled { IsAnswered result → IfSome (K.written out.new) (λ bytes. K.settled out.new ≡ length bytes) }

    // Each other status has its cause.
    ensures other { IsAnswered result ⊎ ((result ≡ Status.ReadFault) ⊎ ((result ≡ Status.WriteFault) ⊎ (result ≡ Status.OutOfMemory))) }
    ensures read_fault { result ≡ Status.ReadFault → Rose (S.faults shelf.old) (S.faults shelf.new) }
    ensures unread { result ≡ Status.ReadFault → K.written out.new ≡ K.written out.old }
    ensures memory { result ≡ Status.OutOfMemory → K.written out.new ≡ K.written out.old }
    ensures write_fault { result ≡ Status.WriteFault → (status : Status) × (text : List ℕ)
        × AnswersTo (S.held shelf.old) (mesh_cover (S.held shelf.old) mesh.now) status text
        × WrotePart K.written K.faults out.old out.new text }
    ensures only_reads { OnlyReads S.held S.faults shelf.old shelf.new }
    ensures sink_never_falls { K.faults out.old ≤ K.faults out.new }
{
    match read_cover(alloc, shelf, mesh) {
        Ok(cover) => give_mesh(out, &cover),
        Err(Stop::Refused(text)) => give(out, Reply::Refused(text)),
        Err(Stop::ReadFault) => Status::ReadFault,
        Err(Stop::OutOfMemory) => Status::OutOfMemory,
    }
}

/// Writes the lifts of the two walks in the file `walks` to the cover of the closed manifold in the file `mesh`, which begin on the lower
/// sheet; `different` where they end at two vertices; or the line of a refusal.
///
/// All reading and all work that takes memory is done before the first byte is written.
pub fn write_lifts<S: Shelf, K: Sink>(
    alloc: Global,
    shelf: &mut S,
    out: &mut K,
    mesh: &str,
    walks: &str,
) -> Status
    // What was answered is the outcome of the check, and is settled.
    ensures answered { IsAnswered result → (text : List ℕ)
        × AnswersTo (S.held shelf.old) (lifted_walks (S.held shelf.old) mesh.now walks.now) result text
        × WroteAll K.written out.old out.new text }
    ensures settled { IsAnswered result → IfSome (K.written out.new) (λ bytes. K.settled out.new ≡ length bytes) }

    // Each other status has its cause.
    ensures other { IsAnswered result ⊎ ((result ≡ Status.ReadFault) ⊎ ((result ≡ Status.WriteFault) ⊎ (result ≡ Status.OutOfMemory))) }
    ensures read_fault { result ≡ Status.ReadFault → Rose (S.faults shelf.old) (S.faults shelf.new) }
    ensures unread { result ≡ Status.ReadFault → K.written out.new ≡ K.written out.old }
    ensures memory { result ≡ Status.OutOfMemory → K.written out.new ≡ K.written out.old }
    ensures write_fault { result ≡ Status.WriteFault → (status : Status) × (text : List ℕ)
        × AnswersTo (S.held shelf.old) (lifted_walks (S.held shelf.old) mesh.now walks.now) status text
        × WrotePart K.written K.faults out.old out.new text }
    ensures only_reads { OnlyReads S.held S.faults shelf.old shelf.new }
    ensures sink_never_falls { K.faults out.old ≤ K.faults out.new }
{
    match read_lifts(alloc, shelf, mesh, walks) {
        Ok(lifts) => give_lifts(out, &lifts),
        Err(Stop::Refused(text)) => give(out, Reply::Refused(text)),
        Err(Stop::ReadFault) => Status::ReadFault,
        Err(Stop::OutOfMemory) => Status::OutOfMemory,
    }
}

/// Writes lifts, or that the walks are different, and settles it.
fn give_lifts<K: Sink>(out: &mut K, lifts: &Lifts) -> Status
    ensures either { (result ≡ lifts_status (seen_lifts lifts.now)) ⊎ (result ≡ Status.WriteFault) }
    ensures written { IsAnswered result → WroteAll K.written out.old out.new (lifts_text (seen_lifts lifts.now)) }
    ensures settled { IsAnswered result → IfSome (K.written out.new) (λ bytes. K.settled out.new ≡ length bytes) }
    ensures write_fault { result ≡ Status.WriteFault → WrotePart K.written K.faults out.old out.new (lifts_text (seen_lifts lifts.now)) }
    ensures never_falls { K.faults out.old ≤ K.faults out.new }
{
    if do_meet(lifts) {
        give_walks(out, lifts)
    } else {
        give(
            out,
            Reply::No(Text::Line(Line::of(Phrase::Text("different"), &[]))),
        )
    }
}

/// Writes two walks, and settles them.
fn give_walks<K: Sink>(out: &mut K, lifts: &Lifts) -> Status
    ensures either { (result ≡ Status.Yes) ⊎ (result ≡ Status.WriteFault) }
    ensures written { IsAnswered result → WroteAll K.written out.old out.new (walk_lines (seen_lifts lifts.now)) }
    ensures settled { IsAnswered result → IfSome (K.written out.new) (λ bytes. K.settled out.new ≡ length bytes) }
    ensures write_fault { result ≡ Status.WriteFault → WrotePart K.written K.faults out.old out.new (walk_lines (seen_lifts lifts.now)) }
    ensures never_falls { K.faults out.old ≤ K.faults out.new }
{
    let Ok(()) = write_walks(lifts, out) else {
        return Status::WriteFault;
    };
    let Ok(()) = out.flush() else {
        return Status::WriteFault;
    };
    Status::Yes
}

//! Writing the double, or why there is none.
ghost use Rattle.std.specs.Prelude.{◌≡◌, ◌⊎◌, ◌≤◌, ℕ, List, [], ◌∷◌, codes, length, IfSome};
ghost use Rattle.surf_io.specs.Calls.{OnlyReads, WroteAll, WrotePart};
ghost use Rattle.surf_io.specs.Faults.{Rose};
ghost use Rattle.commands.specs.Lines.{refused};
ghost use Rattle.commands.specs.Outcomes.{AnswersTo};
ghost use Rattle.commands.specs.Statuses.{IsAnswered};
ghost use Rattle.commands.specs.declared.status.Status.{Status};
ghost use Rattle.off_writer.specs.WrittenMeshes.{off_text};
ghost use Rattle.double_commands.specs.MeshDouble.{mesh_double};

use crate::reading::read_double;
use commands::{Line, Phrase, Reply, Status, Stop, Text, give};
use off_writer::write_off;
use std::alloc::Global;
use surf_io::{Shelf, Sink};
use surf_model::Faces;

/// Writes the double of the surface with boundary in the file `name`, or the line of its refusal.
///
/// All reading and all work that takes memory is done before the first byte is written.
pub fn write_double<S: Shelf, K: Sink>(
    alloc: Global,
    shelf: &mut S,
    out: &mut K,
    name: &str,
) -> Status
    // What was answered is the outcome of the check, and is settled.
    ensures answered { IsAnswered result → (text : List ℕ)
        × AnswersTo (S.held shelf.old) (mesh_double (S.held shelf.old) name.now) result text
        × WroteAll K.written out.old out.new text }
    ensures settled { IsAnswered result → IfSome (K.written out.new) (λ bytes. K.settled out.new ≡ length bytes) }

    // Each other status has its cause.
    ensures other { IsAnswered result ⊎ ((result ≡ Status.ReadFault) ⊎ ((result ≡ Status.WriteFault) ⊎ (result ≡ Status.OutOfMemory))) }
    ensures read_fault { result ≡ Status.ReadFault → Rose (S.faults shelf.old) (S.faults shelf.new) }
    ensures unread { result ≡ Status.ReadFault → K.written out.new ≡ K.written out.old }
    ensures memory { result ≡ Status.OutOfMemory → K.written out.new ≡ K.written out.old }
    ensures write_fault { result ≡ Status.WriteFault → (status : Status) × (text : List ℕ)
        × AnswersTo (S.held shelf.old) (mesh_double (S.held shelf.old) name.now) status text
        × WrotePart K.written K.faults out.old out.new text }
    ensures only_reads { OnlyReads S.held S.faults shelf.old shelf.new }
    ensures sink_never_falls { K.faults out.old ≤ K.faults out.new }
{
    match read_double(alloc, shelf, name) {
        Ok(double) => give_mesh(out, &double),
        Err(Stop::Refused(text)) => give(out, Reply::Refused(text)),
        Err(Stop::ReadFault) => Status::ReadFault,
        Err(Stop::OutOfMemory) => Status::OutOfMemory,
    }
}

/// Refuses words that are not one name.
pub fn refuse_words<K: Sink>(out: &mut K) -> Status
    ensures either { (result ≡ Status.Refused) ⊎ (result ≡ Status.WriteFault) }
    ensures written { result ≡ Status.Refused → WroteAll K.written out.old out.new (refused (codes "words" ∷ [])) }
{
    give(
        out,
        Reply::Refused(Text::Line(Line::of(Phrase::Text("refused:"), &[Phrase::Text("words")]))),
    )
}

/// Writes a mesh, and settles it.
pub fn give_mesh<K: Sink>(out: &mut K, mesh: &Faces) -> Status
    ensures either { (result ≡ Status.Yes) ⊎ (result ≡ Status.WriteFault) }
    ensures written { IsAnswered result → WroteAll K.written out.old out.new (off_text mesh.now) }
    ensures settled { IsAnswered result → IfSome (K.written out.new) (λ bytes. K.settled out.new ≡ length bytes) }
    ensures write_fault { result ≡ Status.WriteFault → WrotePart K.written K.faults out.old out.new (off_text mesh.now) }
    ensures never_falls { K.faults out.old ≤ K.faults out.new }
{
    let Ok(()) = write_off(mesh, out) else {
        return Status::WriteFault;
    };
    let Ok(()) = out.flush() else {
        return Status::WriteFault;
    };
    Status::Yes
}

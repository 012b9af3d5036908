//! The top call: from the words of the command line to the answer.
ghost use Rattle.std.specs.Prelude.{◌≡◌, ◌⊎◌, ◌≤◌, ℕ, List, length, IfSome};
ghost use Rattle.surf_io.specs.Calls.{OnlyReads, WroteAll, WrotePart};
ghost use Rattle.surf_io.specs.Faults.{Rose};
ghost use Rattle.program.specs.Outcomes.{Answers, LooksAtNone, answer_of};
ghost use Rattle.commands.specs.Replies.{Runs};
ghost use Rattle.commands.specs.Statuses.{IsAnswered};
ghost use Rattle.commands.specs.Words.{texts};
ghost use Rattle.commands.specs.declared.status.Status.{Status};

use crate::command::{answer, read_command};
use commands::{Phrase, Reply, Status, Stop, give, refused};
use std::alloc::Global;
use surf_io::{Shelf, Sink};

/// Answers the words of the command line: reads the files that they name from the shelf, and writes
/// the answer to the sink.
///
/// All reading and all work that takes memory is done before the first byte is written.
pub fn run<S: Shelf, K: Sink>(
    alloc: Global,
    words: &Vec<String>,
    shelf: &mut S,
    out: &mut K,
) -> Status
    // What was answered is the outcome of the words, and is settled.
    ensures answered { IsAnswered result → (text : List ℕ) × Answers (S.held shelf.old) (texts words.now.items) result text
        × WroteAll K.written out.old out.new text }
    ensures settled { IsAnswered result → IfSome (K.written out.new) (λ bytes. K.settled out.new ≡ length bytes) }

    // Each other status has its cause.
    ensures other { IsAnswered result ⊎ ((result ≡ Status.ReadFault) ⊎ ((result ≡ Status.WriteFault) ⊎ (result ≡ Status.OutOfMemory))) }
    ensures read_fault { result ≡ Status.ReadFault → Rose (S.faults shelf.old) (S.faults shelf.new) }
    ensures unread { result ≡ Status.ReadFault → K.written out.new ≡ K.written out.old }
    ensures memory { result ≡ Status.OutOfMemory → K.written out.new ≡ K.written out.old }
    ensures write_fault { result ≡ Status.WriteFault → (status : Status) × (text : List ℕ)
        × Answers (S.held shelf.old) (texts words.now.items) status text × WrotePart K.written K.faults out.old out.new text }

    // Where no count rose, there is an answer, unless memory was wanting.
    ensures complete { (Rose (S.faults shelf.old) (S.faults shelf.new) → ⊥) → (Rose (K.faults out.old) (K.faults out.new) → ⊥)
        → IsAnswered result ⊎ (result ≡ Status.OutOfMemory) }

    // No file is read where the outcome looks at none.
    ensures shelf_untouched { LooksAtNone (S.held shelf.old) (texts words.now.items) → shelf.new ≡ shelf.old }
    ensures only_reads { OnlyReads S.held S.faults shelf.old shelf.new }
    ensures sink_never_falls { K.faults out.old ≤ K.faults out.new }
{
    let reply = match find_answer(alloc, words, shelf) {
        Ok(reply) => reply,
        Err(Stop::Refused(text)) => Reply::Refused(text),
        Err(Stop::ReadFault) => return Status::ReadFault,
        Err(Stop::OutOfMemory) => return Status::OutOfMemory,
    };
    give(out, reply)
}

/// What is to be written as the answer, unless something stops the command.
fn find_answer<S: Shelf>(alloc: Global, words: &Vec<String>, shelf: &mut S) -> Result<Reply, Stop>
    ensures { Runs S.held S.faults shelf.old shelf.new (λ files. answer_of files (texts words.now.items)) result }
{
    let Some(command) = read_command(words) else {
        return Err(refused(&[Phrase::Text("words")]));
    };
    answer(alloc, shelf, command)
}

//! Writing decisions, each on a line.
ghost use Rattle.commands.specs.Certificates.{decision_lines};
ghost use Rattle.commands.specs.Writes.{Writes};

use crate::decision::word_of;
use surf_io::{Failed, Piece, Sink};
use surf_model::Answer;

/// Writes a line for each decision. It takes no memory.
pub fn put_decisions<K: Sink>(out: &mut K, decisions: &[Answer]) -> Result<(), Failed>
    ensures { Writes K.written K.settled K.faults out.old out.new (decision_lines decisions.now) result }
{
    let mut piece = Piece::new();
    for decision in decisions {
        piece.put_line(word_of(*decision).as_bytes(), &[], out)?;
    }
    piece.write_out(out)
}

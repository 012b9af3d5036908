//! Writing two walks as a walk file.
ghost use Rattle.std.specs.Prelude.{◌≡◌, ◌≤◌, flat_map, drop, OnOk, OnErr};
ghost use Rattle.surf_io.specs.Bytes.{Appends, AppendsPrefix};
ghost use Rattle.surf_io.specs.Faults.{Rose};
ghost use Rattle.surf_io.specs.Gathered.{Puts, spaced_number};
ghost use Rattle.cover_commands.specs.MeshCover.{seen_lifts, walk_line, walk_lines};

use crate::lifting::Lifts;
use surf_io::{Failed, Piece, Sink};
use surf_model::Walk;

/// Writes the text of two walks, a line each. After a failure a first part of it was written. It takes no memory.
pub(crate) fn write_walks<K: Sink>(lifts: &Lifts, sink: &mut K) -> Result<(), Failed>
    ensures ok { OnOk result (Appends (K.written sink.old) (K.written sink.new) (walk_lines (seen_lifts lifts.now))) }
    ensures failed { OnErr result (AppendsPrefix (K.written sink.old) (K.written sink.new) (walk_lines (seen_lifts lifts.now))) }
    ensures failed_only_on_fault { OnErr result (Rose (K.faults sink.old) (K.faults sink.new)) }
    ensures never_falls { K.faults sink.old ≤ K.faults sink.new }
    ensures same_settled { K.settled sink.new ≡ K.settled sink.old }
{
    let mut piece = Piece::new();
    put_walks(lifts, &mut piece, sink)?;
    piece.write_out(sink)
}

/// Puts the lines of two walks.
fn put_walks<K: Sink>(lifts: &Lifts, piece: &mut Piece, sink: &mut K) -> Result<(), Failed>
    ensures { Puts K.written K.settled K.faults result sink.old sink.new piece.old piece.new (walk_lines (seen_lifts lifts.now)) }
{
    put_walk(&lifts.first, piece, sink)?;
    put_walk(&lifts.second, piece, sink)
}

/// Puts the line of a walk.
fn put_walk<K: Sink>(walk: &Walk, piece: &mut Piece, sink: &mut K) -> Result<(), Failed>
    ensures { Puts K.written K.settled K.faults result sink.old sink.new piece.old piece.new (walk_line walk.now) }
{
    // The proof reads what holds of every walk.
    let _ = walk.darts();
    piece.make_room(Piece::WORD, sink)?;
    piece.put_natural(u64::from(walk.at(0).0));
    put_rest(walk, piece, sink)?;
    piece.end_line(sink)
}

/// Puts the vertices of a walk behind the first, each behind a blank.
fn put_rest<K: Sink>(walk: &Walk, piece: &mut Piece, sink: &mut K) -> Result<(), Failed>
    ensures { Puts K.written K.settled K.faults result sink.old sink.new piece.old piece.new (flat_map spaced_number (drop 1 walk.now)) }
{
    for place in 0..walk.darts() {
        piece.put_behind(walk.at(place + 1).0, sink)?;
    }
    Ok(())
}

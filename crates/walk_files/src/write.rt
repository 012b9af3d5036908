//! Writing lists of moves.
ghost use Rattle.std.specs.Prelude.{◌≡◌, ℕ, ◌+◌, ◌*◌, ◌≤◌, Bool, List, [], ◌∷◌, ◌++◌, length, OnOk, OnErr, Some, Ok, decimal};
ghost use Rattle.text_scan.specs.Plain.{line_of};
ghost use Rattle.surf_io.specs.Faults.{Rose};
ghost use Rattle.surf_io.specs.Bytes.{Appends, AppendsPrefix};
ghost use Rattle.surf_io.specs.Gathered.{Puts};
ghost use Rattle.walk_files.specs.declared.limits.TheConstants.{MOST_PEAK};
ghost use Rattle.walk_files.specs.Certificates.{list_of_text};
ghost use Rattle.walk_files.specs.MoveTexts.{direction_word, move_words, head_words, list_text, MoveFits, FitsFormat};

use surf_io::{Failed, Piece, Sink};
use surf_model::{Move, MoveList, VertexName};

/// Room for any line: six words, of which four are numbers of 32 bits, or two of 64.
const LINE_ROOM: usize = 128;

/// Writes the text of the list. After a failure a first part of it was written. It takes no memory.
pub fn write_moves<K: Sink>(list: &MoveList, sink: &mut K) -> Result<(), Failed>
    ensures ok { OnOk result (Appends (K.written sink.old) (K.written sink.new) (list_text list.now)) }
    ensures failed { OnErr result (AppendsPrefix (K.written sink.old) (K.written sink.new) (list_text list.now)) }
    ensures failed_only_on_fault { OnErr result (Rose (K.faults sink.old) (K.faults sink.new)) }
    ensures never_falls { K.faults sink.old ≤ K.faults sink.new }
    ensures same_settled { K.settled sink.new ≡ K.settled sink.old }
    // What was written reads back, where its peak is one that is read.
    ensures reads_back { OnOk result (list.now.peak ≤ MOST_PEAK → list_of_text (list_text list.now) ≡ Some (Ok list.now)) }
{
    let mut piece = Piece::new();
    put_list(list, &mut piece, sink)?;
    piece.write_out(sink)
}

/// Puts the text of the list into a piece that has no bytes.
fn put_list<K: Sink>(list: &MoveList, piece: &mut Piece, sink: &mut K) -> Result<(), Failed>
    requires { piece.old ≡ [] }
    ensures puts { Puts K.written K.settled K.faults result sink.old sink.new piece.old piece.new (list_text list.now) }
    // What holds of every list, move by move.
    ensures fits { OnOk result (list.now.peak ≤ MOST_PEAK → FitsFormat list.now) }
{
    put_head(piece, list);
    for k in 0..list.len() {
        piece.make_room(LINE_ROOM, sink)?;
        put_move(piece, list.at(k));
    }
    Ok(())
}

/// Puts the line of the head.
fn put_head(piece: &mut Piece, list: &MoveList)
    requires { piece.old ≡ [] }
    ensures { piece.new ≡ line_of (head_words list.now) }
{
    piece.put(b"MOVES ");
    piece.put_natural(list.len());
    piece.put(b" ");
    piece.put_natural(u64::from(list.peak()));
    piece.put(b"\n");
}

/// Puts the line of a move.
fn put_move(piece: &mut Piece, mv: Move)
    requires { length piece.old + LINE_ROOM ≤ Piece.ROOM }
    ensures put { piece.new ≡ piece.old ++ line_of (move_words mv) }
    // What holds of every move.
    ensures fits { MoveFits mv }
{
    match mv {
        Move::Insert { at, via } => {
            piece.put(b"+ ");
            put_spur(piece, at, via);
        }
        Move::Remove { at, via } => {
            piece.put(b"- ");
            put_spur(piece, at, via);
        }
        Move::Across {
            at,
            face,
            corner,
            forward,
            taken,
        } => {
            piece.put(b"f ");
            put_number(piece, at);
            put_number(piece, face.0);
            put_number(piece, corner);
            piece.put(if forward { b"+ " } else { b"- " });
            piece.put_natural(u64::from(taken));
            piece.put(b"\n");
        }
    }
}

/// Puts the end of the line of a spur.
fn put_spur(piece: &mut Piece, at: u32, via: VertexName)
    requires { length piece.old + 2 * (Piece.DIGITS + 1) ≤ Piece.ROOM }
    ensures { piece.new ≡ piece.old ++ line_of (decimal at ∷ decimal via.0 ∷ []) }
{
    put_number(piece, at);
    piece.put_natural(u64::from(via.0));
    piece.put(b"\n");
}

/// Puts a number and the blank behind it.
fn put_number(piece: &mut Piece, n: u32)
    requires { length piece.old + Piece.DIGITS + 1 ≤ Piece.ROOM }
    ensures put { piece.new ≡ piece.old ++ (decimal n ++ 32 ∷ []) }
    ensures short { length piece.new ≤ length piece.old + Piece.DIGITS + 1 }
{
    piece.put_natural(u64::from(n));
    piece.put(b" ");
}

//! Writing a mesh.
ghost use Rattle.std.specs.Prelude.{◌≡◌, ◌≤◌, [], ◌++◌, Ok, length, map, flat_map, replicate, OnOk, OnErr};
ghost use Rattle.text_scan.specs.Plain.{line_of};
ghost use Rattle.surf_io.specs.Bytes.{Appends, AppendsPrefix};
ghost use Rattle.surf_io.specs.Faults.{Rose};
ghost use Rattle.surf_io.specs.Gathered.{Puts, spaced_number};
ghost use Rattle.surf_model.specs.Vertices.{numbers};
ghost use Rattle.off_reader.specs.OffTexts.{meaning_of};
ghost use Rattle.off_writer.specs.Parts.{head_text};
ghost use Rattle.off_writer.specs.WrittenMeshes.{off_text, point_words, ring_words};

use surf_io::{Failed, Piece, Sink};
use surf_model::{FaceName, Faces, VertexName};

/// Writes the text of a mesh. After a failure a first part of it was written. It takes no memory.
pub fn write_off<K: Sink>(faces: &Faces, sink: &mut K) -> Result<(), Failed>
    ensures ok { OnOk result (Appends (K.written sink.old) (K.written sink.new) (off_text faces.now)) }
    ensures failed { OnErr result (AppendsPrefix (K.written sink.old) (K.written sink.new) (off_text faces.now)) }
    ensures failed_only_on_fault { OnErr result (Rose (K.faults sink.old) (K.faults sink.new)) }
    ensures never_falls { K.faults sink.old ≤ K.faults sink.new }
    ensures same_settled { K.settled sink.new ≡ K.settled sink.old }
    // What was written reads back.
    ensures reads_back { OnOk result (meaning_of (off_text faces.now) ≡ Ok faces.now) }
{
    let mut piece = Piece::new();
    put_mesh(faces, &mut piece, sink)?;
    piece.write_out(sink)
}

/// Puts the text of a mesh into a piece that has no bytes.
fn put_mesh<K: Sink>(faces: &Faces, piece: &mut Piece, sink: &mut K) -> Result<(), Failed>
    requires { piece.old ≡ [] }
    ensures puts { Puts K.written K.settled K.faults result sink.old sink.new piece.old piece.new (off_text faces.now) }
    // What holds of every face list: its text reads back.
    ensures reads_back { meaning_of (off_text faces.now) ≡ Ok faces.now }
{
    put_head(faces, piece);
    put_points(faces.count(), piece, sink)?;
    put_rings(faces, piece, sink)
}

/// Puts the keyword and the counts.
fn put_head(faces: &Faces, piece: &mut Piece)
    requires { piece.old ≡ [] }
    ensures { piece.new ≡ head_text faces.now }
{
    piece.put(b"OFF\n");
    piece.put_natural(u64::from(faces.count()));
    piece.put(b" ");
    piece.put_natural(u64::from(faces.len()));
    piece.put(b" 0\n");
}

/// Puts the points of so many vertices.
fn put_points<K: Sink>(count: u32, piece: &mut Piece, sink: &mut K) -> Result<(), Failed>
    ensures { Puts K.written K.settled K.faults result sink.old sink.new piece.old piece.new
        (flat_map line_of (replicate count point_words)) }
{
    for _ in 0..count {
        piece.make_room(Piece::WORD, sink)?;
        piece.put(b"0 0 0\n");
    }
    Ok(())
}

/// Puts the lines of the faces.
fn put_rings<K: Sink>(faces: &Faces, piece: &mut Piece, sink: &mut K) -> Result<(), Failed>
    ensures { Puts K.written K.settled K.faults result sink.old sink.new piece.old piece.new
        (flat_map line_of (map ring_words faces.now.faces)) }
{
    for face in 0..faces.len() {
        put_ring(faces.ring(FaceName(face)), piece, sink)?;
    }
    Ok(())
}

/// Puts the line of a face.
fn put_ring<K: Sink>(ring: &[VertexName], piece: &mut Piece, sink: &mut K) -> Result<(), Failed>
    ensures { Puts K.written K.settled K.faults result sink.old sink.new piece.old piece.new (line_of (ring_words (numbers ring.now))) }
{
    piece.make_room(Piece::WORD, sink)?;
    piece.put_natural(ring.len() as u64);
    put_corners(ring, piece, sink)?;
    piece.end_line(sink)
}

/// Puts the corners of a face, each behind a blank.
fn put_corners<K: Sink>(ring: &[VertexName], piece: &mut Piece, sink: &mut K) -> Result<(), Failed>
    ensures { Puts K.written K.settled K.faults result sink.old sink.new piece.old piece.new (flat_map spaced_number (numbers ring.now)) }
{
    for corner in ring {
        piece.put_behind(corner.0, sink)?;
    }
    Ok(())
}

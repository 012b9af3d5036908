//! Writing certificates.
ghost use Rattle.std.specs.Prelude.{◌≡◌, ◌+◌, ◌≤◌, [], ◌∷◌, ◌++◌, length, OnOk, OnErr, Ok, All, decimal, map, flat_map, codes};
ghost use Rattle.text_scan.specs.Plain.{line_of};
ghost use Rattle.surf_io.specs.Faults.{Rose};
ghost use Rattle.surf_io.specs.Bytes.{Appends, AppendsPrefix};
ghost use Rattle.surf_io.specs.Gathered.{Puts};
ghost use Rattle.homology.specs.Certificates.{AreFaceNumbers, AreEdgeNumbers};
ghost use Rattle.homology.specs.declared.certificate.HomologyCert.TheVariants.{Chain, Cocycle};
ghost use Rattle.homology_files.specs.HomologyTexts.{cert_of_text};
ghost use Rattle.homology_files.specs.WrittenTexts.{face_number_words, edge_words, cert_text, FaceFits, EdgeFits, FitsHomologyFormat};

use homology::{ChainNumbers, CocycleNumbers, EdgeNumber, FaceNumber, HomologyCert};
use surf_io::{Failed, Piece, Sink};

/// Room for any line: three words, which are two numbers of 32 bits and one of 64.
const LINE_ROOM: usize = 128;

/// Writes the text of a certificate, which begins at its head. After a failure a first part of it was written. It takes no
/// memory.
pub fn write_homology<K: Sink>(certificate: &HomologyCert, sink: &mut K) -> Result<(), Failed>
    ensures ok { OnOk result (Appends (K.written sink.old) (K.written sink.new) (cert_text certificate.now)) }
    ensures failed { OnErr result (AppendsPrefix (K.written sink.old) (K.written sink.new) (cert_text certificate.now)) }
    ensures failed_only_on_fault { OnErr result (Rose (K.faults sink.old) (K.faults sink.new)) }
    ensures never_falls { K.faults sink.old ≤ K.faults sink.new }
    ensures same_settled { K.settled sink.new ≡ K.settled sink.old }
    // What was written reads back.
    ensures reads_back { OnOk result (cert_of_text (cert_text certificate.now) ≡ Ok certificate.now) }
{
    let mut piece = Piece::new();
    put_certificate(certificate, &mut piece, sink)?;
    piece.write_out(sink)
}

/// Puts the text of a certificate into a piece that has no bytes.
fn put_certificate<K: Sink>(
    certificate: &HomologyCert,
    piece: &mut Piece,
    sink: &mut K,
) -> Result<(), Failed>
    requires { piece.old ≡ [] }
    ensures puts { Puts K.written K.settled K.faults result sink.old sink.new piece.old piece.new (cert_text certificate.now) }
    // What holds of every certificate, line by line.
    ensures fits { OnOk result (FitsHomologyFormat certificate.now) }
{
    match certificate {
        HomologyCert::Chain(numbers) => put_chain(numbers, piece, sink),
        HomologyCert::Cocycle(numbers) => put_cocycle(numbers, piece, sink),
    }
}

/// Puts the text of a chain into a piece that has no bytes.
fn put_chain<K: Sink>(numbers: &ChainNumbers, piece: &mut Piece, sink: &mut K) -> Result<(), Failed>
    requires { piece.old ≡ [] }
    ensures puts { Puts K.written K.settled K.faults result sink.old sink.new piece.old piece.new (cert_text (Chain numbers.now)) }
    // What holds of every chain, line by line.
    ensures fits { OnOk result (FitsHomologyFormat (Chain numbers.now)) }
{
    put_head(piece, b"CHAIN", numbers.len());
    for k in 0..numbers.len() {
        piece.make_room(LINE_ROOM, sink)?;
        put_face(piece, numbers.at(k));
    }
    Ok(())
}

/// Puts the text of a cocycle into a piece that has no bytes.
fn put_cocycle<K: Sink>(
    numbers: &CocycleNumbers,
    piece: &mut Piece,
    sink: &mut K,
) -> Result<(), Failed>
    requires { piece.old ≡ [] }
    ensures puts { Puts K.written K.settled K.faults result sink.old sink.new piece.old piece.new (cert_text (Cocycle numbers.now)) }
    // What holds of every cocycle, line by line.
    ensures fits { OnOk result (FitsHomologyFormat (Cocycle numbers.now)) }
{
    put_head(piece, b"COCYCLE", numbers.len());
    for k in 0..numbers.len() {
        piece.make_room(LINE_ROOM, sink)?;
        put_edge(piece, numbers.at(k));
    }
    Ok(())
}

/// Puts the line of a head.
fn put_head(piece: &mut Piece, keyword: &[u8], count: u32)
    requires new { piece.old ≡ [] }
    requires short { length keyword.now ≤ LINE_ROOM }
    ensures { piece.new ≡ line_of (keyword.now ∷ decimal count ∷ []) }
{
    piece.put(keyword);
    piece.put(b" ");
    piece.put_natural(u64::from(count));
    piece.put(b"\n");
}

/// Puts the line of the number of a face.
fn put_face(piece: &mut Piece, line: FaceNumber)
    requires { length piece.old + LINE_ROOM ≤ Piece.ROOM }
    ensures put { piece.new ≡ piece.old ++ line_of (face_number_words line) }
    // What holds of every name of a face.
    ensures fits { FaceFits line }
{
    piece.put_natural(u64::from(line.face.0));
    piece.put(b" ");
    piece.put_signed(line.number);
    piece.put(b"\n");
}

/// Puts the line of the number of an edge.
fn put_edge(piece: &mut Piece, line: EdgeNumber)
    requires { length piece.old + LINE_ROOM ≤ Piece.ROOM }
    ensures put { piece.new ≡ piece.old ++ line_of (edge_words line) }
    // What holds of every name of a vertex.
    ensures fits { EdgeFits line }
{
    piece.put_natural(u64::from(line.low.0));
    piece.put(b" ");
    piece.put_natural(u64::from(line.high.0));
    piece.put(b" ");
    piece.put_signed(line.number);
    piece.put(b"\n");
}

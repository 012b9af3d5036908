//! Writing that a mesh has an odd chain.
ghost use Rattle.std.specs.Prelude.{flat_map};
ghost use Rattle.surf_io.specs.Gathered.{Puts};
ghost use Rattle.commands.specs.Writes.{Writes};
ghost use Rattle.commands.specs.Lines.{behind_blank, link_phrases, odd_chain_line};

use surf_io::{Failed, Piece, Sink};
use surf_model::{ChainLink, OddChain};

/// Writes the line of an odd chain. The links are gathered, so that a long chain takes few calls of the sink.
pub fn put_odd_chain<K: Sink>(out: &mut K, chain: &OddChain) -> Result<(), Failed>
    ensures { Writes K.written K.settled K.faults out.old out.new (odd_chain_line chain.now) result }
{
    let mut piece = Piece::new();
    put_line(&mut piece, chain, out)?;
    piece.write_out(out)
}

/// Puts the line of an odd chain.
fn put_line<K: Sink>(piece: &mut Piece, chain: &OddChain, out: &mut K) -> Result<(), Failed>
    ensures { Puts K.written K.settled K.faults result out.old out.new piece.old piece.new (odd_chain_line chain.now) }
{
    piece.make_room(Piece::WORD, out)?;
    piece.put(b"refused: not orientable");
    put_links(piece, chain, out)?;
    piece.end_line(out)
}

/// Puts the links of an odd chain.
fn put_links<K: Sink>(piece: &mut Piece, chain: &OddChain, out: &mut K) -> Result<(), Failed>
    ensures { Puts K.written K.settled K.faults result out.old out.new piece.old piece.new
        (flat_map (λ link. flat_map behind_blank (link_phrases link)) chain.now) }
{
    for k in 0..chain.len() {
        put_link(piece, chain.at(k), out)?;
    }
    Ok(())
}

/// Puts a link: its face, and the two vertices of its edge.
fn put_link<K: Sink>(piece: &mut Piece, link: ChainLink, out: &mut K) -> Result<(), Failed>
    ensures { Puts K.written K.settled K.faults result out.old out.new piece.old piece.new
        (flat_map behind_blank (link_phrases link)) }
{
    piece.put_behind(link.face.0, out)?;
    piece.put_behind(link.low.0, out)?;
    piece.put_behind(link.high.0, out)
}

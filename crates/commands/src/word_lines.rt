//! Writing turn words, each on a line.
ghost use Rattle.commands.specs.WordTexts.{words_text};
ghost use Rattle.commands.specs.Writes.{Writes};

use surf_io::{Failed, Piece, Sink};
use turn_words::TurnWord;
use walk_files::put_turns;

/// Writes a line for each word. It takes no memory.
pub fn put_words<K: Sink>(out: &mut K, words: &Vec<TurnWord>) -> Result<(), Failed>
    ensures { Writes K.written K.settled K.faults out.old out.new (words_text words.now.items) result }
{
    let mut piece = Piece::new();
    for word in words {
        put_turns(word, &mut piece, out)?;
    }
    piece.write_out(out)
}

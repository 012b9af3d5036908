//! Lines of words and numbers, put into a piece one after another.
ghost use Rattle.std.specs.Prelude.{◌≤◌, [], ◌∷◌, length, map, flat_map, decimal};
ghost use Rattle.surf_io.specs.Gathered.{Puts, spaced_number};
ghost use Rattle.text_scan.specs.Plain.{line_of};

use crate::faults::Failed;
use crate::piece::Piece;
use crate::sink::Sink;

impl Piece {
    /// The room for what is put at once: a word, or a blank and a number.
    pub const WORD: usize = 32;

    /// Puts a line: a word, and numbers behind it. What has no room is written out.
    pub fn put_line<K: Sink>(
        &mut self,
        word: &[u8],
        numbers: &[u32],
        sink: &mut K,
    ) -> Result<(), Failed>
        requires { length word.now ≤ Piece.WORD }
        ensures { Puts K.written K.settled K.faults result sink.old sink.new self.old self.new
            (line_of (word.now ∷ map decimal numbers.now)) }
    {
        self.make_room(Piece::WORD, sink)?;
        self.put(word);
        self.put_numbers(numbers, sink)?;
        self.end_line(sink)
    }

    // Puts numbers, each behind a blank.
    fn put_numbers<K: Sink>(&mut self, numbers: &[u32], sink: &mut K) -> Result<(), Failed>
        ensures { Puts K.written K.settled K.faults result sink.old sink.new self.old self.new (flat_map spaced_number numbers.now) }
    {
        for number in numbers {
            self.put_behind(*number, sink)?;
        }
        Ok(())
    }

    /// Puts a number behind a blank. What has no room is written out.
    pub fn put_behind<K: Sink>(&mut self, number: u32, sink: &mut K) -> Result<(), Failed>
        ensures { Puts K.written K.settled K.faults result sink.old sink.new self.old self.new (spaced_number number) }
    {
        self.make_room(Piece::WORD, sink)?;
        self.put(b" ");
        self.put_natural(u64::from(number));
        Ok(())
    }

    /// Puts the end of a line. What has no room is written out.
    pub fn end_line<K: Sink>(&mut self, sink: &mut K) -> Result<(), Failed>
        ensures { Puts K.written K.settled K.faults result sink.old sink.new self.old self.new (10 ∷ []) }
    {
        self.make_room(Piece::WORD, sink)?;
        self.put(b"\n");
        Ok(())
    }
}

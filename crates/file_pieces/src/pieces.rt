//! Reading a file piece by piece.
ghost use Rattle.std.specs.Prelude.{◌≡◌, ℕ, ◌+◌, ◌^◌, ◌<◌, ◌≤◌, ◌⊎◌, true, false, List, [], ◌∷◌, ◌++◌, length, drop, Ok, Some, IfOk, OnOk, OnErr, IfSome, MatchOption, IsTrue, slice_get};
ghost use Rattle.std.specs.Bool.{OnTrue};
ghost use Rattle.text_scan.specs.Lines.{is_filled};
ghost use Rattle.surf_io.specs.Calls.{OnlyReads};
ghost use Rattle.surf_io.specs.Faults.{Rose};
ghost use Rattle.surf_io.specs.Files.{file_of};

use crate::fault::{GatherFault, PieceFault};
use std::alloc::{AllocError, Global};
use std::marker::Model;
use surf_io::Shelf;

/// How many bytes are read at once.
const PIECE: usize = 65_536;

/// A file that is read in pieces. The shelf and the name are handed to each call.
#[derive(Drop)]
pub struct Pieces {
    piece: Vec<u8>,
    /// How many bytes of the file lie before the piece.
    before: u64,
    /// How many bytes of the piece were looked at.
    at: usize,
    /// How many bytes of the piece are the file's.
    filled: usize,
    limit: u64,
    ended: bool,
}

impl Model for Pieces {
    ghost use Rattle.std.specs.Prelude.{◌≡◌, ◌+◌, ◌-◌, ◌^◌, ◌<◌, ◌≤◌, true, take, drop, vec_len};
    ghost use Rattle.file_pieces.specs.Reading.{Reading};
    ghost use Rattle.file_pieces.specs.declared.pieces.TheConstants.{PIECE};

    ghost Value = { Reading };

    ghost view = { λ a. record {
      limit = a.limit;
      place = a.before + a.at;
      kept = take (a.filled - a.at) (drop a.at a.piece.items);
      ended = a.ended;
    } };

    ghost invariant = { λ a. (a.at ≤ a.filled) × (a.filled ≤ vec_len a.piece) × (vec_len a.piece ≡ PIECE)
        × (a.before + a.filled ≤ a.limit) × (a.limit < 2 ^ 32) × (a.ended ≡ true → a.at ≡ a.filled) };
}

impl Pieces {
    ghost use Rattle.file_pieces.specs.Reading.{Reading, Reads, bytes_left, read_so_far};

    /// A place before the first byte of a file of at most `limit` bytes.
    pub fn new(alloc: Global, limit: u64) -> Result<Pieces, AllocError>
        requires { limit < 2 ^ 32 }
        ensures { IfOk result (λ pieces. pieces ≡ record { limit = limit; place = 0; kept = []; ended = false }) }
    {
        let mut piece = Vec::new(alloc);
        piece.resize(PIECE, 0)?;
        Ok(Pieces {
            piece,
            before: 0,
            at: 0,
            filled: 0,
            limit,
            ended: false,
        })
    }

    /// How many bytes were looked at.
    pub fn place(&self) -> u64
        ensures place { result ≡ self.now.place }
        // What holds of every reading.
        ensures within { read_so_far self.now ≤ self.now.limit }
        ensures limit { self.now.limit < 2 ^ 32 }
    {
        self.before + self.at as u64
    }

    /// The next byte, and goes past it. `None` at the end of the file.
    #[inline(always)]
    pub fn next<S: Shelf>(&mut self, shelf: &mut S, name: &str) -> Result<Option<u8>, PieceFault>
        ensures byte { IfOk result (λ byte. IfSome (file_of (S.held shelf.old) name.now) (λ file. Reads self.old file →
            Reads self.new file × MatchOption byte (bytes_left self.old file ≡ [])
            (λ b. bytes_left self.old file ≡ b ∷ bytes_left self.new file))) }
        ensures place { IfOk result (λ byte. MatchOption byte
            ((self.new.place ≡ self.old.place) × (self.new.kept ≡ []) × (self.new.ended ≡ true))
            (λ _. self.new.place ≡ self.old.place + 1)) }
        ensures later { self.old.place ≤ self.new.place }
        // Nothing is read while a byte is kept.
        ensures lazy { IsTrue (is_filled self.old.kept) → OnOk result ((shelf.new ≡ shelf.old)
            × (self.new ≡ record self.old { place = self.old.place + 1; kept = drop 1 self.old.kept })) }
        ensures failed { result ≡ Err PieceFault.Failed → Rose (S.faults shelf.old) (S.faults shelf.new) }
        ensures too_large { result ≡ Err PieceFault.TooLarge → IfSome (file_of (S.held shelf.old) name.now)
            (λ file. Reads self.old file → self.old.limit < length file) }
        ensures within { read_so_far self.new ≤ self.new.limit }
        ensures small { self.new.limit < 2 ^ 32 }
        ensures limit { self.new.limit ≡ self.old.limit }
        ensures only_reads { OnlyReads S.held S.faults shelf.old shelf.new }
    {
        self.have_byte(shelf, name)?;
        Ok(self.pop())
    }

    /// The next byte, which stays to be looked at. `None` at the end of the file.
    pub fn peek<S: Shelf>(&mut self, shelf: &mut S, name: &str) -> Result<Option<u8>, PieceFault>
        ensures byte { IfOk result (λ byte. IfSome (file_of (S.held shelf.old) name.now) (λ file. Reads self.old file →
            Reads self.new file × (byte ≡ slice_get (bytes_left self.old file) 0))) }
        ensures kept { IfOk result (λ byte. byte ≡ slice_get self.new.kept 0) }
        ensures place { self.new.place ≡ self.old.place }
        // Nothing is read while a byte is kept.
        ensures lazy { IsTrue (is_filled self.old.kept) → OnOk result ((shelf.new ≡ shelf.old) × (self.new ≡ self.old)) }
        ensures failed { result ≡ Err PieceFault.Failed → Rose (S.faults shelf.old) (S.faults shelf.new) }
        ensures too_large { result ≡ Err PieceFault.TooLarge → IfSome (file_of (S.held shelf.old) name.now)
            (λ file. Reads self.old file → self.old.limit < length file) }
        ensures within { read_so_far self.new ≤ self.new.limit }
        ensures limit { self.new.limit ≡ self.old.limit }
        ensures only_reads { OnlyReads S.held S.faults shelf.old shelf.new }
    {
        self.have_byte(shelf, name)?;
        Ok(self.kept().first().copied())
    }

    /// Passes over the rest of the file.
    pub fn pass_rest<S: Shelf>(&mut self, shelf: &mut S, name: &str) -> Result<(), PieceFault>
        ensures file { OnOk result (IfSome (file_of (S.held shelf.old) name.now) (λ file. Reads self.old file → Reads self.new file)) }
        ensures ended { OnOk result ((self.new.ended ≡ true) × (self.new.kept ≡ [])) }
        ensures later { self.old.place ≤ self.new.place }
        ensures failed { result ≡ Err PieceFault.Failed → Rose (S.faults shelf.old) (S.faults shelf.new) }
        ensures too_large { result ≡ Err PieceFault.TooLarge → IfSome (file_of (S.held shelf.old) name.now)
            (λ file. Reads self.old file → self.old.limit < length file) }
        ensures within { OnOk result (self.new.place ≤ self.new.limit) }
        ensures limit { self.new.limit ≡ self.old.limit }
        ensures only_reads { OnlyReads S.held S.faults shelf.old shelf.new }
    {
        while !self.has_ended() {
            self.pass_kept();
            self.read_piece(shelf, name)?;
        }
        Ok(())
    }

    /// Puts the rest of the file behind the bytes of `into`.
    pub fn gather_rest<S: Shelf>(
        &mut self,
        shelf: &mut S,
        name: &str,
        into: &mut Vec<u8>,
    ) -> Result<(), GatherFault>
        ensures file { OnOk result (IfSome (file_of (S.held shelf.old) name.now) (λ file. Reads self.old file →
            Reads self.new file × (into.new.items ≡ into.old.items ++ bytes_left self.old file))) }
        ensures ended { OnOk result ((self.new.ended ≡ true) × (self.new.kept ≡ [])) }
        ensures count { OnOk result (self.old.place + length into.new.items ≡ self.new.place + length into.old.items) }
        ensures later { self.old.place ≤ self.new.place }
        ensures failed { result ≡ Err (GatherFault.Piece PieceFault.Failed) → Rose (S.faults shelf.old) (S.faults shelf.new) }
        ensures too_large { result ≡ Err (GatherFault.Piece PieceFault.TooLarge) → IfSome (file_of (S.held shelf.old) name.now)
            (λ file. Reads self.old file → self.old.limit < length file) }
        ensures within { OnOk result (self.new.place ≤ self.new.limit) }
        ensures limit { self.new.limit ≡ self.old.limit }
        ensures only_reads { OnlyReads S.held S.faults shelf.old shelf.new }
    {
        while !self.has_ended() {
            let Ok(()) = into.extend_from_slice(self.kept()) else {
                return Err(GatherFault::OutOfMemory);
            };
            self.pass_kept();
            if let Err(fault) = self.read_piece(shelf, name) {
                return Err(GatherFault::Piece(fault));
            }
        }
        Ok(())
    }

    /// The bytes that were read and not looked at yet.
    #[inline(always)]
    pub fn kept(&self) -> &[u8]
        ensures { result.now ≡ self.now.kept }
    {
        &self.piece[self.at..self.filled]
    }

    /// Goes past so many of them.
    #[inline(always)]
    pub fn pass(&mut self, count: usize)
        requires { count ≤ length self.old.kept }
        ensures kept { self.new ≡ record self.old { place = self.old.place + count; kept = drop count self.old.kept } }
        ensures within { read_so_far self.new ≤ self.new.limit }
        ensures small { self.new.limit < 2 ^ 32 }
    {
        self.at += count;
    }

    /// Passes over them.
    fn pass_kept(&mut self)
        ensures kept { self.new ≡ record self.old { place = read_so_far self.old; kept = [] } }
        ensures within { read_so_far self.new ≤ self.new.limit }
    {
        self.at = self.filled;
    }

    /// Whether the file is known to have no further byte.
    fn has_ended(&self) -> bool
        ensures ended { result ≡ self.now.ended }
        ensures kept { OnTrue result (self.now.kept ≡ []) }
        ensures within { read_so_far self.now ≤ self.now.limit }
    {
        self.ended
    }

    /// Reads the next piece where no byte is kept, so that one is kept then, unless the file has ended.
    #[inline(always)]
    fn have_byte<S: Shelf>(&mut self, shelf: &mut S, name: &str) -> Result<(), PieceFault>
        ensures file { OnOk result (IfSome (file_of (S.held shelf.old) name.now) (λ file. Reads self.old file → Reads self.new file)) }
        ensures more { OnOk result (((self.new.ended ≡ true) × (self.new.kept ≡ [])) ⊎ (0 < length self.new.kept)) }
        ensures place { self.new.place ≡ self.old.place }
        ensures lazy { IsTrue (is_filled self.old.kept) → OnOk result ((shelf.new ≡ shelf.old) × (self.new ≡ self.old)) }
        ensures failed { result ≡ Err PieceFault.Failed → Rose (S.faults shelf.old) (S.faults shelf.new) }
        ensures too_large { result ≡ Err PieceFault.TooLarge → IfSome (file_of (S.held shelf.old) name.now)
            (λ file. Reads self.old file → self.old.limit < length file) }
        ensures within { read_so_far self.new ≤ self.new.limit }
        ensures small { self.new.limit < 2 ^ 32 }
        ensures limit { self.new.limit ≡ self.old.limit }
        ensures only_reads { OnlyReads S.held S.faults shelf.old shelf.new }
    {
        if self.at == self.filled {
            self.read_piece(shelf, name)?;
        }
        Ok(())
    }

    /// The next byte that is kept, and goes past it.
    #[inline(always)]
    fn pop(&mut self) -> Option<u8>
        ensures byte { MatchOption result ((self.old.kept ≡ []) × (self.new ≡ self.old))
            (λ byte. (self.old.kept ≡ byte ∷ self.new.kept)
            × (self.new ≡ record self.old { place = self.old.place + 1; kept = self.new.kept })) }
        ensures within { read_so_far self.new ≤ self.new.limit }
        ensures small { self.new.limit < 2 ^ 32 }
    {
        if self.at == self.filled {
            return None;
        }
        let byte = self.piece[self.at];
        self.at += 1;
        Some(byte)
    }

    /// Reads the next piece, where no byte is kept.
    #[cold]
    #[inline(never)]
    fn read_piece<S: Shelf>(&mut self, shelf: &mut S, name: &str) -> Result<(), PieceFault>
        requires { self.old.kept ≡ [] }
        ensures file { OnOk result (IfSome (file_of (S.held shelf.old) name.now) (λ file. Reads self.old file → Reads self.new file)) }
        ensures more { OnOk result (((self.new.ended ≡ true) × (self.new.kept ≡ [])) ⊎ (0 < length self.new.kept)) }
        ensures place { self.new.place ≡ self.old.place }
        ensures failed { result ≡ Err PieceFault.Failed → Rose (S.faults shelf.old) (S.faults shelf.new) }
        ensures too_large { result ≡ Err PieceFault.TooLarge → IfSome (file_of (S.held shelf.old) name.now)
            (λ file. Reads self.old file → self.old.limit < length file) }
        ensures within { read_so_far self.new ≤ self.new.limit }
        ensures limit { self.new.limit ≡ self.old.limit }
        ensures only_reads { OnlyReads S.held S.faults shelf.old shelf.new }
    {
        if self.ended {
            return Ok(());
        }
        let before = self.before + self.filled as u64;
        let Ok(count) = shelf.read(name, before, &mut self.piece) else {
            return Err(PieceFault::Failed);
        };
        if before + count as u64 > self.limit {
            return Err(PieceFault::TooLarge);
        }
        if count == 0 {
            self.ended = true;
            return Ok(());
        }
        self.before = before;
        self.at = 0;
        self.filled = count;
        Ok(())
    }
}

//! Bytes that are gathered before they are written.
ghost use Rattle.std.specs.Prelude.{◌≡◌, ℕ, ◌+◌, ◌≤◌, List, [], ◌++◌, length, OnOk, OnErr};
ghost use Rattle.std.specs.Fmt.{decimal, signed_decimal};
ghost use Rattle.surf_io.specs.Faults.{Rose};
ghost use Rattle.surf_io.specs.Bytes.{Appends, AppendsPrefix};
ghost use Rattle.surf_io.specs.Gathered.{Puts};

use crate::digits::{MOST_DIGITS, fill_digits, fill_signed_digits};
use crate::faults::Failed;
use crate::sink::Sink;
use crate::write::write_whole;
use std::marker::Model;

/// Bytes on the stack that go to a sink in one call, so that a long text of short words takes few.
#[derive(Drop)]
pub struct Piece {
    bytes: [u8; Piece::ROOM],
    len: usize,
}

impl Model for Piece {
    ghost use Rattle.std.specs.Prelude.{ℕ, ◌≤◌, List, length, take};

    ghost Value = { List ℕ };

    ghost view = { λ p. take p.len p.bytes };

    ghost invariant = { λ p. p.len ≤ length p.bytes };
}

impl Piece {
    /// How many bytes there is room for.
    pub const ROOM: usize = 4096;

    /// No bytes.
    pub fn new() -> Piece
        ensures { result ≡ [] }
    {
        Piece {
            bytes: [0; Piece::ROOM],
            len: 0,
        }
    }

    /// The room that the digits of a number take at most.
    pub const DIGITS: usize = MOST_DIGITS;

    /// The number of bytes.
    pub fn len(&self) -> usize
        ensures count { result ≡ length self.now }
        // What holds of every piece.
        ensures within { result ≤ Piece.ROOM }
    {
        self.len
    }

    /// Puts bytes last.
    pub fn put(&mut self, bytes: &[u8])
        requires { length self.old + length bytes.now ≤ Piece.ROOM }
        ensures { self.new ≡ self.old ++ bytes.now }
    {
        let end = self.len + bytes.len();
        self.bytes[self.len..end].copy_from_slice(bytes);
        self.len = end;
    }

    /// Puts the decimal digits of `n` last.
    pub fn put_natural(&mut self, n: u64)
        requires { length self.old + Piece.DIGITS ≤ Piece.ROOM }
        ensures put { self.new ≡ self.old ++ decimal n }
        ensures short { length self.new ≤ length self.old + Piece.DIGITS }
    {
        // One digit, as entries of turn words mostly are, needs no array of its own.
        if n < 10 {
            self.put(&[b'0' + n as u8]);
            return;
        }
        let mut text = [0; MOST_DIGITS];
        let start = fill_digits(&mut text, n);
        self.put(&text[start..]);
    }

    /// Puts the decimal digits of `n` last, with `-` before those of a negative number.
    pub fn put_signed(&mut self, n: i64)
        requires { length self.old + Piece.DIGITS ≤ Piece.ROOM }
        ensures put { self.new ≡ self.old ++ signed_decimal n }
        ensures short { length self.new ≤ length self.old + Piece.DIGITS }
    {
        let mut text = [0; MOST_DIGITS];
        let start = fill_signed_digits(&mut text, n);
        self.put(&text[start..]);
    }

    /// Sees that there is room for so many bytes, and writes all out where there is not.
    pub fn make_room<K: Sink>(&mut self, room: usize, sink: &mut K) -> Result<(), Failed>
        requires { room ≤ Piece.ROOM }
        ensures puts { Puts K.written K.settled K.faults result sink.old sink.new self.old self.new [] }
        ensures room { OnOk result (length self.new + room ≤ Piece.ROOM) }
    {
        if self.len > Piece::ROOM - room {
            self.write_out(sink)?;
        }
        Ok(())
    }

    /// Writes all bytes, after which there are none. After a failure a first part of them was
    /// written.
    pub fn write_out<K: Sink>(&mut self, sink: &mut K) -> Result<(), Failed>
        ensures ok { OnOk result (Appends (K.written sink.old) (K.written sink.new) self.old) }
        ensures emptied { self.new ≡ [] }
        ensures failed { OnErr result (AppendsPrefix (K.written sink.old) (K.written sink.new) self.old) }
        ensures failed_only_on_fault { OnErr result (Rose (K.faults sink.old) (K.faults sink.new)) }
        ensures never_falls { K.faults sink.old ≤ K.faults sink.new }
        ensures same_settled { K.settled sink.new ≡ K.settled sink.old }
    {
        let len = self.len;
        self.len = 0;
        write_whole(sink, &self.bytes[..len])
    }
}

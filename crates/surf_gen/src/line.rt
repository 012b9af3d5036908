//! Lines of numbers.
ghost use Rattle.std.specs.Prelude.{◌≡◌, ℕ, ◌+◌, ◌<◌, ◌≤◌, List, [], ◌∷◌, ◌++◌, length, map, OnOk, decimal};
ghost use Rattle.text_scan.specs.Plain.{line_of};

use std::alloc::AllocError;
use std::marker::Model;

/// The most numbers in a line.
const MOST_NUMBERS: usize = 5;

/// Puts a line of these numbers last, with blanks between them.
pub(crate) fn put_line(text: &mut Vec<u8>, numbers: &[u32]) -> Result<(), AllocError>
    requires some { 0 < length numbers.now }
    requires few { length numbers.now ≤ MOST_NUMBERS }
    ensures { OnOk result (text.new.items ≡ text.old.items ++ line_of (map decimal numbers.now)) }
{
    let mut line = LineEnd::new();
    let mut behind = b'\n';
    for place in (0..numbers.len()).rev() {
        line.put_before(behind);
        line.put_number_before(numbers[place]);
        behind = b' ';
    }
    text.extend_from_slice(line.bytes())
}

/// The end of a line, which is written from its last byte on: the digits of a number come in this order.
#[derive(Drop)]
struct LineEnd {
    bytes: [u8; LineEnd::ROOM],
    start: usize,
}

impl Model for LineEnd {
    ghost use Rattle.std.specs.Prelude.{ℕ, ◌≤◌, List, length, drop};

    ghost Value = { List ℕ };

    ghost view = { λ l. drop l.start l.bytes };

    ghost invariant = { λ l. l.start ≤ length l.bytes };
}

impl LineEnd {
    /// How many bytes there is room for.
    const ROOM: usize = 64;

    /// The most digits of a number.
    const MOST_DIGITS: usize = 10;

    /// No bytes.
    fn new() -> LineEnd
        ensures { result ≡ [] }
    {
        LineEnd {
            bytes: [0; LineEnd::ROOM],
            start: LineEnd::ROOM,
        }
    }

    /// The bytes.
    fn bytes(&self) -> &[u8]
        ensures { result.now ≡ self.now }
    {
        &self.bytes[self.start..]
    }

    /// Puts a byte first.
    fn put_before(&mut self, byte: u8)
        requires { length self.old < LineEnd.ROOM }
        ensures { self.new ≡ byte ∷ self.old }
    {
        self.start -= 1;
        self.bytes[self.start] = byte;
    }

    /// Puts the decimal digits of a number first.
    fn put_number_before(&mut self, number: u32)
        requires { length self.old + LineEnd.MOST_DIGITS ≤ LineEnd.ROOM }
        ensures put { self.new ≡ decimal number ++ self.old }
        ensures short { length self.new ≤ length self.old + LineEnd.MOST_DIGITS }
    {
        let mut rest = number;
        while rest >= 10 {
            self.put_before(b'0' + (rest % 10) as u8);
            rest /= 10;
        }
        self.put_before(b'0' + rest as u8);
    }
}

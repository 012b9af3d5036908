//! Numbers in decimal digits.
ghost use Rattle.std.specs.Prelude.{◌≡◌, ℕ, ◌≤◌, length, drop, OnOk, OnErr};
ghost use Rattle.std.specs.Fmt.{decimal, signed_decimal};
ghost use Rattle.surf_io.specs.Calls.{OnlyWrites, WroteAll, WrotePart};

use crate::faults::Failed;
use crate::sink::Sink;
use crate::write::write_whole;

/// The room that the digits of the greatest `u64` take.
pub(crate) const MOST_DIGITS: usize = 20;

/// Writes `n` in decimal digits, with no leading zero. After a failure a first part was written.
pub fn put_natural<K: Sink>(sink: &mut K, n: u64) -> Result<(), Failed>
    ensures ok { OnOk result (WroteAll K.written sink.old sink.new (decimal n)) }
    ensures failed { OnErr result (WrotePart K.written K.faults sink.old sink.new (decimal n)) }
    ensures only_writes { OnlyWrites K.settled K.faults sink.old sink.new }
{
    let mut text = [0; MOST_DIGITS];
    let start = fill_digits(&mut text, n);
    write_whole(sink, &text[start..])
}

/// Writes `n` as `put_natural` does, with `-` before a negative number.
pub fn put_signed<K: Sink>(sink: &mut K, n: i64) -> Result<(), Failed>
    ensures ok { OnOk result (WroteAll K.written sink.old sink.new (signed_decimal n)) }
    ensures failed { OnErr result (WrotePart K.written K.faults sink.old sink.new (signed_decimal n)) }
    ensures only_writes { OnlyWrites K.settled K.faults sink.old sink.new }
{
    let mut text = [0; MOST_DIGITS];
    let start = fill_signed_digits(&mut text, n);
    write_whole(sink, &text[start..])
}

// Puts the digits of `n` at the end of `text`, and says where they begin.
pub(crate) fn fill_digits(text: &mut [u8; MOST_DIGITS], n: u64) -> usize
    ensures start { result ≤ MOST_DIGITS }
    ensures digits { drop result text.new ≡ decimal n }
{
    let mut start = MOST_DIGITS;
    let mut rest = n;
    while rest >= 10 {
        start -= 1;
        text[start] = b'0' + (rest % 10) as u8;
        rest /= 10;
    }
    start -= 1;
    text[start] = b'0' + rest as u8;
    start
}

// Puts the digits of `n`, and its sign where it is negative, at the end of `text`.
pub(crate) fn fill_signed_digits(text: &mut [u8; MOST_DIGITS], n: i64) -> usize
    ensures start { result ≤ MOST_DIGITS }
    ensures digits { drop result text.new ≡ signed_decimal n }
{
    let mut start = fill_digits(text, n.unsigned_abs());
    if n < 0 {
        start -= 1;
        text[start] = b'-';
    }
    start
}

//! Steps over the bytes of a text.
ghost use Rattle.std.specs.Prelude.{◌≡◌, ℕ, List, ◌+◌, ◌-◌, ◌^◌, ◌<◌, ◌≤◌, ◌==◌, min, not, true, false, [], Some, IfSome, IfNone, IsTrue, is_some, MatchOption, option_map, length};
ghost use Rattle.text_scan.specs.Lines.{is_blank, cut_lines, lines_from};
ghost use Rattle.text_scan.specs.Numbers.{is_digit};
ghost use Rattle.text_scan.specs.Unread.{words_here, behind, next_natural, next_is_number_text};
ghost use Rattle.std.specs.List.{before_first};
ghost use Rattle.text_scan.specs.Steps.{ends_word, from_first, begins_with, begins_word, IsPast, IsFirstWord, ArePastDigits, IsPastDecimal, IsLineEnd};

use crate::naturals::{after_digits, after_sign, is_number_text};

fn is_blank(byte: u8) -> bool
    ensures { result ≡ is_blank byte }
{
    // Nearly every byte of a word is larger, so that one comparison is enough for it.
    byte <= b' ' && matches!(byte, b' ' | b'\t' | 0x0B | 0x0C | b'\r')
}

/// Whether no word goes on at this byte.
fn ends_word(byte: u8) -> bool
    ensures { result ≡ ends_word byte }
{
    matches!(byte, b' ' | b'\t'..=b'\r' | b'#')
}

/// The bytes from the first on that is no blank.
pub(crate) fn after_blanks(bytes: &[u8]) -> &[u8]
    ensures place { IsPast 0 bytes.now result.now }
    ensures stop { begins_with is_blank result.now ≡ false }
{
    let mut rest = bytes;
    while let [byte, after @ ..] = rest {
        if !is_blank(*byte) {
            break;
        }
        rest = after;
    }
    rest
}

/// The bytes from the end of the line on.
pub(crate) fn after_line(bytes: &[u8]) -> &[u8]
    ensures words { words_here result.now ≡ [] }
    ensures behind { behind result.now ≡ behind bytes.now }
    ensures stop { IsLineEnd result.now }
    ensures shorter { length result.now ≤ length bytes.now }
{
    let mut rest = bytes;
    while let [byte, after @ ..] = rest {
        if *byte == b'\n' {
            break;
        }
        rest = after;
    }
    rest
}

/// The bytes behind the line feed at the end of the line; none where there is no line feed.
fn after_line_feed(bytes: &[u8]) -> &[u8]
    ensures { result.now ≡ behind bytes.now }
{
    let end = after_line(bytes);
    if end.is_empty() { end } else { &end[1..] }
}

/// The number of lines.
pub(crate) fn line_count(text: &[u8]) -> u64
    ensures { result ≡ length (cut_lines text.now) }
{
    let mut count: u64 = 0;
    let mut rest = text;
    while !rest.is_empty() {
        count += 1;
        rest = after_line_feed(rest);
    }
    count
}

/// The bytes from the first word on, and the number of its line, where `bytes` begin in line `start`.
/// `None` where there is no word.
pub(crate) fn first_word(start: u64, bytes: &[u8]) -> Option<(u64, &[u8])>
    requires { start + length bytes.now < 2 ^ 64 }
    ensures { MatchOption result (lines_from start bytes.now ≡ [])
        (λ found. IsFirstWord start bytes.now found.0 found.1.now) }
{
    let mut line = start;
    let mut rest = bytes;
    while let [byte, after @ ..] = rest {
        if is_blank(*byte) {
            rest = after;
        } else if *byte == b'\n' {
            line += 1;
            rest = after;
        } else if *byte == b'#' {
            rest = after_line(after);
        } else {
            return Some((line, rest));
        }
    }
    None
}

/// So many digits never stand for a number that is too large.
const FEW_DIGITS: usize = 18;

/// The number that the digits at the front stand for, or 2^64 - 1 where it is larger, and the bytes
/// behind them.
#[inline(always)]
fn digits(bytes: &[u8]) -> (u64, &[u8])
    ensures digits { ArePastDigits bytes.now result.0 result.1.now }
    ensures stop { begins_with is_digit result.1.now ≡ false }
{
    let few = bytes.len().min(FEW_DIGITS);
    let mut value: u64 = 0;
    for at in 0..few {
        let byte = bytes[at];
        if !byte.is_ascii_digit() {
            return (value, &bytes[at..]);
        }
        value = value * 10 + u64::from(byte - b'0');
    }
    more_digits(value, &bytes[few..])
}

/// The same where the digits before have this value.
#[cold]
#[inline(never)]
fn more_digits(before: u64, bytes: &[u8]) -> (u64, &[u8])
    ensures digits { (text : List ℕ) → ArePastDigits text before bytes.now → ArePastDigits text result.0 result.1.now }
    ensures stop { begins_with is_digit result.1.now ≡ false }
{
    let mut value = before;
    let mut rest = bytes;
    while let [byte, after @ ..] = rest {
        if !byte.is_ascii_digit() {
            break;
        }
        value = value
            .saturating_mul(10)
            .saturating_add(u64::from(byte - b'0'));
        rest = after;
    }
    (value, rest)
}

/// Whether a word stands at the front.
pub(crate) fn begins_word(rest: &[u8]) -> bool
    ensures { result ≡ begins_word rest.now }
{
    match rest {
        [byte, ..] => !ends_word(*byte),
        [] => false,
    }
}

/// The first word, and the bytes behind it. `None` where there is no word at the front.
pub(crate) fn word_at(rest: &[u8]) -> Option<(&[u8], &[u8])>
    ensures none { IfNone result (begins_word rest.now ≡ false) }
    ensures some { IfSome result (λ read. (begins_word rest.now ≡ true)
        × (read.0.now ≡ before_first ends_word rest.now) × (read.1.now ≡ from_first ends_word rest.now)) }
{
    if !begins_word(rest) {
        return None;
    }
    let after = after_word(rest);
    Some((&rest[..rest.len() - after.len()], after))
}

fn after_word(bytes: &[u8]) -> &[u8]
    ensures { result.now ≡ from_first ends_word bytes.now }
{
    let mut rest = bytes;
    while let [byte, after @ ..] = rest {
        if ends_word(*byte) {
            break;
        }
        rest = after;
    }
    rest
}

/// The bytes behind a number text of the plainest kind, which is the whole first word: a sign or
/// none, digits, and a point with further digits or none. `None` where the first word is other.
fn after_plain_number(rest: &[u8]) -> Option<&[u8]>
    ensures { IfSome result (λ after. (next_is_number_text (words_here rest.now) ≡ true) × IsPast 1 rest.now after.now) }
{
    let unsigned = after_sign(rest);
    if !begins_digit(unsigned) {
        return None;
    }
    let after = after_decimal(unsigned);
    if begins_word(after) {
        None
    } else {
        Some(after)
    }
}

fn begins_digit(bytes: &[u8]) -> bool
    ensures { result ≡ begins_with is_digit bytes.now }
{
    match bytes {
        [byte, ..] => byte.is_ascii_digit(),
        [] => false,
    }
}

/// The bytes behind the digits at the front, a point and the digits behind it.
fn after_decimal(bytes: &[u8]) -> &[u8]
    ensures { begins_with is_digit bytes.now ≡ true → IsPastDecimal bytes.now result.now }
{
    let behind = after_digits(bytes);
    match behind {
        [b'.', fraction @ ..] => after_digits(fraction),
        _ => behind,
    }
}

/// The bytes behind the first word, if it is a number text. `None` where there is no word at the
/// front, or it is no number text.
pub(crate) fn number_text_at(rest: &[u8]) -> Option<&[u8]>
    requires { begins_with is_blank rest.now ≡ false }
    ensures answer { is_some result ≡ next_is_number_text (words_here rest.now) }
    ensures place { IfSome result (λ after. IsPast 1 rest.now after.now) }
{
    if let Some(after) = after_plain_number(rest) {
        return Some(after);
    }
    let (word, after) = word_at(rest)?;
    if is_number_text(word) {
        Some(after)
    } else {
        None
    }
}

/// The natural, or 2^64 - 1 where it is larger, that the first word is, and the bytes behind it.
/// `None` where there is no word at the front, or it is no natural.
pub(crate) fn natural_at(rest: &[u8]) -> Option<(u64, &[u8])>
    requires { begins_with is_blank rest.now ≡ false }
    ensures value { option_map (λ read. read.0) result
        ≡ option_map (λ n. min n (2 ^ 64 - 1)) (next_natural (words_here rest.now)) }
    ensures place { IfSome result (λ read. IsPast 1 rest.now read.1.now) }
{
    let (value, after) = digits(rest);
    if begins_word(after) {
        return None;
    }
    if after.len() == rest.len() {
        return None;
    }
    Some((value, after))
}

/// The digit that is the whole first word, and the bytes behind it. It is found with one look, behind a single blank, and so `None`
/// says nothing of the first word.
#[inline(always)]
pub(crate) fn digit_at(rest: &[u8]) -> Option<(u64, &[u8])>
    ensures value { IfSome result (λ read. next_natural (words_here rest.now) ≡ Some read.0) }
    ensures place { IfSome result (λ read. IsPast 1 rest.now read.1.now) }
{
    let [before, digit, next, ..] = rest else {
        return None;
    };
    if *before != b' ' || !digit.is_ascii_digit() || !ends_word(*next) {
        return None;
    }
    Some((u64::from(*digit - b'0'), &rest[2..]))
}

//! Words that are numbers.
ghost use Rattle.std.specs.Prelude.{◌≡◌, ◌^◌, ◌≤◌, ◌++◌, nat_lt, true, false, if◌then◌else◌, MatchOption, option_map, position, pos, neg_ℤ};
ghost use Rattle.text_scan.specs.Numbers.{is_digit, is_natural, value_of, natural_of, number_of, signed_of, fits_i64, unsigned, is_point, is_exponent_mark, is_decimal, is_unsigned_text, is_number_text};
ghost use Rattle.text_scan.specs.Steps.{begins_with, IsPastDigits};

/// Why a word is no number.
#[derive(Clone, Copy, Debug, PartialEq, Eq)]
pub enum NumberFault {
    /// It is not made of digits.
    NotDigits,
    /// It is a number, but too large.
    TooLarge,
}

/// The number that a word of digits is; leading zeros are allowed.
pub fn natural(bytes: &[u8]) -> Result<u64, NumberFault>
    ensures { MatchOption (natural_of bytes.now) (result ≡ Err NumberFault.NotDigits)
        (λ n. result ≡ (if nat_lt n (2 ^ 64) then Ok n else Err NumberFault.TooLarge)) }
{
    if !is_natural(bytes) {
        return Err(NumberFault::NotDigits);
    }
    value_of(bytes).ok_or(NumberFault::TooLarge)
}

/// The number that a word is, if it is one of at most 2^32 - 1; leading zeros are allowed.
pub fn number(bytes: &[u8]) -> Option<u32>
    ensures { result ≡ number_of bytes.now }
{
    let value = natural(bytes).ok()?;
    u32::try_from(value).ok()
}

/// The number that a word is: digits with a `-` before them or none; leading zeros are allowed.
pub fn signed(bytes: &[u8]) -> Result<i64, NumberFault>
    ensures { MatchOption (signed_of bytes.now) (result ≡ Err NumberFault.NotDigits)
        (λ n. result ≡ (if fits_i64 n then Ok n else Err NumberFault.TooLarge)) }
{
    match after_minus(bytes) {
        Some(digits) => negated(natural(digits)?),
        None => unnegated(natural(bytes)?),
    }
}

#[tactic(auto, unfolding(crate::specs::Numbers::is_natural))]
/// The bytes behind the `-` that the word begins with, if it does.
fn after_minus(bytes: &[u8]) -> Option<&[u8]>
    ensures { MatchOption result (signed_of bytes.now ≡ option_map pos (natural_of bytes.now))
        (λ digits. signed_of bytes.now ≡ option_map (λ n. neg_ℤ (pos n)) (natural_of digits.now)) }
{
    match bytes {
        [b'-', digits @ ..] => Some(digits),
        [_, ..] => None,
        [] => None,
    }
}

/// The number as an integer with a sign.
fn unnegated(number: u64) -> Result<i64, NumberFault>
    ensures { result ≡ (if fits_i64 (pos number) then Ok (pos number) else Err NumberFault.TooLarge) }
{
    0i64.checked_add_unsigned(number)
        .ok_or(NumberFault::TooLarge)
}

/// The integer that is so much below zero.
fn negated(number: u64) -> Result<i64, NumberFault>
    ensures { result ≡ (if fits_i64 (neg_ℤ (pos number)) then Ok (neg_ℤ (pos number)) else Err NumberFault.TooLarge) }
{
    0i64.checked_sub_unsigned(number)
        .ok_or(NumberFault::TooLarge)
}

/// Whether the word is a number text: a sign or none, and then `nan`, `inf`, or digits with a point
/// or none and an exponent or none.
pub fn is_number_text(bytes: &[u8]) -> bool
    ensures { result ≡ is_number_text bytes.now }
{
    is_unsigned_text(after_sign(bytes))
}

/// The bytes without the sign that they may begin with.
pub(crate) fn after_sign(bytes: &[u8]) -> &[u8]
    ensures { result.now ≡ unsigned bytes.now }
{
    match bytes {
        [b'+' | b'-', after @ ..] => after,
        _ => bytes,
    }
}

fn is_natural(bytes: &[u8]) -> bool
    ensures { result ≡ is_natural bytes.now }
{
    !bytes.is_empty() && after_digits(bytes).is_empty()
}

/// The bytes behind the digits at the front.
pub(crate) fn after_digits(bytes: &[u8]) -> &[u8]
    ensures digits { IsPastDigits bytes.now result.now }
    ensures stop { begins_with is_digit result.now ≡ false }
{
    let mut rest = bytes;
    while let [byte, after @ ..] = rest {
        if !byte.is_ascii_digit() {
            break;
        }
        rest = after;
    }
    rest
}

/// The value of digits, if it is at most 2^64 - 1.
fn value_of(digits: &[u8]) -> Option<u64>
    requires { is_natural digits.now ≡ true }
    ensures { MatchOption result (2 ^ 64 ≤ value_of digits.now) (λ value. value ≡ value_of digits.now) }
{
    let mut value: u64 = 0;
    for digit in digits {
        value = value.checked_mul(10)?.checked_add(u64::from(digit - b'0'))?;
    }
    Some(value)
}

fn is_unsigned_text(text: &[u8]) -> bool
    ensures { result ≡ is_unsigned_text text.now }
{
    if text == b"nan".as_slice() || text == b"inf".as_slice() {
        return true;
    }
    match exponent_mark_in(text) {
        Some(at) => is_decimal(&text[..at]) && is_natural(after_sign(&text[at + 1..])),
        None => is_decimal(text),
    }
}

fn is_decimal(text: &[u8]) -> bool
    ensures { result ≡ is_decimal text.now }
{
    match point_in(text) {
        Some(at) => are_digits(&text[..at], &text[at + 1..]),
        None => is_natural(text),
    }
}

fn point_in(text: &[u8]) -> Option<usize>
    ensures { result ≡ position is_point text.now }
{
    text.iter().position(|byte| *byte == b'.')
}

fn exponent_mark_in(text: &[u8]) -> Option<usize>
    ensures { result ≡ position is_exponent_mark text.now }
{
    text.iter().position(|byte| *byte == b'e' || *byte == b'E')
}

/// Whether these bytes and those make a natural together.
fn are_digits(front: &[u8], back: &[u8]) -> bool
    ensures { result ≡ is_natural (front.now ++ back.now) }
{
    if front.is_empty() {
        return is_natural(back);
    }
    is_natural(front) && (back.is_empty() || is_natural(back))
}

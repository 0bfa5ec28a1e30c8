//! Decimal numbers.

ghost use Rattle.std.specs.Prelude.{◌≡◌, ◌≤◌, ◌<◌, ◌-◌, ◌^◌, length, is_some, IfSome};
ghost use Rattle.std.specs.List.{list_all};
ghost use Rattle.trace_lex.specs.Decimals as decimals;

use crate::blanks::trim;

/// Whether a byte is a digit from 0 to 9.
fn is_digit(byte: u8) -> bool
    ensures { result ≡ decimals.is_digit byte }
{
    byte >= b'0' && byte <= b'9'
}

/// Whether each byte is a digit from 0 to 9.
pub fn all_digits(text: &[u8]) -> bool
    ensures { result ≡ list_all decimals.is_digit text.now }
{
    text.iter().all(|byte| is_digit(*byte))
}

/// The value of a byte that is a digit from 0 to 9.
#[inline(always)]
fn value_of_digit(byte: u8) -> Option<u64>
    ensures digit { is_some result ≡ decimals.is_digit byte }
    ensures value { IfSome result (λ value. value ≡ byte - 48) }
    ensures bound { IfSome result (λ value. value ≤ 9) }
{
    let value = u64::from(byte).wrapping_sub(u64::from(b'0'));
    if value <= 9 { Some(value) } else { None }
}

/// The greatest number of decimal digits that always fit in 64 bits.
pub(crate) const FITTING_DIGITS: usize = 19;

/// The number that a few bytes write, if they are digits, one at least: so few always fit.
#[inline(always)]
pub(crate) fn few_digits(text: &[u8]) -> Option<u64>
    requires few { length text.now ≤ FITTING_DIGITS }
    ensures value { result ≡ decimals.decimal_number text.now }
    ensures bound { IfSome result (λ n. n < 2 ^ 64) }
{
    if text.is_empty() {
        return None;
    }
    let mut value: u64 = 0;
    for byte in text {
        let digit = value_of_digit(*byte)?;
        value = value * 10 + digit;
    }
    Some(value)
}

/// The number that `decimal_number` gives for a string of any length.
#[inline(never)]
fn any_digits(text: &[u8], most: u64) -> Option<u64>
    ensures { result ≡ decimals.up_to most (decimals.decimal_number text.now) }
{
    if text.is_empty() || !all_digits(text) {
        return None;
    }
    any_value(text, most)
}

/// The number that a string of decimal digits writes, if it is one of at most `most`. Leading zeros are allowed; the empty string writes none.
/// Up to 19 digits, which always fit, take one pass and no look for what is too much.
pub fn decimal_number(text: &[u8], most: u64) -> Option<u64>
    ensures { result ≡ decimals.up_to most (decimals.decimal_number text.now) }
{
    if text.len() > FITTING_DIGITS {
        return any_digits(text, most);
    }
    match few_digits(text) {
        Some(value) if value <= most => Some(value),
        _ => None,
    }
}

/// So many bytes fit as digits, even where each counts for as much as a byte can: 207.
const FITTING_BYTES: usize = 17;

/// The value of a few digits, the first of them the highest.
fn few_value(digits: &[u8]) -> u64
    requires few { length digits.now ≤ FITTING_BYTES }
    ensures { result ≡ decimals.value_after 0 digits.now }
{
    let mut value: u64 = 0;
    for digit in digits {
        value = value * 10 + u64::from(digit.saturating_sub(b'0'));
    }
    value
}

/// The value of any number of digits, the first of them the highest, if it is at most `most`.
#[inline(never)]
fn any_value(digits: &[u8], most: u64) -> Option<u64>
    ensures { result ≡ decimals.up_to most (Some (decimals.value_after 0 digits.now)) }
{
    let mut value: u64 = 0;
    for digit in digits {
        let next = u128::from(value) * 10 + u128::from(digit.saturating_sub(b'0'));
        if next > u128::from(most) {
            return None;
        }
        value = next as u64;
    }
    Some(value)
}

/// The value of digits, the first of them the highest, if it is at most `most`.
pub fn digits_value(digits: &[u8], most: u64) -> Option<u64>
    ensures { result ≡ decimals.up_to most (Some (decimals.value_after 0 digits.now)) }
{
    if digits.len() > FITTING_BYTES {
        return any_value(digits, most);
    }
    let value = few_value(digits);
    if value <= most { Some(value) } else { None }
}

/// Whether digits are more than one, the first of them a zero.
pub fn has_leading_zero(digits: &[u8]) -> bool
    ensures { result ≡ decimals.has_leading_zero digits.now }
{
    digits.len() > 1 && digits[0] == b'0'
}

/// The number that is written to a file: decimal, perhaps with blanks at both ends.
pub fn written_number(text: &[u8]) -> Option<u64>
    ensures { result ≡ decimals.written_number text.now }
{
    decimal_number(trim(text), u64::MAX)
}

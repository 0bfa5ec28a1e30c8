//! NUMBER: whole numbers as texts.

ghost use Rattle.std.specs.Prelude.{◌≡◌, ◌≤◌, ◌+◌, ◌*◌, ◌^◌, ◌&&◌, nat_lt, if◌then◌else◌, Some, None, IfSome};
ghost use Rattle.std.specs.Char.{is_digit, digit_value};
ghost use Rattle.trace_lex.specs.Numbers.{digits_of, after_zero, magnitude_of, number_of, below};

use crate::decimal::{FITTING_DIGITS, few_digits};

/// The value of one more digit in a base behind others, if it is a digit and the value fits.
fn push_digit(value: u64, base: u32, byte: u8) -> Option<u64>
    requires low { 2 ≤ base }
    requires high { base ≤ 16 }
    ensures { result ≡ (if is_digit byte base && nat_lt (value * base + digit_value byte) (2 ^ 64) then Some (value * base + digit_value byte) else None) }
{
    let digit = char::from(byte).to_digit(base)?;
    let shifted = value.checked_mul(u64::from(base))?;
    shifted.checked_add(u64::from(digit))
}

/// The value of digits in a base, if it fits.
#[inline(never)]
fn digits(base: u32, text: &[u8]) -> Option<u64>
    requires low { 2 ≤ base }
    requires high { base ≤ 16 }
    ensures { result ≡ below (2 ^ 64) (digits_of base text.now) }
{
    if text.is_empty() {
        return None;
    }
    let mut value = 0;
    for byte in text {
        value = push_digit(value, base, *byte)?;
    }
    Some(value)
}

/// The value of decimal digits, if it fits. Up to [`FITTING_DIGITS`] of them need no look for what is too much.
#[inline(always)]
fn decimal_digits(text: &[u8]) -> Option<u64>
    ensures { result ≡ below (2 ^ 64) (digits_of 10 text.now) }
{
    if text.len() <= FITTING_DIGITS {
        few_digits(text)
    } else {
        digits(10, text)
    }
}

/// The value of what follows a `0`, if it fits: nothing, an `x` and hexadecimal digits, or octal digits.
#[inline(never)]
fn behind_zero(text: &[u8]) -> Option<u64>
    ensures { result ≡ below (2 ^ 64) (after_zero text.now) }
{
    match text {
        [] => Some(0),
        [b'x', hexadecimal @ ..] => digits(16, hexadecimal),
        _ => digits(8, text),
    }
}

/// The value of a numeral without a sign, if it fits in 64 bits: hexadecimal behind `0x`, octal behind another `0` (which may stand alone), and else
/// decimal. Where no `-` comes first, it is what [`number`] gives.
#[inline(always)]
pub fn magnitude(text: &[u8]) -> Option<u64>
    ensures { result ≡ below (2 ^ 64) (magnitude_of text.now) }
{
    match text {
        [] => None,
        [b'0', rest @ ..] => behind_zero(rest),
        _ => decimal_digits(text),
    }
}

/// The value of a numeral behind a `-`, without the sign, if it fits.
fn negative_magnitude(text: &[u8]) -> Option<u64>
    ensures value { result ≡ below (2 ^ 63 + 1) (magnitude_of text.now) }
    ensures bound { IfSome result (λ n. n ≤ 2 ^ 63) }
{
    match magnitude(text) {
        Some(value) if value <= 1 << 63 => Some(value),
        _ => None,
    }
}

/// The number that a text writes, if it is one: digits with or without a `-` before them. They are hexadecimal behind `0x`, octal behind
/// another `0` (which may stand alone), and else decimal. Below -2^63 and from 2^64 on there is none.
pub fn number(text: &[u8]) -> Option<i128>
    ensures { result ≡ number_of text.now }
{
    match text {
        [] => None,
        [b'-', numeral @ ..] => match negative_magnitude(numeral) {
            Some(magnitude) => Some(-i128::from(magnitude)),
            None => None,
        },
        _ => match magnitude(text) {
            Some(magnitude) => Some(i128::from(magnitude)),
            None => None,
        },
    }
}

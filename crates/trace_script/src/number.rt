//! Numbers in the words of a script.

ghost use Rattle.std.specs.Prelude.{◌≡◌, ◌≤◌, ◌-◌, ◌^◌, pos, neg_ℤ, Some, IfSome};
ghost use Rattle.std.specs.Option.{option_map};
ghost use Rattle.trace_lex.specs.Decimals.{decimal_number};
ghost use Rattle.trace_script.specs.Lines.{number_up_to, process_id};

use trace_lex::decimal_number;

/// The number that a text of one digit writes.
#[inline(always)]
fn single_digit(text: &[u8]) -> Option<u8>
    ensures value { IfSome result (λ n. decimal_number text.now ≡ Some n) }
    ensures bound { IfSome result (λ n. n ≤ 9) }
{
    match text {
        [digit @ b'0'..=b'9'] => Some(*digit - b'0'),
        _ => None,
    }
}

/// A CPU's number.
#[inline(always)]
#[tactic(auto, using(crate::proofs::NumberLemmas::small_found))]
pub(crate) fn cpu_number(text: &[u8]) -> Option<u32>
    ensures { result ≡ number_up_to (2 ^ 32 - 1) text.now }
{
    if let Some(digit) = single_digit(text) {
        return Some(u32::from(digit));
    }
    let number = decimal_number(text, u64::from(u32::MAX))?;
    Some(number as u32)
}

/// A process's number after its `-`. It is kept out of line, as few have one.
#[cold]
#[inline(never)]
fn negative_id(digits: &[u8]) -> Option<i32>
    ensures { result ≡ option_map (λ n. neg_ℤ (pos n)) (number_up_to (2 ^ 31) digits.now) }
{
    let number = decimal_number(digits, 1 << 31)?;
    Some(-(number as i64) as i32)
}

/// A process's number. A `-` may stand before its digits.
#[inline(always)]
#[tactic(auto, using(crate::proofs::NumberLemmas::small_id), unfolding(crate::specs::Lines::process_id))]
pub(crate) fn process_id(text: &[u8]) -> Option<i32>
    ensures { result ≡ process_id text.now }
{
    if let Some(digit) = single_digit(text) {
        return Some(i32::from(digit));
    }
    if let [b'-', digits @ ..] = text {
        return negative_id(digits);
    }
    let number = decimal_number(text, i32::MAX as u64)?;
    Some(number as i32)
}

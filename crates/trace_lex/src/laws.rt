//! What the definitions of the contracts mean. Each function does nothing: its contract is a theorem.

ghost use Rattle.trace_lex.specs.Laws.{WithoutEndIsBefore, TrimmedIsBetween, OneDigit, OneMoreDigit, NoDigits, NumbersAreOfDigits, OneDigitIsItsValue, EachDigitIsTimesTen};

/// A text without the blanks at its ends is what stands in it between blanks: it is empty, where the text has nothing but blanks, or it
/// begins and ends with no blank. Likewise, a text without the blanks at its end is what stands before them.
pub fn trimmed_texts_are_between_blanks()
    ensures trimmed { TrimmedIsBetween }
    ensures without_end { WithoutEndIsBefore }
{}

/// The value of digits in a base: that of one digit is its own; one more digit at the end makes it base times what it was, and that digit's
/// value; there is none exactly where there are no digits or a byte is no digit of the base.
pub fn digits_have_their_value()
    ensures one { OneDigit }
    ensures more { OneMoreDigit }
    ensures none { NoDigits }
{}

/// A text writes a decimal number exactly where it is digits, one at least: one digit writes its value, and one digit more makes the
/// number ten times as much, and the digit.
pub fn decimals_are_as_written()
    ensures there { NumbersAreOfDigits }
    ensures one { OneDigitIsItsValue }
    ensures more { EachDigitIsTimesTen }
{}

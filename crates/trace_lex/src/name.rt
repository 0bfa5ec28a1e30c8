//! Names of events and fields.

ghost use Rattle.std.specs.Prelude.{◌≡◌};
ghost use Rattle.std.specs.List.{list_all};
ghost use Rattle.trace_lex.specs.Names.{is_letter as spec_letter, is_name_byte as spec_name_byte, is_name as spec_name};

/// A name has at most so many bytes.
const LONGEST_NAME: usize = 32;

fn is_letter(byte: u8) -> bool
    ensures { result ≡ spec_letter byte }
{
    byte.is_ascii_alphabetic() || byte == b'_'
}

/// Whether a byte may stand in a name after its first byte: a letter, a digit or `_`.
pub fn is_name_byte(byte: u8) -> bool
    ensures { result ≡ spec_name_byte byte }
{
    is_letter(byte) || byte.is_ascii_digit()
}

fn are_name_bytes(text: &[u8]) -> bool
    ensures { result ≡ list_all spec_name_byte text.now }
{
    text.iter().all(|byte| is_name_byte(*byte))
}

/// Whether a text may name an event or a field: it has at most 32 bytes, all digits, letters or `_`, and does not begin with a digit. The
/// empty text may not.
pub fn is_name(text: &[u8]) -> bool
    ensures { result ≡ spec_name text.now }
{
    let Some((first, rest)) = text.split_first() else {
        return false;
    };
    text.len() <= LONGEST_NAME && is_letter(*first) && are_name_bytes(rest)
}

//! The types of fields.

ghost use Rattle.std.specs.Prelude.{◌≡◌, ◌<◌, ◌^◌, pos, ◌&&◌, int_le};
ghost use Rattle.trace_format.specs.declared.kind.Kind.TheVariants as kind;
ghost use Rattle.trace_format.specs.Kinds.{number_size, is_signed as is_signed_type, least as least_of, greatest as greatest_of, size_of, is_signed_kind, is_text_kind, type_name_of, type_of, unsigned_type_of};
ghost use Rattle.trace_format.specs.private.TypeWords.{signed_type_of, c_type_of};

use crate::words::is;

/// A type of numbers, after the field types of "Synthetic events" (histogram.rst). `u` and `s` are unsigned and signed, with their bits.
#[derive(Clone, Copy, PartialEq, Eq)]
pub enum NumberType {
    U8,
    U16,
    U32,
    U64,
    S8,
    S16,
    S32,
    S64,
    /// `int`, as `s32`.
    Int,
    /// `pid_t`, as `s32`.
    PidT,
    /// `unsigned int`, as `u32`.
    UnsignedInt,
    /// `long`, as `s64`.
    Long,
    /// `unsigned long`, as `u64`.
    UnsignedLong,
}

impl NumberType {
    /// How many bytes a number takes.
    pub fn size(self) -> usize
        ensures { result ≡ number_size self }
    {
        match self {
            NumberType::U8 | NumberType::S8 => 1,
            NumberType::U16 | NumberType::S16 => 2,
            NumberType::U32
            | NumberType::S32
            | NumberType::Int
            | NumberType::PidT
            | NumberType::UnsignedInt => 4,
            NumberType::U64 | NumberType::S64 | NumberType::Long | NumberType::UnsignedLong => 8,
        }
    }

    /// Whether there are numbers below 0.
    pub fn is_signed(self) -> bool
        ensures { result ≡ is_signed_type self }
    {
        match self {
            NumberType::U8
            | NumberType::U16
            | NumberType::U32
            | NumberType::U64
            | NumberType::UnsignedInt
            | NumberType::UnsignedLong => false,
            NumberType::S8
            | NumberType::S16
            | NumberType::S32
            | NumberType::S64
            | NumberType::Int
            | NumberType::PidT
            | NumberType::Long => true,
        }
    }

    /// The least number.
    pub fn least(self) -> i128
        ensures { result ≡ least_of self }
    {
        i128::from(self.least_signed())
    }

    /// The least number, which all types have within 64 bits.
    fn least_signed(self) -> i64
        ensures { result ≡ least_of self }
    {
        match self {
            NumberType::S8 => i64::from(i8::MIN),
            NumberType::S16 => i64::from(i16::MIN),
            NumberType::S32 | NumberType::Int | NumberType::PidT => i64::from(i32::MIN),
            NumberType::S64 | NumberType::Long => i64::MIN,
            _ => 0,
        }
    }

    /// The greatest number.
    pub fn greatest(self) -> i128
        ensures { result ≡ greatest_of self }
    {
        i128::from(self.greatest_magnitude())
    }

    /// The greatest number, which no type has below 0.
    #[inline(always)]
    pub(crate) fn greatest_magnitude(self) -> u64
        ensures { pos result ≡ greatest_of self }
    {
        match self {
            NumberType::U8 => u64::from(u8::MAX),
            NumberType::U16 => u64::from(u16::MAX),
            NumberType::U32 | NumberType::UnsignedInt => u64::from(u32::MAX),
            NumberType::U64 | NumberType::UnsignedLong => u64::MAX,
            NumberType::S8 => i8::MAX as u64,
            NumberType::S16 => i16::MAX as u64,
            NumberType::S32 | NumberType::Int | NumberType::PidT => i32::MAX as u64,
            NumberType::S64 | NumberType::Long => i64::MAX as u64,
        }
    }

    /// The first number above all patterns of the type's bytes.
    pub(crate) fn end(self) -> i128
        ensures { result ≡ pos (256 ^ number_size self) }
    {
        match self {
            NumberType::U8 | NumberType::S8 => 1 << 8,
            NumberType::U16 | NumberType::S16 => 1 << 16,
            NumberType::U32
            | NumberType::S32
            | NumberType::Int
            | NumberType::PidT
            | NumberType::UnsignedInt => 1 << 32,
            NumberType::U64 | NumberType::S64 | NumberType::Long | NumberType::UnsignedLong => 1
                << 64,
        }
    }

    /// Whether the type has the number.
    pub fn holds(self, number: i128) -> bool
        ensures { result ≡ (int_le (least_of self) number && int_le number (greatest_of self)) }
    {
        self.least() <= number && number <= self.greatest()
    }

    /// Whether the type has a number of 64 bits, without sums of 128.
    pub(crate) fn holds_signed(self, number: i64) -> bool
        ensures { result ≡ (int_le (least_of self) number && int_le number (greatest_of self)) }
    {
        self.least_signed() <= number
            && (number < 0 || number.unsigned_abs() <= self.greatest_magnitude())
    }

    /// The type that one word spells.
    pub(crate) fn from_word(word: &[u8]) -> Option<NumberType>
        ensures { result ≡ type_of word.now }
    {
        if is(word, b"u8") {
            Some(NumberType::U8)
        } else if is(word, b"u16") {
            Some(NumberType::U16)
        } else if is(word, b"u32") {
            Some(NumberType::U32)
        } else if is(word, b"u64") {
            Some(NumberType::U64)
        } else {
            NumberType::signed_from_word(word)
        }
    }

    /// The type with a sign that one word spells.
    fn signed_from_word(word: &[u8]) -> Option<NumberType>
        ensures { result ≡ signed_type_of word.now }
    {
        if is(word, b"s8") {
            Some(NumberType::S8)
        } else if is(word, b"s16") {
            Some(NumberType::S16)
        } else if is(word, b"s32") {
            Some(NumberType::S32)
        } else if is(word, b"s64") {
            Some(NumberType::S64)
        } else {
            NumberType::c_type_from_word(word)
        }
    }

    /// The type of C that one word spells.
    fn c_type_from_word(word: &[u8]) -> Option<NumberType>
        ensures { result ≡ c_type_of word.now }
    {
        if is(word, b"int") {
            Some(NumberType::Int)
        } else if is(word, b"pid_t") {
            Some(NumberType::PidT)
        } else if is(word, b"long") {
            Some(NumberType::Long)
        } else {
            None
        }
    }

    /// The type that a word spells behind `unsigned`.
    pub(crate) fn from_word_behind_unsigned(word: &[u8]) -> Option<NumberType>
        ensures { result ≡ unsigned_type_of word.now }
    {
        if is(word, b"int") {
            Some(NumberType::UnsignedInt)
        } else if is(word, b"long") {
            Some(NumberType::UnsignedLong)
        } else {
            None
        }
    }

    /// The words of the type with single blanks.
    fn name(self) -> &'static [u8]
        ensures { result.now ≡ type_name_of (kind.Number self) }
    {
        match self {
            NumberType::U8 => b"u8",
            NumberType::U16 => b"u16",
            NumberType::U32 => b"u32",
            NumberType::U64 => b"u64",
            NumberType::S8 => b"s8",
            NumberType::S16 => b"s16",
            NumberType::S32 => b"s32",
            NumberType::S64 => b"s64",
            NumberType::Int => b"int",
            NumberType::PidT => b"pid_t",
            NumberType::UnsignedInt => b"unsigned int",
            NumberType::Long => b"long",
            NumberType::UnsignedLong => b"unsigned long",
        }
    }
}

/// The type of a field.
#[derive(Clone, Copy, PartialEq, Eq)]
pub enum Kind {
    /// A number.
    Number(NumberType),
    /// `char f[N]`, a text, with its N bytes from 1 to 64.
    Char(u8),
}

impl Kind {
    /// How many bytes a field takes in a payload.
    pub fn size(self) -> usize
        ensures size { result ≡ size_of self }
        ensures bound { result < 256 }
    {
        match self {
            Kind::Number(number) => number.size(),
            Kind::Char(length) => usize::from(length),
        }
    }

    /// Whether a field holds numbers below 0.
    pub fn is_signed(self) -> bool
        ensures { result ≡ is_signed_kind self }
    {
        match self {
            Kind::Number(number) => number.is_signed(),
            Kind::Char(_) => false,
        }
    }

    /// Whether a field has texts.
    pub fn is_text(self) -> bool
        ensures { result ≡ is_text_kind self }
    {
        match self {
            Kind::Number(_) => false,
            Kind::Char(_) => true,
        }
    }

    /// The words of the type with single blanks, without the length of a text: `u64`, `unsigned int`, `char`.
    pub fn type_name(self) -> &'static [u8]
        ensures { result.now ≡ type_name_of self }
    {
        match self {
            Kind::Number(number) => number.name(),
            Kind::Char(_) => b"char",
        }
    }
}

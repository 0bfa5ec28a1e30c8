//! Declarations, read word by word.

ghost use Rattle.std.specs.Prelude.{◌≡◌, List, ℕ, IfOk, Bool, true, false, Some, None, option_map};
ghost use Rattle.std.specs.Prelude.{◌-◌, if◌then◌else◌};
ghost use Rattle.std.specs.Char.{is_ascii_digit};
ghost use Rattle.trace_format.specs.Definitions.{is_reserved as reserved, has_field as field_there};
ghost use Rattle.trace_format.specs.Reading.{text_field_of, length_of, name_cause};
ghost use Rattle.trace_format.specs.declared.kind.Kind.TheVariants as kind;

use crate::event::Field;
use crate::fault::DeclarationCause;
use crate::kind::{Kind, NumberType};
use crate::words::is;
use std::alloc::{AllocError, Global};
use std::marker::Model;
use trace_lex::{Text, is_name, len_before};

/// What may stand next in a declaration.
#[derive(Clone, Copy, PartialEq, Eq)]
pub(crate) enum Due {
    /// The event's name.
    Name,
    /// A type; behind a field's `;` also the end.
    Type,
    /// `int` or `long`, behind `unsigned`.
    Unsigned,
    /// The name of a field of numbers.
    NumberField(NumberType),
    /// The name and the length of a text field, behind `char`.
    TextField,
    /// A `;` or the end, behind a field.
    Joint,
}

/// The part of a declaration that was read.
#[derive(Drop)]
pub(crate) struct Reader {
    due: Due,
    name: Text,
    fields: Vec<Field>,
}

impl Model for Reader {
    ghost use Rattle.trace_format.specs.Reading.{Standing};

    ghost Value = { Standing };

    ghost view = { λ r. record { due = r.due; name = r.name; fields = r.fields.items } };
}

/// Whether no field may have the name.
fn is_reserved(name: &[u8]) -> bool
    ensures { result ≡ reserved name.now }
{
    is(name, b"common_pid") || is(name, b"common_cpu") || is(name, b"hitcount")
}

/// Why a word is no name of one more number field, if it is none.
fn name_cause(word: &[u8]) -> DeclarationCause
    ensures { result ≡ name_cause word.now }
{
    if !is_name(word) {
        DeclarationCause::FieldName
    } else if is_reserved(word) {
        DeclarationCause::ReservedName
    } else {
        DeclarationCause::RepeatedName
    }
}

/// Whether a field has the name.
fn has_field(fields: &[Field], name: &[u8]) -> bool
    ensures { result ≡ field_there fields.now name.now }
{
    fields.iter().any(|field| name == field.name.as_bytes())
}

impl Reader {
    ghost use Rattle.trace_format.specs.Reading.{start, step, step_at, with_field, finish as finished, cause_of, Takes};
    ghost use Rattle.trace_format.specs.declared.reader.Due.TheVariants as due;

    /// Before the first word.
    pub(crate) fn new(alloc: Global) -> Reader
        ensures { result ≡ start }
    {
        Reader {
            due: Due::Name,
            name: Text::new(alloc),
            fields: Vec::new(alloc),
        }
    }

    /// Takes one more word, and says whether it may stand there.
    pub(crate) fn take(&mut self, alloc: Global, word: &[u8]) -> Result<bool, AllocError>
        ensures { IfOk result (λ fits. Takes (step self.old word.now) fits self.new) }
    {
        match self.due {
            Due::Name => self.take_name(alloc, word),
            Due::Type => Ok(self.take_type(word)),
            Due::Unsigned => Ok(self.take_unsigned(word)),
            Due::NumberField(number) => self.take_field(alloc, word, Kind::Number(number)),
            Due::TextField => self.take_text_field(alloc, word),
            Due::Joint => Ok(self.take_joint(word)),
        }
    }

    /// What is wrong with the next word, if it can't stand there; of the end, which is as an empty word, if nothing may end there.
    pub(crate) fn cause(&self, word: &[u8]) -> DeclarationCause
        ensures { result ≡ cause_of self.now.due word.now }
    {
        match self.due {
            Due::Name => DeclarationCause::EventName,
            Due::Type => DeclarationCause::FieldType,
            Due::Unsigned => DeclarationCause::UnsignedType,
            Due::NumberField(_) => name_cause(word),
            Due::TextField => DeclarationCause::StringField,
            Due::Joint => DeclarationCause::Semicolon,
        }
    }

    /// The event's name.
    fn take_name(&mut self, alloc: Global, word: &[u8]) -> Result<bool, AllocError>
        ensures { IfOk result (λ fits. Takes (step_at due.Name self.old word.now) fits self.new) }
    {
        if !is_name(word) {
            return Ok(false);
        }
        self.name = Text::from_slice(alloc, word)?;
        self.due = Due::Type;
        Ok(true)
    }

    /// The first word of a type.
    fn take_type(&mut self, word: &[u8]) -> bool
        ensures { Takes (step_at due.Type self.old word.now) result self.new }
    {
        if is(word, b"unsigned") {
            self.due = Due::Unsigned;
        } else if is(word, b"char") {
            self.due = Due::TextField;
        } else {
            let Some(number) = NumberType::from_word(word) else {
                return false;
            };
            self.due = Due::NumberField(number);
        }
        true
    }

    /// The word behind `unsigned`.
    fn take_unsigned(&mut self, word: &[u8]) -> bool
        ensures { Takes (step_at due.Unsigned self.old word.now) result self.new }
    {
        let Some(number) = NumberType::from_word_behind_unsigned(word) else {
            return false;
        };
        self.due = Due::NumberField(number);
        true
    }

    /// A field, if it may stand behind the others.
    fn take_field(&mut self, alloc: Global, name: &[u8], kind: Kind) -> Result<bool, AllocError>
        ensures { IfOk result (λ fits. Takes (with_field self.old (record { name = name.now; kind = kind })) fits self.new) }
    {
        if !is_name(name) || is_reserved(name) || has_field(&self.fields, name) {
            return Ok(false);
        }
        let name = Text::from_slice(alloc, name)?;
        self.fields.push(Field { name, kind })?;
        self.due = Due::Joint;
        Ok(true)
    }

    /// The name and the length of a text field.
    fn take_text_field(&mut self, alloc: Global, word: &[u8]) -> Result<bool, AllocError>
        ensures { IfOk result (λ fits. Takes (step_at due.TextField self.old word.now) fits self.new) }
    {
        let Some((name, length)) = text_field(word) else {
            return Ok(false);
        };
        self.take_field(alloc, name, Kind::Char(length))
    }

    /// The name and the fields of the event that was read, if it may end there.
    pub(crate) fn finish(self) -> Option<(Text, Vec<Field>)>
        ensures { option_map (λ parts. record { name = parts.0; fields = parts.1.items }) result ≡ finished self }
    {
        let Reader { due, name, fields } = self;
        let may_end = matches!(due, Due::Type | Due::Joint) && !fields.is_empty();
        if may_end { Some((name, fields)) } else { None }
    }

    /// The `;` behind a field.
    fn take_joint(&mut self, word: &[u8]) -> bool
        ensures { Takes (step_at due.Joint self.old word.now) result self.new }
    {
        if !is(word, b";") {
            return false;
        }
        self.due = Due::Type;
        true
    }
}

/// The name and the length of a text field.
fn text_field(word: &[u8]) -> Option<(&[u8], u8)>
    ensures { option_map (λ f. record { name = f.0.now; kind = kind.Char f.1 }) result ≡ text_field_of word.now }
{
    let offset = len_before(b'[', word);
    if offset == word.len() {
        return None;
    }
    match bracketed_length(&word[offset + 1..]) {
        Some(length) => Some((&word[..offset], length)),
        None => None,
    }
}

/// A length with the bracket behind it.
fn bracketed_length(bytes: &[u8]) -> Option<u8>
    ensures { result ≡ length_of bytes.now }
{
    let (length, bracket) = match bytes {
        [ones, bracket] => (digit(*ones)?, *bracket),
        [tens, ones, bracket] => (10 * digit(*tens)? + digit(*ones)?, *bracket),
        _ => return None,
    };
    (bytes[0] != b'0' && length <= 64 && bracket == b']').then_some(length)
}

/// The value of a decimal digit.
fn digit(byte: u8) -> Option<u8>
    ensures { result ≡ (if is_ascii_digit byte then Some (byte - 48) else None) }
{
    if byte.is_ascii_digit() {
        Some(byte - b'0')
    } else {
        None
    }
}

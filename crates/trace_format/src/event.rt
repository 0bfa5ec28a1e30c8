//! Events: their names, and their fields with types.

ghost use Rattle.std.specs.Prelude.{◌≡◌, ◌<◌, ◌^◌, List, ℕ, IfOk, IfErr, length};
ghost use Rattle.trace_format.specs.private.PayloadSizes.{IsPayloadSize};

use crate::fault::DefinitionFault;
use crate::kind::Kind;
use crate::reader::Reader;
use crate::words::next_word;
use std::alloc::{AllocError, Global};
use std::marker::Model;
use trace_lex::Text;

/// A field of an event: a name that no other field of the event has, and a type.
#[derive(Drop)]
pub struct Field {
    pub name: Text,
    pub kind: Kind,
}

/// An event that a declaration defines: its name, and its fields in order. The size of its payload is kept, so that no emission adds it up.
#[derive(Drop)]
pub struct EventDef {
    name: Text,
    fields: Vec<Field>,
    payload_size: usize,
}

impl Model for EventDef {
    ghost use Rattle.trace_format.specs.Definitions.{Definition, IsDefinition};
    ghost use Rattle.trace_format.specs.private.PayloadSizes.{IsPayloadSize};

    ghost Value = { Definition };

    ghost view = { λ e. record { name = e.name; fields = e.fields.items } };

    ghost invariant = { λ e. IsDefinition (record { name = e.name; fields = e.fields.items }) × IsPayloadSize e.fields.items e.payload_size };
}

impl EventDef {
    ghost use Rattle.trace_format.specs.Definitions.{Definition, IsDefinition, Declares};
    ghost use Rattle.trace_format.specs.Words.{spots_of, words_of};
    ghost use Rattle.trace_format.specs.Reading.{definition_of, IsRead, IsRefusal, HasCause};

    /// The event that a text declares, after "Synthetic events" (histogram.rst): its name, then for each field a type and a name, with a
    /// `;` between two fields. Blanks part the words; round a `;` they may stand or lack, and so may a `;` behind the last field.
    ///
    /// Otherwise it is `BadDefinition`, at the offset of the first word or `;` with which no declaration goes on, or at the text's end,
    /// where more was to come. `Memory` comes where an allocation is refused.
    pub fn parse(alloc: Global, text: &[u8]) -> Result<EventDef, DefinitionFault>
        // What is read is declared so.
        ensures declared { IfOk result (Declares (words_of (spots_of text.now))) }
        // What is declared so is read, unless memory is refused.
        ensures only { (d : Definition) → Declares (words_of (spots_of text.now)) d → IsRead result (Ok d) }
        // What is refused is refused at the leftmost word that cannot stand there, or at the end.
        ensures refused { IfErr result (IsRefusal text.now) }
        // All of this as one function of the text.
        ensures exact { IsRead result (definition_of text.now) }
        // The cause is what the reader finds wrong where it can't go on.
        ensures cause { IfErr result (HasCause text.now) }
    {
        EventDef::read(alloc, text)
    }

    /// The event, read word by word.
    fn read(alloc: Global, text: &[u8]) -> Result<EventDef, DefinitionFault>
        ensures exact { IsRead result (definition_of text.now) }
        ensures cause { IfErr result (HasCause text.now) }
        ensures small { length text.now < 2 ^ 64 }
    {
        let len = text.len();
        let mut reader = Reader::new(alloc);
        let mut from = 0;
        while let Some(word) = next_word(text, from) {
            let cause = reader.cause(word.bytes);
            if !reader.take(alloc, word.bytes)? {
                return Err(DefinitionFault::BadDefinition { at: word.at, cause });
            }
            from = word.at + word.bytes.len();
        }
        let cause = reader.cause(&[]);
        match reader.finish() {
            Some((name, fields)) => {
                let payload_size = size_of_fields(&fields);
                Ok(EventDef {
                    name,
                    fields,
                    payload_size,
                })
            }
            None => Err(DefinitionFault::BadDefinition { at: len, cause }),
        }
    }

    /// The same event. The only error is that memory is refused.
    pub fn copy(&self, alloc: Global) -> Result<EventDef, AllocError>
        ensures { IfOk result (λ event. event ≡ self.now) }
    {
        Ok(EventDef {
            name: Text::from_slice(alloc, self.name.as_bytes())?,
            fields: copied(alloc, &self.fields)?,
            payload_size: self.payload_size,
        })
    }

    /// The event's name.
    pub fn name(&self) -> &[u8]
        ensures { result.now ≡ self.now.name }
    {
        self.name.as_bytes()
    }

    /// Its fields, in order of declaration.
    pub fn fields(&self) -> &[Field]
        ensures fields { result.now ≡ self.now.fields }
        // There is one at least, and no two have one name.
        ensures definition { IsDefinition self.now }
    {
        self.fields.as_slice()
    }

    /// How many bytes its payload takes, if it has at most 16 fields.
    pub(crate) fn payload_size(&self) -> usize
        ensures { IsPayloadSize self.now.fields result }
    {
        self.payload_size
    }
}

/// The same fields.
fn copied(alloc: Global, fields: &[Field]) -> Result<Vec<Field>, AllocError>
    ensures { IfOk result (λ copies. copies.items ≡ fields.now) }
{
    let mut copies = Vec::with_capacity(alloc, fields.len())?;
    for field in fields {
        copies.push(Field {
            name: Text::from_slice(alloc, field.name.as_bytes())?,
            kind: field.kind,
        })?;
    }
    Ok(copies)
}

/// How many bytes a payload of fields takes, if they are at most 16.
fn size_of_fields(fields: &[Field]) -> usize
    ensures { IsPayloadSize fields.now result }
{
    if fields.len() > 16 {
        return 0;
    }
    let mut size = 0;
    for field in fields {
        size += field.kind.size();
    }
    size
}

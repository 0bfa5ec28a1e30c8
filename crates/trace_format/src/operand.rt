//! What the names of filters and hist triggers mean in an event.

ghost use Rattle.std.specs.Prelude.{◌≡◌};
ghost use Rattle.trace_format.specs.Operands.{operand_from, operand_named, is_text as spec_is_text};

use crate::event::Field;
use crate::words::is;

/// What a name means in an event.
#[derive(Clone, Copy, PartialEq, Eq)]
pub enum Operand {
    /// `common_pid`.
    Pid,
    /// `common_cpu`.
    Cpu,
    /// A field, by its index in the event.
    Field { index: usize, is_text: bool },
}

impl Operand {
    /// What a name means, if it means something: `common_pid` and `common_cpu` mean the same in every event.
    #[tactic(auto, unfolding(crate::specs::Operands::operand_named))]
    pub fn named(fields: &[Field], name: &[u8]) -> Option<Operand>
        ensures { result ≡ operand_named fields.now name.now }
    {
        if is(name, b"common_pid") {
            Some(Operand::Pid)
        } else if is(name, b"common_cpu") {
            Some(Operand::Cpu)
        } else {
            Operand::field_named(fields, name)
        }
    }

    /// The field of a name, if there is one.
    fn field_named(fields: &[Field], name: &[u8]) -> Option<Operand>
        ensures { result ≡ operand_from 0 fields.now name.now }
    {
        for (index, field) in fields.iter().enumerate() {
            if field.name.as_bytes() == name {
                return Some(Operand::Field {
                    index,
                    is_text: field.kind.is_text(),
                });
            }
        }
        None
    }

    /// Whether it is a text; what is none is a number.
    pub fn is_text(self) -> bool
        ensures { result ≡ spec_is_text self }
    {
        match self {
            Operand::Pid | Operand::Cpu => false,
            Operand::Field { is_text, .. } => is_text,
        }
    }
}

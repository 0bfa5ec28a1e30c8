//! The keys of a hist trigger.

use crate::modifier::Modifier;
use crate::operand::Operand;
use trace_lex::Text;

/// A key of a hist trigger: entries are told apart by the buckets of its values.
#[derive(Drop)]
pub struct Key {
    /// All that the trigger says of it, the modifier too.
    pub written: Text,
    /// Its name, which is that of a field, `common_pid` or `common_cpu`.
    pub name: Text,
    /// How its values are put into buckets. A string's key has none but `Plain`.
    pub modifier: Modifier,
    /// What the name means in the trigger's event: where the key's value is found in an emission, and whether it is a string.
    pub operand: Operand,
}

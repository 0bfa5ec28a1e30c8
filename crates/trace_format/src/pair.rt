//! Pairs of a field's name and a value, as an emission writes them.

use trace_lex::Text;

/// A field's name and the text of its value.
#[derive(Clone, PartialEq, Eq, Drop)]
pub struct Pair {
    pub name: Text,
    pub value: Text,
}

//! What the definitions of the contracts mean. Each function does nothing: its contract is a theorem.

ghost use Rattle.std.specs.Prelude.{◌≡◌, ◌↔◌, IsTrue};
ghost use Rattle.trace_format.specs.declared.pair.Pair.{Pair as PairValue};
ghost use Rattle.trace_format.specs.CauseExamples.{DeclarationsAreRefused, RowsAreRefused};
ghost use Rattle.trace_format.specs.Laws.{WordsAreAsWritten, DefinitionIsRead, RefusalIsRead, DeclaredOrRefused, NeverBoth, OneDefinition, OneRefusal, CauseIsAtTheOffset, RowIsGiven, RefusalIsGiven, CauseIsAtThePair, OperandIsByName, PayloadIsRead, OneRow, PayloadHasItsSize};

use crate::pair::Pair;

/// The words and `;` of a text with their offsets are those of the parts that it is written of: blanks, `;` and words, where no two words
/// stand side by side and each offset is the length of all that is written before it. So each text has one list of words and offsets.
pub fn words_are_as_written()
    ensures { WordsAreAsWritten }
{}

/// For texts of fewer than 2^64 bytes, as all in memory are: reading a text gives a definition exactly where the text's words declare it, and a
/// offset exactly where the text is refused there: at the first word with which no declaration goes on, or at the end. Each text declares one
/// definition or is refused at one offset.
pub fn declarations_are_as_written()
    ensures definition { DefinitionIsRead }
    ensures refused { RefusalIsRead }
    ensures either { DeclaredOrRefused }
    ensures not_both { NeverBoth }
    ensures one_definition { OneDefinition }
    ensures one_refusal { OneRefusal }
{}

/// What `row_of` gives is a row exactly where the pairs, as a map from names, are that row of the event; and a name exactly where the first
/// wrong pair has it or, with none wrong, the first missing field.
pub fn rows_are_as_given()
    ensures row { RowIsGiven }
    ensures refused { RefusalIsGiven }
{}

/// The cause for which a text declares no event is that of the offset at which it is refused: what is wrong there with the word, or the end, by what
/// is due there. The pair to blame where pairs give no row of an event is the first wrong one, and the cause is what is wrong with it; with none wrong
/// no pair is to blame, and the cause is that the first missing field has the name.
pub fn causes_are_of_the_refusals()
    ensures declaration { CauseIsAtTheOffset }
    ensures row { CauseIsAtThePair }
{}

/// The worked examples, computed: strings that declare no event and pairs that give no row, with what is told of each.
pub fn examples_are_refused()
    ensures declarations { DeclarationsAreRefused }
    ensures rows { RowsAreRefused }
{}

/// The value of a field's name, which is found by the field's index, is the one that the row, as a map from names, has there.
pub fn operands_are_by_name()
    ensures { OperandIsByName }
{}

/// Bytes (numbers below 256) are read as a row exactly where they are the payload of that row of the event, and no two rows of an event have one payload.
pub fn payloads_are_read_as_their_rows()
    ensures row { PayloadIsRead }
    ensures unique { OneRow }
{}

/// The payload of a row of an event has as many bytes as the sizes of the event's fields come to.
pub fn payloads_have_their_size()
    ensures { PayloadHasItsSize }
{}

/// Two pairs are equal exactly where they are the same value, and a clone is the same value.
pub fn equal_pairs_are_the_same()
    ensures equal { (a : PairValue) (b : PairValue) → IsTrue (⟦<Pair as PartialEq>⟧.eq a b) ↔ (a ≡ b) }
    ensures clone { (a : PairValue) (c : PairValue) → ⟦<Pair as Clone>⟧.is_clone a c → c ≡ a }
{}

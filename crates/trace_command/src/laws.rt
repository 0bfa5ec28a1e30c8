//! What `==` and `clone` mean, as theorems that speak of no program.

ghost use Rattle.std.specs.Prelude.{◌≡◌, ◌↔◌, IsTrue};
ghost use Rattle.trace_command.specs.Commands.{Command as CommandValue};
ghost use Rattle.trace_command.specs.declared.command.Reply.{Reply as ReplyValue};
ghost use Rattle.trace_command.specs.declared.command.Entry.{Entry as EntryValue};
ghost use Rattle.trace_command.specs.declared.refusal.Refusal.{Refusal as RefusalValue};

use crate::command::{Entry, OwnedCommand, Reply};
use crate::refusal::Refusal;

/// Two commands, replies, entries or refusals are equal exactly where they are the same value.
pub fn equal_values_are_the_same()
    ensures command { (a : CommandValue) (b : CommandValue) → IsTrue (⟦<OwnedCommand as PartialEq>⟧.eq a b) ↔ (a ≡ b) }
    ensures reply { (a : ReplyValue) (b : ReplyValue) → IsTrue (⟦<Reply as PartialEq>⟧.eq a b) ↔ (a ≡ b) }
    ensures entry { (a : EntryValue) (b : EntryValue) → IsTrue (⟦<Entry as PartialEq>⟧.eq a b) ↔ (a ≡ b) }
    ensures refusal { (a : RefusalValue) (b : RefusalValue) → IsTrue (⟦<Refusal as PartialEq>⟧.eq a b) ↔ (a ≡ b) }
{}

/// A clone of a command, a reply, an entry or a refusal is the same value.
pub fn clones_are_the_same()
    ensures command { (a : CommandValue) (c : CommandValue) → ⟦<OwnedCommand as Clone>⟧.is_clone a c → c ≡ a }
    ensures reply { (a : ReplyValue) (c : ReplyValue) → ⟦<Reply as Clone>⟧.is_clone a c → c ≡ a }
    ensures entry { (a : EntryValue) (c : EntryValue) → ⟦<Entry as Clone>⟧.is_clone a c → c ≡ a }
    ensures refusal { (a : RefusalValue) (c : RefusalValue) → ⟦<Refusal as Clone>⟧.is_clone a c → c ≡ a }
{}

//! The texts that look-ups counted last.

ghost use Rattle.std.specs.Prelude.{◌≡◌, ◌≤◌, [], not, OnOk, OnErr, vec_capacity, vec_len};
ghost use Rattle.std.specs.List.{filter};
ghost use Rattle.std.specs.Option.{option_and_then, option_copied};
ghost use Rattle.mount_replies.specs.Services.{count_of, is_of_node, latest_texts, with_count, without_oldest};
ghost use Rattle.mount_replies.specs.declared.counted.Counted.{Counted as CountedValue};

use std::alloc::{AllocError, Global};
use std::marker::Model;
use trace_lex::Text;

/// How many are remembered.
const MOST_COUNTED: usize = 64;

/// How many of these are remembered with their texts.
const MOST_TEXTS: usize = 8;

/// What a look-up counted: the number of the node, how many bytes its file showed, after how many commands that was, and perhaps the text itself.
#[derive(Drop)]
pub struct Counted {
    pub node: u64,
    pub size: u64,
    pub after: u64,
    pub text: Option<Text>,
}

/// The texts that were counted last, one of a node, the latest last.
#[derive(Drop)]
pub struct CountedTexts {
    texts: Vec<Counted>,
}

impl Model for CountedTexts {
    ghost use Rattle.std.specs.Prelude.{List};
    ghost use Rattle.mount_replies.specs.declared.counted.Counted.{Counted as CountedValue};

    ghost Value = { List CountedValue };

    ghost view = { λ c. c.texts.items };
}

// Takes those of a node out.
fn take_out(texts: &mut Vec<Counted>, node: u64)
    ensures items { texts.new.items ≡ filter (λ (other : CountedValue). not (is_of_node node other)) texts.old.items }
    ensures bound { vec_len texts.new ≤ vec_len texts.old }
    ensures capacity { vec_capacity texts.new ≡ vec_capacity texts.old }
{
    texts.retain(|other| other.node != node);
}

// Takes the oldest out, if there are too many.
fn take_oldest_out(texts: &mut Vec<Counted>)
    ensures items { texts.new.items ≡ without_oldest texts.old.items }
    ensures bound { vec_len texts.new ≤ vec_len texts.old }
    ensures capacity { vec_capacity texts.old ≤ vec_capacity texts.new }
{
    if texts.len() >= MOST_COUNTED {
        drop(texts.remove(0));
    }
}

// Forgets the texts of all but the latest.
fn forget_texts(texts: &mut [Counted])
    ensures { texts.new ≡ latest_texts texts.old }
{
    let count = texts.len();
    for (index, counted) in texts.iter_mut().enumerate() {
        if count - index > MOST_TEXTS {
            counted.text = None;
        }
    }
}

impl CountedTexts {
    /// None.
    pub(crate) fn new(alloc: Global) -> CountedTexts
        ensures { result ≡ [] }
    {
        CountedTexts {
            texts: Vec::new(alloc),
        }
    }

    /// That of a node.
    pub(crate) fn of(&self, node: u64) -> Option<&Counted>
        ensures { option_copied result ≡ count_of node self.now }
    {
        self.texts.iter().find(|count| count.node == node)
    }

    /// The text of a node, if it is kept.
    pub(crate) fn text(&self, node: u64) -> Option<&Text>
        ensures { option_copied result ≡ option_and_then (λ (count : CountedValue). count.text) (count_of node self.now) }
    {
        match self.of(node) {
            Some(count) => match &count.text {
                Some(text) => Some(text),
                None => None,
            },
            None => None,
        }
    }

    /// Keeps one more, in place of its node's, or of the oldest of too many. If memory is refused, nothing has changed.
    pub(crate) fn keep(&mut self, count: Counted) -> Result<(), AllocError>
        ensures ok { OnOk result (self.new ≡ with_count count self.old) }
        ensures err { OnErr result (self.new ≡ self.old) }
    {
        self.texts.reserve(1)?;
        take_out(&mut self.texts, count.node);
        take_oldest_out(&mut self.texts);
        self.texts.push_reserved(count);
        forget_texts(self.texts.as_mut_slice());
        Ok(())
    }
}

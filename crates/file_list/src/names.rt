//! The names of the events and instances that there are.

ghost use Rattle.std.specs.Prelude.{◌≡◌, ◌++◌, ◌∷◌, [], OnOk, OnErr};
ghost use Rattle.file_list.specs.Names.{after_hearing, after_making, after_removing, index_of, no_names, with_event_name, with_instance};

use std::alloc::{AllocError, Global};
use std::marker::Model;
use trace_lex::Text;
use trace_script::{Change, Outcome, change_of};

/// The names of the events and instances that there are after the lines that were heard.
#[derive(Drop)]
pub struct Names {
    pub(crate) alloc: Global,
    pub(crate) events: Vec<Text>,
    pub(crate) instances: Vec<Text>,
    /// Of instances that were heard to be removed before they were heard to be made.
    gone: Vec<Text>,
}

impl Model for Names {
    ghost use Rattle.file_list.specs.Names.{NamesSeen};

    ghost Value = { NamesSeen };

    ghost view = { λ names. record { events = names.events.items; instances = names.instances.items; gone = names.gone.items } };
}

/// Where a name is among others.
fn index_of(name: &[u8], names: &[Text]) -> Option<usize>
    ensures { result ≡ index_of name.now names.now }
{
    names.iter().position(|other| other.as_bytes() == name)
}

/// Adds a name to others.
fn push_name(alloc: Global, names: &mut Vec<Text>, name: &[u8]) -> Result<(), AllocError>
    ensures ok { OnOk result (names.new.items ≡ names.old.items ++ name.now ∷ []) }
    ensures err { OnErr result (names.new.items ≡ names.old.items) }
{
    let name = Text::from_slice(alloc, name)?;
    names.push(name)?;
    Ok(())
}

impl Names {
    /// Those before the first line: no event, and no instance beside the top one.
    pub fn new(alloc: Global) -> Names
        ensures { result ≡ no_names }
    {
        Names {
            alloc,
            events: Vec::new(alloc),
            instances: Vec::new(alloc),
            gone: Vec::new(alloc),
        }
    }

    /// Adds an event of this name.
    pub fn add_event(&mut self, name: &[u8]) -> Result<(), AllocError>
        ensures ok { OnOk result (self.new ≡ with_event_name name.now self.old) }
        ensures err { OnErr result (self.new ≡ self.old) }
    {
        push_name(self.alloc, &mut self.events, name)
    }

    /// Adds an instance of this name.
    pub fn add_instance(&mut self, name: &[u8]) -> Result<(), AllocError>
        ensures ok { OnOk result (self.new ≡ with_instance name.now self.old) }
        ensures err { OnErr result (self.new ≡ self.old) }
    {
        push_name(self.alloc, &mut self.instances, name)
    }

    fn make(&mut self, name: &[u8]) -> Result<(), AllocError>
        ensures ok { OnOk result (self.new ≡ after_making name.now (index_of name.now self.old.gone) self.old) }
        ensures err { OnErr result (self.new ≡ self.old) }
    {
        match index_of(name, &self.gone) {
            Some(index) => {
                drop(self.gone.remove(index));
                Ok(())
            }
            None => self.add_instance(name),
        }
    }

    fn remove(&mut self, name: &[u8]) -> Result<(), AllocError>
        ensures ok { OnOk result (self.new ≡ after_removing name.now (index_of name.now self.old.instances) self.old) }
        ensures err { OnErr result (self.new ≡ self.old) }
    {
        match index_of(name, &self.instances) {
            Some(index) => {
                drop(self.instances.remove(index));
                Ok(())
            }
            None => push_name(self.alloc, &mut self.gone, name),
        }
    }

    /// Hears what became of a line. A line that was done may declare an event, or make or remove an instance; any other changes nothing. If memory
    /// is refused, the names are as before.
    pub fn hear(&mut self, line: &[u8], outcome: &Outcome) -> Result<(), AllocError>
        ensures ok { OnOk result (self.new ≡ after_hearing line.now outcome.now self.old) }
        ensures err { OnErr result (self.new ≡ self.old) }
    {
        match change_of(self.alloc, line, outcome)? {
            Some(Change::Declares(event)) => self.add_event(event.name()),
            Some(Change::Makes(name)) => self.make(name.as_bytes()),
            Some(Change::Removes(name)) => self.remove(name.as_bytes()),
            None => Ok(()),
        }
    }
}

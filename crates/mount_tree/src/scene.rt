//! What a look-up needs of a tracer.

ghost use Rattle.std.specs.Prelude.{List, ℕ, ◌≡◌, ◌<◌, ◌≤◌, ◌↔◌, IfNone, IfSome, IsTrue, OnOk, OnErr, option_copied, is_some};
ghost use Rattle.std.specs.Option.{option_map};
ghost use Rattle.trace_command.specs.FileNames.{bytes_now};
ghost use Rattle.mount_tree.specs.Children.{folder_is_there, file_is_there, is_there, owner_is_there};
ghost use Rattle.mount_tree.specs.Scenes.{event_at, event_name, has_folder, instance_at, instance_name, most_events, most_made, new_scene, SceneSeen as SceneValue, with_event, with_instance, without_instance, without_named};

use crate::node::{Node, Owner};
use file_list::{File, Folder};
use std::alloc::{AllocError, Global};
use std::marker::Model;
use trace_lex::Text;

/// An event with a folder: how many were declared before it, and its name.
#[derive(Drop)]
pub struct Event {
    pub index: u8,
    pub name: Text,
}

/// An instance other than the top one: how many were made before it, and its name.
#[derive(Drop)]
pub struct Instance {
    pub serial: u32,
    pub name: Text,
}

/// What a look-up needs of a tracer: how many CPUs it has, and which events and instances.
pub struct Scene {
    alloc: Global,
    pub(crate) cpus: u8,
    pub(crate) events: Vec<Event>,
    declared: u32,
    pub(crate) instances: Vec<Instance>,
    made: u32,
}

impl Drop for Scene {
    // Not derived, so that no crate above proves the drops of its parts.
    fn drop(self) {
        let Scene {
            alloc: _,
            cpus: _,
            events: _,
            declared: _,
            instances: _,
            made: _,
        } = self;
    }
}

impl Model for Scene {
    ghost use Rattle.std.specs.Prelude.{◌≤◌};
    ghost use Rattle.mount_tree.specs.Scenes.{SceneSeen};

    ghost Value = { SceneSeen };

    ghost view = { λ s. record { cpus = s.cpus; events = s.events.items; declared = s.declared; instances = s.instances.items; made = s.made } };

    ghost invariant = { λ s. s.cpus ≤ 8 };
}

/// Whether an event of this name has a folder: not where it would be called as a file beside it.
fn has_folder(name: &[u8]) -> bool
    ensures { result ≡ has_folder name.now }
{
    !(name == b"enable".as_slice() || name == b"filter".as_slice())
}

impl Scene {
    /// That of a tracer with so many CPUs of which nothing was asked yet.
    pub fn new(alloc: Global, cpus: u32) -> Scene
        requires { cpus ≤ 8 }
        ensures { result ≡ new_scene cpus }
    {
        Scene {
            alloc,
            cpus: cpus as u8,
            events: Vec::new(alloc),
            declared: 0,
            instances: Vec::new(alloc),
            made: 0,
        }
    }

    /// Adds an event that was declared. If memory is refused, nothing has changed.
    pub fn add_event(&mut self, name: &[u8]) -> Result<(), AllocError>
        requires { self.old.declared < most_events }
        ensures ok { OnOk result (self.new ≡ with_event name.now self.old) }
        ensures err { OnErr result (self.new ≡ self.old) }
    {
        if has_folder(name) {
            let index = self.declared as u8;
            let name = Text::from_slice(self.alloc, name)?;
            self.events.push(Event { index, name })?;
        }
        self.declared += 1;
        Ok(())
    }

    /// Adds an instance that was made. If memory is refused, nothing has changed.
    pub fn add_instance(&mut self, name: &[u8]) -> Result<(), AllocError>
        requires { self.old.made < most_made }
        ensures ok { OnOk result (self.new ≡ with_instance name.now self.old) }
        ensures err { OnErr result (self.new ≡ self.old) }
    {
        let serial = self.made;
        let name = Text::from_slice(self.alloc, name)?;
        self.instances.push(Instance { serial, name })?;
        self.made += 1;
        Ok(())
    }

    /// Takes out an instance that was removed.
    pub fn remove_instance(&mut self, name: &[u8])
        ensures { self.new ≡ without_instance name.now self.old }
    {
        take_out(&mut self.instances, name);
    }

    /// Takes back the event of this name that was added last, for a caller whose tracer then refused it.
    pub fn take_back_event(&mut self, name: &[u8])
        ensures { (before : SceneValue) → self.old ≡ with_event name.now before → self.new ≡ before }
    {
        if has_folder(name) {
            drop(self.events.pop());
        }
        self.declared = self.declared.saturating_sub(1);
    }

    /// Takes back the instance that was added last, for a caller whose tracer then refused it.
    pub fn take_back_instance(&mut self)
        ensures { (before : SceneValue) (name : List ℕ) → self.old ≡ with_instance name before → self.new ≡ before }
    {
        drop(self.instances.pop());
        self.made = self.made.saturating_sub(1);
    }

    /// Whether another instance can be added.
    pub fn can_make(&self) -> bool
        ensures { IsTrue result ↔ (self.now.made < most_made) }
    {
        self.made < u32::MAX
    }

    /// The number of the next instance, if another one can be added.
    pub fn next_serial(&self) -> Option<u32>
        ensures some { IfSome result (λ serial. (serial ≡ self.now.made) × (self.now.made < most_made)) }
        ensures none { IfNone result (most_made ≤ self.now.made) }
    {
        if self.can_make() {
            Some(self.made)
        } else {
            None
        }
    }

    /// Whether another event can be added.
    pub fn can_declare(&self) -> bool
        ensures { IsTrue result ↔ (self.now.declared < most_events) }
    {
        self.declared < 256
    }

    /// How many CPUs there are.
    pub fn cpus(&self) -> u8
        ensures value { result ≡ self.now.cpus }
        ensures bound { result ≤ 8 }
    {
        self.cpus
    }

    /// The events that have a folder, in order of declaration.
    pub fn events(&self) -> &[Event]
        ensures { result.now ≡ self.now.events }
    {
        &self.events
    }

    /// The name of the event at this index, if it has a folder.
    pub fn event_name(&self, index: u8) -> Option<&[u8]>
        ensures { option_map bytes_now result ≡ event_name index self.now.events }
    {
        let event = self.events.iter().find(|event| event.index == index)?;
        Some(event.name.as_bytes())
    }

    /// The name of the instance with this serial number, if it is there.
    pub fn instance_name(&self, serial: u32) -> Option<&[u8]>
        ensures { option_map bytes_now result ≡ instance_name serial self.now.instances }
    {
        let instance = self
            .instances
            .iter()
            .find(|instance| instance.serial == serial)?;
        Some(instance.name.as_bytes())
    }

    fn owner_exists(&self, owner: Owner) -> bool
        ensures { result ≡ owner_is_there self.now owner }
    {
        match owner {
            Owner::Top => true,
            Owner::Made(serial) => self.instance_name(serial).is_some(),
        }
    }

    fn folder_exists(&self, owner: Owner, folder: Folder) -> bool
        ensures { result ≡ folder_is_there self.now owner folder }
    {
        match folder {
            Folder::Instances => owner.is_top(),
            Folder::Cpu(cpu) => cpu < self.cpus,
            Folder::Event(event) => self.event_name(event).is_some(),
            Folder::Root
            | Folder::Options
            | Folder::PerCpu
            | Folder::Events
            | Folder::Synthetic
            | Folder::Ftrace
            | Folder::FtracePrint => true,
        }
    }

    fn file_exists(&self, owner: Owner, file: File) -> bool
        ensures { result ≡ file_is_there self.now owner file }
    {
        match file {
            File::SyntheticEvents | File::OfTop(_) => owner.is_top(),
            File::OfInstance(_)
            | File::SystemEnable
            | File::OfCpu(_, _)
            | File::OfEvent(_, _)
            | File::Inject(_)
            | File::Tool(_)
            | File::CpuSize(_)
            | File::EventId(_)
            | File::ErrorLog
            | File::Layout(_)
            | File::RawPipe(_) => self.folder_exists(owner, file.parent()),
        }
    }

    /// Whether a folder or file is there: its instance, its CPU and its event are.
    pub fn exists(&self, node: Node) -> bool
        ensures { result ≡ is_there self.now node }
    {
        match node {
            Node::Folder(owner, folder) => {
                self.owner_exists(owner) && self.folder_exists(owner, folder)
            }
            Node::File(owner, file) => self.owner_exists(owner) && self.file_exists(owner, file),
        }
    }
}

// Takes out those of this name.
fn take_out(instances: &mut Vec<Instance>, name: &[u8])
    ensures { instances.new.items ≡ without_named name.now instances.old.items }
{
    instances.retain(|instance| instance.name.as_bytes() != name);
}

//! The entries of folders: look-ups and lists.
//!
//! Some entries a folder always has (`fixed_entry`, `fixed_named`); others it has for the CPUs, events and instances that there are
//! (`Scene::made_entry`, `made_named`), and these come last. A list has `.` and `..` before them.

ghost use Rattle.std.specs.Prelude.{◌≡◌, ◌≤◌, ◌-◌, ◌<◌, ◌++◌, bytes_eq, length, map, option_copied, slice_get};
ghost use Rattle.std.specs.List.{find};
ghost use Rattle.std.specs.Option.{option_map};
ghost use Rattle.mount_tree.specs.Children.{children, cpu_children, cpu_name, event_child, fixed_children, instance_child, made_children, node_named};
ghost use Rattle.mount_tree.specs.FolderEntries.{child_of};
ghost use Rattle.mount_tree.specs.FolderLists.{dots, folder_list};
ghost use Rattle.mount_tree.specs.declared.scene.Event.{Event as EventValue};
ghost use Rattle.mount_tree.specs.declared.scene.Instance.{Instance as InstanceValue};

use crate::fixed::{fixed_entry, fixed_named, folder_entry};
use crate::node::{Node, Owner};
use crate::scene::{Event, Instance, Scene};
use file_list::Folder;

/// An entry of a folder: its name, and what it is.
#[derive(Clone, Copy)]
pub struct Entry<'a> {
    pub name: &'a [u8],
    pub node: Node,
}

// `cpuN`.

fn cpu_name(cpu: u8) -> &'static str
    requires { cpu < 8 }
    ensures { result.now ≡ cpu_name cpu }
{
    match cpu {
        0 => "cpu0",
        1 => "cpu1",
        2 => "cpu2",
        3 => "cpu3",
        4 => "cpu4",
        5 => "cpu5",
        6 => "cpu6",
        _ => "cpu7",
    }
}

fn cpu_folder_entry(owner: Owner, cpus: u8, index: usize) -> Option<Entry<'static>>
    requires { cpus ≤ 8 }
    ensures { option_map child_of result ≡ slice_get (cpu_children owner cpus) index }
{
    if index >= usize::from(cpus) {
        return None;
    }
    let cpu = index as u8;
    folder_entry(owner, cpu_name(cpu), Folder::Cpu(cpu))
}

fn event_folder_entry(owner: Owner, events: &[Event], index: usize) -> Option<Entry<'_>>
    ensures { option_map child_of result ≡ slice_get (map (event_child owner) events.now) index }
{
    let event = events.get(index)?;
    Some(Entry {
        name: event.name.as_bytes(),
        node: Node::Folder(owner, Folder::Event(event.index)),
    })
}

fn instance_entry(instances: &[Instance], index: usize) -> Option<Entry<'_>>
    ensures { option_map child_of result ≡ slice_get (map instance_child instances.now) index }
{
    let instance = instances.get(index)?;
    Some(Entry {
        name: instance.name.as_bytes(),
        node: Node::Folder(Owner::Made(instance.serial), Folder::Root),
    })
}

fn cpu_named(owner: Owner, cpus: u8, name: &[u8]) -> Option<Node>
    requires { cpus ≤ 8 }
    ensures { result ≡ node_named name.now (cpu_children owner cpus) }
{
    for cpu in 0..cpus {
        if cpu_name(cpu).as_bytes() == name {
            return Some(Node::Folder(owner, Folder::Cpu(cpu)));
        }
    }
    None
}

fn event_named(owner: Owner, events: &[Event], name: &[u8]) -> Option<Node>
    ensures { result ≡ node_named name.now (map (event_child owner) events.now) }
{
    match event_called(events, name) {
        Some(event) => Some(Node::Folder(owner, Folder::Event(event.index))),
        None => None,
    }
}

fn event_called<'a>(events: &'a [Event], name: &[u8]) -> Option<&'a Event>
    ensures { option_copied result ≡ find (λ (e : EventValue). bytes_eq e.name name.now) events.now }
{
    events.iter().find(|event| event.name.as_bytes() == name)
}

fn instance_named(instances: &[Instance], name: &[u8]) -> Option<Node>
    ensures { result ≡ node_named name.now (map instance_child instances.now) }
{
    match instance_called(instances, name) {
        Some(instance) => Some(Node::Folder(Owner::Made(instance.serial), Folder::Root)),
        None => None,
    }
}

fn instance_called<'a>(instances: &'a [Instance], name: &[u8]) -> Option<&'a Instance>
    ensures { option_copied result ≡ find (λ (i : InstanceValue). bytes_eq i.name name.now) instances.now }
{
    instances
        .iter()
        .find(|instance| instance.name.as_bytes() == name)
}

impl Scene {
    // Of those that a folder has for the CPUs, events and instances.
    fn made_entry(&self, owner: Owner, folder: Folder, index: usize) -> Option<Entry<'_>>
        requires { length (fixed_children owner folder) ≤ index }
        ensures { option_map child_of result
            ≡ slice_get (made_children self.now owner folder) (index - length (fixed_children owner folder)) }
    {
        match folder {
            Folder::Instances => instance_entry(&self.instances, index),
            Folder::PerCpu => cpu_folder_entry(owner, self.cpus, index),
            Folder::Synthetic => event_folder_entry(owner, &self.events, index - 2),
            Folder::Root
            | Folder::Options
            | Folder::Cpu(_)
            | Folder::Events
            | Folder::Event(_)
            | Folder::Ftrace
            | Folder::FtracePrint => None,
        }
    }

    fn made_named(&self, owner: Owner, folder: Folder, name: &[u8]) -> Option<Node>
        ensures { result ≡ node_named name.now (made_children self.now owner folder) }
    {
        match folder {
            Folder::Instances => instance_named(&self.instances, name),
            Folder::PerCpu => cpu_named(owner, self.cpus, name),
            Folder::Synthetic => event_named(owner, &self.events, name),
            Folder::Root
            | Folder::Options
            | Folder::Cpu(_)
            | Folder::Events
            | Folder::Event(_)
            | Folder::Ftrace
            | Folder::FtracePrint => None,
        }
    }

    // What is at this index among what look-ups find in a folder that is there.
    fn child_entry(&self, owner: Owner, folder: Folder, index: usize) -> Option<Entry<'_>>
        ensures { option_map child_of result
            ≡ slice_get (fixed_children owner folder ++ made_children self.now owner folder) index }
    {
        match fixed_entry(owner, folder, index) {
            Some(entry) => Some(entry),
            None => self.made_entry(owner, folder, index),
        }
    }

    // What is at this index in the list of a folder that is there.
    fn listed_entry(&self, owner: Owner, folder: Folder, index: usize) -> Option<Entry<'_>>
        ensures { option_map child_of result
            ≡ slice_get (dots (Node.Folder owner folder) ++ (fixed_children owner folder ++ made_children self.now owner folder)) index }
    {
        let here = Node::Folder(owner, folder);
        match index {
            0 => Some(Entry {
                name: ".".as_bytes(),
                node: here,
            }),
            1 => Some(Entry {
                name: "..".as_bytes(),
                node: here.parent(),
            }),
            _ => self.child_entry(owner, folder, index - 2),
        }
    }

    /// The entry at this index in a folder's list, in which `.` and `..` come first; `None` beyond the last one, and of what is no folder or is not
    /// there.
    pub fn entry(&self, folder: Node, index: usize) -> Option<Entry<'_>>
        ensures { option_map child_of result ≡ slice_get (folder_list self.now folder) index }
    {
        if !self.exists(folder) {
            return None;
        }
        match folder {
            Node::Folder(owner, folder) => self.listed_entry(owner, folder, index),
            Node::File(_, _) => None,
        }
    }

    // The node of this name in the list of a folder that is there.
    fn listed_named(&self, owner: Owner, folder: Folder, name: &[u8]) -> Option<Node>
        ensures { result ≡ node_named name.now (fixed_children owner folder ++ made_children self.now owner folder) }
    {
        match fixed_named(owner, folder, name) {
            Some(node) => Some(node),
            None => self.made_named(owner, folder, name),
        }
    }

    /// The entry of this name in a folder. `None`, if it has none of this name, and of what is no folder or is not there.
    pub fn lookup(&self, folder: Node, name: &[u8]) -> Option<Node>
        ensures { result ≡ node_named name.now (children self.now folder) }
    {
        if !self.exists(folder) {
            return None;
        }
        match folder {
            Node::Folder(owner, folder) => self.listed_named(owner, folder, name),
            Node::File(_, _) => None,
        }
    }
}

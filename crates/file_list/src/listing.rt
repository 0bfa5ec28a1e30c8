//! The list of the files that there are.

ghost use Rattle.std.specs.Prelude.{◌≡◌, ◌++◌, IfOk, OnOk, codes};
ghost use Rattle.std.specs.List.{flat_map};
ghost use Rattle.file_list.specs.FileKinds.{access_of_file};
ghost use Rattle.file_list.specs.FileTable.{file_name};
ghost use Rattle.file_list.specs.Files.{cpu_folder, event_folder, item_line, line_of, listed_below, lines_in, lines_of_cpu, lines_of_cpus, lines_of_event, lines_of_events, lines_of_instance};
ghost use Rattle.file_list.specs.Listings.{instance_folder, listing};

use crate::file::File;
use crate::files::{CPU, EVENT, EVENTS, Item, OPTIONS, SYNTHETIC};
use crate::folder::Folder;
use crate::names::Names;
use itoa::Buffer;
use std::alloc::{AllocError, Global};
use trace_lex::Text;

/// Appends the line of a file in this folder of the instance with this folder.
#[tactic(auto, unfolding(crate::specs::Files::line_of))]
fn push_file(
    out: &mut Vec<u8>,
    instance: &[u8],
    folder: &[u8],
    file: File,
) -> Result<(), AllocError>
    ensures { OnOk result (out.new.items ≡ out.old.items ++ line_of (access_of_file file) (instance.now ++ folder.now ++ file_name file)) }
{
    out.extend_from_slice(file.access().word().as_bytes())?;
    out.push(b' ')?;
    out.extend_from_slice(instance)?;
    out.extend_from_slice(folder)?;
    out.extend_from_slice(file.name().as_bytes())?;
    out.push(b'\n')?;
    Ok(())
}

/// Appends the line of what a folder has, if it is a file that commands know.
fn push_item(
    out: &mut Vec<u8>,
    instance: &[u8],
    folder: &[u8],
    item: Item,
) -> Result<(), AllocError>
    ensures { OnOk result (out.new.items ≡ out.old.items ++ item_line instance.now folder.now item) }
{
    match item {
        Item::File(file) => {
            if file.is_listed() {
                push_file(out, instance, folder, file)
            } else {
                Ok(())
            }
        }
        Item::Folder(_) => Ok(()),
    }
}

/// Appends the lines of the files that a folder has.
fn push_items(
    out: &mut Vec<u8>,
    instance: &[u8],
    folder: &[u8],
    items: &[Item],
) -> Result<(), AllocError>
    ensures { OnOk result (out.new.items ≡ out.old.items ++ lines_in instance.now folder.now items.now) }
{
    for item in items {
        push_item(out, instance, folder, *item)?;
    }
    Ok(())
}

/// A folder, as bytes: those before its name, the name and a slash.
fn folder_of(alloc: Global, before: &[u8], name: &[u8]) -> Result<Vec<u8>, AllocError>
    ensures { IfOk result (λ folder. folder.items ≡ before.now ++ name.now ++ codes "/") }
{
    let mut folder = Vec::from_slice(alloc, before)?;
    folder.extend_from_slice(name)?;
    folder.push(b'/')?;
    Ok(folder)
}

/// The folder of an event.
#[tactic(auto, unfolding(crate::specs::Files::event_folder))]
fn event_folder(alloc: Global, event: &[u8]) -> Result<Vec<u8>, AllocError>
    ensures { IfOk result (λ folder. folder.items ≡ event_folder event.now) }
{
    folder_of(alloc, b"events/synthetic/".as_slice(), event)
}

/// Appends the lines of the files of an event.
fn push_event(
    alloc: Global,
    out: &mut Vec<u8>,
    instance: &[u8],
    event: &[u8],
) -> Result<(), AllocError>
    ensures { OnOk result (out.new.items ≡ out.old.items ++ lines_of_event instance.now event.now) }
{
    let folder = event_folder(alloc, event)?;
    push_items(out, instance, &folder, &EVENT)
}

/// Appends the lines of the files of each event.
fn push_each_event(
    alloc: Global,
    out: &mut Vec<u8>,
    instance: &[u8],
    events: &[Text],
) -> Result<(), AllocError>
    ensures { OnOk result (out.new.items ≡ out.old.items ++ flat_map (lines_of_event instance.now) events.now) }
{
    for event in events {
        push_event(alloc, out, instance, event.as_bytes())?;
    }
    Ok(())
}

/// The folder of a CPU.
#[tactic(auto, unfolding(crate::specs::Files::cpu_folder))]
fn cpu_folder(alloc: Global, cpu: u32) -> Result<Vec<u8>, AllocError>
    ensures { IfOk result (λ folder. folder.items ≡ cpu_folder cpu) }
{
    let mut digits = Buffer::new();
    folder_of(
        alloc,
        b"per_cpu/cpu".as_slice(),
        digits.format(cpu).as_bytes(),
    )
}

/// Appends the lines of the files of a CPU.
fn push_cpu(alloc: Global, out: &mut Vec<u8>, instance: &[u8], cpu: u32) -> Result<(), AllocError>
    ensures { OnOk result (out.new.items ≡ out.old.items ++ lines_of_cpu instance.now cpu) }
{
    let folder = cpu_folder(alloc, cpu)?;
    push_items(out, instance, &folder, &CPU)
}

/// Appends the lines of the files of so many CPUs.
fn push_cpus(alloc: Global, out: &mut Vec<u8>, instance: &[u8], cpus: u32) -> Result<(), AllocError>
    ensures { OnOk result (out.new.items ≡ out.old.items ++ lines_of_cpus instance.now cpus) }
{
    for cpu in 0..cpus {
        push_cpu(alloc, out, instance, cpu)?;
    }
    Ok(())
}

/// The folder of an instance.
#[tactic(auto, unfolding(crate::specs::Listings::instance_folder))]
fn instance_folder(alloc: Global, instance: &[u8]) -> Result<Vec<u8>, AllocError>
    ensures { IfOk result (λ folder. folder.items ≡ instance_folder instance.now) }
{
    folder_of(alloc, b"instances/".as_slice(), instance)
}

impl Names {
    /// Appends the lines of the files of all events, and of each event.
    fn push_events(&self, out: &mut Vec<u8>, instance: &[u8]) -> Result<(), AllocError>
        ensures { OnOk result (out.new.items ≡ out.old.items ++ lines_of_events self.now.events instance.now) }
    {
        push_items(out, instance, b"events/".as_slice(), &EVENTS)?;
        push_items(out, instance, b"events/synthetic/".as_slice(), &SYNTHETIC)?;
        push_each_event(self.alloc, out, instance, &self.events)
    }

    /// Appends the lines of what an instance with this folder has in its own folder, and of the files below it.
    fn push_below(
        &self,
        out: &mut Vec<u8>,
        cpus: u32,
        instance: &[u8],
        item: Item,
    ) -> Result<(), AllocError>
        ensures { OnOk result (out.new.items ≡ out.old.items ++ listed_below cpus self.now.events instance.now item) }
    {
        match item {
            Item::Folder(Folder::Options) => {
                push_items(out, instance, b"options/".as_slice(), &OPTIONS)
            }
            Item::Folder(Folder::Events) => self.push_events(out, instance),
            Item::Folder(Folder::PerCpu) => push_cpus(self.alloc, out, instance, cpus),
            _ => push_item(out, instance, b"".as_slice(), item),
        }
    }

    /// Appends the lines of the files of an instance, whose folder this is.
    fn push_instance(&self, out: &mut Vec<u8>, cpus: u32, folder: &[u8]) -> Result<(), AllocError>
        ensures { OnOk result (out.new.items ≡ out.old.items ++ lines_of_instance cpus self.now.events folder.now) }
    {
        for item in Folder::Root.items(false) {
            self.push_below(out, cpus, folder, *item)?;
        }
        Ok(())
    }

    /// Appends the lines of the files of each instance but the top one.
    fn push_instances(&self, out: &mut Vec<u8>, cpus: u32) -> Result<(), AllocError>
        ensures { OnOk result (out.new.items ≡ out.old.items
            ++ flat_map (λ instance. lines_of_instance cpus self.now.events (instance_folder instance)) self.now.instances) }
    {
        for instance in &self.instances {
            let folder = instance_folder(self.alloc, instance.as_bytes())?;
            self.push_instance(out, cpus, &folder)?;
        }
        Ok(())
    }

    /// The files that there are, with so many CPUs: a line for each, which has `r`, `w` or `rw`, a space and the file's path. The files of the top
    /// instance come first, then those of each other one.
    #[tactic(auto, unfolding(crate::specs::Listings::listing))]
    pub fn list(&self, cpus: u32) -> Result<Vec<u8>, AllocError>
        ensures { IfOk result (λ text. text.items ≡ listing cpus self.now) }
    {
        let mut out = Vec::new(self.alloc);
        push_file(
            &mut out,
            b"".as_slice(),
            b"".as_slice(),
            File::SyntheticEvents,
        )?;
        self.push_instance(&mut out, cpus, b"".as_slice())?;
        self.push_instances(&mut out, cpus)?;
        Ok(out)
    }
}

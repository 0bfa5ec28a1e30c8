//! The paths of folders and files, as commands take them.

ghost use Rattle.std.specs.Prelude.{◌≡◌, ◌++◌, OnOk, codes};
ghost use Rattle.std.specs.Option.{option_map};
ghost use Rattle.trace_command.specs.FileNames.{bytes_now};
ghost use Rattle.file_list.specs.Files.{cpu_folder, event_folder};
ghost use Rattle.file_list.specs.Listings.{instance_folder};
ghost use Rattle.mount_tree.specs.NodePaths.{folder_path, owner_path, path_of};

use crate::node::{Node, Owner};
use crate::scene::Scene;
use file_list::{File, Folder};
use itoa::Buffer;
use std::alloc::AllocError;

// Appends a folder that is below another one: what is before its name, the name and a slash.
fn push_folder(out: &mut Vec<u8>, before: &[u8], name: &[u8]) -> Result<(), AllocError>
    ensures { OnOk result (out.new.items ≡ out.old.items ++ (before.now ++ name.now ++ codes "/")) }
{
    out.extend_from_slice(before)?;
    out.extend_from_slice(name)?;
    out.push(b'/')?;
    Ok(())
}

// Appends the folder of a CPU in its instance.
#[tactic(auto, unfolding(file_list::specs::Files::cpu_folder))]
fn push_cpu(out: &mut Vec<u8>, cpu: u8) -> Result<(), AllocError>
    ensures { OnOk result (out.new.items ≡ out.old.items ++ cpu_folder cpu) }
{
    let mut digits = Buffer::new();
    push_folder(
        out,
        b"per_cpu/cpu".as_slice(),
        digits.format(cpu).as_bytes(),
    )
}

impl Scene {
    // Appends the path of an instance's own folder.
    #[tactic(auto, unfolding(file_list::specs::Listings::instance_folder))]
    fn push_owner(&self, out: &mut Vec<u8>, owner: Owner) -> Result<(), AllocError>
        ensures { OnOk result (out.new.items ≡ out.old.items ++ owner_path self.now owner) }
    {
        match owner {
            Owner::Top => Ok(()),
            Owner::Made(serial) => {
                let name = self.instance_name(serial).unwrap_or(&[]);
                push_folder(out, b"instances/".as_slice(), name)
            }
        }
    }

    // Appends the path of a folder of an instance.
    fn push_in_instance(&self, out: &mut Vec<u8>, folder: Folder) -> Result<(), AllocError>
        ensures { OnOk result (out.new.items ≡ out.old.items ++ folder_path self.now folder) }
    {
        match folder {
            Folder::Root => Ok(()),
            Folder::Instances => out.extend_from_slice(b"instances/".as_slice()),
            Folder::Options => out.extend_from_slice(b"options/".as_slice()),
            Folder::PerCpu => out.extend_from_slice(b"per_cpu/".as_slice()),
            Folder::Events => out.extend_from_slice(b"events/".as_slice()),
            Folder::Synthetic => out.extend_from_slice(b"events/synthetic/".as_slice()),
            Folder::Ftrace => out.extend_from_slice(b"events/ftrace/".as_slice()),
            Folder::FtracePrint => out.extend_from_slice(b"events/ftrace/print/".as_slice()),
            Folder::Cpu(cpu) => push_cpu(out, cpu),
            Folder::Event(event) => self.push_event(out, event),
        }
    }

    // Appends the folder of an event in its instance.
    #[tactic(auto, unfolding(file_list::specs::Files::event_folder))]
    fn push_event(&self, out: &mut Vec<u8>, event: u8) -> Result<(), AllocError>
        ensures { OnOk result (out.new.items ≡ out.old.items ++ folder_path self.now (Folder.Event event)) }
    {
        let name = self.event_name(event).unwrap_or(&[]);
        push_folder(out, b"events/synthetic/".as_slice(), name)
    }

    // Appends the path of a file.
    fn push_file(&self, out: &mut Vec<u8>, owner: Owner, file: File) -> Result<(), AllocError>
        ensures { OnOk result (out.new.items ≡ out.old.items ++ path_of self.now (Node.File owner file)) }
    {
        self.push_owner(out, owner)?;
        self.push_in_instance(out, file.parent())?;
        out.extend_from_slice(file.name().as_bytes())
    }

    /// Appends the path of a folder or file that is there, below the mounted folder: that of a file as commands take it, that of a folder with a
    /// slash at its end, so that the path of an entry is that of its folder and its name.
    pub fn path(&self, node: Node, out: &mut Vec<u8>) -> Result<(), AllocError>
        ensures { OnOk result (out.new.items ≡ out.old.items ++ path_of self.now node) }
    {
        match node {
            Node::Folder(owner, folder) => {
                self.push_owner(out, owner)?;
                self.push_in_instance(out, folder)
            }
            Node::File(owner, file) => self.push_file(out, owner, file),
        }
    }
}

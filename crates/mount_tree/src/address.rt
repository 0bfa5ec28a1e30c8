//! Where a file is for commands.

ghost use Rattle.std.specs.Prelude.{◌≡◌, ◌<◌, true};
ghost use Rattle.std.specs.Option.{option_map};
ghost use Rattle.trace_lex.specs.Decimals.{value_after};
ghost use Rattle.trace_command.specs.FileNames.{address_at, bytes_now, file_at};
ghost use Rattle.mount_tree.specs.Children.{is_there};
ghost use Rattle.mount_tree.specs.NodePaths.{address_meant, file_meant, owner_name};

use crate::node::{Node, Owner};
use crate::scene::Scene;
use file_list::File;
use trace_command::{Address, EventFile, FileName, TopFile};

// The digits of a CPU's number.
fn cpu_digits(cpu: u8) -> &'static [u8]
    requires { cpu < 8 }
    ensures { value_after 0 result.now ≡ cpu }
{
    match cpu {
        0 => b"0",
        1 => b"1",
        2 => b"2",
        3 => b"3",
        4 => b"4",
        5 => b"5",
        6 => b"6",
        _ => b"7",
    }
}

impl Scene {
    // The name of an instance; the top one has none.
    fn owner_name(&self, owner: Owner) -> Option<&[u8]>
        ensures { option_map bytes_now result ≡ owner_name self.now owner }
    {
        match owner {
            Owner::Top => None,
            Owner::Made(serial) => self.instance_name(serial),
        }
    }

    // A file of an event, by the event's name.
    fn file_of_event(&self, event: u8, file: EventFile) -> Option<FileName<'_>>
        ensures { option_map file_at result ≡ file_meant self.now (File.OfEvent event file) }
    {
        Some(FileName::OfEvent(self.event_name(event)?, file))
    }

    // The file that commands know a file as, if they know it.
    fn file_name(&self, owner: Owner, file: File) -> Option<FileName<'_>>
        requires { is_there self.now (Node.File owner file) ≡ true }
        ensures { option_map file_at result ≡ file_meant self.now file }
    {
        match file {
            File::SyntheticEvents => Some(FileName::SyntheticEvents),
            File::OfInstance(file) => Some(FileName::OfInstance(file)),
            File::SystemEnable => Some(FileName::OfInstance(TopFile::EventsEnable)),
            File::OfCpu(cpu, file) => {
                // Does nothing, but that the proof knows that there are at most 8.
                self.cpus();
                Some(FileName::OfCpu(cpu_digits(cpu), file))
            }
            File::OfEvent(event, file) => self.file_of_event(event, file),
            File::Inject(_)
            | File::Tool(_)
            | File::OfTop(_)
            | File::CpuSize(_)
            | File::EventId(_)
            | File::ErrorLog
            | File::Layout(_)
            | File::RawPipe(_) => None,
        }
    }

    /// Where a file that is there is for commands: what its path names (`paths_name_their_files`).
    pub fn address(&self, owner: Owner, file: File) -> Address<'_>
        requires { is_there self.now (Node.File owner file) ≡ true }
        ensures { address_at result ≡ address_meant self.now owner file }
    {
        Address {
            instance: self.owner_name(owner),
            file: self.file_name(owner, file),
        }
    }
}

//! The folders of an instance.

ghost use Rattle.std.specs.Prelude.{◌≡◌, ◌<◌, [], get_or, length, map, slice_get};
ghost use Rattle.file_list.specs.FileTable.{folder_at, folder_index, folder_name, folder_of, folder_parent, folder_row};

use crate::files::FOLDERS;

/// A folder of an instance.
#[derive(Clone, Copy)]
pub enum Folder {
    /// The instance's own: the mounted folder itself, or `instances/NAME`.
    Root,
    /// `instances`, which the top instance alone has.
    Instances,
    /// `options`.
    Options,
    /// `per_cpu`.
    PerCpu,
    /// `per_cpu/cpuN`, by N.
    Cpu(u8),
    /// `events`.
    Events,
    /// `events/synthetic`.
    Synthetic,
    /// `events/synthetic/EVENT`, by the event's index.
    Event(u8),
    /// `events/ftrace`.
    Ftrace,
    /// `events/ftrace/print`.
    FtracePrint,
}

impl Folder {
    /// The folder of the same instance that it is in; that of the instance's own is itself.
    pub fn parent(self) -> Folder
        ensures { result ≡ folder_parent self }
    {
        match self {
            Folder::Cpu(_) => Folder::PerCpu,
            Folder::Synthetic | Folder::Ftrace => Folder::Events,
            Folder::Event(_) => Folder::Synthetic,
            Folder::FtracePrint => Folder::Ftrace,
            Folder::Root | Folder::Instances | Folder::Options | Folder::PerCpu | Folder::Events =>
                Folder::Root,
        }
    }

    /// The number of the CPU or the index of the event whose folder it is; else 0.
    pub fn index(self) -> u8
        ensures { result ≡ folder_index self }
    {
        match self {
            Folder::Cpu(cpu) => cpu,
            Folder::Event(event) => event,
            Folder::Root
            | Folder::Instances
            | Folder::Options
            | Folder::PerCpu
            | Folder::Events
            | Folder::Synthetic
            | Folder::Ftrace
            | Folder::FtracePrint => 0,
        }
    }

    /// Its row in `FOLDERS`.
    pub fn row(self) -> usize
        ensures row { result ≡ folder_row self }
        ensures bound { result < 10 }
    {
        match self {
            Folder::Root => 0,
            Folder::Instances => 1,
            Folder::Options => 2,
            Folder::PerCpu => 3,
            Folder::Cpu(_) => 4,
            Folder::Events => 5,
            Folder::Synthetic => 6,
            Folder::Event(_) => 7,
            Folder::Ftrace => 8,
            Folder::FtracePrint => 9,
        }
    }

    /// The folder in this row of `FOLDERS`, if there are so many.
    pub fn at(row: usize) -> Option<Folder>
        ensures { result ≡ folder_at row }
    {
        folder_in(&FOLDERS, row)
    }

    /// Its name, if it is not that of an instance, a CPU or an event.
    pub fn name(self) -> &'static str
        ensures { result.now ≡ folder_name self }
    {
        name_in(&FOLDERS, self.row())
    }

    /// The same folder of the CPU or event at this index, if it is one of those.
    pub fn of(self, index: u8) -> Folder
        ensures { result ≡ folder_of index self }
    {
        match self {
            Folder::Cpu(_) => Folder::Cpu(index),
            Folder::Event(_) => Folder::Event(index),
            Folder::Root
            | Folder::Instances
            | Folder::Options
            | Folder::PerCpu
            | Folder::Events
            | Folder::Synthetic
            | Folder::Ftrace
            | Folder::FtracePrint => self,
        }
    }
}

// What is in a row of a table: a folder, and its name.

fn folder_in(rows: &[(Folder, &'static str)], row: usize) -> Option<Folder>
    ensures { result ≡ slice_get (map (λ r. r.0) rows.now) row }
{
    let row = rows.get(row)?;
    Some(row.0)
}

fn name_in(rows: &[(Folder, &'static str)], row: usize) -> &'static str
    requires { row < length rows.now }
    ensures { result.now ≡ get_or (map (λ r. r.1.now) rows.now) row [] }
{
    rows[row].1
}

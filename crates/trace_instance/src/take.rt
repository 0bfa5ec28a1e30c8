//! Reads of records of which no text is made.

ghost use Rattle.std.specs.Prelude.{◌≡◌, ◌<◌, List, ℕ, Option, Some, Ok, IfOk, IfErr};
ghost use Rattle.trace_buffer.specs.Buffers as buffers;
ghost use Rattle.trace_buffer.specs.CpuCounts.{after_reads_of_each};
ghost use Rattle.trace_command.specs.Paths as paths;
ghost use Rattle.trace_command.specs.Requests.{Request};
ghost use Rattle.trace_command.specs.declared.command.Config.{Config};
ghost use Rattle.trace_command.specs.declared.file_name.CpuFile.TheVariants as per_cpu;
ghost use Rattle.trace_command.specs.declared.file_name.TopFile.TheVariants as top;
ghost use Rattle.trace_command.specs.declared.refusal.Refusal.TheVariants as refusal;
ghost use Rattle.tracer_specification.specs.Rings.{rings, rings_after_read};
ghost use Rattle.trace_instance.specs.FileAnswers.{IsReadable, IsSource};
ghost use Rattle.trace_instance.specs.Files.{IsThere, file_at};
ghost use Rattle.trace_instance.specs.RecordTakes.{IsTaken};

use crate::change::InstanceChange;
use crate::file::File;
use crate::read::FileSource;
use trace_buffer::{CPUS, count_each};
use trace_command::{CpuFile, Refusal, TopFile};

/// The change that a read of at most so many records makes, without their text. It is refused as `read_file` refuses such a read: each file but a pipe
/// is.
pub fn take_records(
    source: FileSource<'_>,
    file: File,
    most: u64,
) -> Result<InstanceChange, Refusal>
    requires { IsReadable source file }
    ensures { (g : Config) (name : Option (List ℕ)) (past : List Request)
        → IsSource g name past source.entry → IsThere g.cpus source.entry.catalog.now file
        → IsTaken g name past most (file_at source.entry.catalog.now file) result }
{
    match file {
        File::OfCpu(cpu, CpuFile::TracePipe) => Ok(take_of_cpu(source, cpu, most)),
        File::OfInstance(TopFile::TracePipe) => take_of_all(source, most),
        File::OfInstance(TopFile::EventsFilter) => Err(Refusal::NotReadable),
        _ => Err(Refusal::BadValue),
    }
}

fn take_of_cpu(source: FileSource<'_>, cpu: u32, most: u64) -> InstanceChange
    requires { cpu < buffers.cpus source.instance.now.sides.live }
    ensures { (g : Config) (name : Option (List ℕ)) (past : List Request)
        → IsSource g name past source.entry
        → cpu < g.cpus → IsTaken g name past most (paths.OfCpu cpu per_cpu.TracePipe) (Ok result) }
{
    // Brings in what is known of the buffer.
    let _cpus = source.instance.buffer().cpus();
    InstanceChange::TakeCpu(cpu, most)
}

fn take_of_all(source: FileSource<'_>, most: u64) -> Result<InstanceChange, Refusal>
    ensures { (g : Config) (name : Option (List ℕ)) (past : List Request)
        → IsSource g name past source.entry → IsTaken g name past most (paths.OfInstance top.TracePipe) result }
{
    Ok(InstanceChange::Take(next_counts(source, most)?))
}

// How many of the next records of all CPUs are of each.
fn next_counts(source: FileSource<'_>, most: u64) -> Result<[u64; CPUS], Refusal>
    ensures counts { IfOk result (λ counts. (g : Config) (name : Option (List ℕ)) (past : List Request) → IsSource g name past source.entry
        → rings_after_read g (Some most) (Some (paths.OfInstance top.TracePipe)) (rings g name past)
        ≡ after_reads_of_each g.pages g.page_bytes counts (rings g name past)) }
    ensures memory { IfErr result (λ r. r ≡ refusal.Memory) }
{
    // Theorems: a buffer has one list of events per CPU, and taking this many of each leaves the same as taking the records one by one.
    trace_buffer::laws::one_list_each();
    trace_buffer::laws::reads_of_each_leave_the_same();
    let buffer = source.instance.buffer();
    // Brings in what is known of the buffer, which bounds the lists.
    let _cpus = buffer.cpus();
    Ok(count_each(&buffer.preview_any(most)?))
}

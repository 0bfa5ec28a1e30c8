//! Whether a record waits to be read in a pipe: a look, which consumes nothing and takes no memory.

ghost use Rattle.std.specs.Prelude.{◌≡◌, ℕ, List, Option};
ghost use Rattle.trace_buffer.specs.Buffers as buffers;
ghost use Rattle.trace_command.specs.Requests.{Request};
ghost use Rattle.trace_command.specs.declared.command.Config.{Config};
ghost use Rattle.trace_format.specs.Definitions.{Definition};
ghost use Rattle.tracer_specification.specs.Waiting.{waits_in};
ghost use Rattle.trace_instance.specs.Files.{HasCpu, file_at};
ghost use Rattle.trace_instance.specs.Instances.{InstanceStandsFor};

use crate::file::File;
use crate::instance::Instance;
use trace_command::{CpuFile, Refusal, TopFile};

/// Whether a record waits to be read in a pipe of an instance. For a file that is no pipe it is refused as a read with a limit is.
pub fn has_waiting(instance: &Instance, file: File) -> Result<bool, Refusal>
    requires cpu { HasCpu (buffers.cpus instance.now.sides.live) file }
    ensures { (g : Config) (name : Option (List ℕ)) (past : List Request) (events : List Definition)
        → InstanceStandsFor g name past instance.now → result ≡ waits_in g name past (file_at events file) }
{
    match file {
        File::OfInstance(TopFile::TracePipe) => Ok(instance.buffer().has_waiting()),
        File::OfCpu(cpu, CpuFile::TracePipe) => Ok(instance.buffer().cpu_has_waiting(cpu)),
        File::OfInstance(TopFile::EventsFilter) => Err(Refusal::NotReadable),
        _ => Err(Refusal::BadValue),
    }
}

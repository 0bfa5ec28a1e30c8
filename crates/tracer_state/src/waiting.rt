//! Whether a record waits to be read in a pipe, which is asked by no command.

ghost use Rattle.std.specs.Prelude.{◌≡◌, List};
ghost use Rattle.trace_command.specs.Paths as paths;
ghost use Rattle.trace_command.specs.Requests.{Request};
ghost use Rattle.tracer_specification.specs.Waiting.{waiting};
ghost use Rattle.tracer_state.specs.States.{StandsFor, IsUsable};

use crate::resolve::Target;
use crate::state::State;
use trace_command::{Config, Refusal, address_of};
use trace_instance::has_waiting;

impl State {
    /// Whether a record waits to be read in the pipe at this path. It is refused as a read of the path with a limit is. Takes no memory and changes
    /// nothing.
    pub fn waiting(&self, config: &Config, path: &[u8]) -> Result<bool, Refusal>
        requires usable { IsUsable config.now self.now }
        ensures { (past : List Request) → StandsFor config.now self.now past
            → result ≡ waiting config.now past (paths.address_of path.now).instance (paths.address_of path.now).file }
    {
        match self.resolve(config, address_of(path))? {
            Target::Declarations => Err(Refusal::BadValue),
            Target::Of(index, file) => has_waiting(&self.instances[index].instance, file),
        }
    }
}

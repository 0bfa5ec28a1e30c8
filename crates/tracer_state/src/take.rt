//! Reads of records of which no text is made.

ghost use Rattle.std.specs.Prelude.{List, Some};
ghost use Rattle.trace_command.specs.Requests.{Request};
ghost use Rattle.tracer_state.specs.AddressedRequests.{read_at};
ghost use Rattle.tracer_state.specs.States.{StandsFor, IsUsable};
ghost use Rattle.tracer_state.specs.PreparedTakes.{IsTakePrepared};

use crate::change::Change;
use crate::resolve::Target;
use crate::state::State;
use trace_command::{Address, Config, Refusal};
use trace_instance::{FileSource, take_records};

impl State {
    /// As `prepare_read` of at most so many records, but the change alone is returned, and no text is made of them.
    pub fn prepare_take(
        &self,
        config: &Config,
        address: Address<'_>,
        most: u64,
    ) -> Result<Change, Refusal>
        requires { IsUsable config.now self.now }
        ensures { (past : List Request) → StandsFor config.now self.now past
            → IsTakePrepared config.now past (read_at address.entry (Some most)) self.now result }
    {
        match self.resolve(config, address)? {
            Target::Declarations => Err(Refusal::BadValue),
            Target::Of(index, file) => {
                let source = FileSource {
                    catalog: &self.catalog,
                    clock: self.clock,
                    instance: &self.instances[index].instance,
                };
                let change = take_records(source, file, most)?;
                Ok(Change::Instance(index, change))
            }
        }
    }
}

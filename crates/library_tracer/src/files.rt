//! The files that there are, by what a tracer was asked.

ghost use Rattle.std.specs.Prelude.{◌≡◌, ◌++◌, List, IfOk, OnOk};
ghost use Rattle.trace_command.specs.Requests.{Request};
ghost use Rattle.library_tracer.specs.ListedFiles.{event_names, files_after, names_of};
ghost use Rattle.tracer_specification.specs.Settings.{instance_names};
ghost use Rattle.tracer.specs.Lives.{IsLive};

use file_list::Names;
use std::alloc::{AllocError, Global};
use tracer::Tracer;

/// How many events there can be.
const MOST_EVENTS: usize = 64;

/// How many instances there can be beside the top one.
const MOST_INSTANCES: usize = 7;

/// Adds the names of a tracer's events.
fn add_events(names: &mut Names, live: &Tracer) -> Result<(), AllocError>
    ensures { (past : List Request) → IsLive live.now.config past live.now → OnOk result (names.new ≡ record {
      events = names.old.events ++ event_names past;
      instances = names.old.instances;
      gone = names.old.gone;
    }) }
{
    for index in 0..MOST_EVENTS {
        let Some(event) = live.event(index) else {
            return Ok(());
        };
        names.add_event(event.name())?;
    }
    Ok(())
}

/// Adds the names of a tracer's instances.
fn add_instances(names: &mut Names, live: &Tracer) -> Result<(), AllocError>
    ensures { (past : List Request) → IsLive live.now.config past live.now → OnOk result (names.new ≡ record {
      events = names.old.events;
      instances = names.old.instances ++ instance_names past;
      gone = names.old.gone;
    }) }
{
    for index in 0..MOST_INSTANCES {
        let Some(name) = live.instance_name(index) else {
            return Ok(());
        };
        names.add_instance(name)?;
    }
    Ok(())
}

/// The names of a tracer's events and instances.
fn names_of(alloc: Global, live: &Tracer) -> Result<Names, AllocError>
    ensures { (past : List Request) → IsLive live.now.config past live.now → IfOk result (λ names. names ≡ names_of past) }
{
    let mut names = Names::new(alloc);
    add_events(&mut names, live)?;
    add_instances(&mut names, live)?;
    Ok(names)
}

/// The list of the files.
pub(crate) fn files_of(alloc: Global, live: &Tracer) -> Result<Vec<u8>, AllocError>
    ensures { (past : List Request) → IsLive live.now.config past live.now
        → IfOk result (λ text. text.items ≡ files_after live.now.config past) }
{
    names_of(alloc, live)?.list(live.config().cpus)
}

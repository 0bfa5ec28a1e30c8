//! Looking up addresses, once: the instance, the CPU and the event that one names, in the order of refusals.

ghost use Rattle.std.specs.Prelude.{◌≡◌, ◌≢◌, ℕ, ◌<◌, List, position, Some, None, IfSome, IfOk, IfErr};
ghost use Rattle.std.specs.Option.{option_map};
ghost use Rattle.trace_lex.specs.Decimals.{value_after};
ghost use Rattle.trace_command.specs.FileNames as names;
ghost use Rattle.trace_command.specs.Requests.{Request};
ghost use Rattle.trace_command.specs.declared.command.Config.{Config};
ghost use Rattle.tracer_specification.specs.Declarations.{IsIndexOf};
ghost use Rattle.tracer_specification.specs.Settings.{declared_events, event_named_in, numbered_event, is_same};
ghost use Rattle.trace_format.specs.Catalogs.{event_of, id_of};
ghost use Rattle.tracer_state.specs.private.Files as files;
ghost use Rattle.trace_instance.specs.Files.{IsThere};
ghost use Rattle.tracer_state.specs.private.Found.{numbered};
ghost use Rattle.tracer_state.specs.States.{StandsFor};
ghost use Rattle.tracer_state.specs.declared.resolve.Found.{Found as FoundEvent};

use crate::state::{Named, State};
use trace_command::{Address, Config, FileName, Refusal};
use trace_format::{Catalog, EventDef};
use trace_instance::File;
use trace_lex::digits_value;

/// What an address leads to.
#[derive(Clone, Copy, Drop)]
pub(crate) enum Target {
    /// The file of all declarations, which only the top instance has.
    Declarations,
    /// A file of the instance at this index.
    Of(usize, File),
}

/// An event, and how many were declared before it.
#[derive(Clone, Copy)]
pub(crate) struct Found<'a> {
    pub index: usize,
    pub event: &'a EventDef,
}

/// The event with this name.
pub(crate) fn find<'a>(catalog: &'a Catalog, name: &[u8]) -> Option<Found<'a>>
    ensures named { option_map numbered result ≡ event_named_in catalog.now name.now }
    ensures index { IfSome result (λ found. IsIndexOf catalog.now name.now found.index found.event.now) }
{
    let id = catalog.find(name)?;
    numbered(catalog, id)
}

/// Likewise, trying the event at this index first.
#[inline(always)]
pub(crate) fn find_likely<'a>(catalog: &'a Catalog, likely: usize, name: &[u8]) -> Option<Found<'a>>
    ensures named { option_map numbered result ≡ event_named_in catalog.now name.now }
    ensures index { IfSome result (λ found. IsIndexOf catalog.now name.now found.index found.event.now) }
{
    if likely >= catalog.len() {
        return find(catalog, name);
    }
    match numbered(catalog, likely as u16 + 1) {
        Some(found) if found.event.name() == name => Some(found),
        _ => find(catalog, name),
    }
}

/// The event with this number, from 1.
#[inline(always)]
pub(crate) fn find_numbered(catalog: &Catalog, number: u32) -> Option<Found<'_>>
    ensures event { option_map (λ (found : FoundEvent). found.event.now) result ≡ event_of catalog.now number }
    ensures named { IfSome result (λ found. event_named_in catalog.now found.event.now.name ≡ Some (numbered found)) }
    ensures index { IfSome result (λ found. IsIndexOf catalog.now found.event.now.name found.index found.event.now) }
{
    if number as usize > catalog.len() {
        return None;
    }
    numbered(catalog, number as u16)
}

// The event with this number.
fn numbered(catalog: &Catalog, id: u16) -> Option<Found<'_>>
    ensures numbered { option_map numbered result ≡ numbered_event catalog.now id }
    ensures index { (name : List ℕ) → id_of catalog.now name ≡ Some id
        → IfSome result (λ found. IsIndexOf catalog.now name found.index found.event.now) }
    ensures named { IfSome result (λ found. id_of catalog.now found.event.now.name ≡ Some id) }
{
    let event = catalog.def(id)?;
    Some(Found {
        index: usize::from(id) - 1,
        event,
    })
}

impl State {
    /// What an address leads to. Refused with `NoSuchInstance` if its instance doesn't exist, then with `NoSuchFile` if it has no file, then with
    /// `NoSuchCpu` or `NoSuchEvent`.
    pub(crate) fn resolve(&self, config: &Config, address: Address<'_>) -> Result<Target, Refusal>
        ensures resolved { (past : List Request) → StandsFor config.now self.now past
            → files.IsResolved config.now self.now past (names.address_at address.entry) result }
        ensures there { IfOk result (files.IsTarget config.now.cpus self.now) }
        ensures memory { IfErr result (λ r. r ≢ Refusal.Memory) }
    {
        let Some(index) = self.index_of(address.instance) else {
            return Err(Refusal::NoSuchInstance);
        };
        let Some(named) = address.file else {
            return Err(Refusal::NoSuchFile);
        };
        match found_file(&self.catalog, config.cpus, named)? {
            Some(file) => Ok(Target::Of(index, file)),
            None => Ok(Target::Declarations),
        }
    }

    /// The index of the instance with this name, or of the top one if no name is given.
    pub fn index_of(&self, name: Option<&[u8]>) -> Option<usize>
        ensures { result ≡ position (λ (n : Named). is_same n.name (option_map names.bytes_now name.entry)) self.now.instances.items }
    {
        self.instances
            .iter()
            .position(|named| is_named(named, name))
    }
}

fn is_named(named: &Named, name: Option<&[u8]>) -> bool
    ensures { result ≡ is_same named.now.name (option_map names.bytes_now name.entry) }
{
    match (&named.name, name) {
        (None, None) => true,
        (Some(own), Some(other)) => own.as_bytes() == other,
        _ => false,
    }
}

// The file of this name, with its CPU and its event looked up; none for the declarations.
fn found_file(catalog: &Catalog, cpus: u32, named: FileName<'_>) -> Result<Option<File>, Refusal>
    ensures found { (g : Config) (past : List Request) → g.cpus ≡ cpus → catalog.now ≡ declared_events past
        → files.IsFound g past catalog.now (names.file_at named.entry) result }
    ensures there { IfOk result (λ found. IfSome found (IsThere cpus catalog.now)) }
    ensures memory { IfErr result (λ r. r ≢ Refusal.Memory) }
{
    let file = match named {
        FileName::SyntheticEvents => return Ok(None),
        FileName::OfInstance(file) => File::OfInstance(file),
        FileName::OfCpu(digits, file) => File::OfCpu(cpu_below(digits, cpus)?, file),
        FileName::OfEvent(name, file) => File::OfEvent(event_index(catalog, name)?, file),
    };
    Ok(Some(file))
}

// The number that these digits write, if a CPU has it.
fn cpu_below(digits: &[u8], cpus: u32) -> Result<u32, Refusal>
    ensures { files.IsCpu (value_after 0 digits.now) cpus result }
{
    match digits_value(digits, u64::from(u32::MAX)) {
        Some(number) if number < u64::from(cpus) => Ok(number as u32),
        _ => Err(Refusal::NoSuchCpu),
    }
}

// The index of the event with this name.
fn event_index(catalog: &Catalog, name: &[u8]) -> Result<usize, Refusal>
    ensures { files.IsEventIndex catalog.now name.now result }
{
    match find(catalog, name) {
        Some(found) => Ok(found.index),
        None => Err(Refusal::NoSuchEvent),
    }
}

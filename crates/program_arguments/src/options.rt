//! The options that take a number, of which each program has those of a tracer's configuration.

ghost use Rattle.std.specs.Prelude.{◌≡◌, ◌^◌, IfErr, IfOk};
ghost use Rattle.program_arguments.specs.Ranges.{TellsWrong};
ghost use Rattle.trace_command.specs.Configs.{IsInRange};

use clap::{Arg, ArgMatches, value_parser};
use std::alloc::{AllocError, Global};
use trace_command::Config;

const CPUS: &str = "cpus";

const PAGES: &str = "pages";

const PAGE_BYTES: &str = "page-bytes";

const CPUS_RANGE: &str = "1 to 8";

const PAGES_RANGE: &str = "2 to 1024";

const PAGE_BYTES_RANGE: &str = "64 to 4080, a multiple of 8";

/// More entries than a script has room for, and the greatest that a configuration may have.
const HISTORY_LIMIT: u64 = 1 << 32;

/// An option whose number is out of range.
#[derive(Clone, Copy)]
pub struct OutOfRange {
    /// The name of the option, without its hyphens.
    pub option: &'static str,
    pub number: u32,
    /// The numbers that it may have.
    pub range: &'static str,
}

/// Appends an argument.
pub(crate) fn add<'a>(arguments: &mut Vec<Arg<'a>>, argument: Arg<'a>) -> Result<(), AllocError> {
    Ok(arguments.push(argument)?)
}

/// Appends an option that takes a text. It has a default, which help shows.
pub fn add_option<'a>(
    alloc: Global,
    arguments: &mut Vec<Arg<'a>>,
    name: &'a str,
    value: &'a str,
    default: &'a str,
    help: &'a str,
) -> Result<(), AllocError> {
    let option = Arg::new(alloc, name)
        .long(name)
        .value_name(value)
        .default_value(default)
        .help(help);
    add(arguments, option)
}

/// Appends an option that takes a number. It has a default, which help shows.
pub fn add_number<'a>(
    alloc: Global,
    arguments: &mut Vec<Arg<'a>>,
    name: &'a str,
    default: &'a str,
    help: &'a str,
) -> Result<(), AllocError> {
    let option = Arg::new(alloc, name)
        .long(name)
        .value_name("N")
        .value_parser(value_parser!(u32))
        .default_value(default)
        .help(help);
    add(arguments, option)
}

/// Appends the options of the configuration.
pub fn add_config<'a>(alloc: Global, arguments: &mut Vec<Arg<'a>>) -> Result<(), AllocError> {
    add_number(alloc, arguments, CPUS, "1", "Number of CPUs, 1 to 8")?;
    add_number(alloc, arguments, PAGES, "16", "Pages per ring, 2 to 1024")?;
    add_number(
        alloc,
        arguments,
        PAGE_BYTES,
        "4080",
        "Bytes per page, 64 to 4080, a multiple of 8",
    )
}

/// The number that an option has. It has its default, so no value is missing.
pub fn number_of(matches: &ArgMatches<'_>, name: &str) -> u32 {
    matches.get_one::<u32>(name).unwrap_or(0)
}

/// The configuration, whatever its numbers are. 0 would be out of range.
pub fn config_of(matches: &ArgMatches<'_>) -> Config
    ensures { result.history_limit ≡ 2 ^ 32 }
{
    Config {
        cpus: number_of(matches, CPUS),
        pages: number_of(matches, PAGES),
        page_bytes: number_of(matches, PAGE_BYTES),
        history_limit: HISTORY_LIMIT,
    }
}

/// Whether a tracer can be made with a configuration that the words gave. If not, the first option, in the order of help, whose number is out of range.
pub fn check_config(config: &Config) -> Result<(), OutOfRange>
    ensures in_range { IfOk result (λ _. IsInRange config.now) }
    ensures out_of_range { IfErr result (λ _. ¬ IsInRange config.now) }
    ensures told { config.now.history_limit ≡ 2 ^ 32 → IfErr result (λ told. TellsWrong told config.now) }
{
    if !(1..=8).contains(&config.cpus) {
        return Err(OutOfRange {
            option: CPUS,
            number: config.cpus,
            range: CPUS_RANGE,
        });
    }
    if !(2..=1024).contains(&config.pages) {
        return Err(OutOfRange {
            option: PAGES,
            number: config.pages,
            range: PAGES_RANGE,
        });
    }
    if config.is_in_range() {
        return Ok(());
    }
    Err(OutOfRange {
        option: PAGE_BYTES,
        number: config.page_bytes,
        range: PAGE_BYTES_RANGE,
    })
}

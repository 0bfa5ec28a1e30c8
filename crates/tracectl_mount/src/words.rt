//! The words of the command line.

ghost use Rattle.std.specs.Prelude.{◌≡◌, ◌^◌, ◌≤◌, IfOk};
ghost use Rattle.trace_command.specs.Configs.{IsInRange};

use crate::help::{ABOUT, MORE, USAGE};
use crate::stop::Stop;
use clap::{Arg, ArgMatches, Error};
use program_arguments::{
    Program, Stop as Early, add_config, add_number, add_option, check_config, config_of, number_of,
    told,
};
use std::alloc::{AllocError, Global};
use trace_command::Config;

const UID: &str = "uid";

const GID: &str = "gid";

const MODE: &str = "mode";

const MOST_MODE: u32 = 0o777;

const WRONG_MODE: &str = "invalid value for '--mode <MODE>': expected an octal number, 0 to 0777";

const PROGRAM: Program<'static> = Program {
    name: "tracectl_mount",
    about: ABOUT,
    usage: USAGE,
    more: MORE,
};

/// What the command line asks for.
#[derive(Clone, Copy)]
pub(crate) struct Words {
    /// The tracer's configuration. A mounted tracer keeps no history.
    pub(crate) config: Config,
    /// Whose the files are.
    pub(crate) uid: u32,
    pub(crate) gid: u32,
    /// The permissions of its folders. A file has of them what can be done with it.
    pub(crate) mode: u32,
}

/// Appends all options, in the order in which help shows them.
fn add_all<'a>(alloc: Global, arguments: &mut Vec<Arg<'a>>) -> Result<(), AllocError> {
    add_config(alloc, arguments)?;
    add_number(alloc, arguments, UID, "0", "User that the files belong to")?;
    add_number(alloc, arguments, GID, "0", "Group that the files belong to")?;
    add_option(
        alloc,
        arguments,
        MODE,
        "MODE",
        "0750",
        "Permissions, in octal, 0 to 0777",
    )
}

/// The words of the command line, the program's name first.
pub(crate) fn words_of(rt: &HostRuntime) -> Result<Vec<String>, Stop> {
    Ok(PROGRAM.words(rt)?)
}

/// The permissions that are asked for. The option has a default, so no value is missing.
fn mode_of(alloc: Global, matches: &ArgMatches<'_>) -> Result<u32, Error>
    ensures { IfOk result (λ mode. mode ≤ 511) }
{
    match u32::from_str_radix(matches.get_str(MODE).unwrap_or(""), 8) {
        Ok(mode) if mode <= MOST_MODE => Ok(mode),
        _ => Err(PROGRAM.error(alloc, WRONG_MODE)?),
    }
}

/// What the words ask for, once they were matched, whatever the numbers of the configuration are.
fn asked(alloc: Global, matches: &ArgMatches<'_>) -> Result<Words, Error>
    ensures { IfOk result (λ words. words.mode ≤ 511) }
{
    Ok(Words {
        config: config_of(matches),
        uid: number_of(matches, UID),
        gid: number_of(matches, GID),
        mode: mode_of(alloc, matches)?,
    })
}

/// Reads the words, the program's name first.
fn parsed(alloc: Global, words: &[String]) -> Result<Words, Error>
    ensures { IfOk result (λ words. words.mode ≤ 511) }
{
    let mut arguments = Vec::new(alloc);
    add_all(alloc, &mut arguments)?;
    let matches = PROGRAM
        .command(alloc, arguments)?
        .try_get_matches_from(words)?;
    asked(alloc, &matches)
}

impl Words {
    /// Reads the words, the program's name first, and tells what is wrong with them, or the help or the version that they ask for.
    pub(crate) fn read(rt: &HostRuntime, words: &[String]) -> Result<Words, Stop>
        ensures in_range { IfOk result (λ words. IsInRange words.config) }
        ensures mode { IfOk result (λ words. words.mode ≤ 511) }
    {
        let words = match parsed(rt.alloc(), words) {
            Ok(words) => words,
            Err(error) => return Err(Stop::Words(told(rt, &error))),
        };
        match check_config(&words.config) {
            Ok(()) => Ok(words),
            Err(wrong) => Err(Stop::Words(Early::BadValue(wrong))),
        }
    }
}

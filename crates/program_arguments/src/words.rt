//! The words of the command line.

ghost use Rattle.std.specs.Prelude.{◌≡◌, ◌++◌, ◌∷◌, ◌^◌, [], IfOk};
ghost use Rattle.std.specs.List.{flat_map};
ghost use Rattle.trace_command.specs.Configs.{IsInRange};

use crate::help::{ABOUT, MORE, USAGE};
use crate::options::{add, add_config, check_config, config_of};
use crate::program::Program;
use crate::stop::{Stop, told};
use clap::{Arg, ArgAction, ArgMatches, Error};
use std::alloc::{AllocError, Global};
use trace_command::Config;

const EXPLAIN: &str = "explain";

const BARS: &str = "bars";

const LIST: &str = "list";

const SCRIPT: &str = "SCRIPT";

const LINE: &str = "LINE";

const PROGRAM: Program<'static> = Program {
    name: "tracectl",
    about: ABOUT,
    usage: USAGE,
    more: MORE,
};

/// Where the script comes from.
#[derive(Drop)]
pub enum Script<'a> {
    /// The file of this name.
    File(&'a str),
    Input,
    /// The words of the command line have the lines, and these are the bytes of the script.
    Lines(Vec<u8>),
}

/// What is told beside a session.
#[derive(Clone, Copy)]
pub struct Notes {
    /// What is wrong with a line, on standard error.
    pub explains: bool,
    /// The histograms that are read, as bars on standard error.
    pub draws: bool,
    /// The files that there are after the script, on standard output.
    pub lists: bool,
}

/// What the command line asks for.
#[derive(Drop)]
pub struct Words<'a> {
    pub config: Config,
    pub notes: Notes,
    pub script: Script<'a>,
}

/// Appends an option that takes no value.
fn add_flag<'a>(
    alloc: Global,
    arguments: &mut Vec<Arg<'a>>,
    name: &'a str,
    help: &'a str,
) -> Result<(), AllocError> {
    let flag = Arg::new(alloc, name)
        .long(name)
        .action(ArgAction::SetTrue)
        .help(help);
    add(arguments, flag)
}

/// Appends the options that have something told.
fn add_notes<'a>(alloc: Global, arguments: &mut Vec<Arg<'a>>) -> Result<(), AllocError> {
    add_flag(
        alloc,
        arguments,
        EXPLAIN,
        "Explain on standard error what is wrong with a line that is refused or has a fault",
    )?;
    add_flag(
        alloc,
        arguments,
        BARS,
        "Draw on standard error each histogram that is read",
    )?;
    add_flag(
        alloc,
        arguments,
        LIST,
        "After the script, list the files, each with r, w or rw before it",
    )
}

/// Appends the option whose words are the lines to be done.
fn add_lines<'a>(alloc: Global, arguments: &mut Vec<Arg<'a>>) -> Result<(), AllocError> {
    let lines = Arg::new(alloc, LINE)
        .short('c')
        .value_name(LINE)
        .num_args(1..)
        .action(ArgAction::Append)
        .help("Run these lines instead of SCRIPT, one line per argument")
        .conflicts_with(SCRIPT)?;
    add(arguments, lines)
}

/// Appends the script that has the lines to be done, where no word has them.
fn add_script<'a>(alloc: Global, arguments: &mut Vec<Arg<'a>>) -> Result<(), AllocError> {
    let script = Arg::new(alloc, SCRIPT)
        .help("A file, or - for standard input")
        .required_unless_present(LINE)?;
    add(arguments, script)
}

/// Appends all arguments, in the order in which help shows them.
fn add_all<'a>(alloc: Global, arguments: &mut Vec<Arg<'a>>) -> Result<(), AllocError> {
    add_config(alloc, arguments)?;
    add_notes(alloc, arguments)?;
    add_lines(alloc, arguments)?;
    add_script(alloc, arguments)
}

/// The words of the command line, the program's name first. `Told` comes where one of them is not in UTF-8.
pub fn words_of(rt: &HostRuntime) -> Result<Vec<String>, Stop> {
    PROGRAM.words(rt)
}

/// The script of these lines, each of them ended by a newline.
fn script_of(alloc: Global, lines: &[&str]) -> Result<Vec<u8>, AllocError>
    ensures { IfOk result (λ script. script.items ≡ flat_map (λ line. line.now ++ 10 ∷ []) lines.now) }
{
    let mut script = Vec::new(alloc);
    for line in lines {
        script.extend_from_slice(line.as_bytes())?;
        script.push(b'\n')?;
    }
    Ok(script)
}

fn notes_of(matches: &ArgMatches<'_>) -> Notes {
    Notes {
        explains: matches.get_flag(EXPLAIN),
        draws: matches.get_flag(BARS),
        lists: matches.get_flag(LIST),
    }
}

/// Where the script comes from. There are lines or a SCRIPT, so no value is missing, and no file has an empty name.
fn source_of<'a>(alloc: Global, matches: &ArgMatches<'a>) -> Result<Script<'a>, AllocError> {
    match matches.get_strs(LINE) {
        Some(lines) => Ok(Script::Lines(script_of(alloc, lines)?)),
        None => match matches.get_str(SCRIPT).unwrap_or("") {
            "-" => Ok(Script::Input),
            name => Ok(Script::File(name)),
        },
    }
}

/// What the words ask for, once they were matched.
fn asked<'a>(alloc: Global, matches: &ArgMatches<'a>) -> Result<Words<'a>, AllocError>
    ensures { IfOk result (λ words. words.config.history_limit ≡ 2 ^ 32) }
{
    let script = source_of(alloc, matches)?;
    Ok(Words {
        config: config_of(matches),
        notes: notes_of(matches),
        script,
    })
}

fn matched<'a>(alloc: Global, words: &'a [String]) -> Result<ArgMatches<'a>, Error> {
    let mut arguments = Vec::new(alloc);
    add_all(alloc, &mut arguments)?;
    PROGRAM
        .command(alloc, arguments)?
        .try_get_matches_from(words)
}

/// Reads the words, the program's name first, whatever the numbers of the configuration are.
fn parsed<'a>(alloc: Global, words: &'a [String]) -> Result<Words<'a>, Error>
    ensures { IfOk result (λ words. words.config.history_limit ≡ 2 ^ 32) }
{
    let matches = matched(alloc, words)?;
    Ok(asked(alloc, &matches)?)
}

impl<'a> Words<'a> {
    /// Reads the words, the program's name first, and tells what is wrong with them, or the help or the version that they ask for.
    pub fn read(rt: &HostRuntime, words: &'a [String]) -> Result<Words<'a>, Stop>
        ensures in_range { IfOk result (λ words. IsInRange words.config) }
        ensures limit { IfOk result (λ words. words.config.history_limit ≡ 2 ^ 32) }
    {
        let words = match parsed(rt.alloc(), words) {
            Ok(words) => words,
            Err(error) => return Err(told(rt, &error)),
        };
        match check_config(&words.config) {
            Ok(()) => Ok(words),
            Err(wrong) => Err(Stop::BadValue(wrong)),
        }
    }
}

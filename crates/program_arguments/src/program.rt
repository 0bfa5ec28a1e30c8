//! A program as its command line shows it.

use crate::stop::{Stop, told};
use clap::error::ErrorKind;
use clap::{Arg, Command, Error};
use std::alloc::{AllocError, Global};
use std::{env, io};

const VERSION: &str = "0.4.2";

const NOT_UNICODE: &str = "invalid UTF-8 was detected in one or more arguments";

/// What a program says of itself. Each program has the version of all others.
#[derive(Clone, Copy)]
pub struct Program<'a> {
    /// What it is called.
    pub name: &'a str,
    /// What it is for.
    pub about: &'a str,
    /// How it is called.
    pub usage: &'a str,
    /// What follows the options.
    pub more: &'a str,
}

impl<'a> Program<'a> {
    /// The command before it has its arguments.
    fn bare_command(&self, alloc: Global) -> Command<'a> {
        Command::new(alloc, self.name)
            .version(VERSION)
            .about(self.about)
            .override_usage(self.usage)
            .after_help(self.more)
    }

    /// The command that has these arguments, which help shows in this order.
    pub fn command(
        &self,
        alloc: Global,
        arguments: Vec<Arg<'a>>,
    ) -> Result<Command<'a>, AllocError> {
        self.bare_command(alloc).args(arguments)
    }

    /// The error for words with which this is wrong. No argument changes its text.
    pub fn error(&self, alloc: Global, wrong: &str) -> Result<Error, Error> {
        let error = self
            .bare_command(alloc)
            .error(ErrorKind::ValueValidation, wrong);
        Ok(error?)
    }

    /// The words of the command line, the program's name first. `Told` comes where one of them is not in UTF-8.
    pub fn words(&self, rt: &HostRuntime) -> Result<Vec<String>, Stop> {
        match env::args(rt) {
            Ok(words) => Ok(words.collect(rt.alloc())?),
            Err(error) if error.kind() == io::ErrorKind::OutOfMemory => Err(Stop::Memory),
            Err(_) => match self.error(rt.alloc(), NOT_UNICODE) {
                Ok(error) | Err(error) => Err(told(rt, &error)),
            },
        }
    }
}

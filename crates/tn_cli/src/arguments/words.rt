//! What a command line asks for.

ghost use Rattle.std.specs.Prelude.{◌≡◌, IfOk};
ghost use Rattle.tn_cli.specs.arguments.Ranges.{IsWithinRanges};

use crate::arguments::commands::{VERSION_LINE, tn_command};
use crate::arguments::connecting::connecting;
use crate::arguments::lacks::no_value;
use crate::arguments::options::{CONNECT, DECODE, LOCAL, REPLAY, SERVE, WORLD};
use crate::arguments::serving::serving;
use crate::arguments::settings::{ConnectWords, ServeWords};
use clap::error::ErrorKind;
use clap::{ArgMatches, Error};
use std::alloc::{AllocError, Global};
use thiserror::Error as ErrorText;

/// A subcommand with the values of its options.
#[derive(Debug, Drop, PartialEq, Eq)]
pub enum Asked {
    Local,
    Replay,
    Decode,
    World,
    Serve(ServeWords),
    Connect(ConnectWords),
}

/// Why a command line asks for no run.
#[derive(Debug, Drop, ErrorText)]
pub enum WordsFault {
    /// It is not accepted. The text gives the reason, and names the option that prints help.
    #[error("usage")]
    Usage(String),
    #[error("memory")]
    Memory,
    /// It asks for help, which this is, as `clap` lays it out.
    #[error("{0}")]
    Help(String),
    /// It asks for the version.
    #[error("{line}", line = VERSION_LINE)]
    Version,
}

impl WordsFault {
    /// Returns why a command line is not accepted, and the option that prints help, in whole lines.
    pub fn detail(&self) -> Option<&str> {
        match self {
            WordsFault::Usage(detail) => Some(detail.as_str()),
            _ => None,
        }
    }
}

impl From<AllocError> for WordsFault {
    ghost use Rattle.tn_cli.specs.declared.arguments.words.WordsFault.TheVariants as fault;

    ghost from_gives = { λ _ e. e ≡ fault.Memory };

    fn from(_error: AllocError) -> WordsFault {
        WordsFault::Memory
    }
}

/// Reads a command line, of which the program's name is the first word. Each number in the result, except a
/// descriptor, lies in its range.
///
/// # Errors
/// - `Usage`: `clap` does not take the words, or their values contradict one another.
/// - `Help`, `Version`: the words ask for it, before anything else is wrong with them.
/// - `Memory`: an allocation was refused.
pub fn read_words(alloc: Global, words: &[&str]) -> Result<Asked, WordsFault>
    ensures ranges { IfOk result IsWithinRanges }
{
    let command = tn_command(alloc)?;
    match command.try_get_matches_from(words) {
        Ok(matches) => asked_of(alloc, &matches),
        Err(error) => Err(words_fault(alloc, &error)),
    }
}

fn asked_of(alloc: Global, matches: &ArgMatches<'_>) -> Result<Asked, WordsFault>
    ensures { IfOk result IsWithinRanges }
{
    let Some((name, words)) = matches.subcommand() else {
        return Err(no_value(alloc));
    };
    match name {
        LOCAL => Ok(Asked::Local),
        REPLAY => Ok(Asked::Replay),
        DECODE => Ok(Asked::Decode),
        WORLD => Ok(Asked::World),
        SERVE => match serving(alloc, words) {
            Ok(serving) => Ok(Asked::Serve(serving)),
            Err(fault) => Err(fault),
        },
        CONNECT => match connecting(alloc, words) {
            Ok(connecting) => Ok(Asked::Connect(connecting)),
            Err(fault) => Err(fault),
        },
        _ => Err(no_value(alloc)),
    }
}

fn words_fault(alloc: Global, error: &Error) -> WordsFault {
    match error.kind() {
        ErrorKind::DisplayHelp => match error.to_string(alloc) {
            Ok(text) => WordsFault::Help(text),
            Err(_) => WordsFault::Memory,
        },
        ErrorKind::DisplayVersion => WordsFault::Version,
        ErrorKind::OutOfMemory => WordsFault::Memory,
        _ => match error.to_string(alloc) {
            Ok(text) => WordsFault::Usage(text),
            Err(_) => WordsFault::Memory,
        },
    }
}

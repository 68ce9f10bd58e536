//! Replaces a host of the file in the arguments of a command line.

use crate::hosts::assembling::{User, assemble, check};
use crate::hosts::file::HostsFile;
use crate::hosts::given::Given;
use crate::hosts::places::line_of;
use crate::hosts::sayings::Entry;
use std::alloc::{AllocError, Global};
use std::env::Env;
use std::fs::{File, Files};

/// The reason why a host of the file stands for no arguments.
#[derive(Debug, Drop)]
pub enum HostsFault {
    Memory,
    /// A mistake in the file: a message with the number of the line, and the mistake.
    Mistake(String),
}

impl From<AllocError> for HostsFault {
    ghost use Rattle.std.specs.Prelude.{◌≡◌};
    ghost use Rattle.tn_cli.specs.declared.hosts.expanding.HostsFault.TheVariants as fault;

    ghost from_gives = { λ _ e. e ≡ fault.Memory };

    fn from(_error: AllocError) -> HostsFault {
        HostsFault::Memory
    }
}

/// Returns the arguments that these arguments of a command line, the program's name first, stand
/// for: those of `connect` with a HOST that the user's file has. It returns `None` if they stand
/// for themselves.
///
/// # Errors
///
/// - `Mistake`: the file has one that concerns this host: in its table, or anywhere if the file is
///   no TOML, the host is named in it, and its table cannot be separated from the rest.
pub fn expand<R: Env + Files<File = File>>(
    rt: &R,
    alloc: Global,
    words: &[String],
) -> Result<Option<Vec<String>>, HostsFault> {
    let Some(given) = Given::new(alloc, words)? else {
        return Ok(None);
    };
    let Some(named) = given.named() else {
        return Ok(None);
    };
    let Some(file) = HostsFile::read(rt, alloc)? else {
        return Ok(None);
    };
    let Some(table) = file.table_of(alloc, named.name)? else {
        return Ok(None);
    };
    let entry = Entry::new(alloc, &file, named.name, &table)?;
    check(alloc, &file, &entry, line_of(file.text(), named.name, ""))?;
    let user = User { words, named };
    let is_given = given_among(alloc, &given, &entry)?;
    Ok(Some(assemble(alloc, user, &entry, &is_given)?))
}

// Returns whether the user gives each option of the table.
fn given_among(
    alloc: Global,
    given: &Given<'_>,
    entry: &Entry<'_>,
) -> Result<Vec<bool>, AllocError> {
    let mut all = Vec::new(alloc);
    for saying in &entry.options {
        all.push(given.has(saying.name))?;
    }
    Ok(all)
}

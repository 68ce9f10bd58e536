//! The user's file, and its table for a host.

use crate::hosts::expanding::HostsFault;
use crate::hosts::places::{line_at, part_of, place_in};
use std::alloc::{AllocError, Global};
use std::env::Env;
use std::fs::{File, Files};
use std::io::Read;
use std::{io, str};
use toml::{Table, Value, table_from_str};

/// The variables that name the folder of a user's settings: that of the XDG Base Directory Specification, and if
/// it is not set, that of the user's own folder.
const SETTINGS: &str = "XDG_CONFIG_HOME";

const HOME: &str = "HOME";

/// The most bytes of a path.
const MAX_PATH: usize = 4_096;

/// The file of hosts: its path and its text.
#[derive(Drop)]
pub(crate) struct HostsFile {
    pub(crate) path: String,
    pub(crate) bytes: Vec<u8>,
}

impl HostsFile {
    /// Reads the user's file. It returns `None` if there is none, or none that can be opened.
    pub(crate) fn read<R: Env + Files<File = File>>(
        rt: &R,
        alloc: Global,
    ) -> Result<Option<HostsFile>, HostsFault> {
        let Some(path) = path_of(rt, alloc)? else {
            return Ok(None);
        };
        let Ok(mut file) = File::open(rt, path.as_str()) else {
            return Ok(None);
        };
        let mut bytes = Vec::new(alloc);
        match file.read_to_end(&mut bytes) {
            Ok(_) => Ok(Some(HostsFile { path, bytes })),
            Err(error) => Err(unread(alloc, path.as_str(), &error)),
        }
    }

    /// Makes the message for a mistake in this line.
    pub(crate) fn mistake(&self, alloc: Global, line: usize, why: &str) -> HostsFault {
        match format!(in alloc; "tn: {}: line {}: {}\n", self.path, line, why) {
            Ok(text) => HostsFault::Mistake(text),
            Err(_) => HostsFault::Memory,
        }
    }

    /// Returns the text of the file, if it is text.
    pub(crate) fn text(&self) -> &str {
        str::from_utf8(&self.bytes).unwrap_or("")
    }

    /// Returns the table of this host. A file that is no TOML is a mistake if the host is named in
    /// it, and its table cannot be read by itself.
    pub(crate) fn table_of(&self, alloc: Global, host: &str) -> Result<Option<Table>, HostsFault> {
        let Some(place) = place_in(&self.bytes, host.as_bytes()) else {
            return Ok(None);
        };
        let Ok(text) = str::from_utf8(&self.bytes) else {
            let line = line_at(&self.bytes, place);
            return Err(self.mistake(alloc, line, "the file is no UTF-8"));
        };
        let table = match table_from_str(alloc, text) {
            Ok(table) => table,
            Err(error) => self.part_of(alloc, text, host, error)?,
        };
        self.entry_of(alloc, text, host, table)
    }

    // Returns the part of the file that is about this host, if the whole file has this error.
    fn part_of(
        &self,
        alloc: Global,
        text: &str,
        host: &str,
        error: toml::de::Error,
    ) -> Result<Table, HostsFault> {
        let Some(part) = part_of(text, host) else {
            return Err(self.error(alloc, text, 1, error));
        };
        match table_from_str(alloc, part.text) {
            Ok(table) => Ok(table),
            Err(error) => Err(self.error(alloc, part.text, part.line, error)),
        }
    }

    // Makes the message for an error in a text that begins in this line.
    fn error(&self, alloc: Global, text: &str, first: usize, error: toml::de::Error) -> HostsFault {
        let Some(span) = error.span() else {
            return HostsFault::Memory;
        };
        let line = line_at(text.as_bytes(), span.start).saturating_add(first);
        self.mistake(alloc, line.saturating_sub(1), error.message())
    }

    fn entry_of(
        &self,
        alloc: Global,
        text: &str,
        host: &str,
        mut table: Table,
    ) -> Result<Option<Table>, HostsFault> {
        match table.remove(host) {
            None => Ok(None),
            Some(Value::Table(entry)) => Ok(Some(entry)),
            Some(_) => {
                let place = place_in(text.as_bytes(), host.as_bytes()).unwrap_or(0);
                let line = line_at(text.as_bytes(), place);
                Err(self.mistake(alloc, line, "a host is a table, as [router1]"))
            },
        }
    }
}

fn unread(alloc: Global, path: &str, error: &io::Error) -> HostsFault {
    match format!(in alloc; "tn: {}: {}\n", path, error) {
        Ok(text) => HostsFault::Mistake(text),
        Err(_) => HostsFault::Memory,
    }
}

// Returns the path of the file.
fn path_of<R: Env>(rt: &R, alloc: Global) -> Result<Option<String>, AllocError> {
    if let Some(folder) = folder_of(rt, alloc, SETTINGS)? {
        return Ok(Some(format!(in alloc; "{}/tn/hosts", folder)?));
    }
    match folder_of(rt, alloc, HOME)? {
        Some(folder) => Ok(Some(format!(in alloc; "{}/.config/tn/hosts", folder)?)),
        None => Ok(None),
    }
}

// Returns the folder that an environment variable names; a relative one is none.
fn folder_of<R: Env>(rt: &R, alloc: Global, name: &str) -> Result<Option<String>, AllocError> {
    let mut path = [0; MAX_PATH];
    let Ok(count) = rt.var(name, &mut path) else {
        return Ok(None);
    };
    match str::from_utf8(&path[..count]) {
        Ok(folder) if folder.starts_with('/') => Ok(Some(String::from_str(alloc, folder)?)),
        _ => Ok(None),
    }
}

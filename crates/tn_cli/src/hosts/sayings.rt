//! A host's table, as arguments of the command line.

use crate::hosts::expanding::HostsFault;
use crate::hosts::file::HostsFile;
use crate::hosts::places::line_of;
use std::alloc::{AllocError, Global};
use toml::{Table, Value};

/// The option by which a connection is one without Telnet: others make sense only after it.
const PLAIN: &str = "plain";

/// An option that the table gives.
#[derive(Drop)]
pub(crate) struct Saying<'t> {
    pub(crate) name: &'t str,
    /// The argument of the command line.
    pub(crate) word: String,
    /// The number of its line.
    pub(crate) line: usize,
}

/// The content of a host's table: the host and the port themselves, and the options.
#[derive(Drop)]
pub(crate) struct Entry<'t> {
    pub(crate) name: &'t str,
    pub(crate) host: Option<Saying<'t>>,
    pub(crate) port: Option<Saying<'t>>,
    pub(crate) options: Vec<Saying<'t>>,
}

impl<'t> Entry<'t> {
    /// Reads this table of the file, `plain` first.
    pub(crate) fn new(
        alloc: Global,
        file: &HostsFile,
        name: &'t str,
        table: &'t Table,
    ) -> Result<Entry<'t>, HostsFault> {
        let mut entry = Entry {
            name,
            host: None,
            port: None,
            options: Vec::new(alloc),
        };
        for (key, value) in table.iter() {
            let key = key.as_str();
            let line = line_of(file.text(), name, key);
            match word_of(alloc, key, value)? {
                Word::Said(word) => entry.take(Saying {
                    name: key,
                    word,
                    line,
                })?,
                Word::Nothing => {},
                Word::Wrong => {
                    let why = "a value is a text, a whole number, true or false";
                    return Err(file.mistake(alloc, line, why));
                },
            }
        }
        Ok(entry)
    }

    fn take(&mut self, saying: Saying<'t>) -> Result<(), AllocError> {
        match saying.name {
            "host" => self.host = Some(saying),
            "port" => self.port = Some(saying),
            PLAIN => self.options.insert(0, saying)?,
            _ => self.options.push(saying)?,
        }
        Ok(())
    }

    /// Returns the host to connect to.
    pub(crate) fn host(&self) -> &str {
        match &self.host {
            Some(saying) => saying.word.as_str(),
            None => self.name,
        }
    }

    /// Returns the port, if the table gives one.
    pub(crate) fn port(&self) -> Option<&str> {
        match &self.port {
            Some(saying) => Some(saying.word.as_str()),
            None => None,
        }
    }
}

// The arguments that a key and its value stand for.
#[derive(Drop)]
enum Word {
    Said(String),
    Nothing,
    Wrong,
}

fn word_of(alloc: Global, key: &str, value: &Value) -> Result<Word, AllocError> {
    let text = match value {
        Value::Boolean(false) => return Ok(Word::Nothing),
        Value::Boolean(true) => return Ok(Word::Said(flag_of(alloc, key)?)),
        Value::String(text) => String::from_str(alloc, text.as_str())?,
        Value::Integer(number) => number.to_string(alloc)?,
        _ => return Ok(Word::Wrong),
    };
    match key {
        "host" | "port" => Ok(Word::Said(text)),
        key if key.len() == 1 => Ok(Word::Said(format!(in alloc; "-{}{}", key, text)?)),
        key => Ok(Word::Said(format!(in alloc; "--{}={}", key, text)?)),
    }
}

fn flag_of(alloc: Global, key: &str) -> Result<String, AllocError> {
    if key.len() == 1 {
        return format!(in alloc; "-{}", key);
    }
    format!(in alloc; "--{}", key)
}

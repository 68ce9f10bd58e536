//! The host and the options that the user's own arguments give.

use crate::arguments::is_connect_flag;
use std::alloc::{AllocError, Global};

/// The number of arguments before those of `connect`: the program's name and `connect`.
pub(crate) const BEFORE: usize = 2;

/// A host that the user's arguments name.
#[derive(Clone, Copy)]
pub(crate) struct Named<'a> {
    /// The place of the host among the arguments.
    pub(crate) place: usize,
    pub(crate) name: &'a str,
    /// The port after a colon.
    within: Option<&'a str>,
    /// Whether another argument gives a port.
    has_port: bool,
}

impl<'a> Named<'a> {
    /// Returns the port after the host, if no other argument gives one: the user's, else this one.
    pub(crate) fn port_or(&self, port: Option<&'a str>) -> Option<&'a str> {
        if self.has_port {
            return None;
        }
        match self.within {
            Some(within) => Some(within),
            None => port,
        }
    }
}

/// The host, the port and the options that the arguments of `tn connect` give.
#[derive(Drop)]
pub(crate) struct Given<'a> {
    /// HOST, and its place among the arguments.
    host: Option<(usize, &'a str)>,
    /// Whether an argument comes after HOST.
    has_port: bool,
    /// The names of the options.
    names: Vec<&'a str>,
    /// The next argument is the value of an option.
    wants_value: bool,
    /// No more arguments are options.
    only_places: bool,
}

impl<'a> Given<'a> {
    /// Reads these arguments. It returns `None` if they are not those of `connect`, or ask for
    /// help.
    pub(crate) fn new(alloc: Global, words: &'a [String]) -> Result<Option<Given<'a>>, AllocError> {
        let mut given = Given {
            host: None,
            has_port: false,
            names: Vec::new(alloc),
            wants_value: false,
            only_places: false,
        };
        for (place, word) in words.iter().enumerate() {
            if place == 1 && word.as_str() != "connect" {
                return Ok(None);
            }
            if place >= BEFORE {
                given.take(place, word.as_str())?;
            }
        }
        if given.has("help") {
            return Ok(None);
        }
        Ok(Some(given))
    }

    /// Returns the host that is named, if one is.
    pub(crate) fn named(&self) -> Option<Named<'a>> {
        let (place, word) = self.host?;
        let has_port = self.has_port || self.has("port");
        let (name, within) = match word.split_once(':') {
            Some((name, port)) if !has_port && !port.contains(':') => (name, Some(port)),
            _ => (word, None),
        };
        if name.is_empty() {
            return None;
        }
        Some(Named {
            place,
            name,
            within,
            has_port,
        })
    }

    /// Returns whether an option of this name is given.
    pub(crate) fn has(&self, name: &str) -> bool {
        for given in &self.names {
            if *given == name {
                return true;
            }
        }
        false
    }

    fn take(&mut self, place: usize, word: &'a str) -> Result<(), AllocError> {
        if self.wants_value {
            self.wants_value = false;
            return Ok(());
        }
        if self.only_places || word == "-" {
            self.take_place(place, word);
            return Ok(());
        }
        if word == "--" {
            self.only_places = true;
            return Ok(());
        }
        if let Some(option) = word.strip_prefix("--") {
            return self.take_option(option);
        }
        match word.strip_prefix('-') {
            Some(letters) => self.take_letters(letters.as_bytes()),
            None => {
                self.take_place(place, word);
                Ok(())
            },
        }
    }

    fn take_place(&mut self, place: usize, word: &'a str) {
        if self.host.is_none() {
            self.host = Some((place, word));
        } else {
            self.has_port = true;
        }
    }

    fn take_option(&mut self, option: &'a str) -> Result<(), AllocError> {
        match option.split_once('=') {
            Some((name, _)) => self.names.push(name)?,
            None => {
                self.wants_value = !is_connect_flag(option);
                self.names.push(option)?
            },
        }
        Ok(())
    }

    // Letters after one dash. The value of a letter that takes one follows it.
    fn take_letters(&mut self, letters: &[u8]) -> Result<(), AllocError> {
        for (place, letter) in letters.iter().enumerate() {
            let name = name_of(*letter);
            self.names.push(name)?;
            if !is_connect_flag(name) {
                self.wants_value = place.saturating_add(1) == letters.len();
                return Ok(());
            }
        }
        Ok(())
    }
}

// Returns the name of the option that has this letter; `q` and `w` have no other.
fn name_of(letter: u8) -> &'static str {
    match letter {
        b'4' => "ipv4",
        b'6' => "ipv6",
        b'p' => "port",
        b'q' => "q",
        b'w' => "w",
        _ => "help",
    }
}

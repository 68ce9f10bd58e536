//! Telnet with LINEMODE: the program `tn`.
//!
//! ```console
//! $ printf 'ab\177c\r' | tn local
//! text 61630a
//! ```
//!
//! The manual page, `docs/tn.1`, has its arguments, its statuses and its lines on standard error.
//! `tn_cli::arguments` reads the arguments, and `tn_program` does the run: this file passes on the handle of
//! the runtime, the arguments and the streams, and returns the status.
//!
//! It sets no terminal to raw mode, which the launcher `./tn` does for `connect`. It asks for no
//! password, encrypts nothing, and reads no urgent data.
#![tactic(auto)]

use std::alloc::{AllocError, Global};
use std::env::{Env, FillError};
use std::fs::{File, Files, OpenOptions};
use std::os::fd::AsRawFd;
use std::process::ExitCode;
use std::sync::Arc;
use std::{env, io, str};
use tn_cli::hosts::start_with;
use tn_program::{
    EDITS_LENGTH, EditorSettings, KeySource, Link, OWN_LENGTH, Outlet, OwnCharacters, Screen,
    Streams, editor_settings, own_characters, run_words,
};

/// The environment variable by which the launcher reports that standard input is a terminal, raw
/// once the connection stands.
const TERMINAL: &str = "TN_TERMINAL";

/// The environment variable by which the launcher names the pipe that brings the sizes of the
/// window.
const SIZES: &str = "TN_SIZES";

/// The environment variable by which the launcher names the pipe on which it receives that a
/// connection stands.
const STANDS: &str = "TN_STANDS";

/// The environment variable by which the launcher passes the special characters of the terminal.
const KEYS: &str = "TN_KEYS";

/// The environment variable by which the launcher passes how the terminal edits lines.
const EDITS: &str = "TN_EDITS";

/// The environment variable that systemd sets if standard error goes to its journal (systemd.exec(5)).
const JOURNAL: &str = "JOURNAL_STREAM";

/// The terminal that a process was started at (POSIX).
const TERMINAL_PATH: &str = "/dev/tty";

/// The path of the file that is read as nothing, and drops what is written (POSIX).
const NULL_PATH: &str = "/dev/null";

/// The descriptor of standard error (POSIX), which is the last of the standard streams.
const LAST_STANDARD: i32 = 2;

/// The most bytes of the path of such a pipe.
const MAX_PATH: usize = 4_096;

/// The status when out of memory before anything is run.
const NO_MEMORY: u8 = 1;

// A file of nothing in place of the first standard stream that was closed when the program began, if there
// is one. As long as it is held, no connection and no file gets the descriptor.
fn in_place_of_closed<R: Files<File = File>>(rt: &R) -> Option<File> {
    let nothing = OpenOptions::new()
        .read(true)
        .write(true)
        .open(rt, NULL_PATH)
        .ok()?;
    if nothing.as_raw_fd() > LAST_STANDARD {
        return None;
    }
    Some(nothing)
}

fn origin_of(rt: &HostRuntime) -> KeySource {
    let mut value = [0; 1];
    match rt.var(TERMINAL, &mut value) {
        Err(FillError::NotPresent) => KeySource::Input,
        _ => KeySource::Terminal(own_of(rt)),
    }
}

// Returns the special characters of the terminal. If the launcher passes none, the standard ones
// are taken.
fn own_of(rt: &HostRuntime) -> OwnCharacters {
    let mut text = [0; OWN_LENGTH];
    let told = match rt.var(KEYS, &mut text) {
        Err(FillError::NotPresent) => return OwnCharacters::none(),
        Err(FillError::TooLong) => None,
        Ok(count) => own_characters(&text[..count]),
    };
    if told.is_none() {
        let _ = eprintln!(rt;
            "tn: TN_KEYS tells no characters of a terminal: the standard ones are taken"
        );
    }
    told.unwrap_or(OwnCharacters::none())
}

// Returns how the terminal edits lines. If the launcher does not pass it, it is as at a new
// terminal.
fn editor_of(rt: &HostRuntime) -> EditorSettings {
    let mut text = [0; EDITS_LENGTH];
    let told = match rt.var(EDITS, &mut text) {
        Ok(count) => editor_settings(&text[..count]),
        Err(_) => None,
    };
    told.unwrap_or(EditorSettings::usual())
}

// Opens the pipe that brings the sizes of the window, if there is one.
fn sizes_of<R: Env + Files<File = File>>(rt: &R) -> Option<File> {
    let mut path = [0; MAX_PATH];
    let count = rt.var(SIZES, &mut path).ok()?;
    let path = str::from_utf8(&path[..count]).ok()?;
    File::open(rt, path).ok()
}

// Opens the pipe that gets a line once a connection stands, if there is one.
fn stands_of<R: Env + Files<File = File>>(rt: &R) -> Option<File> {
    let mut path = [0; MAX_PATH];
    let count = rt.var(STANDS, &mut path).ok()?;
    let path = str::from_utf8(&path[..count]).ok()?;
    File::create(rt, path).ok()
}

// Returns whether an environment variable is set, to any text.
fn is_set<R: Env>(rt: &R, name: &str) -> bool {
    !matches!(rt.var(name, &mut []), Err(FillError::NotPresent))
}

// Opens the terminal at which keys are typed, though standard output may be a file.
fn terminal_of<R: Files<File = File>>(rt: &R, origin: KeySource) -> Option<File> {
    match origin {
        KeySource::Terminal(_) => OpenOptions::new().write(true).open(rt, TERMINAL_PATH).ok(),
        KeySource::Reader | KeySource::Input => None,
    }
}

// Makes the state of a connection that is to be, for the keys and for the screen.
fn links(alloc: Global) -> Result<(Arc<Link, Global>, Arc<Link, Global>), AllocError> {
    let link = Arc::new(alloc, Link::new())?;
    let linked = Arc::try_clone(&link)?;
    Ok((link, linked))
}

// Returns whether the arguments are those of `connect`.
fn is_session(words: &io::Result<Vec<String>>) -> bool {
    match words {
        Ok(words) => match words.get(1) {
            Some(word) => word.as_str() == "connect",
            None => false,
        },
        Err(_) => false,
    }
}

// Returns the arguments that these stand for by the user's file of hosts, or the status to end
// with. At a terminal the launcher has asked for them.
fn expanded(
    rt: &HostRuntime,
    alloc: Global,
    words: io::Result<Vec<String>>,
) -> Result<io::Result<Vec<String>>, u8> {
    match words {
        Ok(words) => {
            let is_expanded = is_set(rt, TERMINAL);
            let words = start_with(rt, alloc, words, is_expanded, &mut rt.stdout())?;
            Ok(Ok(words))
        },
        Err(error) => Ok(Err(error)),
    }
}

fn main(rt: HostRuntime) -> ExitCode {
    let _first = in_place_of_closed(&rt);
    let _second = in_place_of_closed(&rt);
    let _third = in_place_of_closed(&rt);
    let alloc = rt.alloc();
    let words = match env::args(&rt) {
        Ok(words) => words.collect(alloc).map_err(io::Error::from),
        Err(error) => Err(error),
    };
    let words = match expanded(&rt, alloc, words) {
        Ok(words) => words,
        Err(status) => return ExitCode::from(status),
    };
    let Ok((link, linked)) = links(alloc) else {
        let _ = eprintln!(rt; "tn: memory");
        return ExitCode::from(NO_MEMORY);
    };
    let origin = origin_of(&rt);
    let streams = Streams {
        origin,
        reader: rt.stdin(),
        sizes: sizes_of(&rt),
        stands: stands_of(&rt),
        terminal: terminal_of(&rt, origin),
        editor: editor_of(&rt),
        is_journal: is_set(&rt, JOURNAL),
        link,
    };
    let is_session = is_session(&words);
    let mut screen = Outlet {
        screen: Screen {
            rt,
            alloc,
            writer: rt.stdout(),
            link: linked,
            is_session,
            held: Vec::new(alloc),
        },
        is_session,
    };
    let status = run_words(rt, alloc, words, streams, &mut screen, &mut rt.stderr());
    ExitCode::from(status)
}

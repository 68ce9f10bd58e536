//! The arguments with which a program is started.

use crate::hosts::expanding::{HostsFault, expand};
use std::alloc::Global;
use std::env::Env;
use std::fs::{File, Files};
use std::io::Write;

/// The argument after `connect` by which the launcher asks for the arguments that a host of the
/// user's file stands for, and gets each with a NUL after it.
const EXPAND: &str = "--expand";

/// The statuses of a program that has no memory or cannot write, and of one whose file of hosts has a
/// mistake.
const FAILED: u8 = 1;

const MISTAKE: u8 = 2;

/// Returns the arguments to run, for these arguments of a command line: those that they stand for
/// by the user's file of hosts, unless they are expanded already.
///
/// # Errors
///
/// - Status 1: out of memory.
/// - Status 2: the file has a mistake, which is printed on standard error.
/// - Status 0: the launcher asked for the arguments, which are written to `screen`.
pub fn start_with<R: Env + Files<File = File> + Eprint, W: Write>(
    rt: &R,
    alloc: Global,
    mut words: Vec<String>,
    is_expanded: bool,
    screen: &mut W,
) -> Result<Vec<String>, u8> {
    let is_asked = is_asked(&words);
    if is_asked && words.len() > 2 {
        words.remove(2);
    } else if is_expanded {
        return Ok(words);
    }
    let words = match expand(rt, alloc, &words) {
        Ok(Some(expanded)) => expanded,
        Ok(None) => words,
        Err(fault) => return Err(tell(rt, &fault)),
    };
    if is_asked {
        return Err(print_words(rt, &words, screen));
    }
    Ok(words)
}

// Returns whether the launcher asks for the arguments.
fn is_asked(words: &[String]) -> bool {
    is_at(words, 1, "connect") && is_at(words, 2, EXPAND)
}

fn is_at(words: &[String], place: usize, word: &str) -> bool {
    match words.get(place) {
        Some(there) => there.as_str() == word,
        None => false,
    }
}

// Prints why a host of the file stands for no arguments, and returns the status to end with.
fn tell<R: Eprint>(rt: &R, fault: &HostsFault) -> u8 {
    match fault {
        HostsFault::Memory => {
            let _ = eprintln!(rt; "tn: memory");
            FAILED
        },
        HostsFault::Mistake(text) => {
            let _ = eprint!(rt; "tn: usage\n{}", text);
            MISTAKE
        },
    }
}

// Prints each argument but the program's name with a NUL after it, and returns the status to end
// with.
fn print_words<R: Eprint, W: Write>(rt: &R, words: &[String], screen: &mut W) -> u8 {
    for word in words.get(1..).unwrap_or(words) {
        if screen.write_all(word.as_bytes()).is_err() || screen.write_all(b"\0").is_err() {
            let _ = eprintln!(rt; "tn: write");
            return FAILED;
        }
    }
    0
}

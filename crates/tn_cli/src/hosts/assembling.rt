//! Joins the arguments of a host's table and the user's own arguments.

use crate::arguments::{WordsFault, read_words};
use crate::hosts::expanding::HostsFault;
use crate::hosts::file::HostsFile;
use crate::hosts::given::{BEFORE, Named};
use crate::hosts::sayings::{Entry, Saying};
use std::alloc::{AllocError, Global};

/// A host and a port that any option can stand with.
const ANY_HOST: &str = "h";

const ANY_PORT: &str = "23";

/// The argument for a connection without Telnet.
const PLAIN: &str = "--plain";

/// The arguments of a user who named a host.
#[derive(Clone, Copy)]
pub(crate) struct User<'a> {
    pub(crate) words: &'a [String],
    pub(crate) named: Named<'a>,
}

/// Finds the first thing that is wrong with a host's table by itself, if something is. The table begins in
/// this line.
pub(crate) fn check(
    alloc: Global,
    file: &HostsFile,
    entry: &Entry<'_>,
    header: usize,
) -> Result<(), HostsFault> {
    let options = entry.options.as_slice();
    let (host, port) = (entry.host(), entry.port().unwrap_or(ANY_PORT));
    let Some(why) = refusal_of(alloc, host, port, options)? else {
        return Ok(());
    };
    for (place, saying) in options.iter().enumerate() {
        let some = options.get(..=place).unwrap_or(options);
        if let Some(why) = refusal_of(alloc, ANY_HOST, ANY_PORT, some)? {
            return Err(file.mistake(alloc, saying.line, why.as_str()));
        }
    }
    let is_host = refusal_of(alloc, host, ANY_PORT, &[])?.is_some();
    let line = line_or(if is_host { &entry.host } else { &entry.port }, header);
    Err(file.mistake(alloc, line, why.as_str()))
}

fn line_or(saying: &Option<Saying<'_>>, header: usize) -> usize {
    match saying {
        Some(saying) => saying.line,
        None => header,
    }
}

// Finds what is wrong with a connection to this host and this port by these options, if something is.
fn refusal_of(
    alloc: Global,
    host: &str,
    port: &str,
    options: &[Saying<'_>],
) -> Result<Option<String>, AllocError> {
    let mut words = Vec::new(alloc);
    words.push("tn")?;
    words.push("connect")?;
    for saying in options {
        words.push(saying.word.as_str())?;
    }
    words.push(host)?;
    words.push(port)?;
    refusal(alloc, &words)
}

// Finds what is wrong with these arguments, if something is: the first line of the message.
fn refusal(alloc: Global, words: &[&str]) -> Result<Option<String>, AllocError> {
    match read_words(alloc, words) {
        Err(WordsFault::Usage(detail)) => {
            let text = detail.as_str();
            let text = text.strip_prefix("error: ").unwrap_or(text);
            let line = match text.split_once('\n') {
                Some((line, _)) => line,
                None => text,
            };
            Ok(Some(String::from_str(alloc, line)?))
        },
        Err(WordsFault::Memory) => Err(AllocError),
        _ => Ok(None),
    }
}

/// Returns the arguments of the host's table, and the user's arguments after them. An argument of
/// the user wins: the table's option is left out if the user gives it too, or if the user's
/// arguments exclude it.
pub(crate) fn assemble(
    alloc: Global,
    user: User<'_>,
    entry: &Entry<'_>,
    is_given: &[bool],
) -> Result<Vec<String>, AllocError> {
    let mut kept = Vec::new(alloc);
    for (saying, given) in entry.options.iter().zip(is_given) {
        if !*given {
            kept.push(saying.word.as_str())?;
        }
    }
    let words = together(alloc, user, entry, &kept)?;
    if refusal(alloc, &words)?.is_none() {
        return owned(alloc, &words);
    }
    let mut fitting = Vec::new(alloc);
    for word in &kept {
        if fits(alloc, user, entry, word)? {
            fitting.push(*word)?;
        }
    }
    let words = together(alloc, user, entry, &fitting)?;
    owned(alloc, &words)
}

// Returns whether the user's arguments are accepted with this one of the table, by itself or as a
// connection without Telnet.
fn fits(alloc: Global, user: User<'_>, entry: &Entry<'_>, word: &str) -> Result<bool, AllocError> {
    let by_itself = together(alloc, user, entry, &[word])?;
    if refusal(alloc, &by_itself)?.is_none() {
        return Ok(true);
    }
    let plain = together(alloc, user, entry, &[PLAIN, word])?;
    Ok(refusal(alloc, &plain)?.is_none())
}

// Joins the user's arguments, these arguments of the table before them, and the table's host and
// port in place of the name.
fn together<'a>(
    alloc: Global,
    user: User<'a>,
    entry: &'a Entry<'_>,
    kept: &[&'a str],
) -> Result<Vec<&'a str>, AllocError> {
    let mut words = Vec::new(alloc);
    words.push("tn")?;
    words.push("connect")?;
    words.extend_from_slice(kept)?;
    for (place, word) in user.words.iter().enumerate() {
        if place == user.named.place {
            words.push(entry.host())?;
            if let Some(port) = user.named.port_or(entry.port()) {
                words.push(port)?;
            }
        } else if place >= BEFORE {
            words.push(word.as_str())?;
        }
    }
    Ok(words)
}

fn owned(alloc: Global, words: &[&str]) -> Result<Vec<String>, AllocError> {
    let mut texts = Vec::new(alloc);
    for word in words {
        texts.push(String::from_str(alloc, word)?)?;
    }
    Ok(texts)
}

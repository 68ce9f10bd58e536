//! The outcome of the arguments of a command line, and its status.

ghost use Rattle.std.specs.Prelude.{◌≡◌};
ghost use Rattle.tn_cli.specs.Faults.{status_after};
ghost use Rattle.tn_program.specs.Statuses.{status_after_connecting, status_after_serving, status_of_over};
ghost use Rattle.tn_program.specs.Statuses.{status_after_talking, status_of, status_of_connecting};

use std::alloc::{AllocError, Global};
use std::fmt::Display;
use tn_cli::{CliFault, Dropped, Left, Unprinted};
use tn_connect::{ConnectFault, Connected, Over, TalkReport};
use tn_cores::streams::{Drain, write_all};
use tn_serve::{ServeFault, Served};

/// The status of a process whose arguments were not accepted.
const USAGE: u8 = 2;

/// The status of a process whose user left a talk by an interrupt, as a shell gives it.
const INTERRUPTED: u8 = 130;

/// The outcome of the arguments of a command line: the result of the run that they ask for, or why
/// none was run.
#[derive(Drop)]
pub enum Outcome {
    Local(Result<(), CliFault>),
    Replay(Result<(), CliFault>),
    /// The result of `tn decode`, with the parts of the stream that are not printed.
    Decode(Result<Unprinted, CliFault>),
    World(Result<(), CliFault>),
    Served(Result<Served, ServeFault>),
    Connected(Result<Connected, ConnectFault>),
    /// A talk with a service that takes lines.
    Talked(Result<TalkReport, ConnectFault>),
    /// The arguments ask for a connection with a trace or a log, whose file could not be made; no
    /// connection was made.
    Untraced,
    /// The arguments ask for a server with a banner, whose file could not be read; the server did
    /// not listen.
    Unread,
    /// The arguments ask for help; it was written, or that failed.
    Help(Result<(), CliFault>),
    /// The arguments ask for the version; it was written, or that failed.
    Version(Result<(), CliFault>),
    /// The arguments are not accepted, for the reason that is printed; or they could not be read.
    Usage(Option<String>),
    /// There was no memory for the arguments.
    Memory,
}

impl Outcome {
    /// Returns the status with which a process ends.
    pub fn status(&self) -> u8
        ensures { result ≡ status_of self.now }
    {
        match self {
            Outcome::Local(ended) => after_run(ended),
            Outcome::Replay(ended) => after_run(ended),
            Outcome::Decode(ended) => after_run(ended),
            Outcome::World(ended) => after_run(ended),
            Outcome::Served(ended) => after_serving(ended),
            Outcome::Connected(ended) => after_connecting(ended),
            Outcome::Talked(ended) => after_talking(ended),
            Outcome::Untraced => CliFault::Write.status(),
            Outcome::Unread => CliFault::Read.status(),
            Outcome::Help(ended) => after_run(ended),
            Outcome::Version(ended) => after_run(ended),
            Outcome::Usage(_) => USAGE,
            Outcome::Memory => CliFault::Memory.status(),
        }
    }

    /// Tells a fault in one line on `errors`, behind it what is wrong with words, and then the causes; or
    /// what of a decoded stream is not printed. Out of memory for that, this is told. What cannot be written
    /// is dropped.
    pub(crate) fn tell<E: Drain>(&self, alloc: Global, causes: &[u8], errors: &mut E) {
        if self.status() != 0 {
            return self.tell_some(alloc, causes, errors);
        }
        if self.has_unprinted() {
            return self.tell_some(alloc, causes, errors);
        }
        if !causes.is_empty() {
            self.tell_some(alloc, causes, errors);
        }
    }

    // Whether a stream was decoded, and had something that is no item.
    fn has_unprinted(&self) -> bool {
        match self {
            Outcome::Decode(ended) => has_some(ended),
            _ => false,
        }
    }

    fn tell_some<E: Drain>(&self, alloc: Global, causes: &[u8], errors: &mut E) {
        match self.said(alloc, causes) {
            Ok(said) => {
                write_all(errors, &said);
            },
            Err(_) => {
                write_all(errors, b"tn: memory\n");
            },
        }
    }

    fn said(&self, alloc: Global, causes: &[u8]) -> Result<Vec<u8>, AllocError> {
        let mut said = self.text(alloc)?;
        said.extend_from_slice(causes)?;
        Ok(said)
    }

    fn text(&self, alloc: Global) -> Result<Vec<u8>, AllocError> {
        match self {
            Outcome::Local(ended) => text_of_end(alloc, ended),
            Outcome::Replay(ended) => text_of_end(alloc, ended),
            Outcome::Decode(ended) => text_of_decoding(alloc, ended),
            Outcome::World(ended) => text_of_end(alloc, ended),
            Outcome::Served(ended) => text_of_end(alloc, ended),
            Outcome::Connected(ended) => text_of_end(alloc, ended),
            Outcome::Talked(ended) => text_of_end(alloc, ended),
            Outcome::Untraced => line(alloc, b"write"),
            Outcome::Unread => line(alloc, b"read"),
            Outcome::Help(ended) => text_of_end(alloc, ended),
            Outcome::Version(ended) => text_of_end(alloc, ended),
            Outcome::Usage(Some(detail)) => usage(alloc, detail.as_str()),
            Outcome::Usage(None) => usage(
                alloc,
                "error: a word of the command line is not text\n\nFor more information, try '--help'.\n",
            ),
            Outcome::Memory => line(alloc, b"memory"),
        }
    }
}

fn after_run<T>(ended: &Result<T, CliFault>) -> u8
    ensures { result ≡ status_after ended.now }
{
    match ended {
        Ok(_) => 0,
        Err(fault) => fault.status(),
    }
}

fn after_serving(ended: &Result<Served, ServeFault>) -> u8
    ensures { result ≡ status_after_serving ended.now }
{
    match ended {
        Ok(_) => 0,
        Err(ServeFault::Network | ServeFault::Memory) => 1,
        Err(ServeFault::Limit) => 2,
    }
}

fn after_connecting<T>(ended: &Result<T, ConnectFault>) -> u8
    ensures { result ≡ status_after_connecting ended.now }
{
    match ended {
        Ok(_) => 0,
        Err(fault) => after_fault(*fault),
    }
}

fn after_talking(ended: &Result<TalkReport, ConnectFault>) -> u8
    ensures { result ≡ status_after_talking ended.now }
{
    match ended {
        Ok(report) => after_over(report.over),
        Err(fault) => after_fault(*fault),
    }
}

fn after_fault(fault: ConnectFault) -> u8
    ensures { result ≡ status_of_connecting fault }
{
    match fault {
        ConnectFault::Network | ConnectFault::Memory => 1,
        ConnectFault::Session => 3,
    }
}

fn after_over(over: Over) -> u8
    ensures { result ≡ status_of_over over }
{
    match over {
        Over::Closed | Over::Asked => 0,
        Over::Broken => 3,
        Over::Left => INTERRUPTED,
    }
}

// One line, which tells this.
fn line(alloc: Global, word: &[u8]) -> Result<Vec<u8>, AllocError> {
    joined(alloc, b"tn: ", word, b"\n")
}

fn usage(alloc: Global, detail: &str) -> Result<Vec<u8>, AllocError> {
    let mut text = line(alloc, b"usage")?;
    text.extend_from_slice(detail.as_bytes())?;
    Ok(text)
}

fn joined(alloc: Global, first: &[u8], second: &[u8], third: &[u8]) -> Result<Vec<u8>, AllocError> {
    let mut all = Vec::new(alloc);
    all.extend_from_slice(first)?;
    all.extend_from_slice(second)?;
    all.extend_from_slice(third)?;
    Ok(all)
}

// One line for a fault, and nothing if there is none.
fn text_of_end<T, F: Display>(alloc: Global, ended: &Result<T, F>) -> Result<Vec<u8>, AllocError> {
    match ended {
        Ok(_) => Ok(Vec::new(alloc)),
        Err(fault) => line(alloc, fault.to_string(alloc)?.as_bytes()),
    }
}

fn has_some(ended: &Result<Unprinted, CliFault>) -> bool {
    match ended {
        Ok(unprinted) => is_some_left(unprinted.left, unprinted.dropped),
        Err(_) => false,
    }
}

fn is_some_left(left: Left, dropped: Dropped) -> bool {
    match left {
        Left::Nothing => dropped.escapes != 0 || dropped.subnegotiations != 0,
        _ => true,
    }
}

fn text_of_decoding(
    alloc: Global,
    ended: &Result<Unprinted, CliFault>,
) -> Result<Vec<u8>, AllocError> {
    match ended {
        Ok(unprinted) => text_of_unprinted(alloc, *unprinted),
        Err(_) => text_of_end(alloc, ended),
    }
}

fn text_of_unprinted(alloc: Global, unprinted: Unprinted) -> Result<Vec<u8>, AllocError> {
    let dropped = unprinted.dropped;
    let escapes = text_of_count(alloc, b"dropped escapes: ", dropped.escapes)?;
    let subnegotiations = text_of_count(
        alloc,
        b"dropped subnegotiations: ",
        dropped.subnegotiations,
    )?;
    let left = text_of_left(alloc, unprinted.left)?;
    joined(alloc, &escapes, &subnegotiations, &left)
}

// A line with a count, if it is not 0.
fn text_of_count(alloc: Global, what: &[u8], count: u64) -> Result<Vec<u8>, AllocError> {
    if count == 0 {
        return Ok(Vec::new(alloc));
    }
    let number = count.to_string(alloc)?;
    let word = joined(alloc, what, number.as_bytes(), b"")?;
    line(alloc, &word)
}

fn text_of_left(alloc: Global, left: Left) -> Result<Vec<u8>, AllocError> {
    match left {
        Left::Nothing => Ok(Vec::new(alloc)),
        Left::Cr => line(alloc, b"left unread: a CR"),
        Left::Iac => line(alloc, b"left unread: an IAC"),
        Left::OptionWord => line(alloc, b"left unread: an option word"),
        Left::Subnegotiation => line(alloc, b"left unread: a subnegotiation"),
    }
}

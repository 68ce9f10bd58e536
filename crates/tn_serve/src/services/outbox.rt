//! What waits to be sent to a service that speaks Telnet.

ghost use Rattle.std.specs.Prelude.{◌≤◌, length};

use std::alloc::Global;
use std::io;
use std::io::{ErrorKind, Read};

/// From this many bytes on no more is read of a service until it takes some: a line of the user, each byte of
/// which may go as two, and as many bytes of answers.
const MOST_BYTES: usize = 16_384;

/// What became of a line that was to be sent.
#[derive(Clone, Copy, PartialEq, Eq)]
pub(crate) enum Progress {
    Sent,
    /// Not all of it was.
    Waits,
    /// The service takes no more.
    Shut,
}

/// Bytes that wait to be sent, in order: lines of the user, each of them whole, and answers between them. Two
/// jobs send them, one at a time.
#[derive(Drop)]
pub(crate) struct Outbox {
    pub(crate) bytes: Vec<u8>,
    /// How many of them were sent.
    sent: usize,
    /// A line is among them, so that they are sent by the job whose line it is.
    pub(crate) has_line: bool,
    /// A job sends some of them.
    is_busy: bool,
    /// The service takes no more.
    is_shut: bool,
}

impl Outbox {
    pub(crate) fn new(alloc: Global) -> Outbox {
        Outbox {
            bytes: Vec::new(alloc),
            sent: 0,
            has_line: false,
            is_busy: false,
            is_shut: false,
        }
    }

    /// Copies the bytes that are to be sent next, if this job may send them, and returns how many they are.
    /// After some of them `done` is to be called.
    pub(crate) fn begin(&mut self, is_for_line: bool, piece: &mut [u8]) -> usize
        ensures { result ≤ length piece.new }
    {
        if self.is_shut {
            self.clear();
        }
        if self.is_busy || (self.has_line && !is_for_line) {
            return 0;
        }
        let Some(mut left) = self.bytes.get(self.sent..) else {
            return 0;
        };
        let Ok(count) = left.read(piece) else {
            return 0;
        };
        self.is_busy = count > 0;
        count
    }

    /// Takes the answer of the write of what was copied. If that failed, nothing waits any more.
    pub(crate) fn done(&mut self, written: &io::Result<usize>) {
        self.is_busy = false;
        match written {
            Ok(count) => self.sent = self.sent.saturating_add(*count),
            Err(error) => self.is_shut |= !is_passing(error),
        }
        if self.sent >= self.bytes.len() {
            self.clear();
        }
    }

    /// What became of the line among the bytes. One that was sent is no more among them.
    pub(crate) fn end_line(&mut self) -> Progress {
        if self.is_shut {
            return Progress::Shut;
        }
        if !self.bytes.is_empty() {
            return Progress::Waits;
        }
        self.has_line = false;
        Progress::Sent
    }

    /// Whether so many bytes wait that no more answers are to come.
    pub(crate) fn is_full(&self) -> bool {
        self.bytes.len() >= MOST_BYTES
    }

    fn clear(&mut self) {
        self.bytes.clear();
        self.sent = 0;
    }
}

// A write that failed so is to be made again.
fn is_passing(error: &io::Error) -> bool {
    matches!(error.kind(), ErrorKind::WouldBlock | ErrorKind::Interrupted)
}

//! The lines of a trace: one for each item that passes, after the seconds since the beginning.

use crate::printing::{Lines, Prefix};
use std::alloc::{AllocError, Global};
use std::io;
use std::io::Write;
use std::time::Duration;
use tn_nvt::{Decoder, Item, Sink};

/// One direction of a connection, as it is read. No line waits in it.
#[derive(Drop)]
pub(crate) struct Side {
    decoder: Decoder,
    lines: Lines,
}

impl Side {
    /// Nothing was read yet.
    pub(crate) fn new(alloc: Global, prefix: Prefix) -> Side {
        Side {
            decoder: Decoder::new(alloc),
            lines: Lines::new(alloc, prefix),
        }
    }

    /// The lines of the items that the next piece completes. Data at its end are a line too.
    pub(crate) fn lines_of(&mut self, piece: &[u8]) -> Result<Vec<u8>, AllocError> {
        match self.decoder.feed_to(piece, &mut self.lines) {
            Ok(()) => {},
            Err(_) => return Err(AllocError),
        }
        self.lines.end_data()?;
        Ok(self.lines.take_text())
    }
}

/// Returns the lines of a piece of a connection without Telnet: all of its bytes are data.
pub(crate) fn data_lines(lines: &mut Lines, piece: &[u8]) -> Result<Vec<u8>, AllocError> {
    for byte in piece {
        if lines.item(Item::Byte(*byte)).is_err() {
            return Err(AllocError);
        }
    }
    lines.end_data()?;
    Ok(lines.take_text())
}

/// Writes a text at this time: each line of it comes after the time.
pub(crate) fn write_timed<W: Write>(
    alloc: Global,
    time: Duration,
    text: &[u8],
    out: &mut W,
) -> io::Result<()> {
    let stamp = stamp(alloc, time)?;
    let lines = timed(alloc, &stamp, text)?;
    out.write_all(&lines)
}

// The seconds of a time, to the millisecond, and a space.
fn stamp(alloc: Global, time: Duration) -> Result<Vec<u8>, AllocError> {
    let mut text = format!(in alloc; "{}.", time.as_secs())?.into_bytes();
    let millis = time.subsec_millis();
    text.extend_from_slice(&[digit(millis / 100), digit(millis / 10), digit(millis), b' '])?;
    Ok(text)
}

// The last digit of a number.
fn digit(number: u32) -> u8 {
    b'0' + (number % 10) as u8
}

// The text, each line of it after the stamp.
fn timed(alloc: Global, stamp: &[u8], text: &[u8]) -> Result<Vec<u8>, AllocError> {
    let mut lines = Vec::new(alloc);
    let mut begins = true;
    for byte in text {
        begins = push_timed(begins, *byte, stamp, &mut lines)?;
    }
    Ok(lines)
}

/// Appends a byte, and the stamp before it if a line begins with it. Returns whether another line begins then.
pub(crate) fn push_timed(
    begins: bool,
    byte: u8,
    stamp: &[u8],
    lines: &mut Vec<u8>,
) -> Result<bool, AllocError> {
    if begins {
        lines.extend_from_slice(stamp)?;
    }
    lines.push(byte)?;
    Ok(byte == b'\n')
}

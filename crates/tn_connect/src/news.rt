//! The lines about a connection for the user at a terminal.

use libc::net::{POLLIN, poll};
use libc::types::pollfd;
use std::alloc::Global;
use std::fs::File;
use std::io::Write;
use std::net::SocketAddr;
use std::os::fd::AsRawFd;
use tn_cores::streams::{Drain, write_all};
use tn_net::network::Trying;

/// The line that reports that a connection stands: ACK and a line feed.
const STANDS: &[u8] = b"\x06\n";

/// The line that asks for one on the pipe of sizes, once all lines before it are shown and the terminal is set:
/// ENQ and a line feed.
const ASKS: &[u8] = b"\x05\n";

/// The most milliseconds for which the screen waits for that.
const HELD: i32 = 1_000;

/// A writer of lines about a connection, or of none. A line that cannot be written is dropped.
#[derive(Drop)]
pub struct News<'a, W> {
    /// The writer that gets the lines.
    pub writer: &'a mut W,
    pub alloc: Global,
    /// Whether lines are written.
    pub is_told: bool,
}

impl<'a, W: Drain> News<'a, W> {
    pub(crate) fn trace(&mut self) {
        if self.is_told {
            write_all(
                self.writer,
                b"The trace gets what is typed, passwords too.\n",
            );
        }
    }

    pub(crate) fn connect(&mut self, host: &str, escape: Option<u8>) {
        if !self.is_told {
            return;
        }
        let mut line = Vec::new(self.alloc);
        let _ = write!(line, "Connected to {}.", host);
        if let Some(key) = escape {
            let _ = line.extend_from_slice(b" Escape character is '^");
            let _ = line.extend_from_slice(&[key ^ 64, b'\'', b'.']);
        }
        let _ = line.push(b'\n');
        write_all(self.writer, &line);
    }

    /// Writes that a connection closed. For one that failed it writes nothing: the causes are
    /// written for that.
    pub(crate) fn close(&mut self, host: &str, is_left: bool, is_whole: bool) {
        if !self.is_told || !is_whole {
            return;
        }
        if is_left {
            write_all(self.writer, b"Connection closed.\n");
            return;
        }
        let mut line = Vec::new(self.alloc);
        let _ = writeln!(line, "Connection closed by {}.", host);
        write_all(self.writer, &line);
    }
}

impl<'a, W: Drain> Trying for News<'a, W> {
    fn try_address(&mut self, address: &SocketAddr) {
        if !self.is_told {
            return;
        }
        let mut line = Vec::new(self.alloc);
        let _ = writeln!(line, "Trying {}..", address);
        write_all(self.writer, &line);
    }
}

/// Sends the line that the connection stands.
pub(crate) fn tell_that_it_stands(stands: &mut Option<File>) {
    if let Some(stands) = stands {
        let _ = stands.write_all(STANDS);
    }
}

/// Waits until the terminal is set for the session and the lines before are shown, for a second at most. The
/// line that answers is read as a size that is none.
pub(crate) fn wait_for_terminal(stands: &mut Option<File>, sizes: &Option<File>) {
    let Some(stands) = stands else {
        return;
    };
    let Some(sizes) = sizes else {
        return;
    };
    if stands.write_all(ASKS).is_ok() {
        let mut waited = [pollfd {
            fd: sizes.as_raw_fd(),
            events: POLLIN,
            revents: 0,
        }];
        let _ready = poll(&mut waited, HELD);
    }
}

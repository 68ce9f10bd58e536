//! The streams of a process.

use std::alloc::Global;
use std::fs::File;
use std::io;
use std::io::Read;
use std::sync::Arc;
use tn_connect::{EditorSettings, KeySource, Link};

/// A reader, the source of its bytes, the pipe that brings the sizes of the window in which they
/// are typed, the pipe that gets a line once the connection stands, the terminal at which they are
/// typed, and that connection, as the screen has it.
#[derive(Drop)]
pub struct Streams<R> {
    pub origin: KeySource,
    pub reader: R,
    pub sizes: Option<File>,
    pub stands: Option<File>,
    pub terminal: Option<File>,
    /// The settings of line editing at that terminal.
    pub editor: EditorSettings,
    /// Standard error goes to systemd's journal.
    pub is_journal: bool,
    pub link: Arc<Link, Global>,
}

impl<R: Read> Read for Streams<R> {
    ghost remaining = { λ streams. R.Read.remaining streams.reader };

    fn read(&mut self, buf: &mut [u8]) -> io::Result<usize> {
        self.reader.read(buf)
    }
}

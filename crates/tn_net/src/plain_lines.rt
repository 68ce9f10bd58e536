//! The lines that a user without Telnet types at a terminal.

ghost use Rattle.std.specs.{Prelude.{◌≤◌, ◌≡◌, IsTrue, None, length}, Io.ReadsAtMost};

use crate::client_files::ClientFiles;
use crate::escaping::SessionInput;
use crate::half_line::HalfLine;
use crate::kept;
use crate::line_editor::{Closing, EditorSettings, LineEditor, Taken};
use crate::link::Link;
use crate::plain_keys::PlainKeys;
use crate::sizes::Sizes;
use libc::isatty;
use std::alloc::{AllocError, Global};
use std::collections::VecDeque;
use std::fs::File;
use std::io::{ErrorKind, Read};
use std::sync::Wait;
use std::{io, mem};
use tn_discipline::Limit;

/// The descriptor of standard output (POSIX, `STDOUT_FILENO`).
const STANDARD_OUTPUT: i32 = 1;

/// The standard characters for an interrupt, a quit and the end of file.
const INTR: u8 = 3;

const QUIT: u8 = 28;

const EOF: u8 = 4;

/// The number of bytes that are read at once.
const PIECE_BYTES: usize = 4_096;

/// The settings by which lines are edited and shown.
#[derive(Drop)]
pub struct LineSettings {
    /// The most bytes of a line.
    pub limit: Limit,
    pub editing: EditorSettings,
    /// The screen of the terminal, and each new size of its window.
    pub screen: Option<File>,
    pub sizes: Sizes,
}

/// The lines that keys of a terminal are, which are edited and shown as they are typed. A line goes once it ends: with a
/// line feed, or without one if the end of file ended it. The end of file on an empty line ends what goes to the
/// service, and an interrupt or a quit there ends the talk.
#[derive(Drop)]
pub struct PlainLines<'a, H, K> {
    rt: H,
    keys: PlainKeys<'a, H, K>,
    link: &'a Link,
    sizes: Sizes,
    /// The keys that were read, and the number of them that were taken.
    typed: Vec<u8>,
    taken: usize,
    /// The line that ended last.
    line: Vec<u8>,
    /// Bytes that are still to be given.
    due: VecDeque<SessionInput>,
    has_ended: bool,
}

impl<'a, H: ClientFiles + Copy + Wait, K: Read + Drop> PlainLines<'a, H, K> {
    /// Makes the lines that these keys are, for this connection.
    ///
    /// # Errors
    ///
    /// - Out of memory: there is no room for a line.
    pub fn new(
        rt: H,
        alloc: Global,
        keys: PlainKeys<'a, H, K>,
        link: &'a Link,
        settings: LineSettings,
    ) -> Result<PlainLines<'a, H, K>, AllocError> {
        let LineSettings {
            limit,
            editing,
            screen,
            sizes,
        } = settings;
        let editor = LineEditor::new(alloc, limit, limit, editing, 0)?;
        let is_shared = isatty(STANDARD_OUTPUT) == 1;
        let half = HalfLine::new(alloc, editor, editing, screen, is_shared);
        link.edit_by(&rt, half);
        Ok(PlainLines {
            rt,
            keys,
            link,
            sizes,
            typed: Vec::new(alloc),
            taken: 0,
            line: Vec::new(alloc),
            due: VecDeque::new(alloc),
            has_ended: false,
        })
    }

    // Reads keys. False if there are no more.
    fn read_keys(&mut self) -> io::Result<bool> {
        if let Some(size) = self.sizes.look() {
            self.link.resize_half(&self.rt, size.width);
        }
        let mut piece = [0; PIECE_BYTES];
        let read = self.keys.read(&mut piece);
        self.link.follow_prompt(&self.rt, self.keys.is_prompting());
        let count = read?;
        self.typed.clear();
        self.taken = 0;
        self.typed.extend_from_slice(&piece[..count])?;
        Ok(count > 0)
    }

    // Takes keys, up to one that has to wait until what is due was given.
    fn take_keys(&mut self) -> io::Result<()> {
        let empty = Vec::new(*self.line.allocator());
        let typed = mem::replace(&mut self.typed, empty);
        let taken = self.take_some(&typed);
        self.typed = typed;
        taken
    }

    fn take_some(&mut self, typed: &[u8]) -> io::Result<()> {
        for key in typed.get(self.taken..).unwrap_or(&[]) {
            if !self.take(*key)? {
                return Ok(());
            }
            self.taken = self.taken.saturating_add(1);
        }
        Ok(())
    }

    // Takes a key. False if it has to wait.
    fn take(&mut self, key: u8) -> io::Result<bool> {
        match self.link.edit_half(&self.rt, key, &mut self.line)? {
            Taken::Edit => {},
            Taken::Alone(_) if !self.due.is_empty() => return Ok(false),
            Taken::Alone(INTR | QUIT) => self.link.interrupt(),
            Taken::Alone(EOF) => self.end(),
            Taken::Alone(_) => {},
            Taken::Line(closing) => self.give_line(closing)?,
        }
        Ok(true)
    }

    // Notes that nothing more goes to the service.
    fn end(&mut self) {
        self.has_ended = true;
        self.link.end_writing();
    }

    // Has the line given that ended.
    fn give_line(&mut self, closing: Closing) -> io::Result<()> {
        if self.has_ended {
            return Ok(());
        }
        if !kept::makes_room(&mut self.due, self.line.len().saturating_add(1)) {
            return Err(io::Error::from(ErrorKind::OutOfMemory));
        }
        for byte in &self.line {
            let _pushed = self.due.push_back(SessionInput::Key(*byte));
        }
        if closing == Closing::NewLine {
            let _pushed = self.due.push_back(SessionInput::Key(b'\n'));
        }
        Ok(())
    }

    fn has_keys(&self) -> bool {
        self.taken < self.typed.len()
    }
}

impl<'a, H: ClientFiles + Copy + Wait, K: Read + Drop> Read for PlainLines<'a, H, K> {
    ghost remaining = { λ _. None };

    fn read(&mut self, buf: &mut [u8]) -> io::Result<usize> {
        if self.due.is_empty() && !self.has_keys() && !self.read_keys()? {
            return Ok(0);
        }
        self.take_keys()?;
        let count = kept::give(&mut self.due, buf);
        self.link.note_keys(self.has_keys() || !self.due.is_empty());
        if count == 0 {
            return Err(io::Error::from(ErrorKind::Interrupted));
        }
        Ok(count)
    }
}

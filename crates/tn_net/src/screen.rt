//! A screen whose failure ends the connection.

ghost use Rattle.std.specs.{Prelude.◌≡◌, Io.{WritesAtMost, KnownBytes.WriteAppends}};
ghost use Rattle.tn_net.specs.Screens.{held_by};

use crate::link::Link;
use std::alloc::Global;
use std::io::{ErrorKind, Write};
use std::sync::{Arc, Wait};
use std::time::{Clock, Duration};
use std::{io, mem, thread};
use tn_cores::streams::is_interrupted;

/// After how many milliseconds it is looked whether a screen that was stopped goes on.
const LOOK: u64 = 20;

/// The most bytes of a session that wait to be shown.
const MOST_HELD: usize = 65_536;

/// A screen. Once it takes no more, the connection is of no use, and is ended: else the session would wait
/// for the other end to close. What it gets, the log of the connection gets.
///
/// Bytes of a session of Telnet are held until they are flushed, at most 65,536: it flushes them before it waits
/// for more.
#[derive(Drop)]
pub struct Screen<H, S> {
    pub rt: H,
    pub alloc: Global,
    /// The writer of the screen.
    pub writer: S,
    /// The connection.
    pub link: Arc<Link, Global>,
    /// Bytes that were shown as they were typed are not written again, and others are held, so that of the
    /// writer's bytes nothing is known.
    pub is_session: bool,
    /// The bytes that are held.
    pub held: Vec<u8>,
}

// Returns the bytes that were written, of these.
fn shown_of<'a>(wrote: &io::Result<usize>, buf: &'a [u8]) -> &'a [u8] {
    match wrote {
        Ok(count) => buf.get(..*count).unwrap_or(buf),
        Err(_) => b"",
    }
}

impl<H: Clock + Wait, S: Write> Write for Screen<H, S> {
    ghost contents = { λ screen. held_by screen.is_session (S.Write.contents screen.writer) };

    fn write(&mut self, buf: &[u8]) -> io::Result<usize> {
        if !self.is_session {
            return self.show(buf);
        }
        let count = self.link.count_entered(&self.rt, buf);
        if count > 0 {
            self.show_held()?;
            self.link.log(&self.rt, self.alloc, &buf[..count]);
            return Ok(count);
        }
        self.hold(buf)
    }

    fn flush(&mut self) -> io::Result<()> {
        if self.is_session {
            self.show_held()?;
        }
        self.writer.flush()
    }
}

impl<H: Clock + Wait, S: Write> Screen<H, S> {
    // Holds these bytes, and first shows what is held if that would be too much. They are shown at
    // once if nobody flushes the screen, or there is no memory.
    fn hold(&mut self, buf: &[u8]) -> io::Result<usize>
        ensures bound { WritesAtMost result buf.now }
        ensures session { self.new.is_session ≡ self.old.is_session }
    {
        if !self.link.flushes() {
            return self.show(buf);
        }
        if buf.len() > MOST_HELD.saturating_sub(self.held.len()) {
            self.show_held()?;
        }
        if self.held.extend_from_slice(buf).is_ok() {
            return Ok(buf.len());
        }
        self.show_held()?;
        self.show(buf)
    }

    // Shows what is held. If a write fails, the rest is dropped: the connection is ended. Text that
    // a reader who has left does not get is not missed.
    fn show_held(&mut self) -> io::Result<()>
        ensures session { self.new.is_session ≡ self.old.is_session }
    {
        let mut held = mem::replace(&mut self.held, Vec::new(self.alloc));
        let shown = self.show_all(&held);
        if let Err(error) = &shown {
            if error.kind() != ErrorKind::BrokenPipe {
                self.link.note_missing();
            }
        }
        held.clear();
        self.held = held;
        shown
    }

    // Shows these bytes.
    fn show_all(&mut self, bytes: &[u8]) -> io::Result<()>
        ensures session { self.new.is_session ≡ self.old.is_session }
    {
        let mut at = 0;
        for _write in 0..u64::MAX {
            if at >= bytes.len() {
                return Ok(());
            }
            match self.show(&bytes[at..]) {
                Ok(0) => return Err(io::Error::from(ErrorKind::WriteZero)),
                Ok(count) => at += count,
                Err(error) if is_interrupted(&error) => continue,
                Err(error) => return Err(error),
            }
        }
        Err(io::Error::from(ErrorKind::WriteZero))
    }

    // Shows the first of these bytes.
    fn show(&mut self, buf: &[u8]) -> io::Result<usize>
        ensures bound { WritesAtMost result buf.now }
        ensures bytes { WriteAppends (S.Write.contents self.old.writer) (S.Write.contents self.new.writer)
            result buf.now }
        ensures session { self.new.is_session ≡ self.old.is_session }
    {
        for _ in self.rt.forever() {
            if !self.link.holds_screen(&self.rt) {
                break;
            }
            thread::sleep(&self.rt, Duration::from_millis(LOOK));
        }
        let count = self.link.take_half_off(&self.rt, buf);
        let wrote = self.writer.write(&buf[..count]);
        self.link.put_half_back(&self.rt, shown_of(&wrote, buf));
        let fails = match &wrote {
            Ok(count) => *count == 0 && !buf.is_empty(),
            Err(error) => error.kind() != ErrorKind::Interrupted,
        };
        if fails {
            self.link.darken();
        }
        if let Ok(count) = &wrote {
            self.link.log(&self.rt, self.alloc, &buf[..*count]);
        }
        wrote
    }
}

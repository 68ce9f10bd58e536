//! Standard output, whose reader may leave.

ghost use Rattle.std.specs.Io.{WritesAtMost, KnownBytes.WriteAppends};
ghost use Rattle.tn_program.specs.Outlets.{HandsOn, held_by};

use std::io;
use std::io::{ErrorKind, Write};

/// The screen of a session. If its reader has left, as `head` does, text that is still written is
/// dropped: the screen has ended the connection then, and the session ends as by a hang-up. So
/// nothing is known beforehand of what a session's screen holds; any other holds what is written to
/// it.
#[derive(Drop)]
pub struct Outlet<S> {
    pub screen: S,
    /// Whether the leaving of its reader is no fault.
    pub is_session: bool,
}

impl<S: Write> Write for Outlet<S> {
    ghost contents = { λ outlet. held_by outlet.is_session (S.Write.contents outlet.screen) };

    fn write(&mut self, buf: &[u8]) -> io::Result<usize>
        ensures bound { WritesAtMost result buf.now }
        ensures bytes { WriteAppends (held_by self.old.is_session (S.contents self.old.screen))
            (held_by self.new.is_session (S.contents self.new.screen)) result buf.now }
        ensures hands_on { HandsOn self.old.is_session (S.contents self.old.screen)
            (S.contents self.new.screen) result buf.now }
    {
        match self.screen.write(buf) {
            Err(error) if self.is_session && error.kind() == ErrorKind::BrokenPipe => Ok(buf.len()),
            wrote => wrote,
        }
    }

    fn flush(&mut self) -> io::Result<()> {
        self.screen.flush()
    }
}

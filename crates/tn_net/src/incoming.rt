//! The bytes that a client's connection brings.

ghost use Rattle.std.specs.{Prelude.{◌≡◌, None}, Io.{ReadsAtMost, KnownBytes.ReadConsumes}};
ghost use Rattle.tn_net.specs.Passing.{HandsOn};

use crate::link::Link;
use crate::trace::{Direction, Trace};
use std::alloc::Global;
use std::io;
use std::io::{ErrorKind, Read};
use std::sync::{Arc, Wait};
use std::time::Clock;

/// The reading side of a client's connection. It notes the end of the stream, so that the keys can
/// end too.
#[derive(Drop)]
pub struct Incoming<H, N> {
    reader: N,
    link: Arc<Link, Global>,
    trace: Trace<H>,
}

impl<H, N> Incoming<H, N> {
    /// Makes the reading side of a connection.
    pub fn new(reader: N, link: Arc<Link, Global>, trace: Trace<H>) -> Incoming<H, N>
        ensures { result.reader ≡ reader }
    {
        Incoming {
            reader,
            link,
            trace,
        }
    }

    /// Returns the state that the parts of the connection share.
    pub fn link(&self) -> &Arc<Link, Global> {
        &self.link
    }
}

impl<H: Clock + Copy + Wait, N: Read> Incoming<H, N> {
    fn take(&mut self, bytes: &[u8])
        ensures { self.new.reader ≡ self.old.reader }
    {
        self.link.count_came(bytes.len());
        self.trace.note(Direction::Came, bytes);
    }
}

impl<H: Clock + Copy + Wait, N: Read> Read for Incoming<H, N> {
    fn read(&mut self, buf: &mut [u8]) -> io::Result<usize>
        ensures bound { ReadsAtMost result buf.new }
        ensures bytes { ReadConsumes None None result buf.new }
        ensures hands_on { HandsOn (N.remaining self.old.reader)
            (N.remaining self.new.reader) result buf.new }
    {
        let got = self.reader.read(buf);
        match &got {
            Ok(0) => self.link.close(),
            Ok(count) => self.take(&buf[..*count]),
            Err(error) if error.kind() == ErrorKind::Interrupted => {},
            Err(_) => {
                self.link.break_off();
                // A user who leaves has broken the connection, and so has a screen that takes no more.
                if self.link.is_given_up() {
                    return Ok(0);
                }
            },
        }
        got
    }
}

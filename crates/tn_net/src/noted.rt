//! A direction of a connection without Telnet, whose bytes are counted and traced.

ghost use Rattle.std.specs.{Prelude.◌≡◌, Io.{ReadsAtMost, WritesAtMost}};
ghost use Rattle.std.specs.Io.KnownBytes.{Keeps, ReadConsumes, WriteAppends};
ghost use Rattle.tn_cores.specs.streams.Sending.{finished_on, written_on};

use crate::link::Link;
use crate::trace::{Direction, Trace};
use std::io;
use std::io::Read;
use std::sync::Wait;
use std::time::Clock;
use tn_cores::streams::{Drain, Finish};

/// The reading side of a connection. The bytes are counted, and traced if that is wanted.
#[derive(Drop)]
pub struct Noted<'a, H, S> {
    stream: S,
    link: &'a Link,
    trace: &'a Trace<H>,
}

impl<'a, H, S> Noted<'a, H, S> {
    /// Makes the reading side of this stream.
    pub fn new(stream: S, link: &'a Link, trace: &'a Trace<H>) -> Noted<'a, H, S>
        ensures { result.stream ≡ stream }
    {
        Noted {
            stream,
            link,
            trace,
        }
    }
}

impl<'a, H: Clock + Copy + Wait, S: Read> Read for Noted<'a, H, S> {
    ghost remaining = { λ noted. S.Read.remaining noted.stream };

    fn read(&mut self, buf: &mut [u8]) -> io::Result<usize> {
        let read = self.stream.read(buf);
        if let Ok(count) = &read {
            self.link.count_came(*count);
            self.trace.note(Direction::Came, &buf[..*count]);
        }
        read
    }
}

/// The writing side of a connection. The bytes are counted, and traced if that is wanted.
#[derive(Drop)]
pub struct NotedWriter<'a, H, W> {
    writer: W,
    link: &'a Link,
    trace: &'a Trace<H>,
}

impl<'a, H, W> NotedWriter<'a, H, W> {
    /// Makes the writing side of this writer.
    pub fn new(writer: W, link: &'a Link, trace: &'a Trace<H>) -> NotedWriter<'a, H, W>
        ensures { result.writer ≡ writer }
    {
        NotedWriter {
            writer,
            link,
            trace,
        }
    }
}

impl<'a, H: Clock + Copy + Wait, W: Finish> Drain for NotedWriter<'a, H, W> {
    ghost contents = { λ noted. W.Drain.contents noted.writer };

    ghost sending = { λ noted. W.Drain.sending noted.writer };

    fn write_some(&mut self, buf: &[u8]) -> io::Result<usize> {
        let wrote = self.writer.write_some(buf);
        if let Ok(count) = &wrote {
            self.link.count_went(*count);
            self.trace.note(Direction::Went, &buf[..*count]);
        }
        wrote
    }
}

impl<'a, H: Clock + Copy + Wait, W: Finish> Finish for NotedWriter<'a, H, W> {
    fn finish(&mut self) {
        self.writer.finish();
    }
}

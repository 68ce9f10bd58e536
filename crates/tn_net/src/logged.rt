//! A writer with a log of what it took.

ghost use Rattle.std.specs.{Prelude.{◌≡◌, [], Some}, Io.{WritesAtMost, KnownBytes.{Keeps, WriteAppends}}};
ghost use Rattle.tn_net.specs.Logs.{logged};
ghost use Rattle.tn_cores.specs.streams.Sending.{finished_on, written_on};

use crate::write_log::WriteLog;
use std::io;
use tn_cores::streams::{Drain, Finish};

/// A writer with a log of the bytes that it took, so that contracts see them though it reports
/// nothing itself, as a socket does.
#[derive(Drop)]
pub struct Logged<W> {
    writer: W,
    log: WriteLog,
}

impl<W: Drop> Logged<W> {
    /// Makes a log of a writer to which nothing was written yet.
    pub fn new(writer: W) -> Logged<W>
        ensures log { logged result.log ≡ [] }
        ensures writer { result.writer ≡ writer }
    {
        Logged {
            writer,
            log: WriteLog::new(),
        }
    }

    /// Returns the writer, and the log of the bytes that it took.
    pub fn into_parts(self) -> (W, WriteLog)
        ensures writer { result.0 ≡ self.writer }
        ensures log { result.1 ≡ self.log }
    {
        let Logged { writer, log } = self;
        (writer, log)
    }
}

impl<W: Finish> Drain for Logged<W> {
    ghost contents = { λ l. Some (logged l.log) };

    ghost sending = { λ l. W.Drain.sending l.writer };

    fn write_some(&mut self, buf: &[u8]) -> io::Result<usize>
        ensures bound { WritesAtMost result buf.now }
        ensures bytes { WriteAppends (Some (logged self.old.log)) (Some (logged self.new.log)) result
            buf.now }
        ensures goes { W.sending self.new.writer ≡ written_on (W.sending self.old.writer) }
        ensures hands_on { WriteAppends (W.contents self.old.writer) (W.contents self.new.writer) result
            buf.now }
    {
        let count = self.writer.write_some(buf)?;
        let log = std::mem::replace(&mut self.log, WriteLog::new());
        self.log = log.then_all(&buf[..count]);
        Ok(count)
    }
}

impl<W: Finish> Finish for Logged<W> {
    fn finish(&mut self)
        ensures log { self.new.log ≡ self.old.log }
        ensures hands_on { Keeps (W.contents self.old.writer) (W.contents self.new.writer) }
        ensures finishes { W.sending self.new.writer ≡ finished_on (W.sending self.old.writer) }
    {
        self.writer.finish();
    }
}

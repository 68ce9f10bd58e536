//! All bytes that were read, for contracts: when it runs it holds none of them but the last.

ghost use Rattle.std.specs.Prelude.{◌≡◌, [], ◌∷◌, ◌++◌};
ghost use Rattle.tn_lines.specs.Logs.{bytes_in};

use std::mem;
use std::snapshot::Snapshot;

/// All bytes that were read, in order, as contracts see it. When it runs it is two bytes long: it holds none
/// of them but the last.
#[derive(Drop)]
pub enum ReadLog {
    Empty,
    More(Snapshot<ReadLog>, u8),
}

impl ReadLog {
    /// Makes a log of no byte.
    pub(crate) fn new() -> ReadLog
        ensures { bytes_in result ≡ [] }
    {
        ReadLog::Empty
    }

    // Adds this byte to the log.
    fn then(self, byte: u8) -> ReadLog
        ensures { bytes_in result ≡ bytes_in self ++ (byte ∷ []) }
    {
        let before = Snapshot::of(&self);
        ReadLog::More(before, byte)
    }

    // Adds these bytes to the log, one after another.
    fn then_all(self, bytes: &[u8]) -> ReadLog
        ensures { bytes_in result ≡ bytes_in self ++ bytes.now }
    {
        let mut log = self;
        for byte in bytes {
            log = log.then(*byte);
        }
        log
    }

    /// Adds these bytes to the log.
    pub(crate) fn add(&mut self, bytes: &[u8])
        ensures { bytes_in self.new ≡ bytes_in self.old ++ bytes.now }
    {
        *self = mem::replace(self, ReadLog::Empty).then_all(bytes);
    }
}

//! All bytes that were written, for contracts: when it runs it holds none of them but the last.

ghost use Rattle.std.specs.Prelude.{◌≡◌, [], ◌∷◌, ◌++◌};
ghost use Rattle.tn_net.specs.Logs.{logged};

use std::snapshot::Snapshot;

/// All bytes that were added, in order, as contracts see it. When it runs it is two bytes long: it holds none
/// of them but the last.
#[derive(Drop)]
pub enum WriteLog {
    Empty,
    More(Snapshot<WriteLog>, u8),
}

impl WriteLog {
    /// Makes a log of no byte.
    pub fn new() -> WriteLog
        ensures { logged result ≡ [] }
    {
        WriteLog::Empty
    }

    // Adds this byte to the log.
    fn then(self, byte: u8) -> WriteLog
        ensures { logged result ≡ logged self ++ (byte ∷ []) }
    {
        let before = Snapshot::of(&self);
        WriteLog::More(before, byte)
    }

    /// Adds these bytes to the log, one after another.
    pub(crate) fn then_all(self, bytes: &[u8]) -> WriteLog
        ensures { logged result ≡ logged self ++ bytes.now }
    {
        let mut log = self;
        for byte in bytes {
            log = log.then(*byte);
        }
        log
    }
}

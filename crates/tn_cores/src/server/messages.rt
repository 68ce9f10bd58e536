//! The terminal's answers to a message.

use tn_discipline::Entry;
use tn_server::ServerFault;

/// The mark of a message: how far it was done.
#[derive(Clone, Copy, Debug, PartialEq, Eq)]
pub enum ServerMark {
    /// The message was done wholly, and what it appended was written.
    Whole,
    /// The message was done wholly, but a write failed.
    WriteFailed,
    /// A call of the server end was refused, after what the message gives to the foreground job was put
    /// for it, or before.
    Refused { fault: ServerFault, put: bool },
}

/// The entry that goes to the foreground job, if any.
#[derive(Debug, Drop, PartialEq, Eq)]
pub enum Put {
    Nothing,
    Entry(Entry),
    /// The end of its entries.
    End,
}

/// The outcome of a message: the entry for the foreground job; the one for it if something failed;
/// and how far the message was done.
#[derive(Drop)]
pub struct MessageOutcome {
    pub put: Put,
    pub last: Put,
    pub mark: ServerMark,
}

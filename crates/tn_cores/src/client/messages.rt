//! The messages to the core, and how far each was done.

use crate::messages::Message;
use tn_client::ClientFault;

/// The source of a message.
#[derive(Clone, Copy, Debug, PartialEq, Eq)]
pub enum Origin {
    /// From the keys that the user types.
    Keys,
    /// From the network.
    Net,
}

/// A message to the core, with its source.
#[derive(Debug, Drop)]
pub struct Told {
    pub from: Origin,
    pub message: Message,
}

/// The mark of a message: how far it was done.
#[derive(Clone, Copy, Debug, PartialEq, Eq)]
pub enum ClientMark {
    /// The message was done wholly, and what it appended was written and shown.
    Whole,
    /// The message was done wholly, but a write to the network failed.
    WriteFailed,
    /// The message was done wholly, and what it appended was written, but a write to the screen
    /// failed.
    ShowFailed,
    /// A call of the client end was refused.
    Refused(ClientFault),
}

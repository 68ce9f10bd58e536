//! The messages of the mailbox.

use tn_cores::Message;

/// The sender of a message.
#[derive(Clone, Copy, PartialEq, Eq)]
pub enum Sender {
    /// The thread that reads from the network.
    Net,
    /// The thread of the foreground job.
    Desk,
    /// The thread of the background jobs.
    Back,
    /// The thread that reads a client's keys.
    Keys,
}

/// A message with its sender.
#[derive(Drop)]
pub struct Mail {
    pub from: Sender,
    pub message: Message,
}

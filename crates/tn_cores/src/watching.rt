//! The watcher of a session's threads.
//!
//! The trait has methods with bodies, and the crate that starts the threads asks whether a gate may
//! cross them. If both were one crate, the modules with which its check begins would take twice as
//! long.

use crate::client::{Origin, Terms};
use crate::streams::WindowSize;
use tn_jobs::JobId;

/// A place that a thread of a session comes by.
#[derive(Clone, Copy, Debug, PartialEq, Eq)]
pub enum Place {
    /// A piece was read from the network and sent on.
    NetPiece,
    /// A piece of keys was read and sent on.
    KeysPiece,
    /// The foreground job is to answer an entry.
    DeskEntry,
    /// A background job is to make a step.
    BackStep,
    /// The terminal has handled the text of this job.
    TermSaid(JobId),
    /// The terminal has put an entry for the foreground job.
    TermTook,
}

/// The progress of a server's session with the keys of its user.
#[derive(Clone, Copy)]
pub struct Typed {
    /// The pieces that had their effect.
    pub pieces: u64,
    /// All that was typed in them has gone to the foreground job, which waits for more.
    pub is_answered: bool,
    /// An interrupt or a quit waits for the foreground job.
    pub is_interrupted: bool,
}

/// A watcher of the threads. It changes no answer.
pub trait Gate {
    /// Takes the report that a thread comes by this place.
    fn at(&self, place: Place);

    /// Takes the report that a server's terminal has handled a message, and how far it is with the
    /// typed keys.
    fn typed(&self, _typed: Typed) {}

    /// Takes the report that a server's terminal has handled a message, after which the client's
    /// window has this size. The entry that the message gives to the foreground job goes there
    /// afterwards.
    fn resized(&self, _size: WindowSize) {}

    /// Takes the report that a client's core handles a message of this sender next. The session
    /// shows nothing else until it has shown what the message made.
    fn handles(&self, _from: Origin) {}

    /// Takes the terms of a client's core, which has handled a message.
    fn agreed(&self, _terms: Terms) {}

    /// Takes the report that nothing has any effect on a client's core any more: a thread that
    /// waits for its user need not wait on.
    fn over(&self) {}
}

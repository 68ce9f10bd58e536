//! A connection that comes to a server.

use crate::events::{Event, SaysEnd};
use crossbeam_channel::Sender;
use std::alloc::{AllocError, Global};
use std::sync::Wait;
use tn_net::Hook;
use tn_net::network::Peer;

/// A connection that is to have a session.
#[derive(Drop)]
pub struct Call {
    /// The session's number, from 0 on. Another session gets it once this one has ended.
    pub number: usize,
    /// The client of the connection.
    pub peer: Peer,
    pub hook: Hook,
    pub notes: Notes,
}

/// A handle by which a job has something noted of its session, if its server notes anything.
#[derive(Drop)]
pub struct Notes {
    pub(crate) events: Sender<Event, Global>,
    pub(crate) number: usize,
}

impl Notes {
    /// Makes one more handle of the same session.
    ///
    /// # Errors
    ///
    /// - Out of memory.
    pub fn another(&self) -> Result<Notes, AllocError> {
        Ok(Notes {
            events: self.events.clone()?,
            number: self.number,
        })
    }

    /// Has it noted that the service of its session speaks Telnet. While too much is to be noted, that is
    /// dropped.
    pub fn note_telnet<R: Wait>(&self, rt: &R) {
        let _ = self.events.try_send(rt, Event::Telnet(self.number));
    }

    /// Has it noted that a line of this number of bytes may have been truncated. While too much is
    /// to be noted, the note is dropped.
    pub fn note_cut<R: Wait>(&self, rt: &R, bytes: usize) {
        let _ = self.events.try_send(rt, Event::Cut(self.number, bytes));
    }
}

impl SaysEnd for Notes {
    fn say_end<R: Wait>(&self, rt: &R) {
        let _ = self.events.send(rt, Event::Ended(self.number));
    }
}

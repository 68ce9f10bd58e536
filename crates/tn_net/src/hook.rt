//! A hook by which the jobs of a session end its connection.

use crate::attended::Standing;
use std::alloc::{AllocError, Global};
use std::net::TcpStream;
use std::sync::{Arc, Wait};
use tn_cores::streams::WindowSize;

/// A hook by which a job ends the connection of its session from outside of the session, and sees
/// that it is over. A job in the background has no other way: its end ends no session.
#[derive(Drop)]
pub struct Hook {
    standing: Arc<Standing, Global>,
}

impl Hook {
    /// Makes a hook of the connection with this standing.
    pub fn new(standing: &Arc<Standing, Global>) -> Result<Hook, AllocError> {
        Ok(Hook {
            standing: Arc::try_clone(standing)?,
        })
    }

    /// Makes one more hook of the same connection.
    pub fn another(&self) -> Result<Hook, AllocError> {
        Hook::new(&self.standing)
    }

    /// Ends the session, as if its client had hung up: at once if it is held, else within half a
    /// second. The text that its jobs have written before is sent, the client gets the end of the
    /// stream, and the bytes that it still sends are not read.
    pub fn hang_up(&self) {
        self.standing.hang_up();
    }

    /// Holds the session, which from then on goes on for at most two seconds after its client has
    /// ended its stream, until it is hung up: a job may still have to write the answers.
    pub fn hold(&self) {
        self.standing.hold();
    }

    /// Notes that the connection to which the job is joined was not reached, for these causes, a
    /// line each. They are reported with the session's end.
    pub fn note_unreached<R: Wait>(&self, rt: &R, causes: Vec<u8>) {
        self.standing.note_unreached(rt, causes);
    }

    /// Notes the connection to which the job is joined, for its end: no more is sent there once the
    /// client has ended its stream and all of that went to the job in the foreground, and a reset
    /// by the client ends it at once.
    pub fn join<R: Wait>(&self, rt: &R, onward: TcpStream) {
        self.standing.join(rt, onward);
    }

    /// Ends the stream to the connection to which the job is joined, or is joined later.
    pub fn end(&self) {
        self.standing.end();
    }

    /// Returns whether an interrupt or a quit that the client typed waits for the job in the
    /// foreground.
    pub fn is_interrupted(&self) -> bool {
        self.standing.is_interrupted()
    }

    /// Returns the size of the client's window in characters; 0 leaves a dimension open (RFC 1073).
    /// An entry that was typed after the window changed goes to its job once the new size has come.
    pub fn window(&self) -> WindowSize {
        self.standing.window()
    }

    /// Returns whether nothing more comes from the session's client: it has hung up, or got the end
    /// of the stream.
    pub fn is_over(&self) -> bool {
        self.standing.is_over()
    }

    /// Returns the number of seconds for which a write of a job may wait, or 0 for ever.
    pub fn patience(&self) -> usize {
        self.standing.patience()
    }

    /// Returns whether the session's client has ended its stream, even if the bytes that it sent
    /// before are not read yet.
    pub fn has_client_ended(&self) -> bool {
        self.standing.has_peer_ended()
    }
}

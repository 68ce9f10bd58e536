//! The events that the threads of a server send to the one that starts and joins its sessions.

use std::io;
use std::net::TcpStream;
use std::sync::Wait;
use tn_net::network::Peer;

/// A sender of the event that a session has ended. The thread of a session has no other link to the
/// others.
pub(crate) trait SaysEnd {
    fn say_end<R: Wait>(&self, rt: &R);
}

/// An event at a server.
#[derive(Drop)]
pub(crate) enum Event {
    /// A connection was accepted, from this peer.
    Came(TcpStream, Peer),
    /// The machine can give no connection at the moment, for this reason.
    Starved(io::Error),
    /// This peer got the line that there is no room, since the machine has none, for this reason.
    Refused(Peer, io::Error),
    /// A connection from this peer was closed, since it did not begin with the line of a proxy.
    Unproxied(Peer),
    /// Nothing happened for a while.
    Quiet,
    /// No connection is accepted any more.
    Closed,
    /// A line of this number of bytes, of the session with this number, may have been truncated.
    Cut(usize, usize),
    /// The service of the session with this number speaks Telnet.
    Telnet(usize),
    /// The session with this number has ended, and its thread is about to.
    Ended(usize),
}

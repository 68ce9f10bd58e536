//! The other end of a connection.

use std::fmt;
use std::fmt::Display;
use std::net::SocketAddr;

/// The other end of a connection that was accepted.
#[derive(Clone, Copy)]
pub enum Peer {
    /// The address and the port that the connection comes from.
    Address(SocketAddr),
    /// A process of this machine, over a Unix-domain socket. It is shown as `unix`.
    Unix,
}

impl Display for Peer {
    fn fmt<W: fmt::Write>(&self, f: &mut fmt::Formatter<W>) -> fmt::Result {
        match self {
            Peer::Address(address) => write!(f, "{address}"),
            Peer::Unix => f.write_str("unix"),
        }
    }
}

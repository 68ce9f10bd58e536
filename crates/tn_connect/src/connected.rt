//! A client's session over a connection that ended without a fault.

use std::net::TcpStream;
use std::snapshot::Snapshot;
use tn_net::{PiecePass, WriteLog};
use tn_session::{ClientPorts, Report};

/// A client's session over a connection that ended without a fault.
#[derive(Drop)]
pub struct Connected {
    pub report: Report,
    /// The passes of its threads, in which contracts see what each sent, and so all that was read
    /// from the connection and all keys that were read.
    pub ports: ClientPorts,
    /// The pass of its queue, in which contracts see all that the session wrote, since it waited
    /// there to be sent.
    pub queue: PiecePass,
    /// All that the connection took of it.
    pub log: WriteLog,
    /// Whether the connection took all. If the user left before, it may have taken less.
    pub all_sent: bool,
    /// The connection that it ran over, for contracts.
    pub connection: Snapshot<TcpStream>,
}

//! A session over a connection that came to its report.

ghost use Rattle.std.specs.Prelude.{◌≡◌};
ghost use Rattle.tn_serve.specs.Ends.{finished_as};

use crate::finished::Finished;
use std::net::TcpStream;
use std::snapshot::Snapshot;
use tn_net::WriteLog;
use tn_session::{Ports, Report, SessionFault};

/// A session over a connection that came to its report.
#[derive(Drop)]
pub struct Conversed {
    pub report: Report,
    /// The passes of its threads, in which contracts see what each sent, and so all that was read
    /// from the connection.
    pub ports: Ports,
    /// The log in which contracts see all that was written to the connection.
    pub log: WriteLog,
    /// The connection that it ran over, for contracts.
    pub connection: Snapshot<TcpStream>,
}

// A session whose threads are joined, as its thread gives it back.
#[derive(Drop)]
pub(crate) struct Ran {
    // The result of the session, or why it did not come to its report.
    pub(crate) ended: Result<Conversed, SessionFault>,
    // Its client typed nothing for too long.
    pub(crate) idle: bool,
    // Whether the session lasted too long.
    pub(crate) too_long: bool,
}

impl Ran {
    // Returns how the session ended, as its service gets it.
    pub(crate) fn finished(&self) -> Finished
        ensures { result ≡ finished_as self.now }
    {
        let report = match &self.ended {
            Ok(conversed) => Ok(conversed.report),
            Err(fault) => Err(*fault),
        };
        Finished {
            report,
            idle: self.idle,
            too_long: self.too_long,
        }
    }
}

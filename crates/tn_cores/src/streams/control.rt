//! The requests of a user between the keys.

/// A user's request between keys: a control function (RFC 854, "Standard representation of control
/// functions"), or a new line.
#[derive(Clone, Copy, Debug, PartialEq, Eq)]
pub enum Control {
    /// The key BREAK.
    Brk,
    /// Interrupts the process at the server.
    Ip,
    /// Asks whether the server is there.
    Ayt,
    /// Enters a new line, which goes as CR LF (RFC 1123, section 3.3.1).
    NewLine,
}

//! The notes of a server. Each note is a record: its target names the event, its pairs hold what
//! programs read, and its sentence is what people read.

use crate::caller::Caller;
use crate::finished::Finished;
use crate::notes::FAULT;
use crate::traffic::Passed;
use log::{Level, Log, error, info, log, warn};
use std::fmt::Display;
use std::io::ErrorKind;
use std::net::TcpListener;
use std::time::Duration;
use std::{fmt, io, str};
use tn_net::network::{ListeningOn, Peer};
use tn_session::{Ended, SessionFault};

/// Notes the address at which connections are accepted.
pub(crate) fn listening<L: Log>(log: &L, listener: &TcpListener) {
    let address = ListeningOn(listener);
    info!(log; target: "listening", address:% = address; "listening on {}", address);
}

/// Notes that a session begins.
pub(crate) fn began<L: Log>(log: &L, caller: &Caller) {
    info!(
        log; target: "began", session = caller.number, serial = caller.serial, peer:% = caller.peer;
        "{} began", Whose(caller)
    );
}

/// Notes that a connection got no session, since as many as allowed were running.
pub(crate) fn full<L: Log>(log: &L, serial: u64, peer: &Peer) {
    info!(
        log; target: "full", serial = serial, peer:% = peer;
        "no session (serial {}) from {}: full", serial, peer
    );
}

/// Notes that a line of this number of bytes may have been truncated.
pub(crate) fn cut<L: Log>(log: &L, caller: &Caller, bytes: usize) {
    info!(
        log; target: "cut", session = caller.number, serial = caller.serial, peer:% = caller.peer,
        bytes = bytes;
        "{}: a line of {} bytes may have been cut", Whose(caller), Grouped(bytes as u64)
    );
}

/// Notes that the service of a session speaks Telnet.
pub(crate) fn telnet<L: Log>(log: &L, caller: &Caller) {
    warn!(
        log; target: "telnet", session = caller.number, serial = caller.serial, peer:% = caller.peer;
        "{}: its service speaks Telnet, which is not shown", Whose(caller)
    );
}

/// Notes that a connection got no session, since it did not begin with the line of a proxy.
pub(crate) fn unproxied<L: Log>(log: &L, peer: &Peer) {
    warn!(
        log; target: "unproxied", peer:% = peer;
        "no session from {}: it does not begin with a PROXY line", peer
    );
}

/// Notes that a connection got no session, since the machine had a descriptor only to send it
/// `full`.
pub(crate) fn full_by<L: Log>(log: &L, peer: &Peer, error: &io::Error) {
    warn!(
        log; target: "full", peer:% = peer, cause:% = error;
        "no session from {}: full, {}", peer, error
    );
}

/// Notes that the machine can give no connection, and is asked again.
pub(crate) fn starved<L: Log>(log: &L, error: &io::Error) {
    warn!(
        log; target: "starved", cause:% = error;
        "no connection can be accepted now: {}", error
    );
}

/// Notes that no connection is accepted any more.
pub(crate) fn closed<L: Log>(log: &L) {
    info!(log; target: "closed", "no more connections are accepted");
}

/// Prints that a session ended in a fault.
pub(crate) fn fault<L: Log>(log: &L) {
    error!(log; target: FAULT, "tn: session");
}

/// The end of a session, as it is noted.
#[derive(Clone, Copy)]
pub(crate) struct SessionEnd<'a> {
    pub(crate) caller: &'a Caller,
    pub(crate) finished: &'a Finished,
    /// The causes why its service was not reached, a line that begins with `tn: ` for each address,
    /// or nothing.
    pub(crate) causes: &'a [u8],
    /// Its server was to end.
    pub(crate) is_closing: bool,
    pub(crate) lasted: Duration,
    pub(crate) passed: Passed,
}

/// Notes how a session ended and what passed over its connection: a warning if it ended in a fault, unless
/// its client reset the connection or its server was to end, or if its service was not reached.
pub(crate) fn ended<L: Log>(log: &L, end: &SessionEnd<'_>) {
    let is_in_order = end.finished.is_whole() || why_broken(end).is_some();
    let level = if is_in_order && end.causes.is_empty() {
        Level::Info
    } else {
        Level::Warn
    };
    let SessionEnd { caller, passed, .. } = *end;
    let entries = end.finished.entries();
    log!(
        log; target: "ended", level, session = caller.number, serial = caller.serial,
        peer:% = caller.peer, cause:% = Why(end), seconds:% = Seconds(end.lasted),
        "in" = passed.came, out = passed.went, entries = entries;
        "{} ended: {}, {} s, in {} bytes, out {} bytes, {} entries",
        Whose(caller), Why(end), Seconds(end.lasted),
        Grouped(passed.came), Grouped(passed.went), Grouped(entries)
    );
}

// The client whose session it is.
#[derive(Clone, Copy)]
struct Whose<'a>(&'a Caller);

impl Display for Whose<'_> {
    fn fmt<W: fmt::Write>(&self, f: &mut fmt::Formatter<W>) -> fmt::Result {
        let Caller {
            number,
            serial,
            peer,
            ..
        } = self.0;
        write!(f, "session {number} (serial {serial}) from {peer}")
    }
}

// The reason why a session ended.
#[derive(Clone, Copy)]
struct Why<'a>(&'a SessionEnd<'a>);

impl Display for Why<'_> {
    fn fmt<W: fmt::Write>(&self, f: &mut fmt::Formatter<W>) -> fmt::Result {
        if self.0.causes.is_empty() {
            write_cause(f, self.0)
        } else {
            write_unreached(f, self.0.causes)
        }
    }
}

fn write_cause<W: fmt::Write>(f: &mut fmt::Formatter<W>, end: &SessionEnd<'_>) -> fmt::Result {
    let SessionEnd {
        finished,
        passed,
        ..
    } = *end;
    if let Some(cause) = why_broken(end) {
        return f.write_str(cause);
    }
    match &finished.report {
        Err(fault) => write_fault(f, *fault, passed),
        Ok(report) => match report.ended {
            Ended::HangUp if finished.idle => f.write_str("idle"),
            Ended::HangUp if finished.too_long => f.write_str("too long"),
            Ended::HangUp if end.is_closing => f.write_str("closing"),
            Ended::HangUp => f.write_str("hang-up"),
            Ended::Done => f.write_str("done"),
            Ended::Fault(fault) => write_fault(f, fault, passed),
        },
    }
}

// Returns why the connection broke, unless the system failed: the server was to end and cut it, or
// the client reset it. A write after a reset fails as over a pipe without a reader.
fn why_broken(end: &SessionEnd<'_>) -> Option<&'static str> {
    let fault = match &end.finished.report {
        Err(fault) => *fault,
        Ok(report) => match report.ended {
            Ended::Fault(fault) => fault,
            _ => return None,
        },
    };
    let is_broken = matches!(fault, SessionFault::Read | SessionFault::Write);
    match end.passed.broke {
        _ if is_broken && end.is_closing => Some("closing"),
        Some(ErrorKind::ConnectionReset | ErrorKind::BrokenPipe) if is_broken => {
            Some("reset by the client")
        },
        _ => None,
    }
}

// Writes the system's message for the error that broke the connection, if one did.
fn write_fault<W: fmt::Write>(
    f: &mut fmt::Formatter<W>,
    fault: SessionFault,
    passed: Passed,
) -> fmt::Result {
    match (fault, passed.broke) {
        (SessionFault::Read | SessionFault::Write, Some(kind)) => write!(f, "{kind}"),
        _ => write!(f, "{fault}"),
    }
}

// Writes each address of the service, and why it was not reached.
fn write_unreached<W: fmt::Write>(f: &mut fmt::Formatter<W>, causes: &[u8]) -> fmt::Result {
    f.write_str("service not reached")?;
    let mut is_first = true;
    for line in causes.split(|byte| *byte == b'\n') {
        if let Some(cause) = line.strip_prefix(b"tn: ") {
            if is_first {
                f.write_str(": ")?;
            } else {
                f.write_str("; ")?;
            }
            f.write_str(str::from_utf8(cause).unwrap_or("?"))?;
            is_first = false;
        }
    }
    Ok(())
}

// Seconds, to a tenth.
#[derive(Clone, Copy)]
struct Seconds(Duration);

impl Display for Seconds {
    fn fmt<W: fmt::Write>(&self, f: &mut fmt::Formatter<W>) -> fmt::Result {
        write!(f, "{}.{}", self.0.as_secs(), self.0.subsec_millis() / 100)
    }
}

/// The greatest power of a thousand below 2^64, and each below that.
const THOUSANDS: [u64; 7] = [
    1_000_000_000_000_000_000,
    1_000_000_000_000_000,
    1_000_000_000_000,
    1_000_000_000,
    1_000_000,
    1_000,
    1,
];

// A number with a comma before each three of its last digits.
#[derive(Clone, Copy)]
struct Grouped(u64);

impl Display for Grouped {
    fn fmt<W: fmt::Write>(&self, f: &mut fmt::Formatter<W>) -> fmt::Result {
        let mut has_begun = false;
        for unit in THOUSANDS {
            let three = self.0 / unit % 1_000;
            if has_begun {
                write!(f, ",{three:03}")?;
            } else if three > 0 || unit == 1 {
                write!(f, "{three}")?;
                has_begun = true;
            }
        }
        Ok(())
    }
}

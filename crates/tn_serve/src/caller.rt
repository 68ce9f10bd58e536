//! The client of a session.

use std::time::{Clock, Duration, Instant};
use tn_net::network::Peer;

/// The client of a session, and the time at which the session began.
#[derive(Clone, Copy)]
pub(crate) struct Caller {
    /// The session's number, which another session gets once this one has ended.
    pub(crate) number: usize,
    /// The number of the session among the accepted connections, from 1 on. No other has it.
    pub(crate) serial: u64,
    pub(crate) peer: Peer,
    pub(crate) since: Option<Instant>,
}

impl Caller {
    /// Returns the time for which there has been a session. Without a clock no time passes.
    pub(crate) fn lasted<C: Clock>(&self, clock: &C) -> Duration {
        match self.since.map(|since| since.elapsed(clock)) {
            Some(Ok(time)) => time,
            _ => Duration::ZERO,
        }
    }
}

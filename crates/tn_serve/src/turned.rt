//! Connections that got no session.

use std::alloc::Global;
use std::collections::VecDeque;
use std::net::TcpStream;
use std::time::{Clock, Duration, Instant};

/// The number of seconds for which such a connection is kept open. If it were closed at once, its
/// peer could lose the line `full`, should it send something.
const OPEN: u64 = 1;

/// The most of them that are kept open.
const KEPT_OPEN: usize = 16;

/// A connection that got the line `full`, and when.
#[derive(Drop)]
struct Turned {
    _stream: TcpStream,
    since: Option<Instant>,
}

impl Turned {
    // Returns whether it had its time. Without a clock it has had it.
    fn is_past<C: Clock>(&self, clock: &C) -> bool {
        match self.since.map(|since| since.elapsed(clock)) {
            Some(Ok(time)) => time.as_secs() >= OPEN,
            _ => true,
        }
    }
}

/// Connections that got the line `full`, and are kept open for their peers to close.
#[derive(Drop)]
pub(crate) struct TurnedAway {
    kept: VecDeque<Turned>,
}

impl TurnedAway {
    pub(crate) fn new(alloc: Global) -> TurnedAway {
        TurnedAway {
            kept: VecDeque::new(alloc),
        }
    }

    /// Keeps one more. If there are many, the first of them is closed for it.
    pub(crate) fn keep<C: Clock>(&mut self, clock: &C, stream: TcpStream) {
        if self.kept.len() >= KEPT_OPEN {
            self.kept.pop_front();
        }
        let turned = Turned {
            _stream: stream,
            since: Instant::now(clock).ok(),
        };
        let _ = self.kept.push_back(turned);
    }

    /// Closes those that had their time. Returns for how long the others are kept at most, if there are
    /// others.
    pub(crate) fn close<C: Clock>(&mut self, clock: &C) -> Option<Duration> {
        for _ in 0..KEPT_OPEN {
            if !self.has_past(clock) {
                break;
            }
            self.kept.pop_front();
        }
        if self.kept.is_empty() {
            return None;
        }
        Some(Duration::from_secs(OPEN))
    }

    fn has_past<C: Clock>(&self, clock: &C) -> bool {
        match self.kept.front() {
            Some(turned) => turned.is_past(clock),
            None => false,
        }
    }
}

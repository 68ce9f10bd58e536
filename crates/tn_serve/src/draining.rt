//! The end of sessions once a server is to end.

use std::time::{Clock, Duration, Instant};

/// The number of seconds that a session has to end once it is to, before its connection is cut.
const CUT: u64 = 3;

/// The number of milliseconds between two looks.
const LOOK: u64 = 200;

/// The action that is due for the sessions that still run.
#[derive(Clone, Copy)]
pub(crate) enum Due {
    Nothing,
    /// The sessions are to end, with `closing` as their last words.
    Close,
    /// Their connections are cut: some peer takes nothing.
    Cut,
}

#[derive(Clone, Copy)]
enum Stage {
    /// More connections may come.
    Open,
    /// No connection comes any more, since this moment, and sessions may go on.
    Draining(Option<Instant>),
    /// Sessions are to end, since this moment.
    Closing(Option<Instant>),
    Over,
}

/// The state of a server that is to end.
#[derive(Clone, Copy)]
pub(crate) struct Drain {
    /// The number of seconds that sessions have to end; 0 sets no limit.
    seconds: u32,
    stage: Stage,
}

impl Drain {
    /// Makes the state in which more connections may come; after the last, sessions have these
    /// seconds to end, or any time at 0.
    pub(crate) fn new(seconds: u32) -> Drain {
        Drain {
            seconds,
            stage: Stage::Open,
        }
    }

    /// Returns the action that is due at this moment.
    pub(crate) fn next<C: Clock>(&mut self, clock: &C, is_closed: bool) -> Due {
        match self.stage {
            Stage::Open if is_closed && self.seconds > 0 => {
                self.stage = Stage::Draining(Instant::now(clock).ok());
            },
            Stage::Draining(since) if is_past(clock, since, u64::from(self.seconds)) => {
                self.stage = Stage::Closing(Instant::now(clock).ok());
                return Due::Close;
            },
            Stage::Closing(since) if is_past(clock, since, CUT) => {
                self.stage = Stage::Over;
                return Due::Cut;
            },
            _ => {},
        }
        Due::Nothing
    }

    /// Returns the time after which more may be due, if no event comes before.
    pub(crate) fn time(&self) -> Option<Duration> {
        match self.stage {
            Stage::Draining(_) | Stage::Closing(_) => Some(Duration::from_millis(LOOK)),
            Stage::Open | Stage::Over => None,
        }
    }
}

// Returns whether a moment lies this number of seconds back. Without a clock it does.
fn is_past<C: Clock>(clock: &C, moment: Option<Instant>, seconds: u64) -> bool {
    match moment.map(|moment| moment.elapsed(clock)) {
        Some(Ok(elapsed)) => elapsed.as_secs() >= seconds,
        _ => true,
    }
}

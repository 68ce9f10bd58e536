//! The notes about the results of a roster's calls.

use crate::roster::RosterFault;
use log::{Log, info};

/// The target of these notes.
const EVENT: &str = "roster";

/// Notes, at level info, the fate of a session that was to enter the roster: `accepted` and its
/// number, `full`, `no memory` or `bad limit`. A note that cannot be made or written is dropped.
pub fn note<L: Log>(rt: &L, entered: &Result<usize, RosterFault>) {
    match entered {
        Ok(number) => info!(rt; target: EVENT, "accepted {}", number),
        Err(fault) => info!(rt; target: EVENT, "{}", refusal(*fault)),
    }
}

// Returns the text as which a refusal is noted.
fn refusal(fault: RosterFault) -> &'static str {
    match fault {
        RosterFault::Full => "full",
        RosterFault::Memory => "no memory",
        RosterFault::BadLimit => "bad limit",
    }
}

//! The sessions that run at once, by number, with a limit on how many there may be.
//!
//! Begin with `Roster`, and `RosterFault`, which says why it refused.
//!
//! ```
//! let mut roster = Roster::new(alloc, 8)?;
//! let number = roster.enter()?; // Full if eight are held
//! roster.leave(number);
//! ```
//!
//! It starts no session and stops none, and holds no lock: threads that share it keep it under one.

ghost use Rattle.std.specs.Prelude.{◌≡◌, ◌<◌, ◌≤◌, [], IsTrue, false, IsFalse, IfOk, OnOk, IfErr, OnErr};
ghost use Rattle.std.specs.Prelude.{IsErrOf};
ghost use Rattle.tn_session.specs.roster.Held.{is_held, held_count, IsLimit, Enters, Leaves};

pub use notes::note;
use slab::Slab;
use std::alloc::{AllocError, Global};
use std::marker::Model;
use thiserror::Error;

mod notes;

/// A roster never holds more sessions than this.
pub const MAX_SESSIONS: usize = 64;

/// The reason why a roster was not made, or took no session.
#[derive(Clone, Copy, Debug, PartialEq, Eq, Error)]
pub enum RosterFault {
    #[error("limit must be 1 to 64")]
    BadLimit,
    #[error("session limit reached")]
    Full,
    #[error("out of memory")]
    Memory,
}

impl From<AllocError> for RosterFault {
    ghost use Rattle.tn_session.specs.declared.roster.RosterFault.TheVariants as fault;

    ghost from_gives = { λ _ e. e ≡ fault.Memory };

    fn from(_error: AllocError) -> RosterFault {
        RosterFault::Memory
    }
}

/// The sessions that run at once, each with a number of its own. A number may be given again once its
/// session has left.
#[derive(Drop)]
pub struct Roster {
    sessions: Slab<()>,
    limit: usize,
}

impl Model for Roster {
    ghost use Rattle.std.specs.Prelude.{◌≤◌};
    ghost use Rattle.slab.specs.Slab.{slab_len};
    ghost use Rattle.tn_session.specs.roster.Held.{Held, IsLimit};

    ghost Value = { Held };

    ghost view = { λ roster. record { limit = roster.limit; numbers = roster.sessions.slots } };

    ghost invariant = { λ roster. IsLimit roster.limit
        × (slab_len roster.sessions ≤ roster.limit) × (roster.limit ≤ roster.sessions.capacity) };
}

impl Roster {
    /// Makes a roster without sessions, of which it may hold `limit`, 1 to 64. It takes the room
    /// for all of them, so that none runs out of memory later.
    ///
    /// # Errors
    ///
    /// - `BadLimit`: `limit` is not from 1 to 64.
    /// - `Memory`: there is no memory for the places.
    pub fn new(alloc: Global, limit: usize) -> Result<Roster, RosterFault>
        ensures limit { IfOk result (λ roster. roster.limit ≡ limit) }
        ensures empty { IfOk result (λ roster. roster.numbers ≡ []) }
        ensures good { OnOk result (IsLimit limit) }
        ensures bad { (¬ IsLimit limit) → IsErrOf result RosterFault.BadLimit }
        ensures memory { IfErr result (λ fault. IsLimit limit → fault ≡ RosterFault.Memory) }
    {
        if !(1..=MAX_SESSIONS).contains(&limit) {
            return Err(RosterFault::BadLimit);
        }
        let sessions = Slab::with_capacity(alloc, limit)?;
        Ok(Roster { sessions, limit })
    }

    /// Takes in a session, and returns its number.
    ///
    /// # Errors
    ///
    /// - `Full`: the session limit is reached; the roster is as it was.
    pub fn enter(&mut self) -> Result<usize, RosterFault>
        ensures enters { IfOk result (λ number. Enters self.old self.new number) }
        ensures room { OnOk result (held_count self.old < self.old.limit) }
        ensures full { IfErr result (λ fault. fault ≡ RosterFault.Full) }
        ensures at_limit { OnErr result (held_count self.old ≡ self.old.limit) }
        ensures err { OnErr result (self.new ≡ self.old) }
    {
        if self.sessions.len() == self.limit {
            return Err(RosterFault::Full);
        }
        Ok(self.sessions.insert_reserved(()))
    }

    /// Lets a session go, and frees its number; it returns false if no session has it.
    pub fn leave(&mut self, number: usize) -> bool
        ensures held { result ≡ is_held self.old number }
        ensures leaves { IsTrue result → Leaves self.old self.new number }
        ensures unchanged { IsFalse result → self.new ≡ self.old }
    {
        self.sessions.try_remove(number).is_some()
    }

    /// Returns the number of sessions that are held, which is never more than the limit.
    pub fn count(&self) -> usize
        ensures count { result ≡ held_count self.now }
        ensures within { result ≤ self.now.limit }
        ensures limit { IsLimit self.now.limit }
    {
        self.sessions.len()
    }
}

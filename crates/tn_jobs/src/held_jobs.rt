//! The jobs that a terminal holds, by their numbers.

ghost use Rattle.std.specs.Prelude.{◌≡◌, ◌≢◌, ◌+◌, ◌<◌, [], Some, None, IsTrue, IsFalse, IsSome, IfOk, OnOk};
ghost use Rattle.std.specs.{Prelude.{IfErr, OnErr}, Result.result_err};
ghost use Rattle.tn_jobs.specs.Jobs.{state_at, with_state, held_count, IsTable, Adds};
ghost use Rattle.tn_jobs.specs.Jobs.{is_foreground, has_foreground, foreground_after, add_fault};
ghost use Rattle.tn_jobs.specs.Jobs.{foreground_fault, background_fault, stopped_fault, done_fault};

use crate::verdicts::{JobState, Why};
use slab::Slab;
use std::alloc::Global;
use std::marker::Model;
use thiserror::Error;

/// The most jobs that a table holds.
pub const MAX_JOBS: usize = 16;

/// The number of a held job. It may be given to another job once this one is done.
#[derive(Clone, Copy, Debug, PartialEq, Eq)]
pub struct JobId(pub usize);

/// The reason why a table refused a call.
#[derive(Clone, Copy, Debug, PartialEq, Eq, Error)]
pub enum JobFault {
    #[error("no such job")]
    NoSuchJob,
    #[error("the job cannot change to this state")]
    WrongState,
    #[error("job limit reached")]
    Full,
    #[error("out of memory")]
    Memory,
}

/// The jobs of one terminal: at most sixteen, of which at most one is in the foreground.
#[derive(Drop)]
pub struct Table {
    jobs: Slab<JobState>,
    foreground: Option<usize>,
}

impl Model for Table {
    ghost use Rattle.std.specs.Prelude.{List, Option};
    ghost use Rattle.tn_jobs.specs.{declared.verdicts.JobState.JobState, Jobs.{IsTable, NamesForeground}};

    ghost Value = { List (Option JobState) };

    ghost view = { λ table. table.jobs.slots };

    ghost invariant = { λ table. IsTable table.jobs.slots
        × NamesForeground table.jobs.slots table.foreground };
}

impl Table {
    /// Makes a table with no job. It takes no memory until a job is added.
    pub fn new(alloc: Global) -> Table
        ensures { result ≡ [] }
    {
        Table {
            jobs: Slab::new(alloc),
            foreground: None,
        }
    }

    /// Adds a job to the background, under a number that no job has.
    ///
    /// # Errors
    /// - `Full` if sixteen jobs are held already.
    /// - `Memory` if fewer are held and the table cannot grow.
    ///
    /// Either leaves the table as it was.
    pub fn add(&mut self) -> Result<JobId, JobFault>
        ensures adds { IfOk result (λ id. Adds self.old self.new id.0) }
        ensures room { OnOk result (held_count self.old < 16) }
        ensures fault { IfErr result (λ fault. fault ≡ add_fault self.old) }
        ensures err { OnErr result (self.new ≡ self.old) }
    {
        if self.jobs.len() == MAX_JOBS {
            return Err(JobFault::Full);
        }
        match self.jobs.insert(JobState::Background) {
            Ok(id) => Ok(JobId(id)),
            Err(_) => Err(JobFault::Memory),
        }
    }

    /// Brings a job to the foreground.
    ///
    /// # Errors
    ///
    /// After an error the table is as it was.
    ///
    /// - `WrongState`: a job is in the foreground already, be it this one.
    /// - `NoSuchJob`: the number is not held.
    pub fn foreground(&mut self, id: JobId) -> Result<(), JobFault>
        ensures fault { result_err result ≡ foreground_fault self.old id.0 }
        ensures ok { OnOk result (self.new ≡ with_state self.old id.0 (Some JobState.Foreground)) }
        ensures err { OnErr result (self.new ≡ self.old) }
    {
        match self.state(id) {
            None => Err(JobFault::NoSuchJob),
            Some(_) if self.has_foreground() => Err(JobFault::WrongState),
            Some(_) => {
                self.set(id, JobState::Foreground);
                Ok(())
            },
        }
    }

    /// Lets a job go on in the background, from the foreground or from a stop.
    ///
    /// # Errors
    ///
    /// After an error the table is as it was.
    ///
    /// - `WrongState`: the job is in the background already.
    /// - `NoSuchJob`: the number is not held.
    pub fn background(&mut self, id: JobId) -> Result<(), JobFault>
        ensures fault { result_err result ≡ background_fault self.old id.0 }
        ensures ok { OnOk result (self.new ≡ with_state self.old id.0 (Some JobState.Background)) }
        ensures err { OnErr result (self.new ≡ self.old) }
    {
        match self.state(id) {
            None => Err(JobFault::NoSuchJob),
            Some(JobState::Background) => Err(JobFault::WrongState),
            Some(_) => {
                self.set(id, JobState::Background);
                Ok(())
            },
        }
    }

    /// Stops a job that runs.
    ///
    /// # Errors
    ///
    /// After an error the table is as it was.
    ///
    /// - `WrongState`: the job is stopped already.
    /// - `NoSuchJob`: the number is not held.
    pub fn stopped(&mut self, id: JobId, why: Why) -> Result<(), JobFault>
        ensures fault { result_err result ≡ stopped_fault self.old id.0 }
        ensures ok { OnOk result
            (self.new ≡ with_state self.old id.0 (Some (JobState.Stopped why))) }
        ensures err { OnErr result (self.new ≡ self.old) }
    {
        match self.state(id) {
            None => Err(JobFault::NoSuchJob),
            Some(JobState::Stopped(_)) => Err(JobFault::WrongState),
            Some(_) => {
                self.set(id, JobState::Stopped(why));
                Ok(())
            },
        }
    }

    /// Takes a job out, in any state, and frees its number.
    ///
    /// # Errors
    ///
    /// - `NoSuchJob`: the number is not held; the table is as it was.
    pub fn done(&mut self, id: JobId) -> Result<(), JobFault>
        ensures fault { result_err result ≡ done_fault self.old id.0 }
        ensures ok { OnOk result (self.new ≡ with_state self.old id.0 None) }
        ensures fewer { OnOk result (held_count self.new + 1 ≡ held_count self.old) }
        ensures err { OnErr result (self.new ≡ self.old) }
    {
        match self.state(id) {
            None => Err(JobFault::NoSuchJob),
            Some(_) => {
                self.foreground = foreground_after(self.foreground, id.0, None);
                self.jobs.try_remove(id.0);
                Ok(())
            },
        }
    }

    /// Returns the state of a job, which is never `Ended`; `None` if no job has the number.
    pub fn state(&self, id: JobId) -> Option<JobState>
        ensures state { result ≡ state_at self.now id.0 }
        ensures sound { IsTable self.now }
    {
        self.jobs.get(id.0).copied()
    }

    fn has_foreground(&self) -> bool
        ensures { result ≡ has_foreground self.now }
    {
        self.foreground.is_some()
    }

    fn set(&mut self, id: JobId, state: JobState)
        requires held { IsSome (state_at self.old id.0) }
        requires one_foreground { IsTrue (is_foreground (Some state)) →
            IsFalse (has_foreground self.old) }
        requires not_ended { state ≢ JobState.Ended }
        ensures { self.new ≡ with_state self.old id.0 (Some state) }
    {
        self.foreground = foreground_after(self.foreground, id.0, Some(state));
        self.jobs[id.0] = state;
    }
}

// Returns the number of the foreground job once this number has this state.
fn foreground_after(foreground: Option<usize>, id: usize, state: Option<JobState>) -> Option<usize>
    ensures { result ≡ foreground_after foreground id state }
{
    if state == Some(JobState::Foreground) {
        Some(id)
    } else if foreground == Some(id) {
        None
    } else {
        foreground
    }
}

//! The jobs of a terminal: which one is in the foreground, and what becomes of a job that reads,
//! writes, stops or ends.
//!
//! Begin with `Job`, the trait that a service implements, and `Reaction`, which is what a job
//! returns. `Table` holds the jobs of a terminal by their numbers:
//!
//! ```
//! let mut jobs = Table::new(alloc);
//! let shell = jobs.add()?;
//! jobs.foreground(shell)?;
//! judge(JobState::Background, true, After::Stay, true); // not written, Stopped(Ttou)
//! ```
//!
//! It runs no job and sends no signal.
#![tactic(auto)]

pub use held_jobs::{JobFault, JobId, MAX_JOBS, Table};
pub use reactions::{Job, Reaction};
pub use verdicts::{After, JobState, Verdict, Why, judge};

mod held_jobs;
pub mod laws;
mod reactions;
mod verdicts;

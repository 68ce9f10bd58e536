//! The calls of a service, for contracts.

use crate::finished::Finished;

/// A call of a service, as contracts list them. When it runs nothing makes one.
#[derive(Drop)]
pub enum Turn {
    /// The service made the jobs of the session with this number.
    Made(usize),
    /// The service had no memory for the jobs of the session with this number.
    Refused(usize),
    /// The service got the end of the session with this number.
    Ended(usize, Finished),
}

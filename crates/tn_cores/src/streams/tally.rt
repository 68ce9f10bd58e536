//! Calls that are counted.

ghost use Rattle.std.specs.Prelude.{◌≡◌, ◌≤◌, ◌+◌, min};
ghost use Rattle.tn_cores.specs.streams.Telling.{TellsCall, CountsRead, CountsWrite};
ghost use Rattle.tn_cores.specs.streams.Counting.{told_by, no_calls, failed_after};

use crate::streams::is_interrupted;
use std::io::Result;

/// The number of calls that were made, and how many of them failed. A count that has reached the
/// greatest `u64` stays there, and shows nothing any more.
#[derive(Clone, Copy, PartialEq, Eq)]
pub struct Tally {
    pub(crate) made: u64,
    pub(crate) failed: u64,
}

impl Tally {
    /// Makes the count of no call.
    pub fn new() -> Tally
        ensures { told_by result ≡ no_calls }
    {
        Tally { made: 0, failed: 0 }
    }

    /// Returns the number of calls that failed.
    pub fn failed(self) -> u64
        ensures { result ≡ self.failed }
    {
        self.failed
    }

    fn call(self, fails: bool) -> Tally
        ensures made { result.made ≡ min (self.made + 1) 18446744073709551615 }
        ensures failed { result.failed ≡ failed_after self.failed fails }
    {
        let made = self.made.saturating_add(1);
        if fails {
            let failed = self.failed.saturating_add(1);
            return Tally { made, failed };
        }
        Tally { made, ..self }
    }

    /// Counts one read more, which answered this.
    pub fn after_read(self, answer: &Result<usize>) -> Tally
        ensures tells { TellsCall (CountsRead answer.now) (told_by self) (told_by result) }
        ensures made { result.made ≡ min (self.made + 1) 18446744073709551615 }
        ensures failed { result.failed ≤ self.failed + 1 }
    {
        match answer {
            Ok(_) => self.call(false),
            Err(error) => self.call(!is_interrupted(error)),
        }
    }

    /// Counts one write more, which was handed these bytes and answered this.
    pub fn after_write(self, bytes: &[u8], answer: &Result<usize>) -> Tally
        ensures tells { TellsCall (CountsWrite bytes.now answer.now) (told_by self) (told_by result) }
        ensures made { result.made ≡ min (self.made + 1) 18446744073709551615 }
        ensures failed { result.failed ≤ self.failed + 1 }
    {
        match answer {
            Ok(count) => self.call(*count == 0 && !bytes.is_empty()),
            Err(error) => self.call(!is_interrupted(error)),
        }
    }
}

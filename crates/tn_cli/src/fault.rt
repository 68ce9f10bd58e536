//! The reasons why a subcommand ended early, and the status with which its process ends.

ghost use Rattle.std.specs.Prelude.{◌≡◌};
ghost use Rattle.tn_cli.specs.Faults.{status_of};

use std::alloc::AllocError;
use thiserror::Error;

/// The reason why a subcommand ended early. Its text is what standard error shows after `tn: `.
#[derive(Clone, Copy, Debug, PartialEq, Eq, Error)]
pub enum CliFault {
    /// A read of the input failed, or the input did not end within the reads that a run makes.
    #[error("read")]
    Read,
    /// The input is longer than 1,048,576 bytes.
    #[error("input too long")]
    TooLong,
    /// The line of this number, counted from 1, is no command.
    #[error("line {0}: bad command")]
    Script(usize),
    /// The world refused an event of the command in the line of this number.
    #[error("line {0}: refused")]
    World(usize),
    /// A write of the output failed, or took none of its bytes.
    #[error("write")]
    Write,
    #[error("memory")]
    Memory,
}

impl From<AllocError> for CliFault {
    ghost use Rattle.tn_cli.specs.declared.fault.CliFault.TheVariants as fault;

    ghost from_gives = { λ _ told. told ≡ fault.Memory };

    fn from(_error: AllocError) -> CliFault {
        CliFault::Memory
    }
}

impl CliFault {
    /// Returns the status with which a process ends after this fault.
    pub fn status(self) -> u8
        ensures { result ≡ status_of self }
    {
        match self {
            CliFault::TooLong | CliFault::Script(_) => 2,
            CliFault::World(_) => 3,
            CliFault::Read | CliFault::Write | CliFault::Memory => 1,
        }
    }
}

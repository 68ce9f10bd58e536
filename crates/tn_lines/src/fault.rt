//! The reasons why a talk ended early.

ghost use Rattle.std.specs.Prelude.{◌≡◌};

use std::alloc::AllocError;
use thiserror::Error;

/// The reason why a talk ended early.
#[derive(Clone, Copy, Debug, PartialEq, Eq, Error)]
pub enum TalkFault {
    #[error("the keys could not be read")]
    Keys,
    #[error("the screen takes no more")]
    Screen,
    #[error("memory")]
    Memory,
}

impl From<AllocError> for TalkFault {
    ghost use Rattle.tn_lines.specs.declared.fault.TalkFault.TheVariants as fault;

    ghost from_gives = { λ _ told. told ≡ fault.Memory };

    fn from(_error: AllocError) -> TalkFault {
        TalkFault::Memory
    }
}

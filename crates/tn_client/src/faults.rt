//! The reasons why a call of a client end is refused.

use thiserror::Error;
use tn_discipline::CharFault;

/// The reason why a call of a client end was refused.
#[derive(Clone, Copy, Debug, PartialEq, Eq, Error)]
pub enum ClientFault {
    /// There was no memory. If `feed` returns this, the end has failed.
    #[error("out of memory")]
    Memory,
    /// A call of `feed` was refused before.
    #[error("the end has failed")]
    Failed,
    /// LINEMODE is not on.
    #[error("LINEMODE is not on")]
    NotOn,
    /// The client's own table cannot have the special character.
    #[error("special character: {0}")]
    Char(CharFault),
}

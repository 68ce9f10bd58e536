//! The payloads of subnegotiations (RFC 1073 for NAWS, RFC 1184 for LINEMODE).

use crate::masks::Mask;
use crate::triples::Triples;
use thiserror::Error;

/// The parameters of one subnegotiation of NAWS or LINEMODE.
#[derive(Drop, PartialEq, Eq)]
pub enum Payload {
    /// The size of the client's screen in characters; 0 leaves that dimension open (RFC 1073).
    Naws { width: u16, height: u16 },
    /// MODE with its mask: EDIT 1, TRAPSIG 2, MODE_ACK 4, SOFT_TAB 8 and LIT_ECHO 16; any octet is
    /// read (RFC 1184, section 2.2).
    Mode(u8),
    /// DO FORWARDMASK with the mask.
    ForwardOn(Mask),
    /// DONT FORWARDMASK.
    ForwardOff,
    /// WILL FORWARDMASK.
    ForwardYes,
    /// WONT FORWARDMASK.
    ForwardNo,
    /// A list of local characters (RFC 1184, section 2.4).
    Slc(Triples),
}

/// The reason why parameters were not read.
#[derive(Clone, Copy, Debug, Error, PartialEq, Eq)]
pub enum PayloadFault {
    #[error("no payload is known for this option")]
    UnknownOption,
    #[error("unknown LINEMODE subnegotiation")]
    UnknownSub,
    #[error("wrong number of parameters")]
    BadLength,
    #[error("out of memory")]
    Memory,
}

//! The codes of a Telnet stream and of its subnegotiations (RFC 854, 855, 1073, 1184).
//!
//! Begin with `Payload`, a subnegotiation as a value, and `Verb`, one of WILL, WONT, DO and DONT.
//!
//! `read_payload` reads a payload from the parameters of a subnegotiation, in which a decoder has
//! undoubled IAC, and `write_payload` writes them so:
//!
//! ```
//! match read_payload(alloc, 31, &[0, 80, 0, 24]) {
//!     Ok(Payload::Naws { width, height }) => resize(width, height), // 80 and 24
//!     Ok(_) | Err(_) => {},
//! }
//! ```
//!
//! It does not look for subnegotiations in a stream, double IAC or decide what an end answers.
#![tactic(auto)]

pub use codes::{Command, Func, Level, Verb};
pub use masks::Mask;
pub use numbers::{
    ACK, ECHO, EDIT, FORWARDMASK, IAC, LEVEL_BITS, LINEMODE, MODE, MODE_ACK, NAWS, SLC,
    SUPPRESS_GO_AHEAD, TRAPSIG,
};
pub use payloads::{Payload, PayloadFault};
pub use reading::read_payload;
pub use triples::{Triple, Triples};
pub use writing::{Few, few_parameters, trimmed_len, triple_parameters, write_payload};

mod codes;
pub mod laws;
mod masks;
mod numbers;
mod payloads;
mod reading;
mod triples;
mod writing;
